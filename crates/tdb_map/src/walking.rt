//! The whole of a tree.
ghost use Rattle.std.specs.Prelude.{◌≡◌, ◌⊎◌, ◌+◌, ◌*◌, ◌^◌, ◌<◌, ◌≤◌, None, Some, IfOk, IfErr, OnOk, MatchOption, ℕ, Err};
ghost use Rattle.tdb_map.specs.PieceCause.{IsUndamaged};
ghost use Rattle.tdb_map.specs.declared.pieces.PieceError.TheVariants.{Fault};
ghost use Rattle.tdb_map.specs.Shown.{AsksOneOf, EachShown, Shows, ShowsOneOf};
ghost use Rattle.tdb_map.specs.Nodes.{Grows, nodes_of};
ghost use Rattle.tdb_map.specs.Tree.{IsAt, IsOnWayTo, entry, node_count};
ghost use Rattle.tdb_map.specs.TreeCause.{IsTreeCause};
ghost use Rattle.tdb_map.specs.Walk.{Ascends, HasWalked, IsTooWide, listed};

use crate::nodes::fetch_node;
use crate::pieces::{PieceError, Pieces};
use crate::tree::{MAP_HEIGHT, Tree};
use std::alloc::Global;
use tdb_base::{Piece, Rank};
use tdb_node::Node;

// Adds the entries of the tree of a height that has the number.
fn walk_below<P: Pieces>(
    alloc: Global,
    pieces: &mut P,
    tree: &Tree,
    height: u32,
    number: u32,
    root: Option<Piece>,
    found: &mut Vec<(Rank, Piece)>,
) -> Result<(), PieceError>
    requires height { height ≤ 5 }
    requires number { (number + 1) * 64 ^ height ≤ 1073741824 }
    ensures walked { OnOk result (HasWalked (nodes_of (P.texts pieces.new) tree.now) height number root found.old.items found.new.items) }
    ensures cause { IfErr result (IsTreeCause (P.shown pieces.old) (P.shown pieces.new) (P.misfits pieces.new)
        (nodes_of (P.texts pieces.new) tree.now) tree.now (λ _. Unit {0}) height number root) }
    ensures asks { EachShown (P.shown pieces.old) (P.shown pieces.new)
        (AsksOneOf (IsOnWayTo (nodes_of (P.texts pieces.new) tree.now) (λ _. Unit {0}) height number root)) }
    ensures undamaged { IsUndamaged result → EachShown (P.shown pieces.old) (P.shown pieces.new)
        (ShowsOneOf (IsOnWayTo (nodes_of (P.texts pieces.new) tree.now) (λ _. Unit {0}) height number root)) }
    ensures quiet { (result ≡ Err Fault → ⊥) → (P.shown pieces.new).faults ≡ (P.shown pieces.old).faults }
    ensures goes { P.goes pieces.old pieces.new }
    ensures grows { Grows (P.texts pieces.old) (P.texts pieces.new) }
    ensures shows { Shows (P.shown pieces.old) (P.shown pieces.new) (node_count height) }
{
    let Some(piece) = root else {
        return Ok(());
    };
    if height == 0 {
        found.push((Rank(number), piece))?;
        return Ok(());
    }
    let node = fetch_node(alloc, pieces, tree, height - 1, number, &piece)?;
    for digit in 0..64 {
        let child = node.entries[digit as usize];
        walk_below(
            alloc,
            pieces,
            tree,
            height - 1,
            number * 64 + digit,
            child,
            found,
        )?;
    }
    Ok(())
}

/// What the tree has, in the order of the ranks.
pub fn walk<P: Pieces>(
    alloc: Global,
    pieces: &mut P,
    tree: &Tree,
) -> Result<Vec<(Rank, Piece)>, PieceError>
    ensures at { IfOk result (λ entries. (rank : ℕ) → rank < 64 ^ MAP_HEIGHT
        → IsAt (nodes_of (P.texts pieces.new) tree.now) MAP_HEIGHT 0 tree.now.root rank (listed entries.items rank)) }
    ensures ascends { IfOk result (λ entries. Ascends 0 (64 ^ MAP_HEIGHT) entries.items) }
    ensures cause { IfErr result (IsTreeCause (P.shown pieces.old) (P.shown pieces.new) (P.misfits pieces.new)
        (nodes_of (P.texts pieces.new) tree.now) tree.now (λ _. Unit {0}) MAP_HEIGHT 0 tree.now.root) }
    ensures asks { EachShown (P.shown pieces.old) (P.shown pieces.new)
        (AsksOneOf (IsOnWayTo (nodes_of (P.texts pieces.new) tree.now) (λ _. Unit {0}) MAP_HEIGHT 0 tree.now.root)) }
    ensures undamaged { IsUndamaged result → EachShown (P.shown pieces.old) (P.shown pieces.new)
        (ShowsOneOf (IsOnWayTo (nodes_of (P.texts pieces.new) tree.now) (λ _. Unit {0}) MAP_HEIGHT 0 tree.now.root)) }
    ensures quiet { (result ≡ Err Fault → ⊥) → (P.shown pieces.new).faults ≡ (P.shown pieces.old).faults }
    ensures goes { P.goes pieces.old pieces.new }
    ensures grows { Grows (P.texts pieces.old) (P.texts pieces.new) }
    ensures shows { Shows (P.shown pieces.old) (P.shown pieces.new) (node_count MAP_HEIGHT) }
{
    let mut found = Vec::new(alloc);
    walk_below(alloc, pieces, tree, MAP_HEIGHT, 0, tree.root, &mut found)?;
    Ok(found)
}

/// An entry of a node beyond the first one.
fn beyond_first(node: &Node) -> Option<Piece>
    ensures { MatchOption result ((k : ℕ) → 1 ≤ k → k < 64 → entry node.now.entries k ≡ None)
        (λ piece. (k : ℕ) × (1 ≤ k) × (entry node.now.entries k ≡ Some piece)) }
{
    for digit in 1..64 {
        if node.entries[digit].is_some() {
            return node.entries[digit];
        }
    }
    None
}

/// What a tree has whose ranks are below 4,096. Where the root has another entry than the first one, this entry is refused
/// before any node below the root is read.
pub fn walk_narrow<P: Pieces>(
    alloc: Global,
    pieces: &mut P,
    tree: &Tree,
) -> Result<Vec<(Rank, Piece)>, PieceError>
    ensures at { IfOk result (λ entries. (rank : ℕ) → rank < 64 ^ MAP_HEIGHT
        → IsAt (nodes_of (P.texts pieces.new) tree.now) MAP_HEIGHT 0 tree.now.root rank (listed entries.items rank)) }
    ensures ascends { IfOk result (λ entries. Ascends 0 4096 entries.items) }
    ensures cause { IfErr result (λ error. IsTooWide (nodes_of (P.texts pieces.new) tree.now) tree.now.root error
        ⊎ IsTreeCause (P.shown pieces.old) (P.shown pieces.new) (P.misfits pieces.new)
        (nodes_of (P.texts pieces.new) tree.now) tree.now (λ _. Unit {0}) MAP_HEIGHT 0 tree.now.root error) }
    ensures asks { EachShown (P.shown pieces.old) (P.shown pieces.new)
        (AsksOneOf (IsOnWayTo (nodes_of (P.texts pieces.new) tree.now) (λ _. Unit {0}) MAP_HEIGHT 0 tree.now.root)) }
    ensures undamaged { IsUndamaged result → EachShown (P.shown pieces.old) (P.shown pieces.new)
        (ShowsOneOf (IsOnWayTo (nodes_of (P.texts pieces.new) tree.now) (λ _. Unit {0}) MAP_HEIGHT 0 tree.now.root)) }
    ensures quiet { (result ≡ Err Fault → ⊥) → (P.shown pieces.new).faults ≡ (P.shown pieces.old).faults }
    ensures goes { P.goes pieces.old pieces.new }
    ensures grows { Grows (P.texts pieces.old) (P.texts pieces.new) }
    ensures shows { Shows (P.shown pieces.old) (P.shown pieces.new) 66 }
{
    let mut found = Vec::new(alloc);
    let Some(piece) = tree.root else {
        return Ok(found);
    };
    let node = fetch_node(alloc, pieces, tree, MAP_HEIGHT - 1, 0, &piece)?;
    if let Some(above) = beyond_first(&node) {
        return Err(PieceError::Form { place: above.place });
    }
    walk_below(
        alloc,
        pieces,
        tree,
        MAP_HEIGHT - 1,
        0,
        node.entries[0],
        &mut found,
    )?;
    Ok(found)
}
