//! What a tree has at a rank.
ghost use Rattle.std.specs.Prelude.{◌+◌, ◌*◌, ◌/◌, ◌≡◌, ◌≤◌, ◌<◌, ◌^◌, ℕ, IfOk, IfErr, Err};
ghost use Rattle.tdb_map.specs.PieceCause.{IsUndamaged};
ghost use Rattle.tdb_map.specs.declared.pieces.PieceError.TheVariants.{Fault};
ghost use Rattle.tdb_map.specs.Shown.{AsksOneOf, EachShown, Shows, ShowsOneOf};
ghost use Rattle.tdb_map.specs.Nodes.{Grows, nodes_of};
ghost use Rattle.tdb_map.specs.Tree.{HasAt, IsAt, IsOnWayTo};
ghost use Rattle.tdb_map.specs.TreeCause.{IsTreeCause};

use crate::nodes::fetch_node;
use crate::pieces::{PieceError, Pieces};
use crate::tree::{MAP_HEIGHT, Tree, digit_at, span};
use std::alloc::Global;
use tdb_base::{Piece, Rank};

// What the tree of a height and with a number has at a rank.
fn leaf_below<P: Pieces>(
    alloc: Global,
    pieces: &mut P,
    tree: &Tree,
    height: u32,
    number: u32,
    root: Option<Piece>,
    rank: u32,
) -> Result<Option<Piece>, PieceError>
    requires height { height ≤ 5 }
    requires number { (number + 1) * 64 ^ height ≤ 1073741824 }
    requires rank { rank / 64 ^ height ≡ number }
    ensures at { IfOk result (λ leaf. IsAt (nodes_of (P.texts pieces.new) tree.now) height number root rank leaf) }
    ensures cause { IfErr result (IsTreeCause (P.shown pieces.old) (P.shown pieces.new) (P.misfits pieces.new)
        (nodes_of (P.texts pieces.new) tree.now) tree.now (λ r. r ≡ rank) height number root) }
    ensures asks { EachShown (P.shown pieces.old) (P.shown pieces.new)
        (AsksOneOf (IsOnWayTo (nodes_of (P.texts pieces.new) tree.now) (λ r. r ≡ rank) height number root)) }
    ensures undamaged { IsUndamaged result → EachShown (P.shown pieces.old) (P.shown pieces.new)
        (ShowsOneOf (IsOnWayTo (nodes_of (P.texts pieces.new) tree.now) (λ r. r ≡ rank) height number root)) }
    ensures quiet { (result ≡ Err Fault → ⊥) → (P.shown pieces.new).faults ≡ (P.shown pieces.old).faults }
    ensures goes { P.goes pieces.old pieces.new }
    ensures grows { Grows (P.texts pieces.old) (P.texts pieces.new) }
    ensures shows { Shows (P.shown pieces.old) (P.shown pieces.new) height }
{
    if height == 0 {
        return Ok(root);
    }
    let Some(piece) = root else {
        return Ok(None);
    };
    let below = height - 1;
    let node = fetch_node(alloc, pieces, tree, below, number, &piece)?;
    let digit = digit_at(below, rank);
    let child = node.entries[digit as usize];
    leaf_below(alloc, pieces, tree, below, number * 64 + digit, child, rank)
}

/// What the tree has at a rank. It has nothing at ranks from 262,144 on.
pub fn lookup<P: Pieces>(
    alloc: Global,
    pieces: &mut P,
    tree: &Tree,
    rank: Rank,
) -> Result<Option<Piece>, PieceError>
    ensures at { IfOk result (λ leaf. HasAt (nodes_of (P.texts pieces.new) tree.now) MAP_HEIGHT tree.now.root rank.0 leaf) }
    ensures cause { IfErr result (IsTreeCause (P.shown pieces.old) (P.shown pieces.new) (P.misfits pieces.new)
        (nodes_of (P.texts pieces.new) tree.now) tree.now (λ r. r ≡ rank.0) MAP_HEIGHT 0 tree.now.root) }
    ensures asks { EachShown (P.shown pieces.old) (P.shown pieces.new)
        (AsksOneOf (IsOnWayTo (nodes_of (P.texts pieces.new) tree.now) (λ r. r ≡ rank.0) MAP_HEIGHT 0 tree.now.root)) }
    ensures undamaged { IsUndamaged result → EachShown (P.shown pieces.old) (P.shown pieces.new)
        (ShowsOneOf (IsOnWayTo (nodes_of (P.texts pieces.new) tree.now) (λ r. r ≡ rank.0) MAP_HEIGHT 0 tree.now.root)) }
    ensures quiet { (result ≡ Err Fault → ⊥) → (P.shown pieces.new).faults ≡ (P.shown pieces.old).faults }
    ensures goes { P.goes pieces.old pieces.new }
    ensures grows { Grows (P.texts pieces.old) (P.texts pieces.new) }
    ensures shows { Shows (P.shown pieces.old) (P.shown pieces.new) MAP_HEIGHT }
{
    if rank.0 >= span(MAP_HEIGHT) {
        return Ok(None);
    }
    leaf_below(alloc, pieces, tree, MAP_HEIGHT, 0, tree.root, rank.0)
}
