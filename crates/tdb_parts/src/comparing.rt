//! At which ranks two trees differ.
ghost use Rattle.std.specs.Prelude.{◌≡◌, ◌⊎◌, ◌+◌, ◌*◌, ◌/◌, ◌^◌, ◌<◌, ◌≤◌, ℕ, List, Option, [], suc, IfOk, IfErr, OnOk, OnErr, Err};
ghost use Rattle.tdb_map.specs.PieceCause.{IsUndamaged};
ghost use Rattle.tdb_map.specs.declared.pieces.PieceError.TheVariants.{Fault};
ghost use Rattle.tdb_map.specs.Shown.{AsksOneOf, EachShown, Shows, ShowsOneOf};
ghost use Rattle.tdb_map.specs.Nodes.{Grows, nodes_of};
ghost use Rattle.tdb_map.specs.Tree.{HasNode, node_count};
ghost use Rattle.tdb_parts.specs.ChangedCause.{IsChangedCause, IsOfEither};
ghost use Rattle.tdb_parts.specs.Chunk.{HasChunkAt};
ghost use Rattle.tdb_parts.specs.Told.{AreDigests, Ascends, HasTold, IsDifference, IsShared, IsTold, told};

use crate::leaves::side_of_leaves;
use crate::pair::{Roots, Trees};
use std::alloc::Global;
use tdb_base::Rank;
use tdb_map::{MAP_HEIGHT, PieceError, Pieces, Tree, node_of};
use tdb_model::Side;
use tdb_node::Node;

// The nodes of two roots, an empty one where there is no root.
fn nodes_of_both<P: Pieces>(
    alloc: Global,
    pieces: &mut P,
    trees: &Trees<'_>,
    level: u32,
    number: u32,
    roots: Roots,
) -> Result<(Box<Node>, Box<Node>), PieceError>
    requires level { level ≤ 4 }
    requires number { (number + 1) * 64 ^ suc level ≤ 1073741824 }
    ensures node_a { IfOk result (λ both.
        HasNode (nodes_of (P.texts pieces.new) trees.now.a.now) level number roots.a both.0.value.entries) }
    ensures node_b { IfOk result (λ both.
        HasNode (nodes_of (P.texts pieces.new) trees.now.b.now) level number roots.b both.1.value.entries) }
    ensures cause { IfErr result (IsChangedCause (P.shown pieces.old) (P.shown pieces.new) (P.misfits pieces.new) (P.texts pieces.new)
        trees.now.a.now trees.now.b.now (suc level) number roots.a roots.b) }
    ensures asks { EachShown (P.shown pieces.old) (P.shown pieces.new) (AsksOneOf (IsOfEither (P.texts pieces.new)
        trees.now.a.now trees.now.b.now (suc level) number roots.a roots.b)) }
    ensures undamaged { IsUndamaged result → EachShown (P.shown pieces.old) (P.shown pieces.new)
        (ShowsOneOf (IsOfEither (P.texts pieces.new)
        trees.now.a.now trees.now.b.now (suc level) number roots.a roots.b)) }
    ensures quiet { (result ≡ Err Fault → ⊥) → (P.shown pieces.new).faults ≡ (P.shown pieces.old).faults }
    ensures goes { P.goes pieces.old pieces.new }
    ensures grows { Grows (P.texts pieces.old) (P.texts pieces.new) }
    ensures shows { Shows (P.shown pieces.old) (P.shown pieces.new) 2 }
{
    let in_a = node_of(alloc, pieces, trees.a, level, number, roots.a)?;
    let in_b = node_of(alloc, pieces, trees.b, level, number, roots.b)?;
    Ok((in_a, in_b))
}

// Adds what is told of two leaves at a rank.
fn add_leaves<P: Pieces>(
    alloc: Global,
    pieces: &mut P,
    trees: &Trees<'_>,
    rank: u32,
    leaves: Roots,
    found: &mut Vec<(Rank, Side)>,
) -> Result<(), PieceError>
    ensures has_told { OnOk result (HasTold (P.texts pieces.new) trees.now.a.now trees.now.b.now 0 rank leaves.a leaves.b
        found.old.items found.new.items) }
    ensures cause { IfErr result (IsChangedCause (P.shown pieces.old) (P.shown pieces.new) (P.misfits pieces.new) (P.texts pieces.new)
        trees.now.a.now trees.now.b.now 0 rank leaves.a leaves.b) }
    ensures asks { EachShown (P.shown pieces.old) (P.shown pieces.new) (AsksOneOf (IsOfEither (P.texts pieces.new)
        trees.now.a.now trees.now.b.now 0 rank leaves.a leaves.b)) }
    ensures undamaged { IsUndamaged result → EachShown (P.shown pieces.old) (P.shown pieces.new)
        (ShowsOneOf (IsOfEither (P.texts pieces.new)
        trees.now.a.now trees.now.b.now 0 rank leaves.a leaves.b)) }
    ensures quiet { (result ≡ Err Fault → ⊥) → (P.shown pieces.new).faults ≡ (P.shown pieces.old).faults }
    ensures goes { P.goes pieces.old pieces.new }
    ensures grows { Grows (P.texts pieces.old) (P.texts pieces.new) }
    ensures shows { Shows (P.shown pieces.old) (P.shown pieces.new) 2 }
{
    if let Some(side) = side_of_leaves(alloc, pieces, trees, rank, leaves)? {
        found.push((Rank(rank), side))?;
    }
    Ok(())
}

// Adds the differences of two trees of a height that have the number. What they share is passed over.
fn changed_below<P: Pieces>(
    alloc: Global,
    pieces: &mut P,
    trees: &Trees<'_>,
    height: u32,
    number: u32,
    roots: Roots,
    found: &mut Vec<(Rank, Side)>,
) -> Result<(), PieceError>
    requires height { height ≤ 5 }
    requires number { (number + 1) * 64 ^ height ≤ 1073741824 }
    ensures has_told { OnOk result (HasTold (P.texts pieces.new) trees.now.a.now trees.now.b.now height number roots.a roots.b
        found.old.items found.new.items) }
    ensures shared { IsShared trees.now.a.now trees.now.b.now roots.a roots.b
        → (pieces.new ≡ pieces.old) × (found.new ≡ found.old) × OnErr result ⊥ }
    ensures cause { IfErr result (IsChangedCause (P.shown pieces.old) (P.shown pieces.new) (P.misfits pieces.new) (P.texts pieces.new)
        trees.now.a.now trees.now.b.now height number roots.a roots.b) }
    ensures asks { EachShown (P.shown pieces.old) (P.shown pieces.new) (AsksOneOf (IsOfEither (P.texts pieces.new)
        trees.now.a.now trees.now.b.now height number roots.a roots.b)) }
    ensures undamaged { IsUndamaged result → EachShown (P.shown pieces.old) (P.shown pieces.new)
        (ShowsOneOf (IsOfEither (P.texts pieces.new)
        trees.now.a.now trees.now.b.now height number roots.a roots.b)) }
    ensures quiet { (result ≡ Err Fault → ⊥) → (P.shown pieces.new).faults ≡ (P.shown pieces.old).faults }
    ensures goes { P.goes pieces.old pieces.new }
    ensures grows { Grows (P.texts pieces.old) (P.texts pieces.new) }
    ensures shows { Shows (P.shown pieces.old) (P.shown pieces.new) (2 * node_count (height + 1)) }
{
    if trees.share(roots) {
        return Ok(());
    }
    if height == 0 {
        return add_leaves(alloc, pieces, trees, number, roots, found);
    }
    let below = height - 1;
    let (node_a, node_b) = nodes_of_both(alloc, pieces, trees, below, number, roots)?;
    for digit in 0..64 {
        let children = Roots {
            a: node_a.entries[digit as usize],
            b: node_b.entries[digit as usize],
        };
        changed_below(
            alloc,
            pieces,
            trees,
            below,
            number * 64 + digit,
            children,
            found,
        )?;
    }
    Ok(())
}

/// The ranks, ascending, at which the maps of two partitions differ in presence or bytes, each with whether `b` has a chunk
/// there. A node that both trees share is not read, and equal trees are not read at all. Under one key, suite and home the
/// digests of two records tell whether their bytes differ; else both records are read.
pub fn changed<P: Pieces>(
    alloc: Global,
    pieces: &mut P,
    a: &Tree,
    b: &Tree,
) -> Result<Vec<(Rank, Side)>, PieceError>
    ensures differs { IfOk result (λ found. AreDigests (P.texts pieces.new) → (rank : ℕ) → rank < 64 ^ MAP_HEIGHT
        → (one other : Option (List ℕ)) → HasChunkAt (P.texts pieces.new) a.now rank one → HasChunkAt (P.texts pieces.new) b.now rank other
        → IsDifference one other (told found.items rank)) }
    ensures at { IfOk result (λ found. (rank : ℕ) → rank < 64 ^ MAP_HEIGHT
        → IsTold (P.texts pieces.new) a.now b.now MAP_HEIGHT 0 a.now.root b.now.root rank (told found.items rank)) }
    ensures ascends { IfOk result (λ found. Ascends 0 (64 ^ MAP_HEIGHT) found.items) }
    ensures equal { a.now ≡ b.now → (pieces.new ≡ pieces.old) × OnErr result ⊥ × IfOk result (λ found. found.items ≡ []) }
    ensures cause { IfErr result (IsChangedCause (P.shown pieces.old) (P.shown pieces.new) (P.misfits pieces.new) (P.texts pieces.new)
        a.now b.now MAP_HEIGHT 0 a.now.root b.now.root) }
    ensures asks { EachShown (P.shown pieces.old) (P.shown pieces.new) (AsksOneOf (IsOfEither (P.texts pieces.new)
        a.now b.now MAP_HEIGHT 0 a.now.root b.now.root)) }
    ensures undamaged { IsUndamaged result → EachShown (P.shown pieces.old) (P.shown pieces.new)
        (ShowsOneOf (IsOfEither (P.texts pieces.new)
        a.now b.now MAP_HEIGHT 0 a.now.root b.now.root)) }
    ensures quiet { (result ≡ Err Fault → ⊥) → (P.shown pieces.new).faults ≡ (P.shown pieces.old).faults }
    ensures goes { P.goes pieces.old pieces.new }
    ensures grows { Grows (P.texts pieces.old) (P.texts pieces.new) }
    ensures shows { Shows (P.shown pieces.old) (P.shown pieces.new) (2 * node_count (MAP_HEIGHT + 1)) }
{
    let mut found = Vec::new(alloc);
    let roots = Roots {
        a: a.root,
        b: b.root,
    };
    changed_below(
        alloc,
        pieces,
        &Trees { a, b },
        MAP_HEIGHT,
        0,
        roots,
        &mut found,
    )?;
    Ok(found)
}
