//! Nodes, as they are fetched.
ghost use Rattle.std.specs.Prelude.{◌+◌, ◌*◌, ◌^◌, ◌≤◌, ◌≡◌, ◌⊎◌, suc, ℕ, List, Option, Some, IfOk, IfErr, length, get_or, Err};
ghost use Rattle.tdb_base.specs.declared.piece.Piece.{Piece as APiece};
ghost use Rattle.tdb_node.specs.Node.{IsEntry};
ghost use Rattle.tdb_node.specs.declared.error.NodeError.TheVariants as node_error;
ghost use Rattle.tdb_map.specs.declared.pieces.PieceError.TheVariants.{Fault, Memory};
ghost use Rattle.tdb_map.specs.Shown.{AsksOneOf, EachShown, Shows, ShowsOneOf};
ghost use Rattle.tdb_map.specs.PieceCause.{IsPieceCause, IsUndamaged};
ghost use Rattle.tdb_map.specs.Nodes.{Grows, IsNodeRecord, IsUnfit, nodes_of};
ghost use Rattle.tdb_map.specs.Tree.{HasNode, entry};

use crate::pieces::{PieceError, Pieces};
use crate::tree::{Tree, node_name};
use std::alloc::Global;
use tdb_base::Piece;
use tdb_node::{Node, NodeError, read_node};
use tdb_seal::{SealError, read_record};

/// The node whose record the bytes are.
fn open_node(
    alloc: Global,
    tree: &Tree,
    level: u32,
    number: u32,
    bytes: &[u8],
) -> Result<Box<Node>, NodeError>
    requires level { level ≤ 4 }
    requires number { (number + 1) * 64 ^ suc level ≤ 1073741824 }
    ensures found { IfOk result (λ node. IsNodeRecord tree.now level number node.value.entries bytes.now) }
    ensures form { result ≡ Err node_error.Form → (node : List (Option APiece)) → IsNodeRecord tree.now level number node bytes.now → ⊥ }
{
    match read_record(alloc, &tree.key, &node_name(tree, level, number), bytes) {
        Ok(plain) => read_node(alloc, &plain),
        Err(SealError::Form) => Err(NodeError::Form),
        Err(SealError::Memory) => Err(NodeError::Memory),
    }
}

/// The node that a piece names.
pub(crate) fn fetch_node<P: Pieces>(
    alloc: Global,
    pieces: &mut P,
    tree: &Tree,
    level: u32,
    number: u32,
    piece: &Piece,
) -> Result<Box<Node>, PieceError>
    requires level { level ≤ 4 }
    requires number { (number + 1) * 64 ^ suc level ≤ 1073741824 }
    ensures node { IfOk result (λ node. nodes_of (P.texts pieces.new) tree.now level number piece.now node.value.entries) }
    ensures count { IfOk result (λ node. length node.value.entries ≡ 64) }
    ensures each { IfOk result (λ node. (k : ℕ) → IsEntry (entry node.value.entries k)) }
    ensures cause { IfErr result (IsPieceCause (P.shown pieces.old) (P.shown pieces.new)
        (P.misfits pieces.new piece.now) (IsUnfit tree.now level number) piece.now) }
    ensures asks { EachShown (P.shown pieces.old) (P.shown pieces.new) (AsksOneOf (λ p. p ≡ piece.now)) }
    ensures undamaged { IsUndamaged result → EachShown (P.shown pieces.old) (P.shown pieces.new) (ShowsOneOf (λ p. p ≡ piece.now)) }
    ensures quiet { (result ≡ Err Fault → ⊥) → (P.shown pieces.new).faults ≡ (P.shown pieces.old).faults }
    ensures goes { P.goes pieces.old pieces.new }
    ensures grows { Grows (P.texts pieces.old) (P.texts pieces.new) }
    ensures shows { Shows (P.shown pieces.old) (P.shown pieces.new) 1 }
{
    let bytes = pieces.fetch(alloc, piece)?;
    match open_node(alloc, tree, level, number, &bytes) {
        Ok(node) => Ok(node),
        Err(NodeError::Form) => Err(PieceError::Form { place: piece.place }),
        Err(NodeError::Memory) => Err(PieceError::Memory),
    }
}

/// The node of a root, one without entries where there is no root. A node of level 0 has leaves, and the nodes of a level are
/// numbered in the order of their ranks.
pub fn node_of<P: Pieces>(
    alloc: Global,
    pieces: &mut P,
    tree: &Tree,
    level: u32,
    number: u32,
    root: Option<Piece>,
) -> Result<Box<Node>, PieceError>
    requires level { level ≤ 4 }
    requires number { (number + 1) * 64 ^ suc level ≤ 1073741824 }
    ensures node { IfOk result (λ node. HasNode (nodes_of (P.texts pieces.new) tree.now) level number root node.value.entries) }
    ensures count { IfOk result (λ node. length node.value.entries ≡ 64) }
    ensures each { IfOk result (λ node. (k : ℕ) → IsEntry (entry node.value.entries k)) }
    ensures cause { IfErr result (λ error. (error ≡ Memory) ⊎ ((piece : APiece) × (root ≡ Some piece)
        × IsPieceCause (P.shown pieces.old) (P.shown pieces.new)
        (P.misfits pieces.new piece) (IsUnfit tree.now level number) piece error)) }
    ensures asks { EachShown (P.shown pieces.old) (P.shown pieces.new) (AsksOneOf (λ p. root ≡ Some p)) }
    ensures undamaged { IsUndamaged result → EachShown (P.shown pieces.old) (P.shown pieces.new) (ShowsOneOf (λ p. root ≡ Some p)) }
    ensures quiet { (result ≡ Err Fault → ⊥) → (P.shown pieces.new).faults ≡ (P.shown pieces.old).faults }
    ensures goes { P.goes pieces.old pieces.new }
    ensures grows { Grows (P.texts pieces.old) (P.texts pieces.new) }
    ensures shows { Shows (P.shown pieces.old) (P.shown pieces.new) 1 }
{
    match root {
        Some(piece) => fetch_node(alloc, pieces, tree, level, number, &piece),
        None => Ok(Box::new(alloc, Node::empty())?),
    }
}
