//! Nodes, as they are laid.
ghost use Rattle.std.specs.Prelude.{◌+◌, ◌*◌, ◌^◌, ◌≤◌, ◌≡◌, ◌↔◌, suc, ℕ, IsTrue, IfOk, IfErr, length};
ghost use Rattle.tdb_node.specs.Node.{IsEntry, IsInNodeFormat};
ghost use Rattle.tdb_map.specs.Nodes.{IsNodeRecord};
ghost use Rattle.tdb_map.specs.Tree.{entry};
ghost use Rattle.tdb_map.specs.Laid.{Lays, LaysNodes, laid_nodes, node_record_length};
ghost use Rattle.tdb_map.specs.Rewritten.{Becomes};
ghost use Rattle.tdb_map.specs.UpdateCause.{IsUpdateCause, IsFull};

use crate::layer::{Layer, UpdateError};
use crate::tree::{Tree, node_name};
use std::alloc::{AllocError, Global};
use tdb_base::Piece;
use tdb_node::{NODE_ENTRIES, Node, write_node};
use tdb_seal::seal_record;

fn is_same_piece(one: &Piece, other: &Piece) -> bool
    ensures { IsTrue result ↔ (one.now ≡ other.now) }
{
    one.length == other.length && one.place.0 == other.place.0 && one.digest.0 == other.digest.0
}

fn is_same_entry(one: &Option<Piece>, other: &Option<Piece>) -> bool
    ensures { IsTrue result ↔ (one.now ≡ other.now) }
{
    match (one, other) {
        (None, None) => true,
        (Some(piece), Some(another)) => is_same_piece(piece, another),
        _ => false,
    }
}

/// Whether two lists have the same entries.
fn is_same(one: &[Option<Piece>; NODE_ENTRIES], other: &[Option<Piece>; NODE_ENTRIES]) -> bool
    ensures { IsTrue result ↔ (one.now ≡ other.now) }
{
    for at in 0..NODE_ENTRIES {
        if !is_same_entry(&one[at], &other[at]) {
            return false;
        }
    }
    true
}

/// The record of a node.
fn seal_node(
    alloc: Global,
    tree: &Tree,
    level: u32,
    number: u32,
    node: &Node,
) -> Result<Vec<u8>, AllocError>
    requires level { level ≤ 4 }
    requires number { (number + 1) * 64 ^ suc level ≤ 1073741824 }
    requires node { IsInNodeFormat node.now.entries }
    ensures sealed { IfOk result (λ bytes. IsNodeRecord tree.now level number node.now.entries bytes.items) }
    ensures some { IfOk result (λ bytes. 1 ≤ length bytes.items) }
    ensures most { IfOk result (λ bytes. length bytes.items ≤ 262144) }
{
    let plain = write_node(alloc, node)?;
    seal_record(alloc, &tree.key, &node_name(tree, level, number), &plain)
}

/// The root of what a node is to have.
pub(crate) fn store<L: Layer>(
    alloc: Global,
    layer: &mut L,
    tree: &Tree,
    level: u32,
    number: u32,
    root: Option<Piece>,
    before: &Node,
    after: &Node,
) -> Result<Option<Piece>, UpdateError>
    requires level { level ≤ 4 }
    requires number { (number + 1) * 64 ^ suc level ≤ 1073741824 }
    requires each { (k : ℕ) → IsEntry (entry after.now.entries k) }
    ensures lays { Lays (L.laid layer.old) (L.laid layer.new) 1 }
    ensures lays_nodes { LaysNodes tree.now (λ l n. (l ≡ level) × (n ≡ number)) (L.laid layer.old) (L.laid layer.new)
        (L.space layer.old) (L.space layer.new) }
    ensures cause { IfErr result (IsUpdateCause (IsFull (L.space layer.new) (node_record_length tree.now)) (λ _. ⊥)) }
    ensures lies { IfOk result (λ then. IsEntry root → IsEntry then) }
    ensures becomes { IfOk result (Becomes (laid_nodes tree.now (L.laid layer.old) (L.laid layer.new)) level number root
        before.now.entries after.now.entries) }
{
    if is_same(&after.entries, &before.entries) {
        return Ok(root);
    }
    if after.is_empty() {
        return Ok(None);
    }
    let sealed = seal_node(alloc, tree, level, number, after)?;
    let piece = layer.lay(alloc, sealed)?;
    Ok(Some(piece))
}
