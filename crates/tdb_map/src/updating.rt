//! Edits of a tree.
ghost use Rattle.std.specs.Prelude.{◌≡◌, ◌+◌, ◌*◌, ◌^◌, ◌<◌, ◌≤◌, suc, None, ℕ, IfOk, IfErr, length};
ghost use Rattle.tdb_node.specs.Node.{IsEntry};
ghost use Rattle.tdb_map.specs.Shown.{AsksOneOf, EachShown, Shows};
ghost use Rattle.tdb_map.specs.Nodes.{Grows, IsOneText, nodes_of};
ghost use Rattle.tdb_map.specs.Tree.{IsOnWayTo};
ghost use Rattle.tdb_map.specs.TreeCause.{IsTreeCause};
ghost use Rattle.tdb_map.specs.Edits.{HasEdit, edit_at, edits_in};
ghost use Rattle.tdb_map.specs.Laid.{IsEditedNode, Lays, LaysNodes, laid_nodes, node_record_length, with_laid};
ghost use Rattle.tdb_map.specs.Rewritten.{Rewritten};
ghost use Rattle.tdb_map.specs.Updated.{EditsLie, EditsFit, IsUpdated, OnlyReaches};
ghost use Rattle.tdb_map.specs.UpdateCause.{IsUpdateCause, IsFull};

use crate::edits::{edit_of, has_edits};
use crate::layer::{Layer, UpdateError};
use crate::nodes::node_of;
use crate::pieces::{PieceError, Pieces};
use crate::storing::store;
use crate::tree::{MAP_HEIGHT, Tree};
use std::alloc::Global;
use std::collections::BTreeMap;
use tdb_base::Piece;

// The new root of the tree of a height that has the number.
fn rewrite<P: Pieces, L: Layer>(
    alloc: Global,
    pieces: &mut P,
    layer: &mut L,
    tree: &Tree,
    edits: &BTreeMap<u32, Option<Piece>>,
    height: u32,
    number: u32,
    root: Option<Piece>,
) -> Result<Option<Piece>, UpdateError>
    requires height { height ≤ 5 }
    requires number { (number + 1) * 64 ^ height ≤ 1073741824 }
    requires edits { EditsLie edits.now.entries }
    ensures shows { Shows (P.shown pieces.old) (P.shown pieces.new) (height * edits_in height number (number + 1) edits.now.entries) }
    ensures cause { IfErr result (IsUpdateCause (IsFull (L.space layer.new) (node_record_length tree.now))
        (IsTreeCause (P.shown pieces.old) (P.shown pieces.new) (P.misfits pieces.new)
        (nodes_of (P.texts pieces.new) tree.now) tree.now (λ rank. edit_at edits.now.entries rank ≡ None → ⊥) height number root)) }
    ensures asks { EachShown (P.shown pieces.old) (P.shown pieces.new) (AsksOneOf (IsOnWayTo (nodes_of (P.texts pieces.new) tree.now)
        (λ rank. edit_at edits.now.entries rank ≡ None → ⊥) height number root)) }
    ensures goes { P.goes pieces.old pieces.new }
    ensures grows { Grows (P.texts pieces.old) (P.texts pieces.new) }
    ensures lays { Lays (L.laid layer.old) (L.laid layer.new) (height * edits_in height number (number + 1) edits.now.entries) }
    ensures lays_nodes { LaysNodes tree.now (λ level at. (level < height) × HasEdit (suc level) at edits.now.entries)
        (L.laid layer.old) (L.laid layer.new) (L.space layer.old) (L.space layer.new) }
    ensures lies { IfOk result (λ then. IsEntry root → IsEntry then) }
    ensures rewritten { IfOk result (Rewritten (nodes_of (P.texts pieces.new) tree.now)
        (laid_nodes tree.now (L.laid layer.old) (L.laid layer.new)) edits.now.entries height number root) }
{
    if height == 0 {
        return Ok(edit_of(edits, number, root));
    }
    if !has_edits(edits, height, number) {
        return Ok(root);
    }
    let kept = node_of(alloc, pieces, tree, height - 1, number, root)?;
    let before = *kept;
    let mut after = before;
    for digit in 0..64 {
        let child = before.entries[digit as usize];
        after.entries[digit as usize] = rewrite(
            alloc,
            pieces,
            layer,
            tree,
            edits,
            height - 1,
            number * 64 + digit,
            child,
        )?;
    }
    store(
        alloc,
        layer,
        tree,
        height - 1,
        number,
        root,
        &before,
        &after,
    )
}

/// The root of the tree that has the edits, and else what the tree has. New nodes are laid. What
/// `IsOneText` asks is that no two of the texts that are known or were laid have one digest.
pub fn update<P: Pieces, L: Layer>(
    alloc: Global,
    pieces: &mut P,
    layer: &mut L,
    tree: &Tree,
    edits: &BTreeMap<u32, Option<Piece>>,
) -> Result<Option<Piece>, UpdateError>
    requires ranks { EditsFit MAP_HEIGHT edits.now.entries }
    requires pieces { EditsLie edits.now.entries }
    ensures updated { IfOk result (λ root. IsOneText (with_laid (P.texts pieces.new) (L.laid layer.new))
        → IsUpdated (nodes_of (with_laid (P.texts pieces.new) (L.laid layer.new)) tree.now) edits.now.entries MAP_HEIGHT
        tree.now.root root) }
    ensures only { IfOk result (λ root. IsOneText (with_laid (P.texts pieces.new) (L.laid layer.new))
        → OnlyReaches (nodes_of (with_laid (P.texts pieces.new) (L.laid layer.new)) tree.now) (L.laid layer.old)
        (L.laid layer.new) edits.now.entries MAP_HEIGHT tree.now.root root) }
    ensures rewritten { IfOk result (Rewritten (nodes_of (P.texts pieces.new) tree.now)
        (laid_nodes tree.now (L.laid layer.old) (L.laid layer.new)) edits.now.entries MAP_HEIGHT 0 tree.now.root) }
    ensures lies { IfOk result (λ root. IsEntry tree.now.root → IsEntry root) }
    ensures lays { Lays (L.laid layer.old) (L.laid layer.new) (MAP_HEIGHT * length edits.now.entries) }
    ensures lays_nodes { LaysNodes tree.now (IsEditedNode MAP_HEIGHT edits.now.entries) (L.laid layer.old)
        (L.laid layer.new) (L.space layer.old) (L.space layer.new) }
    ensures shows { Shows (P.shown pieces.old) (P.shown pieces.new) (MAP_HEIGHT * length edits.now.entries) }
    ensures cause { IfErr result (IsUpdateCause (IsFull (L.space layer.new) (node_record_length tree.now))
        (IsTreeCause (P.shown pieces.old) (P.shown pieces.new) (P.misfits pieces.new)
        (nodes_of (P.texts pieces.new) tree.now) tree.now (λ rank. edit_at edits.now.entries rank ≡ None → ⊥)
        MAP_HEIGHT 0 tree.now.root)) }
    ensures asks { EachShown (P.shown pieces.old) (P.shown pieces.new) (AsksOneOf (IsOnWayTo (nodes_of (P.texts pieces.new) tree.now)
        (λ rank. edit_at edits.now.entries rank ≡ None → ⊥) MAP_HEIGHT 0 tree.now.root)) }
    ensures goes { P.goes pieces.old pieces.new }
    ensures grows { Grows (P.texts pieces.old) (P.texts pieces.new) }
{
    rewrite(alloc, pieces, layer, tree, edits, MAP_HEIGHT, 0, tree.root)
}
