//! Changes of a tree, by their ranks.
ghost use Rattle.std.specs.Prelude.{◌≡◌, ◌+◌, ◌*◌, ◌^◌, ◌<◌, ◌≤◌, ◌↔◌, IsTrue};
ghost use Rattle.tdb_map.specs.Edits.{edited, edits_in};

use crate::tree::span;
use std::collections::BTreeMap;
use tdb_base::Piece;

/// What a rank has by the edits, where it had `leaf` before them.
pub(crate) fn edit_of(
    edits: &BTreeMap<u32, Option<Piece>>,
    rank: u32,
    leaf: Option<Piece>,
) -> Option<Piece>
    ensures { result ≡ edited edits.now.entries rank leaf }
{
    match edits.get(&rank) {
        Some(edit) => *edit,
        None => leaf,
    }
}

/// Whether there are edits in the tree of a height that has the number.
pub(crate) fn has_edits(edits: &BTreeMap<u32, Option<Piece>>, height: u32, number: u32) -> bool
    requires height { height ≤ 5 }
    requires number { (number + 1) * 64 ^ height ≤ 1073741824 }
    ensures { IsTrue result ↔ (0 < edits_in height number (number + 1) edits.now.entries) }
{
    let width = span(height);
    let from = number * width;
    edits.range(from..from + width).next().is_some()
}
