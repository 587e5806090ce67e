//! A tree, and how its ranks lie below the entries of its nodes.
ghost use Rattle.std.specs.Prelude.{◌≡◌, ◌≤◌, ◌<◌, ◌+◌, ◌*◌, ◌^◌, suc};
ghost use Rattle.tdb_map.specs.Nodes.{node_name as name_of};
ghost use Rattle.tdb_map.specs.Tree.{digit};

use tdb_base::{Key, Piece, Suite};
use tdb_seal::Name;

/// The height of a partition's tree, and of the roster.
pub const MAP_HEIGHT: u32 = 3;

/// The kind of the record of a node above the leaves. A node of the next level has the next kind.
const NODE_KIND: u32 = 16;

/// A location map: a tree of nodes of 64 entries, for ranks below 262,144.
#[derive(Clone, Copy)]
pub struct Tree {
    /// The piece of the root, if the tree has any leaf.
    pub root: Option<Piece>,
    /// The key of its nodes' records.
    pub key: Key,
    /// How these records are enciphered.
    pub suite: Suite,
    /// The partition that was made with the key, 0 for the roster.
    pub home: u32,
}

/// How many ranks a tree of a height has.
pub(crate) fn span(height: u32) -> u32
    requires { height ≤ 5 }
    ensures is { result ≡ 64 ^ height }
    ensures positive { 0 < result }
{
    match height {
        0 => 1,
        1 => 64,
        2 => 4_096,
        3 => 262_144,
        4 => 16_777_216,
        _ => 1_073_741_824,
    }
}

/// The entry of a node below which a rank lies. The trees below the entries have the height.
pub(crate) fn digit_at(height: u32, rank: u32) -> u32
    requires { height ≤ 5 }
    ensures is { result ≡ digit height rank }
    ensures small { result < 64 }
{
    rank / span(height) % 64
}

/// The name of the record of a node.
pub(crate) fn node_name(tree: &Tree, level: u32, number: u32) -> Name
    requires level { level ≤ 4 }
    requires number { (number + 1) * 64 ^ suc level ≤ 1073741824 }
    ensures { result ≡ name_of tree.now level number }
{
    Name {
        kind: NODE_KIND + level,
        suite: tree.suite,
        home: tree.home,
        rank: number * span(level + 1),
    }
}
