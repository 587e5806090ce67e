//! The node: 64 entries, each a piece or none.
ghost use Rattle.std.specs.Prelude.{◌≡◌, ◌↔◌, ◌<◌, ◌++◌, ℕ, IsTrue, IfOk, IfErr, OnOk, MatchOption, Option, List, length, get_or};
ghost use Rattle.tdb_base.specs.declared.piece.Piece.{Piece};
ghost use Rattle.tdb_node.specs.declared.node.Node.{Node};
ghost use Rattle.tdb_node.specs.declared.error.NodeError.TheVariants.{Form};
ghost use Rattle.tdb_node.specs.Node.{IsEntry, IsEntryValue, IsInNodeFormat, IsNodeValue, IsNode, empty_node, node_bytes};

use crate::entry::{ENTRY_LENGTH, push_entry, read_entry};
use crate::error::NodeError;
use std::alloc::{AllocError, Global};
use tdb_base::Piece;

/// The number of entries of a node.
pub const NODE_ENTRIES: usize = 64;

/// The length of a node in bytes.
pub const NODE_LENGTH: usize = ENTRY_LENGTH * NODE_ENTRIES;

/// A node of a location map. Its entries name chunks, leaders or nodes of the level below.
#[derive(Clone, Copy, Debug, PartialEq, Eq)]
pub struct Node {
    /// The entries in the order of the ranks that they cover.
    pub entries: [Option<Piece>; NODE_ENTRIES],
}

/// Whether there is no entry.
fn has_none(entries: &[Option<Piece>; NODE_ENTRIES]) -> bool
    ensures { IsTrue result ↔ (entries.now ≡ empty_node) }
{
    for entry in entries.iter() {
        if entry.is_some() {
            return false;
        }
    }
    true
}

/// Whether each piece of the entries lies in one segment.
fn all_lie(entries: &[Option<Piece>; NODE_ENTRIES]) -> bool
    ensures { IsTrue result ↔ ((k : ℕ) → IsEntry (get_or entries.now k None)) }
{
    for entry in entries.iter() {
        if let Some(piece) = entry {
            if !piece.lies_in_one_segment() {
                return false;
            }
        }
    }
    true
}

impl Node {
    /// A node without an entry. It has no spelling.
    #[tactic(auto, unfolding(crate::specs::Node::empty_node))]
    pub fn empty() -> Node
        ensures { result.entries ≡ empty_node }
    {
        Node {
            entries: [None; NODE_ENTRIES],
        }
    }

    /// Whether there is no entry.
    pub fn is_empty(&self) -> bool
        ensures { IsTrue result ↔ (self.now.entries ≡ empty_node) }
    {
        has_none(&self.entries)
    }

    /// The piece that an entry names.
    pub fn get(&self, index: usize) -> Option<&Piece>
        requires { index < 64 }
        ensures { MatchOption result (get_or self.now.entries index None ≡ None)
            (λ piece. get_or self.now.entries index None ≡ Some piece.now) }
    {
        self.entries[index].as_ref()
    }

    /// Whether the node has a spelling: an entry is there, and each piece lies in one segment.
    pub fn is_well_formed(&self) -> bool
        ensures { IsTrue result ↔ IsInNodeFormat self.now.entries }
    {
        !self.is_empty() && all_lie(&self.entries)
    }
}

/// The spellings of the entries one behind another.
fn push_entries(
    bytes: &mut Vec<u8>,
    entries: &[Option<Piece>; NODE_ENTRIES],
) -> Result<(), AllocError>
    ensures value { OnOk result (IsNodeValue entries.now) }
    ensures spelled { OnOk result (bytes.new.items ≡ bytes.old.items ++ node_bytes entries.now) }
{
    for entry in entries.iter() {
        push_entry(bytes, entry)?;
    }
    Ok(())
}

/// The one spelling of a node, 3,072 bytes.
pub fn write_node(alloc: Global, node: &Node) -> Result<Vec<u8>, AllocError>
    requires { IsInNodeFormat node.now.entries }
    ensures { IfOk result (λ bytes. IsNode node.now.entries bytes.items) }
{
    let mut bytes = Vec::with_capacity(alloc, NODE_LENGTH)?;
    push_entries(&mut bytes, &node.entries)?;
    Ok(bytes)
}

/// Reads 64 entries one behind another.
fn read_entries(bytes: &[u8], entries: &mut [Option<Piece>; NODE_ENTRIES]) -> Result<(), NodeError>
    requires { length bytes.now ≡ 3072 }
    ensures value { OnOk result (IsNodeValue entries.new) }
    ensures each { OnOk result ((k : ℕ) → IsEntry (get_or entries.new k None)) }
    ensures spelled { OnOk result (bytes.now ≡ node_bytes entries.new) }
    ensures form { IfErr result (λ error. (error ≡ Form) × ((other : List (Option Piece)) → IsNode other bytes.now → ⊥)) }
{
    let mut rest = bytes;
    for index in 0..NODE_ENTRIES {
        let (field, behind) = rest.split_at(ENTRY_LENGTH);
        entries[index] = read_entry(field)?;
        rest = behind;
    }
    Ok(())
}

/// The node that the bytes spell.
pub fn read_node(alloc: Global, bytes: &[u8]) -> Result<Box<Node>, NodeError>
    ensures found { IfOk result (λ node. IsNode node.value.entries bytes.now) }
    ensures form { result ≡ Err Form → (entries : List (Option Piece)) → IsNode entries bytes.now → ⊥ }
{
    if bytes.len() != NODE_LENGTH {
        return Err(NodeError::Form);
    }
    let mut node = Node::empty();
    read_entries(bytes, &mut node.entries)?;
    if node.is_empty() {
        return Err(NodeError::Form);
    }
    Ok(Box::new(alloc, node)?)
}
