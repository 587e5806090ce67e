//! The nodes of an ordered index.
ghost use Rattle.std.specs.Prelude.{◌≡◌, ◌++◌, OnOk, IfOk};
ghost use Rattle.tdb_class.specs.declared.universe.PickleError.TheVariants.{Form};
ghost use Rattle.tdb_stored.specs.Node.{IsTreeNode, node_bytes};
ghost use Rattle.tdb_stored.specs.declared.node.TreeNode.{TreeNode as ATreeNode};

use crate::entries::Entries;
use crate::inner::{Inner, NODE_LIMIT};
use std::alloc::{AllocError, Global};
use tdb_base::{push_u32, split_u32};
use tdb_class::PickleError;

const LEAF: u32 = 0;

const INNER: u32 = 1;

/// A node of an ordered index.
#[derive(Debug, Drop)]
pub enum TreeNode {
    Leaf(Entries<NODE_LIMIT>),
    Inner(Inner),
}

impl TreeNode {
    /// Each node is in range. It costs nothing.
    pub(crate) fn known(&self)
        ensures { IsTreeNode self.now }
    {
        match self {
            TreeNode::Leaf(entries) => {
                entries.as_slice();
            }
            TreeNode::Inner(node) => {
                node.separators();
            }
        }
    }

    /// Appends what a node holds.
    pub(crate) fn push(&self, bytes: &mut Vec<u8>) -> Result<(), AllocError>
        ensures { OnOk result (bytes.new.items ≡ bytes.old.items ++ node_bytes self.now) }
    {
        match self {
            TreeNode::Leaf(entries) => {
                push_u32(bytes, LEAF)?;
                entries.push(bytes)
            }
            TreeNode::Inner(node) => {
                push_u32(bytes, INNER)?;
                node.push(bytes)
            }
        }
    }

    /// The node that the bytes are.
    pub(crate) fn read(alloc: Global, bytes: &[u8]) -> Result<TreeNode, PickleError>
        ensures found { IfOk result (λ node. IsTreeNode node × (bytes.now ≡ node_bytes node)) }
        ensures form { result ≡ Err Form → (node : ATreeNode) → IsTreeNode node → bytes.now ≡ node_bytes node → ⊥ }
    {
        if bytes.len() < 4 {
            return Err(PickleError::Form);
        }
        let (kind, rest) = split_u32(bytes);
        match kind {
            LEAF => Ok(TreeNode::Leaf(Entries::read(alloc, rest)?)),
            INNER => Ok(TreeNode::Inner(Inner::read(alloc, rest)?)),
            _ => Err(PickleError::Form),
        }
    }
}
