//! The nodes of an ordered index above its leaves.
ghost use Rattle.std.specs.Prelude.{◌≡◌, ◌+◌, ◌≤◌, ◌++◌, ◌↔◌, OnOk, IfOk, IfSome, IsSome, length};
ghost use Rattle.tdb_class.specs.declared.universe.PickleError.TheVariants.{Form};
ghost use Rattle.tdb_stored.specs.Inner.{InnerFields, IsInner, inner_bytes};

use crate::entries::Entries;
use crate::items::{known_items, push_items, read_items};
use std::alloc::{AllocError, Global};
use std::marker::Model;
use tdb_class::PickleError;

/// The greatest number of entries of a leaf, and of separators of an inner node.
pub const NODE_LIMIT: usize = 32;

/// A node between the root and the leaves: separators, and one child more than separators.
#[derive(Debug, Drop)]
pub struct Inner {
    separators: Entries<NODE_LIMIT>,
    children: Vec<u32>,
}

impl Model for Inner {
    ghost use Rattle.tdb_stored.specs.Inner.{InnerFields, IsInner};

    ghost Value = { InnerFields };

    ghost view = { λ node. record { separators = node.separators; children = node.children.items } };

    ghost invariant = { λ node. IsInner (record { separators = node.separators; children = node.children.items }) };
}

impl Inner {
    /// The node of these separators and the ranks of these children, or `None` where there is no
    /// separator or not one child more than separators.
    pub fn new(separators: Entries<NODE_LIMIT>, children: Vec<u32>) -> Option<Inner>
        ensures node { IfSome result (λ node. node ≡ record { separators = separators; children = children.items }) }
        ensures some { IsSome result ↔ ((1 ≤ length separators) × (length children.items ≡ length separators + 1)) }
    {
        known_items(&children);
        let count = separators.len();
        if count >= 1 && children.len() == count + 1 {
            Some(Inner {
                separators,
                children,
            })
        } else {
            None
        }
    }

    /// The separators in their order.
    pub fn separators(&self) -> &Entries<NODE_LIMIT>
        ensures separators { result.now ≡ self.now.separators }
        ensures is_inner { IsInner self.now }
    {
        &self.separators
    }

    /// The ranks of the children.
    pub fn children(&self) -> &[u32]
        ensures { result.now ≡ self.now.children }
    {
        self.children.as_slice()
    }

    /// Gives the separators and the ranks back.
    pub fn into_parts(self) -> (Entries<NODE_LIMIT>, Vec<u32>)
        ensures separators { result.0 ≡ self.separators }
        ensures children { result.1.items ≡ self.children }
    {
        (self.separators, self.children)
    }

    /// Appends what a node above the leaves holds.
    pub(crate) fn push(&self, bytes: &mut Vec<u8>) -> Result<(), AllocError>
        ensures { OnOk result (bytes.new.items ≡ bytes.old.items ++ inner_bytes self.now) }
    {
        self.separators.push(bytes)?;
        push_items(bytes, &self.children)
    }

    /// The node that the bytes are.
    pub(crate) fn read(alloc: Global, bytes: &[u8]) -> Result<Inner, PickleError>
        ensures found { IfOk result (λ node. IsInner node × (bytes.now ≡ inner_bytes node)) }
        ensures form { result ≡ Err Form → (node : InnerFields) → IsInner node → bytes.now ≡ inner_bytes node → ⊥ }
    {
        let (separators, rest) = Entries::split(alloc, bytes)?;
        let count = separators.len();
        let children = read_items(alloc, count + 1, rest)?;
        match Inner::new(separators, children) {
            Some(node) => Ok(node),
            None => Err(PickleError::Form),
        }
    }
}
