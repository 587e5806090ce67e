//! A cache of nodes.
ghost use Rattle.std.specs.Prelude.{◌≡◌, ◌≤◌, ◌⊎◌, [], None, IfOk, option_copied};
ghost use Rattle.std.specs.Borrow.{sem};
ghost use Rattle.tdb_cache.specs.CachedNodes.{node_under, asked, with_node};
ghost use Rattle.tdb_cache.specs.Lending.{EndsAs};

use lru::LruCache;
use std::alloc::{AllocError, Global};
use std::marker::Model;
use std::num::NonZeroUsize;
use tdb_base::Digest;
use tdb_node::Node;

/// The nodes that were used last, by their digests.
#[derive(Drop)]
pub struct NodeCache {
    nodes: LruCache<Digest, Box<Node>>,
}

impl Model for NodeCache {
    ghost use Rattle.tdb_cache.specs.CachedNodes.{CachedNodes, nodes_in};

    ghost Value = { CachedNodes };

    ghost view = { λ a. nodes_in a.nodes };
}

impl NodeCache {
    /// A cache without a node, for `capacity` nodes.
    pub fn new(alloc: Global, capacity: usize) -> Result<NodeCache, AllocError>
        requires { 1 ≤ capacity }
        ensures { IfOk result (λ cache. (cache.nodes ≡ []) × (cache.capacity ≡ capacity)) }
    {
        let capacity = NonZeroUsize::new(capacity).unwrap();
        let nodes = LruCache::new(alloc, capacity)?;
        Ok(NodeCache { nodes })
    }

    /// The node that was kept under a digest, if the cache still has it. It becomes the last used.
    pub fn get(&mut self, digest: &Digest) -> Option<&Node>
        ensures* used { sem 𝓛 (EndsAs self.entry (asked self.old digest.now)) }
        ensures node { option_copied result ≡ node_under self.old digest.now }
    {
        self.nodes.promote(digest);
        self.first(digest)
    }

    /// Keeps a node under a digest, in place of one that is there. A full cache loses the node that was used
    /// longest ago. Where memory runs out the node is dropped, and the cache stays as it was.
    pub fn keep(&mut self, digest: Digest, node: Box<Node>)
        ensures { (self.new ≡ with_node self.old digest node.value) ⊎ ((self.new ≡ self.old) × (node_under self.old digest ≡ None)) }
    {
        let _ = self.nodes.put(digest, node);
    }

    fn first(&self, digest: &Digest) -> Option<&Node>
        ensures { option_copied result ≡ node_under self.now digest.now }
    {
        match self.nodes.peek(digest) {
            Some(node) => Some(node),
            None => None,
        }
    }
}
