//! What follows from the cache's contracts.
ghost use Rattle.std.specs.Prelude.{◌≡◌, ◌≤◌, ◌⊎◌, ℕ, Some, length};
ghost use Rattle.tdb_base.specs.declared.piece.Digest.{Digest};
ghost use Rattle.tdb_node.specs.declared.node.Node.{Node};
ghost use Rattle.tdb_cache.specs.CachedNodes.{CachedNodes, node_under, asked, with_node};

/// There are at most `capacity` nodes: so it is without one, and neither call changes it.
pub fn nodes_stay_within_capacity()
    ensures asked { (cache : CachedNodes) (digest : Digest) → length cache.nodes ≤ cache.capacity
        → length (asked cache digest).nodes ≤ cache.capacity }
    ensures kept { (cache : CachedNodes) (digest : Digest) (node : Node) → 1 ≤ cache.capacity → length cache.nodes ≤ cache.capacity
        → length (with_node cache digest node).nodes ≤ cache.capacity }
{}

/// A node that was kept is found under its digest, and what is found under another was there before. Use
/// changes neither.
pub fn nodes_found_were_kept()
    ensures asked { (cache : CachedNodes) (digest other : Digest) → node_under (asked cache digest) other ≡ node_under cache other }
    ensures kept { (cache : CachedNodes) (digest : Digest) (node : Node) → node_under (with_node cache digest node) digest ≡ Some node }
    ensures others { (cache : CachedNodes) (digest other : Digest) (node found : Node)
        → node_under (with_node cache digest node) other ≡ Some found
        → ((other ≡ digest) × (found ≡ node)) ⊎ (node_under cache other ≡ Some found) }
{}
