use std::test::Fail;
use tdb_base::{Digest, Piece, Place};
use tdb_cache::NodeCache;
use tdb_node::Node;

/// A node by which the tests know it again.
fn node_with(length: u32) -> Node {
    let mut node = Node::empty();
    node.entries[0] = Some(Piece {
        place: Place(262_144),
        length,
        digest: Digest([0; 32]),
    });
    node
}

fn length_in(cache: &mut NodeCache, digest: u8) -> Option<u32> {
    let node = cache.get(&Digest([digest; 32]))?;
    Some(node.get(0)?.length)
}

#[test]
fn the_node_that_was_used_longest_ago_goes_first(rt: HostRuntime) -> Result<(), Fail> {
    let mut cache = NodeCache::new(rt.alloc(), 2)?;
    cache.keep(Digest([1; 32]), Box::new(rt.alloc(), node_with(10))?);
    cache.keep(Digest([2; 32]), Box::new(rt.alloc(), node_with(20))?);
    assert_eq!(rt; length_in(&mut cache, 1), Some(10));
    cache.keep(Digest([3; 32]), Box::new(rt.alloc(), node_with(30))?);
    assert_eq!(rt; length_in(&mut cache, 2), None);
    assert_eq!(rt; length_in(&mut cache, 1), Some(10));
    cache.keep(Digest([1; 32]), Box::new(rt.alloc(), node_with(11))?);
    assert_eq!(rt; length_in(&mut cache, 3), Some(30));
    assert_eq!(rt; length_in(&mut cache, 1), Some(11));
    Ok(())
}
