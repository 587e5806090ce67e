//! Nodes and leaders.

use std::test::Fail;
use tdb_base::{Digest, Piece, Place, Suite};
use tdb_node::{Leader, Node, read_leader, read_node, write_leader, write_node};

/// A piece at the start of the first segment, as long as the record of a node.
fn first_piece() -> Piece {
    Piece {
        place: Place(262_144),
        length: 3_120,
        digest: Digest([0xdd; 32]),
    }
}

/// The entry of that piece, written by hand.
fn first_entry() -> [u8; 48] {
    let mut entry = [0xdd; 48];
    entry[..16].copy_from_slice(b"\0\0\0\x01\0\0\x0c\x30\0\0\0\0\0\x04\0\0");
    entry
}

#[test]
fn a_node_with_one_entry_is_written_and_read_back(rt: HostRuntime) -> Result<(), Fail> {
    let mut node = Node::empty();
    assert!(rt; node.is_empty());
    assert!(rt; !node.is_well_formed());
    node.entries[63] = Some(first_piece());
    assert!(rt; node.is_well_formed());
    assert!(rt; node.get(63) == Some(&first_piece()));
    assert!(rt; node.get(62).is_none());
    let mut bytes = [0; 3_072];
    bytes[3_024..].copy_from_slice(&first_entry());
    let written = write_node(rt.alloc(), &node)?;
    assert_eq!(rt; written.as_slice(), bytes.as_slice());
    assert!(rt; *read_node(rt.alloc(), &bytes)? == node);
    Ok(())
}

#[test]
fn one_changed_byte_of_a_node_decides(rt: HostRuntime) {
    // the place of a byte in the first entry, what is written there, and whether a node remains
    for (at, byte, is_read) in [
        (3, 0, false),
        (3, 2, false),
        (7, 0x31, true),
        (13, 0, false),
        (47, 0, true),
        (48, 1, false),
    ] {
        let mut bytes = [0; 3_072];
        bytes[..48].copy_from_slice(&first_entry());
        bytes[at] = byte;
        assert_eq!(rt; read_node(rt.alloc(), &bytes).is_ok(), is_read, "at {at}");
    }
    assert!(rt; read_node(rt.alloc(), &[0; 3_072]).is_err());
    assert!(rt; read_node(rt.alloc(), &[0; 3_071]).is_err());
}

/// A partition that has no chunk.
fn first_leader() -> Leader {
    Leader {
        suite: Suite::Aes128,
        home: 2,
        birth: 3,
        next: 4,
        parent: 0,
        born: 5,
        root: None,
    }
}

/// Its 88 bytes, written by hand.
fn first_bytes() -> [u8; 88] {
    let mut bytes = [0; 88];
    bytes[..8].copy_from_slice(b"TDBLDR01");
    for (at, byte) in [(11, 1), (15, 2), (23, 3), (27, 4), (39, 5)] {
        bytes[at] = byte;
    }
    bytes
}

#[test]
fn leaders_are_written_and_read_back(rt: HostRuntime) -> Result<(), Fail> {
    let mut leader = first_leader();
    let mut bytes = first_bytes();
    assert!(rt; leader.is_well_formed());
    assert_eq!(rt;
        write_leader(rt.alloc(), &leader)?.as_slice(),
        bytes.as_slice()
    );
    assert_eq!(rt; read_leader(&bytes), Ok(leader));
    leader.root = Some(first_piece());
    assert!(rt; leader.is_well_formed());
    bytes[40..].copy_from_slice(&first_entry());
    assert_eq!(rt;
        write_leader(rt.alloc(), &leader)?.as_slice(),
        bytes.as_slice()
    );
    assert_eq!(rt; read_leader(&bytes), Ok(leader));
    Ok(())
}

#[test]
fn one_changed_byte_of_a_leader_decides(rt: HostRuntime) {
    // the place of a byte, what is written there, and whether a leader remains
    for (at, byte, is_read) in [
        (0, 0x55, false),
        (11, 3, false),
        (14, 0x10, false),
        (15, 0, false),
        (23, 0, false),
        (25, 0x04, false),
        (30, 0x0f, true),
        (30, 0x10, false),
        (39, 0, false),
        (43, 1, false),
        (87, 1, false),
    ] {
        let mut bytes = first_bytes();
        assert!(rt; at < bytes.len());
        bytes[at] = byte;
        assert_eq!(rt; read_leader(&bytes).is_ok(), is_read, "at {at}");
    }
}
