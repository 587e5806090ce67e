// Lists of changes, against that of a note as an independent model of the format has it.
use std::test::Fail;
use tdb_base::{Digest, Piece, Place};
use tdb_list::{Entry, read_list, write_list};

/// No piece, and each field zero but kind and partition.
fn plain_entry(kind: u32, part: u32) -> Entry {
    let piece = Piece {
        place: Place(0),
        length: 0,
        digest: Digest([0; 32]),
    };
    Entry {
        kind,
        part,
        rank: 0,
        suite: 0,
        home: 0,
        birth: 0,
        piece,
    }
}

/// The one change of the commit that writes the first note.
fn note_entry() -> Entry {
    let mut entry = plain_entry(1, 1);
    entry.rank = 1;
    entry.home = 1;
    entry.birth = 2;
    entry.piece = Piece {
        place: Place(0x4_0310),
        length: 69,
        digest: Digest(NOTE_DIGEST),
    };
    entry
}

const NOTE_DIGEST: [u8; 32] = [
    0xcf, 0x24, 0x67, 0xb3, 0x1a, 0x58, 0x5c, 0xf8, 0x09, 0x15, 0x85, 0xd5, 0xf6, 0x6f, 0xb3, 0x99,
    0x08, 0x9c, 0x12, 0xc8, 0x5f, 0x3c, 0xf8, 0x46, 0x47, 0x04, 0x45, 0x98, 0x2e, 0xac, 0xa7, 0x66,
];

/// The list of that commit, as an independent model of the format has it.
const NOTE_LIST: [u8; 88] = [
    0x54, 0x44, 0x42, 0x4c, 0x53, 0x54, 0x30, 0x31, 0x00, 0x00, 0x00, 0x01, 0x00, 0x00, 0x00, 0x00,
    0x00, 0x00, 0x00, 0x01, 0x00, 0x00, 0x00, 0x01, 0x00, 0x00, 0x00, 0x01, 0x00, 0x00, 0x00, 0x00,
    0x00, 0x00, 0x00, 0x01, 0x00, 0x00, 0x00, 0x45, 0x00, 0x00, 0x00, 0x00, 0x00, 0x00, 0x00, 0x02,
    0x00, 0x00, 0x00, 0x00, 0x00, 0x04, 0x03, 0x10, 0xcf, 0x24, 0x67, 0xb3, 0x1a, 0x58, 0x5c, 0xf8,
    0x09, 0x15, 0x85, 0xd5, 0xf6, 0x6f, 0xb3, 0x99, 0x08, 0x9c, 0x12, 0xc8, 0x5f, 0x3c, 0xf8, 0x46,
    0x47, 0x04, 0x45, 0x98, 0x2e, 0xac, 0xa7, 0x66,
];

#[test]
fn the_list_of_the_first_note_is_written_and_read_back(rt: HostRuntime) -> Result<(), Fail> {
    let entry = note_entry();
    assert!(rt; entry.is_well_formed());
    let bytes = write_list(rt.alloc(), &[entry])?;
    assert_eq!(rt; bytes.as_slice(), NOTE_LIST.as_slice());
    let read = read_list(rt.alloc(), &NOTE_LIST)?;
    assert_eq!(rt; read.as_slice(), [entry].as_slice());
    Ok(())
}

#[test]
fn the_list_of_the_opening_commit_is_read(rt: HostRuntime) -> Result<(), Fail> {
    let mut bytes = [0; 160];
    bytes[..12].copy_from_slice(b"TDBLST01\0\0\0\x02");
    for at in [16, 88] {
        bytes[at + 3] = 3;
        bytes[at + 7] = if at == 16 { 1 } else { 2 };
    }
    let read = read_list(rt.alloc(), &bytes)?;
    assert_eq!(rt;
        read.as_slice(),
        [plain_entry(3, 1), plain_entry(3, 2)].as_slice()
    );
    Ok(())
}

#[test]
fn one_changed_byte_decides(rt: HostRuntime) {
    // the place of a byte, what is written there, and whether a list remains
    for (at, byte, is_read) in [
        (11, 0, false),
        (11, 2, false),
        (15, 1, false),
        (19, 2, false),
        (19, 6, false),
        (22, 0x10, false),
        (31, 2, true),
        (31, 3, false),
        (35, 0, false),
        (47, 0, false),
        (53, 0, false),
        (87, 0, true),
    ] {
        let mut bytes = NOTE_LIST;
        assert!(rt; at < bytes.len());
        bytes[at] = byte;
        assert_eq!(rt; read_list(rt.alloc(), &bytes).is_ok(), is_read, "at {at}");
    }
}
