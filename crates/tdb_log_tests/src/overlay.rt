//! Keys, overlays and fetches against values from outside.
ghost use Rattle.std.specs.Prelude.{◌≡◌, ◌≤◌, IfOk};
ghost use Rattle.tdb_list.specs.ChangeList.{IsList};
ghost use Rattle.tdb_overlay.specs.Reserving.{IsReserved};

use std::alloc::{AllocError, Global};
use std::test::Fail;
use tdb_base::{Damage, Digest, Key, PartId, Piece, Place, Rank, Suite};
use tdb_list::Entry;
use tdb_overlay::{FetchError, Keys, Leader, Overlay, Reserved, Seen, fetch, fetch_text};
use tdb_platform::MemoryPlatform;
use tdb_seal::{Name, seal_record};

const NOWHERE: Piece = Piece {
    place: Place(0),
    length: 0,
    digest: Digest([0; 32]),
};

// SHA-256 of "abc", of no byte, of 44 zero bytes and of 256 zero bytes.
pub(crate) const OF_ABC: Digest = Digest([
    0xba, 0x78, 0x16, 0xbf, 0x8f, 0x01, 0xcf, 0xea, 0x41, 0x41, 0x40, 0xde, 0x5d, 0xae, 0x22, 0x23,
    0xb0, 0x03, 0x61, 0xa3, 0x96, 0x17, 0x7a, 0x9c, 0xb4, 0x10, 0xff, 0x61, 0xf2, 0x00, 0x15, 0xad,
]);

const OF_NOTHING: Digest = Digest([
    0xe3, 0xb0, 0xc4, 0x42, 0x98, 0xfc, 0x1c, 0x14, 0x9a, 0xfb, 0xf4, 0xc8, 0x99, 0x6f, 0xb9, 0x24,
    0x27, 0xae, 0x41, 0xe4, 0x64, 0x9b, 0x93, 0x4c, 0xa4, 0x95, 0x99, 0x1b, 0x78, 0x52, 0xb8, 0x55,
]);

pub(crate) const OF_44_ZEROS: Digest = Digest([
    0x85, 0x75, 0x9b, 0x38, 0x11, 0xff, 0x7d, 0xc4, 0x7b, 0x03, 0x79, 0x2a, 0xc8, 0x53, 0x17, 0xbe,
    0x51, 0x43, 0x1a, 0x3f, 0x9e, 0x01, 0xdc, 0xaf, 0xce, 0x31, 0x7e, 0xd7, 0x36, 0xa3, 0x91, 0xb0,
]);

const OF_256_ZEROS: Digest = Digest([
    0x53, 0x41, 0xe6, 0xb2, 0x64, 0x69, 0x79, 0xa7, 0x0e, 0x57, 0x65, 0x30, 0x07, 0xa1, 0xf3, 0x10,
    0x16, 0x94, 0x21, 0xec, 0x9b, 0xdd, 0x9f, 0x1a, 0x56, 0x48, 0xf7, 0x5a, 0xde, 0x00, 0x5a, 0xf1,
]);

// HMAC-SHA-256 of the labels TDBsystm and TDBpartn and of two numbers, by another implementation. The secret is the bytes
// from 0 to 31, and the partition is that of home 3 and birth 7.
const SYSTEM_KEY: Key = Key([
    0x29, 0x6a, 0x8c, 0x37, 0x2b, 0x2f, 0xca, 0x64, 0x74, 0x79, 0x13, 0x01, 0xb7, 0xe1, 0x58, 0xbe,
    0x21, 0xb5, 0x3f, 0x84, 0x14, 0x70, 0x28, 0x97, 0xd9, 0x07, 0x96, 0x8d, 0x0a, 0x87, 0x6e, 0x3c,
]);

const PARTITION_KEY: Key = Key([
    0xf0, 0x79, 0x4a, 0x9f, 0x63, 0xb3, 0xc3, 0x07, 0x00, 0x4b, 0x85, 0x54, 0x42, 0xd3, 0x28, 0x54,
    0x71, 0x5b, 0xf6, 0xc5, 0x56, 0x63, 0x1e, 0x46, 0x00, 0x9d, 0x3b, 0x85, 0xf0, 0x9f, 0x7f, 0x37,
]);

fn keys_of_counting_bytes(alloc: Global) -> Keys {
    let mut secret = [0; 32];
    for (at, byte) in secret.iter_mut().enumerate() {
        *byte = at as u8;
    }
    Keys::new(alloc, &secret)
}

fn name_of(kind: u32, suite: Suite, home: u32) -> Name {
    Name {
        kind,
        suite,
        home,
        rank: 0,
    }
}

#[test]
fn records_are_sealed_under_tags_of_the_secret(rt: HostRuntime) -> Result<(), Fail> {
    let alloc = rt.alloc();
    let mut keys = keys_of_counting_bytes(alloc);
    for suite in [Suite::Plain, Suite::Aes128, Suite::Aes256] {
        let name = name_of(5, suite, 0);
        let sealed = keys.seal_system(alloc, &name, b"list")?;
        assert!(rt; sealed == seal_record(alloc, &SYSTEM_KEY, &name, b"list")?);
        let name = name_of(1, suite, 3);
        let due = seal_record(alloc, &PARTITION_KEY, &name, b"chunk")?;
        // derived, and then as it was kept
        for _ in 0..2 {
            assert!(rt; keys.seal_chunk(alloc, PartId(3), 7, &name, b"chunk")? == due);
            assert!(rt;
                keys.read_chunk(alloc, PartId(3), 7, &name, &due)?
                    .as_slice()
                    == b"chunk".as_slice()
            );
        }
    }
    Ok(())
}

#[test]
fn a_key_of_an_earlier_partition_of_the_number_isnt_used(rt: HostRuntime) -> Result<(), Fail> {
    let alloc = rt.alloc();
    let mut keys = keys_of_counting_bytes(alloc);
    let name = name_of(1, Suite::Aes128, 3);
    let due = seal_record(alloc, &PARTITION_KEY, &name, b"chunk")?;
    for (birth, is_of_it) in [(6, false), (7, true), (8, false), (7, true)] {
        assert_eq!(rt;
            keys.seal_chunk(alloc, PartId(3), birth, &name, b"chunk")? == due,
            is_of_it
        );
        assert_eq!(rt;
            keys.read_chunk(alloc, PartId(3), birth, &name, &due)
                .is_ok(),
            is_of_it
        );
    }
    Ok(())
}

fn entry_of(kind: u32, part: u32, rank: u32) -> Entry {
    Entry {
        kind,
        part,
        rank,
        suite: 0,
        home: 0,
        birth: 0,
        piece: NOWHERE,
    }
}

fn write_of(part: u32, rank: u32, piece: Piece) -> Entry {
    Entry {
        kind: 1,
        part,
        rank,
        suite: 1,
        home: part,
        birth: 2,
        piece,
    }
}

// A list of one entry.
fn note_one(
    alloc: Global,
    overlay: &mut Overlay,
    count: u64,
    entry: Entry,
) -> Result<bool, AllocError> {
    if count == 0 {
        return Ok(false);
    }
    if !entry.is_well_formed() {
        return Ok(false);
    }
    overlay.note(alloc, count, &[entry])?;
    Ok(true)
}

#[test]
fn an_overlay_tells_what_lists_say(rt: HostRuntime) -> Result<(), Fail> {
    let alloc = rt.alloc();
    let piece = Piece {
        place: Place(300_000),
        length: 51,
        digest: OF_ABC,
    };
    let mut overlay = Overlay::new(alloc);
    let made = Entry {
        suite: 1,
        ..entry_of(3, 7, 0)
    };
    let steps = [
        (2, made),
        (3, write_of(7, 5, piece)),
        (4, write_of(7, 9, piece)),
        (4, entry_of(2, 7, 9)),
        (5, entry_of(4, 7, 8)),
        (6, entry_of(2, 7, 5)),
        (6, entry_of(3, 4, 0)),
        (7, entry_of(5, 4, 0)),
    ];
    for (count, entry) in steps {
        assert!(rt;
            note_one(alloc, &mut overlay, count, entry)?,
            "count {count}"
        );
    }
    let source = Leader {
        suite: Suite::Aes128,
        home: 7,
        birth: 2,
        next: 10,
        parent: 0,
        born: 2,
        root: None,
    };
    let copy = Leader {
        suite: Suite::Aes128,
        home: 7,
        birth: 2,
        next: 10,
        parent: 7,
        born: 5,
        root: None,
    };
    assert_eq!(rt; overlay.leader(PartId(7)), Some(source));
    assert_eq!(rt; overlay.leader(PartId(8)), Some(copy));
    assert_eq!(rt; overlay.leader(PartId(4)), None);
    let told = [
        (7, 5, Seen::Gone),
        (7, 9, Seen::Gone),
        (7, 6, Seen::Base),
        (8, 5, Seen::Here(piece)),
        (8, 9, Seen::Gone),
        (4, 0, Seen::Base),
    ];
    for (part, rank, seen) in told {
        assert_eq!(rt;
            overlay.get(PartId(part), Rank(rank)),
            seen,
            "{part} {rank}"
        );
    }
    Ok(())
}

// Tells of a partition what the leader of a checkpoint says.
fn tell_one(
    alloc: Global,
    overlay: &mut Overlay,
    part: u32,
    leader: &tdb_node::Leader,
) -> Result<bool, AllocError> {
    if part < 1 || 4_095 < part || !leader.is_well_formed() {
        return Ok(false);
    }
    overlay.tell(alloc, PartId(part), &Leader::kept(leader))?;
    Ok(true)
}

#[test]
fn an_overlay_tells_what_a_checkpoint_writes(rt: HostRuntime) -> Result<(), Fail> {
    let alloc = rt.alloc();
    let (root, piece, new_root) = (
        piece_of(300_000, 3_120, OF_44_ZEROS),
        piece_of(600_000, 51, OF_ABC),
        piece_of(700_000, 3_120, OF_NOTHING),
    );
    let leader = tdb_node::Leader {
        suite: Suite::Aes256,
        home: 3,
        birth: 4,
        next: 300,
        parent: 3,
        born: 6,
        root: Some(root),
    };
    let mut overlay = Overlay::new(alloc);
    assert!(rt; tell_one(alloc, &mut overlay, 9, &leader)?);
    for entry in [
        entry_of(3, 7, 0),
        write_of(9, 400, piece),
        entry_of(2, 9, 6),
    ] {
        assert!(rt; note_one(alloc, &mut overlay, 8, entry)?);
    }
    let numbers = overlay.numbers(alloc)?;
    assert!(rt; numbers.as_slice() == [PartId(7), PartId(9)].as_slice());
    let changed = [
        (7, 400, Some(None)),
        (8, 400, None),
        (9, 400, Some(Some(Some(piece)))),
        (9, 6, Some(Some(None))),
        (9, 5, Some(None)),
    ];
    for (part, rank, due) in changed {
        let told = overlay
            .edits(PartId(part))
            .map(|edits| edits.get(&rank).copied());
        assert_eq!(rt; told, due, "{part} {rank}");
    }
    let written = tdb_node::Leader {
        next: 401,
        root: Some(new_root),
        ..leader
    };
    let told = overlay
        .leader(PartId(9))
        .map(|told| told.leader(Some(new_root)));
    assert_eq!(rt; told, Some(written));
    Ok(())
}

fn platform_of(
    alloc: Global,
    image: &[u8],
    stop: Option<u64>,
) -> Result<MemoryPlatform, AllocError> {
    MemoryPlatform::new(
        alloc,
        Vec::from_slice(alloc, image)?,
        0,
        [0; 32],
        Vec::new(alloc),
        stop,
    )
}

fn piece_of(place: u64, length: u32, digest: Digest) -> Piece {
    Piece {
        place: Place(place),
        length,
        digest,
    }
}

fn fetches(alloc: Global, platform: &mut MemoryPlatform, piece: &Piece, bytes: &[u8]) -> bool {
    match fetch(alloc, platform, piece) {
        Ok(found) => found.as_slice() == bytes,
        Err(_) => false,
    }
}

#[test]
fn a_piece_is_fetched_where_it_has_its_digest(rt: HostRuntime) -> Result<(), Fail> {
    let alloc = rt.alloc();
    let mut platform = platform_of(alloc, b"wxyzabcd", None)?;
    assert!(rt; fetches(alloc, &mut platform, &piece_of(4, 3, OF_ABC), b"abc"));
    // past the end of the device there are no bytes
    assert!(rt; fetches(alloc, &mut platform, &piece_of(8, 4, OF_NOTHING), b""));
    let tampered = fetch(alloc, &mut platform, &piece_of(4, 3, OF_NOTHING));
    let damage = Damage {
        place: Place(4),
        expected: OF_NOTHING,
        found: OF_ABC,
    };
    assert!(rt; matches!(tampered, Err(FetchError::Tampered(it)) if it == damage));
    let mut stopped = platform_of(alloc, b"abc", Some(1))?;
    assert!(rt;
        matches!(
            fetch(alloc, &mut stopped, &piece_of(0, 3, OF_ABC)),
            Err(FetchError::Fault)
        )
    );
    Ok(())
}

#[test]
fn a_text_is_fetched_from_its_slot(rt: HostRuntime) -> Result<(), Fail> {
    let alloc = rt.alloc();
    let mut platform = platform_of(alloc, &[0; 300], None)?;
    // of the second slot 44 bytes are there, of the third none
    let answers = [
        (1, OF_256_ZEROS, Ok([0; 256])),
        (1_025, OF_256_ZEROS, Ok([0; 256])),
        (1, OF_NOTHING, damaged(0, OF_NOTHING, OF_256_ZEROS)),
        (2, OF_256_ZEROS, damaged(256, OF_256_ZEROS, OF_44_ZEROS)),
        (2, OF_44_ZEROS, damaged(256, OF_44_ZEROS, OF_44_ZEROS)),
        (3, OF_NOTHING, damaged(512, OF_NOTHING, OF_NOTHING)),
    ];
    for (count, mark, answer) in answers {
        assert!(rt; count > 0);
        assert!(rt;
            fetch_text(&mut platform, count, &mark) == answer,
            "count {count}"
        );
    }
    let mut stopped = platform_of(alloc, &[0; 300], Some(1))?;
    assert!(rt; fetch_text(&mut stopped, 1, &OF_256_ZEROS) == Err(FetchError::Fault));
    Ok(())
}

fn damaged(place: u64, expected: Digest, found: Digest) -> Result<[u8; 256], FetchError> {
    Err(FetchError::Tampered(Damage {
        place: Place(place),
        expected,
        found,
    }))
}

fn make_of(part: u32) -> Entry {
    Entry {
        suite: 1,
        ..entry_of(3, part, 0)
    }
}

// Reserves a list, and once more where memory ran out.
fn reserve_again(
    alloc: Global,
    overlay: &mut Overlay,
    count: u64,
    entries: &[Entry],
) -> Result<Reserved, AllocError>
    requires list { IsList entries.now }
    requires some { 1 ≤ count }
    ensures stays { overlay.new ≡ overlay.old }
    ensures ready { IfOk result (λ reserved. IsReserved overlay.old reserved) }
{
    match overlay.reserve(alloc, count, entries) {
        Ok(reserved) => Ok(reserved),
        Err(_) => overlay.reserve(alloc, count, entries),
    }
}

fn tells_the_same(overlay: &Overlay, other: &Overlay) -> bool {
    for part in 1..10 {
        if overlay.leader(PartId(part)) != other.leader(PartId(part)) {
            return false;
        }
        for rank in 0..10 {
            let (part, rank) = (PartId(part), Rank(rank));
            if overlay.get(part, rank) != other.get(part, rank) {
                return false;
            }
        }
    }
    true
}

// Takes one list in both ways. What is reserved and not taken in isn't seen.
fn takes_in_as_noted(
    alloc: Global,
    taken: &mut Overlay,
    noted: &mut Overlay,
    count: u64,
    list: (Entry, Entry, Entry),
) -> Result<bool, AllocError> {
    if count < 1 {
        return Ok(false);
    }
    let (first, second, third) = list;
    if !(first.is_well_formed() && second.is_well_formed() && third.is_well_formed()) {
        return Ok(false);
    }
    let _dropped = reserve_again(alloc, taken, count, &[third, second, first])?;
    let entries = [first, second, third];
    let reserved = reserve_again(alloc, taken, count, &entries)?;
    if !tells_the_same(taken, noted) {
        return Ok(false);
    }
    taken.take_in(reserved);
    noted.note(alloc, count, &entries)?;
    Ok(tells_the_same(taken, noted))
}

#[test]
fn a_reserved_list_is_taken_in_as_it_is_noted(rt: HostRuntime) -> Result<(), Fail> {
    let alloc = rt.alloc();
    let (one, two) = (
        piece_of(300_000, 51, OF_ABC),
        piece_of(300_051, 49, OF_NOTHING),
    );
    let lists = [
        // made, written and copied in one list
        (2, (make_of(7), write_of(7, 5, one), entry_of(4, 7, 8))),
        // a copy goes its own way
        (
            3,
            (write_of(8, 5, two), write_of(7, 9, one), entry_of(4, 8, 3)),
        ),
        // of one rank the last entry stands
        (
            4,
            (write_of(7, 5, two), entry_of(2, 7, 5), write_of(3, 6, two)),
        ),
        (
            5,
            (entry_of(2, 8, 5), write_of(8, 5, one), entry_of(2, 8, 2)),
        ),
        // dropped, and made again
        (6, (entry_of(5, 7, 0), make_of(7), write_of(7, 0, two))),
        // nothing is taken in where there is no partition
        (
            7,
            (entry_of(5, 3, 0), write_of(3, 1, one), entry_of(4, 3, 4)),
        ),
        (8, (make_of(4), write_of(4, 1, two), entry_of(5, 4, 0))),
    ];
    let mut noted = Overlay::new(alloc);
    let mut taken = Overlay::new(alloc);
    for (count, list) in lists {
        assert!(rt;
            takes_in_as_noted(alloc, &mut taken, &mut noted, count, list)?,
            "count {count}"
        );
    }
    let told = [
        (7, 0, Seen::Here(two)),
        (7, 9, Seen::Base),
        (8, 5, Seen::Here(one)),
        (8, 2, Seen::Gone),
        (3, 6, Seen::Base),
        (4, 1, Seen::Base),
    ];
    for (part, rank, seen) in told {
        assert_eq!(rt; taken.get(PartId(part), Rank(rank)), seen, "{part} {rank}");
    }
    Ok(())
}
