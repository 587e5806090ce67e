//! Logs that an independent model of the formats wrote, and damaged or altered ones.
use sha2::{Digest as _, Sha256};
use std::alloc::{AllocError, Global};
use std::test::Fail;
use tdb_base::{Damage, Digest, Failed, PartId, Piece, Place, Rank, Suite};
use tdb_list::{Entry, write_list};
use tdb_mark::{Commit, commit_key, mark, read_commit, write_commit};
use tdb_overlay::{Keys, Leader, Recovered, Seen};
use tdb_platform::MemoryPlatform;
use tdb_recover::{OpenError, recover};
use tdb_seal::Name;

pub(crate) const SECRET: [u8; 32] = [0; 32];

// The pieces of the first path, and the mark of its third text.
pub(crate) const FIRST_TEXT: &[u8] = &tdb_first_path::FIRST_TEXT;

pub(crate) const SECOND_TEXT: &[u8] = &tdb_first_path::SECOND_TEXT;

pub(crate) const THIRD_TEXT: &[u8] = &tdb_first_path::THIRD_TEXT;

const TABLE: &[u8] = &tdb_first_path::TABLE;

const OPENING_LIST: &[u8] = &tdb_first_path::OPENING_LIST;

pub(crate) const NOTE: &[u8] = &tdb_first_path::NOTE;

const NOTE_LIST: &[u8] = &tdb_first_path::NOTE_LIST;

pub(crate) const MARK: [u8; 32] = tdb_first_path::THIRD_MARK;

/// A device of these pieces, in the order of their places.
fn device_of(alloc: Global, pieces: &[(usize, &[u8])]) -> Result<Vec<u8>, AllocError> {
    let mut image = Vec::new(alloc);
    for (place, bytes) in pieces {
        image.resize(*place, 0)?;
        image.extend_from_slice(bytes)?;
    }
    Ok(image)
}

/// The device of the first path, with other texts.
pub(crate) fn first_path_with(alloc: Global, texts: [&[u8]; 3]) -> Result<Vec<u8>, AllocError> {
    let [first, second, third] = texts;
    device_of(
        alloc,
        &[
            (0, first),
            (256, second),
            (512, third),
            (262_144, TABLE),
            (262_720, OPENING_LIST),
            (262_928, NOTE),
            (262_997, NOTE_LIST),
        ],
    )
}

pub(crate) fn first_path(alloc: Global) -> Result<Vec<u8>, AllocError> {
    first_path_with(alloc, [FIRST_TEXT, SECOND_TEXT, THIRD_TEXT])
}

/// Opens the log of an anchor on a device of which the calls with these numbers fail.
fn open(
    alloc: Global,
    image: Vec<u8>,
    count: u64,
    mark: [u8; 32],
    failing: &[u64],
) -> Result<Recovered, OpenError> {
    let mut platform = MemoryPlatform::new(
        alloc,
        image,
        count,
        mark,
        failing.to_vec(alloc)?,
        None,
    )?;
    recover(alloc, &mut platform, &Keys::new(alloc, &SECRET))
}

/// The commit that a text says.
pub(crate) fn said(text: &[u8]) -> Result<Commit, Failed> {
    read_commit(text, &commit_key(&SECRET)).ok_or(Failed)
}

/// The text of a commit.
pub(crate) fn spelled(commit: &Commit) -> Result<[u8; 256], Failed> {
    if commit.is_in_format() {
        Ok(write_commit(commit, &commit_key(&SECRET)))
    } else {
        Err(Failed)
    }
}

#[test]
fn the_log_of_the_first_path_is_opened(rt: HostRuntime) -> Result<(), Fail> {
    let alloc = rt.alloc();
    let log = open(alloc, first_path(alloc)?, 3, MARK, &[])?;
    assert_eq!(rt; (log.head.count, log.head.base), (3, 1));
    assert_eq!(rt; log.head.mark, Digest(MARK));
    assert_eq!(rt; (log.segments.segments(), log.segments.free()), (16, 15));
    assert_eq!(rt; log.segments.tail(), Some(Place(263_133)));
    let note = Piece {
        place: Place(262_928),
        length: 69,
        digest: Digest(Sha256::digest(NOTE)),
    };
    assert_eq!(rt; log.overlay.get(PartId(1), Rank(1)), Seen::Here(note));
    assert_eq!(rt; log.overlay.get(PartId(1), Rank(0)), Seen::Base);
    assert_eq!(rt; log.overlay.get(PartId(2), Rank(1)), Seen::Base);
    for (part, next) in [(1, 2), (2, 0)] {
        let leader = Leader {
            suite: Suite::Plain,
            home: part,
            birth: 2,
            next,
            parent: 0,
            born: 2,
            root: None,
        };
        assert_eq!(rt; log.overlay.leader(PartId(part)), Some(leader));
    }
    assert_eq!(rt; log.overlay.leader(PartId(3)), None);
    Ok(())
}

#[test]
fn each_piece_is_read_once_and_each_fault_is_told(rt: HostRuntime) -> Result<(), Fail> {
    let alloc = rt.alloc();
    // the anchor, a sync, three texts, the table, two lists and the next slot
    for call in 1..10u64 {
        let opened = open(alloc, first_path(alloc)?, 3, MARK, &[call]);
        assert!(rt; matches!(opened, Err(OpenError::Fault)), "call {call}");
    }
    assert!(rt; open(alloc, first_path(alloc)?, 3, MARK, &[10]).is_ok());
    Ok(())
}

#[test]
fn an_earlier_anchor_has_an_earlier_log(rt: HostRuntime) -> Result<(), Fail> {
    let alloc = rt.alloc();
    let empty = [0; 256];
    let second = said(THIRD_TEXT)?.prev;
    let image = first_path_with(alloc, [FIRST_TEXT, SECOND_TEXT, &empty])?;
    let log = open(alloc, image, 2, second.0, &[])?;
    assert_eq!(rt; (log.head.count, log.head.base), (2, 1));
    assert_eq!(rt; log.segments.tail(), Some(Place(262_928)));
    assert_eq!(rt; log.overlay.get(PartId(1), Rank(1)), Seen::Base);
    let first = said(SECOND_TEXT)?.prev;
    let image = first_path_with(alloc, [FIRST_TEXT, &empty, THIRD_TEXT])?;
    let log = open(alloc, image, 1, first.0, &[])?;
    assert_eq!(rt; log.segments.tail(), Some(Place(262_720)));
    assert_eq!(rt; log.overlay.leader(PartId(1)), None);
    Ok(())
}

#[test]
fn a_count_of_0_is_no_log(rt: HostRuntime) -> Result<(), Fail> {
    let alloc = rt.alloc();
    let opened = open(alloc, first_path(alloc)?, 0, MARK, &[]);
    assert!(rt; matches!(opened, Err(OpenError::Unformatted)));
    let opened = open(alloc, Vec::new(alloc), 0, [0; 32], &[1]);
    assert!(rt; matches!(opened, Err(OpenError::Fault)));
    Ok(())
}

#[test]
fn other_bytes_of_a_piece_are_damage(rt: HostRuntime) -> Result<(), Fail> {
    let alloc = rt.alloc();
    let (first, second, third) = (said(FIRST_TEXT)?, said(SECOND_TEXT)?, said(THIRD_TEXT)?);
    // a byte of each piece, and the place and the digest of the piece
    for (at, place, expected) in [
        (767, 512, Digest(MARK)),
        (256, 256, third.prev),
        (100, 0, second.prev),
        (262_719, 262_144, first.first.digest),
        (262_900, 262_720, second.first.digest),
        (262_997, 262_997, third.first.digest),
    ] {
        let mut image = first_path(alloc)?;
        if let Some(byte) = image.get_mut(at) {
            *byte ^= 1;
        }
        let Err(OpenError::Tampered(damage)) = open(alloc, image, 3, MARK, &[]) else {
            assert!(rt; false, "at {at}");
            continue;
        };
        assert_eq!(rt;
            (damage.place, damage.expected),
            (Place(place), expected),
            "at {at}"
        );
        assert!(rt; damage.found != expected, "at {at}");
    }
    Ok(())
}

#[test]
fn a_record_of_a_chunk_is_not_read(rt: HostRuntime) -> Result<(), Fail> {
    let alloc = rt.alloc();
    let mut image = first_path(alloc)?;
    if let Some(byte) = image.get_mut(262_930) {
        *byte ^= 1;
    }
    assert!(rt; open(alloc, image, 3, MARK, &[]).is_ok());
    Ok(())
}

#[test]
fn a_device_that_ends_within_a_piece_is_damaged(rt: HostRuntime) -> Result<(), Fail> {
    let alloc = rt.alloc();
    // no bytes have this digest
    let empty: [u8; 32] = [
        0xe3, 0xb0, 0xc4, 0x42, 0x98, 0xfc, 0x1c, 0x14, 0x9a, 0xfb, 0xf4, 0xc8, 0x99, 0x6f, 0xb9,
        0x24, 0x27, 0xae, 0x41, 0xe4, 0x64, 0x9b, 0x93, 0x4c, 0xa4, 0x95, 0x99, 0x1b, 0x78, 0x52,
        0xb8, 0x55,
    ];
    let damage = Damage {
        place: Place(512),
        expected: Digest(MARK),
        found: Digest(empty),
    };
    let opened = open(alloc, Vec::new(alloc), 3, MARK, &[]);
    assert!(rt; opened.is_err_and(|error| error == OpenError::Tampered(damage)));
    for (length, place) in [(600, 512), (262_145, 262_144), (263_132, 262_997)] {
        let mut image = first_path(alloc)?;
        image.truncate(length);
        let Err(OpenError::Tampered(damage)) = open(alloc, image, 3, MARK, &[]) else {
            assert!(rt; false, "of {length}");
            continue;
        };
        assert_eq!(rt; damage.place, Place(place), "of {length}");
    }
    Ok(())
}

/// The device of the first path with the texts of other commits, each behind the one before it,
/// and with pieces behind its end. Gives the place of the piece that doesn't fit.
fn form_of(
    alloc: Global,
    commits: [Commit; 3],
    behind: &[(usize, &[u8])],
) -> Result<Option<Place>, Fail> {
    let [first, mut second, mut third] = commits;
    let first = spelled(&first)?;
    second.prev = mark(&first);
    let second = spelled(&second)?;
    third.prev = mark(&second);
    let third = spelled(&third)?;
    let mut image = first_path_with(alloc, [&first, &second, &third])?;
    for (place, bytes) in behind {
        image.resize(*place, 0)?;
        image.extend_from_slice(bytes)?;
    }
    match open(alloc, image, 3, mark(&third).0, &[]) {
        Err(OpenError::Form { place }) => Ok(Some(place)),
        _ => Ok(None),
    }
}

#[test]
fn texts_that_do_not_fit_each_other_are_no_log(rt: HostRuntime) -> Result<(), Fail> {
    let alloc = rt.alloc();
    let texts = [said(FIRST_TEXT)?, said(SECOND_TEXT)?, said(THIRD_TEXT)?];
    assert_eq!(rt; form_of(alloc, texts, &[])?, None);

    let [first, second, third] = texts;
    let with_root = Commit {
        root: Some(second.first),
        ..first
    };
    let of_count = |commit: Commit, count| Commit { count, ..commit };
    let of_suite = |commit: Commit| Commit {
        suite: Suite::Aes128,
        ..commit
    };
    let of_segments = |commit: Commit| Commit {
        segments: 17,
        ..commit
    };
    let on_second = Commit { base: 2, ..third };
    for (commits, place) in [
        ([with_root, second, third], 262_720),
        ([first, second, of_count(third, 4)], 512),
        ([first, of_count(second, 5), third], 256),
        ([first, second, on_second], 256),
        ([first, of_suite(second), third], 256),
        ([first, of_segments(second), third], 256),
        (
            [of_suite(first), of_suite(second), of_suite(third)],
            262_144,
        ),
        (
            [of_segments(first), of_segments(second), of_segments(third)],
            262_144,
        ),
    ] {
        assert_eq!(rt;
            form_of(alloc, commits, &[])?,
            Some(Place(place)),
            "at {place}"
        );
    }
    Ok(())
}

#[test]
fn a_text_under_another_key_is_no_log(rt: HostRuntime) -> Result<(), Fail> {
    let alloc = rt.alloc();
    let image = first_path(alloc)?;
    let mut platform = MemoryPlatform::new(alloc, image, 3, MARK, Vec::new(alloc), None)?;
    let Err(error) = recover(alloc, &mut platform, &Keys::new(alloc, &[1; 32])) else {
        assert!(rt; false);
        return Ok(());
    };
    assert_eq!(rt; error, OpenError::Form { place: Place(512) });
    Ok(())
}

#[test]
fn at_most_1000_commits_stand_since_the_base(rt: HostRuntime) -> Result<(), Fail> {
    let alloc = rt.alloc();
    for (count, place, is_form) in [(1_001, 256_000, false), (1_002, 256_256, true)] {
        let text = spelled(&Commit {
            count,
            ..said(THIRD_TEXT)?
        })?;
        let image = device_of(alloc, &[(place, &text)])?;
        let Err(error) = open(alloc, image, count, mark(&text).0, &[]) else {
            assert!(rt; false, "count {count}");
            continue;
        };
        assert_eq!(rt;
            matches!(error, OpenError::Form { .. }),
            is_form,
            "count {count}"
        );
    }
    Ok(())
}

#[test]
fn pieces_that_do_not_fit_their_texts_are_no_log(rt: HostRuntime) -> Result<(), Fail> {
    let alloc = rt.alloc();
    let [first, second, third] = [said(FIRST_TEXT)?, said(SECOND_TEXT)?, said(THIRD_TEXT)?];
    let naming = |commit: Commit, piece| Commit {
        first: piece,
        ..commit
    };
    let at = |piece: Piece, place| Piece {
        place: Place(place),
        ..piece
    };
    // behind the last of 16 segments
    let outside = 262_144 * 17;
    for (commits, place) in [
        (
            [naming(first, at(first.first, outside)), second, third],
            outside,
        ),
        ([naming(first, second.first), second, third], 262_720),
        (
            [naming(first, at(first.first, 524_288)), second, third],
            524_288,
        ),
        (
            [first, naming(second, at(second.first, outside)), third],
            outside,
        ),
        ([first, second, naming(third, first.first)], 262_144),
    ] {
        let form = form_of(alloc, commits, &[(524_288, TABLE), (524_864, &[])])?;
        assert_eq!(rt; form, Some(Place(place)), "at {place}");
    }
    Ok(())
}

#[test]
fn a_list_that_names_a_record_outside_is_no_log(rt: HostRuntime) -> Result<(), Fail> {
    let alloc = rt.alloc();
    let [first, second, third] = [said(FIRST_TEXT)?, said(SECOND_TEXT)?, said(THIRD_TEXT)?];
    let place = Place(262_144 * 17);
    let entry = Entry {
        kind: 1,
        part: 1,
        rank: 1,
        suite: 0,
        home: 1,
        birth: 2,
        piece: Piece {
            place,
            length: 69,
            digest: Digest(MARK),
        },
    };
    assert!(rt; entry.is_well_formed());
    let plain = write_list(alloc, &[entry])?;
    let name = Name {
        kind: 5,
        suite: Suite::Plain,
        home: 0,
        rank: 0,
    };
    if plain.len() > 100 {
        return Ok(());
    }
    let list = Keys::new(alloc, &SECRET).seal_system(alloc, &name, plain.as_slice())?;
    let piece = Piece {
        place: Place(263_168),
        length: 136,
        digest: Digest(Sha256::digest(list.as_slice())),
    };
    let commits = [
        first,
        second,
        Commit {
            first: piece,
            ..third
        },
    ];
    assert_eq!(rt;
        form_of(alloc, commits, &[(263_168, list.as_slice())])?,
        Some(place)
    );
    Ok(())
}
