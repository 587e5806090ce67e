//! Commits that were begun behind a log, and what is asked for of them.
use crate::recover::{
    FIRST_TEXT, MARK, NOTE, SECOND_TEXT, SECRET, THIRD_TEXT, first_path, first_path_with, said,
    spelled,
};
use sha2::{Digest as _, Sha256};
use std::alloc::Global;
use std::test::Fail;
use tdb_base::{Digest, PartId, Piece, Place, Rank, Suite};
use tdb_mark::{CHECKPOINT, Commit, mark};
use tdb_overlay::{Keys, Seen};
use tdb_platform::{MemoryPlatform, Platform};
use tdb_recover::{look_ahead, read_log, recover};

/// The counts that an opened log has for its last text and that the anchor has, and how many reads opened it.
fn opened(alloc: Global, image: Vec<u8>, anchor: (u64, Digest)) -> Result<((u64, u64), u64), Fail> {
    let (count, mark) = anchor;
    let fail = Vec::new(alloc);
    let mut platform = MemoryPlatform::new(alloc, image, count, mark.0, fail, None)?;
    let log = recover(alloc, &mut platform, &Keys::new(alloc, &SECRET))?;
    let reads = platform.reads();
    let (count, _) = platform.anchor()?;
    Ok(((log.head.count, count), reads))
}

/// The anchor that names the second text of the first path.
fn second() -> Result<(u64, Digest), Fail> {
    Ok((2, said(THIRD_TEXT)?.prev))
}

#[test]
fn a_commit_behind_the_anchor_is_taken(rt: HostRuntime) -> Result<(), Fail> {
    let alloc = rt.alloc();
    let (count, mark) = second()?;
    let fail = Vec::new(alloc);
    let mut platform = MemoryPlatform::new(alloc, first_path(alloc)?, count, mark.0, fail, None)?;
    let log = recover(alloc, &mut platform, &Keys::new(alloc, &SECRET))?;
    assert_eq!(rt; (log.head.count, log.head.base), (3, 1));
    assert_eq!(rt; log.head.mark, Digest(MARK));
    assert_eq!(rt; log.segments.tail(), Some(Place(263_133)));
    let note = Piece {
        place: Place(262_928),
        length: 69,
        digest: Digest(Sha256::digest(NOTE)),
    };
    assert_eq!(rt; log.overlay.get(PartId(1), Rank(1)), Seen::Here(note));
    let (count, mark) = platform.anchor()?;
    assert_eq!(rt; count, 3);
    assert!(rt; mark == MARK);
    // Two texts, the table and one list, then the third text, its list and its record.
    assert_eq!(rt; platform.reads(), 7);
    Ok(())
}

#[test]
fn no_more_than_one_commit_is_taken(rt: HostRuntime) -> Result<(), Fail> {
    let alloc = rt.alloc();
    let first = (1, said(SECOND_TEXT)?.prev);
    assert_eq!(rt; opened(alloc, first_path(alloc)?, first)?, ((2, 2), 4));
    Ok(())
}

#[test]
fn a_commit_that_is_damaged_is_passed_over(rt: HostRuntime) -> Result<(), Fail> {
    let alloc = rt.alloc();
    // A byte of its text, of its list and of its record: the first that isn't whole is the last that is asked for.
    for (at, reads) in [(512, 5), (767, 5), (262_997, 6), (262_928, 7), (262_996, 7)] {
        let mut image = first_path(alloc)?;
        if let Some(byte) = image.get_mut(at) {
            *byte ^= 1;
        }
        assert_eq!(rt;
            opened(alloc, image, second()?)?,
            ((2, 2), reads),
            "at {at}"
        );
    }
    let mut image = first_path(alloc)?;
    image.truncate(263_132);
    assert_eq!(rt; opened(alloc, image, second()?)?, ((2, 2), 6));
    Ok(())
}

#[test]
fn a_commit_that_does_not_come_next_is_passed_over(rt: HostRuntime) -> Result<(), Fail> {
    let alloc = rt.alloc();
    let third = said(THIRD_TEXT)?;
    let outside = Piece {
        place: Place(262_144 * 17),
        ..third.first
    };
    for (case, commit) in [
        Commit { count: 4, ..third },
        Commit { base: 2, ..third },
        Commit {
            prev: Digest(MARK),
            ..third
        },
        Commit {
            suite: Suite::Aes128,
            ..third
        },
        Commit {
            segments: 17,
            ..third
        },
        Commit {
            kind: CHECKPOINT,
            base: 3,
            ..third
        },
        Commit {
            first: outside,
            ..third
        },
    ]
    .iter()
    .enumerate()
    {
        let text = spelled(commit)?;
        let image = first_path_with(alloc, [FIRST_TEXT, SECOND_TEXT, &text])?;
        assert_eq!(rt;
            opened(alloc, image, second()?)?,
            ((2, 2), 5),
            "case {case}"
        );
    }
    // The same text is one that is taken.
    let text = spelled(&third)?;
    assert!(rt; mark(&text) == Digest(MARK));
    Ok(())
}

#[test]
fn each_fault_ahead_of_the_log_is_told(rt: HostRuntime) -> Result<(), Fail> {
    let alloc = rt.alloc();
    let (count, mark) = second()?;
    // The next slot, the list, the record, and the advance.
    for call in 7..=10u64 {
        let fail = vec![in alloc; call; 1]?;
        let mut platform = MemoryPlatform::new(
            alloc,
            first_path(alloc)?,
            count,
            mark.0,
            fail,
            None,
        )?;
        let opened = recover(alloc, &mut platform, &Keys::new(alloc, &SECRET));
        assert!(rt; opened.is_err(), "call {call}");
    }
    Ok(())
}

#[test]
fn nothing_is_asked_for_where_no_commit_may_follow(rt: HostRuntime) -> Result<(), Fail> {
    let alloc = rt.alloc();
    let keys = Keys::new(alloc, &SECRET);
    let fail = Vec::new(alloc);
    let mut platform = MemoryPlatform::new(alloc, first_path(alloc)?, 3, MARK, fail, None)?;
    let mut log = read_log(alloc, &mut platform, &keys)?;
    let reads = platform.reads();
    for (count, base, asked) in [
        (1_001, 1, 0),
        (u64::MAX, u64::MAX, 0),
        (u64::MAX, u64::MAX - 999, 0),
        (1_000, 1, 1),
        (u64::MAX - 1, u64::MAX - 1, 2),
    ] {
        log.head.count = count;
        log.head.base = base;
        assert!(rt; look_ahead(alloc, &mut platform, &keys, &log)?.is_none());
        assert_eq!(rt;
            platform.reads(),
            reads.saturating_add(asked),
            "count {count}"
        );
    }
    Ok(())
}
