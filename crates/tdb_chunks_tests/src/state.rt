//! What states, refusals and messages are, by the rules of the database.
ghost use Rattle.std.specs.Prelude.{◌<◌, ◌^◌, length};

use std::alloc::{AllocError, Global};
use std::test::Fail;
use tdb_base::{Bytes, Damage, Digest, NoRoom, PartId, Place, Rank, Suite};
use tdb_model::{Change, CommitError, MemoryState, PartInfo, ReadError, SaveError};

/// A write of `length` equal bytes.
fn write_of(
    alloc: Global,
    part: u32,
    rank: u32,
    byte: u8,
    length: usize,
) -> Result<Change, AllocError> {
    Ok(Change::Write {
        part: PartId(part),
        rank: Rank(rank),
        bytes: Bytes::new(vec![in alloc; byte; length]?),
    })
}

fn free_of(part: u32, rank: u32) -> Change {
    Change::Free {
        part: PartId(part),
        rank: Rank(rank),
    }
}

fn make_of(part: u32) -> Change {
    Change::Make {
        part: PartId(part),
        suite: Suite::Aes128,
    }
}

fn copy_of(from: u32, to: u32) -> Change {
    Change::Copy {
        from: PartId(from),
        to: PartId(to),
    }
}

fn drop_of(part: u32) -> Change {
    Change::Drop { part: PartId(part) }
}

/// Makes a commit, or answers why it is refused.
fn commit(
    alloc: Global,
    state: &mut MemoryState,
    count: u64,
    changes: &[Change],
) -> Result<(), CommitError>
    requires { length changes.now < 2 ^ 32 }
{
    state.check(changes)?;
    state
        .apply(alloc, count, changes)
        .map_err(|_| CommitError::Memory)
}

/// Partitions 1 and 2 are made, and 3 is a copy of 1.
fn three_partitions(alloc: Global) -> Result<MemoryState, CommitError> {
    let mut state = MemoryState::new(alloc);
    commit(alloc, &mut state, 2, &[make_of(1), make_of(2)])?;
    commit(alloc, &mut state, 3, &[copy_of(1, 3)])?;
    Ok(state)
}

#[test]
fn each_change_is_refused_by_its_first_cause(rt: HostRuntime) -> Result<(), Fail> {
    let alloc = rt.alloc();
    let state = three_partitions(rt.alloc())?;
    for (change, answer) in [
        (make_of(0), CommitError::PartitionNumber),
        (make_of(4_096), CommitError::PartitionNumber),
        (copy_of(0, 5), CommitError::PartitionNumber),
        (copy_of(1, 4_096), CommitError::PartitionNumber),
        (drop_of(4_096), CommitError::PartitionNumber),
        (free_of(0, 262_144), CommitError::PartitionNumber),
        (
            free_of(9, 262_144),
            CommitError::NoPartition { part: PartId(9) },
        ),
        (copy_of(9, 9), CommitError::NoPartition { part: PartId(9) }),
        (copy_of(9, 1), CommitError::NoPartition { part: PartId(9) }),
        (drop_of(9), CommitError::NoPartition { part: PartId(9) }),
        (make_of(1), CommitError::PartitionExists { part: PartId(1) }),
        (
            copy_of(1, 2),
            CommitError::PartitionExists { part: PartId(2) },
        ),
        (
            copy_of(1, 1),
            CommitError::PartitionExists { part: PartId(1) },
        ),
        (free_of(3, 262_144), CommitError::Frozen { part: PartId(3) }),
        (free_of(1, 262_144), CommitError::RankTooLarge),
        (write_of(alloc, 0, 0, 1, 1)?, CommitError::PartitionNumber),
        (
            write_of(alloc, 4_095, 0, 1, 1)?,
            CommitError::NoPartition {
                part: PartId(4_095),
            },
        ),
        (
            write_of(alloc, 3, 262_144, 1, 65_537)?,
            CommitError::Frozen { part: PartId(3) },
        ),
        (
            write_of(alloc, 1, 262_144, 1, 65_537)?,
            CommitError::RankTooLarge,
        ),
        (
            write_of(alloc, 1, 262_143, 1, 65_537)?,
            CommitError::ChunkTooLong,
        ),
    ] {
        assert_eq!(rt; state.check(&[change]), Err(answer));
    }
    for change in [
        write_of(alloc, 1, 262_143, 1, 65_536)?,
        free_of(1, 262_143),
        make_of(4_095),
        copy_of(3, 4_095),
        drop_of(3),
    ] {
        assert_eq!(rt; state.check(&[change]), Ok(()));
    }
    Ok(())
}

#[test]
fn a_change_is_tested_against_those_before_it(rt: HostRuntime) -> Result<(), Fail> {
    let alloc = rt.alloc();
    let state = three_partitions(rt.alloc())?;
    for (changes, answer) in [
        (
            [drop_of(3), make_of(3)],
            Err(CommitError::PartitionTwice { part: PartId(3) }),
        ),
        (
            [make_of(5), make_of(5)],
            Err(CommitError::PartitionTwice { part: PartId(5) }),
        ),
        (
            [copy_of(1, 5), drop_of(5)],
            Err(CommitError::PartitionTwice { part: PartId(5) }),
        ),
        (
            [drop_of(2), copy_of(1, 2)],
            Err(CommitError::PartitionTwice { part: PartId(2) }),
        ),
        (
            [drop_of(2), copy_of(2, 5)],
            Err(CommitError::NoPartition { part: PartId(2) }),
        ),
        (
            [drop_of(2), free_of(2, 0)],
            Err(CommitError::NoPartition { part: PartId(2) }),
        ),
        (
            [copy_of(1, 5), write_of(alloc, 5, 0, 1, 1)?],
            Err(CommitError::Frozen { part: PartId(5) }),
        ),
        (
            [free_of(9, 0), make_of(0)],
            Err(CommitError::NoPartition { part: PartId(9) }),
        ),
        (
            [write_of(alloc, 1, 0, 1, 1)?, make_of(1)],
            Err(CommitError::PartitionExists { part: PartId(1) }),
        ),
        ([make_of(5), write_of(alloc, 5, 0, 1, 1)?], Ok(())),
        ([make_of(5), copy_of(5, 6)], Ok(())),
        ([free_of(1, 0), drop_of(1)], Ok(())),
    ] {
        assert_eq!(rt; state.check(&changes), answer);
    }
    Ok(())
}

#[test]
fn a_commit_has_at_most_1024_changes(rt: HostRuntime) -> Result<(), Fail> {
    let state = three_partitions(rt.alloc())?;
    let mut changes = Vec::new(rt.alloc());
    for _ in 0..1_024 {
        changes.push(free_of(1, 0))?;
    }
    assert!(rt; changes.len() == 1_024);
    assert_eq!(rt; state.check(changes.as_slice()), Ok(()));
    changes.push(make_of(0))?;
    assert!(rt; changes.len() == 1_025);
    assert_eq!(rt;
        state.check(changes.as_slice()),
        Err(CommitError::TooManyChanges { number: 1_025 })
    );
    Ok(())
}

#[test]
fn a_copy_keeps_what_its_source_had(rt: HostRuntime) -> Result<(), Fail> {
    let alloc = rt.alloc();
    let mut state = MemoryState::new(alloc);
    for (count, change) in [
        (2, make_of(1)),
        (3, write_of(alloc, 1, 3, b'a', 1)?),
        (4, write_of(alloc, 1, 4, b'b', 1)?),
        (5, copy_of(1, 2)),
        (6, write_of(alloc, 1, 3, b'c', 1)?),
        (7, free_of(1, 4)),
    ] {
        assert_eq!(rt; commit(alloc, &mut state, count, &[change]), Ok(()));
    }
    for (part, rank, bytes) in [
        (2, 3, Some(b"a".as_slice())),
        (2, 4, Some(b"b".as_slice())),
        (1, 3, Some(b"c".as_slice())),
        (1, 4, None),
        (1, 0, None),
        (3, 3, None),
    ] {
        assert_eq!(rt;
            state.chunk(PartId(part), Rank(rank)),
            bytes,
            "at {part} {rank}"
        );
    }
    let refused = commit(alloc, &mut state, 8, &[write_of(alloc, 2, 3, b'd', 1)?]);
    assert_eq!(rt; refused, Err(CommitError::Frozen { part: PartId(2) }));
    assert_eq!(rt; commit(alloc, &mut state, 8, &[drop_of(2)]), Ok(()));
    assert_eq!(rt; state.chunk(PartId(2), Rank(3)), None);
    Ok(())
}

#[test]
fn a_partition_tells_where_it_came_from(rt: HostRuntime) -> Result<(), Fail> {
    let alloc = rt.alloc();
    let mut state = MemoryState::new(alloc);
    for (count, change) in [
        (2, make_of(1)),
        (3, write_of(alloc, 1, 7, 0, 0)?),
        (4, write_of(alloc, 1, 2, 0, 0)?),
        (5, free_of(1, 7)),
        (6, copy_of(1, 4_095)),
    ] {
        assert_eq!(rt; commit(alloc, &mut state, count, &[change]), Ok(()));
    }
    let made = PartInfo {
        part: PartId(1),
        suite: Suite::Aes128,
        parent: PartId(0),
        born: 2,
        next: 8,
    };
    let copied = PartInfo {
        part: PartId(4_095),
        parent: PartId(1),
        born: 6,
        ..made
    };
    assert_eq!(rt; state.info(PartId(1)), Some(made));
    assert_eq!(rt; state.info(PartId(4_095)), Some(copied));
    assert_eq!(rt; state.info(PartId(2)), None);
    Ok(())
}

#[test]
fn each_error_has_one_message(rt: HostRuntime) -> Result<(), Fail> {
    let place = Place(262_144);
    let digest = Digest([0; 32]);
    let damage = Damage {
        place,
        expected: digest,
        found: digest,
    };
    let room = NoRoom { need: 1, free: 0 };
    let part = PartId(7);
    for (error, message) in [
        (CommitError::Stopped, "the store is stopped"),
        (
            CommitError::TooManyChanges { number: 1_025 },
            "there are too many changes",
        ),
        (CommitError::PartitionNumber, "the number is no partition's"),
        (
            CommitError::NoPartition { part },
            "there is no such partition",
        ),
        (
            CommitError::PartitionExists { part },
            "the partition exists",
        ),
        (
            CommitError::PartitionTwice { part },
            "the partition is made, copied or dropped twice",
        ),
        (
            CommitError::Frozen { part },
            "the partition is a frozen copy",
        ),
        (CommitError::RankTooLarge, "the rank is too large"),
        (CommitError::ChunkTooLong, "the chunk is too long"),
        (CommitError::RingFull, "the ring is full"),
        (CommitError::CounterEnd, "the count stands at its end"),
        (CommitError::NoRoom(room), "there is no room"),
        (CommitError::Memory, "memory ran out"),
        (CommitError::Fault, "the platform failed"),
    ] {
        assert_eq!(rt; format!(in rt.alloc(); "{error}")?.as_str(), message);
    }
    for (error, message) in [
        (ReadError::NoChunk, "there is no such chunk"),
        (ReadError::Tampered(damage), "the bytes were tampered with"),
        (
            ReadError::Form { place },
            "the bytes are outside the format",
        ),
    ] {
        assert_eq!(rt; format!(in rt.alloc(); "{error}")?.as_str(), message);
    }
    assert_eq!(rt;
        format!(in rt.alloc(); "{}", SaveError::NoRoom(room))?.as_str(),
        "there is no room"
    );
    Ok(())
}
