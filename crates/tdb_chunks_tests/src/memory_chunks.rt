//! What a store of chunks in memory answers.
ghost use Rattle.std.specs.Prelude.{◌<◌, ◌^◌, length, IfOk};
ghost use Rattle.tdb_model.specs.HasCommitted.{IsShort};

use std::alloc::{AllocError, Global};
use std::test::Fail;
use tdb_base::{Bytes, PartId, Rank, Suite};
use tdb_model::{Change, Chunks, CommitError, MemoryChunks, PartInfo, ReadError};

fn make_of(part: u32) -> Change
    ensures { IsShort result }
{
    Change::Make {
        part: PartId(part),
        suite: Suite::Aes128,
    }
}

fn copy_of(from: u32, to: u32) -> Change
    ensures { IsShort result }
{
    Change::Copy {
        from: PartId(from),
        to: PartId(to),
    }
}

fn drop_of(part: u32) -> Change
    ensures { IsShort result }
{
    Change::Drop { part: PartId(part) }
}

fn free_of(part: u32, rank: u32) -> Change
    ensures { IsShort result }
{
    Change::Free {
        part: PartId(part),
        rank: Rank(rank),
    }
}

fn write_of(alloc: Global, part: u32, rank: u32, text: &[u8]) -> Result<Change, AllocError>
    requires { length text.now < 2 ^ 32 }
    ensures { IfOk result IsShort }
{
    Ok(Change::Write {
        part: PartId(part),
        rank: Rank(rank),
        bytes: Bytes::new(Vec::from_slice(alloc, text)?),
    })
}

/// Commits one change.
fn commit<C: Chunks>(chunks: &mut C, alloc: Global, change: Change) -> Result<(), CommitError>
    requires { IsShort change }
{
    chunks.commit(alloc, &[change])
}

fn read<C: Chunks>(
    chunks: &mut C,
    alloc: Global,
    part: u32,
    rank: u32,
) -> Result<Vec<u8>, ReadError> {
    chunks.read(alloc, PartId(part), Rank(rank))
}

#[test]
fn each_commit_gets_the_next_count_and_a_refused_one_none(rt: HostRuntime) -> Result<(), Fail> {
    let alloc = rt.alloc();
    let mut chunks = MemoryChunks::new(alloc, Suite::Plain);
    assert_eq!(rt; commit(&mut chunks, alloc, make_of(2)), Ok(()));
    assert_eq!(rt;
        commit(&mut chunks, alloc, make_of(2)),
        Err(CommitError::PartitionExists { part: PartId(2) })
    );
    assert_eq!(rt; commit(&mut chunks, alloc, make_of(1)), Ok(()));
    let first = PartInfo {
        part: PartId(1),
        suite: Suite::Aes128,
        parent: PartId(0),
        born: 2,
        next: 0,
    };
    let second = PartInfo {
        part: PartId(2),
        born: 1,
        ..first
    };
    let infos = chunks.partitions(alloc)?;
    assert_eq!(rt; infos.as_slice(), [first, second].as_slice());
    assert_eq!(rt; chunks.info(PartId(2)), Some(second));
    assert_eq!(rt; chunks.info(PartId(3)), None);
    assert!(rt; !chunks.stopped());
    Ok(())
}

#[test]
fn a_copy_keeps_what_its_source_had_and_is_not_written(rt: HostRuntime) -> Result<(), Fail> {
    let alloc = rt.alloc();
    let mut chunks = MemoryChunks::new(alloc, Suite::Plain);
    assert_eq!(rt; commit(&mut chunks, alloc, make_of(1)), Ok(()));
    let old = write_of(alloc, 1, 7, b"old")?;
    assert_eq!(rt; commit(&mut chunks, alloc, old), Ok(()));
    assert_eq!(rt; commit(&mut chunks, alloc, copy_of(1, 3)), Ok(()));
    let new = write_of(alloc, 1, 7, b"new")?;
    assert_eq!(rt; commit(&mut chunks, alloc, new), Ok(()));
    let late = write_of(alloc, 3, 7, b"late")?;
    assert_eq!(rt;
        commit(&mut chunks, alloc, late),
        Err(CommitError::Frozen { part: PartId(3) })
    );
    for (part, rank, bytes) in [(1, 7, b"new".as_slice()), (3, 7, b"old".as_slice())] {
        let shown = read(&mut chunks, alloc, part, rank)?;
        assert_eq!(rt; shown.as_slice(), bytes);
    }
    for (part, rank, refusal) in [
        (1, 0, ReadError::NoChunk),
        (3, 262_144, ReadError::NoChunk),
        (2, 7, ReadError::NoPartition),
        (0, 0, ReadError::NoPartition),
    ] {
        assert!(rt; read(&mut chunks, alloc, part, rank) == Err(refusal));
    }
    Ok(())
}

#[test]
fn what_is_freed_or_dropped_is_gone(rt: HostRuntime) -> Result<(), Fail> {
    let alloc = rt.alloc();
    let mut chunks = MemoryChunks::new(alloc, Suite::Aes256);
    assert_eq!(rt; commit(&mut chunks, alloc, make_of(4_095)), Ok(()));
    let text = write_of(alloc, 4_095, 0, b"")?;
    assert_eq!(rt; commit(&mut chunks, alloc, text), Ok(()));
    assert!(rt; read(&mut chunks, alloc, 4_095, 0)?.is_empty());
    assert_eq!(rt; commit(&mut chunks, alloc, free_of(4_095, 0)), Ok(()));
    assert!(rt; read(&mut chunks, alloc, 4_095, 0) == Err(ReadError::NoChunk));
    assert_eq!(rt; commit(&mut chunks, alloc, drop_of(4_095)), Ok(()));
    assert!(rt; read(&mut chunks, alloc, 4_095, 0) == Err(ReadError::NoPartition));
    Ok(())
}
