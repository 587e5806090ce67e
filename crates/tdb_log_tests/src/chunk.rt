//! The first path of a store, against the marks that an independent model of the formats gives. A mark depends on every
//! byte that was written.
use crate::store::opened;
use std::alloc::Global;
use std::test::Fail;
use tdb_base::{Bytes, PartId, Rank, Suite};
use tdb_chunk::OpenLog;
use tdb_first_path::{FIRST_MARK, SECOND_MARK, STORED_NOTE, THIRD_MARK};
use tdb_model::{Change, Chunks, CommitError, ReadError};
use tdb_overlay::Keys;
use tdb_platform::{MemoryPlatform, Platform};

const FIRST: PartId = PartId(1);

/// The stored form of the note `hello`.
const NOTE: &[u8] = &STORED_NOTE;

/// The marks of the three texts of the first path.
const MARKS: [&[u8]; 3] = [&FIRST_MARK, &SECOND_MARK, &THIRD_MARK];

fn make(part: PartId, suite: Suite) -> Change {
    Change::Make { part, suite }
}

/// A device in memory, empty, whose calls with these numbers fail.
fn device(alloc: Global, fail: &[u64]) -> Result<MemoryPlatform, Fail> {
    let (image, fail) = (Vec::new(alloc), fail.to_vec(alloc)?);
    Ok(MemoryPlatform::new(alloc, image, 0, [0; 32], fail, None)?)
}

/// Reads a chunk.
fn read<C: Chunks>(
    chunks: &mut C,
    alloc: Global,
    part: PartId,
    rank: Rank,
) -> Result<Vec<u8>, ReadError> {
    chunks.read(alloc, part, rank)
}

#[test]
fn the_first_path_has_the_marks_of_the_model(rt: HostRuntime) -> Result<(), Fail> {
    let alloc = rt.alloc();
    let mut platform = device(alloc, &[])?;
    let (count, _) = platform.anchor()?;
    assert_eq!(rt; count, 0);
    let mut store = OpenLog::format(
        alloc,
        &mut platform,
        Keys::new(alloc, &[0; 32]),
        Suite::Plain,
        16,
    )?;
    assert_eq!(rt; platform.anchor()?.1.as_slice(), MARKS[0]);
    let makes = [make(FIRST, Suite::Plain), make(PartId(2), Suite::Plain)];
    store.commit(alloc, &mut platform, &makes)?;
    assert_eq!(rt; platform.anchor()?.1.as_slice(), MARKS[1]);
    let write = Change::Write {
        part: FIRST,
        rank: Rank(1),
        bytes: Bytes::from(NOTE.to_vec(alloc)?),
    };
    store.commit(alloc, &mut platform, &[write])?;
    assert_eq!(rt; platform.anchor()?.1.as_slice(), MARKS[2]);
    assert_eq!(rt; store.count(), 3);
    let mut store = opened(alloc, platform)?;
    let note = read(&mut store, alloc, FIRST, Rank(1))?;
    assert_eq!(rt; note.as_slice(), NOTE);
    Ok(())
}

// A partition under a cipher is made, written, copied and freed by one commit.
#[test]
fn a_copy_has_what_the_commit_wrote_before_it(rt: HostRuntime) -> Result<(), Fail> {
    let alloc = rt.alloc();
    let mut platform = device(alloc, &[])?;
    let (count, _) = platform.anchor()?;
    assert_eq!(rt; count, 0);
    let mut store = OpenLog::format(
        alloc,
        &mut platform,
        Keys::new(alloc, &[0; 32]),
        Suite::Aes128,
        16,
    )?;
    let (part, rank, copy) = (PartId(3), Rank(0), PartId(4));
    let bytes = Bytes::from(NOTE.to_vec(alloc)?);
    let changes = [
        make(part, Suite::Aes256),
        Change::Write { part, rank, bytes },
        Change::Copy {
            from: part,
            to: copy,
        },
        Change::Free { part, rank },
    ];
    store.commit(alloc, &mut platform, &changes)?;
    let mut store = opened(alloc, platform)?;
    let copied = read(&mut store, alloc, copy, rank)?;
    assert_eq!(rt; copied.as_slice(), NOTE);
    let freed = read(&mut store, alloc, part, rank);
    assert!(rt; matches!(&freed, Err(ReadError::NoChunk)));
    Ok(())
}

// Memory isn't wanting where there is enough of it, at the largest chunk of the last rank too.
#[test]
fn a_largest_chunk_is_written_and_read(rt: HostRuntime) -> Result<(), Fail> {
    let alloc = rt.alloc();
    let mut platform = device(alloc, &[])?;
    let (count, _) = platform.anchor()?;
    assert_eq!(rt; count, 0);
    let mut store = OpenLog::format(
        alloc,
        &mut platform,
        Keys::new(alloc, &[0; 32]),
        Suite::Plain,
        4_096,
    )?;
    let rank = Rank(262_143);
    let bytes = Bytes::from(vec![in alloc; 7u8; 65_536]?);
    let changes = [
        make(FIRST, Suite::Plain),
        Change::Write {
            part: FIRST,
            rank,
            bytes,
        },
    ];
    store.commit(alloc, &mut platform, &changes)?;
    assert_eq!(rt; store.count(), 2);
    let mut store = opened(alloc, platform)?;
    let largest = read(&mut store, alloc, FIRST, rank)?;
    assert_eq!(rt; largest.len(), 65_536);
    for byte in &largest {
        assert_eq!(rt; *byte, 7);
    }
    Ok(())
}
