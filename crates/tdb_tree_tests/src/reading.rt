//! A store that stands on a checkpoint: how it is opened, what is read of it, and how it goes on.
ghost use Rattle.std.specs.Prelude.{◌<◌, ◌^◌, length, IfOk};
ghost use Rattle.tdb_model.specs.HasCommitted.{IsShort};

use crate::device::{Checkpointed, Misfit, checkpoint_device, opened};
use std::alloc::{AllocError, Global};
use std::test::Fail;
use tdb_base::{Bytes, PartId, Place, Rank};
use tdb_chunk::Store;
use tdb_first_path::STORED_NOTE;
use tdb_model::{Change, Chunks, CommitError, ReadError};
use tdb_platform::MemoryPlatform;

/// Reads a chunk.
pub(crate) fn read<C: Chunks>(
    chunks: &mut C,
    alloc: Global,
    part: u32,
    rank: u32,
) -> Result<Vec<u8>, ReadError> {
    chunks.read(alloc, PartId(part), Rank(rank))
}

fn commit<C: Chunks>(chunks: &mut C, alloc: Global, change: Change) -> Result<(), CommitError>
    requires { IsShort change }
{
    chunks.commit(alloc, &[change])
}

fn write(alloc: Global, part: u32, rank: u32, text: &[u8]) -> Result<Change, AllocError>
    requires { length text.now < 2 ^ 32 }
    ensures { IfOk result IsShort }
{
    Ok(Change::Write {
        part: PartId(part),
        rank: Rank(rank),
        bytes: Bytes::new(Vec::from_slice(alloc, text)?),
    })
}

/// The store of a device on which everything fits.
fn store_of(alloc: Global, device: &Checkpointed) -> Result<Store<MemoryPlatform>, Fail> {
    Ok(opened(alloc, device)??)
}

#[test]
fn a_checkpoint_stands_where_it_is_placed(rt: HostRuntime) -> Result<(), Fail> {
    let alloc = rt.alloc();
    let device = checkpoint_device(alloc, Misfit::None)?;
    // three nodes and two leaders, three nodes of the roster, the table
    let places = [
        263_133, 266_253, 269_373, 272_493, 272_629, 272_765, 275_885, 279_005, 282_125,
    ];
    for (piece, place) in device.pieces.iter().zip(places.iter()) {
        assert_eq!(rt; piece.place, Place(*place));
    }
    assert_eq!(rt; device.pieces.len(), 9);
    assert_eq!(rt; device.image.len(), 282_701);
    Ok(())
}

#[test]
fn a_store_is_opened_by_its_checkpoint(rt: HostRuntime) -> Result<(), Fail> {
    let alloc = rt.alloc();
    let device = checkpoint_device(alloc, Misfit::None)?;
    let store = store_of(alloc, &device)?;
    assert_eq!(rt; (store.count(), store.base()), (4, 4));
    assert_eq!(rt; store.room().free, 15);
    assert!(rt; matches!(store.info(PartId(1)), Some(info) if info.next == 2 && info.born == 2));
    assert!(rt; matches!(store.info(PartId(2)), Some(info) if info.next == 0));
    assert!(rt; store.info(PartId(3)).is_none());
    // the text, the table, three nodes, two leaders, and the next slot
    assert_eq!(rt; store.close().reads(), 8);
    Ok(())
}

#[test]
fn a_chunk_is_read_by_its_tree(rt: HostRuntime) -> Result<(), Fail> {
    let alloc = rt.alloc();
    let device = checkpoint_device(alloc, Misfit::None)?;
    // a chunk, whether it is there, and how many pieces are read for it
    for (part, rank, is_there, reads) in [
        (1, 1, true, 4),
        (1, 0, false, 3),
        (1, 64, false, 2),
        (1, 4_096, false, 1),
        (1, 262_144, false, 0),
        (1, 262_145, false, 0),
        (2, 1, false, 0),
    ] {
        let mut store = store_of(alloc, &device)?;
        match read(&mut store, alloc, part, rank) {
            Ok(bytes) => assert!(rt; is_there && bytes.as_slice() == STORED_NOTE.as_slice()),
            Err(error) => assert!(rt; !is_there && error == ReadError::NoChunk, "rank {rank}"),
        }
        assert_eq!(rt; store.close().reads(), 8 + reads, "rank {rank}");
    }
    Ok(())
}

#[test]
fn commits_go_on_behind_a_checkpoint(rt: HostRuntime) -> Result<(), Fail> {
    let alloc = rt.alloc();
    let device = checkpoint_device(alloc, Misfit::None)?;
    let mut store = store_of(alloc, &device)?;
    let copy = Change::Copy {
        from: PartId(1),
        to: PartId(3),
    };
    commit(&mut store, alloc, copy)?;
    let free = Change::Free {
        part: PartId(1),
        rank: Rank(1),
    };
    commit(&mut store, alloc, free)?;
    commit(&mut store, alloc, write(alloc, 1, 2, b"later")?)?;
    assert_eq!(rt; (store.count(), store.base()), (7, 4));
    let platform = store.close();
    let Ok(mut again) = Store::attach(alloc, platform, &[0; 32]) else {
        assert!(rt; false);
        return Ok(());
    };
    assert_eq!(rt; (again.count(), again.base()), (7, 4));
    assert!(rt; matches!(read(&mut again, alloc, 1, 1), Err(ReadError::NoChunk)));
    assert_eq!(rt;
        read(&mut again, alloc, 1, 2)?.as_slice(),
        b"later".as_slice()
    );
    // the copy has what its source had
    assert_eq!(rt;
        read(&mut again, alloc, 3, 1)?.as_slice(),
        STORED_NOTE.as_slice()
    );
    assert!(rt; matches!(read(&mut again, alloc, 3, 2), Err(ReadError::NoChunk)));
    Ok(())
}
