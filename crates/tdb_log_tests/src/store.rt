//! A store that owns its platform, through the trait of stores of chunks.
ghost use Rattle.std.specs.Prelude.{◌<◌, ◌^◌, length, IfOk};
ghost use Rattle.tdb_model.specs.HasCommitted.{IsShort};

use std::alloc::{AllocError, Global};
use std::test::Fail;
use tdb_base::{Bytes, PartId, Rank, Suite};
use tdb_chunk::{OpenLog, Store};
use tdb_model::{Change, Chunks, CommitError, PartInfo, ReadError};
use tdb_overlay::Keys;
use tdb_platform::{MemoryPlatform, Platform};
use tdb_recover::OpenError;

const PART: PartId = PartId(7);

const RANK: Rank = Rank(3);

const HELLO: &[u8] = b"hello";

fn make() -> Change
    ensures { IsShort result }
{
    Change::Make {
        part: PART,
        suite: Suite::Aes128,
    }
}

fn write(alloc: Global, text: &[u8]) -> Result<Change, AllocError>
    requires { length text.now < 2 ^ 32 }
    ensures { IfOk result IsShort }
{
    Ok(Change::Write {
        part: PART,
        rank: RANK,
        bytes: Bytes::new(Vec::from_slice(alloc, text)?),
    })
}

fn commit<C: Chunks>(chunks: &mut C, alloc: Global, change: Change) -> Result<(), CommitError>
    requires { IsShort change }
{
    chunks.commit(alloc, &[change])
}

fn read<C: Chunks>(chunks: &mut C, alloc: Global) -> Result<Vec<u8>, ReadError> {
    chunks.read(alloc, PART, RANK)
}

fn listed<C: Chunks>(chunks: &C, alloc: Global) -> Result<Vec<PartInfo>, AllocError> {
    chunks.partitions(alloc)
}

/// Opens the store of a secret of zeros.
pub(crate) fn opened(
    alloc: Global,
    platform: MemoryPlatform,
) -> Result<Store<MemoryPlatform>, OpenError> {
    match Store::attach(alloc, platform, &[0; 32]) {
        Ok(store) => Ok(store),
        Err((_platform, error)) => Err(error),
    }
}

// What was committed is told by the store, and again by one that is opened on its platform.
#[test]
fn a_store_is_opened_behind_its_commits(rt: HostRuntime) -> Result<(), Fail> {
    let alloc = rt.alloc();
    let (image, fail) = (Vec::new(alloc), Vec::new(alloc));
    let mut platform = MemoryPlatform::new(alloc, image, 0, [0; 32], fail, None)?;
    let (count, _) = platform.anchor()?;
    assert_eq!(rt; count, 0);
    OpenLog::format(
        alloc,
        &mut platform,
        Keys::new(alloc, &[0; 32]),
        Suite::Aes256,
        16,
    )?;
    let mut store = opened(alloc, platform)?;
    commit(&mut store, alloc, make())?;
    commit(&mut store, alloc, write(alloc, HELLO)?)?;
    assert_eq!(rt; read(&mut store, alloc)?.as_slice(), HELLO);
    let again = opened(alloc, store.close())?;
    assert_eq!(rt; again.count(), 3);
    assert_eq!(rt; again.base(), 1);
    assert!(rt; matches!(again.suite(), Suite::Aes256));
    assert_eq!(rt; again.room().segments, 16);
    assert_eq!(rt; again.room().free, 15);
    assert!(rt; !again.stopped());
    assert_eq!(rt; listed(&again, alloc)?.len(), 1);
    assert!(rt; matches!(again.info(PART), Some(info) if info.next == 4));
    Ok(())
}
