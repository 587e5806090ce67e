//! Why a call of the database is refused.

use tdb_base::{Damage, NoRoom, PartId, Place};
use thiserror::Error;

/// Why nothing was read.
#[derive(Clone, Copy, Debug, PartialEq, Eq, Error)]
pub enum ReadError {
    /// An earlier call met a fault while it changed the device.
    #[error("the store is stopped")]
    Stopped,
    /// There is no such partition.
    #[error("there is no such partition")]
    NoPartition,
    /// The partition has no chunk at this rank.
    #[error("there is no such chunk")]
    NoChunk,
    /// The device shows other bytes than those that were written.
    #[error("the bytes were tampered with")]
    Tampered(Damage),
    /// The bytes at this place have the right digest and fit no format.
    #[error("the bytes are outside the format")]
    Form { place: Place },
    /// The platform failed.
    #[error("the platform failed")]
    Fault,
    /// Memory ran out.
    #[error("memory ran out")]
    Memory,
}

/// Why a commit changed nothing. Of several causes the answer is the first in this order, with two
/// exceptions: of several changes the first that is refused decides, and of one change
/// `PartitionTwice` is tested before `NoPartition` and `PartitionExists`.
#[derive(Clone, Copy, Debug, PartialEq, Eq, Error)]
pub enum CommitError {
    /// An earlier call met a fault while it changed the device.
    #[error("the store is stopped")]
    Stopped,
    /// There are more than 1,024 changes, namely this number.
    #[error("there are too many changes")]
    TooManyChanges { number: u32 },
    /// A number of a partition is outside 1 to 4,095.
    #[error("the number is no partition's")]
    PartitionNumber,
    /// A chunk is written or freed, or a partition copied or dropped, and this partition isn't there.
    #[error("there is no such partition")]
    NoPartition { part: PartId },
    /// This partition is made, or is the copy, and is there already.
    #[error("the partition exists")]
    PartitionExists { part: PartId },
    /// An earlier change of the same commit made or dropped this partition, or copied to it.
    #[error("the partition is made, copied or dropped twice")]
    PartitionTwice { part: PartId },
    /// A chunk of this partition is written or freed, and the partition is a copy.
    #[error("the partition is a frozen copy")]
    Frozen { part: PartId },
    /// A rank is 262,144 or more.
    #[error("the rank is too large")]
    RankTooLarge,
    /// A chunk has more than 65,536 bytes.
    #[error("the chunk is too long")]
    ChunkTooLong,
    /// There are 1,000 commits since the last checkpoint.
    #[error("the ring is full")]
    RingFull,
    /// The count of commits stands at the greatest u64.
    #[error("the count stands at its end")]
    CounterEnd,
    /// The free segments don't hold what the commit writes.
    #[error("there is no room")]
    NoRoom(NoRoom),
    /// Memory ran out.
    #[error("memory ran out")]
    Memory,
    /// The platform failed. The commit may stand or not.
    #[error("the platform failed")]
    Fault,
}

/// Why there is no new checkpoint.
#[derive(Clone, Copy, Debug, PartialEq, Eq, Error)]
pub enum SaveError {
    /// An earlier call met a fault while it changed the device.
    #[error("the store is stopped")]
    Stopped,
    /// The count of commits stands at the greatest u64.
    #[error("the count stands at its end")]
    CounterEnd,
    /// The device shows other bytes than those that were written.
    #[error("the bytes were tampered with")]
    Tampered(Damage),
    /// The bytes at this place have the right digest and fit no format.
    #[error("the bytes are outside the format")]
    Form { place: Place },
    /// The free segments don't hold what the checkpoint writes.
    #[error("there is no room")]
    NoRoom(NoRoom),
    /// Memory ran out.
    #[error("memory ran out")]
    Memory,
    /// The platform failed. The checkpoint may stand or not.
    #[error("the platform failed")]
    Fault,
}
