//! What a commit changes, and what is told of a partition.

use tdb_base::{Bytes, PartId, Rank, Suite};

/// The greatest number of a partition. The least is 1.
pub const PARTITION_LIMIT: u32 = 4_095;

/// The number of ranks of a partition: they are 0 to 262,143.
pub const RANK_LIMIT: u32 = 262_144;

/// The greatest number of bytes of a chunk.
pub const CHUNK_LIMIT: usize = 65_536;

/// The greatest number of changes of a commit.
pub const CHANGE_LIMIT: usize = 1_024;

/// One change of a commit.
#[derive(Debug, Drop)]
pub enum Change {
    /// The chunk has these bytes.
    Write {
        part: PartId,
        rank: Rank,
        bytes: Bytes,
    },
    /// The chunk is gone. One that isn't there may be freed too, which changes nothing.
    Free {
        part: PartId,
        rank: Rank,
    },
    /// There is a new partition without chunks, in this suite.
    Make {
        part: PartId,
        suite: Suite,
    },
    /// The partition `to` is a copy of `from`, and is frozen.
    Copy {
        from: PartId,
        to: PartId,
    },
    /// The partition is gone.
    Drop {
        part: PartId,
    },
}

/// What is told of a partition.
#[derive(Clone, Copy, Debug, PartialEq, Eq)]
pub struct PartInfo {
    /// Its number, 1 to 4,095.
    pub part: PartId,
    pub suite: Suite,
    /// The partition that it is a copy of, or 0 where it was made.
    pub parent: PartId,
    /// The count of the commit that made or copied it.
    pub born: u64,
    /// One more than the greatest rank ever written in it or in the partitions that it is a copy
    /// of, and 0 where there was none.
    pub next: u32,
}

/// Whether the later of two partitions has a chunk at a rank at which they differ.
#[derive(Clone, Copy, Debug, PartialEq, Eq)]
pub enum Side {
    /// It has one there.
    Here,
    /// It has none there, and the earlier one has.
    Gone,
}
