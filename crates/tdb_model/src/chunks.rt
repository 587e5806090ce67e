//! A store of chunks, whoever keeps it.
ghost use Rattle.std.specs.Prelude.{◌≡◌};
ghost use Rattle.tdb_model.specs.HasCommitted.{HasCommitted, IsCommittable};
ghost use Rattle.tdb_model.specs.HasListed.{HasInfo, HasListed};
ghost use Rattle.tdb_model.specs.HasRead.{HasRead};
ghost use Rattle.tdb_model.specs.IsLawful.{IsLawful};
ghost use Rattle.tdb_model.specs.Meanings.{Meanings};

use crate::change::{Change, PartInfo};
use crate::error::{CommitError, ReadError};
use std::alloc::{AllocError, Global};
use tdb_base::{PartId, Rank};

/// A store of chunks. Its contract says nothing of where it keeps them: what it tells relates its values, an earlier
/// one and a later one.
pub trait Chunks {
    /// What it tells.
    ghost means: { Meanings Self };

    /// The bytes of a chunk.
    fn read(&mut self, alloc: Global, part: PartId, rank: Rank) -> Result<Vec<u8>, ReadError>
        ensures read { HasRead means part rank self.old self.new result };

    /// Makes these changes, all or none.
    fn commit(&mut self, alloc: Global, changes: &[Change]) -> Result<(), CommitError>
        requires changes { IsCommittable changes.now }
        ensures committed { HasCommitted means changes.now self.old self.new result };

    /// What is told of each partition, by number.
    fn partitions(&self, alloc: Global) -> Result<Vec<PartInfo>, AllocError>
        ensures listed { HasListed means self.now result };

    /// What is told of a partition, or `None` where it isn't there. It takes no memory.
    fn info(&self, part: PartId) -> Option<PartInfo>
        ensures info { HasInfo means part self.now result };

    /// Whether an earlier commit or checkpoint met a fault. Then each call that can says so.
    fn stopped(&self) -> bool
        ensures stopped { result ≡ means.is_stopped self.now };

    /// What it tells has the laws of a store.
    ghost lawful: { IsLawful means };
}
