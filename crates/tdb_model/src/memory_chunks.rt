//! A store of chunks in memory.
ghost use Rattle.std.specs.Prelude.{◌≡◌, OnErr, OnOk};
ghost use Rattle.tdb_model.specs.State.{no_partitions};

use crate::change::{Change, PartInfo};
use crate::chunks::Chunks;
use crate::error::{CommitError, ReadError};
use crate::memory::MemoryState;
use std::alloc::{AllocError, Global};
use std::marker::Model;
use tdb_base::{PartId, Rank, Suite};

/// A store of chunks in memory, plain and slow: a commit makes the next state apart and then puts it in place.
///
/// It never stops. It has no ring and room without end.
#[derive(Drop)]
pub struct MemoryChunks {
    suite: Suite,
    count: u64,
    state: MemoryState,
}

impl Model for MemoryChunks {
    ghost use Rattle.tdb_model.specs.InMemory.{InMemory, coded_in_memory};

    ghost Value = { InMemory };

    ghost coded = { coded_in_memory };

    ghost view = { λ c. record { suite = c.suite; count = c.count; state = c.state } };
}

impl MemoryChunks {
    /// An empty store. Its first commit has count 1.
    pub fn new(alloc: Global, suite: Suite) -> MemoryChunks
        ensures { result ≡ record { suite = suite; count = 0; state = no_partitions } }
    {
        MemoryChunks {
            suite,
            count: 0,
            state: MemoryState::new(alloc),
        }
    }

    /// The suite that it was made with.
    pub fn suite(&self) -> Suite
        ensures { result ≡ self.now.suite }
    {
        self.suite
    }
}

impl Chunks for MemoryChunks {
    ghost use Rattle.tdb_model.specs.HasCommitted.{HasCommitted, IsCommittable};
    ghost use Rattle.tdb_model.specs.HasRead.{HasRead};
    ghost use Rattle.tdb_model.specs.InMemory.{after_commit, memory_lawful, memory_means};

    ghost means = { memory_means };

    ghost lawful = { memory_lawful };

    fn read(&mut self, alloc: Global, part: PartId, rank: Rank) -> Result<Vec<u8>, ReadError>
        ensures read { HasRead memory_means part rank self.old self.new result }
        ensures leaves { self.new ≡ self.old }
    {
        let Some(bytes) = self.state.chunk(part, rank) else {
            return match self.state.info(part) {
                Some(_) => Err(ReadError::NoChunk),
                None => Err(ReadError::NoPartition),
            };
        };
        match Vec::from_slice(alloc, bytes) {
            Ok(copy) => Ok(copy),
            Err(_) => Err(ReadError::Memory),
        }
    }

    // A commit has the next count. A refused one leaves all.
    fn commit(&mut self, alloc: Global, changes: &[Change]) -> Result<(), CommitError>
        requires changes { IsCommittable changes.now }
        ensures committed { HasCommitted memory_means changes.now self.old self.new result }
        ensures next { OnOk result (self.new ≡ after_commit changes.now self.old) }
        ensures refused { OnErr result (self.new ≡ self.old) }
    {
        match self.state.check(changes) {
            Ok(()) => {}
            Err(refusal) => return Err(refusal),
        }
        if self.count == u64::MAX {
            return Err(CommitError::CounterEnd);
        }
        let count = self.count + 1;
        match self.state.changed(alloc, count, changes) {
            Ok(next) => {
                self.count = count;
                self.state = next;
                Ok(())
            }
            Err(_) => Err(CommitError::Memory),
        }
    }

    fn partitions(&self, alloc: Global) -> Result<Vec<PartInfo>, AllocError> {
        self.state.partitions(alloc)
    }

    fn info(&self, part: PartId) -> Option<PartInfo> {
        self.state.info(part)
    }

    fn stopped(&self) -> bool {
        false
    }
}
