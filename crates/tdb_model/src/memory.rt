//! A database in memory: plain and slow, without a device and without what may go wrong on one.
ghost use Rattle.std.specs.Prelude.{◌≡◌, ℕ, ◌<◌, length, take, IfOk, OnOk, OnErr, None};
ghost use Rattle.std.specs.FinMap as map;
ghost use Rattle.std.specs.Option.{option_map, option_copied};
ghost use Rattle.tdb_model.specs.Apply.{with_chunk, without_chunk, made, copied, with_partition, apply, apply_all};
ghost use Rattle.tdb_model.specs.Check.{check};
ghost use Rattle.tdb_model.specs.HasListed.{infos_of};
ghost use Rattle.tdb_model.specs.Lookup.{info_of, chunk_at};
ghost use Rattle.tdb_model.specs.Memory.{partition_of, IsRankInRange};
ghost use Rattle.tdb_model.specs.State.{no_partitions};

use crate::change::{Change, PartInfo};
use crate::checking::Partitions;
use std::alloc::{AllocError, Global};
use std::collections::BTreeMap;
use std::marker::Model;
use tdb_base::{PartId, Rank, Suite};

/// What is kept of a partition.
#[derive(Drop)]
pub(crate) struct KeptPartition {
    suite: Suite,
    home: u32,
    birth: u64,
    next: u32,
    parent: u32,
    born: u64,
    chunks: BTreeMap<u32, Vec<u8>>,
}

/// A database in memory. Contracts see it as the state that it is in.
#[derive(Drop)]
pub struct MemoryState {
    partitions: BTreeMap<u32, KeptPartition>,
}

impl Model for MemoryState {
    ghost use Rattle.tdb_model.specs.Memory.{state_in, coded_state};
    ghost use Rattle.tdb_model.specs.State.{State};

    ghost Value = { State };

    ghost coded = { coded_state };

    ghost view = { λ a. state_in a.partitions };
}

impl Clone for KeptPartition {
    ghost is_clone = { λ p q. partition_of q ≡ partition_of p };

    fn clone(&self) -> Result<KeptPartition, AllocError> {
        Ok(KeptPartition {
            suite: self.suite,
            home: self.home,
            birth: self.birth,
            next: self.next,
            parent: self.parent,
            born: self.born,
            chunks: self.chunks.clone()?,
        })
    }
}

impl KeptPartition {
    /// Sets the bytes at a rank.
    fn write(&mut self, rank: u32, bytes: Vec<u8>) -> Result<(), AllocError>
        requires { rank < 262144 }
        ensures ok { OnOk result (partition_of self.new ≡ with_chunk rank bytes.items (partition_of self.old)) }
        ensures err { OnErr result (partition_of self.new ≡ partition_of self.old) }
    {
        self.chunks.insert(rank, bytes)?;
        self.next = self.next.max(rank + 1);
        Ok(())
    }

    /// Takes the chunk at a rank away.
    fn free(&mut self, rank: u32)
        ensures { partition_of self.new ≡ without_chunk rank (partition_of self.old) }
    {
        let _freed = self.chunks.remove(&rank);
    }

    /// The bytes at a rank.
    fn chunk(&self, rank: u32) -> Option<&[u8]>
        ensures { option_copied result ≡ map.get (partition_of self.now).chunks rank }
    {
        match self.chunks.get(&rank) {
            Some(bytes) => Some(bytes.as_slice()),
            None => None,
        }
    }

    /// What is told of it under its number.
    fn info(&self, part: PartId) -> PartInfo
        ensures { result ≡ info_of part (partition_of self.now) }
    {
        let next = self.next;
        PartInfo {
            part,
            suite: self.suite,
            parent: PartId(self.parent),
            born: self.born,
            next,
        }
    }

    /// A copy of this partition, which has the number `from`, by the commit with that count.
    fn copy(&self, from: u32, count: u64) -> Result<KeptPartition, AllocError>
        ensures { IfOk result (λ copy. partition_of copy ≡ copied count from (partition_of self.now)) }
    {
        let mut copy = self.clone()?;
        copy.parent = from;
        copy.born = count;
        Ok(copy)
    }
}

impl MemoryState {
    /// The database before its first commit.
    pub fn new(alloc: Global) -> MemoryState
        ensures { result ≡ no_partitions }
    {
        MemoryState {
            partitions: BTreeMap::new(alloc),
        }
    }

    /// What is told of a partition, or `None` where it isn't there. It takes no memory.
    pub fn info(&self, part: PartId) -> Option<PartInfo>
        ensures { result ≡ option_map (info_of part) (map.get self.now part.0) }
    {
        match self.partitions.get(&part.0) {
            Some(partition) => Some(partition.info(part)),
            None => None,
        }
    }

    /// The bytes of a chunk, or `None` where the partition or the chunk isn't there. It takes no
    /// memory.
    pub fn chunk(&self, part: PartId, rank: Rank) -> Option<&[u8]>
        ensures { option_copied result ≡ chunk_at self.now part.0 rank.0 }
    {
        match self.partitions.get(&part.0) {
            Some(partition) => partition.chunk(rank.0),
            None => None,
        }
    }

    /// What is told of each partition, by number.
    pub fn partitions(&self, alloc: Global) -> Result<Vec<PartInfo>, AllocError>
        ensures { IfOk result (λ infos. infos.items ≡ infos_of self.now) }
    {
        let mut infos = Vec::new(alloc);
        for (part, partition) in self.partitions.iter() {
            infos.push(partition.info(PartId(*part)))?;
        }
        Ok(infos)
    }

    /// The database after a commit with this count and these changes. This one stays as it is.
    pub fn changed(
        &self,
        alloc: Global,
        count: u64,
        changes: &[Change],
    ) -> Result<MemoryState, AllocError>
        requires passes { check self.now changes.now ≡ None }
        ensures { IfOk result (λ next. next ≡ apply_all count self.now changes.now) }
    {
        let mut next = self.copied()?;
        next.apply(alloc, count, changes)?;
        Ok(next)
    }

    fn copied(&self) -> Result<MemoryState, AllocError>
        ensures { IfOk result (λ copy. copy ≡ self.now) }
    {
        Ok(MemoryState {
            partitions: self.partitions.clone()?,
        })
    }

    /// Applies the changes of a commit with this count. Where memory runs out the changes before
    /// the one that wanted it stand.
    pub fn apply(&mut self, alloc: Global, count: u64, changes: &[Change]) -> Result<(), AllocError>
        requires passes { check self.old changes.now ≡ None }
        ensures ok { OnOk result (self.new ≡ apply_all count self.old changes.now) }
        ensures err { OnErr result ((n : ℕ) × (n < length changes.now) × (self.new ≡ apply_all count self.old (take n changes.now))) }
    {
        for change in changes {
            self.apply_change(alloc, count, change)?;
        }
        Ok(())
    }

    fn apply_change(&mut self, alloc: Global, count: u64, change: &Change) -> Result<(), AllocError>
        requires { IsRankInRange change.now }
        ensures ok { OnOk result (self.new ≡ apply count self.old change.now) }
        ensures err { OnErr result (self.new ≡ self.old) }
    {
        match change {
            Change::Write { part, rank, bytes } => {
                let chunk = Vec::from_slice(alloc, bytes.as_slice())?;
                self.write(part.0, rank.0, chunk)
            }
            Change::Free { part, rank } => {
                self.free(part.0, rank.0);
                Ok(())
            }
            Change::Make { part, suite } => self.make(alloc, count, part.0, *suite),
            Change::Copy { from, to } => self.copy(count, from.0, to.0),
            Change::Drop { part } => {
                self.drop_partition(part.0);
                Ok(())
            }
        }
    }

    fn write(&mut self, part: u32, rank: u32, bytes: Vec<u8>) -> Result<(), AllocError>
        requires { rank < 262144 }
        ensures ok { OnOk result
            (self.new ≡ with_partition self.old part (option_map (with_chunk rank bytes.items) (map.get self.old part))) }
        ensures err { OnErr result (self.new ≡ self.old) }
    {
        match self.partitions.get_mut(&part) {
            Some(partition) => partition.write(rank, bytes),
            None => Ok(()),
        }
    }

    fn free(&mut self, part: u32, rank: u32)
        ensures { self.new ≡ with_partition self.old part (option_map (without_chunk rank) (map.get self.old part)) }
    {
        if let Some(partition) = self.partitions.get_mut(&part) {
            partition.free(rank);
        }
    }

    fn make(&mut self, alloc: Global, count: u64, part: u32, suite: Suite) -> Result<(), AllocError>
        ensures ok { OnOk result (self.new ≡ map.insert self.old part (made count part suite)) }
        ensures err { OnErr result (self.new ≡ self.old) }
    {
        let partition = KeptPartition {
            suite,
            home: part,
            birth: count,
            next: 0,
            parent: 0,
            born: count,
            chunks: BTreeMap::new(alloc),
        };
        self.partitions.insert(part, partition)?;
        Ok(())
    }

    fn copy(&mut self, count: u64, from: u32, to: u32) -> Result<(), AllocError>
        ensures ok { OnOk result (self.new ≡ with_partition self.old to (option_map (copied count from) (map.get self.old from))) }
        ensures err { OnErr result (self.new ≡ self.old) }
    {
        let Some(source) = self.partitions.get(&from) else {
            return Ok(());
        };
        let copy = source.copy(from, count)?;
        self.partitions.insert(to, copy)?;
        Ok(())
    }

    fn drop_partition(&mut self, part: u32)
        ensures { self.new ≡ map.remove self.old part }
    {
        let _dropped = self.partitions.remove(&part);
    }
}

impl Partitions for MemoryState {
    ghost state = { λ s. s };

    fn parent(&self, part: PartId) -> Option<u32> {
        match self.partitions.get(&part.0) {
            Some(partition) => Some(partition.parent),
            None => None,
        }
    }
}
