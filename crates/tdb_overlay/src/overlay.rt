//! The partitions as change lists tell them.
ghost use Rattle.std.specs.Prelude.{◌≡◌, ◌<◌, ◌≤◌, IfOk, IfSome, OnErr, OnOk};
ghost use Rattle.std.specs.FinMap as map;
ghost use Rattle.std.specs.List.{AllByRecursion};
ghost use Rattle.std.specs.Option.{option_copied, option_map};
ghost use Rattle.tdb_base.specs.Segment.{LiesInOneSegment};
ghost use Rattle.tdb_list.specs.ChangeList.{IsList};
ghost use Rattle.tdb_list.specs.Entry.{IsEntry, IsPartition};
ghost use Rattle.tdb_map.specs.Updated.{EditsFit, EditsLie};
ghost use Rattle.tdb_model.specs.Memory.{seen_as};
ghost use Rattle.tdb_node.specs.Leader.{IsInLeaderFormat};
ghost use Rattle.tdb_node.specs.Node.{IsEntry as IsRoot};
ghost use Rattle.tdb_overlay.specs.Covering.{no_covers, suite_numbered, cover_written, cover_freed, cover_copied};
ghost use Rattle.tdb_overlay.specs.Covering.{cover_made, with_cover, noted, noted_all};
ghost use Rattle.tdb_overlay.specs.InRange.{IsInFormat, numbers_told, written_leader};
ghost use Rattle.tdb_overlay.specs.Lookup.{NamesKey, cover_told, info_told, infos_told, leader_of, seen_in, seen_at};
ghost use Rattle.tdb_overlay.specs.Memory.{covered_of};
ghost use Rattle.tdb_overlay.specs.Reserving.{IsReserved};
ghost use Rattle.tdb_overlay.specs.Roster.{kept_of};
ghost use Rattle.tdb_overlay.specs.Trees.{map_height};

use crate::kept::KeptPartition;
use std::alloc::{AllocError, Global};
use std::collections::BTreeMap;
use std::marker::Model;
use std::mem;
use tdb_base::{PartId, Piece, Rank, Suite};
use tdb_list::Entry;
use tdb_model::PartInfo;

// The kinds of the changes.
const WRITE: u32 = 1;

const FREE: u32 = 2;

const MAKE: u32 = 3;

const COPY: u32 = 4;

/// What is told of a partition.
#[derive(Clone, Copy, Debug, PartialEq, Eq)]
pub struct Leader {
    /// The suite of its records.
    pub suite: Suite,
    /// The number of the partition that was made. With `birth` it names the key of its records.
    pub home: u32,
    /// The count of the commit that made it.
    pub birth: u64,
    /// One more than the greatest rank ever written, 0 where there was none.
    pub next: u32,
    /// The partition that it is a copy of, or 0 where it was made.
    pub parent: u32,
    /// The count of the commit that made or copied it.
    pub born: u64,
    /// The root of its tree at the last checkpoint, if it had one with a chunk.
    pub root: Option<Piece>,
}

/// What the lists since the last checkpoint say of a rank.
#[derive(Clone, Copy, Debug, PartialEq, Eq)]
pub enum Seen {
    /// Nothing: it is as at the checkpoint.
    Base,
    /// It has no chunk.
    Gone,
    /// Its chunk is in the record of this piece.
    Here(Piece),
}

/// The partitions, with the ranks that were changed since the last checkpoint.
///
/// Contracts see the finite map of the partitions by their numbers.
#[derive(Drop)]
pub struct Overlay {
    current: Partitions,
    spare: Option<Spare>,
}

/// What an overlay becomes once the list of a commit is taken in, with all the memory that this takes.
#[derive(Drop)]
pub struct Reserved {
    next: Partitions,
    count: u64,
    entries: Vec<Entry>,
}

/// The partitions as they were before the last list, and that list. What a commit reserves is made of them, so that
/// it costs as much as two lists, and not as much as all partitions.
#[derive(Drop)]
pub(crate) struct Spare {
    before: Partitions,
    count: u64,
    entries: Vec<Entry>,
}

/// The partitions by their numbers.
#[derive(Drop)]
pub(crate) struct Partitions {
    by_number: BTreeMap<u32, KeptPartition>,
}

impl Model for Overlay {
    ghost use Rattle.tdb_overlay.specs.Covering.{Covers};
    ghost use Rattle.tdb_overlay.specs.Memory.{coded_covers};
    ghost use Rattle.tdb_overlay.specs.Reserving.{IsBehind};

    ghost Value = { Covers };

    ghost coded = { coded_covers };

    ghost view = { λ o. o.current };

    ghost invariant = { λ o. IsBehind o.current o.spare };
}

impl Model for Partitions {
    ghost use Rattle.tdb_overlay.specs.Covering.{Covers};
    ghost use Rattle.tdb_overlay.specs.InRange.{AreInRange};
    ghost use Rattle.tdb_overlay.specs.Memory.{coded_covers, covers_in};

    ghost Value = { Covers };

    ghost coded = { coded_covers };

    ghost view = { λ p. covers_in p.by_number };

    ghost invariant = { λ p. AreInRange (covers_in p.by_number) };
}

impl Leader {
    /// What is kept of the leader that a checkpoint wrote.
    pub fn kept(leader: &tdb_node::Leader) -> Leader
        ensures fields { result ≡ kept_of leader.now }
        ensures format { IsInLeaderFormat leader.now → IsInFormat result }
    {
        Leader {
            suite: leader.suite,
            home: leader.home,
            birth: leader.birth,
            next: leader.next,
            parent: leader.parent,
            born: leader.born,
            root: leader.root,
        }
    }

    /// The leader that a checkpoint writes for the partition, with the root of its tree.
    pub fn leader(&self, root: Option<Piece>) -> tdb_node::Leader
        ensures fields { result ≡ written_leader self.now root }
        ensures format { IsInFormat self.now → IsRoot root → IsInLeaderFormat result }
    {
        tdb_node::Leader {
            suite: self.suite,
            home: self.home,
            birth: self.birth,
            next: self.next,
            parent: self.parent,
            born: self.born,
            root,
        }
    }

    /// What is told of a partition under its number.
    fn info(&self, part: PartId) -> PartInfo
        ensures { result ≡ info_told part self.now }
    {
        PartInfo {
            part,
            suite: self.suite,
            parent: PartId(self.parent),
            born: self.born,
            next: self.next,
        }
    }
}

// The suite with a number.
fn suite_of(number: u32) -> Suite
    ensures { result ≡ suite_numbered number }
{
    match number {
        0 => Suite::Plain,
        1 => Suite::Aes128,
        _ => Suite::Aes256,
    }
}

impl Clone for KeptPartition {
    ghost is_clone = { λ p q. covered_of q ≡ covered_of p };

    fn clone(&self) -> Result<KeptPartition, AllocError> {
        Ok(KeptPartition {
            leader: self.leader,
            edits: self.edits.clone()?,
        })
    }
}

impl KeptPartition {
    /// The chunk at a rank is in the record of a piece.
    fn write(&mut self, rank: u32, piece: Piece) -> Result<(), AllocError>
        requires { rank < 262144 }
        ensures ok { OnOk result (covered_of self.new ≡ cover_written rank piece (covered_of self.old)) }
        ensures err { OnErr result (covered_of self.new ≡ covered_of self.old) }
    {
        self.edits.insert(rank, Some(piece))?;
        self.leader.next = self.leader.next.max(rank + 1);
        Ok(())
    }

    /// There is no chunk at a rank.
    fn free(&mut self, rank: u32) -> Result<(), AllocError>
        ensures ok { OnOk result (covered_of self.new ≡ cover_freed rank (covered_of self.old)) }
        ensures err { OnErr result (covered_of self.new ≡ covered_of self.old) }
    {
        self.edits.insert(rank, None)?;
        Ok(())
    }

    /// A copy of this partition, which has the number `from`, by the commit with that count.
    fn copy(&self, from: u32, count: u64) -> Result<KeptPartition, AllocError>
        ensures { IfOk result (λ copy. covered_of copy ≡ cover_copied count from (covered_of self.now)) }
    {
        Ok(KeptPartition {
            leader: Leader {
                parent: from,
                born: count,
                ..self.leader
            },
            edits: self.edits.clone()?,
        })
    }

    /// What is said of a rank.
    fn get(&self, rank: u32) -> Seen
        ensures { result ≡ seen_in (map.get (covered_of self.now).edits rank) }
    {
        match self.edits.get(&rank) {
            None => Seen::Base,
            Some(None) => Seen::Gone,
            Some(Some(piece)) => Seen::Here(*piece),
        }
    }
}

impl Overlay {
    /// No partition.
    pub fn new(alloc: Global) -> Overlay
        ensures { result ≡ no_covers }
    {
        Overlay {
            current: Partitions::new(alloc),
            spare: None,
        }
    }

    /// Takes in the changes that a list of the commit with this count says, in order.
    ///
    /// Where memory runs out some of them may have been taken in: the value is of no use then.
    pub fn note(&mut self, alloc: Global, count: u64, entries: &[Entry]) -> Result<(), AllocError>
        requires list { IsList entries.now }
        requires some { 1 ≤ count }
        ensures ok { OnOk result (self.new ≡ noted_all count self.old entries.now) }
    {
        self.spare = None;
        self.current.note(alloc, count, entries)
    }

    /// Tells of a partition what its leader says. No rank of it was changed.
    pub fn tell(&mut self, alloc: Global, part: PartId, leader: &Leader) -> Result<(), AllocError>
        requires number { IsPartition part.0 }
        requires format { IsInFormat leader.now }
        ensures { OnOk result (self.new ≡ map.insert self.old part.0 (cover_told leader.now)) }
    {
        self.spare = None;
        self.current.tell(alloc, part.0, leader)
    }

    /// Takes all the memory that the list of a commit with this count needs, and nothing of the list yet.
    ///
    /// It costs as much as the list and the one before it. The first time after a `note`, or after what was reserved
    /// wasn't taken in, it costs as much as all partitions. Fails where memory runs out.
    pub fn reserve(
        &mut self,
        alloc: Global,
        count: u64,
        entries: &[Entry],
    ) -> Result<Reserved, AllocError>
        requires list { IsList entries.now }
        requires some { 1 ≤ count }
        ensures stays { self.new ≡ self.old }
        ensures same { IfOk result (λ reserved. (reserved.count ≡ count) × (reserved.entries.items ≡ entries.now)) }
        ensures ready { IfOk result (λ reserved. IsReserved self.old reserved) }
    {
        let mut next = self.second(alloc)?;
        next.note(alloc, count, entries)?;
        Ok(Reserved {
            next,
            count,
            entries: Vec::from_slice(alloc, entries)?,
        })
    }

    /// Takes in the list for which this was reserved. It takes no memory.
    pub fn take_in(&mut self, reserved: Reserved)
        requires { IsReserved self.old reserved }
        ensures { self.new ≡ noted_all reserved.count self.old reserved.entries.items }
    {
        let before = mem::replace(&mut self.current, reserved.next);
        self.spare = Some(Spare {
            before,
            count: reserved.count,
            entries: reserved.entries,
        });
    }

    /// What the lists say of a rank. It takes no memory.
    pub fn get(&self, part: PartId, rank: Rank) -> Seen
        ensures { result ≡ seen_at self.now part.0 rank.0 }
    {
        self.current.get(part, rank)
    }

    /// What is told of a partition, or `None` where it isn't there. It takes no memory.
    pub fn leader(&self, part: PartId) -> Option<Leader>
        ensures found { result ≡ option_map leader_of (map.get self.now part.0) }
        ensures named { IfSome result NamesKey }
        ensures format { IfSome result IsInFormat }
    {
        self.current.leader(part)
    }

    /// The ranks of a partition that were changed since the last checkpoint, or `None` where it isn't there: the piece
    /// of the record of a chunk that was written, and `None` for one that was freed. It takes no memory.
    pub fn edits(&self, part: PartId) -> Option<&BTreeMap<u32, Option<Piece>>>
        ensures told { option_map (seen_as (λ piece. piece)) (option_copied result)
            ≡ option_map (λ p. p.edits) (map.get self.now part.0) }
        ensures ranks { IfSome result (λ edits. EditsFit map_height edits.now.entries) }
        ensures pieces { IfSome result (λ edits. EditsLie edits.now.entries) }
    {
        self.current.edits(part)
    }

    /// The numbers of the partitions, ascending.
    pub fn numbers(&self, alloc: Global) -> Result<Vec<PartId>, AllocError>
        ensures told { IfOk result (λ numbers. numbers.items ≡ numbers_told self.now) }
        ensures in_range { IfOk result (λ numbers. AllByRecursion (λ part. IsPartition part.0) numbers.items) }
    {
        self.current.numbers(alloc)
    }

    /// What is told of a partition to those who ask, or `None` where it isn't there. It takes no memory.
    pub fn info(&self, part: PartId) -> Option<PartInfo>
        ensures { result ≡ option_map (λ p. info_told part (leader_of p)) (map.get self.now part.0) }
    {
        match self.current.leader(part) {
            Some(leader) => Some(leader.info(part)),
            None => None,
        }
    }

    /// The same of each partition, by number.
    pub fn infos(&self, alloc: Global) -> Result<Vec<PartInfo>, AllocError>
        ensures { IfOk result (λ infos. infos.items ≡ infos_told self.now) }
    {
        self.current.infos(alloc)
    }

    /// A copy, which costs as much as all partitions.
    pub fn copied(&self) -> Result<Overlay, AllocError>
        ensures { IfOk result (λ copy. copy ≡ self.now) }
    {
        Ok(Overlay {
            current: self.current.copied()?,
            spare: None,
        })
    }

    // The partitions a second time: the spare ones, brought up to date, or a copy where there are none.
    fn second(&mut self, alloc: Global) -> Result<Partitions, AllocError>
        ensures stays { self.new ≡ self.old }
        ensures same { IfOk result (λ second. second ≡ self.old) }
    {
        match self.spare.take() {
            Some(spare) => spare.caught_up(alloc),
            None => self.current.copied(),
        }
    }
}

impl Spare {
    // The partitions with the list taken in.
    fn caught_up(self, alloc: Global) -> Result<Partitions, AllocError>
        requires list { IsList self.entries.items }
        requires some { 1 ≤ self.count }
        ensures { IfOk result (λ next. next ≡ noted_all self.count self.before self.entries.items) }
    {
        let mut next = self.before;
        next.note(alloc, self.count, self.entries.as_slice())?;
        Ok(next)
    }
}

impl Partitions {
    fn new(alloc: Global) -> Partitions
        ensures { result ≡ no_covers }
    {
        Partitions {
            by_number: BTreeMap::new(alloc),
        }
    }

    fn copied(&self) -> Result<Partitions, AllocError>
        ensures { IfOk result (λ copy. copy ≡ self.now) }
    {
        Ok(Partitions {
            by_number: self.by_number.clone()?,
        })
    }

    fn note(&mut self, alloc: Global, count: u64, entries: &[Entry]) -> Result<(), AllocError>
        requires list { IsList entries.now }
        requires some { 1 ≤ count }
        ensures ok { OnOk result (self.new ≡ noted_all count self.old entries.now) }
    {
        for entry in entries {
            self.note_entry(alloc, count, entry)?;
        }
        Ok(())
    }

    fn get(&self, part: PartId, rank: Rank) -> Seen
        ensures { result ≡ seen_at self.now part.0 rank.0 }
    {
        match self.by_number.get(&part.0) {
            Some(partition) => partition.get(rank.0),
            None => Seen::Base,
        }
    }

    fn leader(&self, part: PartId) -> Option<Leader>
        ensures found { result ≡ option_map leader_of (map.get self.now part.0) }
        ensures named { IfSome result NamesKey }
        ensures format { IfSome result IsInFormat }
    {
        match self.by_number.get(&part.0) {
            Some(partition) => Some(partition.leader),
            None => None,
        }
    }

    fn edits(&self, part: PartId) -> Option<&BTreeMap<u32, Option<Piece>>>
        ensures told { option_map (seen_as (λ piece. piece)) (option_copied result)
            ≡ option_map (λ p. p.edits) (map.get self.now part.0) }
        ensures ranks { IfSome result (λ edits. EditsFit map_height edits.now.entries) }
        ensures pieces { IfSome result (λ edits. EditsLie edits.now.entries) }
    {
        match self.by_number.get(&part.0) {
            Some(partition) => Some(&partition.edits),
            None => None,
        }
    }

    fn numbers(&self, alloc: Global) -> Result<Vec<PartId>, AllocError>
        ensures told { IfOk result (λ numbers. numbers.items ≡ numbers_told self.now) }
        ensures in_range { IfOk result (λ numbers. AllByRecursion (λ part. IsPartition part.0) numbers.items) }
    {
        let mut numbers = Vec::new(alloc);
        for (part, _) in self.by_number.iter() {
            numbers.push(PartId(*part))?;
        }
        Ok(numbers)
    }

    fn infos(&self, alloc: Global) -> Result<Vec<PartInfo>, AllocError>
        ensures { IfOk result (λ infos. infos.items ≡ infos_told self.now) }
    {
        let mut infos = Vec::new(alloc);
        for (part, partition) in self.by_number.iter() {
            infos.push(partition.leader.info(PartId(*part)))?;
        }
        Ok(infos)
    }

    fn note_entry(&mut self, alloc: Global, count: u64, entry: &Entry) -> Result<(), AllocError>
        requires entry { IsEntry entry.now }
        requires some { 1 ≤ count }
        ensures { OnOk result (self.new ≡ noted count self.old entry.now) }
    {
        match entry.kind {
            WRITE => self.write(entry.part, entry.rank, entry.piece),
            FREE => self.free(entry.part, entry.rank),
            MAKE => self.make(alloc, count, entry),
            COPY => self.copy(count, entry.part, entry.rank),
            _ => {
                self.drop_partition(entry.part);
                Ok(())
            }
        }
    }

    fn write(&mut self, part: u32, rank: u32, piece: Piece) -> Result<(), AllocError>
        requires rank { rank < 262144 }
        requires piece { LiesInOneSegment piece }
        ensures { OnOk result (self.new ≡ with_cover self.old part (option_map (cover_written rank piece) (map.get self.old part))) }
    {
        match self.by_number.get_mut(&part) {
            Some(partition) => partition.write(rank, piece),
            None => Ok(()),
        }
    }

    fn free(&mut self, part: u32, rank: u32) -> Result<(), AllocError>
        requires { rank < 262144 }
        ensures { OnOk result (self.new ≡ with_cover self.old part (option_map (cover_freed rank) (map.get self.old part))) }
    {
        match self.by_number.get_mut(&part) {
            Some(partition) => partition.free(rank),
            None => Ok(()),
        }
    }

    fn make(&mut self, alloc: Global, count: u64, entry: &Entry) -> Result<(), AllocError>
        requires number { IsPartition entry.now.part }
        requires some { 1 ≤ count }
        ensures { OnOk result (self.new ≡ map.insert self.old entry.now.part (cover_made count entry.now)) }
    {
        let partition = KeptPartition {
            leader: Leader {
                suite: suite_of(entry.suite),
                home: entry.part,
                birth: count,
                next: 0,
                parent: 0,
                born: count,
                root: None,
            },
            edits: BTreeMap::new(alloc),
        };
        self.by_number.insert(entry.part, partition)?;
        Ok(())
    }

    fn tell(&mut self, alloc: Global, part: u32, leader: &Leader) -> Result<(), AllocError>
        requires number { IsPartition part }
        requires format { IsInFormat leader.now }
        ensures { OnOk result (self.new ≡ map.insert self.old part (cover_told leader.now)) }
    {
        let partition = KeptPartition {
            leader: *leader,
            edits: BTreeMap::new(alloc),
        };
        self.by_number.insert(part, partition)?;
        Ok(())
    }

    fn copy(&mut self, count: u64, from: u32, to: u32) -> Result<(), AllocError>
        requires from { IsPartition from }
        requires to { IsPartition to }
        requires some { 1 ≤ count }
        ensures { OnOk result (self.new ≡ with_cover self.old to (option_map (cover_copied count from) (map.get self.old from))) }
    {
        let Some(source) = self.by_number.get(&from) else {
            return Ok(());
        };
        let copy = source.copy(from, count)?;
        self.by_number.insert(to, copy)?;
        Ok(())
    }

    fn drop_partition(&mut self, part: u32)
        ensures { self.new ≡ map.remove self.old part }
    {
        let _dropped = self.by_number.remove(&part);
    }
}
