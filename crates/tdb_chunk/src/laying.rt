//! The changes of a commit: an entry for each, and the records of its writes.
ghost use Rattle.std.specs.Prelude.{◌≡◌, ◌<◌, ◌≤◌, ◌+◌, List, Err, IfOk, None, Some, length};
ghost use Rattle.std.specs.List.{list_any};
ghost use Rattle.tdb_append.specs.Placed.{placed};
ghost use Rattle.tdb_base.specs.declared.piece.NoRoom as room;
ghost use Rattle.tdb_model.specs.Check.{check};
ghost use Rattle.tdb_model.specs.State.{State};
ghost use Rattle.tdb_model.specs.declared.change.Change.TheVariants.{Write};
ghost use Rattle.tdb_parts.specs.BareState.{bare_state};
ghost use Rattle.tdb_seal.specs.SealedRecord.{IsSealedRecord};
ghost use Rattle.tdb_seg.specs.SegmentSpace.{fits, place_in};
ghost use Rattle.tdb_overlay.specs.Keys.{partition_key};
ghost use Rattle.tdb_overlay.specs.SealedOnly.{IsRecord};
ghost use Rattle.tdb_overlay.specs.StoreState as space;
ghost use Rattle.tdb_chunk.specs.Known.{store_of};
ghost use Rattle.tdb_overlay.specs.LaidOut.{LaidOut};
ghost use Rattle.tdb_chunk.specs.Laying.{AreAllLaid, HasKey, HasOwner, IsLaid, IsOwner, Sealing, PassesBehind};
ghost use Rattle.tdb_chunk.specs.Laying.{entry_with, entry_without, name_in, owner_after, sealing_in, told_behind};
ghost use Rattle.tdb_overlay.specs.declared.batch.LayError.TheVariants as lay;

use crate::commit::KEPT_FREE;
use crate::open_log::OpenLog;
use crate::owner::Owner;
use std::alloc::{AllocError, Global};
use tdb_base::{Bytes, Digest, PartId, Piece, Place, Rank};
use tdb_list::Entry;
use tdb_model::Change;
use tdb_overlay::{Batch, Keys, LayError, Overlay};
use tdb_seal::Name;

/// How many segments stay free of a commit that only frees and drops.
const KEPT_BY_FREES: u32 = 2;

// The kinds of the entries.
const WRITE: u32 = 1;

const FREE: u32 = 2;

const MAKE: u32 = 3;

const COPY: u32 = 4;

const DROP: u32 = 5;

/// The kind of a record of a chunk.
const CHUNK: u32 = 1;

// No piece.
const NOWHERE: Piece = Piece {
    place: Place(0),
    length: 0,
    digest: Digest([0; 32]),
};

/// The entries of changes, their records sealed and placed one after another, and how many segments such a commit keeps
/// free.
#[derive(Drop)]
pub(crate) struct LaidChanges {
    pub entries: Vec<Entry>,
    pub batch: Batch,
    pub keep: u32,
}

// Whether a change needs more segments to stay free.
fn needs_room(change: &Change) -> bool
    ensures { result ≡ space.needs_room change.now }
{
    match change {
        Change::Write { .. } | Change::Make { .. } | Change::Copy { .. } => true,
        Change::Free { .. } | Change::Drop { .. } => false,
    }
}

// Whether one of these changes does.
fn one_needs_room(changes: &[Change]) -> bool
    ensures { result ≡ list_any space.needs_room changes.now }
{
    for change in changes {
        if needs_room(change) {
            return true;
        }
    }
    false
}

// How many segments stay free of a commit of these changes.
fn kept_free(changes: &[Change]) -> u32
    ensures { result ≡ space.kept_free changes.now }
{
    if one_needs_room(changes) {
        KEPT_FREE
    } else {
        KEPT_BY_FREES
    }
}

// The owner of chunks of a partition behind a change, by the one before it.
fn next_owner(owner: Option<Owner>, count: u64, change: &Change, part: PartId) -> Option<Owner>
    ensures { result ≡ owner_after count part change.now owner }
{
    match change {
        Change::Make { part: made, suite } if made.0 == part.0 => Some(Owner {
            part,
            suite: *suite,
            home: part.0,
            birth: count,
        }),
        Change::Copy { to, .. } if to.0 == part.0 => None,
        Change::Drop { part: dropped } if dropped.0 == part.0 => None,
        _ => owner,
    }
}

// An entry that names no record.
fn plain_entry(kind: u32, part: u32, rank: u32, suite: u32) -> Entry
    ensures { result ≡ entry_without kind part rank suite }
{
    Entry {
        kind,
        part,
        rank,
        suite,
        home: 0,
        birth: 0,
        piece: NOWHERE,
    }
}

// The chunk of an owner at a rank is in the record of a piece.
fn write_entry(owner: &Owner, rank: Rank, piece: Piece) -> Entry
    ensures { result ≡ entry_with owner.now rank.0 piece }
{
    Entry {
        kind: WRITE,
        part: owner.part.0,
        rank: rank.0,
        suite: owner.suite.number(),
        home: owner.home,
        birth: owner.birth,
        piece,
    }
}

/// Seals the bytes of a chunk under the suite and the key of its owner.
fn seal_bytes(
    alloc: Global,
    keys: &mut Keys,
    owner: &Owner,
    rank: Rank,
    chunk: &Bytes,
) -> Result<Vec<u8>, AllocError>
    requires key { HasKey owner.now }
    requires rank { rank.0 < 262144 }
    requires short { length chunk.now ≤ 65536 }
    ensures same { keys.new ≡ keys.old }
    ensures sealed { IfOk result (λ bytes. IsSealedRecord (partition_key keys.old owner.now.home owner.now.birth)
        (name_in owner.now rank.0) chunk.now bytes.items) }
    ensures is_record { IfOk result (λ bytes. IsRecord keys.old bytes.items) }
    ensures size { IfOk result (λ bytes. length bytes.items ≡ space.record_length owner.now.suite (length chunk.now)) }
    ensures some { IfOk result (λ bytes. 1 ≤ length bytes.items) }
    ensures most { IfOk result (λ bytes. length bytes.items ≤ 262144) }
{
    let name = Name {
        kind: CHUNK,
        suite: owner.suite,
        home: owner.home,
        rank: rank.0,
    };
    keys.seal_chunk(alloc, owner.part, owner.birth, &name, chunk.as_slice())
}

// What an overlay tells of the owner of a partition's chunks.
fn told_owner(overlay: &Overlay, part: PartId) -> Option<Owner>
    ensures { HasOwner part (sealing_in (bare_state overlay.now) part.0) result }
{
    match overlay.leader(part) {
        Some(leader) => Some(Owner {
            part,
            suite: leader.suite,
            home: leader.home,
            birth: leader.birth,
        }),
        None => None,
    }
}

impl OpenLog {
    /// Seals the changes of a commit that passes, and places their records.
    pub(crate) fn lay_changes(
        &mut self,
        alloc: Global,
        changes: &[Change],
    ) -> Result<LaidChanges, LayError>
        requires passes { check (bare_state self.old.log.overlay) changes.now ≡ None }
        requires counts_on { self.old.log.head.count < 18446744073709551615 }
        ensures same { self.new ≡ self.old }
        ensures keep { IfOk result (λ laid. laid.keep ≡ space.kept_free changes.now) }
        ensures laid { IfOk result (λ laid. AreAllLaid self.old.keys (self.old.log.head.count + 1) (bare_state self.old.log.overlay)
            (space.kept_free changes.now) self.old.log.segments
            changes.now laid.entries.items (placed laid.batch.pieces.items) laid.batch.segments) }
        ensures refused { (refusal : room.NoRoom) → result ≡ Err (lay.NoRoom refusal)
            → fits self.old.log.segments (space.records_of (store_of self.old) (self.old.log.head.count + 1)
            (bare_state self.old.log.overlay) changes.now) (space.kept_free changes.now) ≡ Err refusal }
    {
        self.log.segments.known();
        let keep = kept_free(changes);
        let mut entries = Vec::with_capacity(alloc, changes.len())?;
        let mut batch = Batch::new(alloc, self.log.segments);
        for (index, change) in changes.iter().enumerate() {
            let entry = match self.lay_change(alloc, &changes[..index], change, keep, &mut batch) {
                Ok(entry) => entry,
                Err(error) => return Err(error),
            };
            entries.push(entry)?;
        }
        Ok(LaidChanges {
            entries,
            batch,
            keep,
        })
    }

    /// The entry of a change behind earlier ones. The record of a write is placed.
    fn lay_change(
        &mut self,
        alloc: Global,
        earlier: &[Change],
        change: &Change,
        keep: u32,
        batch: &mut Batch,
    ) -> Result<Entry, LayError>
        requires counts_on { self.old.log.head.count < 18446744073709551615 }
        requires passes { PassesBehind (self.old.log.head.count + 1) self.old.log.overlay earlier.now change.now }
        requires laid_out { LaidOut self.old.keys self.old.log.segments batch.old.segments (placed batch.old.pieces.items) }
        ensures same { self.new ≡ self.old }
        ensures laid { IfOk result (λ entry. IsLaid self.old.keys
            (told_behind (self.old.log.head.count + 1) self.old.log.overlay earlier.now) keep self.old.log.segments
            change.now (placed batch.old.pieces.items) batch.old.segments entry (placed batch.new.pieces.items) batch.new.segments) }
        ensures refused { (refusal : room.NoRoom) → result ≡ Err (lay.NoRoom refusal)
            → fits batch.old.segments (space.record_of_change (store_of self.old)
            (told_behind (self.old.log.head.count + 1) self.old.log.overlay earlier.now) change.now) keep ≡ Err refusal }
    {
        match change {
            Change::Write { part, rank, bytes } => match self.owner_behind(earlier, *part) {
                Some(owner) => self.lay_write(alloc, &owner, *rank, bytes, keep, batch),
                None => unreachable!(),
            },
            Change::Free { part, rank } => Ok(plain_entry(FREE, part.0, rank.0, 0)),
            Change::Make { part, suite } => Ok(plain_entry(MAKE, part.0, 0, suite.number())),
            Change::Copy { from, to } => Ok(plain_entry(COPY, from.0, to.0, 0)),
            Change::Drop { part } => Ok(plain_entry(DROP, part.0, 0, 0)),
        }
    }

    // The owner of chunks of a partition that is there behind earlier changes, and is no copy.
    fn owner_behind(&self, earlier: &[Change], part: PartId) -> Option<Owner>
        requires counts_on { self.now.log.head.count < 18446744073709551615 }
        requires passes { check (bare_state self.now.log.overlay) earlier.now ≡ None }
        ensures { HasOwner part (sealing_in (told_behind (self.now.log.head.count + 1) self.now.log.overlay earlier.now) part.0) result }
    {
        let count = self.log.head.count + 1;
        let mut owner = told_owner(&self.log.overlay, part);
        for change in earlier {
            owner = next_owner(owner, count, change, part);
        }
        owner
    }

    /// The entry of a write to an owner's chunk, whose record is sealed and placed.
    fn lay_write(
        &mut self,
        alloc: Global,
        owner: &Owner,
        rank: Rank,
        chunk: &Bytes,
        keep: u32,
        batch: &mut Batch,
    ) -> Result<Entry, LayError>
        requires number { (1 ≤ owner.now.part.0) × (owner.now.part.0 ≤ 4095) }
        requires key { HasKey owner.now }
        requires rank { rank.0 < 262144 }
        requires short { length chunk.now ≤ 65536 }
        requires laid_out { LaidOut self.old.keys self.old.log.segments batch.old.segments (placed batch.old.pieces.items) }
        ensures same { self.new ≡ self.old }
        ensures laid { IfOk result (λ entry. (state : State) (s : Sealing) → sealing_in state owner.now.part.0 ≡ Some s
            → IsOwner owner.now.part s owner.now
            → IsLaid self.old.keys state keep self.old.log.segments (Write owner.now.part rank chunk.now)
            (placed batch.old.pieces.items) batch.old.segments entry (placed batch.new.pieces.items) batch.new.segments) }
        ensures refused { (refusal : room.NoRoom) → result ≡ Err (lay.NoRoom refusal)
            → place_in batch.old.segments (space.record_length owner.now.suite (length chunk.now)) keep ≡ Err refusal }
    {
        let record = seal_bytes(alloc, &mut self.keys, owner, rank, chunk)?;
        let piece = match batch.lay(record, keep) {
            Ok(piece) => piece,
            Err(error) => return Err(error),
        };
        Ok(write_entry(owner, rank, piece))
    }
}
