//! Commits of changes to a store.
ghost use Rattle.std.specs.Prelude.{◌≡◌, ◌↔◌, ◌≢◌, ◌<◌, ◌≤◌, ◌+◌, ◌*◌, ◌^◌, ℕ, List, Err, IfErr, IfOk, IsTrue, OnErr};
ghost use Rattle.std.specs.Prelude.{OnOk, None, false, length};
ghost use Rattle.std.specs.List.{AllByRecursion};
ghost use Rattle.tdb_append.specs.Placed.{placed};
ghost use Rattle.tdb_base.specs.declared.piece.NoRoom as room;
ghost use Rattle.tdb_list.specs.ChangeList.{IsList};
ghost use Rattle.tdb_list.specs.Entry.{IsEntryValue};
ghost use Rattle.tdb_model.specs.Check.{check};
ghost use Rattle.tdb_model.specs.declared.change.Change as change;
ghost use Rattle.tdb_model.specs.declared.error.CommitError.TheVariants as refusals;
ghost use Rattle.tdb_parts.specs.BareState.{bare_state};
ghost use Rattle.tdb_platform.specs.Outside.{Outside};
ghost use Rattle.tdb_seg.specs.SegmentSpace.{place_in};
ghost use Rattle.tdb_overlay.specs.Covering.{noted_all};
ghost use Rattle.tdb_overlay.specs.Found as found;
ghost use Rattle.tdb_overlay.specs.Growth.{IsSettled};
ghost use Rattle.tdb_overlay.specs.StoreState.{StoreState, commit_on, record_length};
ghost use Rattle.tdb_chunk.specs.Committing.{IsCommitCall, IsRightOf, is_early, is_refusal};
ghost use Rattle.tdb_chunk.specs.Known.{IsAtHead, Knows, store_of};
ghost use Rattle.tdb_overlay.specs.LaidOut.{LaidOut};
ghost use Rattle.tdb_chunk.specs.Preparing.{IsNext, IsPrepared, refused_by};
ghost use Rattle.tdb_overlay.specs.declared.batch.LayError.TheVariants as lay;

use crate::laying::LaidChanges;
use crate::open_log::OpenLog;
use std::alloc::Global;
use tdb_append::{HeadError, may_commit};
use tdb_list::Entry;
use tdb_mark::{COMMIT, Commit};
use tdb_model::{CHANGE_LIMIT, Change, CommitError};
use tdb_overlay::{Batch, LayError, put_commit, seal_list};
use tdb_platform::Platform;

/// How many segments stay free of a commit that needs room.
pub(crate) const KEPT_FREE: u32 = 4;

/// A commit whose records are laid, and not yet written.
#[derive(Drop)]
struct NextCommit {
    commit: Commit,
    batch: Batch,
}

/// The answer to a commit whose record got no place.
pub(crate) fn refused(error: LayError) -> CommitError
    ensures answer { result ≡ refused_by error }
    ensures late { is_early result ≡ false }
{
    match error {
        LayError::Memory => CommitError::Memory,
        LayError::NoRoom(refusal) => CommitError::NoRoom(refusal),
    }
}

impl OpenLog {
    /// Whether a commit of so many changes may follow.
    pub(crate) fn may_follow(&self, number: usize) -> Result<(), CommitError>
        requires few { number < 2 ^ 32 }
        ensures many { (result ≡ Err (refusals.TooManyChanges number)) ↔ (1024 < number) }
        ensures ring_full { (result ≡ Err refusals.RingFull) ↔ ((number ≤ 1024)
            × (self.now.log.head.count ≡ self.now.log.head.base + 1000)) }
        ensures counter_end { (result ≡ Err refusals.CounterEnd)
            ↔ ((number ≤ 1024) × (self.now.log.head.count ≢ self.now.log.head.base + 1000)
            × (self.now.log.head.count ≡ 18446744073709551615)) }
        ensures ok { OnOk result ((number ≤ 1024) × (self.now.log.head.count ≢ self.now.log.head.base + 1000)
            × (self.now.log.head.count < 18446744073709551615)) }
        ensures refusal { IfErr result (λ e. IsTrue (is_refusal e)) }
        ensures right { IfErr result (IsRightOf number self.now.log.head.count) }
        ensures refused { (store : found.Store) (last : StoreState) (changes : List change.Change) → length changes ≡ number
            → last.count ≡ self.now.log.head.count → last.base ≡ self.now.log.head.base
            → check last.chunks changes ≡ None → IfErr result (λ e. commit_on store last changes ≡ Err e) }
    {
        if number > CHANGE_LIMIT {
            return Err(CommitError::TooManyChanges {
                number: number as u32,
            });
        }
        let _count = self.log.head.count;
        match may_commit(&self.log.head) {
            Ok(()) => Ok(()),
            Err(HeadError::RingFull) => Err(CommitError::RingFull),
            Err(HeadError::CounterEnd) => Err(CommitError::CounterEnd),
        }
    }

    /// Whether changes may be committed where there is room for them.
    fn may_commit_all(&self, changes: &[Change]) -> Result<(), CommitError>
        requires few { length changes.now < 2 ^ 32 }
        ensures ok { OnOk result ((check (bare_state self.now.log.overlay) changes.now ≡ None) × (length changes.now ≤ 1024)
            × (self.now.log.head.count ≢ self.now.log.head.base + 1000) × (self.now.log.head.count < 18446744073709551615)) }
        ensures refusal { IfErr result (λ e. IsTrue (is_refusal e)) }
        ensures right { IfErr result (IsRightOf (length changes.now) self.now.log.head.count) }
        ensures many { 1024 < length changes.now → result ≡ Err (refusals.TooManyChanges (length changes.now)) }
        ensures refused { IfErr result (λ e. (o : Outside) (last : StoreState) → Knows o self.now last
            → commit_on (store_of self.now) last changes.now ≡ Err e) }
    {
        if changes.len() > CHANGE_LIMIT {
            return Err(CommitError::TooManyChanges {
                number: changes.len() as u32,
            });
        }
        match tdb_parts::check(&self.log.overlay, changes) {
            Ok(()) => self.may_follow(changes.len()),
            Err(refusal) => Err(refusal),
        }
    }

    /// Makes the changes by one commit, in their order. There is one or more.
    ///
    /// After a refusal the log is as it was. After `Err(Memory)` the platform is as it was, and after `Err(Fault)` the
    /// commit stands or not; then the log is of no more use.
    pub fn commit<P: Platform>(
        &mut self,
        alloc: Global,
        platform: &mut P,
        changes: &[Change],
    ) -> Result<(), CommitError>
        requires at_head { IsAtHead (P.outside platform.old) self.old }
        requires settled { IsSettled P.outside P.crash_states platform.old }
        requires some { 1 ≤ length changes.now }
        requires few { length changes.now < 2 ^ 32 }
        ensures commit { IsCommitCall P.outside P.crash_states changes.now self.old self.new platform.old platform.new result }
        // whatever is known of the log
        ensures right { IfErr result (IsRightOf (length changes.now) self.old.log.head.count) }
        ensures many { 1024 < length changes.now → result ≡ Err (refusals.TooManyChanges (length changes.now)) }
    {
        match self.may_commit_all(changes) {
            Ok(()) => match self.lay_changes(alloc, changes) {
                Ok(
                    LaidChanges {
                        entries,
                        batch,
                        keep,
                    },
                ) => self.commit_entries(alloc, platform, &entries, batch, keep),
                Err(error) => Err(refused(error)),
            },
            Err(refusal) => Err(refusal),
        }
    }

    /// Lays the list of the entries behind the records of a batch, while `keep` segments stay free.
    fn lay_list(
        &self,
        alloc: Global,
        entries: &[Entry],
        mut batch: Batch,
        keep: u32,
    ) -> Result<NextCommit, LayError>
        requires list { IsList entries.now }
        requires values { AllByRecursion IsEntryValue entries.now }
        requires counts_on { self.now.log.head.count < 18446744073709551615 }
        requires laid_out { LaidOut self.now.keys self.now.log.segments batch.segments (placed batch.pieces.items) }
        ensures next { IfOk result (λ next. IsNext self.now keep entries.now (placed batch.pieces.items) batch.segments next.commit
            (placed next.batch.pieces.items) next.batch.segments) }
        ensures refused { (refusal : room.NoRoom) → result ≡ Err (lay.NoRoom refusal)
            → place_in batch.segments (record_length self.now.log.suite (16 + 72 * length entries.now)) keep ≡ Err refusal }
    {
        let list = seal_list(alloc, &self.keys, self.log.suite, entries)?;
        let first = batch.lay(list, keep)?;
        let commit = Commit {
            kind: COMMIT,
            suite: self.log.suite,
            count: self.log.head.count + 1,
            prev: self.log.head.mark,
            base: self.log.head.base,
            segments: self.log.segments.segments(),
            first,
            root: None,
        };
        Ok(NextCommit { commit, batch })
    }

    /// Commits the changes that the entries say, whose records are in the batch, while `keep` segments stay free.
    pub(crate) fn commit_entries<P: Platform>(
        &mut self,
        alloc: Global,
        platform: &mut P,
        entries: &[Entry],
        batch: Batch,
        keep: u32,
    ) -> Result<(), CommitError>
        requires at_head { IsAtHead (P.outside platform.old) self.old }
        requires settled { IsSettled P.outside P.crash_states platform.old }
        requires list { IsList entries.now }
        requires values { AllByRecursion IsEntryValue entries.now }
        requires not_full { self.old.log.head.count ≢ self.old.log.head.base + 1000 }
        requires counts_on { self.old.log.head.count < 18446744073709551615 }
        requires laid_out { LaidOut self.old.keys self.old.log.segments batch.segments (placed batch.pieces.items) }
        ensures commit { (changes : List change.Change)
            → IsPrepared (P.outside platform.old) self.old keep entries.now (placed batch.pieces.items) batch.segments changes
            → IsCommitCall P.outside P.crash_states changes self.old self.new platform.old platform.new result }
        ensures late { IfErr result (λ e. is_early e ≡ false) }
        ensures noted { OnOk result (self.new.log.overlay ≡ noted_all (self.old.log.head.count + 1) self.old.log.overlay entries.now) }
    {
        let NextCommit { commit, batch } = match self.lay_list(alloc, entries, batch, keep) {
            Ok(next) => next,
            Err(error) => return Err(refused(error)),
        };
        let Ok(reserved) = self.log.overlay.reserve(alloc, commit.count, entries) else {
            return Err(CommitError::Memory);
        };
        let Ok(head) = put_commit(platform, &self.keys, &self.log.head, &commit, &batch.pieces)
        else {
            return Err(CommitError::Fault);
        };
        self.log.overlay.take_in(reserved);
        self.log.head = head;
        self.log.segments = batch.segments;
        Ok(())
    }
}
