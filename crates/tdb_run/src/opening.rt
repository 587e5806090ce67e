//! Opening the store of a run: the one that is there, or a new one.
ghost use Rattle.std.specs.Prelude.{◌≡◌, ◌≢◌, ◌⊎◌, ◌≤◌, None, IfErr, IfOk, IsTrue, false};
ghost use Rattle.tdb_base.specs.declared.piece.Damage.{Damage};
ghost use Rattle.tdb_chunk.specs.declared.store_format.FormatError.TheVariants as formats;
ghost use Rattle.tdb_chunk.specs.Standing.{IsReady};
ghost use Rattle.tdb_chunk.specs.StoreView.{store_in};
ghost use Rattle.tdb_overlay.specs.Growth.{IsSettled};
ghost use Rattle.tdb_overlay.specs.Reading.{OnlyReads};
ghost use Rattle.tdb_recover.specs.Unwritten.{WritesNothing};
ghost use Rattle.tdb_run.specs.Calls.{Calls, StopFaults};
ghost use Rattle.tdb_platform.specs.Outside.{Outside};
ghost use Rattle.tdb_run.specs.Ends as ends;
ghost use Rattle.tdb_run.specs.Opened.{HasBegun, HasNotBegun, HasNotOpened, HasOpened, InItsState, IsWhyNot, OverLogs, WhereItStands};
ghost use Rattle.tdb_run.specs.Opens.{HasBoth, HasNone, HasUserPartitions, IsToldMade};
ghost use Rattle.tdb_run.specs.Spared.{IsSpared};
ghost use Rattle.tdb_run.specs.declared.opening.NotOpened.TheVariants as stops;
ghost use Rattle.tdb_run.specs.declared.opening.UserPartitions.TheVariants as found;
ghost use Rattle.tdb_run.specs.declared.status.Finding.TheVariants as findings;

use crate::status::{Finding, Refusal, Status};
use std::alloc::Global;
use tdb_append::slot_of;
use tdb_base::{PartId, Place, Suite};
use tdb_chunk::{FormatError, Store};
use tdb_model::{Change, Chunks, CommitError, PartInfo};
use tdb_platform::Platform;
use tdb_recover::OpenError;

/// Why a store wasn't opened.
#[derive(Clone, Copy, Debug, PartialEq, Eq)]
pub(crate) enum NotOpened {
    /// A new store is asked for, and the anchor's count isn't 0.
    AlreadyFormatted,
    /// The anchor's count is 0.
    Unformatted,
    /// The device was damaged, or partitions 1 and 2 are otherwise than a run makes them.
    Damaged(Finding),
    /// The commit that makes partitions 1 and 2 was refused.
    Refused(Refusal),
    /// A call of the platform failed.
    PlatformFault,
    /// No memory was left.
    Memory,
}

impl NotOpened {
    /// How a run ends that didn't open its store for this.
    pub fn status(self) -> Status
        ensures { result ≡ ends.status_of_stop self }
    {
        match self {
            NotOpened::AlreadyFormatted => Status::AnchorCount { formatted: true },
            NotOpened::Unformatted => Status::AnchorCount { formatted: false },
            NotOpened::Damaged(finding) => Status::Damaged(finding),
            NotOpened::Refused(refusal) => Status::Refused(refusal),
            NotOpened::PlatformFault => Status::PlatformFault,
            NotOpened::Memory => Status::Memory,
        }
    }
}

/// Opens the store that is there, with the commit that had been begun behind its log where that is shown whole, and makes partitions 1
/// and 2 where neither is. Else it gives the platform back.
pub(crate) fn open_store<P: Platform>(
    alloc: Global,
    platform: P,
    secret: &[u8; 32],
) -> Result<Store<P>, (P, NotOpened)>
    ensures opened { IfOk result (λ s. OverLogs (P.outside platform) (P.outside s.platform) secret.now
        (λ store history from. HasBegun P.outside P.crash_states store platform history from s)) }
    ensures running { IfOk result (λ s. s.stopped ≡ false) }
    ensures secret { IfOk result (λ s. s.secret ≡ secret.now) }
    ensures calls { IfOk result (λ s. Calls P.outside P.crash_states secret.now platform s.platform) }
    ensures quiet { IfOk result (λ s. (P.outside s.platform).faults ≡ (P.outside platform).faults) }
    ensures not_opened { IfErr result (λ e. OverLogs (P.outside platform) (P.outside e.0) secret.now
        (λ store history from. HasNotBegun P.outside P.crash_states store platform e.0 history from e.1)) }
    ensures calls_err { IfErr result (λ e. Calls P.outside P.crash_states secret.now platform e.0) }
    ensures faults { IfErr result (λ e. StopFaults (P.outside platform) (P.outside e.0) e.1) }
    // nothing is written to a store that isn't opened, but for a fault
    ensures unwritten { IfErr result (λ e. e.1 ≢ stops.PlatformFault
        → WritesNothing P.outside P.crash_states platform e.0 × IsSettled P.outside P.crash_states e.0) }
    ensures unformatted { IfErr result (λ e. e.1 ≡ stops.Unformatted
        → (IsTrue (P.outside platform).tells → (P.outside platform).anchor.0 ≡ 0)
        × OnlyReads P.outside P.crash_states platform e.0 × IsSettled P.outside P.crash_states e.0) }
    ensures unformatted_ok { IfOk result (λ s. IsTrue (P.outside platform).tells → (P.outside platform).anchor.0 ≢ 0) }
    ensures unformatted_always { IfErr result (λ e. IsTrue (P.outside platform).tells → (P.outside platform).anchor.0 ≡ 0
        → (e.1 ≡ stops.Unformatted) ⊎ (e.1 ≡ stops.PlatformFault)) }
    ensures never { IfErr result (λ e. e.1 ≢ stops.AlreadyFormatted) }
    // over a reliable platform it isn't found damaged
    ensures reliable { IfErr result (λ e. OverLogs (P.outside platform) (P.outside e.0) secret.now
        (λ store history from. IsSpared P.outside P.crash_states secret.now platform e.1)) }
{
    match Store::attach(alloc, platform, secret) {
        Ok(store) => with_partitions(alloc, store),
        Err((platform, error)) => Err((platform, stop_of_open(error))),
    }
}

/// Makes a new store of 16 to 4,096 segments and opens it, with partitions 1 and 2. Else it gives the platform back.
pub(crate) fn new_store<P: Platform>(
    alloc: Global,
    platform: P,
    secret: &[u8; 32],
    suite: Suite,
    segments: u32,
) -> Result<Store<P>, (P, NotOpened)>
    requires least { 16 ≤ segments }
    requires most { segments ≤ 4096 }
    ensures opened { IfOk result (λ s. OverLogs (P.outside platform) (P.outside s.platform) secret.now
        (λ store history from. ((P.outside platform).anchor.0 ≡ 0 → store.suite ≡ suite)
        → HasBegun P.outside P.crash_states store platform history from s)) }
    ensures running { IfOk result (λ s. s.stopped ≡ false) }
    ensures secret { IfOk result (λ s. s.secret ≡ secret.now) }
    ensures calls { IfOk result (λ s. Calls P.outside P.crash_states secret.now platform s.platform) }
    ensures quiet { IfOk result (λ s. (P.outside s.platform).faults ≡ (P.outside platform).faults) }
    ensures not_opened { IfErr result (λ e. OverLogs (P.outside platform) (P.outside e.0) secret.now
        (λ store history from. ((P.outside platform).anchor.0 ≡ 0 → store.suite ≡ suite)
        → HasNotBegun P.outside P.crash_states store platform e.0 history from e.1)) }
    ensures calls_err { IfErr result (λ e. Calls P.outside P.crash_states secret.now platform e.0) }
    ensures faults { IfErr result (λ e. StopFaults (P.outside platform) (P.outside e.0) e.1) }
    ensures already { IfErr result (λ e. e.1 ≡ stops.AlreadyFormatted
        → (IsTrue (P.outside platform).tells → (P.outside platform).anchor.0 ≢ 0)
        × OnlyReads P.outside P.crash_states platform e.0 × IsSettled P.outside P.crash_states e.0) }
    ensures already_ok { IfOk result (λ s. IsTrue (P.outside platform).tells → (P.outside platform).anchor.0 ≡ 0) }
    ensures already_always { IfErr result (λ e. IsTrue (P.outside platform).tells → (P.outside platform).anchor.0 ≢ 0
        → (e.1 ≡ stops.AlreadyFormatted) ⊎ (e.1 ≡ stops.PlatformFault)) }
    ensures never { IfErr result (λ e. e.1 ≢ stops.Unformatted) }
    ensures reliable { IfErr result (λ e. OverLogs (P.outside platform) (P.outside e.0) secret.now
        (λ store history from. ((P.outside platform).anchor.0 ≡ 0 → store.suite ≡ suite)
        → IsSpared P.outside P.crash_states secret.now platform e.1)) }
{
    match Store::format(alloc, platform, secret, suite, segments) {
        Ok(platform) => match open_store(alloc, platform, secret) {
            Ok(store) => Ok(store),
            Err((platform, why)) => Err((platform, after_format(why))),
        },
        Err((platform, error)) => Err((platform, stop_of_format(error))),
    }
}

// Why a store isn't opened that was just made. An anchor that counts nothing then isn't one of a store.
fn after_format(why: NotOpened) -> NotOpened
    ensures { result ≡ ends.after_format why }
{
    match why {
        NotOpened::Unformatted => NotOpened::Damaged(Finding::Form(slot_of(1))),
        _ => why,
    }
}

// Why no new store was made. The number of segments is one that a store may have.
fn stop_of_format(error: FormatError) -> NotOpened
    requires { error ≢ formats.Segments }
    ensures { result ≡ ends.stop_of_format error }
{
    match error {
        FormatError::Segments => unreachable!(),
        FormatError::AlreadyFormatted { .. } => NotOpened::AlreadyFormatted,
        FormatError::Fault => NotOpened::PlatformFault,
        FormatError::Memory => NotOpened::Memory,
    }
}

// Why the log wasn't opened.
fn stop_of_open(error: OpenError) -> NotOpened
    ensures { result ≡ ends.stop_of_open error }
{
    match error {
        OpenError::Unformatted => NotOpened::Unformatted,
        OpenError::Tampered(damage) => NotOpened::Damaged(Finding::Tampered(damage)),
        OpenError::Form { place } => NotOpened::Damaged(Finding::Form(place)),
        OpenError::Fault => NotOpened::PlatformFault,
        OpenError::Memory => NotOpened::Memory,
    }
}

/// How partitions 1 and 2 of a store stand.
#[derive(Clone, Copy, Debug, PartialEq, Eq)]
enum UserPartitions {
    /// Both were made.
    Made,
    /// Neither is there.
    Missing,
    /// Otherwise than a run leaves them.
    Other,
}

// What is told of partitions 1 and 2.
fn told_partitions(first: Option<PartInfo>, second: Option<PartInfo>) -> UserPartitions
    ensures made { result ≡ found.Made → IsToldMade first × IsToldMade second }
    ensures missing { result ≡ found.Missing → (first ≡ None) × (second ≡ None) }
    ensures other_made { result ≡ found.Other → IsToldMade first → IsToldMade second → ⊥ }
    ensures other_missing { result ≡ found.Other → first ≡ None → second ≡ None → ⊥ }
{
    match (first, second) {
        (Some(first), Some(second)) => both_told(&first, &second),
        (None, None) => UserPartitions::Missing,
        _ => UserPartitions::Other,
    }
}

// The same where both are there.
fn both_told(first: &PartInfo, second: &PartInfo) -> UserPartitions
    ensures made { result ≡ found.Made → (first.now.parent.0 ≡ 0) × (second.now.parent.0 ≡ 0) }
    ensures missing { result ≢ found.Missing }
    ensures other { result ≡ found.Other → first.now.parent.0 ≡ 0 → second.now.parent.0 ≡ 0 → ⊥ }
{
    if first.parent.0 == 0 && second.parent.0 == 0 {
        UserPartitions::Made
    } else {
        UserPartitions::Other
    }
}

// How partitions 1 and 2 stand in the state that the store is in.
fn user_partitions<P: Platform>(store: &Store<P>) -> UserPartitions
    ensures made { result ≡ found.Made → InItsState P.outside store.now HasBoth }
    ensures missing { result ≡ found.Missing → InItsState P.outside store.now HasNone }
    ensures other { result ≡ found.Other → InItsState P.outside store.now (λ state. HasUserPartitions state → ⊥) }
{
    told_partitions(store.info(PartId(1)), store.info(PartId(2)))
}

// The store, where both partitions were made; after they were made, where neither is there.
fn with_partitions<P: Platform>(alloc: Global, store: Store<P>) -> Result<Store<P>, (P, NotOpened)>
    requires ready { IsReady P.outside P.crash_states store }
    requires running { store.stopped ≡ false }
    ensures opened { IfOk result (λ s. WhereItStands P.outside store s.platform
        (λ history from. HasOpened P.outside P.crash_states (store_in store) store.platform history from s)) }
    ensures running { IfOk result (λ s. s.stopped ≡ false) }
    ensures secret { IfOk result (λ s. s.secret ≡ store.secret) }
    ensures calls { IfOk result (λ s. Calls P.outside P.crash_states store.secret store.platform s.platform) }
    ensures quiet { IfOk result (λ s. (P.outside s.platform).faults ≡ (P.outside store.platform).faults) }
    ensures not_opened { IfErr result (λ e. WhereItStands P.outside store e.0
        (λ history from. HasNotOpened P.outside P.crash_states (store_in store) store.platform e.0 from)) }
    // nothing is read that could be damaged
    ensures why { IfErr result (λ e. WhereItStands P.outside store e.0
        (λ history from. (earlier : Outside) → IsWhyNot (store_in store) earlier (P.outside e.0) from e.1)) }
    ensures calls_err { IfErr result (λ e. Calls P.outside P.crash_states store.secret store.platform e.0) }
    ensures faults { IfErr result (λ e. StopFaults (P.outside store.platform) (P.outside e.0) e.1) }
    ensures only_read { IfErr result (λ e. e.1 ≢ stops.PlatformFault
        → OnlyReads P.outside P.crash_states store.platform e.0 × IsSettled P.outside P.crash_states e.0) }
    ensures formatted { IfErr result (λ e. (e.1 ≢ stops.AlreadyFormatted) × (e.1 ≢ stops.Unformatted)) }
    ensures untampered { IfErr result (λ e. (damage : Damage) → e.1 ≢ stops.Damaged (findings.Tampered damage)) }
{
    match user_partitions(&store) {
        UserPartitions::Made => Ok(store),
        UserPartitions::Missing => make_partitions(alloc, store),
        UserPartitions::Other => {
            let place = slot_of(store.count());
            Err((store.close(), NotOpened::Damaged(Finding::Form(place))))
        }
    }
}

// The store after its partitions were made.
fn make_partitions<P: Platform>(alloc: Global, store: Store<P>) -> Result<Store<P>, (P, NotOpened)>
    requires ready { IsReady P.outside P.crash_states store }
    requires running { store.stopped ≡ false }
    requires missing { InItsState P.outside store HasNone }
    ensures opened { IfOk result (λ s. WhereItStands P.outside store s.platform
        (λ history from. HasOpened P.outside P.crash_states (store_in store) store.platform history from s)) }
    ensures running { IfOk result (λ s. s.stopped ≡ false) }
    ensures secret { IfOk result (λ s. s.secret ≡ store.secret) }
    ensures calls { IfOk result (λ s. Calls P.outside P.crash_states store.secret store.platform s.platform) }
    ensures quiet { IfOk result (λ s. (P.outside s.platform).faults ≡ (P.outside store.platform).faults) }
    ensures not_opened { IfErr result (λ e. WhereItStands P.outside store e.0
        (λ history from. HasNotOpened P.outside P.crash_states (store_in store) store.platform e.0 from)) }
    ensures why { IfErr result (λ e. WhereItStands P.outside store e.0
        (λ history from. (earlier : Outside) → IsWhyNot (store_in store) earlier (P.outside e.0) from e.1)) }
    ensures calls_err { IfErr result (λ e. Calls P.outside P.crash_states store.secret store.platform e.0) }
    ensures faults { IfErr result (λ e. StopFaults (P.outside store.platform) (P.outside e.0) e.1) }
    ensures only_read { IfErr result (λ e. e.1 ≢ stops.PlatformFault
        → OnlyReads P.outside P.crash_states store.platform e.0 × IsSettled P.outside P.crash_states e.0) }
    ensures formatted { IfErr result (λ e. (e.1 ≢ stops.AlreadyFormatted) × (e.1 ≢ stops.Unformatted)) }
    ensures untampered { IfErr result (λ e. (damage : Damage) → e.1 ≢ stops.Damaged (findings.Tampered damage)) }
{
    let mut store = store;
    let suite = store.suite();
    let changes = [
        Change::Make {
            part: PartId(1),
            suite,
        },
        Change::Make {
            part: PartId(2),
            suite,
        },
    ];
    match store.commit(alloc, &changes) {
        Ok(()) => Ok(store),
        Err(error) => {
            let place = slot_of(store.count());
            Err((store.close(), stop_of_commit(error, place)))
        }
    }
}

// Why the partitions weren't made. A store that says it has one of them, or is stopped, isn't one that a run made.
fn stop_of_commit(error: CommitError, last_text: Place) -> NotOpened
    ensures { result ≡ ends.stop_of_commit error last_text }
{
    match error {
        CommitError::RingFull => NotOpened::Refused(Refusal::Ring),
        CommitError::CounterEnd => NotOpened::Refused(Refusal::Counter),
        CommitError::NoRoom(room) => NotOpened::Refused(Refusal::Full(room)),
        CommitError::Memory => NotOpened::Memory,
        CommitError::Fault => NotOpened::PlatformFault,
        CommitError::Stopped
        | CommitError::TooManyChanges { .. }
        | CommitError::PartitionNumber
        | CommitError::NoPartition { .. }
        | CommitError::PartitionExists { .. }
        | CommitError::PartitionTwice { .. }
        | CommitError::Frozen { .. }
        | CommitError::RankTooLarge
        | CommitError::ChunkTooLong => NotOpened::Damaged(Finding::Form(last_text)),
    }
}
