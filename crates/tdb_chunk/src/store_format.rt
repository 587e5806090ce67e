//! A new store on a platform that is owned.
ghost use Rattle.std.specs.Prelude.{◌≡◌, ◌≢◌, ◌⊎◌, ◌<◌, ◌≤◌, ℕ, [], Err, IfErr, IfOk, IsTrue, OnOk};
ghost use Rattle.tdb_base.specs.Rose.{Rose};
ghost use Rattle.tdb_overlay.specs.Growth.{IsSettled};
ghost use Rattle.tdb_overlay.specs.Log.{IsLog};
ghost use Rattle.tdb_overlay.specs.Reading.{OnlyReads};
ghost use Rattle.tdb_overlay.specs.SealedOnly.{OnlySealed};
ghost use Rattle.tdb_overlay.specs.Sound.{IsSound};
ghost use Rattle.tdb_overlay.specs.StoreState.{formatted_state};
ghost use Rattle.tdb_platform.specs.CrashStates.{LeavesOnly};
ghost use Rattle.tdb_overlay.specs.Found.{store_under};
ghost use Rattle.tdb_chunk.specs.Formatting.{WritesFirstText};
ghost use Rattle.tdb_recover.specs.Settled.{RanSettled};
ghost use Rattle.tdb_chunk.specs.declared.store_format.FormatError.TheVariants as errors;

use crate::format::StoreError;
use crate::open_log::OpenLog;
use crate::store::Store;
use std::alloc::Global;
use tdb_base::Suite;
use tdb_overlay::Keys;
use tdb_platform::Platform;
use thiserror::Error;

/// Why no new store was made.
#[derive(Clone, Copy, Debug, PartialEq, Eq, Error)]
pub enum FormatError {
    /// A store has 16 to 4,096 segments. Nothing was asked of the platform.
    #[error("a store has 16 to 4,096 segments")]
    Segments,
    /// The anchor has this count, and not 0. Nothing was written.
    #[error("the anchor's count is {count}")]
    AlreadyFormatted { count: u64 },
    /// The platform failed. The start of the log may stand or not.
    #[error("the platform failed")]
    Fault,
    /// Memory ran out. Nothing was written.
    #[error("memory ran out")]
    Memory,
}

/// Lays the start of a log where the anchor, which is asked once, has the count 0.
fn lay_log<P: Platform>(
    alloc: Global,
    platform: &mut P,
    secret: &[u8; 32],
    suite: Suite,
    segments: u32,
) -> Result<(), FormatError>
    requires least { 16 ≤ segments }
    requires most { segments ≤ 4096 }
    ensures segments { IfErr result (λ e. e ≢ errors.Segments) }
    ensures already { (count : ℕ) → result ≡ Err (errors.AlreadyFormatted count)
        → (count ≢ 0) × (IsTrue (P.outside platform.old).tells → (P.outside platform.old).anchor.0 ≡ count) }
    ensures already_always { IsTrue (P.outside platform.old).tells → (P.outside platform.old).anchor.0 ≢ 0
        → (result ≡ Err (errors.AlreadyFormatted (P.outside platform.old).anchor.0)) ⊎ (result ≡ Err errors.Fault) }
    // a store that is there is only read
    ensures over_a_store { IsTrue (P.outside platform.old).tells → (P.outside platform.old).anchor.0 ≢ 0
        → OnlyReads P.outside P.crash_states platform.old platform.new }
    ensures only_read { IfErr result (λ e. e ≢ errors.Fault
        → OnlyReads P.outside P.crash_states platform.old platform.new × IsSettled P.outside P.crash_states platform.new) }
    ensures ran { OnOk result (RanSettled P.outside P.crash_states (store_under secret.now suite) platform.old [] [] platform.new) }
    ensures ran_err { IfErr result (λ e. RanSettled P.outside P.crash_states (store_under secret.now suite) platform.old [] [] platform.new
        ⊎ OnlyReads P.outside P.crash_states platform.old platform.new) }
    ensures formatted { OnOk result (IsSound secret.now (P.outside platform.new) → IsLog (P.outside platform.new).trace.written
        (store_under secret.now suite) (P.outside platform.new).anchor [] (formatted_state (store_under secret.now suite) segments)) }
    ensures count { OnOk result (IsTrue (P.outside platform.old).tells → (P.outside platform.new).anchor.0 ≡ 1) }
    ensures was_unformatted { OnOk result (IsTrue (P.outside platform.old).tells → (P.outside platform.old).anchor.0 ≡ 0) }
    ensures settled { OnOk result (IsSettled P.outside P.crash_states platform.new) }
    ensures unread { IsTrue (P.outside platform.old).tells → (P.outside platform.new).trace.read ≡ (P.outside platform.old).trace.read }
    ensures sealed { OnlySealed secret.now (P.outside platform.old) (P.outside platform.new) }
    ensures texts { WritesFirstText secret.now (P.outside platform.old) (P.outside platform.new) }
    ensures quiet { result ≢ Err errors.Fault → (P.outside platform.new).faults ≡ (P.outside platform.old).faults }
    ensures fault { result ≡ Err errors.Fault → Rose (P.outside platform.old).faults (P.outside platform.new).faults }
    ensures tells { (P.outside platform.new).tells ≡ (P.outside platform.old).tells }
    ensures honest { (P.outside platform.new).honest ≡ (P.outside platform.old).honest }
    ensures moments { LeavesOnly P.outside P.crash_states platform.old platform.new (λ i a. Unit {0}) }
{
    let Ok(anchor) = platform.anchor() else {
        return Err(FormatError::Fault);
    };
    let (count, _) = anchor;
    if count != 0 {
        return Err(FormatError::AlreadyFormatted { count });
    }
    match OpenLog::format(alloc, platform, Keys::new(alloc, secret), suite, segments) {
        Ok(_) => Ok(()),
        Err(StoreError::Memory) => Err(FormatError::Memory),
        Err(StoreError::Fault) => Err(FormatError::Fault),
    }
}

impl<P: Platform> Store<P> {
    /// Makes a new store of 16 to 4,096 segments, in this suite, on a platform whose anchor has the count 0. The anchor
    /// is asked once, and nothing is read. Either way the platform is given back.
    ///
    /// Fails with `Segments` for any other number of segments, with `AlreadyFormatted` where the anchor has a log, with
    /// `Fault` where the platform failed, and with `Memory`.
    pub fn format(
        alloc: Global,
        platform: P,
        secret: &[u8; 32],
        suite: Suite,
        segments: u32,
    ) -> Result<P, (P, FormatError)>
        // the number of segments is refused where it is outside the limits, and before anything is asked
        ensures segments { IfErr result (λ e. e.1 ≡ errors.Segments → (segments < 16) ⊎ (4096 < segments)) }
        ensures segments_always { (segments < 16) ⊎ (4096 < segments) → result ≡ Err (platform, errors.Segments) }
        // no store is made over another
        ensures already { IfErr result (λ e. (count : ℕ) → e.1 ≡ errors.AlreadyFormatted count
            → (count ≢ 0) × (IsTrue (P.outside platform).tells → (P.outside platform).anchor.0 ≡ count)) }
        ensures already_always { 16 ≤ segments → segments ≤ 4096 → IsTrue (P.outside platform).tells → (P.outside platform).anchor.0 ≢ 0
            → IfErr result (λ e. (e.1 ≡ errors.AlreadyFormatted (P.outside platform).anchor.0) ⊎ (e.1 ≡ errors.Fault)) }
        ensures was_unformatted { IfOk result (λ p. IsTrue (P.outside platform).tells → (P.outside platform).anchor.0 ≡ 0) }
        // a store that is there is only read
        ensures over_a_store { IfErr result (λ e. IsTrue (P.outside platform).tells → (P.outside platform).anchor.0 ≢ 0
            → e.1 ≢ errors.Segments → OnlyReads P.outside P.crash_states platform e.0) }
        // only after a fault there may be more than the anchor asked
        ensures only_read { IfErr result (λ e. e.1 ≢ errors.Fault → e.1 ≢ errors.Segments
            → OnlyReads P.outside P.crash_states platform e.0 × IsSettled P.outside P.crash_states e.0) }
        // once the anchor was told, it is a run that makes no commit
        ensures ran { IfOk result (λ p. RanSettled P.outside P.crash_states (store_under secret.now suite) platform [] [] p) }
        ensures ran_err { IfErr result (λ e. RanSettled P.outside P.crash_states (store_under secret.now suite) platform [] [] e.0
            ⊎ OnlyReads P.outside P.crash_states platform e.0) }
        // the new log has its first text, and no commit
        ensures formatted { IfOk result (λ p. IsSound secret.now (P.outside p) → IsLog (P.outside p).trace.written
            (store_under secret.now suite) (P.outside p).anchor [] (formatted_state (store_under secret.now suite) segments)) }
        ensures count { IfOk result (λ p. IsTrue (P.outside platform).tells → (P.outside p).anchor.0 ≡ 1) }
        ensures settled { IfOk result (IsSettled P.outside P.crash_states) }
        // nothing is read from the device, and only sealed records and texts go to it
        ensures unread { IfOk result (λ p. IsTrue (P.outside platform).tells → (P.outside p).trace.read ≡ (P.outside platform).trace.read) }
        ensures unread_err { IfErr result (λ e. IsTrue (P.outside platform).tells
            → (P.outside e.0).trace.read ≡ (P.outside platform).trace.read) }
        ensures sealed { IfOk result (λ p. OnlySealed secret.now (P.outside platform) (P.outside p)) }
        ensures texts { IfOk result (λ p. WritesFirstText secret.now (P.outside platform) (P.outside p)) }
        ensures texts_err { IfErr result (λ e. WritesFirstText secret.now (P.outside platform) (P.outside e.0)) }
        ensures sealed_err { IfErr result (λ e. OnlySealed secret.now (P.outside platform) (P.outside e.0)) }
        // no fault is hidden, and none is made up
        ensures quiet { IfOk result (λ p. (P.outside p).faults ≡ (P.outside platform).faults) }
        ensures quiet_err { IfErr result (λ e. e.1 ≢ errors.Fault → (P.outside e.0).faults ≡ (P.outside platform).faults) }
        ensures fault { IfErr result (λ e. e.1 ≡ errors.Fault → Rose (P.outside platform).faults (P.outside e.0).faults) }
        ensures tells { IfOk result (λ p. (P.outside p).tells ≡ (P.outside platform).tells) }
        ensures tells_err { IfErr result (λ e. (P.outside e.0).tells ≡ (P.outside platform).tells) }
        ensures honest { IfOk result (λ p. (P.outside p).honest ≡ (P.outside platform).honest) }
        ensures honest_err { IfErr result (λ e. (P.outside e.0).honest ≡ (P.outside platform).honest) }
        ensures moments { IfOk result (λ p. LeavesOnly P.outside P.crash_states platform p (λ i a. Unit {0})) }
        ensures moments_err { IfErr result (λ e. LeavesOnly P.outside P.crash_states platform e.0 (λ i a. Unit {0})) }
    {
        if !(16..=4096).contains(&segments) {
            return Err((platform, FormatError::Segments));
        }
        let mut platform = platform;
        match lay_log(alloc, &mut platform, secret, suite, segments) {
            Ok(()) => Ok(platform),
            Err(error) => Err((platform, error)),
        }
    }
}
