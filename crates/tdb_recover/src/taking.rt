//! Taking the commit that was begun behind a log and shown whole.
ghost use Rattle.std.specs.Prelude.{◌≡◌, ◌≢◌, ◌⊎◌, ◌+◌, ◌<◌, ℕ, List, Err, IfErr, IfOk, IsTrue};
ghost use Rattle.std.specs.List.{AllByRecursion};
ghost use Rattle.tdb_list.specs.ChangeList.{IsList};
ghost use Rattle.tdb_model.specs.Apply.{History};
ghost use Rattle.tdb_overlay.specs.Changes.{named_records};
ghost use Rattle.tdb_overlay.specs.Found.{Store};
ghost use Rattle.tdb_overlay.specs.Growth.{IsSettled};
ghost use Rattle.tdb_overlay.specs.Placement.{LiesBelow};
ghost use Rattle.tdb_overlay.specs.Recovered.{HasCounts};
ghost use Rattle.tdb_overlay.specs.StoreState.{StoreState};
ghost use Rattle.tdb_platform.specs.Outside.{Rose};
ghost use Rattle.tdb_recover.specs.Taking.{HasTaken, IsShownWhole};
ghost use Rattle.tdb_recover.specs.Unwritten.{WritesNothing};
ghost use Rattle.tdb_recover.specs.declared.error.OpenError.TheVariants.{Fault, Memory};

use crate::ahead::Pending;
use crate::error::OpenError;
use crate::replay::note_records;
use std::alloc::Global;
use tdb_append::Head;
use tdb_overlay::Recovered;
use tdb_platform::Platform;

/// Takes a commit behind a log: the anchor is advanced to it, and the log has it for its last.
///
/// Fails with `Memory` before the anchor is touched, and with `Fault` where the advance failed; a
/// stop then leaves the anchor old or new.
pub fn take<P: Platform>(
    alloc: Global,
    platform: &mut P,
    log: Recovered,
    pending: Pending,
) -> Result<Recovered, OpenError>
    requires head { IsTrue (P.outside platform.old).tells → (P.outside platform.old).anchor.0 ≡ log.head.count }
    requires next { pending.commit.count ≡ log.head.count + 1 }
    requires counts { HasCounts log }
    requires few { log.head.count < log.head.base + 1000 }
    requires list { IsList pending.entries.items }
    requires lies { LiesBelow log.segments.segments pending.commit.first }
    requires records { AllByRecursion (LiesBelow log.segments.segments) (named_records pending.entries.items) }
    // nothing is written or read
    ensures unwritten { WritesNothing P.outside P.crash_states platform.old platform.new }
    ensures unread { IsTrue (P.outside platform.old).tells → (P.outside platform.new).trace ≡ (P.outside platform.old).trace }
    ensures errors { IfErr result (λ error. (error ≡ Fault) ⊎ (error ≡ Memory)) }
    ensures memory { result ≡ Err Memory → platform.new ≡ platform.old }
    ensures either { IsTrue (P.outside platform.old).tells
        → IfErr result (λ _. ((P.outside platform.new).anchor ≡ (P.outside platform.old).anchor)
        ⊎ ((P.outside platform.new).anchor ≡ (pending.commit.count, pending.mark.0))) }
    // the anchor names the commit, and a stop leaves that
    ensures settled { IfOk result (λ _. IsSettled P.outside P.crash_states platform.new) }
    ensures at_head { IsTrue (P.outside platform.old).tells
        → IfOk result (λ r. (P.outside platform.new).anchor ≡ (r.head.count, r.head.mark.0)) }
    ensures head { IfOk result (λ r. r.head ≡ record { count = pending.commit.count; mark = pending.mark; base = log.head.base }) }
    ensures kept { IfOk result (λ r. (r.suite ≡ log.suite) × (r.segments.segments ≡ log.segments.segments)) }
    ensures counts { IfOk result HasCounts }
    // where the commit was shown whole behind a log, it is a step of that log, and what is open is the state after it
    ensures taken { (begun : P) (secret : List ℕ) (store : Store) (history : History) (from : StoreState)
        → IsShownWhole P.outside P.crash_states begun platform.old (P.outside platform.new) secret log pending store history from
        → HasTaken P.outside P.crash_states begun platform.old platform.new store history from (pending.commit.count, pending.mark.0)
        result }
    ensures fault { result ≡ Err Fault → Rose (P.outside platform.old).faults (P.outside platform.new).faults }
    ensures quiet { result ≢ Err Fault → (P.outside platform.new).faults ≡ (P.outside platform.old).faults }
{
    let mut log = log;
    log.segments.known();
    let Ok(()) = note_records(&mut log.segments, pending.entries.as_slice()) else {
        unreachable!();
    };
    log.segments.note(&pending.commit.first);
    let Ok(()) = log
        .overlay
        .note(alloc, pending.commit.count, pending.entries.as_slice())
    else {
        return Err(OpenError::Memory);
    };
    let Ok(()) = platform.advance(pending.commit.count, &pending.mark.0) else {
        return Err(OpenError::Fault);
    };
    log.head = Head {
        count: pending.commit.count,
        mark: pending.mark,
        base: log.head.base,
    };
    Ok(log)
}
