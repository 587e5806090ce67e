//! The lists of a log, taken in one after another.
ghost use Rattle.std.specs.Prelude.{◌≡◌, ◌≢◌, ◌≤◌, List, length, reverse, Ok, Err, OnOk, IfErr, IsTrue};
ghost use Rattle.std.specs.List.{AllByRecursion};
ghost use Rattle.tdb_model.specs.declared.change.Change.{Change};
ghost use Rattle.tdb_overlay.specs.Changes.{named_records};
ghost use Rattle.tdb_overlay.specs.Found.{Store};
ghost use Rattle.tdb_overlay.specs.Needed.{needed};
ghost use Rattle.tdb_overlay.specs.Placement.{LiesBelow, note_all};
ghost use Rattle.tdb_overlay.specs.Reading.{OnlyReads};
ghost use Rattle.tdb_overlay.specs.StoreState.{StoreState};
ghost use Rattle.tdb_platform.specs.Outside.{Anchor};
ghost use Rattle.tdb_recover.specs.Chain.{EachLog, EndsWith, IsBehind, IsExplainedIn, ReadsOnlyIn};
ghost use Rattle.tdb_recover.specs.Explained.{IsCaused, IsExplained};
ghost use Rattle.tdb_recover.specs.Reads.{ReadsAtMost, ReadsOnly};
ghost use Rattle.tdb_recover.specs.Replay.{IsCommitIn, IsFormUnless, IsReplayOf, IsRest};
ghost use Rattle.tdb_recover.specs.declared.error.OpenError.TheVariants.{Fault};

use crate::error::OpenError;
use crate::records::read_entries;
use crate::texts::Chain;
use std::alloc::Global;
use tdb_list::Entry;
use tdb_mark::Commit;
use tdb_overlay::{Keys, Recovered};
use tdb_platform::Platform;
use tdb_seg::Segments;

/// The kind of an entry that names the record of a chunk.
const WRITE: u32 = 1;

/// Takes in where the records stand that a list names.
pub(crate) fn note_records(segments: &mut Segments, entries: &[Entry]) -> Result<(), OpenError>
    ensures ok { OnOk result (segments.new ≡ note_all segments.old (named_records entries.now)) }
    ensures form { IfErr result (IsFormUnless (AllByRecursion (LiesBelow segments.old.segments) (named_records entries.now))) }
{
    for entry in entries {
        if entry.kind != WRITE {
            continue;
        }
        if !segments.holds(&entry.piece) {
            return Err(OpenError::Form {
                place: entry.piece.place,
            });
        }
        segments.note(&entry.piece);
    }
    Ok(())
}

/// Takes in the list of one commit. After `Err` the log is of no use.
fn replay_list<P: Platform>(
    alloc: Global,
    platform: &mut P,
    keys: &Keys,
    log: &mut Recovered,
    text: &Commit,
) -> Result<(), OpenError>
    requires { 1 ≤ text.now.count }
    ensures reads { OnlyReads P.outside P.crash_states platform.old platform.new }
    ensures head { OnOk result (log.new.head ≡ log.old.head) }
    ensures suite { OnOk result (log.new.suite ≡ log.old.suite) }
    ensures replayed { IsTrue (P.outside platform.old).tells
        → OnOk result ((store : Store) (anchor : Anchor) (before : StoreState) (changes : List Change) (after : StoreState)
        → IsCommitIn (P.outside platform.old).trace.written
        (P.outside platform.new).trace keys.now store anchor before text.now changes after
        → IsReplayOf (needed (P.outside platform.old).trace.written store anchor) store log.old before
        → IsReplayOf (needed (P.outside platform.old).trace.written store anchor) store log.new after) }
    ensures only { IsTrue (P.outside platform.old).tells
        → OnOk result (ReadsOnly (λ p. p ≡ text.now.first) (P.outside platform.old) (P.outside platform.new)) }
    ensures caused { IfErr result (IsCaused (P.outside platform.old) (P.outside platform.new)) }
    ensures most { ReadsAtMost 1 (P.outside platform.old) (P.outside platform.new) }
    ensures quiet { result ≢ Err Fault → (P.outside platform.new).faults ≡ (P.outside platform.old).faults }
    ensures explained { IsTrue (P.outside platform.old).tells
        → IfErr result (λ error. (store : Store) (anchor : Anchor) (before : StoreState) (changes : List Change) (after : StoreState)
        → IsCommitIn (P.outside platform.old).trace.written
        (P.outside platform.new).trace keys.now store anchor before text.now changes after
        → IsReplayOf (needed (P.outside platform.old).trace.written store anchor) store log.old before
        → IsExplained (P.outside platform.old) (P.outside platform.new) (λ p. p ≡ text.now.first) error) }
{
    log.segments.known();
    let entries = read_entries(alloc, platform, keys, &log.segments, text)?;
    note_records(&mut log.segments, entries.as_slice())?;
    log.segments.note(&text.first);
    log.overlay.note(alloc, text.count, entries.as_slice())?;
    Ok(())
}

/// Takes in the lists of the commits of a chain, the oldest one first. After `Err` the log is of no
/// use.
pub(crate) fn replay<P: Platform>(
    alloc: Global,
    platform: &mut P,
    keys: &Keys,
    log: &mut Recovered,
    chain: Chain,
) -> Result<(), OpenError>
    requires commits { AllByRecursion (IsBehind chain.base) (reverse chain.commits.items) }
    ensures reads { OnlyReads P.outside P.crash_states platform.old platform.new }
    ensures head { OnOk result (log.new.head ≡ log.old.head) }
    ensures suite { OnOk result (log.new.suite ≡ log.old.suite) }
    ensures replayed { OnOk result (EachLog (P.outside platform.old) (P.outside platform.new) keys.now (λ whole.
        IsRest (P.outside platform.old).trace.written whole (reverse chain.commits.items) log.old
        → EndsWith (P.outside platform.old).trace.written keys.now whole.chain chain.base (reverse chain.commits.items)
        → IsReplayOf (needed (P.outside platform.old).trace.written whole.store whole.anchor) whole.store log.new whole.last)) }
    ensures only { OnOk result (EachLog (P.outside platform.old) (P.outside platform.new) keys.now (λ whole.
        IsRest (P.outside platform.old).trace.written whole (reverse chain.commits.items) log.old
        → EndsWith (P.outside platform.old).trace.written keys.now whole.chain chain.base (reverse chain.commits.items)
        → ReadsOnlyIn (P.outside platform.old) (P.outside platform.new) whole)) }
    ensures caused { IfErr result (IsCaused (P.outside platform.old) (P.outside platform.new)) }
    ensures most { ReadsAtMost (length chain.commits.items) (P.outside platform.old) (P.outside platform.new) }
    ensures quiet { result ≢ Err Fault → (P.outside platform.new).faults ≡ (P.outside platform.old).faults }
    ensures explained { IfErr result (λ error. EachLog (P.outside platform.old) (P.outside platform.new) keys.now (λ whole.
        IsRest (P.outside platform.old).trace.written whole (reverse chain.commits.items) log.old
        → EndsWith (P.outside platform.old).trace.written keys.now whole.chain chain.base (reverse chain.commits.items)
        → IsExplainedIn (P.outside platform.old) (P.outside platform.new) error whole)) }
{
    let mut commits = chain.commits;
    while let Some(text) = commits.pop() {
        replay_list(alloc, platform, keys, log, &text)?;
    }
    Ok(())
}
