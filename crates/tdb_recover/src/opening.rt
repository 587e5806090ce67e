//! Opening the log that the anchor names.
ghost use Rattle.std.specs.Prelude.{◌≡◌, ◌≢◌, ◌⊎◌, ◌+◌, ◌-◌, ◌*◌, ◌<◌, Err, IfOk, IfErr, OnOk, IsTrue};
ghost use Rattle.tdb_base.specs.declared.piece.Damage.{Damage};
ghost use Rattle.tdb_base.specs.declared.piece.Place.{Place};
ghost use Rattle.tdb_model.specs.Apply.{History};
ghost use Rattle.tdb_overlay.specs.Found.{Store};
ghost use Rattle.tdb_overlay.specs.Growth.{IsSettled};
ghost use Rattle.tdb_overlay.specs.Images.{IsReliableUnder};
ghost use Rattle.tdb_overlay.specs.Needed.{needed};
ghost use Rattle.tdb_overlay.specs.Reading.{OnlyReads};
ghost use Rattle.tdb_overlay.specs.Recovered.{HasCounts, IsRecovered};
ghost use Rattle.tdb_overlay.specs.Required.{IsOpeningPiece};
ghost use Rattle.tdb_overlay.specs.StoreState.{StoreState};
ghost use Rattle.tdb_platform.specs.Outside.{Rose};
ghost use Rattle.tdb_recover.specs.Chain.{EachLog, IsExplainedIn, ReadsOnlyIn};
ghost use Rattle.tdb_recover.specs.Damaged.{IsDamageOf};
ghost use Rattle.tdb_recover.specs.Explained.{IsCaused};
ghost use Rattle.tdb_recover.specs.FirstText.{HasFirstText};
ghost use Rattle.tdb_recover.specs.Opening.{HasLookedAhead, HasNotRecovered, HasRecovered, StaysOrTakes};
ghost use Rattle.tdb_recover.specs.Premises.{Premises};
ghost use Rattle.tdb_recover.specs.Reads.{ReadsBeside, ReadsOnly};
ghost use Rattle.tdb_recover.specs.Unwritten.{IsSure, WritesNothing};
ghost use Rattle.tdb_recover.specs.declared.error.OpenError.TheVariants.{Unformatted, Tampered, Form, Fault};

use crate::ahead::look_ahead;
use crate::error::OpenError;
use crate::records::read_segments;
use crate::replay::replay;
use crate::roster::read_roster;
use crate::taking::take;
use crate::texts::read_chain;
use std::alloc::Global;
use tdb_append::Head;
use tdb_base::Digest;
use tdb_overlay::{BaseTree, Keys, Recovered};
use tdb_platform::Platform;

/// Opens the log whose last text has a count and a mark.
fn open_log<P: Platform>(
    alloc: Global,
    platform: &mut P,
    keys: &Keys,
    count: u64,
    mark: Digest,
) -> Result<Recovered, OpenError>
    requires { 0 < count }
    ensures reads { OnlyReads P.outside P.crash_states platform.old platform.new }
    ensures head { IfOk result (λ log. (log.head.count ≡ count) × (log.head.mark ≡ mark)) }
    ensures counts { IfOk result HasCounts }
    ensures accepted { IsTrue (P.outside platform.old).tells
        → IfOk result (λ _. HasFirstText keys.now (count, mark.0) (P.outside platform.old) (P.outside platform.new)) }
    ensures recovered { IfOk result (λ log. EachLog (P.outside platform.old) (P.outside platform.new) keys.now
        (λ whole. whole.anchor ≡ (count, mark.0)
        → IsRecovered (needed (P.outside platform.old).trace.written whole.store whole.anchor) whole.store log whole.last)) }
    ensures only { IfOk result (λ _. EachLog (P.outside platform.old) (P.outside platform.new) keys.now
        (λ whole. whole.anchor ≡ (count, mark.0)
        → ReadsOnlyIn (P.outside platform.old) (P.outside platform.new) whole)) }
    ensures caused { IfErr result (IsCaused (P.outside platform.old) (P.outside platform.new)) }
    ensures most { ReadsBeside 2002 4161 (P.outside platform.old) (P.outside platform.new) }
    ensures most_ok { IfOk result (λ log. ReadsBeside (2 * (log.head.count - log.head.base) + 2) 4161 (P.outside platform.old)
        (P.outside platform.new)) }
    ensures quiet { result ≢ Err Fault → (P.outside platform.new).faults ≡ (P.outside platform.old).faults }
    ensures explained { IfErr result (λ error. EachLog (P.outside platform.old) (P.outside platform.new) keys.now
        (λ whole. whole.anchor ≡ (count, mark.0)
        → IsExplainedIn (P.outside platform.old) (P.outside platform.new) error whole)) }
{
    let chain = read_chain(alloc, platform, keys, count, &mark)?;
    let base = chain.base;
    let segments = read_segments(alloc, platform, keys, &base)?;
    let overlay = read_roster(alloc, platform, keys, &segments, &base)?;
    let tree = BaseTree {
        root: base.root,
        leaders: overlay.copied()?,
    };
    let mut log = Recovered {
        suite: base.suite,
        head: Head {
            count,
            mark,
            base: base.count,
        },
        segments,
        overlay,
        tree,
    };
    replay(alloc, platform, keys, &mut log, chain)?;
    Ok(log)
}

/// Asks for the anchor, and makes sure of what was written before.
fn begin<P: Platform>(platform: &mut P) -> Result<(u64, Digest), OpenError>
    ensures reads { OnlyReads P.outside P.crash_states platform.old platform.new }
    ensures trace { IsTrue (P.outside platform.old).tells → (P.outside platform.new).trace ≡ (P.outside platform.old).trace }
    ensures given { IsTrue (P.outside platform.old).tells → IfOk result (λ given. (P.outside platform.old).anchor ≡ (given.0, given.1.0)) }
    ensures some { IfOk result (λ given. 0 < given.0) }
    ensures settled { (result ≢ Err Fault) → IsSettled P.outside P.crash_states platform.new }
    ensures sure { OnOk result (IsSure P.outside P.crash_states platform.new) }
    ensures unformatted { result ≡ Err Unformatted → IsTrue (P.outside platform.old).tells → (P.outside platform.old).anchor.0 ≡ 0 }
    ensures errors { IfErr result (λ error. (error ≡ Unformatted) ⊎ (error ≡ Fault)) }
    ensures fault { result ≡ Err Fault → Rose (P.outside platform.old).faults (P.outside platform.new).faults }
    ensures quiet { result ≢ Err Fault → (P.outside platform.new).faults ≡ (P.outside platform.old).faults }
{
    let Ok(anchor) = platform.anchor() else {
        return Err(OpenError::Fault);
    };
    let (count, mark) = anchor;
    if count == 0 {
        return Err(OpenError::Unformatted);
    }
    match platform.sync() {
        Ok(()) => Ok((count, Digest(mark))),
        Err(_failed) => Err(OpenError::Fault),
    }
}

/// Reads the log that the anchor names. It writes nothing.
///
/// The anchor is asked for, and what was written before is made sure of. The texts are then read
/// from the last one back to that of the last checkpoint, then its segment table, the nodes of its
/// roster, its leaders, and then the lists of the commits behind it, oldest first.
pub fn read_log<P: Platform>(
    alloc: Global,
    platform: &mut P,
    keys: &Keys,
) -> Result<Recovered, OpenError>
    // nothing is written, and a stop leaves nothing new
    ensures reads { OnlyReads P.outside P.crash_states platform.old platform.new }
    // the anchor was told, so a stop now leaves it, unless the platform failed; where the log was read, it leaves the image that was read
    ensures settled { (result ≢ Err Fault) → IsSettled P.outside P.crash_states platform.new }
    ensures sure { OnOk result (IsSure P.outside P.crash_states platform.new) }
    ensures unformatted { result ≡ Err Unformatted → IsTrue (P.outside platform.old).tells → (P.outside platform.old).anchor.0 ≡ 0 }
    ensures unformatted_always { IsTrue (P.outside platform.old).tells → (P.outside platform.old).anchor.0 ≡ 0
        → (result ≡ Err Unformatted) ⊎ (result ≡ Err Fault) }
    ensures at_head { IsTrue (P.outside platform.old).tells
        → IfOk result (λ log. (P.outside platform.old).anchor ≡ (log.head.count, log.head.mark.0)) }
    ensures counts { IfOk result HasCounts }
    // its last text was written under the secret
    ensures accepted { IsTrue (P.outside platform.old).tells → IfOk result (λ _. HasFirstText keys.now (P.outside platform.old).anchor
        (P.outside platform.old) (P.outside platform.new)) }
    // what was recovered is the log's state, whatever the device showed, told by pieces that the log needs
    ensures recovered { IfOk result (λ log. (store : Store) (history : History) (last : StoreState)
        → Premises (P.outside platform.old) (P.outside platform.new) keys.now store history last
        → IsRecovered (needed (P.outside platform.old).trace.written store (P.outside platform.old).anchor) store log last) }
    // each piece is read whole, and none but the texts, the table, the roster, its leaders and the lists that the log needs
    ensures only_opening { IfOk result (λ log. (store : Store) (history : History) (last : StoreState)
        → Premises (P.outside platform.old) (P.outside platform.new) keys.now store history last
        → ReadsOnly (IsOpeningPiece (P.outside platform.old).trace.written store (P.outside platform.old).anchor) (P.outside platform.old)
        (P.outside platform.new)) }
    // beside the roster at most the text of the last checkpoint and its table, and the text and the list of each commit behind it
    ensures most { ReadsBeside 2002 4161 (P.outside platform.old) (P.outside platform.new) }
    ensures most_ok { IfOk result (λ log. ReadsBeside (2 * (log.head.count - log.head.base) + 2) 4161 (P.outside platform.old)
        (P.outside platform.new)) }
    // damage is told only of a text since the last checkpoint, the table, a roster node, a leader or a list, and the last read
    // of it showed it
    ensures tampered { (damage : Damage) → result ≡ Err (Tampered damage) → (store : Store) (history : History) (last : StoreState)
        → Premises (P.outside platform.old) (P.outside platform.new) keys.now store history last
        → IsDamageOf (P.outside platform.old) (P.outside platform.new)
        (IsOpeningPiece (P.outside platform.old).trace.written store (P.outside platform.old).anchor) damage }
    // a piece that has its digest fits the others
    ensures form { (place : Place) → result ≡ Err (Form place) → (store : Store) (history : History) (last : StoreState)
        → Premises (P.outside platform.old) (P.outside platform.new) keys.now store history last → ⊥ }
    ensures fault { result ≡ Err Fault → Rose (P.outside platform.old).faults (P.outside platform.new).faults }
    // with any other answer there was no fault
    ensures quiet { result ≢ Err Fault → (P.outside platform.new).faults ≡ (P.outside platform.old).faults }
{
    match begin(platform) {
        Ok((count, mark)) => open_log(alloc, platform, keys, count, mark),
        Err(error) => Err(error),
    }
}

/// Opens the log that the anchor names, with the commit that was begun behind it, if the device
/// shows one whole: the anchor is then advanced to it. It writes nothing to the device.
///
/// Fails with `Unformatted` where the anchor counts no text, with `Tampered` or `Form` where the
/// device shows other pieces than those of the log, with `Fault` where the platform failed, and
/// with `Memory`. A fault of the advance leaves the anchor old or new.
pub fn recover<P: Platform>(
    alloc: Global,
    platform: &mut P,
    keys: &Keys,
) -> Result<Recovered, OpenError>
    // nothing is written; the anchor is exchanged at most where the log was opened or the platform failed
    ensures unwritten { WritesNothing P.outside P.crash_states platform.old platform.new }
    ensures reads { IfErr result (λ error. error ≢ Fault → OnlyReads P.outside P.crash_states platform.old platform.new) }
    // the anchor was told or advanced, so a stop now leaves it, unless the platform failed
    ensures settled { (result ≢ Err Fault) → IsSettled P.outside P.crash_states platform.new }
    ensures unformatted { result ≡ Err Unformatted → IsTrue (P.outside platform.old).tells → (P.outside platform.old).anchor.0 ≡ 0 }
    ensures unformatted_always { IsTrue (P.outside platform.old).tells → (P.outside platform.old).anchor.0 ≡ 0
        → (result ≡ Err Unformatted) ⊎ (result ≡ Err Fault) }
    ensures formatted { IsTrue (P.outside platform.old).tells → OnOk result ((P.outside platform.old).anchor.0 ≢ 0) }
    ensures at_head { IsTrue (P.outside platform.old).tells
        → IfOk result (λ log. (P.outside platform.new).anchor ≡ (log.head.count, log.head.mark.0)) }
    ensures counts { IfOk result HasCounts }
    // the text that the anchor named was written under the secret
    ensures accepted { IsTrue (P.outside platform.old).tells → IfOk result (λ _. HasFirstText keys.now (P.outside platform.old).anchor
        (P.outside platform.old) (P.outside platform.new)) }
    // what is open is the anchor's log, and behind it at most one commit that was begun there, whatever the device showed
    ensures recovered { IfOk result (λ log. (store : Store) (history : History) (from : StoreState)
        → Premises (P.outside platform.old) (P.outside platform.new) keys.now store history from
        → HasRecovered P.outside P.crash_states platform.old platform.new store history from log) }
    ensures not_recovered { IfErr result (λ _. (store : Store) (history : History) (from : StoreState)
        → Premises (P.outside platform.old) (P.outside platform.new) keys.now store history from
        → HasNotRecovered P.outside P.crash_states platform.old platform.new store history from) }
    // after an error it was only read, or the anchor is as it was or names the commit that was shown whole
    ensures anchor_err { IsTrue (P.outside platform.old).tells
        → IfErr result (λ _. StaysOrTakes P.outside P.crash_states platform.old platform.new keys.now) }
    // what is read behind the log, and whether a commit is taken, follows from what is shown
    ensures ahead { IsTrue (P.outside platform.old).tells
        → IfOk result (HasLookedAhead (P.outside platform.old) (P.outside platform.new) keys.now) }
    // at most 4,161 pieces are read for the roster, and 3,026 beside it, whatever the device shows
    ensures most { ReadsBeside 3026 4161 (P.outside platform.old) (P.outside platform.new) }
    // damage is told only of a text since the last checkpoint, the table, a roster node, a leader or a list, and the last read
    // of it showed it
    ensures tampered { (damage : Damage) → result ≡ Err (Tampered damage) → (store : Store) (history : History) (from : StoreState)
        → Premises (P.outside platform.old) (P.outside platform.new) keys.now store history from
        → IsDamageOf (P.outside platform.old) (P.outside platform.new)
        (IsOpeningPiece (P.outside platform.old).trace.written store (P.outside platform.old).anchor) damage }
    // on a reliable platform no damage is told
    ensures reliable { (damage : Damage) → result ≡ Err (Tampered damage) → (store : Store) (history : History) (from : StoreState)
        → Premises (P.outside platform.old) (P.outside platform.new) keys.now store history from
        → IsReliableUnder P.outside P.crash_states keys.now platform.old → ⊥ }
    // a piece that has its digest fits the others
    ensures form { (place : Place) → result ≡ Err (Form place) → (store : Store) (history : History) (from : StoreState)
        → Premises (P.outside platform.old) (P.outside platform.new) keys.now store history from → ⊥ }
    ensures fault { result ≡ Err Fault → Rose (P.outside platform.old).faults (P.outside platform.new).faults }
    // with any other answer there was no fault
    ensures quiet { result ≢ Err Fault → (P.outside platform.new).faults ≡ (P.outside platform.old).faults }
{
    let log = match read_log(alloc, platform, keys) {
        Ok(log) => log,
        Err(error) => return Err(error),
    };
    match look_ahead(alloc, platform, keys, &log) {
        Ok(Some(pending)) => take(alloc, platform, log, pending),
        Ok(None) => Ok(log),
        Err(error) => Err(error),
    }
}
