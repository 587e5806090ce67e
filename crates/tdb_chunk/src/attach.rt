//! Opening a store on a platform.
ghost use Rattle.std.specs.Prelude.{◌≡◌, ◌≢◌, ◌⊎◌, false, Err, IfErr, IfOk, IsTrue};
ghost use Rattle.tdb_base.specs.Rose.{Rose};
ghost use Rattle.tdb_base.specs.declared.piece.Damage.{Damage};
ghost use Rattle.tdb_base.specs.declared.piece.Place.{Place};
ghost use Rattle.tdb_model.specs.Apply.{History};
ghost use Rattle.tdb_overlay.specs.Found as found;
ghost use Rattle.tdb_overlay.specs.Growth.{IsSettled};
ghost use Rattle.tdb_overlay.specs.Images.{IsReliableUnder};
ghost use Rattle.tdb_overlay.specs.Reading.{OnlyReads};
ghost use Rattle.tdb_overlay.specs.Required.{IsOpeningPiece};
ghost use Rattle.tdb_overlay.specs.StoreState.{StoreState};
ghost use Rattle.tdb_recover.specs.Damaged.{IsDamageOf};
ghost use Rattle.tdb_recover.specs.FirstText.{HasFirstText};
ghost use Rattle.tdb_recover.specs.Opening.{HasLookedAhead, HasNotRecovered, StaysOrTakes};
ghost use Rattle.tdb_recover.specs.Premises.{Premises};
ghost use Rattle.tdb_recover.specs.Reads.{ReadsBeside};
ghost use Rattle.tdb_recover.specs.Unwritten.{WritesNothing};
ghost use Rattle.tdb_recover.specs.declared.error.OpenError.TheVariants as opens;
ghost use Rattle.tdb_chunk.specs.Attached.{HasAttached};
ghost use Rattle.tdb_chunk.specs.Standing.{IsReady};

use crate::open_log::OpenLog;
use crate::store::Store;
use std::alloc::Global;
use tdb_overlay::Keys;
use tdb_platform::Platform;
use tdb_recover::{OpenError, recover};

impl<P: Platform> Store<P> {
    /// Opens the store of this secret on a platform, or gives the platform back. Where the device shows a commit whole that was begun
    /// behind the log, the anchor is advanced to it, and it is the store's last. Nothing is written to the device.
    ///
    /// Fails with `Unformatted` where the anchor counts no text, with `Tampered` or `Form` where the device shows other pieces
    /// than those of the log, with `Fault` where the platform failed, and with `Memory`.
    pub fn attach(alloc: Global, platform: P, secret: &[u8; 32]) -> Result<Store<P>, (P, OpenError)>
        // it stands where the log of the anchor ends, or behind one commit that had been begun there
        ensures attached { IfOk result (λ s. (store : found.Store) (history : History) (from : StoreState)
            → Premises (P.outside platform) (P.outside s.platform) secret.now store history from
            → HasAttached P.outside P.crash_states platform store history from s) }
        // the text that the anchor named was written under the secret
        ensures accepted { IfOk result (λ s. IsTrue (P.outside platform).tells
            → HasFirstText secret.now (P.outside platform).anchor (P.outside platform) (P.outside s.platform)) }
        // no other piece was read than those of the log and of that commit, which is taken by what they show
        ensures ahead { IfOk result (λ s. IsTrue (P.outside platform).tells
            → HasLookedAhead (P.outside platform) (P.outside s.platform) secret.now s.log) }
        // at most 4,161 pieces are read for the roster, and 3,026 beside it
        ensures most { IfOk result (λ s. ReadsBeside 3026 4161 (P.outside platform) (P.outside s.platform)) }
        ensures most_err { IfErr result (λ e. ReadsBeside 3026 4161 (P.outside platform) (P.outside e.0)) }
        // nothing was written, and no fault is hidden
        ensures unwritten { IfOk result (λ s. WritesNothing P.outside P.crash_states platform s.platform) }
        ensures quiet { IfOk result (λ s. (P.outside s.platform).faults ≡ (P.outside platform).faults) }
        ensures secret { IfOk result (λ s. s.secret ≡ secret.now) }
        ensures running { IfOk result (λ s. s.stopped ≡ false) }
        ensures ready { IfOk result (IsReady P.outside P.crash_states) }
        ensures formatted { IfOk result (λ s. IsTrue (P.outside platform).tells → (P.outside platform).anchor.0 ≢ 0) }
        // no error begins a commit either; one that had been begun may have been taken
        ensures not_attached { IfErr result (λ e. (store : found.Store) (history : History) (from : StoreState)
            → Premises (P.outside platform) (P.outside e.0) secret.now store history from
            → HasNotRecovered P.outside P.crash_states platform e.0 store history from) }
        // it was only read, or the anchor is as it was or names the commit that was shown whole
        ensures anchor_err { IfErr result (λ e. IsTrue (P.outside platform).tells
            → StaysOrTakes P.outside P.crash_states platform e.0 secret.now) }
        // nothing was written; unless the platform failed, it was only read, no fault is hidden, and a stop now
        // leaves the anchor that was told
        ensures unwritten_err { IfErr result (λ e. WritesNothing P.outside P.crash_states platform e.0) }
        ensures reads_err { IfErr result (λ e. e.1 ≢ opens.Fault → OnlyReads P.outside P.crash_states platform e.0) }
        ensures settled_err { IfErr result (λ e. e.1 ≢ opens.Fault → IsSettled P.outside P.crash_states e.0) }
        ensures quiet_err { IfErr result (λ e. e.1 ≢ opens.Fault → (P.outside e.0).faults ≡ (P.outside platform).faults) }
        ensures unformatted { IfErr result (λ e. e.1 ≡ opens.Unformatted → IsTrue (P.outside platform).tells
            → (P.outside platform).anchor.0 ≡ 0) }
        ensures unformatted_always { IsTrue (P.outside platform).tells → (P.outside platform).anchor.0 ≡ 0
            → (back : P) × ((result ≡ Err (back, opens.Unformatted)) ⊎ (result ≡ Err (back, opens.Fault))) }
        // damage is told only of a text since the last checkpoint, of the table or of a list, and the last read of it showed it
        ensures tampered { IfErr result (λ e. (damage : Damage) → e.1 ≡ opens.Tampered damage
            → (store : found.Store) (history : History) (from : StoreState)
            → Premises (P.outside platform) (P.outside e.0) secret.now store history from
            → IsDamageOf (P.outside platform) (P.outside e.0)
            (IsOpeningPiece (P.outside platform).trace.written store (P.outside platform).anchor) damage) }
        // on a reliable platform no damage is told
        ensures reliable { IfErr result (λ e. (damage : Damage) → e.1 ≡ opens.Tampered damage
            → (store : found.Store) (history : History) (from : StoreState)
            → Premises (P.outside platform) (P.outside e.0) secret.now store history from
            → IsReliableUnder P.outside P.crash_states secret.now platform → ⊥) }
        // a piece that has its digest fits the others
        ensures form { IfErr result (λ e. (place : Place) → e.1 ≡ opens.Form place
            → (store : found.Store) (history : History) (from : StoreState)
            → Premises (P.outside platform) (P.outside e.0) secret.now store history from → ⊥) }
        ensures fault { IfErr result (λ e. e.1 ≡ opens.Fault → Rose (P.outside platform).faults (P.outside e.0).faults) }
    {
        let mut platform = platform;
        let keys = Keys::new(alloc, secret);
        match recover(alloc, &mut platform, &keys) {
            Ok(log) => Ok(Store {
                platform,
                chain: OpenLog::open(keys, log),
                stopped: false,
            }),
            Err(error) => Err((platform, error)),
        }
    }
}
