//! Laws of runs of calls, over any platform.
ghost use Rattle.std.specs.Prelude.{◌≡◌, ◌++◌, ◌∷◌, [], ℕ, List, Result, IsTrue, OnOk};
ghost use Rattle.sha2.specs.Sha256.{sha256};
ghost use Rattle.tdb_append.specs.declared.head.Head.{Head};
ghost use Rattle.tdb_append.specs.Placed.{Placed};
ghost use Rattle.tdb_append.specs.Put.{Puts, slot_place};
ghost use Rattle.tdb_base.specs.declared.failed.Failed.{Failed};
ghost use Rattle.tdb_mark.specs.declared.commit.Commit.{Commit};
ghost use Rattle.tdb_model.specs.Apply.{History};
ghost use Rattle.tdb_platform.specs.CrashStates.{now};
ghost use Rattle.tdb_platform.specs.Outside.{Anchor, Told};
ghost use Rattle.tdb_overlay.specs.Found.{Store};
ghost use Rattle.tdb_overlay.specs.Growth.{IsSettled};
ghost use Rattle.tdb_overlay.specs.Images.{IsIntactIn, IsReliable, IsReliableUnder};
ghost use Rattle.tdb_overlay.specs.NextText.{GoesOnWith, IsLaidText};
ghost use Rattle.tdb_overlay.specs.Ran.{EachHasLog, RanOn, RanStep};
ghost use Rattle.tdb_overlay.specs.Reading.{OnlyReads};
ghost use Rattle.tdb_overlay.specs.Sound.{IsSound};
ghost use Rattle.tdb_overlay.specs.WellFormedLog.{IsKeptLog, IsWellFormedLog};

use tdb_platform::Platform;

/// One law for every text: the put of a text that comes next, with the pieces before it, is a step that adds what the text
/// adds, whichever kind of text it is.
pub fn put_is_a_step<P: Platform>(_platform: &P)
    ensures { (store : Store) (old new : P) (text : List ℕ) (c : Commit) (pieces : List Placed) (added : History)
        (result : Result Head Failed) →
        IsLaidText store.secret text c pieces → IsSettled P.outside P.crash_states old →
        (IsSound store.secret (P.outside old) →
        GoesOnWith (P.outside old).trace.written store (P.outside old).anchor c pieces added) →
        Puts P.outside P.crash_states old new
        (pieces ++ record { place = slot_place c.count; bytes = text } ∷ []) (c.count, sha256 text) result →
        Told (P.outside old) (P.outside new) result →
        (IsTrue (P.outside old).tells → OnOk result ((P.outside new).anchor ≡ (c.count, sha256 text))) →
        (IsTrue (P.outside old).tells → OnOk result ((i : List ℕ) (a : Anchor) → now P.outside P.crash_states new i a →
        a ≡ (c.count, sha256 text))) →
        RanStep P.outside P.crash_states store added old new result }
{}

/// Runs join: no call is one, calls that only read are one, and one run and then another are one.
pub fn runs_join<P: Platform>(_platform: &P)
    ensures nothing { (store : Store) (p : P) → RanOn P.outside P.crash_states store p [] [] p }
    ensures reads { (store : Store) (old new : P) → OnlyReads P.outside P.crash_states old new →
        RanOn P.outside P.crash_states store old [] [] new }
    ensures then_on { (store : Store) (a b c : P) (first second maybe : History) →
        RanOn P.outside P.crash_states store a first [] b → RanOn P.outside P.crash_states store b second maybe c →
        RanOn P.outside P.crash_states store a (first ++ second) maybe c }
    // behind commits that may have been made
    ensures after { (store : Store) (a b c : P) (surely maybe : History) →
        RanOn P.outside P.crash_states store a surely maybe b → RanOn P.outside P.crash_states store b [] [] c →
        RanOn P.outside P.crash_states store a surely maybe c }
    ensures wider { (store : Store) (old new : P) (surely maybe : History) →
        RanOn P.outside P.crash_states store old surely [] new → RanOn P.outside P.crash_states store old surely maybe new }
{}

/// What each run keeps, where its end is sound: a log that was well formed is so for the platform's anchor, and for each that a stop
/// may leave now, or since the run's start, and an image that was intact for its anchor leaves only such pairs.
pub fn runs_keep<P: Platform>(_platform: &P)
    ensures sound { (store : Store) (old new : P) (surely maybe : History) →
        RanOn P.outside P.crash_states store old surely maybe new → IsSound store.secret (P.outside new) →
        IsSound store.secret (P.outside old) }
    ensures anchor { (store : Store) (old new : P) (surely maybe : History) →
        RanOn P.outside P.crash_states store old surely maybe new → IsSound store.secret (P.outside new) →
        IsWellFormedLog (P.outside old).trace.written store.secret (P.outside old).anchor →
        IsWellFormedLog (P.outside new).trace.written store.secret (P.outside new).anchor }
    ensures kept { (store : Store) (old new : P) (surely maybe : History) →
        RanOn P.outside P.crash_states store old surely maybe new → IsSound store.secret (P.outside new) →
        IsKeptLog P.outside P.crash_states store.secret old → IsKeptLog P.outside P.crash_states store.secret new }
    ensures kept_since { (store : Store) (old new : P) (surely maybe : History) →
        RanOn P.outside P.crash_states store old surely maybe new → IsSound store.secret (P.outside new) →
        IsKeptLog P.outside P.crash_states store.secret old →
        (i : List ℕ) (a : Anchor) → P.crash_states new (P.outside old).clock i a →
        IsWellFormedLog (P.outside new).trace.written store.secret a }
    ensures reliable { (store : Store) (old new : P) (surely maybe : History) →
        RanOn P.outside P.crash_states store old surely maybe new → IsSound store.secret (P.outside new) →
        IsReliable P.outside P.crash_states store old → IsReliable P.outside P.crash_states store new }
    ensures intact_since { (store : Store) (old new : P) (surely maybe : History) →
        RanOn P.outside P.crash_states store old surely maybe new → IsSound store.secret (P.outside new) →
        IsReliable P.outside P.crash_states store old →
        (i : List ℕ) (a : Anchor) → P.crash_states new (P.outside old).clock i a →
        IsIntactIn i (P.outside new).trace.written store a }
    // in whatever suite, where each anchor that a stop could leave had a log of the store
    ensures reliable_of { (store : Store) (p : P) → EachHasLog P.outside P.crash_states store p →
        IsReliableUnder P.outside P.crash_states store.secret p → IsReliable P.outside P.crash_states store p }
{}
