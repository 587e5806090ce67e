//! The next text of the log, with the records that it names.
ghost use Rattle.std.specs.Prelude.{◌≡◌, ◌+◌, ◌<◌, ◌++◌, ◌∷◌, [], ℕ, List, All, AllPairs, IfOk, OnOk, IsTrue, Some};
ghost use Rattle.tdb_append.specs.Placed.{FitsOneSegment, IsApart, placed};
ghost use Rattle.tdb_append.specs.Put.{Puts};
ghost use Rattle.tdb_mark.specs.CommitText.{commit_key_of, commit_of};
ghost use Rattle.tdb_mark.specs.CommitFormat.{IsCommitValue, IsInFormat};
ghost use Rattle.tdb_platform.specs.Outside.{Anchor, Told};
ghost use Rattle.tdb_platform.specs.CrashStates.{now};
ghost use Rattle.tdb_overlay.specs.SealedOnly.{IsRecord, OnlySealed};
ghost use Rattle.tdb_overlay.specs.PutStep.{IsPutStep};
ghost use Rattle.tdb_overlay.specs.Text.{anchor_of, next_head, text_in_slot, text_of};

use crate::keys::Keys;
use tdb_append::{Head, Laid, put};
use tdb_base::Failed;
use tdb_mark::{Commit, write_commit_with};
use tdb_platform::Platform;

/// Puts the records of a commit or a checkpoint and its text, and gives the new head. It takes no memory. After
/// `Err(Failed)` the text stands or not.
pub fn put_commit<P: Platform>(
    platform: &mut P,
    keys: &Keys,
    head: &Head,
    commit: &Commit,
    pieces: &[Laid],
) -> Result<Head, Failed>
    requires count { IsTrue (P.outside platform.old).tells → (P.outside platform.old).anchor.0 ≡ head.now.count }
    requires counts_on { head.now.count < 18446744073709551615 }
    requires next_count { commit.now.count ≡ head.now.count + 1 }
    requires value { IsCommitValue commit.now }
    requires in_format { IsInFormat commit.now }
    requires in_segments { All FitsOneSegment (placed pieces.now) }
    requires apart { AllPairs IsApart (placed pieces.now) }
    ensures puts { Puts P.outside P.crash_states platform.old platform.new (placed pieces.now ++ text_in_slot keys.now commit.now ∷ [])
        (anchor_of keys.now commit.now) result }
    ensures advanced { IsTrue (P.outside platform.old).tells
        → OnOk result ((P.outside platform.new).anchor ≡ anchor_of keys.now commit.now) }
    ensures only { IsTrue (P.outside platform.old).tells
        → OnOk result ((i : List ℕ) (a : Anchor) → now P.outside P.crash_states platform.new i a → a ≡ anchor_of keys.now commit.now) }
    ensures head { IfOk result (λ next. next ≡ next_head keys.now head.now commit.now) }
    ensures reads { commit_of (commit_key_of keys.now) (text_of keys.now commit.now) ≡ Some commit.now }
    ensures told { Told (P.outside platform.old) (P.outside platform.new) result }
    ensures quiet { OnOk result ((P.outside platform.new).faults ≡ (P.outside platform.old).faults) }
    ensures sealed { All (λ p. IsRecord keys.now p.bytes) (placed pieces.now)
        → OnlySealed keys.now (P.outside platform.old) (P.outside platform.new) }
    ensures steps { All (λ p. IsRecord keys.now p.bytes) (placed pieces.now)
        → IsPutStep P.outside P.crash_states keys.now commit.now (placed pieces.now) platform.old platform.new result }
{
    let text = write_commit_with(commit, keys.commit());
    put(platform, head, pieces, &text)
}
