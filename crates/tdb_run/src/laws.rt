//! Laws of runs.
ghost use Rattle.std.specs.Prelude.{◌≡◌, ◌++◌, ◌∷◌, [], ℕ, List};
ghost use Rattle.sha2.specs.Sha256.{sha256};
ghost use Rattle.tdb_base.specs.Trace.{ReadPiece, Trace};
ghost use Rattle.tdb_base.specs.declared.suite.Suite.{Suite};
ghost use Rattle.tdb_list.specs.declared.entry.Entry.{Entry};
ghost use Rattle.tdb_mark.specs.declared.commit.Commit.{Commit};
ghost use Rattle.tdb_mark.specs.CommitText.{commit_key_of, commit_of};
ghost use Rattle.tdb_mark.specs.Unforged.{IsUnforged, WasRead, WasWritten};
ghost use Rattle.tdb_model.specs.Apply.{History};
ghost use Rattle.tdb_overlay.specs.Found.{Store};
ghost use Rattle.tdb_overlay.specs.Images.{IsReliableUnder};
ghost use Rattle.tdb_overlay.specs.Log.{IsLog};
ghost use Rattle.tdb_overlay.specs.Needed.{needed};
ghost use Rattle.tdb_overlay.specs.Recovered.{IsRecovered};
ghost use Rattle.tdb_overlay.specs.Sound.{IsSound};
ghost use Rattle.tdb_overlay.specs.StoreState.{StoreState};
ghost use Rattle.tdb_overlay.specs.WellFormedLog.{IsWellFormedTrace};
ghost use Rattle.tdb_overlay.specs.declared.recovered.Recovered.{Recovered};
ghost use Rattle.tdb_recover.specs.Ahead.{Follows, IsMemberList};
ghost use Rattle.tdb_run.specs.Digests.{ShowsNext};
ghost use Rattle.tdb_run.specs.Ran.{IsCaughtUp};
ghost use Rattle.tdb_run.specs.Runs.{EachStarts, IsKept, Runs, last_of};
ghost use Rattle.tdb_run.specs.UnalteredRuns.{EachGoesOn, UnalteredRuns};

use tdb_platform::Platform;

/// Runs one after another, over whatever a stop and the device's holder leave between them: each starts from the log of the
/// anchor that was there or of one that a stop could leave, with at most one commit more that had been begun behind it, and
/// that log has in their order all commits that earlier runs acknowledged. Whatever had been begun is a commit of one of
/// these, unless it was there at first. The trace has no collision and no forgery at the last one's end.
pub fn runs_follow<P: Platform>(_platform: &P)
    ensures { (secret : List ℕ) (p : P) (rs : List (P × P)) → IsKept P.outside P.crash_states secret p
        → (ran : Runs P.outside P.crash_states secret p rs) → IsSound secret (P.outside (last_of p rs))
        → EachStarts P.outside P.crash_states secret p rs ran (λ text c. WasWritten (P.outside p).trace.written text) [] }
{}

/// Runs one after another over a device that nobody alters and that never fails: each goes on from the history and the state at which
/// the one before it ended, takes no commit but its own, and speaks of no damage. The first one begins over a reliable platform with no
/// text above the anchor's count.
pub fn unaltered_runs_follow<P: Platform>(_platform: &P)
    ensures { (secret : List ℕ) (p : P) (rs : List (P × P)) (suite : Suite) (history : History) (from : StoreState)
        → IsKept P.outside P.crash_states secret p → IsReliableUnder P.outside P.crash_states secret p → IsCaughtUp secret (P.outside p)
        → IsLog (P.outside p).trace.written (record { secret = secret; suite = suite }) (P.outside p).anchor history from
        → (ran : UnalteredRuns P.outside P.crash_states secret p rs) → IsSound secret (P.outside (last_of p rs))
        → EachGoesOn P.outside P.crash_states secret p rs ran history from }
{}

/// Of a commit that was begun behind a log, the digests alone decide whether it is taken: a text that the next slot showed with a right
/// tag, the next count and the log's mark has the log's base, suite and number of segments, and what was read with the digest of its
/// list is that list, of records in the log's segments. The trace is unforged and well formed.
pub fn digests_decide()
    ensures { (t : Trace) (store : Store) (history : History) (from : StoreState) (log : Recovered)
        → IsUnforged t (commit_of (commit_key_of store.secret)) → IsWellFormedTrace t.written store.secret
        → IsLog t.written store (log.head.count, log.head.mark.0) history from
        → IsRecovered (needed t.written store (log.head.count, log.head.mark.0)) store log from
        → (before after : List ReadPiece) (r : ReadPiece) (c : Commit) → t.read ≡ before ++ r ∷ after
        → ShowsNext store.secret log r c
        → Follows log c × ((bytes : List ℕ) → WasRead t.read bytes → sha256 bytes ≡ c.first.digest.0
        → (entries : List Entry) × IsMemberList store.secret log c bytes entries) }
{}
