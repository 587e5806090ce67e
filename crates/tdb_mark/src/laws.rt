//! Laws of commit texts and of the chain that they form.
ghost use Rattle.std.specs.Prelude.{◌≡◌, ◌+◌, ◌++◌, ◌∷◌, [], ℕ, List, Option, Some, true};
ghost use Rattle.sha2.specs.Sha256.{sha256};
ghost use Rattle.tdb_base.specs.Trace.{Trace, IsNumbered, Extends, with_written};
ghost use Rattle.tdb_mark.specs.declared.commit.Commit.{Commit};
ghost use Rattle.tdb_mark.specs.CommitFormat.{IsCommitValue};
ghost use Rattle.tdb_mark.specs.CommitText.{commit_text};
ghost use Rattle.tdb_mark.specs.CommitChain.{commit_chain, follows};
ghost use Rattle.tdb_mark.specs.Unforged.{IsUnforged, WasWritten, WasRead};

/// Two commits with one text are one.
pub fn commit_has_one_text()
    ensures { (key : List ℕ) (one other : Commit) → IsCommitValue one → IsCommitValue other
        → commit_text key one ≡ commit_text key other → one ≡ other }
{}

/// A text whose count is the next and whose `prev` is the chain's mark makes the chain longer by
/// itself, as soon as it was written.
pub fn chain_goes_on()
    ensures { (trace : Trace) (at : ℕ) (text : List ℕ) (grammar : List ℕ → Option Commit)
        (commit : Commit) (count : ℕ) (mark : List ℕ) (chain : List Commit) →
        IsUnforged (with_written trace at text) grammar →
        commit_chain trace.written grammar count mark ≡ Some chain → grammar text ≡ Some commit → commit.prev.0 ≡ mark →
        follows count commit ≡ true →
        commit_chain (with_written trace at text).written grammar (count + 1) (sha256 text) ≡ Some (chain ++ commit ∷ []) }
{}

/// What a read gave is what was written, where their digests are one.
pub fn read_piece_was_written()
    ensures { (trace : Trace) (grammar : List ℕ → Option Commit) (piece given : List ℕ) → IsUnforged trace grammar →
        WasWritten trace.written piece → WasRead trace.read given → sha256 piece ≡ sha256 given → piece ≡ given }
{}

/// A trace that is unforged was so at each earlier moment.
pub fn unforged_before()
    ensures { (earlier later : Trace) (grammar : List ℕ → Option Commit) → IsNumbered earlier → Extends earlier later
        → IsUnforged later grammar → IsUnforged earlier grammar }
{}
