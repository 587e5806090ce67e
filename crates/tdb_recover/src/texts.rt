//! The texts of a log, read from the last one back to that of the last checkpoint.
ghost use Rattle.std.specs.Prelude.{◌≡◌, ◌≢◌, ◌+◌, ◌<◌, ◌≤◌, [], ◌∷◌, ℕ, List, length, reverse, Err, Some, IfOk, IfErr, IsTrue};
ghost use Rattle.sha2.specs.Sha256.{sha256};
ghost use Rattle.std.specs.List.{AllByRecursion};
ghost use Rattle.tdb_append.specs.Put.{slot_place};
ghost use Rattle.tdb_base.specs.Trace.{with_read};
ghost use Rattle.tdb_base.specs.declared.piece.Digest.{Digest};
ghost use Rattle.tdb_base.specs.declared.piece.Place.{Place};
ghost use Rattle.tdb_mark.specs.declared.commit.Commit.{Commit};
ghost use Rattle.tdb_mark.specs.CommitFormat.{IsInFormat};
ghost use Rattle.tdb_mark.specs.CommitText.{commit_key_of, commit_of};
ghost use Rattle.tdb_overlay.specs.Reading.{OnlyReads};
ghost use Rattle.tdb_recover.specs.Chain.{EachLog, EndsWith, IsBehind, IsExplainedIn, IsTextOf, ReadsOnlyIn};
ghost use Rattle.tdb_recover.specs.Explained.{IsCaused, IsExplained};
ghost use Rattle.tdb_recover.specs.FirstText.{HasFirstText};
ghost use Rattle.tdb_recover.specs.Reads.{ReadsAtMost, ReadsOnly};
ghost use Rattle.tdb_recover.specs.declared.error.OpenError.TheVariants.{Fault, Form};

use crate::error::OpenError;
use std::alloc::Global;
use tdb_append::{COMMITS_PER_CHECKPOINT, slot_of};
use tdb_base::Digest;
use tdb_mark::{Commit, read_commit_with};
use tdb_overlay::{Keys, fetch_text};
use tdb_platform::Platform;

/// The texts of a log since the last checkpoint.
#[derive(Drop)]
pub(crate) struct Chain {
    /// The text of the checkpoint.
    pub base: Commit,
    /// The texts of the commits behind it, the last one first.
    pub commits: Vec<Commit>,
}

/// Reads the text that has a mark, in the slot of a count.
fn read_text<P: Platform>(
    platform: &mut P,
    keys: &Keys,
    count: u64,
    mark: &Digest,
) -> Result<Commit, OpenError>
    requires { 0 < count }
    ensures reads { OnlyReads P.outside P.crash_states platform.old platform.new }
    ensures format { IfOk result IsInFormat }
    ensures text { IsTrue (P.outside platform.old).tells → IfOk result (λ text. (c : Commit)
        → IsTextOf (P.outside platform.old).trace.written (P.outside platform.new).trace keys.now mark.now.0 c → text ≡ c) }
    // it was written under the secret
    ensures accepted { IsTrue (P.outside platform.old).tells → IfOk result (λ text. (bytes : List ℕ)
        × ((P.outside platform.new).trace ≡ with_read (P.outside platform.old).trace (slot_place count) 256 bytes)
        × (sha256 bytes ≡ mark.now.0) × (commit_of (commit_key_of keys.now) bytes ≡ Some text)) }
    ensures misread { (place : Place) → result ≡ Err (Form place) → place ≡ record { 0 = slot_place count } }
    ensures only { IsTrue (P.outside platform.old).tells
        → IfOk result (λ _. ReadsOnly (λ piece. piece
        ≡ record { place = record { 0 = slot_place count }; length = 256; digest = mark.now }) (P.outside platform.old)
        (P.outside platform.new)) }
    ensures caused { IfErr result (IsCaused (P.outside platform.old) (P.outside platform.new)) }
    ensures most { ReadsAtMost 1 (P.outside platform.old) (P.outside platform.new) }
    ensures quiet { result ≢ Err Fault → (P.outside platform.new).faults ≡ (P.outside platform.old).faults }
    ensures explained { IsTrue (P.outside platform.old).tells → IfErr result (λ error. (c : Commit)
        → IsTextOf (P.outside platform.old).trace.written (P.outside platform.new).trace keys.now mark.now.0 c
        → IsExplained (P.outside platform.old) (P.outside platform.new)
        (λ piece. piece ≡ record { place = record { 0 = slot_place count }; length = 256; digest = mark.now }) error) }
{
    let bytes = fetch_text(platform, count, mark)?;
    match read_commit_with(&bytes, keys.commit()) {
        Some(text) => Ok(text),
        None => Err(OpenError::Form {
            place: slot_of(count),
        }),
    }
}

/// Reads the last text, which the anchor names.
fn read_newest<P: Platform>(
    platform: &mut P,
    keys: &Keys,
    count: u64,
    mark: &Digest,
) -> Result<Commit, OpenError>
    requires { 0 < count }
    ensures reads { OnlyReads P.outside P.crash_states platform.old platform.new }
    ensures format { IfOk result IsInFormat }
    ensures counts { IfOk result (λ text. (text.count ≡ count) × (count ≤ text.base + 1000)) }
    ensures accepted { IsTrue (P.outside platform.old).tells
        → IfOk result (λ _. HasFirstText keys.now (count, mark.now.0) (P.outside platform.old) (P.outside platform.new)) }
    ensures ends { IfOk result (λ text. EachLog (P.outside platform.old) (P.outside platform.new) keys.now
        (λ log. log.anchor ≡ (count, mark.now.0)
        → EndsWith (P.outside platform.old).trace.written keys.now log.chain text [])) }
    ensures only { IfOk result (λ _. EachLog (P.outside platform.old) (P.outside platform.new) keys.now
        (λ log. log.anchor ≡ (count, mark.now.0)
        → ReadsOnlyIn (P.outside platform.old) (P.outside platform.new) log)) }
    ensures caused { IfErr result (IsCaused (P.outside platform.old) (P.outside platform.new)) }
    ensures most { ReadsAtMost 1 (P.outside platform.old) (P.outside platform.new) }
    ensures quiet { result ≢ Err Fault → (P.outside platform.new).faults ≡ (P.outside platform.old).faults }
    ensures explained { IfErr result (λ error. EachLog (P.outside platform.old) (P.outside platform.new) keys.now
        (λ log. log.anchor ≡ (count, mark.now.0)
        → IsExplainedIn (P.outside platform.old) (P.outside platform.new) error log)) }
{
    let text = read_text(platform, keys, count, mark)?;
    if text.count == count && text.count - text.base <= COMMITS_PER_CHECKPOINT {
        Ok(text)
    } else {
        Err(OpenError::Form {
            place: slot_of(count),
        })
    }
}

/// Reads the text before that of a commit.
fn read_before<P: Platform>(
    platform: &mut P,
    keys: &Keys,
    text: &Commit,
) -> Result<Commit, OpenError>
    requires format { IsInFormat text.now }
    requires commit { text.now.base < text.now.count }
    ensures reads { OnlyReads P.outside P.crash_states platform.old platform.new }
    ensures format { IfOk result IsInFormat }
    ensures counts { IfOk result (λ earlier. earlier.count + 1 ≡ text.now.count) }
    ensures behind { IfOk result (λ earlier. IsBehind earlier text.now) }
    ensures ends { IfOk result (λ earlier. EachLog (P.outside platform.old) (P.outside platform.new) keys.now (λ log. (later : List Commit)
        → EndsWith (P.outside platform.old).trace.written keys.now log.chain text.now later
        → EndsWith (P.outside platform.old).trace.written keys.now log.chain earlier (text.now ∷ later))) }
    ensures only { IfOk result (λ _. EachLog (P.outside platform.old) (P.outside platform.new) keys.now (λ log. (later : List Commit)
        → EndsWith (P.outside platform.old).trace.written keys.now log.chain text.now later
        → ReadsOnlyIn (P.outside platform.old) (P.outside platform.new) log)) }
    ensures caused { IfErr result (IsCaused (P.outside platform.old) (P.outside platform.new)) }
    ensures most { ReadsAtMost 1 (P.outside platform.old) (P.outside platform.new) }
    ensures quiet { result ≢ Err Fault → (P.outside platform.new).faults ≡ (P.outside platform.old).faults }
    ensures explained { IfErr result (λ error. EachLog (P.outside platform.old) (P.outside platform.new) keys.now
        (λ log. (later : List Commit)
        → EndsWith (P.outside platform.old).trace.written keys.now log.chain text.now later
        → IsExplainedIn (P.outside platform.old) (P.outside platform.new) error log)) }
{
    let count = text.count - 1;
    let earlier = read_text(platform, keys, count, &text.prev)?;
    if earlier.count == count
        && earlier.base == text.base
        && earlier.suite == text.suite
        && earlier.segments == text.segments
    {
        Ok(earlier)
    } else {
        Err(OpenError::Form {
            place: slot_of(count),
        })
    }
}

/// Reads the texts from the anchor's back to that of the last checkpoint.
pub(crate) fn read_chain<P: Platform>(
    alloc: Global,
    platform: &mut P,
    keys: &Keys,
    count: u64,
    mark: &Digest,
) -> Result<Chain, OpenError>
    requires { 0 < count }
    ensures reads { OnlyReads P.outside P.crash_states platform.old platform.new }
    ensures format { IfOk result (λ chain. IsInFormat chain.base) }
    ensures base { IfOk result (λ chain. chain.base.base ≡ chain.base.count) }
    ensures counts { IfOk result (λ chain. (chain.base.count ≤ count) × (count ≤ chain.base.count + 1000)) }
    ensures commits { IfOk result (λ chain. AllByRecursion (IsBehind chain.base) (reverse chain.commits.items)) }
    ensures accepted { IsTrue (P.outside platform.old).tells
        → IfOk result (λ _. HasFirstText keys.now (count, mark.now.0) (P.outside platform.old) (P.outside platform.new)) }
    ensures ends { IfOk result (λ chain. EachLog (P.outside platform.old) (P.outside platform.new) keys.now
        (λ log. log.anchor ≡ (count, mark.now.0)
        → EndsWith (P.outside platform.old).trace.written keys.now log.chain chain.base (reverse chain.commits.items))) }
    ensures only { IfOk result (λ _. EachLog (P.outside platform.old) (P.outside platform.new) keys.now
        (λ log. log.anchor ≡ (count, mark.now.0)
        → ReadsOnlyIn (P.outside platform.old) (P.outside platform.new) log)) }
    ensures caused { IfErr result (IsCaused (P.outside platform.old) (P.outside platform.new)) }
    ensures many { IfOk result (λ chain. length chain.commits.items + chain.base.count ≡ count) }
    ensures most { ReadsAtMost 1001 (P.outside platform.old) (P.outside platform.new) }
    ensures most_ok { IfOk result (λ chain. ReadsAtMost (length chain.commits.items + 1) (P.outside platform.old)
        (P.outside platform.new)) }
    ensures quiet { result ≢ Err Fault → (P.outside platform.new).faults ≡ (P.outside platform.old).faults }
    ensures explained { IfErr result (λ error. EachLog (P.outside platform.old) (P.outside platform.new) keys.now
        (λ log. log.anchor ≡ (count, mark.now.0)
        → IsExplainedIn (P.outside platform.old) (P.outside platform.new) error log)) }
{
    let mut text = read_newest(platform, keys, count, mark)?;
    let mut commits = Vec::new(alloc);
    while text.base < text.count {
        let earlier = read_before(platform, keys, &text)?;
        commits.push(text)?;
        text = earlier;
    }
    Ok(Chain {
        base: text,
        commits,
    })
}
