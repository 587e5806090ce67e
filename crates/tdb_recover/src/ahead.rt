//! Reading ahead of a log: the commit that was begun behind it, where the device shows one whole.
ghost use Rattle.std.specs.Prelude.{◌≡◌, ◌↔◌, ◌<◌, ℕ, List, length, IfErr, IfNone, IfOk, IfSome, is_some, IsTrue};
ghost use Rattle.std.specs.List.{AllByRecursion};
ghost use Rattle.sha2.specs.Sha256.{sha256};
ghost use Rattle.tdb_list.specs.declared.entry.Entry.{Entry as EntryValue};
ghost use Rattle.tdb_overlay.specs.Changes.{named_records};
ghost use Rattle.tdb_overlay.specs.Growth.{IsSettled};
ghost use Rattle.tdb_overlay.specs.Placement.{LiesBelow};
ghost use Rattle.tdb_overlay.specs.Reading.{OnlyReads};
ghost use Rattle.tdb_recover.specs.Ahead.{Asked, AsksAhead, AsksList, Follows, IsAsShown, IsListed, IsMemberList, MayFollow, Sees};
ghost use Rattle.tdb_recover.specs.AheadSteps.{IsFoundBy, IsFoundIn, IsOneRead};
ghost use Rattle.tdb_recover.specs.Reads.{ReadsAtMost};
ghost use Rattle.tdb_recover.specs.declared.error.OpenError.TheVariants.{Memory};

use crate::error::OpenError;
use sha2::{Digest as _, Sha256};
use std::alloc::Global;
use tdb_append::{COMMITS_PER_CHECKPOINT, Head, slot_of};
use tdb_base::{Digest, Place};
use tdb_list::{Entry, ListError, read_list};
use tdb_mark::{COMMIT, Commit, read_commit_with};
use tdb_overlay::{Keys, Recovered};
use tdb_platform::Platform;
use tdb_seal::{Name, SealError};
use tdb_seg::Segments;

/// How many bytes a commit text has.
const TEXT_LENGTH: u32 = 256;

/// The kind of the record of a change list.
const LIST: u32 = 5;

/// The kind of an entry that names the record of a chunk.
const WRITE: u32 = 1;

/// A commit that was begun behind a log, and was shown whole.
#[derive(Drop)]
pub struct Pending {
    /// What its text says.
    pub commit: Commit,
    /// The digest of its text, which the anchor gets with it.
    pub mark: Digest,
    /// The entries of its list.
    pub entries: Vec<Entry>,
}

/// A commit whose text the next slot showed.
#[derive(Clone, Copy)]
pub(crate) struct Member {
    /// What the text says.
    pub commit: Commit,
    /// The digest of the text.
    pub mark: Digest,
}

/// Reads once, and gives what is shown, whatever it is.
fn show<P: Platform>(
    alloc: Global,
    platform: &mut P,
    place: Place,
    length: u32,
) -> Result<Vec<u8>, OpenError>
    ensures most { ReadsAtMost 1 (P.outside platform.old) (P.outside platform.new) }
    ensures asks { Sees P.outside P.crash_states platform.old platform.new result
        (λ reads bytes. IsOneRead place.0 length bytes.items reads) }
{
    let Ok(mut bytes) = vec![in alloc; 0u8; length as usize] else {
        return Err(OpenError::Memory);
    };
    let Ok(count) = platform.read(place.0, bytes.as_mut_slice()) else {
        return Err(OpenError::Fault);
    };
    bytes.truncate(count);
    Ok(bytes)
}

/// Whether the bytes have a digest.
fn has_digest(bytes: &[u8], digest: &Digest) -> bool
    ensures { IsTrue result ↔ (sha256 bytes.now ≡ digest.now.0) }
{
    Digest(Sha256::digest(bytes)) == *digest
}

/// Whether a commit may follow the text.
fn may_follow(head: &Head) -> bool
    ensures { IsTrue result ↔ MayFollow head.now }
{
    head.count < u64::MAX && head.count < head.base.saturating_add(COMMITS_PER_CHECKPOINT)
}

/// Whether two digests are one.
fn is_same(one: &Digest, other: &Digest) -> bool
    ensures { IsTrue result ↔ (one.now ≡ other.now) }
{
    *one == *other
}

/// Whether what a text says is the commit that comes next behind the log.
fn follows(log: &Recovered, text: &Commit) -> bool
    requires { log.now.head.count < 18446744073709551615 }
    ensures { IsTrue result ↔ Follows log.now text.now }
{
    text.kind == COMMIT
        && text.count == log.head.count + 1
        && is_same(&text.prev, &log.head.mark)
        && text.base == log.head.base
        && text.suite == log.suite
        && text.segments == log.segments.segments()
        && log.segments.holds(&text.first)
}

/// The commit whose text the bytes are, if it comes next behind the log.
fn member_in(keys: &Keys, log: &Recovered, bytes: &[u8]) -> Option<Member>
    requires { log.now.head.count < 18446744073709551615 }
    ensures { IsFoundIn keys.now log.now bytes.now result }
{
    let Some(commit) = read_commit_with(bytes, keys.commit()) else {
        return None;
    };
    if !follows(log, &commit) {
        return None;
    }
    Some(Member {
        commit,
        mark: Digest(Sha256::digest(bytes)),
    })
}

/// Reads the next slot: a commit behind the log, if it shows one.
fn find_member<P: Platform>(
    alloc: Global,
    platform: &mut P,
    keys: &Keys,
    log: &Recovered,
) -> Result<Option<Member>, OpenError>
    requires { log.now.head.count < 18446744073709551615 }
    ensures most { ReadsAtMost 1 (P.outside platform.old) (P.outside platform.new) }
    ensures asks { Sees P.outside P.crash_states platform.old platform.new result (IsFoundBy keys.now log.now) }
{
    match show(alloc, platform, slot_of(log.head.count + 1), TEXT_LENGTH) {
        Ok(bytes) => Ok(member_in(keys, log, bytes.as_slice())),
        Err(error) => Err(error),
    }
}

/// Whether the records that a list names lie in the segments.
fn records_lie(segments: &Segments, entries: &[Entry]) -> bool
    ensures { IsTrue result ↔ AllByRecursion (LiesBelow segments.now.segments) (named_records entries.now) }
{
    for entry in entries {
        if entry.kind == WRITE && !segments.holds(&entry.piece) {
            return false;
        }
    }
    true
}

/// The entries of a commit's list, if the bytes are that and its records lie in the log's segments.
fn list_in(
    alloc: Global,
    keys: &Keys,
    log: &Recovered,
    commit: &Commit,
    bytes: &[u8],
) -> Result<Option<Vec<Entry>>, OpenError>
    ensures some { IfOk result (λ found. IfSome found (λ entries. IsMemberList keys.now log.now commit.now bytes.now entries.items)) }
    ensures none { IfOk result (λ found. IfNone found ((entries : List EntryValue)
        → IsMemberList keys.now log.now commit.now bytes.now entries → ⊥)) }
    ensures memory { IfErr result (λ error. error ≡ Memory) }
{
    if !has_digest(bytes, &commit.first.digest) {
        return Ok(None);
    }
    let name = Name {
        kind: LIST,
        suite: commit.suite,
        home: 0,
        rank: 0,
    };
    let plain = match keys.read_system(alloc, &name, bytes) {
        Ok(plain) => plain,
        Err(SealError::Form) => return Ok(None),
        Err(SealError::Memory) => return Err(OpenError::Memory),
    };
    let entries = match read_list(alloc, plain.as_slice()) {
        Ok(entries) => entries,
        Err(ListError::Form) => return Ok(None),
        Err(ListError::Memory) => return Err(OpenError::Memory),
    };
    if records_lie(&log.segments, entries.as_slice()) {
        Ok(Some(entries))
    } else {
        Ok(None)
    }
}

/// Reads the records that a list names, up to the first that isn't shown with its digest. Whether
/// there is none such.
fn ask_records<P: Platform>(
    alloc: Global,
    platform: &mut P,
    entries: &[Entry],
) -> Result<bool, OpenError>
    ensures most { ReadsAtMost (length (named_records entries.now)) (P.outside platform.old) (P.outside platform.new) }
    ensures asks { Sees P.outside P.crash_states platform.old platform.new result (Asked (named_records entries.now)) }
{
    for entry in entries {
        if entry.kind != WRITE {
            continue;
        }
        let bytes = match show(alloc, platform, entry.piece.place, entry.piece.length) {
            Ok(bytes) => bytes,
            Err(error) => return Err(error),
        };
        if !has_digest(bytes.as_slice(), &entry.piece.digest) {
            return Ok(false);
        }
    }
    Ok(true)
}

/// Reads the list of a commit, and the records that it names.
fn ask_list<P: Platform>(
    alloc: Global,
    platform: &mut P,
    keys: &Keys,
    log: &Recovered,
    commit: &Commit,
) -> Result<Option<Vec<Entry>>, OpenError>
    ensures most { ReadsAtMost 1025 (P.outside platform.old) (P.outside platform.new) }
    ensures asks { Sees P.outside P.crash_states platform.old platform.new result
        (λ reads found. AsksList keys.now log.now commit.now reads (is_some found)
        × IfSome found (λ entries. IsListed keys.now log.now commit.now entries.items reads)) }
{
    let bytes = match show(alloc, platform, commit.first.place, commit.first.length) {
        Ok(bytes) => bytes,
        Err(error) => return Err(error),
    };
    let entries = match list_in(alloc, keys, log, commit, bytes.as_slice()) {
        Ok(Some(entries)) => entries,
        Ok(None) => return Ok(None),
        Err(error) => return Err(error),
    };
    match ask_records(alloc, platform, entries.as_slice()) {
        Ok(true) => Ok(Some(entries)),
        Ok(false) => Ok(None),
        Err(error) => Err(error),
    }
}

/// Looks for a commit that was begun behind a log and not acknowledged. It only reads.
///
/// It reads the slot behind the log's last text, if a commit may follow; where that shows the next
/// commit, its list; and where that was shown too, the records that it names, up to the first
/// without its digest. It gives the commit where all were shown. At most 1,026 pieces are read: a
/// list names at most 1,024 records.
///
/// `Fault` and `Memory` are the only errors: what isn't whole is passed over.
pub fn look_ahead<P: Platform>(
    alloc: Global,
    platform: &mut P,
    keys: &Keys,
    log: &Recovered,
) -> Result<Option<Pending>, OpenError>
    // nothing is written, and a stop leaves nothing new
    ensures reads { OnlyReads P.outside P.crash_states platform.old platform.new }
    ensures settled { IsSettled P.outside P.crash_states platform.old → IsSettled P.outside P.crash_states platform.new }
    // what is asked for, and whether a commit is given, follows from what is shown; what is given is what was shown
    ensures asks { Sees P.outside P.crash_states platform.old platform.new result
        (λ reads pending. AsksAhead keys.now log.now reads (is_some pending)
        × IfSome pending (IsAsShown keys.now log.now reads)) }
    // at most 1,026 pieces are read, and none where no commit may follow
    ensures most { ReadsAtMost 1026 (P.outside platform.old) (P.outside platform.new) }
    ensures none { (MayFollow log.now.head → ⊥) → ReadsAtMost 0 (P.outside platform.old) (P.outside platform.new) }
{
    if !may_follow(&log.head) {
        return Ok(None);
    }
    let member = match find_member(alloc, platform, keys, log) {
        Ok(Some(member)) => member,
        Ok(None) => return Ok(None),
        Err(error) => return Err(error),
    };
    match ask_list(alloc, platform, keys, log, &member.commit) {
        Ok(Some(entries)) => Ok(Some(Pending {
            commit: member.commit,
            mark: member.mark,
            entries,
        })),
        Ok(None) => Ok(None),
        Err(error) => Err(error),
    }
}
