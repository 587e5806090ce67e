// The history of an anchor, read from the pieces that were written as its definition says it: slowly, and with no code
// of the crates below. Nothing is looked for at its place, only by its digest.
use crate::fields::{
    derived_key, hmac, is_partition, is_zero, lies_in_one_segment, number, starts_with,
};
use sha2::{Digest, Sha256};
use std::alloc::{AllocError, Global};

/// A change of a commit.
#[derive(Debug, Drop, PartialEq, Eq)]
pub enum Change {
    /// The chunk of this partition and rank has these bytes.
    Write(u64, u64, Vec<u8>),
    /// The chunk of this partition and rank is gone.
    Free(u64, u64),
    /// An empty partition of this number, in the suite of this number.
    Make(u64, u64),
    /// The second partition is a frozen copy of the first.
    Copied(u64, u64),
    /// The partition is gone.
    Gone(u64),
}

/// A commit.
#[derive(Debug, Drop, PartialEq, Eq)]
pub struct Commit {
    /// Its count.
    pub count: u64,
    /// What it changes, in order.
    pub changes: Vec<Change>,
}

/// Why no history is given.
#[derive(Clone, Copy, Debug, PartialEq, Eq)]
pub enum NoHistory {
    /// The pieces tell none.
    Untold,
    /// No memory was left.
    Memory,
}

impl From<AllocError> for NoHistory {
    fn from(_error: AllocError) -> NoHistory {
        NoHistory::Memory
    }
}

/// A store, by what its owner knows of it.
#[derive(Clone, Copy)]
pub struct Store<'a> {
    /// Its secret, of 32 bytes.
    pub secret: &'a [u8],
    /// Its number of segments.
    pub segments: u64,
}

// What of a commit text the history depends on. A mark is the digest of a text, and `first` that of a list or a table.
#[derive(Clone, Copy)]
struct Text<'a> {
    kind: u64,
    suite: u64,
    count: u64,
    segments: u64,
    previous: &'a [u8],
    first: &'a [u8],
}

/// The commits of the chain of texts that ends at the anchor of this count and mark, oldest first, by the pieces that
/// were ever written, in any order. `Untold` where they tell no such chain, `Memory` where none was left.
pub fn history(
    alloc: Global,
    pieces: &[Vec<u8>],
    store: &Store<'_>,
    count: u64,
    mark: &[u8],
) -> Result<Vec<Commit>, NoHistory> {
    let mut commits = Vec::new(alloc);
    for text in &chain(alloc, pieces, store.secret, count, mark)? {
        if text.segments != store.segments {
            return Err(NoHistory::Untold);
        }
        if text.kind == 1 {
            let changes = read_changes(alloc, pieces, text)?;
            let count = text.count;
            let commit = Commit { count, changes };
            commits.push(commit).map_err(AllocError::from)?;
        } else if has_table(pieces, text).is_none() {
            return Err(NoHistory::Untold);
        }
    }
    Ok(commits)
}

// The table that a checkpoint's text names has as many segments as the text says, and no further segment is used in it.
fn has_table(pieces: &[Vec<u8>], text: &Text<'_>) -> Option<()> {
    let table = opened(found(pieces, text.first)?, 4, text.suite, 0, 0)?;
    let fits = table.len() == 528
        && starts_with(table, b"TDBSEG01")
        && number(table, 8, 4)? == text.segments
        && is_zero(table, 12, 16);
    for segment in 0..4096u64 {
        let word = number(table, 16 + 8 * (segment / 64) as usize, 8)?;
        if segment >= text.segments && (word >> (segment % 64)) % 2 == 1 {
            return None;
        }
    }
    if fits { Some(()) } else { None }
}

// The texts from count 1 to the anchor's. Each names the one before it by its digest, and the first names 32 zeros.
fn chain<'a>(
    alloc: Global,
    pieces: &'a [Vec<u8>],
    secret: &[u8],
    count: u64,
    mark: &[u8],
) -> Result<Vec<Text<'a>>, NoHistory> {
    let key = derived_key(alloc, secret, b"TDBcommt", 0, 0)?;
    let mut mark = mark.to_vec(alloc)?;
    let mut texts = Vec::new(alloc);
    for number in (1..=count).rev() {
        let bytes = found(pieces, &mark).ok_or(NoHistory::Untold)?;
        let text = read_text(bytes).ok_or(NoHistory::Untold)?;
        let tag = hmac(alloc, &key, bytes.get(..224).ok_or(NoHistory::Untold)?)?;
        if bytes.get(224..) != Some(tag.as_slice()) || text.count != number {
            return Err(NoHistory::Untold);
        }
        mark = text.previous.to_vec(alloc)?;
        texts.push(text).map_err(AllocError::from)?;
    }
    if count > 0 && mark.iter().any(|byte| *byte != 0) {
        return Err(NoHistory::Untold);
    }
    texts.reverse();
    Ok(texts)
}

// The changes of the list that a commit's text names.
fn read_changes(
    alloc: Global,
    pieces: &[Vec<u8>],
    text: &Text<'_>,
) -> Result<Vec<Change>, NoHistory> {
    let sealed = found(pieces, text.first).ok_or(NoHistory::Untold)?;
    let list = opened(sealed, 5, text.suite, 0, 0).ok_or(NoHistory::Untold)?;
    let entries = entries_of(list).ok_or(NoHistory::Untold)?;
    let mut changes = Vec::new(alloc);
    for entry in entries.chunks(72) {
        let change = read_entry(alloc, pieces, entry)?;
        changes.push(change).map_err(AllocError::from)?;
    }
    Ok(changes)
}

// The bytes of the entries of a list: 72 for each of as many as its head says.
fn entries_of(list: &[u8]) -> Option<&[u8]> {
    let count = number(list, 8, 4)?;
    let entries = list.get(16..)?;
    let fits = starts_with(list, b"TDBLST01")
        && (1..=1024).contains(&count)
        && is_zero(list, 12, 16)
        && entries.len() as u64 == count * 72;
    if fits { Some(entries) } else { None }
}

// The change that the 72 bytes of an entry say.
fn read_entry(alloc: Global, pieces: &[Vec<u8>], entry: &[u8]) -> Result<Change, NoHistory> {
    if number(entry, 0, 4) == Some(1) {
        return read_write(alloc, pieces, entry);
    }
    read_names(entry).ok_or(NoHistory::Untold)
}

// The change of an entry that names no piece.
fn read_names(entry: &[u8]) -> Option<Change> {
    let part = number(entry, 4, 4)?;
    let second = number(entry, 8, 4)?;
    let suite = number(entry, 12, 4)?;
    if !is_partition(part) || !is_zero(entry, 16, 72) {
        return None;
    }
    match number(entry, 0, 4)? {
        2 if second < 262_144 && suite == 0 => Some(Change::Free(part, second)),
        3 if second == 0 && suite <= 2 => Some(Change::Make(part, suite)),
        4 if is_partition(second) && suite == 0 => Some(Change::Copied(part, second)),
        5 if second == 0 && suite == 0 => Some(Change::Gone(part)),
        _ => None,
    }
}

// The write of an entry: the chunk's bytes are those of its record.
fn read_write(alloc: Global, pieces: &[Vec<u8>], entry: &[u8]) -> Result<Change, NoHistory> {
    let part = number(entry, 4, 4).ok_or(NoHistory::Untold)?;
    let rank = number(entry, 8, 4).ok_or(NoHistory::Untold)?;
    let chunk = written_chunk(pieces, entry, part, rank).ok_or(NoHistory::Untold)?;
    Ok(Change::Write(part, rank, chunk.to_vec(alloc)?))
}

fn written_chunk<'a>(
    pieces: &'a [Vec<u8>],
    entry: &[u8],
    part: u64,
    rank: u64,
) -> Option<&'a [u8]> {
    let suite = number(entry, 12, 4)?;
    let home = number(entry, 16, 4)?;
    let length = number(entry, 20, 4)?;
    let birth = number(entry, 24, 8)?;
    let place = number(entry, 32, 8)?;
    let fits = is_partition(part)
        && rank < 262_144
        && suite <= 2
        && is_partition(home)
        && birth >= 1
        && lies_in_one_segment(place, length);
    if !fits {
        return None;
    }
    opened(found(pieces, entry.get(40..)?)?, 1, suite, home, rank)
}

// The bytes of a digest: those of the first piece that has it.
fn found<'a>(pieces: &'a [Vec<u8>], digest: &[u8]) -> Option<&'a [u8]> {
    for piece in pieces {
        if Sha256::digest(piece).as_slice() == digest {
            return Some(piece);
        }
    }
    None
}

// The plain text of a sealed record. The only suite yet is that without a cipher: there the key doesn't matter.
fn opened(bytes: &[u8], kind: u64, suite: u64, home: u64, rank: u64) -> Option<&[u8]> {
    let plain = bytes.get(48..)?;
    let length = plain.len() as u64;
    let fits = starts_with(bytes, b"TDBREC01")
        && number(bytes, 8, 4)? == kind
        && suite == 0
        && number(bytes, 12, 4)? == suite
        && number(bytes, 16, 4)? == home
        && number(bytes, 20, 4)? == rank
        && number(bytes, 24, 4)? == length
        && number(bytes, 28, 4)? == length
        && is_zero(bytes, 32, 48)
        && length <= 1_048_576;
    if fits { Some(plain) } else { None }
}

// The fields of a commit text, apart from its tag.
fn read_text(bytes: &[u8]) -> Option<Text<'_>> {
    let (kind, suite) = (number(bytes, 8, 4)?, number(bytes, 12, 4)?);
    let (count, base) = (number(bytes, 16, 8)?, number(bytes, 56, 8)?);
    let segments = number(bytes, 64, 4)?;
    let is_commit = kind == 1 && base < count && is_zero(bytes, 112, 160);
    let is_checkpoint = kind == 2 && base == count && is_root(bytes)?;
    let fits = bytes.len() == 256
        && starts_with(bytes, b"TDBCMT01")
        && suite <= 2
        && base >= 1
        && (is_commit || is_checkpoint)
        && (16..=4096).contains(&segments)
        && lies_in_one_segment(number(bytes, 72, 8)?, number(bytes, 68, 4)?)
        && is_zero(bytes, 160, 224);
    if !fits {
        return None;
    }
    Some(Text {
        kind,
        suite,
        count,
        segments,
        previous: bytes.get(24..56)?,
        first: bytes.get(80..112)?,
    })
}

// Whether a text has a roster's root in its form, or none.
fn is_root(bytes: &[u8]) -> Option<bool> {
    let root = number(bytes, 112, 4)? == 1
        && lies_in_one_segment(number(bytes, 120, 8)?, number(bytes, 116, 4)?);
    Some(root || is_zero(bytes, 112, 160))
}
