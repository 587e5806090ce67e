//! The list of a commit's changes.
ghost use Rattle.std.specs.Prelude.{◌≡◌, ◌<◌, ◌≤◌, ◌^◌, ◌++◌, ◌*◌, ◌+◌, ℕ, List, IfOk, IfErr, IfSome, IfNone, length, codes};
ghost use Rattle.std.specs.Int.{w32, to_be_bytes};
ghost use Rattle.tdb_list.specs.declared.entry.Entry.{Entry};
ghost use Rattle.tdb_list.specs.declared.list.ListError.TheVariants.{Form, Memory};
ghost use Rattle.tdb_list.specs.ChangeList.{list_bytes, IsList, IsChangeList};

use crate::entry::{ENTRY_LENGTH, Entry, push_entry, split_entry};
use std::alloc::{AllocError, AllocFailed, Global};
use tdb_base::{push_bytes, push_u32, split_u32};
use thiserror::Error;

const MAGIC: [u8; 8] = *b"TDBLST01";

/// The length of what stands in front of the entries: magic, number of entries and four zeros.
const HEAD_LENGTH: usize = 16;

/// The greatest number of entries.
const ENTRY_LIMIT: usize = 1_024;

/// A list of changes that wasn't read.
#[derive(Clone, Copy, Debug, PartialEq, Eq, Error)]
pub enum ListError {
    /// The bytes spell no list of changes.
    #[error("the bytes are no list of changes")]
    Form,
    /// Memory ran out.
    #[error("memory ran out")]
    Memory,
}

impl From<AllocError> for ListError {
    ghost from_gives = { λ _ error. error ≡ Memory };

    fn from(_error: AllocError) -> ListError {
        ListError::Memory
    }
}

impl<T: Drop> From<AllocFailed<T>> for ListError {
    ghost from_gives = { λ _ error. error ≡ Memory };

    fn from(_error: AllocFailed<T>) -> ListError {
        ListError::Memory
    }
}

/// The one spelling of a list of entries, 16 + 72 n bytes.
pub fn write_list(alloc: Global, entries: &[Entry]) -> Result<Vec<u8>, AllocError>
    requires { IsList entries.now }
    ensures { IfOk result (λ bytes. bytes.items ≡ list_bytes entries.now) }
{
    let mut bytes = Vec::with_capacity(alloc, HEAD_LENGTH + ENTRY_LENGTH * entries.len())?;
    push_bytes(&mut bytes, &MAGIC)?;
    push_u32(&mut bytes, entries.len() as u32)?;
    push_u32(&mut bytes, 0)?;
    for entry in entries {
        push_entry(&mut bytes, entry)?;
    }
    Ok(bytes)
}

/// The number of entries and their bytes, or `None` where what stands in front of the entries,
/// or the length, is that of no list.
fn split_head(bytes: &[u8]) -> Option<(usize, &[u8])>
    ensures some { IfSome result (λ parts. (1 ≤ parts.0) × (parts.0 ≤ 1024) × (length parts.1.now ≡ 72 * parts.0)
        × (bytes.now ≡ codes "TDBLST01" ++ to_be_bytes w32 parts.0 ++ to_be_bytes w32 0 ++ parts.1.now)) }
    ensures none { IfNone result ((entries : List Entry) → IsChangeList entries bytes.now → ⊥) }
{
    if bytes.len() < HEAD_LENGTH {
        return None;
    }
    let (magic, rest) = bytes.split_at(MAGIC.len());
    let (count, rest) = split_u32(rest);
    let (zero, rest) = split_u32(rest);
    let count = count as usize;
    if magic == MAGIC.as_slice()
        && zero == 0
        && 1 <= count
        && count <= ENTRY_LIMIT
        && rest.len() == ENTRY_LENGTH * count
    {
        Some((count, rest))
    } else {
        None
    }
}

/// The entries that the bytes spell.
pub fn read_list(alloc: Global, bytes: &[u8]) -> Result<Vec<Entry>, ListError>
    ensures found { IfOk result (λ entries. IsChangeList entries.items bytes.now) }
    ensures form { result ≡ Err Form → (entries : List Entry) → IsChangeList entries bytes.now → ⊥ }
{
    let Some((count, mut rest)) = split_head(bytes) else {
        return Err(ListError::Form);
    };
    let mut entries = Vec::with_capacity(alloc, count)?;
    for _ in 0..count {
        let (entry, behind) = split_entry(rest);
        if !entry.is_well_formed() {
            return Err(ListError::Form);
        }
        entries.push(entry)?;
        rest = behind;
    }
    Ok(entries)
}
