//! The items of a stream: a chunk's bytes, or that a chunk is gone.
ghost use Rattle.std.specs.Prelude.{◌≡◌, ◌≤◌, ◌++◌, ℕ, List, IfOk, length};
ghost use Rattle.std.specs.Int.{w32, to_be_bytes};
ghost use Rattle.tdb_bakfmt.specs.declared.item.Item.{Item};
ghost use Rattle.tdb_bakfmt.specs.declared.item.ItemError.TheVariants.{Form, Memory};
ghost use Rattle.tdb_bakfmt.specs.Item.{IsItem, IsItemText, IsKept, item_head, item_name};

use crate::header::{Header, INCREMENTAL};
use std::alloc::{AllocError, Global};
use tdb_base::{Bytes, Key, push_bytes, push_u32, split_u32};
use tdb_model::{CHUNK_LIMIT, RANK_LIMIT};
use tdb_seal::{Name, SealError, read_record, seal_record};
use thiserror::Error;

/// The kind of the record of an item.
const ITEM: u32 = 6;

/// The number that an item with bytes begins with.
const KEPT: u32 = 1;

/// The number that an absence begins with.
const ABSENT: u32 = 2;

/// The number of bytes in front of an item's record.
const KEPT_HEAD: usize = 12;

/// The number of bytes of an absence.
const ABSENT_LENGTH: usize = 8;

/// A chunk of the part that was backed up.
#[derive(Debug, Drop)]
pub struct Item {
    /// The chunk's rank, below 262,144.
    pub rank: u32,
    /// Its bytes, 65,536 at most, or `None` where the base has the chunk and the part doesn't.
    pub bytes: Option<Bytes>,
}

/// An item that wasn't read.
#[derive(Clone, Copy, Debug, PartialEq, Eq, Error)]
pub enum ItemError {
    /// The bytes are no item under the header and the key.
    #[error("the bytes are no item of this stream")]
    Form,
    /// Memory ran out.
    #[error("memory ran out")]
    Memory,
}

/// The one spelling of an item under a stream's header and the backup's key.
pub fn write_item(
    alloc: Global,
    header: &Header,
    key: &Key,
    item: &Item,
) -> Result<Vec<u8>, AllocError>
    requires { IsItem header.now item.now }
    ensures { IfOk result (λ bytes. IsItemText header.now key.now.0 item.now bytes.items) }
{
    match &item.bytes {
        Some(bytes) => write_kept(alloc, header, key, item.rank, bytes.as_slice()),
        None => write_absence(alloc, item.rank),
    }
}

/// The item that the bytes spell under a stream's header and the backup's key.
pub fn read_item(alloc: Global, header: &Header, key: &Key, bytes: &[u8]) -> Result<Item, ItemError>
    ensures found { IfOk result (λ item. IsItemText header.now key.now.0 item bytes.now) }
    ensures form { result ≡ Err Form → (item : Item) → IsItemText header.now key.now.0 item bytes.now → ⊥ }
{
    if bytes.len() < ABSENT_LENGTH {
        return Err(ItemError::Form);
    }
    let (kind, behind) = split_u32(bytes);
    let (rank, rest) = split_u32(behind);
    if rank >= RANK_LIMIT {
        return Err(ItemError::Form);
    }
    if kind == KEPT {
        return match read_kept(alloc, header, key, rank, rest) {
            Ok(plain) => Ok(Item {
                rank,
                bytes: Some(Bytes::new(plain)),
            }),
            Err(error) => Err(error),
        };
    }
    if kind == ABSENT && header.kind == INCREMENTAL && rest.is_empty() {
        Ok(Item { rank, bytes: None })
    } else {
        Err(ItemError::Form)
    }
}

/// The name of an item's record.
fn name_of(header: &Header, rank: u32) -> Name
    ensures { result ≡ item_name header.now rank }
{
    Name {
        kind: ITEM,
        suite: header.suite,
        home: header.part,
        rank,
    }
}

fn write_kept(
    alloc: Global,
    header: &Header,
    key: &Key,
    rank: u32,
    plain: &[u8],
) -> Result<Vec<u8>, AllocError>
    requires { length plain.now ≤ CHUNK_LIMIT }
    ensures { IfOk result (λ bytes. IsKept header.now key.now.0 rank plain.now bytes.items) }
{
    let sealed = seal_record(alloc, key, &name_of(header, rank), plain)?;
    let mut bytes = Vec::with_capacity(alloc, KEPT_HEAD + sealed.len())?;
    push_u32(&mut bytes, KEPT)?;
    push_u32(&mut bytes, rank)?;
    push_u32(&mut bytes, sealed.len() as u32)?;
    push_bytes(&mut bytes, sealed.as_slice())?;
    Ok(bytes)
}

fn write_absence(alloc: Global, rank: u32) -> Result<Vec<u8>, AllocError>
    ensures { IfOk result (λ bytes. bytes.items ≡ item_head 2 rank) }
{
    let mut bytes = Vec::with_capacity(alloc, ABSENT_LENGTH)?;
    push_u32(&mut bytes, ABSENT)?;
    push_u32(&mut bytes, rank)?;
    Ok(bytes)
}

/// The chunk's bytes, by what stands behind an item's rank.
fn read_kept(
    alloc: Global,
    header: &Header,
    key: &Key,
    rank: u32,
    rest: &[u8],
) -> Result<Vec<u8>, ItemError>
    ensures found { IfOk result (λ plain. IsKept header.now key.now.0 rank plain.items (item_head 1 rank ++ rest.now)) }
    ensures form { result ≡ Err Form → (plain : List ℕ) → IsKept header.now key.now.0 rank plain (item_head 1 rank ++ rest.now) → ⊥ }
{
    if rest.len() < KEPT_HEAD - ABSENT_LENGTH {
        return Err(ItemError::Form);
    }
    let (length, sealed) = split_u32(rest);
    if length as usize != sealed.len() {
        return Err(ItemError::Form);
    }
    let plain = match read_record(alloc, key, &name_of(header, rank), sealed) {
        Ok(plain) => plain,
        Err(SealError::Form) => return Err(ItemError::Form),
        Err(SealError::Memory) => return Err(ItemError::Memory),
    };
    if plain.len() > CHUNK_LIMIT {
        return Err(ItemError::Form);
    }
    Ok(plain)
}
