//! The record of a plain text, its name, and how it is sealed and read.
ghost use Rattle.std.specs.Prelude.{◌≡◌, ℕ, ◌≤◌, List, IfOk, length};
ghost use Rattle.tdb_seal.specs.declared.record.SealError.TheVariants.{Form, Memory};
ghost use Rattle.tdb_seal.specs.SealedRecord.{record_head, IsSealedRecord};

use crate::key::{RecordKey, read_record_with, seal_record_with};
use std::alloc::{AllocError, Global};
use tdb_base::{Key, Suite, put_bytes, put_u32};
use thiserror::Error;

const MAGIC: [u8; 8] = *b"TDBREC01";

/// The length of magic, name and lengths.
pub(crate) const HEAD_LENGTH: usize = 32;

/// The length of an initial vector.
pub(crate) const VECTOR_LENGTH: usize = 16;

/// The greatest length of a plain text.
pub const PLAIN_LIMIT: usize = 1_048_576;

/// What a record is: a chunk, a node, a leader, a table, a list or an item of a backup, and of
/// which partition.
#[derive(Clone, Copy, Debug, PartialEq, Eq)]
pub struct Name {
    /// 1 chunk, 3 leader, 4 table, 5 list, 6 backup item, 16 + level for a node.
    pub kind: u32,
    /// How the record is enciphered.
    pub suite: Suite,
    /// The partition that was made with the record's key, 0 for records of the system.
    pub home: u32,
    /// The rank of a chunk, or the first one that a node covers.
    pub rank: u32,
}

/// A record that wasn't read.
#[derive(Clone, Copy, Debug, PartialEq, Eq, Error)]
pub enum SealError {
    /// The bytes are the record of no plain text under the key and the name.
    #[error("the bytes are no record of this name")]
    Form,
    /// Memory ran out.
    #[error("memory ran out")]
    Memory,
}

impl From<AllocError> for SealError {
    ghost from_gives = { λ _ error. error ≡ Memory };

    fn from(_error: AllocError) -> SealError {
        SealError::Memory
    }
}

/// What stands in front of the initial vector.
pub(crate) fn head_of(name: &Name, plain_length: u32, body_length: u32) -> [u8; 32]
    ensures { result ≡ record_head name.now plain_length body_length }
{
    let mut head = [0; HEAD_LENGTH];
    put_bytes(&mut head, 0, &MAGIC);
    put_u32(&mut head, 8, name.kind);
    put_u32(&mut head, 12, name.suite.number());
    put_u32(&mut head, 16, name.home);
    put_u32(&mut head, 20, name.rank);
    put_u32(&mut head, 24, plain_length);
    put_u32(&mut head, 28, body_length);
    head
}

/// The record of a plain text under a key and a name, sealed under the suite of the name. It is 48
/// bytes longer than the text's body: the text itself, or its whole blocks with the padding.
pub fn seal_record(
    alloc: Global,
    key: &Key,
    name: &Name,
    plain: &[u8],
) -> Result<Vec<u8>, AllocError>
    requires size { length plain.now ≤ PLAIN_LIMIT }
    ensures { IfOk result (λ bytes. IsSealedRecord key.now.0 name.now plain.now bytes.items) }
{
    seal_record_with(alloc, &RecordKey::new(key, name.suite), name, plain)
}

/// The plain text whose record the bytes are, under a key and a name.
pub fn read_record(
    alloc: Global,
    key: &Key,
    name: &Name,
    bytes: &[u8],
) -> Result<Vec<u8>, SealError>
    ensures found { IfOk result (λ plain. IsSealedRecord key.now.0 name.now plain.items bytes.now) }
    ensures form { result ≡ Err Form → (plain : List ℕ) → IsSealedRecord key.now.0 name.now plain bytes.now → ⊥ }
{
    read_record_with(alloc, &RecordKey::new(key, name.suite), name, bytes)
}
