//! Records that aren't enciphered.
ghost use Rattle.std.specs.Prelude.{◌≡◌, ℕ, ◌≤◌, List, IfOk, IfSome, IfNone, length};
ghost use Rattle.tdb_seal.specs.declared.record.SealError.TheVariants.{Form};
ghost use Rattle.tdb_seal.specs.SealedRecord.{AreBytes, plain_record};

use crate::record::{HEAD_LENGTH, Name, PLAIN_LIMIT, SealError, VECTOR_LENGTH, head_of};
use std::alloc::{AllocError, Global};

/// The record of a plain text.
pub(crate) fn seal_plain(alloc: Global, name: &Name, plain: &[u8]) -> Result<Vec<u8>, AllocError>
    requires { length plain.now ≤ PLAIN_LIMIT }
    ensures { IfOk result (λ bytes. bytes.items ≡ plain_record name.now plain.now) }
{
    let length = plain.len() as u32;
    let mut bytes = Vec::with_capacity(alloc, HEAD_LENGTH + VECTOR_LENGTH + plain.len())?;
    bytes.extend_from_slice(&head_of(name, length, length))?;
    bytes.extend_from_slice(&[0; VECTOR_LENGTH])?;
    bytes.extend_from_slice(plain)?;
    Ok(bytes)
}

/// The plain text of a record, in memory of its own.
pub(crate) fn read_plain(alloc: Global, name: &Name, bytes: &[u8]) -> Result<Vec<u8>, SealError>
    ensures found { IfOk result (λ plain. AreBytes plain.items × (length plain.items ≤ PLAIN_LIMIT)
        × (bytes.now ≡ plain_record name.now plain.items)) }
    ensures form { result ≡ Err Form → (plain : List ℕ) → length plain ≤ PLAIN_LIMIT → bytes.now ≡ plain_record name.now plain → ⊥ }
{
    let Some(plain) = open_plain(name, bytes) else {
        return Err(SealError::Form);
    };
    Ok(Vec::from_slice(alloc, plain)?)
}

/// The plain text of a record, or `None` where the bytes are no such record of the name.
fn open_plain<'a>(name: &Name, bytes: &'a [u8]) -> Option<&'a [u8]>
    ensures some { IfSome result (λ plain. (length plain.now ≤ PLAIN_LIMIT) × (bytes.now ≡ plain_record name.now plain.now)) }
    ensures none { IfNone result ((plain : List ℕ) → length plain ≤ PLAIN_LIMIT → bytes.now ≡ plain_record name.now plain → ⊥) }
{
    if bytes.len() < HEAD_LENGTH + VECTOR_LENGTH {
        return None;
    }
    let (head, rest) = bytes.split_at(HEAD_LENGTH);
    let (vector, plain) = rest.split_at(VECTOR_LENGTH);
    if plain.len() > PLAIN_LIMIT {
        return None;
    }
    let length = plain.len() as u32;
    let expected = head_of(name, length, length);
    if head == expected.as_slice() && vector == [0; VECTOR_LENGTH].as_slice() {
        Some(plain)
    } else {
        None
    }
}
