//! Records that are enciphered.
ghost use Rattle.std.specs.Prelude.{◌≡◌, ℕ, ◌≤◌, ◌++◌, List, IfOk, IfSome, IfNone, length, take, codes};
ghost use Rattle.tdb_base.specs.SuiteNumber.{suite_number};
ghost use Rattle.tdb_mac.specs.Derive.{derived_key};
ghost use Rattle.tdb_seal.specs.declared.record.SealError.TheVariants.{Form};
ghost use Rattle.tdb_seal.specs.CipherOf.{cipher_of};
ghost use Rattle.tdb_seal.specs.InitialVector.{initial_vector};
ghost use Rattle.tdb_seal.specs.SealedRecord.{AreBytes, ciphered_head, ciphered_length, ciphered_record};

use crate::record::{HEAD_LENGTH, Name, PLAIN_LIMIT, SealError, VECTOR_LENGTH, head_of};
use std::alloc::{AllocError, Global};
use tdb_aes::Schedule;
use tdb_base::{Key, Suite, u32_at};
use tdb_cbc::{CbcError, push_sealed, unseal};
use tdb_mac::{PreparedKey, derive};

/// What the derivation of a cipher's key begins with.
const CIPHER_LABEL: [u8; 8] = *b"TDBcrypt";

/// What the text of an initial vector's tag begins with.
const VECTOR_LABEL: [u8; 8] = *b"TDBiv001";

/// What enciphers the records of one key: the cipher's schedule, and the key of initial vectors.
#[derive(Drop)]
pub(crate) struct Cipher {
    schedule: Schedule,
    mac: PreparedKey,
}

/// The parts of bytes whose first 32 are right for a name.
#[derive(Clone, Copy)]
struct Parts<'a> {
    head: [u8; 32],
    plain_length: usize,
    vector: [u8; 16],
    body: &'a [u8],
}

/// The key that is derived for a suite's cipher.
fn derived(key: &Key, suite: Suite) -> Key
    ensures { result.0 ≡ derived_key key.now.0 (codes "TDBcrypt") (suite_number suite) 0 }
{
    derive(&key.0, &CIPHER_LABEL, u64::from(suite.number()), 0)
}

/// The first 16 bytes.
fn first_16(bytes: &[u8]) -> [u8; 16]
    requires { 16 ≤ length bytes.now }
    ensures { result ≡ take 16 bytes.now }
{
    let mut first = [0; 16];
    first.copy_from_slice(&bytes[..16]);
    first
}

/// The number of bytes of a body.
fn padded_length(plain_length: usize) -> usize
    requires { plain_length ≤ PLAIN_LIMIT }
    ensures { result ≡ ciphered_length plain_length }
{
    16 * (plain_length / 16 + 1)
}

impl Cipher {
    /// What enciphers the records of a key under a suite; `None` under the suite without a cipher.
    pub(crate) fn new(key: &Key, suite: Suite) -> Option<Cipher>
        ensures { result ≡ cipher_of suite key.now.0 }
    {
        let schedule = match suite {
            Suite::Plain => return None,
            Suite::Aes128 => Schedule::new128(&first_16(&derived(key, suite).0)),
            Suite::Aes256 => Schedule::new256(&derived(key, suite).0),
        };
        Some(Cipher {
            schedule,
            mac: PreparedKey::new(key),
        })
    }

    /// The initial vector of a plain text behind a record's first bytes.
    fn vector(&self, head: &[u8; 32], plain: &[u8]) -> [u8; 16]
        ensures { result ≡ initial_vector self.now.mac head.now plain.now }
    {
        let mut text = self.mac.start();
        text.update(&VECTOR_LABEL);
        text.update(head);
        text.update(plain);
        first_16(&text.finish())
    }

    /// The record of a plain text.
    pub(crate) fn seal(
        &self,
        alloc: Global,
        name: &Name,
        plain: &[u8],
    ) -> Result<Vec<u8>, AllocError>
        requires { length plain.now ≤ PLAIN_LIMIT }
        ensures { IfOk result (λ bytes. bytes.items ≡ ciphered_record self.now.schedule self.now.mac name.now plain.now) }
    {
        let body_length = padded_length(plain.len());
        let head = head_of(name, plain.len() as u32, body_length as u32);
        let vector = self.vector(&head, plain);
        let mut bytes = Vec::with_capacity(alloc, HEAD_LENGTH + VECTOR_LENGTH + body_length)?;
        bytes.extend_from_slice(&head)?;
        bytes.extend_from_slice(&vector)?;
        push_sealed(&mut bytes, &self.schedule, &vector, plain)?;
        Ok(bytes)
    }

    /// The plain text whose record the bytes are: their first 32 are compared, the body is opened,
    /// and the initial vector is computed again.
    pub(crate) fn read(
        &self,
        alloc: Global,
        name: &Name,
        bytes: &[u8],
    ) -> Result<Vec<u8>, SealError>
        ensures found { IfOk result (λ plain. AreBytes plain.items × (length plain.items ≤ PLAIN_LIMIT)
            × (bytes.now ≡ ciphered_record self.now.schedule self.now.mac name.now plain.items)) }
        ensures form { result ≡ Err Form → (plain : List ℕ) → AreBytes plain → length plain ≤ PLAIN_LIMIT
            → bytes.now ≡ ciphered_record self.now.schedule self.now.mac name.now plain → ⊥ }
    {
        let Some(parts) = parts_of(name, bytes) else {
            return Err(SealError::Form);
        };
        let plain = match unseal(alloc, &self.schedule, &parts.vector, parts.body) {
            Ok(plain) => plain,
            Err(CbcError::Length) => return Err(SealError::Form),
            Err(CbcError::Padding) => return Err(SealError::Form),
            Err(CbcError::Memory) => return Err(SealError::Memory),
        };
        if plain.len() == parts.plain_length
            && self.vector(&parts.head, plain.as_slice()) == parts.vector
        {
            Ok(plain)
        } else {
            Err(SealError::Form)
        }
    }
}

/// The parts of the bytes, or `None` where their first 32 or their length are right for no plain
/// text under the name.
fn parts_of<'a>(name: &Name, bytes: &'a [u8]) -> Option<Parts<'a>>
    ensures short { IfSome result (λ parts. parts.plain_length ≤ PLAIN_LIMIT) }
    ensures head { IfSome result (λ parts. parts.head ≡ ciphered_head name.now parts.plain_length) }
    ensures body { IfSome result (λ parts. length parts.body.now ≡ ciphered_length parts.plain_length) }
    ensures vector { IfSome result (λ parts. length parts.vector ≡ 16) }
    ensures are_bytes { IfSome result (λ parts. AreBytes parts.body.now) }
    ensures whole { IfSome result (λ parts. bytes.now ≡ parts.head ++ (parts.vector ++ parts.body.now)) }
    ensures none { IfNone result ((n : ℕ) (vector body : List ℕ) → n ≤ PLAIN_LIMIT → length vector ≡ 16 → length body ≡ ciphered_length n
        → bytes.now ≡ ciphered_head name.now n ++ (vector ++ body) → ⊥) }
{
    if bytes.len() < HEAD_LENGTH + VECTOR_LENGTH {
        return None;
    }
    let (front, rest) = bytes.split_at(HEAD_LENGTH);
    let (initial, body) = rest.split_at(VECTOR_LENGTH);
    let plain_length = u32_at(front, 24) as usize;
    if plain_length > PLAIN_LIMIT || body.len() != padded_length(plain_length) {
        return None;
    }
    let head = head_of(name, plain_length as u32, body.len() as u32);
    if front == head.as_slice() {
        Some(Parts {
            head,
            plain_length,
            vector: first_16(initial),
            body,
        })
    } else {
        None
    }
}
