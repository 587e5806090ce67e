//! Keys that are prepared for many records.
ghost use Rattle.std.specs.Prelude.{◌≡◌, ℕ, ◌≤◌, List, IfOk, length};
ghost use Rattle.tdb_seal.specs.declared.record.SealError.TheVariants.{Form};
ghost use Rattle.tdb_seal.specs.SealedRecord.{IsSealedRecord};

use crate::cipher::Cipher;
use crate::plain::{read_plain, seal_plain};
use crate::record::{Name, PLAIN_LIMIT, SealError};
use std::alloc::{AllocError, Global};
use std::marker::Model;
use tdb_base::{Key, Suite};

/// A key that is prepared for the records of one suite: the cipher's schedule is expanded and the
/// padded blocks of the initial vectors' key are hashed. Contracts see the key's bytes and the suite.
#[derive(Drop)]
pub struct RecordKey {
    suite: Suite,
    key: Key,
    cipher: Option<Cipher>,
}

impl Model for RecordKey {
    ghost use Rattle.std.specs.Prelude.{◌≡◌};
    ghost use Rattle.tdb_seal.specs.SuiteKey.{SuiteKey};

    ghost Value = { SuiteKey };

    ghost use Rattle.tdb_seal.specs.CipherOf.{cipher_of};

    ghost view = { λ k. record { suite = k.suite; bytes = k.key.0 } };

    ghost invariant = { λ k. k.cipher ≡ cipher_of k.suite k.key.0 };
}

impl RecordKey {
    /// Prepares a key for the records of a suite.
    pub fn new(key: &Key, suite: Suite) -> RecordKey
        ensures { result ≡ record { suite = suite; bytes = key.now.0 } }
    {
        RecordKey {
            suite,
            key: *key,
            cipher: Cipher::new(key, suite),
        }
    }
}

/// The record of a plain text under a prepared key, as `seal_record` gives it. One allocation is
/// made, of the record's length.
pub fn seal_record_with(
    alloc: Global,
    key: &RecordKey,
    name: &Name,
    plain: &[u8],
) -> Result<Vec<u8>, AllocError>
    requires size { length plain.now ≤ PLAIN_LIMIT }
    requires suite { name.now.suite ≡ key.now.suite }
    ensures { IfOk result (λ bytes. IsSealedRecord key.now.bytes name.now plain.now bytes.items) }
{
    match &key.cipher {
        None => seal_plain(alloc, name, plain),
        Some(cipher) => cipher.seal(alloc, name, plain),
    }
}

/// The plain text whose record the bytes are under a prepared key, as `read_record` gives it.
pub fn read_record_with(
    alloc: Global,
    key: &RecordKey,
    name: &Name,
    bytes: &[u8],
) -> Result<Vec<u8>, SealError>
    requires { name.now.suite ≡ key.now.suite }
    ensures found { IfOk result (λ plain. IsSealedRecord key.now.bytes name.now plain.items bytes.now) }
    ensures form { result ≡ Err Form → (plain : List ℕ) → IsSealedRecord key.now.bytes name.now plain bytes.now → ⊥ }
{
    match &key.cipher {
        None => read_plain(alloc, name, bytes),
        Some(cipher) => cipher.read(alloc, name, bytes),
    }
}
