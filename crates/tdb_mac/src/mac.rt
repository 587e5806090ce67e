//! HMAC with SHA-256, over whole texts and over pieces.
ghost use Rattle.std.specs.Prelude.{◌≡◌, ◌++◌, [], List, ℕ};
ghost use Rattle.tdb_mac.specs.Hmac.{key_block, padded_key, hmac_of, inner_pad, outer_pad};
ghost use Rattle.tdb_mac.specs.MacState.{IsMacOf};

use sha2::{Digest, Sha256};
use std::alloc::AllocError;
use tdb_base::Key;

/// The number of bytes of a block of SHA-256.
const BLOCK_LENGTH: usize = 64;

/// The byte that is added to the key before the text, and the one before the inner digest.
const INNER_PAD: u8 = 0x36;

const OUTER_PAD: u8 = 0x5c;

/// A key of any length, made into a block.
fn block_of(key: &[u8]) -> [u8; 64]
    ensures { result ≡ key_block key.now }
{
    let mut block = [0; BLOCK_LENGTH];
    if key.len() > BLOCK_LENGTH {
        let hashed = Sha256::digest(key);
        block[..32].copy_from_slice(&hashed);
    } else {
        block[..key.len()].copy_from_slice(key);
    }
    block
}

/// A key's block, each byte of it added to the pad.
fn padded(key: &[u8], pad: u8) -> [u8; 64]
    ensures { result ≡ padded_key pad key.now }
{
    let mut block = block_of(key);
    for byte in block.iter_mut() {
        *byte ^= pad;
    }
    block
}

/// A tag in the making: the key was given, and some of the text.
#[derive(Drop)]
pub struct Mac {
    inner: Sha256,
    outer: Sha256,
}

impl Mac {
    /// Begins a text under a key of any length.
    pub(crate) fn started(key: &[u8]) -> Mac
        ensures { IsMacOf result key.now [] }
    {
        let mut inner = Sha256::new();
        inner.update(&padded(key, INNER_PAD));
        let mut outer = Sha256::new();
        outer.update(&padded(key, OUTER_PAD));
        Mac { inner, outer }
    }

    /// Begins a text under a key.
    pub fn new(key: &Key) -> Mac
        ensures { IsMacOf result key.now.0 [] }
    {
        Mac::started(&key.0)
    }

    /// Takes the next piece of the text.
    pub fn update(&mut self, piece: &[u8])
        ensures { (key text : List ℕ) → IsMacOf self.old key text → IsMacOf self.new key (text ++ piece.now) }
    {
        self.inner.update(piece);
    }

    /// The tag of the text.
    pub fn finish(self) -> [u8; 32]
        ensures { (key text : List ℕ) → IsMacOf self key text → result ≡ hmac_of key text }
    {
        let Mac { inner, mut outer } = self;
        let digest = inner.finalize();
        outer.update(&digest);
        outer.finalize()
    }

    /// Another one that has taken the same text. It takes no memory.
    pub fn fork(&self) -> Mac
        ensures { result ≡ self.now }
    {
        let Ok(inner) = self.inner.clone() else {
            unreachable!()
        };
        let Ok(outer) = self.outer.clone() else {
            unreachable!()
        };
        Mac { inner, outer }
    }
}

impl Clone for Mac {
    ghost is_clone = { λ x y. y ≡ x };

    ghost is_infallible = { λ _. Unit {0} };

    fn clone(&self) -> Result<Mac, AllocError> {
        Ok(self.fork())
    }
}

/// The tag of a text under a key of any length.
pub fn hmac(key: &[u8], text: &[u8]) -> [u8; 32]
    ensures { result ≡ hmac_of key.now text.now }
{
    let mut mac = Mac::started(key);
    mac.update(text);
    mac.finish()
}
