//! A prepared key.

ghost use Rattle.std.specs.Prelude.{◌≡◌, ◌+◌, ◌-◌, ◌*◌, ◌⊎◌, length};
ghost use Rattle.tdb_aes.specs.Cipher.{cipher, inverse_cipher};

use crate::cipher::{decrypted, encrypted};
use crate::expansion::{expanded, inverse_words};
use std::marker::Model;

/// An AES key, with the words that it is expanded to for each round (FIPS 197 section 5.2).
///
/// Contracts see the key: a list of 16 or 32 bytes.
#[derive(Drop)]
pub struct Schedule {
    rounds: usize,
    encryption: [u32; 60],
    decryption: [u32; 60],
}

impl Model for Schedule {
    ghost use Rattle.std.specs.Prelude.{ℕ, List};

    ghost Value = { List ℕ };

    ghost use Rattle.tdb_aes.specs.Schedule.{IsExpanded, key_of};

    ghost view = { key_of };

    ghost invariant = { IsExpanded };
}

impl Schedule {
    /// The schedule of a key of 128 bits, which has 10 rounds.
    pub fn new128(key: &[u8; 16]) -> Schedule
        ensures { result ≡ key.now }
    {
        Schedule::new(key, 10)
    }

    /// The schedule of a key of 256 bits, which has 14 rounds.
    pub fn new256(key: &[u8; 32]) -> Schedule
        ensures { result ≡ key.now }
    {
        Schedule::new(key, 14)
    }

    // The schedule of a key, which has six words fewer than rounds.
    fn new(key: &[u8], rounds: usize) -> Schedule
        requires key_length { length key.now ≡ 4 * (rounds - 6) }
        requires rounds { (rounds ≡ 10) ⊎ (rounds ≡ 14) }
        ensures { result ≡ key.now }
    {
        let encryption = expanded(key, rounds);
        let decryption = inverse_words(&encryption, rounds);
        Schedule {
            rounds,
            encryption,
            decryption,
        }
    }

    /// The block enciphered under the key (FIPS 197 section 5.1). `decrypt_block` undoes it.
    pub fn encrypt_block(&self, block: [u8; 16]) -> [u8; 16]
        ensures value { result ≡ cipher self.now block }
        ensures undone { inverse_cipher self.now result ≡ block }
    {
        encrypted(&self.encryption, self.rounds, block)
    }

    /// The block deciphered under the key (FIPS 197 section 5.3). `encrypt_block` undoes it.
    pub fn decrypt_block(&self, block: [u8; 16]) -> [u8; 16]
        ensures value { result ≡ inverse_cipher self.now block }
        ensures undone { cipher self.now result ≡ block }
    {
        decrypted(&self.decryption, self.rounds, block)
    }
}
