// The cipher and its inverse on one block, with the words of a schedule.

ghost use Rattle.std.specs.Prelude.{◌≡◌, ◌<◌, List, ℕ};
ghost use Rattle.tdb_aes.specs.Cipher.{cipher_with, inverse_cipher_with};
ghost use Rattle.tdb_aes.specs.EquivalentInverse.{IsInverseSchedule};

use crate::state::State;

// The block enciphered.
pub(crate) fn encrypted(words: &[u32; 60], rounds: usize, block: [u8; 16]) -> [u8; 16]
    requires some { 0 < rounds }
    requires within { rounds < 15 }
    ensures { result ≡ cipher_with words.now rounds block }
{
    let mut state = State::from_block(block).add_round_key(words, 0);
    for n in 1..rounds {
        state = state.round(words, n);
    }
    state.last_round(words, rounds).to_block()
}

// The block deciphered, by the equivalent inverse cipher (FIPS 197 section 5.3.5).
pub(crate) fn decrypted(words: &[u32; 60], rounds: usize, block: [u8; 16]) -> [u8; 16]
    requires some { 0 < rounds }
    requires within { rounds < 15 }
    ensures { (w : List ℕ) → IsInverseSchedule w words.now rounds
        → result ≡ inverse_cipher_with w rounds block }
{
    let mut state = State::from_block(block).add_round_key(words, rounds);
    for n in 1..rounds {
        state = state.inverse_round(words, rounds - n);
    }
    state.last_inverse_round(words, 0).to_block()
}
