// The words that a key is expanded to.

ghost use Rattle.std.specs.Prelude.{◌≡◌, ◌+◌, ◌-◌, ◌*◌, ◌<◌, ◌≤◌, ◌⊎◌, length};
ghost use Rattle.std.specs.Int.{w32, to_be_bytes};
ghost use Rattle.tdb_aes.specs.EquivalentInverse.{IsInverseSchedule};
ghost use Rattle.tdb_aes.specs.KeyExpansion.{BeginsWithSchedule, next_word, round_constant, sub_word, temp};
ghost use Rattle.tdb_aes.specs.MixColumns.{inverse_mix_polynomial, polynomial_product};

use crate::columns::{inverse_mixed_word, substituted, substituted_word};
use crate::tables::ROUND_CONSTANTS;

// The S-box on each byte of a word.
fn sub_word(word: u32) -> u32
    ensures { result ≡ sub_word word }
{
    let [a, b, c, d] = word.to_be_bytes();
    substituted_word(a, b, c, d)
}

// Rcon of FIPS 197 section 5.2, counted from 1.
fn round_constant(j: usize) -> u32
    requires low { 1 ≤ j }
    requires high { j ≤ 10 }
    ensures { result ≡ round_constant j }
{
    ROUND_CONSTANTS[j - 1]
}

// What word `i` of the schedule adds to word `i - key_words`.
fn temp(previous: u32, key_words: usize, i: usize) -> u32
    requires key_length { (key_words ≡ 4) ⊎ (key_words ≡ 8) }
    requires low { key_words ≤ i }
    requires high { i < 4 * (key_words + 7) }
    ensures { result ≡ temp key_words previous i }
{
    if i % key_words == 0 {
        return sub_word(previous.rotate_left(8)) ^ round_constant(i / key_words);
    }
    if key_words > 6 && i % key_words == 4 {
        return sub_word(previous);
    }
    previous
}

// Word `i` of the schedule, from the words before it.
fn next_word(words: &[u32; 60], key_words: usize, i: usize) -> u32
    requires key_length { (key_words ≡ 4) ⊎ (key_words ≡ 8) }
    requires low { key_words ≤ i }
    requires high { i < 4 * (key_words + 7) }
    ensures { result ≡ next_word key_words words.now i }
{
    words[i - key_words] ^ temp(words[i - 1], key_words, i)
}

// The schedule of a key, with zeros after it.
pub(crate) fn expanded(key: &[u8], rounds: usize) -> [u32; 60]
    requires key_length { length key.now ≡ 4 * (rounds - 6) }
    requires rounds { (rounds ≡ 10) ⊎ (rounds ≡ 14) }
    ensures { BeginsWithSchedule key.now result }
{
    let key_words = rounds - 6;
    let mut words = [0u32; 60];
    'load: for i in 0..key_words {
        words[i] = u32::from_be_bytes([key[4 * i], key[4 * i + 1], key[4 * i + 2], key[4 * i + 3]]);
    }
    'expand: for i in key_words..4 * (rounds + 1) {
        words[i] = next_word(&words, key_words, i);
    }
    words
}

// InvMixColumns of one column.
fn inverse_mixed(word: u32) -> u32
    ensures { to_be_bytes w32 result ≡ polynomial_product inverse_mix_polynomial (to_be_bytes w32 word) }
{
    let [a, b, c, d] = word.to_be_bytes();
    inverse_mixed_word(
        substituted(a),
        substituted(b),
        substituted(c),
        substituted(d),
    )
}

// The words for the inverse cipher, of those for the cipher.
pub(crate) fn inverse_words(words: &[u32; 60], rounds: usize) -> [u32; 60]
    requires some { 0 < rounds }
    requires within { rounds < 15 }
    ensures { IsInverseSchedule words.now result rounds }
{
    let mut inverse = *words;
    for i in 4..4 * rounds {
        inverse[i] = inverse_mixed(words[i]);
    }
    inverse
}
