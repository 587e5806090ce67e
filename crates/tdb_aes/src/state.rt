// The state between two rounds of the cipher, and the rounds.

ghost use Rattle.std.specs.Prelude.{◌≡◌, ◌<◌};
ghost use Rattle.tdb_aes.specs.KeyExpansion.{round_key};
ghost use Rattle.tdb_aes.specs.MixColumns.{inverse_mix_columns, mix_columns};
ghost use Rattle.tdb_aes.specs.ShiftRows.{inverse_shift_rows, shift_rows};
ghost use Rattle.tdb_aes.specs.State.{add_round_key, bytes_of_state};
ghost use Rattle.tdb_aes.specs.SubBytes.{inverse_sub_bytes, sub_bytes};

use crate::columns::{inverse_mixed_word, inverse_substituted_word, mixed_word, substituted_word};

// Four columns of four bytes, each a word whose highest byte is in row 0.
#[derive(Clone, Copy)]
pub(crate) struct State {
    column_0: u32,
    column_1: u32,
    column_2: u32,
    column_3: u32,
}

impl State {
    #[inline(always)]
    pub(crate) fn from_block(block: [u8; 16]) -> State
        ensures { bytes_of_state result ≡ block }
    {
        let [
            a0,
            a1,
            a2,
            a3,
            b0,
            b1,
            b2,
            b3,
            c0,
            c1,
            c2,
            c3,
            d0,
            d1,
            d2,
            d3,
        ] = block;
        State {
            column_0: u32::from_be_bytes([a0, a1, a2, a3]),
            column_1: u32::from_be_bytes([b0, b1, b2, b3]),
            column_2: u32::from_be_bytes([c0, c1, c2, c3]),
            column_3: u32::from_be_bytes([d0, d1, d2, d3]),
        }
    }

    #[inline(always)]
    pub(crate) fn to_block(self) -> [u8; 16]
        ensures { result ≡ bytes_of_state self }
    {
        let [a0, a1, a2, a3] = self.column_0.to_be_bytes();
        let [b0, b1, b2, b3] = self.column_1.to_be_bytes();
        let [c0, c1, c2, c3] = self.column_2.to_be_bytes();
        let [d0, d1, d2, d3] = self.column_3.to_be_bytes();
        [
            a0, a1, a2, a3, b0, b1, b2, b3, c0, c1, c2, c3, d0, d1, d2, d3,
        ]
    }

    // The sum with the round key of round `n`.
    #[inline(always)]
    pub(crate) fn add_round_key(self, words: &[u32; 60], n: usize) -> State
        requires { n < 15 }
        ensures { bytes_of_state result ≡ add_round_key (bytes_of_state self) (round_key words.now n) }
    {
        State {
            column_0: self.column_0 ^ words[4 * n],
            column_1: self.column_1 ^ words[4 * n + 1],
            column_2: self.column_2 ^ words[4 * n + 2],
            column_3: self.column_3 ^ words[4 * n + 3],
        }
    }

    // One round of the cipher.
    #[inline(always)]
    pub(crate) fn round(self, words: &[u32; 60], n: usize) -> State
        requires { n < 15 }
        ensures { bytes_of_state result
            ≡ add_round_key (mix_columns (shift_rows (sub_bytes (bytes_of_state self)))) (round_key words.now n) }
    {
        let [a0, a1, a2, a3] = self.column_0.to_be_bytes();
        let [b0, b1, b2, b3] = self.column_1.to_be_bytes();
        let [c0, c1, c2, c3] = self.column_2.to_be_bytes();
        let [d0, d1, d2, d3] = self.column_3.to_be_bytes();
        let mixed = State {
            column_0: mixed_word(a0, b1, c2, d3),
            column_1: mixed_word(b0, c1, d2, a3),
            column_2: mixed_word(c0, d1, a2, b3),
            column_3: mixed_word(d0, a1, b2, c3),
        };
        mixed.add_round_key(words, n)
    }

    // The last round of the cipher.
    #[inline(always)]
    pub(crate) fn last_round(self, words: &[u32; 60], n: usize) -> State
        requires { n < 15 }
        ensures { bytes_of_state result
            ≡ add_round_key (shift_rows (sub_bytes (bytes_of_state self))) (round_key words.now n) }
    {
        let [a0, a1, a2, a3] = self.column_0.to_be_bytes();
        let [b0, b1, b2, b3] = self.column_1.to_be_bytes();
        let [c0, c1, c2, c3] = self.column_2.to_be_bytes();
        let [d0, d1, d2, d3] = self.column_3.to_be_bytes();
        let shifted = State {
            column_0: substituted_word(a0, b1, c2, d3),
            column_1: substituted_word(b0, c1, d2, a3),
            column_2: substituted_word(c0, d1, a2, b3),
            column_3: substituted_word(d0, a1, b2, c3),
        };
        shifted.add_round_key(words, n)
    }

    // One round of the inverse cipher in its equivalent form (FIPS 197 section 5.3.5).
    #[inline(always)]
    pub(crate) fn inverse_round(self, words: &[u32; 60], n: usize) -> State
        requires { n < 15 }
        ensures { bytes_of_state result
            ≡ add_round_key (inverse_mix_columns (inverse_sub_bytes (inverse_shift_rows (bytes_of_state self)))) (round_key words.now n) }
    {
        let [a0, a1, a2, a3] = self.column_0.to_be_bytes();
        let [b0, b1, b2, b3] = self.column_1.to_be_bytes();
        let [c0, c1, c2, c3] = self.column_2.to_be_bytes();
        let [d0, d1, d2, d3] = self.column_3.to_be_bytes();
        let mixed = State {
            column_0: inverse_mixed_word(a0, d1, c2, b3),
            column_1: inverse_mixed_word(b0, a1, d2, c3),
            column_2: inverse_mixed_word(c0, b1, a2, d3),
            column_3: inverse_mixed_word(d0, c1, b2, a3),
        };
        mixed.add_round_key(words, n)
    }

    // The last round of the inverse cipher.
    #[inline(always)]
    pub(crate) fn last_inverse_round(self, words: &[u32; 60], n: usize) -> State
        requires { n < 15 }
        ensures { bytes_of_state result
            ≡ add_round_key (inverse_sub_bytes (inverse_shift_rows (bytes_of_state self))) (round_key words.now n) }
    {
        let [a0, a1, a2, a3] = self.column_0.to_be_bytes();
        let [b0, b1, b2, b3] = self.column_1.to_be_bytes();
        let [c0, c1, c2, c3] = self.column_2.to_be_bytes();
        let [d0, d1, d2, d3] = self.column_3.to_be_bytes();
        let shifted = State {
            column_0: inverse_substituted_word(a0, d1, c2, b3),
            column_1: inverse_substituted_word(b0, a1, d2, c3),
            column_2: inverse_substituted_word(c0, b1, a2, d3),
            column_3: inverse_substituted_word(d0, c1, b2, a3),
        };
        shifted.add_round_key(words, n)
    }
}
