//! Texts of at most 32 bytes, which take no memory.
ghost use Rattle.std.specs.Prelude.{◌≡◌, ◌<◌, ◌≤◌, ◌==◌, ◌↔◌, Some, IfSome, IsNone, IsTrue, length, nat_eq, refl};
ghost use Rattle.std.specs.Ordering.{nat_cmp};
ghost use Rattle.std.specs.Cmp.{partial_equiv_from_equiv};
ghost use Rattle.std.specs.Cmp.Lexicographic.{pointwise, slice_cmp, nat_list_eq_equiv, nat_list_cmp_total, texts_ties, texts_po};
ghost use Rattle.tdb_class.specs.Word.{IsWord, IsWordByte};

use std::cmp::Ordering;
use std::marker::Model;

/// The greatest number of bytes that a short text has.
pub const SHORT_TEXT_LIMIT: usize = 32;

/// A text of at most 32 bytes, which contracts see as its bytes. Texts are ordered by their bytes.
#[derive(Clone, Copy, Debug)]
pub struct ShortText {
    // the text, and zeros behind it
    bytes: [u8; SHORT_TEXT_LIMIT],
    length: usize,
}

impl Model for ShortText {
    ghost use Rattle.std.specs.Prelude.{ℕ, List, take};

    ghost Value = { List ℕ };

    ghost view = { λ text. take text.length text.bytes };

    ghost use Rattle.tdb_class.specs.PaddedText.{IsPaddedText, padded_text, padded-view};

    ghost invariant = { IsPaddedText };

    ghost inverse = { padded_text };

    ghost inverse_ok = { padded-view };
}

impl ShortText {
    /// The text of these bytes, or `None` where they are more than 32.
    pub fn new(bytes: &[u8]) -> Option<ShortText>
        ensures text { IfSome result (λ text. text ≡ bytes.now) }
        ensures none { IsNone result ↔ (SHORT_TEXT_LIMIT < length bytes.now) }
    {
        if bytes.len() > SHORT_TEXT_LIMIT {
            return None;
        }
        let mut padded = [0; SHORT_TEXT_LIMIT];
        padded[..bytes.len()].copy_from_slice(bytes);
        Some(ShortText {
            bytes: padded,
            length: bytes.len(),
        })
    }

    /// The bytes of the text.
    pub fn bytes(&self) -> &[u8]
        ensures bytes { result.now ≡ self.now }
        ensures limit { length self.now ≤ SHORT_TEXT_LIMIT }
    {
        &self.bytes[..self.length]
    }

    /// Whether it is a word, as names are.
    pub fn is_word(&self) -> bool
        ensures { IsTrue result ↔ IsWord self.now }
    {
        let text = self.bytes();
        !text.is_empty() && text.iter().all(|byte| is_word_byte(*byte))
    }
}

fn is_word_byte(byte: u8) -> bool
    ensures { IsTrue result ↔ IsWordByte byte }
{
    matches!(byte, b'a'..=b'z' | b'0'..=b'9' | b'_')
}

impl PartialEq for ShortText {
    ghost eq = { pointwise nat_eq };

    ghost laws = { partial_equiv_from_equiv nat_list_eq_equiv };

    fn eq(&self, other: &ShortText) -> bool {
        self.bytes() == other.bytes()
    }
}

impl Eq for ShortText {
    ghost laws = { nat_list_eq_equiv };
}

impl PartialOrd for ShortText {
    ghost partial_cmp = { λ x y. Some (slice_cmp nat_cmp x y) };

    ghost laws = { texts_po };

    fn partial_cmp(&self, other: &ShortText) -> Option<Ordering> {
        Some(self.cmp(other))
    }
}

impl Ord for ShortText {
    ghost cmp = { slice_cmp nat_cmp };

    ghost total = { nat_list_cmp_total };

    ghost matches_partial_cmp = { λ x y. refl };

    ghost matches_eq = { texts_ties };

    fn cmp(&self, other: &ShortText) -> Ordering {
        self.bytes().cmp(other.bytes())
    }
}
