//! The entries of indexes.
ghost use Rattle.std.specs.Prelude.{◌≡◌, ◌∷◌, ◌++◌, ℕ, List, OnOk, IfSome, IfNone, refl};
ghost use Rattle.std.specs.Ordering.{as_partial_cmp, eq_by_cmp};
ghost use Rattle.std.specs.Cmp.{eq_by_cmp_equiv, partial_equiv_from_equiv, partial_order_from_total};
ghost use Rattle.tdb_class.specs.declared.field.Field.{Field as AField};
ghost use Rattle.tdb_stored.specs.Pair.{pair_cmp, key_bytes, pair_bytes, IsKey, IsPair};
ghost use Rattle.tdb_stored.specs.PairLaws.{pair_cmp_total, one_pair};

use crate::spelled::Spelled;
use std::alloc::AllocError;
use std::cmp::Ordering;
use tdb_base::{push_bytes, push_u32, push_u64, split_u32, split_u64};
use tdb_class::{Field, ShortText};

const NUMBER: u8 = 0;

const TEXT: u8 = 1;

/// A key and the rank of an object that has it. Pairs are ordered by key and then by id.
#[derive(Clone, Copy, Debug)]
pub struct Pair {
    pub key: Field,
    pub id: u32,
}

impl PartialEq for Pair {
    ghost eq = { eq_by_cmp pair_cmp };

    ghost laws = { partial_equiv_from_equiv (eq_by_cmp_equiv pair_cmp_total) };

    fn eq(&self, other: &Pair) -> bool {
        self.cmp(other).is_eq()
    }
}

impl Eq for Pair {
    ghost laws = { eq_by_cmp_equiv pair_cmp_total };
}

impl PartialOrd for Pair {
    ghost partial_cmp = { as_partial_cmp pair_cmp };

    ghost laws = { partial_order_from_total pair_cmp_total };

    fn partial_cmp(&self, other: &Pair) -> Option<Ordering> {
        Some(self.cmp(other))
    }
}

impl Ord for Pair {
    ghost cmp = { pair_cmp };

    ghost total = { pair_cmp_total };

    ghost matches_partial_cmp = { λ x y. refl };

    ghost matches_eq = { λ x y. refl };

    fn cmp(&self, other: &Pair) -> Ordering {
        self.key.cmp(&other.key).then(self.id.cmp(&other.id))
    }
}

/// Appends a key: the byte 0 and a number in eight bytes, or the byte 1, a byte with the length,
/// and a text.
pub fn push_key(bytes: &mut Vec<u8>, key: &Field) -> Result<(), AllocError>
    ensures { OnOk result (bytes.new.items ≡ bytes.old.items ++ key_bytes key.now) }
{
    match key {
        Field::Num(number) => {
            push_bytes(bytes, &[NUMBER])?;
            push_u64(bytes, *number)
        }
        Field::Text(text) => {
            let text = text.bytes();
            push_bytes(bytes, &[TEXT, text.len() as u8])?;
            push_bytes(bytes, text)
        }
    }
}

/// Splits a key off the front, or answers `None` where no key stands there.
fn split_key(bytes: &[u8]) -> Option<(Field, &[u8])>
    ensures some { IfSome result (λ parts. IsKey parts.0 × (bytes.now ≡ key_bytes parts.0 ++ parts.1.now)) }
    ensures none { IfNone result ((key : AField) (rest : List ℕ) → IsKey key → bytes.now ≡ key_bytes key ++ rest → ⊥) }
{
    let [kind, rest @ ..] = bytes else {
        return None;
    };
    match *kind {
        NUMBER if rest.len() >= 8 => {
            let (number, rest) = split_u64(rest);
            Some((Field::Num(number), rest))
        }
        TEXT => split_key_text(rest),
        _ => None,
    }
}

/// Splits the text of a key, behind its length in one byte, off the front.
fn split_key_text(bytes: &[u8]) -> Option<(Field, &[u8])>
    ensures some { IfSome result (λ parts. IsKey parts.0 × (1 ∷ bytes.now ≡ key_bytes parts.0 ++ parts.1.now)) }
    ensures none { IfNone result ((key : AField) (rest : List ℕ) → IsKey key → 1 ∷ bytes.now ≡ key_bytes key ++ rest → ⊥) }
{
    let [length, rest @ ..] = bytes else {
        return None;
    };
    let length = usize::from(*length);
    if rest.len() < length {
        return None;
    }
    let (text, rest) = rest.split_at(length);
    match ShortText::new(text) {
        Some(text) => Some((Field::Text(text), rest)),
        None => None,
    }
}

/// A key, and an id in four bytes.
impl Spelled for Pair {
    ghost is_item = { IsPair };

    ghost spelling = { pair_bytes };

    ghost one_item = { one_pair };

    fn known(&self) {
        let _id = self.id;
        known_key(&self.key);
    }

    fn push(&self, bytes: &mut Vec<u8>) -> Result<(), AllocError> {
        push_key(bytes, &self.key)?;
        push_u32(bytes, self.id)
    }

    fn split(bytes: &[u8]) -> Option<(Pair, &[u8])> {
        let Some(parts) = split_key(bytes) else {
            return None;
        };
        if parts.1.len() < 4 {
            return None;
        }
        let (id, rest) = split_u32(parts.1);
        Some((Pair { key: parts.0, id }, rest))
    }
}

/// Each key is in range. It costs nothing.
fn known_key(key: &Field)
    ensures { IsKey key.now }
{
    match key {
        Field::Num(number) => {
            let _number = *number;
        }
        Field::Text(text) => {
            text.bytes();
        }
    }
}
