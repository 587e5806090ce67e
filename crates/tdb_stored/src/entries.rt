//! Entries of an index in their order.
ghost use Rattle.std.specs.Prelude.{◌≡◌, ◌==◌, ◌≤◌, ◌<◌, ◌^◌, ◌++◌, ◌↔◌, ℕ, List, OnOk, IfOk, IfSome, IsSome, IsTrue, length};
ghost use Rattle.tdb_class.specs.declared.universe.PickleError.TheVariants.{Form};
ghost use Rattle.tdb_stored.specs.Entries.{IsAscending, IsEntries, entries_bytes};
ghost use Rattle.tdb_stored.specs.declared.pair.Pair.{Pair as APair};

use crate::items::{known_items, push_counted, read_counted, split_counted};
use crate::pair::Pair;
use std::alloc::{AllocError, Global};
use std::marker::Model;
use tdb_class::PickleError;

/// At most so many entries, strictly ascending by key and then by id. Contracts see their list.
#[derive(Debug, Drop)]
pub struct Entries<const LIMIT: usize> {
    pairs: Vec<Pair>,
}

impl<const LIMIT: usize> Model for Entries<LIMIT> {
    ghost use Rattle.std.specs.Prelude.{List};
    ghost use Rattle.tdb_stored.specs.declared.pair.Pair.{Pair};
    ghost use Rattle.tdb_stored.specs.Entries.{IsEntries};

    ghost Value = { List Pair };

    ghost view = { λ entries. entries.pairs.items };

    ghost invariant = { λ entries. IsEntries LIMIT entries.pairs.items };
}

impl<const LIMIT: usize> Entries<LIMIT> {
    /// The entries of a list, or `None` where they aren't ascending or are too many.
    pub fn new(pairs: Vec<Pair>) -> Option<Entries<LIMIT>>
        ensures entries { IfSome result (λ entries. entries ≡ pairs.items) }
        ensures some { IsSome result ↔ ((length pairs.items ≤ LIMIT) × IsAscending pairs.items) }
    {
        known_items(&pairs);
        if pairs.len() <= LIMIT && is_ascending(&pairs) {
            Some(Entries { pairs })
        } else {
            None
        }
    }

    /// The entries in their order.
    pub fn as_slice(&self) -> &[Pair]
        ensures entries { result.now ≡ self.now }
        ensures in_order { IsEntries LIMIT self.now }
    {
        self.pairs.as_slice()
    }

    /// How many entries there are.
    pub fn len(&self) -> usize
        ensures { result ≡ length self.now }
    {
        self.pairs.len()
    }

    /// Whether there is no entry.
    pub fn is_empty(&self) -> bool
        ensures { result ≡ (length self.now == 0) }
    {
        self.pairs.is_empty()
    }

    /// Gives the list back.
    pub fn into_vec(self) -> Vec<Pair>
        ensures entries { result.items ≡ self.entry }
        ensures in_order { IsEntries LIMIT self.entry }
    {
        self.pairs
    }

    /// Appends their number and the entries.
    pub(crate) fn push(&self, bytes: &mut Vec<u8>) -> Result<(), AllocError>
        requires { LIMIT < 2 ^ 32 }
        ensures { OnOk result (bytes.new.items ≡ bytes.old.items ++ entries_bytes self.now) }
    {
        push_counted(bytes, &self.pairs)
    }

    /// The entries that the bytes are.
    pub(crate) fn read(alloc: Global, bytes: &[u8]) -> Result<Entries<LIMIT>, PickleError>
        requires { LIMIT < 2 ^ 32 }
        ensures found { IfOk result (λ entries. IsEntries LIMIT entries × (bytes.now ≡ entries_bytes entries)) }
        ensures form { result ≡ Err Form → (entries : List APair) → IsEntries LIMIT entries → bytes.now ≡ entries_bytes entries → ⊥ }
    {
        let pairs = read_counted(alloc, LIMIT, bytes)?;
        match Entries::new(pairs) {
            Some(entries) => Ok(entries),
            None => Err(PickleError::Form),
        }
    }

    /// Splits entries off the front.
    pub(crate) fn split(alloc: Global, bytes: &[u8]) -> Result<(Entries<LIMIT>, &[u8]), PickleError>
        requires { LIMIT < 2 ^ 32 }
        ensures found { IfOk result (λ parts. IsEntries LIMIT parts.0 × (bytes.now ≡ entries_bytes parts.0 ++ parts.1.now)) }
        ensures form { result ≡ Err Form → (entries : List APair) (rest : List ℕ) → IsEntries LIMIT entries
            → bytes.now ≡ entries_bytes entries ++ rest → ⊥ }
    {
        let (pairs, rest) = split_counted(alloc, LIMIT, bytes)?;
        match Entries::new(pairs) {
            Some(entries) => Ok((entries, rest)),
            None => Err(PickleError::Form),
        }
    }
}

fn is_ascending(pairs: &[Pair]) -> bool
    ensures { IsTrue result ↔ IsAscending pairs.now }
{
    for i in 1..pairs.len() {
        if !pairs[i - 1].cmp(&pairs[i]).is_lt() {
            return false;
        }
    }
    true
}
