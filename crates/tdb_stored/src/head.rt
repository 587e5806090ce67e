//! The heads of collections.
ghost use Rattle.std.specs.Prelude.{◌≡◌, ◌<◌, ◌≤◌, ◌++◌, ◌↔◌, ℕ, List, All, OnOk, IfOk, IfSome, IsSome, IsTrue, length};
ghost use Rattle.std.specs.Int.{w32, to_be_bytes};
ghost use Rattle.tdb_class.specs.declared.universe.PickleError.TheVariants.{Form};
ghost use Rattle.tdb_stored.specs.Head.{AreHeadIndexes, AreNumbered, HeadFields, IsHead, IsIndexed, IsInHead, head_bytes, indexed_bytes};
ghost use Rattle.tdb_stored.specs.HeadLaws.{one_indexed};

use crate::items::{known_items, push_counted, read_counted};
use crate::spelled::Spelled;
use std::alloc::{AllocError, Global};
use std::marker::Model;
use tdb_base::{push_u32, split_u32};
use tdb_class::PickleError;

/// The greatest number of indexes of a collection. Their numbers are below it.
pub const HEAD_LIMIT: usize = 4;

const NUMBER_LIMIT: u32 = 4;

const KIND_LIMIT: u32 = 4;

/// An index of a collection.
#[derive(Clone, Copy, Debug, PartialEq, Eq)]
pub struct Indexed {
    pub number: u32,
    /// The field of the members that is their key.
    pub field: u32,
    /// 0 ordered, 1 hashed, 2 ordered and unique, 3 hashed and unique.
    pub kind: u32,
    /// The rank of the index's root.
    pub root: u32,
}

/// The class of a collection's members, and its indexes by number.
#[derive(Debug, Drop)]
pub struct Head {
    class: u32,
    indexes: Vec<Indexed>,
}

impl Model for Head {
    ghost use Rattle.tdb_stored.specs.Head.{HeadFields, IsHead};

    ghost Value = { HeadFields };

    ghost view = { λ head. record { class = head.class; indexes = head.indexes.items } };

    ghost invariant = { λ head. IsHead (record { class = head.class; indexes = head.indexes.items }) };
}

impl Head {
    /// The head of a collection of this class with these indexes, or `None` where there is no
    /// index or more than 4, a number or a kind is 4 or more, or the numbers don't ascend.
    pub fn new(class: u32, indexes: Vec<Indexed>) -> Option<Head>
        ensures head { IfSome result (λ head. head ≡ record { class = class; indexes = indexes.items }) }
        ensures some { IsSome result ↔ AreHeadIndexes indexes.items }
    {
        known_items(&indexes);
        if !indexes.is_empty()
            && indexes.len() <= HEAD_LIMIT
            && are_in_head(&indexes)
            && are_numbered(&indexes)
        {
            Some(Head { class, indexes })
        } else {
            None
        }
    }

    /// The class of the members.
    pub fn class(&self) -> u32
        ensures class { result ≡ self.now.class }
        ensures is_head { IsHead self.now }
    {
        self.class
    }

    /// The indexes by number.
    pub fn indexes(&self) -> &[Indexed]
        ensures { result.now ≡ self.now.indexes }
    {
        self.indexes.as_slice()
    }

    /// Gives the list of indexes back.
    pub fn into_indexes(self) -> Vec<Indexed>
        ensures { result.items ≡ self.indexes }
    {
        self.indexes
    }

    /// Appends the class, the number of indexes, and the indexes.
    pub(crate) fn push(&self, bytes: &mut Vec<u8>) -> Result<(), AllocError>
        ensures { OnOk result (bytes.new.items ≡ bytes.old.items ++ head_bytes self.now) }
    {
        push_u32(bytes, self.class)?;
        push_counted(bytes, &self.indexes)
    }

    /// The head that the bytes are.
    pub(crate) fn read(alloc: Global, bytes: &[u8]) -> Result<Head, PickleError>
        ensures found { IfOk result (λ head. IsHead head × (bytes.now ≡ head_bytes head)) }
        ensures form { result ≡ Err Form → (head : HeadFields) → IsHead head → bytes.now ≡ head_bytes head → ⊥ }
    {
        if bytes.len() < 4 {
            return Err(PickleError::Form);
        }
        let (class, rest) = split_u32(bytes);
        let indexes = read_counted(alloc, HEAD_LIMIT, rest)?;
        match Head::new(class, indexes) {
            Some(head) => Ok(head),
            None => Err(PickleError::Form),
        }
    }
}

fn are_in_head(indexes: &[Indexed]) -> bool
    ensures { IsTrue result ↔ All IsInHead indexes.now }
{
    indexes.iter().all(|index| index.number < NUMBER_LIMIT && index.kind < KIND_LIMIT)
}

fn are_numbered(indexes: &[Indexed]) -> bool
    ensures { IsTrue result ↔ AreNumbered indexes.now }
{
    for i in 1..indexes.len() {
        if indexes[i - 1].number >= indexes[i].number {
            return false;
        }
    }
    true
}

/// Number, field, kind and root, in four bytes each.
impl Spelled for Indexed {
    ghost is_item = { IsIndexed };

    ghost spelling = { indexed_bytes };

    ghost one_item = { one_indexed };

    fn known(&self) {
        let _number = self.number;
        let _field = self.field;
        let _kind = self.kind;
        let _root = self.root;
    }

    fn push(&self, bytes: &mut Vec<u8>) -> Result<(), AllocError> {
        push_u32(bytes, self.number)?;
        push_u32(bytes, self.field)?;
        push_u32(bytes, self.kind)?;
        push_u32(bytes, self.root)
    }

    fn split(bytes: &[u8]) -> Option<(Indexed, &[u8])> {
        if bytes.len() < 16 {
            return None;
        }
        let (number, rest) = split_u32(bytes);
        let (field, rest) = split_u32(rest);
        let (kind, rest) = split_u32(rest);
        let (root, rest) = split_u32(rest);
        let index = Indexed {
            number,
            field,
            kind,
            root,
        };
        Some((index, rest))
    }
}
