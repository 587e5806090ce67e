//! The catalog of collections.
ghost use Rattle.std.specs.Prelude.{◌≡◌, ◌≢◌, ◌<◌, ◌≤◌, ◌++◌, ◌↔◌, ℕ, List, All, OnOk, IfOk, IfSome, IsSome, IsTrue, length};
ghost use Rattle.tdb_class.specs.declared.universe.PickleError.TheVariants.{Form};
ghost use Rattle.tdb_stored.specs.Catalog.{IsCatalog, IsListed, IsInCatalog, AreNumbered, NamesDiffer, catalog_bytes, listed_bytes};
ghost use Rattle.tdb_stored.specs.CatalogLaws.{one_listed};
ghost use Rattle.tdb_stored.specs.declared.catalog.Listed.{Listed as AListed};

use crate::items::{known_items, push_counted, read_counted};
use crate::spelled::Spelled;
use std::alloc::{AllocError, Global};
use std::marker::Model;
use tdb_base::{push_u32, split_u32};
use tdb_class::{PickleError, ShortText, push_text, split_text};

/// The greatest number of collections. Their numbers are below it.
pub const CATALOG_LIMIT: usize = 16;

const NUMBER_LIMIT: u32 = 16;

/// A collection in the catalog.
#[derive(Clone, Copy, Debug)]
pub struct Listed {
    pub number: u32,
    pub name: ShortText,
    /// The rank of the collection's head.
    pub head: u32,
}

/// The collections, by number. Contracts see their list.
#[derive(Debug, Drop)]
pub struct Catalog {
    collections: Vec<Listed>,
}

impl Model for Catalog {
    ghost use Rattle.std.specs.Prelude.{List};
    ghost use Rattle.tdb_stored.specs.declared.catalog.Listed.{Listed};
    ghost use Rattle.tdb_stored.specs.Catalog.{IsCatalog};

    ghost Value = { List Listed };

    ghost view = { λ catalog. catalog.collections.items };

    ghost invariant = { λ catalog. IsCatalog catalog.collections.items };
}

impl Catalog {
    /// The catalog of these collections, or `None` where they are more than 16, a number is 16 or
    /// more, a name is no word, the numbers don't ascend, or two names are one.
    pub fn new(collections: Vec<Listed>) -> Option<Catalog>
        ensures catalog { IfSome result (λ catalog. catalog ≡ collections.items) }
        ensures some { IsSome result ↔ IsCatalog collections.items }
    {
        known_items(&collections);
        if collections.len() <= CATALOG_LIMIT
            && are_in_catalog(&collections)
            && are_numbered(&collections)
            && names_differ(&collections)
        {
            Some(Catalog { collections })
        } else {
            None
        }
    }

    /// The collections by number.
    pub fn collections(&self) -> &[Listed]
        ensures collections { result.now ≡ self.now }
        ensures is_catalog { IsCatalog self.now }
    {
        self.collections.as_slice()
    }

    /// Gives the list back.
    pub fn into_vec(self) -> Vec<Listed>
        ensures { result.items ≡ self }
    {
        self.collections
    }

    /// Appends their number and the collections.
    pub(crate) fn push(&self, bytes: &mut Vec<u8>) -> Result<(), AllocError>
        ensures { OnOk result (bytes.new.items ≡ bytes.old.items ++ catalog_bytes self.now) }
    {
        push_counted(bytes, &self.collections)
    }

    /// The catalog that the bytes are.
    pub(crate) fn read(alloc: Global, bytes: &[u8]) -> Result<Catalog, PickleError>
        ensures found { IfOk result (λ catalog. IsCatalog catalog × (bytes.now ≡ catalog_bytes catalog)) }
        ensures form { result ≡ Err Form → (catalog : List AListed) → IsCatalog catalog → bytes.now ≡ catalog_bytes catalog → ⊥ }
    {
        let collections = read_counted(alloc, CATALOG_LIMIT, bytes)?;
        match Catalog::new(collections) {
            Some(catalog) => Ok(catalog),
            None => Err(PickleError::Form),
        }
    }
}

fn are_in_catalog(collections: &[Listed]) -> bool
    ensures { IsTrue result ↔ All IsInCatalog collections.now }
{
    collections.iter().all(|listed| is_in_catalog(listed))
}

fn is_in_catalog(listed: &Listed) -> bool
    ensures { IsTrue result ↔ IsInCatalog listed.now }
{
    listed.number < NUMBER_LIMIT && listed.name.is_word()
}

fn are_numbered(collections: &[Listed]) -> bool
    ensures { IsTrue result ↔ AreNumbered collections.now }
{
    for i in 1..collections.len() {
        if collections[i - 1].number >= collections[i].number {
            return false;
        }
    }
    true
}

fn names_differ(collections: &[Listed]) -> bool
    ensures { IsTrue result ↔ NamesDiffer collections.now }
{
    let mut rest = collections;
    while let [first, others @ ..] = rest {
        if !lack_name(others, &first.name) {
            return false;
        }
        rest = others;
    }
    true
}

fn lack_name(collections: &[Listed], name: &ShortText) -> bool
    ensures { IsTrue result ↔ All (λ listed. listed.name ≢ name.now) collections.now }
{
    collections.iter().all(|listed| differ(&listed.name, name))
}

fn differ(a: &ShortText, b: &ShortText) -> bool
    ensures { IsTrue result ↔ (a.now ≢ b.now) }
{
    a.bytes() != b.bytes()
}

/// A number and a head's rank in four bytes each, and between them the name behind its length.
impl Spelled for Listed {
    ghost is_item = { IsListed };

    ghost spelling = { listed_bytes };

    ghost one_item = { one_listed };

    fn known(&self) {
        let _number = self.number;
        let _head = self.head;
        self.name.bytes();
    }

    fn push(&self, bytes: &mut Vec<u8>) -> Result<(), AllocError> {
        push_u32(bytes, self.number)?;
        push_text(bytes, &self.name)?;
        push_u32(bytes, self.head)
    }

    fn split(bytes: &[u8]) -> Option<(Listed, &[u8])> {
        if bytes.len() < 4 {
            return None;
        }
        let (number, rest) = split_u32(bytes);
        let Some(parts) = split_text(rest) else {
            return None;
        };
        if parts.1.len() < 4 {
            return None;
        }
        let (head, rest) = split_u32(parts.1);
        let listed = Listed {
            number,
            name: parts.0,
            head,
        };
        Some((listed, rest))
    }
}
