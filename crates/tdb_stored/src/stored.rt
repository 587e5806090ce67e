//! The universe of all that chunks of objects hold, over the universe of an application.
ghost use Rattle.std.specs.Prelude.{◌≡◌, ◌++◌, OnOk, None, refl};
ghost use Rattle.tdb_stored.specs.Stored.{stored_class, stored_pickle, ReadsStored, IsNewestStored};
ghost use Rattle.tdb_stored.specs.StoredLaws.{one_stored, one_stored_pickle, stored_pickle_is_newest};

use crate::bucket::Bucket;
use crate::catalog::Catalog;
use crate::directory::Directory;
use crate::entries::Entries;
use crate::head::Head;
use crate::member::Member;
use crate::node::TreeNode;
use crate::sorted::Sorted;
use std::alloc::{AllocError, Global};
use tdb_base::{Bytes, push_bytes, push_u32, split_u32};
use tdb_class::{Field, FieldKind, PickleError, Universe};

/// The class of members.
pub(crate) const MEMBER_CLASS: u32 = 0;

/// The class of catalogs. A chunk of a member begins with a number below it, the member's mask.
pub(crate) const CATALOG_CLASS: u32 = 65_536;

pub(crate) const HEAD_CLASS: u32 = 65_537;

pub(crate) const SORTED_CLASS: u32 = 65_538;

pub(crate) const NODE_CLASS: u32 = 65_539;

pub(crate) const DIRECTORY_CLASS: u32 = 65_540;

pub(crate) const BUCKET_CLASS: u32 = 65_541;

/// What a chunk of objects holds.
#[derive(Debug, Drop)]
pub enum Stored<U: Drop> {
    Member(Member<U>),
    Catalog(Catalog),
    Head(Head),
    Sorted(Sorted),
    Node(TreeNode),
    Directory(Directory),
    Bucket(Bucket),
}

impl<U: Universe> Universe for Stored<U> {
    ghost reads = { ReadsStored U.reads };

    ghost is_newest = { IsNewestStored U.is_newest };

    ghost pickle_of = { stored_pickle U.pickle_of };

    ghost class_of = { stored_class };

    ghost kind_of = { λ class field. None };

    ghost key_of = { λ object field. None };

    ghost one_object = { one_stored U.reads U.one_object };

    ghost one_pickle = { one_stored_pickle U.reads U.is_newest U.pickle_of U.one_pickle };

    ghost pickles_newest = { stored_pickle_is_newest U.reads U.is_newest U.pickle_of U.pickles_newest };

    ghost key_kind = { λ object field. refl };

    fn known(&self) {
        match self {
            Stored::Member(member) => member.known(),
            Stored::Catalog(catalog) => {
                catalog.collections();
            }
            Stored::Head(head) => {
                head.class();
            }
            Stored::Sorted(sorted) => {
                sorted.entries.as_slice();
            }
            Stored::Node(node) => node.known(),
            Stored::Directory(directory) => {
                directory.level();
            }
            Stored::Bucket(bucket) => bucket.known(),
        }
    }

    fn class(&self) -> u32 {
        match self {
            Stored::Member(_) => MEMBER_CLASS,
            Stored::Catalog(_) => CATALOG_CLASS,
            Stored::Head(_) => HEAD_CLASS,
            Stored::Sorted(_) => SORTED_CLASS,
            Stored::Node(_) => NODE_CLASS,
            Stored::Directory(_) => DIRECTORY_CLASS,
            Stored::Bucket(_) => BUCKET_CLASS,
        }
    }

    fn field_kind(_class: u32, _field: u32) -> Option<FieldKind> {
        None
    }

    fn pickle(&self, alloc: Global) -> Result<Bytes, AllocError> {
        let mut bytes = Vec::new(alloc);
        match self {
            Stored::Member(member) => {
                push_u32(&mut bytes, u32::from(member.mask))?;
                let value = member.value.pickle(alloc)?;
                push_bytes(&mut bytes, value.as_slice())?;
            }
            Stored::Catalog(catalog) => {
                push_u32(&mut bytes, CATALOG_CLASS)?;
                catalog.push(&mut bytes)?;
            }
            Stored::Head(head) => {
                push_u32(&mut bytes, HEAD_CLASS)?;
                head.push(&mut bytes)?;
            }
            Stored::Sorted(sorted) => {
                push_u32(&mut bytes, SORTED_CLASS)?;
                sorted.entries.push(&mut bytes)?;
            }
            Stored::Node(node) => {
                push_u32(&mut bytes, NODE_CLASS)?;
                node.push(&mut bytes)?;
            }
            Stored::Directory(directory) => {
                push_u32(&mut bytes, DIRECTORY_CLASS)?;
                directory.push(&mut bytes)?;
            }
            Stored::Bucket(bucket) => {
                push_u32(&mut bytes, BUCKET_CLASS)?;
                bucket.push(&mut bytes)?;
            }
        }
        Ok(Bytes::from(bytes))
    }

    fn unpickle(alloc: Global, bytes: &[u8]) -> Result<Stored<U>, PickleError> {
        if bytes.len() < 4 {
            return Err(PickleError::Form);
        }
        let (first, rest) = split_u32(bytes);
        if first < CATALOG_CLASS {
            let value = U::unpickle(alloc, rest)?;
            let mask = first as u16;
            return Ok(Stored::Member(Member { value, mask }));
        }
        match first {
            CATALOG_CLASS => Ok(Stored::Catalog(Catalog::read(alloc, rest)?)),
            HEAD_CLASS => Ok(Stored::Head(Head::read(alloc, rest)?)),
            SORTED_CLASS => {
                let entries = Entries::read(alloc, rest)?;
                Ok(Stored::Sorted(Sorted { entries }))
            }
            NODE_CLASS => Ok(Stored::Node(TreeNode::read(alloc, rest)?)),
            DIRECTORY_CLASS => Ok(Stored::Directory(Directory::read(alloc, rest)?)),
            BUCKET_CLASS => Ok(Stored::Bucket(Bucket::read(alloc, rest)?)),
            _ => Err(PickleError::Form),
        }
    }

    fn key(&self, _field: u32) -> Option<Field> {
        None
    }
}
