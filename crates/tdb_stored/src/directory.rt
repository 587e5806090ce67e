//! The directories of hashed indexes.
ghost use Rattle.std.specs.Prelude.{◌≡◌, ◌+◌, ◌≤◌, ◌<◌, ◌^◌, ◌++◌, ◌↔◌, ℕ, List, OnOk, IfOk, IfSome, IsSome, length};
ghost use Rattle.std.specs.Int.{w32, to_be_bytes};
ghost use Rattle.tdb_class.specs.declared.universe.PickleError.TheVariants.{Form};
ghost use Rattle.tdb_stored.specs.Directory.{DirectoryFields, HasBuckets, IsDirectory, directory_bytes};

use crate::items::{known_items, push_items, read_items};
use std::alloc::{AllocError, Global};
use std::marker::Model;
use tdb_base::{push_u32, split_u32};
use tdb_class::PickleError;

const LEVEL_LIMIT: u32 = 32;

/// The root of a hashed index: how many entries it has, and the ranks of its buckets.
#[derive(Debug, Drop)]
pub struct Directory {
    level: u32,
    split: u32,
    entries: u32,
    buckets: Vec<u32>,
}

impl Model for Directory {
    ghost use Rattle.tdb_stored.specs.Directory.{DirectoryFields, IsDirectory};

    ghost Value = { DirectoryFields };

    ghost view = { λ d. record { level = d.level; split = d.split; entries = d.entries; buckets = d.buckets.items } };

    ghost invariant = { λ d. IsDirectory (record { level = d.level; split = d.split; entries = d.entries; buckets = d.buckets.items }) };
}

/// The number of buckets at a level of which so many are split, or `None` where the level is 32
/// or more or as many are split as the level has.
fn bucket_count(level: u32, split: u32) -> Option<usize>
    ensures some { IfSome result (λ count. count ≡ 2 ^ level + split) }
    ensures in_range { IsSome result ↔ ((level < 32) × (split < 2 ^ level)) }
{
    if level >= LEVEL_LIMIT {
        return None;
    }
    let whole = 1u64 << level;
    if u64::from(split) < whole {
        Some((whole + u64::from(split)) as usize)
    } else {
        None
    }
}

fn push_numbers(bytes: &mut Vec<u8>, level: u32, split: u32, entries: u32) -> Result<(), AllocError>
    ensures { OnOk result (bytes.new.items
        ≡ bytes.old.items ++ (to_be_bytes w32 level ++ to_be_bytes w32 split ++ to_be_bytes w32 entries)) }
{
    push_u32(bytes, level)?;
    push_u32(bytes, split)?;
    push_u32(bytes, entries)
}

impl Directory {
    /// The directory of 2^`level` + `split` buckets, or `None` where `level` is 32 or more,
    /// `split` isn't below 2^`level`, or there are more or fewer buckets.
    pub fn new(level: u32, split: u32, entries: u32, buckets: Vec<u32>) -> Option<Directory>
        ensures directory { IfSome result (λ d. d ≡ record { level = level; split = split; entries = entries; buckets = buckets.items }) }
        ensures some { IsSome result ↔ HasBuckets level split (length buckets.items) }
    {
        known_items(&buckets);
        if bucket_count(level, split) == Some(buckets.len()) {
            Some(Directory {
                level,
                split,
                entries,
                buckets,
            })
        } else {
            None
        }
    }

    /// The level: at least 2^`level` buckets are there.
    pub fn level(&self) -> u32
        ensures level { result ≡ self.now.level }
        ensures is_directory { IsDirectory self.now }
    {
        self.level
    }

    /// How many buckets of the level are split.
    pub fn split(&self) -> u32
        ensures { result ≡ self.now.split }
    {
        self.split
    }

    /// How many entries the index has.
    pub fn entries(&self) -> u32
        ensures { result ≡ self.now.entries }
    {
        self.entries
    }

    /// The ranks of the buckets.
    pub fn buckets(&self) -> &[u32]
        ensures { result.now ≡ self.now.buckets }
    {
        self.buckets.as_slice()
    }

    /// Gives the ranks back.
    pub fn into_buckets(self) -> Vec<u32>
        ensures { result.items ≡ self.buckets }
    {
        self.buckets
    }

    /// Appends what a directory holds.
    pub(crate) fn push(&self, bytes: &mut Vec<u8>) -> Result<(), AllocError>
        ensures { OnOk result (bytes.new.items ≡ bytes.old.items ++ directory_bytes self.now) }
    {
        push_numbers(bytes, self.level, self.split, self.entries)?;
        push_items(bytes, &self.buckets)
    }

    /// The directory that the bytes are.
    pub(crate) fn read(alloc: Global, bytes: &[u8]) -> Result<Directory, PickleError>
        ensures found { IfOk result (λ d. IsDirectory d × (bytes.now ≡ directory_bytes d)) }
        ensures form { result ≡ Err Form → (d : DirectoryFields) → IsDirectory d → bytes.now ≡ directory_bytes d → ⊥ }
    {
        if bytes.len() < 12 {
            return Err(PickleError::Form);
        }
        let (level, rest) = split_u32(bytes);
        let (split, rest) = split_u32(rest);
        let (entries, rest) = split_u32(rest);
        let Some(count) = bucket_count(level, split) else {
            return Err(PickleError::Form);
        };
        if rest.len() / 4 < count {
            return Err(PickleError::Form);
        }
        let buckets = read_items(alloc, count, rest)?;
        match Directory::new(level, split, entries, buckets) {
            Some(directory) => Ok(directory),
            None => Err(PickleError::Form),
        }
    }
}
