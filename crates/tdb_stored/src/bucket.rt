//! The buckets of a hashed index.
ghost use Rattle.std.specs.Prelude.{◌≡◌, ◌++◌, OnOk, IfOk};
ghost use Rattle.tdb_class.specs.declared.universe.PickleError.TheVariants.{Form};
ghost use Rattle.tdb_stored.specs.Bucket.{IsBucket, bucket_bytes};
ghost use Rattle.tdb_stored.specs.declared.bucket.Bucket.{Bucket as ABucket};

use crate::entries::Entries;
use std::alloc::{AllocError, Global};
use tdb_base::{push_u32, split_u32};
use tdb_class::PickleError;

/// The greatest number of entries in an object of a bucket.
pub const BUCKET_LIMIT: usize = 128;

/// One object of a bucket of a hashed index.
#[derive(Debug, Drop)]
pub struct Bucket {
    /// The rank of the bucket's next object, or 0.
    pub next: u32,
    pub entries: Entries<BUCKET_LIMIT>,
}

impl Bucket {
    /// Each bucket is in range. It costs nothing.
    pub(crate) fn known(&self)
        ensures { IsBucket self.now }
    {
        let _next = self.next;
        self.entries.as_slice();
    }

    /// Appends what a bucket holds.
    pub(crate) fn push(&self, bytes: &mut Vec<u8>) -> Result<(), AllocError>
        ensures { OnOk result (bytes.new.items ≡ bytes.old.items ++ bucket_bytes self.now) }
    {
        push_u32(bytes, self.next)?;
        self.entries.push(bytes)
    }

    /// The bucket that the bytes are.
    pub(crate) fn read(alloc: Global, bytes: &[u8]) -> Result<Bucket, PickleError>
        ensures found { IfOk result (λ bucket. IsBucket bucket × (bytes.now ≡ bucket_bytes bucket)) }
        ensures form { result ≡ Err Form → (bucket : ABucket) → IsBucket bucket → bytes.now ≡ bucket_bytes bucket → ⊥ }
    {
        if bytes.len() < 4 {
            return Err(PickleError::Form);
        }
        let (next, rest) = split_u32(bytes);
        let entries = Entries::read(alloc, rest)?;
        Ok(Bucket { next, entries })
    }
}
