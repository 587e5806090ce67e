//! The keys of a store.
ghost use Rattle.std.specs.Prelude.{◌≡◌, ◌≤◌, ℕ, List, Err, IfOk, length};
ghost use Rattle.tdb_mark.specs.CommitText.{commit_key_of};
ghost use Rattle.tdb_seal.specs.SealedRecord.{IsSealedRecord};
ghost use Rattle.tdb_seal.specs.declared.record.SealError.TheVariants.{Form};
ghost use Rattle.tdb_overlay.specs.Keys.{system_key, partition_key};
ghost use Rattle.tdb_overlay.specs.Trees.{roster, tree_of};

use crate::overlay::Leader;
use crate::record_keys::{PartitionKeys, SystemKey};
use std::alloc::{AllocError, Global};
use std::marker::Model;
use tdb_base::{PartId, Piece, Suite};
use tdb_mac::PreparedKey;
use tdb_map::Tree;
use tdb_mark::commit_key;
use tdb_seal::{Name, PLAIN_LIMIT, SealError, read_record_with, seal_record_with};

/// A secret, with the keys that are prepared of it. Contracts see the secret.
#[derive(Drop)]
pub struct Keys {
    commit: PreparedKey,
    system: SystemKey,
    partitions: PartitionKeys,
}

impl Model for Keys {
    ghost use Rattle.std.specs.Prelude.{◌≡◌, ℕ, List};
    ghost use Rattle.tdb_mark.specs.CommitText.{commit_key_of};
    ghost use Rattle.tdb_overlay.specs.Keys.{system_key};

    ghost Value = { List ℕ };

    ghost view = { λ keys. keys.partitions };

    ghost invariant = { λ keys. (keys.commit ≡ commit_key_of keys.partitions) × (keys.system ≡ system_key keys.partitions) };
}

impl Keys {
    /// The keys of a secret.
    pub fn new(alloc: Global, secret: &[u8; 32]) -> Keys
        ensures { result ≡ secret.now }
    {
        Keys {
            commit: PreparedKey::new(&commit_key(secret)),
            system: SystemKey::new(secret),
            partitions: PartitionKeys::new(alloc, secret),
        }
    }

    /// The key of commit texts.
    pub fn commit(&self) -> &PreparedKey
        ensures { result.now ≡ commit_key_of self.now }
    {
        &self.commit
    }

    /// The record of a plain text of the system.
    pub fn seal_system(
        &self,
        alloc: Global,
        name: &Name,
        plain: &[u8],
    ) -> Result<Vec<u8>, AllocError>
        requires size { length plain.now ≤ PLAIN_LIMIT }
        ensures { IfOk result (λ bytes. IsSealedRecord (system_key self.now) name.now plain.now bytes.items) }
    {
        seal_record_with(alloc, self.system.under(name.suite), name, plain)
    }

    /// The plain text of the system whose record the bytes are.
    pub fn read_system(
        &self,
        alloc: Global,
        name: &Name,
        bytes: &[u8],
    ) -> Result<Vec<u8>, SealError>
        ensures found { IfOk result (λ plain. IsSealedRecord (system_key self.now) name.now plain.items bytes.now) }
        ensures form { result ≡ Err Form → (plain : List ℕ) → IsSealedRecord (system_key self.now) name.now plain bytes.now → ⊥ }
    {
        read_record_with(alloc, self.system.under(name.suite), name, bytes)
    }

    /// The roster of a checkpoint, by its root. Its nodes have the suite of the store.
    pub fn roster(&self, suite: Suite, root: Option<Piece>) -> Tree
        ensures { result ≡ roster (record { secret = self.now; suite = suite }) root }
    {
        self.partitions.roster(suite, root)
    }

    /// The tree of a partition at the last checkpoint.
    pub fn tree(&self, leader: &Leader) -> Tree
        ensures { result ≡ tree_of self.now leader.now.suite leader.now.home leader.now.birth leader.now.root }
    {
        self.partitions.tree(leader)
    }

    /// The record of a plain text of the partition with a number, whose home the name has, and which the commit with the
    /// count `birth` made. Its key is kept, if there is memory for it.
    pub fn seal_chunk(
        &mut self,
        alloc: Global,
        part: PartId,
        birth: u64,
        name: &Name,
        plain: &[u8],
    ) -> Result<Vec<u8>, AllocError>
        requires size { length plain.now ≤ PLAIN_LIMIT }
        ensures same { self.new ≡ self.old }
        ensures sealed { IfOk result (λ bytes. IsSealedRecord (partition_key self.old name.now.home birth) name.now plain.now bytes.items) }
    {
        self.partitions.seal(alloc, part, birth, name, plain)
    }

    /// The plain text of that partition whose record the bytes are. Its key is kept, if there is memory for it.
    pub fn read_chunk(
        &mut self,
        alloc: Global,
        part: PartId,
        birth: u64,
        name: &Name,
        bytes: &[u8],
    ) -> Result<Vec<u8>, SealError>
        ensures same { self.new ≡ self.old }
        ensures found { IfOk result (λ plain. IsSealedRecord (partition_key self.old name.now.home birth) name.now plain.items bytes.now) }
        ensures form { result ≡ Err Form → (plain : List ℕ)
            → IsSealedRecord (partition_key self.old name.now.home birth) name.now plain bytes.now → ⊥ }
    {
        self.partitions.read(alloc, part, birth, name, bytes)
    }
}
