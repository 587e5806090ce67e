//! The keys of a store's records, each derived and prepared once.
ghost use Rattle.std.specs.Prelude.{◌≡◌, ◌≤◌, ℕ, List, Err, IfOk, IfSome, IsTrue, length};
ghost use Rattle.tdb_seal.specs.SealedRecord.{IsSealedRecord};
ghost use Rattle.tdb_seal.specs.declared.record.SealError.TheVariants.{Form};
ghost use Rattle.tdb_overlay.specs.Keys.{system_key, partition_key};
ghost use Rattle.tdb_overlay.specs.KeptKeys.{IsOf};
ghost use Rattle.tdb_overlay.specs.Trees.{roster, tree_of};

use crate::overlay::Leader;
use std::alloc::{AllocError, Global};
use std::collections::BTreeMap;
use std::marker::Model;
use tdb_base::{PartId, Piece, Suite};
use tdb_mac::derive;
use tdb_map::Tree;
use tdb_seal::{Name, PLAIN_LIMIT, RecordKey, SealError, read_record_with, seal_record_with};

/// The key of the records of the system, prepared for each suite: which of them the store has, its texts tell later.
/// Contracts see the key's bytes.
#[derive(Drop)]
pub(crate) struct SystemKey {
    plain: RecordKey,
    aes128: RecordKey,
    aes256: RecordKey,
}

/// The key of a partition, prepared for its suite.
#[derive(Drop)]
pub(crate) struct KeptKey {
    home: u32,
    birth: u64,
    suite: Suite,
    key: RecordKey,
}

/// The keys of the partitions whose records were sealed or read, by the partitions' numbers. A partition that was dropped
/// and made anew has another birth. Contracts see the secret that they are derived from.
#[derive(Drop)]
pub(crate) struct PartitionKeys {
    secret: [u8; 32],
    by_number: BTreeMap<u32, KeptKey>,
}

impl Model for SystemKey {
    ghost use Rattle.std.specs.Prelude.{◌≡◌, ℕ, List};
    ghost use Rattle.tdb_base.specs.declared.suite.Suite.TheVariants.{Plain, Aes128, Aes256};

    ghost Value = { List ℕ };

    ghost view = { λ k. k.plain.bytes };

    ghost invariant = { λ k. (k.plain ≡ record { suite = Plain; bytes = k.plain.bytes })
        × (k.aes128 ≡ record { suite = Aes128; bytes = k.plain.bytes })
        × (k.aes256 ≡ record { suite = Aes256; bytes = k.plain.bytes }) };
}

impl Model for PartitionKeys {
    ghost use Rattle.std.specs.Prelude.{ℕ, List};
    ghost use Rattle.tdb_overlay.specs.KeptKeys.{AreOf};

    ghost Value = { List ℕ };

    ghost view = { λ k. k.secret };

    ghost invariant = { λ k. AreOf k.secret k.by_number };
}

impl SystemKey {
    pub(crate) fn new(secret: &[u8; 32]) -> SystemKey
        ensures { result ≡ system_key secret.now }
    {
        let key = derive(secret, b"TDBsystm", 0, 0);
        SystemKey {
            plain: RecordKey::new(&key, Suite::Plain),
            aes128: RecordKey::new(&key, Suite::Aes128),
            aes256: RecordKey::new(&key, Suite::Aes256),
        }
    }

    /// The key for the records of a suite.
    pub(crate) fn under(&self, suite: Suite) -> &RecordKey
        ensures { result.now ≡ record { suite = suite; bytes = self.now } }
    {
        match suite {
            Suite::Plain => &self.plain,
            Suite::Aes128 => &self.aes128,
            Suite::Aes256 => &self.aes256,
        }
    }
}

impl PartitionKeys {
    /// No key yet.
    pub(crate) fn new(alloc: Global, secret: &[u8; 32]) -> PartitionKeys
        ensures { result ≡ secret.now }
    {
        PartitionKeys {
            secret: *secret,
            by_number: BTreeMap::new(alloc),
        }
    }

    /// The roster with this root, under the key of the system.
    pub(crate) fn roster(&self, suite: Suite, root: Option<Piece>) -> Tree
        ensures { result ≡ roster (record { secret = self.now; suite = suite }) root }
    {
        Tree {
            root,
            key: derive(&self.secret, b"TDBsystm", 0, 0),
            suite,
            home: 0,
        }
    }

    /// The tree of a partition, under its key.
    pub(crate) fn tree(&self, leader: &Leader) -> Tree
        ensures { result ≡ tree_of self.now leader.now.suite leader.now.home leader.now.birth leader.now.root }
    {
        Tree {
            root: leader.root,
            key: derive(
                &self.secret,
                b"TDBpartn",
                u64::from(leader.home),
                leader.birth,
            ),
            suite: leader.suite,
            home: leader.home,
        }
    }

    /// The record of a plain text of a partition.
    pub(crate) fn seal(
        &mut self,
        alloc: Global,
        part: PartId,
        birth: u64,
        name: &Name,
        plain: &[u8],
    ) -> Result<Vec<u8>, AllocError>
        requires size { length plain.now ≤ PLAIN_LIMIT }
        ensures same { self.new ≡ self.old }
        ensures sealed { IfOk result (λ bytes. IsSealedRecord (partition_key self.old name.now.home birth) name.now plain.now bytes.items) }
    {
        if let Some(key) = self.find(part, birth, name) {
            return seal_record_with(alloc, key, name, plain);
        }
        let prepared = self.prepared(birth, name);
        let sealed = seal_record_with(alloc, &prepared.key, name, plain);
        self.keep(part, prepared);
        sealed
    }

    /// The plain text of a partition whose record the bytes are.
    pub(crate) fn read(
        &mut self,
        alloc: Global,
        part: PartId,
        birth: u64,
        name: &Name,
        bytes: &[u8],
    ) -> Result<Vec<u8>, SealError>
        ensures same { self.new ≡ self.old }
        ensures found { IfOk result (λ plain. IsSealedRecord (partition_key self.old name.now.home birth) name.now plain.items bytes.now) }
        ensures form { result ≡ Err Form → (plain : List ℕ)
            → IsSealedRecord (partition_key self.old name.now.home birth) name.now plain bytes.now → ⊥ }
    {
        if let Some(key) = self.find(part, birth, name) {
            return read_record_with(alloc, key, name, bytes);
        }
        let prepared = self.prepared(birth, name);
        let read = read_record_with(alloc, &prepared.key, name, bytes);
        self.keep(part, prepared);
        read
    }

    /// The key that is kept for a partition's number, if it is that of the partition with this birth and the name's home
    /// and suite.
    fn find(&self, part: PartId, birth: u64, name: &Name) -> Option<&RecordKey>
        ensures { IfSome result (λ key. key.now ≡ record { suite = name.now.suite; bytes = partition_key self.now name.now.home birth }) }
    {
        match self.by_number.get(&part.0) {
            Some(kept) if kept.is_for(birth, name) => Some(&kept.key),
            _ => None,
        }
    }

    /// The key of a partition.
    fn prepared(&self, birth: u64, name: &Name) -> KeptKey
        ensures of { IsOf self.now result }
        ensures home { result.home ≡ name.now.home }
        ensures birth { result.birth ≡ birth }
        ensures suite { result.suite ≡ name.now.suite }
    {
        let key = derive(&self.secret, b"TDBpartn", u64::from(name.home), birth);
        KeptKey {
            home: name.home,
            birth,
            suite: name.suite,
            key: RecordKey::new(&key, name.suite),
        }
    }

    /// Keeps a key for a partition's number in place of another one. Where there is no memory for it, it isn't kept.
    fn keep(&mut self, part: PartId, prepared: KeptKey)
        requires { IsOf self.old prepared }
        ensures { self.new ≡ self.old }
    {
        let _kept = self.by_number.insert(part.0, prepared);
    }
}

impl KeptKey {
    /// Whether it is the key of the partition with this birth and the name's home, for the name's suite.
    fn is_for(&self, birth: u64, name: &Name) -> bool
        ensures home { IsTrue result → self.now.home ≡ name.now.home }
        ensures birth { IsTrue result → self.now.birth ≡ birth }
        ensures suite { IsTrue result → self.now.suite ≡ name.now.suite }
    {
        self.birth == birth && self.home == name.home && self.suite == name.suite
    }
}
