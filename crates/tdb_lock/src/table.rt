//! The locks of all open transactions.
ghost use Rattle.std.specs.Prelude.{◌≡◌, true, false, OnOk, OnErr, IfOk, IfErr, IfNone, MatchOption, unwrap_or};
ghost use Rattle.std.specs.FinMap.{empty};
ghost use Rattle.tdb_lock.specs.HeldLocks.{lock_of, with_lock, without_locks_of};
ghost use Rattle.tdb_lock.specs.Conflict.{IsFree, IsLeastInTheWay, IsAnswer};

use crate::error::LockError;
use std::alloc::Global;
use std::collections::BTreeMap;
use std::marker::Model;
use tdb_base::{Id, TxId};

/// The locks of all open transactions.
#[derive(Drop)]
pub struct LockTable {
    exclusive_by_claim: BTreeMap<(Id, TxId), bool>,
}

impl Model for LockTable {
    ghost use Rattle.tdb_lock.specs.HeldLocks.{HeldLocks, coded_locks, locks_in};

    ghost Value = { HeldLocks };

    ghost coded = { coded_locks };

    ghost view = { λ a. locks_in a.exclusive_by_claim };
}

impl LockTable {
    /// A table without a lock. It takes no memory.
    pub fn new(alloc: Global) -> LockTable
        ensures { result ≡ empty }
    {
        LockTable {
            exclusive_by_claim: BTreeMap::new(alloc),
        }
    }

    /// Gives a transaction a lock on an object that other transactions may share. Where it holds one
    /// there, of either kind, nothing changes. A refusal leaves all locks as they were.
    pub fn shared(&mut self, tx: TxId, id: Id) -> Result<(), LockError>
        ensures answer { IsAnswer self.old tx id false result }
        ensures ok { OnOk result (self.new ≡ with_lock self.old tx id false) }
        ensures err { OnErr result (self.new ≡ self.old) }
    {
        self.lock(tx, id, false)
    }

    /// Gives a transaction a lock on an object beside which no other transaction has one. Where it
    /// holds a shared one there, the lock becomes exclusive. A refusal leaves all locks as they were.
    pub fn exclusive(&mut self, tx: TxId, id: Id) -> Result<(), LockError>
        ensures answer { IsAnswer self.old tx id true result }
        ensures ok { OnOk result (self.new ≡ with_lock self.old tx id true) }
        ensures err { OnErr result (self.new ≡ self.old) }
    {
        self.lock(tx, id, true)
    }

    /// Gives back all locks of a transaction. It takes no memory.
    pub fn release(&mut self, tx: TxId)
        ensures { self.new ≡ without_locks_of tx self.old }
    {
        self.exclusive_by_claim.retain(|claim, _| claim.1 != tx);
    }

    fn lock(&mut self, tx: TxId, id: Id, exclusive: bool) -> Result<(), LockError>
        ensures answer { IsAnswer self.old tx id exclusive result }
        ensures ok { OnOk result (self.new ≡ with_lock self.old tx id exclusive) }
        ensures err { OnErr result (self.new ≡ self.old) }
    {
        if let Some(holder) = self.in_the_way(tx, id, exclusive) {
            return Err(LockError::Busy { holder });
        }
        let stays_exclusive = self.holds_exclusively(tx, id);
        match self
            .exclusive_by_claim
            .insert((id, tx), exclusive || stays_exclusive)
        {
            Ok(_) => Ok(()),
            Err(_) => Err(LockError::Memory),
        }
    }

    fn holds_exclusively(&self, tx: TxId, id: Id) -> bool
        ensures { result ≡ unwrap_or (lock_of self.now tx id) false }
    {
        match self.exclusive_by_claim.get(&(id, tx)) {
            Some(exclusive) => *exclusive,
            None => false,
        }
    }

    // The least other transaction whose lock is in the way.
    fn in_the_way(&self, tx: TxId, id: Id, exclusive: bool) -> Option<TxId>
        ensures { MatchOption result (IsFree self.now tx id exclusive) (IsLeastInTheWay self.now tx id exclusive) }
    {
        for (claim, held) in self.exclusive_by_claim.range((id, TxId(0))..) {
            if claim.0 != id {
                return None;
            }
            if claim.1 != tx && (exclusive || *held) {
                return Some(claim.1);
            }
        }
        None
    }
}
