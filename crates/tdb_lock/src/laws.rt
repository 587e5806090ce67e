//! What follows from the table's contracts.
ghost use Rattle.std.specs.Prelude.{Bool};
ghost use Rattle.std.specs.FinMap.{empty};
ghost use Rattle.tdb_base.specs.declared.names.Id.{Id};
ghost use Rattle.tdb_base.specs.declared.names.TxId.{TxId};
ghost use Rattle.tdb_lock.specs.AreExclusive.{AreExclusive};
ghost use Rattle.tdb_lock.specs.Conflict.{IsFree};
ghost use Rattle.tdb_lock.specs.HeldLocks.{HeldLocks, with_lock, without_locks_of};

/// What one transaction has locked exclusively no other has locked. So it is where no lock is held, and
/// each lock that is given, and each that is given back, keeps it so.
pub fn locks_stay_exclusive()
    ensures none { AreExclusive empty }
    ensures given { (locks : HeldLocks) (tx : TxId) (id : Id) (exclusive : Bool) → IsFree locks tx id exclusive → AreExclusive locks
        → AreExclusive (with_lock locks tx id exclusive) }
    ensures given_back { (locks : HeldLocks) (tx : TxId) → AreExclusive locks → AreExclusive (without_locks_of tx locks) }
{}
