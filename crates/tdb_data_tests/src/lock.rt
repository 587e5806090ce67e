use std::test::Fail;
use tdb_base::{Id, PartId, Rank, TxId};
use tdb_lock::{LockError, LockTable};

const FIRST: TxId = TxId(1);

const SECOND: TxId = TxId(2);

const THIRD: TxId = TxId(3);

fn object(rank: u32) -> Id {
    Id {
        part: PartId(1),
        rank: Rank(rank),
    }
}

#[test]
fn a_reader_keeps_a_writer_waiting_until_it_ends(rt: HostRuntime) -> Result<(), Fail> {
    let mut locks = LockTable::new(rt.alloc());
    assert_eq!(rt; locks.shared(FIRST, object(5)), Ok(()));
    let busy = LockError::Busy { holder: FIRST };
    assert_eq!(rt; locks.exclusive(SECOND, object(5)), Err(busy));
    locks.release(FIRST);
    assert_eq!(rt; locks.exclusive(SECOND, object(5)), Ok(()));
    assert_eq!(rt;
        locks.exclusive(SECOND, object(5)),
        Ok(()),
        "its own lock is no conflict"
    );
    Ok(())
}

#[test]
fn each_kind_of_conflict_is_answered_by_the_least_holder(rt: HostRuntime) -> Result<(), Fail> {
    let mut locks = LockTable::new(rt.alloc());
    for tx in [THIRD, SECOND, FIRST] {
        assert_eq!(rt; locks.shared(tx, object(5)), Ok(()));
    }
    let by_first = LockError::Busy { holder: FIRST };
    assert_eq!(rt; locks.exclusive(THIRD, object(5)), Err(by_first));
    let by_second = LockError::Busy { holder: SECOND };
    assert_eq!(rt; locks.exclusive(FIRST, object(5)), Err(by_second));

    locks.release(FIRST);
    locks.release(SECOND);
    assert_eq!(rt;
        locks.exclusive(THIRD, object(5)),
        Ok(()),
        "nobody else has one"
    );
    assert_eq!(rt; locks.shared(THIRD, object(5)), Ok(()));
    let by_third = LockError::Busy { holder: THIRD };
    assert_eq!(rt;
        locks.shared(FIRST, object(5)),
        Err(by_third),
        "it stays exclusive"
    );
    assert_eq!(rt; locks.exclusive(FIRST, object(6)), Ok(()), "another object");
    Ok(())
}
