//! Slots of commit texts, and the refusals of a head.
use std::test::Fail;
use tdb_append::{Head, HeadError, may_commit, slot_of};
use tdb_base::Digest;

#[test]
fn a_slot_comes_again_after_1024_counts(rt: HostRuntime) {
    let slots = [(1, 0), (2, 256), (1_024, 261_888), (1_025, 0), (1_026, 256)];
    for (count, place) in slots {
        assert_eq!(rt; slot_of(count).0, place, "the slot of {count}");
    }
}

#[test]
fn a_full_ring_is_refused_before_the_last_count(rt: HostRuntime) {
    let heads = [
        (1, 1, Ok(())),
        (1_000, 1, Ok(())),
        (1_001, 1, Err(HeadError::RingFull)),
        (1_002, 1_002, Ok(())),
        (u64::MAX, u64::MAX, Err(HeadError::CounterEnd)),
        (
            u64::MAX,
            18_446_744_073_709_550_615,
            Err(HeadError::RingFull),
        ),
        (18_446_744_073_709_551_614, u64::MAX - 1, Ok(())),
    ];
    for (count, base, answer) in heads {
        let head = Head {
            count,
            mark: Digest([0; 32]),
            base,
        };
        assert_eq!(rt; may_commit(&head), answer, "count {count}, base {base}");
    }
}
