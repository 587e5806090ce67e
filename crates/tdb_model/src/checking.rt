//! Which changes are refused.
ghost use Rattle.std.specs.Prelude.{◌≡◌, ◌<◌, ◌^◌, None, OnOk, length};
ghost use Rattle.std.specs.Result.{result_err};
ghost use Rattle.tdb_model.specs.Apply.{apply_all};
ghost use Rattle.tdb_model.specs.Check.{check, check_commit, first_that_holds, is_frozen, is_no_number, is_target};
ghost use Rattle.tdb_model.specs.Check.{is_there, has_target, refusal};
ghost use Rattle.tdb_model.specs.declared.change.Change.TheVariants.{Write, Free, Make, Copy, Drop};
ghost use Rattle.tdb_model.specs.Lookup.{parent_at};
ghost use Rattle.tdb_model.specs.Memory.{parent_behind};
ghost use Rattle.tdb_model.specs.State.{State};

use crate::change::{CHANGE_LIMIT, CHUNK_LIMIT, Change, PARTITION_LIMIT, RANK_LIMIT};
use crate::error::CommitError;
use crate::memory::MemoryState;
use tdb_base::{Bytes, PartId, Rank, Suite};

/// Partitions, as a check of changes sees them.
pub trait Partitions {
    /// A state that has these partitions, each made or copied as it is. What else it has of them is of no account.
    ghost state: { Self → State };

    /// The parent of a partition, 0 where it was made, and `None` where it isn't there. It takes no memory.
    fn parent(&self, part: PartId) -> Option<u32>
        ensures { result ≡ parent_at (state self.now) part.0 };
}

/// The answer of the first test that holds.
fn answer_of(tests: &[(bool, CommitError)]) -> Result<(), CommitError>
    ensures { result_err result ≡ first_that_holds tests.now }
{
    for (holds, answer) in tests {
        if *holds {
            return Err(*answer);
        }
    }
    Ok(())
}

/// Whether the number is outside 1 to 4,095.
fn is_no_partition(part: PartId) -> bool
    ensures { result ≡ is_no_number part }
{
    part.0 < 1 || part.0 > PARTITION_LIMIT
}

/// Whether the change makes or drops this partition, or copies to it.
fn targets(change: &Change, part: PartId) -> bool
    ensures { result ≡ has_target part change.now }
{
    match change {
        Change::Write { .. } | Change::Free { .. } => false,
        Change::Make { part: made, .. } => made.0 == part.0,
        Change::Copy { to, .. } => to.0 == part.0,
        Change::Drop { part: dropped } => dropped.0 == part.0,
    }
}

/// Whether one of these changes does.
fn is_twice(earlier: &[Change], part: PartId) -> bool
    ensures { result ≡ is_target earlier.now part }
{
    for change in earlier {
        if targets(change, part) {
            return true;
        }
    }
    false
}

/// The parent of a partition after a change that passes, by its parent before.
fn next_parent(parent: Option<u32>, change: &Change, part: PartId) -> Option<u32>
    ensures { result ≡ parent_behind change.now part.0 parent }
{
    match change {
        Change::Make { part: made, .. } if made.0 == part.0 => Some(0),
        Change::Copy { from, to } if to.0 == part.0 => Some(from.0),
        Change::Drop { part: dropped } if dropped.0 == part.0 => None,
        _ => parent,
    }
}

impl MemoryState {
    /// Whether the changes of a commit are refused, and why. It takes no memory.
    pub fn check(&self, changes: &[Change]) -> Result<(), CommitError>
        requires few { length changes.now < 2 ^ 32 }
        ensures answer { result_err result ≡ check_commit self.now changes.now }
        ensures passes { OnOk result (check self.now changes.now ≡ None) }
    {
        if changes.len() > CHANGE_LIMIT {
            return Err(CommitError::TooManyChanges {
                number: changes.len() as u32,
            });
        }
        check_each(self, changes)
    }
}

/// Whether changes are refused against partitions, and why. It tests each change, and not their number. It takes no memory.
pub fn check_each<P: Partitions>(partitions: &P, changes: &[Change]) -> Result<(), CommitError>
    ensures { result_err result ≡ check (P.state partitions.now) changes.now }
{
    for (index, change) in changes.iter().enumerate() {
        check_change(partitions, &changes[..index], change)?;
    }
    Ok(())
}

/// Whether a change is refused behind earlier ones that pass, and why.
fn check_change<P: Partitions>(
    partitions: &P,
    earlier: &[Change],
    change: &Change,
) -> Result<(), CommitError>
    requires { check (P.state partitions.now) earlier.now ≡ None }
    ensures { result_err result ≡ refusal earlier.now (apply_all 0 (P.state partitions.now) earlier.now) change.now }
{
    match change {
        Change::Write { part, rank, bytes } => check_write(
            partitions, earlier, *part, *rank, bytes,
        ),
        Change::Free { part, rank } => check_free(partitions, earlier, *part, *rank),
        Change::Make { part, suite } => check_make(partitions, earlier, *part, *suite),
        Change::Copy { from, to } => check_copy(partitions, earlier, *from, *to),
        Change::Drop { part } => check_drop(partitions, earlier, *part),
    }
}

fn check_write<P: Partitions>(
    partitions: &P,
    earlier: &[Change],
    part: PartId,
    rank: Rank,
    bytes: &Bytes,
) -> Result<(), CommitError>
    requires { check (P.state partitions.now) earlier.now ≡ None }
    ensures { result_err result ≡ refusal earlier.now (apply_all 0 (P.state partitions.now) earlier.now) (Write part rank bytes.now) }
{
    answer_of(&[
        (is_no_partition(part), CommitError::PartitionNumber),
        (
            !has_partition(partitions, earlier, part),
            CommitError::NoPartition { part },
        ),
        (
            has_copy(partitions, earlier, part),
            CommitError::Frozen { part },
        ),
        (rank.0 >= RANK_LIMIT, CommitError::RankTooLarge),
        (bytes.len() > CHUNK_LIMIT, CommitError::ChunkTooLong),
    ])
}

fn check_free<P: Partitions>(
    partitions: &P,
    earlier: &[Change],
    part: PartId,
    rank: Rank,
) -> Result<(), CommitError>
    requires { check (P.state partitions.now) earlier.now ≡ None }
    ensures { result_err result ≡ refusal earlier.now (apply_all 0 (P.state partitions.now) earlier.now) (Free part rank) }
{
    let frozen = has_copy(partitions, earlier, part);
    answer_of(&[
        (is_no_partition(part), CommitError::PartitionNumber),
        (
            !has_partition(partitions, earlier, part),
            CommitError::NoPartition { part },
        ),
        (frozen, CommitError::Frozen { part }),
        (rank.0 >= RANK_LIMIT, CommitError::RankTooLarge),
    ])
}

fn check_make<P: Partitions>(
    partitions: &P,
    earlier: &[Change],
    part: PartId,
    suite: Suite,
) -> Result<(), CommitError>
    requires { check (P.state partitions.now) earlier.now ≡ None }
    ensures { result_err result ≡ refusal earlier.now (apply_all 0 (P.state partitions.now) earlier.now) (Make part suite) }
{
    answer_of(&[
        (is_no_partition(part), CommitError::PartitionNumber),
        (
            is_twice(earlier, part),
            CommitError::PartitionTwice { part },
        ),
        (
            has_partition(partitions, earlier, part),
            CommitError::PartitionExists { part },
        ),
    ])
}

fn check_copy<P: Partitions>(
    partitions: &P,
    earlier: &[Change],
    from: PartId,
    to: PartId,
) -> Result<(), CommitError>
    requires { check (P.state partitions.now) earlier.now ≡ None }
    ensures { result_err result ≡ refusal earlier.now (apply_all 0 (P.state partitions.now) earlier.now) (Copy from to) }
{
    let outside = is_no_partition(from) || is_no_partition(to);
    answer_of(&[
        (outside, CommitError::PartitionNumber),
        (
            is_twice(earlier, to),
            CommitError::PartitionTwice { part: to },
        ),
        (
            !has_partition(partitions, earlier, from),
            CommitError::NoPartition { part: from },
        ),
        (
            has_partition(partitions, earlier, to),
            CommitError::PartitionExists { part: to },
        ),
    ])
}

fn check_drop<P: Partitions>(
    partitions: &P,
    earlier: &[Change],
    part: PartId,
) -> Result<(), CommitError>
    requires { check (P.state partitions.now) earlier.now ≡ None }
    ensures { result_err result ≡ refusal earlier.now (apply_all 0 (P.state partitions.now) earlier.now) (Drop part) }
{
    answer_of(&[
        (is_no_partition(part), CommitError::PartitionNumber),
        (
            is_twice(earlier, part),
            CommitError::PartitionTwice { part },
        ),
        (
            !has_partition(partitions, earlier, part),
            CommitError::NoPartition { part },
        ),
    ])
}

/// Whether the partition is there after changes that pass.
fn has_partition<P: Partitions>(partitions: &P, earlier: &[Change], part: PartId) -> bool
    requires { check (P.state partitions.now) earlier.now ≡ None }
    ensures { result ≡ is_there (apply_all 0 (P.state partitions.now) earlier.now) part }
{
    parent_after(partitions, earlier, part).is_some()
}

/// Whether it is there and is a copy.
fn has_copy<P: Partitions>(partitions: &P, earlier: &[Change], part: PartId) -> bool
    requires { check (P.state partitions.now) earlier.now ≡ None }
    ensures { result ≡ is_frozen (apply_all 0 (P.state partitions.now) earlier.now) part }
{
    match parent_after(partitions, earlier, part) {
        Some(parent) => parent != 0,
        None => false,
    }
}

/// The parent of a partition after changes that pass.
fn parent_after<P: Partitions>(partitions: &P, earlier: &[Change], part: PartId) -> Option<u32>
    requires { check (P.state partitions.now) earlier.now ≡ None }
    ensures { result ≡ parent_at (apply_all 0 (P.state partitions.now) earlier.now) part.0 }
{
    let mut parent = partitions.parent(part);
    for change in earlier {
        parent = next_parent(parent, change, part);
    }
    parent
}
