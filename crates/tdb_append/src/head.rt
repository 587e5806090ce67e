//! The end of the chain of commit texts.
ghost use Rattle.std.specs.Prelude.{◌≡◌, ◌≢◌, ◌↔◌, ◌+◌, Result.{Ok, Err}};

use tdb_base::Digest;

/// How many commits may stand since the last checkpoint.
pub const COMMITS_PER_CHECKPOINT: u64 = 1_000;

/// The last commit text of the chain, which the anchor names.
#[derive(Clone, Copy, Debug, PartialEq, Eq)]
pub struct Head {
    /// Which text it is, counted from 1.
    pub count: u64,
    /// The SHA-256 digest of its 256 bytes.
    pub mark: Digest,
    /// The count of the last checkpoint's text.
    pub base: u64,
}

/// Why no commit may follow.
#[derive(Clone, Copy, Debug, PartialEq, Eq)]
pub enum HeadError {
    /// 1,000 commits stand since the last checkpoint: first comes a checkpoint.
    RingFull,
    /// The count is the greatest that there is.
    CounterEnd,
}

ghost use Rattle.tdb_append.specs.declared.head.HeadError.TheVariants.{RingFull, CounterEnd};

/// Whether a commit may follow. It takes no memory.
pub fn may_commit(head: &Head) -> Result<(), HeadError>
    ensures ring_full { (result ≡ Err RingFull) ↔ (head.now.count ≡ head.now.base + 1000) }
    ensures counter_end { (result ≡ Err CounterEnd) ↔ ((head.now.count ≡ 18446744073709551615) × (head.now.count ≢ head.now.base + 1000)) }
{
    if head.count.checked_sub(head.base) == Some(COMMITS_PER_CHECKPOINT) {
        return Err(HeadError::RingFull);
    }
    if head.count == u64::MAX {
        return Err(HeadError::CounterEnd);
    }
    Ok(())
}
