//! Whose chunk a record is.

use tdb_base::{PartId, Suite};

/// A partition with what its records are sealed by.
#[derive(Clone, Copy, Debug, PartialEq, Eq)]
pub(crate) struct Owner {
    pub part: PartId,
    /// The suite of its records.
    pub suite: Suite,
    /// The number of the partition that was made. With `birth` it names the key of its records.
    pub home: u32,
    /// The count of the commit that made it.
    pub birth: u64,
}
