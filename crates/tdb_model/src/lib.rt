//! The state of the database, what each change makes of it, and which changes are refused.
//!
//! It stands on tdb_base for the words, and on `thiserror` for the messages of its errors. It carries
//! the definition that each promise above is measured by: the state is what the commits of a history
//! make, one after another, of the empty database. A change of `specs/` changes what every answer of
//! the database means.
#![tactic(auto)]

mod change;
mod checking;
mod chunks;
mod error;
mod laws;
mod memory;
mod memory_chunks;

pub use change::{CHANGE_LIMIT, CHUNK_LIMIT, Change, PARTITION_LIMIT, PartInfo, RANK_LIMIT, Side};
pub use checking::{Partitions, check_each};
pub use chunks::Chunks;
pub use error::{CommitError, ReadError, SaveError};
pub use laws::{
    copies_are_frozen, first_commits, free_of_no_chunk_changes_nothing, history_goes_on,
    no_test_reads_a_count, ranges_are_kept,
};
pub use memory::MemoryState;
pub use memory_chunks::MemoryChunks;
