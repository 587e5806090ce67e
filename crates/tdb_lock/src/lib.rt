//! Which transaction holds a lock on which object, and who keeps another from one.
//!
//! It stands on tdb_base for the numbers, and on `thiserror` for the messages of its error. It carries
//! one promise: a lock is refused exactly where another transaction's lock is in the way, by the least
//! such transaction, and a transaction's end gives back all of its locks. So what one transaction has
//! locked exclusively no other has locked. A change of `specs/` changes which interleavings there are.
#![tactic(auto)]

mod error;
mod laws;
mod table;

pub use error::LockError;
pub use laws::locks_stay_exclusive;
pub use table::LockTable;
