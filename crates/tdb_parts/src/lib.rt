//! What is said of whole partitions: which changes of a commit are refused, against the partitions
//! as the lists of changes tell them.
//!
//! It stands on tdb_overlay for the partitions that are told, and on tdb_model for the check. It
//! carries the promise that a commit is refused exactly where the state says so, though the state
//! is nowhere in memory. If it were changed, a commit would break the state, or be refused for nothing.
#![tactic(auto)]

mod checking;
mod comparing;
mod leaves;
mod pair;

pub use checking::check;
pub use comparing::changed;
