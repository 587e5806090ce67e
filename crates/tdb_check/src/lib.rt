//! Checkpoints: what was changed since the last one goes into the trees of its partitions.
//!
//! It stands on tdb_map for the trees and on tdb_overlay for what is kept in memory of a log and for the step that a
//! text is. It carries the promise that a checkpoint keeps the state: after it the tree of the base is the state,
//! and no change list is needed any more. If it were changed, a store would lose chunks when its log is cut.
#![tactic(auto)]

mod laws;

pub use laws::{checkpoint_is_a_step, checkpoint_is_known};
