//! The nodes of location maps that were read last, by their digests.
//!
//! It stands on tdb_node for the nodes, and on `lru` for the order of use. It carries one promise: a look-up
//! gives the node that was kept under the digest, or none exactly where the cache hasn't it. How many nodes
//! there are at most is told when a cache is made, and the one that was used longest ago goes first.
#![tactic(auto)]

mod cache;
mod laws;

pub use cache::NodeCache;
pub use laws::{nodes_found_were_kept, nodes_stay_within_capacity};
