//! The records that a checkpoint lays: the nodes of the location maps, the leaders of the
//! partitions and the segment table, read from bytes and written to bytes.
//!
//! It stands on tdb_base for the fields. It carries one promise: each value of a format has one
//! spelling, a writer gives it, and a reader answers the value exactly where the bytes are its
//! spelling. A reader that let one other byte string pass would give one node two digests.
#![tactic(auto)]

mod entry;
mod error;
mod leader;
mod node;
mod table;

pub use error::NodeError;
pub use leader::{Leader, read_leader, write_leader};
pub use node::{NODE_ENTRIES, NODE_LENGTH, Node, read_node, write_node};
pub use table::{Table, read_table, write_table};
