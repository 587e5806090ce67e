//! Which segments of the device are used, and where the next piece goes.
//!
//! It stands on tdb_base for places and pieces, and on tdb_node for the segment table. It carries
//! the promise that pieces are placed by one rule, which the definition `place_in` states: behind
//! the tail where they fit, else at the start of the least free segment, and only while more
//! segments are free than the caller keeps. With another rule a commit would write over pieces
//! that the database still needs, or be refused for room that is there.
#![tactic(auto)]

mod segments;
mod used;

pub use segments::Segments;
