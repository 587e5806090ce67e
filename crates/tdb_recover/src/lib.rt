//! Opening a log: what the device shows is checked against the anchor, text by text and piece by
//! piece, and what it says is kept in memory.
//!
//! It stands on the formats of texts, tables, leaders and lists, on the trees of tdb_map, and on the
//! definitions of a log in tdb_overlay. It carries the promise that what is opened is the state that
//! the anchor's log tells, whatever the device shows, and that damage is told only of a text, the
//! table, a node of the roster, a leader or a list that the log needs.
#![tactic(auto)]

mod ahead;
mod error;
mod opening;
mod records;
mod replay;
mod roster;
mod taking;
mod texts;

pub use ahead::{Pending, look_ahead};
pub use error::OpenError;
pub use opening::{read_log, recover};
pub use taking::take;
