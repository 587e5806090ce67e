//! The list of changes that a commit makes, written to bytes and read from bytes.
//!
//! It stands on tdb_base for the fields. It carries one promise: each list of entries in the
//! grammar has one spelling, the writer gives it, and the reader answers the list exactly where
//! the bytes are its spelling. A commit is replayed from these bytes alone, so a reader that let
//! one other byte string pass would let two histories differ that have one digest.
#![tactic(auto)]

mod entry;
mod list;

pub use entry::Entry;
pub use list::{ListError, read_list, write_list};
