//! The grammar of a backup's stream: its header, its items and its end, written and read.
//!
//! It stands on tdb_seal for the records of items, on tdb_model for the limits of chunks, and on
//! tdb_base for the fields. It carries one promise: each value has one spelling, a writer gives it,
//! and a reader answers the value exactly where the bytes are its spelling. An item is read only
//! under its own rank, the stream's part and suite, and the backup's key. A reader that took other
//! bytes would let a changed stream be restored as another one.
#![tactic(auto)]

mod end;
mod header;
mod item;
mod laws;

pub use end::{END_LENGTH, read_end, write_end};
pub use header::{FULL, HEADER_LENGTH, Header, INCREMENTAL, read_header, write_header};
pub use item::{Item, ItemError, read_item, write_item};
pub use laws::{bytes_are_one_item, header_has_one_text, item_has_one_text};
