//! Commit texts: the 256 bytes that make a commit, and the chain that they form by their marks.
//!
//! It stands on `tdb_base` for fields, `tdb_mac` for tags and `sha2` for marks. It promises that a
//! commit has one text under a key, that a text is read exactly where it is one, and, as laws, that
//! the chain of texts that ends at an anchor only grows. All that the store believes of its device
//! begins with such a text: a reader that took one more would take a forged history.
#![tactic(auto)]

mod commit;
mod laws;
mod text;

pub use commit::{CHECKPOINT, COMMIT, Commit};
pub use laws::{chain_goes_on, commit_has_one_text, read_piece_was_written, unforged_before};
pub use text::{commit_key, mark, read_commit, read_commit_with, write_commit, write_commit_with};
