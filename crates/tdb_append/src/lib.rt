//! One step of the commit log: pieces and a commit text go to the device, and then the anchor
//! goes on to the text.
//!
//! It stands on tdb_base, tdb_platform and sha2. It carries the promise that at every stop the
//! anchor is the old one, over an image that was changed only at the places of these writes, or
//! the new one, over an image in which all of them stand. Without the sync between the writes
//! and the advance, or with another slot or mark, that promise would be lost.
#![tactic(auto)]

mod append;
mod head;
mod laid;

pub use append::{put, slot_of};
pub use head::{COMMITS_PER_CHECKPOINT, Head, HeadError, may_commit};
pub use laid::Laid;
