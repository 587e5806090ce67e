//! The store of chunks: it lays the log's start on a device, commits changes to it, and reads chunks.
//!
//! It stands on the formats, on the definitions of a well-formed log, on the placing of pieces, and on `put` for each
//! text. It carries the promise that each commit makes the log longer by exactly its changes, as the definition
//! `commit_on` has them, and that a read gives the bytes of the log's state, whatever the device shows.
#![tactic(auto)]

mod attach;
mod commit;
mod format;
mod laying;
mod open_log;
mod opening;
mod owner;
mod reading;
mod store;
mod store_chunks;
mod store_format;

pub use format::StoreError;
pub use open_log::OpenLog;
pub use store::{Room, Store};
pub use store_format::FormatError;
