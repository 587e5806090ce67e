//! Bytes in and bytes out: the traits that a run takes its input, its output and its archives by, and their forms in
//! memory.
//!
//! Every layer that reads or writes streams stands on these clauses: a source gives at least one byte until its end, a
//! put that failed has added a prefix of its piece, and a call fails only where its object's count of faults went up.
//! So a loop over a source makes progress, and a fault that a run reports has a cause outside the run.
//! If a clause on content weren't guarded by `tells`, no file or terminal could meet it.
#![tactic(auto)]

mod archive;
mod memory_archive;
mod memory_sink;
mod memory_source;
mod sink;
mod source;

pub use archive::Archive;
pub use memory_archive::MemoryArchive;
pub use memory_sink::MemorySink;
pub use memory_source::MemorySource;
pub use sink::Sink;
pub use source::Source;
pub use tdb_base::Failed;
