//! The outside of the program: files as a platform, a reader as a source, a writer as a sink, and how
//! each of them is opened so that nothing else uses it.
//!
//! It stands on tdb_platform and tdb_stream for the traits. It is the trusted edge: no clause says what
//! the system gives or takes. It carries the promises that a call fails only where the system answered
//! an error, that no file of the database is a standard descriptor, and that a short read leaves the
//! bytes behind it. A run over files that something else writes would rest on nothing.
#![tactic(auto)]

mod counts;
mod descriptors;
mod file_platform;
mod held_file;
mod held_files;
mod secret;
mod standard;

pub use descriptors::take_standard_descriptors;
pub use file_platform::FilePlatform;
pub use held_files::HeldFiles;
pub use secret::secret_in;
pub use standard::{StdSink, StdSource};
