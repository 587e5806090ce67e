//! A plain program of the definitions, for tests: the history of an anchor, and what a session answers.
//!
//! It stands on `sha2` alone and shares no code with the database, so that a test which compares the two
//! compares with something from outside. It is slow, and promises nothing: what it says is right as far as
//! its text says the definitions.
#![tactic(auto)]

mod commits;
mod copies;
mod fields;
mod session;

pub use commits::{Change, Commit, NoHistory, Store, history};
pub use session::{Reply, Stand};
