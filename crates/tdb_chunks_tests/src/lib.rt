//! Tests alone, of the state of the database and of the store of chunks in memory.
//!
//! They stand apart from what they test, so that no crate is proved twice. They show what no clause
//! says: the answers that a reader of the rules would write down, the messages of errors, and that no call
//! lacks memory where there is enough. No crate stands on this one.
#![tactic(auto)]

#[cfg(test)]
mod memory_chunks;
#[cfg(test)]
mod state;
