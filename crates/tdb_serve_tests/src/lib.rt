//! Tests alone, of the loop over the lines of a script.
//!
//! They stand apart from what they test, so that it isn't proved twice. Each shows what no clause says: that a small
//! machine is served, in which order bytes are taken and replies put, and that memory isn't found wanting.
//! No crate stands on this one.
#![tactic(auto)]

#[cfg(test)]
mod machine;
#[cfg(test)]
mod notes;
#[cfg(test)]
mod serving;
#[cfg(test)]
mod streams;
