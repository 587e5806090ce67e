//! Tests of the crates that hold data: of what no clause says there, and of the rows that were worked
//! out by hand.
//!
//! It stands on the crates that it tests, and carries no promise: each contract stands in its own crate.
#![tactic(auto)]

#[cfg(test)]
mod cache;
#[cfg(test)]
mod lock;
