//! Tests alone, of the outside of the database: the device with its anchor in memory, and the streams.
//!
//! They stand apart from what they test, so that no crate is proved twice. They show what no clause says: that
//! calls succeed with ample memory, which calls a plan lets fail, and what is seen through the traits alone.
//! No crate stands on this one.
#![tactic(auto)]

#[cfg(test)]
mod platform;
#[cfg(test)]
mod stream;
