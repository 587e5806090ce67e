//! Tests alone, of the ranks at which two partitions differ: their trees are put together from the formats.
//!
//! They stand apart from what they test, so that no crate is proved twice. No crate stands on this one.
#![tactic(auto)]

#[cfg(test)]
mod comparing;
#[cfg(test)]
mod device;
