//! Tests alone, of stores whose partitions have trees: a device with a checkpoint that is put together from the formats, and what
//! the log and the store make of it as it stands, with each byte of it changed, and with pieces that don't fit.
//!
//! They stand apart from what they test, so that no crate is proved twice. No crate stands on this one.
#![tactic(auto)]

#[cfg(test)]
mod altered;
#[cfg(test)]
mod device;
#[cfg(test)]
mod reading;
#[cfg(test)]
mod shared;
