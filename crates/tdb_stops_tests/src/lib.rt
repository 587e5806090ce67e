//! Tests alone, of runs that a stop ended, and of the run behind each.
//!
//! A commit that was begun and not answered is taken where the device shows it whole, and else passed over; one that was
//! answered is always there. No crate stands on this one.
#![tactic(auto)]

#[cfg(test)]
mod pending;
#[cfg(test)]
mod stopped;
