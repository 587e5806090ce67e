//! Tests alone, of runs over a store that is there: what they find, whatever its device shows.
//!
//! They stand apart from the other tests of runs, so that both are proved side by side. They damage each byte of
//! a store in turn, put old devices back, and fill a store up. No crate stands on this one.
#![tactic(auto)]

#[cfg(test)]
mod reopening;
