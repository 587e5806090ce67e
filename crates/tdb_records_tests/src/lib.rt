//! Tests alone, of records under each suite: against those that an independent model of the formats
//! has, and by the lengths that the format gives.
//!
//! It stands on the crate that seals records, and on tdb_mac for the keys. No crate stands on it.
#![tactic(auto)]

#[cfg(test)]
mod sealed;
