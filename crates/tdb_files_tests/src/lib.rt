//! Tests of the outside of the program, over real files.
//!
//! It stands on tdb_files, and carries no promise. Of files no clause speaks, so here stands what an
//! adapter that meets each contract could still do wrong.
#![tactic(auto)]

#[cfg(test)]
mod held;
#[cfg(test)]
mod platform;
#[cfg(test)]
mod scratch;
#[cfg(test)]
mod secret;
#[cfg(test)]
mod standard;
