//! Tests alone, of the log and of the store of chunks: slots and heads, overlays and fetches, batches of records, the opening of logs
//! that an independent model of the formats wrote, the marks of a first path, and a store that
//! owns its platform, through the trait of stores.
//!
//! They stand apart from what they test, so that no crate is proved twice. They show what no clause says: values
//! from outside, and that calls answer with ample memory. No crate stands on this one.
#![tactic(auto)]

#[cfg(test)]
mod ahead;
#[cfg(test)]
mod append;
#[cfg(test)]
mod batch;
#[cfg(test)]
mod chunk;
#[cfg(test)]
mod overlay;
#[cfg(test)]
mod recover;
#[cfg(test)]
mod store;
