//! Tests alone, of the crates that read and write formats: fields, tags, commit texts, segment
//! tables, the placing of pieces, sealed records, lists of changes, the cipher, and scripts.
//!
//! They stand apart from what they test, so that no crate is proved twice. Each shows what no
//! clause says: vectors of a standard or of a model of the formats, and that calls answer at all.
//! No crate stands on this one.
#![tactic(auto)]

#[cfg(test)]
mod aes;
#[cfg(test)]
mod base;
#[cfg(test)]
mod cbc;
#[cfg(test)]
mod list;
#[cfg(test)]
mod mac;
#[cfg(test)]
mod mark;
#[cfg(test)]
mod node;
#[cfg(test)]
mod nodes;
#[cfg(test)]
mod script;
#[cfg(test)]
mod seal;
#[cfg(test)]
mod seg;
