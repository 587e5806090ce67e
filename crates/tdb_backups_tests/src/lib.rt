//! Tests alone, of the crates of backups: the grammar of a backup's stream.
//!
//! They stand apart from what they test, so that no crate is proved twice. Each shows what no
//! clause says: bytes and limits as the page of formats gives them, records under ciphers as an
//! independent model of the formats has them, and that calls answer at all. No crate stands on
//! this one.
#![tactic(auto)]

#[cfg(test)]
mod bakfmt;
