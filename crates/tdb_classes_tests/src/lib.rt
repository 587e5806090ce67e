//! Tests alone, of the crates of typed objects: fields and short texts, the three classes of the
//! program, and what the chunks of objects hold.
//!
//! They stand apart from what they test, so that no crate is proved twice. Each shows what no
//! clause says: bytes and limits as the page of formats gives them, and that calls answer at all.
//! No crate stands on this one.
#![tactic(auto)]

#[cfg(test)]
mod apps;
#[cfg(test)]
mod class;
#[cfg(test)]
mod stored;
