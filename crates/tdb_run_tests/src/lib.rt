//! Tests alone, of whole runs over a fresh device, of the words of a command, and of the last line.
//!
//! They stand apart from what they test, so that it isn't proved twice. They compare with values from outside:
//! the bytes that an independent model of the formats gives, and a plain program of the definitions.
//! No crate stands on this one.
#![tactic(auto)]

#[cfg(test)]
mod aes128;
#[cfg(test)]
mod aes256;
#[cfg(test)]
mod command;
#[cfg(test)]
mod last_line;
#[cfg(test)]
mod reference;
#[cfg(test)]
mod running;
#[cfg(test)]
mod suites;
