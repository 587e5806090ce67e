// AES (FIPS 197) with keys of 128 and 256 bits, one block at a time, both ways.
//
// Stands on std alone. Carries the promise that each call gives the standard's value, and that the
// cipher and its inverse undo each other. The tables are proved entry by entry: a change of one is
// refused, and a change of a definition in specs/ changes every record that is stored.
#![tactic(auto)]

mod cipher;
mod columns;
mod expansion;
mod schedule;
mod state;
mod tables;

pub use schedule::Schedule;
