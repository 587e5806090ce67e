//! The script of notes, over any store of chunks.
//!
//! It stands on the loop over lines (tdb_serve), the trait of stores (tdb_model) and the grammar (tdb_script). A machine
//! `Notes` owns a store and keeps one transaction and the ids that it draws; it answers each line as the script machine of
//! the definitions does, and adds to the store the commits of the answers, in order, and nothing else. `tampered` comes
//! only with damage that the line's own reads were shown. If it said less, no run's replies would be those of a session.
#![tactic(auto)]

mod answering;
mod notes;
mod serving;
mod session;
mod transaction;

pub use notes::Notes;
pub use serving::serve_notes;
