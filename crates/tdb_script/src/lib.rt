//! The lines of a script and the replies to them, and the chunk in which a note is stored.
//!
//! It stands on tdb_base. It carries one promise: a line is read exactly where the bytes are the
//! one spelling of a value of the grammar, a chunk is read as a note exactly where it is one, and a
//! reply and a stored note are written exactly so.
//! What is read here decides what a run does, and what is written is all that its client sees.
#![tactic(auto)]

mod line;
mod note;
mod reply;

pub use line::{Line, MAX_LINE_LENGTH, read_line};
pub use note::{MAX_NOTE_LENGTH, Note, is_note_text, read_stored_note, stored_note};
pub use reply::{Reply, write_reply};
