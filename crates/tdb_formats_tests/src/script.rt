//! The lines of a script, the notes and the replies.

mod line;
mod note;
mod reply;
