//! The three classes of objects that the program stores: notes, accounts and licences.
//!
//! It stands on tdb_class, whose laws it carries for these classes, and on tdb_base. It carries
//! one promise: an object of each class is made exactly where its fields are in range, has one
//! pickle, and is read from exactly that. Every object of a database is stored in these bytes,
//! so a change here makes databases unreadable that were written before.
#![tactic(auto)]

mod account;
mod app;
mod class_names;
mod licence;
mod note;

pub use account::Account;
pub use app::App;
pub use class_names::{class_name, class_named};
pub use licence::Licence;
pub use note::{MAX_NOTE_LENGTH, Note};
