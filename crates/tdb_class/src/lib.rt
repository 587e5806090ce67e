//! Typed objects: the fields by which objects are found, the classes that objects have, and the
//! universe that holds the objects of all classes.
//!
//! It stands on tdb_base for fields in bytes. It carries one promise: a universe pickles each of
//! its values, and unpickles exactly what its relation of bytes and values holds of, which gives
//! given bytes at most one value. An object is read back from its bytes alone, so a universe that
//! broke a law here would answer another object than the one that was stored.
#![tactic(auto)]

mod field;
mod laws;
mod short_text;
mod text_field;
mod universe;

pub use field::{Field, FieldKind};
pub use laws::{given_back, pickled_again};
pub use short_text::{SHORT_TEXT_LIMIT, ShortText};
pub use text_field::{push_text, split_text};
pub use universe::{Class, PickleError, Universe};
