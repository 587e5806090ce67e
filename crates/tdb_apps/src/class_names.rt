//! The names of classes in scripts and replies.
ghost use Rattle.std.specs.Prelude.{◌≡◌, ℕ, Some, IfSome, IfNone, option_copied};
ghost use Rattle.tdb_apps.specs.ClassName.{name_of_class};

use crate::app::{ACCOUNT_CLASS, LICENCE_CLASS, NOTE_CLASS};

/// The name of a class, or `None` where the number is no class's.
pub fn class_name(class: u32) -> Option<&'static str>
    ensures { option_copied result ≡ name_of_class class }
{
    match class {
        NOTE_CLASS => Some("note"),
        ACCOUNT_CLASS => Some("account"),
        LICENCE_CLASS => Some("licence"),
        _ => None,
    }
}

/// The class of a name, or `None` where the word is no class's.
pub fn class_named(name: &[u8]) -> Option<u32>
    ensures some { IfSome result (λ class. name_of_class class ≡ Some name.now) }
    ensures none { IfNone result ((class : ℕ) → name_of_class class ≡ Some name.now → ⊥) }
{
    if name == b"note".as_slice() {
        Some(NOTE_CLASS)
    } else if name == b"account".as_slice() {
        Some(ACCOUNT_CLASS)
    } else if name == b"licence".as_slice() {
        Some(LICENCE_CLASS)
    } else {
        None
    }
}
