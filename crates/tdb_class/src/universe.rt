//! What all objects of an application have in common, and what each class of them adds.
ghost use Rattle.std.specs.Prelude.{◌≡◌, ◌↔◌, ℕ, List, Option, IfOk, IsSome, option_copied};
ghost use Rattle.std.specs.Option.{option_map};
ghost use Rattle.tdb_class.specs.declared.field.Field.{Field};
ghost use Rattle.tdb_class.specs.declared.field.FieldKind.{FieldKind};
ghost use Rattle.tdb_class.specs.declared.universe.PickleError.TheVariants.{Form};
ghost use Rattle.tdb_class.specs.FieldKind.{kind_of_field};

use crate::field::{Field, FieldKind};
use std::alloc::{AllocError, AllocFailed, Global};
use tdb_base::Bytes;
use thiserror::Error;

/// An object that wasn't unpickled.
#[derive(Clone, Copy, Debug, PartialEq, Eq, Error)]
pub enum PickleError {
    /// The bytes are no pickle.
    #[error("the bytes are no pickle")]
    Form,
    /// Memory ran out.
    #[error("memory ran out")]
    Memory,
}

impl From<AllocError> for PickleError {
    ghost use Rattle.tdb_class.specs.declared.universe.PickleError.TheVariants.{Memory};

    ghost from_gives = { λ _ error. error ≡ Memory };

    fn from(_error: AllocError) -> PickleError {
        PickleError::Memory
    }
}

impl<T: Drop> From<AllocFailed<T>> for PickleError {
    ghost use Rattle.tdb_class.specs.declared.universe.PickleError.TheVariants.{Memory};

    ghost from_gives = { λ _ error. error ≡ Memory };

    fn from(_error: AllocFailed<T>) -> PickleError {
        PickleError::Memory
    }
}

/// The objects of all classes of an application.
///
/// A class has a number, and versions of how its objects are pickled: the newest is written, and
/// each one is read.
pub trait Universe: Drop {
    /// The bytes stand for the object, in some version of its class.
    ghost reads: { List ℕ → Self → Type 0 };

    /// The bytes are in the newest version of their class.
    ghost is_newest: { List ℕ → Type 0 };

    /// The pickle of an object, in the newest version of its class.
    ghost pickle_of: { Self → List ℕ };

    /// The class of an object.
    ghost class_of: { Self → ℕ };

    /// The kind of a field of a class, where the class has that field.
    ghost kind_of: { ℕ → ℕ → Option FieldKind };

    /// The value of an object's field, where its class has that field.
    ghost key_of: { Self → ℕ → Option Field };

    /// Each object has a pickle. It costs nothing.
    fn known(&self)
        ensures { reads (pickle_of self.now) self.now };

    /// The number of the object's class.
    fn class(&self) -> u32
        ensures { result ≡ class_of self.now };

    /// The kind of a field of a class. A class has a field exactly where this isn't `None`.
    fn field_kind(class: u32, field: u32) -> Option<FieldKind>
        ensures { result ≡ kind_of class field };

    /// The bytes that the object is stored in.
    fn pickle(&self, alloc: Global) -> Result<Bytes, AllocError>
        ensures { IfOk result (λ bytes. bytes ≡ pickle_of self.now) };

    /// The object that the bytes stand for.
    fn unpickle(alloc: Global, bytes: &[u8]) -> Result<Self, PickleError>
        ensures value { IfOk result (λ object. reads bytes.now object) }
        ensures form { result ≡ Err Form → (object : Self) → reads bytes.now object → ⊥ };

    /// The value of a field, by which an index finds the object.
    fn key(&self, field: u32) -> Option<Field>
        ensures { result ≡ key_of self.now field };

    /// Bytes stand for at most one object.
    ghost one_object: { (bytes : List ℕ) (x y : Self) → reads bytes x → reads bytes y → x ≡ y };

    /// In the newest version an object has one pickle.
    ghost one_pickle: { (bytes : List ℕ) (x : Self) → reads bytes x → is_newest bytes → bytes ≡ pickle_of x };

    /// Pickles are in the newest version.
    ghost pickles_newest: { (x : Self) → reads (pickle_of x) x → is_newest (pickle_of x) };

    /// A key has the kind of its field, and there is one exactly where the class has the field.
    ghost key_kind: { (x : Self) (field : ℕ) → option_map kind_of_field (key_of x field) ≡ kind_of (class_of x) field };
}

/// The objects of one class, in a universe.
pub trait Class<U: Universe>: Drop {
    /// The number of the class.
    const CLASS: u32;

    ghost CLASS: { ℕ };

    /// The object as one of the universe.
    ghost wrapped: { Self → U };

    /// The object as one of the universe.
    fn wrap(self) -> U
        ensures { result ≡ wrapped self };

    /// The object of this class, or `None` where the object is of another class.
    fn of_ref(value: &U) -> Option<&Self>
        ensures object { (x : Self) → option_copied result ≡ Some x → wrapped x ≡ value.now }
        ensures some { IsSome result ↔ (U.class_of value.now ≡ CLASS) };

    /// A wrapped object has this class.
    ghost class_is: { (x : Self) → U.class_of (wrapped x) ≡ CLASS };

    /// Different objects stay different.
    ghost one_wrapped: { (x y : Self) → wrapped x ≡ wrapped y → x ≡ y };
}
