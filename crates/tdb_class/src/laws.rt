//! What follows for each universe and each class.
ghost use Rattle.std.specs.Prelude.{◌≡◌, Some, IfOk, option_copied};
ghost use Rattle.tdb_class.specs.declared.universe.PickleError.TheVariants.{Form};

use crate::universe::{Class, PickleError, Universe};
use std::alloc::Global;

/// Pickles an object and unpickles it, which gives it again. It never answers `Form`.
pub fn pickled_again<U: Universe>(alloc: Global, object: &U) -> Result<U, PickleError>
    ensures again { IfOk result (λ found. found ≡ object.now) }
    ensures form { result ≡ Err Form → ⊥ }
{
    object.known();
    let bytes = object.pickle(alloc)?;
    U::unpickle(alloc, bytes.as_slice())
}

/// The object of a class that was wrapped is given back.
pub fn given_back<U: Universe, T: Class<U>>(value: &U) -> Option<&T>
    ensures { (x : T) → T.wrapped x ≡ value.now → option_copied result ≡ Some x }
{
    T::of_ref(value)
}
