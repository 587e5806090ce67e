//! Why sealed bytes are not opened.

ghost use Rattle.std.specs.Prelude.{◌≡◌};
ghost use Rattle.tdb_cbc.specs.declared.error.CbcError.TheVariants.{Memory};

use std::alloc::AllocError;
use thiserror::Error;

/// Why bytes are not opened.
#[derive(Debug, Drop, Error)]
pub enum CbcError {
    /// There are no bytes, or their number is no multiple of 16.
    #[error("the length is no positive multiple of 16")]
    Length,
    /// The deciphered text does not end in a padding.
    #[error("the padding is malformed")]
    Padding,
    /// There was no memory for the text.
    #[error("out of memory")]
    Memory,
}

impl From<AllocError> for CbcError {
    ghost from_gives = { λ _ error. error ≡ Memory };

    fn from(_error: AllocError) -> CbcError {
        CbcError::Memory
    }
}
