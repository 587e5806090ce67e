//! Why a log wasn't opened.
ghost use Rattle.std.specs.Prelude.{◌≡◌};
ghost use Rattle.tdb_recover.specs.Explained.{open_error_of, open_error_of_piece};
ghost use Rattle.tdb_recover.specs.declared.error.OpenError.TheVariants.{Memory};

use std::alloc::{AllocError, AllocFailed};
use tdb_base::{Damage, Place};
use tdb_map::PieceError;
use tdb_overlay::FetchError;
use thiserror::Error;

/// Why a log wasn't opened.
#[derive(Clone, Copy, Debug, PartialEq, Eq, Error)]
pub enum OpenError {
    /// The anchor's count is 0: there is no log.
    #[error("there is no log")]
    Unformatted,
    /// The device shows other bytes than those that were written.
    #[error("the bytes were tampered with")]
    Tampered(Damage),
    /// The bytes at this place have the right digest, and don't fit the rest of the log.
    #[error("the bytes are outside the format")]
    Form { place: Place },
    /// The platform failed.
    #[error("the platform failed")]
    Fault,
    /// Memory ran out.
    #[error("memory ran out")]
    Memory,
}

impl From<FetchError> for OpenError {
    ghost from_gives = { λ cause error. error ≡ open_error_of cause };

    fn from(cause: FetchError) -> OpenError {
        match cause {
            FetchError::Tampered(damage) => OpenError::Tampered(damage),
            FetchError::Fault => OpenError::Fault,
            FetchError::Memory => OpenError::Memory,
        }
    }
}

impl From<PieceError> for OpenError {
    ghost from_gives = { λ cause error. error ≡ open_error_of_piece cause };

    fn from(cause: PieceError) -> OpenError {
        match cause {
            PieceError::Tampered(damage) => OpenError::Tampered(damage),
            PieceError::Form { place } => OpenError::Form { place },
            PieceError::Fault => OpenError::Fault,
            PieceError::Memory => OpenError::Memory,
        }
    }
}

impl From<AllocError> for OpenError {
    ghost from_gives = { λ _ error. error ≡ Memory };

    fn from(_cause: AllocError) -> OpenError {
        OpenError::Memory
    }
}

impl<T: Drop> From<AllocFailed<T>> for OpenError {
    ghost from_gives = { λ _ error. error ≡ Memory };

    fn from(_cause: AllocFailed<T>) -> OpenError {
        OpenError::Memory
    }
}
