//! Why a lock isn't given.

use tdb_base::TxId;
use thiserror::Error;

/// Why a lock isn't given.
#[derive(Clone, Copy, Debug, PartialEq, Eq, Error)]
pub enum LockError {
    /// Another transaction holds a lock that is in the way. Of several it is the one with the least number.
    #[error("another transaction holds the lock")]
    Busy { holder: TxId },
    /// Memory ran out.
    #[error("memory ran out")]
    Memory,
}
