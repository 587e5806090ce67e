//! Why a node, a leader or a table could not be read.
ghost use Rattle.std.specs.Prelude.{◌≡◌};
ghost use Rattle.tdb_node.specs.declared.error.NodeError.TheVariants.{Memory};

use std::alloc::AllocFailed;
use thiserror::Error;

/// A record of the map that wasn't read.
#[derive(Clone, Copy, Debug, PartialEq, Eq, Error)]
pub enum NodeError {
    /// The bytes spell no value of the format.
    #[error("the bytes are outside the format")]
    Form,
    /// Memory ran out. Only readers that take memory answer this.
    #[error("memory ran out")]
    Memory,
}

impl<T: Drop> From<AllocFailed<T>> for NodeError {
    ghost from_gives = { λ _ error. error ≡ Memory };

    fn from(_error: AllocFailed<T>) -> NodeError {
        NodeError::Memory
    }
}
