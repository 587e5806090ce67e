//! What lays records, and why an update failed.
ghost use Rattle.std.specs.Prelude.{◌≡◌, ◌≤◌, ◌++◌, ◌∷◌, [], List, Ok, Err, IfOk, IfErr, OnErr, length};
ghost use Rattle.sha2.specs.Sha256.{sha256};
ghost use Rattle.tdb_base.specs.Segment.{LiesInOneSegment};
ghost use Rattle.tdb_seg.specs.SegmentSpace.{SegmentSpace, place_in};
ghost use Rattle.tdb_map.specs.declared.layer.UpdateError.TheVariants as errors;
ghost use Rattle.tdb_map.specs.Laid.{LaidRecord};
ghost use Rattle.tdb_map.specs.UpdateCause.{IsUpdateCause, update_error};

use crate::pieces::PieceError;
use std::alloc::{AllocError, Global};
use tdb_base::{NoRoom, Piece};
use thiserror::Error;

/// An update that failed.
#[derive(Clone, Copy, Debug, PartialEq, Eq, Error)]
pub enum UpdateError {
    /// A node of the tree wasn't had. The inner error is never `Memory`.
    #[error("a node was not had")]
    Piece(PieceError),
    /// A node wasn't placed.
    #[error("a node was not placed")]
    Room(NoRoom),
    /// Memory ran out.
    #[error("memory ran out")]
    Memory,
}

impl From<PieceError> for UpdateError {
    ghost from_gives = { λ piece error. error ≡ update_error piece };

    fn from(error: PieceError) -> UpdateError {
        match error {
            PieceError::Memory => UpdateError::Memory,
            other => UpdateError::Piece(other),
        }
    }
}

impl From<AllocError> for UpdateError {
    ghost from_gives = { λ _ error. error ≡ errors.Memory };

    fn from(_error: AllocError) -> UpdateError {
        UpdateError::Memory
    }
}

/// What places records and keeps them for the writing that follows.
pub trait Layer {
    /// The segments of the device, with what was laid.
    ghost space: { Self → SegmentSpace };

    /// What was laid, in order.
    ghost laid: { Self → List LaidRecord };

    /// Places a sealed record of 1 to 262,144 bytes and keeps it. No segment is kept free.
    fn lay(&mut self, alloc: Global, sealed: Vec<u8>) -> Result<Piece, UpdateError>
        requires some { 1 ≤ length sealed.items }
        requires most { length sealed.items ≤ 262144 }
        ensures placed { IfOk result (λ piece. place_in (space self.old) (length sealed.items) 0 ≡ Ok (piece.place, space self.new)) }
        ensures laid { IfOk result (λ piece. laid self.new ≡ laid self.old ++ (piece, sealed.items) ∷ []) }
        ensures size { IfOk result (λ piece. piece.length ≡ length sealed.items) }
        ensures digest { IfOk result (λ piece. piece.digest.0 ≡ sha256 sealed.items) }
        ensures lies { IfOk result LiesInOneSegment }
        ensures refused { OnErr result ((laid self.new ≡ laid self.old) × (space self.new ≡ space self.old)) }
        ensures cause { IfErr result (IsUpdateCause (λ refusal. place_in (space self.old) (length sealed.items) 0 ≡ Err refusal)
            (λ _. ⊥)) };
}
