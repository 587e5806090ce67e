//! A batch of records as what lays the nodes of a tree.
ghost use Rattle.std.specs.Prelude.{◌≡◌};

use crate::batch::{Batch, LayError};
use std::alloc::Global;
use tdb_base::Piece;
use tdb_map::{Layer, UpdateError};

/// Places records one after another, and keeps no segment free. `Err(Piece)` never comes.
impl Layer for Batch {
    ghost use Rattle.tdb_append.specs.Placed.{placed};
    ghost use Rattle.tdb_overlay.specs.LaidRecords.{pieces_laid};

    ghost space = { λ batch. batch.segments };

    ghost laid = { λ batch. pieces_laid (placed batch.pieces.items) };

    fn lay(&mut self, _alloc: Global, sealed: Vec<u8>) -> Result<Piece, UpdateError> {
        match Batch::lay(self, sealed, 0) {
            Ok(piece) => Ok(piece),
            Err(LayError::NoRoom(refusal)) => Err(UpdateError::Room(refusal)),
            Err(LayError::Memory) => Err(UpdateError::Memory),
        }
    }
}
