//! The records of one commit or checkpoint, which are placed one after another.
ghost use Rattle.std.specs.Prelude.{◌≡◌, ◌+◌, ◌≤◌, ◌<◌, ◌++◌, ◌∷◌, [], ℕ, List, Ok, Err, IfOk, IfErr, OnErr, OnOk, length};
ghost use Rattle.sha2.specs.Sha256.{sha256};
ghost use Rattle.tdb_append.specs.Placed.{placed};
ghost use Rattle.tdb_base.specs.Segment.{LiesInOneSegment};
ghost use Rattle.tdb_seg.specs.SegmentSpace.{SegmentSpace, place_in};
ghost use Rattle.tdb_base.specs.declared.piece.NoRoom as refusals;
ghost use Rattle.tdb_overlay.specs.SealedOnly.{IsRecord};
ghost use Rattle.tdb_overlay.specs.LaidOut.{LaidOut};
ghost use Rattle.tdb_overlay.specs.declared.batch.LayError.TheVariants.{Memory, NoRoom};

use sha2::{Digest as _, Sha256};
use std::alloc::{AllocError, AllocFailed, Global};
use tdb_append::Laid;
use tdb_base::{Bytes, Digest, Piece};
use tdb_seg::Segments;

/// Why a record got no place.
#[derive(Clone, Copy, Debug, PartialEq, Eq)]
pub enum LayError {
    /// Memory ran out.
    Memory,
    /// The record is longer than what is left at the tail, and no segment was taken for it.
    NoRoom(tdb_base::NoRoom),
}

impl From<AllocError> for LayError {
    ghost from_gives = { λ _ error. error ≡ Memory };

    fn from(_error: AllocError) -> LayError {
        LayError::Memory
    }
}

impl<T: Drop> From<AllocFailed<T>> for LayError {
    ghost from_gives = { λ _ error. error ≡ Memory };

    fn from(_error: AllocFailed<T>) -> LayError {
        LayError::Memory
    }
}

/// Records in the order in which they are written, and the segments behind them.
#[derive(Drop)]
pub struct Batch {
    /// The segments behind the records.
    pub segments: Segments,
    /// The records, each with its place. None is written yet.
    pub pieces: Vec<Laid>,
}

impl Batch {
    /// No record yet.
    pub fn new(alloc: Global, segments: Segments) -> Batch
        ensures segments { result.segments ≡ segments }
        ensures pieces { result.pieces.items ≡ [] }
    {
        Batch {
            segments,
            pieces: Vec::new(alloc),
        }
    }

    /// Places a record, while `keep` segments stay free, and gives its piece. The record is hashed here and nowhere else.
    /// After a refusal the batch is as it was.
    pub fn lay(&mut self, bytes: Vec<u8>, keep: u32) -> Result<Piece, LayError>
        requires some { 1 ≤ length bytes.items }
        requires most { length bytes.items ≤ 262144 }
        ensures size { IfOk result (λ piece. piece.length ≡ length bytes.items) }
        ensures digest { IfOk result (λ piece. piece.digest.0 ≡ sha256 bytes.items) }
        ensures lies { IfOk result LiesInOneSegment }
        ensures place { IfOk result (λ piece. place_in self.old.segments (length bytes.items) keep ≡ Ok (piece.place, self.new.segments)) }
        ensures pieces { IfOk result (λ piece. placed self.new.pieces.items
            ≡ placed self.old.pieces.items ++ record { place = piece.place.0; bytes = bytes.items } ∷ []) }
        ensures laid_out { OnOk result ((secret : List ℕ) (start : SegmentSpace) → IsRecord secret bytes.items
            → LaidOut secret start self.old.segments (placed self.old.pieces.items)
            → LaidOut secret start self.new.segments (placed self.new.pieces.items)) }
        ensures refused { (refusal : refusals.NoRoom) → result ≡ Err (NoRoom refusal)
            → place_in self.old.segments (length bytes.items) keep ≡ Err refusal }
        ensures unchanged { OnErr result ((self.new.segments ≡ self.old.segments) × (self.new.pieces.items ≡ self.old.pieces.items)) }
    {
        let length = bytes.len() as u32;
        let mut segments = self.segments;
        let place = match segments.place(length, keep) {
            Ok(place) => place,
            Err(refusal) => return Err(LayError::NoRoom(refusal)),
        };
        let digest = Digest(Sha256::digest(&bytes));
        self.segments.known();
        self.pieces.push(Laid {
            place,
            bytes: Bytes::from(bytes),
        })?;
        self.segments = segments;
        Ok(Piece {
            place,
            length,
            digest,
        })
    }
}
