//! What fetches pieces, and why one wasn't had.
ghost use Rattle.std.specs.Prelude.{◌≡◌, List, ℕ, Err, IfOk, IfErr, IsTrue};
ghost use Rattle.sha2.specs.Sha256.{sha256};
ghost use Rattle.tdb_map.specs.declared.pieces.PieceError.TheVariants.{Fault, Memory};
ghost use Rattle.tdb_map.specs.Shown.{AsksOneOf, EachShown, IsShownLast, Shown, Shows, ShowsOneOf};
ghost use Rattle.tdb_map.specs.PieceCause.{IsPieceCause, IsUndamaged};
ghost use Rattle.tdb_map.specs.Nodes.{Texts, Grows};

use std::alloc::{AllocError, AllocFailed, Global};
use tdb_base::{Damage, Piece, Place};
use thiserror::Error;

/// A piece that wasn't had.
#[derive(Clone, Copy, Debug, PartialEq, Eq, Error)]
pub enum PieceError {
    /// The bytes that were shown have another digest.
    #[error("a piece has another digest")]
    Tampered(Damage),
    /// The bytes have the digest and are in no grammar, or don't fit the other pieces.
    #[error("a piece is outside its format")]
    Form { place: Place },
    /// The device failed.
    #[error("the device failed")]
    Fault,
    /// Memory ran out.
    #[error("memory ran out")]
    Memory,
}

impl From<AllocError> for PieceError {
    ghost from_gives = { λ _ error. error ≡ Memory };

    fn from(_error: AllocError) -> PieceError {
        PieceError::Memory
    }
}

impl<T: Drop> From<AllocFailed<T>> for PieceError {
    ghost from_gives = { λ _ error. error ≡ Memory };

    fn from(_error: AllocFailed<T>) -> PieceError {
        PieceError::Memory
    }
}

/// What reads pieces and checks their digests.
pub trait Pieces {
    ghost use Rattle.tdb_base.specs.declared.piece.Piece.{Piece as APiece};

    /// The pieces that reads gave, where it tells them, and its count of faults.
    ghost shown: { Self → Shown };

    /// The texts that digests are known to lead to.
    ghost texts: { Self → Texts };

    /// One value of it came of another by fetching alone.
    ghost goes: { Self → Self → Type 0 };

    /// Whether a piece doesn't fit the other pieces, and isn't read.
    ghost misfits: { Self → APiece → Type 0 };

    /// Reads a piece, asking for its whole length, and checks its digest. One that doesn't fit the others is refused before.
    fn fetch(&mut self, alloc: Global, piece: &Piece) -> Result<Vec<u8>, PieceError>
        ensures text { IfOk result (λ bytes. texts self.new piece.now.digest.0 bytes.items) }
        ensures digest { IfOk result (λ bytes. sha256 bytes.items ≡ piece.now.digest.0) }
        ensures last { IfOk result
            (λ bytes. IsTrue (shown self.old).tells → IsShownLast (shown self.old) (shown self.new) piece.now bytes.items) }
        ensures cause { IfErr result (IsPieceCause (shown self.old) (shown self.new) (misfits self.new piece.now) (λ _. ⊥) piece.now) }
        ensures asks { EachShown (shown self.old) (shown self.new) (AsksOneOf (λ p. p ≡ piece.now)) }
        ensures undamaged { IsUndamaged result → EachShown (shown self.old) (shown self.new) (ShowsOneOf (λ p. p ≡ piece.now)) }
        ensures quiet { (result ≡ Err Fault → ⊥) → (shown self.new).faults ≡ (shown self.old).faults }
        ensures goes { goes self.old self.new }
        ensures grows { Grows (texts self.old) (texts self.new) }
        ensures shows { Shows (shown self.old) (shown self.new) 1 };

    /// Each came of itself.
    ghost goes_still: { (p : Self) → goes p p };

    /// What came of a value that came of another came of that one.
    ghost goes_on: { (p q r : Self) → goes p q → goes q r → goes p r };
}
