//! The pieces of a device, for those who read trees.
ghost use Rattle.std.specs.Prelude.{◌≡◌};

use crate::fetching::{FetchError, fetch};
use std::alloc::Global;
use tdb_base::Piece;
use tdb_map::{PieceError, Pieces};
use tdb_platform::Platform;
use tdb_seg::Segments;

/// The pieces of a platform's device that lie in the segments of a store, each read once and whole. Another piece doesn't fit.
#[derive(Drop)]
pub struct DevicePieces<'a, P: Platform> {
    platform: &'a mut P,
    segments: &'a Segments,
}

impl<'a, P: Platform> DevicePieces<'a, P> {
    /// The pieces of a platform's device in these segments.
    pub fn of(platform: &'a mut P, segments: &'a Segments) -> DevicePieces<'a, P>
        ensures same_reference { result.platform.ghost_name ≡ platform.entry.ghost_name }
        ensures platform { result.platform.now ≡ platform.old }
        ensures segments { result.segments.now ≡ segments.now }
    {
        DevicePieces { platform, segments }
    }
}

impl<'a, P: Platform> Pieces for DevicePieces<'a, P> {
    ghost use Rattle.std.specs.Prelude.{◌≡◌, IsTrue};
    ghost use Rattle.std.proofs.Common.{◌∙◌, refl};
    ghost use Rattle.tdb_overlay.specs.Placement.{LiesBelow};
    ghost use Rattle.tdb_overlay.specs.ReadsJoin.{image_nothing, image_then, reads_nothing, reads_then};
    ghost use Rattle.tdb_overlay.specs.Reading.{OnlyReads, ReadsImage, known_texts, shown_of};

    ghost shown = { λ d. shown_of (P.outside d.platform.now) };

    ghost texts = { λ d. known_texts (P.outside d.platform.now) };

    ghost goes = { λ d e. OnlyReads P.outside P.crash_states d.platform.now e.platform.now
        × (e.segments.now ≡ d.segments.now) × ReadsImage (P.outside d.platform.now) (P.outside e.platform.now)
        × (e.platform.ghost_name ≡ d.platform.ghost_name) };

    ghost misfits = { λ d piece. LiesBelow d.segments.now.segments piece → ⊥ };

    fn fetch(&mut self, alloc: Global, piece: &Piece) -> Result<Vec<u8>, PieceError> {
        if !self.segments.holds(piece) {
            return Err(PieceError::Form { place: piece.place });
        }
        match fetch(alloc, self.platform, piece) {
            Ok(bytes) => Ok(bytes),
            Err(FetchError::Tampered(damage)) => Err(PieceError::Tampered(damage)),
            Err(FetchError::Fault) => Err(PieceError::Fault),
            Err(FetchError::Memory) => Err(PieceError::Memory),
        }
    }

    ghost goes_still = { λ d. (
      reads_nothing P.outside P.crash_states P.counts d.platform.now,
      refl,
      image_nothing (P.outside d.platform.now),
      refl,
    ) };

    ghost goes_on = { λ d e f first then. (
      reads_then P.outside P.crash_states P.counts d.platform.now e.platform.now f.platform.now first.0 then.0,
      then.1 ∙ first.1,
      image_then P.outside P.crash_states d.platform.now e.platform.now f.platform.now first.0 first.2 then.2,
      then.3 ∙ first.3,
    ) };
}
