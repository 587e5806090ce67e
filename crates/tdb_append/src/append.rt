//! Pieces and a commit text go to the device, and the anchor to the text.
ghost use Rattle.std.specs.Prelude.{◌≡◌, ◌+◌, ◌<◌, All, AllPairs, IfOk, OnOk, IsTrue, List, ℕ};
ghost use Rattle.tdb_platform.specs.Outside.{Anchor, Told};
ghost use Rattle.tdb_platform.specs.CrashStates.{now};
ghost use Rattle.tdb_append.specs.Placed.{EachHolds, FitsOneSegment, IsApart, placed};
ghost use Rattle.tdb_append.specs.Put.{Puts, WritesSome, next_anchor, slot_place, writes_of};

use crate::{Head, Laid};
use sha2::{Digest as _, Sha256};
use tdb_base::{Digest, Failed, Place};
use tdb_platform::Platform;

/// How many bytes a commit text has.
const TEXT_LENGTH: u64 = 256;

/// How many slots for commit texts stand at the start of the device.
const SLOTS: u64 = 1_024;

/// The place of the slot in which the commit text with a count stands: one of the 1,024 slots of
/// 256 bytes at the start of the device, which are used in turn.
pub fn slot_of(count: u64) -> Place
    requires { 0 < count }
    ensures place { result.0 ≡ slot_place count }
{
    Place((count - 1) % SLOTS * TEXT_LENGTH)
}

/// Writes the pieces in order.
fn write_all<P: Platform>(platform: &mut P, pieces: &[Laid]) -> Result<(), Failed>
    requires in_segments { All FitsOneSegment (placed pieces.now) }
    requires apart { AllPairs IsApart (placed pieces.now) }
    ensures writes { WritesSome P.outside P.crash_states platform.old platform.new
        (placed pieces.now) result }
    ensures holds { IsTrue (P.outside platform.old).honest
        → OnOk result (EachHolds (P.outside platform.new).image (placed pieces.now)) }
    ensures anchor { IsTrue (P.outside platform.old).tells
        → (P.outside platform.new).anchor ≡ (P.outside platform.old).anchor }
    ensures quiet { OnOk result ((P.outside platform.new).faults ≡ (P.outside platform.old).faults) }
{
    for piece in pieces {
        platform.write(piece.place.0, piece.bytes.as_slice())?;
    }
    Ok(())
}

/// Writes the pieces in order and then the next commit text into its slot, makes sure of them,
/// and advances the anchor to the text. It takes no memory, and gives the new head.
///
/// After `Err` some of the pieces may have been written, and the anchor is the old one or the
/// new one.
pub fn put<P: Platform>(
    platform: &mut P,
    head: &Head,
    pieces: &[Laid],
    text: &[u8; 256],
) -> Result<Head, Failed>
    requires count { IsTrue (P.outside platform.old).tells
        → (P.outside platform.old).anchor.0 ≡ head.now.count }
    requires counts_on { head.now.count < 18446744073709551615 }
    requires in_segments { All FitsOneSegment (placed pieces.now) }
    requires apart { AllPairs IsApart (placed pieces.now) }

    // At every moment: the trace, the image, the anchor and what a stop may leave.
    ensures puts { Puts P.outside P.crash_states platform.old platform.new
        (writes_of head.now pieces.now text.now) (next_anchor head.now text.now) result }

    ensures holds { IsTrue (P.outside platform.old).honest
        → OnOk result (EachHolds (P.outside platform.new).image (writes_of head.now pieces.now text.now)) }
    ensures advanced { IsTrue (P.outside platform.old).tells
        → OnOk result ((P.outside platform.new).anchor ≡ next_anchor head.now text.now) }
    ensures only { IsTrue (P.outside platform.old).tells
        → OnOk result ((i : List ℕ) (a : Anchor) → now P.outside P.crash_states platform.new i a
        → a ≡ next_anchor head.now text.now) }
    ensures durable { IsTrue (P.outside platform.old).honest
        → OnOk result ((i : List ℕ) (a : Anchor) → now P.outside P.crash_states platform.new i a
        → i ≡ (P.outside platform.new).image) }
    ensures head { IfOk result (λ next. (next.count, next.mark.0) ≡ next_anchor head.now text.now) }
    ensures base { IfOk result (λ next. next.base ≡ head.now.base) }
    ensures told { Told (P.outside platform.old) (P.outside platform.new) result }
    ensures quiet { OnOk result ((P.outside platform.new).faults ≡ (P.outside platform.old).faults) }
{
    let count = head.count + 1;
    let mark = Digest(Sha256::digest(text));
    write_all(platform, pieces)?;
    platform.write(slot_of(count).0, text)?;
    platform.sync()?;
    platform.advance(count, &mark.0)?;
    Ok(Head {
        count,
        mark,
        base: head.base,
    })
}
