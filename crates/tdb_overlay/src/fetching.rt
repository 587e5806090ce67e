//! Reading one piece of the device: by one read of its whole length, whose bytes are hashed once.
ghost use Rattle.std.specs.Prelude.{◌≡◌, ◌≢◌, ◌⊎◌, ◌<◌, ℕ, List, length, IfOk, IsTrue, Err};
ghost use Rattle.sha2.specs.Sha256.{sha256};
ghost use Rattle.tdb_append.specs.Put.{slot_place};
ghost use Rattle.tdb_base.specs.Trace.{with_read};
ghost use Rattle.tdb_base.specs.declared.piece.Damage.{Damage};
ghost use Rattle.tdb_platform.specs.Outside.{Rose};
ghost use Rattle.tdb_overlay.specs.Growth.{IsSettled};
ghost use Rattle.tdb_overlay.specs.Images.{StandsIn};
ghost use Rattle.tdb_overlay.specs.Reading.{OnlyReads, held};

use sha2::{Digest as _, Sha256};
use std::alloc::Global;
use tdb_append::slot_of;
use tdb_base::{Damage, Digest, Piece};
use tdb_platform::Platform;

/// How many bytes a commit text has.
const TEXT_LENGTH: usize = 256;

/// Why a piece wasn't read.
#[derive(Clone, Copy, Debug, PartialEq, Eq)]
pub enum FetchError {
    /// The bytes that stand there have another digest than the piece.
    Tampered(Damage),
    /// The device failed.
    Fault,
    /// Memory ran out, before anything was read.
    Memory,
}

/// Reads a piece, and gives its bytes where they have its digest. They may be fewer than the piece's
/// length where the device ends within it.
pub fn fetch<P: Platform>(
    alloc: Global,
    platform: &mut P,
    piece: &Piece,
) -> Result<Vec<u8>, FetchError>
    ensures reads { OnlyReads P.outside P.crash_states platform.old platform.new }
    ensures read { IsTrue (P.outside platform.old).tells
        → IfOk result (λ bytes. (P.outside platform.new).trace
        ≡ with_read (P.outside platform.old).trace piece.now.place.0 piece.now.length bytes.items) }
    ensures digest { IfOk result (λ bytes. sha256 bytes.items ≡ piece.now.digest.0) }
    ensures tampered { (damage : Damage) → result ≡ Err (FetchError.Tampered damage) → (damage.place ≡ piece.now.place)
        × (damage.expected ≡ piece.now.digest) × ((bytes : List ℕ) × (sha256 bytes ≡ damage.found.0) × (damage.found ≢ piece.now.digest)
        × (IsTrue (P.outside platform.old).tells
        → (P.outside platform.new).trace ≡ with_read (P.outside platform.old).trace piece.now.place.0 piece.now.length bytes)
        × (IsTrue (P.outside platform.old).honest → bytes ≡ held (P.outside platform.old).image piece.now.place.0 piece.now.length)) }
    // an honest device shows what it has
    ensures held { IsTrue (P.outside platform.old).honest
        → IfOk result (λ bytes. bytes.items ≡ held (P.outside platform.old).image piece.now.place.0 piece.now.length) }
    ensures fault { result ≡ Err FetchError.Fault → Rose (P.outside platform.old).faults (P.outside platform.new).faults }
    // an honest device tells no damage where the piece stands
    ensures stands { IsTrue (P.outside platform.old).honest → StandsIn (P.outside platform.old).image piece.now → (damage : Damage)
        → result ≢ Err (FetchError.Tampered damage) }
    // with any other answer there was no fault
    ensures quiet { result ≢ Err FetchError.Fault → (P.outside platform.new).faults ≡ (P.outside platform.old).faults }
    // what failed is in no trace
    ensures failed { result ≡ Err FetchError.Fault → IsTrue (P.outside platform.old).tells
        → (P.outside platform.new).trace ≡ (P.outside platform.old).trace }
    ensures unread { result ≡ Err FetchError.Memory → platform.new ≡ platform.old }
    ensures settled { IsSettled P.outside P.crash_states platform.old → IsSettled P.outside P.crash_states platform.new }
{
    let length = piece.length as usize;
    let Ok(mut bytes) = vec![in alloc; 0u8; length] else {
        return Err(FetchError::Memory);
    };
    let Ok(count) = platform.read(piece.place.0, bytes.as_mut_slice()) else {
        return Err(FetchError::Fault);
    };
    bytes.truncate(count);
    let found = Digest(Sha256::digest(bytes.as_slice()));
    if found == piece.digest {
        Ok(bytes)
    } else {
        Err(FetchError::Tampered(Damage {
            place: piece.place,
            expected: piece.digest,
            found,
        }))
    }
}

/// Reads the commit text with a count, from 1 on, and gives it where it has the digest that marks it.
/// It takes no memory. Fewer than 256 bytes are damage, whatever their digest.
pub fn fetch_text<P: Platform>(
    platform: &mut P,
    count: u64,
    mark: &Digest,
) -> Result<[u8; 256], FetchError>
    requires { 0 < count }
    ensures reads { OnlyReads P.outside P.crash_states platform.old platform.new }
    ensures read { IsTrue (P.outside platform.old).tells
        → IfOk result (λ text. (P.outside platform.new).trace ≡ with_read (P.outside platform.old).trace (slot_place count) 256 text) }
    ensures digest { IfOk result (λ text. sha256 text ≡ mark.now.0) }
    ensures tampered { (damage : Damage) → result ≡ Err (FetchError.Tampered damage) → (damage.place ≡ record { 0 = slot_place count })
        × (damage.expected ≡ mark.now)
        × (IsTrue (P.outside platform.old).tells → (bytes : List ℕ)
        × ((P.outside platform.new).trace ≡ with_read (P.outside platform.old).trace (slot_place count) 256 bytes)
        × (sha256 bytes ≡ damage.found.0) × ((damage.found ≢ mark.now) ⊎ (length bytes < 256))) }
    ensures fault { result ≡ Err FetchError.Fault → Rose (P.outside platform.old).faults (P.outside platform.new).faults }
    // an honest device tells no damage where the text stands
    ensures stands { IsTrue (P.outside platform.old).honest
        → StandsIn (P.outside platform.old).image (record { place = record { 0 = slot_place count }; length = 256; digest = mark.now })
        → (damage : Damage) → result ≢ Err (FetchError.Tampered damage) }
    // with any other answer there was no fault
    ensures quiet { result ≢ Err FetchError.Fault → (P.outside platform.new).faults ≡ (P.outside platform.old).faults }
    // what failed is in no trace
    ensures failed { result ≡ Err FetchError.Fault → IsTrue (P.outside platform.old).tells
        → (P.outside platform.new).trace ≡ (P.outside platform.old).trace }
    ensures unread { result ≡ Err FetchError.Memory → platform.new ≡ platform.old }
    ensures no_memory { result ≢ Err FetchError.Memory }
    ensures settled { IsSettled P.outside P.crash_states platform.old → IsSettled P.outside P.crash_states platform.new }
{
    let place = slot_of(count);
    let mut text = [0; TEXT_LENGTH];
    let Ok(length) = platform.read(place.0, &mut text) else {
        return Err(FetchError::Fault);
    };
    let found = Digest(Sha256::digest(&text[..length]));
    if length == TEXT_LENGTH && found == *mark {
        Ok(text)
    } else {
        Err(FetchError::Tampered(Damage {
            place,
            expected: *mark,
            found,
        }))
    }
}
