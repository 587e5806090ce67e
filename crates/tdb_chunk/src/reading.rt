//! Reading the record of a chunk.
ghost use Rattle.std.specs.Prelude.{◌≡◌, ◌≢◌, ◌⊎◌, ℕ, List, Err, IfErr, IfOk, IsTrue, Some};
ghost use Rattle.tdb_base.specs.Rose.{Rose};
ghost use Rattle.tdb_base.specs.declared.piece.Damage.{Damage};
ghost use Rattle.tdb_base.specs.declared.piece.Place.{Place};
ghost use Rattle.tdb_map.specs.Shown.{AsksOneOf, EachShown, ShowsOneOf};
ghost use Rattle.tdb_map.specs.Tree.{HasAt, IsOnWayTo};
ghost use Rattle.tdb_mark.specs.CommitText.{commit_key_of, commit_of};
ghost use Rattle.tdb_mark.specs.Unforged.{IsUnforged};
ghost use Rattle.tdb_model.specs.declared.error.ReadError.TheVariants as answers;
ghost use Rattle.tdb_seal.specs.SealedRecord.{IsSealedRecord};
ghost use Rattle.tdb_overlay.specs.Found.{in_trace};
ghost use Rattle.tdb_overlay.specs.Growth.{IsSettled};
ghost use Rattle.tdb_overlay.specs.Images.{StandsIn};
ghost use Rattle.tdb_overlay.specs.Keys.{partition_key};
ghost use Rattle.tdb_overlay.specs.Placement.{LiesBelow};
ghost use Rattle.tdb_overlay.specs.Reading.{OnlyReads, shown_of};
ghost use Rattle.tdb_overlay.specs.Trees.{map_height};
ghost use Rattle.tdb_chunk.specs.Finding.{IsDamageAbove, IsStrayAbove, IsUnfitAbove, nodes_read, tree_told};
ghost use Rattle.tdb_chunk.specs.Reading.{HasReadWhole, HasShown, IsDamageOf, IsLate, name_of};

use std::alloc::Global;
use tdb_base::{PartId, Piece, Rank};
use tdb_map::{PieceError, lookup};
use tdb_model::ReadError;
use tdb_overlay::{DevicePieces, FetchError, Keys, Leader, fetch};
use tdb_platform::Platform;
use tdb_seal::{Name, SealError};
use tdb_seg::Segments;

const CHUNK: u32 = 1;

/// Reads the record of a chunk.
pub(crate) fn read_chunk<P: Platform>(
    alloc: Global,
    platform: &mut P,
    keys: &mut Keys,
    part: PartId,
    leader: &Leader,
    rank: Rank,
    piece: &Piece,
) -> Result<Vec<u8>, ReadError>
    ensures same { keys.new ≡ keys.old }
    ensures reads { OnlyReads P.outside P.crash_states platform.old platform.new }
    ensures settled { IsSettled P.outside P.crash_states platform.old → IsSettled P.outside P.crash_states platform.new }
    ensures bytes { IsTrue (P.outside platform.old).tells → IsUnforged (P.outside platform.new).trace (commit_of (commit_key_of keys.old))
        → (sealed plain : List ℕ) → in_trace (P.outside platform.old).trace.written piece.now sealed
        → IsSealedRecord (partition_key keys.old leader.now.home leader.now.birth) (name_of leader.now rank.0) plain sealed
        → IfOk result (λ bytes. bytes.items ≡ plain) }
    ensures form { IsTrue (P.outside platform.old).tells → IsUnforged (P.outside platform.new).trace (commit_of (commit_key_of keys.old))
        → (sealed plain : List ℕ) → in_trace (P.outside platform.old).trace.written piece.now sealed
        → IsSealedRecord (partition_key keys.old leader.now.home leader.now.birth) (name_of leader.now rank.0) plain sealed
        → (place : Place) → result ≢ Err (answers.Form place) }
    ensures tampered { (damage : Damage) → result ≡ Err (answers.Tampered damage)
        → IsDamageOf piece.now (P.outside platform.old) (P.outside platform.new) damage }
    ensures fault { result ≡ Err answers.Fault → Rose (P.outside platform.old).faults (P.outside platform.new).faults }
    ensures once { IsTrue (P.outside platform.old).tells
        → IfOk result (λ bytes. HasReadWhole piece.now (P.outside platform.old) (P.outside platform.new)) }
    ensures damaged_once { (damage : Damage) → result ≡ Err (answers.Tampered damage) → IsTrue (P.outside platform.old).tells
        → HasReadWhole piece.now (P.outside platform.old) (P.outside platform.new) }
    ensures failed { result ≡ Err answers.Fault → IsTrue (P.outside platform.old).tells
        → (P.outside platform.new).trace ≡ (P.outside platform.old).trace }
    ensures at_most_once { IsTrue (P.outside platform.old).tells
        → IfErr result (λ error. ((P.outside platform.new).trace ≡ (P.outside platform.old).trace)
        ⊎ HasReadWhole piece.now (P.outside platform.old) (P.outside platform.new)) }
    // what was shown with the piece's digest, in a read that gave the chunk and in one of bytes outside the format
    ensures shown { IsTrue (P.outside platform.old).tells
        → IfOk result (λ bytes. HasShown piece.now (P.outside platform.old) (P.outside platform.new) (λ shown. Unit {0})) }
    ensures misshapen { (place : Place) → result ≡ Err (answers.Form place) → (place ≡ piece.now.place)
        × (IsTrue (P.outside platform.old).tells
        → HasShown piece.now (P.outside platform.old) (P.outside platform.new) (λ shown. (plain : List ℕ)
        → IsSealedRecord (partition_key keys.old leader.now.home leader.now.birth) (name_of leader.now rank.0) plain shown → ⊥)) }
    // want of memory hides no damage
    ensures memory { result ≡ Err answers.Memory → IsTrue (P.outside platform.old).tells
        → ((P.outside platform.new).trace ≡ (P.outside platform.old).trace)
        ⊎ HasShown piece.now (P.outside platform.old) (P.outside platform.new) (λ shown. Unit {0}) }
    ensures stands { IsTrue (P.outside platform.old).honest → StandsIn (P.outside platform.old).image piece.now → (damage : Damage)
        → result ≢ Err (answers.Tampered damage) }
    ensures quiet { result ≢ Err answers.Fault → (P.outside platform.new).faults ≡ (P.outside platform.old).faults }
    ensures late { IfErr result IsLate }
{
    let bytes = match fetch(alloc, platform, piece) {
        Ok(bytes) => bytes,
        Err(FetchError::Tampered(damage)) => return Err(ReadError::Tampered(damage)),
        Err(FetchError::Fault) => return Err(ReadError::Fault),
        Err(FetchError::Memory) => return Err(ReadError::Memory),
    };
    let name = Name {
        kind: CHUNK,
        suite: leader.suite,
        home: leader.home,
        rank: rank.0,
    };
    match keys.read_chunk(alloc, part, leader.birth, &name, &bytes) {
        Ok(plain) => Ok(plain),
        Err(SealError::Form) => Err(ReadError::Form { place: piece.place }),
        Err(SealError::Memory) => Err(ReadError::Memory),
    }
}

/// The piece of a chunk's record in the tree that its partition had at the last checkpoint, whose pieces lie in these
/// segments.
pub(crate) fn find_record<P: Platform>(
    alloc: Global,
    platform: &mut P,
    keys: &Keys,
    segments: &Segments,
    leader: &Leader,
    rank: Rank,
) -> Result<Option<Piece>, ReadError>
    ensures reads { OnlyReads P.outside P.crash_states platform.old platform.new }
    ensures settled { IsSettled P.outside P.crash_states platform.old → IsSettled P.outside P.crash_states platform.new }
    // the tree that was read has it
    ensures at { IfOk result (λ leaf. HasAt (nodes_read (P.outside platform.new) (tree_told keys.now leader.now)) map_height leader.now.root
        rank.0 leaf) }
    ensures lies { IfOk result (λ leaf. (piece : Piece) → leaf ≡ Some piece → LiesBelow segments.now.segments piece) }
    // each piece that was read is a node above the rank. Unless damage is told each showed its digest
    ensures asks { EachShown (shown_of (P.outside platform.old)) (shown_of (P.outside platform.new))
        (AsksOneOf (IsOnWayTo (nodes_read (P.outside platform.new) (tree_told keys.now leader.now)) (λ r. r ≡ rank.0) map_height 0
        leader.now.root)) }
    ensures undamaged { ((damage : Damage) → result ≢ Err (answers.Tampered damage))
        → EachShown (shown_of (P.outside platform.old)) (shown_of (P.outside platform.new))
        (ShowsOneOf (IsOnWayTo (nodes_read (P.outside platform.new) (tree_told keys.now leader.now)) (λ r. r ≡ rank.0) map_height 0
        leader.now.root)) }
    ensures tampered { (damage : Damage) → result ≡ Err (answers.Tampered damage)
        → IsDamageAbove (P.outside platform.old) (P.outside platform.new) (tree_told keys.now leader.now) rank.0 damage }
    ensures form { (place : Place) → result ≡ Err (answers.Form place)
        → IsUnfitAbove (P.outside platform.old) (P.outside platform.new) (tree_told keys.now leader.now) rank.0 place
        ⊎ IsStrayAbove (P.outside platform.new) segments.now.segments (tree_told keys.now leader.now) rank.0 place }
    ensures fault { result ≡ Err answers.Fault → Rose (P.outside platform.old).faults (P.outside platform.new).faults }
    ensures quiet { result ≢ Err answers.Fault → (P.outside platform.new).faults ≡ (P.outside platform.old).faults }
    ensures late { IfErr result IsLate }
{
    if leader.root.is_none() {
        return Ok(None);
    }
    let tree = keys.tree(leader);
    let found = match lookup(
        alloc,
        &mut DevicePieces::of(platform, segments),
        &tree,
        rank,
    ) {
        Ok(found) => found,
        Err(PieceError::Tampered(damage)) => return Err(ReadError::Tampered(damage)),
        Err(PieceError::Form { place }) => return Err(ReadError::Form { place }),
        Err(PieceError::Fault) => return Err(ReadError::Fault),
        Err(PieceError::Memory) => return Err(ReadError::Memory),
    };
    match &found {
        Some(piece) if !segments.holds(piece) => Err(ReadError::Form { place: piece.place }),
        _ => Ok(found),
    }
}
