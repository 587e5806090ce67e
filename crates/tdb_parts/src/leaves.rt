//! What is told of two leaves.
ghost use Rattle.std.specs.Prelude.{◌≡◌, ◌≢◌, ◌⊎◌, false, IsTrue, IfOk, IfErr, Err, Some};
ghost use Rattle.tdb_map.specs.PieceCause.{IsPieceCause, IsUndamaged};
ghost use Rattle.tdb_map.specs.declared.pieces.PieceError.TheVariants.{Fault};
ghost use Rattle.tdb_map.specs.Shown.{AsksOneOf, EachShown, Shows, ShowsOneOf};
ghost use Rattle.tdb_map.specs.Nodes.{Grows};
ghost use Rattle.tdb_parts.specs.ChangedCause.{IsChangedCause, IsOfEither};
ghost use Rattle.tdb_parts.specs.Chunk.{IsChunk, IsNoChunk};
ghost use Rattle.tdb_parts.specs.Told.{HaveOtherBytes, HaveSameBytes, IsLeafTold, IsOneKey};

use crate::pair::{Roots, Trees};
use std::alloc::Global;
use tdb_base::Piece;
use tdb_map::{PieceError, Pieces, Tree};
use tdb_model::Side;
use tdb_seal::{Name, SealError, read_record};

/// The kind of the record of a chunk.
const CHUNK_KIND: u32 = 1;

/// The bytes of the chunk whose record a piece names.
fn fetch_chunk<P: Pieces>(
    alloc: Global,
    pieces: &mut P,
    tree: &Tree,
    rank: u32,
    piece: &Piece,
) -> Result<Vec<u8>, PieceError>
    ensures chunk { IfOk result (λ bytes. IsChunk (P.texts pieces.new) tree.now rank piece.now bytes.items) }
    ensures cause { IfErr result (IsPieceCause (P.shown pieces.old) (P.shown pieces.new)
        (P.misfits pieces.new piece.now) (IsNoChunk tree.now rank) piece.now) }
    ensures asks { EachShown (P.shown pieces.old) (P.shown pieces.new) (AsksOneOf (λ p. p ≡ piece.now)) }
    ensures undamaged { IsUndamaged result → EachShown (P.shown pieces.old) (P.shown pieces.new) (ShowsOneOf (λ p. p ≡ piece.now)) }
    ensures quiet { (result ≡ Err Fault → ⊥) → (P.shown pieces.new).faults ≡ (P.shown pieces.old).faults }
    ensures goes { P.goes pieces.old pieces.new }
    ensures grows { Grows (P.texts pieces.old) (P.texts pieces.new) }
    ensures shows { Shows (P.shown pieces.old) (P.shown pieces.new) 1 }
{
    let bytes = pieces.fetch(alloc, piece)?;
    let name = Name {
        kind: CHUNK_KIND,
        suite: tree.suite,
        home: tree.home,
        rank,
    };
    match read_record(alloc, &tree.key, &name, &bytes) {
        Ok(plain) => Ok(plain),
        Err(SealError::Form) => Err(PieceError::Form { place: piece.place }),
        Err(SealError::Memory) => Err(PieceError::Memory),
    }
}

/// Whether two records have the same bytes. Under one key their digests tell it, and neither is read.
fn have_same_bytes<P: Pieces>(
    alloc: Global,
    pieces: &mut P,
    trees: &Trees<'_>,
    rank: u32,
    one: &Piece,
    other: &Piece,
) -> Result<bool, PieceError>
    ensures same { IfOk result (λ same. IsTrue same → (IsOneKey trees.now.a.now trees.now.b.now × (one.now.digest ≡ other.now.digest))
        ⊎ HaveSameBytes (P.texts pieces.new) trees.now.a.now trees.now.b.now rank one.now other.now) }
    ensures differ { IfOk result (λ same. same ≡ false → (IsOneKey trees.now.a.now trees.now.b.now × (one.now.digest ≢ other.now.digest))
        ⊎ HaveOtherBytes (P.texts pieces.new) trees.now.a.now trees.now.b.now rank one.now other.now) }
    ensures cause { IfErr result (IsChangedCause (P.shown pieces.old) (P.shown pieces.new) (P.misfits pieces.new) (P.texts pieces.new)
        trees.now.a.now trees.now.b.now 0 rank (Some one.now) (Some other.now)) }
    ensures asks { EachShown (P.shown pieces.old) (P.shown pieces.new) (AsksOneOf (IsOfEither (P.texts pieces.new)
        trees.now.a.now trees.now.b.now 0 rank (Some one.now) (Some other.now))) }
    ensures undamaged { IsUndamaged result → EachShown (P.shown pieces.old) (P.shown pieces.new)
        (ShowsOneOf (IsOfEither (P.texts pieces.new)
        trees.now.a.now trees.now.b.now 0 rank (Some one.now) (Some other.now))) }
    ensures quiet { (result ≡ Err Fault → ⊥) → (P.shown pieces.new).faults ≡ (P.shown pieces.old).faults }
    ensures goes { P.goes pieces.old pieces.new }
    ensures grows { Grows (P.texts pieces.old) (P.texts pieces.new) }
    ensures shows { Shows (P.shown pieces.old) (P.shown pieces.new) 2 }
{
    if trees.have_one_key() {
        return Ok(one.digest == other.digest);
    }
    let first = fetch_chunk(alloc, pieces, trees.a, rank, one)?;
    let second = fetch_chunk(alloc, pieces, trees.b, rank, other)?;
    Ok(first == second)
}

/// What is told of two leaves at a rank.
pub(crate) fn side_of_leaves<P: Pieces>(
    alloc: Global,
    pieces: &mut P,
    trees: &Trees<'_>,
    rank: u32,
    leaves: Roots,
) -> Result<Option<Side>, PieceError>
    ensures leaf_told { IfOk result (IsLeafTold (P.texts pieces.new) trees.now.a.now trees.now.b.now rank leaves.a leaves.b) }
    ensures cause { IfErr result (IsChangedCause (P.shown pieces.old) (P.shown pieces.new) (P.misfits pieces.new) (P.texts pieces.new)
        trees.now.a.now trees.now.b.now 0 rank leaves.a leaves.b) }
    ensures asks { EachShown (P.shown pieces.old) (P.shown pieces.new) (AsksOneOf (IsOfEither (P.texts pieces.new)
        trees.now.a.now trees.now.b.now 0 rank leaves.a leaves.b)) }
    ensures undamaged { IsUndamaged result → EachShown (P.shown pieces.old) (P.shown pieces.new)
        (ShowsOneOf (IsOfEither (P.texts pieces.new)
        trees.now.a.now trees.now.b.now 0 rank leaves.a leaves.b)) }
    ensures quiet { (result ≡ Err Fault → ⊥) → (P.shown pieces.new).faults ≡ (P.shown pieces.old).faults }
    ensures goes { P.goes pieces.old pieces.new }
    ensures grows { Grows (P.texts pieces.old) (P.texts pieces.new) }
    ensures shows { Shows (P.shown pieces.old) (P.shown pieces.new) 2 }
{
    match (leaves.a, leaves.b) {
        (None, None) => Ok(None),
        (Some(_), None) => Ok(Some(Side::Gone)),
        (None, Some(_)) => Ok(Some(Side::Here)),
        (Some(one), Some(other)) => {
            if have_same_bytes(alloc, pieces, trees, rank, &one, &other)? {
                Ok(None)
            } else {
                Ok(Some(Side::Here))
            }
        }
    }
}
