//! The records that texts name: the segment table of a checkpoint, and the change list of a commit.
ghost use Rattle.std.specs.Prelude.{◌≡◌, ◌≢◌, ℕ, List, Err, IfOk, IfErr, IsTrue};
ghost use Rattle.tdb_base.specs.declared.piece.Piece.{Piece};
ghost use Rattle.tdb_list.specs.ChangeList.{IsList};
ghost use Rattle.tdb_mark.specs.CommitFormat.{IsInFormat};
ghost use Rattle.tdb_model.specs.declared.change.Change.{Change};
ghost use Rattle.tdb_overlay.specs.Log.{end_of};
ghost use Rattle.tdb_overlay.specs.Placement.{LiesBelow};
ghost use Rattle.tdb_overlay.specs.Reading.{OnlyReads};
ghost use Rattle.tdb_seg.specs.TableSpace.{table_space};
ghost use Rattle.tdb_recover.specs.Explained.{IsCaused, IsExplained};
ghost use Rattle.tdb_recover.specs.Reads.{ReadsAtMost, ReadsOnly};
ghost use Rattle.tdb_recover.specs.Records.{IsListIn, IsRecordIn, IsTableIn};
ghost use Rattle.tdb_recover.specs.declared.error.OpenError.TheVariants.{Fault};

use crate::error::OpenError;
use std::alloc::Global;
use tdb_base::{Piece, Place};
use tdb_list::{Entry, ListError, read_list};
use tdb_mark::Commit;
use tdb_node::read_table;
use tdb_overlay::{Keys, fetch};
use tdb_platform::Platform;
use tdb_seal::{Name, SealError};
use tdb_seg::Segments;

/// The kind of the record of a segment table.
const TABLE: u32 = 4;

/// The kind of the record of a change list.
const LIST: u32 = 5;

/// Reads a record of the system, and gives its plain text.
pub(crate) fn open_record<P: Platform>(
    alloc: Global,
    platform: &mut P,
    keys: &Keys,
    name: &Name,
    piece: &Piece,
) -> Result<Vec<u8>, OpenError>
    ensures reads { OnlyReads P.outside P.crash_states platform.old platform.new }
    ensures plain { IsTrue (P.outside platform.old).tells → IfOk result (λ bytes. (plain : List ℕ)
        → IsRecordIn (P.outside platform.old).trace.written (P.outside platform.new).trace keys.now name.now piece.now plain
        → bytes.items ≡ plain) }
    ensures only { IsTrue (P.outside platform.old).tells
        → IfOk result (λ _. ReadsOnly (λ p. p ≡ piece.now) (P.outside platform.old) (P.outside platform.new)) }
    ensures caused { IfErr result (IsCaused (P.outside platform.old) (P.outside platform.new)) }
    ensures most { ReadsAtMost 1 (P.outside platform.old) (P.outside platform.new) }
    ensures quiet { result ≢ Err Fault → (P.outside platform.new).faults ≡ (P.outside platform.old).faults }
    ensures explained { IsTrue (P.outside platform.old).tells → IfErr result (λ error. (plain : List ℕ)
        → IsRecordIn (P.outside platform.old).trace.written (P.outside platform.new).trace keys.now name.now piece.now plain
        → IsExplained (P.outside platform.old) (P.outside platform.new) (λ p. p ≡ piece.now) error) }
{
    let bytes = fetch(alloc, platform, piece)?;
    match keys.read_system(alloc, name, bytes.as_slice()) {
        Ok(plain) => Ok(plain),
        Err(SealError::Form) => Err(OpenError::Form { place: piece.place }),
        Err(SealError::Memory) => Err(OpenError::Memory),
    }
}

/// Reads the segment table of a checkpoint: which segments are used behind it, and where it ends.
pub(crate) fn read_segments<P: Platform>(
    alloc: Global,
    platform: &mut P,
    keys: &Keys,
    text: &Commit,
) -> Result<Segments, OpenError>
    requires { IsInFormat text.now }
    ensures reads { OnlyReads P.outside P.crash_states platform.old platform.new }
    ensures segments { IsTrue (P.outside platform.old).tells → IfOk result (λ segments.
        (given : IsTableIn (P.outside platform.old).trace.written (P.outside platform.new).trace keys.now text.now)
        → segments ≡ table_space given.table.table (end_of text.now.first)) }
    ensures many { IfOk result (λ segments. segments.segments ≡ text.now.segments) }
    ensures only { IsTrue (P.outside platform.old).tells
        → IfOk result (λ _. ReadsOnly (λ p. p ≡ text.now.first) (P.outside platform.old) (P.outside platform.new)) }
    ensures caused { IfErr result (IsCaused (P.outside platform.old) (P.outside platform.new)) }
    ensures most { ReadsAtMost 1 (P.outside platform.old) (P.outside platform.new) }
    ensures quiet { result ≢ Err Fault → (P.outside platform.new).faults ≡ (P.outside platform.old).faults }
    ensures explained { IsTrue (P.outside platform.old).tells → IfErr result (λ error.
        IsTableIn (P.outside platform.old).trace.written (P.outside platform.new).trace keys.now text.now
        → IsExplained (P.outside platform.old) (P.outside platform.new) (λ p. p ≡ text.now.first) error) }
{
    let place = text.first.place;
    if !Segments::new(text.segments).holds(&text.first) {
        return Err(OpenError::Form { place });
    }
    let name = Name {
        kind: TABLE,
        suite: text.suite,
        home: 0,
        rank: 0,
    };
    let plain = open_record(alloc, platform, keys, &name, &text.first)?;
    let table = match read_table(plain.as_slice()) {
        Ok(table) => table,
        Err(_) => return Err(OpenError::Form { place }),
    };
    let tail = Place(place.0 + u64::from(text.first.length));
    if table.segments != text.segments || !Segments::is_tail(&table, tail) {
        return Err(OpenError::Form { place });
    }
    Ok(Segments::at(&table, tail))
}

/// Reads the change list of a commit, in one of these segments.
pub(crate) fn read_entries<P: Platform>(
    alloc: Global,
    platform: &mut P,
    keys: &Keys,
    segments: &Segments,
    text: &Commit,
) -> Result<Vec<Entry>, OpenError>
    ensures reads { OnlyReads P.outside P.crash_states platform.old platform.new }
    ensures list { IfOk result (λ entries. IsList entries.items) }
    ensures lies { IfOk result (λ _. LiesBelow segments.now.segments text.now.first) }
    ensures entries { IsTrue (P.outside platform.old).tells → IfOk result (λ entries. (changes : List Change)
        → (given : IsListIn (P.outside platform.old).trace.written (P.outside platform.new).trace keys.now text.now changes)
        → entries.items ≡ given.list.entries) }
    ensures only { IsTrue (P.outside platform.old).tells
        → IfOk result (λ _. ReadsOnly (λ p. p ≡ text.now.first) (P.outside platform.old) (P.outside platform.new)) }
    ensures caused { IfErr result (IsCaused (P.outside platform.old) (P.outside platform.new)) }
    ensures most { ReadsAtMost 1 (P.outside platform.old) (P.outside platform.new) }
    ensures quiet { result ≢ Err Fault → (P.outside platform.new).faults ≡ (P.outside platform.old).faults }
    ensures explained { IsTrue (P.outside platform.old).tells → IfErr result (λ error. (changes : List Change)
        → IsListIn (P.outside platform.old).trace.written (P.outside platform.new).trace keys.now text.now changes
        → LiesBelow segments.now.segments text.now.first
        → IsExplained (P.outside platform.old) (P.outside platform.new) (λ p. p ≡ text.now.first) error) }
{
    let place = text.first.place;
    if !segments.holds(&text.first) {
        return Err(OpenError::Form { place });
    }
    let name = Name {
        kind: LIST,
        suite: text.suite,
        home: 0,
        rank: 0,
    };
    let plain = open_record(alloc, platform, keys, &name, &text.first)?;
    match read_list(alloc, plain.as_slice()) {
        Ok(entries) => Ok(entries),
        Err(ListError::Form) => Err(OpenError::Form { place }),
        Err(ListError::Memory) => Err(OpenError::Memory),
    }
}
