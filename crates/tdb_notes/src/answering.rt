// What notes, chunks and refusals are answered.
ghost use Rattle.std.specs.Prelude.{◌≡◌, ◌≢◌, ◌⊎◌, ◌↔◌, ℕ, List, IfOk, IfErr, IsTrue, Some, All, map};
ghost use Rattle.tdb_model.specs.HasCommitted.{IsShort};
ghost use Rattle.tdb_model.specs.declared.error.CommitError.TheVariants as errors;
ghost use Rattle.tdb_script.specs.NoteText.{IsNoteText};
ghost use Rattle.tdb_script.specs.declared.reply.Reply.{Reply};
ghost use Rattle.tdb_script.specs.declared.reply.Reply.TheVariants.{Got};
ghost use Rattle.tdb_serve.specs.declared.script_end.Stop.TheVariants as stops;
ghost use Rattle.tdb_notes.specs.Script.{IsChunkReply, IsSnapshotNumber, changes_of, refusal_reply};
ghost use Rattle.tdb_notes.specs.Shown.{reply_of};
ghost use Rattle.tdb_notes.specs.SessionState.{notes_of};

use crate::session::NOTES_PART;
use crate::transaction::NewNote;
use std::alloc::{AllocError, Global};
use tdb_base::{PartId, Rank, TxId};
use tdb_model::{Change, CommitError, PARTITION_LIMIT, PartInfo};
use tdb_script::{Note, Reply, read_stored_note, stored_note};
use tdb_serve::Stop;

// The least number of a snapshot. Those below it are of the script's own partitions.
const FIRST_SNAPSHOT: u32 = 3;

/// The reply with a note's text.
pub(crate) fn got(alloc: Global, number: TxId, id: Rank, text: &[u8]) -> Result<Reply, AllocError>
    requires { IsNoteText text.now }
    ensures { IfOk result (λ reply. reply ≡ Got number id text.now) }
{
    let note = Note::of(alloc, text)?;
    Ok(Reply::Got(number, id, note))
}

/// What is shown of a chunk: the note that it holds, or else the reply that says why there is none.
#[derive(Drop)]
pub(crate) enum Found {
    Note(Note),
    Refused(Reply),
}

/// What is shown of the chunk of an object that was read.
pub(crate) fn found_in(
    alloc: Global,
    part: PartId,
    id: Rank,
    chunk: &[u8],
) -> Result<Found, AllocError>
    ensures { IfOk result (λ found. (shown : List ℕ → Reply)
        → IsChunkReply part id.0 shown (Some chunk.now) (reply_of shown found)) }
{
    match read_stored_note(chunk) {
        Some(text) => Ok(Found::Note(Note::of(alloc, text)?)),
        None => Ok(Found::Refused(Reply::RefusedPickle(part, id))),
    }
}

/// The numbers of partitions that are told of.
pub(crate) fn numbers(alloc: Global, infos: &[PartInfo]) -> Result<Vec<PartId>, AllocError>
    ensures { IfOk result (λ numbers. numbers.items ≡ map (λ info. info.part) infos.now) }
{
    let mut numbers = Vec::with_capacity(alloc, infos.len())?;
    for info in infos {
        numbers.push(info.part)?;
    }
    Ok(numbers)
}

/// Whether lines give this number to snapshots.
pub(crate) fn is_snapshot_number(part: PartId) -> bool
    ensures { IsTrue result ↔ IsSnapshotNumber part.0 }
{
    (FIRST_SNAPSHOT..=PARTITION_LIMIT).contains(&part.0)
}

/// The writes of notes.
pub(crate) fn writes(alloc: Global, notes: &[NewNote]) -> Result<Vec<Change>, AllocError>
    ensures writes { IfOk result (λ changes. changes.items ≡ changes_of (notes_of notes.now)) }
    ensures short { IfOk result (λ changes. All IsShort changes.items) }
{
    let mut changes = Vec::with_capacity(alloc, notes.len())?;
    for new in notes {
        let bytes = stored_note(alloc, new.note.text())?;
        changes.push(Change::Write {
            part: NOTES_PART,
            rank: new.id,
            bytes,
        })?;
    }
    Ok(changes)
}

/// The reply to a commit that is refused, or why there is none.
pub(crate) fn refusal(error: CommitError) -> Result<Reply, Stop>
    ensures reply { IfOk result (λ reply. (error ≢ errors.Memory) × (error ≢ errors.Fault) × (reply ≡ refusal_reply error)) }
    ensures stop { IfErr result (λ stop. ((error ≡ errors.Memory) × (stop ≡ stops.Memory))
        ⊎ ((error ≡ errors.Fault) × (stop ≡ stops.PlatformFault))) }
{
    match error {
        CommitError::TooManyChanges { number } => Ok(Reply::RefusedChanges(number)),
        CommitError::RingFull => Ok(Reply::RefusedRing),
        CommitError::CounterEnd => Ok(Reply::RefusedCounter),
        CommitError::NoRoom(room) => Ok(Reply::RefusedFull(room)),
        CommitError::Memory => Err(Stop::Memory),
        CommitError::Fault => Err(Stop::PlatformFault),
        CommitError::Stopped
        | CommitError::PartitionNumber
        | CommitError::NoPartition { .. }
        | CommitError::PartitionExists { .. }
        | CommitError::PartitionTwice { .. }
        | CommitError::Frozen { .. }
        | CommitError::RankTooLarge
        | CommitError::ChunkTooLong => Ok(Reply::RefusedUnbuilt),
    }
}
