// A script over the machine.
ghost use Rattle.std.specs.Prelude.{◌≡◌, ℕ, List, false};
ghost use Rattle.std.specs.List.{AllByRecursion};
ghost use Rattle.tdb_serve.specs.Faults.{Keeps, TellsStreamFaults};
ghost use Rattle.tdb_serve.specs.Running.{ScriptRan};
ghost use Rattle.tdb_serve.specs.Served.{Served};
ghost use Rattle.tdb_notes.specs.NotesMachine.{Answered, Begins, EndCause, IsAt, IsNotTampered, IsTold, IsUnhurt, Runs, Step, Unanswered};
ghost use Rattle.tdb_notes.specs.Script.{ScriptState};

use crate::notes::Notes;
use std::alloc::Global;
use tdb_model::Chunks;
use tdb_serve::{ScriptEnd, serve};
use tdb_stream::{Sink, Source};

/// Answers the lines of a script over a store of chunks, up to the line `quit`.
///
/// The store mustn't be stopped. Where no note's chunk was hurt between its first value and its last, no line is answered
/// `tampered`.
pub fn serve_notes<S: Source, K: Sink, C: Chunks>(
    alloc: Global,
    source: &mut S,
    sink: &mut K,
    notes: &mut Notes<C>,
) -> ScriptEnd
    requires { C.means.is_stopped notes.old.store ≡ false }
    ensures served { (served : Served (Answered C.means) (Unanswered C.means) (S.content source.old) (S.content source.new)
        (K.content sink.old) (K.content sink.new) notes.old notes.new result)
        × ScriptRan (IsTold C.means) (IsAt C.means) (Step C.means) (Begins C.means) (Runs C.means) served.conversation notes.old
        notes.new result
        × (C.means.told notes.new.store → (state : ScriptState) → IsAt C.means notes.old state
        → IsUnhurt C.means notes.old.store notes.new.store → AllByRecursion IsNotTampered served.conversation.replies) }
    ensures faults { TellsStreamFaults (S.content source.old) (S.content source.new) (K.content sink.old) (K.content sink.new) result }
    ensures cause { EndCause C.means notes.old.store notes.new.store result }
    ensures keeps { Keeps (S.content source.old) (S.content source.new) (K.content sink.old) (K.content sink.new) }
{
    serve(alloc, source, sink, notes)
}
