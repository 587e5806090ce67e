// The machine: a script's transaction, over a store of chunks.
ghost use Rattle.std.specs.Prelude.{◌≡◌, ◌⊎◌, ◌↔◌, ℕ, List, IfOk, IfErr, IsTrue, OnOk, false};
ghost use Rattle.tdb_model.specs.Lookup.{chunk_at};
ghost use Rattle.tdb_model.specs.State.{State};
ghost use Rattle.tdb_model.specs.Stays.{Stays, TellsFaults};
ghost use Rattle.tdb_script.specs.LineSpelling.{LineValue, IsLineValue, commit, drop_part, get, parts, peek, snapshot};
ghost use Rattle.tdb_script.specs.LineValue.{value_of_line};
ghost use Rattle.tdb_script.specs.declared.reply.Reply.{Reply};
ghost use Rattle.tdb_serve.specs.declared.script_end.Stop.TheVariants.{PlatformFault};
ghost use Rattle.tdb_notes.specs.NotesMachine.{Answered, IsAt, LineAnswered, LineUnanswered, Unanswered};
ghost use Rattle.tdb_notes.specs.Script.{IsFree, IsNoteReply, IsReadReply, IsUsed, script_at};
ghost use Rattle.tdb_notes.specs.Shown.{reply_of};

use crate::answering::{Found, found_in, got, is_snapshot_number, numbers, refusal, writes};
use crate::session::{NOTES_PART, Session};
use std::alloc::Global;
use tdb_base::{PartId, Rank, TxId};
use tdb_model::{Change, Chunks, ReadError};
use tdb_script::{Line, Reply, read_line};
use tdb_serve::{Answers, Stop};

/// A script's transaction and the ids that it draws, over the store that it commits to.
#[derive(Drop)]
pub struct Notes<C> {
    pub store: C,
    session: Session,
}

impl<C: Chunks> Notes<C> {
    /// No transaction is open. Ids are drawn from the first that was never written on, and none is 0.
    pub fn new(store: C) -> Notes<C>
        ensures store { result.store ≡ store }
        ensures at { C.means.told store → (chunks : State) → C.means.state store chunks → IsAt C.means result (script_at chunks) }
    {
        let next_id = match store.info(NOTES_PART) {
            Some(info) => info.next.max(1),
            None => 1,
        };
        Notes {
            store,
            session: Session::new(next_id),
        }
    }

    // Answers a line of the grammar.
    fn answer_line(&mut self, alloc: Global, line: Line<'_>) -> Result<Reply, Stop>
        requires ready { C.means.is_stopped self.old.store ≡ false }
        requires value { IsLineValue (value_of_line line) }
        ensures answered { IfOk result (λ reply. LineAnswered C.means self.old (value_of_line line.entry) reply self.new) }
        ensures unanswered { IfErr result (λ stop. LineUnanswered C.means self.old (value_of_line line.entry) stop self.new) }
        ensures ready { OnOk result (C.means.is_stopped self.new.store ≡ false) }
    {
        match line {
            Line::Quit => Ok(Reply::Bye),
            Line::Begin(number) => Ok(self.session.begin(alloc, number)),
            Line::New(number, text) => match self.session.make_note(alloc, number, text) {
                Ok(reply) => Ok(reply),
                Err(_) => Err(Stop::Memory),
            },
            Line::Get(number, id) => self.get(alloc, number, id),
            Line::Abort(number) => Ok(self.session.abort(number)),
            Line::Commit(number) => self.commit(alloc, number),
            Line::Snapshot(part) => self.snapshot(alloc, part),
            Line::Drop(part) => self.drop_part(alloc, part),
            Line::Peek(part, id) => self.peek(alloc, part, id),
            Line::Parts => self.parts(alloc),
        }
    }

    // Answers `get`.
    fn get(&mut self, alloc: Global, number: TxId, id: Rank) -> Result<Reply, Stop>
        requires { C.means.is_stopped self.old.store ≡ false }
        ensures answered { IfOk result (λ reply. LineAnswered C.means self.old (get number.0 id.0) reply self.new) }
        ensures unanswered { IfErr result (λ stop. LineUnanswered C.means self.old (get number.0 id.0) stop self.new) }
        ensures ready { OnOk result (C.means.is_stopped self.new.store ≡ false) }
    {
        let Some(open) = self.session.open(number) else {
            return Ok(Reply::RefusedNoTransaction(number));
        };
        if let Some(note) = open.own(id) {
            return match got(alloc, number, id, note.text()) {
                Ok(reply) => Ok(reply),
                Err(_) => Err(Stop::Memory),
            };
        }
        self.get_committed(alloc, number, id)
    }

    // Answers `get` of a note that is committed.
    fn get_committed(&mut self, alloc: Global, number: TxId, id: Rank) -> Result<Reply, Stop>
        requires { C.means.is_stopped self.old.store ≡ false }
        ensures answered { IfOk result (λ reply. C.means.told self.new.store → (chunks : State) → C.means.state self.old.store chunks
            → IsNoteReply C.means self.old.store self.new.store chunks number.0 id.0 None reply) }
        ensures stays { Stays C.means self.old.store self.new.store }
        ensures faults { TellsFaults PlatformFault (C.means.faults self.old.store) (C.means.faults self.new.store) result }
        ensures ready { C.means.is_stopped self.new.store ≡ false }
        ensures session { self.new.session ≡ self.old.session }
    {
        match self.read_note(alloc, NOTES_PART, id)? {
            Found::Note(note) => Ok(Reply::Got(number, id, note)),
            Found::Refused(reply) => Ok(reply),
        }
    }

    // What is shown of an object that is committed.
    fn read_note(&mut self, alloc: Global, part: PartId, id: Rank) -> Result<Found, Stop>
        requires { C.means.is_stopped self.old.store ≡ false }
        ensures shown { IfOk result (λ found. C.means.told self.new.store → (chunks : State) → C.means.state self.old.store chunks
            → (shown : List ℕ → Reply) → IsReadReply C.means self.old.store self.new.store chunks part id.0 shown (reply_of shown found)) }
        ensures stays { Stays C.means self.old.store self.new.store }
        ensures faults { TellsFaults PlatformFault (C.means.faults self.old.store) (C.means.faults self.new.store) result }
        ensures ready { C.means.is_stopped self.new.store ≡ false }
        ensures session { self.new.session ≡ self.old.session }
    {
        match self.store.read(alloc, part, id) {
            Ok(chunk) => match found_in(alloc, part, id, &chunk) {
                Ok(found) => Ok(found),
                Err(_) => Err(Stop::Memory),
            },
            Err(ReadError::Tampered(_)) => Ok(Found::Refused(Reply::Tampered(part, id))),
            Err(ReadError::Form { .. }) => Ok(Found::Refused(Reply::Tampered(part, id))),
            Err(ReadError::Fault) => Err(Stop::PlatformFault),
            Err(ReadError::Memory) => Err(Stop::Memory),
            Err(_) => Ok(Found::Refused(Reply::RefusedNoObject(part, id))),
        }
    }

    // Answers `commit`.
    fn commit(&mut self, alloc: Global, number: TxId) -> Result<Reply, Stop>
        requires { C.means.is_stopped self.old.store ≡ false }
        ensures answered { IfOk result (λ reply. LineAnswered C.means self.old (commit number.0) reply self.new) }
        ensures unanswered { IfErr result (λ stop. LineUnanswered C.means self.old (commit number.0) stop self.new) }
        ensures ready { OnOk result (C.means.is_stopped self.new.store ≡ false) }
    {
        let Some(open) = self.session.open(number) else {
            return Ok(Reply::RefusedNoTransaction(number));
        };
        if open.notes.is_empty() {
            self.session.transaction = None;
            return Ok(Reply::Committed(number));
        }
        let Ok(changes) = writes(alloc, &open.notes) else {
            return Err(Stop::Memory);
        };
        match self.store.commit(alloc, &changes) {
            Ok(()) => {
                self.session.transaction = None;
                Ok(Reply::Committed(number))
            }
            Err(error) => refusal(error),
        }
    }

    // Whether a snapshot may have this number.
    fn is_free(&self, part: PartId) -> bool
        ensures { C.means.told self.now.store → (chunks : State) → C.means.state self.now.store chunks
            → IsTrue result ↔ IsFree chunks part.0 }
    {
        is_snapshot_number(part) && self.store.info(part).is_none()
    }

    // Whether a partition has this number that may be dropped or peeked at.
    fn is_used(&self, part: PartId) -> bool
        ensures { C.means.told self.now.store → (chunks : State) → C.means.state self.now.store chunks
            → IsTrue result ↔ IsUsed chunks part.0 }
    {
        is_snapshot_number(part) && self.store.info(part).is_some()
    }

    // Answers `snapshot`.
    fn snapshot(&mut self, alloc: Global, part: PartId) -> Result<Reply, Stop>
        requires { C.means.is_stopped self.old.store ≡ false }
        ensures answered { IfOk result (λ reply. LineAnswered C.means self.old (snapshot part.0) reply self.new) }
        ensures unanswered { IfErr result (λ stop. LineUnanswered C.means self.old (snapshot part.0) stop self.new) }
        ensures ready { OnOk result (C.means.is_stopped self.new.store ≡ false) }
    {
        if !self.is_free(part) {
            return Ok(Reply::RefusedPartition(part));
        }
        let copy = Change::Copy {
            from: NOTES_PART,
            to: part,
        };
        match self.store.commit(alloc, &[copy]) {
            Ok(()) => Ok(Reply::Snapshot(part)),
            Err(error) => refusal(error),
        }
    }

    // Answers `drop`.
    fn drop_part(&mut self, alloc: Global, part: PartId) -> Result<Reply, Stop>
        requires { C.means.is_stopped self.old.store ≡ false }
        ensures answered { IfOk result (λ reply. LineAnswered C.means self.old (drop_part part.0) reply self.new) }
        ensures unanswered { IfErr result (λ stop. LineUnanswered C.means self.old (drop_part part.0) stop self.new) }
        ensures ready { OnOk result (C.means.is_stopped self.new.store ≡ false) }
    {
        if !self.is_used(part) {
            return Ok(Reply::RefusedPartition(part));
        }
        match self.store.commit(alloc, &[Change::Drop { part }]) {
            Ok(()) => Ok(Reply::Dropped(part)),
            Err(error) => refusal(error),
        }
    }

    // Answers `peek`.
    fn peek(&mut self, alloc: Global, part: PartId, id: Rank) -> Result<Reply, Stop>
        requires { C.means.is_stopped self.old.store ≡ false }
        ensures answered { IfOk result (λ reply. LineAnswered C.means self.old (peek part.0 id.0) reply self.new) }
        ensures unanswered { IfErr result (λ stop. LineUnanswered C.means self.old (peek part.0 id.0) stop self.new) }
        ensures ready { OnOk result (C.means.is_stopped self.new.store ≡ false) }
    {
        if !self.is_used(part) {
            return Ok(Reply::RefusedPartition(part));
        }
        match self.read_note(alloc, part, id)? {
            Found::Note(note) => Ok(Reply::Peeked(part, id, note)),
            Found::Refused(reply) => Ok(reply),
        }
    }

    // Answers `parts`.
    fn parts(&self, alloc: Global) -> Result<Reply, Stop>
        ensures answered { IfOk result (λ reply. LineAnswered C.means self.now parts reply self.now) }
        ensures unanswered { IfErr result (λ stop. LineUnanswered C.means self.now parts stop self.now) }
    {
        let Ok(infos) = self.store.partitions(alloc) else {
            return Err(Stop::Memory);
        };
        match numbers(alloc, &infos) {
            Ok(numbers) => Ok(Reply::Parts(numbers)),
            Err(_) => Err(Stop::Memory),
        }
    }
}

impl<C: Chunks> Answers for Notes<C> {
    ghost ready = { λ notes. C.means.is_stopped notes.store ≡ false };

    ghost answered = { Answered C.means };

    ghost unanswered = { λ old bytes stop new. Unanswered C.means old bytes stop new };

    fn answer(&mut self, alloc: Global, line: &[u8]) -> Result<Reply, Stop> {
        match read_line(line) {
            Some(line) => self.answer_line(alloc, line),
            None => Ok(Reply::RefusedUnbuilt),
        }
    }

    fn pass_over(&mut self) -> Reply {
        Reply::RefusedUnbuilt
    }
}
