// Where a script stands beside the store: its transaction, and the ids that it draws.
ghost use Rattle.std.specs.Prelude.{◌≤◌};
ghost use Rattle.tdb_model.specs.Limits.{rank_limit};
ghost use Rattle.tdb_notes.specs.Drawn.{made_in};

use crate::transaction::Transaction;
use std::alloc::{AllocError, Global};
use tdb_base::{PartId, Rank, TxId};
use tdb_model::RANK_LIMIT;
use tdb_script::{Note, Reply};

/// The partition whose chunks are the notes of scripts.
pub(crate) const NOTES_PART: PartId = PartId(1);

/// The transaction of a script, if one is open, and the next id to be drawn.
#[derive(Drop)]
pub(crate) struct Session {
    pub next_id: u32,
    pub transaction: Option<Transaction>,
    // each of its notes has an id of its own
    ghost drawn: { made_in transaction ≤ next_id },
    ghost few: { made_in transaction ≤ rank_limit },
}

impl Session {
    ghost use Rattle.std.specs.Prelude.{◌≡◌, ◌↔◌, ◌<◌, ℕ, IfOk, IfSome, IfNone, IsTrue, IsSome, None, max};
    ghost use Rattle.std.specs.Option.{option_copied, option_map};
    ghost use Rattle.tdb_script.specs.NoteText.{IsNoteText};
    ghost use Rattle.tdb_notes.specs.Script.{ScriptState, abort_answer, begin_answer, in_transaction, new_answer};
    ghost use Rattle.tdb_notes.specs.SessionState.{IsPureAnswer, IsSessionAt, transaction_in, numbered};

    /// No transaction, and this id is the next.
    pub fn new(next_id: u32) -> Session
        ensures next { result.next_id ≡ next_id }
        ensures none { transaction_in result.transaction ≡ None }
    {
        Session {
            next_id,
            transaction: None,
        }
    }

    /// The open transaction, where it has this number.
    pub fn open(&self, number: TxId) -> Option<&Transaction>
        ensures { option_copied result ≡ numbered self.now.transaction number }
    {
        match &self.transaction {
            Some(open) if open.number == number => Some(open),
            _ => None,
        }
    }

    /// Opens a transaction, where none is open.
    pub fn begin(&mut self, alloc: Global, number: TxId) -> Reply
        ensures { (state : ScriptState) → IsSessionAt self.old state
            → IsPureAnswer state self.new result (begin_answer state number.0 state.transaction) }
    {
        match &self.transaction {
            None => {
                let notes = Vec::new(alloc);
                self.transaction = Some(Transaction { number, notes });
                Reply::Begun(number)
            }
            Some(open) if open.number == number => Reply::RefusedOpen(number),
            Some(_) => Reply::RefusedUnbuilt,
        }
    }

    /// Makes a note in the transaction, under the next id.
    pub fn make_note(
        &mut self,
        alloc: Global,
        number: TxId,
        text: &[u8],
    ) -> Result<Reply, AllocError>
        requires { IsNoteText text.now }
        ensures { IfOk result (λ reply. (state : ScriptState) → IsSessionAt self.old state
            → IsPureAnswer state self.new reply (in_transaction state number.0 (new_answer state text.now) state.transaction)) }
    {
        if self.open(number).is_none() {
            return Ok(Reply::RefusedNoTransaction(number));
        }
        if self.next_id >= RANK_LIMIT {
            return Ok(Reply::RefusedIds(NOTES_PART));
        }
        let id = Rank(self.next_id);
        let note = Note::of(alloc, text)?;
        if let Some(open) = &mut self.transaction {
            open.add(id, note)?;
        }
        self.next_id += 1;
        Ok(Reply::Made(number, id))
    }

    /// Gives the transaction up.
    pub fn abort(&mut self, number: TxId) -> Reply
        ensures { (state : ScriptState) → IsSessionAt self.old state
            → IsPureAnswer state self.new result (in_transaction state number.0 (abort_answer state) state.transaction) }
    {
        if self.open(number).is_none() {
            return Reply::RefusedNoTransaction(number);
        }
        self.transaction = None;
        Reply::Aborted(number)
    }
}
