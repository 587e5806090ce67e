// The transaction of a script.
ghost use Rattle.std.specs.Prelude.{◌≡◌, ◌<◌, ◌+◌, ◌++◌, ◌∷◌, [], OnErr, OnOk, length};
ghost use Rattle.std.specs.List.{All};
ghost use Rattle.tdb_model.specs.Limits.{rank_limit};

use std::alloc::AllocError;
use tdb_base::{Rank, TxId};
use tdb_script::Note;

/// A note that a transaction made, and its id.
#[derive(Drop)]
pub(crate) struct NewNote {
    pub id: Rank,
    pub note: Note,
}

/// The transaction that is open.
#[derive(Drop)]
pub(crate) struct Transaction {
    pub number: TxId,
    pub notes: Vec<NewNote>,
    ghost ids: { All (λ new. new.id.0 < rank_limit) notes.items },
}

impl Transaction {
    ghost use Rattle.std.specs.Option.{option_copied};
    ghost use Rattle.tdb_notes.specs.Script.{own_note};
    ghost use Rattle.tdb_notes.specs.SessionState.{notes_of};

    /// The text of the note with this id that the transaction made.
    pub fn own(&self, id: Rank) -> Option<&Note>
        ensures { option_copied result ≡ own_note (notes_of self.now.notes.items) id.0 }
    {
        for new in &self.notes {
            if new.id == id {
                return Some(&new.note);
            }
        }
        None
    }

    /// Adds a note that it made.
    pub fn add(&mut self, id: Rank, note: Note) -> Result<(), AllocError>
        requires { id.0 < rank_limit }
        ensures number { self.new.number ≡ self.old.number }
        ensures one_more { OnOk result (length self.new.notes.items ≡ length self.old.notes.items + 1) }
        ensures failed { OnErr result (self.new.notes.items ≡ self.old.notes.items) }
        ensures added { OnOk result (notes_of self.new.notes.items ≡ notes_of self.old.notes.items ++ (id.0, note) ∷ []) }
    {
        self.notes.push(NewNote { id, note })?;
        Ok(())
    }
}
