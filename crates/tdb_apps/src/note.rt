//! Notes.
ghost use Rattle.std.specs.Prelude.{◌≡◌, ◌↔◌, ◌≤◌, ◌++◌, ℕ, List, IsTrue, IsSome, IfSome, IfOk, OnOk, length, take};
ghost use Rattle.tdb_class.specs.TextBytes.{text_bytes};
ghost use Rattle.tdb_class.specs.declared.universe.PickleError.TheVariants.{Form};
ghost use Rattle.tdb_apps.specs.Keys.{note_key};
ghost use Rattle.tdb_apps.specs.Objects.{IsNote, IsPrintable};

use std::alloc::{AllocError, Global};
use std::marker::Model;
use tdb_base::{Bytes, push_bytes, push_u32, split_u32};
use tdb_class::{Field, PickleError, SHORT_TEXT_LIMIT, ShortText};

/// The most bytes that the text of a note has.
pub const MAX_NOTE_LENGTH: usize = 2000;

/// A text of 1 to 2,000 printable ASCII characters, which contracts see as its bytes.
#[derive(Debug, Drop)]
pub struct Note {
    text: Bytes,
}

impl Model for Note {
    ghost use Rattle.std.specs.Prelude.{ℕ, List};
    ghost use Rattle.tdb_apps.specs.Objects.{IsNote};

    ghost Value = { List ℕ };

    ghost view = { λ note. note.text };

    ghost invariant = { λ note. IsNote note.text };
}

impl Note {
    /// The note of a text, or `None` where the text is no note's.
    pub fn new(text: Bytes) -> Option<Note>
        ensures note { IfSome result (λ note. note ≡ text) }
        ensures some { IsSome result ↔ IsNote text }
    {
        if is_note(text.as_slice()) {
            Some(Note { text })
        } else {
            None
        }
    }

    /// The text.
    pub fn text(&self) -> &[u8]
        ensures text { result.now ≡ self.now }
        ensures is_note { IsNote self.now }
    {
        self.text.as_slice()
    }

    /// The value of a field. The first bytes of the text are its field 0.
    pub(crate) fn key(&self, field: u32) -> Option<Field>
        ensures { result ≡ note_key self.now field }
    {
        if field == 0 {
            Some(Field::Text(first_bytes(self.text())))
        } else {
            None
        }
    }

    /// Appends what a note holds.
    pub(crate) fn push_body(&self, bytes: &mut Vec<u8>) -> Result<(), AllocError>
        ensures { OnOk result (bytes.new.items ≡ bytes.old.items ++ text_bytes self.now) }
    {
        let text = self.text();
        push_u32(bytes, text.len() as u32)?;
        push_bytes(bytes, text)
    }

    /// The note that the bytes hold.
    pub(crate) fn read_body(alloc: Global, bytes: &[u8]) -> Result<Note, PickleError>
        ensures note { IfOk result (λ note. IsNote note × (bytes.now ≡ text_bytes note)) }
        ensures form { result ≡ Err Form → (text : List ℕ) → IsNote text → bytes.now ≡ text_bytes text → ⊥ }
    {
        if bytes.len() < 4 {
            return Err(PickleError::Form);
        }
        let (length, text) = split_u32(bytes);
        if length as usize != text.len() || !is_note(text) {
            return Err(PickleError::Form);
        }
        let text = Bytes::from(text.to_vec(alloc)?);
        Ok(Note { text })
    }
}

fn is_note(text: &[u8]) -> bool
    ensures { IsTrue result ↔ IsNote text.now }
{
    (1..=MAX_NOTE_LENGTH).contains(&text.len()) && text.iter().all(|byte| is_printable(*byte))
}

fn is_printable(byte: u8) -> bool
    ensures { IsTrue result ↔ IsPrintable byte }
{
    matches!(byte, b' '..=b'~')
}

/// The first 32 bytes of a text, or all of them where it has fewer.
fn first_bytes(text: &[u8]) -> ShortText
    ensures { result ≡ take 32 text.now }
{
    let length = SHORT_TEXT_LIMIT.min(text.len());
    match ShortText::new(&text[..length]) {
        Some(first) => first,
        None => unreachable!(),
    }
}
