//! Notes, and the chunk that one is stored in.
ghost use Rattle.std.specs.Prelude.{◌≡◌, ◌↔◌, ℕ, List, IsTrue, IsSome, IfSome, IfNone, IfOk};
ghost use Rattle.tdb_script.specs.NoteText.{IsNoteText, IsStoredNote, stored_note_bytes};

use std::alloc::{AllocError, Global};
use std::fmt;
use std::marker::Model;
use tdb_base::{Bytes, push_bytes, push_u32, split_u32};

/// The most bytes that the text of a note has.
pub const MAX_NOTE_LENGTH: usize = 2000;

// The class of notes among the stored objects.
const NOTE_CLASS: u32 = 1;

// The version of the form in which a note is stored.
const NOTE_VERSION: u32 = 1;

// The mask of an object that is in no collection.
const NO_COLLECTION: u32 = 0;

// A mask of collections is below this number. A chunk that begins otherwise holds no member.
const MASK_LIMIT: u32 = 65_536;

// The bytes of a chunk that stand before the text: mask, class, version and length.
const NOTE_OVERHEAD: usize = 16;

/// A note: a text of 1 to 2,000 printable ASCII characters, which contracts see as its bytes.
#[derive(Debug, Drop)]
pub struct Note {
    text: String,
}

impl Model for Note {
    ghost use Rattle.std.specs.Prelude.{ℕ, List, string_bytes};
    ghost use Rattle.tdb_script.specs.NoteText.{IsNoteText};

    ghost Value = { List ℕ };

    ghost view = { λ note. string_bytes note.text };

    ghost invariant = { λ note. IsNoteText (string_bytes note.text) };
}

impl Note {
    /// The note of a text, or `None` where the text is no note's.
    #[tactic(auto, using(crate::proofs::NoteLaws::note_text_is_utf8))]
    pub fn new(text: Bytes) -> Option<Note>
        ensures text { IfSome result (λ note. note ≡ text) }
        ensures some { IsSome result ↔ IsNoteText text }
    {
        if !is_note_text(text.as_slice()) {
            return None;
        }
        let Ok(text) = String::from_utf8(text.into_vec()) else {
            return None;
        };
        Some(Note { text })
    }

    /// The note of a text that is known to be a note's.
    #[tactic(auto, using(crate::proofs::NoteLaws::note_text_is_utf8))]
    pub fn of(alloc: Global, text: &[u8]) -> Result<Note, AllocError>
        requires { IsNoteText text.now }
        ensures { IfOk result (λ note. note ≡ text.now) }
    {
        let Ok(text) = String::from_utf8(Vec::from_slice(alloc, text)?) else {
            unreachable!()
        };
        Ok(Note { text })
    }

    /// The text.
    pub fn text(&self) -> &[u8]
        ensures text { result.now ≡ self.now }
        ensures is_text { IsNoteText self.now }
    {
        self.text.as_bytes()
    }
}

/// A note shows as its text.
impl fmt::Display for Note {
    ghost use Rattle.std.specs.Prelude.{Some};

    ghost output = { λ note. Some note };

    fn fmt<W: fmt::Write>(&self, f: &mut fmt::Formatter<W>) -> fmt::Result {
        f.write_str(self.text.as_str())
    }
}

/// Whether a text can be a note's.
pub fn is_note_text(text: &[u8]) -> bool
    ensures { IsTrue result ↔ IsNoteText text.now }
{
    (1..=MAX_NOTE_LENGTH).contains(&text.len())
        && text.iter().all(|byte| matches!(*byte, b' '..=b'~'))
}

/// The chunk that holds a note which is in no collection.
pub fn stored_note(alloc: Global, text: &[u8]) -> Result<Bytes, AllocError>
    requires { IsNoteText text.now }
    ensures { IfOk result (λ chunk. chunk ≡ stored_note_bytes text.now) }
{
    let mut chunk = Vec::with_capacity(alloc, NOTE_OVERHEAD + text.len())?;
    push_u32(&mut chunk, NO_COLLECTION)?;
    push_u32(&mut chunk, NOTE_CLASS)?;
    push_u32(&mut chunk, NOTE_VERSION)?;
    push_u32(&mut chunk, text.len() as u32)?;
    push_bytes(&mut chunk, text)?;
    Ok(Bytes::from(chunk))
}

/// The text of the note that a chunk holds, whatever collections the note is in, or `None` where
/// the chunk holds no note. It takes no memory.
pub fn read_stored_note(chunk: &[u8]) -> Option<&[u8]>
    ensures found { IfSome result (λ text. (mask : ℕ) × IsStoredNote chunk.now mask text.now) }
    ensures none { IfNone result ((mask : ℕ) (text : List ℕ) → IsStoredNote chunk.now mask text → ⊥) }
    ensures unique { (mask other_mask : ℕ) (text other : List ℕ)
        → IsStoredNote chunk.now mask text → IsStoredNote chunk.now other_mask other
        → (mask ≡ other_mask) × (text ≡ other) }
{
    if chunk.len() < NOTE_OVERHEAD {
        return None;
    }
    let (mask, pickle) = split_u32(chunk);
    let (class, body) = split_u32(pickle);
    let (version, field) = split_u32(body);
    let (length, text) = split_u32(field);
    if mask < MASK_LIMIT
        && class == NOTE_CLASS
        && version == NOTE_VERSION
        && length as usize == text.len()
        && is_note_text(text)
    {
        Some(text)
    } else {
        None
    }
}
