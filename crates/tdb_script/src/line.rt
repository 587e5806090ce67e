//! The lines of a script.
ghost use Rattle.std.specs.Prelude.{◌≡◌, ◌==◌, ◌≢◌, [], ◌∷◌, ◌++◌, ℕ, List, All, IfSome, IfNone, codes, decimal, position};
ghost use Rattle.tdb_script.specs.LineSpelling.{LineValue, IsLine, IsTransaction, IsPart, IsObject};
ghost use Rattle.tdb_script.specs.LineValue.{value_of_line};
ghost use Rattle.tdb_script.specs.NoteText.{IsNoteText};

use crate::note::is_note_text;
use tdb_base::{PartId, Rank, TxId, read_decimal};

/// The most bytes that a line has without its line feed.
pub const MAX_LINE_LENGTH: usize = 4095;

// The greatest number of a transaction.
const MAX_TRANSACTION: u64 = 4_294_967_295;

// The greatest number that a line gives for a partition. Not each of them is a partition's.
const MAX_PART: u64 = 4_294_967_295;

// The greatest number of an object.
const MAX_OBJECT: u64 = 262_143;

/// What a line of a script asks for. It borrows its texts from the line.
#[derive(Clone, Copy, Debug, PartialEq, Eq)]
pub enum Line<'a> {
    /// `begin T` opens the transaction of that number.
    Begin(TxId),
    /// `new T note TEXT` makes a note of that text in the transaction.
    New(TxId, &'a [u8]),
    /// `get T ID` gives the object of that number, 0 to 262,143, to the transaction.
    Get(TxId, Rank),
    /// `commit T` commits the transaction.
    Commit(TxId),
    /// `abort T` gives up the transaction.
    Abort(TxId),
    /// `snapshot P` makes the partition of that number a copy of partition 1, as it is committed.
    Snapshot(PartId),
    /// `drop P` drops the partition of that number.
    Drop(PartId),
    /// `peek P ID` gives the committed object of that number, 0 to 262,143, of a partition.
    Peek(PartId, Rank),
    /// `parts` gives the numbers of the partitions.
    Parts,
    /// `quit` ends the script.
    Quit,
}

/// Reads a line, given without its line feed, or `None` where it is outside the grammar. It takes
/// no memory.
#[tactic(auto, using(crate::proofs::LineLaws::line_value_unique))]
pub fn read_line(bytes: &[u8]) -> Option<Line<'_>>
    ensures found { IfSome result (λ line. IsLine bytes.now (value_of_line line)) }
    ensures none { IfNone result ((value : LineValue) → IsLine bytes.now value → ⊥) }
    ensures unique { (value other : LineValue)
        → IsLine bytes.now value → IsLine bytes.now other → value ≡ other }
{
    if bytes.len() > MAX_LINE_LENGTH {
        return None;
    }
    if bytes == b"quit".as_slice() {
        return Some(Line::Quit);
    }
    if bytes == b"parts".as_slice() {
        return Some(Line::Parts);
    }
    if let Some(transaction) = read_command(bytes, b"begin ") {
        return Some(Line::Begin(transaction));
    }
    if let Some(transaction) = read_command(bytes, b"commit ") {
        return Some(Line::Commit(transaction));
    }
    if let Some(transaction) = read_command(bytes, b"abort ") {
        return Some(Line::Abort(transaction));
    }
    if let Some((transaction, object)) = read_get(bytes) {
        return Some(Line::Get(transaction, object));
    }
    if let Some(part) = read_part_command(bytes, b"snapshot ") {
        return Some(Line::Snapshot(part));
    }
    if let Some(part) = read_part_command(bytes, b"drop ") {
        return Some(Line::Drop(part));
    }
    if let Some((part, object)) = read_peek(bytes) {
        return Some(Line::Peek(part, object));
    }
    let (transaction, text) = read_new(bytes)?;
    Some(Line::New(transaction, text))
}

// The transaction of a line that has nothing but a command, its space included, and that number.
fn read_command(bytes: &[u8], command: &[u8]) -> Option<TxId>
    ensures found { IfSome result
        (λ transaction. IsTransaction transaction.0
        × (bytes.now ≡ command.now ++ decimal transaction.0)) }
    ensures none { IfNone result ((number : ℕ)
        → IsTransaction number → bytes.now ≡ command.now ++ decimal number → ⊥) }
{
    let number = bytes.strip_prefix(command)?;
    read_transaction(number)
}

// The partition of a line that has nothing but a command, its space included, and that number.
fn read_part_command(bytes: &[u8], command: &[u8]) -> Option<PartId>
    ensures found { IfSome result
        (λ part. IsPart part.0
        × (bytes.now ≡ command.now ++ decimal part.0)) }
    ensures none { IfNone result ((number : ℕ)
        → IsPart number → bytes.now ≡ command.now ++ decimal number → ⊥) }
{
    let number = bytes.strip_prefix(command)?;
    read_part(number)
}

// The transaction whose number a word spells.
fn read_transaction(word: &[u8]) -> Option<TxId>
    ensures found { IfSome result
        (λ transaction. IsTransaction transaction.0 × (word.now ≡ decimal transaction.0)) }
    ensures none { IfNone result ((number : ℕ)
        → IsTransaction number → word.now ≡ decimal number → ⊥) }
{
    let number = read_decimal(word)?;
    if (1..=MAX_TRANSACTION).contains(&number) {
        Some(TxId(number as u32))
    } else {
        None
    }
}

// The partition whose number a word spells.
fn read_part(word: &[u8]) -> Option<PartId>
    ensures found { IfSome result
        (λ part. IsPart part.0 × (word.now ≡ decimal part.0)) }
    ensures none { IfNone result ((number : ℕ)
        → IsPart number → word.now ≡ decimal number → ⊥) }
{
    let number = read_decimal(word)?;
    if number <= MAX_PART {
        Some(PartId(number as u32))
    } else {
        None
    }
}

// The object whose number a word spells.
fn read_object(word: &[u8]) -> Option<Rank>
    ensures found { IfSome result
        (λ object. IsObject object.0 × (word.now ≡ decimal object.0)) }
    ensures none { IfNone result ((number : ℕ)
        → IsObject number → word.now ≡ decimal number → ⊥) }
{
    let number = read_decimal(word)?;
    if number <= MAX_OBJECT {
        Some(Rank(number as u32))
    } else {
        None
    }
}

// The transaction and the object of a line that gets one.
fn read_get(bytes: &[u8]) -> Option<(TxId, Rank)>
    ensures found { IfSome result
        (λ line. IsTransaction line.0.0 × IsObject line.1.0
        × (bytes.now ≡ codes "get " ++ decimal line.0.0 ++ codes " " ++ decimal line.1.0)) }
    ensures none { IfNone result ((number object : ℕ)
        → IsTransaction number → IsObject object
        → bytes.now ≡ codes "get " ++ decimal number ++ codes " " ++ decimal object → ⊥) }
{
    let fields = bytes.strip_prefix(b"get ".as_slice())?;
    let (number, word) = split_field(fields)?;
    let transaction = read_transaction(number)?;
    let object = read_object(word)?;
    Some((transaction, object))
}

// The partition and the object of a line that peeks at one.
fn read_peek(bytes: &[u8]) -> Option<(PartId, Rank)>
    ensures found { IfSome result
        (λ line. IsPart line.0.0 × IsObject line.1.0
        × (bytes.now ≡ codes "peek " ++ decimal line.0.0 ++ codes " " ++ decimal line.1.0)) }
    ensures none { IfNone result ((number object : ℕ)
        → IsPart number → IsObject object
        → bytes.now ≡ codes "peek " ++ decimal number ++ codes " " ++ decimal object → ⊥) }
{
    let fields = bytes.strip_prefix(b"peek ".as_slice())?;
    let (number, word) = split_field(fields)?;
    let part = read_part(number)?;
    let object = read_object(word)?;
    Some((part, object))
}

// The transaction and the text of a line that makes a note.
fn read_new(bytes: &[u8]) -> Option<(TxId, &[u8])>
    ensures found { IfSome result
        (λ note. IsTransaction note.0.0 × IsNoteText note.1.now
        × (bytes.now ≡ codes "new " ++ decimal note.0.0 ++ codes " note " ++ note.1.now)) }
    ensures none { IfNone result ((number : ℕ) (text : List ℕ)
        → IsTransaction number → IsNoteText text
        → bytes.now ≡ codes "new " ++ decimal number ++ codes " note " ++ text → ⊥) }
{
    let fields = bytes.strip_prefix(b"new ".as_slice())?;
    let (number, value) = split_field(fields)?;
    let transaction = read_transaction(number)?;
    let text = value.strip_prefix(b"note ".as_slice())?;
    if is_note_text(text) {
        Some((transaction, text))
    } else {
        None
    }
}

// The first of the fields that single spaces separate, and what stands behind its space.
fn split_field(fields: &[u8]) -> Option<(&[u8], &[u8])>
    ensures found { IfSome result
        (λ parts. All (λ byte. byte ≢ 32) parts.0.now
        × (fields.now ≡ parts.0.now ++ 32 ∷ parts.1.now)) }
    ensures none { IfNone result ((field rest : List ℕ) → fields.now ≡ field ++ 32 ∷ rest → ⊥) }
{
    let length = first_space(fields)?;
    Some((&fields[..length], &fields[length + 1..]))
}

// Where the first space stands.
fn first_space(bytes: &[u8]) -> Option<usize>
    ensures { result ≡ position (λ byte. byte == 32) bytes.now }
{
    bytes.iter().position(|byte| *byte == b' ')
}
