// What a session answers to the lines of a script, and what they commit, as the definition of sessions says it. It has
// no code of the crates below, and knows no damage and no store that is full.
use crate::Change;
use crate::copies::Copies;
use std::alloc::{AllocError, Global};

/// The answer to one line.
#[derive(Debug, Drop, PartialEq, Eq)]
pub struct Reply {
    /// The reply, with its line feed.
    pub text: String,
    /// What is committed before it is put.
    pub changes: Vec<Change>,
}

// A note, by its id and its text.
#[derive(Drop)]
pub(crate) struct Note {
    pub(crate) id: u64,
    pub(crate) text: Vec<u8>,
}

// The transaction that is open: its number and its notes.
#[derive(Drop)]
struct Open {
    number: u64,
    notes: Vec<Note>,
}

/// Where scripts stand, one after another: the notes that are committed, the copies of them, the next id, and the open
/// transaction.
#[derive(Drop)]
pub struct Stand {
    notes: Vec<Note>,
    copies: Copies,
    next_id: u64,
    open: Option<Open>,
}

impl Stand {
    /// Before the first script.
    pub fn new(alloc: Global) -> Stand {
        Stand {
            notes: Vec::new(alloc),
            copies: Copies::new(alloc),
            next_id: 1,
            open: None,
        }
    }

    /// The answers to the lines of a script, up to the first `bye`. The bytes behind the last line feed are no line.
    /// What a transaction did that is still open then is gone.
    pub fn session(&mut self, alloc: Global, script: &[u8]) -> Result<Vec<Reply>, AllocError> {
        let mut replies = Vec::new(alloc);
        let mut line = Vec::new(alloc);
        self.begin_again();
        for byte in script {
            if *byte != b'\n' {
                line.push(*byte)?;
                continue;
            }
            let reply = self.answer(alloc, &line)?;
            let is_bye = reply.text.as_str() == "bye\n";
            replies.push(reply)?;
            if is_bye {
                return Ok(replies);
            }
            line.clear();
        }
        Ok(replies)
    }

    // A run draws ids from behind the greatest that was ever written, and from 1 on.
    fn begin_again(&mut self) {
        self.open = None;
        self.next_id = 1;
        for note in &self.notes {
            self.next_id = self.next_id.max(note.id.wrapping_add(1));
        }
    }

    // The answer to a line. One that is outside the grammar leaves all as it was.
    fn answer(&mut self, alloc: Global, line: &[u8]) -> Result<Reply, AllocError> {
        if line == b"quit".as_slice() {
            return plain(alloc, format!(in alloc; "bye\n")?);
        }
        if let Some(number) = of_one(line, b"begin ") {
            return self.begin(alloc, number);
        }
        if let Some(number) = of_one(line, b"abort ") {
            return self.abort(alloc, number);
        }
        if let Some(number) = of_one(line, b"commit ") {
            return self.commit(alloc, number);
        }
        if let Some((number, text)) = new_note(line) {
            return self.make(alloc, number, text);
        }
        if let Some((number, id)) = get_note(line) {
            return self.get(alloc, number, id);
        }
        match self.copies.answer(alloc, line, &self.notes)? {
            Some(reply) => Ok(reply),
            None => plain(alloc, format!(in alloc; "refused unbuilt\n")?),
        }
    }

    fn is_open(&self, number: u64) -> bool {
        match &self.open {
            Some(open) => open.number == number,
            None => false,
        }
    }

    fn begin(&mut self, alloc: Global, number: u64) -> Result<Reply, AllocError> {
        if self.is_open(number) {
            return plain(alloc, format!(in alloc; "refused open {number}\n")?);
        }
        if self.open.is_some() {
            return plain(alloc, format!(in alloc; "refused unbuilt\n")?);
        }
        let notes = Vec::new(alloc);
        self.open = Some(Open { number, notes });
        plain(alloc, format!(in alloc; "begun {number}\n")?)
    }

    fn abort(&mut self, alloc: Global, number: u64) -> Result<Reply, AllocError> {
        if !self.is_open(number) {
            return plain(
                alloc,
                format!(in alloc; "refused no transaction {number}\n")?,
            );
        }
        self.open = None;
        plain(alloc, format!(in alloc; "aborted {number}\n")?)
    }

    fn make(&mut self, alloc: Global, number: u64, text: &[u8]) -> Result<Reply, AllocError> {
        let id = self.next_id;
        let text = text.to_vec(alloc)?;
        match &mut self.open {
            Some(open) if open.number == number => {
                if id >= 262_144 {
                    return plain(alloc, format!(in alloc; "refused ids 1\n")?);
                }
                open.notes.push(Note { id, text })?;
                self.next_id = id.wrapping_add(1);
                plain(alloc, format!(in alloc; "made {number} {id}\n")?)
            }
            _ => plain(
                alloc,
                format!(in alloc; "refused no transaction {number}\n")?,
            ),
        }
    }

    fn get(&mut self, alloc: Global, number: u64, id: u64) -> Result<Reply, AllocError> {
        let Some(open) = &self.open else {
            return plain(
                alloc,
                format!(in alloc; "refused no transaction {number}\n")?,
            );
        };
        if open.number != number {
            return plain(
                alloc,
                format!(in alloc; "refused no transaction {number}\n")?,
            );
        }
        for note in open.notes.iter().chain(self.notes.iter()) {
            if note.id == id {
                let mut text = format!(in alloc; "got {number} {id} note ")?;
                push_note(&mut text, note)?;
                return plain(alloc, text);
            }
        }
        plain(alloc, format!(in alloc; "refused no object 1 {id}\n")?)
    }

    fn commit(&mut self, alloc: Global, number: u64) -> Result<Reply, AllocError> {
        let Some(open) = self.open.take() else {
            return plain(
                alloc,
                format!(in alloc; "refused no transaction {number}\n")?,
            );
        };
        if open.number != number {
            self.open = Some(open);
            return plain(
                alloc,
                format!(in alloc; "refused no transaction {number}\n")?,
            );
        }
        let made = open.notes.len();
        if made > 1024 {
            self.open = Some(open);
            return plain(alloc, format!(in alloc; "refused changes {made}\n")?);
        }
        let mut changes = Vec::new(alloc);
        for note in open.notes {
            changes.push(write_of(alloc, &note)?)?;
            self.notes.push(note)?;
        }
        let text = format!(in alloc; "committed {number}\n")?;
        Ok(Reply { text, changes })
    }
}

/// The text of a note, which ends a reply.
pub(crate) fn push_note(text: &mut String, note: &Note) -> Result<(), AllocError> {
    for byte in &note.text {
        text.push(char::from(*byte))?;
    }
    text.push('\n')
}

/// A reply that commits nothing.
pub(crate) fn plain(alloc: Global, text: String) -> Result<Reply, AllocError> {
    let changes = Vec::new(alloc);
    Ok(Reply { text, changes })
}

// A note is a chunk of partition 1: no collection, class 1, version 1, its length, its text.
fn write_of(alloc: Global, note: &Note) -> Result<Change, AllocError> {
    let mut chunk = [0, 0, 0, 0, 0, 0, 0, 1, 0, 0, 0, 1, 0, 0].to_vec(alloc)?;
    chunk.push((note.text.len() / 256 % 256) as u8)?;
    chunk.push((note.text.len() % 256) as u8)?;
    chunk.extend_from_slice(&note.text)?;
    Ok(Change::Write(1, note.id, chunk))
}

// The transaction of a line that has a word and its number alone.
fn of_one(line: &[u8], word: &[u8]) -> Option<u64> {
    transaction(behind(line, word)?)
}

// The transaction and the text of a line `new T note TEXT`.
fn new_note(line: &[u8]) -> Option<(u64, &[u8])> {
    let fields = behind(line, b"new ")?;
    let space = fields.iter().position(|byte| *byte == b' ')?;
    let number = transaction(fields.get(..space)?)?;
    let text = behind(fields.get(space..)?, b" note ")?;
    let fits = !text.is_empty()
        && text.len() <= 2000
        && text.iter().all(|byte| 0x20 <= *byte && *byte <= 0x7e);
    if fits { Some((number, text)) } else { None }
}

// The transaction and the id of a line `get T ID`.
fn get_note(line: &[u8]) -> Option<(u64, u64)> {
    let fields = behind(line, b"get ")?;
    let space = fields.iter().position(|byte| *byte == b' ')?;
    let number = transaction(fields.get(..space)?)?;
    let id = object(behind(fields.get(space..)?, b" ")?)?;
    Some((number, id))
}

/// The number of an object, up to 262,143 and without a leading zero.
pub(crate) fn object(digits: &[u8]) -> Option<u64> {
    if digits == b"0".as_slice() {
        return Some(0);
    }
    let id = positive(digits, 6)?;
    if id <= 262_143 { Some(id) } else { None }
}

// A number from 1 to 4,294,967,295 without a leading zero.
fn transaction(digits: &[u8]) -> Option<u64> {
    let number = positive(digits, 10)?;
    if number <= 4_294_967_295 {
        Some(number)
    } else {
        None
    }
}

/// A number above 0 without a leading zero, in so many digits at most.
pub(crate) fn positive(digits: &[u8], most: usize) -> Option<u64> {
    if digits.is_empty() || digits.len() > most || digits.first() == Some(&b'0') {
        return None;
    }
    let mut number = 0u64;
    for digit in digits {
        if !digit.is_ascii_digit() {
            return None;
        }
        number = number
            .wrapping_mul(10)
            .wrapping_add(u64::from(digit.wrapping_sub(b'0')));
    }
    Some(number)
}

/// What stands behind a word at the front.
pub(crate) fn behind<'a>(bytes: &'a [u8], word: &[u8]) -> Option<&'a [u8]> {
    if bytes.get(..word.len())? == word {
        bytes.get(word.len()..)
    } else {
        None
    }
}
