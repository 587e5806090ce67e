// What a session answers to lines about copies of its notes, each of which is a partition of its own.
use crate::Change;
use crate::session::{Note, Reply, behind, object, plain, positive, push_note};
use std::alloc::{AllocError, Global};

// A copy: the number of its partition, and the notes as they were.
#[derive(Drop)]
struct Copy {
    number: u64,
    notes: Vec<Note>,
}

/// The copies that are there.
#[derive(Drop)]
pub(crate) struct Copies {
    all: Vec<Copy>,
}

impl Copies {
    pub(crate) fn new(alloc: Global) -> Copies {
        Copies {
            all: Vec::new(alloc),
        }
    }

    /// The answer to a line about copies, where the committed notes are these. There is none to other lines.
    pub(crate) fn answer(
        &mut self,
        alloc: Global,
        line: &[u8],
        notes: &[Note],
    ) -> Result<Option<Reply>, AllocError> {
        if line == b"parts".as_slice() {
            return Ok(Some(self.parts(alloc)?));
        }
        if let Some(number) = behind(line, b"snapshot ").and_then(|digits| part(digits)) {
            return Ok(Some(self.snapshot(alloc, number, notes)?));
        }
        if let Some(number) = behind(line, b"drop ").and_then(|digits| part(digits)) {
            return Ok(Some(self.drop_one(alloc, number)?));
        }
        match peeked(line) {
            Some((number, id)) => Ok(Some(self.peek(alloc, number, id)?)),
            None => Ok(None),
        }
    }

    fn parts(&self, alloc: Global) -> Result<Reply, AllocError> {
        let mut numbers = vec![in alloc; 1, 2]?;
        for copy in &self.all {
            numbers.push(copy.number)?;
        }
        numbers.sort()?;
        let mut text = format!(in alloc; "parts {}", numbers.len())?;
        for number in &numbers {
            text.push_str(format!(in alloc; " {number}")?.as_str())?;
        }
        text.push('\n')?;
        plain(alloc, text)
    }

    fn snapshot(
        &mut self,
        alloc: Global,
        number: u64,
        notes: &[Note],
    ) -> Result<Reply, AllocError> {
        let is_there = self.all.iter().any(|copy| copy.number == number);
        if number < 3 || 4095 < number || is_there {
            return refused(alloc, number);
        }
        let mut copied = Vec::new(alloc);
        for note in notes {
            copied.push(Note {
                id: note.id,
                text: note.text.clone()?,
            })?;
        }
        self.all.push(Copy {
            number,
            notes: copied,
        })?;
        let text = format!(in alloc; "snapshot {number}\n")?;
        let changes = vec![in alloc; Change::Copied(1, number)]?;
        Ok(Reply { text, changes })
    }

    fn drop_one(&mut self, alloc: Global, number: u64) -> Result<Reply, AllocError> {
        let Some(at) = self.all.iter().position(|copy| copy.number == number) else {
            return refused(alloc, number);
        };
        self.all.remove(at);
        let text = format!(in alloc; "dropped {number}\n")?;
        let changes = vec![in alloc; Change::Gone(number)]?;
        Ok(Reply { text, changes })
    }

    fn peek(&self, alloc: Global, number: u64, id: u64) -> Result<Reply, AllocError> {
        let Some(copy) = self.all.iter().find(|copy| copy.number == number) else {
            return refused(alloc, number);
        };
        for note in &copy.notes {
            if note.id == id {
                let mut text = format!(in alloc; "peeked {number} {id} note ")?;
                push_note(&mut text, note)?;
                return plain(alloc, text);
            }
        }
        plain(
            alloc,
            format!(in alloc; "refused no object {number} {id}\n")?,
        )
    }
}

fn refused(alloc: Global, number: u64) -> Result<Reply, AllocError> {
    plain(alloc, format!(in alloc; "refused partition {number}\n")?)
}

// A number up to 4,294,967,295 without a leading zero.
fn part(digits: &[u8]) -> Option<u64> {
    if digits == b"0".as_slice() {
        return Some(0);
    }
    let number = positive(digits, 10)?;
    if number <= 4_294_967_295 {
        Some(number)
    } else {
        None
    }
}

// The partition and the id of a line `peek P ID`.
fn peeked(line: &[u8]) -> Option<(u64, u64)> {
    let fields = behind(line, b"peek ")?;
    let space = fields.iter().position(|byte| *byte == b' ')?;
    let number = part(fields.get(..space)?)?;
    let id = object(behind(fields.get(space..)?, b" ")?)?;
    Some((number, id))
}
