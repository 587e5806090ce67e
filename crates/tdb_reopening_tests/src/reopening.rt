// Runs over a store that is there: what they find, whatever its device shows.
use sha2::{Digest as _, Sha256};
use std::alloc::Global;
use std::test::Fail;
use tdb_base::{Damage, Digest, Place, Suite};
use tdb_platform::{Answer, DEVICE_LIMIT, HostilePlatform, MemoryPlatform, Platform};
use tdb_run::{Finding, Status, Success};
use tdb_run_rows::{DONE, Outcome, SCRIPT, run_on, run_over_memory, run_with};

const START: [&str; 3] = ["start", "plain", "16"];

const RUN: [&str; 1] = ["run"];

// How many commits of one note the store has that is damaged.
const NOTES: u64 = 20;

// A piece of the store: what it is, its place, and its length.
#[derive(Clone, Copy)]
enum Kind {
    // A text, the table or a list: it is read when the store is opened.
    Opening,
    // The record of the note with this id.
    Record(u64),
}

#[derive(Clone, Copy)]
struct Kept {
    kind: Kind,
    place: usize,
    length: usize,
}

// The text of a note.
fn text_of(alloc: Global, id: u64) -> Result<String, Fail> {
    Ok(format!(in alloc; "note number {id}")?)
}

// A script that commits each note by itself.
fn notes_script(alloc: Global) -> Result<String, Fail> {
    let mut script = String::new(alloc);
    for id in 1..=NOTES {
        let text = text_of(alloc, id)?;
        script.push_str(format!(in alloc;
            "begin {id}\nnew {id} note {text}\ncommit {id}\n"
        )?.as_str())?;
    }
    script.push_str("quit\n")?;
    Ok(script)
}

// A script that gets each note.
fn get_script(alloc: Global) -> Result<String, Fail> {
    let mut script = String::new(alloc);
    script.push_str("begin 1\n")?;
    for id in 1..=NOTES {
        script.push_str(format!(in alloc; "get 1 {id}\n")?.as_str())?;
    }
    script.push_str("quit\n")?;
    Ok(script)
}

// The replies to that script, where the record of one note is damaged, if any.
fn get_replies(alloc: Global, damaged: Option<u64>) -> Result<String, Fail> {
    let mut replies = String::new(alloc);
    replies.push_str("begun 1\n")?;
    for id in 1..=NOTES {
        let text = text_of(alloc, id)?;
        let reply = if damaged == Some(id) {
            format!(in alloc; "tampered 1 {id}\n")?
        } else {
            format!(in alloc; "got 1 {id} note {text}\n")?
        };
        replies.push_str(reply.as_str())?;
    }
    replies.push_str("bye\n")?;
    Ok(replies)
}

// The pieces of the store by the formats: texts in their slots, and the records one behind another from the first
// segment's start.
fn pieces(alloc: Global) -> Result<Vec<Kept>, Fail> {
    let mut pieces = Vec::new(alloc);
    for text in 0..22usize {
        let place = text.checked_mul(256).ok_or("a place behind all")?;
        pieces.push(opening(place, 256))?;
    }
    pieces.push(opening(262_144, 576))?;
    pieces.push(opening(262_720, 208))?;
    let mut place = 262_928usize;
    for id in 1..=NOTES {
        let text = text_of(alloc, id)?;
        let length = text.len().checked_add(64).ok_or("too long")?;
        let kind = Kind::Record(id);
        pieces.push(Kept {
            kind,
            place,
            length,
        })?;
        place = place.checked_add(length).ok_or("a place behind all")?;
        pieces.push(opening(place, 136))?;
        place = place.checked_add(136).ok_or("a place behind all")?;
    }
    Ok(pieces)
}

fn opening(place: usize, length: usize) -> Kept {
    let kind = Kind::Opening;
    Kept {
        kind,
        place,
        length,
    }
}

fn digest_of(image: &[u8], piece: &Kept) -> Result<Digest, Fail> {
    let end = piece
        .place
        .checked_add(piece.length)
        .ok_or("a place behind all")?;
    let bytes = image.get(piece.place..end).ok_or("no piece there")?;
    Ok(Digest(Sha256::digest(bytes)))
}

// The lower-case hexadecimal digits of a digest.
fn hex(alloc: Global, digest: &Digest) -> Result<String, Fail> {
    let mut digits = String::new(alloc);
    for byte in digest.0 {
        digits.push_str(format!(in alloc; "{byte:02x}")?.as_str())?;
    }
    Ok(digits)
}

// The store with its twenty notes.
fn store_of_notes(alloc: Global) -> Result<Outcome<MemoryPlatform>, Fail> {
    let script = notes_script(alloc)?;
    Ok(run_over_memory(alloc, &START, script.as_bytes(), [&[], &[], &[]])?)
}

// What a run answers where a byte of a piece was changed: its status, and what it puts.
fn answer_to_damage(
    alloc: Global,
    piece: &Kept,
    expected: Digest,
    found: Digest,
) -> Result<(Status, String), Fail> {
    if let Kind::Record(id) = piece.kind {
        return Ok((DONE, get_replies(alloc, Some(id))?));
    }
    let place = Place(piece.place as u64);
    let (wanted, shown) = (hex(alloc, &expected)?, hex(alloc, &found)?);
    let line = format!(in alloc; "tampered {} {wanted} {shown}\n", place.0)?;
    let damage = Damage {
        place,
        expected,
        found,
    };
    Ok((Status::Damaged(Finding::Tampered(damage)), line))
}

// The device's holder replaces bytes.
fn replace(platform: &mut MemoryPlatform, at: usize, bytes: &[u8]) -> Result<(), Fail> {
    let end = at.checked_add(bytes.len()).ok_or("a place behind all")?;
    if end as u64 > DEVICE_LIMIT {
        None.ok_or("a place behind the device")?
    } else {
        platform.replace(at as u64, bytes)?;
        Ok(())
    }
}

// Changes each byte of a piece in turn, and back. It gives the place of the first one that a run answers otherwise.
fn mistaken(
    alloc: Global,
    image: &[u8],
    anchor: (u64, [u8; 32]),
    piece: &Kept,
) -> Result<Option<usize>, Fail> {
    let script = get_script(alloc)?;
    let mut changed = image.to_vec(alloc)?;
    let expected = digest_of(&changed, piece)?;
    let (bytes, fail) = (image.to_vec(alloc)?, Vec::new(alloc));
    let mut platform = MemoryPlatform::new(alloc, bytes, anchor.0, anchor.1, fail, None)?;
    for at in piece.place..piece.place.wrapping_add(piece.length) {
        let byte = *image.get(at).ok_or("no such byte")?;
        change(&mut changed, at);
        let (status, answer) = answer_to_damage(
            alloc,
            piece,
            expected,
            digest_of(&changed, piece)?,
        )?;
        change(&mut changed, at);
        replace(&mut platform, at, &[byte ^ 1])?;
        let end = run_with(alloc, &RUN, script.as_bytes(), platform, [&[], &[]])?;
        if end.status != status || end.sink.bytes() != answer.as_bytes() {
            return Ok(Some(at));
        }
        platform = end.platform;
        replace(&mut platform, at, &[byte])?;
    }
    Ok(None)
}

// The same of those of the store's pieces that have these numbers.
fn mistaken_among(alloc: Global, first: usize, last: usize) -> Result<Option<usize>, Fail> {
    let mut store = store_of_notes(alloc)?;
    let anchor = store.platform.anchor()?;
    let pieces = pieces(alloc)?;
    for piece in pieces.get(first..last).ok_or("no such pieces")? {
        let found = mistaken(alloc, store.platform.bytes(), anchor, piece)?;
        if found.is_some() {
            return Ok(found);
        }
    }
    Ok(None)
}

#[test]
fn each_changed_byte_of_a_text_is_found(rt: HostRuntime) -> Result<(), Fail> {
    assert_eq!(rt; mistaken_among(rt.alloc(), 0, 22)?, None);
    Ok(())
}

#[test]
fn each_changed_byte_of_the_table_and_of_the_first_lists_is_found(
    rt: HostRuntime,
) -> Result<(), Fail> {
    assert_eq!(rt; mistaken_among(rt.alloc(), 22, 36)?, None);
    Ok(())
}

#[test]
fn each_changed_byte_of_a_record_and_of_the_later_lists_is_found(
    rt: HostRuntime,
) -> Result<(), Fail> {
    let alloc = rt.alloc();
    assert_eq!(rt; pieces(alloc)?.len(), 64);
    assert_eq!(rt; mistaken_among(alloc, 36, 64)?, None);
    Ok(())
}

// Changes one bit of a byte, and back.
fn change(image: &mut [u8], at: usize) {
    if let Some(byte) = image.get_mut(at) {
        *byte ^= 1;
    }
}

#[test]
fn a_store_is_found_as_it_was_left(rt: HostRuntime) -> Result<(), Fail> {
    let alloc = rt.alloc();
    let store = store_of_notes(alloc)?;
    let script = get_script(alloc)?;
    let end = run_with(alloc, &RUN, script.as_bytes(), store.platform, [&[], &[]])?;
    assert_eq!(rt; end.status, DONE);
    assert!(rt; end.sink.bytes() == get_replies(alloc, None)?.as_bytes());

    // An id isn't given again.
    let script = b"begin 1\nnew 1 note more\ncommit 1\nquit\n".as_slice();
    let end = run_with(alloc, &RUN, script, end.platform, [&[], &[]])?;
    assert!(rt; end.sink.bytes() == b"begun 1\nmade 1 21\ncommitted 1\nbye\n".as_slice());
    let script = b"begin 1\nnew 1 note gone\nquit\n".as_slice();
    let end = run_with(alloc, &RUN, script, end.platform, [&[], &[]])?;
    assert!(rt; end.sink.bytes() == b"begun 1\nmade 1 22\nbye\n".as_slice());
    let script = b"begin 1\nget 1 21\nget 1 22\nget 1 0\nquit\n".as_slice();
    let mut end = run_with(alloc, &RUN, script, end.platform, [&[], &[]])?;
    assert!(rt;
        end.sink.bytes()
            == b"begun 1\ngot 1 21 note more\nrefused no object 1 22\nrefused no object 1 0\nbye\n".as_slice()
    );
    assert_eq!(rt; end.platform.anchor()?.0, 23);
    Ok(())
}

#[test]
fn a_note_is_found_by_the_next_run(rt: HostRuntime) -> Result<(), Fail> {
    let alloc = rt.alloc();
    let store = run_over_memory(alloc, &START, SCRIPT, [&[], &[], &[]])?;
    let script = b"begin 1\nget 1 1\nquit\n".as_slice();
    let end = run_with(alloc, &RUN, script, store.platform, [&[], &[]])?;
    assert_eq!(rt; end.status, DONE);
    assert!(rt; end.sink.bytes() == b"begun 1\ngot 1 1 note hello\nbye\n".as_slice());
    Ok(())
}

#[test]
fn a_formatted_store_is_opened(rt: HostRuntime) -> Result<(), Fail> {
    let alloc = rt.alloc();
    let end = run_over_memory(alloc, &["format", "plain", "16"], b"", [&[], &[], &[]])?;
    let formatted = Success::Formatted {
        suite: Suite::Plain,
        segments: 16,
    };
    assert_eq!(rt; end.status, Status::Done(formatted));
    assert!(rt; end.sink.bytes() == b"formatted plain 16\n".as_slice());
    let mut end = run_with(alloc, &RUN, b"", end.platform, [&[], &[]])?;
    assert_eq!(rt; end.status, Status::End);
    assert!(rt; end.sink.bytes() == b"end\n".as_slice());
    assert_eq!(rt; end.platform.anchor()?.0, 2);
    let end = run_with(alloc, &RUN, SCRIPT, end.platform, [&[], &[]])?;
    assert_eq!(rt; end.status, DONE);
    let end = run_with(
        alloc,
        &RUN,
        b"begin 1\nget 1 1\nquit\n",
        end.platform,
        [&[], &[]],
    )?;
    assert!(rt; end.sink.bytes() == b"begun 1\ngot 1 1 note hello\nbye\n".as_slice());
    Ok(())
}

#[test]
fn an_old_device_is_found(rt: HostRuntime) -> Result<(), Fail> {
    let alloc = rt.alloc();
    let store = run_over_memory(alloc, &START, SCRIPT, [&[], &[], &[]])?;
    let old = store.platform.bytes().to_vec(alloc)?;
    let script =
        b"begin 1\nnew 1 note a\ncommit 1\nbegin 1\nnew 1 note b\ncommit 1\nbegin 1\nnew 1 note c\ncommit 1\nquit\n".as_slice();
    let mut end = run_with(alloc, &RUN, script, store.platform, [&[], &[]])?;
    assert_eq!(rt; end.status, DONE);
    let (count, mark) = end.platform.anchor()?;
    assert_eq!(rt; count, 6);
    // The slot of the sixth text had no bytes then.
    let mut platform = end.platform;
    replace(&mut platform, 0, &old)?;
    let found = Sha256::digest([0; 256]);
    let end = run_with(alloc, &RUN, b"quit\n", platform, [&[], &[]])?;
    assert_eq!(rt; end.status.code(), 4);
    let (expected, found) = (hex(alloc, &Digest(mark))?, hex(alloc, &Digest(found))?);
    let line = format!(in alloc; "tampered 1280 {expected} {found}\n")?;
    assert!(rt; end.sink.bytes() == line.as_bytes());
    Ok(())
}

#[test]
fn a_device_that_ends_early_is_damaged(rt: HostRuntime) -> Result<(), Fail> {
    let alloc = rt.alloc();
    let end = run_on(alloc, &RUN, b"quit\n", &[], (1, [7; 32]))?;
    let damage = Damage {
        place: Place(0),
        expected: Digest([7; 32]),
        found: Digest(Sha256::digest(b"")),
    };
    assert_eq!(rt; end.status, Status::Damaged(Finding::Tampered(damage)));
    Ok(())
}

// Runs over the store of one note, one of whose reads shows these bytes of the device with a bit changed. It gives the
// status and what is put.
fn run_deceived(
    alloc: Global,
    script: &[u8],
    nth: u64,
    shown: &Kept,
) -> Result<(Status, Vec<u8>), Fail> {
    let store = run_over_memory(alloc, &START, SCRIPT, [&[], &[], &[]])?;
    let end = shown
        .place
        .checked_add(shown.length)
        .ok_or("a place behind all")?;
    let kept = store.platform.bytes().get(shown.place..end);
    let mut bytes = kept.ok_or("no piece there")?.to_vec(alloc)?;
    change(&mut bytes, 0);
    let mut answers = Vec::new(alloc);
    answers.push(Answer { nth, bytes })?;
    let platform = HostilePlatform::new(store.platform, answers);
    let ended = run_with(alloc, &RUN, script, platform, [&[], &[]])?;
    Ok((ended.status, ended.sink.bytes().to_vec(alloc)?))
}

#[test]
fn what_a_read_shows_counts_for_that_read(rt: HostRuntime) -> Result<(), Fail> {
    let alloc = rt.alloc();
    let script = b"begin 1\nget 1 1\nget 1 1\nget 1 1\nquit\n".as_slice();
    // Seven reads open the store: three texts, the table, two lists and the next slot.
    let note = Kept {
        kind: Kind::Record(1),
        place: 262_928,
        length: 69,
    };
    let (status, put) = run_deceived(alloc, script, 9, &note)?;
    assert_eq!(rt; status, DONE);
    assert!(rt;
        put.as_slice()
            == b"begun 1\ngot 1 1 note hello\ntampered 1 1\ngot 1 1 note hello\nbye\n".as_slice()
    );
    // What is shown in opening is told with its place.
    for (nth, piece, place) in [
        (1, opening(512, 256), 512),
        (3, opening(0, 256), 0),
        (4, opening(262_144, 576), 262_144),
        (6, opening(262_997, 136), 262_997),
    ] {
        let (status, _) = run_deceived(alloc, script, nth, &piece)?;
        let Status::Damaged(Finding::Tampered(damage)) = status else {
            assert!(rt; false, "read {nth}");
            continue;
        };
        assert_eq!(rt; damage.place, Place(place), "read {nth}");
    }
    Ok(())
}

// Where the next piece of each length goes while four segments stay free, by the rule of placing. It gives the bytes left
// at the tail, where one isn't placed.
fn placed(lengths: &[u64], segment: &mut u64, left: &mut u64) -> Option<(u64, u64)> {
    for length in lengths {
        if *length > *left {
            if *segment >= 11 {
                return Some((*length, *left));
            }
            *segment = segment.wrapping_add(1);
            *left = 262_144;
        }
        *left = left.wrapping_sub(*length);
    }
    None
}

#[test]
fn a_full_store_is_refused_with_its_numbers(rt: HostRuntime) -> Result<(), Fail> {
    let alloc = rt.alloc();
    let mut script = String::new(alloc);
    let mut replies = String::new(alloc);
    let (mut segment, mut left) = (0u64, 262_144u64 - 784);
    let mut id = 0u64;
    let mut text = String::new(alloc);
    for _ in 0..2000 {
        text.push('x')?;
    }
    let mut lengths = vec![in alloc; 2064; 100]?;
    lengths.push(64 + 7200)?;
    for number in 1..=16u64 {
        script.push_str(format!(in alloc; "begin {number}\n")?.as_str())?;
        replies.push_str(format!(in alloc; "begun {number}\n")?.as_str())?;
        for _ in 0..100 {
            id = id.wrapping_add(1);
            script.push_str(format!(in alloc; "new {number} note {text}\n")?.as_str())?;
            replies.push_str(format!(in alloc; "made {number} {id}\n")?.as_str())?;
        }
        script.push_str(format!(in alloc; "commit {number}\nabort {number}\n")?.as_str())?;
        let (before, room) = (segment, left);
        match placed(&lengths, &mut segment, &mut left) {
            None => replies.push_str(format!(in alloc;
                "committed {number}\nrefused no transaction {number}\n"
            )?.as_str())?,
            Some((need, free)) => {
                segment = before;
                left = room;
                replies.push_str(format!(in alloc;
                    "refused full {need} {free}\naborted {number}\n"
                )?.as_str())?;
            }
        }
    }
    script.push_str("quit\n")?;
    replies.push_str("bye\n")?;
    let end = run_over_memory(alloc, &START, script.as_bytes(), [&[], &[], &[]])?;
    assert_eq!(rt; end.status, DONE);
    assert!(rt; end.sink.bytes() == replies.as_bytes());
    Ok(())
}

#[test]
fn changes_and_commits_are_counted(rt: HostRuntime) -> Result<(), Fail> {
    let alloc = rt.alloc();
    let mut script = String::new(alloc);
    let mut replies = String::new(alloc);
    script.push_str("begin 1\n")?;
    replies.push_str("begun 1\n")?;
    for id in 1..=1025u64 {
        script.push_str("new 1 note x\n")?;
        replies.push_str(format!(in alloc; "made 1 {id}\n")?.as_str())?;
    }
    script.push_str("commit 1\nabort 1\n")?;
    replies.push_str("refused changes 1025\naborted 1\n")?;
    // With the opening commit 1,000 commits may stand behind the first text.
    for id in 1026..=2025u64 {
        script.push_str("begin 1\nnew 1 note x\ncommit 1\n")?;
        replies.push_str(format!(in alloc; "begun 1\nmade 1 {id}\n")?.as_str())?;
        replies.push_str(if id < 2025 {
            "committed 1\n"
        } else {
            "refused ring\n"
        })?;
    }
    script.push_str("abort 1\nbegin 1\nget 1 1025\nget 1 1026\nget 1 2024\nquit\n")?;
    replies.push_str(
        "aborted 1\nbegun 1\nrefused no object 1 1025\ngot 1 1026 note x\ngot 1 2024 note x\nbye\n",
    )?;
    let mut end = run_over_memory(alloc, &START, script.as_bytes(), [&[], &[], &[]])?;
    assert_eq!(rt; end.status, DONE);
    assert!(rt; end.sink.bytes() == replies.as_bytes());
    assert_eq!(rt; end.platform.anchor()?.0, 1001);
    let end = run_with(
        alloc,
        &RUN,
        b"begin 9\nget 9 2024\nnew 9 note y\ncommit 9\nquit\n",
        end.platform,
        [&[], &[]],
    )?;
    assert!(rt;
        end.sink.bytes()
            == b"begun 9\ngot 9 2024 note x\nmade 9 2025\nrefused ring\nbye\n".as_slice()
    );
    Ok(())
}
