// Runs against the reference: what each line is answered, and the history of the anchor that they leave.
use std::alloc::{AllocError, Global};
use std::test::Fail;
use tdb_first_path::STORED_NOTE;
use tdb_platform::{MemoryPlatform, Platform};
use tdb_reference::{Change, Commit, NoHistory, Stand, Store, history};
use tdb_run_rows::{DONE, Outcome, REPLIES, SCRIPT, run_over_memory};

const SECRET: [u8; 32] = [0; 32];

const STORE: Store<'static> = Store {
    secret: &SECRET,
    segments: 16,
};

// Where each piece of the note's run stands, and its length: three texts, the table, a list, the note and its list.
const PLACES: [(usize, usize); 7] = [
    (0, 256),
    (256, 256),
    (512, 256),
    (262_144, 576),
    (262_720, 208),
    (262_928, 69),
    (262_997, 136),
];

fn run_script(alloc: Global, script: &[u8]) -> Result<Outcome<MemoryPlatform>, AllocError> {
    run_over_memory(alloc, &["start", "plain", "16"], script, [&[], &[], &[]])
}

// The pieces of an image at their places.
fn cut(alloc: Global, image: &[u8], places: &[(usize, usize)]) -> Result<Vec<Vec<u8>>, Fail> {
    let mut pieces = Vec::new(alloc);
    for (place, length) in places {
        let end = place.checked_add(*length).ok_or("a place behind all")?;
        let piece = image.get(*place..end).ok_or("no piece there")?;
        pieces.push(piece.to_vec(alloc)?)?;
    }
    Ok(pieces)
}

// The commit with which a store begins.
fn opening(alloc: Global) -> Result<Commit, AllocError> {
    let changes = vec![in alloc; Change::Make(1, 0), Change::Make(2, 0)]?;
    Ok(Commit { count: 2, changes })
}

// The two commits of the note's run.
fn commits_of_note(alloc: Global) -> Result<Vec<Commit>, AllocError> {
    let write = Change::Write(1, 1, STORED_NOTE.to_vec(alloc)?);
    let changes = vec![in alloc; write]?;
    Ok(vec![in alloc; opening(alloc)?, Commit { count: 3, changes }]?)
}

#[test]
fn a_note_is_in_the_history_of_its_run(rt: HostRuntime) -> Result<(), Fail> {
    let alloc = rt.alloc();
    let mut end = run_script(alloc, SCRIPT)?;
    assert_eq!(rt; end.status, DONE);
    let (count, mark) = end.platform.anchor()?;
    let pieces = cut(alloc, end.platform.bytes(), &PLACES)?;
    let told = history(alloc, &pieces, &STORE, count, &mark)?;
    assert!(rt; told == commits_of_note(alloc)?);

    let mut text = String::new(alloc);
    for reply in &Stand::new(alloc).session(alloc, SCRIPT)? {
        text.push_str(reply.text.as_str())?;
    }
    assert!(rt; text.as_bytes() == REPLIES);
    assert!(rt; end.sink.bytes() == REPLIES);
    Ok(())
}

// What a session says of a whole script: the bytes that a run puts, and the history of its anchor.
fn expected(alloc: Global, script: &[u8]) -> Result<(String, Vec<Commit>), Fail> {
    let mut text = String::new(alloc);
    let mut commits = vec![in alloc; opening(alloc)?]?;
    let mut count = 2u64;
    for reply in Stand::new(alloc).session(alloc, script)? {
        text.push_str(reply.text.as_str())?;
        if !reply.changes.is_empty() {
            count = count.checked_add(1).ok_or("too many commits")?;
            let changes = reply.changes;
            commits.push(Commit { count, changes })?;
        }
    }
    if !text.as_str().ends_with("bye\n") {
        text.push_str("end\n")?;
    }
    Ok((text, commits))
}

// The places of a run's pieces, one behind another: the table, and of each commit its records and its list.
fn places(alloc: Global, commits: &[Commit]) -> Result<Vec<(usize, usize)>, Fail> {
    let mut places = vec![in alloc; (0, 256), (262_144, 576)]?;
    let (mut text, mut place) = (256usize, 262_720usize);
    for commit in commits {
        places.push((text, 256))?;
        text = text.checked_add(256).ok_or("too many texts")?;
        let mut lengths = Vec::new(alloc);
        for change in &commit.changes {
            if let Change::Write(_, _, chunk) = change {
                lengths.push(chunk.len().checked_add(48).ok_or("too long")?)?;
            }
        }
        let entries = commit.changes.len().checked_mul(72).ok_or("too long")?;
        lengths.push(entries.checked_add(64).ok_or("too long")?)?;
        for length in lengths {
            places.push((place, length))?;
            place = place.checked_add(length).ok_or("too long")?;
        }
    }
    Ok(places)
}

// Whether a run puts what a session says, and leaves the history that it says.
fn agrees(alloc: Global, script: &[u8]) -> Result<bool, Fail> {
    let mut end = run_script(alloc, script)?;
    let (text, commits) = expected(alloc, script)?;
    let (count, mark) = end.platform.anchor()?;
    let places = places(alloc, &commits)?;
    let pieces = cut(alloc, end.platform.bytes(), &places)?;
    let told = history(alloc, &pieces, &STORE, count, &mark)?;
    Ok(end.sink.bytes() == text.as_bytes() && told == commits)
}

#[test]
fn scripts_are_answered_and_remembered_as_the_reference_says(rt: HostRuntime) -> Result<(), Fail> {
    let scripts: [&[u8]; 24] = [
        b"",
        b"quit",
        b"quit\n",
        b"\n\nquit\nbegin 1\n",
        b"begin 1\ncommit 1\nquit\n",
        b"begin 1\nnew 1 note a\nquit\n",
        b"begin 1\nnew 1 note a\ncommit 1",
        b"begin 1\nnew 1 note a\ncommit 1\nquit",
        b"begin 1\nnew 1 note \ncommit 1\nquit\n",
        b"begin 1\nnew 1 note  two  spaces \ncommit 1\nquit\n",
        b"begin 1\nnew 1 note a\nnew 1 note b\ncommit 1\ncommit 1\nquit\n",
        b"begin 1\ncommit 1\nnew 1 note a\ncommit 1\nquit\n",
        b"begin 1\nnew 2 note a\ncommit 2\nnew 1 note b\nbegin 2\ncommit 1\nbegin 3\nquit\n",
        b"new 1 note a\ncommit 1\nbegin 4294967295\nnew 4294967295 note ~\ncommit 4294967295\nquit\n",
        b"begin 0\nbegin 01\nbegin +1\nbegin 4294967296\nbegin 99999999999\nbegin \nbegin  1\nbegin 1 \nquit\n",
        b"Begin 1\nbegin 1\r\nquit \n quit\nbegin 1\nabort 1\nget 1 1\nset 1 1 note b\nquit\n",
        b"begin 1\nnew 1 note \x1f\nnew 1 note \x7f\nnew 1 note \xc3\xa9\nnew 1 note\ncommit 1\nquit\n",
        b"begin 1\nnew 1  note a\nnew 1 note a\x00\nnew 01 note a\nnew 1 note end\ncommit 1\nquit\n",
        b"begin 1\nnew 1 note new 1 note a\ncommit 1\ncheckpoint\nparts\nquit\n",
        b"begin 7\nnew 7 account ann 5\nnew 7 note 7\ncommit 7\nbegin 8\nnew 8 note 8\ncommit 8\nquit\n",
        b"bye\nend\nusage\nquit\nquit\n",
        b"begin 1\nnew 1 note a\ncommit 1\nbegin 2\nnew 2 note b\ncommit 2\ncommit 1\n",
        b"begin 1\nnew 1 note a\ncommit 1\nsnapshot 3\nbegin 2\nnew 2 note b\nsnapshot 4\ncommit 2\nsnapshot 5\n\
          peek 3 1\npeek 3 2\npeek 4 2\npeek 5 2\nparts\ndrop 3\ndrop 3\npeek 3 1\nparts\nsnapshot 3\npeek 3 2\nquit\n",
        b"snapshot 2\nsnapshot 0\nsnapshot 4096\nsnapshot 4095\nsnapshot 4095\nsnapshot 4294967295\nsnapshot 4294967296\n\
          snapshot 03\ndrop 1\ndrop 2\ndrop 3\npeek 1 1\npeek 3 1\npeek 4095 1\npeek 4095 0\npeek 4095 262143\n\
          peek 4095 262144\npeek 4095  1\nparts \nparts 1\nsnapshot 3 \nquit\n",
    ];
    for (row, script) in scripts.iter().enumerate() {
        assert!(rt; agrees(rt.alloc(), script)?, "script {row}");
    }
    Ok(())
}

#[test]
fn long_texts_and_lines_are_answered_as_the_reference_says(rt: HostRuntime) -> Result<(), Fail> {
    let alloc = rt.alloc();
    // The head of a line, how many letters follow it, and whether the script's note is then made.
    let table: [(&[u8], usize, bool); 10] = [
        (b"new 1 note ", 0, false),
        (b"new 1 note ", 1, true),
        (b"new 1 note ", 255, true),
        (b"new 1 note ", 256, true),
        (b"new 1 note ", 1999, true),
        (b"new 1 note ", 2000, true),
        (b"new 1 note ", 2001, false),
        (b"new 1 note ", 4084, false),
        (b"new 1 note ", 4085, false),
        (b"", 200_000, false),
    ];
    for (head, letters, made) in table {
        let mut script = b"begin 1\n".to_vec(alloc)?;
        script.extend_from_slice(head)?;
        for _ in 0..letters {
            script.push(b'x')?;
        }
        script.extend_from_slice(b"\ncommit 1\nbegin 1\nquit\n")?;
        let (_, commits) = expected(alloc, &script)?;
        assert_eq!(rt; commits.len() == 2, made, "{letters} letters");
        assert!(rt; agrees(alloc, &script)?, "{letters} letters");
    }
    Ok(())
}

#[test]
fn one_changed_byte_of_a_piece_leaves_no_history(rt: HostRuntime) -> Result<(), Fail> {
    let alloc = rt.alloc();
    let mut end = run_script(alloc, SCRIPT)?;
    let (count, mark) = end.platform.anchor()?;
    for (number, (place, length)) in PLACES.iter().enumerate() {
        for at in 0..*length {
            let mut pieces = cut(alloc, end.platform.bytes(), &PLACES)?;
            if let Some(byte) = pieces.get_mut(number).and_then(|piece| piece.get_mut(at)) {
                *byte ^= 1;
            }
            let told = history(alloc, &pieces, &STORE, count, &mark);
            assert!(rt;
                told == Err(NoHistory::Untold),
                "byte {at} of the piece at {place}"
            );
        }
    }
    Ok(())
}

#[test]
fn a_history_is_that_of_its_anchor_and_store(rt: HostRuntime) -> Result<(), Fail> {
    let alloc = rt.alloc();
    let mut end = run_script(alloc, SCRIPT)?;
    let (_, third) = end.platform.anchor()?;
    let mut pieces = cut(alloc, end.platform.bytes(), &PLACES)?;
    let second = mark_before(&pieces, 2)?;
    let first = mark_before(&pieces, 1)?;
    // An anchor's count and mark, the first byte of a secret whose other bytes are zero, and a number of segments: how
    // many of the commits they have, or none where they have no history.
    let table: [(u64, [u8; 32], u8, u64, Option<usize>); 13] = [
        (0, [7; 32], 0, 16, Some(0)),
        (1, first, 0, 16, Some(0)),
        (2, second, 0, 16, Some(1)),
        (3, third, 0, 16, Some(2)),
        (1, second, 0, 16, None),
        (2, first, 0, 16, None),
        (2, third, 0, 16, None),
        (3, second, 0, 16, None),
        (4, third, 0, 16, None),
        (3, [0; 32], 0, 16, None),
        (3, third, 1, 16, None),
        (1, first, 0, 17, None),
        (3, third, 0, 32, None),
    ];
    // The order of the pieces doesn't matter.
    for _ in 0..2 {
        for (count, mark, byte, segments, commits) in table {
            let mut secret = SECRET;
            secret[0] = byte;
            let store = Store {
                secret: &secret,
                segments,
            };
            let told = history(alloc, &pieces, &store, count, &mark);
            let mut wanted = commits_of_note(alloc)?;
            wanted.truncate(commits.unwrap_or(0));
            match commits {
                Some(_) => assert!(rt; told == Ok(wanted), "count {count}"),
                None => assert!(rt; told == Err(NoHistory::Untold), "count {count}"),
            }
        }
        pieces.reverse();
    }
    Ok(())
}

// The mark that a text names.
fn mark_before(pieces: &[Vec<u8>], text: usize) -> Result<[u8; 32], Fail> {
    let piece = pieces.get(text).ok_or("no such text")?;
    let mut mark = [0; 32];
    for (byte, of) in mark.iter_mut().zip(piece.iter().skip(24)) {
        *byte = *of;
    }
    Ok(mark)
}
