// A script of six commits, stopped at each call of the platform in turn; then whatever a stop may leave; then a run that
// reads everything.
use std::alloc::{AllocError, Global};
use std::test::Fail;
use tdb_platform::{AnchorLeft, Crash, ImageLeft, MemoryPlatform};
use tdb_run::Status;
use tdb_run_rows::{DONE, run_with};

const START: [&str; 3] = ["start", "plain", "16"];

const RUN: [&str; 1] = ["run"];

// How many notes the script commits, each by itself.
const NOTES: u64 = 6;

// The calls of the whole script: five lay the store, five open it, four make its partitions, and five commit each note.
const CALLS: u64 = 44;

// A script that commits each note by itself.
fn notes_script(alloc: Global) -> Result<String, AllocError> {
    let mut script = String::new(alloc);
    for id in 1..=NOTES {
        script.push_str(&format!(in alloc; "begin 1\nnew 1 note number {id}\ncommit 1\n")?)?;
    }
    script.push_str("quit\n")?;
    Ok(script)
}

// A script that gets each note.
fn get_script(alloc: Global) -> Result<String, AllocError> {
    let mut script = String::new(alloc);
    script.push_str("begin 1\n")?;
    for id in 1..=NOTES {
        script.push_str(&format!(in alloc; "get 1 {id}\n")?)?;
    }
    script.push_str("quit\n")?;
    Ok(script)
}

// The replies to that script where this many notes are there.
fn replies(alloc: Global, notes: u64) -> Result<String, AllocError> {
    let mut replies = String::new(alloc);
    replies.push_str("begun 1\n")?;
    for id in 1..=NOTES {
        if id <= notes {
            replies.push_str(&format!(in alloc; "got 1 {id} note number {id}\n")?)?;
        } else {
            replies.push_str(&format!(in alloc; "refused no object 1 {id}\n")?)?;
        }
    }
    replies.push_str("bye\n")?;
    Ok(replies)
}

// How many commits were answered.
fn answered(put: &[u8]) -> u64 {
    let mut count = 0u64;
    for line in put.split(|byte| *byte == b'\n') {
        if line == b"committed 1".as_slice() {
            count = count.saturating_add(1);
        }
    }
    count
}

// The script over a fresh device, stopped at a call: the platform that a stop leaves, and how many commits were answered.
fn stopped_at(alloc: Global, call: u64, crash: Crash) -> Result<(MemoryPlatform, u64), Fail> {
    let (image, fail) = (Vec::new(alloc), Vec::new(alloc));
    let platform = MemoryPlatform::new(alloc, image, 0, [0; 32], fail, Some(call))?;
    let script = notes_script(alloc)?;
    let end = run_with(alloc, &START, script.as_bytes(), platform, [&[], &[]])?;
    let count = answered(end.sink.bytes());
    Ok((end.platform.crash(crash)?, count))
}

// Whether the next run answers as it must behind this stop: with every note that was answered, and at most one more.
fn is_kept(alloc: Global, call: u64, crash: Crash) -> Result<bool, Fail> {
    let (platform, count) = stopped_at(alloc, call, crash)?;
    let script = get_script(alloc)?;
    let end = run_with(alloc, &RUN, script.as_bytes(), platform, [&[], &[]])?;
    if end.status == (Status::AnchorCount { formatted: false }) {
        return Ok(count == 0);
    }
    let put = end.sink.bytes();
    let all = replies(alloc, count)?;
    let one_more = replies(alloc, count.saturating_add(1))?;
    Ok(end.status == DONE && (put == all.as_bytes() || put == one_more.as_bytes()))
}

// The first call after whose stop a run answers otherwise, if any, whichever anchor is left.
fn mistaken(alloc: Global, image: ImageLeft) -> Result<Option<u64>, Fail> {
    for call in 1..=CALLS {
        for anchor in [AnchorLeft::Old, AnchorLeft::New] {
            if !is_kept(alloc, call, Crash { image, anchor })? {
                return Ok(Some(call));
            }
        }
    }
    Ok(None)
}

#[test]
fn what_was_answered_is_there_where_writes_are_taken_back(rt: HostRuntime) -> Result<(), Fail> {
    assert_eq!(rt; mistaken(rt.alloc(), ImageLeft::Old)?, None);
    Ok(())
}

#[test]
fn what_was_answered_is_there_where_writes_stand(rt: HostRuntime) -> Result<(), Fail> {
    assert_eq!(rt; mistaken(rt.alloc(), ImageLeft::New)?, None);
    Ok(())
}

#[test]
fn what_was_answered_is_there_where_writes_are_torn(rt: HostRuntime) -> Result<(), Fail> {
    assert_eq!(rt; mistaken(rt.alloc(), ImageLeft::Torn(255))?, None);
    Ok(())
}

#[test]
fn the_script_makes_that_many_calls(rt: HostRuntime) -> Result<(), Fail> {
    let alloc = rt.alloc();
    let crash = Crash {
        image: ImageLeft::Old,
        anchor: AnchorLeft::Old,
    };
    let (_, last) = stopped_at(alloc, CALLS, crash)?;
    assert_eq!(rt; last, NOTES - 1);
    let (_, none) = stopped_at(alloc, CALLS + 1, crash)?;
    assert_eq!(rt; none, NOTES);
    Ok(())
}
