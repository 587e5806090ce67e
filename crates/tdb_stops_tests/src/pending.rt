// A commit that was begun behind the log: taken where it is shown whole, and else passed over.
use sha2::{Digest as _, Sha256};
use std::alloc::Global;
use std::test::Fail;
use tdb_base::Digest;
use tdb_platform::{AnchorLeft, Crash, DEVICE_LIMIT, ImageLeft, MemoryPlatform, Platform};
use tdb_run::Status;
use tdb_run_rows::{DONE, SCRIPT, run_over_memory, run_with};

const START: [&str; 3] = ["start", "plain", "16"];

const RUN: [&str; 1] = ["run"];

// A second note.
const TWO: &[u8] = b"begin 1\nnew 1 note two\ncommit 1\nquit\n";

// A run that asks for the second note, and its replies where it is there and where it isn't.
const GET_TWO: &[u8] = b"begin 1\nget 1 2\nquit\n";

const GOT_TWO: &[u8] = b"begun 1\ngot 1 2 note two\nbye\n";

const NO_TWO: &[u8] = b"begun 1\nrefused no object 1 2\nbye\n";

// The run of the second note makes these calls: the anchor, a sync, three texts, the table, two lists and the next slot; then
// the record, the list and the text are written, and a sync and the advance come last.
const ITS_SYNC: u64 = 13;

const ITS_ADVANCE: u64 = 14;

// The store of one note, then a run of the second note that is stopped at this call, and what the stop leaves.
fn stopped_at(alloc: Global, call: u64, image: ImageLeft) -> Result<MemoryPlatform, Fail> {
    let mut store = run_over_memory(alloc, &START, SCRIPT, [&[], &[], &[]])?;
    let (count, mark) = store.platform.anchor()?;
    let bytes = store.platform.bytes().to_vec(alloc)?;
    let platform = MemoryPlatform::new(alloc, bytes, count, mark, Vec::new(alloc), Some(call))?;
    let end = run_with(alloc, &RUN, TWO, platform, [&[], &[]])?;
    let stopped = Some(end.status).filter(|status| *status == Status::PlatformFault);
    stopped.ok_or("the run wasn't stopped")?;
    Ok(
        end.platform.crash(Crash {
            image,
            anchor: AnchorLeft::Old,
        })?,
    )
}

// What a run that asks for the second note puts, and the anchor's count behind it.
fn answer(alloc: Global, platform: MemoryPlatform) -> Result<(Vec<u8>, u64), Fail> {
    let mut end = run_with(alloc, &RUN, GET_TWO, platform, [&[], &[]])?;
    let (count, _) = end.platform.anchor()?;
    Ok((end.sink.bytes().to_vec(alloc)?, count))
}

// The device's holder replaces bytes.
fn replace(platform: &mut MemoryPlatform, at: usize, bytes: &[u8]) -> Result<(), Fail> {
    let end = at.checked_add(bytes.len()).ok_or("a place behind all")?;
    if end as u64 > DEVICE_LIMIT {
        None.ok_or("a place behind the device")?
    } else {
        platform.replace(at as u64, bytes)?;
        Ok(())
    }
}

// The lower-case hexadecimal digits of a digest.
fn hex(alloc: Global, digest: &Digest) -> Result<String, Fail> {
    let mut digits = String::new(alloc);
    for byte in &digest.0 {
        digits.push_str(&format!(in alloc; "{byte:02x}")?)?;
    }
    Ok(digits)
}

#[test]
fn a_commit_stopped_at_its_advance_is_taken(rt: HostRuntime) -> Result<(), Fail> {
    let alloc = rt.alloc();
    let platform = stopped_at(alloc, ITS_ADVANCE, ImageLeft::New)?;
    let (put, count) = answer(alloc, platform)?;
    assert!(rt; put.as_slice() == GOT_TWO);
    assert_eq!(rt; count, 4);
    Ok(())
}

#[test]
fn a_torn_commit_is_passed_over(rt: HostRuntime) -> Result<(), Fail> {
    let alloc = rt.alloc();
    let platform = stopped_at(alloc, ITS_SYNC, ImageLeft::Torn(255))?;
    let (put, count) = answer(alloc, platform)?;
    assert!(rt; put.as_slice() == NO_TWO);
    assert_eq!(rt; count, 3);
    Ok(())
}

#[test]
fn a_commit_is_passed_over_whose_bytes_were_replaced(rt: HostRuntime) -> Result<(), Fail> {
    let alloc = rt.alloc();
    // its text, its record and its list
    for place in [768, 1023, 263_133, 263_190, 263_200, 263_335] {
        let mut platform = stopped_at(alloc, ITS_ADVANCE, ImageLeft::New)?;
        let byte = platform.bytes().get(place).copied();
        let byte = byte.ok_or("no byte there")?;
        replace(&mut platform, place, &[byte ^ 1])?;
        let (put, count) = answer(alloc, platform)?;
        assert!(rt; put.as_slice() == NO_TWO, "at {place}");
        assert_eq!(rt; count, 3, "at {place}");
    }
    Ok(())
}

#[test]
fn a_commit_begun_on_another_mark_is_never_taken(rt: HostRuntime) -> Result<(), Fail> {
    let alloc = rt.alloc();
    let mut platform = stopped_at(alloc, ITS_ADVANCE, ImageLeft::New)?;
    // The commit is hidden, and another is made in its place.
    let hidden = platform.bytes().to_vec(alloc)?;
    replace(&mut platform, 768, &[0; 256])?;
    let script = b"begin 1\nnew 1 note three\ncommit 1\nquit\n".as_slice();
    let mut end = run_with(alloc, &RUN, script, platform, [&[], &[]])?;
    assert!(rt; end.sink.bytes() == b"begun 1\nmade 1 2\ncommitted 1\nbye\n".as_slice());
    let (count, mark) = end.platform.anchor()?;
    assert_eq!(rt; count, 4);
    // Then it is put back.
    let mut platform = end.platform;
    replace(&mut platform, 0, &hidden)?;
    let end = run_with(alloc, &RUN, GET_TWO, platform, [&[], &[]])?;
    assert_eq!(rt; end.status.code(), 4);
    let slot = hidden.get(768..1024).ok_or("no text there")?;
    let (expected, found) = (
        hex(alloc, &Digest(mark))?,
        hex(alloc, &Digest(Sha256::digest(slot)))?,
    );
    let line = format!(in alloc; "tampered 768 {expected} {found}\n")?;
    assert!(rt; end.sink.bytes() == line.as_bytes());
    Ok(())
}
