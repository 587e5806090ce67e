use std::alloc::Global;
use std::fmt::Write;
use std::test::Fail;
use tdb_base::{Bytes, PartId, Rank, Suite};
use tdb_model::{Change, Chunks, MemoryChunks};
use tdb_notes::{Notes, serve_notes};
use tdb_serve::ScriptEnd;
use tdb_stream::{MemorySink, MemorySource};

// A store with the partition of notes.
fn made(alloc: Global) -> Result<MemoryChunks, Fail> {
    let mut store = MemoryChunks::new(alloc, Suite::Plain);
    let changes = [Change::Make {
        part: PartId(1),
        suite: Suite::Plain,
    }];
    store.commit(alloc, &changes)?;
    Ok(store)
}

// What a script over a store puts, and how it ends.
fn served(
    alloc: Global,
    store: MemoryChunks,
    script: &[u8],
) -> Result<(ScriptEnd, MemorySink, MemoryChunks), Fail> {
    let mut source = MemorySource::new(Vec::from_slice(alloc, script)?, Vec::new(alloc));
    let mut sink = MemorySink::new(alloc, Vec::new(alloc));
    let mut notes = Notes::new(store);
    let end = serve_notes(alloc, &mut source, &mut sink, &mut notes);
    Ok((end, sink, notes.store))
}

#[test]
fn a_script_of_notes_is_answered_over_a_store(rt: HostRuntime) -> Result<(), Fail> {
    let alloc = rt.alloc();
    let first: &[u8] = b"begin 1\nnew 1 note hello\nnew 1 note two\nget 1 1\nget 1 3\ncommit 1\n\
        begin 2\nget 2 2\nbegin 2\nbegin 3\nnew 2 note gone\nabort 2\ncommit 2\nnonsense\nquit\n";
    let replies: &[u8] = b"begun 1\nmade 1 1\nmade 1 2\ngot 1 1 note hello\nrefused no object 1 3\n\
        committed 1\nbegun 2\ngot 2 2 note two\nrefused open 2\nrefused unbuilt\nmade 2 3\naborted 2\n\
        refused no transaction 2\nrefused unbuilt\nbye\n";
    let (end, sink, store) = served(alloc, made(alloc)?, first)?;
    assert_eq!(rt; end, ScriptEnd::Bye);
    assert_eq!(rt; sink.bytes(), replies);
    let again: &[u8] = b"begin 1\nget 1 1\nnew 1 note three\nget 1 3\ncommit 1\n";
    let (end, sink, _) = served(alloc, store, again)?;
    let replies: &[u8] =
        b"begun 1\ngot 1 1 note hello\nmade 1 3\ngot 1 3 note three\ncommitted 1\n";
    assert_eq!(rt; end, ScriptEnd::End);
    assert_eq!(rt; sink.bytes(), replies);
    Ok(())
}

#[test]
fn a_commit_that_is_refused_leaves_its_transaction_open(rt: HostRuntime) -> Result<(), Fail> {
    let alloc = rt.alloc();
    let store = MemoryChunks::new(alloc, Suite::Plain);
    let script: &[u8] = b"begin 1\nnew 1 note a\nget 1 0\ncommit 1\nget 1 1\nabort 1\nquit\n";
    let replies: &[u8] = b"begun 1\nmade 1 1\nrefused no object 1 0\nrefused unbuilt\n\
        got 1 1 note a\naborted 1\nbye\n";
    let (end, sink, _) = served(alloc, store, script)?;
    assert_eq!(rt; end, ScriptEnd::Bye);
    assert_eq!(rt; sink.bytes(), replies);
    Ok(())
}

#[test]
fn a_commit_takes_1024_changes(rt: HostRuntime) -> Result<(), Fail> {
    let alloc = rt.alloc();
    for (count, last) in [
        (1024, b"committed 1\n".as_slice()),
        (1025, b"refused changes 1025\n"),
    ] {
        let mut script = b"begin 1\n".to_vec(alloc)?;
        for _ in 0..count {
            script.extend_from_slice(b"new 1 note a\n")?;
        }
        script.extend_from_slice(b"commit 1\n")?;
        let (end, sink, _) = served(alloc, made(alloc)?, &script)?;
        assert_eq!(rt; end, ScriptEnd::End);
        assert!(rt; sink.bytes().ends_with(last), "{count}");
    }
    Ok(())
}

#[test]
fn a_snapshot_keeps_what_was_committed(rt: HostRuntime) -> Result<(), Fail> {
    let alloc = rt.alloc();
    // the transaction that is open sees its own note, and the snapshot doesn't
    let script: &[u8] =
        b"begin 1\nnew 1 note hello\ncommit 1\nbegin 2\nnew 2 note two\nsnapshot 3\n\
        get 2 2\npeek 3 1\npeek 3 2\ncommit 2\npeek 3 2\nsnapshot 4\npeek 4 2\nparts\ndrop 3\npeek 3 1\n\
        peek 4 1\nparts\nsnapshot 3\npeek 3 2\nquit\n";
    let replies: &[u8] = b"begun 1\nmade 1 1\ncommitted 1\nbegun 2\nmade 2 2\nsnapshot 3\n\
        got 2 2 note two\npeeked 3 1 note hello\nrefused no object 3 2\ncommitted 2\nrefused no object 3 2\n\
        snapshot 4\npeeked 4 2 note two\nparts 3 1 3 4\ndropped 3\nrefused partition 3\n\
        peeked 4 1 note hello\nparts 2 1 4\nsnapshot 3\npeeked 3 2 note two\nbye\n";
    let (end, sink, _) = served(alloc, made(alloc)?, script)?;
    assert_eq!(rt; end, ScriptEnd::Bye);
    assert_eq!(rt; sink.bytes(), replies);
    Ok(())
}

#[test]
fn lines_of_partitions_take_the_numbers_of_snapshots_alone(rt: HostRuntime) -> Result<(), Fail> {
    let alloc = rt.alloc();
    for number in ["0", "1", "2", "4096", "4294967295"] {
        let mut script = String::new(alloc);
        for line in ["snapshot", "drop", "peek"] {
            let object = if line == "peek" { " 1" } else { "" };
            writeln!(script, "{line} {number}{object}")?;
        }
        let mut replies = String::new(alloc);
        for _ in 0..3 {
            writeln!(replies, "refused partition {number}")?;
        }
        let (_, sink, _) = served(alloc, made(alloc)?, script.as_bytes())?;
        assert!(rt; sink.bytes() == replies.as_bytes(), "{number}");
    }
    let script: &[u8] =
        b"drop 3\npeek 4095 1\nsnapshot 4095\nsnapshot 4095\ndrop 4095\ndrop 4095\nquit\n";
    let replies: &[u8] = b"refused partition 3\nrefused partition 4095\nsnapshot 4095\n\
        refused partition 4095\ndropped 4095\nrefused partition 4095\nbye\n";
    let (_, sink, _) = served(alloc, made(alloc)?, script)?;
    assert_eq!(rt; sink.bytes(), replies);
    Ok(())
}

#[test]
fn a_chunk_that_is_no_note_is_told_with_its_partition(rt: HostRuntime) -> Result<(), Fail> {
    let alloc = rt.alloc();
    let mut store = made(alloc)?;
    let make = Change::Make {
        part: PartId(7),
        suite: Suite::Plain,
    };
    let write = Change::Write {
        part: PartId(7),
        rank: Rank(5),
        bytes: Bytes::from(b"raw".to_vec(alloc)?),
    };
    store.commit(alloc, &[make, write])?;
    let (_, sink, _) = served(alloc, store, b"peek 7 5\npeek 7 6\ndrop 7\nparts\nquit\n")?;
    let replies: &[u8] = b"refused pickle 7 5\nrefused no object 7 6\ndropped 7\nparts 1 1\nbye\n";
    assert_eq!(rt; sink.bytes(), replies);
    Ok(())
}
