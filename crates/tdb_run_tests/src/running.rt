// Whole runs in memory, against the bytes that an independent model of the formats gives for them.
use std::test::Fail;
use tdb_base::Suite;
use tdb_first_path::{
    FIRST_TEXT, NOTE, NOTE_LIST, OPENING_LIST, SECOND_TEXT, TABLE, THIRD_MARK, THIRD_TEXT,
};
use tdb_platform::Platform;
use tdb_run::{Status, Success};
use tdb_run_rows::{DONE, REPLIES, SCRIPT, run_on, run_over_memory};

#[test]
fn a_note_is_committed_on_a_fresh_device(rt: HostRuntime) -> Result<(), Fail> {
    let words = ["start", "plain", "16"];
    let mut end = run_over_memory(rt.alloc(), &words, SCRIPT, [&[], &[], &[]])?;
    assert_eq!(rt; end.status, DONE);
    assert_eq!(rt; end.status.code(), 0);
    assert!(rt; end.sink.bytes() == REPLIES);
    let (count, mark) = end.platform.anchor()?;
    assert_eq!(rt; count, 3);
    assert!(rt; mark == THIRD_MARK);

    let pieces = [
        (0, FIRST_TEXT.as_slice()),
        (256, &SECOND_TEXT),
        (512, &THIRD_TEXT),
        (262144, &TABLE),
        (262720, &OPENING_LIST),
        (262928, &NOTE),
        (262997, &NOTE_LIST),
    ];
    let image = end.platform.bytes();
    assert_eq!(rt; image.len(), 263_133);
    let mut nonzero = 0usize;
    for (place, bytes) in pieces {
        assert!(rt;
            image.get(place..place + bytes.len()) == Some(bytes),
            "at {place}"
        );
        nonzero = nonzero.saturating_add(bytes.iter().filter(|byte| **byte != 0).count());
    }
    assert_eq!(rt; image.iter().filter(|byte| **byte != 0).count(), nonzero);
    Ok(())
}

#[test]
fn each_failing_call_ends_a_run_by_its_status(rt: HostRuntime) -> Result<(), Fail> {
    let alloc = rt.alloc();
    let words = ["start", "plain", "16"];
    for number in 1..22u64 {
        let fail = [number];
        // A run makes so many calls of the platform, the source and the sink, and none after them.
        for (failing, calls, status) in [
            ([fail.as_slice(), &[], &[]], 19, Status::PlatformFault),
            ([&[], fail.as_slice(), &[]], 1, Status::SourceFault),
            ([&[], &[], fail.as_slice()], 4, Status::SinkFault),
        ] {
            let end = run_over_memory(alloc, &words, SCRIPT, failing)?;
            if number > calls {
                assert_eq!(rt; end.status, DONE, "call {number}");
                assert!(rt; end.sink.bytes() == REPLIES, "call {number}");
                continue;
            }
            assert_eq!(rt; end.status, status, "call {number}");
            let held = end.sink.bytes();
            let replies = held.strip_suffix(b"platform fault\n".as_slice());
            let replies = replies.or(held.strip_suffix(b"source fault\n".as_slice()));
            assert!(rt;
                REPLIES.starts_with(replies.unwrap_or(held)),
                "call {number}"
            );
        }
    }
    Ok(())
}

#[test]
fn a_store_has_as_many_segments_as_the_words_say(rt: HostRuntime) -> Result<(), Fail> {
    let words = ["start", "plain", "4096"];
    let end = run_over_memory(rt.alloc(), &words, b"quit\n", [&[], &[], &[]])?;
    let image = end.platform.bytes();
    // In both texts, and in the segment table.
    for place in [64, 256 + 64, 262_144 + 48 + 8] {
        assert!(rt;
            image.get(place..place + 4) == Some(b"\0\0\x10\0".as_slice()),
            "at {place}"
        );
    }
    Ok(())
}

#[test]
fn words_and_scripts_end_by_their_status_and_line(rt: HostRuntime) -> Result<(), Fail> {
    let alloc = rt.alloc();
    let formatted = |suite| {
        Status::Done(Success::Formatted {
            suite,
            segments: 16,
        })
    };
    let unformatted = Status::AnchorCount { formatted: false };
    let table: [(&[&str], &[u8], Status, &[u8]); 20] = [
        (&[], b"", Status::Usage, b"usage\n"),
        (&["start", "plain"], b"", Status::Usage, b"usage\n"),
        (&["start", "plain", "15"], b"", Status::Usage, b"usage\n"),
        (&["start", "plain", "016"], b"", Status::Usage, b"usage\n"),
        (&["start", "plain", "4097"], b"", Status::Usage, b"usage\n"),
        (&["start", "aes192", "16"], b"", Status::Usage, b"usage\n"),
        (&["format", "plain"], b"", Status::Usage, b"usage\n"),
        (&["format", "plain", "4097"], b"", Status::Usage, b"usage\n"),
        (&["run", "16"], b"", Status::Usage, b"usage\n"),
        (&["clean"], b"", Status::Usage, b"usage\n"),
        (&["run"], b"quit\n", unformatted, b"unformatted\n"),
        (
            &["format", "plain", "16"],
            b"quit\n",
            formatted(Suite::Plain),
            b"formatted plain 16\n",
        ),
        (
            &["format", "aes256", "16"],
            b"quit\n",
            formatted(Suite::Aes256),
            b"formatted aes256 16\n",
        ),
        (&["start", "aes128", "16"], b"", Status::End, b"end\n"),
        (&["start", "plain", "4096"], b"", Status::End, b"end\n"),
        (&["start", "plain", "16"], b"quit", Status::End, b"end\n"),
        (
            &["start", "plain", "16"],
            b"\nquit\nquit\n",
            DONE,
            b"refused unbuilt\nbye\n",
        ),
        (
            &["start", "plain", "16"],
            b"begin 1\0\nquit\n",
            DONE,
            b"refused unbuilt\nbye\n",
        ),
        (
            &["start", "plain", "16"],
            b"commit 1\nbegin 2\nbegin 2\nbegin 3\nnew 1 note a\ncommit 2\nbegin 3\nquit\n",
            DONE,
            b"refused no transaction 1\nbegun 2\nrefused open 2\nrefused unbuilt\nrefused no transaction 1\ncommitted 2\nbegun 3\nbye\n",
        ),
        (
            &["start", "plain", "16"],
            b"begin 1\nget 1 1\nnew 1 note a\nget 1 1\nabort 1\nabort 1\nbegin 1\nget 1 1\nnew 1 note b\ncommit 1\nget 1 2\n\
              begin 4\nget 4 2\nquit\n",
            DONE,
            b"begun 1\nrefused no object 1 1\nmade 1 1\ngot 1 1 note a\naborted 1\nrefused no transaction 1\nbegun 1\n\
              refused no object 1 1\nmade 1 2\ncommitted 1\nrefused no transaction 1\nbegun 4\ngot 4 2 note b\nbye\n",
        ),
    ];
    for (words, script, status, output) in table {
        let end = run_over_memory(alloc, words, script, [&[], &[], &[]])?;
        assert_eq!(rt; end.status, status);
        assert!(rt; end.sink.bytes() == output);
    }
    Ok(())
}

#[test]
fn a_long_line_is_answered_once_and_nothing_is_lost(rt: HostRuntime) -> Result<(), Fail> {
    let alloc = rt.alloc();
    let mut script = vec![in alloc; b'x'; 1_000_000]?;
    script.extend_from_slice(b"\nbegin 1\nquit\n")?;
    let end = run_over_memory(alloc, &["start", "plain", "16"], &script, [&[], &[], &[]])?;
    assert_eq!(rt; end.status, DONE);
    assert!(rt; end.sink.bytes() == b"refused unbuilt\nbegun 1\nbye\n".as_slice());
    Ok(())
}

#[test]
fn a_reply_is_put_before_more_is_taken(rt: HostRuntime) -> Result<(), Fail> {
    let alloc = rt.alloc();
    // One take gives at most 65,536 bytes: the first line, and a part of the second.
    let mut script = b"begin 1\n".as_slice().to_vec(alloc)?;
    script.resize(100_000, b'x')?;
    let words = ["start", "plain", "16"];
    let (second, first) = ([2], [1]);
    let failing = [&[], second.as_slice(), first.as_slice()];
    let end = run_over_memory(alloc, &words, &script, failing)?;
    assert_eq!(rt; end.status, Status::SinkFault);
    let end = run_over_memory(alloc, &words, &script, [&[], second.as_slice(), &[]])?;
    assert_eq!(rt; end.status, Status::SourceFault);
    assert!(rt; end.sink.bytes() == b"begun 1\nsource fault\n".as_slice());
    Ok(())
}

#[test]
fn a_store_is_not_made_twice(rt: HostRuntime) -> Result<(), Fail> {
    let already = Status::AnchorCount { formatted: true };
    for command in ["start", "format"] {
        let words = [command, "plain", "16"];
        let end = run_on(rt.alloc(), &words, SCRIPT, &[], (1, [7; 32]))?;
        assert_eq!(rt; end.status, already);
        assert_eq!(rt; end.status.code(), 3);
        assert!(rt; end.sink.bytes() == b"already formatted\n".as_slice());
        assert!(rt; end.platform.bytes().is_empty());
    }
    Ok(())
}

#[test]
fn a_snapshot_is_made_and_read_and_dropped(rt: HostRuntime) -> Result<(), Fail> {
    let alloc = rt.alloc();
    let mut first = run_over_memory(alloc, &["start", "plain", "16"], SCRIPT, [&[], &[], &[]])?;
    let anchor = first.platform.anchor()?;
    let script = b"snapshot 3\nparts\npeek 3 1\ndrop 3\nparts\nquit\n";
    let mut end = run_on(alloc, &["run"], script, first.platform.bytes(), anchor)?;
    assert_eq!(rt; end.status, DONE);
    let replies: &[u8] =
        b"snapshot 3\nparts 3 1 2 3\npeeked 3 1 note hello\ndropped 3\nparts 2 1 2\nbye\n";
    assert!(rt; end.sink.bytes() == replies);
    let (count, _) = end.platform.anchor()?;
    assert_eq!(rt; count, 5);
    Ok(())
}
