use crate::machine::Counter;
use crate::streams::Pieces;
use std::alloc::Global;
use std::test::Fail;
use tdb_serve::{ScriptEnd, Stop, serve};
use tdb_stream::{MemorySink, MemorySource};

// A script over a counter: its bytes, the takes and the puts that fail, and the line at which the counter stops.
#[derive(Clone, Copy)]
struct Script<'a> {
    bytes: &'a [u8],
    fail_takes: &'a [u64],
    fail_puts: &'a [u64],
    stop_at: u32,
    stop: Stop,
}

// The same, where nothing fails.
fn plain(bytes: &[u8]) -> Script<'_> {
    Script {
        bytes,
        fail_takes: &[],
        fail_puts: &[],
        stop_at: 0,
        stop: Stop::Memory,
    }
}

// How it ends, and what is put.
fn served(alloc: Global, script: &Script<'_>) -> Result<(ScriptEnd, MemorySink), Fail> {
    let bytes = Vec::from_slice(alloc, script.bytes)?;
    let mut source = MemorySource::new(bytes, Vec::from_slice(alloc, script.fail_takes)?);
    let mut sink = MemorySink::new(alloc, Vec::from_slice(alloc, script.fail_puts)?);
    let mut counter = Counter::new(script.stop_at, script.stop);
    let end = serve(alloc, &mut source, &mut sink, &mut counter);
    Ok((end, sink))
}

#[test]
fn scripts_end_as_their_bytes_say(rt: HostRuntime) -> Result<(), Fail> {
    let table: [(&[u8], ScriptEnd, &[u8]); 6] = [
        (b"", ScriptEnd::End, b""),
        (b"begin 1", ScriptEnd::End, b""),
        (b"\n", ScriptEnd::End, b"begun 1\n"),
        (b"begin 1\nquit", ScriptEnd::End, b"begun 1\n"),
        (b"quit\n", ScriptEnd::Bye, b"bye\n"),
        (
            b"a\n\nb\nquit\nc\nquit\n",
            ScriptEnd::Bye,
            b"begun 1\nbegun 2\nbegun 3\nbye\n",
        ),
    ];
    for (bytes, end, replies) in table {
        let (ended, sink) = served(rt.alloc(), &plain(bytes))?;
        assert_eq!(rt; ended, end);
        assert_eq!(rt; sink.bytes(), replies);
    }
    Ok(())
}

#[test]
fn what_fails_ends_the_script(rt: HostRuntime) -> Result<(), Fail> {
    let lines: &[u8] = b"begin 1\nbegin 2\nquit\n";
    let first = Script {
        fail_takes: &[1],
        ..plain(lines)
    };
    let alone = Script {
        fail_takes: &[2],
        ..plain(b"begin 1\n")
    };
    let put = Script {
        fail_puts: &[2],
        ..plain(lines)
    };
    let platform = Script {
        stop_at: 2,
        stop: Stop::PlatformFault,
        ..plain(lines)
    };
    let memory = Script {
        stop_at: 1,
        ..plain(lines)
    };
    let table: [(Script<'_>, ScriptEnd, &[u8]); 5] = [
        (first, ScriptEnd::SourceFault, b""),
        (alone, ScriptEnd::SourceFault, b"begun 1\n"),
        (put, ScriptEnd::SinkFault, b"begun 1\n"),
        (platform, ScriptEnd::PlatformFault, b"begun 1\n"),
        (memory, ScriptEnd::Memory, b""),
    ];
    for (script, end, replies) in table.iter() {
        let (ended, sink) = served(rt.alloc(), script)?;
        assert_eq!(rt; ended, *end);
        assert_eq!(rt; sink.bytes(), *replies);
    }
    Ok(())
}

#[test]
fn a_line_has_at_most_4096_bytes_with_its_line_feed(rt: HostRuntime) -> Result<(), Fail> {
    let alloc = rt.alloc();
    let table: [(usize, &[u8]); 5] = [
        (4095, b"begun 1\nbegun 2\nbye\n"),
        (4096, b"refused unbuilt\nbegun 1\nbye\n"),
        (65_535, b"refused unbuilt\nbegun 1\nbye\n"),
        (65_536, b"refused unbuilt\nbegun 1\nbye\n"),
        (200_000, b"refused unbuilt\nbegun 1\nbye\n"),
    ];
    for (length, replies) in table {
        let mut bytes = vec![in alloc; b'a'; length]?;
        bytes.extend_from_slice(b"\nbegin 1\nquit\n")?;
        let (ended, sink) = served(alloc, &plain(&bytes))?;
        assert_eq!(rt; ended, ScriptEnd::Bye);
        assert_eq!(rt; sink.bytes(), replies, "{length}");
    }
    let tail = vec![in alloc; b'a'; 70_000]?;
    let (ended, sink) = served(alloc, &plain(&tail))?;
    assert_eq!(rt; ended, ScriptEnd::End);
    assert_eq!(rt;
        sink.bytes(),
        b"".as_slice(),
        "bytes behind the last line feed are no line"
    );
    Ok(())
}

// The lines of a script that is given in pieces, and how often it was asked: its lines, the bytes of a piece, the take
// and the put that fail, how it ends, the takes, and the lines that were answered.
#[derive(Clone, Copy)]
struct Paced {
    size: usize,
    fail_take: u64,
    fail_put: u64,
    end: ScriptEnd,
    takes: u64,
    lines: u32,
}

#[test]
fn no_more_is_taken_than_the_next_line_needs(rt: HostRuntime) -> Result<(), Fail> {
    let alloc = rt.alloc();
    let bytes: &[u8] = b"begin 1\nbegin 2\nquit\nbegin 3\n";
    let paces = [
        // a whole line is unread, and then a take fails
        Paced {
            size: 16,
            fail_take: 2,
            fail_put: 0,
            end: ScriptEnd::SourceFault,
            takes: 2,
            lines: 2,
        },
        // the reply is put before the next line is taken
        Paced {
            size: 8,
            fail_take: 2,
            fail_put: 1,
            end: ScriptEnd::SinkFault,
            takes: 1,
            lines: 1,
        },
        // one line a take, and none behind `bye`
        Paced {
            size: 8,
            fail_take: 4,
            fail_put: 0,
            end: ScriptEnd::Bye,
            takes: 3,
            lines: 3,
        },
        Paced {
            size: 1,
            fail_take: 0,
            fail_put: 0,
            end: ScriptEnd::Bye,
            takes: 21,
            lines: 3,
        },
        Paced {
            size: 100,
            fail_take: 2,
            fail_put: 0,
            end: ScriptEnd::Bye,
            takes: 1,
            lines: 3,
        },
    ];
    for pace in paces {
        let mut source = Pieces::new(bytes, pace.size, pace.fail_take);
        let mut sink = MemorySink::new(alloc, vec![in alloc; pace.fail_put]?);
        let mut counter = Counter::new(0, Stop::Memory);
        let end = serve(alloc, &mut source, &mut sink, &mut counter);
        assert_eq!(rt; end, pace.end, "pieces of {}", pace.size);
        assert_eq!(rt; source.takes, pace.takes, "pieces of {}", pace.size);
        assert_eq!(rt; counter.lines, pace.lines, "pieces of {}", pace.size);
    }
    Ok(())
}
