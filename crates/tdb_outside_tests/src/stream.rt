ghost use Rattle.std.specs.Prelude.{true};

use std::process::Abort;
use std::test::Fail;
use tdb_stream::{Archive, Failed, MemoryArchive, MemorySink, MemorySource, Sink, Source};

// A sink that has room for so many bytes. A put past its end adds what fits, and fails.
#[derive(Drop)]
struct FullSink {
    bytes: Vec<u8>,
    room: usize,
    faults: u64,
}

impl Sink for FullSink {
    ghost content = { λ s. record { tells = true; held = s.bytes.items; faults = s.faults } };

    fn put(&mut self, piece: &[u8]) -> Result<(), Failed> {
        let fitting = piece.len().min(self.room);
        if self.bytes.extend_from_slice(&piece[..fitting]).is_err() {
            self.faults = self.faults.saturating_add(1);
            return Err(Failed);
        }
        self.room -= fitting;
        if fitting < piece.len() {
            self.faults = self.faults.saturating_add(1);
            return Err(Failed);
        }
        Ok(())
    }
}

// Takes up to `size` bytes, and compares the answer, what came, and that the bytes behind it stay.
fn check_take(
    rt: &impl Abort,
    source: &mut MemorySource,
    size: usize,
    expected: Result<&[u8], Failed>,
) {
    let mut into = [b'.'; 8];
    if size == 0 || size > 8 {
        panic!(rt; "the size of a take is 1 to 8");
    }
    let answer = source.take(&mut into[..size]);
    match (answer, expected) {
        (Ok(count), Ok(bytes)) => {
            assert_eq!(rt; count, bytes.len());
            for (index, byte) in into.iter().enumerate() {
                let wanted = bytes.get(index).copied().unwrap_or(b'.');
                assert_eq!(rt; *byte, wanted, "byte {index}");
            }
        }
        (Err(Failed), Err(Failed)) => assert_eq!(rt; into, [b'.'; 8]),
        _ => panic!(rt; "a take failed, or one that was to fail didn't"),
    }
}

#[test]
fn a_memory_source_gives_what_fits_and_fails_by_number(rt: HostRuntime) -> Result<(), Fail> {
    let bytes = b"abcdefg".to_vec(rt.alloc())?;
    let mut source = MemorySource::new(bytes, vec![in rt.alloc(); 1, 4, 4, 0]?);
    let takes: [(usize, Result<&[u8], Failed>); 8] = [
        (3, Err(Failed)),
        (3, Ok(b"abc")),
        (1, Ok(b"d")),
        (8, Err(Failed)),
        (2, Ok(b"ef")),
        (8, Ok(b"g")),
        (8, Ok(b"")),
        (1, Ok(b"")),
    ];
    for (size, expected) in takes {
        check_take(&rt, &mut source, size, expected);
    }
    Ok(())
}

#[test]
fn a_memory_sink_holds_the_pieces_of_the_puts_that_succeeded(rt: HostRuntime) -> Result<(), Fail> {
    let mut sink = MemorySink::new(rt.alloc(), vec![in rt.alloc(); 2, 5]?);
    assert_eq!(rt; sink.bytes(), b"".as_slice());
    let puts: [(&[u8], Result<(), Failed>, &[u8]); 5] = [
        (b"ab", Ok(()), b"ab"),
        (b"cd", Err(Failed), b"ab"),
        (b"", Ok(()), b"ab"),
        (b"e", Ok(()), b"abe"),
        (b"f", Err(Failed), b"abe"),
    ];
    for (piece, expected, held) in puts {
        assert_eq!(rt; sink.put(piece), expected);
        assert_eq!(rt; sink.bytes(), held);
    }
    assert_eq!(rt; sink.short(), 0, "no put found no memory");
    Ok(())
}

#[test]
fn a_memory_archive_tells_its_number_and_each_byte(rt: HostRuntime) -> Result<(), Fail> {
    let mut archive = MemoryArchive::new(rt.alloc(), 7, vec![in rt.alloc(); 2]?);
    assert_eq!(rt; archive.number(), 7);
    assert_eq!(rt; archive.held(0), None);
    assert_eq!(rt; archive.put(b"xyz"), Ok(()));
    assert_eq!(rt; archive.put(b"lost"), Err(Failed));
    assert_eq!(rt; archive.put(b"!"), Ok(()));
    let held = [
        (0, Some(b'x')),
        (1, Some(b'y')),
        (2, Some(b'z')),
        (3, Some(b'!')),
        (4, None),
        (u64::MAX, None),
    ];
    for (at, byte) in held {
        assert_eq!(rt; archive.held(at), byte);
    }
    assert_eq!(rt; archive.bytes(), b"xyz!".as_slice());
    assert_eq!(rt; archive.number(), 7);
    assert_eq!(rt; archive.short(), 0, "no put found no memory");
    Ok(())
}

#[test]
fn a_put_that_failed_has_added_a_prefix(rt: HostRuntime) {
    let mut sink = FullSink {
        bytes: Vec::new(rt.alloc()),
        room: 5,
        faults: 0,
    };
    assert_eq!(rt; sink.put(b"abc"), Ok(()));
    assert_eq!(rt; sink.put(b"defg"), Err(Failed));
    assert_eq!(rt; sink.put(b"h"), Err(Failed));
    assert_eq!(rt; sink.bytes.as_slice(), b"abcde".as_slice());
    assert_eq!(rt; sink.faults, 2);
}

// What run sees: each object by its trait alone.
fn copied<S: Source, K: Sink>(source: &mut S, sink: &mut K) -> Result<usize, Failed> {
    let mut piece = [0; 4];
    let count = source.take(&mut piece)?;
    sink.put(&piece[..count])?;
    Ok(count)
}

#[test]
fn a_run_that_knows_the_traits_alone_copies_bytes(rt: HostRuntime) -> Result<(), Fail> {
    let alloc = rt.alloc();
    let mut source = MemorySource::new(b"abcdef".to_vec(alloc)?, Vec::new(alloc));
    let mut sink = MemorySink::new(alloc, vec![in alloc; 3]?);
    let answers = [Ok(4), Ok(2), Err(Failed)];
    for answer in answers {
        assert_eq!(rt; copied(&mut source, &mut sink), answer);
    }
    assert_eq!(rt; sink.bytes(), b"abcdef".as_slice());
    let mut archives: Vec<Box<dyn Archive>> = Vec::new(alloc);
    archives.push(Box::new(alloc, MemoryArchive::new(alloc, 1, Vec::new(alloc)))?)?;
    archives.push(Box::new(alloc, MemoryArchive::new(alloc, 2, vec![in alloc; 1]?))?)?;
    let expected = [(1, Ok(()), Some(b'z')), (2, Err(Failed), None)];
    for (archive, (number, answer, byte)) in archives.iter_mut().zip(expected) {
        assert_eq!(rt; archive.put(b"z"), answer);
        assert_eq!(rt; archive.number(), number);
        assert_eq!(rt; archive.held(0), byte);
    }
    Ok(())
}
