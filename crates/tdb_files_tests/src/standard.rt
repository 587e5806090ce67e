use std::io;
use std::io::{BufReader, ErrorKind, Read, Write};
use std::test::Fail;
use tdb_files::{StdSink, StdSource};
use tdb_stream::{Failed, Sink, Source};

// A reader that a signal interrupts, that gives one byte, and that fails from then on.
#[derive(Drop)]
struct Interrupted {
    calls: u8,
}

impl Read for Interrupted {
    fn read(&mut self, buf: &mut [u8]) -> io::Result<usize> {
        self.calls = self.calls.saturating_add(1);
        match (self.calls, buf.first_mut()) {
            (1, _) => Err(io::Error::from(ErrorKind::Interrupted)),
            (2, Some(first)) => {
                *first = b'a';
                Ok(1)
            }
            _ => Err(io::Error::from(ErrorKind::Other)),
        }
    }
}

// A writer that takes one byte at a time, up to three.
#[derive(Drop)]
struct Narrow {
    bytes: Vec<u8>,
}

impl Write for Narrow {
    fn write(&mut self, buf: &[u8]) -> io::Result<usize> {
        match buf.first() {
            Some(first) if self.bytes.len() < 3 => {
                self.bytes.push(*first)?;
                Ok(1)
            }
            _ => Err(io::Error::from(ErrorKind::Other)),
        }
    }

    fn flush(&mut self) -> io::Result<()> {
        Ok(())
    }
}

#[test]
fn short_reads_and_writes_go_on_and_errors_are_faults(rt: HostRuntime) -> Result<(), Fail> {
    let reader = BufReader::with_capacity(rt.alloc(), 4, Interrupted { calls: 0 })?;
    let mut source = StdSource::new(reader);
    let mut into = *b"...";
    assert_eq!(rt; source.take(&mut into), Ok(1));
    assert_eq!(rt; into, *b"a..");
    assert_eq!(rt; source.take(&mut into), Err(Failed));
    assert_eq!(rt; source.take(&mut into), Err(Failed));

    let mut writer = Narrow {
        bytes: Vec::new(rt.alloc()),
    };
    let mut sink = StdSink::new(&mut writer);
    assert_eq!(rt; sink.put(b"ab"), Ok(()));
    assert_eq!(rt; sink.put(b"cd"), Err(Failed));
    assert_eq!(rt; writer.bytes.as_slice(), b"abc".as_slice());
    Ok(())
}
