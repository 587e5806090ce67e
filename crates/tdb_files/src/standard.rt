// Standard input and output, or any reader and writer of std, as a source and a sink.
ghost use Rattle.std.specs.Prelude.{◌≡◌, ◌≤◌, [], false, length, drop, IfOk, OnErr};

use crate::counts::Counts;
use std::io;
use std::io::{BufRead, ErrorKind, Write};
use tdb_stream::{Failed, Sink, Source};

/// A reader as a source. It tells nothing but its count of faults.
#[derive(Drop)]
pub struct StdSource<R: BufRead + Drop> {
    reader: R,
    counts: Counts,
}

impl<R: BufRead + Drop> StdSource<R> {
    /// The source that gives what the reader gives. The reader's buffer decides how much one system call takes.
    pub fn new(reader: R) -> StdSource<R> {
        StdSource {
            reader,
            counts: Counts::new(),
        }
    }
}

impl<R: BufRead + Drop> Source for StdSource<R> {
    ghost content = { λ s. record { tells = false; rest = []; faults = s.counts.faults } };

    fn take(&mut self, into: &mut [u8]) -> Result<usize, Failed> {
        let outcome = take_ready(&mut self.reader, into);
        self.counts.counted(outcome)
    }
}

// Takes what the reader has ready. A signal that interrupts it is no error.
fn take_ready<R: BufRead>(reader: &mut R, into: &mut [u8]) -> io::Result<usize>
    ensures within { IfOk result (λ n. n ≤ length into.old) }
    ensures beyond { IfOk result (λ n. drop n into.new ≡ drop n into.old) }
{
    for _ in 0..u64::MAX {
        match take_once(reader, into) {
            Err(error) if error.kind() == ErrorKind::Interrupted => {}
            outcome => return outcome,
        }
    }
    Err(io::Error::from(ErrorKind::Interrupted))
}

fn take_once<R: BufRead>(reader: &mut R, into: &mut [u8]) -> io::Result<usize>
    ensures within { IfOk result (λ n. n ≤ length into.old) }
    ensures beyond { IfOk result (λ n. drop n into.new ≡ drop n into.old) }
    ensures failed { OnErr result (into.new ≡ into.old) }
{
    let ready = reader.fill_buf()?;
    let count = ready.len().min(into.len());
    into[..count].copy_from_slice(&ready[..count]);
    reader.consume(count);
    Ok(count)
}

/// A writer as a sink. It tells nothing but its count of faults.
#[derive(Drop)]
pub struct StdSink<W: Write + Drop> {
    writer: W,
    counts: Counts,
}

impl<W: Write + Drop> StdSink<W> {
    /// The sink that writes each piece whole, and flushes it.
    pub fn new(writer: W) -> StdSink<W> {
        StdSink {
            writer,
            counts: Counts::new(),
        }
    }
}

impl<W: Write + Drop> Sink for StdSink<W> {
    ghost content = { λ s. record { tells = false; held = []; faults = s.counts.faults } };

    fn put(&mut self, piece: &[u8]) -> Result<(), Failed> {
        let outcome = write_through(&mut self.writer, piece);
        self.counts.counted(outcome)
    }
}

// Writes the whole piece, in as many writes as it takes, and flushes.
fn write_through<W: Write>(writer: &mut W, piece: &[u8]) -> io::Result<()> {
    writer.write_all(piece)?;
    writer.flush()
}
