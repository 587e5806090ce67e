//! The program: its words, its files, standard input and output, and one call of the run.
//!
//! It stands on the run for all that a database does, and on tdb_files for the system. A fault that the
//! program finds by itself is told before anything of the device is read, and what it made by then and
//! nothing was written to is removed again.
#![tactic(auto)]

use std::alloc::AllocError;
use std::env;
use std::io::{BufReader, ErrorKind};
use std::process::ExitCode;
use tdb_files::{HeldFiles, StdSink, StdSource, secret_in, take_standard_descriptors};
use tdb_run::run;
use tdb_stream::Sink;

/// How much of standard input one system call takes.
const INPUT_BUFFER: usize = 65_536;

/// The status of a program whose line can't be put.
const SINK_FAULT: u8 = 7;

/// A fault of the program's own words, files or memory. Its number is the exit status.
#[derive(Clone, Copy)]
enum Fault {
    /// The words have none of the forms.
    Usage = 2,
    /// A standard descriptor can't be taken, or the device file or the anchor file can't be opened,
    /// made or locked.
    Platform = 5,
    /// Memory is wanting.
    Memory = 8,
    /// The secret file can't be read, or it hasn't 32 bytes.
    Secret = 11,
}

impl Fault {
    /// The line that tells it.
    fn line(self) -> &'static [u8] {
        match self {
            Fault::Usage => b"usage\n",
            Fault::Platform => b"platform fault\n",
            Fault::Memory => b"memory\n",
            Fault::Secret => b"secret\n",
        }
    }
}

fn main(rt: HostRuntime) -> ExitCode {
    let mut sink = StdSink::new(rt.stdout());
    let status = match served(&rt, &mut sink) {
        Ok(status) => status,
        Err(fault) => match sink.put(fault.line()) {
            Ok(()) => fault as u8,
            Err(_) => SINK_FAULT,
        },
    };
    ExitCode::from(status)
}

// Reads the secret, opens the device and then the anchor, and runs the command over them.
fn served<K: Sink>(rt: &HostRuntime, sink: &mut K) -> Result<u8, Fault> {
    take_standard_descriptors(rt).map_err(|_| Fault::Platform)?;
    let given = words(rt)?;
    let words: Vec<&str> = given
        .iter()
        .map(|word| word.as_str())
        .collect(rt.alloc())
        .map_err(|_: AllocError| Fault::Memory)?;
    let [device, anchor, secret, command @ ..] = words.as_slice() else {
        return Err(Fault::Usage);
    };
    if command.is_empty() {
        return Err(Fault::Usage);
    }
    let secret = secret_in(rt, secret).map_err(|_| Fault::Secret)?;
    let files = HeldFiles::open(rt, device, anchor).map_err(|_| Fault::Platform)?;
    let status = ran(rt, sink, &files, command, &secret);
    files.let_go(rt);
    status
}

// The words after the program's name. One that isn't UTF-8 is no word of any form.
fn words(rt: &HostRuntime) -> Result<Vec<String>, Fault> {
    let given = env::args(rt).map_err(|error| match error.kind() {
        ErrorKind::InvalidData => Fault::Usage,
        _ => Fault::Memory,
    })?;
    given.skip(1).collect(rt.alloc()).map_err(|_| Fault::Memory)
}

// Runs the command, and lets the platform go.
fn ran<K: Sink>(
    rt: &HostRuntime,
    sink: &mut K,
    files: &HeldFiles<'_>,
    command: &[&str],
    secret: &[u8; 32],
) -> Result<u8, Fault> {
    let reader = BufReader::with_capacity(rt.alloc(), INPUT_BUFFER, rt.stdin()).map_err(
        |_| Fault::Memory,
    )?;
    let mut source = StdSource::new(reader);
    let platform = files.platform().map_err(|_| Fault::Platform)?;
    let archives = Vec::new(rt.alloc());
    let ended = run(
        rt.alloc(),
        command,
        &mut source,
        sink,
        platform,
        secret,
        archives,
    );
    Ok(ended.status.code())
}
