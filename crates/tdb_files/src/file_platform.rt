// A device file and an anchor file as a platform. This is the trusted edge: no clause says what a real file does.
ghost use Rattle.std.specs.Prelude.{◌≡◌, ◌≤◌, ◌++◌, [], false, length, take, drop, IfOk};
ghost use Rattle.std.specs.Int.{w64, to_be_bytes, from_be_bytes};
ghost use Rattle.std.proofs.lemmas.Bool.{false≢true};
ghost use Rattle.tdb_base.specs.Trace.{no_trace};

use crate::counts::Counts;
use std::fs::File;
use std::io;
use std::io::{ErrorKind, Seek, SeekFrom};
use std::os::unix::fs::FileExt;
use tdb_base::{Failed, bytes32_at, u64_at};
use tdb_platform::Platform;

// be64 of the count, and then the mark.
const ANCHOR_LENGTH: usize = 40;

/// A device file and an anchor file. It tells nothing but its count of faults and its clock.
///
/// The anchor file holds the count as eight big-endian bytes and then the mark. An empty one stands for count 0 and a
/// mark of zeros; another length is a fault.
#[derive(Drop)]
pub struct FilePlatform {
    device: File,
    anchor: File,
    counts: Counts,
}

impl FilePlatform {
    /// The platform over two files that are open for reading and writing.
    pub fn new(device: File, anchor: File) -> FilePlatform {
        FilePlatform {
            device,
            anchor,
            counts: Counts::new(),
        }
    }
}

impl Platform for FilePlatform {
    ghost outside = { λ p. record {
      tells = false;
      honest = false;
      trace = no_trace;
      image = [];
      anchor = (0, []);
      faults = p.counts.faults;
      clock = p.counts.clock;
    } };

    // A stop may leave anything.
    ghost crash_states = { λ _ _ _ _. Unit {0} };

    ghost counts = { λ _ _ _ _ _ _ _ _. tt };

    ghost as_it_reads = { λ _ _ _. tt };

    ghost numbered = { λ _ told. absurd (false≢true told) };

    fn read(&mut self, at: u64, into: &mut [u8]) -> Result<usize, Failed> {
        let outcome = read_piece(&mut self.device, at, into);
        self.counts.counted(outcome)
    }

    fn write(&mut self, at: u64, piece: &[u8]) -> Result<(), Failed> {
        let outcome = self.device.write_all_at(piece, at);
        self.counts.counted(outcome)
    }

    fn sync(&mut self) -> Result<(), Failed> {
        // No test can see that this makes anything sure.
        let outcome = self.device.sync_data();
        self.counts.counted(outcome)
    }

    fn anchor(&mut self) -> Result<(u64, [u8; 32]), Failed> {
        let outcome = read_anchor(&self.anchor);
        self.counts.counted(outcome)
    }

    fn advance(&mut self, count: u64, mark: &[u8; 32]) -> Result<(), Failed> {
        let outcome = write_anchor(&self.anchor, count, mark);
        self.counts.counted(outcome)
    }
}

// Fills the front of `into` with the bytes that the device has there, and says how many they are.
// The length is asked first, since no clause of `read_at` says that a short read leaves the bytes behind it.
fn read_piece(device: &mut File, at: u64, into: &mut [u8]) -> io::Result<usize>
    ensures within { IfOk result (λ n. n ≤ length into.old) }
    ensures beyond { IfOk result (λ n. drop n into.new ≡ drop n into.old) }
{
    let end = device.seek(SeekFrom::End(0))?;
    let count = (into.len() as u64).min(end.saturating_sub(at)) as usize;
    device.read_exact_at(&mut into[..count], at)?;
    Ok(count)
}

fn read_anchor(file: &File) -> io::Result<(u64, [u8; 32])> {
    // What was written is made sure before it is believed. No test can see a sync: it is owed to the power alone.
    file.sync_data()?;
    let length = file.metadata()?.len();
    if length == 0 {
        return Ok((0, [0; 32]));
    }
    if length != ANCHOR_LENGTH as u64 {
        return Err(io::Error::from(ErrorKind::InvalidData));
    }
    let mut bytes = [0; ANCHOR_LENGTH];
    file.read_exact_at(&mut bytes, 0)?;
    Ok(anchor_in(&bytes))
}

fn write_anchor(file: &File, count: u64, mark: &[u8; 32]) -> io::Result<()> {
    // The count and the mark go in one write: a stop between two would leave a pair that never was.
    file.write_all_at(&anchor_bytes(count, mark), 0)?;
    // Without this sync an advance that succeeded could be lost. No test can see it.
    file.sync_data()
}

// The bytes of the anchor file.
fn anchor_bytes(count: u64, mark: &[u8; 32]) -> [u8; 40]
    ensures { result ≡ to_be_bytes w64 count ++ mark.now }
{
    let mut bytes = [0; 40];
    bytes[..8].copy_from_slice(&count.to_be_bytes());
    bytes[8..].copy_from_slice(mark);
    bytes
}

// The count and the mark that the bytes of an anchor file have.
fn anchor_in(bytes: &[u8; 40]) -> (u64, [u8; 32])
    ensures count { result.0 ≡ from_be_bytes w64 (take 8 bytes.now) }
    ensures mark { result.1 ≡ take 32 (drop 8 bytes.now) }
{
    (u64_at(bytes, 0), bytes32_at(bytes, 8))
}
