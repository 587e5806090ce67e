// A sink in memory.
ghost use Rattle.std.specs.Prelude.{◌≡◌, true, IsErr, OnOk, OnErr, Contains};
ghost use Rattle.tdb_stream.specs.InMemory.{SinkInMemory, FailsPut, empty_sink, sink_added};
ghost use Rattle.tdb_base.specs.Rose.{risen};

use crate::{Failed, Sink};
use std::alloc::Global;
use std::marker::Model;

/// A sink that holds what was put in a list of bytes, whose calls fail by their numbers.
#[derive(Drop)]
pub struct MemorySink {
    bytes: Vec<u8>,
    fail: Vec<u64>,
    calls: u64,
    short: u64,
    faults: u64,
}

impl Model for MemorySink {
    ghost Value = { SinkInMemory };

    ghost view = { λ s. record { held = s.bytes.items; failing = s.fail.items; calls = s.calls; short = s.short; faults = s.faults } };
}

impl MemorySink {
    /// An empty sink. The puts whose numbers stand in `fail`, counted from 1, fail.
    pub fn new(alloc: Global, fail: Vec<u64>) -> MemorySink
        ensures { result ≡ empty_sink fail.items }
    {
        MemorySink {
            bytes: Vec::new(alloc),
            fail,
            calls: 0,
            short: 0,
            faults: 0,
        }
    }

    /// What it holds.
    pub fn bytes(&self) -> &[u8]
        ensures { result.now ≡ self.now.held }
    {
        &self.bytes
    }

    /// How many puts found no memory to grow. At the greatest u64 the count stands still.
    pub fn short(&self) -> u64
        ensures { result ≡ self.now.short }
    {
        self.short
    }
}

impl Sink for MemorySink {
    ghost content = { λ s. record { tells = true; held = s.held; faults = s.faults } };

    /// A put that fails adds nothing. Want of memory comes before the list of failing numbers.
    fn put(&mut self, piece: &[u8]) -> Result<(), Failed>
        ensures added { OnOk result (self.new ≡ sink_added self.old piece.now) }
        ensures cause { OnErr result (FailsPut self.old self.new) }
        ensures listed { Contains self.old.failing (risen self.old.calls) → IsErr result }
    {
        self.calls = self.calls.saturating_add(1);
        if self.bytes.try_reserve(piece.len()).is_err() {
            self.short = self.short.saturating_add(1);
            self.faults = self.faults.saturating_add(1);
            return Err(Failed);
        }
        if self.fail.contains(&self.calls) {
            self.faults = self.faults.saturating_add(1);
            return Err(Failed);
        }
        match self.bytes.extend_from_slice(piece) {
            Ok(()) => Ok(()),
            Err(_) => unreachable!(),
        }
    }
}
