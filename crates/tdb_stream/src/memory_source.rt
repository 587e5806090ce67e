// A source over bytes in memory.
ghost use Rattle.std.specs.Prelude.{◌≡◌, ◌<◌, ◌≤◌, ◌++◌, ◌↔◌, true, length, take, drop, min, IsErr, IfOk, OnErr, Contains};
ghost use Rattle.tdb_stream.specs.InMemory.{SourceInMemory, source_gave, source_failed};
ghost use Rattle.tdb_base.specs.Rose.{risen};

use crate::{Failed, Source};
use std::marker::Model;

/// A source over a list of bytes, whose calls fail by their numbers.
#[derive(Drop)]
pub struct MemorySource {
    bytes: Vec<u8>,
    start: usize,
    fail: Vec<u64>,
    calls: u64,
    faults: u64,
}

impl Model for MemorySource {
    ghost Value = { SourceInMemory };

    ghost view = { λ s. record { rest = drop s.start s.bytes.items; failing = s.fail.items; calls = s.calls; faults = s.faults } };

    ghost invariant = { λ s. s.start ≤ length s.bytes.items };
}

impl MemorySource {
    /// A source that gives these bytes. The calls whose numbers stand in `fail`, counted from 1, fail.
    pub fn new(bytes: Vec<u8>, fail: Vec<u64>) -> MemorySource
        ensures { result ≡ record { rest = bytes.items; failing = fail.items; calls = 0; faults = 0 } }
    {
        MemorySource {
            bytes,
            start: 0,
            fail,
            calls: 0,
            faults: 0,
        }
    }
}

impl Source for MemorySource {
    ghost content = { λ s. record { tells = true; rest = s.rest; faults = s.faults } };

    /// Gives as many bytes as fit.
    fn take(&mut self, into: &mut [u8]) -> Result<usize, Failed>
        requires { 0 < length into.old }
        ensures gives { IfOk result (λ n. (n ≡ min (length into.old) (length self.old.rest))
            × (into.new ≡ take n self.old.rest ++ drop n into.old)
            × (self.new ≡ source_gave self.old n)) }
        ensures fails { IsErr result ↔ Contains self.old.failing (risen self.old.calls) }
        ensures failed_source { OnErr result (self.new ≡ source_failed self.old) }
        ensures failed_into { OnErr result (into.new ≡ into.old) }
    {
        self.calls = self.calls.saturating_add(1);
        if self.fail.contains(&self.calls) {
            self.faults = self.faults.saturating_add(1);
            return Err(Failed);
        }
        let rest = &self.bytes[self.start..];
        let count = rest.len().min(into.len());
        into[..count].copy_from_slice(&rest[..count]);
        self.start += count;
        Ok(count)
    }
}
