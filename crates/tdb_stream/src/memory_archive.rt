// An archive in memory.
ghost use Rattle.std.specs.Prelude.{◌≡◌, true, IsErr, OnOk, OnErr, Contains};
ghost use Rattle.tdb_stream.specs.InMemory.{ArchiveInMemory, FailsPut, empty_sink, sink_added};
ghost use Rattle.tdb_base.specs.Rose.{risen};

use crate::{Archive, Failed, MemorySink, Sink};
use std::alloc::Global;
use std::marker::Model;

/// An archive that holds what was put in a list of bytes, whose puts fail by their numbers.
#[derive(Drop)]
pub struct MemoryArchive {
    number: u32,
    sink: MemorySink,
}

impl Model for MemoryArchive {
    ghost Value = { ArchiveInMemory };

    ghost view = { λ a. record { number = a.number; sink = a.sink } };
}

impl MemoryArchive {
    /// An empty archive of this number. The puts whose numbers stand in `fail`, counted from 1, fail.
    pub fn new(alloc: Global, number: u32, fail: Vec<u64>) -> MemoryArchive
        ensures { result ≡ record { number = number; sink = empty_sink fail.items } }
    {
        MemoryArchive {
            number,
            sink: MemorySink::new(alloc, fail),
        }
    }

    /// What it holds.
    pub fn bytes(&self) -> &[u8]
        ensures { result.now ≡ self.now.sink.held }
    {
        self.sink.bytes()
    }

    /// How many puts found no memory to grow. At the greatest u64 the count stands still.
    pub fn short(&self) -> u64
        ensures { result ≡ self.now.sink.short }
    {
        self.sink.short()
    }
}

impl Archive for MemoryArchive {
    ghost content = { λ a. record { number = a.number; tells = true; held = a.sink.held; faults = a.sink.faults } };

    fn number(&self) -> u32 {
        self.number
    }

    fn held(&self, at: u64) -> Option<u8> {
        self.sink.bytes().get(at as usize).copied()
    }

    /// A put that fails adds nothing. Want of memory comes before the list of failing numbers.
    fn put(&mut self, piece: &[u8]) -> Result<(), Failed>
        ensures added { OnOk result (self.new ≡ record self.old { sink = sink_added self.old.sink piece.now }) }
        ensures cause { OnErr result (FailsPut self.old.sink self.new.sink × (self.new.number ≡ self.old.number)) }
        ensures listed { Contains self.old.sink.failing (risen self.old.sink.calls) → IsErr result }
    {
        self.sink.put(piece)
    }
}
