// A source that counts its takes.
ghost use Rattle.std.specs.Prelude.{[], false};

use tdb_stream::{Failed, Source};

/// Gives these pieces, one at each take, then `end` bytes: it fails at the take of this number, counted from 1.
#[derive(Drop)]
pub struct Pieces<'a> {
    pub rest: &'a [u8],
    pub size: usize,
    pub fail: u64,
    pub takes: u64,
    pub faults: u64,
}

impl<'a> Pieces<'a> {
    /// A source of these bytes that gives at most `size` at a time.
    pub fn new(bytes: &'a [u8], size: usize, fail: u64) -> Pieces<'a> {
        Pieces {
            rest: bytes,
            size,
            fail,
            takes: 0,
            faults: 0,
        }
    }
}

impl Source for Pieces<'_> {
    ghost content = { λ s. record { tells = false; rest = []; faults = s.faults } };

    fn take(&mut self, into: &mut [u8]) -> Result<usize, Failed> {
        self.takes = self.takes.saturating_add(1);
        if self.takes == self.fail {
            self.faults = self.faults.saturating_add(1);
            return Err(Failed);
        }
        let count = self.rest.len().min(self.size).min(into.len());
        into[..count].copy_from_slice(&self.rest[..count]);
        self.rest = &self.rest[count..];
        Ok(count)
    }
}
