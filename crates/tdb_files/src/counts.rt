//! How many calls there were, and how many of them failed.
ghost use Rattle.std.specs.Prelude.{◌≡◌, ◌≤◌, ◌↔◌, IfOk, OnOk, IsErr};
ghost use Rattle.tdb_base.specs.Rose.{Rose};

use std::io;
use tdb_base::Failed;

/// How many calls there were, and how many of them failed. Each stands still at the greatest u64.
#[derive(Clone, Copy)]
pub(crate) struct Counts {
    pub faults: u64,
    pub clock: u64,
}

impl Counts {
    /// No call.
    pub fn new() -> Counts
        ensures faults { result.faults ≡ 0 }
        ensures clock { result.clock ≡ 0 }
    {
        Counts {
            faults: 0,
            clock: 0,
        }
    }

    /// Counts a call, and an error of the system as a fault. A call that is Ok is no fault.
    pub fn counted<T: Drop>(&mut self, outcome: io::Result<T>) -> Result<T, Failed>
        ensures value { IfOk result (λ value. outcome ≡ Ok value) }
        ensures error { IsErr result ↔ IsErr outcome }
        ensures ticks { Rose self.old.clock self.new.clock }
        ensures later { self.old.clock ≤ self.new.clock }
        ensures no_fewer { self.old.faults ≤ self.new.faults }
        ensures cause { IsErr result → Rose self.old.faults self.new.faults }
        ensures no_fault { OnOk result (self.new.faults ≡ self.old.faults) }
    {
        self.clock = self.clock.saturating_add(1);
        match outcome {
            Ok(value) => Ok(value),
            Err(_) => {
                self.faults = self.faults.saturating_add(1);
                Err(Failed)
            }
        }
    }
}
