// Which calls of a platform in memory are meant to fail.
ghost use Rattle.std.specs.Prelude.{◌≡◌, ◌↔◌, ◌+◌, [], IsTrue, min};
ghost use Rattle.tdb_platform.specs.Plan.{IsPlanned};

/// Numbers the calls from 1. A call fails whose number stands in the list, and from the stop on every call.
#[derive(Drop)]
pub struct Plan {
    pub fail: Vec<u64>,
    pub stop: Option<u64>,
    pub made: u64,
}

impl Plan {
    /// Counts a call, and says whether it is meant to fail.
    pub fn next(&mut self) -> bool
        ensures fails { IsTrue result ↔ IsPlanned self.new.fail.items self.new.stop self.new.made }
        ensures made { self.new.made ≡ min (self.old.made + 1) 18446744073709551615 }
        ensures fail { self.new.fail.items ≡ self.old.fail.items }
        ensures stop { self.new.stop ≡ self.old.stop }
    {
        self.made = self.made.saturating_add(1);
        let number = self.made;
        if let Some(from) = self.stop {
            if from <= number {
                return true;
            }
        }
        self.fail.contains(&number)
    }

    /// No call is meant to fail any more.
    pub fn lift(&mut self)
        ensures fail { self.new.fail.items ≡ [] }
        ensures stop { self.new.stop ≡ None }
        ensures made { self.new.made ≡ self.old.made }
    {
        self.fail.clear();
        self.stop = None;
    }
}
