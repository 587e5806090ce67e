//! A log that was opened, and what is told of it.
ghost use Rattle.std.specs.FinMap as map;
ghost use Rattle.std.specs.Option.{option_map};
ghost use Rattle.std.specs.Prelude.{◌≡◌};
ghost use Rattle.tdb_overlay.specs.Lookup.{leader_of};
ghost use Rattle.tdb_overlay.specs.Recovered.{HasCounts};

use crate::open_log::OpenLog;
use tdb_base::PartId;
use tdb_overlay::{Keys, Leader, Recovered};

impl OpenLog {
    /// The log that was recovered with these keys.
    pub fn open(keys: Keys, log: Recovered) -> OpenLog
        requires { HasCounts log }
        ensures keys { result.keys ≡ keys }
        ensures log { result.log ≡ log }
    {
        OpenLog { keys, log }
    }

    /// The count of the last text.
    pub fn count(&self) -> u64
        ensures { result ≡ self.now.log.head.count }
    {
        self.log.head.count
    }

    /// What is told of a partition, or `None` where it isn't there. It takes no memory.
    pub fn leader(&self, part: PartId) -> Option<Leader>
        ensures { result ≡ option_map leader_of (map.get self.now.log.overlay part.0) }
    {
        self.log.overlay.leader(part)
    }
}
