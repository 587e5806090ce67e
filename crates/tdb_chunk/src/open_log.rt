//! An open log.
ghost use Rattle.tdb_overlay.specs.Recovered.{HasCounts};

use tdb_overlay::{Keys, Recovered};

/// A log that is open: its store's keys, and what is kept in memory of it. The platform that it stands on is its caller's.
#[derive(Drop)]
pub struct OpenLog {
    pub(crate) keys: Keys,
    pub(crate) log: Recovered,
    ghost counts: { HasCounts log },
}
