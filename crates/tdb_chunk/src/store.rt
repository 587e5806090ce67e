//! A store that owns its platform.
ghost use Rattle.std.specs.Prelude.{◌≡◌, ◌≤◌};
ghost use Rattle.tdb_seg.specs.SegmentSpace.{bytes_left, free_count};
ghost use Rattle.tdb_chunk.specs.Standing.{IsReady};

use crate::open_log::OpenLog;
use std::marker::Model;
use tdb_base::Suite;
use tdb_platform::Platform;

/// A store of chunks that owns its platform.
///
/// Contracts see the platform, the secret, what is kept in memory of the log, and whether an earlier call that writes met
/// a fault.
#[derive(Drop)]
pub struct Store<P: Platform> {
    pub(crate) platform: P,
    pub(crate) chain: OpenLog,
    pub(crate) stopped: bool,
}

/// The room that a device has, by its segments of 262,144 bytes.
#[derive(Clone, Copy, Debug, PartialEq, Eq)]
pub struct Room {
    /// How many segments there are, 16 to 4,096.
    pub segments: u32,
    /// How many of them are free.
    pub free: u32,
    /// The bytes from the end of the last piece to its segment's end.
    pub tail_left: u32,
}

impl<P: Platform> Model for Store<P> {
    ghost use Rattle.tdb_chunk.specs.Standing.{IsReady};
    ghost use Rattle.tdb_chunk.specs.StoreView.{StoreView, store_code};

    ghost Value = { StoreView P };

    ghost coded = { store_code P.code };

    ghost view = { λ s. record { platform = s.platform; secret = s.chain.keys; log = s.chain.log; stopped = s.stopped } };

    ghost invariant = { λ s. IsReady P.outside P.crash_states
        (record { platform = s.platform; secret = s.chain.keys; log = s.chain.log; stopped = s.stopped }) };
}

impl<P: Platform> Store<P> {
    /// Gives the platform back.
    pub fn close(self) -> P
        ensures platform { result ≡ self.platform }
        ensures ready { IsReady P.outside P.crash_states self }
    {
        let Store {
            platform,
            chain: _,
            stopped: _,
        } = self;
        platform
    }

    /// The suite of the log's texts, lists and tables.
    pub fn suite(&self) -> Suite
        ensures { result ≡ self.now.log.suite }
    {
        self.chain.log.suite
    }

    /// The count of the last commit or checkpoint.
    pub fn count(&self) -> u64
        ensures count { result ≡ self.now.log.head.count }
        ensures some { 1 ≤ result }
    {
        self.chain.log.head.count
    }

    /// The count of the last checkpoint.
    pub fn base(&self) -> u64
        ensures { result ≡ self.now.log.head.base }
    {
        self.chain.log.head.base
    }

    /// The room of its device.
    pub fn room(&self) -> Room
        ensures segments { result.segments ≡ self.now.log.segments.segments }
        ensures free { result.free ≡ free_count self.now.log.segments }
        ensures tail_left { result.tail_left ≡ bytes_left self.now.log.segments.tail }
    {
        let segments = &self.chain.log.segments;
        Room {
            segments: segments.segments(),
            free: segments.free(),
            tail_left: segments.tail_left(),
        }
    }
}
