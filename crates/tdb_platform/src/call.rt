// The calls that a device in memory has had.
ghost use Rattle.std.specs.Prelude.{◌≡◌};
ghost use Rattle.tdb_platform.specs.Logs.{gave};

/// A call, with what it was handed and what it gave.
#[derive(Drop)]
pub enum Call {
    /// A read at a place, which was asked for a number of bytes, and gave these.
    Read {
        at: u64,
        asked: usize,
        bytes: Vec<u8>,
    },
    /// A write of a piece at a place, and whether it failed.
    Write {
        at: u64,
        piece: Vec<u8>,
        failed: bool,
    },
    /// A sync that succeeded.
    Sync,
    /// A look at the anchor that succeeded.
    Anchor,
    /// An exchange of the anchor for a count and a mark, and whether it failed.
    Advance {
        count: u64,
        mark: [u8; 32],
        failed: bool,
    },
    /// A read, a sync or a look at the anchor that failed.
    Failed,
    /// No call: bytes that the device's holder put at a place.
    Replace {
        at: u64,
        bytes: Vec<u8>,
    },
    /// No call: a stop that left this image and this anchor.
    Stop {
        image: Vec<u8>,
        count: u64,
        mark: [u8; 32],
    },
}

impl Call {
    /// Whether the call is a read that gave a piece.
    pub fn gave(&self) -> bool
        ensures { result ≡ gave self.now }
    {
        matches!(self, Call::Read { .. })
    }
}

/// A call of the log, and how many calls had found no memory before it.
#[derive(Drop)]
pub struct Entry {
    pub call: Call,
    pub short: u64,
}
