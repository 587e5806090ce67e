//! Pieces of the device, and what may be wrong with them or with the room for them.
ghost use Rattle.std.specs.Prelude.{◌≡◌, ◌↔◌, IsTrue};

/// The number of bytes of a segment, and of the ring of commit texts before the first one.
pub const SEGMENT_LENGTH: u64 = 262_144;

/// The greatest number of segments that a device has.
pub const SEGMENT_LIMIT: u32 = 4_096;

/// The number of bytes of the greatest device: the ring and 4,096 segments.
pub const DEVICE_LIMIT: u64 = 1_074_003_968;

/// A place on the device, in bytes from its start.
#[derive(Clone, Copy, Debug, PartialEq, Eq, PartialOrd, Ord)]
pub struct Place(pub u64);

/// A SHA-256 digest.
#[derive(Clone, Copy, Debug, PartialEq, Eq, Hash)]
pub struct Digest(pub [u8; 32]);

/// A secret key. It has no `Debug`, so that no message prints one.
#[derive(Clone, Copy, PartialEq, Eq)]
pub struct Key(pub [u8; 32]);

/// Bytes that stand on the device: where they begin, how many they are, and their digest.
#[derive(Clone, Copy, Debug, PartialEq, Eq)]
pub struct Piece {
    pub place: Place,
    pub length: u32,
    pub digest: Digest,
}

impl Piece {
    ghost use Rattle.tdb_base.specs.Segment.{LiesInOneSegment, lies_in_one_segment};

    /// Whether the piece has bytes and lies whole in one segment of the greatest device.
    pub fn lies_in_one_segment(&self) -> bool
        ensures meaning { IsTrue result ↔ LiesInOneSegment self.now }
        ensures value { result ≡ lies_in_one_segment self.now }
    {
        let place = self.place.0;
        let length = u64::from(self.length);
        SEGMENT_LENGTH <= place
            && place < DEVICE_LIMIT
            && 1 <= length
            && place % SEGMENT_LENGTH + length <= SEGMENT_LENGTH
    }
}

/// Bytes that were read and haven't the digest that they should have.
#[derive(Clone, Copy, Debug, PartialEq, Eq)]
pub struct Damage {
    pub place: Place,
    pub expected: Digest,
    pub found: Digest,
}

/// A piece that wasn't placed.
#[derive(Clone, Copy, Debug, PartialEq, Eq)]
pub struct NoRoom {
    /// The bytes of the first piece that wasn't placed.
    pub need: u32,
    /// The bytes that were left in the tail segment.
    pub free: u32,
}
