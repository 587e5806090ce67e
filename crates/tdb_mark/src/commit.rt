//! A commit or a checkpoint, as its text says it.
ghost use Rattle.std.specs.Prelude.{◌≡◌, ◌↔◌, IsTrue};

use tdb_base::{Digest, Piece, SEGMENT_LIMIT, Suite};

/// The kind of a commit that changes partitions.
pub const COMMIT: u32 = 1;

/// The kind of a commit that writes the state anew.
pub const CHECKPOINT: u32 = 2;

/// What the text of a commit says.
#[derive(Clone, Copy, Debug, PartialEq, Eq)]
pub struct Commit {
    /// `COMMIT` or `CHECKPOINT`.
    pub kind: u32,
    /// The suite of the store's own records.
    pub suite: Suite,
    /// How many commits there are with this one, at least 1.
    pub count: u64,
    /// The mark of the text before this one, or zeros before the first.
    pub prev: Digest,
    /// The count of the last checkpoint, its own in a checkpoint.
    pub base: u64,
    /// The number of the device's segments, 16 to 4,096.
    pub segments: u32,
    /// The change list of a commit, or the segment table of a checkpoint.
    pub first: Piece,
    /// The root of a checkpoint's roster, if any partition is there; none in a commit.
    pub root: Option<Piece>,
}

impl Commit {
    ghost use Rattle.tdb_mark.specs.CommitFormat.{IsInFormat, is_in_format, kind_fits, root_lies};

    /// Whether the fields are in the ranges of the format.
    pub fn is_in_format(&self) -> bool
        ensures meaning { IsTrue result ↔ IsInFormat self.now }
        ensures value { result ≡ is_in_format self.now }
    {
        self.ranges_hold()
    }

    fn ranges_hold(&self) -> bool
        ensures { result ≡ is_in_format self.now }
    {
        1 <= self.base
            && self.kind_fits()
            && 16 <= self.segments
            && self.segments <= SEGMENT_LIMIT
            && self.first.lies_in_one_segment()
            && self.root_lies()
    }

    fn kind_fits(&self) -> bool
        ensures { result ≡ kind_fits self.now }
    {
        (self.kind == COMMIT && self.base < self.count && self.root.is_none())
            || (self.kind == CHECKPOINT && self.base == self.count)
    }

    fn root_lies(&self) -> bool
        ensures { result ≡ root_lies self.now.root }
    {
        match &self.root {
            Some(root) => root.lies_in_one_segment(),
            None => true,
        }
    }
}
