// Where a backup goes.
ghost use Rattle.std.specs.Prelude.{◌≡◌, ◌≤◌, ◌++◌, false, IsTrue, OnOk, OnErr, IsErr, slice_get};
ghost use Rattle.tdb_stream.specs.AddsPrefix.{AddsPrefix};
ghost use Rattle.tdb_stream.specs.ArchiveContent.{ArchiveContent};
ghost use Rattle.tdb_base.specs.Rose.{Rose};

use crate::Failed;

/// A numbered place that takes bytes at its end, and can be asked for those that it holds.
pub trait Archive: Drop {
    /// Its number, whether it tells what it holds, what that is, and its count of faults.
    ghost content: { Self → ArchiveContent };

    /// The number by which reports name it.
    fn number(&self) -> u32
        ensures { result ≡ (content self.now).number };

    /// The byte at this index of what it holds: `None` past the end, and where it tells nothing.
    fn held(&self, at: u64) -> Option<u8>
        ensures told { IsTrue (content self.now).tells → result ≡ slice_get (content self.now).held at }
        ensures untold { (content self.now).tells ≡ false → result ≡ None };

    /// Adds the piece at the end. A put that failed has added a prefix of it.
    fn put(&mut self, piece: &[u8]) -> Result<(), Failed>
        ensures ok { IsTrue (content self.old).tells
            → OnOk result ((content self.new).held ≡ (content self.old).held ++ piece.now) }
        ensures failed { IsTrue (content self.old).tells
            → OnErr result (AddsPrefix piece.now (content self.old).held (content self.new).held) }

        ensures number { (content self.new).number ≡ (content self.old).number }
        ensures tells { (content self.new).tells ≡ (content self.old).tells }
        ensures no_fewer { (content self.old).faults ≤ (content self.new).faults }
        ensures quiet { OnOk result ((content self.new).faults ≡ (content self.old).faults) }
        ensures cause { IsErr result → Rose (content self.old).faults (content self.new).faults };
}
