// Where bytes go.
ghost use Rattle.std.specs.Prelude.{◌≡◌, ◌≤◌, ◌++◌, IsTrue, OnOk, OnErr, IsErr};
ghost use Rattle.tdb_stream.specs.AddsPrefix.{AddsPrefix};
ghost use Rattle.tdb_base.specs.Rose.{Rose};
ghost use Rattle.tdb_stream.specs.SinkContent.{SinkContent};

use crate::Failed;

/// Takes bytes at its end, piece by piece.
pub trait Sink {
    /// Whether it tells what it holds, what that is, and its count of faults.
    ghost content: { Self → SinkContent };

    /// Adds the piece at the end. A put that failed has added a prefix of it.
    fn put(&mut self, piece: &[u8]) -> Result<(), Failed>
        ensures ok { IsTrue (content self.old).tells
            → OnOk result ((content self.new).held ≡ (content self.old).held ++ piece.now) }
        ensures failed { IsTrue (content self.old).tells
            → OnErr result (AddsPrefix piece.now (content self.old).held (content self.new).held) }

        ensures tells { (content self.new).tells ≡ (content self.old).tells }
        ensures no_fewer { (content self.old).faults ≤ (content self.new).faults }
        ensures quiet { OnOk result ((content self.new).faults ≡ (content self.old).faults) }
        ensures cause { IsErr result → Rose (content self.old).faults (content self.new).faults };
}
