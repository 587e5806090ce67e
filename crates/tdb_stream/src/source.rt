// Where bytes come from.
ghost use Rattle.std.specs.Prelude.{◌≡◌, ◌<◌, ◌≤◌, ◌↔◌, [], length, take, drop, IsTrue, IfOk, OnOk, OnErr, IsErr};
ghost use Rattle.tdb_base.specs.Rose.{Rose};
ghost use Rattle.tdb_stream.specs.SourceContent.{SourceContent, Takes};

use crate::Failed;

/// Bytes that are taken from the front, piece by piece.
pub trait Source {
    /// Whether it tells its rest, that rest, and its count of faults.
    ghost content: { Self → SourceContent };

    /// Takes at least one byte into the front of `into`, and says how many. 0 bytes is the end.
    ///
    /// A take that failed took nothing. After it the bytes of `into` are of no account.
    fn take(&mut self, into: &mut [u8]) -> Result<usize, Failed>
        requires { 0 < length into.old }
        ensures within { IfOk result (λ n. n ≤ length into.old) }
        ensures beyond { IfOk result (λ n. drop n into.new ≡ drop n into.old) }

        // Only where it tells its rest.
        ensures taken { IsTrue (content self.old).tells
            → IfOk result (λ n. Takes (content self.old) (content self.new) (take n into.new)) }
        ensures end { IsTrue (content self.old).tells
            → IfOk result (λ n. (n ≡ 0) ↔ ((content self.old).rest ≡ [])) }
        ensures failed { IsTrue (content self.old).tells
            → OnErr result ((content self.new).rest ≡ (content self.old).rest) }

        ensures tells { (content self.new).tells ≡ (content self.old).tells }
        ensures no_fewer { (content self.old).faults ≤ (content self.new).faults }
        ensures quiet { OnOk result ((content self.new).faults ≡ (content self.old).faults) }
        ensures cause { IsErr result → Rose (content self.old).faults (content self.new).faults };
}
