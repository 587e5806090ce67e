// A device and an anchor, as their user sees them.
ghost use Rattle.std.specs.Prelude.{◌≡◌, ◌⊎◌, ◌+◌, ◌≤◌, List, ℕ, length, take, drop, IfOk, OnOk, OnErr, IsTrue};
ghost use Rattle.tdb_base.specs.declared.piece.TheConstants.{DEVICE_LIMIT};
ghost use Rattle.tdb_base.specs.Trace.{IsNumbered, with_read, with_written};
ghost use Rattle.tdb_platform.specs.Outside.{Anchor, Outside, Told};
ghost use Rattle.tdb_platform.specs.Image.{SameExcept, overwritten};
ghost use Rattle.tdb_platform.specs.CrashStates.{Elapses, LeavesNoMore};

use tdb_base::Failed;

/// A device that its holder may alter, and an anchor that is trusted.
///
/// One object stands for both, with one clock, so that a stop has one joint moment.
/// The anchor is a count and a mark of 32 bytes.
pub trait Platform {
    /// What it tells: its trace and anchor, its image, its count of faults and its clock.
    ghost outside: { Self → Outside };

    /// The pairs of an image and an anchor that a stop since a moment may leave. Now is the moment of the clock.
    ghost crash_states: { Self → ℕ → List ℕ → Anchor → Type 0 };

    /// Reads one piece, the first bytes of `into`, and gives its length, which is short only at the device's end.
    ///
    /// After `Err` the bytes of `into` are of no account: no read gave them.
    fn read(&mut self, at: u64, into: &mut [u8]) -> Result<usize, Failed>
        ensures count { IfOk result (λ n. n ≤ length into.old) }
        ensures rest { IfOk result (λ n. drop n into.new ≡ drop n into.old) }
        ensures piece { IsTrue (outside self.old).honest
            → IfOk result (λ n. take n into.new ≡ take (length into.old) (drop at (outside self.old).image)) }
        ensures trace { IsTrue (outside self.old).tells
            → IfOk result (λ n. (outside self.new).trace ≡ with_read (outside self.old).trace at (length into.old) (take n into.new)) }
        ensures trace_err { IsTrue (outside self.old).tells → OnErr result ((outside self.new).trace ≡ (outside self.old).trace) }
        ensures image { IsTrue (outside self.old).honest → (outside self.new).image ≡ (outside self.old).image }
        ensures anchor { IsTrue (outside self.old).tells → (outside self.new).anchor ≡ (outside self.old).anchor }
        ensures now { LeavesNoMore outside crash_states self.old self.new }
        ensures time { Elapses (outside self.old) (outside self.new) (crash_states self.old) (crash_states self.new) }
        ensures told { Told (outside self.old) (outside self.new) result }
        ensures quiet { OnOk result ((outside self.new).faults ≡ (outside self.old).faults) };

    /// Writes a piece. Until a sync succeeds, a stop may leave any bytes in its range and in the gap before it.
    ///
    /// A failed write may have changed any of these bytes, or have touched nothing.
    fn write(&mut self, at: u64, piece: &[u8]) -> Result<(), Failed>
        requires { at + length piece.now ≤ DEVICE_LIMIT }
        ensures trace { IsTrue (outside self.old).tells
            → OnOk result ((outside self.new).trace ≡ with_written (outside self.old).trace at piece.now) }
        ensures trace_err { IsTrue (outside self.old).tells
            → OnErr result (((outside self.new).trace ≡ with_written (outside self.old).trace at piece.now)
            ⊎ (((outside self.new).trace ≡ (outside self.old).trace)
            × (IsTrue (outside self.old).honest → (outside self.new).image ≡ (outside self.old).image)
            × LeavesNoMore outside crash_states self.old self.new)) }
        ensures written { IsTrue (outside self.old).honest
            → OnOk result ((outside self.new).image ≡ overwritten (outside self.old).image at piece.now) }
        ensures image { IsTrue (outside self.old).honest
            → SameExcept at (length piece.now) (outside self.old).image (outside self.new).image }
        ensures anchor { IsTrue (outside self.old).tells → (outside self.new).anchor ≡ (outside self.old).anchor }
        ensures now { (i : List ℕ) (a : Anchor) → crash_states self.new (outside self.new).clock i a
            → (was : List ℕ) × crash_states self.old (outside self.old).clock was a
            × (IsTrue (outside self.old).honest → SameExcept at (length piece.now) was i) }
        ensures time { Elapses (outside self.old) (outside self.new) (crash_states self.old) (crash_states self.new) }
        ensures told { Told (outside self.old) (outside self.new) result }
        ensures quiet { OnOk result ((outside self.new).faults ≡ (outside self.old).faults) };

    /// Makes sure of what was written: a stop then leaves what a read gives.
    fn sync(&mut self) -> Result<(), Failed>
        ensures durable { IsTrue (outside self.old).honest
            → OnOk result ((i : List ℕ) (a : Anchor) → crash_states self.new (outside self.new).clock i a → i ≡ (outside self.new).image) }
        ensures trace { IsTrue (outside self.old).tells → (outside self.new).trace ≡ (outside self.old).trace }
        ensures image { IsTrue (outside self.old).honest → (outside self.new).image ≡ (outside self.old).image }
        ensures anchor { IsTrue (outside self.old).tells → (outside self.new).anchor ≡ (outside self.old).anchor }
        ensures now { LeavesNoMore outside crash_states self.old self.new }
        ensures time { Elapses (outside self.old) (outside self.new) (crash_states self.old) (crash_states self.new) }
        ensures told { Told (outside self.old) (outside self.new) result }
        ensures quiet { OnOk result ((outside self.new).faults ≡ (outside self.old).faults) };

    /// Gives the anchor, its count and its mark, and settles an advance that failed:
    /// until the next advance a stop leaves the anchor that it gave.
    fn anchor(&mut self) -> Result<(u64, [u8; 32]), Failed>
        ensures given { IsTrue (outside self.old).tells → IfOk result (λ given. given ≡ (outside self.old).anchor) }
        ensures settled { IsTrue (outside self.old).tells
            → OnOk result ((i : List ℕ) (a : Anchor) → crash_states self.new (outside self.new).clock i a → a ≡ (outside self.new).anchor) }
        ensures trace { IsTrue (outside self.old).tells → (outside self.new).trace ≡ (outside self.old).trace }
        ensures image { IsTrue (outside self.old).honest → (outside self.new).image ≡ (outside self.old).image }
        ensures anchor { IsTrue (outside self.old).tells → (outside self.new).anchor ≡ (outside self.old).anchor }
        ensures now { LeavesNoMore outside crash_states self.old self.new }
        ensures time { Elapses (outside self.old) (outside self.new) (crash_states self.old) (crash_states self.new) }
        ensures told { Told (outside self.old) (outside self.new) result }
        ensures quiet { OnOk result ((outside self.new).faults ≡ (outside self.old).faults) };

    /// Exchanges the anchor in one step, for the next count with a mark. After `Err` the anchor is the old one or the
    /// new one, and until an `anchor` succeeds a stop may leave either.
    fn advance(&mut self, count: u64, mark: &[u8; 32]) -> Result<(), Failed>
        requires { IsTrue (outside self.old).tells → count ≡ (outside self.old).anchor.0 + 1 }
        ensures advanced { IsTrue (outside self.old).tells → OnOk result ((outside self.new).anchor ≡ (count, mark.now)) }
        ensures only { IsTrue (outside self.old).tells
            → OnOk result ((i : List ℕ) (a : Anchor) → crash_states self.new (outside self.new).clock i a → a ≡ (count, mark.now)) }
        ensures either { IsTrue (outside self.old).tells
            → OnErr result (((outside self.new).anchor ≡ (outside self.old).anchor) ⊎ ((outside self.new).anchor ≡ (count, mark.now))) }
        ensures trace { IsTrue (outside self.old).tells → (outside self.new).trace ≡ (outside self.old).trace }
        ensures image { IsTrue (outside self.old).honest → (outside self.new).image ≡ (outside self.old).image }
        ensures now { (i : List ℕ) (a : Anchor) → crash_states self.new (outside self.new).clock i a
            → (was : Anchor) × crash_states self.old (outside self.old).clock i was × ((a ≡ was) ⊎ (a ≡ (count, mark.now))) }
        ensures time { Elapses (outside self.old) (outside self.new) (crash_states self.old) (crash_states self.new) }
        ensures told { Told (outside self.old) (outside self.new) result }
        ensures quiet { OnOk result ((outside self.new).faults ≡ (outside self.old).faults) };

    /// What a stop since a later moment may leave, one since an earlier moment may leave too.
    ghost counts: { (p : Self) (t u : ℕ) (i : List ℕ) (a : Anchor) → t ≤ u → u ≤ (outside p).clock → crash_states p u i a
        → crash_states p t i a };

    /// An honest device as it reads, with its anchor, is one of the pairs that a stop may leave now.
    ghost as_it_reads: { (p : Self) → IsTrue (outside p).honest → IsTrue (outside p).tells
        → crash_states p (outside p).clock (outside p).image (outside p).anchor };

    /// The trace has no call with a number that is still to come.
    ghost numbered: { (p : Self) → IsTrue (outside p).tells → IsNumbered (outside p).trace };
}
