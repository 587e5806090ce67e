// A platform in memory: honest, and with a record of all its calls.
ghost use Rattle.std.specs.Prelude.{◌≡◌, ◌⊎◌, ◌↔◌, ◌+◌, ◌<◌, ◌≤◌, [], true, IfOk, OnOk, OnErr, IsTrue, List, ℕ, length, take, drop};
ghost use Rattle.tdb_base.specs.declared.piece.TheConstants.{DEVICE_LIMIT};
ghost use Rattle.tdb_base.specs.Trace.{no_trace, with_read, with_written};
ghost use Rattle.tdb_platform.specs.Outside.{Anchor, Told};
ghost use Rattle.tdb_platform.specs.Image.{SameExcept, overwritten};
ghost use Rattle.tdb_platform.specs.CrashStates.{Elapses, LeavesNoMore};
ghost use Rattle.tdb_platform.specs.ReplayLaws.{left_earlier, numbered_log};
ghost use Rattle.tdb_platform.specs.DeviceLaws.{device_as_it_reads};

use crate::call::Call;
use crate::crash::Crash;
use crate::device::Device;
use crate::plan::Plan;
use crate::{Failed, Platform};
use std::alloc::{AllocError, Global};

/// A device and an anchor in memory. The device is honest.
///
/// It keeps a record of all its calls. A call that finds no memory for that fails, and has touched nothing.
#[derive(Drop)]
pub struct MemoryPlatform {
    device: Device,
    plan: Plan,
    faults: u64,
}

impl MemoryPlatform {
    ghost use Rattle.tdb_platform.specs.Memory.{FailsAsPlanned, SamePlan, calls_made, calls_short, crash_states};
    ghost use Rattle.tdb_platform.specs.Memory.{failing_calls, failing_from, log, outside};
    ghost use Rattle.tdb_platform.specs.Left.{left_by};

    /// A device with these bytes, and an anchor of a count and a mark. Its calls are numbered from 1: a call whose
    /// number stands in `fail` fails, and from number `stop` on every call fails.
    pub fn new(
        alloc: Global,
        image: Vec<u8>,
        count: u64,
        mark: [u8; 32],
        fail: Vec<u64>,
        stop: Option<u64>,
    ) -> Result<MemoryPlatform, AllocError>
        ensures outside { IfOk result (λ p. outside p ≡ record {
          tells = true;
          honest = true;
          trace = no_trace;
          image = image.items;
          anchor = (count, mark);
          faults = 0;
          clock = 0;
        }) }
        ensures crash_states { IfOk result (λ p. (i : List ℕ) (a : Anchor)
            → crash_states p 0 i a ↔ ((i ≡ image.items) × (a ≡ (count, mark)))) }
        ensures calls { IfOk result (λ p. (calls_made p ≡ 0) × (calls_short p ≡ 0)) }
        ensures plan { IfOk result (λ p. (failing_calls p ≡ fail.items) × (failing_from p ≡ stop)) }
    {
        let device = Device::new(alloc, image, count, mark)?;
        let plan = Plan {
            fail,
            stop,
            made: 0,
        };
        Ok(MemoryPlatform {
            device,
            plan,
            faults: 0,
        })
    }

    /// The bytes of the device, for a test. It is no read.
    pub fn bytes(&self) -> &[u8]
        ensures { result.now ≡ (outside self.now).image }
    {
        self.device.bytes()
    }

    /// How many calls found no memory.
    pub fn short(&self) -> u64
        ensures { result ≡ calls_short self.now }
    {
        self.device.short()
    }

    /// How many reads gave a piece.
    pub fn reads(&self) -> u64
        ensures { result ≡ length (outside self.now).trace.read }
    {
        self.device.reads()
    }

    /// Reads as a device does that shows these bytes, cut to the length of `into`, in place of its own.
    pub(crate) fn show(&mut self, at: u64, into: &mut [u8], shown: &[u8]) -> Result<usize, Failed>
        ensures count { IfOk result (λ n. n ≤ length into.old) }
        ensures rest { IfOk result (λ n. drop n into.new ≡ drop n into.old) }
        ensures piece { IfOk result (λ n. take n into.new ≡ take (length into.old) shown.now) }
        ensures trace { IfOk result
            (λ n. (outside self.new).trace ≡ with_read (outside self.old).trace at (length into.old) (take n into.new)) }
        ensures trace_err { OnErr result ((outside self.new).trace ≡ (outside self.old).trace) }
        ensures image { (outside self.new).image ≡ (outside self.old).image }
        ensures anchor { (outside self.new).anchor ≡ (outside self.old).anchor }
        ensures now { LeavesNoMore outside crash_states self.old self.new }
        ensures time { Elapses (outside self.old) (outside self.new) (crash_states self.old) (crash_states self.new) }
        ensures told { Told (outside self.old) (outside self.new) result }
        ensures quiet { OnOk result ((outside self.new).faults ≡ (outside self.old).faults) }
        ensures into_err { OnErr result (into.new ≡ into.old) }
        ensures planned { FailsAsPlanned self.old self.new result }
    {
        if self.plan.next() {
            let _ = self.device.note(Call::Failed);
            self.faults = self.faults.saturating_add(1);
            return Err(Failed);
        }
        let Ok(count) = self.device.show(at, into, shown) else {
            self.faults = self.faults.saturating_add(1);
            return Err(Failed);
        };
        Ok(count)
    }

    /// The device's holder puts bytes at a place. Past the device's end the gap is filled with zero bytes.
    ///
    /// It is no call, and nothing of it counts as written: a stop leaves the images that it left before, with these
    /// bytes in each. Without memory nothing changes.
    pub fn replace(&mut self, at: u64, bytes: &[u8]) -> Result<(), AllocError>
        requires { at + length bytes.now ≤ DEVICE_LIMIT }
        ensures told { OnOk result (outside self.new ≡ record (outside self.old) {
          image = overwritten (outside self.old).image at bytes.now;
          clock = (outside self.old).clock + 1;
        }) }
        ensures now { OnOk result ((i : List ℕ) (a : Anchor) → crash_states self.new (outside self.new).clock i a
            ↔ ((was : List ℕ) × crash_states self.old (outside self.old).clock was a × (i ≡ overwritten was at bytes.now))) }
        ensures time { Elapses (outside self.old) (outside self.new) (crash_states self.old) (crash_states self.new) }
        ensures plan { SamePlan self.old self.new }
        ensures told_err { OnErr result (outside self.new ≡ outside self.old) }
        ensures left_err { OnErr result ((t : ℕ) (i : List ℕ) (a : Anchor) → crash_states self.new t i a ↔ crash_states self.old t i a) }
    {
        self.device.replace(at, bytes)?;
        Ok(())
    }

    /// A stop. The image and the anchor that it leaves are what the calls give from then on. The trace and the counts
    /// stay, and no call is meant to fail any more.
    pub fn crash(self, crash: Crash) -> Result<MemoryPlatform, AllocError>
        ensures told { IfOk result (λ p. outside p ≡ record (outside self) {
          image = (left_by crash (log self)).0;
          anchor = (left_by crash (log self)).1;
          clock = (outside self).clock + 1;
        }) }
        ensures left { IfOk result (λ p. crash_states self (outside self).clock (outside p).image (outside p).anchor) }
        ensures now { IfOk result (λ p. (i : List ℕ) (a : Anchor)
            → crash_states p (outside p).clock i a ↔ ((i ≡ (outside p).image) × (a ≡ (outside p).anchor))) }
        ensures time { IfOk result (λ p. Elapses (outside self) (outside p) (crash_states self) (crash_states p)) }
        ensures calls { IfOk result (λ p. (calls_made p ≡ calls_made self) × (calls_short p ≡ calls_short self)) }
        ensures plan { IfOk result (λ p. (failing_calls p ≡ []) × (failing_from p ≡ None)) }
    {
        let device = self.device.crash(crash)?;
        let mut plan = self.plan;
        plan.lift();
        Ok(MemoryPlatform {
            device,
            plan,
            faults: self.faults,
        })
    }
}

impl Platform for MemoryPlatform {
    ghost use Rattle.tdb_platform.specs.Device.{crash_states_of, log_of, outside_of};
    ghost use Rattle.tdb_platform.specs.Memory.{FailsAsPlanned, calls_short, crash_states, outside};

    ghost outside = { λ p. outside_of p.device p.faults };

    ghost crash_states = { λ p. crash_states_of p.device };

    ghost counts = { λ p t u i a le within left. left_earlier (log_of p.device) t u i a le left };

    ghost as_it_reads = { λ p honest told. device_as_it_reads p.device };

    ghost numbered = { λ p told. numbered_log (log_of p.device).calls };

    fn read(&mut self, at: u64, into: &mut [u8]) -> Result<usize, Failed>
        ensures count { IfOk result (λ n. n ≤ length into.old) }
        ensures rest { IfOk result (λ n. drop n into.new ≡ drop n into.old) }
        ensures piece { IsTrue (outside self.old).honest
            → IfOk result (λ n. take n into.new ≡ take (length into.old) (drop at (outside self.old).image)) }
        ensures trace { IsTrue (outside self.old).tells
            → IfOk result (λ n. (outside self.new).trace ≡ with_read (outside self.old).trace at (length into.old) (take n into.new)) }
        ensures trace_err { IsTrue (outside self.old).tells → OnErr result ((outside self.new).trace ≡ (outside self.old).trace) }
        ensures image { IsTrue (outside self.old).honest → (outside self.new).image ≡ (outside self.old).image }
        ensures anchor { IsTrue (outside self.old).tells → (outside self.new).anchor ≡ (outside self.old).anchor }
        ensures now { LeavesNoMore outside crash_states self.old self.new }
        ensures time { Elapses (outside self.old) (outside self.new) (crash_states self.old) (crash_states self.new) }
        ensures told { Told (outside self.old) (outside self.new) result }
        ensures quiet { OnOk result ((outside self.new).faults ≡ (outside self.old).faults) }
        ensures into_err { OnErr result (into.new ≡ into.old) }
        ensures planned { FailsAsPlanned self.old self.new result }
    {
        if self.plan.next() {
            let _ = self.device.note(Call::Failed);
            self.faults = self.faults.saturating_add(1);
            return Err(Failed);
        }
        let Ok(count) = self.device.read(at, into) else {
            self.faults = self.faults.saturating_add(1);
            return Err(Failed);
        };
        Ok(count)
    }

    fn write(&mut self, at: u64, piece: &[u8]) -> Result<(), Failed>
        requires { at + length piece.now ≤ DEVICE_LIMIT }
        ensures trace { IsTrue (outside self.old).tells
            → OnOk result ((outside self.new).trace ≡ with_written (outside self.old).trace at piece.now) }
        ensures trace_err { IsTrue (outside self.old).tells
            → OnErr result (((outside self.new).trace ≡ with_written (outside self.old).trace at piece.now)
            ⊎ (((outside self.new).trace ≡ (outside self.old).trace)
            × (IsTrue (outside self.old).honest → (outside self.new).image ≡ (outside self.old).image)
            × LeavesNoMore outside crash_states self.old self.new)) }
        ensures written { IsTrue (outside self.old).honest
            → OnOk result ((outside self.new).image ≡ overwritten (outside self.old).image at piece.now) }
        ensures image { IsTrue (outside self.old).honest
            → SameExcept at (length piece.now) (outside self.old).image (outside self.new).image }
        ensures anchor { IsTrue (outside self.old).tells → (outside self.new).anchor ≡ (outside self.old).anchor }
        ensures now { (i : List ℕ) (a : Anchor) → crash_states self.new (outside self.new).clock i a
            → (was : List ℕ) × crash_states self.old (outside self.old).clock was a
            × (IsTrue (outside self.old).honest → SameExcept at (length piece.now) was i) }
        ensures time { Elapses (outside self.old) (outside self.new) (crash_states self.old) (crash_states self.new) }
        ensures told { Told (outside self.old) (outside self.new) result }
        ensures quiet { OnOk result ((outside self.new).faults ≡ (outside self.old).faults) }
        // A failing write changes nothing that later reads give, and counts as written unless it found no memory.
        ensures unchanged { OnErr result ((outside self.new).image ≡ (outside self.old).image) }
        ensures counted { OnErr result (calls_short self.new ≡ calls_short self.old → calls_short self.old < 18446744073709551615
            → (outside self.new).trace ≡ with_written (outside self.old).trace at piece.now) }
        ensures planned { FailsAsPlanned self.old self.new result }
    {
        let fails = self.plan.next();
        let Ok(()) = self.device.write(at, piece, fails) else {
            self.faults = self.faults.saturating_add(1);
            return Err(Failed);
        };
        if fails {
            self.faults = self.faults.saturating_add(1);
            return Err(Failed);
        }
        Ok(())
    }

    fn sync(&mut self) -> Result<(), Failed>
        ensures durable { IsTrue (outside self.old).honest
            → OnOk result ((i : List ℕ) (a : Anchor) → crash_states self.new (outside self.new).clock i a → i ≡ (outside self.new).image) }
        ensures trace { IsTrue (outside self.old).tells → (outside self.new).trace ≡ (outside self.old).trace }
        ensures image { IsTrue (outside self.old).honest → (outside self.new).image ≡ (outside self.old).image }
        ensures anchor { IsTrue (outside self.old).tells → (outside self.new).anchor ≡ (outside self.old).anchor }
        ensures now { LeavesNoMore outside crash_states self.old self.new }
        ensures time { Elapses (outside self.old) (outside self.new) (crash_states self.old) (crash_states self.new) }
        ensures told { Told (outside self.old) (outside self.new) result }
        ensures quiet { OnOk result ((outside self.new).faults ≡ (outside self.old).faults) }
        ensures planned { FailsAsPlanned self.old self.new result }
    {
        if self.plan.next() {
            let _ = self.device.note(Call::Failed);
            self.faults = self.faults.saturating_add(1);
            return Err(Failed);
        }
        let Ok(()) = self.device.note(Call::Sync) else {
            self.faults = self.faults.saturating_add(1);
            return Err(Failed);
        };
        Ok(())
    }

    fn anchor(&mut self) -> Result<(u64, [u8; 32]), Failed>
        ensures given { IsTrue (outside self.old).tells → IfOk result (λ given. given ≡ (outside self.old).anchor) }
        ensures settled { IsTrue (outside self.old).tells
            → OnOk result ((i : List ℕ) (a : Anchor) → crash_states self.new (outside self.new).clock i a → a ≡ (outside self.new).anchor) }
        ensures trace { IsTrue (outside self.old).tells → (outside self.new).trace ≡ (outside self.old).trace }
        ensures image { IsTrue (outside self.old).honest → (outside self.new).image ≡ (outside self.old).image }
        ensures anchor { IsTrue (outside self.old).tells → (outside self.new).anchor ≡ (outside self.old).anchor }
        ensures now { LeavesNoMore outside crash_states self.old self.new }
        ensures time { Elapses (outside self.old) (outside self.new) (crash_states self.old) (crash_states self.new) }
        ensures told { Told (outside self.old) (outside self.new) result }
        ensures quiet { OnOk result ((outside self.new).faults ≡ (outside self.old).faults) }
        ensures planned { FailsAsPlanned self.old self.new result }
    {
        if self.plan.next() {
            let _ = self.device.note(Call::Failed);
            self.faults = self.faults.saturating_add(1);
            return Err(Failed);
        }
        let Ok(()) = self.device.note(Call::Anchor) else {
            self.faults = self.faults.saturating_add(1);
            return Err(Failed);
        };
        Ok(self.device.anchor())
    }

    fn advance(&mut self, count: u64, mark: &[u8; 32]) -> Result<(), Failed>
        requires { IsTrue (outside self.old).tells → count ≡ (outside self.old).anchor.0 + 1 }
        ensures advanced { IsTrue (outside self.old).tells → OnOk result ((outside self.new).anchor ≡ (count, mark.now)) }
        ensures only { IsTrue (outside self.old).tells
            → OnOk result ((i : List ℕ) (a : Anchor) → crash_states self.new (outside self.new).clock i a → a ≡ (count, mark.now)) }
        ensures either { IsTrue (outside self.old).tells
            → OnErr result (((outside self.new).anchor ≡ (outside self.old).anchor) ⊎ ((outside self.new).anchor ≡ (count, mark.now))) }
        ensures trace { IsTrue (outside self.old).tells → (outside self.new).trace ≡ (outside self.old).trace }
        ensures image { IsTrue (outside self.old).honest → (outside self.new).image ≡ (outside self.old).image }
        ensures now { (i : List ℕ) (a : Anchor) → crash_states self.new (outside self.new).clock i a
            → (was : Anchor) × crash_states self.old (outside self.old).clock i was × ((a ≡ was) ⊎ (a ≡ (count, mark.now))) }
        ensures time { Elapses (outside self.old) (outside self.new) (crash_states self.old) (crash_states self.new) }
        ensures told { Told (outside self.old) (outside self.new) result }
        ensures quiet { OnOk result ((outside self.new).faults ≡ (outside self.old).faults) }
        ensures unchanged { OnErr result ((outside self.new).anchor ≡ (outside self.old).anchor) }
        ensures planned { FailsAsPlanned self.old self.new result }
    {
        let fails = self.plan.next();
        let Ok(()) = self.device.advance(count, mark, fails) else {
            self.faults = self.faults.saturating_add(1);
            return Err(Failed);
        };
        if fails {
            self.faults = self.faults.saturating_add(1);
            return Err(Failed);
        }
        Ok(())
    }
}
