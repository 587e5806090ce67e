// A platform in memory whose device shows other bytes than its own.
ghost use Rattle.std.specs.Prelude.{◌≡◌, ◌⊎◌, ◌+◌, ◌≤◌, ◌==◌, [], false, find, option_map, IfOk, OnOk, OnErr, IsTrue};
ghost use Rattle.std.specs.Prelude.{List, ℕ, length, take, drop, min};
ghost use Rattle.tdb_base.specs.declared.piece.TheConstants.{DEVICE_LIMIT};
ghost use Rattle.tdb_base.specs.Trace.{with_read, with_written};
ghost use Rattle.tdb_platform.specs.Outside.{Anchor, Told};
ghost use Rattle.tdb_platform.specs.Image.{SameExcept, overwritten};
ghost use Rattle.tdb_platform.specs.CrashStates.{Elapses, LeavesNoMore};
ghost use Rattle.tdb_platform.specs.ReplayLaws.{left_earlier, numbered_log};
ghost use Rattle.tdb_platform.specs.DeviceLaws.{never_told};

use crate::{Failed, MemoryPlatform, Platform};

/// Bytes that a read shows in place of the device's.
#[derive(Drop)]
pub struct Answer {
    /// The number of the read, counted from 1.
    pub nth: u64,
    pub bytes: Vec<u8>,
}

/// A device in memory that shows other bytes to some reads.
///
/// It tells its trace and its anchor, but no image. The record of its device has the bytes that were shown.
#[derive(Drop)]
pub struct HostilePlatform {
    inner: MemoryPlatform,
    answers: Vec<Answer>,
    reads: u64,
}

// The first answer with a number.
fn answer_to(answers: &[Answer], number: u64) -> Option<&Answer>
    ensures { option_map (λ answer. answer.now) result ≡ find (λ answer. answer.nth == number) answers.now }
{
    answers.iter().find(|answer| answer.nth == number)
}

impl HostilePlatform {
    ghost use Rattle.tdb_platform.specs.Hostile.{given_answers, reads_asked};

    /// Reads through this device are numbered from 1, those that fail too. A read that doesn't fail shows the first
    /// answer with its number, cut to the length of `into`, and where there is none, the device's bytes.
    pub fn new(inner: MemoryPlatform, answers: Vec<Answer>) -> HostilePlatform
        ensures inner { result.inner ≡ inner }
        ensures answers { given_answers result ≡ answers.items }
        ensures asked { reads_asked result ≡ 0 }
    {
        HostilePlatform {
            inner,
            answers,
            reads: 0,
        }
    }

    /// The device, with the plan of its calls.
    pub fn inner(&self) -> &MemoryPlatform
        ensures { result.now ≡ self.now.inner }
    {
        &self.inner
    }

    /// Gives the device back, as its calls left it.
    pub fn into_inner(self) -> MemoryPlatform
        ensures { result ≡ self.inner }
    {
        self.inner
    }
}

impl Platform for HostilePlatform {
    ghost use Rattle.tdb_platform.specs.Device.{crash_states_of, log_of, outside_of};
    ghost use Rattle.tdb_platform.specs.Memory.{FailsAsPlanned};
    ghost use Rattle.tdb_platform.specs.Hostile.{SameAnswers, crash_states, device_bytes, given_answers, outside, reads_asked, shown};

    ghost outside = { λ p. record (outside_of p.inner.device p.inner.faults) { honest = false; image = [] } };

    ghost crash_states = { λ p. crash_states_of p.inner.device };

    ghost counts = { λ p t u i a le within left. left_earlier (log_of p.inner.device) t u i a le left };

    ghost as_it_reads = { λ p honest told. never_told _ honest };

    ghost numbered = { λ p told. numbered_log (log_of p.inner.device).calls };

    fn read(&mut self, at: u64, into: &mut [u8]) -> Result<usize, Failed>
        ensures count { IfOk result (λ n. n ≤ length into.old) }
        ensures rest { IfOk result (λ n. drop n into.new ≡ drop n into.old) }
        ensures piece { IsTrue (outside self.old).honest
            → IfOk result (λ n. take n into.new ≡ take (length into.old) (drop at (outside self.old).image)) }
        ensures trace { IsTrue (outside self.old).tells
            → IfOk result (λ n. (outside self.new).trace ≡ with_read (outside self.old).trace at (length into.old) (take n into.new)) }
        ensures trace_err { IsTrue (outside self.old).tells → OnErr result ((outside self.new).trace ≡ (outside self.old).trace) }
        ensures image { IsTrue (outside self.old).honest → (outside self.new).image ≡ (outside self.old).image }
        ensures anchor { IsTrue (outside self.old).tells → (outside self.new).anchor ≡ (outside self.old).anchor }
        ensures now { LeavesNoMore outside crash_states self.old self.new }
        ensures time { Elapses (outside self.old) (outside self.new) (crash_states self.old) (crash_states self.new) }
        ensures told { Told (outside self.old) (outside self.new) result }
        ensures quiet { OnOk result ((outside self.new).faults ≡ (outside self.old).faults) }
        ensures shown { IfOk result (λ n. take n into.new ≡ shown (given_answers self.old) (reads_asked self.new) (length into.old)
            (take (length into.old) (drop at (device_bytes self.old)))) }
        ensures asked { reads_asked self.new ≡ min (reads_asked self.old + 1) 18446744073709551615 }
        ensures answers { given_answers self.new ≡ given_answers self.old }
        ensures stored { device_bytes self.new ≡ device_bytes self.old }
        ensures into_err { OnErr result (into.new ≡ into.old) }
        ensures planned { FailsAsPlanned self.old.inner self.new.inner result }
    {
        self.reads = self.reads.saturating_add(1);
        let number = self.reads;
        match answer_to(&self.answers, number) {
            Some(answer) => self.inner.show(at, into, &answer.bytes),
            None => self.inner.read(at, into),
        }
    }

    fn write(&mut self, at: u64, piece: &[u8]) -> Result<(), Failed>
        requires { at + length piece.now ≤ DEVICE_LIMIT }
        ensures trace { IsTrue (outside self.old).tells
            → OnOk result ((outside self.new).trace ≡ with_written (outside self.old).trace at piece.now) }
        ensures trace_err { IsTrue (outside self.old).tells
            → OnErr result (((outside self.new).trace ≡ with_written (outside self.old).trace at piece.now)
            ⊎ (((outside self.new).trace ≡ (outside self.old).trace)
            × (IsTrue (outside self.old).honest → (outside self.new).image ≡ (outside self.old).image)
            × LeavesNoMore outside crash_states self.old self.new)) }
        ensures written { IsTrue (outside self.old).honest
            → OnOk result ((outside self.new).image ≡ overwritten (outside self.old).image at piece.now) }
        ensures image { IsTrue (outside self.old).honest
            → SameExcept at (length piece.now) (outside self.old).image (outside self.new).image }
        ensures anchor { IsTrue (outside self.old).tells → (outside self.new).anchor ≡ (outside self.old).anchor }
        ensures now { (i : List ℕ) (a : Anchor) → crash_states self.new (outside self.new).clock i a
            → (was : List ℕ) × crash_states self.old (outside self.old).clock was a
            × (IsTrue (outside self.old).honest → SameExcept at (length piece.now) was i) }
        ensures time { Elapses (outside self.old) (outside self.new) (crash_states self.old) (crash_states self.new) }
        ensures told { Told (outside self.old) (outside self.new) result }
        ensures quiet { OnOk result ((outside self.new).faults ≡ (outside self.old).faults) }
        ensures stored { OnOk result (device_bytes self.new ≡ overwritten (device_bytes self.old) at piece.now) }
        ensures stored_err { OnErr result (device_bytes self.new ≡ device_bytes self.old) }
        ensures answers { SameAnswers self.old self.new }
        ensures planned { FailsAsPlanned self.old.inner self.new.inner result }
    {
        self.inner.write(at, piece)
    }

    fn sync(&mut self) -> Result<(), Failed>
        ensures durable { IsTrue (outside self.old).honest
            → OnOk result ((i : List ℕ) (a : Anchor) → crash_states self.new (outside self.new).clock i a → i ≡ (outside self.new).image) }
        ensures trace { IsTrue (outside self.old).tells → (outside self.new).trace ≡ (outside self.old).trace }
        ensures image { IsTrue (outside self.old).honest → (outside self.new).image ≡ (outside self.old).image }
        ensures anchor { IsTrue (outside self.old).tells → (outside self.new).anchor ≡ (outside self.old).anchor }
        ensures now { LeavesNoMore outside crash_states self.old self.new }
        ensures time { Elapses (outside self.old) (outside self.new) (crash_states self.old) (crash_states self.new) }
        ensures told { Told (outside self.old) (outside self.new) result }
        ensures quiet { OnOk result ((outside self.new).faults ≡ (outside self.old).faults) }
        ensures stored { device_bytes self.new ≡ device_bytes self.old }
        ensures answers { SameAnswers self.old self.new }
        ensures planned { FailsAsPlanned self.old.inner self.new.inner result }
    {
        self.inner.sync()
    }

    fn anchor(&mut self) -> Result<(u64, [u8; 32]), Failed>
        ensures given { IsTrue (outside self.old).tells → IfOk result (λ given. given ≡ (outside self.old).anchor) }
        ensures settled { IsTrue (outside self.old).tells
            → OnOk result ((i : List ℕ) (a : Anchor) → crash_states self.new (outside self.new).clock i a → a ≡ (outside self.new).anchor) }
        ensures trace { IsTrue (outside self.old).tells → (outside self.new).trace ≡ (outside self.old).trace }
        ensures image { IsTrue (outside self.old).honest → (outside self.new).image ≡ (outside self.old).image }
        ensures anchor { IsTrue (outside self.old).tells → (outside self.new).anchor ≡ (outside self.old).anchor }
        ensures now { LeavesNoMore outside crash_states self.old self.new }
        ensures time { Elapses (outside self.old) (outside self.new) (crash_states self.old) (crash_states self.new) }
        ensures told { Told (outside self.old) (outside self.new) result }
        ensures quiet { OnOk result ((outside self.new).faults ≡ (outside self.old).faults) }
        ensures stored { device_bytes self.new ≡ device_bytes self.old }
        ensures answers { SameAnswers self.old self.new }
        ensures planned { FailsAsPlanned self.old.inner self.new.inner result }
    {
        self.inner.anchor()
    }

    fn advance(&mut self, count: u64, mark: &[u8; 32]) -> Result<(), Failed>
        requires { IsTrue (outside self.old).tells → count ≡ (outside self.old).anchor.0 + 1 }
        ensures advanced { IsTrue (outside self.old).tells → OnOk result ((outside self.new).anchor ≡ (count, mark.now)) }
        ensures only { IsTrue (outside self.old).tells
            → OnOk result ((i : List ℕ) (a : Anchor) → crash_states self.new (outside self.new).clock i a → a ≡ (count, mark.now)) }
        ensures either { IsTrue (outside self.old).tells
            → OnErr result (((outside self.new).anchor ≡ (outside self.old).anchor) ⊎ ((outside self.new).anchor ≡ (count, mark.now))) }
        ensures trace { IsTrue (outside self.old).tells → (outside self.new).trace ≡ (outside self.old).trace }
        ensures image { IsTrue (outside self.old).honest → (outside self.new).image ≡ (outside self.old).image }
        ensures now { (i : List ℕ) (a : Anchor) → crash_states self.new (outside self.new).clock i a
            → (was : Anchor) × crash_states self.old (outside self.old).clock i was × ((a ≡ was) ⊎ (a ≡ (count, mark.now))) }
        ensures time { Elapses (outside self.old) (outside self.new) (crash_states self.old) (crash_states self.new) }
        ensures told { Told (outside self.old) (outside self.new) result }
        ensures quiet { OnOk result ((outside self.new).faults ≡ (outside self.old).faults) }
        ensures stored { device_bytes self.new ≡ device_bytes self.old }
        ensures answers { SameAnswers self.old self.new }
        ensures planned { FailsAsPlanned self.old.inner self.new.inner result }
    {
        self.inner.advance(count, mark)
    }
}
