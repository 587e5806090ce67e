// A device and an anchor in memory, with a log of their calls.
ghost use Rattle.std.specs.Prelude.{◌≡◌, ◌+◌, ◌≤◌, ◌++◌, ◌∷◌, [], count_by, if◌then◌else◌, is_ok, length, take, drop};
ghost use Rattle.std.specs.Prelude.{IfOk, OnOk, OnErr, min};
ghost use Rattle.tdb_base.specs.declared.piece.TheConstants.{DEVICE_LIMIT};
ghost use Rattle.tdb_platform.specs.Image.{overwritten};
ghost use Rattle.tdb_platform.specs.Logs.{calls_of, event_of, gave, logged_of};
ghost use Rattle.tdb_platform.specs.Replay.{Advances, Fails, IsQuiet, Reads, Replaces, Writes, most_short, stand_of};

use crate::call::{Call, Entry};
use crate::crash::Crash;
use crate::image::overwrite;
use crate::replay::{anchor_left, image_left};
use std::alloc::{AllocError, Global};

/// The device's bytes and the anchor before the first call.
#[derive(Drop)]
pub struct Start {
    pub image: Vec<u8>,
    pub count: u64,
    pub mark: [u8; 32],
}

#[derive(Drop)]
pub struct Device {
    alloc: Global,
    start: Start,
    entries: Vec<Entry>,
    short: u64,
    image: Vec<u8>,
    count: u64,
    mark: [u8; 32],
    ghost image_is: { image.items ≡ (stand_of (start.image.items, (start.count, start.mark)) (calls_of entries.items)).0 },
    ghost count_is: { count ≡ (stand_of (start.image.items, (start.count, start.mark)) (calls_of entries.items)).1.0 },
    ghost mark_is: { mark ≡ (stand_of (start.image.items, (start.count, start.mark)) (calls_of entries.items)).1.1 },
    ghost shorts_are: { most_short (calls_of entries.items) ≤ short },
}

// Puts an entry behind the others.
fn enter(entries: &mut Vec<Entry>, entry: Entry) -> Result<(), AllocError>
    ensures ok { OnOk result (calls_of entries.new.items ≡ calls_of entries.old.items ++ logged_of entry ∷ []) }
    ensures err { OnErr result (entries.new.items ≡ entries.old.items) }
{
    entries.push(entry)?;
    Ok(())
}

// Puts a write behind the entries, and its piece into the image unless it fails. Without memory both stay.
fn enter_write(
    alloc: Global,
    image: &mut Vec<u8>,
    entries: &mut Vec<Entry>,
    at: u64,
    piece: &[u8],
    failed: bool,
    short: u64,
) -> Result<(), AllocError>
    requires { at + length piece.now ≤ DEVICE_LIMIT }
    ensures entries_ok { OnOk result (calls_of entries.new.items ≡ calls_of entries.old.items
        ++ record { event = Writes at piece.now failed; short = short } ∷ []) }
    ensures image_ok { OnOk result (image.new.items ≡ (if failed then image.old.items else overwritten image.old.items at piece.now)) }
    ensures entries_err { OnErr result (entries.new.items ≡ entries.old.items) }
    ensures image_err { OnErr result (image.new.items ≡ image.old.items) }
{
    let kept = piece.to_vec(alloc)?;
    entries.reserve(1)?;
    if !failed {
        overwrite(image, at as usize, piece)?;
    }
    let call = Call::Write {
        at,
        piece: kept,
        failed,
    };
    let Ok(()) = entries.push(Entry { call, short }) else {
        unreachable!();
    };
    Ok(())
}

// Puts bytes of the device's holder behind the entries, and into the image. Without memory both stay.
fn enter_replaced(
    alloc: Global,
    image: &mut Vec<u8>,
    entries: &mut Vec<Entry>,
    at: u64,
    bytes: &[u8],
    short: u64,
) -> Result<(), AllocError>
    requires { at + length bytes.now ≤ DEVICE_LIMIT }
    ensures entries_ok { OnOk result (calls_of entries.new.items ≡ calls_of entries.old.items
        ++ record { event = Replaces at bytes.now; short = short } ∷ []) }
    ensures image_ok { OnOk result (image.new.items ≡ overwritten image.old.items at bytes.now) }
    ensures entries_err { OnErr result (entries.new.items ≡ entries.old.items) }
    ensures image_err { OnErr result (image.new.items ≡ image.old.items) }
{
    let kept = bytes.to_vec(alloc)?;
    entries.reserve(1)?;
    overwrite(image, at as usize, bytes)?;
    let call = Call::Replace { at, bytes: kept };
    let Ok(()) = entries.push(Entry { call, short }) else {
        unreachable!();
    };
    Ok(())
}

// How many of the entries are reads that gave a piece.
fn reads_in(entries: &[Entry]) -> usize
    ensures { result ≡ count_by (λ e. gave e.call) entries.now }
{
    entries.iter().filter(|entry| entry.call.gave()).count()
}

impl Device {
    ghost use Rattle.tdb_platform.specs.Device.{Did, Replaced, Stopped, log_of, stand, trace};
    ghost use Rattle.tdb_platform.specs.Left.{left_by};

    pub fn new(
        alloc: Global,
        image: Vec<u8>,
        count: u64,
        mark: [u8; 32],
    ) -> Result<Device, AllocError>
        ensures log { IfOk result (λ d. log_of d ≡ record { start = (image.items, (count, mark)); calls = []; short = 0 }) }
        ensures stand { IfOk result (λ d. stand d ≡ (image.items, (count, mark))) }
    {
        let start = Start {
            image: image.to_vec(alloc)?,
            count,
            mark,
        };
        Ok(Device {
            alloc,
            start,
            entries: Vec::new(alloc),
            short: 0,
            image,
            count,
            mark,
        })
    }

    pub fn bytes(&self) -> &[u8]
        ensures { result.now ≡ (stand self.now).0 }
    {
        &self.image
    }

    pub fn short(&self) -> u64
        ensures { result ≡ (log_of self.now).short }
    {
        self.short
    }

    pub fn anchor(&self) -> (u64, [u8; 32])
        ensures { result ≡ (stand self.now).1 }
    {
        (self.count, self.mark)
    }

    // The bytes that a read of a length at a place gives.
    fn piece(&self, at: u64, len: usize) -> &[u8]
        ensures { result.now ≡ take len (drop at self.now.image.items) }
    {
        let rest = &self.image[(at as usize).min(self.image.len())..];
        &rest[..len.min(rest.len())]
    }

    // Enters a call that changes neither the image nor the anchor.
    pub fn note(&mut self, call: Call) -> Result<(), AllocError>
        requires { IsQuiet (event_of call) }
        ensures ok { OnOk result (Did self.old self.new (event_of call)) }
        ensures err { OnErr result (Did self.old self.new Fails) }
        ensures image { self.new.image.items ≡ self.old.image.items }
        ensures anchor { (stand self.new).1 ≡ (stand self.old).1 }
        ensures short { self.new.short ≡ (if is_ok result then self.old.short else min (self.old.short + 1) 18446744073709551615) }
    {
        let short = self.short;
        let Ok(()) = enter(&mut self.entries, Entry { call, short }) else {
            self.short = short.saturating_add(1);
            return Err(AllocError);
        };
        Ok(())
    }

    pub fn read(&mut self, at: u64, into: &mut [u8]) -> Result<usize, AllocError>
        ensures count { IfOk result (λ n. n ≤ length into.old) }
        ensures rest { IfOk result (λ n. drop n into.new ≡ drop n into.old) }
        ensures piece { IfOk result (λ n. take n into.new ≡ take (length into.old) (drop at self.old.image.items)) }
        ensures ok { IfOk result (λ n. Did self.old self.new (Reads at (length into.old) (take n into.new))) }
        ensures err { OnErr result (Did self.old self.new Fails) }
        ensures into_err { OnErr result (into.new ≡ into.old) }
        ensures short { self.new.short ≡ (if is_ok result then self.old.short else min (self.old.short + 1) 18446744073709551615) }
    {
        let asked = into.len();
        let Ok(bytes) = self.piece(at, asked).to_vec(self.alloc) else {
            self.short = self.short.saturating_add(1);
            return Err(AllocError);
        };
        self.note(Call::Read { at, asked, bytes })?;
        let piece = self.piece(at, asked);
        into[..piece.len()].copy_from_slice(piece);
        Ok(piece.len())
    }

    /// Enters a read that shows these bytes, cut to the length of `into`, in place of the device's.
    pub fn show(&mut self, at: u64, into: &mut [u8], shown: &[u8]) -> Result<usize, AllocError>
        ensures count { IfOk result (λ n. n ≤ length into.old) }
        ensures rest { IfOk result (λ n. drop n into.new ≡ drop n into.old) }
        ensures piece { IfOk result (λ n. take n into.new ≡ take (length into.old) shown.now) }
        ensures ok { IfOk result (λ n. Did self.old self.new (Reads at (length into.old) (take n into.new))) }
        ensures err { OnErr result (Did self.old self.new Fails) }
        ensures into_err { OnErr result (into.new ≡ into.old) }
        ensures short { self.new.short ≡ (if is_ok result then self.old.short else min (self.old.short + 1) 18446744073709551615) }
    {
        let asked = into.len();
        let cut = &shown[..asked.min(shown.len())];
        let Ok(bytes) = cut.to_vec(self.alloc) else {
            self.short = self.short.saturating_add(1);
            return Err(AllocError);
        };
        self.note(Call::Read { at, asked, bytes })?;
        into[..cut.len()].copy_from_slice(cut);
        Ok(cut.len())
    }

    pub fn write(&mut self, at: u64, piece: &[u8], failed: bool) -> Result<(), AllocError>
        requires { at + length piece.now ≤ DEVICE_LIMIT }
        ensures ok { OnOk result (Did self.old self.new (Writes at piece.now failed)) }
        ensures err { OnErr result (Did self.old self.new Fails) }
        ensures short { self.new.short ≡ (if is_ok result then self.old.short else min (self.old.short + 1) 18446744073709551615) }
    {
        let short = self.short;
        let entered = enter_write(
            self.alloc,
            &mut self.image,
            &mut self.entries,
            at,
            piece,
            failed,
            short,
        );
        let Ok(()) = entered else {
            self.short = short.saturating_add(1);
            return Err(AllocError);
        };
        Ok(())
    }

    pub fn advance(&mut self, count: u64, mark: &[u8; 32], failed: bool) -> Result<(), AllocError>
        ensures ok { OnOk result (Did self.old self.new (Advances count mark.now failed)) }
        ensures err { OnErr result (Did self.old self.new Fails) }
        ensures short { self.new.short ≡ (if is_ok result then self.old.short else min (self.old.short + 1) 18446744073709551615) }
    {
        let short = self.short;
        let call = Call::Advance {
            count,
            mark: *mark,
            failed,
        };
        let Ok(()) = enter(&mut self.entries, Entry { call, short }) else {
            self.short = short.saturating_add(1);
            return Err(AllocError);
        };
        if !failed {
            self.count = count;
            self.mark = *mark;
        }
        Ok(())
    }

    /// Puts bytes at a place, which is no call. Without memory nothing changes.
    pub fn replace(&mut self, at: u64, bytes: &[u8]) -> Result<(), AllocError>
        requires { at + length bytes.now ≤ DEVICE_LIMIT }
        ensures ok { OnOk result (Replaced self.old self.new at bytes.now) }
        ensures short { self.new.short ≡ self.old.short }
        ensures err_log { OnErr result (log_of self.new ≡ log_of self.old) }
        ensures err_stand { OnErr result (stand self.new ≡ stand self.old) }
    {
        let short = self.short;
        enter_replaced(
            self.alloc,
            &mut self.image,
            &mut self.entries,
            at,
            bytes,
            short,
        )
    }

    /// How many reads gave a piece.
    #[tactic(auto, using(crate::proofs::Counting::reads_counted))]
    pub fn reads(&self) -> u64
        ensures { result ≡ length (trace self.now).read }
    {
        reads_in(&self.entries) as u64
    }

    /// A stop. What it leaves is what reads and looks at the anchor give from then on.
    pub fn crash(self, crash: Crash) -> Result<Device, AllocError>
        ensures { IfOk result (λ d. Stopped self d (left_by crash (log_of self))) }
    {
        let image = image_left(self.alloc, crash.image, &self.start.image, &self.entries)?;
        let start = (self.start.count, self.start.mark);
        let (count, mark) = anchor_left(crash.anchor, start, &self.entries);
        let call = Call::Stop {
            image: image.to_vec(self.alloc)?,
            count,
            mark,
        };
        let short = self.short;
        let mut entries = self.entries;
        enter(&mut entries, Entry { call, short })?;
        Ok(Device {
            alloc: self.alloc,
            start: self.start,
            entries,
            short,
            image,
            count,
            mark,
        })
    }
}
