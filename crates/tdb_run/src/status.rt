//! How a run ended.
ghost use Rattle.std.specs.Prelude.{◌≡◌, ◌↔◌, ◌<◌, ◌++◌, IfOk, IfSome, IsSome, OnOk, true, false};
ghost use Rattle.tdb_run.specs.StatusLine.{finding_text, formatted_text, hex, hex_digit as digit, is_built};
ghost use Rattle.tdb_run.specs.StatusLine.{refusal_text, status_code, status_line};
ghost use Rattle.tdb_run.specs.declared.status.Finding.TheVariants.{Form, Tampered};
ghost use Rattle.tdb_run.specs.declared.status.Refusal.TheVariants.{Full};

use std::alloc::{AllocError, Global};
use tdb_base::{Damage, NoRoom, Place, Suite, push_bytes, push_decimal};

// The longest line that is built, `tampered PLACE DIGEST DIGEST`, has fewer bytes.
const LINE_CAPACITY: usize = 192;

/// What a run carried out.
#[derive(Clone, Copy, Debug, PartialEq, Eq)]
pub enum Success {
    /// A script up to its line `quit`.
    Script,
    /// A new store in this suite, of so many segments, without a script.
    Formatted { suite: Suite, segments: u32 },
}

/// What a run found wrong on the device when it opened the store.
#[derive(Clone, Copy, Debug, PartialEq, Eq)]
pub enum Finding {
    /// A piece has another digest than it should have.
    Tampered(Damage),
    /// The piece at this place has its digest and doesn't fit the others.
    Form(Place),
}

/// Why the commit that opens a store was refused.
#[derive(Clone, Copy, Debug, PartialEq, Eq)]
pub enum Refusal {
    /// The free segments don't hold what it writes.
    Full(NoRoom),
    /// 1,000 commits stand since the last checkpoint.
    Ring,
    /// The count of commits stands at its end.
    Counter,
}

/// How a run ended, by its last line and the program's exit status.
#[derive(Clone, Copy, Debug, PartialEq, Eq)]
pub enum Status {
    /// The command was carried out.
    Done(Success),
    /// The words are no command.
    Usage,
    /// The anchor's count is none that the command starts from: it is 0 unless the store is `formatted`.
    AnchorCount { formatted: bool },
    /// The device was damaged.
    Damaged(Finding),
    /// A call of the platform failed.
    PlatformFault,
    /// A call of the source failed.
    SourceFault,
    /// A call of the sink failed.
    SinkFault,
    /// No memory was left.
    Memory,
    /// The script ended without a line `quit`.
    End,
    /// The commit that opens the store was refused.
    Refused(Refusal),
}

impl Status {
    /// The program's exit status.
    pub fn code(&self) -> u8
        ensures { result ≡ status_code self.now }
    {
        match self {
            Status::Done(_) => 0,
            Status::Usage => 2,
            Status::AnchorCount { .. } => 3,
            Status::Damaged(_) => 4,
            Status::PlatformFault => 5,
            Status::SourceFault => 6,
            Status::SinkFault => 7,
            Status::Memory => 8,
            Status::End => 9,
            Status::Refused(_) => 10,
        }
    }

    /// The last line of a run that ended so, with its line feed, where it is always the same: so it takes no memory. A
    /// script that was carried out has its `bye` already, and after a fault of the sink there is none: their line is empty.
    pub(crate) fn fixed_line(&self) -> Option<&'static [u8]>
        ensures line { IfSome result (λ line. line.now ≡ status_line self.now) }
        ensures fixed { IsSome result ↔ (is_built self.now ≡ false) }
    {
        let line = match self {
            Status::Done(Success::Script) | Status::SinkFault => b"".as_slice(),
            Status::Done(Success::Formatted { .. }) => return None,
            Status::Usage => b"usage\n",
            Status::AnchorCount { formatted: true } => b"already formatted\n",
            Status::AnchorCount { formatted: false } => b"unformatted\n",
            Status::Damaged(_) => return None,
            Status::PlatformFault => b"platform fault\n",
            Status::SourceFault => b"source fault\n",
            Status::Memory => b"memory\n",
            Status::End => b"end\n",
            Status::Refused(Refusal::Full(_)) => return None,
            Status::Refused(Refusal::Ring) => b"refused ring\n",
            Status::Refused(Refusal::Counter) => b"refused counter\n",
        };
        Some(line)
    }

    /// The last line of a run that ended so, with its line feed, where it is built from what the status tells.
    pub(crate) fn built_line(&self, alloc: Global) -> Result<Vec<u8>, AllocError>
        requires { is_built self.now ≡ true }
        ensures { IfOk result (λ line. line.items ≡ status_line self.now) }
    {
        match self {
            Status::Done(Success::Formatted { suite, segments }) => {
                formatted_line(alloc, *suite, *segments)
            }
            Status::Damaged(Finding::Tampered(damage)) => tampered_line(alloc, damage),
            Status::Damaged(Finding::Form(place)) => form_line(alloc, *place),
            Status::Refused(Refusal::Full(room)) => full_line(alloc, room),
            _ => unreachable!(),
        }
    }
}

// The last line of a run that made a store.
fn formatted_line(alloc: Global, suite: Suite, segments: u32) -> Result<Vec<u8>, AllocError>
    ensures { IfOk result (λ line. line.items ≡ formatted_text suite segments) }
{
    let mut line = Vec::with_capacity(alloc, LINE_CAPACITY)?;
    push_bytes(&mut line, b"formatted ")?;
    push_bytes(&mut line, suite.word().as_bytes())?;
    push_bytes(&mut line, b" ")?;
    push_decimal(&mut line, u64::from(segments))?;
    push_bytes(&mut line, b"\n")?;
    Ok(line)
}

// The last line of a run that found bytes of another digest.
fn tampered_line(alloc: Global, damage: &Damage) -> Result<Vec<u8>, AllocError>
    ensures { IfOk result (λ line. line.items ≡ finding_text (Tampered damage.now)) }
{
    let mut line = Vec::with_capacity(alloc, LINE_CAPACITY)?;
    push_bytes(&mut line, b"tampered ")?;
    push_decimal(&mut line, damage.place.0)?;
    push_bytes(&mut line, b" ")?;
    push_hex(&mut line, &damage.expected.0)?;
    push_bytes(&mut line, b" ")?;
    push_hex(&mut line, &damage.found.0)?;
    push_bytes(&mut line, b"\n")?;
    Ok(line)
}

// The last line of a run that found a piece which doesn't fit the others.
fn form_line(alloc: Global, place: Place) -> Result<Vec<u8>, AllocError>
    ensures { IfOk result (λ line. line.items ≡ finding_text (Form place)) }
{
    let mut line = Vec::with_capacity(alloc, LINE_CAPACITY)?;
    push_bytes(&mut line, b"form ")?;
    push_decimal(&mut line, place.0)?;
    push_bytes(&mut line, b"\n")?;
    Ok(line)
}

// The last line of a run that found no room.
fn full_line(alloc: Global, room: &NoRoom) -> Result<Vec<u8>, AllocError>
    ensures { IfOk result (λ line. line.items ≡ refusal_text (Full room.now)) }
{
    let mut line = Vec::with_capacity(alloc, LINE_CAPACITY)?;
    push_bytes(&mut line, b"refused full ")?;
    push_decimal(&mut line, u64::from(room.need))?;
    push_bytes(&mut line, b" ")?;
    push_decimal(&mut line, u64::from(room.free))?;
    push_bytes(&mut line, b"\n")?;
    Ok(line)
}

// Appends two digits for each byte.
fn push_hex(text: &mut Vec<u8>, bytes: &[u8]) -> Result<(), AllocError>
    ensures { OnOk result (text.new.items ≡ text.old.items ++ hex bytes.now) }
{
    for byte in bytes {
        push_bytes(text, &[hex_digit(*byte / 16), hex_digit(*byte % 16)])?;
    }
    Ok(())
}

// The digit of a number below 16.
fn hex_digit(number: u8) -> u8
    requires { number < 16 }
    ensures { result ≡ digit number }
{
    if number < 10 {
        b'0' + number
    } else {
        b'a' + (number - 10)
    }
}
