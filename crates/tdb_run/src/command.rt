//! The words of a command.
ghost use Rattle.std.specs.Prelude.{◌≡◌, ◌≤◌, ◌<◌, ◌^◌, [], ◌∷◌, ℕ, IfSome, IfNone, codes, decimal};
ghost use Rattle.tdb_base.specs.declared.suite.Suite.{Suite};
ghost use Rattle.tdb_base.specs.SuiteNumber.{suite_word};
ghost use Rattle.tdb_run.specs.Command.{IsNoCommand, IsSize, texts};
ghost use Rattle.tdb_run.specs.CommandValue.{IsCommandOf};

use tdb_base::{Suite, read_decimal};

// The least and the greatest number of segments of a store.
const LEAST_SEGMENTS: u64 = 16;

const MOST_SEGMENTS: u64 = 4096;

/// A command of the program.
#[derive(Clone, Copy, Debug, PartialEq, Eq)]
pub enum Command {
    /// `start SUITE SEGMENTS` makes a store of so many segments in that suite and answers a script.
    Start(Suite, u32),
    /// `format SUITE SEGMENTS` makes a store of so many segments in that suite.
    Format(Suite, u32),
    /// `run` answers a script over a store that is there.
    Run,
}

/// Reads the words of a command, or `None` where they are none.
pub fn read_command(words: &[&str]) -> Option<Command>
    ensures found { IfSome result (IsCommandOf (texts words.now)) }
    ensures none { IfNone result (IsNoCommand (texts words.now)) }
{
    match words {
        [command] => read_run(command.as_bytes()),
        [command, suite, segments] => {
            read_new_store(command.as_bytes(), suite.as_bytes(), segments.as_bytes())
        }
        _ => None,
    }
}

// Reads a word as the command `run`.
fn read_run(command: &[u8]) -> Option<Command>
    ensures found { IfSome result (IsCommandOf (command.now ∷ [])) }
    ensures none { IfNone result (IsNoCommand (command.now ∷ [])) }
{
    if command == b"run".as_slice() {
        Some(Command::Run)
    } else {
        None
    }
}

// Reads three words as a command that makes a store.
fn read_new_store(command: &[u8], suite: &[u8], segments: &[u8]) -> Option<Command>
    ensures found { IfSome result (IsCommandOf (command.now ∷ suite.now ∷ segments.now ∷ [])) }
    ensures none { IfNone result (IsNoCommand (command.now ∷ suite.now ∷ segments.now ∷ [])) }
{
    let suite = read_suite(suite)?;
    let segments = read_size(segments)?;
    if command == b"start".as_slice() {
        Some(Command::Start(suite, segments))
    } else if command == b"format".as_slice() {
        Some(Command::Format(suite, segments))
    } else {
        None
    }
}

// Reads a word as a suite.
fn read_suite(word: &[u8]) -> Option<Suite>
    ensures found { IfSome result (λ suite. word.now ≡ suite_word suite) }
    ensures none { IfNone result ((suite : Suite) → word.now ≡ suite_word suite → ⊥) }
{
    if word == Suite::Plain.word().as_bytes() {
        return Some(Suite::Plain);
    }
    if word == Suite::Aes128.word().as_bytes() {
        return Some(Suite::Aes128);
    }
    if word == Suite::Aes256.word().as_bytes() {
        return Some(Suite::Aes256);
    }
    None
}

// Reads a word as a number of segments that a store may have.
fn read_size(word: &[u8]) -> Option<u32>
    ensures found { IfSome result (λ segments. IsSize segments × (word.now ≡ decimal segments)) }
    ensures none { IfNone result ((segments : ℕ) → IsSize segments → word.now ≡ decimal segments → ⊥) }
{
    let segments = read_decimal(word)?;
    if (LEAST_SEGMENTS..=MOST_SEGMENTS).contains(&segments) {
        Some(segments as u32)
    } else {
        None
    }
}
