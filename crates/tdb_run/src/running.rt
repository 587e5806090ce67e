//! One run: a command from its words to its last line.
ghost use Rattle.std.specs.Prelude.{◌≡◌, ◌≢◌, ◌⊎◌, ◌≤◌, ℕ, List, IsTrue, true, false};
ghost use Rattle.tdb_base.specs.declared.suite.Suite.{Suite};
ghost use Rattle.tdb_overlay.specs.SealedOnly.{OnlySealed};
ghost use Rattle.tdb_serve.specs.declared.script_end.ScriptEnd.{ScriptEnd};
ghost use Rattle.tdb_stream.specs.SinkContent.{SinkContent};
ghost use Rattle.tdb_stream.specs.SourceContent.{SourceContent};
ghost use Rattle.tdb_run.specs.Calls.{Calls};
ghost use Rattle.tdb_run.specs.Command.{IsFormat, IsNoCommand, IsOfNewStore, IsRun, IsStart, texts};
ghost use Rattle.tdb_run.specs.Conversed.{Conversed, TellsFaults};
ghost use Rattle.tdb_run.specs.Ends.{status_of_end};
ghost use Rattle.tdb_run.specs.Run as runs;
ghost use Rattle.tdb_run.specs.Scripted.{RanScript};
ghost use Rattle.tdb_run.specs.declared.status.Status.TheVariants.{AnchorCount, Done, End, PlatformFault, SinkFault, Usage};
ghost use Rattle.tdb_run.specs.declared.status.Success.TheVariants.{Formatted, Script};

use crate::command::{Command, read_command};
use crate::ended::Ended;
use crate::last_line::put_last_line;
use crate::opening::{new_store, open_store};
use crate::status::{Status, Success};
use std::alloc::Global;
use tdb_base::Suite;
use tdb_chunk::Store;
use tdb_notes::{Notes, serve_notes};
use tdb_platform::Platform;
use tdb_serve::ScriptEnd;
use tdb_stream::{Archive, Sink, Source};

/// A command that was carried out up to its last line.
#[derive(Drop)]
struct CarriedOut<P: Platform> {
    platform: P,
    status: Status,
}

/// Carries out the command that the words are, over a device and an anchor under a secret of 32 bytes.
///
/// A script is taken from the source, and every line goes to the sink.
pub fn run<S: Source, K: Sink, P: Platform>(
    alloc: Global,
    words: &[&str],
    source: &mut S,
    sink: &mut K,
    platform: P,
    secret: &[u8; 32],
    archives: Vec<Box<dyn Archive>>,
) -> Ended<P>
    // Words that are no command, and no others, are answered so, unless the sink fails.
    ensures usage { result.status ≡ Usage → IsNoCommand (texts words.now) }
    ensures usage_always { IsNoCommand (texts words.now) → (result.status ≡ Usage) ⊎ (result.status ≡ SinkFault) }

    // A store isn't made twice: that needs an anchor whose count is 0.
    ensures already { result.status ≡ AnchorCount true → IsOfNewStore (texts words.now)
        × (IsTrue (P.outside platform).tells → (P.outside platform).anchor.0 ≢ 0) }
    ensures already_always { IsOfNewStore (texts words.now) → IsTrue (P.outside platform).tells → (P.outside platform).anchor.0 ≢ 0
        → (result.status ≡ AnchorCount true) ⊎ (result.status ≡ PlatformFault) ⊎ (result.status ≡ SinkFault) }

    // No store is opened where the anchor's count is 0.
    ensures unformatted { result.status ≡ AnchorCount false → IsRun (texts words.now)
        × (IsTrue (P.outside platform).tells → (P.outside platform).anchor.0 ≡ 0) }
    ensures unformatted_always { IsRun (texts words.now) → IsTrue (P.outside platform).tells → (P.outside platform).anchor.0 ≡ 0
        → (result.status ≡ AnchorCount false) ⊎ (result.status ≡ PlatformFault) ⊎ (result.status ≡ SinkFault) }

    // A new store without a script is told with the suite and the number of its words.
    ensures formatted { (suite : Suite) (segments : ℕ) → result.status ≡ Done (Formatted suite segments)
        → IsFormat (texts words.now) suite segments }
    ensures scripts { result.status ≡ Done Script → (suite : Suite) (segments : ℕ) → IsFormat (texts words.now) suite segments → ⊥ }
    ensures script_ends { result.status ≡ End → (suite : Suite) (segments : ℕ) → IsFormat (texts words.now) suite segments → ⊥ }

    // The sink holds the replies to the lines taken, and the last line. Where the platform tells its trace, that has no collision and no
    // forgery, and the anchor had a log: whatever the device shows, the run starts from that log's state, or from that state with the
    // one commit that had been begun behind it, by what it read ahead of the log. Each reply is the session's, and the log of each
    // anchor that a stop may leave has the commits of the lines that were answered, and at most one more.
    ensures outcome { runs.RunOutcome P.outside P.crash_states (texts words.now) secret.now (S.content source.old) (S.content source.new)
        (K.content sink.old) (K.content sink.new) platform result.platform result.status }

    ensures no_command { IsNoCommand (texts words.now) → (result.platform ≡ platform) × (source.new ≡ source.old) }
    ensures format_takes_nothing { (suite : Suite) (segments : ℕ) → IsFormat (texts words.now) suite segments → source.new ≡ source.old }

    // Whatever goes to the device is a sealed record in a segment, or a commit text with its tag in a slot.
    ensures sealed_only { OnlySealed secret.now (P.outside platform) (P.outside result.platform) }
    ensures archives { result.archives ≡ archives }
{
    let CarriedOut { platform, status } = carry_out(alloc, words, source, sink, platform, secret);
    let status = put_last_line(alloc, sink, status);
    Ended {
        status,
        platform,
        archives,
    }
}

// Carries out the command up to its last line.
fn carry_out<S: Source, K: Sink, P: Platform>(
    alloc: Global,
    words: &[&str],
    source: &mut S,
    sink: &mut K,
    platform: P,
    secret: &[u8; 32],
) -> CarriedOut<P>
    ensures carried_out { runs.CarriedOut P.outside P.crash_states (texts words.now) secret.now (S.content source.old)
        (S.content source.new) (K.content sink.old) (K.content sink.new) platform result.platform result.status }
    ensures no_command { IsNoCommand (texts words.now) → (result.platform ≡ platform) × (source.new ≡ source.old) }
    ensures format_takes_nothing { (suite : Suite) (segments : ℕ) → IsFormat (texts words.now) suite segments → source.new ≡ source.old }
{
    match read_command(words) {
        None => CarriedOut {
            platform,
            status: Status::Usage,
        },
        Some(Command::Start(suite, segments)) => {
            start(alloc, source, sink, platform, secret, suite, segments)
        }
        Some(Command::Format(suite, segments)) => format(alloc, platform, secret, suite, segments),
        Some(Command::Run) => reopen(alloc, source, sink, platform, secret),
    }
}

// Makes a new store and answers a script over it.
fn start<S: Source, K: Sink, P: Platform>(
    alloc: Global,
    source: &mut S,
    sink: &mut K,
    platform: P,
    secret: &[u8; 32],
    suite: Suite,
    segments: u32,
) -> CarriedOut<P>
    requires least { 16 ≤ segments }
    requires most { segments ≤ 4096 }
    ensures carried_out { (words : List (List ℕ)) → IsStart words suite segments → runs.CarriedOut P.outside P.crash_states words
        secret.now (S.content source.old) (S.content source.new) (K.content sink.old) (K.content sink.new) platform result.platform
        result.status }
{
    match new_store(alloc, platform, secret, suite, segments) {
        Ok(store) => answer_script(alloc, source, sink, store),
        Err((platform, why)) => CarriedOut {
            platform,
            status: why.status(),
        },
    }
}

// Makes a new store.
fn format<P: Platform>(
    alloc: Global,
    platform: P,
    secret: &[u8; 32],
    suite: Suite,
    segments: u32,
) -> CarriedOut<P>
    requires least { 16 ≤ segments }
    requires most { segments ≤ 4096 }
    ensures carried_out { (words : List (List ℕ)) → IsFormat words suite segments → (came : SourceContent) (before : SinkContent)
        → runs.CarriedOut P.outside P.crash_states words secret.now came came before before platform result.platform result.status }
{
    match new_store(alloc, platform, secret, suite, segments) {
        Ok(store) => CarriedOut {
            platform: store.close(),
            status: Status::Done(Success::Formatted { suite, segments }),
        },
        Err((platform, why)) => CarriedOut {
            platform,
            status: why.status(),
        },
    }
}

// Opens the store that is there and answers a script over it.
fn reopen<S: Source, K: Sink, P: Platform>(
    alloc: Global,
    source: &mut S,
    sink: &mut K,
    platform: P,
    secret: &[u8; 32],
) -> CarriedOut<P>
    ensures carried_out { (words : List (List ℕ)) → IsRun words → runs.CarriedOut P.outside P.crash_states words secret.now
        (S.content source.old) (S.content source.new) (K.content sink.old) (K.content sink.new) platform result.platform result.status }
{
    match open_store(alloc, platform, secret) {
        Ok(store) => answer_script(alloc, source, sink, store),
        Err((platform, why)) => CarriedOut {
            platform,
            status: why.status(),
        },
    }
}

// Answers the script of the source over an open store.
fn answer_script<S: Source, K: Sink, P: Platform>(
    alloc: Global,
    source: &mut S,
    sink: &mut K,
    store: Store<P>,
) -> CarriedOut<P>
    requires running { store.stopped ≡ false }
    ensures answered { (talk : Conversed (S.content source.old) (S.content source.new) (K.content sink.old) (K.content sink.new)
        result.status) × RanScript P.outside P.crash_states talk.conversation result.status store result.platform }
    ensures ended { (end : ScriptEnd) × (result.status ≡ status_of_end end) }
    ensures faults { TellsFaults (S.content source.old) (S.content source.new) (K.content sink.old) (K.content sink.new)
        (P.outside store.platform) (P.outside result.platform) result.status }
    ensures calls { Calls P.outside P.crash_states store.secret store.platform result.platform }
{
    let mut notes = Notes::new(store);
    let end = serve_notes(alloc, source, sink, &mut notes);
    let Notes { store, .. } = notes;
    CarriedOut {
        platform: store.close(),
        status: status_of(end),
    }
}

// How a run ends whose script ended so.
fn status_of(end: ScriptEnd) -> Status
    ensures { result ≡ status_of_end end }
{
    match end {
        ScriptEnd::Bye => Status::Done(Success::Script),
        ScriptEnd::End => Status::End,
        ScriptEnd::SourceFault => Status::SourceFault,
        ScriptEnd::SinkFault => Status::SinkFault,
        ScriptEnd::PlatformFault => Status::PlatformFault,
        ScriptEnd::Memory => Status::Memory,
    }
}
