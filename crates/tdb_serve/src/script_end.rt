// How a line, a turn and a script end.
ghost use Rattle.std.specs.Prelude.{◌≡◌};
ghost use Rattle.tdb_serve.specs.Ends.{end_of};

use thiserror::Error;

/// Why a machine gave no answer to a line.
#[derive(Clone, Copy, Debug, PartialEq, Eq, Error)]
pub enum Stop {
    /// A call of the platform failed.
    #[error("a call of the platform failed")]
    PlatformFault,
    /// No memory was left.
    #[error("no memory was left")]
    Memory,
}

/// How a script ended.
#[derive(Clone, Copy, Debug, PartialEq, Eq)]
pub enum ScriptEnd {
    /// A line was answered `bye`.
    Bye,
    /// The source had no further line, or as much was taken as a script takes.
    End,
    /// A call of the source failed.
    SourceFault,
    /// A call of the sink failed.
    SinkFault,
    /// A call of the platform failed.
    PlatformFault,
    /// No memory was left.
    Memory,
}

/// Why there is no next line.
#[derive(Clone, Copy, Debug, PartialEq, Eq)]
pub(crate) enum NoLine {
    /// The source has no more, or enough was taken.
    NoMore,
    /// A call of the source failed.
    SourceFailed,
}

/// Why a reply wasn't put whole.
#[derive(Clone, Copy, Debug, PartialEq, Eq)]
pub(crate) enum NotPut {
    /// No memory was left to spell it.
    NoMemory,
    /// A call of the sink failed.
    SinkFailed,
}

/// What ends a script at a turn.
#[derive(Clone, Copy, Debug, PartialEq, Eq)]
pub(crate) enum Halt {
    /// There is no next line.
    Out(NoLine),
    /// The next line isn't answered.
    Stopped(Stop),
    /// Its reply isn't put whole.
    Cut(NotPut),
}

/// How a script ends that halts so.
pub(crate) fn end_at(halt: Halt) -> ScriptEnd
    ensures { result ≡ end_of halt }
{
    match halt {
        Halt::Out(NoLine::NoMore) => ScriptEnd::End,
        Halt::Out(NoLine::SourceFailed) => ScriptEnd::SourceFault,
        Halt::Stopped(Stop::PlatformFault) => ScriptEnd::PlatformFault,
        Halt::Stopped(Stop::Memory) => ScriptEnd::Memory,
        Halt::Cut(NotPut::NoMemory) => ScriptEnd::Memory,
        Halt::Cut(NotPut::SinkFailed) => ScriptEnd::SinkFault,
    }
}
