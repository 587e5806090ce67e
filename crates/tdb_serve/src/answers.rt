// A machine that answers lines.
ghost use Rattle.std.specs.Prelude.{◌<◌, ℕ, List, length, IfOk, IfErr, OnOk};
ghost use Rattle.tdb_script.specs.declared.line.TheConstants.{MAX_LINE_LENGTH};
ghost use Rattle.tdb_script.specs.declared.reply.Reply.{Reply};
ghost use Rattle.tdb_serve.specs.declared.script_end.Stop.{Stop};

use crate::Stop;
use std::alloc::Global;
use tdb_script::Reply;

/// Answers lines, one after another. What an answer means, two relations between its values tell.
pub trait Answers {
    /// Whether it can be asked. One that gave no answer may not be.
    ghost ready: { Self → Type 0 };

    /// This line got this reply, from one value to another.
    ghost answered: { Self → List ℕ → Reply → Self → Type 0 };

    /// This line got no reply, from one value to another.
    ghost unanswered: { Self → List ℕ → Stop → Self → Type 0 };

    /// Answers a line's bytes, which are given without their line feed.
    fn answer(&mut self, alloc: Global, line: &[u8]) -> Result<Reply, Stop>
        requires { ready self.old }
        ensures answered { IfOk result (λ reply. answered self.old line.now reply self.new) }
        ensures unanswered { IfErr result (λ stop. unanswered self.old line.now stop self.new) }
        ensures ready { OnOk result (ready self.new) };

    /// Answers a line that is too long to be kept.
    fn pass_over(&mut self) -> Reply
        requires { ready self.old }
        ensures answered { (line : List ℕ) → MAX_LINE_LENGTH < length line → answered self.old line result self.new }
        ensures ready { ready self.new };
}
