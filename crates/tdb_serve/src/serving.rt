// The loop over the lines of a script.
ghost use Rattle.std.specs.Prelude.{◌≡◌, ◌↔◌, IsTrue, []};
ghost use Rattle.tdb_serve.specs.Faults.{Keeps, TellsStreamFaults};
ghost use Rattle.tdb_serve.specs.Served.{Served};
ghost use Rattle.tdb_serve.specs.Unread.{unread};

use crate::answering::answer_one;
use crate::answers::Answers;
use crate::script_end::{ScriptEnd, end_at};
use crate::script_lines::ScriptLines;
use std::alloc::Global;
use tdb_script::Reply;
use tdb_stream::{Sink, Source};

// Whether a reply is the last of a script.
fn is_last(reply: &Reply) -> bool
    ensures { IsTrue result ↔ (reply.now ≡ Reply.Bye) }
{
    matches!(reply, Reply::Bye)
}

// Has the lines that are left answered, up to one that is answered `bye`.
fn serve_lines<S: Source, K: Sink, A: Answers>(
    alloc: Global,
    source: &mut S,
    sink: &mut K,
    answers: &mut A,
    lines: &mut ScriptLines,
) -> ScriptEnd
    requires ready { A.ready answers.old }
    requires none { unread lines.old ≡ [] }
    requires zero { lines.old.taken ≡ 0 }
    ensures served { Served A.answered A.unanswered (S.content source.old) (S.content source.new) (K.content sink.old)
        (K.content sink.new) answers.old answers.new result }
    ensures faults { TellsStreamFaults (S.content source.old) (S.content source.new) (K.content sink.old) (K.content sink.new) result }
    ensures keeps { Keeps (S.content source.old) (S.content source.new) (K.content sink.old) (K.content sink.new) }
{
    let mut text = String::new(alloc);
    'answering: loop {
        match answer_one(alloc, source, sink, answers, lines, &mut text) {
            Ok(reply) => {
                if is_last(&reply) {
                    return ScriptEnd::Bye;
                }
            }
            Err(halt) => return end_at(halt),
        }
    }
}

/// Has the lines of a script answered, one after another, up to one that is answered `bye`, and puts the replies.
///
/// Each reply is put whole, before the next line is asked for. Behind `bye` nothing is taken.
pub fn serve<S: Source, K: Sink, A: Answers>(
    alloc: Global,
    source: &mut S,
    sink: &mut K,
    answers: &mut A,
) -> ScriptEnd
    requires { A.ready answers.old }
    ensures served { Served A.answered A.unanswered (S.content source.old) (S.content source.new) (K.content sink.old)
        (K.content sink.new) answers.old answers.new result }
    ensures faults { TellsStreamFaults (S.content source.old) (S.content source.new) (K.content sink.old) (K.content sink.new) result }
    ensures keeps { Keeps (S.content source.old) (S.content source.new) (K.content sink.old) (K.content sink.new) }
{
    let Ok(mut lines) = ScriptLines::new(alloc) else {
        return ScriptEnd::Memory;
    };
    serve_lines(alloc, source, sink, answers, &mut lines)
}
