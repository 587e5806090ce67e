// One turn over the lines of a script.
ghost use Rattle.std.specs.Prelude.{◌≡◌, ◌≤◌, ◌++◌, ℕ, List, IsTrue, IfOk, IfErr, OnOk};
ghost use Rattle.tdb_script.specs.ReplySpelling.{reply_spelling};
ghost use Rattle.tdb_serve.specs.Faults.{Keeps};
ghost use Rattle.tdb_serve.specs.OneLine.{HasReplied, Interrupted};
ghost use Rattle.tdb_serve.specs.PutReply.{IsPutFor};
ghost use Rattle.tdb_serve.specs.Taking.{IsTakenAs};

use crate::answers::Answers;
use crate::script_end::{Halt, NotPut, Stop};
use crate::script_lines::{Next, ScriptLines};
use std::alloc::Global;
use tdb_script::{Reply, write_reply};
use tdb_stream::{Failed, Sink, Source};

// Answers a line that was taken.
fn answer_taken<A: Answers>(
    alloc: Global,
    answers: &mut A,
    lines: &ScriptLines,
    next: Next,
) -> Result<Reply, Stop>
    requires { A.ready answers.old }
    ensures answered { (line : List ℕ) → IsTakenAs next lines.now line
        → IfOk result (λ reply. A.answered answers.old line reply answers.new) }
    ensures unanswered { (line : List ℕ) → IsTakenAs next lines.now line
        → IfErr result (λ stop. A.unanswered answers.old line stop answers.new) }
    ensures ready { OnOk result (A.ready answers.new) }
{
    match next {
        Next::TooLong => Ok(answers.pass_over()),
        _ => answers.answer(alloc, lines.line()),
    }
}

// Puts a reply, whole and at once. It is written in the string before.
fn put_reply<K: Sink>(sink: &mut K, reply: &Reply, text: &mut String) -> Result<(), NotPut>
    ensures ok { IsTrue (K.content sink.old).tells → OnOk result
        ((K.content sink.new).held ≡ (K.content sink.old).held ++ reply_spelling reply.now) }
    ensures quiet { OnOk result ((K.content sink.new).faults ≡ (K.content sink.old).faults) }
    ensures stopped { IfErr result (λ why. IsPutFor (reply_spelling reply.now) (K.content sink.old) (K.content sink.new) why) }
    ensures tells { (K.content sink.new).tells ≡ (K.content sink.old).tells }
    ensures no_fewer { (K.content sink.old).faults ≤ (K.content sink.new).faults }
{
    let Ok(()) = write_reply(reply, text) else {
        return Err(NotPut::NoMemory);
    };
    match sink.put(text.as_bytes()) {
        Ok(()) => Ok(()),
        Err(Failed) => Err(NotPut::SinkFailed),
    }
}

/// Has the next line answered and puts the reply, which is written in the string. Or it says what ends the script.
pub(crate) fn answer_one<S: Source, K: Sink, A: Answers>(
    alloc: Global,
    source: &mut S,
    sink: &mut K,
    answers: &mut A,
    lines: &mut ScriptLines,
    text: &mut String,
) -> Result<Reply, Halt>
    requires { A.ready answers.old }
    ensures replied { IfOk result (λ reply. HasReplied A.answered (S.content source.old) (S.content source.new) (K.content sink.old)
        (K.content sink.new)
        (record { lines = lines.old; answers = answers.old }) (record { lines = lines.new; answers = answers.new }) reply) }
    ensures stopped { IfErr result (λ halt. Interrupted A.answered A.unanswered (S.content source.old) (S.content source.new)
        (K.content sink.old) (K.content sink.new)
        (record { lines = lines.old; answers = answers.old }) (record { lines = lines.new; answers = answers.new }) halt) }
    ensures ready { OnOk result (A.ready answers.new) }
    ensures keeps { Keeps (S.content source.old) (S.content source.new) (K.content sink.old) (K.content sink.new) }
{
    let next = match lines.next(source) {
        Ok(next) => next,
        Err(why) => return Err(Halt::Out(why)),
    };
    let reply = match answer_taken(alloc, answers, lines, next) {
        Ok(reply) => reply,
        Err(stop) => return Err(Halt::Stopped(stop)),
    };
    match put_reply(sink, &reply, text) {
        Ok(()) => Ok(reply),
        Err(why) => Err(Halt::Cut(why)),
    }
}
