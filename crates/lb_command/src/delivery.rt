//! The delivery of an answer.

ghost use Rattle.std.specs.Prelude.{◌≡◌, ◌+◌, ◌<◌, ◌≤◌, IfErr, OnErr, OnOk, length};
ghost use Rattle.std.specs.Prelude.{map, string_bytes, take};
ghost use Rattle.lb_output.specs.Taken.{Takes};
ghost use Rattle.lb_command.specs.Outcomes as spec;
ghost use Rattle.lb_command.specs.Streams.{change};
ghost use Rattle.lb_command.specs.Warnings.{IsWarned};

use crate::answer::Answer;
use crate::explanation::tell;
use crate::refusal::Refusal;
use lb_report::{Sent, Sink, send};
use std::fs::Files;
use std::os::unix::fs::FileExt;

/// Writes a text to its end, and flushes the sink.
fn put<S: Sink>(sink: &mut S, text: &[u8]) -> Result<(), Sent>
    requires { S.failures sink.old < u64.MAX }
    ensures same { (S.taken sink.new).writer ≡ (S.taken sink.old).writer }
    ensures all { OnOk result (Takes (S.taken sink.old) (S.taken sink.new) text.now) }
    ensures ok { OnOk result (S.failures sink.new ≡ S.failures sink.old) }
    ensures failed { OnErr result (S.failures sink.old < S.failures sink.new) }
    ensures within { IfErr result (λ sent. sent.count ≤ length text.now) }
    ensures first { IfErr result (λ sent.
        Takes (S.taken sink.old) (S.taken sink.new) (take sent.count text.now)) }
{
    send(sink, text)?;
    match sink.flush() {
        Ok(()) => Ok(()),
        Err(_) => Err(Sent { count: text.len() }),
    }
}

/// Writes warnings to standard error. Where that fails nothing else changes.
pub fn warn<E: Sink>(errors: &mut E, warnings: &[u8])
    requires { E.failures errors.old < u64.MAX }
    ensures warned { IsWarned (change (E.taken errors.old) (E.taken errors.new)
        (E.failures errors.old) (E.failures errors.new)) warnings.now }
    ensures failures { E.failures errors.new ≤ E.failures errors.old + 1 }
{
    let _ = send(errors, warnings);
}

/// Writes an answer and then the warnings, and returns the exit status.
pub fn deliver<R, W, E>(
    rt: &R,
    words: &[String],
    answer: &Answer,
    warnings: &[u8],
    writer: &mut W,
    errors: &mut E,
) -> u8
where
    R: Files + AllocGlobal,
    R::File: FileExt,
    W: Sink,
    E: Sink,
    requires writer { W.failures writer.old < u64.MAX }
    requires errors { E.failures errors.old < u64.MAX }
    ensures { spec.IsDelivered (map string_bytes words.now) answer.now warnings.now result
        (change (W.taken writer.old) (W.taken writer.new)
        (W.failures writer.old) (W.failures writer.new))
        (change (E.taken errors.old) (E.taken errors.new)
        (E.failures errors.old) (E.failures errors.new)) }
{
    match put(writer, answer.text()) {
        Ok(()) => {
            warn(errors, warnings);
            answer.status()
        }
        Err(sent) => {
            let refusal = Refusal::unsent(sent.count, Some(answer.text().len()));
            tell(rt, words, None, &refusal, errors)
        }
    }
}
