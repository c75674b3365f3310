//! A run that judges the source alone.

ghost use Rattle.std.specs.Prelude.{◌≡◌, ◌≢◌, ◌<◌, IfErr, IfOk, map, string_bytes};
ghost use Rattle.lb_static.specs.Signature.{names_of};
ghost use Rattle.lb_command.specs.Judging as spec;
ghost use Rattle.lb_command.specs.Outcomes.{HasPath, HasRead, source_in};
ghost use Rattle.lb_command.specs.Streams.{change, input};
ghost use Rattle.lb_command.specs.Warnings.{AreWarnings};

use crate::answer::{Answer, Warned};
use crate::delivery::deliver;
use crate::explanation::{tell, warnings_of};
use crate::loading::load_source;
use crate::refusal::{Refusal, Texts};
use lb_report::{Feed, Sink, judge};
use lb_static::Signature;
use lb_words::{Aim, Task};
use std::alloc::{AllocError, Global};
use std::fs::Files;
use std::os::unix::fs::FileExt;

/// The header of traces of these scalar inputs: `trace`, then the name of each, in order.
fn header_of(alloc: Global, inputs: &Signature) -> Result<Vec<u8>, AllocError>
    ensures { IfOk result (λ text. text.items ≡ spec.header (names_of inputs.now)) }
{
    let mut text = b"trace".to_vec(alloc)?;
    for i in 0..inputs.len() {
        text.push(b',')?;
        text.extend_from_slice(inputs.name(i).as_bytes())?;
    }
    text.push(b'\n')?;
    Ok(text)
}

/// The output for an accepted source with these scalar inputs.
fn answer_of(alloc: Global, aim: Aim, inputs: &Signature) -> Result<Vec<u8>, AllocError>
    ensures { IfOk result (λ text. text.items ≡ spec.answer_of aim (names_of inputs.now)) }
{
    match aim {
        Aim::Header => header_of(alloc, inputs),
        _ => Ok(Vec::new(alloc)),
    }
}

/// The output for the source in some texts.
fn judge_texts(
    alloc: Global,
    words: &[String],
    task: &Task<'_>,
    texts: Texts,
) -> Result<Warned<Vec<u8>>, Refusal>
    ensures ok { IfOk result (λ found.
        spec.IsAnswer task.now (source_in texts) found.value.items) }
    ensures err { IfErr result (spec.IsRefused task.now (source_in texts)) }
    ensures not_read { IfErr result (λ refusal. refusal.number ≢ 21) }
    ensures warned { IfOk result (λ found.
        AreWarnings (map string_bytes words.now) task.now.options found.warnings.items) }
{
    let (source, _traces) = texts.parts();
    match judge(alloc, source, &task.options) {
        Ok(inputs) => {
            let value = answer_of(alloc, task.aim, &inputs)?;
            let warnings = warnings_of(alloc, words, task, source);
            Ok(Warned { value, warnings })
        }
        Err(error) => Err(Refusal::of_texts(error, texts)),
    }
}

/// The output for the source of a task.
fn judge_source<R, F>(
    rt: &R,
    words: &[String],
    task: &Task<'_>,
    reader: &mut F,
) -> Result<Warned<Vec<u8>>, Refusal>
where
    R: Files + AllocGlobal,
    F: Feed,
    requires { F.failures reader.old < u64.MAX }
    ensures outcome { spec.IsOutcome task.now (F.coming reader.old) result }
    ensures read { HasRead (HasPath task.now)
        (input (F.coming reader.old) (F.given reader.old) (F.given reader.new)
        (F.failures reader.old) (F.failures reader.new)) result }
    ensures warned { IfOk result (λ found.
        AreWarnings (map string_bytes words.now) task.now.options found.warnings.items) }
{
    let texts = load_source(rt, task, reader)?;
    judge_texts(rt.alloc(), words, task, texts)
}

/// Runs a task that asks about the source alone, and returns the exit status: 0 where the source is
/// accepted.
pub fn run_judging<R, F, W, E>(
    rt: &R,
    words: &[String],
    task: &Task<'_>,
    reader: &mut F,
    writer: &mut W,
    errors: &mut E,
) -> u8
where
    R: Files + AllocGlobal,
    R::File: FileExt,
    F: Feed,
    W: Sink,
    E: Sink,
    requires reader { F.failures reader.old < u64.MAX }
    requires writer { W.failures writer.old < u64.MAX }
    requires errors { E.failures errors.old < u64.MAX }
    ensures { spec.IsJudgingRun (map string_bytes words.now) task.now
        (input (F.coming reader.old) (F.given reader.old) (F.given reader.new)
        (F.failures reader.old) (F.failures reader.new)) result
        (change (W.taken writer.old) (W.taken writer.new)
        (W.failures writer.old) (W.failures writer.new))
        (change (E.taken errors.old) (E.taken errors.new)
        (E.failures errors.old) (E.failures errors.new)) }
{
    match judge_source(rt, words, task, reader) {
        Ok(found) => {
            let Warned { value, warnings } = found;
            let answer = Answer::OfSource(value);
            deliver(rt, words, &answer, warnings.as_slice(), writer, errors)
        }
        Err(refusal) => tell(rt, words, Some(task), &refusal, errors),
    }
}
