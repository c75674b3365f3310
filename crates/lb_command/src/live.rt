//! A run whose report is written line by line.

ghost use Rattle.std.specs.Prelude.{◌<◌, IfOk, map, string_bytes};
ghost use Rattle.lb_command.specs.Outcomes as spec;
ghost use Rattle.lb_command.specs.Live.{IsLive, IsLiveOn, IsLiveRun};
ghost use Rattle.lb_command.specs.Streams.{Input, NeverFailed, change, input};
ghost use Rattle.lb_command.specs.Warnings.{AreWarnings};

use crate::delivery::warn;
use crate::explanation::{tell, warnings_of};
use crate::loading::{Loaded, load_open, load_texts};
use crate::refusal::{Refusal, Texts};
use lb_report::{Feed, FilePlaces, FollowError, FollowFault, NoGate, Sink, follow, follow_file};
use lb_words::Task;
use std::fs::Files;
use std::io::Read;
use std::os::unix::fs::FileExt;
use std::sync::Wait;
use std::thread::Threads;
use std::time::Clock;

/// The fault of a live report that did not go out whole.
#[derive(Drop)]
pub enum LiveFault {
    /// An input could not be read, or the texts are refused. No byte went out.
    Refused(Refusal),
    /// The run stopped after the first bytes.
    Stopped(FollowError),
}

/// Writes the report on some texts, and returns the warnings.
fn follow_texts<R, W>(
    rt: &R,
    words: &[String],
    task: &Task<'_>,
    texts: Texts,
    writer: &mut W,
) -> Result<Vec<u8>, LiveFault>
where
    R: AllocGlobal + Threads + Wait + Clock + Sync,
    W: Sink,
    requires workers { 0 < task.now.options.workers }
    requires failures { W.failures writer.old < u64.MAX }
    ensures live { IsLive (spec.source_in texts) (spec.traces_in texts) task.now.options
        (change (W.taken writer.old) (W.taken writer.new)
        (W.failures writer.old) (W.failures writer.new)) result }
    ensures warned { IfOk result (λ warnings.
        AreWarnings (map string_bytes words.now) task.now.options warnings.items) }
{
    let (source, traces) = texts.parts();
    match follow(rt, source, traces, &task.options, &NoGate, writer) {
        Ok(()) => Ok(warnings_of(rt.alloc(), words, task, source)),
        Err(fault) => match fault {
            FollowFault::Refused(cause) => {
                Err(LiveFault::Refused(Refusal::of_texts(cause, texts)))
            }
            FollowFault::Stopped(cause) => Err(LiveFault::Stopped(cause)),
        },
    }
}

/// Writes the report on a source and an open file of traces, which is loaded as a whole.
fn follow_loaded<R, F, W>(
    rt: &R,
    words: &[String],
    task: &Task<'_>,
    source: Vec<u8>,
    path: &str,
    file: &mut F,
    writer: &mut W,
) -> Result<Vec<u8>, LiveFault>
where
    R: AllocGlobal + Threads + Wait + Clock + Sync,
    F: Read,
    W: Sink,
    requires workers { 0 < task.now.options.workers }
    requires failures { W.failures writer.old < u64.MAX }
    ensures live { (i : Input) → NeverFailed i →
        IsLiveOn (λ _ _. Unit {0}) (Unit {0}) task.now.options i
        (change (W.taken writer.old) (W.taken writer.new)
        (W.failures writer.old) (W.failures writer.new)) result }
    ensures warned { IfOk result (λ warnings.
        AreWarnings (map string_bytes words.now) task.now.options warnings.items) }
{
    match load_open(rt.alloc(), path, file) {
        Ok(traces) => follow_texts(rt, words, task, Texts::Two { source, traces }, writer),
        Err(refusal) => Err(LiveFault::Refused(refusal)),
    }
}

/// Writes the report on a source and a file of traces that is open.
fn follow_open<R, W>(
    rt: &R,
    words: &[String],
    task: &Task<'_>,
    source: Vec<u8>,
    path: &str,
    mut file: R::File,
    writer: &mut W,
) -> Result<Vec<u8>, LiveFault>
where
    R: Files + AllocGlobal + Threads + Wait + Clock + Sync,
    R::File: FileExt + Sync,
    W: Sink,
    requires workers { 0 < task.now.options.workers }
    requires failures { W.failures writer.old < u64.MAX }
    ensures live { (i : Input) → NeverFailed i →
        IsLiveOn (λ _ _. Unit {0}) (Unit {0}) task.now.options i
        (change (W.taken writer.old) (W.taken writer.new)
        (W.failures writer.old) (W.failures writer.new)) result }
    ensures warned { IfOk result (λ warnings.
        AreWarnings (map string_bytes words.now) task.now.options warnings.items) }
{
    let (places, options) = (FilePlaces::new(&file), &task.options);
    match follow_file(rt, source.as_slice(), &places, options, &NoGate, writer) {
        Some(run) => match run {
            Ok(()) => Ok(warnings_of(rt.alloc(), words, task, source.as_slice())),
            Err(cause) => Err(LiveFault::Stopped(cause)),
        },
        None => follow_loaded(rt, words, task, source, path, &mut file, writer),
    }
}

/// Writes the report of a task, and returns the warnings.
fn follow_task<R, F, W>(
    rt: &R,
    words: &[String],
    task: &Task<'_>,
    reader: &mut F,
    writer: &mut W,
) -> Result<Vec<u8>, LiveFault>
where
    R: Files + AllocGlobal + Threads + Wait + Clock + Sync,
    R::File: FileExt + Sync,
    F: Feed,
    W: Sink,
    requires workers { 0 < task.now.options.workers }
    requires reader { F.failures reader.old < u64.MAX }
    requires writer { W.failures writer.old < u64.MAX }
    ensures live { IsLiveOn (spec.AreTexts task.now (F.coming reader.old))
        (spec.HasPath task.now) task.now.options
        (input (F.coming reader.old) (F.given reader.old) (F.given reader.new)
        (F.failures reader.old) (F.failures reader.new))
        (change (W.taken writer.old) (W.taken writer.new)
        (W.failures writer.old) (W.failures writer.new)) result }
    ensures warned { IfOk result (λ warnings.
        AreWarnings (map string_bytes words.now) task.now.options warnings.items) }
{
    match load_texts(rt, task, reader) {
        Ok(loaded) => match loaded {
            Loaded::Texts(texts) => follow_texts(rt, words, task, texts, writer),
            Loaded::Open { source, path, file } => {
                follow_open(rt, words, task, source, path, file, writer)
            }
        },
        Err(refusal) => Err(LiveFault::Refused(refusal)),
    }
}

/// Runs a task whose report is written line by line, and returns the exit status: 0 where the whole
/// report went out.
pub fn run_live<R, F, W, E>(
    rt: &R,
    words: &[String],
    task: &Task<'_>,
    reader: &mut F,
    writer: &mut W,
    errors: &mut E,
) -> u8
where
    R: Files + AllocGlobal + Threads + Wait + Clock + Sync,
    R::File: FileExt + Sync,
    F: Feed,
    W: Sink,
    E: Sink,
    requires workers { 0 < task.now.options.workers }
    requires reader { F.failures reader.old < u64.MAX }
    requires writer { W.failures writer.old < u64.MAX }
    requires errors { E.failures errors.old < u64.MAX }
    ensures { IsLiveRun (map string_bytes words.now) task.now
        (input (F.coming reader.old) (F.given reader.old) (F.given reader.new)
        (F.failures reader.old) (F.failures reader.new)) result
        (change (W.taken writer.old) (W.taken writer.new)
        (W.failures writer.old) (W.failures writer.new))
        (change (E.taken errors.old) (E.taken errors.new)
        (E.failures errors.old) (E.failures errors.new)) }
{
    match follow_task(rt, words, task, reader, writer) {
        Ok(warnings) => {
            warn(errors, warnings.as_slice());
            0
        }
        Err(fault) => match fault {
            LiveFault::Refused(refusal) => tell(rt, words, Some(task), &refusal, errors),
            LiveFault::Stopped(cause) => tell(rt, words, Some(task), &Refusal::from(cause), errors),
        },
    }
}
