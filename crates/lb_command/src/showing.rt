//! A run that writes the values of one trace.

ghost use Rattle.std.specs.Prelude.{◌≡◌, ◌≢◌, ◌<◌, IfErr, IfOk, map, string_bytes};
ghost use Rattle.lb_command.specs.Outcomes as spec;
ghost use Rattle.lb_command.specs.Showing.{AreAsked, IsFaultTold, IsShowing, IsShowingOn};
ghost use Rattle.lb_command.specs.Showing.{IsShowingRun};
ghost use Rattle.lb_command.specs.Streams.{change, input};
ghost use Rattle.lb_command.specs.Warnings.{AreWarnings};

use crate::delivery::warn;
use crate::explanation::{tell, warnings_of};
use crate::loading::{Loaded, load_open, load_texts};
use crate::refusal::{Refusal, Texts};
use lb_report::{Feed, FollowError, Sink};
use lb_values::{Selection, ShowOptions, ValuesFault, show_values};
use lb_words::{Task, Values};
use std::alloc::{AllocError, Global};
use std::fs::Files;
use std::os::unix::fs::FileExt;

/// The fault of values that did not go out whole.
#[derive(Drop)]
pub enum ShowingFault {
    /// An input could not be read, the texts are refused, or nothing has a name that is asked for.
    /// No byte went out.
    Refused(Refusal),
    /// The run stopped after the first bytes.
    Stopped(FollowError),
}

/// The names in a list that commas separate, as `open,level`; empty where there is no list.
fn listed<'a>(alloc: Global, names: Option<&'a str>) -> Result<Vec<&'a str>, AllocError> {
    let mut listed = Vec::new(alloc);
    if let Some(names) = names {
        for name in names.split(',') {
            listed.push(name)?;
        }
    }
    Ok(listed)
}

/// The options for the values that are shown; `names` are the variables that are listed.
fn asked<'a>(values: &Values<'a>, names: &'a [&'a str]) -> ShowOptions<'a>
    ensures { AreAsked values.now result }
{
    let selection = if !names.is_empty() {
        Selection::Named(names)
    } else if values.is_whole {
        Selection::All
    } else {
        Selection::Starts
    };
    ShowOptions {
        trace: values.trace,
        format: values.format,
        selection,
        last: if values.last == 0 {
            None
        } else {
            Some(values.last)
        },
    }
}

/// The fault of a run, for the cause that the values of some texts are not shown.
fn fault_of(
    alloc: Global,
    values: &Values<'_>,
    names: &[&str],
    cause: ValuesFault,
    texts: Texts,
) -> ShowingFault
    ensures { IsFaultTold cause result }
{
    match cause {
        ValuesFault::Refused(error) => ShowingFault::Refused(Refusal::of_texts(error, texts)),
        ValuesFault::UnknownTrace => {
            ShowingFault::Refused(Refusal::unknown(alloc, true, values.trace))
        }
        ValuesFault::UnknownVariable(place) => {
            let name = names.get(place).copied().unwrap_or("");
            ShowingFault::Refused(Refusal::unknown(alloc, false, name))
        }
        ValuesFault::Stopped(cause) => ShowingFault::Stopped(cause),
    }
}

/// Writes the values of some texts, and returns the warnings.
fn show_texts<W: Sink>(
    alloc: Global,
    words: &[String],
    task: &Task<'_>,
    texts: Texts,
    writer: &mut W,
) -> Result<Vec<u8>, ShowingFault>
    requires { W.failures writer.old < u64.MAX }
    ensures shown { IsShowing (spec.source_in texts) (spec.traces_in texts) task.now
        (change (W.taken writer.old) (W.taken writer.new)
        (W.failures writer.old) (W.failures writer.new)) result }
    ensures warned { IfOk result (λ warnings.
        AreWarnings (map string_bytes words.now) task.now.options warnings.items) }
{
    let Ok(names) = listed(alloc, task.values.names) else {
        return Err(ShowingFault::Refused(Refusal::MEMORY));
    };
    let asked = asked(&task.values, names.as_slice());
    let (source, traces) = texts.parts();
    match show_values(alloc, source, traces, &task.options, &asked, writer) {
        Ok(()) => Ok(warnings_of(alloc, words, task, source)),
        Err(cause) => Err(fault_of(alloc, &task.values, names.as_slice(), cause, texts)),
    }
}

/// The texts of a task.
fn load_both<R, F>(rt: &R, task: &Task<'_>, reader: &mut F) -> Result<Texts, Refusal>
where
    R: Files + AllocGlobal,
    R::File: FileExt,
    F: Feed,
    requires { F.failures reader.old < u64.MAX }
    ensures ok { IfOk result (λ texts. spec.AreTexts task.now (F.coming reader.old)
        (spec.source_in texts) (spec.traces_in texts)) }
    ensures err { IfErr result spec.IsUnread }
    ensures read { spec.HasRead (spec.HasPath task.now)
        (input (F.coming reader.old) (F.given reader.old) (F.given reader.new)
        (F.failures reader.old) (F.failures reader.new)) result }
{
    match load_texts(rt, task, reader) {
        Ok(loaded) => match loaded {
            Loaded::Texts(texts) => Ok(texts),
            Loaded::Open {
                source,
                path,
                mut file,
            } => {
                match load_open(rt.alloc(), path, &mut file) {
                    Ok(traces) => Ok(Texts::Two { source, traces }),
                    Err(refusal) => Err(refusal),
                }
            }
        },
        Err(refusal) => Err(refusal),
    }
}

/// Writes the values of a task, and returns the warnings.
fn show_task<R, F, W>(
    rt: &R,
    words: &[String],
    task: &Task<'_>,
    reader: &mut F,
    writer: &mut W,
) -> Result<Vec<u8>, ShowingFault>
where
    R: Files + AllocGlobal,
    R::File: FileExt,
    F: Feed,
    W: Sink,
    requires reader { F.failures reader.old < u64.MAX }
    requires writer { W.failures writer.old < u64.MAX }
    ensures shown { IsShowingOn task.now
        (input (F.coming reader.old) (F.given reader.old) (F.given reader.new)
        (F.failures reader.old) (F.failures reader.new))
        (change (W.taken writer.old) (W.taken writer.new)
        (W.failures writer.old) (W.failures writer.new)) result }
    ensures warned { IfOk result (λ warnings.
        AreWarnings (map string_bytes words.now) task.now.options warnings.items) }
{
    match load_both(rt, task, reader) {
        Ok(texts) => show_texts(rt.alloc(), words, task, texts, writer),
        Err(refusal) => Err(ShowingFault::Refused(refusal)),
    }
}

/// Runs a task that asks for the values of one trace, and returns the exit status: 0 where they
/// went out.
pub fn run_showing<R, F, W, E>(
    rt: &R,
    words: &[String],
    task: &Task<'_>,
    reader: &mut F,
    writer: &mut W,
    errors: &mut E,
) -> u8
where
    R: Files + AllocGlobal,
    R::File: FileExt,
    F: Feed,
    W: Sink,
    E: Sink,
    requires reader { F.failures reader.old < u64.MAX }
    requires writer { W.failures writer.old < u64.MAX }
    requires errors { E.failures errors.old < u64.MAX }
    ensures { IsShowingRun (map string_bytes words.now) task.now
        (input (F.coming reader.old) (F.given reader.old) (F.given reader.new)
        (F.failures reader.old) (F.failures reader.new)) result
        (change (W.taken writer.old) (W.taken writer.new)
        (W.failures writer.old) (W.failures writer.new))
        (change (E.taken errors.old) (E.taken errors.new)
        (E.failures errors.old) (E.failures errors.new)) }
{
    match show_task(rt, words, task, reader, writer) {
        Ok(warnings) => {
            warn(errors, warnings.as_slice());
            0
        }
        Err(fault) => match fault {
            ShowingFault::Refused(refusal) => tell(rt, words, Some(task), &refusal, errors),
            ShowingFault::Stopped(cause) => tell(
                rt,
                words,
                Some(task),
                &Refusal::from(cause),
                errors,
            ),
        },
    }
}
