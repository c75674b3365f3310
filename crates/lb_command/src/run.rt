//! A run of the program, on any streams.

ghost use Rattle.std.specs.Prelude.{◌≡◌, ◌≢◌, ◌<◌, ◌⊎◌, ◌++◌, ℕ, List, [], IfErr, IfOk, IfSome};
ghost use Rattle.std.specs.Prelude.{IsSome, None, Some, map, string_bytes};
ghost use Rattle.lb_listing.specs.Listings.{Line, Lists};
ghost use Rattle.lb_words.specs.declared.request.Aim.TheVariants.{LiveReport};
ghost use Rattle.lb_command.specs.Conclusions.{IsBaseline, IsConcluded};
ghost use Rattle.lb_command.specs.Correct.{IsRun, IsTaskRun, IsToldOutcome, IsWholeRun};
ghost use Rattle.lb_command.specs.Outcomes as spec;
ghost use Rattle.lb_command.specs.Streams.{change, input};
ghost use Rattle.lb_command.specs.Warnings.{AreRemarks};

use crate::answer::{Answer, Warned};
use crate::conclusion::{conclude, load_baseline, read_baseline};
use crate::delivery::deliver;
use crate::explanation::{remarks_of, tell};
use crate::judging::run_judging;
use crate::live::run_live;
use crate::loading::{Loaded, load_file, load_open, load_texts};
use crate::merging::run_merge;
use crate::refusal::{Refusal, Texts};
use crate::showing::run_showing;
use lb_listing::Listing;
use lb_report::{
    Feed, FeedFault, FilePlaces, Reader, Report, Sink, Sizes, bench, bench_feed, bench_ranges,
};
use lb_words::{Aim, Request, Task, asks_to_explain, read_words};
use std::alloc::{AllocError, Global};
use std::fs::Files;
use std::os::unix::fs::FileExt;
use std::sync::Wait;
use std::thread::Threads;
use std::time::Clock;

/// The report on some texts.
fn report_on<R>(
    rt: &R,
    words: &[String],
    task: &Task<'_>,
    texts: Texts,
) -> Result<Warned<Report>, Refusal>
where
    R: AllocGlobal + Threads + Sync,
    ensures outcome { spec.IsOutcomeOn (spec.AreIn texts) task.now.options result }
    ensures not_read { IfErr result (λ refusal. refusal.number ≢ 21) }
    ensures warned { IfOk result (λ found.
        AreRemarks (map string_bytes words.now) task.now.options found.warnings.items) }
{
    let (source, traces) = texts.parts();
    match bench(rt, source, traces, &task.options) {
        Ok(value) => {
            let warnings = remarks_of(rt.alloc(), words, task, (source, traces), &value);
            Ok(Warned { value, warnings })
        }
        Err(cause) => Err(Refusal::of_texts(cause, texts)),
    }
}

/// The report that the bench found on a source and the traces of a feed, where the words ask for no
/// explanations: there are no remarks beside it.
fn reported(
    alloc: Global,
    source: Vec<u8>,
    found: Result<Report, FeedFault>,
) -> Result<Warned<Report>, Refusal>
    ensures outcome { spec.IsReported found result }
    ensures warned { IfOk result (λ told. told.warnings.items ≡ []) }
{
    match found {
        Ok(value) => Ok(Warned {
            value,
            warnings: Vec::new(alloc),
        }),
        Err(fault) => match fault {
            FeedFault::Load(cause) => Err(Refusal::from(cause)),
            FeedFault::Refused(cause) => {
                let traces = Vec::new(alloc);
                Err(Refusal::of_texts(cause, Texts::Two { source, traces }))
            }
        },
    }
}

/// The report on a source and the traces of a feed, which are judged while they are read.
fn report_on_feed<R, F>(
    rt: &R,
    task: &Task<'_>,
    source: Vec<u8>,
    feed: &mut F,
) -> Result<Warned<Report>, Refusal>
where
    R: AllocGlobal + Threads + Sync,
    F: Feed + Send,
    requires { F.failures feed.old < u64.MAX }
    ensures outcome { spec.IsOutcomeOn (λ _ traces. spec.IsInput (F.coming feed.old) traces)
        task.now.options result }
    ensures read { spec.HasRead ⊥
        (input (F.coming feed.old) (F.given feed.old) (F.given feed.new)
        (F.failures feed.old) (F.failures feed.new)) result }
    ensures warned { IfOk result (λ told. told.warnings.items ≡ []) }
{
    let sizes = Sizes::usual(task.options.workers);
    let found = bench_feed(rt, source.as_slice(), feed, &task.options, sizes);
    reported(rt.alloc(), source, found)
}

/// The report on a source and a file of traces that is open.
fn report_on_open<R>(
    rt: &R,
    words: &[String],
    task: &Task<'_>,
    source: Vec<u8>,
    path: &str,
    mut file: R::File,
) -> Result<Warned<Report>, Refusal>
where
    R: Files + AllocGlobal + Threads + Sync,
    R::File: FileExt + Sync + Send,
    ensures outcome { spec.IsOutcomeOn (λ _ _. Unit {0}) task.now.options result }
    ensures warned { IfOk result (λ found.
        AreRemarks (map string_bytes words.now) task.now.options found.warnings.items) }
{
    if asks_to_explain(words) {
        let traces = load_open(rt.alloc(), path, &mut file)?;
        return report_on(rt, words, task, Texts::Two { source, traces });
    }
    let sizes = Sizes::usual(task.options.workers);
    let places = FilePlaces::new(&file);
    match bench_ranges(rt, source.as_slice(), &places, &task.options, sizes) {
        Some(found) => reported(rt.alloc(), source, found),
        None => report_on_feed(rt, task, source, &mut Reader::new(file)),
    }
}

/// The path of the source of a task whose traces are the input, where the words ask for no
/// explanations: only these need the whole text of the traces.
fn source_beside_input<'a>(words: &[String], task: &Task<'a>) -> Option<&'a str>
    ensures { IfSome result (λ path.
        (task.now.source ≡ Some path) × (task.now.traces ≡ None)) }
{
    match task.traces {
        None if !asks_to_explain(words) => task.source,
        _ => None,
    }
}

/// The report of a task.
fn report<R, F>(
    rt: &R,
    words: &[String],
    task: &Task<'_>,
    reader: &mut F,
) -> Result<Warned<Report>, Refusal>
where
    R: Files + AllocGlobal + Threads + Sync,
    R::File: FileExt + Sync + Send,
    F: Feed + Send,
    requires { F.failures reader.old < u64.MAX }
    ensures outcome { spec.IsOutcomeOn (spec.AreTexts task.now (F.coming reader.old))
        task.now.options result }
    ensures read { spec.HasRead (spec.HasPath task.now)
        (input (F.coming reader.old) (F.given reader.old) (F.given reader.new)
        (F.failures reader.old) (F.failures reader.new)) result }
    ensures warned { IfOk result (λ found.
        AreRemarks (map string_bytes words.now) task.now.options found.warnings.items) }
{
    if let Some(path) = source_beside_input(words, task) {
        let source = load_file(rt, path)?;
        return report_on_feed(rt, task, source, reader);
    }
    match load_texts(rt, task, reader) {
        Ok(loaded) => match loaded {
            Loaded::Texts(texts) => report_on(rt, words, task, texts),
            Loaded::Open { source, path, file } => {
                report_on_open(rt, words, task, source, path, file)
            }
        },
        Err(refusal) => Err(refusal),
    }
}

/// The output for a report that was found, and what is said beside it: first the notes that its
/// terms ask for, then the remarks.
fn conclude_found(
    alloc: Global,
    task: &Task<'_>,
    found: Warned<Report>,
    baseline: Option<&Listing<'_>>,
) -> Result<Warned<Report>, AllocError>
    requires lists { (traces : List Line) × Lists found.value.text.items traces }
    requires baseline { IsBaseline task.now.terms baseline }
    ensures { IfOk result (λ told. (notes : List ℕ)
        × IsConcluded task.now.terms (string_bytes task.now.options.node) found.value
        found.warnings.items told.value notes
        × (told.warnings.items ≡ notes ++ found.warnings.items)) }
{
    let Warned { value, warnings } = found;
    let node = task.options.node.as_str();
    let mut told = conclude(
        alloc,
        &task.terms,
        node,
        warnings.as_slice(),
        value,
        baseline,
    )?;
    told.notes.extend_from_slice(warnings.as_slice())?;
    Ok(told.into_warned())
}

/// The output for the report of a task; `baseline` is the earlier report that the terms name.
fn told_report<R, F>(
    rt: &R,
    words: &[String],
    task: &Task<'_>,
    baseline: Option<&Listing<'_>>,
    reader: &mut F,
) -> Result<Warned<Report>, Refusal>
where
    R: Files + AllocGlobal + Threads + Sync,
    R::File: FileExt + Sync + Send,
    F: Feed + Send,
    requires baseline { IsBaseline task.now.terms baseline }
    requires reader { F.failures reader.old < u64.MAX }
    ensures outcome { IsToldOutcome (map string_bytes words.now) task.now (F.coming reader.old)
        result }
    ensures read { spec.HasRead (spec.HasPath task.now)
        (input (F.coming reader.old) (F.given reader.old) (F.given reader.new)
        (F.failures reader.old) (F.failures reader.new)) result }
{
    let found = report(rt, words, task, reader)?;
    Ok(conclude_found(rt.alloc(), task, found, baseline)?)
}

/// Runs a task whose report is written at once, and returns the exit status; `baseline` is the
/// earlier report that the terms name.
fn run_measured<R, F, W, E>(
    rt: &R,
    words: &[String],
    task: &Task<'_>,
    baseline: Option<&Listing<'_>>,
    reader: &mut F,
    writer: &mut W,
    errors: &mut E,
) -> u8
where
    R: Files + AllocGlobal + Threads + Sync,
    R::File: FileExt + Sync + Send,
    F: Feed + Send,
    W: Sink,
    E: Sink,
    requires baseline { IsBaseline task.now.terms baseline }
    requires reader { F.failures reader.old < u64.MAX }
    requires writer { W.failures writer.old < u64.MAX }
    requires errors { E.failures errors.old < u64.MAX }
    ensures { IsWholeRun (map string_bytes words.now) task.now
        (input (F.coming reader.old) (F.given reader.old) (F.given reader.new)
        (F.failures reader.old) (F.failures reader.new)) result
        (change (W.taken writer.old) (W.taken writer.new)
        (W.failures writer.old) (W.failures writer.new))
        (change (E.taken errors.old) (E.taken errors.new)
        (E.failures errors.old) (E.failures errors.new)) }
{
    match told_report(rt, words, task, baseline, reader) {
        Ok(told) => {
            let Warned { value, warnings } = told;
            let answer = Answer::OfTraces(value);
            deliver(rt, words, &answer, warnings.as_slice(), writer, errors)
        }
        Err(refusal) => tell(rt, words, Some(task), &refusal, errors),
    }
}

/// Runs a task whose report is written at once and compared with an earlier report, and returns the
/// exit status; `earlier` is the text of the earlier report.
fn run_compared<R, F, W, E>(
    rt: &R,
    words: &[String],
    task: &Task<'_>,
    earlier: &[u8],
    reader: &mut F,
    writer: &mut W,
    errors: &mut E,
) -> u8
where
    R: Files + AllocGlobal + Threads + Sync,
    R::File: FileExt + Sync + Send,
    F: Feed + Send,
    W: Sink,
    E: Sink,
    requires baseline { IsSome task.now.terms.baseline }
    requires reader { F.failures reader.old < u64.MAX }
    requires writer { W.failures writer.old < u64.MAX }
    requires errors { E.failures errors.old < u64.MAX }
    ensures { IsWholeRun (map string_bytes words.now) task.now
        (input (F.coming reader.old) (F.given reader.old) (F.given reader.new)
        (F.failures reader.old) (F.failures reader.new)) result
        (change (W.taken writer.old) (W.taken writer.new)
        (W.failures writer.old) (W.failures writer.new))
        (change (E.taken errors.old) (E.taken errors.new)
        (E.failures errors.old) (E.failures errors.new)) }
{
    match read_baseline(rt.alloc(), &task.terms, earlier) {
        Ok(before) => run_measured(rt, words, task, Some(&before), reader, writer, errors),
        Err(refusal) => tell(rt, words, Some(task), &refusal, errors),
    }
}

/// Runs a task whose report is written at once, and returns the exit status. An earlier report is
/// read before anything else.
fn run_whole<R, F, W, E>(
    rt: &R,
    words: &[String],
    task: &Task<'_>,
    reader: &mut F,
    writer: &mut W,
    errors: &mut E,
) -> u8
where
    R: Files + AllocGlobal + Threads + Sync,
    R::File: FileExt + Sync + Send,
    F: Feed + Send,
    W: Sink,
    E: Sink,
    requires reader { F.failures reader.old < u64.MAX }
    requires writer { W.failures writer.old < u64.MAX }
    requires errors { E.failures errors.old < u64.MAX }
    ensures { IsWholeRun (map string_bytes words.now) task.now
        (input (F.coming reader.old) (F.given reader.old) (F.given reader.new)
        (F.failures reader.old) (F.failures reader.new)) result
        (change (W.taken writer.old) (W.taken writer.new)
        (W.failures writer.old) (W.failures writer.new))
        (change (E.taken errors.old) (E.taken errors.new)
        (E.failures errors.old) (E.failures errors.new)) }
{
    match load_baseline(rt, &task.terms) {
        Ok(earlier) => match earlier {
            None => run_measured(rt, words, task, None, reader, writer, errors),
            Some(text) => { run_compared(rt, words, task, text.as_slice(), reader, writer, errors) }
        },
        Err(refusal) => tell(rt, words, Some(task), &refusal, errors),
    }
}

/// Runs a task, and returns the exit status.
fn run_task<R, F, W, E>(
    rt: &R,
    words: &[String],
    task: &Task<'_>,
    reader: &mut F,
    writer: &mut W,
    errors: &mut E,
) -> u8
where
    R: Files + AllocGlobal + Threads + Wait + Clock + Sync,
    R::File: FileExt + Sync + Send,
    F: Feed + Send,
    W: Sink,
    E: Sink,
    requires worker { task.now.aim ≡ LiveReport → 0 < task.now.options.workers }
    requires reader { F.failures reader.old < u64.MAX }
    requires writer { W.failures writer.old < u64.MAX }
    requires errors { E.failures errors.old < u64.MAX }
    ensures { IsTaskRun (map string_bytes words.now) task.now
        (input (F.coming reader.old) (F.given reader.old) (F.given reader.new)
        (F.failures reader.old) (F.failures reader.new)) result
        (change (W.taken writer.old) (W.taken writer.new)
        (W.failures writer.old) (W.failures writer.new))
        (change (E.taken errors.old) (E.taken errors.new)
        (E.failures errors.old) (E.failures errors.new)) }
{
    match task.aim {
        Aim::Report => run_whole(rt, words, task, reader, writer, errors),
        Aim::LiveReport => run_live(rt, words, task, reader, writer, errors),
        Aim::OneTrace => run_showing(rt, words, task, reader, writer, errors),
        Aim::Check => run_judging(rt, words, task, reader, writer, errors),
        Aim::Header => run_judging(rt, words, task, reader, writer, errors),
        Aim::Merge => run_merge(rt, words, task, writer, errors),
    }
}

/// Runs the program on these words, a feed and two sinks, and returns its exit status, as `command`
/// does on streams of std. Feeds and sinks count their bytes, so the contract says how many bytes
/// were read.
pub fn run_command<R, F, W, E>(
    rt: &R,
    words: &[String],
    reader: &mut F,
    writer: &mut W,
    errors: &mut E,
) -> u8
where
    R: Files + AllocGlobal + Threads + Wait + Clock + Sync,
    R::File: FileExt + Sync + Send,
    F: Feed + Send,
    W: Sink,
    E: Sink,
    requires reader { F.failures reader.old < u64.MAX }
    requires writer { W.failures writer.old < u64.MAX }
    requires errors { E.failures errors.old < u64.MAX }
    ensures { IsRun (map string_bytes words.now)
        (input (F.coming reader.old) (F.given reader.old) (F.given reader.new)
        (F.failures reader.old) (F.failures reader.new)) result
        (change (W.taken writer.old) (W.taken writer.new)
        (W.failures writer.old) (W.failures writer.new))
        (change (E.taken errors.old) (E.taken errors.new)
        (E.failures errors.old) (E.failures errors.new)) }
{
    match read_words(rt.alloc(), words) {
        Ok(request) => match request {
            Request::Help(text) => { deliver(rt, words, &Answer::Help(text), &[], writer, errors) }
            Request::Version => deliver(rt, words, &Answer::Version, &[], writer, errors),
            Request::Run(task) => run_task(rt, words, &task, reader, writer, errors),
        },
        Err(cause) => tell(rt, words, None, &Refusal::from(cause), errors),
    }
}
