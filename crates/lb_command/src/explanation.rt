//! Explanations beside a report or the line of a refusal, where the words ask for them.

ghost use Rattle.std.specs.Prelude.{◌≡◌, ◌<◌, [], false, map, string_bytes};
ghost use Rattle.lb_words.specs.Words.{asks_to_explain};
ghost use Rattle.lb_command.specs.Outcomes.{IsTold, refusal_status};
ghost use Rattle.lb_command.specs.Lines as spec;
ghost use Rattle.lb_command.specs.Streams.{change};
ghost use Rattle.lb_command.specs.Warnings.{AreRemarks, AreWarnings};

use crate::causes::{
    explain_input, explain_name, explain_no_report, explain_output, explain_twice,
};
use crate::line::send_lines;
use crate::refusal::{Cause, Refusal, Texts};
use lb_explain::{Text, explain, wiring_warnings};
use lb_part::{FileRanges, Skipped, count_skipped};
use lb_report::{BenchError, Report, Sink, split_case};
use lb_values::explain_report;
use lb_words::{Task, asks_for_all, asks_to_explain, explain_words};
use std::alloc::{AllocError, Global};
use std::fs::{File, Files};
use std::os::unix::fs::FileExt;

/// The most traces that are explained, of those that did not pass, unless all are asked for.
const MOST_TRACES: usize = 20;

/// A text with the path that it came from as its name, or `-` where it came from standard input.
fn text_at<'a>(path: Option<&'a str>, bytes: &'a [u8], lines_before: u64) -> Text<'a> {
    Text {
        name: path.unwrap_or("-"),
        bytes,
        lines_before,
        records_before: 0,
    }
}

/// What the part of a task leaves out behind the header of its file, which is read again up to the
/// part. An error of the header, E14, is about no later line. None where the file can not be read.
fn skipped_by<R>(rt: &R, task: &Task<'_>, error: &BenchError) -> Option<Skipped>
where
    R: Files + AllocGlobal,
    R::File: FileExt,
{
    let part = task.part?;
    if error.number() < 15 {
        return Some(Skipped {
            lines: 0,
            records: 0,
        });
    }
    match File::open(rt, task.traces?) {
        Ok(file) => count_skipped(rt.alloc(), &FileRanges::new(&file), part).ok(),
        Err(_) => None,
    }
}

/// The name of the text of traces: its path, or `-` for standard input. Where lines of a part can
/// be counted from its header on only, the name says which part this is.
fn traces_name(
    alloc: Global,
    task: &Task<'_>,
    skipped: Option<Skipped>,
) -> Result<String, AllocError> {
    let path = task.traces.unwrap_or("-");
    match task.part {
        Some(part) if skipped.is_none() => {
            format!(in alloc; "{path}, part {}/{}", part.number, part.count)
        }
        _ => String::from_str(alloc, path),
    }
}

/// Adds a line with the part that a refusal of its traces is about, if the task has one.
fn push_part(
    alloc: Global,
    lines: &mut Vec<u8>,
    task: &Task<'_>,
    error: &BenchError,
) -> Result<(), AllocError> {
    if let Some(part) = task.part
        && error.number() >= 14
    {
        let line = format!(in alloc; "in part {}/{}\n", part.number, part.count)?;
        lines.extend_from_slice(line.as_bytes())?;
    }
    Ok(())
}

/// Explains why the bench refuses a source and its traces, which may be a part of a file.
fn explain_two<R>(
    rt: &R,
    task: &Task<'_>,
    error: &BenchError,
    source: &[u8],
    traces: &[u8],
) -> Result<Vec<u8>, AllocError>
where
    R: Files + AllocGlobal,
    R::File: FileExt,
{
    let alloc = rt.alloc();
    let source = text_at(task.source, source, 0);
    let skipped = skipped_by(rt, task, error);
    let name = traces_name(alloc, task, skipped)?;
    let (lines_before, records_before) = match skipped {
        Some(skipped) => (skipped.lines, skipped.records),
        None => (0, 0),
    };
    let traces = Text {
        name: name.as_str(),
        bytes: traces,
        lines_before,
        records_before,
    };
    let mut lines = explain(alloc, &source, &traces, &task.options, error)?;
    push_part(alloc, &mut lines, task, error)?;
    Ok(lines)
}

/// The number of lines of a case text before its traces.
fn lines_before(case: &[u8], traces: &[u8]) -> u64 {
    let mut lines: u64 = 0;
    let length = case.len().saturating_sub(traces.len());
    for b in &case[..length.min(case.len())] {
        lines = lines.saturating_add(u64::from(*b == b'\n'));
    }
    lines
}

/// Explains why the bench refuses some texts.
fn explain_texts<R>(
    rt: &R,
    task: &Task<'_>,
    error: &BenchError,
    texts: &Texts,
) -> Result<Vec<u8>, AllocError>
where
    R: Files + AllocGlobal,
    R::File: FileExt,
{
    match texts {
        Texts::Two { source, traces } => {
            explain_two(rt, task, error, source.as_slice(), traces.as_slice())
        }
        Texts::Case(case) => {
            let (source, traces) = split_case(case.as_slice());
            let before = lines_before(case.as_slice(), traces);
            let source = text_at(None, source, 0);
            let traces = text_at(None, traces, before);
            explain(rt.alloc(), &source, &traces, &task.options, error)
        }
    }
}

/// The lines that explain a refusal of these words, which ask for a task where they can be read;
/// none where nothing more is known.
fn explanation<R>(
    rt: &R,
    words: &[String],
    task: Option<&Task<'_>>,
    refusal: &Refusal,
) -> Result<Vec<u8>, AllocError>
where
    R: Files + AllocGlobal,
    R::File: FileExt,
{
    let alloc = rt.alloc();
    match &refusal.cause {
        Some(Cause::Judged { error, texts }) => match task {
            Some(task) => explain_texts(rt, task, error, texts),
            None => Ok(Vec::new(alloc)),
        },
        Some(Cause::NoReport { path, line }) => explain_no_report(alloc, path.as_str(), *line),
        Some(Cause::Twice { path, line }) => explain_twice(alloc, path.as_str(), *line),
        Some(Cause::Unsent { sent, all }) => explain_output(alloc, *sent, *all),
        Some(Cause::Unread(unread)) => explain_input(alloc, Some(unread)),
        Some(Cause::Unknown(unknown)) => explain_name(alloc, unknown),
        None => match refusal.number {
            20 => explain_words(alloc, words),
            21 => explain_input(alloc, None),
            _ => Ok(Vec::new(alloc)),
        },
    }
}

/// The lines that explain a refusal, where the words ask for them; none where memory ran out.
fn lines_of<R>(rt: &R, words: &[String], task: Option<&Task<'_>>, refusal: &Refusal) -> Vec<u8>
where
    R: Files + AllocGlobal,
    R::File: FileExt,
    ensures { asks_to_explain (map string_bytes words.now) ≡ false → result.items ≡ [] }
{
    if !asks_to_explain(words) {
        return Vec::new(rt.alloc());
    }
    match explanation(rt, words, task, refusal) {
        Ok(lines) => lines,
        Err(_) => Vec::new(rt.alloc()),
    }
}

/// The warnings for an accepted source: inputs of the observer that are wired to something of
/// another name. There are none where the words ask for no explanations, and where memory ran out.
pub fn warnings_of(alloc: Global, words: &[String], task: &Task<'_>, source: &[u8]) -> Vec<u8>
    ensures { AreWarnings (map string_bytes words.now) task.now.options result.items }
{
    let asked = asks_to_explain(words);
    if !asked {
        return Vec::new(alloc);
    }
    let source = text_at(task.source, source, 0);
    match wiring_warnings(alloc, &source, &task.options) {
        Ok(lines) => lines,
        Err(_) => Vec::new(alloc),
    }
}

/// The reasons why traces of a report on some texts do not pass. There are none where the words ask
/// for no explanations, and where memory ran out.
fn reasons_of(
    alloc: Global,
    words: &[String],
    task: &Task<'_>,
    texts: (&[u8], &[u8]),
    report: &Report,
) -> Vec<u8>
    ensures { asks_to_explain (map string_bytes words.now) ≡ false → result.items ≡ [] }
{
    if !asks_to_explain(words) {
        return Vec::new(alloc);
    }
    let most = if asks_for_all(words) {
        usize::MAX
    } else {
        MOST_TRACES
    };
    let file = task.source.unwrap_or("-");
    let (source, traces) = texts;
    let report = report.text.as_slice();
    match explain_report(alloc, file, source, traces, &task.options, report, most) {
        Ok(lines) => lines,
        Err(_) => Vec::new(alloc),
    }
}

/// The remarks beside a report on some texts: warnings, and then the reasons why traces do not
/// pass.
pub fn remarks_of(
    alloc: Global,
    words: &[String],
    task: &Task<'_>,
    texts: (&[u8], &[u8]),
    report: &Report,
) -> Vec<u8>
    ensures { AreRemarks (map string_bytes words.now) task.now.options result.items }
{
    let mut remarks = warnings_of(alloc, words, task, texts.0);
    let reasons = reasons_of(alloc, words, task, texts, report);
    let _ = remarks.extend_from_slice(reasons.as_slice());
    remarks
}

/// Writes the line of a refusal to standard error, and behind it the lines that explain it where
/// the words ask for them, and returns its exit status. Where standard error fails too, the status
/// alone reports the refusal.
pub fn tell<R, E>(
    rt: &R,
    words: &[String],
    task: Option<&Task<'_>>,
    refusal: &Refusal,
    errors: &mut E,
) -> u8
where
    R: Files + AllocGlobal,
    R::File: FileExt,
    E: Sink,
    requires { E.failures errors.old < u64.MAX }
    ensures status { result ≡ refusal_status refusal.now.number }
    ensures told { IsTold (map string_bytes words.now)
        (change (E.taken errors.old) (E.taken errors.new)
        (E.failures errors.old) (E.failures errors.new))
        (spec.line refusal.now.number refusal.now.position) }
{
    let further = lines_of(rt, words, task, refusal);
    let _ = send_lines(errors, refusal, further.as_slice());
    refusal.status()
}
