//! The answer on a case text: the report and its status, or the refusal.

ghost use Rattle.std.specs.Prelude.{◌<◌, IfOk};

use crate::rounds;
use lb_cause::CheckError;
use lb_report::{BenchError, Options, Report, run_case};
use lb_test_support::texts::{Said, around, first_line, push_unlike};
use std::alloc::{AllocError, Global};
use std::thread::Threads;

/// A refusal: its number and its word, and the place or the node that it names.
pub fn push_refusal(said: &mut Said, error: &BenchError) {
    write!(said, "E{} {}", error.number(), error.word());
    if let Some((line, column)) = error.position() {
        return write!(said, " at {line}:{column}");
    }
    match error {
        BenchError::Check(CheckError::Type(fault)) => write!(said, " in {}", fault.node),
        BenchError::Check(CheckError::Clock(fault)) => write!(said, " in {}", fault.node),
        BenchError::Check(CheckError::Definition(fault)) => write!(said, " in {}", fault.node),
        _ => {}
    }
}

/// Options to test the node `main` by `workers` workers in `lanes` lanes, at most 64 of each.
pub fn spread(
    alloc: Global,
    workers: u32,
    lanes: u32,
    by_length: bool,
) -> Result<Options, AllocError>
    ensures { 0 < workers → IfOk result (λ options. 0 < options.workers) }
{
    let node = String::from_str(alloc, "main")?;
    let lanes = lanes.max(1).min(64);
    Ok(Options::new(node, None, workers.min(64), lanes, by_length))
}

/// Options to test the node `main` with `observer`; an empty name is no observer.
fn options(alloc: Global, observer: &str) -> Result<Options, AllocError> {
    let observer = if observer.is_empty() {
        None
    } else {
        Some(String::from_str(alloc, observer)?)
    };
    let node = String::from_str(alloc, "main")?;
    Ok(Options::new(node, observer, 1, 64, false))
}

/// The lines of a report and the status, or the refusal.
fn push_outcome(said: &mut Said, outcome: &Result<Report, BenchError>) {
    match outcome {
        Ok(report) => {
            let text = std::str::from_utf8(report.text.as_slice()).unwrap_or("no text");
            write!(said, "{text}status {}", report.status);
        }
        Err(error) => push_refusal(said, error),
    }
}

/// `push_outcome` for an outcome that is then dropped.
fn push_last(said: &mut Said, outcome: Result<Report, BenchError>) {
    push_outcome(said, &outcome);
}

/// The answer of a run on a case text.
pub fn push_run<R: AllocGlobal + Threads + Sync>(
    rt: &R,
    case: &[u8],
    options: &Options,
    said: &mut Said,
) {
    push_last(said, run_case(rt, case, options));
}

/// The answer on a case text. An empty name is no observer.
pub fn push_answer<R: AllocGlobal + Threads + Sync>(
    rt: &R,
    case: &str,
    observer: &str,
    said: &mut Said,
) {
    match options(rt.alloc(), observer) {
        Ok(options) => push_run(rt, case.as_bytes(), &options, said),
        Err(_) => said.cut(),
    }
}

/// Whether the cells of a line of traces can be put in quotes: the line is not empty, and has no
/// quote and no carriage return.
fn is_plain(line: &str) -> bool {
    for letter in line.chars() {
        if letter == '"' || letter == '\r' {
            return false;
        }
    }
    !line.is_empty()
}

/// A line of traces with each cell in quotes.
fn push_quoted_line(line: &str, quoted: &mut Said) {
    quoted.push('"');
    for letter in line.chars() {
        if letter == ',' {
            quoted.push_str("\",\"");
        } else {
            quoted.push(letter);
        }
    }
    quoted.push_str("\"\n")
}

/// A line of traces, with each cell in quotes if the line is plain.
fn push_line(line: &str, quoted: &mut Said) {
    if is_plain(line) {
        return push_quoted_line(line, quoted);
    }
    write!(quoted, "{line}\n");
}

/// A case text with each cell of its traces in quotes.
fn push_quoted(case: &str, quoted: &mut Said) {
    let (source, traces) = around(case, "%traces\n");
    write!(quoted, "{source}%traces\n");
    for line in traces.split('\n') {
        push_line(line, quoted);
    }
}

/// The answers on a case text that differ from `wanted`: with each cell of its traces in quotes
/// and, without an observer, in rounds.
fn push_unlike_quoted<R: AllocGlobal + Threads + Sync>(
    rt: &R,
    case: &str,
    observer: &str,
    wanted: &str,
    unlike: &mut Said,
) {
    let mut quoted = Said::new(rt.alloc());
    let mut other = Said::new(rt.alloc());
    push_quoted(case, &mut quoted);
    unlike.cut_with(&quoted);
    push_answer(rt, quoted.as_str(), observer, &mut other);
    push_unlike(wanted, &other, 1, 0, unlike);
    if observer.is_empty() {
        rounds::push_case_in_rounds(rt, case, unlike);
        rounds::push_case_in_rounds(rt, quoted.as_str(), unlike);
    }
}

/// The answer on a case text behind its first line, which may name an observer; then the answers
/// that differ with each cell in quotes, or in rounds.
pub fn push_case<R: AllocGlobal + Threads + Sync>(rt: &R, asked: &str, said: &mut Said) {
    let (observer, case) = first_line(asked);
    let observer = observer.trim();
    push_answer(rt, case, observer, said);
    let mut unlike = Said::new(rt.alloc());
    push_unlike_quoted(rt, case, observer, said.as_str(), &mut unlike);
    said.push_said(&unlike);
}
