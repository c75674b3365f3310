//! The explanation of an error.

ghost use Rattle.std.specs.Prelude.{◌<◌, length, IfOk, IfSome};
ghost use Rattle.std.specs.Io.{StartsWith};
ghost use Rattle.lb_places.specs.FirstPlaces as spec;

use crate::cells::{explain_cell, explain_length};
use crate::characters::explain_character;
use crate::columns::explain_header;
use crate::page::Page;
use crate::program_errors::explain_program;
use crate::sizes::explain_size;
use crate::syntax::explain_syntax;
use crate::trace_limits::explain_limit;
use crate::trace_names::explain_trace_name;
use lb_places::{Text, head_of};
use lb_refusal::{BenchError, Options};
use lb_static::{Signature, elaborate};
use lb_syntax::{SyntaxError, parse};
use lb_trace::TraceError;
use std::alloc::{AllocError, Global};

/// The most lines of an explanation.
const MOST_LINES: usize = 19;

/// The two texts that were judged, and the options of the run.
#[derive(Drop)]
struct Subject<'a> {
    source: &'a Text<'a>,
    traces: &'a Text<'a>,
    options: &'a Options,
}

/// Explains E1, E2 or E3.
fn explain_syntax_error(page: &mut Page, text: &Text<'_>, error: &SyntaxError) {
    match error {
        SyntaxError::Memory => {}
        SyntaxError::Character { line, column } => explain_character(page, text, *line, *column),
        SyntaxError::Syntax { line, column } => explain_syntax(page, text, *line, *column),
        SyntaxError::Size { line, column } => explain_size(page, text, *line, *column),
    }
}

/// Explains E14 or E16 by the inputs of the node under test.
fn explain_under_signature(
    page: &mut Page,
    text: &Text<'_>,
    signature: &Signature,
    error: &TraceError,
) {
    match error {
        TraceError::Header => explain_header(page, text, signature),
        TraceError::Cell { record, column } => {
            explain_cell(page, text, signature, *record, *column);
        }
        _ => {}
    }
}

/// Explains E14 or E16, which need the inputs of the node under test: the source was accepted.
fn explain_by_inputs(page: &mut Page, subject: &Subject<'_>, error: &TraceError) {
    let alloc = page.alloc();
    let options = subject.options;
    let Ok(tree) = parse(alloc, subject.source.bytes) else {
        return;
    };
    if let Ok(elab) = elaborate(alloc, &tree, options.node.as_str(), options.observer_name()) {
        explain_under_signature(page, subject.traces, elab.signature(), error);
    }
}

/// Explains E14 to E18.
fn explain_trace_error(page: &mut Page, subject: &Subject<'_>, error: &TraceError) {
    let text = subject.traces;
    match error {
        TraceError::Memory(_) => {}
        TraceError::Header | TraceError::Cell { .. } => explain_by_inputs(page, subject, error),
        TraceError::Record { record, .. } => explain_length(page, text, *record),
        TraceError::Trace { record } => explain_trace_name(page, text, *record),
        TraceError::Limit { record } => explain_limit(page, text, *record),
    }
}

/// Puts the explanation of an error, except for the place that it begins with.
fn put_all(page: &mut Page, subject: &Subject<'_>, error: &BenchError) {
    let source = subject.source;
    match error {
        BenchError::Syntax(cause) => explain_syntax_error(page, source, cause),
        BenchError::Trace(cause) => explain_trace_error(page, subject, cause),
        _ => explain_program(page, source, subject.options, error),
    }
}

/// The first `MOST_LINES` lines of a text, or all of it where it has fewer.
fn first_lines(text: &[u8]) -> &[u8] {
    let mut lines: usize = 0;
    for (at, b) in text.iter().enumerate() {
        if *b == b'\n' {
            lines = lines.saturating_add(1);
            if lines >= MOST_LINES {
                return &text[..=at];
            }
        }
    }
    text
}

/// Explains to a person where and why the bench refuses a source or its traces, and how to mend
/// them. There are at most 19 lines, each with its newline, and none where nothing more is known.
///
/// Where the error holds its place in the source, the first line begins with that place. The source
/// is the beginning of its file: no lines stand before it.
///
/// ```text
/// pump.csv:12:7: error: column `open` is bool, and `TRUE` is no value of it
///    12 | warm,TRUE,3
///       |      ^^^^
/// help: write `true`, in small letters, or 1
/// in trace `warm`, instant 3, record 11
/// ```
pub fn explain(
    alloc: Global,
    source: &Text<'_>,
    traces: &Text<'_>,
    options: &Options,
    error: &BenchError,
) -> Result<Vec<u8>, AllocError>
    ensures { length source.now.bytes.now < u32.MAX → IfOk result (λ lines.
        IfSome (spec.place_in source.now.bytes.now error.now) (λ p.
        StartsWith lines.items (spec.head source.now.name.now p.0 p.1))) }
{
    let mut page = Page::new(alloc);
    let subject = Subject {
        source,
        traces,
        options,
    };
    put_all(&mut page, &subject, error);
    let further = first_lines(page.whole()?);
    let mut lines = head_of(alloc, source, error)?;
    lines.extend_from_slice(further)?;
    Ok(lines)
}
