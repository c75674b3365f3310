//! The report: a line for each trace, and a last line that counts.
//!
//! ```text
//! a false 2
//! b passed
//! total 2 passed 1 fault 0 undefined 0 assertion 0 false 1
//! ```

ghost use Rattle.std.specs.Prelude.{◌≡◌, ◌<◌, ◌≤◌, ◌+◌, ◌++◌, [], get_or, length, IfOk, OnOk};
ghost use Rattle.lb_traces.specs.Traces.{trace_names};
ghost use Rattle.lb_output.specs.Reports as spec;

use itoa::{Buffer, Integer};
use lb_check::Verdict;
use lb_traces::TraceSet;
use std::alloc::{AllocError, Global};

/// The number of words for verdicts.
pub const WORDS: usize = 5;

/// The word at a place, in the order of the last line.
fn word(place: usize) -> &'static str
    requires { place < WORDS }
    ensures word { result.now ≡ get_or spec.words place [] }
    ensures short { length result.now ≤ 9 }
{
    match place {
        0 => "passed",
        1 => "fault",
        2 => "undefined",
        3 => "assertion",
        _ => "false",
    }
}

/// The place of a verdict's word among the words.
pub fn place_of(verdict: Verdict) -> usize
    ensures value { result ≡ spec.place_of verdict }
    ensures within { result < WORDS }
{
    match verdict {
        Verdict::Passed => 0,
        Verdict::Fault(_) => 1,
        Verdict::Undefined(_) => 2,
        Verdict::Assertion(_) => 3,
        Verdict::False(_) => 4,
    }
}

/// The word for a verdict.
pub fn word_of(verdict: Verdict) -> &'static str
    ensures word { result.now ≡ get_or spec.words (spec.place_of verdict) [] }
    ensures short { length result.now ≤ 9 }
{
    word(place_of(verdict))
}

/// The instant that decided a verdict, if one did.
fn instant_of(verdict: Verdict) -> Option<u32>
    ensures { result ≡ spec.instant_of verdict }
{
    match verdict {
        Verdict::Passed => None,
        Verdict::Fault(t) | Verdict::Undefined(t) | Verdict::Assertion(t) | Verdict::False(t) =>
            Some(t),
    }
}

/// Adds a space and the word at a place.
pub fn push_word(text: &mut Vec<u8>, place: usize) -> Result<(), AllocError>
    requires { place < WORDS }
    ensures text { OnOk result (text.new.items ≡ text.old.items ++ spec.word place) }
    ensures short { OnOk result (length text.new.items ≤ length text.old.items + 10) }
{
    text.push(b' ')?;
    text.extend_from_slice(word(place).as_bytes())
}

/// Adds a space and a number.
pub fn push_number(text: &mut Vec<u8>, n: usize) -> Result<(), AllocError>
    ensures text { OnOk result (text.new.items ≡ text.old.items ++ spec.number n) }
    ensures short { OnOk result (length text.new.items ≤ length text.old.items + 41) }
{
    text.push(b' ')?;
    text.extend_from_slice(Buffer::new().format(n).as_bytes())
}

/// Adds the text of a verdict, as `false 21`.
pub fn push_said(text: &mut Vec<u8>, verdict: Verdict) -> Result<(), AllocError>
    ensures text { OnOk result (text.new.items ≡ text.old.items ++ spec.said verdict) }
    ensures short { OnOk result (length text.new.items ≤ length text.old.items + 50) }
{
    text.extend_from_slice(word_of(verdict).as_bytes())?;
    match instant_of(verdict) {
        Some(t) => push_number(text, t as usize),
        None => Ok(()),
    }
}

/// Adds a space and the text of a verdict.
pub fn push_verdict(text: &mut Vec<u8>, verdict: Verdict) -> Result<(), AllocError>
    ensures text { OnOk result (text.new.items ≡ text.old.items ++ spec.spaced verdict) }
    ensures short { OnOk result (length text.new.items ≤ length text.old.items + 51) }
{
    text.push(b' ')?;
    push_said(text, verdict)
}

/// Adds the line of a trace.
pub fn push_line(text: &mut Vec<u8>, name: &str, verdict: Verdict) -> Result<(), AllocError>
    ensures text { OnOk result (text.new.items ≡ text.old.items ++ spec.line name.now verdict) }
    ensures short { OnOk result (length text.new.items
        ≤ length text.old.items + length name.now + 52) }
{
    text.extend_from_slice(name.as_bytes())?;
    push_verdict(text, verdict)?;
    text.push(b'\n')?;
    Ok(())
}

/// The number of verdicts whose word is at `place`.
fn count_of(verdicts: &[Verdict], place: usize) -> usize
    ensures { result ≡ spec.count_of verdicts.now place }
{
    verdicts.iter().filter(|v| place_of(**v) == place).count()
}

/// Adds the last line.
pub(crate) fn push_total(text: &mut Vec<u8>, verdicts: &[Verdict]) -> Result<(), AllocError>
    ensures { OnOk result (text.new.items ≡ text.old.items ++ spec.total verdicts.now) }
{
    text.extend_from_slice(b"total")?;
    push_number(text, verdicts.len())?;
    for place in 0..WORDS {
        push_word(text, place)?;
        push_number(text, count_of(verdicts, place))?;
    }
    text.extend_from_slice(b"\n")
}

/// The report on a set of traces with these verdicts, one for each trace in order: a line for each
/// trace, `NAME passed`, `NAME fault T`, `NAME undefined T`, `NAME assertion T` or `NAME false T`,
/// and a last line `total N passed P fault F undefined U assertion A false B`.
pub fn report_text(
    alloc: Global,
    set: &TraceSet,
    verdicts: &[Verdict],
) -> Result<Vec<u8>, AllocError>
    requires { length verdicts.now ≡ length set.now.traces }
    ensures { IfOk result (λ text.
        text.items ≡ spec.report_of (trace_names set.now.traces) verdicts.now) }
{
    let mut text = Vec::new(alloc);
    for k in 0..set.len() {
        push_line(&mut text, set.name(k), verdicts[k as usize])?;
    }
    push_total(&mut text, verdicts)?;
    Ok(text)
}

/// Whether a verdict makes a run fail.
fn is_failure(verdict: Verdict) -> bool
    ensures { result ≡ spec.is_failure verdict }
{
    matches!(
        verdict,
        Verdict::Fault(_) | Verdict::Undefined(_) | Verdict::False(_)
    )
}

/// The status of a run with these verdicts: 1 where one of them is a fault, undefined or false,
/// else 0.
pub fn status(verdicts: &[Verdict]) -> u8
    ensures { result ≡ spec.status_of verdicts.now }
{
    if verdicts.iter().any(|v| is_failure(*v)) {
        1
    } else {
        0
    }
}

/// A report, and the status of its run.
#[derive(Drop)]
pub struct Report {
    /// A line for each trace, and a last line that counts.
    pub text: Vec<u8>,
    /// 1 where a trace has a fault, is undefined or false, else 0.
    pub status: u8,
}

impl Report {
    ghost use Rattle.lb_output.specs.Reports.{IsReport};

    /// The report on a set of traces with these verdicts, one for each trace in order.
    pub fn new(alloc: Global, set: &TraceSet, verdicts: &[Verdict]) -> Result<Report, AllocError>
        requires { length verdicts.now ≡ length set.now.traces }
        ensures { IfOk result (IsReport (trace_names set.now.traces) verdicts.now) }
    {
        Ok(Report {
            text: report_text(alloc, set, verdicts)?,
            status: status(verdicts),
        })
    }
}
