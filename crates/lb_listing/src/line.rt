//! The parts of a line of a report.

ghost use Rattle.std.specs.Prelude.{◌≡◌, ◌≢◌, ◌<◌, ◌++◌, ℕ, List, ◌∷◌, IfSome, IfNone, decimal};
ghost use Rattle.std.specs.Prelude.{slice_index};
ghost use Rattle.lb_check.specs.declared.verdict.Verdict.{Verdict as Said};
ghost use Rattle.lb_listing.specs.Listings as spec;
ghost use Rattle.lb_listing.specs.Plain.{is_canonical};

use crate::entry::Entry;
use lb_check::Verdict;
use lb_traces::is_trace_name;
use std::str;

/// One more than the last instant of the longest trace.
const INSTANTS: u32 = 1_000_000;

/// The first byte of a text, or 0.
fn first_byte(text: &str) -> u8
    ensures { result ≡ slice_index text.now 0 }
{
    match text.as_bytes() {
        [first, ..] => *first,
        [] => 0,
    }
}

/// Whether a text has no plus in front, and no zero before other digits.
fn is_canonical(text: &str) -> bool
    ensures { result ≡ is_canonical text.now }
{
    let first = first_byte(text);
    first != b'+' && !(first == b'0' && text.len() > 1)
}

/// The instant that decimal digits spell, without zeros in front.
fn read_instant(digits: &str) -> Option<u32>
    ensures some { IfSome result (λ t. (t < 1000000) × (digits.now ≡ decimal t)) }
    ensures none { IfNone result ((t : ℕ) → t < 1000000 → digits.now ≢ decimal t) }
{
    if !is_canonical(digits) {
        return None;
    }
    match digits.parse::<u32>() {
        Ok(t) if t < INSTANTS => Some(t),
        _ => None,
    }
}

/// The verdict of a text: a word, and then the instant, if it has one.
fn read_verdict(text: &str) -> Option<Verdict>
    ensures some { IfSome result (λ v. spec.HasInstant v × (text.now ≡ spec.said v)) }
    ensures none { IfNone result ((v : Said) → spec.HasInstant v → text.now ≢ spec.said v) }
{
    if text == "passed" {
        return Some(Verdict::Passed);
    }
    let (word, digits) = text.split_once(' ')?;
    let t = read_instant(digits)?;
    match word {
        "fault" => Some(Verdict::Fault(t)),
        "undefined" => Some(Verdict::Undefined(t)),
        "assertion" => Some(Verdict::Assertion(t)),
        "false" => Some(Verdict::False(t)),
        _ => None,
    }
}

/// The trace and the verdict of a line, given without its end.
fn read_entry(line: &str) -> Option<Entry<'_>>
    ensures some { IfSome result (λ e. spec.IsLine (spec.line_of e)
        × (line.now ≡ spec.body (spec.line_of e))) }
    ensures none { IfNone result ((l : spec.Line) → spec.IsLine l → line.now ≢ spec.body l) }
{
    let (name, said) = line.split_once(' ')?;
    if !is_trace_name(name.as_bytes()) {
        return None;
    }
    let verdict = read_verdict(said)?;
    Some(Entry { name, verdict })
}

/// The first line of a text, without its end, and what follows.
fn split_line(text: &[u8]) -> Option<(&[u8], &[u8])>
    ensures some { IfSome result (λ parts. (text.now ≡ parts.0.now ++ 10 ∷ parts.1.now)
        × spec.HasNo 10 parts.0.now) }
    ensures none { IfNone result (spec.HasNo 10 text.now) }
{
    let end = text.iter().position(|b| *b == b'\n')?;
    Some((&text[..end], &text[end + 1..]))
}

/// The trace and the verdict of the first line of a text, and what follows.
pub(crate) fn next_entry(text: &[u8]) -> Option<(Entry<'_>, &[u8])>
    ensures some { IfSome result (λ found. spec.IsLine (spec.line_of found.0)
        × (text.now ≡ spec.spelled (spec.line_of found.0) ++ found.1.now)) }
    ensures none { IfNone result ((l : spec.Line) (rest : List ℕ) → spec.IsLine l
        → text.now ≢ spec.spelled l ++ rest) }
{
    let (line, rest) = split_line(text)?;
    let Ok(line) = str::from_utf8(line) else {
        return None;
    };
    let entry = read_entry(line)?;
    Some((entry, rest))
}
