//! The whole traces at the front of a text that is not read to its end yet.
//!
//! ```text
//! a,1 | a,5 | b,0 | b,7 | b,
//! ^^^^^^^^^ whole
//! ```
//!
//! A trace is known to be whole once a line of another trace follows it. So the text is cut before
//! the lines of its last trace, which a binary search finds.

ghost use Rattle.std.specs.Prelude.{◌≡◌, ◌-◌, ◌<◌, ◌≤◌, ℕ, true, false, drop, get_or, length, take};
ghost use Rattle.std.specs.Prelude.{MatchOption};
ghost use Rattle.lb_trace.specs.Chunks.{is_ended};
ghost use Rattle.lb_trace.specs.Plain.{ends_line};
ghost use Rattle.lb_trace.specs.Scan.{cell_of};
ghost use Rattle.lb_trace.specs.WholeTraces.{EndsTrace, IsBlankBefore, IsLineBefore};

use crate::scan::{ends_line, next_cell};
use memchr::memrchr2;

// The place behind the last byte that ends no line, of the bytes before a place; 0 where there is
// none.
fn past_line(text: &[u8], before: usize) -> usize
    requires { before ≤ length text.now }
    ensures within { result ≤ before }
    ensures filled { 0 < result → ends_line (get_or text.now (result - 1) 0) ≡ false }
    ensures blank { (i : ℕ) → result ≤ i → i < before → ends_line (get_or text.now i 0) ≡ true }
{
    let mut past = before;
    while past > 0 && ends_line(text[past - 1]) {
        past -= 1;
    }
    past
}

// The place at which the line begins whose bytes stand before place `past`.
fn line_start(text: &[u8], past: usize) -> usize
    requires { past ≤ length text.now }
    ensures within { result ≤ past }
    ensures after_end { 0 < result → ends_line (get_or text.now (result - 1) 0) ≡ true }
    ensures inside { (i : ℕ) → result ≤ i → i < past → ends_line (get_or text.now i 0) ≡ false }
{
    match memrchr2(b'\r', b'\n', &text[..past]) {
        Some(end) => end + 1,
        None => 0,
    }
}

// The place at which the last line begins that begins before `place` and is not empty.
fn line_before(text: &[u8], place: usize) -> Option<usize>
    requires { place ≤ length text.now }
    ensures { MatchOption result (IsBlankBefore text.now place)
        (λ start. IsLineBefore text.now place start) }
{
    let past = past_line(text, place);
    if past == 0 {
        return None;
    }
    Some(line_start(text, past - 1))
}

// The bytes of the first cell of the line that begins at a place.
fn name_at(text: &[u8], start: usize) -> &[u8]
    requires { start ≤ length text.now }
    ensures { result.now ≡ cell_of (drop start text.now) }
{
    next_cell(&text[start..]).bytes
}

// Whether a cell is in quotes, so that it may spell another text than its bytes.
fn is_quoted(cell: &[u8]) -> bool {
    matches!(cell, [b'"', ..])
}

/// The number of bytes at the front of a text that are lines of whole traces; 0 where no trace is
/// known to be whole. The bytes behind them may be a part of a trace, and of a line.
pub fn whole_traces(text: &[u8]) -> usize
    ensures within { result ≤ length text.now }
    ensures ended { 0 < result → is_ended (take result text.now) ≡ true }
    ensures whole { 0 < result → EndsTrace text.now result }
{
    let unfinished = line_start(text, text.len());
    let Some(last) = line_before(text, unfinished) else {
        return 0;
    };
    let name = name_at(text, last);
    // A name in quotes may be that of the line before.
    if is_quoted(name) {
        return 0;
    }
    // The line at `start` has this name; the line before `other`, if there is one, has another.
    let mut start = last;
    let mut other = 0;
    'lines: while other < start {
        let place = start - (start - other) / 2;
        match line_before(text, place) {
            Some(line) if name_at(text, line) == name => start = line,
            _ => other = place,
        }
    }
    // No trace ends before the first line.
    match line_before(text, start) {
        Some(_) => start,
        None => 0,
    }
}
