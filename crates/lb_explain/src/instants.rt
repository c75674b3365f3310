//! The instant of a record within its trace.
//!
//! The records of a trace stand together. So where no byte before a record is a quote, the lines
//! before it are counted from the last one back, and the text is not read again from its start.

use crate::bytes::{byte_at, rest};
use lb_places::{Cursor, Goal, find_record};

/// Whether a byte ends a line.
fn ends_line(b: u8) -> bool {
    b == b'\n' || b == b'\r'
}

/// Whether the line that begins at a place begins with a cell of this name. It has no quotes.
fn is_of_trace(text: &[u8], start: usize, name: &[u8]) -> bool {
    match rest(text, start).strip_prefix(name) {
        Some([b, ..]) => *b == b',' || ends_line(*b),
        Some([]) => true,
        None => false,
    }
}

/// The end of the last line before a place that is not empty; 0 where there is none.
fn end_before(text: &[u8], at: usize) -> usize {
    for back in 0..at {
        let end = at.saturating_sub(back);
        if !ends_line(byte_at(text, end.saturating_sub(1))) {
            return end;
        }
    }
    0
}

/// The start of the line that ends at a place.
fn start_before(text: &[u8], end: usize) -> usize {
    for back in 0..end {
        let start = end.saturating_sub(back);
        if ends_line(byte_at(text, start.saturating_sub(1))) {
            return start;
        }
    }
    0
}

/// The number of records of the trace `name` in the lines just before a record.
fn lines_back(text: &[u8], record: &Cursor, name: &[u8]) -> u64 {
    let mut instant: u64 = 0;
    let mut at = record.at;
    for _earlier in 1..record.records {
        at = start_before(text, end_before(text, at));
        if !is_of_trace(text, at, name) {
            return instant;
        }
        instant = instant.saturating_add(1);
    }
    instant
}

/// The instant of a record in the trace with a name, from 0 on.
pub fn instant_of(text: &[u8], record: &Cursor, name: &[u8]) -> u64 {
    if !record.has_quote {
        return lines_back(text, record, name);
    }
    match find_record(text, &Goal::Name(name)) {
        Some(first) => record.records.saturating_sub(first.records),
        None => 0,
    }
}
