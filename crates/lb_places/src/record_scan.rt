//! Records of a text without quotes, 32 bytes at a time.
//!
//! A record begins at each byte that ends no line and follows one that does.

ghost use Rattle.std.specs.Prelude.{◌<◌, IfOk, IfSome, length};
ghost use Rattle.lb_places.specs.Found.{IsNumbered};

use crate::blocks::{BLOCK, places_of};
use crate::first_cells::{ends_line, first_cell_is};
use crate::records::{Cursor, Goal, is_goal};

/// A text has a quote, so a line may be less than a record.
#[derive(Drop)]
pub struct HasQuote;

/// The starts of records, the newlines and the quotes among 32 bytes.
#[derive(Clone, Copy)]
struct Marks {
    /// The bytes at which records begin.
    starts: u64,
    newlines: u64,
    /// Whether the last of them ends a line: 1 or 0.
    carry: u64,
    has_quote: bool,
}

/// The marks of 32 bytes; `carry` is 1 where the byte before them ends a line, else 0.
#[inline(always)]
fn marks_of(block: &[u8], carry: u64) -> Marks
    requires { 31 < length block.now }
{
    let newlines = places_of(block, b'\n');
    let ends = newlines | places_of(block, b'\r');
    Marks {
        starts: !ends & (ends << 1 | carry) & 0xFFFF_FFFF,
        newlines,
        carry: ends >> 31 & 1,
        has_quote: places_of(block, b'"') != 0,
    }
}

/// Whether a record of a trace with this name begins at one of 32 bytes; `starts` has their bits.
fn has_name(text: &[u8], at: usize, starts: u64, name: &[u8]) -> bool {
    let mut left = starts;
    for _turn in 0..BLOCK {
        if left == 0 {
            return false;
        }
        let place = left.trailing_zeros() as usize;
        if first_cell_is(text, at.saturating_add(place), name) {
            return true;
        }
        left &= left - 1;
    }
    false
}

/// Whether the record that is looked for begins among 32 bytes.
#[inline(always)]
fn is_within(text: &[u8], cursor: &Cursor, starts: u64, goal: &Goal<'_>) -> bool {
    match goal {
        Goal::Number(n) => {
            cursor
                .records
                .saturating_add(u64::from(starts.count_ones()))
                > *n
        }
        Goal::Name(name) => has_name(text, cursor.at, starts, name),
    }
}

/// The cursor behind 32 bytes.
#[inline(always)]
fn past(cursor: &Cursor, marks: &Marks) -> Cursor {
    let records = u64::from(marks.starts.count_ones());
    let lines = u64::from(marks.newlines.count_ones());
    Cursor {
        at: cursor.at.saturating_add(BLOCK),
        records: cursor.records.saturating_add(records),
        lines: cursor.lines.saturating_add(lines),
        has_quote: cursor.has_quote,
    }
}

/// The record that `goal` looks for, found byte by byte; where `begins` is true, the next byte
/// begins a record unless it ends a line.
fn walk(
    text: &[u8],
    from: &Cursor,
    begins: bool,
    goal: &Goal<'_>,
) -> Result<Option<Cursor>, HasQuote>
    ensures { IfOk result (λ found. IfSome found (λ c. IsNumbered goal.now c.records)) }
{
    let mut begins = begins;
    let mut records = from.records;
    let mut lines = from.lines;
    for at in from.at..text.len() {
        let b = text[at];
        if b == b'"' {
            return Err(HasQuote);
        }
        if begins && !ends_line(b) {
            if is_goal(goal, text, records, at) {
                return Ok(Some(Cursor {
                    at,
                    records,
                    lines,
                    has_quote: from.has_quote,
                }));
            }
            records = records.saturating_add(1);
        }
        begins = ends_line(b);
        lines = lines.saturating_add(u64::from(b == b'\n'));
    }
    Ok(None)
}

/// The record that `goal` looks for, from a place between records on.
pub fn next_plain(text: &[u8], from: &Cursor, goal: &Goal<'_>) -> Result<Option<Cursor>, HasQuote>
    ensures { IfOk result (λ found. IfSome found (λ c. IsNumbered goal.now c.records)) }
{
    let mut cursor = *from;
    let mut carry: u64 = 1;
    let mut left = &text[from.at.min(text.len())..];
    for _turn in 0..left.len() {
        if left.len() < BLOCK {
            break;
        }
        let (block, after) = left.split_at(BLOCK);
        let marks = marks_of(block, carry);
        if marks.has_quote {
            return Err(HasQuote);
        }
        if is_within(text, &cursor, marks.starts, goal) {
            break;
        }
        cursor = past(&cursor, &marks);
        carry = marks.carry;
        left = after;
    }
    walk(text, &cursor, carry == 1, goal)
}
