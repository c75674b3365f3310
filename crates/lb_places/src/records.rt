//! Records of a trace text, found by their numbers or the names of their traces.
//!
//! The rules are those of the reader: an empty line is no record, and a cell that begins with `"`
//! goes on to the closing one. A text without quotes is searched 32 bytes at a time.

ghost use Rattle.std.specs.Prelude.{◌≡◌, IsTrue, IfSome};
ghost use Rattle.lb_places.specs.Found.{IsNumbered};

use crate::first_cells::first_cell_is;
use crate::quoted_scan::next_quoted;
use crate::record_scan::next_plain;

/// A place between records of a text, with the numbers of records and of lines before it.
#[derive(Clone, Copy)]
pub struct Cursor {
    /// The offset at which the search goes on.
    pub at: usize,
    /// The number of records before it, with the header.
    pub records: u64,
    /// The number of newlines before it.
    pub lines: u64,
    /// Whether a quote may stand before it.
    pub has_quote: bool,
}

/// The record that is looked for.
#[derive(Clone, Copy)]
pub enum Goal<'g> {
    /// The record with this number; the header has 0.
    Number(u64),
    /// The first record behind the header whose trace has this name.
    Name(&'g [u8]),
}

/// Whether the record with this number, which begins at `start`, is the one that is looked for.
pub fn is_goal(goal: &Goal<'_>, text: &[u8], number: u64, start: usize) -> bool
    ensures { IsTrue result → IsNumbered goal.now number }
{
    match goal {
        Goal::Number(n) => *n == number,
        Goal::Name(name) => number > 0 && first_cell_is(text, start, name),
    }
}

/// The cursor before the first record: behind the byte order mark, if there is one.
fn start_of(text: &[u8]) -> Cursor {
    let at = match text {
        [0xEF, 0xBB, 0xBF, ..] => 3,
        _ => 0,
    };
    Cursor {
        at,
        records: 0,
        lines: 0,
        has_quote: false,
    }
}

/// The record that `goal` looks for, from a place on: the cursor stands where the record begins.
fn find_from(text: &[u8], from: &Cursor, goal: &Goal<'_>) -> Option<Cursor>
    ensures { IfSome result (λ found. IsNumbered goal.now found.records) }
{
    match next_plain(text, from, goal) {
        Ok(found) => found,
        // A quote: then each byte counts.
        Err(_) => next_quoted(text, from, goal),
    }
}

/// The record of a text that `goal` looks for: the cursor stands where the record begins.
pub fn find_record(text: &[u8], goal: &Goal<'_>) -> Option<Cursor>
    ensures { IfSome result (λ found. IsNumbered goal.now found.records) }
{
    find_from(text, &start_of(text), goal)
}

/// The header, and the record with a number, where the text has both.
pub fn header_and_record(text: &[u8], number: u64) -> Option<(Cursor, Cursor)>
    ensures header { IfSome result (λ found. found.0.records ≡ 0) }
    ensures record { IfSome result (λ found. found.1.records ≡ number) }
{
    let header = find_record(text, &Goal::Number(0))?;
    let record = find_from(text, &header, &Goal::Number(number))?;
    Some((header, record))
}
