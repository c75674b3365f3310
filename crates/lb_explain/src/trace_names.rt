//! E17: the name of a trace that is not lawful, or comes back behind another trace.

use crate::cells::{number_of, put_cell, stretch_of};
use crate::characters::{is_printable, put_byte};
use crate::excerpt::{put_excerpt, put_place};
use crate::page::Page;
use crate::quoted::{CellPlace, cell_at, decoded};
use lb_places::{Cursor, Goal, Text, find_record};

/// The most bytes of a name.
const MOST: usize = 64;

/// Whether a byte may stand in a name.
fn is_of_name(b: u8) -> bool {
    b.is_ascii_alphanumeric() || matches!(b, b'_' | b'-' | b'.' | b'/')
}

/// The first byte of a name that may not stand in names.
fn first_other(name: &[u8]) -> Option<u8> {
    for b in name {
        if !is_of_name(*b) {
            return Some(*b);
        }
    }
    None
}

/// Puts a byte that may not stand in a name.
fn put_other(page: &mut Page, b: u8) {
    if b == b' ' {
        return page.put("has a space");
    }
    page.put(if is_printable(b) { "has a " } else { "has " });
    put_byte(page, b);
}

/// Puts what is wrong with a name that is not lawful.
fn put_rule(page: &mut Page, name: &[u8]) {
    if name.is_empty() {
        return page.put("the trace name is empty\n");
    }
    page.put("the trace name ");
    put_cell(page, name);
    page.put(" ");
    match first_other(name) {
        Some(b) => put_other(page, b),
        None => page.put_number_in("has ", name.len() as u64, " bytes"),
    }
    page.put("\n");
}

/// Whether a name is lawful.
fn keeps_rule(name: &[u8]) -> bool {
    !name.is_empty() && name.len() <= MOST && first_other(name).is_none()
}

/// Puts the place of the name of a record, what is wrong with it, and its line.
fn explain_rule(page: &mut Page, text: &Text<'_>, record: &Cursor, cell: &CellPlace, name: &[u8]) {
    let place = stretch_of(text, record, cell.start, cell.end);
    put_place(page, text, &place, "error");
    put_rule(page, name);
    put_excerpt(page, text, &place);
    page.put("help: a name has 1 to 64 letters, digits, `_`, `-`, `.` and `/`\n");
    page.put_number_in("in record ", number_of(text, record), "\n");
}

/// Explains a name that comes back, where it stood before.
fn explain_return(
    page: &mut Page,
    text: &Text<'_>,
    record: &Cursor,
    cell: &CellPlace,
    name: &[u8],
) {
    let Some(first) = find_record(text.bytes, &Goal::Name(name)) else {
        return;
    };
    if first.records >= record.records {
        return;
    }
    let place = stretch_of(text, record, cell.start, cell.end);
    put_place(page, text, &place, "error");
    page.put("trace ");
    put_cell(page, name);
    page.put(" comes back after a record of another trace\n");
    put_excerpt(page, text, &place);
    let before = stretch_of(text, &first, first.at, first.at);
    put_place(page, text, &before, "note");
    page.put("it began here; the records of a trace stand together\n");
    page.put_number_in("in record ", number_of(text, record), "\n");
}

/// Explains E17 for the record with a number.
pub fn explain_trace_name(page: &mut Page, text: &Text<'_>, number: u64) {
    let bytes = text.bytes;
    let Some(record) = find_record(bytes, &Goal::Number(number)) else {
        return;
    };
    let Some(cell) = cell_at(bytes, record.at, 0) else {
        return;
    };
    let name = decoded(page, cell.raw(bytes));
    if keeps_rule(name.as_slice()) {
        explain_return(page, text, &record, &cell, name.as_slice());
    } else {
        explain_rule(page, text, &record, &cell, name.as_slice());
    }
}
