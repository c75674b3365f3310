//! E15 and E16: a record with too few or too many cells, and a cell that is no value.

use crate::bytes::{count, part};
use crate::counts::put_count;
use crate::excerpt::{put_excerpt, put_place};
use crate::instants::instant_of;
use crate::page::Page;
use crate::quoted::{CellPlace, cell_at, decoded, end_of_record, width};
use crate::texts::{Stretch, record_line, spot_in};
use lb_places::{Cursor, Text, header_and_record, input_named};
use lb_static::Signature;
use lb_syntax::Kind;

/// The most bytes of a cell that are shown.
const SHOWN: usize = 40;

/// Puts a byte of a cell, with an escape where it is not printed.
fn put_escaped(page: &mut Page, b: u8) {
    match b {
        b'\t' => page.put("\\t"),
        b'\n' => page.put("\\n"),
        b'\r' => page.put("\\r"),
        b' '..=b'~' => page.put_letter(char::from(b)),
        _ => write!(page, "\\x{b:02X}"),
    }
}

/// Puts a cell between back quotes, at most 40 bytes of it.
pub fn put_cell(page: &mut Page, cell: &[u8]) {
    if cell.is_empty() {
        return page.put("an empty cell");
    }
    page.put("`");
    for b in part(cell, 0, SHOWN) {
        put_escaped(page, *b);
    }
    if cell.len() > SHOWN {
        page.put("..");
    }
    page.put("`");
}

/// The place of some bytes of a record in its text.
pub fn stretch_of(text: &Text<'_>, record: &Cursor, start: usize, end: usize) -> Stretch {
    let inner = count(part(text.bytes, record.at, start), b'\n') as u64;
    let begin = record_line(text, start);
    spot_in(text, record.lines.saturating_add(inner), begin, start, end)
}

/// The value of cell `place` of the record that begins at `start`, without quotes; empty where the
/// record has no such cell. Where memory runs out the page is cut.
pub fn cell_of(page: &mut Page, text: &[u8], start: usize, place: usize) -> Vec<u8> {
    match cell_at(text, start, place) {
        Some(cell) => decoded(page, cell.raw(text)),
        None => Vec::new(page.alloc()),
    }
}

/// Puts the trace, the instant and the number of a record.
pub fn put_record(page: &mut Page, text: &Text<'_>, record: &Cursor) {
    let name = cell_of(page, text.bytes, record.at, 0);
    page.put("in trace ");
    put_cell(page, name.as_slice());
    let instant = instant_of(text.bytes, record, name.as_slice());
    page.put_number_in(", instant ", instant, ", record ");
    page.put_number_in("", number_of(text, record), "\n");
}

/// The number of a record in its file, from 1 on for the first one behind the header.
pub fn number_of(text: &Text<'_>, record: &Cursor) -> u64 {
    text.records_before.saturating_add(record.records)
}

/// Puts how to mend a fault, unless that is empty.
pub fn put_help(page: &mut Page, mend: &str) {
    if !mend.is_empty() {
        page.put_in("help: ", mend, "\n");
    }
}

/// The hint where a line has no commas, but has `;` or tabs; else empty.
pub fn separator_mend(line: &[u8]) -> &'static str {
    if count(line, b',') > 0 {
        return "";
    }
    if count(line, b';') > 0 {
        return "it looks parted by `;`; cells are parted by `,`";
    }
    if count(line, b'\t') > 0 {
        return "it looks parted by tabs; cells are parted by `,`";
    }
    ""
}

/// The help for a quoted cell that has an end of a line in it.
const QUOTED: &str = "a `\"` that begins a cell goes on to the next `\"`, over ends of lines too";

/// The bytes to mark of a record of a wrong length: the cells that are too many, or the whole
/// record where cells are missing.
fn marked(text: &[u8], record: &Cursor, columns: usize) -> CellPlace {
    let end = end_of_record(text, record.at);
    match cell_at(text, record.at, columns) {
        Some(cell) => CellPlace {
            start: cell.start,
            end,
        },
        None => CellPlace {
            start: record.at,
            end,
        },
    }
}

/// The help for a comment.
pub const NO_COMMENTS: &str = "a text of traces has no comments";

/// Whether a line has nothing but spaces and tabs.
fn is_blank(line: &[u8]) -> bool {
    for b in line {
        if !matches!(*b, b' ' | b'\t') {
            return false;
        }
    }
    true
}

/// How to mend a record of a wrong length, for common mistakes; else empty.
fn length_mend(line: &[u8], cells: usize, columns: usize) -> &'static str {
    if line.starts_with(b"#".as_slice()) {
        return NO_COMMENTS;
    }
    if is_blank(line) {
        return "a line of spaces is a record too; an empty line is none";
    }
    if cells == columns.saturating_add(1) && line.ends_with(b",".as_slice()) {
        return "a comma at the end of a line begins one more cell";
    }
    if count(line, b'\n') > 0 {
        return QUOTED;
    }
    separator_mend(line)
}

/// Explains E15 for the record with a number.
pub fn explain_length(page: &mut Page, text: &Text<'_>, number: u64) {
    let bytes = text.bytes;
    let Some((header, record)) = header_and_record(bytes, number) else {
        return;
    };
    let cells = width(bytes, record.at);
    let columns = width(bytes, header.at);
    if cells != columns {
        put_length(page, text, &record, cells, columns);
    }
}

/// Puts the explanation of E15 for a record.
fn put_length(page: &mut Page, text: &Text<'_>, record: &Cursor, cells: usize, columns: usize) {
    let found = marked(text.bytes, record, columns);
    let place = stretch_of(text, record, found.start, found.end);
    put_place(page, text, &place, "error");
    page.put("this record has ");
    put_count(page, cells, "cell");
    page.put_number_in(", and the header has ", columns as u64, "\n");
    put_excerpt(page, text, &place);
    let end = end_of_record(text.bytes, record.at);
    put_help(
        page,
        length_mend(part(text.bytes, record.at, end), cells, columns),
    );
    put_record(page, text, record);
}

/// Whether a cell is 1 to 20 digits, with or without a minus sign before them.
fn is_integer(cell: &[u8]) -> bool {
    let digits = match cell {
        [b'-', digits @ ..] => digits,
        _ => cell,
    };
    !digits.is_empty() && digits.len() <= 20 && has_digits_alone(digits)
}

/// Whether all bytes are digits.
fn has_digits_alone(bytes: &[u8]) -> bool {
    for b in bytes {
        if !b.is_ascii_digit() {
            return false;
        }
    }
    true
}

/// The mend of an integer that is out of range; empty for one that is in range.
fn mend_of_range(cell: &[u8]) -> &'static str {
    let most: u64 = if cell.starts_with(b"-".as_slice()) {
        2_147_483_648
    } else {
        2_147_483_647
    };
    if natural_of(cell) <= most {
        return "";
    }
    "an int is from -2147483648 to 2147483647"
}

/// The number that the digits of a cell spell, without its sign.
fn natural_of(cell: &[u8]) -> u64 {
    let mut n: u64 = 0;
    for b in cell {
        if b.is_ascii_digit() {
            n = n
                .saturating_mul(10)
                .saturating_add(u64::from(b.saturating_sub(b'0')));
        }
    }
    n
}

/// Whether a cell begins or ends with white space; a no-break space is white space too.
pub fn is_padded(cell: &[u8]) -> bool {
    matches!(cell, [b' ' | b'\t', ..] | [.., b' ' | b'\t'])
        || cell.starts_with(b"\xC2\xA0".as_slice())
        || cell.ends_with(b"\xC2\xA0".as_slice())
}

/// The mend of a cell of an integer column; empty where the cell is an integer in range.
fn mend_of_int(cell: &[u8]) -> &'static str {
    if is_integer(cell) {
        return mend_of_range(cell);
    }
    match cell {
        [] => "an empty cell is no value; write a number",
        [b'+', ..] => "write the number without `+`",
        _ if is_padded(cell) => "no space may stand beside a value",
        [b'0'..=b'9' | b'-', b'x' | b'X', ..] => "write the number in decimal digits",
        _ => mend_of_digits(cell),
    }
}

/// The mend of another cell of an integer column, by the characters in it.
fn mend_of_digits(cell: &[u8]) -> &'static str {
    if count(cell, b'.') == 1 && has_digits_alone_but(cell, b".".as_slice()) {
        return "write the number without a point; scale it if need be";
    }
    if count(cell, b',') == 1 && has_digits_alone_but(cell, b",".as_slice()) {
        return "write the number without a comma; scale it if need be";
    }
    if is_power_of_ten(cell) {
        return "write the number without an exponent";
    }
    if cell.eq_ignore_ascii_case(b"true") || cell.eq_ignore_ascii_case(b"false") {
        return "this column is of int; write 1 or 0";
    }
    "write at most 20 digits, with or without a `-` before them"
}

/// Whether a cell is a number with an exponent, as `1.5e3` and `15E+02`.
fn is_power_of_ten(cell: &[u8]) -> bool {
    let letters = count(cell, b'e').saturating_add(count(cell, b'E'));
    letters == 1 && has_digits_alone_but(cell, b".eE".as_slice())
}

/// Whether all bytes are digits, `+`, `-` or one of `signs`.
fn has_digits_alone_but(bytes: &[u8], signs: &[u8]) -> bool {
    for b in bytes {
        if !b.is_ascii_digit() && !matches!(*b, b'-' | b'+') && count(signs, *b) == 0 {
            return false;
        }
    }
    true
}

/// The mend of a cell of a Boolean column that is no truth value.
fn mend_of_bool(cell: &[u8]) -> &'static str {
    if cell.eq_ignore_ascii_case(b"true") {
        return "write `true`, in small letters, or 1";
    }
    if cell.eq_ignore_ascii_case(b"false") {
        return "write `false`, in small letters, or 0";
    }
    match cell {
        [] => "an empty cell is no value; write 0, 1, false or true",
        _ if is_padded(cell) => "no space may stand beside a value",
        _ => "write 0, 1, false or true",
    }
}

/// Whether a cell is a truth value.
fn is_bool(cell: &[u8]) -> bool {
    matches!(cell, b"0" | b"1" | b"true" | b"false")
}

/// Puts that a cell is no value of its column.
fn put_no_value(page: &mut Page, column: &[u8], kind: Kind, cell: &[u8]) {
    page.put("column ");
    put_cell(page, column);
    page.put(match kind {
        Kind::Int => " is int, and ",
        Kind::Bool => " is bool, and ",
    });
    put_cell(page, cell);
    page.put(" is no value of it\n");
}

/// The mend of a cell; empty where it is a value of its kind.
fn mend_of(kind: Kind, cell: &[u8]) -> &'static str {
    if count(cell, b'\n') > 0 {
        return QUOTED;
    }
    match kind {
        Kind::Int => mend_of_int(cell),
        Kind::Bool if is_bool(cell) => "",
        Kind::Bool => mend_of_bool(cell),
    }
}

/// Puts the explanation of E16 for the cell `value` of a record, which stands at `found`, in a
/// column with a name and a kind.
fn put_value(
    page: &mut Page,
    text: &Text<'_>,
    record: &Cursor,
    found: &CellPlace,
    value: &[u8],
    column: (&[u8], Kind),
) {
    let (name, kind) = column;
    let mend = mend_of(kind, value);
    if mend.is_empty() {
        return;
    }
    let place = stretch_of(text, record, found.start, found.end);
    put_place(page, text, &place, "error");
    put_no_value(page, name, kind, value);
    put_excerpt(page, text, &place);
    page.put_in("help: ", mend, "\n");
    put_record(page, text, record);
}

/// Explains E16 for the record with a number; `column` counts the columns after `trace` from 0.
pub fn explain_cell(
    page: &mut Page,
    text: &Text<'_>,
    signature: &Signature,
    number: u64,
    column: usize,
) {
    let bytes = text.bytes;
    let Some((header, record)) = header_and_record(bytes, number) else {
        return;
    };
    let place = column.saturating_add(1);
    let Some(found) = cell_at(bytes, record.at, place) else {
        return;
    };
    let name = cell_of(page, bytes, header.at, place);
    let value = decoded(page, found.raw(bytes));
    if let Some(i) = input_named(signature, name.as_slice()) {
        let column = (name.as_slice(), signature.kind(i));
        put_value(page, text, &record, &found, value.as_slice(), column);
    }
}
