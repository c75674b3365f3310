//! The line of a text with marks below a stretch of it.
//!
//! ```text
//!    14 |   n = m + open;
//!       |           ^^^^
//! ```

use crate::bytes::{continues, find, part};
use crate::page::Page;
use crate::texts::{Stretch, line_at};
use lb_places::Text;

/// The most columns of a line that are shown.
const WIDTH: usize = 80;

/// The character that a byte order mark is.
const BYTE_ORDER_MARK: char = '\u{FEFF}';

/// The character that stands for a byte of a text that is not UTF-8: `?` where the byte is not
/// printable.
fn plain_char(b: u8) -> char {
    match b {
        b'\t' => ' ',
        b' '..=b'~' => char::from(b),
        _ => '?',
    }
}

/// Puts bytes as text, so that each character takes one column.
pub fn put_bytes(page: &mut Page, bytes: &[u8]) {
    match std::str::from_utf8(bytes) {
        Ok(text) => put_text(page, text),
        Err(_) => put_ascii(page, bytes),
    }
}

/// The character that is shown for a character of a text: `?` for a control character.
fn shown_char(c: char) -> char {
    match c {
        '\t' => ' ',
        BYTE_ORDER_MARK => '?',
        _ if c.is_control() => '?',
        _ => c,
    }
}

/// Puts a text, with `?` for each control character.
fn put_text(page: &mut Page, text: &str) {
    for c in text.chars() {
        page.put_letter(shown_char(c));
    }
}

/// Puts bytes that are not UTF-8, with `?` for each character outside of ASCII.
fn put_ascii(page: &mut Page, bytes: &[u8]) {
    for b in bytes {
        if !continues(*b) {
            page.put_letter(plain_char(*b));
        }
    }
}

/// Puts `times` copies of a character.
pub fn put_times(page: &mut Page, c: char, times: usize) {
    for _time in 0..times {
        page.put_letter(c);
    }
}

/// The number of columns that bytes take.
fn columns(bytes: &[u8]) -> usize {
    let mut columns: usize = 0;
    for b in bytes {
        columns = columns.saturating_add(usize::from(!continues(*b)));
    }
    columns
}

/// The bytes of a line that are shown.
#[derive(Clone, Copy)]
struct Window {
    from: usize,
    to: usize,
}

/// At most `WIDTH` bytes of a line, round a place in it.
fn plain_window(length: usize, at: usize) -> Window {
    if length <= WIDTH {
        return Window {
            from: 0,
            to: length,
        };
    }
    let from = at
        .saturating_sub(WIDTH / 2)
        .min(length.saturating_sub(WIDTH));
    Window {
        from,
        to: from.saturating_add(WIDTH),
    }
}

/// `plain_window`, moved so that it cuts no character.
fn whole_window(line: &[u8], at: usize) -> Window {
    let found = plain_window(line.len(), at);
    Window {
        from: next_whole(line, found.from),
        to: next_whole(line, found.to),
    }
}

/// The first place from `at` on at which a character begins, or the end of the line.
fn next_whole(line: &[u8], at: usize) -> usize {
    for ahead in 0..4 {
        let place = at.saturating_add(ahead);
        if place >= line.len() || !continues(line[place]) {
            return place.min(line.len());
        }
    }
    at
}

/// The number of digits of `n`.
fn digits(n: u64) -> usize {
    let mut left = n / 10;
    let mut digits: usize = 1;
    for _turn in 0..20 {
        if left == 0 {
            return digits;
        }
        left /= 10;
        digits = digits.saturating_add(1);
    }
    digits
}

/// The width of the margin: five columns, or as many as the number of the line takes.
fn margin(line: u64) -> usize {
    digits(line).max(5)
}

/// Puts the margin with the number of a line.
fn put_margin(page: &mut Page, line: u64) {
    put_times(page, ' ', margin(line).saturating_sub(digits(line)));
    page.put_number_in("", line, " | ");
}

/// Puts the line of a stretch, and marks below the stretch.
pub fn put_excerpt(page: &mut Page, text: &Text<'_>, spot: &Stretch) {
    let whole = line_at(text.bytes, spot.line_start);
    let at = spot.start.saturating_sub(spot.line_start).min(whole.len());
    let line = part(whole, 0, find(whole, at, b'\r'));
    let shown = whole_window(line, at);
    put_margin(page, spot.line);
    put_bytes(page, part(line, shown.from, shown.to));
    page.put("\n");
    let end = spot.end.saturating_sub(spot.line_start).min(shown.to);
    let marks = columns(part(line, at, end)).max(1);
    put_times(page, ' ', margin(spot.line));
    page.put(" | ");
    put_times(page, ' ', columns(part(line, shown.from, at)));
    put_times(page, '^', marks);
    page.put("\n");
}

/// Puts the place of a stretch, as `pump.lus:14:13`.
pub fn put_spot(page: &mut Page, text: &Text<'_>, spot: &Stretch) {
    page.put(text.name);
    page.put_number_in(":", spot.line, ":");
    page.put_number(spot.column as u64);
}

/// Puts the place of a stretch and a word, as `pump.lus:14:13: error: `.
pub fn put_place(page: &mut Page, text: &Text<'_>, spot: &Stretch, word: &str) {
    put_spot(page, text, spot);
    page.put_in(": ", word, ": ");
}
