//! E1: a byte that begins no token, or a comment that is not closed.

use crate::bytes::{byte_at, part};
use crate::excerpt::put_excerpt;
use crate::lexeme::{Sort, piece_at};
use crate::page::Page;
use crate::texts::{offset_of, spot};
use crate::words::mend_of_word;
use lb_places::Text;

/// Whether `(*` or `/*` stands at a place.
fn opens_comment(text: &[u8], at: usize) -> bool {
    piece_at(text, at).sort == Sort::Blank
}

/// The mend of a byte that begins no token, by this byte and the one behind it.
fn mend_of(first: u8, second: u8) -> &'static str {
    match (first, second) {
        (b'!', b'=') => "unequal is written `<>`",
        (b'!', _) => "negation is written `not`",
        (b'&', _) => "conjunction is written `and`",
        (b'%', _) => "the remainder is written `mod`",
        (b'"' | b'\'', _) => "there are no strings and no includes in the language",
        (b'{' | b'}', _) => "structures, enumerations and blocks are not in the language",
        (b'~', _) => "negation is written `not`, and the sign of a number `-`",
        (b'?', _) => "`if` chooses a value: `if c then a else b`",
        (b'$' | b'@' | b'\\' | b'`', _) => "names have letters, digits and `_`",
        _ => mend_of_byte(first, second),
    }
}

/// The mend of a byte outside of ASCII or of a control byte, by this byte and the one behind it.
fn mend_of_byte(first: u8, second: u8) -> &'static str {
    match (first, second) {
        (0xEF, 0xBB) => "save the file as UTF-8 without a byte order mark",
        (0xFF, 0xFE) | (0xFE, 0xFF) | (0, _) => "save the file as ASCII or UTF-8, not as UTF-16",
        (0x80..=0xFF, _) => "outside of comments a source is ASCII",
        _ => "",
    }
}

/// Whether a byte is a character of ASCII that can be seen.
pub fn is_printable(b: u8) -> bool {
    b > b' ' && b < 127
}

/// Puts a byte: as it is where it is printable, else as a number.
pub fn put_byte(page: &mut Page, b: u8) {
    if is_printable(b) {
        page.put("`");
        page.put_letter(char::from(b));
        page.put("`");
    } else {
        write!(page, "the byte 0x{b:02X}");
    }
}

/// Puts what is wrong with the bytes at a place that begin no comment.
fn put_cause(page: &mut Page, text: &[u8], at: usize) {
    if part(text, at, at.saturating_add(3)) == b"\xEF\xBB\xBF".as_slice() {
        return page.put("a byte order mark begins no token\n");
    }
    put_byte(page, byte_at(text, at));
    page.put(" begins no token\n");
}

/// The mend of a comment that is not closed, and begins with `first` and `*`.
fn closing_mend(first: u8) -> &'static str {
    if first == b'(' {
        "`(*` is closed by the next `*)`"
    } else {
        "`/*` is closed by the next `*/`"
    }
}

/// Puts the line of a place with marks under the bytes from `at` to `end`, and a mend, unless it is
/// empty.
fn put_marked(page: &mut Page, text: &Text<'_>, at: usize, end: usize, mend: &str) {
    put_excerpt(page, text, &spot(text, at, end));
    if !mend.is_empty() {
        page.put_in("help: ", mend, "\n");
    }
}

/// The mend of the bytes at a place that begin no comment: the byte there, and the one behind it.
/// In `last 'x` the word before them counts.
fn mend_at(text: &[u8], at: usize) -> &'static str {
    let first = byte_at(text, at);
    if first == b'\'' && part(text, at.saturating_sub(5), at) == b"last ".as_slice() {
        return mend_of_word(b"last");
    }
    mend_of(first, byte_at(text, at.saturating_add(1)))
}

/// The number of bytes to mark, by the byte at a place and the one behind it.
fn marked(first: u8, second: u8) -> usize {
    match (first, second) {
        (b'!', b'=') | (b'&', b'&') => 2,
        _ => 1,
    }
}

/// Explains E1 at a line and a column.
pub fn explain_character(page: &mut Page, text: &Text<'_>, line: u32, column: u32) {
    let at = offset_of(text.bytes, line, column);
    let behind = at.saturating_add(1);
    let (first, second) = (byte_at(text.bytes, at), byte_at(text.bytes, behind));
    if opens_comment(text.bytes, at) {
        page.put("the comment that begins here is not closed\n");
        put_marked(page, text, at, at.saturating_add(2), closing_mend(first));
    } else {
        put_cause(page, text.bytes, at);
        let end = at.saturating_add(marked(first, second));
        put_marked(page, text, at, end, mend_at(text.bytes, at));
    }
}
