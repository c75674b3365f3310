//! The first line of a text, and its length.

ghost use Rattle.std.specs.Prelude.{◌≡◌, ◌<◌, ◌≤◌, [], false, true, length, take, get_or};
ghost use Rattle.csv.specs.Reading.{strip_bom};
ghost use Rattle.lb_trace.specs.Chunks.{is_ended};
ghost use Rattle.lb_trace.specs.Lines.{line_of};
ghost use Rattle.lb_trace.specs.Plain.{ends_line, plain_records};

use crate::plain::strip_bom;
use crate::scan::ends_line;

/// The first line of a text, without its end.
pub fn first_line(text: &[u8]) -> &[u8]
    ensures { result.now ≡ line_of text.now }
{
    for (i, b) in text.iter().enumerate() {
        if ends_line(*b) {
            return &text[..i];
        }
    }
    text
}

/// Whether some line of a text is not empty.
pub fn has_line(text: &[u8]) -> bool
    ensures some { result ≡ true → 0 < length (plain_records text.now) }
    ensures none { result ≡ false → plain_records text.now ≡ [] }
{
    blank_front(text) < text.len()
}

// The number of bytes at the front of a text that are ends of lines.
fn blank_front(text: &[u8]) -> usize
    ensures within { result ≤ length text.now }
    ensures blank { plain_records (take result text.now) ≡ [] }
    ensures ended { 0 < result → is_ended (take result text.now) ≡ true }
    ensures next { result < length text.now → ends_line (get_or text.now result 0) ≡ false }
{
    for (i, b) in text.iter().enumerate() {
        if !ends_line(*b) {
            return i;
        }
    }
    text.len()
}

// The number of bytes of the first line of a text, with its end; the line is not empty.
fn line_len(text: &[u8]) -> usize
    requires { 0 < length text.now → ends_line (get_or text.now 0 0) ≡ false }
    ensures within { result ≤ length text.now }
    ensures first { plain_records (take result text.now) ≡ take 1 (plain_records text.now) }
    ensures ended { result < length text.now → is_ended (take result text.now) ≡ true }
{
    for (i, b) in text.iter().enumerate() {
        if ends_line(*b) {
            return i + 1;
        }
    }
    text.len()
}

// The number of bytes up to the end of the first line that is not empty, with that end and with all
// that stands before the line.
fn filled_len(text: &[u8]) -> usize
    ensures within { result ≤ length text.now }
    ensures first { plain_records (take result text.now) ≡ take 1 (plain_records text.now) }
    ensures ended { result < length text.now → is_ended (take result text.now) ≡ true }
{
    let blank = blank_front(text);
    blank + line_len(&text[blank..])
}

/// The number of bytes up to the end of the first line that is not empty, with that end and with
/// all that stands before the line, a byte order mark too.
pub fn header_len(text: &[u8]) -> usize
    ensures within { result ≤ length text.now }
    ensures first { plain_records (strip_bom (take result text.now))
        ≡ take 1 (plain_records (strip_bom text.now)) }
    ensures ended { result < length text.now → is_ended (take result text.now) ≡ true }
{
    let body = strip_bom(text);
    (text.len() - body.len()) + filled_len(body)
}
