//! The first record of a text.

ghost use Rattle.std.specs.Prelude.{◌≡◌, ◌≤◌, ◌<◌, ◌++◌, ◌⊎◌, ℕ, List, true, false, length, IfSome};
ghost use Rattle.csv.specs.Reading.{is_bom, strip_bom};
ghost use Rattle.lb_part.specs.Heads.{head_of, record_end};
ghost use Rattle.lb_part.specs.Windows.{Follows};

use crate::window::ends_line;

/// Whether these bytes are a byte order mark.
fn is_mark(first: u8, second: u8, third: u8) -> bool
    ensures { result ≡ is_bom first second third }
{
    first == 0xEF && second == 0xBB && third == 0xBF
}

/// A text without the byte order mark at its start, if it has one.
fn without_mark(text: &[u8]) -> &[u8]
    ensures value { result.now ≡ strip_bom text.now }
    ensures short { length result.now ≤ length text.now }
{
    let [first, second, third, rest @ ..] = text else {
        return text;
    };
    if is_mark(*first, *second, *third) {
        rest
    } else {
        text
    }
}

/// The place behind the first record of a text and its line end; None where no record ends.
fn record_end(text: &[u8]) -> Option<usize>
    ensures value { result ≡ record_end false text.now }
    ensures within { IfSome result (λ end. end ≤ length text.now) }
{
    let mut begun = false;
    for (i, b) in text.iter().enumerate() {
        let ends = ends_line(*b);
        if ends && begun {
            return Some(i + 1);
        }
        begun = !ends;
    }
    None
}

/// The length of a text up to the end of its first record, by its first bytes; `is_last` if these
/// are all its bytes. None where more bytes may be part of the record.
pub(crate) fn head_end(text: &[u8], is_last: bool) -> Option<usize>
    requires { is_last ≡ false → 2 < length text.now }
    ensures within { IfSome result (λ end. end ≤ length text.now) }
    ensures head { IfSome result (λ end. (more : List ℕ) → Follows is_last more
        → head_of (text.now ++ more) ≡ end) }
{
    let body = without_mark(text);
    match record_end(body) {
        Some(end) => Some(text.len() - body.len() + end),
        None if is_last => Some(text.len()),
        None => None,
    }
}
