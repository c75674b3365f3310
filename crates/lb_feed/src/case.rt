//! A case text: a source and its traces in one text, parted by the line `%traces`.

ghost use Rattle.std.specs.Prelude.{◌≡◌, ◌≤◌, IfSome, length};
ghost use Rattle.lb_feed.specs.Cases as spec;

const WORD: &[u8] = b"%traces";

/// The length of the line end at the front of the text: a newline, a carriage return and a newline,
/// or the end of the text.
fn line_end(text: &[u8]) -> Option<usize>
    ensures value { result ≡ spec.line_end text.now }
    ensures within { IfSome result (λ n. n ≤ length text.now) }
{
    match text {
        [] => Some(0),
        [b'\n', ..] => Some(1),
        [b'\r', b'\n', ..] => Some(2),
        _ => None,
    }
}

/// The length of a line at the front of the text that is exactly `%traces`, with its end.
fn marker(text: &[u8]) -> Option<usize>
    ensures value { result ≡ spec.marker text.now }
    ensures within { IfSome result (λ n. n ≤ length text.now) }
{
    if !text.starts_with(WORD) {
        return None;
    }
    line_end(&text[7..]).map(|n| n + 7)
}

/// The source of a case text, and its traces: the bytes before the first line that is exactly
/// `%traces`, and the bytes after that line. Without such a line all bytes are the source, and
/// there are no traces.
pub fn split_case(text: &[u8]) -> (&[u8], &[u8])
    ensures source { result.0.now ≡ (spec.parts_of text.now).source }
    ensures traces { result.1.now ≡ (spec.parts_of text.now).traces }
{
    let mut at_start = true;
    for i in 0..text.len() {
        if at_start && let Some(n) = marker(&text[i..]) {
            return (&text[..i], &text[i + n..]);
        }
        at_start = text[i] == b'\n';
    }
    (text, &[])
}
