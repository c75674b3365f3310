//! Whether a text is free of quotes, and of a byte order mark at its start.

ghost use Rattle.std.specs.Prelude.{◌≡◌, IsTrue, false, not};
ghost use Rattle.csv.specs.Reading.{default_config, is_bom, records, strip_bom};
ghost use Rattle.std.specs.List.{list_any};
ghost use Rattle.lb_trace.specs.Plain.{has_quote, plain_records};

use rayon::prelude::*;
use std::thread::Threads;

/// Whether the byte `"` stands nowhere in a text, so that its records are its lines cut at commas.
pub fn is_plain(text: &[u8]) -> bool
    ensures value { result ≡ not (has_quote text.now) }
    ensures records { IsTrue result → records default_config text.now ≡ plain_records text.now }
{
    let mut has_quote = false;
    for b in text {
        has_quote = has_quote | (*b == b'"');
    }
    !has_quote
}

/// Whether all parts are free of quotes. Threads search them side by side.
pub(crate) fn are_plain<R: Threads + Sync>(rt: &R, parts: &[&[u8]]) -> bool
    ensures { IsTrue result → list_any (λ part. has_quote part.now) parts.now ≡ false }
{
    parts
        .par_iter()
        // A part is worth a thread of its own, however few there are.
        .with_min_len(1)
        .all(
            rt,
            |part: &&[u8]| -> bool
                ensures { result ≡ not (has_quote part.now.now) }
            { is_plain(part) },
        )
}

/// A text without the byte order mark at its start, if it has one.
pub fn strip_bom<'t>(text: &'t [u8]) -> &'t [u8]
    ensures { result.now ≡ strip_bom text.now }
{
    let [first, second, third, rest @ ..] = text else {
        return text;
    };
    if is_bom(*first, *second, *third) {
        rest
    } else {
        text
    }
}

fn is_bom(first: u8, second: u8, third: u8) -> bool
    ensures { result ≡ is_bom first second third }
{
    first == 0xEF && second == 0xBB && third == 0xBF
}
