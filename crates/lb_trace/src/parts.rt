//! A text in parts, which can be read side by side.

ghost use Rattle.std.specs.Prelude.{◌≡◌, ◌||◌, ◌++◌, IfOk, flat_map};
ghost use Rattle.std.specs.List.{list_any};
ghost use Rattle.lb_trace.specs.Plain.{has_quote, plain_records};

use crate::scan::ends_line;
use std::alloc::{AllocError, Global};

/// A part of a text, and the text after it.
#[derive(Clone, Copy)]
struct Cut<'t> {
    part: &'t [u8],
    rest: &'t [u8],
}

/// A text in `count` parts. Their records, one part after the other, are the records of the text,
/// and the text has a quote if and only if one of the parts has.
pub(crate) fn parts_of<'t>(
    alloc: Global,
    text: &'t [u8],
    count: u32,
) -> Result<Vec<&'t [u8]>, AllocError>
    ensures records { IfOk result (λ parts. plain_records text.now
        ≡ flat_map (λ part. plain_records part.now) parts.items) }
    ensures quotes { IfOk result (λ parts. has_quote text.now
        ≡ list_any (λ part. has_quote part.now) parts.items) }
{
    let size = text.len() / count.max(1) as usize;
    let mut parts = Vec::new(alloc);
    let mut rest = text;
    'cuts: for _ in 1..count {
        let cut = cut_at(rest, size);
        parts.push(cut.part)?;
        rest = cut.rest;
    }
    parts.push(rest)?;
    Ok(parts)
}

// Cuts a text at the first end of a line from place `from` on.
fn cut_at<'t>(text: &'t [u8], from: usize) -> Cut<'t>
    ensures records { plain_records text.now
        ≡ plain_records result.part.now ++ plain_records result.rest.now }
    ensures quotes { has_quote text.now
        ≡ (has_quote result.part.now || has_quote result.rest.now) }
{
    for i in from..text.len() {
        if ends_line(text[i]) {
            return Cut {
                part: &text[..i],
                rest: &text[i + 1..],
            };
        }
    }
    Cut {
        part: text,
        rest: &text[text.len()..],
    }
}
