//! One cell of a text after the other.

ghost use Rattle.std.specs.Prelude.{◌≡◌, MatchOption, [], ◌∷◌, if◌then◌else◌, true, false};
ghost use Rattle.lb_trace.specs.Chunks.{is_ended};
ghost use Rattle.lb_trace.specs.Lines.{after_line, record_of};
ghost use Rattle.lb_trace.specs.Plain.{ends_line, plain_records};
ghost use Rattle.lb_trace.specs.Scan.{after_cell, begun_records, cell_of, ends_cell, is_last_cell};

/// A cell, the text after it, and whether it is the last one of its record.
#[derive(Clone, Copy)]
pub(crate) struct Cell<'t> {
    pub(crate) bytes: &'t [u8],
    pub(crate) rest: &'t [u8],
    pub(crate) is_last: bool,
}

/// Whether a byte that ends a cell ends its record too; None where it ends no cell.
#[inline(always)]
pub(crate) fn end_of(b: u8) -> Option<bool>
    ensures { MatchOption result (ends_cell b ≡ false)
        (λ last. (ends_cell b ≡ true) × (last ≡ ends_line b)) }
{
    if b == b',' {
        Some(false)
    } else if b == b'\n' || b == b'\r' {
        Some(true)
    } else {
        None
    }
}

/// Whether a byte is the end of a line.
#[inline(always)]
pub(crate) fn ends_line(b: u8) -> bool
    ensures { result ≡ ends_line b }
{
    b == b'\r' || b == b'\n'
}

/// Whether the last byte of a text is the end of a line.
pub(crate) fn is_ended(text: &[u8]) -> bool
    ensures { result ≡ is_ended text.now }
{
    !text.is_empty() && ends_line(text[text.len() - 1])
}

/// The first cell of a text that begins with a record, or within one.
#[inline]
pub(crate) fn next_cell<'t>(text: &'t [u8]) -> Cell<'t>
    // The record of the text is this cell, and then the cells of the record of the rest.
    ensures cells { record_of text.now
        ≡ result.bytes.now ∷ (if result.is_last then [] else record_of result.rest.now) }
    ensures after { after_line text.now
        ≡ (if result.is_last then result.rest.now else after_line result.rest.now) }
    // Each of the three fields by itself.
    ensures bytes { result.bytes.now ≡ cell_of text.now }
    ensures rest { result.rest.now ≡ after_cell text.now }
    ensures last { result.is_last ≡ is_last_cell text.now }
{
    for (i, b) in text.iter().enumerate() {
        if let Some(is_last) = end_of(*b) {
            return Cell {
                bytes: &text[..i],
                rest: &text[i + 1..],
                is_last,
            };
        }
    }
    Cell {
        bytes: text,
        rest: &text[text.len()..],
        is_last: true,
    }
}

/// The text from its first record on, or nothing where there is none.
#[inline]
pub(crate) fn skip_line_ends<'t>(text: &'t [u8]) -> &'t [u8]
    ensures { plain_records text.now ≡ begun_records result.now }
{
    for (i, b) in text.iter().enumerate() {
        if !ends_line(*b) {
            return &text[i..];
        }
    }
    &text[text.len()..]
}
