//! A search for the place where a trace begins, by some bytes of a text without quotes.

ghost use Rattle.std.specs.Prelude.{◌≡◌, ◌≤◌, ◌<◌, ◌++◌, ℕ, List, true, false, IfSome, length};
ghost use Rattle.lb_part.specs.Cuts.{ends_cell, ends_line, name_of};
ghost use Rattle.lb_part.specs.Windows.{Follows, GoesOn, HasName, HasOtherName, IsCutBy, IsOver};

/// Whether a byte ends a line.
pub(crate) fn ends_line(b: u8) -> bool
    ensures { result ≡ ends_line b }
{
    b == b'\r' || b == b'\n'
}

/// Whether a byte ends a cell.
fn ends_cell(b: u8) -> bool
    ensures { result ≡ ends_cell b }
{
    b == b',' || ends_line(b)
}

/// The first cell of a text; `is_last` if no more bytes follow. None where more bytes may be part
/// of the cell.
fn name_of(text: &[u8], is_last: bool) -> Option<&[u8]>
    ensures { IfSome result (λ name. (more : List ℕ) → Follows is_last more
        → name_of (text.now ++ more) ≡ name.now) }
{
    for (i, b) in text.iter().enumerate() {
        if ends_cell(*b) {
            return Some(&text[..i]);
        }
    }
    if is_last { Some(text) } else { None }
}

/// Bytes of a text that follow one another.
#[derive(Clone, Copy)]
pub(crate) struct Window<'w> {
    pub(crate) bytes: &'w [u8],
    /// Whether the text begins with them.
    pub(crate) is_first: bool,
    /// Whether the text ends with them.
    pub(crate) is_last: bool,
}

impl Window<'_> {
    /// Whether the records at two places have different names; None where that is not known yet.
    fn is_apart(self, before: usize, place: usize) -> Option<bool>
        requires before { before ≤ length self.bytes.now }
        requires place { place ≤ length self.bytes.now }
        ensures same { IfSome result (λ apart.
            apart ≡ false → HasName self.entry.is_last self.entry.bytes.now before place) }
        ensures other { IfSome result (λ apart.
            apart ≡ true → HasOtherName self.entry.is_last self.entry.bytes.now before place) }
    {
        let last = name_of(&self.bytes[before..], self.is_last)?;
        let name = name_of(&self.bytes[place..], self.is_last)?;
        Some(last != name)
    }

    /// Whether a trace begins with the record at `place`, and `place` is not before `from`, by the
    /// record `last` before it; None where that is not known yet.
    fn is_cut(self, last: Option<usize>, place: usize, from: usize) -> Option<bool>
        requires last { IfSome last (λ before. before ≤ length self.bytes.now) }
        requires place { place ≤ length self.bytes.now }
        ensures over { IfSome result (λ cut. cut ≡ true → (from ≤ place)
            × IsOver self.entry.is_first self.entry.is_last self.entry.bytes.now last place) }
        ensures goes_on { IfSome result (λ cut. cut ≡ false → from ≤ place
            → GoesOn self.entry.is_last self.entry.bytes.now last place) }
    {
        if place < from {
            return Some(false);
        }
        match last {
            Some(before) => self.is_apart(before, place),
            None if self.is_first => Some(true),
            None => None,
        }
    }

    /// The first place, at `from` or behind it, where the text can be cut; None where that is not
    /// known yet.
    pub(crate) fn cut(self, from: usize) -> Option<usize>
        requires from { from ≤ length self.bytes.now }
        requires later { self.is_first ≡ false → 0 < from }
        ensures { IfSome result (IsCutBy self.entry.is_first self.entry.is_last
            self.entry.bytes.now from) }
    {
        if from == 0 {
            return Some(0);
        }
        let mut begins = self.is_first;
        let mut last = None;
        for (i, b) in self.bytes.iter().enumerate() {
            let has_record = begins && !ends_line(*b);
            begins = ends_line(*b);
            if has_record {
                if self.is_cut(last, i, from)? {
                    return Some(i);
                }
                last = Some(i);
            }
        }
        if self.is_last {
            Some(self.bytes.len())
        } else {
            None
        }
    }
}
