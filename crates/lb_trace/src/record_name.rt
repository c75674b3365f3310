//! The name of a record, which mostly is the name of the record before it.

ghost use Rattle.std.specs.Prelude.{◌≡◌, ◌∷◌, [], if◌then◌else◌, IfSome};
ghost use Rattle.lb_traces.specs.Traces.{IsTraceName};
ghost use Rattle.lb_trace.specs.Lines.{after_line, record_of};
ghost use Rattle.lb_trace.specs.Nexts.{IsNamed};
ghost use Rattle.lb_trace.specs.Refusals.{is_last};

use crate::recorder::is_last;
use crate::scan::{Cell, next_cell};
use lb_traces::TraceSet;

/// The name of a record, which is its first cell, the text after it, whether it is the only cell of
/// its record, and whether the last trace has this name.
#[derive(Clone, Copy)]
pub(crate) struct RecordName<'t> {
    pub(crate) bytes: &'t [u8],
    pub(crate) rest: &'t [u8],
    pub(crate) is_last: bool,
    pub(crate) is_same: bool,
}

/// The name of the first record of a text. The name of the last trace is compared first, before
/// the end of the cell is searched.
#[inline(always)]
pub(crate) fn name_of<'t>(set: &TraceSet, text: &'t [u8]) -> RecordName<'t>
    ensures cells { record_of text.now ≡ result.bytes.now
        ∷ (if result.is_last then [] else record_of result.rest.now) }
    ensures after { after_line text.now
        ≡ (if result.is_last then result.rest.now else after_line result.rest.now) }
    ensures same { result.is_same ≡ is_last result.bytes.now set.now.traces }
{
    let count = set.len();
    if count > 0 {
        let _ = set.signature();
        if let Some(cell) = cell_of_name(set.name(count - 1).as_bytes(), text) {
            return RecordName {
                bytes: cell.bytes,
                rest: cell.rest,
                is_last: cell.is_last,
                is_same: true,
            };
        }
    }
    let cell = next_cell(text);
    RecordName {
        bytes: cell.bytes,
        rest: cell.rest,
        is_last: cell.is_last,
        is_same: is_last(set, cell.bytes),
    }
}

// The first cell of a text where it is `name` with a comma after it. None says nothing of the text.
#[inline]
fn cell_of_name<'t>(name: &[u8], text: &'t [u8]) -> Option<Cell<'t>>
    requires { IsTraceName name.now }
    ensures { IfSome result
        (λ cell. IsNamed name.now text.now cell.bytes.now cell.rest.now cell.is_last) }
{
    let count = name.len();
    if text.len() <= count || text[count] != b',' {
        return None;
    }
    let bytes = &text[..count];
    if bytes != name {
        return None;
    }
    Some(Cell {
        bytes,
        rest: &text[count + 1..],
        is_last: false,
    })
}
