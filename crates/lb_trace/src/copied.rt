//! The cells of a record without quotes, one after the other.

ghost use Rattle.std.specs.Prelude.{◌≡◌, IfOk};
ghost use Rattle.csv.specs.Records.{fields_of};
ghost use Rattle.lb_trace.specs.Lines.{after_line, record_of};

use crate::scan::next_cell;
use csv::ByteRecord;
use std::alloc::AllocError;

/// Copies the cells of the first record of a text into `entry`, and returns the text after it.
pub(crate) fn copy_record<'t>(
    text: &'t [u8],
    entry: &mut ByteRecord,
) -> Result<&'t [u8], AllocError>
    ensures cells { IfOk result (λ rest. fields_of entry.new ≡ record_of text.now) }
    ensures after { IfOk result (λ rest. rest.now ≡ after_line text.now) }
{
    entry.clear();
    let mut rest = text;
    'cells: loop {
        let cell = next_cell(rest);
        entry.push_field(cell.bytes)?;
        rest = cell.rest;
        if cell.is_last {
            return Ok(rest);
        }
    }
}
