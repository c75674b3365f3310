//! The row that the cells of a record spell.

ghost use Rattle.std.specs.Prelude.{◌≡◌, Some, None, IfOk, MatchOption};
ghost use Rattle.csv.specs.Records.{fields_of};
ghost use Rattle.lb_trace.specs.Spelling.{after_first};
ghost use Rattle.lb_trace.specs.Mirrors.{row_by};

use crate::cells::cell_value;
use crate::header::Column;
use crate::record::cell;
use csv::ByteRecord;
use std::alloc::AllocError;

/// Reads the cells of a record into `row`, in the order of `columns`. Returns the number of the
/// column, counted from 0, of the first cell that is no value of its column; None if all are.
pub(crate) fn read_row(
    columns: &[Column],
    entry: &ByteRecord,
    row: &mut Vec<i32>,
) -> Result<Option<usize>, AllocError>
    ensures { IfOk result (λ bad. MatchOption bad
        (row_by columns.now (after_first (fields_of entry.now)) ≡ Some row.new.items)
        (λ _. row_by columns.now (after_first (fields_of entry.now)) ≡ None)) }
{
    row.clear();
    for column in columns {
        let Some(value) = cell_value(column.kind, cell(entry, column.at)) else {
            return Ok(Some(column.at));
        };
        row.push(value)?;
    }
    Ok(None)
}
