//! The row of a record without quotes, whose columns stand in any order.

ghost use Rattle.std.specs.Prelude.{◌≡◌, ◌<◌, IsTrue, IfOk, IfSome, OnOk, Some, get_or, length};
ghost use Rattle.std.specs.Prelude.{map, pos};
ghost use Rattle.std.specs.List.{All};
ghost use Rattle.lb_trace.specs.Lines.{EndsRecord, record_of};
ghost use Rattle.lb_trace.specs.Mirrors.{row_by};
ghost use Rattle.lb_trace.specs.PlainRows.{AreInOrder, ArePlaced};

use crate::header::Column;
use crate::plain_rows::read_line;
use crate::row_cells::make_long;
use crate::table::ColumnTable;
use std::alloc::AllocError;

/// Reads the cells of a record into `row`, in the order of the signature, and returns the place
/// behind the record; None says nothing of the text. `values` is room for the cells in the order of
/// the text.
#[inline(always)]
pub(crate) fn read_cells(
    table: &ColumnTable,
    text: &[u8],
    values: &mut Vec<i32>,
    row: &mut Vec<i32>,
) -> Result<Option<usize>, AllocError>
    requires order { IsTrue table.now.in_order
        → (length table.now.columns.items ≡ table.now.count)
        × AreInOrder 0 table.now.columns.items }
    requires placed { IsTrue table.now.is_placed
        → (length table.now.placed.items ≡ table.now.count)
        × ArePlaced table.now.placed.items table.now.columns.items }
    ensures { IfOk result (λ found. IfSome found (λ past.
        (length (record_of text.now) ≡ table.now.count)
        × (row_by table.now.columns.items (record_of text.now) ≡ Some row.new.items)
        × EndsRecord text.now past)) }
{
    if table.in_order {
        return read_line(&table.columns, text, row);
    }
    if table.is_placed {
        return read_placed(&table.placed, &table.columns, text, values, row);
    }
    Ok(None)
}

// `read_cells` by `placed`, the columns in the order of the text.
#[inline(always)]
fn read_placed(
    placed: &[Column],
    columns: &[Column],
    text: &[u8],
    values: &mut Vec<i32>,
    row: &mut Vec<i32>,
) -> Result<Option<usize>, AllocError>
    requires { ArePlaced placed.now columns.now }
    ensures { IfOk result (λ found. IfSome found (λ past.
        (length (record_of text.now) ≡ length placed.now)
        × (row_by columns.now (record_of text.now) ≡ Some row.new.items)
        × EndsRecord text.now past)) }
{
    let Some(past) = read_line(placed, text, values)? else {
        return Ok(None);
    };
    take_places(columns, values, row)?;
    Ok(Some(past))
}

// Copies the value at the place of each column into `row`.
fn take_places(columns: &[Column], values: &[i32], row: &mut Vec<i32>) -> Result<(), AllocError>
    requires { All (λ column. column.at < length values.now) columns.now }
    ensures { OnOk result
        (row.new.items ≡ map (λ column. get_or values.now column.at (pos 0)) columns.now) }
{
    make_long(row, columns.len())?;
    fill_places(columns, values, row.as_mut_slice());
    Ok(())
}

// `take_places` into a row that has a cell for each column.
fn fill_places(columns: &[Column], values: &[i32], row: &mut [i32])
    requires within { All (λ column. column.at < length values.now) columns.now }
    requires room { length row.old ≡ length columns.now }
    ensures { row.new ≡ map (λ column. get_or values.now column.at (pos 0)) columns.now }
{
    for (i, column) in columns.iter().enumerate() {
        row[i] = values[column.at];
    }
}
