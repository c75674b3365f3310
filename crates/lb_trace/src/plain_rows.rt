//! The row that the cells of a record without quotes spell, in one pass over its bytes.

ghost use Rattle.std.specs.Prelude.{◌≡◌, Some, None, IfOk, MatchOption, length};
ghost use Rattle.lb_trace.specs.Cells.{cell_value};
ghost use Rattle.lb_trace.specs.Lines.{EndsRecord, after_line, record_of};
ghost use Rattle.lb_trace.specs.PlainRows.{BeginsWith, plain_row};
ghost use Rattle.lb_trace.specs.Scan.{cell_of};

use crate::cells::cell_value;
use crate::fast_cells::{Value, small_cell};
use crate::header::Column;
use crate::numbers::{four_numbers, last_numbers};
use crate::row_cells::{make_long, put_first, put_four, put_one};
use crate::scan::next_cell;
use crate::truths::four_cells;
use lb_syntax::Kind;
use std::alloc::AllocError;

/// Reads the cells of a record into `row`, one for each column, and returns the place behind the
/// record; None where the cells spell no such row.
#[inline(always)]
pub(crate) fn read_line(
    columns: &[Column],
    text: &[u8],
    row: &mut Vec<i32>,
) -> Result<Option<usize>, AllocError>
    ensures { IfOk result (λ after. MatchOption after
        (plain_row columns.now (record_of text.now) ≡ None)
        (λ past. (plain_row columns.now (record_of text.now) ≡ Some row.new.items)
        × EndsRecord text.now past)) }
{
    make_long(row, columns.len())?;
    Ok(past_line(columns, text, row.as_mut_slice()))
}

// `read_line` into `cells`, which has a cell for each column.
#[inline(never)]
fn past_line(columns: &[Column], text: &[u8], cells: &mut [i32]) -> Option<usize>
    requires { length cells.old ≡ length columns.now }
    ensures { MatchOption result
        (plain_row columns.now (record_of text.now) ≡ None)
        (λ past. (plain_row columns.now (record_of text.now) ≡ Some cells.new)
        × EndsRecord text.now past) }
{
    let Some(rest) = fill_line(columns, text, cells) else {
        return None;
    };
    Some(text.len() - rest.len())
}

// `past_line` that returns the text after the record.
#[inline(always)]
fn fill_line<'t>(columns: &[Column], text: &'t [u8], cells: &mut [i32]) -> Option<&'t [u8]>
    requires { length cells.old ≡ length columns.now }
    ensures { MatchOption result
        (plain_row columns.now (record_of text.now) ≡ None)
        (λ rest. (plain_row columns.now (record_of text.now) ≡ Some cells.new)
        × (rest.now ≡ after_line text.now)) }
{
    let mut rest = text;
    let mut i = 0;
    while columns.len() - i > 4 {
        if let Some(values) = four_cells(&columns[i..], rest) {
            put_four(cells, i, values);
            rest = &rest[8..];
            i += 4;
            continue;
        }
        if let Some(numbers) = four_numbers(&columns[i..], rest) {
            let values = numbers.values;
            put_four(cells, i, values);
            rest = numbers.rest;
            i += 4;
            continue;
        }
        let Some(cell) = small_cell(columns[i].kind, rest, true) else {
            return other_cells(&columns[i..], rest, &mut cells[i..]);
        };
        put_one(cells, i, cell.value);
        i += 1;
        if cell.is_last {
            return None;
        }
        rest = cell.rest;
    }
    last_cells(&columns[i..], rest, &mut cells[i..])
}

// `fill_line` for the last few cells.
#[inline(always)]
fn last_cells<'t>(columns: &[Column], text: &'t [u8], cells: &mut [i32]) -> Option<&'t [u8]>
    requires { length cells.old ≡ length columns.now }
    ensures { MatchOption result
        (plain_row columns.now (record_of text.now) ≡ None)
        (λ rest. (plain_row columns.now (record_of text.now) ≡ Some cells.new)
        × (rest.now ≡ after_line text.now)) }
{
    if let Some(numbers) = last_numbers(columns, text) {
        let values = numbers.values;
        put_first(cells, values);
        return Some(numbers.rest);
    }
    other_cells(columns, text, cells)
}

// `fill_line` for cells of any length.
// It stays a call, so that the loop over inner cells keeps its registers.
#[inline(never)]
fn other_cells<'t>(columns: &[Column], text: &'t [u8], cells: &mut [i32]) -> Option<&'t [u8]>
    requires { length cells.old ≡ length columns.now }
    ensures { MatchOption result
        (plain_row columns.now (record_of text.now) ≡ None)
        (λ rest. (plain_row columns.now (record_of text.now) ≡ Some cells.new)
        × (rest.now ≡ after_line text.now)) }
{
    let mut rest = text;
    for (i, column) in columns.iter().enumerate() {
        let Some(cell) = any_cell(column.kind, rest) else {
            return None;
        };
        put_one(cells, i, cell.value);
        if cell.is_last {
            if i + 1 != columns.len() {
                return None;
            }
            return Some(cell.rest);
        }
        rest = cell.rest;
    }
    None
}

// The value of the first cell; None where it is no value of this kind.
fn any_cell<'t>(kind: Kind, text: &'t [u8]) -> Option<Value<'t>>
    ensures { MatchOption result (cell_value kind (cell_of text.now) ≡ None)
        (λ v. BeginsWith kind text.now v.value v.rest.now v.is_last) }
{
    if let Some(value) = small_cell(kind, text, false) {
        return Some(value);
    }
    let cell = next_cell(text);
    let Some(value) = cell_value(kind, cell.bytes) else {
        return None;
    };
    Some(Value {
        value,
        rest: cell.rest,
        is_last: cell.is_last,
    })
}
