//! The header of a text, as a table of columns, and their order in the text.

ghost use Rattle.std.specs.Prelude.{◌≡◌, ◌<◌, ◌≤◌, IsTrue, IfOk, IfSome, MatchOption, false};
ghost use Rattle.std.specs.Prelude.{length, true};
ghost use Rattle.csv.specs.Records.{fields_of};
ghost use Rattle.lb_traces.specs.BitRows.{AreTruths};
ghost use Rattle.lb_trace.specs.PlainRows.{AreInOrder, ArePlaced, IsPlaced};
ghost use Rattle.lb_trace.specs.Spelling.{is_header};
ghost use Rattle.lb_trace.specs.Tables.{IsColumnTable};

use crate::groups::{Group, groups_of};
use crate::header::{Column, columns_of};
use crate::record::width;
use crate::truths::is_bool;
use csv::ByteRecord;
use lb_static::Signature;
use std::alloc::{AllocError, Global};

/// The columns of the scalar inputs.
pub struct ColumnTable {
    /// The record that names the columns.
    pub(crate) header: ByteRecord,
    /// The columns in the order of the signature.
    pub(crate) columns: Vec<Column>,
    /// The number of columns of the header.
    pub(crate) count: usize,
    /// Whether `columns` are all of the header, and each stands at its place in the signature.
    pub(crate) in_order: bool,
    /// The columns in the order of the text.
    pub(crate) placed: Vec<Column>,
    /// Whether `placed` are all of the header, and have each of `columns` at its place.
    pub(crate) is_placed: bool,
    /// Whether the columns stand in the order of the signature and are at most 64, all Booleans.
    pub(crate) are_truths: bool,
    /// The groups of `columns`, if they are in groups.
    pub(crate) groups: Option<Vec<Group>>,
}

// Not derived, so that a caller drops it in one step.
impl Drop for ColumnTable {
    fn drop(self) {
        let ColumnTable {
            header: _,
            columns: _,
            count: _,
            in_order: _,
            placed: _,
            is_placed: _,
            are_truths: _,
            groups: _,
        } = self;
    }
}

/// The table of a header; None where the record is not `trace` and then the name of each scalar
/// input once.
pub fn table_of(
    alloc: Global,
    signature: &Signature,
    header: ByteRecord,
) -> Result<Option<ColumnTable>, AllocError>
    ensures { IfOk result (λ found. MatchOption found
        (is_header signature.now (fields_of header) ≡ false)
        (λ table. (is_header signature.now (fields_of header) ≡ true)
        × (fields_of table.header ≡ fields_of header) × IsColumnTable signature.now table)) }
{
    let Some(columns) = columns_of(alloc, signature, &header)? else {
        return Ok(None);
    };
    let count = width(&header);
    let in_order = are_in_order(&columns, count);
    let placed = in_text_order(alloc, &columns, count)?;
    let is_placed = are_placed(&placed, &columns, count);
    let groups = groups_of(alloc, &columns)?;
    Ok(Some(ColumnTable {
        header,
        columns,
        count,
        in_order,
        placed,
        is_placed,
        are_truths: are_truths(signature, in_order),
        groups,
    }))
}

// Whether the columns stand in the order of the signature, and are 1 to 64 Booleans, so that one
// word holds a row.
fn are_truths(signature: &Signature, in_order: bool) -> bool
    ensures { IsTrue result → IsTrue in_order × AreTruths signature.now }
{
    let count = signature.len();
    if !in_order || count == 0 || count > 64 {
        return false;
    }
    for i in 0..count {
        if !is_bool(signature.kind(i)) {
            return false;
        }
    }
    true
}

// Whether each column stands at its place in the signature, and the header has no other columns.
fn are_in_order(table: &[Column], columns: usize) -> bool
    ensures { IsTrue result → (length table.now ≡ columns) × AreInOrder 0 table.now }
{
    if table.len() != columns {
        return false;
    }
    for (i, column) in table.iter().enumerate() {
        if column.at != i {
            return false;
        }
    }
    true
}

// The columns of a table in the order of the text, whose header has `columns` columns.
fn in_text_order(alloc: Global, table: &[Column], columns: usize) -> Result<Vec<Column>, AllocError>
    ensures { IfOk result (λ placed. length placed.items ≤ columns) }
{
    let mut placed = Vec::new(alloc);
    for at in 0..columns {
        if let Some(column) = column_at(table, at) {
            placed.push(column)?;
        }
    }
    Ok(placed)
}

// The column that stands at a place of the text.
fn column_at(table: &[Column], at: usize) -> Option<Column>
    ensures { IfSome result (λ column. column.at ≡ at) }
{
    for column in table {
        if column.at == at {
            return Some(*column);
        }
    }
    None
}

// Whether `placed` are `columns` columns, and have each column of `table` at its place.
fn are_placed(placed: &[Column], table: &[Column], columns: usize) -> bool
    ensures { IsTrue result → (length placed.now ≡ columns) × ArePlaced placed.now table.now }
{
    if placed.len() != columns {
        return false;
    }
    for column in table {
        if !is_placed(placed, *column) {
            return false;
        }
    }
    true
}

// Whether a column of the same kind stands at the place of this one.
fn is_placed(placed: &[Column], column: Column) -> bool
    ensures { IsTrue result → IsPlaced placed.now column }
{
    column.at < placed.len() && placed[column.at].kind == column.kind
}
