//! The header of a trace text: the column of each scalar input.

ghost use Rattle.std.specs.Prelude.{◌≡◌, ◌==◌, ◌<◌, ◌≤◌, false, true, length, map, IfOk};
ghost use Rattle.std.specs.Prelude.{MatchOption};
ghost use Rattle.std.specs.List.{count_by, list_all, list_any, position_or_len};
ghost use Rattle.std.specs.Str.{bytes_eq};
ghost use Rattle.csv.specs.Records.{fields_of};
ghost use Rattle.lb_static.specs.Signature.{names_of};
ghost use Rattle.lb_trace.specs.Spelling.{after_first, begins, is_header};
ghost use Rattle.lb_trace.specs.Mirrors.{column_of};

use crate::record::{cell, width};
use csv::ByteRecord;
use lb_static::Signature;
use lb_syntax::Kind;
use std::alloc::{AllocError, Global};

/// The place and the kind of the cells of a scalar input.
#[derive(Clone, Copy)]
pub(crate) struct Column {
    /// The number of columns before it, `trace` not counted.
    pub(crate) at: usize,
    pub(crate) kind: Kind,
}

/// The column of each scalar input, in the order of the signature; None where the record is not
/// `trace` and then the name of each scalar input once.
pub(crate) fn columns_of(
    alloc: Global,
    signature: &Signature,
    header: &ByteRecord,
) -> Result<Option<Vec<Column>>, AllocError>
    ensures { IfOk result (λ columns. MatchOption columns
        (is_header signature.now (fields_of header.now) ≡ false)
        (λ cs. (is_header signature.now (fields_of header.now) ≡ true)
        × (cs.items ≡ map (column_of (after_first (fields_of header.now))) signature.now))) }
{
    if !begins(header) || !has_no_other(signature, header) {
        return Ok(None);
    }
    let mut columns = Vec::new(alloc);
    for i in 0..signature.len() {
        let name = signature.name(i).as_bytes();
        if count(header, name) != 1 {
            return Ok(None);
        }
        columns.push(Column {
            at: position(header, name),
            kind: signature.kind(i),
        })?;
    }
    Ok(Some(columns))
}

// Whether the first cell is `trace`.
fn begins(header: &ByteRecord) -> bool
    ensures { result ≡ begins (fields_of header.now) }
{
    match header.get(0) {
        Some(first) => first == b"trace".as_slice(),
        None => false,
    }
}

// Whether each column has the name of some scalar input.
fn has_no_other(signature: &Signature, header: &ByteRecord) -> bool
    ensures { result ≡ list_all (λ column. list_any (bytes_eq column) (names_of signature.now))
        (after_first (fields_of header.now)) }
{
    for i in 0..width(header) {
        if !is_named(signature, cell(header, i)) {
            return false;
        }
    }
    true
}

// Whether some scalar input has this name.
fn is_named(signature: &Signature, column: &[u8]) -> bool
    ensures { result ≡ list_any (bytes_eq column.now) (names_of signature.now) }
{
    for i in 0..signature.len() {
        if column == signature.name(i).as_bytes() {
            return true;
        }
    }
    false
}

// The number of columns with this name.
fn count(header: &ByteRecord, name: &[u8]) -> usize
    ensures { result ≡ count_by (bytes_eq name.now) (after_first (fields_of header.now)) }
{
    let mut count = 0;
    for i in 0..width(header) {
        if name == cell(header, i) {
            count += 1;
        }
    }
    count
}

// The number of columns before the first one with this name.
fn position(header: &ByteRecord, name: &[u8]) -> usize
    ensures { result ≡ position_or_len (bytes_eq name.now) (after_first (fields_of header.now)) }
{
    for i in 0..width(header) {
        if name == cell(header, i) {
            return i;
        }
    }
    width(header)
}
