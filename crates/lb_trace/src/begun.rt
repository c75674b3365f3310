//! The header of a text without quotes, and the text after it.

ghost use Rattle.std.specs.Prelude.{◌≡◌, ◌∷◌, IfOk, MatchOption, false, true};
ghost use Rattle.csv.specs.Records.{fields_of};
ghost use Rattle.lb_trace.specs.Plain.{plain_records};
ghost use Rattle.lb_trace.specs.Spelling.{is_header};
ghost use Rattle.lb_trace.specs.Tables.{IsColumnTable, has_header};

use crate::copied::copy_record;
use crate::scan::skip_line_ends;
use crate::table::{ColumnTable, table_of};
use csv::ByteRecord;
use lb_static::Signature;
use std::alloc::{AllocError, Global};

/// A text whose header has been read: its table, and the text after it.
#[derive(Drop)]
pub struct Begun<'t> {
    pub table: ColumnTable,
    pub rest: &'t [u8],
}

/// Reads the header of a text; None where its first record is no header, or it has no record.
pub fn begin<'t>(
    alloc: Global,
    signature: &Signature,
    body: &'t [u8],
) -> Result<Option<Begun<'t>>, AllocError>
    ensures { IfOk result (λ found. MatchOption found
        (has_header signature.now (plain_records body.now) ≡ false)
        (λ begun. (is_header signature.now (fields_of begun.table.header) ≡ true)
        × (plain_records body.now
        ≡ fields_of begun.table.header ∷ plain_records begun.rest.now)
        × IsColumnTable signature.now begun.table)) }
{
    let first = skip_line_ends(body);
    if first.is_empty() {
        return Ok(None);
    }
    let mut header = ByteRecord::new(alloc);
    let rest = copy_record(first, &mut header)?;
    let Some(table) = table_of(alloc, signature, header)? else {
        return Ok(None);
    };
    Ok(Some(Begun { table, rest }))
}
