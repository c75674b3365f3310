//! The records of a text, one after the other.

ghost use Rattle.std.specs.Prelude.{◌≡◌, ℕ, List, [], IfOk, IfErr};
ghost use Rattle.csv.specs.Records.{fields_of};
ghost use Rattle.lb_trace.specs.Errors.{error_number};
ghost use Rattle.lb_trace.specs.Readers.{Goes, Reaches};
ghost use Rattle.lb_trace.specs.Spelling.{Record};

use crate::error::TraceError;
use csv::{ByteRecord, Reader, ReaderBuilder};
use std::alloc::{AllocError, Global};

/// A reader of all records of a text, of any lengths, the first one too.
pub fn reader_of(alloc: Global, text: &[u8]) -> Reader<&[u8]>
    ensures { Reaches text.now [] result }
{
    ReaderBuilder::new()
        .has_headers(false)
        .flexible(true)
        .from_reader(alloc, text)
}

/// The next record, and whether there was one.
pub fn next(reader: &mut Reader<&[u8]>, entry: &mut ByteRecord) -> Result<bool, TraceError>
    ensures goes { IfOk result (λ found. (text : List ℕ) → (records : List Record)
        → Reaches text records reader.old
        → Goes text records reader.new (fields_of entry.new) found) }
    ensures memory { IfErr result (λ e. error_number e ≡ 0) }
{
    let Ok(found) = reader.read_byte_record(entry) else {
        return Err(TraceError::Memory(AllocError));
    };
    Ok(found)
}
