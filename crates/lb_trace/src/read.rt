//! From the bytes of a trace text to a set of traces.

ghost use Rattle.std.specs.Prelude.{◌≤◌, [], length};
ghost use Rattle.lb_trace.specs.Correct.{IsTraceReading};
ghost use Rattle.lb_trace.specs.Readers.{Reaches};

use crate::error::TraceError;
use crate::header::columns_of;
use crate::parallel::read_spread;
use crate::parts::parts_of;
use crate::plain::{is_plain, strip_bom};
use crate::read_plain::read_plain;
use crate::reader::{next, reader_of};
use crate::record::width;
use crate::recorder::Recorder;
use csv::{ByteRecord, Reader};
use lb_static::Signature;
use lb_traces::TraceSet;
use std::alloc::{AllocError, Global};
use std::thread::Threads;

/// The most bytes of a trace text.
pub(crate) const MOST_BYTES: usize = 1_073_741_824;

/// The parts of a text that is read by as many workers as there are processors.
const MOST_PARTS: u32 = 64;

/// The traces that a text spells under a signature.
///
/// The first record is `trace` and the name of each scalar input, in any order. Each later one is
/// an instant: the name of its trace, and a cell for each column. Adjacent records of one name are
/// one trace. An error is the first refusal: of the text's length (E18), of the header (E14), or
/// of the first record with a fault, in it of its length (E15), its name (E17), a cell (E16) or a
/// limit (E18).
///
/// ```text
/// trace,x
/// a,1
/// a,5
/// b,0
/// ```
pub fn read_traces(
    alloc: Global,
    signature: &Signature,
    text: &[u8],
) -> Result<TraceSet, TraceError>
    ensures { IsTraceReading signature.now text.now result }
{
    if text.len() > MOST_BYTES {
        return Err(TraceError::Limit { record: None });
    }
    let mut record = ByteRecord::new(alloc);
    let body = strip_bom(text);
    if is_plain(body) {
        return read_plain(alloc, signature, text, body, &mut record);
    }
    let mut reader = reader_of(alloc, text);
    read_records(alloc, signature, text, &mut reader, &mut record)
}

/// `read_traces` by at most `workers` workers, or by as many as there are processors where it is 0.
/// A text with quotes is read by one.
pub fn read_traces_by<R: Threads + Sync>(
    rt: &R,
    alloc: Global,
    signature: &Signature,
    text: &[u8],
    workers: u32,
) -> Result<TraceSet, TraceError>
    ensures { IsTraceReading signature.now text.now result }
{
    if workers == 1 || text.len() > MOST_BYTES {
        return read_traces(alloc, signature, text);
    }
    let count = if workers == 0 { MOST_PARTS } else { workers };
    let Ok(parts) = parts_of(alloc, strip_bom(text), count) else {
        return read_traces(alloc, signature, text);
    };
    match read_spread(rt, alloc, signature, &parts) {
        Some(set) => Ok(set),
        // A text that has a quote, is refused, or does not join, is read by one worker.
        None => read_traces(alloc, signature, text),
    }
}

// `read_traces` of a text that is not too long; `reader` has read none of it, and `record` is room
// for a record.
fn read_records(
    alloc: Global,
    signature: &Signature,
    text: &[u8],
    reader: &mut Reader<&[u8]>,
    record: &mut ByteRecord,
) -> Result<TraceSet, TraceError>
    requires short { length text.now ≤ 1073741824 }
    requires reaches { Reaches text.now [] reader.old }
    ensures { IsTraceReading signature.now text.now result }
{
    if !next(reader, record)? {
        return Err(TraceError::Header);
    }
    let Ok(header) = columns_of(alloc, signature, record) else {
        return Err(TraceError::Memory(AllocError));
    };
    let Some(table) = header else {
        return Err(TraceError::Header);
    };
    let columns = width(record);
    let Ok(mut recorder) = Recorder::new(alloc, signature) else {
        return Err(TraceError::Memory(AllocError));
    };
    for number in 1..u64::MAX {
        if !next(reader, record)? {
            return Ok(recorder.rows.into_set());
        }
        recorder.add(alloc, &table, columns, record, number)?;
    }
    unreachable!()
}
