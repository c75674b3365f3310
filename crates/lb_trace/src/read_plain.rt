//! From the bytes of a trace text without quotes to a set of traces.

ghost use Rattle.std.specs.Prelude.{◌≡◌, ◌≤◌, length};
ghost use Rattle.lb_trace.specs.Correct.{IsTraceReading};
ghost use Rattle.lb_trace.specs.Plain.{plain_records};
ghost use Rattle.lb_trace.specs.Spelling.{records_of};

use crate::begun::begin;
use crate::error::TraceError;
use crate::recorder::Recorder;
use csv::ByteRecord;
use lb_static::Signature;
use lb_traces::TraceSet;
use std::alloc::{AllocError, Global};

/// The traces that a text without quotes spells under a signature; `body` is the text after its
/// byte order mark, and `entry` is room for a record.
pub(crate) fn read_plain(
    alloc: Global,
    signature: &Signature,
    text: &[u8],
    body: &[u8],
    entry: &mut ByteRecord,
) -> Result<TraceSet, TraceError>
    requires short { length text.now ≤ 1073741824 }
    requires plain { records_of text.now ≡ plain_records body.now }
    ensures { IsTraceReading signature.now text.now result }
{
    let Ok(found) = begin(alloc, signature, body) else {
        return Err(TraceError::Memory(AllocError));
    };
    let Some(begun) = found else {
        return Err(TraceError::Header);
    };
    let Ok(mut recorder) = Recorder::with_room(alloc, signature, begun.rest.len()) else {
        return Err(TraceError::Memory(AllocError));
    };
    recorder.add_lines(alloc, &begun.table, begun.rest, entry)?;
    Ok(recorder.rows.into_set())
}
