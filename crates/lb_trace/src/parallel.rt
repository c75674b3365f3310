//! A text without quotes, read in parts side by side.

ghost use Rattle.std.specs.Prelude.{◌≡◌, ◌∷◌, ℕ, List, All, IfOk, IfSome, OnOk, flat_map};
ghost use Rattle.std.specs.List.{AllZip};
ghost use Rattle.lb_traces.specs.Traces.{IsRecording};
ghost use Rattle.lb_trace.specs.Plain.{plain_records};
ghost use Rattle.lb_trace.specs.Parts.{HaveRecordsOf};
ghost use Rattle.lb_trace.specs.Spelling.{Spells, instants};
ghost use Rattle.lb_trace.specs.Mirrors.{knows};
ghost use Rattle.lb_trace.specs.Tables.{IsReadBy, IsColumnTable};
ghost use Rattle.std.specs.Prelude.{◌≤◌, length};

use crate::begun::begin;
use crate::error::TraceError;
use crate::plain::are_plain;
use crate::recorder::Recorder;
use crate::table::ColumnTable;
use csv::ByteRecord;
use lb_static::Signature;
use lb_traces::TraceSet;
use rayon::prelude::*;
use std::alloc::{AllocError, Global};
use std::thread::Threads;

/// The traces that the records of a part spell by themselves.
pub(crate) fn read_part(
    alloc: Global,
    signature: &Signature,
    table: &ColumnTable,
    part: &[u8],
) -> Result<Recorder, TraceError>
    requires { IsColumnTable signature.now table.now }
    ensures { IfOk result (IsReadBy signature.now table.now (plain_records part.now)) }
{
    let Ok(mut recorder) = Recorder::with_room(alloc, signature, part.len()) else {
        return Err(TraceError::Memory(AllocError));
    };
    let mut entry = ByteRecord::new(alloc);
    recorder.add_lines(alloc, table, part, &mut entry)?;
    Ok(recorder)
}

// The traces of each part, in the order of the parts, or the refusal of one part.
fn read_parts<R: Threads + Sync>(
    rt: &R,
    alloc: Global,
    signature: &Signature,
    table: &ColumnTable,
    parts: &[&[u8]],
) -> Result<Result<Vec<Recorder>, TraceError>, AllocError>
    requires { IsColumnTable signature.now table.now }
    ensures { IfOk result (λ outer. IfOk outer (λ read.
        AllZip (λ part one. IsReadBy signature.now table.now (plain_records part.now) one)
        parts.now read.items)) }
{
    parts
        .par_iter()
        // A part is worth a thread of its own, however few there are.
        .with_min_len(1)
        .map(
            |part: &&[u8]| -> Result<Recorder, TraceError>
                requires { IsColumnTable signature.now table.now }
                ensures { IfOk result (IsReadBy signature.entry.now table.entry.now
                    (plain_records part.now.now)) }
            { read_part(alloc, signature, table, part) },
        )
        .collect(rt, alloc)
}

// The traces of all parts, one after the other; None where they do not join, or there is no part.
fn joined(alloc: Global, signature: &Signature, parts: Vec<Recorder>) -> Option<TraceSet>
    requires { All (λ part. (part.rows.signature ≡ signature.now)
        × knows part.names part.rows.traces) parts.items }
    ensures { IfSome result (λ set. (set.signature ≡ signature.now) × IsRecording set
        × (instants set.traces ≡ flat_map (λ part. instants part.rows.traces) parts.items)) }
{
    let mut others = parts;
    if others.is_empty() {
        return None;
    }
    let mut all = others.remove(0);
    let Ok(()) = all.join_all(alloc, others) else {
        return None;
    };
    let set = all.rows.into_set();
    let _ = set.signature();
    Some(set)
}

// The parts `first` and then `others`.
fn with_first<'t>(
    alloc: Global,
    first: &'t [u8],
    others: &[&'t [u8]],
) -> Result<Vec<&'t [u8]>, AllocError>
    ensures { IfOk result (λ parts. parts.items ≡ first.entry ∷ others.now) }
{
    let mut parts = Vec::with_capacity(alloc, others.len().saturating_add(1))?;
    parts.push(first)?;
    parts.extend_from_slice(others)?;
    Ok(parts)
}

/// The traces that a text spells, whose records are those of `parts`. Threads read the parts side
/// by side. None says nothing of the text.
pub(crate) fn read_spread<R: Threads + Sync>(
    rt: &R,
    alloc: Global,
    signature: &Signature,
    parts: &[&[u8]],
) -> Option<TraceSet>
    ensures signature { IfSome result (λ set. set.signature ≡ signature.now) }
    ensures spelled { IfSome result (λ set. (text : List ℕ) → length text ≤ 1073741824
        → HaveRecordsOf text parts.now → Spells signature.now text set.traces) }
{
    let [first, others @ ..] = parts else {
        return None;
    };
    if !are_plain(rt, parts) {
        return None;
    }
    let Ok(Some(begun)) = begin(alloc, signature, first) else {
        return None;
    };
    let Ok(rests) = with_first(alloc, begun.rest, others) else {
        return None;
    };
    let Ok(Ok(read)) = read_parts(rt, alloc, signature, &begun.table, &rests) else {
        return None;
    };
    joined(alloc, signature, read)
}
