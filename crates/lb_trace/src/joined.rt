//! The traces of the parts of a text, joined one part after the other.

ghost use Rattle.std.specs.Prelude.{◌≡◌, ◌<◌, ◌≤◌, ◌+◌, ◌++◌, ◌∷◌, [], true, All, OnOk, IsTrue};
ghost use Rattle.std.specs.Prelude.{flat_map, get_or, length, map};
ghost use Rattle.lb_traces.specs.Traces.{HasRoomFor, IsRecording, last_rows, rows_from, trace_at};
ghost use Rattle.lb_trace.specs.Mirrors.{knows};
ghost use Rattle.lb_trace.specs.Refusals.{is_last};
ghost use Rattle.lb_trace.specs.Spelling.{instants};

use crate::error::TraceError;
use crate::recorder::Recorder;
use lb_traces::TraceSet;
use std::alloc::{AllocError, Global};

// Whether the limits have room for `more` instants of the last trace.
fn has_room_for(set: &TraceSet, more: u32) -> bool
    requires started { 0 < length set.now.traces }
    requires few { more ≤ 1000000 }
    ensures instants { IsTrue result → length (last_rows set.now.traces) + more ≤ 1000000 }
    ensures cells { IsTrue result → HasRoomFor set.now more }
{
    let cells = u64::from(set.signature().len().max(1));
    let instants = set.length(set.len() - 1) + more;
    if instants > 1_000_000 {
        return false;
    }
    (u64::from(set.instants()) + u64::from(more)) * cells <= 67_108_864
}

impl Recorder {
    /// Adds all instants of `parts`, one part after the other, and drops each part. It fails where
    /// a trace has the name of an earlier trace that is not the last one, and where a limit has no
    /// room.
    pub(crate) fn join_all(&mut self, alloc: Global, parts: Vec<Recorder>) -> Result<(), TraceError>
        requires names { knows self.old.names self.old.rows.traces }
        requires same { All (λ part. part.rows.signature ≡ self.old.rows.signature) parts.items }
        ensures instants { OnOk result (instants self.new.rows.traces
            ≡ instants self.old.rows.traces
            ++ flat_map (λ part. instants part.rows.traces) parts.items) }
        ensures names { OnOk result (knows self.new.names self.new.rows.traces) }
        ensures signature { OnOk result (self.new.rows.signature ≡ self.old.rows.signature) }
    {
        for part in parts {
            self.join(alloc, part.rows.set())?;
        }
        Ok(())
    }

    // Adds all instants of the traces of a set, one trace after the other.
    fn join(&mut self, alloc: Global, set: &TraceSet) -> Result<(), TraceError>
        requires names { knows self.old.names self.old.rows.traces }
        requires same { set.now.signature ≡ self.old.rows.signature }
        ensures instants { OnOk result (instants self.new.rows.traces
            ≡ instants self.old.rows.traces ++ instants set.now.traces) }
        ensures names { OnOk result (knows self.new.names self.new.rows.traces) }
        ensures signature { OnOk result (self.new.rows.signature ≡ self.old.rows.signature) }
    {
        for k in 0..set.len() {
            self.join_trace(alloc, set, k)?;
        }
        Ok(())
    }

    // Adds all instants of trace `k` of a set.
    fn join_trace(&mut self, alloc: Global, set: &TraceSet, k: u32) -> Result<(), TraceError>
        requires trace { k < length set.now.traces }
        requires names { knows self.old.names self.old.rows.traces }
        requires same { set.now.signature ≡ self.old.rows.signature }
        ensures instants { OnOk result (instants self.new.rows.traces
            ≡ instants self.old.rows.traces
            ++ map (λ row. ((trace_at set.now.traces k).0, row)) (trace_at set.now.traces k).1) }
        ensures names { OnOk result (knows self.new.names self.new.rows.traces) }
        ensures signature { OnOk result (self.new.rows.signature ≡ self.old.rows.signature) }
    {
        let _ = set.signature();
        self.join_first(alloc, set, k)?;
        self.join_others(set, k)
    }

    // Adds the first instant of trace `k` of a set.
    fn join_first(&mut self, alloc: Global, set: &TraceSet, k: u32) -> Result<(), TraceError>
        requires trace { k < length set.now.traces }
        requires lawful { IsRecording set.now }
        requires names { knows self.old.names self.old.rows.traces }
        requires same { set.now.signature ≡ self.old.rows.signature }
        ensures instants { OnOk result (instants self.new.rows.traces
            ≡ instants self.old.rows.traces
            ++ ((trace_at set.now.traces k).0, get_or (trace_at set.now.traces k).1 0 []) ∷ []) }
        ensures last { OnOk result
            (is_last (trace_at set.now.traces k).0 self.new.rows.traces ≡ true) }
        ensures names { OnOk result (knows self.new.names self.new.rows.traces) }
        ensures signature { OnOk result (self.new.rows.signature ≡ self.old.rows.signature) }
    {
        let _ = set.length(k);
        let _ = self.rows.set().signature();
        self.row.clear();
        let Ok(()) = set.copy_row(k, 0, &mut self.row) else {
            return Err(TraceError::Memory(AllocError));
        };
        self.add_read(alloc, set.name(k).as_bytes(), 0)
    }

    // Adds the other instants of trace `k` of a set, all at once, to the last trace.
    fn join_others(&mut self, set: &TraceSet, k: u32) -> Result<(), TraceError>
        requires trace { k < length set.now.traces }
        requires names { knows self.old.names self.old.rows.traces }
        requires same { set.now.signature ≡ self.old.rows.signature }
        requires last { is_last (trace_at set.now.traces k).0 self.old.rows.traces ≡ true }
        ensures instants { OnOk result (instants self.new.rows.traces
            ≡ instants self.old.rows.traces
            ++ map (λ row. ((trace_at set.now.traces k).0, row)) (rows_from set.now.traces k 1)) }
        ensures names { OnOk result (knows self.new.names self.new.rows.traces) }
        ensures signature { OnOk result (self.new.rows.signature ≡ self.old.rows.signature) }
    {
        let more = set.length(k) - 1;
        if !has_room_for(self.rows.set(), more) {
            return Err(TraceError::Limit { record: None });
        }
        let Ok(()) = self.rows.extend(set, k, 1) else {
            return Err(TraceError::Memory(AllocError));
        };
        Ok(())
    }
}
