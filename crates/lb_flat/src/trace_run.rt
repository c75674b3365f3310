//! The verdict of a recorded trace.

ghost use Rattle.std.specs.Prelude.{◌<◌, length, IfOk};
ghost use Rattle.lb_flat.specs.Correct.{IsVerdictOf};
ghost use Rattle.lb_flat.specs.PreparedParts.{IsRoomFor, program_in, recording_in};
ghost use Rattle.lb_flat.specs.Programs.{program_of};

use crate::evaluate::evaluate;
use crate::flat::Ordered;
use crate::prepared::Prepared;
use crate::recorded::{Recorded, RecordedTrace};
use crate::scratch::Scratch;
use lb_check::Verdict;
use lb_traces::TraceSet;
use std::alloc::{AllocError, Global};

/// The one verdict that a prepared program has on a trace, computed instant by instant in the room
/// of a worker. It takes no memory.
///
/// ```text
/// let prepared = Prepared::new(alloc, &ordered)?;
/// let recorded = Recorded::new(alloc, &set)?;
/// let mut scratch = Scratch::new(alloc, &prepared)?;
/// let verdict = eval_prepared(&prepared, &recorded, 0, &mut scratch);
/// ```
pub fn eval_prepared(
    prepared: &Prepared<'_>,
    recorded: &Recorded<'_>,
    k: u32,
    scratch: &mut Scratch,
) -> Verdict
    requires trace { k < length (recording_in recorded.now).traces }
    requires room { IsRoomFor prepared.now scratch.old }
    ensures room { IsRoomFor prepared.now scratch.new }
    ensures verdict { IsVerdictOf (program_of (program_in prepared.now))
        (recording_in recorded.now) k result }
{
    let set = recorded.set;
    let kinds = recorded.kinds.as_slice();
    let _ = set.signature();
    let trace = RecordedTrace { set, kinds, k };
    evaluate(prepared, scratch, &trace)
}

/// The one verdict that a program has on a trace, computed instant by instant. It takes memory once
/// for a trace, and none for an instant; it fails only where memory was refused (E0).
///
/// ```text
/// let verdict = eval_trace(alloc, &ordered, &set, 0)?;
/// ```
pub fn eval_trace(
    alloc: Global,
    ordered: &Ordered,
    set: &TraceSet,
    k: u32,
) -> Result<Verdict, AllocError>
    requires { k < length set.now.traces }
    ensures { IfOk result (IsVerdictOf (program_of ordered.now.program) set.now k) }
{
    let prepared = Prepared::new(alloc, ordered)?;
    let recorded = Recorded::new(alloc, set)?;
    let mut scratch = Scratch::new(alloc, &prepared)?;
    Ok(eval_prepared(&prepared, &recorded, k, &mut scratch))
}
