//! The batches of a plan, spread over threads by `rayon`.

ghost use Rattle.std.specs.Prelude.{◌≡◌, ◌<◌, length, flat_map, IfOk};
ghost use Rattle.std.specs.List.{AllZip, range_with_len};
ghost use Rattle.lb_plan.specs.Plans.{numbers_in};
ghost use Rattle.lb_pool.specs.Correct.{AreVerdicts};
ghost use Rattle.lb_pool.specs.Runs.{IsBatchOf};

use crate::batch::{Judged, Work, room_for, run_members, verdicts_of};
use lb_check::Verdict;
use lb_flat::Ordered;
use lb_plan::Plan;
use lb_sim::{BatchRoom, LaneProgram, compile};
use lb_traces::TraceSet;
use rayon::prelude::*;
use std::alloc::{AllocError, Global};
use std::thread::Threads;

// The verdicts of a batch. It runs in the room that the worker had for the batch before.
fn judged_batch(
    alloc: Global,
    work: &Work<'_, '_>,
    kept: &mut Option<BatchRoom>,
    i: u32,
) -> Result<Vec<Judged>, AllocError>
    requires { i < length work.now.plan.now }
    ensures { IfOk result (λ judged. IsBatchOf work.now.program.now.program.now work.now.set.now
        work.now.plan.now i judged.items) }
{
    let room = room_for(alloc, work.program, kept.take())?;
    let mut verdicts = Vec::new(alloc);
    let mut judged = Vec::new(alloc);
    let members = work.batch(i);
    let lanes = work.plan.width();
    let room = run_members(work, members, lanes, room, &mut verdicts, &mut judged)?;
    *kept = Some(room);
    Ok(judged)
}

// The verdicts of each batch, in the order of the batches. Each thread makes room once, for all
// batches that it runs.
fn judged_batches<'p, R: Threads + Sync>(
    rt: &R,
    alloc: Global,
    program: &LaneProgram<'p>,
    set: &TraceSet,
    plan: &Plan,
) -> Result<Result<Vec<Vec<Judged>>, AllocError>, AllocError>
    requires { length (numbers_in plan.now) ≡ length set.now.traces }
    ensures { IfOk result (λ outer. IfOk outer (λ batches.
        AllZip (λ i judged. IsBatchOf program.now.program.now set.now
        plan.now i judged.items)
        (range_with_len 0 (length plan.now)) batches.items)) }
{
    (0..plan.batches())
        .into_par_iter()
        // A batch is worth a thread of its own, however few there are.
        .with_min_len(1)
        .map_init(
            || -> Option<BatchRoom> { None },
            |room: &mut Option<BatchRoom>, i: u32| -> Result<Vec<Judged>, AllocError>
                requires { (length (numbers_in plan.now)
                    ≡ length set.now.traces) × (i < length plan.now) }
                ensures { IfOk result (λ judged. IsBatchOf program.entry.now.program.now
                    set.entry.now plan.entry.now i judged.items) }
            {
                let work = Work { program, set, plan };
                judged_batch(alloc, &work, room, i)
            },
        )
        .collect(rt, alloc)
}

// The verdicts of all batches in one list.
fn in_one_list(alloc: Global, batches: &[Vec<Judged>]) -> Result<Vec<Judged>, AllocError>
    ensures { IfOk result (λ all. all.items ≡ flat_map (λ batch. batch.items) batches.now) }
{
    let mut all = Vec::new(alloc);
    for batch in batches {
        all.extend_from_slice(batch.as_slice())?;
    }
    Ok(all)
}

// The verdicts of all traces, by threads that share a lane program.
fn spread_batches<'p, R: Threads + Sync>(
    rt: &R,
    alloc: Global,
    program: &LaneProgram<'p>,
    set: &TraceSet,
    plan: &Plan,
) -> Result<Vec<Verdict>, AllocError>
    requires plan { length (numbers_in plan.now) ≡ length set.now.traces }
    ensures { IfOk result (λ verdicts. AreVerdicts program.now.program.now
        set.now verdicts.items) }
{
    let _ = plan.traces();
    let batches = judged_batches(rt, alloc, program, set, plan)?;
    let batches = batches?;
    let judged = in_one_list(alloc, batches.as_slice())?;
    let work = Work { program, set, plan };
    verdicts_of(alloc, &work, judged.as_slice())
}

/// The verdicts of all traces of a set, in the traces' order, by as many threads as `rayon` finds
/// fit for the batches of a plan. It fails only where memory was refused (E0).
///
/// ```text
/// let plan = Plan::in_order(alloc, set.len(), 64)?;
/// let verdicts = run_spread(rt, alloc, &ordered, &set, &plan)?;
/// ```
pub fn run_spread<R: Threads + Sync>(
    rt: &R,
    alloc: Global,
    ordered: &Ordered,
    set: &TraceSet,
    plan: &Plan,
) -> Result<Vec<Verdict>, AllocError>
    requires { length (numbers_in plan.now) ≡ length set.now.traces }
    ensures { IfOk result (λ verdicts. AreVerdicts ordered.now.program set.now verdicts.items) }
{
    let program = compile(alloc, ordered)?;
    spread_batches(rt, alloc, &program, set, plan)
}
