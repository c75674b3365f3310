//! A worker that runs all traces of one set, and then all traces of the next.

ghost use Rattle.std.specs.Prelude.{◌≡◌, ◌<◌, ◌≤◌, [], length, All, IfOk, OnOk};
ghost use Rattle.lb_sim.specs.BatchRooms.{IsRoomFor};
ghost use Rattle.lb_pool.specs.Correct.{AreVerdicts};
ghost use Rattle.lb_pool.specs.Runs.{numbers_of, AreJudged};

use crate::batch::{Judged, Work, room_for, run_members, verdicts_of};
use lb_check::Verdict;
use lb_plan::Plan;
use lb_sim::{BatchRoom, LaneProgram};
use lb_traces::TraceSet;
use std::alloc::{AllocError, Global};

// The most traces that are run as one queue.
const MOST_AT_ONCE: usize = 4096;

// Lanes are computed sixteen at a time.
const CHUNK: u32 = 16;

/// A program, and the number of traces that are run side by side at most.
#[derive(Clone, Copy)]
pub struct SetRunner<'a, 'p> {
    pub program: &'a LaneProgram<'p>,
    pub lanes: u32,
    pub ghost some: { 0 < lanes },
    pub ghost few: { lanes ≤ 64 },
}

// Runs the traces `numbers` in queues, one after the other, in the room of a worker, and returns
// the room. The verdicts come in the order of `numbers`.
fn run_queues(
    alloc: Global,
    work: &Work<'_, '_>,
    numbers: &[u32],
    lanes: u32,
    begun: BatchRoom,
    judged: &mut Vec<Judged>,
) -> Result<BatchRoom, AllocError>
    requires within { All (λ k. k < length work.now.set.now.traces) numbers.now }
    requires lanes { (0 < lanes) × (lanes ≤ 64) }
    requires room { IsRoomFor work.now.program.now begun }
    requires nothing { judged.old.items ≡ [] }
    ensures room { IfOk result (IsRoomFor work.now.program.now) }
    ensures numbers { OnOk result (numbers_of judged.new.items ≡ numbers.now) }
    ensures judged { OnOk result (AreJudged work.now.program.now.program.now work.now.set.now
        judged.new.items) }
{
    let mut room = begun;
    let mut verdicts = Vec::new(alloc);
    let mut done = 0;
    'queues: while done < numbers.len() {
        let past = done + (numbers.len() - done).min(MOST_AT_ONCE);
        let members = &numbers[done..past];
        room = run_members(work, members, lanes, room, &mut verdicts, judged)?;
        done = past;
    }
    Ok(room)
}

// How many lanes the traces of a set keep busy, up to `most`. A set runs at least as long as its
// longest trace. In more lanes than the others fill in that time some would stand idle, and yet be
// computed.
fn busy_lanes(set: &TraceSet, most: u32) -> u32
    requires { (0 < most) × (most ≤ 64) }
    ensures { (0 < result) × (result ≤ most) }
{
    let mut longest = 0;
    for k in 0..set.len() {
        longest = set.length(k).max(longest);
    }
    let busy = set.instants() / longest.max(1);
    (busy / CHUNK * CHUNK + CHUNK).min(most)
}

impl SetRunner<'_, '_> {
    /// The verdicts of all traces of a set, in the traces' order. The worker takes its room with
    /// the first set, and uses it for all others. The longest traces are run first. It fails only
    /// where memory was refused (E0).
    pub fn run(
        &self,
        alloc: Global,
        set: &TraceSet,
        kept: &mut Option<BatchRoom>,
    ) -> Result<Vec<Verdict>, AllocError>
        ensures { IfOk result (λ verdicts.
            AreVerdicts self.now.program.now.program.now set.now verdicts.items) }
    {
        let lanes = busy_lanes(set, self.lanes);
        let plan = Plan::for_lanes(alloc, set, lanes)?;
        let _ = plan.traces();
        let work = Work {
            program: self.program,
            set,
            plan: &plan,
        };
        let room = room_for(alloc, self.program, kept.take())?;
        let mut judged = Vec::new(alloc);
        let room = run_queues(alloc, &work, plan.numbers(), lanes, room, &mut judged)?;
        *kept = Some(room);
        verdicts_of(alloc, &work, judged.as_slice())
    }
}
