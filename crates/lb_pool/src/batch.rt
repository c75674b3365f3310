//! The common part of all kinds of runs: the verdicts of some traces, and their places in the list
//! of all.

ghost use Rattle.std.specs.Prelude.{◌≡◌, ℕ, ◌<◌, ◌≤◌, ◌++◌, [], length, get_or, All, Contains};
ghost use Rattle.std.specs.Prelude.{IfOk, OnOk};
ghost use Rattle.lb_flat.specs.Programs.{program_of};
ghost use Rattle.lb_sim.specs.BatchRooms.{IsRoomFor};
ghost use Rattle.lb_sim.specs.Correct.{HaveVerdicts};
ghost use Rattle.lb_plan.specs.Plans.{numbers_in};
ghost use Rattle.lb_pool.specs.Correct.{AreVerdicts};
ghost use Rattle.lb_pool.specs.Runs.{numbers_of, placed, AreJudged};

use lb_check::Verdict;
use lb_plan::Plan;
use lb_sim::{BatchRoom, LaneProgram, run_queue_in};
use lb_traces::TraceSet;
use std::alloc::{AllocError, Global};

/// A trace and its verdict.
#[derive(Clone, Copy)]
pub(crate) struct Judged {
    pub(crate) trace: u32,
    pub(crate) verdict: Verdict,
}

/// The data that all workers of a run share: the program, the traces, and their plan.
#[derive(Clone, Copy)]
pub(crate) struct Work<'a, 'p> {
    pub(crate) program: &'a LaneProgram<'p>,
    pub(crate) set: &'a TraceSet,
    pub(crate) plan: &'a Plan,
    pub(crate) ghost over_all: { length (numbers_in plan.now) ≡ length set.now.traces },
}

impl Work<'_, '_> {
    /// The numbers of the traces of a batch.
    pub(crate) fn batch(&self, i: u32) -> &[u32]
        requires { i < length self.now.plan.now }
        ensures numbers { result.now ≡ get_or self.now.plan.now i [] }
        ensures within { All (λ k. k < length self.now.set.now.traces) result.now }
        ensures few { length result.now ≤ 64 }
    {
        self.plan.batch(i)
    }
}

// Adds the verdicts of some traces behind those that were found before.
fn push_judged(
    work: &Work<'_, '_>,
    members: &[u32],
    verdicts: &[Verdict],
    judged: &mut Vec<Judged>,
) -> Result<(), AllocError>
    requires within { All (λ k. k < length work.now.set.now.traces) members.now }
    requires count { length verdicts.now ≡ length members.now }
    requires found { HaveVerdicts (program_of work.now.program.now.program.now) work.now.set.now
        members.now verdicts.now }
    requires judged { AreJudged work.now.program.now.program.now work.now.set.now
        judged.old.items }
    ensures numbers { OnOk result (numbers_of judged.new.items
        ≡ numbers_of judged.old.items ++ members.now) }
    ensures judged { OnOk result (AreJudged work.now.program.now.program.now work.now.set.now
        judged.new.items) }
{
    for j in 0..members.len() {
        let trace = members[j];
        let verdict = verdicts[j];
        judged.push(Judged { trace, verdict })?;
    }
    Ok(())
}

/// The room that a worker has, or new room where it has none for this program.
pub(crate) fn room_for(
    alloc: Global,
    program: &LaneProgram<'_>,
    kept: Option<BatchRoom>,
) -> Result<BatchRoom, AllocError>
    ensures { IfOk result (IsRoomFor program.now) }
{
    if let Some(room) = kept {
        if room.fits(program) {
            return Ok(room);
        }
    }
    BatchRoom::new(alloc, program)
}

/// Runs some traces in up to 64 lanes in the room of a worker, adds their verdicts behind those
/// that were found before, and returns the room. `verdicts` is a buffer of the worker.
pub(crate) fn run_members(
    work: &Work<'_, '_>,
    members: &[u32],
    lanes: u32,
    room: BatchRoom,
    verdicts: &mut Vec<Verdict>,
    judged: &mut Vec<Judged>,
) -> Result<BatchRoom, AllocError>
    requires within { All (λ k. k < length work.now.set.now.traces) members.now }
    requires most { length members.now ≤ 4096 }
    requires lanes { (0 < lanes) × (lanes ≤ 64) }
    requires room { IsRoomFor work.now.program.now room }
    requires judged { AreJudged work.now.program.now.program.now work.now.set.now
        judged.old.items }
    ensures room { IfOk result (IsRoomFor work.now.program.now) }
    ensures numbers { OnOk result (numbers_of judged.new.items
        ≡ numbers_of judged.old.items ++ members.now) }
    ensures judged { OnOk result (AreJudged work.now.program.now.program.now work.now.set.now
        judged.new.items) }
{
    verdicts.clear();
    verdicts.resize(members.len(), Verdict::Passed)?;
    let (program, set) = (work.program, work.set);
    let done = run_queue_in(room, program, set, members, lanes, verdicts.as_mut_slice());
    push_judged(work, members, verdicts.as_slice(), judged)?;
    Ok(done)
}

/// Writes verdicts to the places of their traces.
pub(crate) fn place(verdicts: &mut [Verdict], judged: &[Judged])
    requires { All (λ j. j.trace < length verdicts.old) judged.now }
    ensures { verdicts.new ≡ placed verdicts.old judged.now }
{
    for j in judged {
        verdicts[j.trace as usize] = j.verdict;
    }
}

/// The verdicts of all traces, once each trace has been judged, in the traces' order.
pub(crate) fn verdicts_of(
    alloc: Global,
    work: &Work<'_, '_>,
    judged: &[Judged],
) -> Result<Vec<Verdict>, AllocError>
    requires judged { AreJudged work.now.program.now.program.now work.now.set.now judged.now }
    requires each { (k : ℕ) → k < length work.now.set.now.traces →
        Contains (numbers_of judged.now) k }
    ensures { IfOk result (λ verdicts. AreVerdicts work.now.program.now.program.now
        work.now.set.now verdicts.items) }
{
    let mut verdicts = vec![in alloc; Verdict::Passed; work.set.len() as usize]?;
    place(verdicts.as_mut_slice(), judged);
    Ok(verdicts)
}
