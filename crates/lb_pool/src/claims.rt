//! Workers that draw the batches of a plan from a claim board until none is left.

ghost use Rattle.std.specs.Prelude.{◌≡◌, ℕ, List, ◌+◌, ◌-◌, ◌<◌, ◌≤◌, [], length, get_or, All};
ghost use Rattle.std.specs.Prelude.{IfOk, OnOk};
ghost use Rattle.std.specs.Thread.{IsSync};
ghost use Rattle.lb_traces.specs.Traces.{Recording};
ghost use Rattle.lb_flat.specs.declared.program.FlatProgram.{FlatProgram};
ghost use Rattle.lb_plan.specs.Plans.{numbers_in};
ghost use Rattle.lb_board.specs.Seats.{limit_of, IsSeatOf, shares_of, drawn_of};
ghost use Rattle.lb_pool.specs.Correct.{AreVerdicts};
ghost use Rattle.lb_pool.specs.Runs.{AreDrawnAfter};
ghost use Rattle.lb_pool.specs.Workers.{HasDrained, IsBoth};

use crate::batch::{Judged, Work, room_for, run_members, verdicts_of};
use crate::gate::Gate;
use lb_board::{ClaimBoard, ClaimSeat};
use lb_check::Verdict;
use lb_flat::Ordered;
use lb_plan::Plan;
use lb_sim::{BatchRoom, LaneProgram, compile};
use lb_traces::TraceSet;
use std::alloc::{AllocError, Global};
use std::thread::{Threads, join};

/// The result of workers: the seat that they claimed with, and the verdicts of its batches.
#[derive(Drop)]
pub(crate) struct Drained {
    pub(crate) seat: ClaimSeat,
    pub(crate) judged: Vec<Judged>,
}

// A run takes up to 4096 traces, and a batch has up to 64.
const MOST_AT_ONCE: u32 = 32;

// The number of batches that a worker draws before it runs them all as one queue, where batch i is
// the first of them. Fewer queues leave fewer lanes idle at the end of one, so one worker cuts what
// is left into as few parts as will do. Several workers cut it into at least two parts for each of
// them. So the parts get smaller towards the end, where by length the longest traces are, and no
// worker has much to do when the others have nothing.
fn batches_at_once(batches: u32, workers: u32, i: u32) -> u32
    requires batch { i < batches }
    requires workers { (0 < workers) × (workers ≤ 64) }
    ensures { (0 < result) × (result ≤ 32) }
{
    let left = batches - i;
    let fewest = left.div_ceil(MOST_AT_ONCE);
    let parts = if workers == 1 {
        fewest
    } else {
        fewest.max(2 * workers)
    };
    left.div_ceil(parts)
}

// Draws one more batch, if one is left, and puts its numbers behind those of the others.
fn draw_more<G: Gate>(
    board: &ClaimBoard,
    gate: &G,
    work: &Work<'_, '_>,
    seat: &mut ClaimSeat,
    members: &mut Vec<u32>,
) -> Result<(), AllocError>
    requires board { limit_of board.now ≡ length work.now.plan.now }
    requires seat { IsSeatOf board.now seat.old }
    requires within { All (λ k. k < length work.now.set.now.traces) members.old.items }
    ensures seat { IsSeatOf board.now seat.new }
    ensures shares { shares_of seat.new ≡ shares_of seat.old }
    ensures draws { length (drawn_of seat.old) ≤ length (drawn_of seat.new) }
    ensures within { OnOk result (All (λ k. k < length work.now.set.now.traces)
        members.new.items) }
    ensures few { OnOk result (length members.new.items ≤ length members.old.items + 64) }
    ensures members { OnOk result ((before : List ℕ)
        → AreDrawnAfter work.now.plan.now before (drawn_of seat.old) members.old.items
        → AreDrawnAfter work.now.plan.now before (drawn_of seat.new) members.new.items) }
{
    if let Some(i) = board.claim(seat) {
        gate.enter(i);
        members.extend_from_slice(work.batch(i))?;
    }
    Ok(())
}

// Draws the batches that a worker runs together with batch i, for which it has passed the gate.
// Puts the numbers of all these batches, in the order in which they were drawn, into a buffer of
// the worker.
fn draw<G: Gate>(
    board: &ClaimBoard,
    gate: &G,
    work: &Work<'_, '_>,
    workers: u32,
    seat: &mut ClaimSeat,
    i: u32,
    members: &mut Vec<u32>,
) -> Result<(), AllocError>
    requires board { limit_of board.now ≡ length work.now.plan.now }
    requires workers { (0 < workers) × (workers ≤ 64) }
    requires seat { IsSeatOf board.now seat.old }
    requires batch { i < length work.now.plan.now }
    ensures seat { IsSeatOf board.now seat.new }
    ensures shares { shares_of seat.new ≡ shares_of seat.old }
    ensures draws { length (drawn_of seat.old) ≤ length (drawn_of seat.new) }
    ensures within { OnOk result (All (λ k. k < length work.now.set.now.traces)
        members.new.items) }
    ensures few { OnOk result (length members.new.items ≤ 4096) }
    ensures members { OnOk result ((before : List ℕ)
        → AreDrawnAfter work.now.plan.now before (drawn_of seat.old)
        (get_or work.now.plan.now i [])
        → AreDrawnAfter work.now.plan.now before (drawn_of seat.new) members.new.items) }
{
    members.clear();
    members.extend_from_slice(work.batch(i))?;
    for _ in 1..batches_at_once(work.plan.batches(), workers, i) {
        draw_more(board, gate, work, seat, members)?;
    }
    Ok(())
}

// The work of one worker of a run. It claims until it is told that no batch is left. It passes the
// gate for each batch before it claims another, and takes its room with the first.
fn drain<G: Gate>(
    alloc: Global,
    board: &ClaimBoard,
    gate: &G,
    work: &Work<'_, '_>,
    workers: u32,
    mut seat: ClaimSeat,
) -> Result<Drained, AllocError>
    requires workers { (0 < workers) × (workers ≤ 64) }
    requires board { limit_of board.now ≡ length work.now.plan.now }
    requires seat { IsSeatOf board.now seat }
    requires nothing { drawn_of seat ≡ [] }
    ensures { IfOk result (HasDrained board.now (shares_of seat) work.now.program.now.program.now
        work.now.set.now work.now.plan.now) }
{
    let lanes = work.plan.width();
    let mut kept: Option<BatchRoom> = None;
    let mut members = Vec::new(alloc);
    let mut verdicts = Vec::new(alloc);
    let mut judged = Vec::new(alloc);
    while let Some(i) = board.claim(&mut seat) {
        gate.enter(i);
        draw(board, gate, work, workers, &mut seat, i, &mut members)?;
        let room = room_for(alloc, work.program, kept)?;
        let run = members.as_slice();
        let again = run_members(work, run, lanes, room, &mut verdicts, &mut judged)?;
        kept = Some(again);
    }
    Ok(Drained { seat, judged })
}

// The joint result of two workers.
fn both_drained(board: &ClaimBoard, one: Drained, other: Drained) -> Result<Drained, AllocError>
    requires one { IsSeatOf board.now one.seat }
    requires other { IsSeatOf board.now other.seat }
    ensures { IfOk result (IsBoth board.now one other) }
{
    let Drained { seat, mut judged } = one;
    let Drained {
        seat: second,
        judged: more,
    } = other;
    let seat = board.join(seat, second);
    judged.extend_from_slice(more.as_slice())?;
    Ok(Drained { seat, judged })
}

// The work of each worker of a run. The functions that start workers are generic over it, so that
// their types name no lifetime.
trait Worker {
    ghost program: { Self → FlatProgram };

    ghost recording: { Self → Recording };

    ghost batches: { Self → List (List ℕ) };

    // Claims until it is told that no batch is left.
    fn drain_board(
        &self,
        alloc: Global,
        board: &ClaimBoard,
        seat: ClaimSeat,
    ) -> Result<Drained, AllocError>
        requires board { limit_of board.now ≡ length (batches self.now) }
        requires seat { IsSeatOf board.now seat }
        requires nothing { drawn_of seat ≡ [] }
        ensures { IfOk result (HasDrained board.now (shares_of seat) (program self.now)
            (recording self.now) (batches self.now)) };
}

// A worker that passes a gate before each batch.
#[derive(Drop)]
struct GatedWorker<'a, 'p, G> {
    work: Work<'a, 'p>,
    gate: &'a G,
    /// The number of workers.
    workers: u32,
    ghost some: { (0 < workers) × (workers ≤ 64) },
}

impl<G: Gate> Worker for GatedWorker<'_, '_, G> {
    ghost program = { λ w. w.work.program.now.program.now };

    ghost recording = { λ w. w.work.set.now };

    ghost batches = { λ w. w.work.plan.now };

    fn drain_board(
        &self,
        alloc: Global,
        board: &ClaimBoard,
        seat: ClaimSeat,
    ) -> Result<Drained, AllocError> {
        drain(alloc, board, self.gate, &self.work, self.workers, seat)
    }
}

// Runs workers, each with a seat of its own: a seat is split until each worker has one.
fn divide<R: Threads + Sync, W: Worker + Sync>(
    rt: &R,
    alloc: Global,
    board: &ClaimBoard,
    worker: &W,
    seat: ClaimSeat,
    workers: u32,
) -> Result<Drained, AllocError>
    requires board { limit_of board.now ≡ length (W.batches worker.now) }
    requires seat { IsSeatOf board.now seat }
    requires nothing { drawn_of seat ≡ [] }
    requires workers { (0 < workers) × (workers ≤ shares_of seat) }
    ensures { IfOk result (HasDrained board.now (shares_of seat) (W.program worker.now)
        (W.recording worker.now) (W.batches worker.now)) }
{
    if workers == 1 {
        return worker.drain_board(alloc, board, seat);
    }
    let (left, right) = board.split(seat);
    let half = workers / 2;
    let (one, other) = join(
        rt,
        move || -> Result<Drained, AllocError>
            requires { IsSync R.row × IsSync W.row
                × (limit_of board.now ≡ length (W.batches worker.now))
                × IsSeatOf board.now left × (drawn_of left ≡ [])
                × (0 < workers - half) × (workers - half ≤ shares_of left) }
            ensures { IfOk result (HasDrained board.entry.now (shares_of left)
                (W.program worker.entry.now) (W.recording worker.entry.now)
                (W.batches worker.entry.now)) }
        { divide(rt, alloc, board, worker, left, workers - half) },
        move || -> Result<Drained, AllocError>
            requires { IsSync R.row × IsSync W.row
                × (limit_of board.now ≡ length (W.batches worker.now))
                × IsSeatOf board.now right × (drawn_of right ≡ [])
                × (0 < half) × (half ≤ shares_of right) }
            ensures { IfOk result (HasDrained board.entry.now (shares_of right)
                (W.program worker.entry.now) (W.recording worker.entry.now)
                (W.batches worker.entry.now)) }
        { divide(rt, alloc, board, worker, right, half) },
    );
    both_drained(board, one?, other?)
}

/// [`run_claims`] by a program that is compiled already, for those who run many sets by it. There
/// are no more workers than batches.
pub fn run_workers<'a, 'p, R: Threads + Sync, G: Gate + Sync>(
    rt: &R,
    alloc: Global,
    program: &'a LaneProgram<'p>,
    set: &'a TraceSet,
    plan: &'a Plan,
    workers: u32,
    gate: &'a G,
) -> Result<Vec<Verdict>, AllocError>
    requires plan { length (numbers_in plan.now) ≡ length set.now.traces }
    requires workers { (0 < workers) × (workers ≤ 64) }
    ensures { IfOk result (λ verdicts. AreVerdicts program.now.program.now
        set.now verdicts.items) }
{
    let (board, seat) = ClaimBoard::new(alloc, plan.batches())?;
    let workers = workers.min(plan.batches()).max(1);
    let work = Work { program, set, plan };
    let worker = GatedWorker {
        work,
        gate,
        workers,
    };
    let done = divide(rt, alloc, &board, &worker, seat, workers)?;
    let Drained { seat, judged } = done;
    let told = board.close(seat);
    prove!(told);
    verdicts_of(alloc, &work, judged.as_slice())
}

/// The verdicts of all traces of a set, in the traces' order, by 1 to 64 workers that draw the
/// batches of a plan until none is left. Each passes the gate before each batch that it drew.
///
/// A worker to which memory is refused stops, and the answer is that memory was refused (E0), once
/// all workers have ended.
///
/// ```text
/// let plan = Plan::by_length(alloc, &set, 64)?;
/// let verdicts = run_claims(rt, alloc, &ordered, &set, &plan, 4, &NoGate)?;
/// ```
pub fn run_claims<R: Threads + Sync, G: Gate + Sync>(
    rt: &R,
    alloc: Global,
    ordered: &Ordered,
    set: &TraceSet,
    plan: &Plan,
    workers: u32,
    gate: &G,
) -> Result<Vec<Verdict>, AllocError>
    requires plan { length (numbers_in plan.now) ≡ length set.now.traces }
    requires workers { (0 < workers) × (workers ≤ 64) }
    ensures { IfOk result (λ verdicts. AreVerdicts ordered.now.program set.now verdicts.items) }
{
    let program = compile(alloc, ordered)?;
    run_workers(rt, alloc, &program, set, plan, workers, gate)
}
