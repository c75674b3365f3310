//! The live report: workers settle traces on a board, and the calling thread writes each line as
//! soon as that line and all before it are known.
//!
//! ```text
//! worker     batch 0 ........ batch 2 .........
//! worker     batch 1 ..... batch 3 ...... batch 4 ..
//! writer                   0 and 1        2    3
//! ```

ghost use Rattle.std.specs.Prelude.{◌≡◌, ◌<◌, ◌≤◌, ℕ, length, All, IfOk, OnOk};
ghost use Rattle.lb_flat.specs.Programs.{program_of};
ghost use Rattle.lb_flat.specs.RightVerdicts.{right_verdicts};
ghost use Rattle.lb_flat.specs.Standing.{HasKindsOf};
ghost use Rattle.lb_traces.specs.Traces.{trace_names};
ghost use Rattle.lb_plan.specs.Plans.{numbers_in};
ghost use Rattle.lb_board.specs.FollowSeats.{IsFollowSeatOf, right_of, shares_of};
ghost use Rattle.lb_output.specs.Follows.{IsFollowed};
ghost use Rattle.lb_output.specs.Reports.{report_of};
ghost use Rattle.lb_pool.specs.Correct.{AreVerdicts};
ghost use Rattle.lb_pool.specs.FollowWorkers.{IsBoardFor};
ghost use Rattle.lb_pool.specs.RightReports.{right_report};

use crate::batch::Work;
use crate::follow_worker::{FollowWorker, PostingWorker};
use crate::follow_writer::{Task, Writing};
use crate::gate::Gate;
use lb_board::{FollowBoard, FollowSeat};
use lb_flat::Ordered;
use lb_output::{FollowError, Sink};
use lb_plan::Plan;
use lb_sim::compile;
use lb_traces::TraceSet;
use std::alloc::{AllocError, Global};
use std::sync::Wait;
use std::thread::{Threads, scope, scope_env};
use std::time::Clock;

// Cuts a seat into `count` seats, and adds them to a list of seats.
fn cut_seat(
    board: &FollowBoard,
    seat: FollowSeat,
    count: u32,
    seats: &mut Vec<FollowSeat>,
) -> Result<(), AllocError>
    requires seat { IsFollowSeatOf board.now seat }
    requires count { (0 < count) × (count ≤ shares_of seat) }
    requires seats { All (IsFollowSeatOf board.now) seats.old.items }
    ensures { OnOk result (All (IsFollowSeatOf board.now) seats.new.items) }
{
    if count == 1 {
        seats.push(seat)?;
        return Ok(());
    }
    let half = count / 2;
    let (left, right) = board.split(seat);
    cut_seat(board, left, count - half, seats)?;
    cut_seat(board, right, half, seats)
}

// Cuts a seat for each worker off the first seat, but 63 at most. The first seat is left to the
// writer, with at least one share.
fn worker_seats(
    alloc: Global,
    board: &FollowBoard,
    first: FollowSeat,
    workers: u32,
) -> Result<(FollowSeat, Vec<FollowSeat>), AllocError>
    requires { IsFollowSeatOf board.now first }
    ensures first { IfOk result (λ r. IsFollowSeatOf board.now r.0) }
    ensures seats { IfOk result (λ r. All (IsFollowSeatOf board.now) r.1.items) }
{
    let mut first = first;
    let mut seats = Vec::new(alloc);
    let mut left = workers;
    while 0 < left && 1 < first.shares() {
        let (rest, cut) = board.split(first);
        first = rest;
        let count = left.min(cut.shares());
        cut_seat(board, cut, count, &mut seats)?;
        left -= count;
    }
    Ok((first, seats))
}

// Runs a task on the calling thread while workers, one for each seat, drain the board in threads of
// their own. A worker for which no thread can be made drains the board on the calling thread,
// before the task is run.
fn beside_workers<R, W, T, A>(rt: &R, worker: &W, seats: Vec<FollowSeat>, task: T) -> A
where
    R: Threads + Wait + Sync,
    W: FollowWorker + Sync,
    T: Task<Output = A> + Drop,
    requires seats { All (W.takes worker.now) seats.items }
    requires task { T.can_run task }
    ensures { T.gives task result }
{
    scope(
        scope_env(),
        rt,
        move |scope| -> A
            requires { All (W.takes worker.now) seats.items × T.can_run task }
            ensures { T.gives task result }
        {
            for seat in seats {
                let work = move ||
                    requires { W.takes worker.now seat }
                { worker.drain(seat) };
                if let Err(refused) = scope.spawn(work) {
                    (refused.value)();
                }
            }
            task.run()
        },
    )
}

// Ties a returned reference, for the borrow checker, to the parameter that lent it.
fn take_back<T>(x: &mut T)
    ensures { x.new ≡ x.old }
{}

// Writes the report, with workers that share a lane program and a board.
fn follow_on<R, G, S>(
    rt: &R,
    alloc: Global,
    work: &Work<'_, '_>,
    board: &FollowBoard,
    first: FollowSeat,
    workers: u32,
    gate: &G,
    sink: &mut S,
) -> Result<(), FollowError>
where
    R: Threads + Wait + Clock + Sync,
    G: Gate + Sync,
    S: Sink,
    requires board { IsBoardFor work.now.program.now.program.now work.now.set.now
        work.now.plan.now board.now }
    requires first { IsFollowSeatOf board.now first }
    requires failures { S.failures sink.old < u64.MAX }
    ensures { IsFollowed (report_of (trace_names work.now.set.now.traces) (right_of board.now))
        (S.taken sink.old) (S.taken sink.new) (S.failures sink.old) (S.failures sink.new) result }
{
    let Ok((seat, seats)) = worker_seats(alloc, board, first, workers) else {
        return Err(FollowError::Memory { count: 0 });
    };
    let set = work.set;
    let worker = PostingWorker {
        alloc,
        work: *work,
        board,
        gate,
    };
    let writing = Writing {
        rt,
        alloc,
        board,
        seat,
        set,
        sink,
    };
    let (sink, written) = beside_workers(rt, &worker, seats, writing);
    take_back(sink);
    written
}

/// Writes the report on all traces of a set, which have the program's signature, to a sink, with 1
/// to 64 workers that draw the batches of a plan until none is left. Each line goes out as soon as
/// it and all before it are known. No more workers start than there are batches. The calling thread
/// writes; for 64 workers there are 63 threads beside it. Each worker passes the gate for a batch
/// before it runs it, and has settled all that it drew before.
///
/// An error has the number of bytes that went out, which are the first of the report: E0 where
/// memory was refused, E19 where the sink failed. It comes once all workers have ended.
///
/// ```text
/// let plan = Plan::in_order(alloc, set.len(), 64)?;
/// run_follow(rt, alloc, &ordered, &set, &plan, 4, &NoGate, &mut sink)?;
/// ```
pub fn run_follow<R, G, S>(
    rt: &R,
    alloc: Global,
    ordered: &Ordered,
    set: &TraceSet,
    plan: &Plan,
    workers: u32,
    gate: &G,
    sink: &mut S,
) -> Result<(), FollowError>
where
    R: Threads + Wait + Clock + Sync,
    G: Gate + Sync,
    S: Sink,
    requires plan { length (numbers_in plan.now) ≡ length set.now.traces }
    requires kinds { HasKindsOf (program_of ordered.now.program) set.now }
    requires workers { (0 < workers) × (workers ≤ 64) }
    requires failures { S.failures sink.old < u64.MAX }
    ensures right { AreVerdicts ordered.now.program set.now
        (right_verdicts (program_of ordered.now.program) set.now) }
    ensures followed { IsFollowed (right_report ordered.now.program set.now)
        (S.taken sink.old) (S.taken sink.new) (S.failures sink.old) (S.failures sink.new) result }
{
    let _ = set.signature();
    let Ok(program) = compile(alloc, ordered) else {
        return Err(FollowError::Memory { count: 0 });
    };
    let Ok((board, seat)) = FollowBoard::new(alloc, ordered, set, plan) else {
        return Err(FollowError::Memory { count: 0 });
    };
    let work = Work {
        program: &program,
        set,
        plan,
    };
    let workers = workers.min(plan.batches());
    follow_on(rt, alloc, &work, &board, seat, workers, gate, sink)
}
