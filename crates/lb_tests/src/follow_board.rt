//! The board of settled traces, step by step.

ghost use Rattle.std.specs.Prelude.{◌≡◌, ◌<◌, Some, IfOk, length};
ghost use Rattle.lb_flat.specs.Programs.{program_of};
ghost use Rattle.lb_flat.specs.RightVerdicts.{right_verdicts};
ghost use Rattle.lb_flat.specs.Standing.{HasKindsOf};
ghost use Rattle.lb_board.specs.FollowSeats.{IsFollowSeatOf, right_of};
ghost use Rattle.lb_board.specs.Settlements.{IsRight};

use crate::pool::first_case;
use lb_check::Verdict;
use lb_flat::{Ordered, eval_trace};
use lb_pool::{FollowBoard, FollowSeat, Look, Plan};
use lb_sim::has_kinds;
use lb_test_support::cases::prepared;
use lb_test_support::texts::{Said, expect};
use lb_traces::TraceSet;
use std::alloc::{AllocError, Global};
use std::test::Fail;

// The verdict with which a trace is settled, or `failed`.
fn push_settled(settled: Option<Verdict>, said: &mut Said) {
    match settled {
        Some(Verdict::Passed) => said.push_str(" passed"),
        Some(Verdict::False(t)) => write!(said, " false {t}"),
        Some(_) => said.push_str(" another"),
        None => said.push_str(" failed"),
    }
}

// Claims once.
fn push_claim(board: &FollowBoard, seat: &mut FollowSeat, said: &mut Said)
    requires { IsFollowSeatOf board.now seat.old }
    ensures { IsFollowSeatOf board.now seat.new }
{
    match board.claim(seat) {
        Some(i) => write!(said, "claim {i}\n"),
        None => said.push_str("claim none\n"),
    }
}

// Looks at a trace once.
fn push_look(board: &FollowBoard, seat: &mut FollowSeat, k: u32, said: &mut Said)
    requires seat { IsFollowSeatOf board.now seat.old }
    requires trace { k < length (right_of board.now) }
    ensures { IsFollowSeatOf board.now seat.new }
{
    write!(said, "look {k}");
    match board.look(seat, k) {
        Look::Waiting => said.push_str(" waiting"),
        Look::Ready(verdict) => push_settled(Some(verdict), said),
        Look::Failed => push_settled(None, said),
    }
    said.push('\n');
}

// Posts a trace once.
fn push_post(
    board: &FollowBoard,
    seat: &mut FollowSeat,
    k: u32,
    verdict: Option<Verdict>,
    said: &mut Said,
)
    requires seat { IsFollowSeatOf board.now seat.old }
    requires trace { k < length (right_of board.now) }
    requires right { IsRight (right_of board.now) k verdict }
    ensures { IsFollowSeatOf board.now seat.new }
{
    write!(said, "post {k}");
    push_settled(board.post(seat, k, verdict), said);
    said.push('\n');
}

// The verdict of a trace by `eval_trace`.
fn verdict_of(
    alloc: Global,
    board: &FollowBoard,
    ordered: &Ordered,
    set: &TraceSet,
    k: u32,
) -> Result<Verdict, AllocError>
    requires right { right_of board.now
        ≡ right_verdicts (program_of ordered.now.program) set.now }
    requires kinds { HasKindsOf (program_of ordered.now.program) set.now }
    requires trace { k < length set.now.traces }
    ensures { IfOk result (λ v. IsRight (right_of board.now) k (Some v)) }
{
    let _ = board;
    eval_trace(alloc, ordered, set, k)
}

// Posts a trace with the verdict that `eval_trace` gives it.
fn push_right_post(
    alloc: Global,
    board: &FollowBoard,
    ordered: &Ordered,
    set: &TraceSet,
    seat: &mut FollowSeat,
    k: u32,
    said: &mut Said,
)
    requires seat { IsFollowSeatOf board.now seat.old }
    requires right { right_of board.now
        ≡ right_verdicts (program_of ordered.now.program) set.now }
    requires kinds { HasKindsOf (program_of ordered.now.program) set.now }
    requires trace { k < length set.now.traces }
    requires word { k < length (right_of board.now) }
    ensures { IsFollowSeatOf board.now seat.new }
{
    match verdict_of(alloc, board, ordered, set, k) {
        Ok(verdict) => push_post(board, seat, k, Some(verdict), said),
        Err(_) => said.cut(),
    }
}

// One seat claims and posts, another looks.
fn push_turns(
    alloc: Global,
    board: &FollowBoard,
    ordered: &Ordered,
    set: &TraceSet,
    first: &mut FollowSeat,
    second: &mut FollowSeat,
    said: &mut Said,
)
    requires first { IsFollowSeatOf board.now first.old }
    requires second { IsFollowSeatOf board.now second.old }
    requires right { right_of board.now
        ≡ right_verdicts (program_of ordered.now.program) set.now }
    requires kinds { HasKindsOf (program_of ordered.now.program) set.now }
    requires traces { length set.now.traces ≡ 65 }
    requires words { length (right_of board.now) ≡ 65 }
    ensures first { IsFollowSeatOf board.now first.new }
    ensures second { IsFollowSeatOf board.now second.new }
{
    push_claim(board, second, said);
    push_right_post(alloc, board, ordered, set, second, 0, said);
    push_look(board, first, 0, said);
    push_look(board, first, 1, said);
    push_post(board, second, 1, None, said);
    push_right_post(alloc, board, ordered, set, second, 1, said);
    push_look(board, first, 1, said);
    push_right_post(alloc, board, ordered, set, second, 64, said);
    push_look(board, first, 64, said);
    push_claim(board, first, said);
    push_claim(board, second, said);
}

// The steps on a board that is split once, and the shares of its seats.
fn push_steps(
    alloc: Global,
    ordered: &Ordered,
    set: &TraceSet,
    said: &mut Said,
) -> Result<(), AllocError> {
    let plan = Plan::in_order(alloc, set.len(), 64)?;
    if set.len() != 65 || plan.traces() != 65 {
        said.push_str("another count");
        return Ok(());
    }
    if !has_kinds(set.signature(), ordered.program.inputs.as_slice()) {
        said.push_str("other kinds");
        return Ok(());
    }
    let (board, seat) = FollowBoard::new(alloc, ordered, set, &plan)?;
    write!(said, "shares {}\n", seat.shares());
    let (mut first, mut second) = board.split(seat);
    write!(said, "shares {} {}\n", first.shares(), second.shares());
    push_turns(alloc, &board, ordered, set, &mut first, &mut second, said);
    let seat = board.join(first, second);
    write!(said, "shares {}", seat.shares());
    Ok(())
}

// The steps on the first case of the table, which has sixty-five traces.
fn steps_of_row(alloc: Global) -> Said {
    let mut said = Said::new(alloc);
    let case = first_case(alloc);
    said.cut_with(&case);
    match &prepared(alloc, case.as_str(), "") {
        Some((ordered, set)) => {
            if push_steps(alloc, ordered, set, &mut said).is_err() {
                said.cut();
            }
        }
        None => said.push_str("refused"),
    }
    said
}

const STEPS: &str = "\
shares 64
shares 32 32
claim 0
post 0 passed
look 0 passed
look 1 waiting
post 1 failed
post 1 failed
look 1 failed
post 64 false 64
look 64 false 64
claim 1
claim none
shares 64";

/// A trace is settled once, and a look returns its verdict.
#[test]
fn settled_once(rt: HostRuntime) -> Result<(), Fail> {
    expect(&steps_of_row(rt.alloc()), STEPS)
}
