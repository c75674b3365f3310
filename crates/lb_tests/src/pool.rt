//! Plans, claim boards, and runs by workers.

ghost use Rattle.std.specs.Prelude.{◌≡◌};
ghost use Rattle.lb_board.specs.Seats.{IsSeatOf, shares_of};

use crate::answers::{push_answer, push_run, spread};
use lb_check::Verdict;
use lb_flat::{Ordered, eval_trace};
use lb_pool::{ClaimBoard, ClaimSeat, Gate, Plan, run_claims};
use lb_report::{Options, status};
use lb_static::Signature;
use lb_test_support::cases::{prepared, push_case};
use lb_test_support::rows::write_out;
use lb_test_support::texts::{Said, around, expect, push_unlike};
use lb_trace::read_traces;
use lb_traces::TraceSet;
use std::alloc::{AllocError, Global};
use std::hint::spin_loop;
use std::sync::atomic::{AtomicBool, Ordering};
use std::test::Fail;
use std::thread::Threads;

// ## Plans

// The records of traces with these lengths, numbered from 0, without cells.
fn push_traces(text: &mut Said, lengths: &str) {
    let mut number: u32 = 0;
    for length in lengths.split(' ') {
        for _ in 0..length.parse::<u32>().unwrap_or(0) {
            write!(text, "t{number}\n");
        }
        number = number.saturating_add(1);
    }
}

// The number of batches and of traces of a plan, and its batches.
fn push_batches(plan: &Plan, said: &mut Said) {
    write!(said, "{} of {}:", plan.batches(), plan.traces());
    for i in 0..plan.batches() {
        said.push_str(" |");
        for k in plan.batch(i) {
            write!(said, " {k}");
        }
    }
}

// The plan for a width: `2`, or `2 by length`.
fn push_plan_of(alloc: Global, set: &TraceSet, width: &str, said: &mut Said) {
    let (number, is_by_length) = match width.split_once(' ') {
        Some((number, _)) => (number, true),
        None => (width, false),
    };
    let width = number.parse::<u32>().unwrap_or(0);
    if width == 0 || width > 64 {
        return said.push_str("no width");
    }
    let plan = if is_by_length {
        Plan::by_length(alloc, set, width)
    } else {
        Plan::in_order(alloc, set.len(), width)
    };
    match &plan {
        Ok(plan) => push_batches(plan, said),
        Err(_) => said.cut(),
    }
}

/// The plan for a width and the lengths of some traces.
pub fn push_plan(alloc: Global, asked: &str, said: &mut Said) {
    let (width, lengths) = around(asked, ":");
    let mut text = Said::new(alloc);
    text.push_str("trace\n");
    push_traces(&mut text, lengths);
    said.cut_with(&text);
    let signature = Signature::new(alloc);
    match &read_traces(alloc, &signature, text.as_str().as_bytes()) {
        Ok(set) => push_plan_of(alloc, set, width, said),
        Err(_) => said.push_str("no traces"),
    }
}

// Rows: a width, and the lengths of the traces, that of trace 0 first. Then the number of batches
// and of traces, and the batches.
pub const PLANS: &str = "\
64:{65  1} => 2 of 65: |{64  @} | 64
64 by length:{65  1} => 2 of 65: |{64  @} | 64
64: => 0 of 0:
1 by length: => 0 of 0:
1: 2 2 => 2 of 2: | 0 | 1
2: 3 1 2 1 => 2 of 4: | 0 1 | 2 3
3: 3 1 2 1 => 2 of 4: | 0 1 2 | 3
2 by length: 3 1 2 1 => 2 of 4: | 1 3 | 2 0
3 by length: 3 1 2 1 => 2 of 4: | 1 3 2 | 0";

// ## Claim boards

// Claims once.
fn push_draw(board: &ClaimBoard, seat: &mut ClaimSeat, said: &mut Said)
    requires { IsSeatOf board.now seat.old }
    ensures seat { IsSeatOf board.now seat.new }
    ensures shares { shares_of seat.new ≡ shares_of seat.old }
{
    match board.claim(seat) {
        Some(k) => write!(said, "{k} "),
        None => said.push_str("- "),
    }
}

// Claims with two seats, `a` and `b`, in turn.
fn push_draws(
    board: &ClaimBoard,
    first: &mut ClaimSeat,
    second: &mut ClaimSeat,
    turns: &str,
    said: &mut Said,
)
    requires first { IsSeatOf board.now first.old }
    requires second { IsSeatOf board.now second.old }
    ensures first { IsSeatOf board.now first.new }
    ensures second { IsSeatOf board.now second.new }
    ensures first_shares { shares_of first.new ≡ shares_of first.old }
    ensures second_shares { shares_of second.new ≡ shares_of second.old }
{
    for turn in turns.as_bytes() {
        if *turn == b'a' {
            push_draw(board, first, said);
        } else {
            push_draw(board, second, said);
        }
    }
}

/// The numbers that two seats of a board claim in turn, and whether these are all.
pub fn push_claims(alloc: Global, asked: &str, said: &mut Said) {
    let (limit, turns) = around(asked, " ");
    let Ok((board, seat)) = ClaimBoard::new(alloc, limit.parse::<u32>().unwrap_or(0)) else {
        return said.cut();
    };
    let (mut first, mut second) = board.split(seat);
    push_draws(&board, &mut first, &mut second, turns, said);
    let seat = board.join(first, second);
    said.push_str(if board.close(seat) { "all" } else { "not all" });
}

// Rows: the count of numbers, and the seat of each claim. Then the numbers that are claimed, and
// whether the board reports that these are all.
pub const CLAIMS: &str = "\
3 ababa => 0 1 2 - - all
3 abab => 0 1 2 - all
3 aba => 0 1 2 not all
3 aaaab => 0 1 2 - - all
1 ab => 0 - all
1 abab => 0 - - - all
1 b => 0 not all
0 ab => - - all
0 a => - all
0 => not all";

// Moves the larger half of the second seat's shares to the first, if there are two.
fn moved(board: &ClaimBoard, first: ClaimSeat, second: ClaimSeat) -> (ClaimSeat, ClaimSeat)
    requires first { IsSeatOf board.now first }
    requires second { IsSeatOf board.now second }
    ensures first { IsSeatOf board.now result.0 }
    ensures second { IsSeatOf board.now result.1 }
{
    if second.shares() < 2 {
        return (first, second);
    }
    let (left, right) = board.split(second);
    (board.join(first, left), right)
}

// The shares of two seats after each turn, in which `a` or `b` gives the larger half of its own to
// the other.
fn push_moves(board: &ClaimBoard, first: ClaimSeat, second: ClaimSeat, turns: &str, said: &mut Said)
    requires first { IsSeatOf board.now first }
    requires second { IsSeatOf board.now second }
{
    let mut a = first;
    let mut b = second;
    for turn in turns.as_bytes() {
        if *turn == b'a' {
            let (taker, giver) = moved(board, b, a);
            b = taker;
            a = giver;
        } else {
            let (taker, giver) = moved(board, a, b);
            a = taker;
            b = giver;
        }
        write!(said, ", {} {}", a.shares(), b.shares());
    }
}

/// The shares of a seat, those of its two halves, and those after each turn.
pub fn push_shares(alloc: Global, turns: &str, said: &mut Said) {
    let Ok((board, seat)) = ClaimBoard::new(alloc, 3) else {
        return said.cut();
    };
    write!(said, "{}: ", seat.shares());
    let (first, second) = board.split(seat);
    write!(said, "{} {}", first.shares(), second.shares());
    push_moves(&board, first, second, turns, said);
}

// Rows: the seats that give the larger half of their shares to the other, turn by turn. Then all
// shares, those of the two halves, and those after each turn. In the second row a seat of three
// shares is cut.
pub const SHARES: &str = "\
a => 64: 32 32, 16 48
bbbbaaaaaa => 64: 32 32, 48 16, 56 8, 60 4, 62 2, 31 33, 15 49, 7 57, 3 61, 1 63, 1 63";

// ## Runs

/// The numbers of lanes of a batch.
pub const LANES: [u32; 3] = [1, 7, 64];

// The answer of a run on a case, if it is not `wanted`.
fn push_other<R: AllocGlobal + Threads + Sync>(
    rt: &R,
    case: &str,
    options: Options,
    wanted: &str,
    unlike: &mut Said,
) {
    let mut other = Said::new(rt.alloc());
    push_run(rt, case.as_bytes(), &options, &mut other);
    push_unlike(
        wanted,
        &other,
        options.workers,
        options.batch as usize,
        unlike,
    )
}

// `push_other` for each number of workers and of lanes, in order and by length.
fn push_others<R: AllocGlobal + Threads + Sync>(
    rt: &R,
    case: &str,
    wanted: &str,
    unlike: &mut Said,
) {
    for workers in [0, 1, 2, 7, 64] {
        for lanes in LANES {
            for by_length in [false, true] {
                match spread(rt.alloc(), workers, lanes, by_length) {
                    Ok(options) => push_other(rt, case, options, wanted, unlike),
                    Err(_) => unlike.cut(),
                }
            }
        }
    }
}

/// The answer on a case with counted records, and the answers that differ with other numbers of
/// workers and lanes, in order or by length.
pub fn push_spread<R: AllocGlobal + Threads + Sync>(rt: &R, asked: &str, said: &mut Said) {
    let mut case = Said::new(rt.alloc());
    let mut unlike = Said::new(rt.alloc());
    push_case(&mut case, asked);
    said.cut_with(&case);
    push_answer(rt, case.as_str(), "", said);
    push_others(rt, case.as_str(), said.as_str(), &mut unlike);
    said.push_said(&unlike);
}

// Cases: sixty-five lengths, so that at width 64 the second batch has one trace; traces of which
// some end early; such traces, one of which passes, so that its line and the last one differ; no
// trace.
pub const SPREADS: &str = "\
node main() returns (ok: bool);
var n: int;
let n = 0 -> pre n + 1; ok = n < 64; tel
%traces
trace
{1..65 t@ @
}%answer
{1..64 t@ passed
}t65 false 64
total 65 passed 64 fault 0 undefined 0 assertion 0 false 1
status 1
%case
node main(x: int) returns (ok: bool);
var q: int;
let q = 100 / (x + 1); ok = x < 50; tel
%traces
trace,x
{5 t@ 10,1
}t5 1,-1
t5 8,1
t5 1,50
t6 1,1
t7 9,1
t7 1,50
{8..63 t@ 10,1
}%answer
{5 t@ passed
}t5 fault 0
t6 passed
t7 false 9
{8..63 t@ passed
}total 64 passed 62 fault 1 undefined 0 assertion 0 false 1
status 1
%case
node main(x: int) returns (ok: bool);
var q: int;
let q = 100 / (x + 1); ok = x < 50; tel
%traces
trace,x
{6 t@ 10,1
}t6 1,1
t7 9,1
t7 1,50
{8..63 t@ 10,1
}%answer
{5 t@ passed
}t5 passed
t6 passed
t7 false 9
{8..63 t@ passed
}total 64 passed 63 fault 0 undefined 0 assertion 0 false 1
status 1
%case
node main() returns (ok: bool); let ok = true; tel
%traces
trace
%answer
total 0 passed 0 fault 0 undefined 0 assertion 0 false 0
status 0";

// ## Two workers at once

/// A gate that holds the worker of batch 0 until another batch has been entered.
#[derive(Drop)]
pub struct Hold {
    is_entered: AtomicBool,
    has_given_up: AtomicBool,
}

/// The number of times that a worker which is held looks before it gives up.
pub const TURNS: u32 = 100_000_000;

impl Hold {
    /// A gate where no batch has been entered.
    pub fn new() -> Hold {
        Hold {
            is_entered: AtomicBool::new(false),
            has_given_up: AtomicBool::new(false),
        }
    }

    /// Whether the worker that is held has looked for the last time.
    pub fn has_given_up(&self) -> bool {
        self.has_given_up.load(Ordering::SeqCst)
    }

    fn wait(&self) {
        for _ in 0..TURNS {
            if self.is_entered.load(Ordering::SeqCst) {
                return;
            }
            spin_loop();
        }
        self.has_given_up.store(true, Ordering::SeqCst);
    }
}

impl Gate for Hold {
    fn enter(&self, batch: u32) {
        if batch == 0 {
            self.wait();
        } else {
            self.is_entered.store(true, Ordering::SeqCst);
        }
    }
}

// The verdict of the last of sixty-five traces, by `eval_trace`.
fn push_last(alloc: Global, ordered: &Ordered, set: &TraceSet, said: &mut Said) {
    if set.len() != 65 {
        return said.push_str("another count");
    }
    match eval_trace(alloc, ordered, set, 64) {
        Ok(Verdict::False(t)) => write!(said, ", last false {t}"),
        Ok(_) => said.push_str(", last another"),
        Err(_) => said.cut(),
    }
}

// The number of verdicts that two workers find, the status, and the last verdict.
fn push_verdicts<R: Threads + Sync>(
    rt: &R,
    alloc: Global,
    ordered: &Ordered,
    set: &TraceSet,
    gate: &Hold,
    said: &mut Said,
) -> Result<(), AllocError> {
    let plan = Plan::in_order(alloc, set.len(), 64)?;
    if plan.traces() != set.len() {
        said.push_str("not all traces");
        return Ok(());
    }
    let verdicts = run_claims(rt, alloc, ordered, set, &plan, 2, gate)?;
    let status = status(verdicts.as_slice());
    write!(said, "{} verdicts, status {status}", verdicts.len());
    push_last(alloc, ordered, set, said);
    Ok(())
}

/// The first case of the table, which has sixty-five traces.
pub fn first_case(alloc: Global) -> Said {
    let (short, _) = around(SPREADS, "%answer\n");
    let mut row = Said::new(alloc);
    let mut case = Said::new(alloc);
    let _ = write_out(&mut row, short);
    push_case(&mut case, row.as_str());
    case.cut_with(&row);
    case
}

// `push_verdicts` for the first case.
fn gated<R: Threads + Sync>(rt: &R, alloc: Global, gate: &Hold) -> Said {
    let mut said = Said::new(alloc);
    let case = first_case(alloc);
    said.cut_with(&case);
    match &prepared(alloc, case.as_str(), "") {
        Some((ordered, set)) => {
            if push_verdicts(rt, alloc, ordered, set, gate, &mut said).is_err() {
                said.cut();
            }
        }
        None => said.push_str("refused"),
    }
    said
}

/// An implementation that runs all batches on one thread does not pass the gate.
#[test]
fn one_thread_for_all(rt: HostRuntime) -> Result<(), Fail> {
    let gate = Hold::new();
    let said = gated(&rt, rt.alloc(), &gate);
    expect(&said, "65 verdicts, status 1, last false 64")?;
    assert!(rt; !gate.has_given_up());
    Ok(())
}
