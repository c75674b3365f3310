//! The writer of a live report: it writes each line as soon as that line and all before it are
//! known.
//!
//! While the next line is not known, the writer sends all that is known, flushes the sink, and
//! sleeps a little, again and again. It takes no processor from the workers.

ghost use Rattle.std.specs.Prelude.{◌≡◌, ◌<◌, ◌≤◌, ◌+◌, ◌*◌, ◌^◌, ◌++◌, ◌∷◌, [], List, ℕ};
ghost use Rattle.std.specs.Prelude.{IfErr, IfOk, IfSome, OnOk, get_or, length, vec_len};
ghost use Rattle.lb_check.specs.declared.verdict.Verdict.TheVariants.{Passed};
ghost use Rattle.lb_traces.specs.Traces.{trace_names};
ghost use Rattle.lb_board.specs.FollowSeats.{IsFollowSeatOf, right_of};
ghost use Rattle.lb_output.specs.Follows.{Goes, HasCause, IsFollowed, sent_of};
ghost use Rattle.lb_output.specs.Reports as spec;

use lb_board::{FollowBoard, FollowSeat, Look};
use lb_check::Verdict;
use lb_output::{FollowError, Outgoing, Sink, send_all, send_chunk};
use lb_traces::TraceSet;
use std::alloc::Global;
use std::sync::Wait;
use std::thread::sleep;
use std::time::{Clock, Duration};

/// The time that the writer sleeps between two looks, in microseconds.
const PAUSE: u64 = 200;

// Waits until a trace is settled, and returns its verdict, or `None` where it is settled as failed.
fn wait_for<R: Wait + Clock>(
    rt: &R,
    board: &FollowBoard,
    seat: &mut FollowSeat,
    k: u32,
) -> Option<Verdict>
    requires seat { IsFollowSeatOf board.now seat.old }
    requires trace { k < length (right_of board.now) }
    ensures seat { IsFollowSeatOf board.now seat.new }
    ensures right { IfSome result (λ v. v ≡ get_or (right_of board.now) k Passed) }
{
    for _ in rt.forever() {
        match board.look(seat, k) {
            Look::Ready(verdict) => return Some(verdict),
            Look::Failed => return None,
            Look::Waiting => sleep(rt, Duration::from_micros(PAUSE)),
        }
    }
    unreachable!()
}

// The verdict of a trace. If it is not known yet, all that is known goes out first.
fn next_verdict<R: Wait + Clock, S: Sink>(
    rt: &R,
    board: &FollowBoard,
    seat: &mut FollowSeat,
    k: u32,
    sink: &mut S,
    out: &mut Outgoing,
) -> Result<Verdict, FollowError>
    requires seat { IsFollowSeatOf board.now seat.old }
    requires trace { k < length (right_of board.now) }
    requires failures { S.failures sink.old < u64.MAX }
    requires room { out.old.count + vec_len out.old.text < 2 ^ 64 }
    ensures seat { IsFollowSeatOf board.now seat.new }

    // Where the result is `Ok`:
    ensures right { IfOk result (λ v. v ≡ get_or (right_of board.now) k Passed) }
    ensures gone { OnOk result (Goes (S.taken sink.old) (S.taken sink.new)
        out.old.text.items out.new.text.items out.old.count out.new.count) }
    ensures ok { OnOk result (S.failures sink.new ≡ S.failures sink.old) }

    // Else the first bytes went out.
    ensures first { IfErr result (λ e. (rest : List ℕ) × Goes (S.taken sink.old) (S.taken sink.new)
        out.old.text.items rest out.old.count (sent_of e)) }
    ensures cause { IfErr result (λ e. HasCause e (S.failures sink.old) (S.failures sink.new)) }
{
    if let Look::Ready(verdict) = board.look(seat, k) {
        return Ok(verdict);
    }
    send_all(sink, out)?;
    match wait_for(rt, board, seat, k) {
        Some(verdict) => Ok(verdict),
        None => Err(out.refused()),
    }
}

// Adds a verdict behind those that were found before.
fn keep_verdict(
    out: &Outgoing,
    verdicts: &mut Vec<Verdict>,
    verdict: Verdict,
) -> Result<(), FollowError>
    ensures kept { OnOk result (verdicts.new.items ≡ verdicts.old.items ++ verdict ∷ []) }
    ensures refused { IfErr result (λ e. (sent_of e ≡ out.now.count)
        × ((n : ℕ) → HasCause e n n)) }
{
    match verdicts.push(verdict) {
        Ok(()) => Ok(()),
        Err(_) => Err(out.refused()),
    }
}

// Writes the lines of all traces, except the text that is still kept back.
fn write_lines<R: Wait + Clock, S: Sink>(
    rt: &R,
    board: &FollowBoard,
    seat: &mut FollowSeat,
    set: &TraceSet,
    sink: &mut S,
    out: &mut Outgoing,
    verdicts: &mut Vec<Verdict>,
) -> Result<(), FollowError>
    requires seat { IsFollowSeatOf board.now seat.old }
    requires traces { length (right_of board.now) ≡ length set.now.traces }
    requires failures { S.failures sink.old < u64.MAX }
    requires text { (out.old.text.items ≡ []) × (out.old.count ≡ 0) }
    requires verdicts { verdicts.old.items ≡ [] }

    // Where the result is `Ok`:
    ensures verdicts { OnOk result (verdicts.new.items ≡ right_of board.now) }
    ensures gone { OnOk result (Goes (S.taken sink.old) (S.taken sink.new)
        (spec.lines (trace_names set.now.traces) (right_of board.now)) out.new.text.items
        0 out.new.count) }
    ensures room { OnOk result (out.new.count ≤ 128 * length set.now.traces) }
    ensures ok { OnOk result (S.failures sink.new ≡ S.failures sink.old) }

    // Else the first bytes went out.
    ensures first { IfErr result (λ e. (rest : List ℕ) × Goes (S.taken sink.old) (S.taken sink.new)
        (spec.report_of (trace_names set.now.traces) (right_of board.now)) rest 0 (sent_of e)) }
    ensures cause { IfErr result (λ e. HasCause e (S.failures sink.old) (S.failures sink.new)) }
{
    let _ = set.signature();
    for k in 0..set.len() {
        let verdict = next_verdict(rt, board, seat, k, sink, out)?;
        out.add_line(set.name(k), verdict)?;
        keep_verdict(out, verdicts, verdict)?;
        send_chunk(sink, out)?;
    }
    Ok(())
}

// Writes the report.
fn write_report<R: Wait + Clock, S: Sink>(
    rt: &R,
    alloc: Global,
    board: &FollowBoard,
    seat: &mut FollowSeat,
    set: &TraceSet,
    sink: &mut S,
) -> Result<(), FollowError>
    requires seat { IsFollowSeatOf board.now seat.old }
    requires traces { length (right_of board.now) ≡ length set.now.traces }
    requires failures { S.failures sink.old < u64.MAX }
    ensures { IsFollowed (spec.report_of (trace_names set.now.traces) (right_of board.now))
        (S.taken sink.old) (S.taken sink.new) (S.failures sink.old) (S.failures sink.new) result }
{
    let mut out = Outgoing::new(alloc);
    let mut verdicts = Vec::new(alloc);
    write_lines(rt, board, seat, set, sink, &mut out, &mut verdicts)?;
    let _ = set.len();
    out.add_total(verdicts.as_slice())?;
    send_all(sink, &mut out)
}

/// The work of the calling thread beside its workers. The function that starts them is generic over
/// it: proofs know nothing of a `&mut` in the closure of a scope, but they know what `run` gives.
pub(crate) trait Task {
    type Output;

    ghost can_run: { Self → Type 0 };

    ghost gives: { Self → Self.Output → Type 0 };

    fn run(self) -> Self::Output
        requires { can_run self }
        ensures { gives self result };
}

/// The writing of a live report.
#[derive(Drop)]
pub(crate) struct Writing<'a, R, S> {
    pub(crate) rt: &'a R,
    pub(crate) alloc: Global,
    pub(crate) board: &'a FollowBoard,
    pub(crate) seat: FollowSeat,
    pub(crate) set: &'a TraceSet,
    pub(crate) sink: &'a mut S,
}

impl<'a, R: Wait + Clock, S: Sink> Task for Writing<'a, R, S> {
    ghost use Rattle.atomic_table.below.core.specs.declared.int.u64.TheConstants.{MAX};

    type Output = (&'a mut S, Result<(), FollowError>);

    ghost can_run = { λ t. IsFollowSeatOf t.board.now t.seat
        × (length (right_of t.board.now) ≡ length t.set.now.traces)
        × (S.failures t.sink.now < MAX) };

    ghost gives = { λ t r. (r.0.ghost_name ≡ t.sink.ghost_name)
        × IsFollowed (spec.report_of (trace_names t.set.now.traces) (right_of t.board.now))
        (S.taken t.sink.now) (S.taken r.0.now)
        (S.failures t.sink.now) (S.failures r.0.now) r.1 };

    fn run(self) -> (&'a mut S, Result<(), FollowError>) {
        let Writing {
            rt,
            alloc,
            board,
            mut seat,
            set,
            sink,
        } = self;
        let written = write_report(rt, alloc, board, &mut seat, set, sink);
        (sink, written)
    }
}
