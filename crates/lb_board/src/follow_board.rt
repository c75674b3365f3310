//! The board of settled traces: workers draw batches from it and post the verdicts of their traces;
//! the writer of the report looks whether the next trace is settled.
//!
//! ```text
//! word   0        1         2         3 ..
//!        claims   trace 0   trace 1   trace 2 ..    0 while open, then what it is settled with
//! ```
//!
//! A post changes the word of its trace in one atomic step, if the trace is open. So a trace is
//! settled once, and what it is settled with stays. A look is one load. A seat is the right to
//! claim, to post and to look; nothing here locks or waits.

ghost use Rattle.std.specs.Prelude.{◌≡◌, ◌<◌, ◌≤◌, ◌+◌, ◌-◌, ◌/◌, ◌^◌, ◌||◌, ◌++◌, ◌∷◌, []};
ghost use Rattle.std.specs.Prelude.{true, false, Option, None, MatchOption, IfOk, length, min};
ghost use Rattle.lb_flat.specs.Programs.{program_of};
ghost use Rattle.lb_flat.specs.RightVerdicts.{right_verdicts};
ghost use Rattle.lb_plan.specs.Plans.{numbers_in};
ghost use Rattle.lb_board.specs.FollowKeys.{right_by};
ghost use Rattle.lb_board.specs.Settlements.{IsRight, Knows, told_by, word_of, and_one};

use crate::follow_views::{
    ClaimBatch, FollowKey, FollowRule, FollowView, GatherSeats, HalveSeat, LookAtTrace, PostTrace,
};
use atomic_table::{Seat, Table};
use lb_check::Verdict;
use lb_flat::Ordered;
use lb_plan::Plan;
use lb_traces::TraceSet;
use std::alloc::{AllocError, Global};
use std::snapshot::Snapshot;

/// A word from which batches are drawn, and a word for each trace.
#[derive(Drop)]
pub struct FollowBoard {
    table: Table<u64, FollowView, FollowKey, FollowRule, Global>,
    batches: u32,
    ghost words: { table.shared.table_id.words ≡ length (right_by table.shared.key) + 1 },
    ghost limit: { table.shared.key.batches ≡ batches },
}

/// The right to claim, to post and to look: some of a board's 64 shares, and for contracts all that
/// was drawn and posted with it, and what it knows.
#[derive(Drop)]
pub struct FollowSeat {
    seat: Seat<u64, FollowView>,
    shares: u32,
    told: bool,
    ghost view: { (seat.me.0.draws.shares ≡ shares) × (seat.me.0.draws.told ≡ told) },
    ghost part: { (0 < shares) × (shares ≤ 64) },
    ghost empty: { seat.me.1 ≡ [] },
}

/// The answer of a look at a trace.
#[derive(Clone, Copy)]
pub enum Look {
    /// The trace is not settled yet.
    Waiting,
    /// The trace is settled with its verdict.
    Ready(Verdict),
    /// The trace is settled as failed: memory was refused to the worker that drew it.
    Failed,
}

// The word of a trace that is settled with a verdict, or as failed.
fn word_of(settled: Option<Verdict>) -> u64
    ensures word { result ≡ word_of settled }
    ensures small { (0 < result) × (result < 2 ^ 35) }
{
    match settled {
        None => 1,
        Some(Verdict::Passed) => 2,
        Some(Verdict::Fault(instant)) => 8 * u64::from(instant) + 3,
        Some(Verdict::Undefined(instant)) => 8 * u64::from(instant) + 4,
        Some(Verdict::Assertion(instant)) => 8 * u64::from(instant) + 5,
        Some(Verdict::False(instant)) => 8 * u64::from(instant) + 6,
    }
}

// The settlement that a word stands for, if it is not 0.
fn told_by(word: u64) -> Option<Verdict>
    requires { word < 2 ^ 35 }
    ensures { result ≡ told_by word }
{
    let instant = (word / 8) as u32;
    match word % 8 {
        1 => None,
        2 => Some(Verdict::Passed),
        3 => Some(Verdict::Fault(instant)),
        4 => Some(Verdict::Undefined(instant)),
        5 => Some(Verdict::Assertion(instant)),
        _ => Some(Verdict::False(instant)),
    }
}

impl FollowBoard {
    ghost use Rattle.lb_board.specs.FollowSeats.{IsFollowSeatOf, HasSameDraws, Tells, shown};
    ghost use Rattle.lb_board.specs.FollowSeats.{batches_of, right_of, shares_of, told_of};
    ghost use Rattle.lb_board.specs.FollowSeats.{drawn_of, posts_of, known_of};

    /// A board of the batches of a plan and the traces of a set, which are all open, and its first
    /// seat, which has all shares.
    pub fn new(
        alloc: Global,
        ordered: &Ordered,
        set: &TraceSet,
        plan: &Plan,
    ) -> Result<(FollowBoard, FollowSeat), AllocError>
        requires plan { length (numbers_in plan.now) ≡ length set.now.traces }
        ensures batches { IfOk result (λ r. batches_of r.0 ≡ length plan.now) }
        ensures right { IfOk result (λ r. right_of r.0
            ≡ right_verdicts (program_of ordered.now.program) set.now) }
        ensures traces { IfOk result (λ r. length (right_of r.0) ≡ length set.now.traces) }
        ensures seat { IfOk result (λ r. IsFollowSeatOf r.0 r.1) }
        ensures shares { IfOk result (λ r. shares_of r.1 ≡ 64) }
        ensures drawn { IfOk result (λ r. (drawn_of r.1 ≡ []) × (told_of r.1 ≡ false)) }
        ensures posts { IfOk result (λ r. (posts_of r.1 ≡ []) × (known_of r.1 ≡ [])) }
    {
        let key = FollowKey {
            batches: plan.batches(),
            ordered: Snapshot::of(ordered),
            set: Snapshot::of(set),
        };
        let words = vec![in alloc; 0u64; set.len() as usize + 1]?;
        let (table, seat) = Table::of_words(alloc, words.as_slice(), &key)?;
        let seat = FollowSeat {
            seat,
            shares: 64,
            told: false,
        };
        let batches = key.batches;
        Ok((FollowBoard { table, batches }, seat))
    }

    /// Draws the next batch, or returns `None` where none is left. The seat is then told so: from
    /// then on a claim returns `None` without a step on the word.
    pub fn claim(&self, seat: &mut FollowSeat) -> Option<u32>
        requires seat { IsFollowSeatOf self.now seat.old }
        ensures seat { IsFollowSeatOf self.now seat.new }
        ensures shares { shares_of seat.new ≡ shares_of seat.old }
        ensures drawn { MatchOption result
            ((drawn_of seat.new ≡ drawn_of seat.old) × (told_of seat.new ≡ true))
            (λ k. (drawn_of seat.new ≡ drawn_of seat.old ++ k ∷ [])
            × (told_of seat.new ≡ false)) }
        ensures told { told_of seat.old ≡ true → result ≡ None }
        ensures below { MatchOption result (Unit {0}) (λ k. (k < batches_of self.now)
            × (length (drawn_of seat.new) ≤ batches_of self.now)) }
        ensures posts { (posts_of seat.new ≡ posts_of seat.old)
            × (known_of seat.new ≡ known_of seat.old) }
    {
        if seat.told {
            return None;
        }
        let found = self
            .table
            .shared
            .fetch_add::<ClaimBatch>(&mut seat.seat, 0, 1);
        if found < self.batches as u64 {
            Some(found as u32)
        } else {
            seat.told = true;
            None
        }
    }

    /// Settles trace k with its verdict, or with `None` as failed, if nobody has settled it, and
    /// returns what it is settled with.
    pub fn post(&self, seat: &mut FollowSeat, k: u32, verdict: Option<Verdict>) -> Option<Verdict>
        requires seat { IsFollowSeatOf self.now seat.old }
        requires trace { k < length (right_of self.now) }
        requires right { IsRight (right_of self.now) k verdict }
        ensures seat { IsFollowSeatOf self.now seat.new }
        ensures draws { HasSameDraws seat.old seat.new }
        ensures posts { posts_of seat.new ≡ and_one (posts_of seat.old) k verdict }
        ensures known { known_of seat.new ≡ and_one (known_of seat.old) k result }
        ensures kept { (x : Option Verdict) → Knows (known_of seat.old) k x → result ≡ x }
        ensures right { IsRight (right_of self.now) k result }
    {
        let said = word_of(verdict);
        let word = k as usize + 1;
        let shared = &self.table.shared;
        let found = shared.compare_exchange::<PostTrace>(&mut seat.seat, word, 0, said);
        if found == 0 { verdict } else { told_by(found) }
    }

    /// Looks at trace k: whether it is settled, and with what.
    pub fn look(&self, seat: &mut FollowSeat, k: u32) -> Look
        requires seat { IsFollowSeatOf self.now seat.old }
        requires trace { k < length (right_of self.now) }
        ensures seat { IsFollowSeatOf self.now seat.new }
        ensures draws { HasSameDraws seat.old seat.new }
        ensures posts { posts_of seat.new ≡ posts_of seat.old }
        ensures known { Tells k (known_of seat.old) result (known_of seat.new) }
        ensures kept { (x : Option Verdict) → Knows (known_of seat.old) k x → result ≡ shown x }
        ensures right { (x : Option Verdict) → result ≡ shown x → IsRight (right_of self.now) k x }
    {
        let word = k as usize + 1;
        let found = self.table.shared.load::<LookAtTrace>(&mut seat.seat, word);
        if found == 0 {
            return Look::Waiting;
        }
        match told_by(found) {
            Some(verdict) => Look::Ready(verdict),
            None => Look::Failed,
        }
    }

    /// Cuts the shares of a seat in two. The first seat has the larger half, all that was drawn and
    /// all that was posted; both know what the seat knew. Both count as told that no batch is left
    /// where the seat was told so.
    pub fn split(&self, seat: FollowSeat) -> (FollowSeat, FollowSeat)
        requires seat { IsFollowSeatOf self.now seat }
        requires shares { 2 ≤ shares_of seat }
        ensures seats { IsFollowSeatOf self.now result.0 × IsFollowSeatOf self.now result.1 }
        ensures shares { (shares_of result.0 ≡ shares_of seat - shares_of seat / 2)
            × (shares_of result.1 ≡ shares_of seat / 2) }
        ensures told { (told_of result.0 ≡ told_of seat) × (told_of result.1 ≡ told_of seat) }
        ensures drawn { (drawn_of result.0 ≡ drawn_of seat) × (drawn_of result.1 ≡ []) }
        ensures posts { (posts_of result.0 ≡ posts_of seat) × (posts_of result.1 ≡ []) }
        ensures known { (known_of result.0 ≡ known_of seat)
            × (known_of result.1 ≡ known_of seat) }
    {
        let FollowSeat {
            mut seat,
            shares,
            told,
        } = seat;
        let other = self.table.shared.split_seat::<HalveSeat>(&mut seat);
        let half = shares / 2;
        (
            FollowSeat {
                seat,
                shares: shares - half,
                told,
            },
            FollowSeat {
                seat: other,
                shares: half,
                told,
            },
        )
    }

    /// Puts together the shares of two seats, what was drawn and posted with them, and what they
    /// know; the seat counts as told that no batch is left where one of the two was.
    pub fn join(&self, first: FollowSeat, second: FollowSeat) -> FollowSeat
        requires first { IsFollowSeatOf self.now first }
        requires second { IsFollowSeatOf self.now second }
        ensures seat { IsFollowSeatOf self.now result }
        ensures shares { shares_of result ≡ min 64 (shares_of first + shares_of second) }
        ensures told { told_of result ≡ (told_of first || told_of second) }
        ensures drawn { drawn_of result ≡ drawn_of first ++ drawn_of second }
        ensures posts { posts_of result ≡ posts_of first ++ posts_of second }
        ensures known { known_of result ≡ known_of first ++ known_of second }
    {
        let FollowSeat {
            mut seat,
            shares,
            told,
        } = first;
        let FollowSeat {
            seat: other,
            shares: more,
            told: also,
        } = second;
        self.table.shared.join_seat::<GatherSeats>(&mut seat, other);
        FollowSeat {
            seat,
            shares: (shares + more).min(64),
            told: told || also,
        }
    }
}

impl FollowSeat {
    ghost use Rattle.lb_board.specs.FollowSeats.{shares_of};

    /// The number of the board's 64 shares that the seat has.
    pub fn shares(&self) -> u32
        ensures { result ≡ shares_of self.now }
    {
        self.shares
    }
}
