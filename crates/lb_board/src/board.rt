//! The claim board: one word from which threads draw the numbers below a limit, each number once.
//!
//! ```text
//! board of 3 numbers      word  0    1    2    3    4    5
//! first seat                    0         2         none
//! second seat                        1         none
//! ```
//!
//! Each claim adds 1 to the word in one atomic step. A seat that finds a number below the limit has
//! drawn it; any other seat is told that none is left, and takes no further step. A seat is the
//! right to claim. Seats are split for more threads and joined after them; nothing here locks or
//! waits.

ghost use Rattle.std.specs.Prelude.{◌≡◌, ◌<◌, ◌≤◌, ◌+◌, ◌-◌, ◌/◌, ◌||◌, ◌++◌, ◌∷◌, [], true, false};
ghost use Rattle.std.specs.Prelude.{None, MatchOption, IfOk, length, min};
ghost use Rattle.lb_board.specs.Draws.{AreAllBelow};

use crate::views::{Claim, Draws, Gather, Halve, View};
use atomic_table::{Seat, Table};
use std::alloc::{AllocError, Global};

/// A word from which the numbers below a limit are drawn.
#[derive(Drop)]
pub struct ClaimBoard {
    table: Table<u64, View, u32, Draws, Global>,
    n: u32,
    ghost word: { (table.shared.table_id.words ≡ 1) × (table.shared.table_id.slots ≡ 0) },
    ghost limit: { table.shared.key ≡ n },
}

/// The right to claim from a board: some of its 64 shares, and for contracts all that was drawn.
#[derive(Drop)]
pub struct ClaimSeat {
    seat: Seat<u64, View>,
    shares: u32,
    told: bool,
    ghost view: { (seat.me.0.shares ≡ shares) × (seat.me.0.told ≡ told) },
    ghost part: { (0 < shares) × (shares ≤ 64) },
    ghost empty: { seat.me.1 ≡ [] },
}

impl ClaimBoard {
    ghost use Rattle.lb_board.specs.Seats.{limit_of, IsSeatOf, shares_of, told_of, drawn_of};

    /// A board of the numbers below `n`, and its first seat, which has all shares.
    pub fn new(alloc: Global, n: u32) -> Result<(ClaimBoard, ClaimSeat), AllocError>
        ensures limit { IfOk result (λ r. limit_of r.0 ≡ n) }
        ensures seat { IfOk result (λ r. IsSeatOf r.0 r.1) }
        ensures shares { IfOk result (λ r. shares_of r.1 ≡ 64) }
        ensures drawn { IfOk result (λ r. (drawn_of r.1 ≡ []) × (told_of r.1 ≡ false)) }
    {
        let (table, seat) = Table::of_words(alloc, &[0], &n)?;
        let seat = ClaimSeat {
            seat,
            shares: 64,
            told: false,
        };
        Ok((ClaimBoard { table, n }, seat))
    }

    /// Draws the next number, or returns `None` where none is left. The seat is then told so: from
    /// then on a claim returns `None` without a step on the word.
    pub fn claim(&self, seat: &mut ClaimSeat) -> Option<u32>
        requires seat { IsSeatOf self.now seat.old }
        ensures seat { IsSeatOf self.now seat.new }
        ensures shares { shares_of seat.new ≡ shares_of seat.old }
        ensures drawn { MatchOption result
            ((drawn_of seat.new ≡ drawn_of seat.old) × (told_of seat.new ≡ true))
            (λ k. (drawn_of seat.new ≡ drawn_of seat.old ++ k ∷ [])
            × (told_of seat.new ≡ false)) }
        ensures told { told_of seat.old ≡ true → result ≡ None }
        ensures below { MatchOption result (Unit {0}) (λ k. (k < limit_of self.now)
            × (length (drawn_of seat.new) ≤ limit_of self.now)) }
    {
        if seat.told {
            return None;
        }
        let found = self.table.shared.fetch_add::<Claim>(&mut seat.seat, 0, 1);
        if found < self.n as u64 {
            Some(found as u32)
        } else {
            seat.told = true;
            None
        }
    }

    /// Cuts the shares of a seat in two. The first seat has the larger half and all that was drawn.
    /// Both count as told that no number is left where the seat was told so.
    pub fn split(&self, seat: ClaimSeat) -> (ClaimSeat, ClaimSeat)
        requires seat { IsSeatOf self.now seat }
        requires shares { 2 ≤ shares_of seat }
        ensures seats { IsSeatOf self.now result.0 × IsSeatOf self.now result.1 }
        ensures shares { (shares_of result.0 ≡ shares_of seat - shares_of seat / 2)
            × (shares_of result.1 ≡ shares_of seat / 2) }
        ensures told { (told_of result.0 ≡ told_of seat) × (told_of result.1 ≡ told_of seat) }
        ensures drawn { (drawn_of result.0 ≡ drawn_of seat) × (drawn_of result.1 ≡ []) }
    {
        let ClaimSeat {
            mut seat,
            shares,
            told,
        } = seat;
        let other = self.table.shared.split_seat::<Halve>(&mut seat);
        let half = shares / 2;
        (
            ClaimSeat {
                seat,
                shares: shares - half,
                told,
            },
            ClaimSeat {
                seat: other,
                shares: half,
                told,
            },
        )
    }

    /// Puts the shares and draws of two seats together; the seat counts as told that no number is
    /// left where one of the two was.
    pub fn join(&self, first: ClaimSeat, second: ClaimSeat) -> ClaimSeat
        requires first { IsSeatOf self.now first }
        requires second { IsSeatOf self.now second }
        ensures seat { IsSeatOf self.now result }
        ensures shares { shares_of result ≡ min 64 (shares_of first + shares_of second) }
        ensures told { told_of result ≡ (told_of first || told_of second) }
        ensures drawn { drawn_of result ≡ drawn_of first ++ drawn_of second }
    {
        let ClaimSeat {
            mut seat,
            shares,
            told,
        } = first;
        let ClaimSeat {
            seat: other,
            shares: more,
            told: also,
        } = second;
        self.table.shared.join_seat::<Gather>(&mut seat, other);
        ClaimSeat {
            seat,
            shares: (shares + more).min(64),
            told: told || also,
        }
    }

    /// Ends a board. True where the seat with all shares was told that no number is left: then it
    /// has drawn each number below the limit, once.
    pub fn close(self, seat: ClaimSeat) -> bool
        requires seat { IsSeatOf self seat }
        requires shares { shares_of seat ≡ 64 }
        ensures told { result ≡ told_of seat }
        ensures drawn { result ≡ true → AreAllBelow (limit_of self) (drawn_of seat) }
    {
        let ClaimBoard { table, n: _ } = self;
        let ClaimSeat {
            seat,
            shares: _,
            told,
        } = seat;
        let closed = table.close_with(seat);
        closed.free();
        told
    }
}

impl ClaimSeat {
    ghost use Rattle.lb_board.specs.Seats.{shares_of};

    /// The number of the board's 64 shares that the seat has.
    pub fn shares(&self) -> u32
        ensures { result ≡ shares_of self.now }
    {
        self.shares
    }
}
