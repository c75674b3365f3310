//! The workers of a live report: they draw batches, and post each trace once its verdict is known.

ghost use Rattle.std.specs.Prelude.{◌≡◌, ◌<◌, length, get_or, All, []};
ghost use Rattle.lb_sim.specs.BatchRooms.{IsRoomFor};
ghost use Rattle.lb_board.specs.FollowSeats.{IsFollowSeatOf, HasSameDraws, right_of};
ghost use Rattle.lb_pool.specs.FollowWorkers.{IsBoardFor};
ghost use Rattle.lb_pool.specs.Postings.{IsPostedWith};

use crate::batch::{Work, room_for};
use crate::gate::Gate;
use lb_board::{FollowBoard, FollowSeat};
use lb_check::Verdict;
use lb_sim::{BatchRoom, Verdicts, run_queue_to};
use std::alloc::Global;

// Settles traces as failed.
fn post_failed(board: &FollowBoard, seat: &mut FollowSeat, members: &[u32])
    requires seat { IsFollowSeatOf board.now seat.old }
    requires within { All (λ k. k < length (right_of board.now)) members.now }
    ensures seat { IsFollowSeatOf board.now seat.new }
    ensures draws { HasSameDraws seat.old seat.new }
    ensures posted { All (IsPostedWith seat.new) members.now }
{
    for k in members {
        board.post(seat, *k, None);
    }
}

// Settles the members of a batch, each as soon as its verdict is known.
#[derive(Drop)]
struct Posting<'a> {
    board: &'a FollowBoard,
    seat: &'a mut FollowSeat,
    members: &'a [u32],
}

impl Verdicts for Posting<'_> {
    ghost use Rattle.std.proofs.Common.{refl, ◌∙◌};
    ghost use Rattle.lb_pool.specs.Postings.{MayPost, HasPosted, StaysPosting};
    ghost use Rattle.lb_pool.specs.PostingLaws.{stays_itself, stays_further, may_still_post};

    ghost takes = { λ s k v. MayPost s.board.now s.seat.now s.members.now k v };

    ghost has = { λ s k v. HasPosted s.seat.now s.members.now k v };

    ghost becomes = { λ s t. (t.seat.ghost_name ≡ s.seat.ghost_name)
        × StaysPosting s.board.now t.board.now s.members.now t.members.now s.seat.now t.seat.now };

    fn keep(&mut self, place: u32, verdict: Verdict) {
        let trace = self.members[place as usize];
        self.board.post(self.seat, trace, Some(verdict));
    }

    ghost becomes_itself = { λ s. (refl, stays_itself s.board.now s.members.now s.seat.now) };

    ghost becomes_further = { λ s t u a b. (b.0 ∙ a.0, stays_further _ _ _ _ _ _ _ _ _ a.1 b.1) };

    ghost takes_still = { λ s t k v a. may_still_post _ _ _ _ _ _ k v a.1 };
}

// Runs a batch in the room of a worker, and returns the room. Each member is settled as soon as its
// verdict is known, while the others still run.
fn run_and_post(
    work: &Work<'_, '_>,
    board: &FollowBoard,
    seat: &mut FollowSeat,
    room: BatchRoom,
    i: u32,
) -> BatchRoom
    requires board { IsBoardFor work.now.program.now.program.now work.now.set.now
        work.now.plan.now board.now }
    requires batch { i < length work.now.plan.now }
    requires seat { IsFollowSeatOf board.now seat.old }
    requires room { IsRoomFor work.now.program.now room }
    ensures room { IsRoomFor work.now.program.now result }
    ensures seat { IsFollowSeatOf board.now seat.new }
    ensures draws { HasSameDraws seat.old seat.new }
    ensures posted { All (IsPostedWith seat.new) (get_or work.now.plan.now i []) }
{
    let members = work.batch(i);
    let lanes = work.plan.width();
    let mut posting = Posting {
        board,
        seat,
        members,
    };
    run_queue_to(room, work.program, work.set, members, lanes, &mut posting)
}

// Settles the members of a batch: each with its verdict, or as failed where memory is refused for
// the room of the worker. Returns the room.
fn settle_batch(
    alloc: Global,
    work: &Work<'_, '_>,
    board: &FollowBoard,
    seat: &mut FollowSeat,
    kept: Option<BatchRoom>,
    i: u32,
) -> Option<BatchRoom>
    requires board { IsBoardFor work.now.program.now.program.now work.now.set.now
        work.now.plan.now board.now }
    requires batch { i < length work.now.plan.now }
    requires seat { IsFollowSeatOf board.now seat.old }
    ensures seat { IsFollowSeatOf board.now seat.new }
    ensures draws { HasSameDraws seat.old seat.new }
    ensures posted { All (IsPostedWith seat.new) (get_or work.now.plan.now i []) }
{
    match room_for(alloc, work.program, kept) {
        Ok(room) => Some(run_and_post(work, board, seat, room, i)),
        Err(_) => {
            post_failed(board, seat, work.batch(i));
            None
        }
    }
}

// The work of one worker. It passes the gate for a batch before it runs it, and has settled the
// members of all batches that it drew before.
fn drain_board<G: Gate>(
    alloc: Global,
    work: &Work<'_, '_>,
    board: &FollowBoard,
    gate: &G,
    seat: FollowSeat,
)
    requires board { IsBoardFor work.now.program.now.program.now work.now.set.now
        work.now.plan.now board.now }
    requires seat { IsFollowSeatOf board.now seat }
{
    let mut seat = seat;
    let mut room = None;
    while let Some(i) = board.claim(&mut seat) {
        gate.enter(i);
        room = settle_batch(alloc, work, board, &mut seat, room, i);
    }
}

/// The work of each worker with its seat. The functions that start workers are generic over it, so
/// that their types name no lifetime.
pub(crate) trait FollowWorker {
    ghost use Rattle.lb_board.specs.declared.follow_board.FollowSeat.{FollowSeat};

    /// The seats that the worker can take.
    ghost takes: { Self → FollowSeat → Type 0 };

    /// Settles the members of all batches that are left.
    fn drain(&self, seat: FollowSeat)
        requires { takes self.now seat };
}

/// The data that all workers of a live report share.
#[derive(Drop)]
pub(crate) struct PostingWorker<'a, 'p, G> {
    pub(crate) alloc: Global,
    pub(crate) work: Work<'a, 'p>,
    pub(crate) board: &'a FollowBoard,
    pub(crate) gate: &'a G,
    pub(crate) ghost board_is: { IsBoardFor work.program.now.program.now work.set.now
        work.plan.now board.now },
}

impl<G: Gate> FollowWorker for PostingWorker<'_, '_, G> {
    ghost takes = { λ w seat. IsFollowSeatOf w.board.now seat };

    fn drain(&self, seat: FollowSeat) {
        drain_board(self.alloc, &self.work, self.board, self.gate, seat);
    }
}
