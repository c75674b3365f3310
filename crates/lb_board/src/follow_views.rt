//! The view of a seat of a board of settled traces, and the steps that change it. It exists in
//! proofs alone.

use crate::views::View;
use atomic_table::{Join, Play, Split, TableRule};
use lb_check::Verdict;
use lb_flat::Ordered;
use lb_traces::TraceSet;
use std::collections::LinkedList;
use std::snapshot::Snapshot;

/// The key of a board, which never changes: the number of batches, and the program and the traces,
/// which determine the right verdicts.
#[derive(Drop)]
pub struct FollowKey {
    pub batches: u32,
    pub ordered: Snapshot<Ordered>,
    pub set: Snapshot<TraceSet>,
}

/// The knowledge of a seat. No value of this type is made.
pub struct FollowView {
    /// The knowledge of a seat of a claim board.
    pub draws: View,
    /// The right verdicts of the traces.
    pub right: LinkedList<Verdict>,
    /// The traces that were posted with the seat, each with its verdict, or with `None` as failed.
    pub posts: LinkedList<(u32, Option<Verdict>)>,
    /// The traces that the seat knows to be settled, each with what it is settled with.
    pub known: LinkedList<(u32, Option<Verdict>)>,
}

/// The law of the board of settled traces.
pub struct FollowRule;

impl TableRule<u64, FollowView, FollowKey> for FollowRule {
    ghost use Rattle.lb_board.specs.FollowKeys.{law_of, view_of};

    ghost holds = { law_of };

    ghost first = { view_of };
}

/// The step that claims a batch.
pub struct ClaimBatch;

impl Play<u64, FollowView> for ClaimBatch {
    ghost use Rattle.lb_board.specs.FollowLaw.{ClaimsBatch};

    ghost then = { ClaimsBatch };
}

/// The step that posts a trace.
pub struct PostTrace;

impl Play<u64, FollowView> for PostTrace {
    ghost use Rattle.lb_board.specs.FollowLaw.{Posts};

    ghost then = { Posts };
}

/// The step that looks at a trace.
pub struct LookAtTrace;

impl Play<u64, FollowView> for LookAtTrace {
    ghost use Rattle.lb_board.specs.FollowLaw.{Looks};

    ghost then = { Looks };
}

/// The step that cuts a seat in two.
pub struct HalveSeat;

impl Split<FollowView> for HalveSeat {
    ghost use Rattle.lb_board.specs.FollowViews.{larger_half, smaller_half};

    ghost left = { larger_half };

    ghost right = { smaller_half };
}

/// The step that puts two seats together.
pub struct GatherSeats;

impl Join<FollowView> for GatherSeats {
    ghost use Rattle.lb_board.specs.FollowViews.{both, spent};

    ghost both = { both };

    ghost spent = { spent };
}
