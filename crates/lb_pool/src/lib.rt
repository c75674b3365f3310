//! Workers that draw the batches of a plan: each batch once, each verdict at the place of its
//! trace.
#![tactic(auto)]

mod alone;
mod batch;
mod claims;
mod follow;
mod follow_worker;
mod follow_writer;
mod gate;
mod spread;

pub use alone::SetRunner;
pub use claims::{run_claims, run_workers};
pub use follow::run_follow;
pub use gate::{Gate, NoGate};
pub use lb_board::{ClaimBoard, ClaimSeat, FollowBoard, FollowSeat, Look};
pub use lb_output::{
    FollowError, Report, Sent, Sink, SinkFailed, Writer, report_text, send, status,
};
pub use lb_plan::Plan;
pub use lb_sim::{BatchRoom as RoundRoom, LaneProgram, compile};
pub use spread::run_spread;
