//! Boards that threads share: numbers are drawn from a board, each once, and traces are settled on
//! a board, each once. Nothing here locks or waits.
#![tactic(auto)]

mod board;
mod follow_board;
mod follow_views;
mod views;

pub use board::{ClaimBoard, ClaimSeat};
pub use follow_board::{FollowBoard, FollowSeat, Look};
