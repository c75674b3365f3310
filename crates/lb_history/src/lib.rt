//! The values of one recorded trace, instant by instant: the cells of the one history that solves
//! the program on it.
#![tactic(auto)]

mod instant;
mod laws;
mod replay;

pub use laws::rows_are_those_of_histories;
pub use lb_flat::Cell;
pub use replay::Replay;
