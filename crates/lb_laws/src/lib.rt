//! Laws of the definitions, in a program's own words. Each function is a law, and computes nothing.
#![tactic(auto)]

mod clocks;
mod lanes;
mod spelling;

pub use clocks::the_clock_of_an_occurrence;
pub use lanes::{each_lane_stands_for_its_own_trace, memories_wait_for_the_clocks_of_the_program};
pub use spelling::one_list_of_traces_is_spelled;
