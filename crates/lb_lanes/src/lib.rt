//! Lane kernels: 64 Booleans in one word, 64 integers side by side, and what is computed on them.
//!
//! A kernel treats its 64 lanes alike, whatever they hold. Where an operator has no result in the
//! range of `int`, the lane gets 0 and a bit in a plane of faults, and no other lane notices.
//! No call takes memory or refuses.
#![tactic(auto)]

mod chunks;
mod division;
mod int_operator;
mod lane_words;
mod lanes;
mod planes;
mod reciprocals;
mod slices;
mod transposes;
mod width;
mod word_chunks;
mod word_divisions;
mod word_kernels;
mod word_products;
mod word_quotients;
mod word_tests;

pub use int_operator::IntOperator;
pub use lane_words::LaneWord;
pub use lanes::IntLanes;
pub use planes::Plane;
pub use slices::{and_slices, any_outside, commit_ints, commit_planes, or_slices, xor_slices};
pub use transposes::transpose;
pub use width::Width;
