//! Straight-line code over planes of 64 Booleans and words of 64 integers: what it means in one
//! lane, how it is put together, and its run in all lanes at once.
//!
//! ```text
//! let mut code = Code::new(alloc, 4, 2);            planes 0 to 3 and words 0 and 1 are there
//! let both = code.combine(PlaneOperator::And, a, b)?;
//! code.run(planes, words);                          plane `both` is `a and b` in each lane
//! ```
#![tactic(auto)]

mod build;
mod carry;
mod code;
mod instruction;
mod instructions;
mod known;
mod run;
mod within;

pub use carry::{carry_planes, carry_words};
pub use code::Code;
pub use instruction::{
    Comparison, FALSE_PLANE, Instruction, PlaneId, PlaneOperator, TRUE_PLANE, WordId, ZERO,
};
pub use instructions::{Block, Choice, Instructions};
