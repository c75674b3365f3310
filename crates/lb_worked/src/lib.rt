//! Worked examples of the definitions: each clause of a function is a theorem on one of them, and
//! nothing here runs.
#![tactic(auto)]

pub mod arrays;
pub mod causality;
pub mod clocks;
pub mod levels;
pub mod limits;
pub mod numbers;
pub mod programs;
pub mod refusals;
pub mod scalars;
pub mod static_values;
pub mod texts;
