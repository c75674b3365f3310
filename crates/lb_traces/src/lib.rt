//! Recorded traces as flat rows, on which a program runs.
#![tactic(auto)]

mod names;
mod narrow_numbers;
mod neighbours;
mod numbers;
mod row_columns;
mod traces;

pub use numbers::NumberRow;
pub use traces::{TraceRows, TraceSet, is_trace_name};
