//! Flat programs: equations on scalar elements, put in order, and evaluated on one trace.
#![tactic(auto)]

mod cell;
mod equation;
mod error;
mod evaluate;
mod flat;
mod instant;
mod instant_verdict;
mod laws;
mod prepare;
mod prepared;
mod program;
mod recorded;
mod scalar;
mod scheduling;
mod scratch;
mod trace_run;

pub use cell::Cell;
pub use equation::{Clock, ClockId, ElementId, Equation, InputId, Operation};
pub use error::{Cycle, CyclePlace, OrderError};
pub use flat::{Flat, Ordered};
pub use instant::{now, remember};
pub use laws::histories_are_those_of_streams;
pub use program::FlatProgram;
pub use recorded::{input_at, kinds_of};
pub use scalar::Scalar;
pub use scheduling::order;
pub use trace_run::eval_trace;
