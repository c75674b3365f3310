//! Masked lanes: up to 64 traces of a program run as one.
#![tactic(auto)]

mod ahead;
mod allot;
mod allotted;
mod batch;
mod batch_run;
mod choice;
mod clock_planes;
mod columns;
mod compiler;
mod emit;
mod emit_all;
mod four_lanes;
mod inputs;
mod instant;
mod integer_loads;
mod lane_bits;
mod laws;
mod literal;
mod loads;
mod marks;
mod memories;
mod numbers;
mod operators;
mod outermost;
mod picks;
mod place;
mod preset;
mod program;
mod queue;
mod read_inputs;
mod room;
mod running;
mod sources;
mod steady;
mod truths;
mod verdicts;
mod watch;
mod watched;

pub use batch::{Done, has_kinds, run_batch, run_queue_in, run_queue_to};
pub use batch_run::BatchRun;
pub use compiler::compile;
pub use inputs::Inputs;
pub use laws::{
    active_memories_are_no_faults, lanes_stand_for_traces, memories_wait_for_their_clock,
};
pub use place::Watched;
pub use program::{LaneCode, LaneProgram};
pub use room::BatchRoom;
pub use verdicts::Verdicts;
