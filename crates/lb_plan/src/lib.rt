//! Plans: how the traces of a set are cut into batches.
#![tactic(auto)]

mod plan;

pub use plan::Plan;
