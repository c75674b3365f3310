//! The options of a run, and why a run gives no report: the refusals, with their numbers, words and
//! places.
#![tactic(auto)]

mod error;
mod options;
mod refusal;

pub use error::BenchError;
pub use options::Options;
pub use refusal::word;
