//! The text that tells why traces do not pass: the elements of a reason, with the places and the
//! expressions of the source that they stand for.
#![tactic(auto)]

mod arguments;
mod expressions;
mod faults;
mod memories;
mod page;
mod report;
mod scene;
mod site;
mod told;

pub use report::{Explained, explain_traces};
