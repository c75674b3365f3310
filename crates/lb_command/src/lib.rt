//! The command line: from the words of a run and its streams to its exit status.
#![tactic(auto)]

mod announcement;
mod answer;
mod causes;
mod conclusion;
mod delivery;
mod explanation;
mod judging;
mod line;
mod live;
mod loading;
mod merging;
mod refusal;
mod run;
mod showing;
mod std_streams;
mod version;

pub use announcement::announce;
pub use lb_explain::Painted;
pub use line::refuse;
pub use refusal::Refusal;
pub use run::run_command;
pub use std_streams::command;
