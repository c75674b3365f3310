//! The report: from a source and its traces to the text that lists each trace's verdict.
#![tactic(auto)]

mod answer;
mod feeding;
mod judging;
mod laws;
mod live;
mod pieces;
mod program;
mod quoted;
mod rounds;
mod sections;
mod turns;

pub use answer::{bench, run_case};
pub use feeding::{FeedFault, Sizes, bench_feed, bench_ranges};
pub use judging::judge;
pub use laws::first_refusal_is_computed;
pub use lb_feed::{
    Feed, FeedFailed, FilePlaces, LoadError, PlacedFile, Reader, TextPlaces, load, split_case,
};
pub use lb_pool::{
    FollowError, Gate, NoGate, Report, Sent, Sink, SinkFailed, Writer, report_text, send, status,
};
pub use lb_refusal::{BenchError, Options, word};
pub use live::{FollowFault, follow, follow_file};
pub use program::Program;
