//! The values of one recorded trace: from the texts of a source and of its traces to a sink.
#![tactic(auto)]

mod case;
mod reasons;
mod sending;
mod values;

pub use lb_show::{Format, Selection, ShowOptions};
pub use reasons::explain_report;
pub use values::{ValuesFault, show_values};
