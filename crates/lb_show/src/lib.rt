//! The values of one recorded trace as a text: a table, CSV, a waveform or a picture.
#![tactic(auto)]

mod columns;
mod error;
mod lines;
mod marks;
mod options;
mod page;
mod show;
mod signals;
mod svg;
mod table;
mod vcd;
mod verdict_line;
mod widths;

pub use error::ShowError;
pub use lines::{Lines, Spot};
pub use options::{Format, Selection, ShowOptions};
pub use page::Page;
pub use show::Show;
pub use signals::{Scope, Signal, Signals, signals_of};
pub use verdict_line::push_verdict;
