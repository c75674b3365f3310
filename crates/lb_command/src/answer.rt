//! The answer of a run: what goes to the output.

ghost use Rattle.std.specs.Prelude.{◌≡◌};
ghost use Rattle.lb_command.specs.Outcomes as spec;

use crate::version::VERSION;
use lb_report::Report;

/// The answer of a run: what goes to the output.
#[derive(Drop)]
pub enum Answer {
    /// The report on traces.
    OfTraces(Report),
    /// The output for an accepted source: nothing, or the header of its traces.
    OfSource(Vec<u8>),
    /// The help text.
    Help(String),
    /// The program's name and its version.
    Version,
}

impl Answer {
    /// The bytes for the output.
    pub fn text(&self) -> &[u8]
        ensures { result.now ≡ spec.text_of self.now }
    {
        match self {
            Answer::OfTraces(report) => report.text.as_slice(),
            Answer::OfSource(text) => text.as_slice(),
            Answer::Help(text) => text.as_bytes(),
            Answer::Version => VERSION.as_bytes(),
        }
    }

    /// The exit status of a run whose answer goes out.
    pub fn status(&self) -> u8
        ensures { result ≡ spec.status_of self.now }
    {
        match self {
            Answer::OfTraces(report) => report.status,
            Answer::OfSource(_) | Answer::Help(_) | Answer::Version => 0,
        }
    }
}

/// A value, and the lines that go to standard error beside it.
#[derive(Drop)]
pub struct Warned<T> {
    pub value: T,
    pub warnings: Vec<u8>,
}
