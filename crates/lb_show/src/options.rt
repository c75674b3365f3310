//! The choice of what is shown, and how.

/// The format in which values are written.
#[derive(Clone, Copy, PartialEq, Eq)]
pub enum Format {
    /// For a terminal: a row for each element, a column for each instant.
    Table,
    /// Comma-separated values: a record for each instant, a column for each element.
    Csv,
    /// A value change dump, as waveform viewers read it: a scope for each instance.
    Vcd,
    /// A picture.
    Svg,
}

/// The choice of the variables that are shown.
#[derive(Clone, Copy)]
pub enum Selection<'a> {
    /// The variables of the node under test and of the observer.
    Starts,
    /// The variables of each instance.
    All,
    /// The variables with these names, in their order: `main.x`, or `x` for one of the node under
    /// test, with all its elements; or one element of it, `main.A[0]`.
    Named(&'a [&'a str]),
}

/// The choice of a trace, and of what is shown of it.
#[derive(Clone, Copy)]
pub struct ShowOptions<'a> {
    /// The name of the trace.
    pub trace: &'a str,
    pub format: Format,
    pub selection: Selection<'a>,
    /// The number of the last instants that are shown. `None` shows all instants, but in a picture
    /// the last 200.
    pub last: Option<u32>,
}
