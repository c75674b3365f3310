//! The data of what is painted, and the cells that decide the verdict.

use crate::signals::Signals;
use lb_check::Verdict;
use lb_csv::Column;
use lb_flat::{ElementId, FlatProgram};
use lb_history::Cell;

/// The verdict of a trace of a program.
#[derive(Clone, Copy)]
pub(crate) struct Marks<'a> {
    pub(crate) program: &'a FlatProgram,
    pub(crate) verdict: Verdict,
}

impl Marks<'_> {
    /// Whether the cell of an element of a variable at an instant decides the verdict: the value of
    /// a fault; nil in the property or in a variable that serves as a clock; or the false property.
    /// An assertion is no variable.
    pub(crate) fn decides(&self, element: ElementId, cell: Cell, t: u32) -> bool {
        let is_property = element == self.program.property;
        match (self.verdict, cell) {
            (Verdict::Fault(at), Cell::Bad) => at == t,
            (Verdict::Undefined(at), Cell::Nil) => at == t
                && (is_property || self.program.clock_elements.as_slice().contains(&element)),
            (Verdict::False(at), Cell::Boolean(false)) => at == t && is_property,
            _ => false,
        }
    }
}

/// The data of what is painted: the trace, its verdict, the elements and the instants.
#[derive(Clone, Copy)]
pub(crate) struct Shown<'a> {
    pub(crate) trace: &'a str,
    pub(crate) marks: Marks<'a>,
    pub(crate) columns: &'a [Column],
    pub(crate) signals: &'a Signals,
    /// The first instant that is shown, and the instant behind the last.
    pub(crate) first: u32,
    pub(crate) end: u32,
}
