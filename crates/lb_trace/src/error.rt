//! Why a trace text is refused.

ghost use Rattle.std.specs.Prelude.{◌≡◌};
ghost use Rattle.lb_trace.specs.Errors.{error_number};

use std::alloc::AllocError;
use std::fmt;
use thiserror::Error;

/// Why a trace text is refused. Records are counted from 0, the header, and
/// columns from 0, the one after `trace`.
#[derive(Drop, Error)]
pub enum TraceError {
    /// E0: a growth was refused.
    #[error(transparent)]
    Memory(#[from(alloc)] AllocError),
    /// E14: there is no first record, or it is not `trace` and then the name of each scalar input
    /// once.
    #[error("the first record is not `trace` and the name of each scalar input")]
    Header,
    /// E15: a record of another length than the header.
    #[error("record {record} has {cells} cells, and the header {columns}")]
    Record {
        record: u64,
        cells: usize,
        columns: usize,
    },
    /// E16: a cell that is no value of its column.
    #[error("the cell of record {record} in column {column} is no value of it")]
    Cell {
        record: u64,
        column: usize,
    },
    /// E17: a name that is ill-formed or comes back after another.
    #[error("the trace name of record {record} is ill-formed or comes back")]
    Trace {
        record: u64,
    },
    /// E18: a text, a number of traces, of instants or of cells over its limit; None for the text.
    #[error("the trace text is over a limit")]
    Limit {
        record: Option<u64>,
    },
}

impl fmt::Debug for TraceError {
    fn fmt<W: fmt::Write>(&self, f: &mut fmt::Formatter<W>) -> fmt::Result {
        fmt::Display::fmt(self, f)
    }
}

impl TraceError {
    /// The number of the refusal: 0, or 14 to 18.
    pub fn number(&self) -> u8
        ensures { result ≡ error_number self.now }
    {
        match self {
            TraceError::Memory(_) => 0,
            TraceError::Header => 14,
            TraceError::Record { .. } => 15,
            TraceError::Cell { .. } => 16,
            TraceError::Trace { .. } => 17,
            TraceError::Limit { .. } => 18,
        }
    }
}
