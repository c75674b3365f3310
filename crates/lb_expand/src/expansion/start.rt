//! Rows of the table of instances that start.

/// A row that starts, and how many inputs and outputs its node has.
#[derive(Clone, Copy)]
pub(crate) struct Start {
    pub(crate) row: usize,
    pub(crate) inputs: usize,
    pub(crate) outputs: usize,
}
