//! Cells of a trace text that may have quotes, byte by byte.

ghost use Rattle.std.specs.Prelude.{◌≡◌};
ghost use Rattle.lb_places.specs.CellStates as spec;

/// The state at a place of a trace text: what the bytes before it are part of.
#[derive(Clone, Copy, PartialEq, Eq)]
pub enum CellState {
    /// No byte of a record yet.
    Record,
    /// No byte of a cell yet.
    Cell,
    /// A part of a cell without quotes.
    Plain,
    /// A part of a quoted cell.
    Quoted,
    /// A quote in a quoted cell.
    Closed,
}

/// The state after a byte outside of quotes.
fn outside(b: u8) -> CellState
    ensures { result ≡ spec.outside b }
{
    match b {
        b',' => CellState::Cell,
        b'\n' | b'\r' => CellState::Record,
        _ => CellState::Plain,
    }
}

impl CellState {
    /// The state after a byte.
    pub fn after(self, b: u8) -> CellState
        ensures { result ≡ spec.after self b }
    {
        match (self, b) {
            (CellState::Record | CellState::Cell, b'"') => CellState::Quoted,
            (CellState::Quoted, b'"') => CellState::Closed,
            (CellState::Closed, b'"') => CellState::Quoted,
            (CellState::Quoted, _) => CellState::Quoted,
            _ => outside(b),
        }
    }

    /// The byte that the next byte of a cell adds to the value of the cell, if any: quotes that
    /// open or close a cell add none.
    pub fn emitted(self, b: u8) -> Option<u8>
        ensures { result ≡ spec.emitted self b }
    {
        match (self, b) {
            (CellState::Cell | CellState::Quoted, b'"') => None,
            _ => Some(b),
        }
    }
}
