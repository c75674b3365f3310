//! Cells of a text that may have quotes, byte by byte.

use crate::bytes::{part, rest};
use crate::page::Page;
use lb_places::CellState;

/// A cell of a record, as it stands in the text.
#[derive(Clone, Copy)]
pub struct CellPlace {
    pub start: usize,
    pub end: usize,
}

impl CellPlace {
    /// Its bytes, with quotes if it has them.
    pub fn raw<'t>(&self, text: &'t [u8]) -> &'t [u8] {
        part(text, self.start, self.end)
    }
}

/// The cell with number `place`, from 0 on, of the record that begins at `start`.
pub fn cell_at(text: &[u8], start: usize, place: usize) -> Option<CellPlace> {
    let mut state = CellState::Cell;
    let mut left = place;
    let mut begin = start;
    for at in start..text.len() {
        state = state.after(text[at]);
        if state == CellState::Record || state == CellState::Cell {
            if left == 0 {
                return Some(CellPlace {
                    start: begin,
                    end: at,
                });
            }
            if state == CellState::Record {
                return None;
            }
            left = left.saturating_sub(1);
            begin = at.saturating_add(1);
        }
    }
    last_cell(text, left, begin)
}

/// The last cell of a text, if it is the one that is looked for: then `left` is 0.
fn last_cell(text: &[u8], left: usize, begin: usize) -> Option<CellPlace> {
    if left > 0 {
        return None;
    }
    Some(CellPlace {
        start: begin,
        end: text.len(),
    })
}

/// The number of cells of the record that begins at `start`.
pub fn width(text: &[u8], start: usize) -> usize {
    let mut state = CellState::Cell;
    let mut cells: usize = 1;
    for b in rest(text, start) {
        state = state.after(*b);
        if state == CellState::Record {
            return cells;
        }
        cells = cells.saturating_add(usize::from(state == CellState::Cell));
    }
    cells
}

/// The end of the record that begins at `start`.
pub fn end_of_record(text: &[u8], start: usize) -> usize {
    let mut state = CellState::Cell;
    for at in start..text.len() {
        state = state.after(text[at]);
        if state == CellState::Record {
            return at;
        }
    }
    text.len()
}

/// The state after a byte of a cell: commas and ends of lines are bytes like others.
fn within(state: CellState, b: u8) -> CellState {
    match state.after(b) {
        CellState::Record | CellState::Cell => CellState::Plain,
        next => next,
    }
}

/// The value of a cell: its bytes without its quotes. Where memory runs out the page is cut.
pub fn decoded(page: &mut Page, raw: &[u8]) -> Vec<u8> {
    let mut bytes = Vec::new(page.alloc());
    let mut state = CellState::Cell;
    for b in raw {
        if let Some(byte) = state.emitted(*b) {
            page.cut_if(bytes.push(byte).is_err());
        }
        state = within(state, *b);
    }
    bytes
}
