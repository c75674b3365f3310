//! A table for a terminal: a row for each element, a column for each instant.
//!
//! ```text
//! long false 3
//!
//! instant    0 1 2 >3
//! main.open  1 1 1  1
//! main.ok    1 1 1 >.
//! main.n     1 2 3  4
//! ```
//!
//! `.` is false and `1` is true; an absent cell is blank, a nil cell is `?`, and the value of a
//! fault is `!`. A `>` stands before the instant that decides, and before its cells that decide.
//! Where the instants do not fit a line, more such tables follow.

use crate::marks::Shown;
use crate::page::Page;
use crate::verdict_line::push_verdict;
use crate::widths::digits;
use lb_csv::deciding;
use lb_history::Cell;
use std::alloc::Global;

/// The longest line, unless a single instant takes more.
const LINE: usize = 100;

/// The instants that are not written yet.
#[derive(Drop)]
pub(crate) struct Block {
    /// The first of these instants.
    first: u32,
    /// The width of the column of each instant.
    widths: Vec<usize>,
    /// The cells, one instant after another.
    cells: Vec<Cell>,
    /// The length of the lines.
    length: usize,
}

/// The width of a cell.
fn cell_width(cell: Cell) -> usize {
    match cell {
        Cell::Integer(z) => {
            let sign = usize::from(z < 0);
            usize::saturating_add(digits(u64::from(z.unsigned_abs())), sign)
        }
        _ => 1,
    }
}

/// Adds a cell; a Boolean as `1` or `.`.
fn push_table_cell(page: &mut Page, cell: Cell) {
    match cell {
        Cell::Boolean(false) => page.push("."),
        _ => page.push_cell(cell),
    }
}

/// The length of the longest name.
fn name_width(shown: &Shown) -> usize {
    let mut width = "instant".len();
    for column in shown.columns {
        width = width.max(column.name.len());
    }
    width
}

/// Adds the line of the verdict.
pub(crate) fn push_title(page: &mut Page, shown: &Shown) {
    push_verdict(page, shown.trace, shown.marks.verdict);
    page.push("\n");
}

/// Adds a name, filled up with spaces.
fn push_name(page: &mut Page, name: &str, width: usize) {
    page.push(name);
    page.push_spaces(usize::saturating_add(width, 1).saturating_sub(name.len()));
}

impl Block {
    /// A block without an instant.
    pub(crate) fn new(alloc: Global) -> Block {
        Block {
            first: 0,
            widths: Vec::new(alloc),
            cells: Vec::new(alloc),
            length: 0,
        }
    }

    /// The width of the column of an instant.
    fn column_width(shown: &Shown, t: u32, cells: &[Cell]) -> usize {
        let decides = usize::from(deciding(shown.marks.verdict) == Some(t));
        let mut width = usize::saturating_add(digits(u64::from(t)), decides);
        for (column, cell) in shown.columns.iter().zip(cells.iter()) {
            let mark = usize::from(shown.marks.decides(column.element, *cell, t));
            width = width.max(usize::saturating_add(cell_width(*cell), mark));
        }
        width
    }

    /// Adds an instant. Instants that do not fit a line with it are written first.
    pub(crate) fn push(&mut self, page: &mut Page, shown: &Shown, t: u32, cells: &[Cell]) {
        let width = usize::saturating_add(Block::column_width(shown, t, cells), 1);
        if !self.widths.is_empty() && usize::saturating_add(self.length, width) > LINE {
            self.write(page, shown);
        }
        if self.widths.is_empty() {
            self.first = t;
            self.length = usize::saturating_add(name_width(shown), 1);
        }
        page.cut_if(self.widths.push(width).is_err());
        self.length = usize::saturating_add(self.length, width);
        page.cut_if(self.cells.extend_from_slice(cells).is_err());
    }

    /// Adds the line of the numbers of the instants.
    fn push_instants(&self, page: &mut Page, shown: &Shown, width: usize) {
        push_name(page, "instant", width);
        for (place, column) in self.widths.iter().enumerate() {
            let t = u64::from(self.first).saturating_add(place as u64);
            let decides = deciding(shown.marks.verdict).map(u64::from) == Some(t);
            let taken = usize::saturating_add(digits(t), usize::from(decides));
            page.push_spaces(column.saturating_sub(taken));
            if decides {
                page.push(">");
            }
            page.push_number(t);
        }
        page.push("\n");
    }

    /// Adds the line of the element at a place among those that are shown.
    fn push_row(&self, page: &mut Page, shown: &Shown, row: usize, width: usize) {
        let Some(column) = shown.columns.get(row) else {
            return;
        };
        page.push(column.name.as_str());
        let mut place = row;
        let mut t = self.first;
        let mut blanks = usize::saturating_add(width, 1).saturating_sub(column.name.len());
        for room in &self.widths {
            let cell = self.cells.get(place).copied().unwrap_or(Cell::Absent);
            let is_marked = shown.marks.decides(column.element, cell, t);
            blanks = usize::saturating_add(blanks, *room);
            if cell != Cell::Absent {
                let taken = usize::saturating_add(cell_width(cell), usize::from(is_marked));
                page.push_spaces(blanks.saturating_sub(taken));
                page.push(if is_marked { ">" } else { "" });
                push_table_cell(page, cell);
                blanks = 0;
            }
            place = usize::saturating_add(place, shown.columns.len());
            t = u32::saturating_add(t, 1);
        }
        page.push("\n");
    }

    /// Writes the instants that were added so far, if there are any.
    pub(crate) fn write(&mut self, page: &mut Page, shown: &Shown) {
        if self.widths.is_empty() {
            return;
        }
        page.push("\n");
        let width = name_width(shown);
        self.push_instants(page, shown, width);
        for row in 0..shown.columns.len() {
            self.push_row(page, shown, row, width);
        }
        self.widths.clear();
        self.cells.clear();
    }
}
