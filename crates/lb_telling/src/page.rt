//! Adding to a page of text.

use lb_history::Cell;
use lb_show::{Page, Spot};

/// Adds a place, as `14:9`.
pub(crate) fn push_spot(page: &mut Page, spot: Spot) {
    page.push_number(spot.line as u64);
    page.push(":");
    page.push_number(spot.column as u64);
}

/// Adds the cell of an element.
pub(crate) fn push_cell(page: &mut Page, cell: Cell) {
    match cell {
        Cell::Absent => page.push("absent"),
        Cell::Nil => page.push("nil"),
        Cell::Bad => page.push("a fault"),
        Cell::Boolean(true) => page.push("true"),
        Cell::Boolean(false) => page.push("false"),
        Cell::Integer(z) => page.push_integer(z),
    }
}
