//! A value change dump, as waveform viewers read it: a scope for each instance, a wire for each
//! Boolean, 32 bits for each integer, and a time step for each instant.
//!
//! Nil and the value of a fault are `x`, and an absent cell is `z`. An element that has the value
//! of a fault somewhere has a second wire beside its own, with `!` behind the name, which is true
//! where the value is a fault.

use crate::marks::Shown;
use crate::page::Page;
use crate::signals::Scope;
use crate::verdict_line::push_verdict;
use lb_history::Cell;
use lb_syntax::Kind;
use std::alloc::Global;

/// The number of characters for identifiers, from `!` to `~`.
const CHARACTERS: usize = 94;

/// The state of the dump so far.
#[derive(Drop)]
pub(crate) struct Dump {
    /// The cells of the latest instant.
    latest: Vec<Cell>,
    /// The cells of the last instant that is shown. No other instant has the value of a fault.
    last: Vec<Cell>,
}

/// Adds an identifier.
fn push_identifier(page: &mut Page, number: usize) {
    page.push_byte((33 + number % CHARACTERS) as u8);
    let mut rest = number / CHARACTERS;
    'characters: while rest > 0 {
        page.push_byte((33 + rest % CHARACTERS) as u8);
        rest /= CHARACTERS;
    }
}

/// Adds the bits of an integer, without zeros before its first 1.
fn push_bits(page: &mut Page, z: i32) {
    let bits = z.cast_unsigned();
    let mut is_begun = false;
    for place in 0..32u32 {
        let shift = u32::saturating_sub(31, place);
        let is_set = (bits >> shift) & 1 == 1;
        is_begun = is_begun || is_set || place == 31;
        if is_begun {
            page.push_byte(if is_set { b'1' } else { b'0' });
        }
    }
}

/// Adds the value of a wire.
fn push_value(page: &mut Page, kind: Kind, cell: Cell, number: usize) {
    if kind == Kind::Int {
        page.push("b");
    }
    match cell {
        Cell::Absent => page.push("z"),
        Cell::Nil | Cell::Bad => page.push("x"),
        Cell::Boolean(true) => page.push("1"),
        Cell::Boolean(false) => page.push("0"),
        Cell::Integer(z) => push_bits(page, z),
    }
    if kind == Kind::Int {
        page.push(" ");
    }
    push_identifier(page, number);
    page.push("\n");
}

/// Adds the declaration of an element. The range behind the name keeps viewers from taking the
/// index of an array's element for a range.
fn push_wire(page: &mut Page, label: &str, kind: Kind, number: usize) {
    let (form, range) = match kind {
        Kind::Bool => ("$var wire 1 ", ""),
        Kind::Int => ("$var integer 32 ", " [31:0]"),
    };
    page.push(form);
    push_identifier(page, number);
    page.push(" ");
    page.push(label);
    page.push(range);
    page.push(" $end\n");
}

/// Marks a place.
fn mark(marks: &mut [bool], place: usize) {
    if place < marks.len() {
        marks[place] = true;
    }
}

/// Whether a place is marked.
fn is_marked(marks: &[bool], place: usize) -> bool {
    place < marks.len() && marks[place]
}

/// Marks the scopes that contain marked ones. A scope stands before those within it.
fn mark_parents(marks: &mut [bool], scopes: &[Scope]) {
    for back in 0..scopes.len() {
        let place = scopes.len() - 1 - back;
        if is_marked(marks, place) {
            if let Some(parent) = scopes[place].parent {
                mark(marks, parent);
            }
        }
    }
}

/// For each scope, whether it or a scope within it has elements that are shown.
fn needed_scopes(alloc: Global, page: &mut Page, shown: &Shown) -> Vec<bool> {
    let scopes = shown.signals.scopes.as_slice();
    let mut needed = Vec::new(alloc);
    page.cut_if(needed.resize(scopes.len(), false).is_err());
    for column in shown.columns {
        mark(needed.as_mut_slice(), column.scope);
    }
    mark_parents(needed.as_mut_slice(), scopes);
    needed
}

/// Closes the open scopes that are not `parent`, from the innermost on; all where there is none.
fn close_scopes(page: &mut Page, open: &mut Vec<usize>, parent: Option<usize>) {
    'closing: while let Some(above) = open.pop() {
        if parent == Some(above) {
            page.cut_if(open.push(above).is_err());
            break;
        }
        page.push("$upscope $end\n");
    }
}

impl Dump {
    /// An empty dump, where `last` has the cells of the last instant that is shown.
    pub(crate) fn new(alloc: Global, last: Vec<Cell>) -> Dump {
        Dump {
            latest: Vec::new(alloc),
            last,
        }
    }

    /// Whether an element has the value of a fault somewhere.
    fn is_bad(&self, place: usize) -> bool {
        self.last.get(place).copied() == Some(Cell::Bad)
    }

    /// Adds the wires of the elements of a scope.
    fn push_wires(&self, page: &mut Page, shown: &Shown, scope: usize) {
        let count = shown.columns.len();
        for (place, column) in shown.columns.iter().enumerate() {
            if column.scope != scope {
                continue;
            }
            push_wire(page, column.label.as_str(), column.kind, place);
            if self.is_bad(place) {
                page.push("$var wire 1 ");
                push_identifier(page, usize::saturating_add(count, place));
                page.push(" ");
                page.push(column.label.as_str());
                page.push("! $end\n");
            }
        }
    }

    /// Adds the text before the first instant.
    pub(crate) fn push_header(&self, alloc: Global, page: &mut Page, shown: &Shown) {
        page.push("$comment ");
        push_verdict(page, shown.trace, shown.marks.verdict);
        page.push(" $end\n$timescale 1 us $end\n");
        let needed = needed_scopes(alloc, page, shown);
        let mut open: Vec<usize> = Vec::new(alloc);
        for (place, scope) in shown.signals.scopes.iter().enumerate() {
            if !is_marked(needed.as_slice(), place) {
                continue;
            }
            close_scopes(page, &mut open, scope.parent);
            page.push("$scope module ");
            page.push(scope.label.as_str());
            page.push(" $end\n");
            page.cut_if(open.push(place).is_err());
            self.push_wires(page, shown, place);
        }
        close_scopes(page, &mut open, None);
        page.push("$enddefinitions $end\n");
    }

    /// Adds the changes of an instant.
    pub(crate) fn push_instant(&mut self, page: &mut Page, shown: &Shown, t: u32, cells: &[Cell]) {
        page.push("#");
        page.push_number(u64::from(t));
        page.push("\n");
        let is_first = self.latest.is_empty();
        let count = shown.columns.len();
        for (place, (column, cell)) in shown.columns.iter().zip(cells.iter()).enumerate() {
            let latest = self.latest.get(place).copied();
            if is_first || latest != Some(*cell) {
                push_value(page, column.kind, *cell, place);
            }
            let was_bad = latest == Some(Cell::Bad);
            let is_bad = *cell == Cell::Bad;
            if self.is_bad(place) && (is_first || was_bad != is_bad) {
                let number = usize::saturating_add(count, place);
                push_value(page, Kind::Bool, Cell::Boolean(is_bad), number);
            }
        }
        self.latest.clear();
        page.cut_if(self.latest.extend_from_slice(cells).is_err());
    }

    /// Adds the end, one step behind the last instant.
    pub(crate) fn push_end(&self, page: &mut Page, shown: &Shown) {
        page.push("#");
        page.push_number(u64::from(shown.end));
        page.push("\n");
    }
}
