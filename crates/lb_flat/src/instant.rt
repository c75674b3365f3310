//! One instant of a flat program: every step computes its cell from the cells before it, and after
//! the instant the memories are updated.

ghost use Rattle.std.specs.Prelude.{◌≡◌, ◌<◌, ℕ, [], Some, length, map, All, IfSome};
ghost use Rattle.lb_check.specs.Scalars.{Boolean};
ghost use Rattle.lb_flat.specs.Flat.{FlatClock};
ghost use Rattle.lb_flat.specs.Run.{cell, is_now, now, filled, remembered, advanced, reads, keeps};
ghost use Rattle.lb_flat.specs.Prepared.{memory_places};
ghost use Rattle.lb_flat.specs.Programs.{flat_equations};
ghost use Rattle.lb_flat.specs.Values.{cell_of, clock_of, operation_of, equation_of};
ghost use Rattle.lb_flat.specs.Within.{IsClock, AreClocks, IsWithin};

use crate::cell::{
    Cell, chosen_cell, held, newest, one_cell, sample, shows, two_booleans, two_cells,
};
use crate::equation::{Clock, ClockId, ElementId, Equation, Operation};
use lb_syntax::UnaryOperator;

// ## Clocks

// The cell of an element.
fn cell(row: &[Cell], a: ElementId) -> Cell
    requires { a.0 < length row.now }
    ensures { cell_of result ≡ cell (map cell_of row.now) a.0 }
{
    row[a.0 as usize]
}

// Whether a clock has an instant now.
fn is_now(clocks: &[Clock], row: &[Cell], clock: Option<ClockId>) -> bool
    requires table { AreClocks (length row.now) clocks.now }
    requires clock { IsClock clocks.now clock }
    ensures { result ≡ is_now (map cell_of row.now) (clock_of clocks.now clock) }
{
    let mut rest = clock;
    for depth in 0..clocks.len() {
        let Some(id) = rest else {
            return true;
        };
        let tick = clocks[id.0 as usize];
        if !shows(tick.sign, cell(row, tick.element)) {
            return false;
        }
        rest = tick.parent;
    }
    true
}

// ## One instant

/// The cell that an equation gives at an instant, from a row in which the cells that it reads are
/// computed. An input gives nothing here: it is read by itself.
pub fn now(clocks: &[Clock], row: &[Cell], q: &Equation) -> Cell
    requires table { AreClocks (length row.now) clocks.now }
    requires within { IsWithin (length row.now) clocks.now q.now }
    ensures { cell_of result
        ≡ now [] (map cell_of row.now) (clock_of clocks.now q.now.clock)
        (operation_of q.now.operation) }
{
    match &q.operation {
        Operation::Input(_) => Cell::Absent,
        Operation::Constant(v) => held(*v, is_now(clocks, row, q.clock)),
        Operation::Copy(a) => cell(row, *a),
        Operation::ApplyUnary(op, a) => one_cell(*op, cell(row, *a)),
        Operation::ApplyBinary(op, a, b) => two_cells(*op, cell(row, *a), cell(row, *b)),
        Operation::Choose(c, a, b) => chosen_cell(cell(row, *c), cell(row, *a), cell(row, *b)),
        Operation::FirstThen(started, a, b) => cell(row, if *started { *b } else { *a }),
        Operation::Previous(v, _) => held(*v, is_now(clocks, row, q.clock)),
        Operation::Latest(v, a) => held(newest(*v, cell(row, *a)), is_now(clocks, row, q.clock)),
        Operation::Sample(a) => sample(is_now(clocks, row, q.clock), cell(row, *a)),
    }
}

// The Boolean that an operator gives on Booleans; none where the operation is anything else.
fn truth(row: &[Cell], operation: &Operation) -> Option<bool>
    requires operands { All (λ i. i < length row.now) (reads (operation_of operation.now)) }
    ensures { IfSome result (λ b. (clock : FlatClock) →
        Some (Boolean b) ≡ now [] (map cell_of row.now) clock (operation_of operation.now)) }
{
    match operation {
        Operation::ApplyUnary(UnaryOperator::Not, a) => match cell(row, *a) {
            Cell::Boolean(b) => Some(!b),
            _ => None,
        },
        Operation::ApplyBinary(op, a, b) => match (cell(row, *a), cell(row, *b)) {
            (Cell::Boolean(a), Cell::Boolean(b)) => two_booleans(*op, a, b),
            _ => None,
        },
        _ => None,
    }
}

/// Computes the row of an instant, whose inputs were read: each step in order gives its element.
pub(crate) fn compute(row: &mut [Cell], clocks: &[Clock], steps: &[Equation])
    requires table { AreClocks (length row.old) clocks.now }
    requires within { All (IsWithin (length row.old) clocks.now) steps.now }
    ensures elements { length row.new ≡ length row.old }
    ensures row { map cell_of row.new
        ≡ filled [] (map cell_of row.old) (flat_equations clocks.now steps.now) }
{
    for i in 0..steps.len() {
        let q = &steps[i];
        let element = q.element.0 as usize;
        // Most steps give a Boolean, which is written without the other forms of a cell.
        if let Some(b) = truth(row, &q.operation) {
            row[element] = Cell::Boolean(b);
        } else {
            row[element] = now(clocks, row, q);
        }
    }
}

// ## Memories

/// Updates the memory of an operation, after an instant with the row `row`.
pub fn remember(row: &[Cell], operation: &mut Operation)
    requires operands { All (λ i. i < length row.now) (reads (operation_of operation.old)) }
    requires memory_operands { All (λ i. i < length row.now) (keeps (operation_of operation.old)) }
    ensures { operation_of operation.new
        ≡ remembered (map cell_of row.now) (operation_of operation.old) }
{
    match operation {
        Operation::FirstThen(started, a, _) => {
            if !*started {
                *started = cell(row, *a) != Cell::Absent;
            }
        }
        Operation::Previous(v, a) => *v = newest(*v, cell(row, *a)),
        Operation::Latest(v, a) => *v = newest(*v, cell(row, *a)),
        _ => {}
    }
}

/// Updates every memory, after an instant with the row `row`. `memories` holds the places of the
/// steps that have a memory.
pub(crate) fn commit(steps: &mut [Equation], memories: &[usize], row: &[Cell], clocks: &[Clock])
    requires within { All (IsWithin (length row.now) clocks.now) steps.old }
    requires places { memories.now ≡ memory_places 0 (flat_equations clocks.now steps.old) }
    ensures within { All (IsWithin (length row.now) clocks.now) steps.new }
    ensures memories { flat_equations clocks.now steps.new
        ≡ map (advanced (map cell_of row.now)) (flat_equations clocks.now steps.old) }
{
    for i in 0..memories.len() {
        remember(row, &mut steps[memories[i]].operation);
    }
}
