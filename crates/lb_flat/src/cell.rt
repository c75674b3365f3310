//! Cells and the tables of the data operators.
//!
//! Arithmetic is exact: a result out of the range of `int`, or a quotient that does not exist, is
//! the value of a fault. An operator with a faulty operand gives that value too; otherwise, with a
//! nil operand, it gives nil. `if` takes the chosen branch alone. Where an operand is absent, so is
//! the result.

ghost use Rattle.std.specs.Prelude.{◌≡◌, Some, IfSome, IfNone};
ghost use Rattle.lb_check.specs.Scalars.{Boolean, Bad, two_integers, two_booleans, two_scalars};
ghost use Rattle.lb_check.specs.Scalars.{one_scalar, or_fault};
ghost use Rattle.lb_check.specs.Streams.{held, one_cell, two_cells, sample, shows, newest};
ghost use Rattle.lb_flat.specs.Run.{chosen_cell};
ghost use Rattle.lb_flat.specs.Values.{scalar_of, cell_of};

use crate::scalar::Scalar;
use lb_static::{arithmetic, negated};
use lb_syntax::{BinaryOperator, UnaryOperator};

/// The content of an element at an instant: nothing, or a scalar.
#[derive(Clone, Copy, PartialEq, Eq)]
pub enum Cell {
    /// Nothing: the element is absent.
    Absent,
    /// The undefined value, which a memory holds before its first tick.
    Nil,
    /// The value of a fault.
    Bad,
    /// An `int`.
    Integer(i32),
    /// A `bool`.
    Boolean(bool),
}

/// The cell of an element that is present.
pub(crate) fn present(v: Scalar) -> Cell
    ensures { cell_of result ≡ Some (scalar_of v) }
{
    match v {
        Scalar::Integer(z) => Cell::Integer(z),
        Scalar::Boolean(b) => Cell::Boolean(b),
        Scalar::Nil => Cell::Nil,
        Scalar::Bad => Cell::Bad,
    }
}

// ## Operators

// The result, or the value of a fault where there is none.
fn or_fault(result_of: Option<i32>) -> Cell
    ensures { cell_of result ≡ Some (or_fault result_of) }
{
    match result_of {
        Some(z) => Cell::Integer(z),
        None => Cell::Bad,
    }
}

fn two_integers(op: BinaryOperator, a: i32, b: i32) -> Cell
    ensures { cell_of result ≡ Some (two_integers op a b) }
{
    match op {
        BinaryOperator::Equal => Cell::Boolean(a == b),
        BinaryOperator::Unequal => Cell::Boolean(a != b),
        BinaryOperator::Less => Cell::Boolean(a < b),
        BinaryOperator::AtMost => Cell::Boolean(a <= b),
        BinaryOperator::Greater => Cell::Boolean(a > b),
        BinaryOperator::AtLeast => Cell::Boolean(a >= b),
        // An operator that is known here is looked at once.
        BinaryOperator::Plus => or_fault(arithmetic(BinaryOperator::Plus, a, b)),
        BinaryOperator::Minus => or_fault(arithmetic(BinaryOperator::Minus, a, b)),
        BinaryOperator::Times => or_fault(arithmetic(BinaryOperator::Times, a, b)),
        _ => or_fault(arithmetic(op, a, b)),
    }
}

/// The result of an operator on two Booleans; none where it is not one on Booleans.
pub(crate) fn two_booleans(op: BinaryOperator, a: bool, b: bool) -> Option<bool>
    ensures truth { IfSome result (λ c. two_booleans op a b ≡ Boolean c) }
    ensures none { IfNone result (two_booleans op a b ≡ Bad) }
{
    match op {
        BinaryOperator::Or => Some(a | b),
        BinaryOperator::Xor | BinaryOperator::Unequal => Some(a != b),
        BinaryOperator::And => Some(a & b),
        BinaryOperator::Implies => Some(!a | b),
        BinaryOperator::Equal => Some(a == b),
        _ => None,
    }
}

/// An operator with two operands.
pub(crate) fn two_cells(op: BinaryOperator, x: Cell, y: Cell) -> Cell
    ensures { cell_of result ≡ two_cells (two_scalars op) (cell_of x) (cell_of y) }
{
    if let (Cell::Integer(a), Cell::Integer(b)) = (x, y) {
        return two_integers(op, a, b);
    }
    if let (Cell::Boolean(a), Cell::Boolean(b)) = (x, y) {
        return match two_booleans(op, a, b) {
            Some(c) => Cell::Boolean(c),
            None => Cell::Bad,
        };
    }
    match (x, y) {
        (Cell::Absent, _) | (_, Cell::Absent) => Cell::Absent,
        (Cell::Bad, _) | (_, Cell::Bad) => Cell::Bad,
        (Cell::Nil, _) | (_, Cell::Nil) => Cell::Nil,
        _ => Cell::Bad,
    }
}

/// An operator with one operand.
pub(crate) fn one_cell(op: UnaryOperator, x: Cell) -> Cell
    ensures { cell_of result ≡ one_cell (one_scalar op) (cell_of x) }
{
    match (op, x) {
        (_, Cell::Absent) => Cell::Absent,
        (_, Cell::Nil) => Cell::Nil,
        (UnaryOperator::Negate, Cell::Integer(a)) => or_fault(negated(a)),
        (UnaryOperator::Not, Cell::Boolean(a)) => Cell::Boolean(!a),
        _ => Cell::Bad,
    }
}

/// The chosen branch of an `if`, where the other one may be faulty or nil; nil where the condition
/// is.
pub(crate) fn chosen_cell(condition: Cell, x: Cell, y: Cell) -> Cell
    ensures { cell_of result ≡ chosen_cell (cell_of condition) (cell_of x) (cell_of y) }
{
    match (condition, x, y) {
        (Cell::Absent, _, _) | (_, Cell::Absent, _) | (_, _, Cell::Absent) => Cell::Absent,
        (Cell::Boolean(true), _, _) => x,
        (Cell::Boolean(false), _, _) => y,
        (Cell::Nil, _, _) => Cell::Nil,
        _ => Cell::Bad,
    }
}

// ## Clocks and memories

/// A value at the instants of a clock.
pub(crate) fn held(v: Scalar, is_now: bool) -> Cell
    ensures { cell_of result ≡ held (scalar_of v) is_now }
{
    if is_now { present(v) } else { Cell::Absent }
}

/// A cell at the instants of a clock.
pub(crate) fn sample(is_now: bool, x: Cell) -> Cell
    ensures { cell_of result ≡ sample is_now (cell_of x) }
{
    if is_now { x } else { Cell::Absent }
}

/// The newest value, once a cell was seen.
pub(crate) fn newest(before: Scalar, x: Cell) -> Scalar
    ensures { scalar_of result ≡ newest (scalar_of before) (cell_of x) }
{
    match x {
        Cell::Absent => before,
        Cell::Nil => Scalar::Nil,
        Cell::Bad => Scalar::Bad,
        Cell::Integer(z) => Scalar::Integer(z),
        Cell::Boolean(b) => Scalar::Boolean(b),
    }
}

/// Whether a clock variable has this sign.
pub(crate) fn shows(sign: bool, x: Cell) -> bool
    ensures { result ≡ shows sign (cell_of x) }
{
    match x {
        Cell::Boolean(b) => b == sign,
        _ => false,
    }
}
