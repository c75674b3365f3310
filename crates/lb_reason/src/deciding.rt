//! The operand that decides the result of an operation at an instant.

ghost use Rattle.std.specs.Prelude.{◌≡◌, List, [], ◌∷◌, Some, option_map, IfOk};
ghost use Rattle.lb_flat.specs.Programs.{flat_equations, numbers_of};
ghost use Rattle.lb_flat.specs.Run.{cell};
ghost use Rattle.lb_flat.specs.Values.{cell_of, equation_of, operation_of};
ghost use Rattle.lb_flat.specs.declared.equation.Clock.{Clock};
ghost use Rattle.lb_reason.specs.Deciding as spec;
ghost use Rattle.lb_reason.specs.Moments.{equations_now, row_now};
ghost use Rattle.lb_reason.specs.Tests.{number, passes};

use crate::moment::Moment;
use lb_flat::{ElementId, Equation, Operation};
use lb_history::Cell;
use lb_syntax::{BinaryOperator, OperatorClass};
use std::alloc::{AllocError, Global};

/// A test of a cell.
#[derive(Clone, Copy, PartialEq, Eq)]
pub(crate) enum Test {
    /// The value of a fault.
    Bad,
    Nil,
    False,
    True,
    /// Anything: the element is present.
    Present,
}

impl Test {
    /// Whether a cell passes the test.
    pub(crate) fn passes(self, cell: Cell) -> bool
        ensures { result ≡ passes self (cell_of cell) }
    {
        match (self, cell) {
            (_, Cell::Absent) => false,
            (Test::Bad, _) => cell == Cell::Bad,
            (Test::Nil, _) => cell == Cell::Nil,
            (Test::False, _) => cell == Cell::Boolean(false),
            (Test::True, _) => cell == Cell::Boolean(true),
            (Test::Present, _) => true,
        }
    }
}

// ## Operands that pass a test

/// The one operand, if it passes a test.
fn one_with(test: Test, moment: &Moment<'_>, a: ElementId) -> Option<ElementId>
    ensures { option_map number result
        ≡ spec.first_of (passes test) (row_now moment.now) (a.0 ∷ []) }
{
    if test.passes(moment.cell(a)) {
        Some(a)
    } else {
        None
    }
}

/// The first of two operands that passes a test, if one does.
fn first_with(test: Test, moment: &Moment<'_>, a: ElementId, b: ElementId) -> Option<ElementId>
    ensures { option_map number result
        ≡ spec.first_of (passes test) (row_now moment.now) (a.0 ∷ b.0 ∷ []) }
{
    if test.passes(moment.cell(a)) {
        Some(a)
    } else {
        one_with(test, moment, b)
    }
}

/// The first of two operands, if it passes a test, and else the second.
fn first_or_second(test: Test, moment: &Moment<'_>, a: ElementId, b: ElementId) -> Option<ElementId>
    ensures { option_map number result
        ≡ spec.first_or_second (passes test) (row_now moment.now) a.0 b.0 }
{
    if test.passes(moment.cell(a)) {
        Some(a)
    } else {
        Some(b)
    }
}

/// The branch that a condition chooses, if it passes a test.
fn branch_with(
    test: Test,
    moment: &Moment<'_>,
    condition: Cell,
    a: ElementId,
    b: ElementId,
) -> Option<ElementId>
    ensures { option_map number result ≡ spec.first_of (passes test) (row_now moment.now)
        (spec.branch_taken (cell_of condition) a.0 b.0) }
{
    match condition {
        Cell::Boolean(true) => one_with(test, moment, a),
        Cell::Boolean(false) => one_with(test, moment, b),
        Cell::Absent | Cell::Nil | Cell::Bad | Cell::Integer(_) => None,
    }
}

/// The condition, if it passes a test, and else the branch that it chooses, if that one does.
fn choice_with(
    test: Test,
    moment: &Moment<'_>,
    c: ElementId,
    a: ElementId,
    b: ElementId,
) -> Option<ElementId>
    ensures { option_map number result ≡ spec.first_of (passes test) (row_now moment.now)
        (c.0 ∷ spec.branch_taken (cell (row_now moment.now) c.0) a.0 b.0) }
{
    let condition = moment.cell(c);
    if test.passes(condition) {
        Some(c)
    } else {
        branch_with(test, moment, condition, a, b)
    }
}

/// The first operand that an operation takes and that passes a test, if one does.
fn taken_with(test: Test, moment: &Moment<'_>, operation: &Operation) -> Option<ElementId>
    ensures { option_map number result ≡ spec.first_of (passes test) (row_now moment.now)
        (spec.operands_taken (row_now moment.now) (operation_of operation.now)) }
{
    match operation {
        Operation::Input(_) | Operation::Constant(_) | Operation::Previous(_, _) => None,
        Operation::Copy(a) | Operation::Sample(a) => one_with(test, moment, *a),
        Operation::ApplyUnary(_, a) | Operation::Latest(_, a) => one_with(test, moment, *a),
        Operation::ApplyBinary(_, a, b) => first_with(test, moment, *a, *b),
        Operation::Choose(c, a, b) => choice_with(test, moment, *c, *a, *b),
        Operation::FirstThen(started, a, b) => {
            one_with(test, moment, if *started { *b } else { *a })
        }
    }
}

// ## The operand that decides

/// The first operand, if the operator is a logical one.
fn first_where_logical(class: OperatorClass, a: ElementId) -> Option<ElementId>
    ensures { option_map number result ≡ spec.first_where_logical class a.0 }
{
    match class {
        OperatorClass::Logical => Some(a),
        OperatorClass::Equality | OperatorClass::Order | OperatorClass::Arithmetic => None,
    }
}

/// The operand that decides, where an operator of two operands gives this truth.
fn truth_of_two(
    op: BinaryOperator,
    truth: bool,
    moment: &Moment<'_>,
    a: ElementId,
    b: ElementId,
) -> Option<ElementId>
    ensures { option_map number result
        ≡ spec.truth_of_two op truth (row_now moment.now) a.0 b.0 }
{
    match (op, truth) {
        (BinaryOperator::And, false) => first_or_second(Test::False, moment, a, b),
        (BinaryOperator::Or, true) => first_or_second(Test::True, moment, a, b),
        (BinaryOperator::Implies, _) => first_or_second(Test::False, moment, a, b),
        _ => first_where_logical(op.class(), a),
    }
}

/// The operand that decides, where an operator of two operands gives this cell.
fn of_two(
    op: BinaryOperator,
    cell: Cell,
    moment: &Moment<'_>,
    a: ElementId,
    b: ElementId,
) -> Option<ElementId>
    ensures { option_map number result
        ≡ spec.of_two op (cell_of cell) (row_now moment.now) a.0 b.0 }
{
    match cell {
        Cell::Boolean(truth) => truth_of_two(op, truth, moment, a, b),
        Cell::Absent | Cell::Nil | Cell::Bad | Cell::Integer(_) => None,
    }
}

/// The operand that decides, where an operator of one operand gives this cell.
fn of_one(cell: Cell, a: ElementId) -> Option<ElementId>
    ensures { option_map number result ≡ spec.of_one (cell_of cell) a.0 }
{
    match cell {
        Cell::Boolean(_) => Some(a),
        Cell::Absent | Cell::Nil | Cell::Bad | Cell::Integer(_) => None,
    }
}

/// The branch that the condition of an `if` chooses.
fn of_condition(condition: Cell, a: ElementId, b: ElementId) -> Option<ElementId>
    ensures { option_map number result ≡ spec.of_condition (cell_of condition) a.0 b.0 }
{
    match condition {
        Cell::Boolean(true) => Some(a),
        Cell::Boolean(false) => Some(b),
        Cell::Absent | Cell::Nil | Cell::Bad | Cell::Integer(_) => None,
    }
}

/// The operand that decides, where the operation gives this cell, which is neither a fault nor nil;
/// a memory, an input and a constant have none.
fn value_decided(moment: &Moment<'_>, cell: Cell, operation: &Operation) -> Option<ElementId>
    ensures { option_map number result
        ≡ spec.value_decided (row_now moment.now) (cell_of cell) (operation_of operation.now) }
{
    match operation {
        Operation::Input(_) | Operation::Constant(_) | Operation::Previous(_, _) => None,
        Operation::Copy(a) | Operation::Sample(a) => Some(*a),
        Operation::ApplyUnary(_, a) => of_one(cell, *a),
        Operation::ApplyBinary(op, a, b) => of_two(*op, cell, moment, *a, *b),
        Operation::Choose(c, a, b) => of_condition(moment.cell(*c), *a, *b),
        Operation::FirstThen(started, a, b) => Some(if *started { *b } else { *a }),
        Operation::Latest(_, a) => one_with(Test::Present, moment, *a),
    }
}

/// The operand that decides, where the operation gives this cell.
fn deciding(moment: &Moment<'_>, cell: Cell, operation: &Operation) -> Option<ElementId>
    ensures { option_map number result
        ≡ spec.deciding (row_now moment.now) (cell_of cell) (operation_of operation.now) }
{
    match cell {
        Cell::Bad => taken_with(Test::Bad, moment, operation),
        Cell::Nil => taken_with(Test::Nil, moment, operation),
        Cell::Absent | Cell::Integer(_) | Cell::Boolean(_) => {
            value_decided(moment, cell, operation)
        }
    }
}

// ## Steps

/// The first equation that gives an element.
pub fn given_by(equations: &[Equation], element: ElementId) -> Option<&Equation>
    ensures { (clocks : List Clock) → option_map (λ q. equation_of clocks q.now) result
        ≡ spec.given_by (flat_equations clocks equations.now) element.0 }
{
    for q in equations {
        if q.element.0 == element.0 {
            return Some(q);
        }
    }
    None
}

/// The element that decides the cell of an element.
fn next_element(moment: &Moment<'_>, element: ElementId) -> Option<ElementId>
    ensures { option_map number result
        ≡ spec.next_element (equations_now moment.now) (row_now moment.now) element.0 }
{
    match given_by(moment.equations(), element) {
        Some(q) => deciding(moment, moment.cell(element), &q.operation),
        None => None,
    }
}

/// The element `first`, and behind each element the one that decides it; `most` elements at most.
pub(crate) fn chain(
    alloc: Global,
    moment: &Moment<'_>,
    first: ElementId,
    most: usize,
) -> Result<Vec<ElementId>, AllocError>
    ensures { IfOk result (λ elements. numbers_of elements.items
        ≡ spec.chain most (equations_now moment.now) (row_now moment.now) (Some first.0)) }
{
    let mut elements = Vec::new(alloc);
    let mut next = Some(first);
    let mut left = most;
    'steps: while left > 0 {
        let Some(element) = next else {
            return Ok(elements);
        };
        elements.push(element)?;
        next = next_element(moment, element);
        left -= 1;
    }
    Ok(elements)
}
