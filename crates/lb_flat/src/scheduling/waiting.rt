//! The element that an equation waits for: the first that it reads and that is not done.

ghost use Rattle.std.specs.Prelude.{◌≡◌, ◌<◌, ℕ, All, IfSome, true, length, option_map};
ghost use Rattle.lb_flat.specs.Ordering.{awaited, first_left, AreSettled, IsOn};
ghost use Rattle.lb_flat.specs.Programs.{numbers_of};
ghost use Rattle.lb_flat.specs.Run.{reads, clock_reads};
ghost use Rattle.lb_flat.specs.Values.{clock_of, operation_of};
ghost use Rattle.lb_flat.specs.Within.{AreClocks, IsClock, IsWithin};

use crate::equation::{Clock, ClockId, ElementId, Equation, Operation};

// The first of some elements that is not done.
fn first_left(done: &[bool], elements: &[ElementId]) -> Option<ElementId>
    requires { All (λ i. i < length done.now) (numbers_of elements.now) }
    ensures { option_map (λ a. a.0) result ≡ first_left done.now (numbers_of elements.now) }
{
    for a in elements {
        if !done[a.0 as usize] {
            return Some(*a);
        }
    }
    None
}

// The first element that an operation reads at the same instant and that is not done.
fn awaited_operand(done: &[bool], operation: Operation) -> Option<ElementId>
    requires { All (λ i. i < length done.now) (reads (operation_of operation)) }
    ensures { option_map (λ a. a.0) result ≡ first_left done.now (reads (operation_of operation)) }
{
    match operation {
        Operation::Input(_) | Operation::Constant(_) | Operation::Previous(_, _) => None,
        Operation::Copy(a)
        | Operation::ApplyUnary(_, a)
        | Operation::Latest(_, a)
        | Operation::Sample(a) => first_left(done, &[a]),
        Operation::ApplyBinary(_, a, b) | Operation::FirstThen(_, a, b) => {
            first_left(done, &[a, b])
        }
        Operation::Choose(c, a, b) => first_left(done, &[c, a, b]),
    }
}

// Whether the equation of an element is on a clock.
fn is_on(table: &[Option<Equation>], element: ElementId, clock: Option<ClockId>) -> bool
    ensures { result ≡ true → IsOn table.now element.0 clock }
{
    match table.get(element.0 as usize) {
        Some(Some(q)) => q.clock == clock,
        _ => false,
    }
}

// The first element that a clock reads and that is not done.
//
// A clock reads the element of its last row, and all that the clock of that element reads. So where
// that element is done, all that the clock reads is done.
fn awaited_by_clock(
    done: &[bool],
    clocks: &[Clock],
    table: &[Option<Equation>],
    clock: Option<ClockId>,
) -> Option<ElementId>
    requires table { AreClocks (length done.now) clocks.now }
    requires clock { IsClock clocks.now clock }
    requires settled { AreSettled clocks.now table.now done.now }
    ensures { option_map (λ a. a.0) result
        ≡ first_left done.now (clock_reads (clock_of clocks.now clock)) }
{
    let mut rest = clock;
    for depth in 0..clocks.len() {
        let Some(id) = rest else {
            return None;
        };
        let tick = clocks[id.0 as usize];
        if !done[tick.element.0 as usize] {
            return Some(tick.element);
        }
        if is_on(table, tick.element, tick.parent) {
            return None;
        }
        rest = tick.parent;
    }
    None
}

/// The first element that an equation reads and that is not done.
pub(super) fn awaited(
    done: &[bool],
    clocks: &[Clock],
    table: &[Option<Equation>],
    q: Equation,
) -> Option<ElementId>
    requires table { AreClocks (length done.now) clocks.now }
    requires within { IsWithin (length done.now) clocks.now q }
    requires settled { AreSettled clocks.now table.now done.now }
    ensures { option_map (λ a. a.0) result ≡ awaited clocks.now done.now q }
{
    match awaited_operand(done, q.operation) {
        Some(a) => Some(a),
        None => awaited_by_clock(done, clocks, table, q.clock),
    }
}
