//! A topological sort of the elements, depth first, which schedules each after what it reads.
//!
//! The sort leaves an element after all that it reads, except for those on a cycle. `schedule`
//! alone decides which equations can be computed.

ghost use Rattle.std.specs.Prelude.{IfOk};
ghost use Rattle.lb_flat.specs.Ordering.{IsTable, IsScheduled};

use super::schedule::schedule;
use super::table::clock_at;
use crate::equation::{Clock, ClockId, ElementId, Equation, Operation};
use std::alloc::{AllocError, Global};

// Pushes the elements that an operation reads at the same instant.
fn push_operands(stack: &mut Vec<ElementId>, operation: Operation) -> Result<(), AllocError> {
    match operation {
        Operation::Input(_) | Operation::Constant(_) | Operation::Previous(_, _) => Ok(()),
        Operation::Copy(a)
        | Operation::ApplyUnary(_, a)
        | Operation::Latest(_, a)
        | Operation::Sample(a) => stack.extend_from_slice(&[a]),
        Operation::ApplyBinary(_, a, b) | Operation::FirstThen(_, a, b) => {
            stack.extend_from_slice(&[a, b])
        }
        Operation::Choose(c, a, b) => stack.extend_from_slice(&[c, a, b]),
    }
}

// Pushes the nearest element that a clock reads; the clock of that element reads the further ones.
fn push_clock(
    stack: &mut Vec<ElementId>,
    clocks: &[Clock],
    clock: Option<ClockId>,
) -> Result<(), AllocError> {
    if let Some(tick) = clock_at(clocks, clock) {
        stack.push(tick.element)?;
    }
    Ok(())
}

// Enters an element that was not entered before, and pushes the elements that it reads above it;
// returns whether it did.
fn enter(
    a: ElementId,
    clocks: &[Clock],
    table: &[Option<Equation>],
    entered: &mut [bool],
    stack: &mut Vec<ElementId>,
) -> Result<bool, AllocError> {
    let e = a.0 as usize;
    if e >= entered.len() || entered[e] {
        return Ok(false);
    }
    entered[e] = true;
    stack.push(a)?;
    if let Some(Some(q)) = table.get(e) {
        push_operands(stack, q.operation)?;
        push_clock(stack, clocks, q.clock)?;
    }
    Ok(true)
}

// Schedules what lies on the stack, each element after what it reads.
fn schedule_stack(
    clocks: &[Clock],
    table: &[Option<Equation>],
    entered: &mut [bool],
    stack: &mut Vec<ElementId>,
    done: &mut [bool],
    out: &mut Vec<Equation>,
) -> Result<(), AllocError>
    requires table { IsTable clocks.now table.now }
    requires state { IsScheduled clocks.now table.now done.old out.old.items }
    ensures { IfOk result (λ _. IsScheduled clocks.now table.now done.new out.new.items) }
{
    'visits: for _ in 0..u64::MAX {
        let Some(a) = stack.pop() else {
            return Ok(());
        };
        if !enter(a, clocks, table, entered, stack)? && (a.0 as usize) < table.len() {
            schedule(a.0 as usize, clocks, table, done, out)?;
        }
    }
    Ok(())
}

/// Schedules the elements of a table, each after what it reads, except for those on a cycle.
pub(super) fn schedule_in_depth(
    alloc: Global,
    clocks: &[Clock],
    table: &[Option<Equation>],
    done: &mut [bool],
    out: &mut Vec<Equation>,
) -> Result<(), AllocError>
    requires table { IsTable clocks.now table.now }
    requires state { IsScheduled clocks.now table.now done.old out.old.items }
    ensures { IfOk result (λ _. IsScheduled clocks.now table.now done.new out.new.items) }
{
    let mut entered = vec![in alloc; false; table.len()]?;
    let mut stack = Vec::new(alloc);
    for entry in table {
        if let Some(q) = entry {
            stack.push(q.element)?;
            schedule_stack(clocks, table, &mut entered, &mut stack, done, out)?;
        }
    }
    Ok(())
}
