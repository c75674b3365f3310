//! The parts of a flat program that are known before all instants, and those left for each instant.
//!
//! A constant on the base clock holds the same cell at each instant, so its element is set once. An
//! input is read. The other equations are steps, computed at each instant; few have a memory.

ghost use Rattle.std.specs.Prelude.{◌≡◌, ◌<◌, [], Some, is_some, length, map, All, OnOk, IfSome};
ghost use Rattle.lb_flat.specs.Prepared.{is_fixed, is_step, has_memory, inputs_in, steps_in};
ghost use Rattle.lb_flat.specs.Prepared.{memory_places, place_equation, AreFixed};
ghost use Rattle.lb_flat.specs.Programs.{flat_equations};
ghost use Rattle.lb_flat.specs.Run.{Row, Ready, now};
ghost use Rattle.lb_flat.specs.Values.{scalar_of, cell_of, clock_of, operation_of, equation_of};
ghost use Rattle.lb_flat.specs.Within.{IsClock, IsWithin};

use crate::cell::{Cell, present};
use crate::equation::{Clock, Equation, InputPlace, Operation};
use crate::scalar::Scalar;
use std::alloc::AllocError;

// The value of an equation that is a constant on the base clock.
fn fixed_value(q: &Equation, clocks: &[Clock]) -> Option<Scalar>
    requires { IsClock clocks.now q.now.clock }
    ensures fixed { is_some result
        ≡ is_fixed (clock_of clocks.now q.now.clock) (operation_of q.now.operation) }
    ensures value { IfSome result (λ v. (row : Row) →
        Some (scalar_of v)
        ≡ now [] row (clock_of clocks.now q.now.clock) (operation_of q.now.operation)) }
{
    match (&q.operation, q.clock) {
        (Operation::Constant(v), None) => Some(*v),
        _ => None,
    }
}

// Whether an equation is computed at each instant.
fn is_step(q: &Equation, clocks: &[Clock]) -> bool
    requires { IsClock clocks.now q.now.clock }
    ensures { result ≡ is_step (equation_of clocks.now q.now) }
{
    match &q.operation {
        Operation::Input(_) => false,
        _ => fixed_value(q, clocks).is_none(),
    }
}

fn has_memory(operation: &Operation) -> bool
    ensures { result ≡ has_memory (operation_of operation.now) }
{
    match operation {
        Operation::FirstThen(_, _, _) | Operation::Previous(_, _) | Operation::Latest(_, _) => true,
        _ => false,
    }
}

/// Splits the equations of a program: the elements that hold inputs, the equations that are
/// computed at each instant, and the places of those that have a memory.
pub(crate) fn put_apart(
    equations: &[Equation],
    size: u32,
    clocks: &[Clock],
    inputs: &mut Vec<InputPlace>,
    steps: &mut Vec<Equation>,
    memories: &mut Vec<usize>,
) -> Result<(), AllocError>
    requires within { All (IsWithin size clocks.now) equations.now }
    requires no_input { inputs.old.items ≡ [] }
    requires no_step { steps.old.items ≡ [] }
    requires no_memory { memories.old.items ≡ [] }
    ensures inputs { OnOk result (map place_equation inputs.new.items
        ≡ inputs_in (flat_equations clocks.now equations.now)) }
    ensures places { OnOk result (All (λ p. p.element.0 < size) inputs.new.items) }
    ensures steps { OnOk result (flat_equations clocks.now steps.new.items
        ≡ steps_in (flat_equations clocks.now equations.now)) }
    ensures within { OnOk result (All (IsWithin size clocks.now) steps.new.items) }
    ensures memories { OnOk result (memories.new.items
        ≡ memory_places 0 (flat_equations clocks.now steps.new.items)) }
{
    for i in 0..equations.len() {
        let q = equations[i];
        if let Operation::Input(input) = q.operation {
            inputs.push(InputPlace {
                element: q.element,
                input,
            })?;
        } else if is_step(&q, clocks) {
            if has_memory(&q.operation) {
                memories.push(steps.len())?;
            }
            steps.push(q)?;
        }
    }
    Ok(())
}

/// Sets the elements of constants on the base clock.
pub(crate) fn set_constants(row: &mut [Cell], equations: &[Equation], clocks: &[Clock])
    requires in_order { Ready (length row.old) [] (flat_equations clocks.now equations.now) }
    requires within { All (IsWithin (length row.old) clocks.now) equations.now }
    ensures elements { length row.new ≡ length row.old }
    ensures fixed { AreFixed (map cell_of row.new) (flat_equations clocks.now equations.now) }
{
    for i in 0..equations.len() {
        let q = &equations[i];
        if let Some(v) = fixed_value(q, clocks) {
            row[q.element.0 as usize] = present(v);
        }
    }
}
