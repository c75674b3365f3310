//! The verdict that the row of an instant decides.

ghost use Rattle.std.specs.Prelude.{◌≡◌, ◌<◌, ◌≤◌, Some, length, map, All, if◌then◌else◌};
ghost use Rattle.std.specs.List.{range_with_len};
ghost use Rattle.lb_check.specs.Verdicts.{is_bad, is_nil, is_false};
ghost use Rattle.lb_check.specs.declared.verdict.Verdict.TheVariants.{Assertion, False, Passed};
ghost use Rattle.lb_flat.specs.Judging.{some_in, row_judged};
ghost use Rattle.lb_flat.specs.Values.{cell_of};
ghost use Rattle.lb_flat.specs.Programs.{numbers_of, program_of, IsInRange};

use crate::cell::Cell;
use crate::equation::ElementId;
use crate::program::FlatProgram;
use lb_check::Verdict;

// A present fault.
fn is_bad(x: Cell) -> bool
    ensures { result ≡ is_bad (Some (cell_of x)) }
{
    match x {
        Cell::Bad => true,
        _ => false,
    }
}

// Present and nil.
fn is_nil(x: Cell) -> bool
    ensures { result ≡ is_nil (Some (cell_of x)) }
{
    match x {
        Cell::Nil => true,
        _ => false,
    }
}

// Present and false.
fn is_false(x: Cell) -> bool
    ensures { result ≡ is_false (Some (cell_of x)) }
{
    match x {
        Cell::Boolean(b) => !b,
        _ => false,
    }
}

// Whether one of the first `count` elements holds a fault.
fn first_bad(row: &[Cell], count: u32) -> bool
    requires { count ≤ length row.now }
    ensures { result ≡ some_in is_bad (map cell_of row.now) (range_with_len 0 count) }
{
    for i in 0..count {
        if is_bad(row[i as usize]) {
            return true;
        }
    }
    false
}

// Whether one of these elements holds a fault.
fn some_bad(row: &[Cell], elements: &[ElementId]) -> bool
    requires { All (λ a. a.0 < length row.now) elements.now }
    ensures { result ≡ some_in is_bad (map cell_of row.now) (numbers_of elements.now) }
{
    for i in 0..elements.len() {
        if is_bad(row[elements[i].0 as usize]) {
            return true;
        }
    }
    false
}

// Whether one of these elements is nil.
fn some_nil(row: &[Cell], elements: &[ElementId]) -> bool
    requires { All (λ a. a.0 < length row.now) elements.now }
    ensures { result ≡ some_in is_nil (map cell_of row.now) (numbers_of elements.now) }
{
    for i in 0..elements.len() {
        if is_nil(row[elements[i].0 as usize]) {
            return true;
        }
    }
    false
}

// Whether one of these elements is false.
fn some_false(row: &[Cell], elements: &[ElementId]) -> bool
    requires { All (λ a. a.0 < length row.now) elements.now }
    ensures { result ≡ some_in is_false (map cell_of row.now) (numbers_of elements.now) }
{
    for i in 0..elements.len() {
        if is_false(row[elements[i].0 as usize]) {
            return true;
        }
    }
    false
}

// The verdict of instant `t` where there is no fault, and no nil where a truth is wanted.
fn truth_verdict(is_assertion_false: bool, is_property_false: bool, t: u32) -> Verdict
    ensures { result ≡ if is_assertion_false then Assertion t
        else if is_property_false then False t else Passed }
{
    if is_assertion_false {
        return Verdict::Assertion(t);
    }
    if is_property_false {
        return Verdict::False(t);
    }
    Verdict::Passed
}

/// The verdict of the row of instant `t`; `Passed` where it decides nothing.
///
/// The first of these decides: fault, nil where a truth is wanted, failed assertion, false
/// property.
pub(crate) fn instant_verdict(program: &FlatProgram, row: &[Cell], t: u32) -> Verdict
    requires elements { length row.now ≡ program.now.size }
    requires in_range { IsInRange program.now }
    ensures { result ≡ row_judged (program_of program.now) t (map cell_of row.now) }
{
    if first_bad(row, program.variables)
        || some_bad(row, program.memory_operands.as_slice())
        || some_bad(row, program.asserted.as_slice())
    {
        return Verdict::Fault(t);
    }
    if some_nil(row, program.clock_elements.as_slice())
        || some_nil(row, program.asserted.as_slice())
        || is_nil(row[program.property.0 as usize])
    {
        return Verdict::Undefined(t);
    }
    let is_assertion_false = some_false(row, program.asserted.as_slice());
    let is_property_false = is_false(row[program.property.0 as usize]);
    truth_verdict(is_assertion_false, is_property_false, t)
}
