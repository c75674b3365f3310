//! The inputs that a program reads: no other has to be loaded.
//!
//! An input is read if another equation reads its element, as an operand, by its clock or for a
//! memory, or if a truth is wanted of it.

ghost use Rattle.std.specs.Prelude.{◌≡◌, ◌<◌, ◌+◌, ◌++◌, ℕ, [], length, All, IfOk, OnOk};
ghost use Rattle.lb_flat.specs.Programs.{numbers_of, program_of, IsInRange};
ghost use Rattle.lb_flat.specs.Run.{keeps, reads};
ghost use Rattle.lb_flat.specs.Values.{operation_of};
ghost use Rattle.lb_flat.specs.Within.{IsClock};
ghost use Rattle.lb_sim.specs.Homes.{word_in};
ghost use Rattle.lb_sim.specs.InputRows.{number_columns, places_of};
ghost use Rattle.lb_sim.specs.ReadInputs.{AreMarkedToo, IsClockMarked, IsInputPlace, IsLoadedAt};
ghost use Rattle.lb_sim.specs.ReadInputs.{IsLoadedFor, LoadsReads, LoadsStill, MarksReads};

use crate::place::Value;
use lb_flat::{ClockId, ElementId, FlatProgram, Operation};
use std::alloc::{AllocError, Global};

/// The inputs that are loaded for a program: all that it reads.
#[derive(Drop)]
pub(crate) struct ReadInputs {
    /// The loaded integers, by their places among the integers of the signature.
    pub(crate) numbers: Vec<usize>,
    /// Whether Booleans are loaded; they come 64 at a time.
    pub(crate) truths: bool,
}

// Marks some elements.
fn mark_all(marks: &mut [bool], elements: &[ElementId])
    requires { All (λ a. a.0 < length marks.old) elements.now }
    ensures { AreMarkedToo marks.old marks.new (numbers_of elements.now) }
{
    for i in 0..elements.len() {
        let element = elements[i];
        marks[element.0 as usize] = true;
    }
}

// Marks the elements that an operation reads, now or for its memory.
fn mark_operands(marks: &mut [bool], operation: Operation)
    requires reads { All (λ e. e < length marks.old) (reads (operation_of operation)) }
    requires keeps { All (λ e. e < length marks.old) (keeps (operation_of operation)) }
    ensures { AreMarkedToo marks.old marks.new
        (reads (operation_of operation) ++ keeps (operation_of operation)) }
{
    match operation {
        Operation::Input(_) | Operation::Constant(_) => mark_all(marks, &[]),
        Operation::Copy(a)
        | Operation::ApplyUnary(_, a)
        | Operation::Previous(_, a)
        | Operation::Latest(_, a)
        | Operation::Sample(a) => mark_all(marks, &[a]),
        Operation::ApplyBinary(_, a, b) | Operation::FirstThen(_, a, b) => {
            mark_all(marks, &[a, b]);
        }
        Operation::Choose(c, a, b) => mark_all(marks, &[c, a, b]),
    }
}

// Marks the element that a clock waits for. The element of the clock above is marked with the
// table.
fn mark_clock(marks: &mut [bool], program: &FlatProgram, clock: Option<ClockId>)
    requires in_range { IsInRange program.now }
    requires elements { length marks.old ≡ program.now.size }
    requires clock { IsClock program.now.clocks.items clock }
    ensures more { AreMarkedToo marks.old marks.new [] }
    ensures marked { IsClockMarked program.now.clocks.items marks.new clock }
{
    if let Some(id) = clock {
        let tick = program.clocks[id.0 as usize];
        mark_all(marks, &[tick.element]);
    }
}

// Marks all elements that a program reads. In the table of clocks these are the elements of clocks
// that have an equation or another clock on them.
fn mark_reads(marks: &mut [bool], program: &FlatProgram)
    requires in_range { IsInRange program.now }
    requires elements { length marks.old ≡ program.now.size }
    ensures { MarksReads program.now marks.new }
{
    for i in 0..program.clocks.len() {
        let clock = program.clocks[i];
        mark_clock(marks, program, clock.parent);
    }
    for i in 0..program.equations.len() {
        let equation = program.equations[i];
        mark_clock(marks, program, equation.clock);
        mark_operands(marks, equation.operation);
    }
    mark_all(marks, program.clock_elements.as_slice());
    mark_all(marks, program.asserted.as_slice());
    mark_all(marks, &[program.property]);
}

// A mark for each element that a program reads.
fn read_elements(alloc: Global, program: &FlatProgram) -> Result<Vec<bool>, AllocError>
    requires { IsInRange program.now }
    ensures { IfOk result (λ marks. MarksReads program.now marks.items) }
{
    let mut marks = vec![in alloc; false; program.size as usize]?;
    mark_reads(marks.as_mut_slice(), program);
    Ok(marks)
}

// Adds the input at a place to the loaded inputs.
fn load_too(found: &mut ReadInputs, place: Value) -> Result<(), AllocError>
    requires { IsInputPlace place }
    ensures loaded { OnOk result (IsLoadedAt found.new.numbers.items found.new.truths place) }
    ensures still { OnOk result (LoadsStill found.old.numbers.items found.new.numbers.items
        found.old.truths found.new.truths) }
    ensures within { OnOk result ((words : ℕ) → word_in place < words + 1
        → All (λ w. w < words) found.old.numbers.items
        → All (λ w. w < words) found.new.numbers.items) }
{
    match place {
        Value::Truth(_) | Value::Negated(_) => found.truths = true,
        Value::Number(w) => found.numbers.push(w.0 as usize - 1)?,
    }
    Ok(())
}

// Adds the input of an operation to the loaded inputs, if the operation is an input and its element
// is read.
fn load_read(
    found: &mut ReadInputs,
    inputs: &[Value],
    operation: Operation,
    read: bool,
) -> Result<(), AllocError>
    requires { All IsInputPlace inputs.now }
    ensures loaded { OnOk result (IsLoadedFor read inputs.now found.new.numbers.items
        found.new.truths (operation_of operation)) }
    ensures still { OnOk result (LoadsStill found.old.numbers.items found.new.numbers.items
        found.old.truths found.new.truths) }
    ensures within { OnOk result ((words : ℕ) → All (λ v. word_in v < words + 1) inputs.now
        → All (λ w. w < words) found.old.numbers.items
        → All (λ w. w < words) found.new.numbers.items) }
{
    let Operation::Input(j) = operation else {
        return Ok(());
    };
    let j = j.0 as usize;
    if !read || j >= inputs.len() {
        return Ok(());
    }
    load_too(found, inputs[j])?;
    Ok(())
}

/// The inputs that a program reads, at these places.
pub(crate) fn read_inputs(
    alloc: Global,
    program: &FlatProgram,
    inputs: &[Value],
) -> Result<ReadInputs, AllocError>
    requires in_range { IsInRange program.now }
    requires inputs { inputs.now ≡ places_of 2 1 program.now.inputs.items }
    ensures within { IfOk result (λ r. All (λ w.
        w < length (number_columns 0 program.now.inputs.items)) r.numbers.items) }
    ensures loads { IfOk result (λ r. LoadsReads (program_of program.now)
        (places_of 2 1 program.now.inputs.items) r.numbers.items r.truths) }
{
    let read = read_elements(alloc, program)?;
    let mut found = ReadInputs {
        numbers: Vec::new(alloc),
        truths: false,
    };
    for i in 0..program.equations.len() {
        let q = program.equations[i];
        load_read(&mut found, inputs, q.operation, read[q.element.0 as usize])?;
    }
    Ok(found)
}
