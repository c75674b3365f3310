//! Scheduling: an element is done once all that its equation reads is done.

ghost use Rattle.std.specs.Prelude.{◌≡◌, ◌<◌, ℕ, IfErr, IfOk, true, false, length, suc};
ghost use Rattle.lb_flat.specs.Correct.{IsCycleFound};
ghost use Rattle.lb_flat.specs.GivenOnce.{IsGiven};
ghost use Rattle.lb_flat.specs.Ordering.{IsTable, IsTableOf, IsScheduled, AreScheduled, IsNotNext};
ghost use Rattle.lb_flat.specs.Ordering.{left};
ghost use Rattle.lb_flat.specs.Programs.{IsInRange, program_of};

use super::cycle::read_cycle;
use super::topological_sort::schedule_in_depth;
use super::waiting::awaited;
use crate::equation::{Clock, ElementId, Equation};
use crate::error::{Cycle, OrderError};
use crate::program::FlatProgram;
use std::alloc::{AllocError, Global};

/// Adds the equation of `e` to `out`, if it can be computed and is not there yet; returns whether
/// so.
pub(super) fn schedule(
    e: usize,
    clocks: &[Clock],
    table: &[Option<Equation>],
    done: &mut [bool],
    out: &mut Vec<Equation>,
) -> Result<bool, AllocError>
    requires table { IsTable clocks.now table.now }
    requires element { e < length table.now }
    requires state { IsScheduled clocks.now table.now done.old out.old.items }
    ensures state { IfOk result (λ _. IsScheduled clocks.now table.now done.new out.new.items) }
    ensures scheduled { result ≡ Ok true → suc (left done.new) ≡ left done.old }
    ensures unchanged { result ≡ Ok false → done.new ≡ done.old }
    ensures stuck { result ≡ Ok false → IsNotNext clocks.now table.now done.old e }
{
    let Some(q) = table[e] else {
        return Ok(false);
    };
    if done[e] || awaited(done, clocks, table, q).is_some() {
        return Ok(false);
    }
    out.push(q)?;
    done[e] = true;
    Ok(true)
}

// Makes one pass over all elements; returns whether it scheduled one.
fn schedule_some(
    clocks: &[Clock],
    table: &[Option<Equation>],
    done: &mut [bool],
    out: &mut Vec<Equation>,
) -> Result<bool, AllocError>
    requires table { IsTable clocks.now table.now }
    requires state { IsScheduled clocks.now table.now done.old out.old.items }
    ensures state { IfOk result (λ _. IsScheduled clocks.now table.now done.new out.new.items) }
    ensures scheduled { result ≡ Ok true → left done.new < left done.old }
    ensures unchanged { result ≡ Ok false → done.new ≡ done.old }
    ensures stuck { result ≡ Ok false →
        (e : ℕ) → e < length table.now → IsNotNext clocks.now table.now done.old e }
{
    let mut some = false;
    for e in 0..table.len() {
        if schedule(e, clocks, table, done, out)? {
            some = true;
        }
    }
    Ok(some)
}

// Passes until nothing more can be scheduled.
fn schedule_all(
    clocks: &[Clock],
    table: &[Option<Equation>],
    done: &mut [bool],
    out: &mut Vec<Equation>,
) -> Result<(), AllocError>
    requires table { IsTable clocks.now table.now }
    requires state { IsScheduled clocks.now table.now done.old out.old.items }
    ensures state { IfOk result (λ _. IsScheduled clocks.now table.now done.new out.new.items) }
    ensures stuck { IfOk result (λ _.
        (e : ℕ) → e < length table.now → IsNotNext clocks.now table.now done.new e) }
{
    'passes: loop {
        if !schedule_some(clocks, table, done, out)? {
            return Ok(());
        }
    }
}

// Schedules every element, or finds a cycle where none is next while some are left.
fn schedule_table(
    alloc: Global,
    program: &FlatProgram,
    table: &[Option<Equation>],
    done: &mut [bool],
    out: &mut Vec<Equation>,
) -> Result<(), OrderError>
    requires in_range { IsInRange program.now }
    requires given { IsGiven (program_of program.now) }
    requires table { IsTableOf program.now.size program.now.equations.items table.now }
    requires state { IsScheduled program.now.clocks.items table.now done.old out.old.items }
    ensures scheduled { IfOk result
        (λ _. AreScheduled program.now.clocks.items table.now out.new.items) }
    ensures cycle { IfErr result (IsCycleFound (program_of program.now)) }
{
    let clocks = program.clocks.as_slice();
    schedule_in_depth(alloc, clocks, table, done, out)?;
    schedule_all(clocks, table, done, out)?;
    for e in 0..program.size {
        if !done[e as usize] {
            let elements = read_cycle(alloc, program, table, done, ElementId(e))?;
            return Err(OrderError::Cycle(Box::new(alloc, Cycle::new(alloc, elements))?));
        }
    }
    Ok(())
}

/// The equations of a program, each after what it reads, from the table of them.
///
/// Fails with `Cycle` where an element reads itself at the same instant.
pub(crate) fn scheduled(
    alloc: Global,
    program: &FlatProgram,
    table: &[Option<Equation>],
) -> Result<Vec<Equation>, OrderError>
    requires in_range { IsInRange program.now }
    requires given { IsGiven (program_of program.now) }
    requires table { IsTableOf program.now.size program.now.equations.items table.now }
    ensures scheduled { IfOk result
        (λ out. AreScheduled program.now.clocks.items table.now out.items) }
    ensures cycle { IfErr result (IsCycleFound (program_of program.now)) }
{
    let mut done = vec![in alloc; false; table.len()]?;
    let mut out = Vec::with_capacity(alloc, table.len())?;
    schedule_table(alloc, program, table, done.as_mut_slice(), &mut out)?;
    Ok(out)
}
