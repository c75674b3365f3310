//! The equations of a program, each at the number of its element.

ghost use Rattle.std.specs.Prelude.{◌≡◌, ◌<◌, All, IfOk, None, length, map, replicate};
ghost use Rattle.lb_syntax.specs.Lists.{AreApart};
ghost use Rattle.lb_flat.specs.GivenOnce.{IsGiven};
ghost use Rattle.lb_flat.specs.Ordering.{IsTableOf, clock_at};
ghost use Rattle.lb_flat.specs.Programs.{IsInRange, program_of};

use crate::equation::{Clock, ClockId, Equation};
use crate::program::FlatProgram;
use std::alloc::{AllocError, Global};

/// The clock of the table at a place; none is the base clock.
pub(super) fn clock_at(clocks: &[Clock], clock: Option<ClockId>) -> Option<Clock>
    ensures { result ≡ clock_at clocks.now clock }
{
    let id = clock?;
    clocks.get(id.0 as usize).copied()
}

// Enters equations of different elements into an empty table.
fn enter(table: &mut [Option<Equation>], equations: &[Equation])
    requires within { All (λ q. q.element.0 < length table.old) equations.now }
    requires once { AreApart (map (λ q. q.element.0) equations.now) }
    requires empty { table.old ≡ replicate (length table.old) None }
    ensures { IsTableOf (length table.old) equations.now table.new }
{
    for i in 0..equations.len() {
        let q = equations[i];
        table[q.element.0 as usize] = Some(q);
    }
}

/// The equation of each element of a program.
pub(crate) fn equation_table(
    alloc: Global,
    program: &FlatProgram,
) -> Result<Vec<Option<Equation>>, AllocError>
    requires in_range { IsInRange program.now }
    requires given { IsGiven (program_of program.now) }
    ensures { IfOk result
        (λ t. IsTableOf program.now.size program.now.equations.items t.items) }
{
    let mut table: Vec<Option<Equation>> = vec![in alloc; None; program.size as usize]?;
    enter(table.as_mut_slice(), program.equations.as_slice());
    Ok(table)
}
