//! The way from an element that is left to a variable's element that it waits for.

ghost use Rattle.std.specs.Prelude.{◌<◌, ◌≤◌};
ghost use Rattle.lb_flat.specs.Ordering.{IsLeft, IsStuckAt};
ghost use Rattle.lb_flat.specs.Programs.{program_of};
ghost use Rattle.lb_flat.specs.Reading.{Leads};

use super::waiting::awaited;
use crate::equation::{ElementId, Equation};
use crate::program::FlatProgram;

// The first element that the equation of an element reads and that is left too.
fn next_left(
    program: &FlatProgram,
    table: &[Option<Equation>],
    done: &[bool],
    from: ElementId,
) -> ElementId
    requires stuck { IsStuckAt program.now table.now done.now }
    requires from { IsLeft program.now done.now from.0 }
    ensures left { IsLeft program.now done.now result.0 }
    ensures leads { Leads (program_of program.now) result.0 from.0 }
    ensures lower { program.now.variables ≤ from.0 → result.0 < from.0 }
{
    let Some(q) = table[from.0 as usize] else {
        unreachable!()
    };
    let Some(a) = awaited(done, program.clocks.as_slice(), table, q) else {
        unreachable!()
    };
    a
}

/// The first variable's element on the way from an element that is left: each element on the way
/// is left too, and read by the one before.
///
/// A temporary reads only lower elements, so the way ends.
pub(super) fn next_variable(
    program: &FlatProgram,
    table: &[Option<Equation>],
    done: &[bool],
    from: ElementId,
) -> ElementId
    requires stuck { IsStuckAt program.now table.now done.now }
    requires from { IsLeft program.now done.now from.0 }
    ensures variable { result.0 < program.now.variables }
    ensures left { IsLeft program.now done.now result.0 }
    ensures leads { Leads (program_of program.now) result.0 from.0 }
{
    let mut to = next_left(program, table, done, from);
    'reads: while to.0 >= program.variables {
        to = next_left(program, table, done, to);
    }
    to
}
