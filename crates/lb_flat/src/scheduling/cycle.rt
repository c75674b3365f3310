//! The cycle that is found where no element is next.

ghost use Rattle.std.specs.Prelude.{IfOk};
ghost use Rattle.lb_flat.specs.Ordering.{IsLeft, IsStuckAt};
ghost use Rattle.lb_flat.specs.Programs.{numbers_of, program_of};
ghost use Rattle.lb_flat.specs.Reading.{IsReadCycle};

use super::next_variable::next_variable;
use crate::equation::{ElementId, Equation};
use crate::program::FlatProgram;
use std::alloc::{AllocError, Global};

/// Elements of variables, each of which reads the next one, and the last of which reads the first.
///
/// From an element that is left, the way goes from variable to variable until one repeats.
pub(super) fn read_cycle(
    alloc: Global,
    program: &FlatProgram,
    table: &[Option<Equation>],
    done: &[bool],
    from: ElementId,
) -> Result<Vec<ElementId>, AllocError>
    requires stuck { IsStuckAt program.now table.now done.now }
    requires from { IsLeft program.now done.now from.0 }
    ensures { IfOk result (λ is. IsReadCycle (program_of program.now) (numbers_of is.items)) }
{
    let mut places: Vec<Option<usize>> = vec![in alloc; None; program.variables as usize]?;
    let mut path = Vec::new(alloc);
    let mut at = next_variable(program, table, done, from);
    'path: loop {
        if let Some(first) = places[at.0 as usize] {
            let (_, rest) = path.as_slice().split_at(first);
            let mut cycle = Vec::new(alloc);
            cycle.extend_from_slice(rest)?;
            return Ok(cycle);
        }
        places[at.0 as usize] = Some(path.len());
        path.push(at)?;
        at = next_variable(program, table, done, at);
    }
}
