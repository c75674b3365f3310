//! Order: each equation after what it reads.
//!
//! The equations go into a table by their elements. Then each element is scheduled whose reads are
//! scheduled: first by a topological sort, and then in passes over all elements until one schedules
//! none. The sort decides only how many passes there are: it leaves nothing for the first pass.

ghost use Rattle.std.specs.Prelude.{IfErr, IfOk};
ghost use Rattle.lb_static.specs.Instances.{Program};
ghost use Rattle.lb_check.specs.Needs.{IsCausal};
ghost use Rattle.lb_flat.specs.Correct.{IsCycleFound, IsExpansionOf, IsOrderOf};
ghost use Rattle.lb_flat.specs.CyclicPrograms.{AreOfCyclic};
ghost use Rattle.lb_flat.specs.FlatPrograms.{IsFlatOf};
ghost use Rattle.lb_flat.specs.GivenOnce.{IsGiven};
ghost use Rattle.lb_flat.specs.Ordering.{AreOrdered};
ghost use Rattle.lb_flat.specs.Prefixes.{IsDetermined};
ghost use Rattle.lb_flat.specs.Programs.{program_of, IsInRange};

mod cycle;
mod next_variable;
mod schedule;
mod table;
mod topological_sort;
mod waiting;

use crate::equation::Equation;
use crate::error::OrderError;
use crate::flat::{Flat, Ordered};
use crate::program::FlatProgram;
use schedule::scheduled;
use std::alloc::Global;
use table::equation_table;

// The equations of a program in order.
fn ordered_equations(alloc: Global, program: &FlatProgram) -> Result<Vec<Equation>, OrderError>
    requires in_range { IsInRange program.now }
    requires given { IsGiven (program_of program.now) }
    ensures order { IfOk result (λ qs. AreOrdered program.now qs.items) }
    ensures cycle { IfErr result (IsCycleFound (program_of program.now)) }
{
    let table = equation_table(alloc, program)?;
    scheduled(alloc, program, table.as_slice())
}

/// Puts the equations of a flat program in an order in which they can be computed.
///
/// Fails with `Cycle` (E13) only where there is no such order. The cycle names elements of
/// variables, each of which needs the next one at the same instant, and the last of which needs the
/// first.
pub fn order(alloc: Global, flat: Flat) -> Result<Ordered, OrderError>
    ensures order { IfOk result (λ o. IsOrderOf (program_of flat.program) (program_of o.program)) }
    ensures stands { IfOk result (λ o.
        (P : Program) → IsExpansionOf P (program_of flat.program)
        → IsFlatOf P (program_of o.program)) }
    ensures kept { IfOk result (λ o.
        (P : Program) → IsExpansionOf P (program_of flat.program)
        → IsExpansionOf P (program_of o.program)) }
    ensures determined { IfOk result (λ o.
        (P : Program) → IsFlatOf P (program_of o.program) → IsDetermined P) }
    ensures causal { IfOk result (λ o.
        (P : Program) → IsExpansionOf P (program_of flat.program) → IsCausal P) }
    ensures cycle { IfErr result (IsCycleFound (program_of flat.program)) }
    ensures cyclic { IfErr result (AreOfCyclic (program_of flat.program)) }
{
    let equations = ordered_equations(alloc, &flat.program)?;
    let mut program = flat.program;
    program.equations = equations;
    Ok(Ordered { program })
}
