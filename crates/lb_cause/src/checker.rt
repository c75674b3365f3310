//! The check of a program that tells the cause of a refusal (E9, E10, E11).

ghost use Rattle.std.specs.Prelude.{◌≡◌, IfOk};
ghost use Rattle.lb_static.specs.Elaborated.{elaborated_program, IsLawful};
ghost use Rattle.lb_static.specs.Instances.{Program};
ghost use Rattle.lb_check.specs.Correct.{IsFirstBroken};
ghost use Rattle.lb_cause.specs.Correct.{IsAnswer};

use crate::clock_cause::clock_error;
use crate::definition_cause::definition_error;
use crate::error::CheckError;
use crate::type_cause::type_error;
use lb_check::{Broken, Checked, Refused, check};
use lb_static::Elab;
use std::alloc::{AllocError, Global};

/// The error of a program that is refused, with its cause.
fn cause_of(alloc: Global, refused: &Refused) -> Result<CheckError, AllocError>
    ensures { (P : Program) → IsFirstBroken P refused.now.elab.reached refused.now.broken
        → IfOk result (λ e. IsAnswer P (Err e)) }
{
    let (reached, table) = (refused.elab.reached(), refused.elab.table());
    match refused.broken {
        Broken::Types(found) => type_error(alloc, reached, table, found),
        Broken::Clocks(found) => clock_error(alloc, reached, table, found),
        Broken::Definitions(found) => definition_error(alloc, reached, table, found),
    }
}

/// Checks an elaborated program: the first of the rules of types (E9), clocks (E10) and definitions
/// (E11) that it breaks, each over all instances, with the node and the part of it that breaks it,
/// and why; or the checked program.
pub fn check_with_cause<'s>(alloc: Global, elab: Elab<'s>) -> Result<Checked<'s>, CheckError>
    ensures answer { IsAnswer (elaborated_program elab.entry) result }
    ensures same { IfOk result (λ c. c.elab ≡ elab.entry) }
    ensures lawful { IsLawful elab.entry }
{
    match check(alloc, elab)? {
        Ok(checked) => Ok(checked),
        Err(refused) => Err(cause_of(alloc, &refused)?),
    }
}
