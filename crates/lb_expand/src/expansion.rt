//! Expansion: from a checked program to equations on scalar elements.

ghost use Rattle.std.specs.Prelude.{◌≡◌, IfOk, true};
ghost use Rattle.lb_static.specs.Elaborated.{elaborated_program};
ghost use Rattle.lb_check.specs.TypeRules as rules;
ghost use Rattle.lb_flat.specs.Bounds.{IsBounded};
ghost use Rattle.lb_flat.specs.Correct.{IsExpansionOf};
ghost use Rattle.lb_expand.specs.Correct.{IsExpansionAnswer};
ghost use Rattle.lb_flat.specs.Programs.{program_of, IsInRange};
ghost use Rattle.lb_expand.specs.TableClocks.{IsLayoutOf};

mod begin_emission;
mod call_emission;
mod clock_emission;
mod clock_uses;
mod form_emission;
pub(crate) mod frame;
mod operators;
mod row_emission;
mod start;
mod start_emission;
mod term_emission;
mod whole_emission;

use crate::children::Children;
use crate::clocks::Clocks;
use crate::error::FlatError;
use crate::expansion::whole_emission::emit_program;
use crate::layout::{Layout, LayoutError};
use crate::row_frame::RowFrame;
use crate::table_size::{is_small, size_fault};
use crate::variable_kinds::variable_kinds;
use lb_check::Checked;
use lb_flat::{Flat, FlatProgram, kinds_of};
use lb_static::InstanceId;
use std::alloc::{AllocError, Global};

/// The flat program of a checked program that is small enough.
fn flat_program(
    alloc: Global,
    checked: &Checked,
    layout: &Layout,
) -> Result<FlatProgram, AllocError>
    requires small { rules.is_small (elaborated_program checked.now.elab) ≡ true }
    requires layout { IsLayoutOf checked.now.elab.reached checked.now.elab.table layout.now }
    ensures expansion { IfOk result (λ p.
        IsExpansionOf (elaborated_program checked.now.elab) (program_of p)) }
    ensures in_range { IfOk result (λ p. IsInRange p) }
    ensures bounded { IfOk result (λ p. IsBounded p) }
{
    let elab = checked.elab();
    let table = elab.table();
    let inputs = kinds_of(alloc, checked.signature())?;
    let kinds = variable_kinds(alloc, elab.reached(), table)?;
    let children = Children::new(alloc, table)?;
    let clocks = Clocks::new(alloc, checked, layout)?;
    let all_clocks = Vec::from_slice(alloc, &clocks.table)?;
    let Some(mut frame) = RowFrame::new(checked, layout, &children, &clocks, InstanceId(0)) else {
        unreachable!()
    };
    emit_program(
        alloc,
        &mut frame,
        elab.reached(),
        table,
        all_clocks,
        inputs,
        kinds,
        layout.count,
    )
}

/// Expands a checked program, or refuses it where its size is over 65,536 (E12).
pub fn expand(alloc: Global, checked: &Checked) -> Result<Flat, FlatError>
    ensures { IsExpansionAnswer (elaborated_program checked.now.elab) result }
{
    let elab = checked.elab();
    let layout = match Layout::new(alloc, elab.reached(), elab.table()) {
        Ok(layout) => layout,
        Err(LayoutError::Memory) => return Err(FlatError::Memory),
        Err(LayoutError::Large) => return Err(FlatError::Large(size_fault(checked))),
    };
    if !is_small(checked, layout.count) {
        return Err(FlatError::Large(size_fault(checked)));
    }
    let program = flat_program(alloc, checked, &layout)?;
    Ok(Flat { program })
}
