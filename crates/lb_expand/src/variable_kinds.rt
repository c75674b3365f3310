//! The kinds of the scalar elements of variables, row by row of the table of instances.

ghost use Rattle.std.specs.Prelude.{◌≡◌, ◌++◌, flat_map, replicate, IfOk, OnOk};
ghost use Rattle.lb_expand.specs.RowKinds.{declared_kinds, kinds_in, table_kinds};

use crate::layout::width;
use lb_static::{Instance, Reached, StaticInt, Table, Variable};
use lb_syntax::Kind;
use std::alloc::{AllocError, Global};

/// Adds `kind` `count` times.
#[tactic(auto, using(crate::proofs::numbering::RowInstances::copy_added))]
fn push_kind(kinds: &mut Vec<Kind>, kind: Kind, count: u32) -> Result<(), AllocError>
    ensures { OnOk result (kinds.new.items ≡ kinds.old.items ++ replicate count kind) }
{
    for copy in 0..count {
        kinds.push(kind)?;
    }
    Ok(())
}

/// Adds the kinds of the elements of some variables under these static values.
#[tactic(auto, using(crate::proofs::numbering::RowInstances::piece_added))]
fn push_variables(
    kinds: &mut Vec<Kind>,
    statics: &[StaticInt],
    variables: &[Variable],
) -> Result<(), AllocError>
    ensures { OnOk result (kinds.new.items
        ≡ kinds.old.items ++ flat_map (declared_kinds statics.now) variables.now) }
{
    for variable in variables {
        push_kind(kinds, variable.kind, width(statics, variable))?;
    }
    Ok(())
}

/// Adds the kinds of the elements of a row.
fn push_row(
    kinds: &mut Vec<Kind>,
    reached: &Reached,
    table: &Table,
    row: &Instance,
) -> Result<(), AllocError>
    ensures { OnOk result (kinds.new.items
        ≡ kinds.old.items ++ kinds_in reached.now table.now row.now) }
{
    let Some(specialization) = table.specializations.get(row.specialization.0 as usize) else {
        return Ok(());
    };
    match reached.nodes.get(specialization.node.0) {
        Some(node) => push_variables(kinds, &specialization.statics, &node.variables),
        None => Ok(()),
    }
}

/// The kinds of the elements of all rows.
#[tactic(auto, using(crate::proofs::numbering::RowInstances::piece_next))]
pub(crate) fn variable_kinds(
    alloc: Global,
    reached: &Reached,
    table: &Table,
) -> Result<Vec<Kind>, AllocError>
    ensures { IfOk result (λ kinds. kinds.items ≡ table_kinds reached.now table.now) }
{
    let mut kinds = Vec::new(alloc);
    for row in &table.instances {
        push_row(&mut kinds, reached, table, row)?;
    }
    Ok(kinds)
}
