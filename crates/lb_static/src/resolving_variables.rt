//! Variables whose sizes and clocks are resolved.

ghost use Rattle.std.specs.Prelude.{◌≡◌, true, OnOk, IfOk, IfErr};
ghost use Rattle.std.specs.List.{list_all};
ghost use Rattle.lb_syntax.specs.Grammar.{declarations, declared};
ghost use Rattle.lb_syntax.specs.SourceView.{view_clock, view_group, view_groups};
ghost use Rattle.lb_static.specs.NameFaults.{IsNameFault};
ghost use Rattle.lb_static.specs.NodeProgress.{ClockStands, texts, counts_in, with_alike};
ghost use Rattle.lb_static.specs.NodeProgress.{after_group, after_groups, clock_fits};
ghost use Rattle.lb_static.specs.NodeProgress.{clock_told, declaration_fits, declaration_told};
ghost use Rattle.lb_static.specs.Progressed.{progress};
ghost use Rattle.lb_static.specs.ResolvedTerms.{is_declared_within};

use crate::causes::Sought;
use crate::error::StaticError;
use crate::node_builder::NodeBuilder;
use crate::resolved::{Role, Sampling, Variable};
use crate::resolving_parts::{all_statics, variable};
use lb_syntax::{Declarations, Name};
use std::alloc::Global;

/// The clock that a group of variables declares, if it declares one.
fn sampling(
    alloc: Global,
    here: &NodeBuilder,
    clock: &Option<lb_syntax::Sampling>,
) -> Result<Option<Sampling>, StaticError>
    ensures stands { IfOk result (ClockStands (progress here.now) (view_clock clock.now)) }
    ensures fit { IfOk result (λ _. clock_fits (progress here.now) (view_clock clock.now) ≡ true) }
    ensures err { IfErr result (λ e.
        IsNameFault e (clock_told e (progress here.now) (view_clock clock.now))) }
{
    match clock {
        None => Ok(None),
        Some(clock) => Ok(Some(Sampling {
            variable: variable(alloc, here, &clock.variable, Sought::Clock)?,
            sign: clock.sign,
        })),
    }
}

/// Adds one variable for each of these names, all of them alike.
fn push_variables(
    here: &mut NodeBuilder,
    names: &[Name],
    variable: Variable,
) -> Result<(), StaticError>
    requires { is_declared_within (counts_in (texts (progress here.old))) variable ≡ true }
    ensures ok { OnOk result
        (progress here.new ≡ with_alike (progress here.old) names.now variable) }
    ensures err { IfErr result (λ e. IsNameFault e true) }
{
    for _name in names {
        here.push_variable(variable)?;
    }
    Ok(())
}

/// Resolves the variables of a group, which share the places of their sizes.
fn resolve_group<'s>(
    alloc: Global,
    here: &mut NodeBuilder<'_, 's>,
    group: &'s Declarations,
) -> Result<(), StaticError>
    ensures ok { OnOk result
        (progress here.new ≡ after_group (progress here.old) (view_group group.now)) }
    ensures fit { OnOk result (list_all (declaration_fits (progress here.old))
        (declarations (view_group group.now)) ≡ true) }
    ensures err { IfErr result (λ e.
        IsNameFault e (list_all (declaration_told e (progress here.old))
        (declarations (view_group group.now)))) }
{
    if group.names.is_empty() {
        return Ok(());
    }
    let clock = sampling(alloc, here, &group.clock)?;
    let (first_size, sizes) = all_statics(alloc, here, Role::Dimension, &group.sizes)?;
    let variable = Variable {
        kind: group.kind,
        first_size,
        sizes,
        clock,
    };
    push_variables(here, &group.names, variable)
}

/// Resolves the variables of some groups.
pub fn resolve_groups<'s>(
    alloc: Global,
    here: &mut NodeBuilder<'_, 's>,
    groups: &'s [Declarations],
) -> Result<(), StaticError>
    ensures ok { OnOk result
        (progress here.new ≡ after_groups (progress here.old) (view_groups groups.now)) }
    ensures fit { OnOk result (list_all (declaration_fits (progress here.old))
        (declared (view_groups groups.now)) ≡ true) }
    ensures err { IfErr result (λ e.
        IsNameFault e (list_all (declaration_told e (progress here.old))
        (declared (view_groups groups.now)))) }
{
    for group in groups {
        resolve_group(alloc, here, group)?;
    }
    Ok(())
}
