//! The rules of types (E9) for one part of a specialization: a declared clock or a statement.

ghost use Rattle.std.specs.Prelude.{◌≡◌, map, option_map, IfOk, Some};
ghost use Rattle.lb_static.specs.DataTypes.{truth};
ghost use Rattle.lb_static.specs.StoredTypes.{view_type};
ghost use Rattle.lb_check.specs.BrokenParts.{first_broken};
ghost use Rattle.lb_check.specs.PlacedTypes as placed_mirror;
ghost use Rattle.lb_check.specs.StoredTypes.{context_in};
ghost use Rattle.lb_check.specs.TermSignatures.{are_met, are_one, row_in};
ghost use Rattle.lb_check.specs.TermTypes as mirror;
ghost use Rattle.lb_check.specs.Types.{singly};

use crate::operand_types::are_one;
use crate::part_types::PartTypes;
use crate::signature::{TypeRow, is_wanted};
use crate::type_env::TypeEnv;
use crate::types::{SideTypes, side_types, walk};
use lb_static::{DataType, ResolvedStatement, Term, Variable, VariableId};
use std::alloc::{AllocError, Global};

/// Whether variables have the given types. The types of the variables are made one at a time.
fn have_types(
    alloc: Global,
    env: &TypeEnv,
    variables: &[VariableId],
    given: &TypeRow,
) -> Result<bool, AllocError>
    ensures { IfOk result (λ same. same ≡ are_met (row_in given.now)
        (map (context_in env.now).variable variables.now)) }
{
    if variables.len() != given.len() {
        return Ok(false);
    }
    for (i, variable) in variables.iter().enumerate() {
        let declared = env.variable(alloc, *variable)?;
        if !is_wanted(given, i, &declared) {
            return Ok(false);
        }
    }
    Ok(true)
}

/// Whether there is one variable, of this type.
fn has_type(
    alloc: Global,
    env: &TypeEnv,
    variables: &[VariableId],
    given: &Option<DataType>,
) -> Result<bool, AllocError>
    ensures { IfOk result (λ same. same ≡ mirror.are_equal (singly (option_map view_type given.now))
        (mirror.left_types (context_in env.now) variables.now)) }
{
    if variables.len() != 1 {
        return Ok(false);
    }
    let declared = env.variable(alloc, variables[0])?;
    Ok(are_one(given, &declared))
}

/// Whether the left variables of an equation have the types of the results of its right side. The
/// parts of the right side are noted.
fn is_equation_typed(
    alloc: Global,
    env: &TypeEnv,
    lefts: &[VariableId],
    right: &Term,
    parts: &mut PartTypes,
) -> Result<bool, AllocError>
    ensures { IfOk result (λ typed.
        (typed ≡ mirror.is_equation_typed (context_in env.now) lefts.now right.now)
        × (placed_mirror.kept_in parts.new ≡ placed_mirror.kept (placed_mirror.kept_in parts.old)
        (placed_mirror.placed_types (context_in env.now) right.now))) }
{
    match side_types(alloc, env, right, parts)? {
        SideTypes::Single(given) => has_type(alloc, env, lefts, &given),
        SideTypes::Several(Some(given)) => have_types(alloc, env, lefts, &given),
        SideTypes::Several(None) => Ok(false),
    }
}

/// Whether a type is there, and is that of a truth.
fn is_truth(own: &Option<DataType>) -> bool
    ensures { result ≡ are_one (option_map view_type own.now) (Some truth) }
{
    match own {
        Some(data_type) => data_type.is_truth(),
        None => false,
    }
}

/// Whether a statement keeps the rules of types: the left variables have the types of the results,
/// and an assertion is a truth. The parts of its right side are noted.
pub fn is_statement_typed(
    alloc: Global,
    env: &TypeEnv,
    statement: &ResolvedStatement,
    parts: &mut PartTypes,
) -> Result<bool, AllocError>
    ensures { IfOk result (placed_mirror.IsStatementWalked (context_in env.now) statement.now
        (placed_mirror.kept_in parts.old) (placed_mirror.kept_in parts.new)) }
{
    match statement {
        ResolvedStatement::Equation(lefts, right) => {
            is_equation_typed(alloc, env, lefts, right, parts)
        }
        ResolvedStatement::Assertion(term) => {
            let own = walk(alloc, env, term, parts)?;
            Ok(is_truth(&own))
        }
    }
}

/// Whether the variable of a declared clock is a truth.
fn is_variable_typed(alloc: Global, env: &TypeEnv, variable: &Variable) -> Result<bool, AllocError>
    ensures { IfOk result (λ kept.
        kept ≡ mirror.is_variable_typed (context_in env.now) variable.now) }
{
    let Some(clock) = variable.clock else {
        return Ok(true);
    };
    match env.variable(alloc, clock.variable)? {
        Some(data_type) => Ok(data_type.is_truth()),
        None => Ok(false),
    }
}

/// The place of the first variable whose declared clock breaks the rules of types.
pub fn first_ill_typed_variable(
    alloc: Global,
    env: &TypeEnv,
    variables: &[Variable],
) -> Result<Option<usize>, AllocError>
    ensures { IfOk result (λ found.
        found ≡ first_broken (mirror.is_variable_typed (context_in env.now)) variables.now) }
{
    for (i, variable) in variables.iter().enumerate() {
        if !is_variable_typed(alloc, env, variable)? {
            return Ok(Some(i));
        }
    }
    Ok(None)
}
