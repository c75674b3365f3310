//! Statements whose names are resolved.

ghost use Rattle.std.specs.Prelude.{◌≡◌, true, map, IfErr, IfOk};
ghost use Rattle.std.specs.List.{list_all};
ghost use Rattle.lb_syntax.specs.SourceView.{view_statement};
ghost use Rattle.lb_static.specs.CountedNames.{Variables, counted};
ghost use Rattle.lb_static.specs.NameFaults.{IsNameFault, is_told};
ghost use Rattle.lb_static.specs.Names.{is_variable};
ghost use Rattle.lb_static.specs.NodeProgress.{ResolvesStatement, ResolvesStatements, texts};
ghost use Rattle.lb_static.specs.NodeProgress.{counts_in, program_of};
ghost use Rattle.lb_static.specs.Parts.{variable_names};
ghost use Rattle.lb_static.specs.Progressed.{progress};
ghost use Rattle.lb_static.specs.ResolvedTerms.{name_at, is_variable as is_place};

use crate::causes::Sought;
use crate::error::StaticError;
use crate::node_builder::NodeBuilder;
use crate::resolved::{ResolvedStatement, VariableId};
use crate::resolving_parts::variable;
use crate::resolving_terms::term;
use lb_syntax::{Name, Statement};
use std::alloc::Global;

/// The places of the variables on a left side, each by its name.
fn places(alloc: Global, here: &NodeBuilder, lefts: &[Name]) -> Result<Vec<VariableId>, StaticError>
    ensures named { IfOk result (λ places.
        map (name_at (variable_names (progress here.now).node)) places.items ≡ lefts.now) }
    ensures within { IfOk result (λ places.
        list_all (is_place (counts_in (texts (progress here.now)))) places.items ≡ true) }
    ensures fit { IfOk result (λ _. list_all
        (is_variable (program_of (progress here.now)) (progress here.now).node) lefts.now ≡ true) }
    ensures err { IfErr result (λ e. IsNameFault e (list_all (counted (is_told e Variables)
        (is_variable (program_of (progress here.now)) (progress here.now).node)) lefts.now)) }
{
    let mut places = Vec::new(alloc);
    for left in lefts {
        places.push(variable(alloc, here, left, Sought::Variable)?)?;
    }
    Ok(places)
}

/// A statement with its names resolved.
fn resolve_statement<'s>(
    alloc: Global,
    here: &mut NodeBuilder<'_, 's>,
    statement: &'s Statement,
) -> Result<ResolvedStatement, StaticError>
    ensures { ResolvesStatement (progress here.old) (progress here.new)
        (view_statement statement.now)
        result }
{
    match statement {
        Statement::Equation(lefts, e, _) => {
            let places = places(alloc, here, lefts)?;
            Ok(ResolvedStatement::Equation(places, term(alloc, here, e)?))
        }
        Statement::Assertion(e, _) => Ok(ResolvedStatement::Assertion(term(alloc, here, e)?)),
    }
}

/// The statements of a node with their names resolved, in text order.
pub fn resolve_statements<'s>(
    alloc: Global,
    here: &mut NodeBuilder<'_, 's>,
    body: &'s [Statement],
) -> Result<Vec<ResolvedStatement>, StaticError>
    ensures { ResolvesStatements (progress here.old) (progress here.new)
        (map view_statement body.now)
        result }
{
    let mut statements = Vec::new(alloc);
    for statement in body {
        statements.push(resolve_statement(alloc, here, statement)?)?;
    }
    Ok(statements)
}
