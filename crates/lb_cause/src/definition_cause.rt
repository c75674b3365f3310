//! The reason why a part of a node breaks the rules of definitions (E11).

ghost use Rattle.std.specs.Prelude.{◌≡◌, IfOk, OnOk};
ghost use Rattle.lb_syntax.specs.Refusals.{E11};
ghost use Rattle.lb_static.specs.Instances.{Program};
ghost use Rattle.lb_check.specs.Acceptance.{check_refusal};
ghost use Rattle.lb_check.specs.BrokenParts.{is_part_defined};
ghost use Rattle.lb_check.specs.BrokenRules.{IsBroken};
ghost use Rattle.lb_cause.specs.Correct.{IsAnswer};
ghost use Rattle.lb_check.specs.DefinitionRules.{is_defined};

use crate::cause::{FaultyPart, declared_variable, faulty_part};
use crate::definition_fault::{DefinitionFault, DefinitionRule};
use crate::error::CheckError;
use crate::sites::{Site, StatementSite, left_offset, statement_at};
use lb_check::{IllFormed, Part, calls_function};
use lb_static::{Reached, ResolvedNode, ResolvedStatement, Table, Term, VariableId};
use lb_syntax::{Expr, Name, Operator};
use std::alloc::{AllocError, Global};

/// A rule of definitions that a part breaks, with a name and an offset.
#[derive(Clone, Copy)]
struct DefinitionReason<'t> {
    rule: DefinitionRule,
    name: &'t str,
    offset: u32,
}

/// Whether a term itself has memory, or calls a node.
fn has_own_memory(reached: &Reached, node: &ResolvedNode, term: &Term) -> bool {
    match term {
        Term::Arrow(_, _) | Term::Fby(_, _) | Term::Pre(_) | Term::Current(_) => true,
        Term::Call(call, _) | Term::IterateNode(_, call, _) => {
            !calls_function(reached, node, *call)
        }
        _ => false,
    }
}

/// The first part of a term with memory, or that calls a node: the term itself comes before its
/// operands.
fn memory_of<'t>(reached: &Reached, node: &ResolvedNode, site: Site<'t>) -> Option<Site<'t>> {
    if has_own_memory(reached, node, site.term) {
        return Some(site);
    }
    for place in 0..usize::MAX {
        let found = memory_of(reached, node, site.operand(place)?);
        if found.is_some() {
            return found;
        }
    }
    None
}

/// The name of the node that an expression calls or iterates, if it does.
fn called_name<'t>(expr: &'t Expr) -> Option<&'t Name> {
    match expr {
        Expr::Call(name, _, _) => Some(name),
        Expr::Iterate(_, operator, _, _, _) => match &**operator {
            Operator::Node(name, _) => Some(name),
            Operator::Symbol(_) => None,
        },
        _ => None,
    }
}

/// The reason for an operator with memory, or for a call of a node, in a function.
fn memory_reason<'t>(site: Site<'t>) -> DefinitionReason<'t> {
    match called_name(site.expr) {
        Some(name) => DefinitionReason {
            rule: DefinitionRule::NodeCall,
            name: name.as_str(),
            offset: name.offset,
        },
        None => DefinitionReason {
            rule: DefinitionRule::Memory,
            name: "",
            offset: site.sign_offset(),
        },
    }
}

/// The reason for a part that is not there.
const NO_REASON: DefinitionReason<'static> = DefinitionReason {
    rule: DefinitionRule::Undefined,
    name: "",
    offset: 0,
};

/// The reason why a statement of a function breaks the rules.
fn statement_reason<'t>(
    reached: &Reached,
    node: &'t ResolvedNode,
    place: usize,
) -> DefinitionReason<'t> {
    let Some(at) = statement_at(node, place) else {
        return NO_REASON;
    };
    match memory_of(reached, node, at.right) {
        Some(site) => memory_reason(site),
        None => NO_REASON,
    }
}

/// The reason for a variable with too few or too many definitions.
fn variable_reason<'a, 's>(
    node: &'a ResolvedNode<'s>,
    variable: VariableId,
    is_defined: bool,
) -> DefinitionReason<'a> {
    let rule = if variable.0 < node.inputs {
        DefinitionRule::DefinedInput
    } else if is_defined {
        DefinitionRule::Doubled
    } else {
        DefinitionRule::Undefined
    };
    match declared_variable(node.tree, variable) {
        Some(declared) => {
            let name = declared.name;
            DefinitionReason {
                rule,
                name: name.as_str(),
                offset: name.offset,
            }
        }
        None => NO_REASON,
    }
}

/// The reason why a part breaks the rules of definitions; `is_defined` is of its variable.
fn part_reason<'a, 's>(
    reached: &'a Reached<'s>,
    node: &'a ResolvedNode<'s>,
    part: Part,
    is_defined: bool,
) -> DefinitionReason<'a> {
    match part {
        Part::Variable(variable) => variable_reason(node, variable, is_defined),
        Part::Statement(place) => statement_reason(reached, node, place),
    }
}

/// Notes the offsets at which a variable stands among the left variables of a statement.
fn note_lefts(
    definitions: &mut Vec<u32>,
    variable: VariableId,
    at: StatementSite,
) -> Result<(), AllocError> {
    let ResolvedStatement::Equation(lefts, _) = at.resolved else {
        return Ok(());
    };
    for (place, left) in lefts.iter().enumerate() {
        if left.0 == variable.0 {
            definitions.push(left_offset(at.statement, place))?;
        }
    }
    Ok(())
}

/// Notes the offsets at which a part that is a variable stands on left sides.
fn note_definitions(
    definitions: &mut Vec<u32>,
    node: &ResolvedNode,
    part: Part,
) -> Result<(), AllocError> {
    let Part::Variable(variable) = part else {
        return Ok(());
    };
    for place in 0..node.body.len() {
        if let Some(at) = statement_at(node, place) {
            note_lefts(definitions, variable, at)?;
        }
    }
    Ok(())
}

/// Adds the reason to a fault of definitions.
fn explain(
    alloc: Global,
    reached: &Reached,
    found: IllFormed,
    fault: &mut DefinitionFault,
) -> Result<(), AllocError>
    ensures node { OnOk result (fault.new.node ≡ fault.old.node) }
    ensures part { OnOk result (fault.new.part ≡ fault.old.part) }
{
    let Some(node) = reached.nodes.get(found.node.0) else {
        return Ok(());
    };
    note_definitions(&mut fault.definitions, node, found.part)?;
    let reason = part_reason(reached, node, found.part, !fault.definitions.is_empty());
    fault.rule = reason.rule;
    fault.name = String::from_str(alloc, reason.name)?;
    fault.offset = reason.offset;
    Ok(())
}

/// The error that this part breaks the rules of definitions.
pub fn definition_error(
    alloc: Global,
    reached: &Reached,
    table: &Table,
    found: IllFormed,
) -> Result<CheckError, AllocError>
    ensures { (P : Program) → check_refusal P ≡ Some E11
        → IsBroken (λ here. is_defined P here.node) (λ here. is_part_defined P here.node) P
        reached.now found.node found.part
        → IfOk result (λ e. IsAnswer P (Err e)) }
{
    let FaultyPart {
        node,
        part,
        offset,
        path,
    } = faulty_part(alloc, reached, table, found, None)?;
    let mut fault = DefinitionFault {
        node,
        part,
        part_offset: offset,
        rule: DefinitionRule::Undefined,
        name: String::new(alloc),
        offset: 0,
        definitions: Vec::new(alloc),
        path,
    };
    explain(alloc, reached, found, &mut fault)?;
    Ok(CheckError::Definition(Box::new(alloc, fault)?))
}
