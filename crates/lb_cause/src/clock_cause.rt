//! The reason why a part of a node breaks the rules of clocks (E10).
//!
//! The reported part of a term is the innermost one that stands on no clock, though each of its
//! operands does: in `a + (b + c)`, with `b` and `c` on two clocks, it is `b + c`.

ghost use Rattle.std.specs.Prelude.{◌≡◌, IfOk, OnOk};
ghost use Rattle.lb_syntax.specs.Refusals.{E10};
ghost use Rattle.lb_static.specs.Instances.{Program};
ghost use Rattle.lb_check.specs.Acceptance.{check_refusal};
ghost use Rattle.lb_check.specs.BrokenParts.{is_part_clocked};
ghost use Rattle.lb_check.specs.BrokenRules.{IsBroken};
ghost use Rattle.lb_check.specs.ClockRules.{is_clocked};
ghost use Rattle.lb_cause.specs.Correct.{IsAnswer};

use crate::cause::{FaultyPart, add_variable_names, clock_offset, faulty_part};
use crate::clock_fault::{ClockFault, ClockRule, ClockSign, SourceClock};
use crate::clock_reason::{ClockReason, clock_reason, equation_reason, of_rule, own_clock_set};
use crate::error::CheckError;
use crate::sites::{Site, StatementSite, left_offset, statement_at};
use lb_check::{
    Clock, ClockEnv, ClockSet, IllFormed, Operand, Part, declared_clock, left_operands, parameters,
    variable_of,
};
use lb_static::{Reached, ResolvedNode, ResolvedStatement, Table, VariableId};
use lb_syntax::{Name, Statement};
use std::alloc::{AllocError, Global};

/// A term that stands on no clock, or the right side of an equation that breaks a rule, and why.
#[derive(Clone, Copy)]
struct Unclocked<'t> {
    site: Site<'t>,
    reason: ClockReason,
}

/// The operands of a term. `unclocked` is the first part of it that stands on no clock, though each
/// operand of that part does, if there is one.
#[cycle(clockings)]
fn clocked_operands<'t>(
    alloc: Global,
    env: &ClockEnv,
    site: Site<'t>,
    unclocked: &mut Option<Unclocked<'t>>,
) -> Result<Vec<Operand>, AllocError> {
    let mut operands = Vec::new(alloc);
    for place in 0..usize::MAX {
        let Some(operand) = site.operand(place) else {
            break;
        };
        operands.push(Operand {
            clock_set: clocked_term(alloc, env, operand, unclocked)?,
            variable: variable_of(operand.term),
        })?;
    }
    Ok(operands)
}

/// The clocks that a term accepts: each part is looked at once.
#[cycle(clockings)]
fn clocked_term<'t>(
    alloc: Global,
    env: &ClockEnv,
    site: Site<'t>,
    unclocked: &mut Option<Unclocked<'t>>,
) -> Result<ClockSet, AllocError> {
    let operands = clocked_operands(alloc, env, site, unclocked)?;
    let clock_set = own_clock_set(env, site.term, &operands);
    if unclocked.is_none() && !clock_set.stands() {
        let reason = clock_reason(env, site.term, &operands);
        *unclocked = Some(Unclocked { site, reason });
    }
    Ok(clock_set)
}

/// The reason why a statement breaks the rules of clocks.
fn statement_reason<'t>(
    alloc: Global,
    env: &ClockEnv,
    at: StatementSite<'t>,
) -> Result<Unclocked<'t>, AllocError> {
    let site = at.right;
    let mut unclocked = None;
    let operands = clocked_operands(alloc, env, site, &mut unclocked)?;
    if let Some(unclocked) = unclocked {
        return Ok(unclocked);
    }
    let reason = match at.resolved {
        ResolvedStatement::Equation(lefts, _) => {
            let results = left_operands(alloc, env, lefts)?;
            equation_reason(env, site.term, &operands, lefts, &results)
        }
        ResolvedStatement::Assertion(_) => clock_reason(env, site.term, &operands),
    };
    Ok(Unclocked { site, reason })
}

/// The offset of what is at fault: a left variable, an operand or an argument, or a whole term.
fn fault_offset(rule: ClockRule, site: Site, statement: &Statement) -> u32 {
    match rule {
        ClockRule::Operand(count) | ClockRule::Argument(count) | ClockRule::ClockArgument(count) =>
            site.part(count.saturating_sub(1)).offset(),
        ClockRule::When | ClockRule::Current => site.part(0).offset(),
        ClockRule::Left(count) => left_offset(statement, count.saturating_sub(1)),
        ClockRule::IteratedNode | ClockRule::Interface | ClockRule::Circle => site.offset(),
    }
}

/// The offset of the sign of the operator whose operand is at fault.
fn fault_sign(rule: ClockRule, site: Site) -> Option<u32> {
    match rule {
        ClockRule::Operand(_) | ClockRule::When | ClockRule::Current => Some(site.sign_offset()),
        _ => None,
    }
}

/// A copy of the name of a variable; `names` has the names by place.
fn name_at(alloc: Global, names: &[&Name], variable: VariableId) -> Result<String, AllocError> {
    match names.get(variable.0) {
        Some(name) => String::from_str(alloc, name.as_str()),
        None => Ok(String::new(alloc)),
    }
}

/// Adds the signs on which a clock of a node rests, the last one first.
fn add_signs(
    alloc: Global,
    node: &ResolvedNode,
    names: &[&Name],
    clock: Clock,
    signs: &mut Vec<ClockSign>,
) -> Result<(), AllocError> {
    let mut above = clock;
    for _ in 0..node.variables.len() {
        let Clock::On(variable, sign) = above else {
            break;
        };
        signs.push(ClockSign {
            variable: name_at(alloc, names, variable)?,
            sign,
        })?;
        above = declared_clock(node, variable);
    }
    Ok(())
}

/// Shows a clock of a node as it is written, if there is one.
fn show(
    alloc: Global,
    node: &ResolvedNode,
    names: &[&Name],
    clock: Option<Clock>,
    shown: &mut Option<SourceClock>,
) -> Result<(), AllocError> {
    let Some(clock) = clock else {
        return Ok(());
    };
    let mut signs = Vec::new(alloc);
    add_signs(alloc, node, names, clock, &mut signs)?;
    signs.reverse();
    *shown = Some(SourceClock { signs });
    Ok(())
}

/// Shows the clock that is found and the clock that is wanted.
fn show_both(
    alloc: Global,
    node: &ResolvedNode,
    reason: ClockReason,
    found: &mut Option<SourceClock>,
    wanted: &mut Option<SourceClock>,
) -> Result<(), AllocError> {
    let mut names = Vec::new(alloc);
    add_variable_names(node.tree, &mut names)?;
    show(alloc, node, &names, reason.found, found)?;
    show(alloc, node, &names, reason.wanted, wanted)
}

/// The rule of declared clocks that the clock of a variable breaks.
fn declared_rule(node: &ResolvedNode, variable: VariableId) -> ClockRule {
    let place = variable.0;
    let interface = parameters(node).len();
    let end = if place < node.inputs {
        node.inputs
    } else {
        interface
    };
    match declared_clock(node, variable) {
        Clock::On(awaited, _) if place < interface && end <= awaited.0 => ClockRule::Interface,
        _ => ClockRule::Circle,
    }
}

/// A rule of clocks that is broken, with the offsets of what is at fault.
#[derive(Clone, Copy)]
struct PlacedReason {
    reason: ClockReason,
    offset: u32,
    sign_offset: Option<u32>,
}

/// The reason for a part that is not there.
const NO_REASON: PlacedReason = PlacedReason {
    reason: ClockReason {
        rule: ClockRule::Circle,
        found: None,
        wanted: None,
    },
    offset: 0,
    sign_offset: None,
};

/// The reason why the declared clock of a variable breaks the rules of clocks.
fn declared_reason(node: &ResolvedNode, variable: VariableId) -> PlacedReason {
    PlacedReason {
        reason: of_rule(declared_rule(node, variable)),
        offset: clock_offset(node.tree, variable),
        sign_offset: None,
    }
}

/// The reason in a statement, with the offsets of what is at fault.
fn placed_reason(found: Unclocked, statement: &Statement) -> PlacedReason {
    let rule = found.reason.rule;
    PlacedReason {
        reason: found.reason,
        offset: fault_offset(rule, found.site, statement),
        sign_offset: fault_sign(rule, found.site),
    }
}

/// The reason why a part of a node breaks the rules of clocks.
fn part_reason(alloc: Global, env: &ClockEnv, part: Part) -> Result<PlacedReason, AllocError> {
    match part {
        Part::Variable(variable) => Ok(declared_reason(env.node, variable)),
        Part::Statement(place) => match statement_at(env.node, place) {
            Some(at) => {
                let found = statement_reason(alloc, env, at)?;
                Ok(placed_reason(found, at.statement))
            }
            None => Ok(NO_REASON),
        },
    }
}

/// Adds the reason to a fault of clocks.
fn explain(
    alloc: Global,
    reached: &Reached,
    found: IllFormed,
    fault: &mut ClockFault,
) -> Result<(), AllocError>
    ensures node { OnOk result (fault.new.node ≡ fault.old.node) }
    ensures part { OnOk result (fault.new.part ≡ fault.old.part) }
{
    let Some(node) = reached.nodes.get(found.node.0) else {
        return Ok(());
    };
    let placed = part_reason(alloc, &ClockEnv { reached, node }, found.part)?;
    fault.rule = placed.reason.rule;
    fault.offset = placed.offset;
    fault.sign_offset = placed.sign_offset;
    show_both(
        alloc,
        node,
        placed.reason,
        &mut fault.found,
        &mut fault.wanted,
    )
}

/// The error that this part breaks the rules of clocks.
pub fn clock_error(
    alloc: Global,
    reached: &Reached,
    table: &Table,
    found: IllFormed,
) -> Result<CheckError, AllocError>
    ensures { (P : Program) → check_refusal P ≡ Some E10
        → IsBroken (λ here. is_clocked P here.node) (λ here. is_part_clocked P here.node) P
        reached.now found.node found.part
        → IfOk result (λ e. IsAnswer P (Err e)) }
{
    let FaultyPart {
        node,
        part,
        offset,
        path,
    } = faulty_part(alloc, reached, table, found, None)?;
    let mut fault = ClockFault {
        node,
        part,
        part_offset: offset,
        rule: ClockRule::Circle,
        offset: 0,
        sign_offset: None,
        found: None,
        wanted: None,
        path,
    };
    explain(alloc, reached, found, &mut fault)?;
    Ok(CheckError::Clock(Box::new(alloc, fault)?))
}
