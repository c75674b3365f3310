//! The reason why a part of a node breaks the rules of types (E9).
//!
//! The reported part of a term is the innermost one that has no type, though each operand of it has
//! one.

ghost use Rattle.std.specs.Prelude.{◌≡◌, IfOk, OnOk};
ghost use Rattle.lb_syntax.specs.Refusals.{E9};
ghost use Rattle.lb_static.specs.Instances.{Program};
ghost use Rattle.lb_check.specs.Acceptance.{check_refusal};
ghost use Rattle.lb_check.specs.BrokenParts.{is_part_typed};
ghost use Rattle.lb_check.specs.BrokenRules.{IsBroken};
ghost use Rattle.lb_cause.specs.Correct.{IsAnswer};
ghost use Rattle.lb_check.specs.TypeRules.{is_typed};

use crate::cause::{FaultyPart, clock_offset, faulty_part};
use crate::compared_types::{OperandTypes, operand_types};
use crate::error::CheckError;
use crate::sites::{Site, StatementSite, left_offset, right_side, statement_at};
use crate::told_types::{add_results, tell, tell_one};
use crate::type_fault::{SourceType, TypeFault, TypeRule};
use crate::type_reason::{TypeReason, Typed, of_rule, type_reason};
use lb_check::{
    IllFormed, IllTyped, Part, TypeEnv, array_of, common_type, given_where, has_arity, leaf_type,
    one_type, only_given, signature_of, two_types, when_truth,
};
use lb_static::{DataType, Reached, ResolvedStatement, Table, Term, Variable, VariableId};
use lb_syntax::{Kind, Statement};
use std::alloc::{AllocError, Global};

/// The type of a call, an iterator, `#` or `nor` with these operands.
fn row_type(
    alloc: Global,
    env: &TypeEnv,
    term: &Term,
    operands: &OperandTypes,
) -> Result<Option<DataType>, AllocError> {
    let signature = signature_of(alloc, env, term, operands.count)?;
    let fits = has_arity(&signature, operands.count) && operands.unfit.is_none();
    only_given(alloc, &given_where(fits, signature.gives))
}

/// The type of a list of these elements, whose type is taken out.
fn list_type(elements: &mut OperandTypes) -> Result<Option<DataType>, AllocError> {
    match (elements.kept.pop(), elements.unfit) {
        (Some(element), None) => array_of(elements.count as u64, element),
        _ => Ok(None),
    }
}

/// The type of a term with three operands or fewer, of these types, which are taken out.
fn few_type(
    alloc: Global,
    env: &TypeEnv,
    term: &Term,
    types: &mut Vec<DataType>,
) -> Result<Option<DataType>, AllocError> {
    let Some(last) = types.pop() else {
        return leaf_type(alloc, env, term);
    };
    let Some(left) = types.pop() else {
        return one_type(alloc, env, term, last);
    };
    match types.pop() {
        Some(condition) => { Ok(when_truth(Some(condition), common_type(Some(left), Some(last)))) }
        None => two_types(alloc, term, Some(left), Some(last)),
    }
}

/// The type of a term with these operands, if it has one. The types may be taken out.
fn type_from(
    alloc: Global,
    env: &TypeEnv,
    term: &Term,
    operands: &mut OperandTypes,
) -> Result<Option<DataType>, AllocError> {
    match term {
        Term::Array(_) => list_type(operands),
        Term::AtMostOne(_)
        | Term::Nor(_)
        | Term::Call(_, _)
        | Term::IterateNode(_, _, _)
        | Term::IterateSymbol(_, _, _, _) => row_type(alloc, env, term, operands),
        _ => few_type(alloc, env, term, &mut operands.kept),
    }
}

/// Adds the types of the operands of a term, and returns whether each operand has one. Where one
/// has none, `untyped` is the first part of it that has none, though each operand of that part has
/// one.
#[cycle(typings)]
fn typed_operands<'t, 'e>(
    alloc: Global,
    env: &TypeEnv<'e, '_>,
    site: Site<'t>,
    types: &mut OperandTypes<'e>,
    untyped: &mut Site<'t>,
) -> Result<bool, AllocError> {
    for place in 0..usize::MAX {
        let Some(operand) = site.operand(place) else {
            break;
        };
        match typed_term(alloc, env, operand, untyped)? {
            Some(data_type) => types.push(data_type)?,
            None => return Ok(false),
        }
    }
    Ok(true)
}

/// The type of a term, if it has one: each part is looked at once. Where it has none, `untyped` is
/// the first part that has none, though each operand of that part has one.
#[cycle(typings)]
fn typed_term<'t, 'e>(
    alloc: Global,
    env: &TypeEnv<'e, '_>,
    site: Site<'t>,
    untyped: &mut Site<'t>,
) -> Result<Option<DataType>, AllocError> {
    let mut types = operand_types(alloc, env, site.term)?;
    if !typed_operands(alloc, env, site, &mut types, untyped)? {
        return Ok(None);
    }
    let own = type_from(alloc, env, site.term, &mut types)?;
    if own.is_none() {
        *untyped = site;
    }
    Ok(own)
}

/// A term that has no type, or the right side of a statement that breaks a rule, and why.
#[derive(Clone, Copy)]
struct Untyped<'t> {
    site: Site<'t>,
    reason: TypeReason<'t>,
}

/// The reason why a part of a term, or the term itself, has no type.
fn untyped_reason<'t>(
    alloc: Global,
    env: &TypeEnv<'t, '_>,
    whole: Site<'t>,
) -> Result<Untyped<'t>, AllocError> {
    let mut site = whole;
    typed_term(alloc, env, whole, &mut site)?;
    let mut types = operand_types(alloc, env, site.term)?;
    let mut within = site;
    typed_operands(alloc, env, site, &mut types, &mut within)?;
    let reason = type_reason(alloc, env, site.term, &types)?;
    Ok(Untyped { site, reason })
}

/// Whether a left variable has the type of its result.
fn is_like(
    alloc: Global,
    env: &TypeEnv,
    left: VariableId,
    right: Option<&SourceType>,
) -> Result<bool, AllocError> {
    match (env.variable(alloc, left)?, right) {
        (Some(declared), Some(right)) => {
            Ok(declared.kind == right.kind && declared.sizes == right.sizes)
        }
        _ => Ok(false),
    }
}

/// The reason why an equation breaks the rules whose right side has results of these types.
fn lefts_reason<'t>(
    alloc: Global,
    env: &TypeEnv,
    lefts: &[VariableId],
    rights: &[SourceType],
) -> Result<TypeReason<'t>, AllocError> {
    let (found, wanted) = (lefts.len(), rights.len());
    if found != wanted {
        return Ok(of_rule(TypeRule::LeftCount { found, wanted }));
    }
    for (place, left) in lefts.iter().enumerate() {
        if !is_like(alloc, env, *left, rights.get(place))? {
            return Ok(TypeReason {
                rule: TypeRule::Left(place.saturating_add(1)),
                wanted: Typed::Variable(*left),
            });
        }
    }
    Ok(of_rule(TypeRule::Left(1)))
}

/// The reason why a statement breaks the rules whose right side, or whose assertion, has results of
/// these types.
fn results_reason<'t>(
    alloc: Global,
    env: &TypeEnv,
    resolved: &ResolvedStatement,
    rights: &[SourceType],
) -> Result<TypeReason<'t>, AllocError> {
    match resolved {
        ResolvedStatement::Equation(lefts, _) => lefts_reason(alloc, env, lefts, rights),
        ResolvedStatement::Assertion(_) => Ok(TypeReason {
            rule: TypeRule::Assertion,
            wanted: Typed::Scalar(Kind::Bool),
        }),
    }
}

/// The reason why a statement breaks the rules of types.
fn statement_reason<'t>(
    alloc: Global,
    env: &TypeEnv<'t, '_>,
    at: StatementSite<'t>,
) -> Result<Untyped<'t>, AllocError> {
    let site = at.right;
    let mut rights = Vec::new(alloc);
    if !add_results(alloc, env, site.term, None, &mut rights)? {
        return untyped_reason(alloc, env, site);
    }
    let reason = results_reason(alloc, env, at.resolved, &rights)?;
    Ok(Untyped { site, reason })
}

/// The offset of what is at fault: a left variable, an operand or an argument, or a whole term.
fn fault_offset(rule: TypeRule, site: Site, statement: &Statement) -> u32 {
    match rule {
        TypeRule::Operand(count) | TypeRule::Argument(count) => {
            site.part(count.saturating_sub(1)).offset()
        }
        TypeRule::ClockVariable | TypeRule::Index => site.inner_offset(),
        TypeRule::Left(count) => left_offset(statement, count.saturating_sub(1)),
        TypeRule::LeftCount { .. } => left_offset(statement, 0),
        TypeRule::Assertion => right_side(statement).offset(),
        _ => site.offset(),
    }
}

/// The offset of the sign of the operator whose operand is at fault.
fn fault_sign(rule: TypeRule, site: Site) -> Option<u32> {
    match rule {
        TypeRule::Operand(_) | TypeRule::ClockVariable | TypeRule::Index => {
            Some(site.sign_offset())
        }
        _ => None,
    }
}

/// The source of the types of what is at fault.
fn fault_types<'t>(rule: TypeRule, site: Site<'t>) -> Typed<'t> {
    match (rule, site.term) {
        (TypeRule::Operand(count) | TypeRule::Argument(count), _) => {
            Typed::Results(site.part(count.saturating_sub(1)).term, None)
        }
        (TypeRule::Index, _) => Typed::Results(site.part(0).term, None),
        (TypeRule::ClockVariable, Term::When(_, x, _)) => Typed::Variable(*x),
        (TypeRule::Left(count), term) => Typed::Results(term, Some(count.saturating_sub(1))),
        (TypeRule::LeftCount { .. } | TypeRule::ResultCount | TypeRule::Assertion, term) => {
            Typed::Results(term, None)
        }
        _ => Typed::Nothing,
    }
}

/// A rule of types that is broken, with the offsets of what is at fault, the source of its types,
/// and the source of the type that is wanted.
#[derive(Clone, Copy)]
struct PlacedReason<'t> {
    rule: TypeRule,
    offset: u32,
    sign_offset: Option<u32>,
    found: Typed<'t>,
    wanted: Typed<'t>,
}

/// The reason for a part that is not there.
const NO_REASON: PlacedReason<'static> = PlacedReason {
    rule: TypeRule::Assertion,
    offset: 0,
    sign_offset: None,
    found: Typed::Nothing,
    wanted: Typed::Nothing,
};

/// The reason for a variable of a declared clock that is no truth.
fn declared_reason<'t>(env: &TypeEnv, variable: VariableId) -> PlacedReason<'t> {
    let found = match env.node.variables.get(variable.0) {
        Some(
            Variable {
                clock: Some(clock),
                ..
            },
        ) => Typed::Variable(clock.variable),
        _ => Typed::Nothing,
    };
    PlacedReason {
        rule: TypeRule::ClockVariable,
        offset: clock_offset(env.node.tree, variable),
        sign_offset: None,
        found,
        wanted: Typed::Scalar(Kind::Bool),
    }
}

/// The reason in a statement, with the offsets of what is at fault and the source of its types.
fn placed_reason<'t>(found: Untyped<'t>, statement: &Statement) -> PlacedReason<'t> {
    let rule = found.reason.rule;
    PlacedReason {
        rule,
        offset: fault_offset(rule, found.site, statement),
        sign_offset: fault_sign(rule, found.site),
        found: fault_types(rule, found.site),
        wanted: found.reason.wanted,
    }
}

/// The reason why a part of a specialization breaks the rules of types.
fn part_reason<'t>(
    alloc: Global,
    env: &TypeEnv<'t, '_>,
    part: Part,
) -> Result<PlacedReason<'t>, AllocError> {
    match part {
        Part::Variable(variable) => Ok(declared_reason(env, variable)),
        Part::Statement(place) => match statement_at(env.node, place) {
            Some(at) => {
                let found = statement_reason(alloc, env, at)?;
                Ok(placed_reason(found, at.statement))
            }
            None => Ok(NO_REASON),
        },
    }
}

/// Adds the reason to a fault of types.
fn explain(
    alloc: Global,
    reached: &Reached,
    table: &Table,
    found: IllTyped,
    fault: &mut TypeFault,
) -> Result<(), AllocError>
    ensures node { OnOk result (fault.new.node ≡ fault.old.node) }
    ensures part { OnOk result (fault.new.part ≡ fault.old.part) }
{
    let (Some(specialization), Some(node)) = (
        table.specializations.get(found.place),
        reached.nodes.get(found.node.0),
    ) else {
        return Ok(());
    };
    let env = &TypeEnv {
        reached,
        table,
        node,
        specialization,
    };
    let reason = part_reason(alloc, env, found.part)?;
    fault.rule = reason.rule;
    fault.offset = reason.offset;
    fault.sign_offset = reason.sign_offset;
    tell(alloc, env, reason.found, &mut fault.found)?;
    tell_one(alloc, env, reason.wanted, &mut fault.wanted)
}

/// The error that this part breaks the rules of types.
pub fn type_error(
    alloc: Global,
    reached: &Reached,
    table: &Table,
    found: IllTyped,
) -> Result<CheckError, AllocError>
    ensures { (P : Program) → check_refusal P ≡ Some E9
        → IsBroken (is_typed P) (is_part_typed P) P reached.now found.node found.part
        → IfOk result (λ e. IsAnswer P (Err e)) }
{
    let ill_formed = IllFormed {
        node: found.node,
        part: found.part,
    };
    let FaultyPart {
        node,
        part,
        offset,
        path,
    } = faulty_part(alloc, reached, table, ill_formed, Some(found.place))?;
    let mut fault = TypeFault {
        node,
        part,
        part_offset: offset,
        rule: TypeRule::Assertion,
        offset: 0,
        sign_offset: None,
        found: Vec::new(alloc),
        wanted: None,
        path,
    };
    explain(alloc, reached, table, found, &mut fault)?;
    Ok(CheckError::Type(Box::new(alloc, fault)?))
}
