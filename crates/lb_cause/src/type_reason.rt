//! The reason why a term has no type, where its operands have types (E9).

use crate::call_reason::call_reason;
use crate::compared_types::OperandTypes;
use crate::type_fault::TypeRule;
use lb_check::{TypeEnv, TypeRow};
use lb_static::{DataType, Term, VariableId};
use lb_syntax::{BinaryOperator, Kind, OperatorClass, UnaryOperator};
use std::alloc::{AllocError, Global};

/// The source of the type, or of the types, that a fault reports.
#[derive(Clone, Copy)]
pub enum Typed<'t> {
    Nothing,
    Scalar(Kind),
    Variable(VariableId),
    /// The results of a term, or the one at this place alone.
    Results(&'t Term, Option<usize>),
    /// The type at a place of a row.
    Input(TypeRow<'t>, usize),
}

/// A rule of types that is broken, and the source of the type that is wanted.
#[derive(Clone, Copy)]
pub struct TypeReason<'t> {
    pub rule: TypeRule,
    pub wanted: Typed<'t>,
}

/// The reason for a rule that is broken, where no one type would be right.
pub fn of_rule<'t>(rule: TypeRule) -> TypeReason<'t> {
    TypeReason {
        rule,
        wanted: Typed::Nothing,
    }
}

/// The reason for an operand, counted from 1, that has another type than is wanted.
fn of_operand<'t>(count: usize, wanted: Typed<'t>) -> TypeReason<'t> {
    TypeReason {
        rule: TypeRule::Operand(count),
        wanted,
    }
}

/// The reason for operands of which one is no scalar of this kind.
fn of_scalars<'t>(types: &[DataType], kind: Kind) -> TypeReason<'t> {
    for (place, found) in types.iter().enumerate() {
        if found.kind != kind || !found.sizes.is_empty() {
            return of_operand(place.saturating_add(1), Typed::Scalar(kind));
        }
    }
    of_rule(TypeRule::Length)
}

/// The reason for an operator with two operands, one of which has the wrong type.
fn of_binary<'t>(op: BinaryOperator, types: &[DataType]) -> TypeReason<'t> {
    match (op.class(), types) {
        (OperatorClass::Logical, _) => of_scalars(types, Kind::Bool),
        (OperatorClass::Order | OperatorClass::Arithmetic, _) => of_scalars(types, Kind::Int),
        (OperatorClass::Equality, [left, ..]) if left.sizes.is_empty() => {
            of_scalars(types, left.kind)
        }
        (OperatorClass::Equality, _) => of_operand(1, Typed::Nothing),
    }
}

/// The reason for a choice whose condition is no truth, or whose branches, the first of which is
/// `left`, have different types.
fn of_choice<'t>(left: &'t Term, types: &[DataType]) -> TypeReason<'t> {
    match types {
        [condition, ..] if condition.is_truth() => of_operand(3, Typed::Results(left, None)),
        _ => of_operand(1, Typed::Scalar(Kind::Bool)),
    }
}

/// The reason for an index or a slice of what is no array, or one outside the array.
fn of_index<'t>(types: &[DataType]) -> TypeReason<'t> {
    match types {
        [array] if !array.sizes.is_empty() => of_rule(TypeRule::Index),
        _ => of_operand(1, Typed::Nothing),
    }
}

/// Whether two arrays have elements of one type.
fn have_one_element(left: &DataType, right: &DataType) -> bool {
    match (left.sizes.split_last(), right.sizes.split_last()) {
        (Some((_, sizes)), Some((_, others))) => left.kind == right.kind && sizes == others,
        _ => false,
    }
}

/// The reason for a join of what is no array, or of arrays with different or too many elements.
fn of_join<'t>(types: &[DataType]) -> TypeReason<'t> {
    match types {
        [left, _] if left.sizes.is_empty() => of_operand(1, Typed::Nothing),
        [left, right] if !have_one_element(left, right) => of_operand(2, Typed::Nothing),
        _ => of_rule(TypeRule::Length),
    }
}

/// The reason for many operands of which one has not the type that is wanted, or for too few or too
/// many operands.
fn of_unfit<'t>(unfit: Option<usize>, wanted: Typed<'t>) -> TypeReason<'t> {
    match unfit {
        Some(place) => of_operand(place.saturating_add(1), wanted),
        None => of_rule(TypeRule::Length),
    }
}

/// The reason why a term that is no call has no type, where its operands have these types.
fn operand_reason<'t>(term: &'t Term, operands: &OperandTypes) -> TypeReason<'t> {
    let types = operands.kept.as_slice();
    match term {
        Term::Literal(_) | Term::Truth(_) | Term::Value(_) | Term::Variable(_) => {
            of_rule(TypeRule::Number)
        }
        Term::Unary(UnaryOperator::Negate, _) => of_scalars(types, Kind::Int),
        Term::Unary(UnaryOperator::Not, _) => of_scalars(types, Kind::Bool),
        Term::AtMostOne(_) | Term::Nor(_) => of_unfit(operands.unfit, Typed::Scalar(Kind::Bool)),
        Term::Binary(op, _, _) => of_binary(*op, types),
        Term::If(_, left, _) => of_choice(left, types),
        Term::Arrow(left, _) | Term::Fby(left, _) => of_operand(2, Typed::Results(left, None)),
        Term::When(_, _, _) => TypeReason {
            rule: TypeRule::ClockVariable,
            wanted: Typed::Scalar(Kind::Bool),
        },
        Term::Index(_, _) | Term::Slice(_, _, _) => of_index(types),
        Term::Join(_, _) => of_join(types),
        Term::Array(elements) => match elements.first() {
            Some(element) => of_unfit(operands.unfit, Typed::Results(element, None)),
            None => of_rule(TypeRule::Length),
        },
        _ => of_rule(TypeRule::Length),
    }
}

/// The reason why a term has no type, or a call not one, where its operands have these types.
pub fn type_reason<'t>(
    alloc: Global,
    env: &TypeEnv<'t, '_>,
    term: &'t Term,
    operands: &OperandTypes,
) -> Result<TypeReason<'t>, AllocError> {
    match term {
        Term::Call(_, _) | Term::IterateNode(_, _, _) | Term::IterateSymbol(_, _, _, _) => {
            call_reason(alloc, env, term, operands)
        }
        _ => Ok(operand_reason(term, operands)),
    }
}
