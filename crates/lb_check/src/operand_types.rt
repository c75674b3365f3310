//! The types of the results of operators.

ghost use Rattle.std.specs.Prelude.{◌≡◌, pos, Some, option_map, IfOk};
ghost use Rattle.lb_syntax.specs.Lists as lists;
ghost use Rattle.lb_static.specs.StoredTypes.{view_type};
ghost use Rattle.lb_check.specs.TermSignatures as signatures;
ghost use Rattle.lb_check.specs.TermTypes as mirror;
ghost use Rattle.lb_check.specs.Types as types;

use crate::array_types;
use lb_static::DataType;
use lb_syntax::{BinaryOperator, Kind, OperatorClass, UnaryOperator};
use std::alloc::{AllocError, Global};

/// The type `given`, where the operands fit.
fn given_where(fits: bool, given: DataType) -> Option<DataType>
    ensures { option_map view_type result ≡ lists.where_true fits (view_type given) }
{
    if fits { Some(given) } else { None }
}

/// The type of a number with this value, where that is in the range of `int`.
pub fn constant_type(alloc: Global, value: i64) -> Option<DataType>
    ensures { option_map view_type result ≡ types.constant_type (Some value) }
{
    if i64::from(i32::MIN) <= value && value <= i64::from(i32::MAX) {
        Some(DataType::scalar(alloc, Kind::Int))
    } else {
        None
    }
}

/// The type of a number in the text.
pub fn literal_type(alloc: Global, number: u32) -> Option<DataType>
    ensures { option_map view_type result ≡ types.constant_type (Some (pos number)) }
{
    constant_type(alloc, i64::from(number))
}

/// The type of the result of an operator, where its operand has the type that it takes.
pub fn unary_type(alloc: Global, op: UnaryOperator, operand: DataType) -> Option<DataType>
    ensures { option_map view_type result ≡ types.unary_type op (view_type operand) }
{
    match op {
        UnaryOperator::Not => given_where(operand.is_truth(), DataType::scalar(alloc, Kind::Bool)),
        UnaryOperator::Negate => given_where(operand.is_int(), DataType::scalar(alloc, Kind::Int)),
    }
}

/// Whether both are `int`.
fn are_ints(left: &DataType, right: &DataType) -> bool
    ensures { result ≡ types.are_ints (view_type left.now) (view_type right.now) }
{
    left.is_int() && right.is_int()
}

/// Whether both are `bool`.
fn are_truths(left: &DataType, right: &DataType) -> bool
    ensures { result ≡ types.are_truths (view_type left.now) (view_type right.now) }
{
    left.is_truth() && right.is_truth()
}

/// The type of the result of an operator, where its operands have the types that it takes.
#[inline(always)]
fn binary_type(
    alloc: Global,
    op: BinaryOperator,
    left: &DataType,
    right: &DataType,
) -> Option<DataType>
    ensures { option_map view_type result
        ≡ types.binary_type op (view_type left.now) (view_type right.now) }
{
    let int = DataType::scalar(alloc, Kind::Int);
    let truth = DataType::scalar(alloc, Kind::Bool);
    match op.class() {
        OperatorClass::Arithmetic => given_where(are_ints(left, right), int),
        OperatorClass::Logical => given_where(are_truths(left, right), truth),
        OperatorClass::Equality => given_where(
            are_ints(left, right) || are_truths(left, right),
            truth,
        ),
        OperatorClass::Order => given_where(are_ints(left, right), truth),
    }
}

/// The type of the result of an operator, if its operands have types.
#[inline(always)]
pub fn of_operands(
    alloc: Global,
    op: BinaryOperator,
    left: Option<DataType>,
    right: Option<DataType>,
) -> Option<DataType>
    ensures { option_map view_type result
        ≡ mirror.when_both (option_map view_type left) (option_map view_type right)
        (types.binary_type op) }
{
    match (left, right) {
        (Some(left), Some(right)) => binary_type(alloc, op, &left, &right),
        _ => None,
    }
}

/// The type of both, if they have one.
#[inline(always)]
pub fn common_type(left: Option<DataType>, right: Option<DataType>) -> Option<DataType>
    ensures { option_map view_type result
        ≡ mirror.when_both (option_map view_type left) (option_map view_type right)
        types.common_type }
{
    let right = right?;
    if left?.equals(&right) {
        Some(right)
    } else {
        None
    }
}

/// The type of two arrays that are joined.
#[inline(always)]
pub fn joined(
    left: Option<DataType>,
    right: Option<DataType>,
) -> Result<Option<DataType>, AllocError>
    ensures { IfOk result (λ o. option_map view_type o
        ≡ mirror.when_both (option_map view_type left) (option_map view_type right)
        types.join_type) }
{
    match (left, right) {
        (Some(left), Some(right)) => array_types::join_type(left, right),
        _ => Ok(None),
    }
}

/// The type `given` under a condition, if that is a truth.
#[inline(always)]
pub fn when_truth(condition: Option<DataType>, given: Option<DataType>) -> Option<DataType>
    ensures { option_map view_type result
        ≡ mirror.when_truth (option_map view_type condition) (option_map view_type given) }
{
    if condition?.is_truth() { given } else { None }
}

/// Whether both types are there, and they are the same.
pub fn are_one(left: &Option<DataType>, right: &Option<DataType>) -> bool
    ensures { result ≡ signatures.are_one (option_map view_type left.now)
        (option_map view_type right.now) }
{
    match (left, right) {
        (Some(left), Some(right)) => left.equals(right),
        _ => false,
    }
}
