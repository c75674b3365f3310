//! The value of a static expression under the values of names.
//!
//! A number token of a tree has 32 bits and no sign, so a value may be past the range of `int`: it
//! is held in 64 bits. The result of an operator of arithmetic is an `int`, or a quotient or
//! remainder of a value that is past the range.

ghost use Rattle.std.specs.Prelude.{◌≡◌, pos, IfOk, OnErr};
ghost use Rattle.lb_syntax.specs.View.{view_static};
ghost use Rattle.lb_static.specs.Arithmetic.{arithmetic, is_divisible, lawful, negated};
ghost use Rattle.lb_static.specs.StaticRange.{IsWithinWord};
ghost use Rattle.lb_static.specs.StaticValues.{value_under, natural};

use lb_syntax::{BinaryOperator, Name, Static};
use std::marker::Model;

/// The whole number that is the value of a static expression.
///
/// It is an `int`, or a number token that is past the range of `int`, or a quotient or remainder of
/// such a number. Contracts see the number.
#[derive(Clone, Copy)]
pub struct StaticInt {
    value: i64,
}

impl Model for StaticInt {
    ghost use Rattle.std.specs.Prelude.{ℤ};
    ghost use Rattle.lb_static.specs.StaticRange.{IsWithinWord};

    ghost Value = { ℤ };

    ghost view = { λ s. s.value };

    ghost invariant = { λ s. IsWithinWord s.value };

    ghost inverse = { λ z. record { value = z } };
}

impl StaticInt {
    /// Zero.
    pub fn zero() -> StaticInt
        ensures { result ≡ pos 0 }
    {
        StaticInt { value: 0 }
    }

    /// A number that is an `int`.
    pub fn from_int(number: i32) -> StaticInt
        ensures { result ≡ number }
    {
        StaticInt {
            value: i64::from(number),
        }
    }

    /// The number.
    pub fn get(self) -> i64
        ensures value { result ≡ self }
        ensures within { IsWithinWord result }
    {
        self.value
    }

    /// The number, if it is not negative.
    pub fn natural(self) -> Option<u64>
        ensures { result ≡ natural self }
    {
        u64::try_from(self.value).ok()
    }
}

/// Values of names that are known before the run.
pub trait Values {
    ghost use Rattle.std.specs.Prelude.{ℤ, Option};
    ghost use Rattle.lb_syntax.specs.Tree.{Name};

    /// The value of a name.
    ghost given: { Self → Name → Option ℤ };

    /// The value of a name, if it has one.
    fn get(&self, name: &str) -> Option<StaticInt>
        ensures { result ≡ given self.now name.now };
}

/// An exact result, or none where it is outside the range of `int`.
fn lawful(exact: i64) -> Option<StaticInt>
    ensures { result ≡ lawful exact }
{
    if i64::from(i32::MIN) <= exact && exact <= i64::from(i32::MAX) {
        Some(StaticInt { value: exact })
    } else {
        None
    }
}

/// Whether `a` has a quotient by `b`.
fn is_divisible(a: i64, b: i64) -> bool
    ensures { result ≡ is_divisible a b }
{
    b != 0 && !(a == i64::from(i32::MIN) && b == -1)
}

/// The result of an operator of arithmetic, or none where it faults.
fn combined(op: BinaryOperator, a: StaticInt, b: StaticInt) -> Option<StaticInt>
    ensures { result ≡ arithmetic op a b }
{
    let a = a.get();
    let b = b.get();
    match op {
        BinaryOperator::Plus => lawful(a + b),
        BinaryOperator::Minus => lawful(a - b),
        BinaryOperator::Times => lawful(a.checked_mul(b)?),
        BinaryOperator::Divide if is_divisible(a, b) => Some(StaticInt { value: a / b }),
        BinaryOperator::Modulo if is_divisible(a, b) => Some(StaticInt { value: a % b }),
        _ => None,
    }
}

/// The reason why a static expression has no value.
#[derive(Clone, Copy)]
pub enum NoValue<'s> {
    /// A name without a value.
    Name(&'s Name),
    /// A `-` at this offset, whose result is outside the range of `int`.
    Negation {
        operand: i64,
        offset: u32,
    },
    /// An operator at this offset, which faults on these operands.
    Operator {
        operator: BinaryOperator,
        left: i64,
        right: i64,
        offset: u32,
    },
}

/// The result of the `-` at this offset, or the fault that it has none.
fn negated<'s>(operand: StaticInt, offset: u32) -> Result<StaticInt, NoValue<'s>>
    ensures ok { IfOk result (λ v. negated operand ≡ Some v) }
    ensures err { OnErr result (negated operand ≡ None) }
{
    let operand = operand.get();
    lawful(-operand).ok_or(NoValue::Negation { operand, offset })
}

/// The result of the operator at this offset, or the fault that it has none.
fn combined_or_fault<'s>(
    operator: BinaryOperator,
    a: StaticInt,
    b: StaticInt,
    offset: u32,
) -> Result<StaticInt, NoValue<'s>>
    ensures ok { IfOk result (λ v. arithmetic operator a b ≡ Some v) }
    ensures err { OnErr result (arithmetic operator a b ≡ None) }
{
    combined(operator, a, b).ok_or(NoValue::Operator {
        operator,
        left: a.get(),
        right: b.get(),
        offset,
    })
}

/// The value of a static expression under the values of names, or its first name or operator
/// without a value. Operands come before their operator.
pub fn value_or_fault<'s, V: Values>(
    expression: &'s Static,
    values: &V,
) -> Result<StaticInt, NoValue<'s>>
    ensures ok { IfOk result (λ v.
        value_under (V.given values.now) (view_static expression.now) ≡ Some v) }
    ensures err { OnErr result
        (value_under (V.given values.now) (view_static expression.now) ≡ None) }
{
    match expression {
        Static::Whole(n, _) => Ok(StaticInt {
            value: i64::from(*n),
        }),
        Static::Named(x) => values.get(x.as_str()).ok_or(NoValue::Name(x)),
        Static::Grouped(inner, _) => value_or_fault(inner, values),
        Static::Negated(inner, offset) => match value_or_fault(inner, values) {
            Ok(operand) => negated(operand, *offset),
            Err(fault) => Err(fault),
        },
        Static::Combined(op, left, right, offset) => match value_or_fault(left, values) {
            Ok(a) => match value_or_fault(right, values) {
                Ok(b) => combined_or_fault(*op, a, b, *offset),
                Err(fault) => Err(fault),
            },
            Err(fault) => Err(fault),
        },
    }
}

/// The value of a static expression under the values of names, or none where a name has no value or
/// an operator faults.
pub fn static_value<V: Values>(expression: &Static, values: &V) -> Option<StaticInt>
    ensures { result ≡ value_under (V.given values.now) (view_static expression.now) }
{
    match value_or_fault(expression, values) {
        Ok(value) => Some(value),
        Err(_) => None,
    }
}
