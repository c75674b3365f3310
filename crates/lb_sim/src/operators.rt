//! Operators of the language on holdings.

ghost use Rattle.std.specs.Prelude.{◌≡◌, ◌≢◌, ◌<◌, ◌||◌, Some, None, IfOk, IfSome, OnOk};
ghost use Rattle.lb_syntax.specs.declared.tree.Kind.{Kind};
ghost use Rattle.lb_check.specs.Scalars.{one_scalar, two_integers, two_scalars};
ghost use Rattle.lb_flat.specs.Fitting.{binary_kind, integers_kind, unary_kind};
ghost use Rattle.lb_lanes.specs.declared.int_operator.IntOperator.{IntOperator};
ghost use Rattle.lb_machine.specs.Correct.{AddsAtMost, HasRoom, IsGrown};
ghost use Rattle.lb_sim.specs.Holdings.{IsFor, IsIn, IsTruth};
ghost use Rattle.lb_sim.specs.Showing.{kind_of, operator_of, scalar_at, shown};

use crate::literal::{Literal, truth_of};
use crate::numbers::{arithmetic, negated};
use crate::place::{Holding, Value};
use crate::truths::{compared, two_truths};
use lb_lanes::IntOperator;
use lb_machine::{Code, PlaneId, PlaneOperator, WordId};
use lb_syntax::{BinaryOperator, UnaryOperator};
use std::alloc::AllocError;

// A truth value that is nil and a fault where its operands are.
fn truth(x: Literal, nil: PlaneId, bad: PlaneId) -> Holding
    ensures value { IsTruth result.value x }
    ensures nil { result.nil ≡ nil }
    ensures bad { result.bad ≡ bad }
{
    Holding {
        value: x.value(),
        nil,
        bad,
    }
}

// The operator of the lanes for an operator that gives an integer.
fn int_operator(op: BinaryOperator) -> Option<IntOperator>
    ensures some { IfSome result (λ o. op ≡ operator_of o) }
    ensures none { result ≡ None → (o : IntOperator) → op ≢ operator_of o }
{
    match op {
        BinaryOperator::Plus => Some(IntOperator::Add),
        BinaryOperator::Minus => Some(IntOperator::Sub),
        BinaryOperator::Times => Some(IntOperator::Mul),
        BinaryOperator::Divide => Some(IntOperator::Div),
        BinaryOperator::Modulo => Some(IntOperator::Rem),
        _ => None,
    }
}

// An operator on two integers, where `left` and `right` have the faults of the operands.
#[tactic(auto, using(crate::proofs::Growth::grown_then, crate::proofs::Growth::grown_none))]
fn integers(
    code: &mut Code,
    op: BinaryOperator,
    a: WordId,
    b: WordId,
    nil: PlaneId,
    left: PlaneId,
    right: PlaneId,
) -> Result<Holding, AllocError>
    requires a { a.0 < code.old.words }
    requires b { b.0 < code.old.words }
    requires nil { nil.0 < code.old.planes }
    requires left { left.0 < code.old.planes }
    requires right { right.0 < code.old.planes }
    requires room { HasRoom code.old 5 }
    ensures grown { OnOk result (IsGrown code.old code.new) }
    ensures few { OnOk result (AddsAtMost code.old code.new 5) }
    ensures within { IfOk result (IsIn code.new) }
    ensures holding { IfOk result (λ h. (kind : Kind) → integers_kind op ≡ Some kind →
        IsFor code.new kind (λ s.
        shown (s.bits left.0 || s.bits right.0) (s.bits nil.0)
        (two_integers op (s.ints a.0) (s.ints b.0))) h) }
{
    match int_operator(op) {
        Some(operator) => arithmetic(code, operator, a, b, nil, left, right),
        None => {
            let bad = code.combine(PlaneOperator::Or, left, right)?;
            let value = compared(code, op, a, b)?;
            Ok(truth(value, nil, bad))
        }
    }
}

/// An operator on two operands of kinds that it takes.
#[tactic(auto, using(crate::proofs::Growth::grown_then, crate::proofs::Growth::grown_none))]
pub(crate) fn two_holdings(
    code: &mut Code,
    op: BinaryOperator,
    a: Holding,
    b: Holding,
) -> Result<Holding, AllocError>
    requires left { IsIn code.old a }
    requires right { IsIn code.old b }
    requires room { HasRoom code.old 8 }
    ensures grown { OnOk result (IsGrown code.old code.new) }
    ensures few { OnOk result (AddsAtMost code.old code.new 8) }
    ensures within { IfOk result (IsIn code.new) }
    ensures holding { IfOk result (λ h. (kind : Kind) →
        binary_kind op (kind_of a) (kind_of b) ≡ Some kind →
        IsFor code.new kind (λ s. two_scalars op (scalar_at s a) (scalar_at s b)) h) }
{
    let nil = code.combine(PlaneOperator::Or, a.nil, b.nil)?;
    if let (Value::Number(x), Value::Number(y)) = (a.value, b.value) {
        return integers(code, op, x, y, nil, a.bad, b.bad);
    }
    let (Some(x), Some(y)) = (truth_of(a.value), truth_of(b.value)) else {
        return Ok(a);
    };
    let bad = code.combine(PlaneOperator::Or, a.bad, b.bad)?;
    let value = two_truths(code, op, x, y)?;
    Ok(truth(value, nil, bad))
}

/// An operator on one operand of a kind that it takes.
#[tactic(auto, using(crate::proofs::Growth::grown_then, crate::proofs::Growth::grown_none))]
pub(crate) fn one_holding(
    code: &mut Code,
    op: UnaryOperator,
    a: Holding,
) -> Result<Holding, AllocError>
    requires operand { IsIn code.old a }
    requires room { HasRoom code.old 2 }
    ensures grown { OnOk result (IsGrown code.old code.new) }
    ensures few { OnOk result (AddsAtMost code.old code.new 2) }
    ensures within { IfOk result (IsIn code.new) }
    ensures holding { IfOk result (λ h. (kind : Kind) → unary_kind op (kind_of a) ≡ Some kind →
        IsFor code.new kind (λ s. one_scalar op (scalar_at s a)) h) }
{
    if let (UnaryOperator::Not, Some(x)) = (op, truth_of(a.value)) {
        return Ok(truth(x.negation(), a.nil, a.bad));
    }
    match (op, a.value) {
        (UnaryOperator::Negate, Value::Number(x)) => { Ok(negated(code, x, a.nil, a.bad)?) }
        _ => Ok(a),
    }
}
