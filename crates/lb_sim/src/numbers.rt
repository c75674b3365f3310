//! Operators that give integers, and may fault.

ghost use Rattle.std.specs.Prelude.{◌<◌, ◌||◌, IfOk, OnOk};
ghost use Rattle.lb_syntax.specs.declared.tree.Kind.TheVariants.{Int as Int_kind};
ghost use Rattle.lb_syntax.specs.declared.tree.UnaryOperator.TheVariants.{Negate};
ghost use Rattle.lb_check.specs.Scalars.{Integer, one_scalar, or_fault, two_integers};
ghost use Rattle.lb_lanes.specs.Operators.{result_of};
ghost use Rattle.lb_machine.specs.Correct.{AddsAtMost, HasRoom, IsGrown};
ghost use Rattle.lb_sim.specs.Holdings.{IsFor, IsIn};
ghost use Rattle.lb_sim.specs.Showing.{operator_of, shown};

use crate::place::{Holding, Value};
use lb_lanes::IntOperator;
use lb_machine::{Code, FALSE_PLANE, PlaneId, WordId, ZERO};
use std::alloc::AllocError;

/// An operator on two integers. Its own faults count only where no operand is nil or a fault:
/// `left` and `right` have the faults of the operands.
#[tactic(auto, using(crate::proofs::Growth::grown_then, crate::proofs::Growth::grown_none))]
pub(crate) fn two_numbers(
    code: &mut Code,
    op: IntOperator,
    a: WordId,
    b: WordId,
    nil: PlaneId,
    left: PlaneId,
    right: PlaneId,
) -> Result<Holding, AllocError>
    requires a { a.0 < code.old.words }
    requires b { b.0 < code.old.words }
    requires nil { nil.0 < code.old.planes }
    requires left { left.0 < code.old.planes }
    requires right { right.0 < code.old.planes }
    requires room { HasRoom code.old 2 }
    ensures grown { OnOk result (IsGrown code.old code.new) }
    ensures few { OnOk result (AddsAtMost code.old code.new 2) }
    ensures within { IfOk result (IsIn code.new) }
    ensures holding { IfOk result (IsFor code.new Int_kind (λ s.
        shown (s.bits left.0 || s.bits right.0) (s.bits nil.0)
        (or_fault (result_of op (s.ints a.0) (s.ints b.0))))) }
{
    let (number, faults) = code.operate(op, a, b, nil, left, right)?;
    let value = Value::Number(number);
    Ok(Holding {
        value,
        nil,
        bad: faults,
    })
}

/// An operator of the language on two integers.
pub(crate) fn arithmetic(
    code: &mut Code,
    op: IntOperator,
    a: WordId,
    b: WordId,
    nil: PlaneId,
    left: PlaneId,
    right: PlaneId,
) -> Result<Holding, AllocError>
    requires a { a.0 < code.old.words }
    requires b { b.0 < code.old.words }
    requires nil { nil.0 < code.old.planes }
    requires left { left.0 < code.old.planes }
    requires right { right.0 < code.old.planes }
    requires room { HasRoom code.old 2 }
    ensures grown { OnOk result (IsGrown code.old code.new) }
    ensures few { OnOk result (AddsAtMost code.old code.new 2) }
    ensures within { IfOk result (IsIn code.new) }
    ensures holding { IfOk result (IsFor code.new Int_kind (λ s.
        shown (s.bits left.0 || s.bits right.0) (s.bits nil.0)
        (two_integers (operator_of op) (s.ints a.0) (s.ints b.0)))) }
{
    two_numbers(code, op, a, b, nil, left, right)
}

/// `- a`
pub(crate) fn negated(
    code: &mut Code,
    a: WordId,
    nil: PlaneId,
    bad: PlaneId,
) -> Result<Holding, AllocError>
    requires operand { a.0 < code.old.words }
    requires nil { nil.0 < code.old.planes }
    requires bad { bad.0 < code.old.planes }
    requires room { HasRoom code.old 2 }
    ensures grown { OnOk result (IsGrown code.old code.new) }
    ensures few { OnOk result (AddsAtMost code.old code.new 2) }
    ensures within { IfOk result (IsIn code.new) }
    ensures holding { IfOk result (IsFor code.new Int_kind (λ s.
        one_scalar Negate (shown (s.bits bad.0) (s.bits nil.0) (Integer (s.ints a.0))))) }
{
    two_numbers(code, IntOperator::Sub, ZERO, a, nil, FALSE_PLANE, bad)
}
