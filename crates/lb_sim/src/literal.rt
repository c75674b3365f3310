//! Truths by a plane and a sign: a negation takes no instruction.

ghost use Rattle.std.specs.Prelude.{◌≡◌, ◌<◌, ◌&&◌, not, None, IfOk, IfSome, OnOk};
ghost use Rattle.lb_syntax.specs.declared.tree.Kind.TheVariants.{Int as Int_kind};
ghost use Rattle.lb_check.specs.Scalars.{same};
ghost use Rattle.lb_machine.specs.Correct.{AddsAtMost, HasRoom, IsGrown};
ghost use Rattle.lb_machine.specs.Meaning.{Lane};
ghost use Rattle.lb_sim.specs.Holdings.{IsTruth, IsTruthFor};
ghost use Rattle.lb_sim.specs.Showing.{truth_at, value_kind};

use crate::place::Value;
use lb_machine::{Code, PlaneId, PlaneOperator};
use std::alloc::AllocError;

/// A truth in each lane: it is true where the plane equals the sign.
#[derive(Clone, Copy)]
pub(crate) struct Literal {
    pub(crate) plane: PlaneId,
    pub(crate) sign: bool,
}

/// The truth that a value is, if it is one.
pub(crate) fn truth_of(v: Value) -> Option<Literal>
    ensures truth { IfSome result (IsTruth v) }
    ensures number { result ≡ None → value_kind v ≡ Int_kind }
{
    match v {
        Value::Truth(plane) => Some(Literal { plane, sign: true }),
        Value::Negated(plane) => Some(Literal { plane, sign: false }),
        Value::Number(_) => None,
    }
}

impl Literal {
    /// The value of this truth.
    pub(crate) fn value(self) -> Value
        ensures { IsTruth result self }
    {
        if self.sign {
            Value::Truth(self.plane)
        } else {
            Value::Negated(self.plane)
        }
    }

    /// The negation: true where this truth is false.
    pub(crate) fn negation(self) -> Literal
        ensures plane { result.plane ≡ self.plane }
        ensures truth { (s : Lane) → truth_at s result ≡ not (truth_at s self) }
    {
        Literal {
            plane: self.plane,
            sign: !self.sign,
        }
    }
}

/// The conjunction: true where both are true.
#[tactic(auto, using(crate::proofs::Growth::grown_then, crate::proofs::Growth::grown_none))]
pub(crate) fn both(code: &mut Code, a: Literal, b: Literal) -> Result<Literal, AllocError>
    requires left { a.plane.0 < code.old.planes }
    requires right { b.plane.0 < code.old.planes }
    requires room { HasRoom code.old 2 }
    ensures grown { OnOk result (IsGrown code.old code.new) }
    ensures few { OnOk result (AddsAtMost code.old code.new 2) }
    ensures truth { IfOk result (IsTruthFor code.new (λ s. truth_at s a && truth_at s b)) }
{
    match (a.sign, b.sign) {
        (true, true) => {
            let plane = code.combine(PlaneOperator::And, a.plane, b.plane)?;
            Ok(Literal { plane, sign: true })
        }
        (true, false) => {
            let plane = code.combine(PlaneOperator::AndNot, a.plane, b.plane)?;
            Ok(Literal { plane, sign: true })
        }
        (false, true) => {
            let plane = code.combine(PlaneOperator::AndNot, b.plane, a.plane)?;
            Ok(Literal { plane, sign: true })
        }
        (false, false) => {
            let plane = code.combine(PlaneOperator::Or, a.plane, b.plane)?;
            Ok(Literal { plane, sign: false })
        }
    }
}

/// The exclusive or: true where one is true and the other is not.
#[tactic(auto, using(crate::proofs::Growth::grown_then, crate::proofs::Growth::grown_none))]
pub(crate) fn differing(code: &mut Code, a: Literal, b: Literal) -> Result<Literal, AllocError>
    requires left { a.plane.0 < code.old.planes }
    requires right { b.plane.0 < code.old.planes }
    requires room { HasRoom code.old 2 }
    ensures grown { OnOk result (IsGrown code.old code.new) }
    ensures few { OnOk result (AddsAtMost code.old code.new 2) }
    ensures truth { IfOk result
        (IsTruthFor code.new (λ s. not (same (truth_at s a) (truth_at s b)))) }
{
    let plane = code.combine(PlaneOperator::Xor, a.plane, b.plane)?;
    Ok(Literal {
        plane,
        sign: a.sign == b.sign,
    })
}
