//! Choices between holdings, and the planes of clocks.

ghost use Rattle.std.specs.Prelude.{◌≡◌, ◌<◌, ◌&&◌, false, IfOk, OnOk, if◌then◌else◌};
ghost use Rattle.lb_check.specs.Scalars.{chosen, same};
ghost use Rattle.lb_check.specs.Streams.{shows};
ghost use Rattle.lb_machine.specs.Correct.{AddsAtMost, HasRoom, IsGrown, IsPlaneFor};
ghost use Rattle.lb_machine.specs.Listed.{listed};
ghost use Rattle.lb_machine.specs.Meaning.{Lane, HasRun};
ghost use Rattle.lb_machine.specs.declared.code.Code.{Code};
ghost use Rattle.lb_sim.specs.Holdings.{IsFor, IsIn, IsPlaceIn, IsTruthFor, IsValueFor, IsValueIn};
ghost use Rattle.lb_sim.specs.Showing.{cell_at, kind_of, scalar_at, truth_at, value_at, value_kind};

use crate::literal::{Literal, truth_of};
use crate::place::{Holding, Place, Value};
use crate::truths::not_plane;
use lb_machine::{Code, FALSE_PLANE, PlaneId, PlaneOperator, TRUE_PLANE};
use std::alloc::AllocError;

// Whether a plane is the same in each lane.
fn is_constant(p: PlaneId) -> bool {
    p.0 == FALSE_PLANE.0 || p.0 == TRUE_PLANE.0
}

// The choice of a mask between two truths of one sign.
#[tactic(auto, using(crate::proofs::Growth::grown_then, crate::proofs::Growth::grown_none))]
fn pick_same(
    code: &mut Code,
    mask: PlaneId,
    x: PlaneId,
    y: PlaneId,
    sign: bool,
) -> Result<Literal, AllocError>
    requires mask { mask.0 < code.old.planes }
    requires left { x.0 < code.old.planes }
    requires right { y.0 < code.old.planes }
    requires room { HasRoom code.old 1 }
    ensures grown { OnOk result (IsGrown code.old code.new) }
    ensures few { OnOk result (AddsAtMost code.old code.new 1) }
    ensures truth { IfOk result (IsTruthFor code.new
        (λ s. if s.bits mask.0 then same sign (s.bits x.0) else same sign (s.bits y.0))) }
{
    let plane = code.select(mask, x, y)?;
    Ok(Literal { plane, sign })
}

// The choice of a mask between two truths. Where the signs differ, one plane is inverted: that of a
// constant, which takes no instruction, or else that of the truth with the sign `false`.
#[tactic(auto, using(crate::proofs::Growth::grown_then, crate::proofs::Growth::grown_none))]
fn pick_truth(code: &mut Code, mask: PlaneId, x: Literal, y: Literal) -> Result<Literal, AllocError>
    requires mask { mask.0 < code.old.planes }
    requires left { x.plane.0 < code.old.planes }
    requires right { y.plane.0 < code.old.planes }
    requires room { HasRoom code.old 2 }
    ensures grown { OnOk result (IsGrown code.old code.new) }
    ensures few { OnOk result (AddsAtMost code.old code.new 2) }
    ensures truth { IfOk result (IsTruthFor code.new
        (λ s. if s.bits mask.0 then truth_at s x else truth_at s y)) }
{
    if mask.0 == TRUE_PLANE.0 {
        return Ok(x);
    }
    if x.sign == y.sign {
        return pick_same(code, mask, x.plane, y.plane, x.sign);
    }
    if is_constant(x.plane) || (!x.sign && !is_constant(y.plane)) {
        let other = not_plane(code, x.plane)?;
        return pick_same(code, mask, other, y.plane, y.sign);
    }
    let other = not_plane(code, y.plane)?;
    pick_same(code, mask, x.plane, other, x.sign)
}

// The choice of a mask between two values of a kind.
#[tactic(auto, using(crate::proofs::Growth::grown_then, crate::proofs::Growth::grown_none))]
fn pick_value(code: &mut Code, mask: PlaneId, a: Value, b: Value) -> Result<Value, AllocError>
    requires mask { mask.0 < code.old.planes }
    requires left { IsValueIn code.old a }
    requires right { IsValueIn code.old b }
    requires room { HasRoom code.old 2 }
    ensures grown { OnOk result (IsGrown code.old code.new) }
    ensures few { OnOk result (AddsAtMost code.old code.new 2) }
    ensures within { IfOk result (IsValueIn code.new) }
    ensures value { IfOk result (λ v. value_kind a ≡ value_kind b →
        IsValueFor code.new (value_kind a)
        (λ s. if s.bits mask.0 then value_at s a else value_at s b) v) }
{
    if let (Value::Number(x), Value::Number(y)) = (a, b) {
        return Ok(Value::Number(code.blend(mask, x, y)?));
    }
    let (Some(x), Some(y)) = (truth_of(a), truth_of(b)) else {
        return Ok(a);
    };
    let picked = pick_truth(code, mask, x, y)?;
    Ok(picked.value())
}

/// The choice of a mask between two holdings of a kind.
#[tactic(auto, using(crate::proofs::Growth::grown_then, crate::proofs::Growth::grown_none))]
pub(crate) fn pick(
    code: &mut Code,
    mask: PlaneId,
    a: Holding,
    b: Holding,
) -> Result<Holding, AllocError>
    requires mask { mask.0 < code.old.planes }
    requires left { IsIn code.old a }
    requires right { IsIn code.old b }
    requires room { HasRoom code.old 4 }
    ensures grown { OnOk result (IsGrown code.old code.new) }
    ensures few { OnOk result (AddsAtMost code.old code.new 4) }
    ensures within { IfOk result (IsIn code.new) }
    ensures holding { IfOk result (λ h. kind_of a ≡ kind_of b →
        IsFor code.new (kind_of a)
        (λ s. if s.bits mask.0 then scalar_at s a else scalar_at s b) h) }
{
    let value = pick_value(code, mask, a.value, b.value)?;
    let nil = code.select(mask, a.nil, b.nil)?;
    let bad = code.select(mask, a.bad, b.bad)?;
    Ok(Holding { value, nil, bad })
}

// The choice of a truth between two holdings of a kind.
fn pick_by(code: &mut Code, mask: Literal, a: Holding, b: Holding) -> Result<Holding, AllocError>
    requires mask { mask.plane.0 < code.old.planes }
    requires left { IsIn code.old a }
    requires right { IsIn code.old b }
    requires room { HasRoom code.old 4 }
    ensures grown { OnOk result (IsGrown code.old code.new) }
    ensures few { OnOk result (AddsAtMost code.old code.new 4) }
    ensures within { IfOk result (IsIn code.new) }
    ensures holding { IfOk result (λ h. kind_of a ≡ kind_of b →
        IsFor code.new (kind_of a)
        (λ s. if truth_at s mask then scalar_at s a else scalar_at s b) h) }
{
    if mask.sign {
        pick(code, mask.plane, a, b)
    } else {
        pick(code, mask.plane, b, a)
    }
}

// A holding without its faults, where they are within the plane `bad`.
fn without_faults(code: &Code, h: Holding, bad: PlaneId) -> Holding
    ensures kind { kind_of result ≡ kind_of h }
    ensures within { (code : Code) → IsIn code h → IsIn code result }
    ensures same { (s : Lane) → HasRun (listed code.now.instructions) s
        → s.bits bad.0 ≡ false → scalar_at s result ≡ scalar_at s h }
{
    if h.bad.0 != bad.0 && !code.is_within(h.bad, bad) {
        return h;
    }
    Holding {
        value: h.value,
        nil: h.nil,
        bad: FALSE_PLANE,
    }
}

// The choice of a condition between two holdings of a kind, whatever planes hold their faults.
#[tactic(auto, using(crate::proofs::Growth::grown_then, crate::proofs::Growth::grown_none))]
fn choose_any(
    code: &mut Code,
    condition: Holding,
    a: Holding,
    b: Holding,
) -> Result<Holding, AllocError>
    requires condition { IsIn code.old condition }
    requires left { IsIn code.old a }
    requires right { IsIn code.old b }
    requires room { HasRoom code.old 10 }
    ensures grown { OnOk result (IsGrown code.old code.new) }
    ensures few { OnOk result (AddsAtMost code.old code.new 10) }
    ensures within { IfOk result (IsIn code.new) }
    ensures holding { IfOk result (λ h. kind_of a ≡ kind_of b →
        IsFor code.new (kind_of a)
        (λ s. chosen (scalar_at s condition) (scalar_at s a) (scalar_at s b)) h) }
{
    let Some(mask) = truth_of(condition.value) else {
        let lost = not_plane(code, condition.nil)?;
        let bad = code.combine(PlaneOperator::Or, condition.bad, lost)?;
        return Ok(Holding {
            value: a.value,
            nil: condition.nil,
            bad,
        });
    };
    let picked = pick_by(code, mask, a, b)?;
    let nil = code.combine(PlaneOperator::Or, condition.nil, picked.nil)?;
    let counts = code.combine(PlaneOperator::AndNot, picked.bad, condition.nil)?;
    let bad = code.combine(PlaneOperator::Or, condition.bad, counts)?;
    Ok(Holding {
        value: picked.value,
        nil,
        bad,
    })
}

/// `if`: the choice of a condition between two holdings of a kind. The other one may be faulty or
/// nil. The result is nil where the condition is. Faults of the condition count in any case, and
/// are not looked for in the two.
pub(crate) fn choose(
    code: &mut Code,
    condition: Holding,
    a: Holding,
    b: Holding,
) -> Result<Holding, AllocError>
    requires condition { IsIn code.old condition }
    requires left { IsIn code.old a }
    requires right { IsIn code.old b }
    requires room { HasRoom code.old 10 }
    ensures grown { OnOk result (IsGrown code.old code.new) }
    ensures few { OnOk result (AddsAtMost code.old code.new 10) }
    ensures within { IfOk result (IsIn code.new) }
    ensures holding { IfOk result (λ h. kind_of a ≡ kind_of b →
        IsFor code.new (kind_of a)
        (λ s. chosen (scalar_at s condition) (scalar_at s a) (scalar_at s b)) h) }
{
    let left = without_faults(code, a, condition.bad);
    let right = without_faults(code, b, condition.bad);
    choose_any(code, condition, left, right)
}

/// The plane of the lanes of `above` in which a place shows a sign.
#[tactic(auto, using(crate::proofs::Growth::grown_then, crate::proofs::Growth::grown_none))]
pub(crate) fn sign_plane(
    code: &mut Code,
    above: PlaneId,
    sign: bool,
    place: Place,
) -> Result<PlaneId, AllocError>
    requires above { above.0 < code.old.planes }
    requires place { IsPlaceIn code.old place }
    requires room { HasRoom code.old 10 }
    ensures grown { OnOk result (IsGrown code.old code.new) }
    ensures few { OnOk result (AddsAtMost code.old code.new 10) }
    ensures plane { IfOk result (IsPlaneFor code.new
        (λ s. s.bits above.0 && shows sign (cell_at s place))) }
{
    let Some(value) = truth_of(place.holding.value) else {
        return Ok(FALSE_PLANE);
    };
    let there = code.combine(PlaneOperator::And, above, place.present)?;
    let known = code.combine(PlaneOperator::AndNot, there, place.holding.nil)?;
    let sound = code.combine(PlaneOperator::AndNot, known, place.holding.bad)?;
    if sign == value.sign {
        code.combine(PlaneOperator::And, sound, value.plane)
    } else {
        code.combine(PlaneOperator::AndNot, sound, value.plane)
    }
}
