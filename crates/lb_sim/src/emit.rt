//! The code of one equation.

ghost use Rattle.std.specs.Prelude.{◌≡◌, ◌<◌, Some, length, slice_get, All, IfOk, OnOk};
ghost use Rattle.std.specs.Prelude.{if◌then◌else◌};
ghost use Rattle.lb_syntax.specs.declared.tree.Kind.{Kind};
ghost use Rattle.lb_flat.specs.Run.{reads};
ghost use Rattle.lb_flat.specs.Values.{operation_of};
ghost use Rattle.lb_machine.specs.Correct.{AddsAtMost, HasRoom, IsGrown};
ghost use Rattle.lb_machine.specs.declared.code.Code.{Code};
ghost use Rattle.lb_sim.specs.Allotted.{IsFlagHolding};
ghost use Rattle.lb_sim.specs.Emitted.{IsEmitted};
ghost use Rattle.lb_sim.specs.Holdings.{IsFor, IsIn, IsPlaceIn, IsValueIn};
ghost use Rattle.lb_sim.specs.Showing.{kind_of, scalar_at};
ghost use Rattle.lb_sim.specs.States.{flag_at, holding_of};
ghost use Rattle.lb_sim.specs.declared.place.Value.{Value};

use crate::operators::{one_holding, two_holdings};
use crate::picks::{choose, pick};
use crate::place::{Holding, Place, Value};
use lb_flat::{ElementId, InputId, Operation};
use lb_machine::{Code, FALSE_PLANE, PlaneId, ZERO};
use lb_syntax::Kind;
use std::alloc::AllocError;

// The holding of an element.
fn holding(places: &[Place], a: ElementId) -> Holding
    requires { a.0 < length places.now }
    ensures holding { result ≡ holding_of places.now a.0 }
    ensures within { (code : Code) → All (IsPlaceIn code) places.now → IsIn code result }
{
    places[a.0 as usize].holding
}

// A truth that is false everywhere, or the integer 0.
fn nothing(kind: Kind) -> Holding
    ensures kind { kind_of result ≡ kind }
    ensures within { (code : Code) → IsIn code result }
{
    let value = match kind {
        Kind::Bool => Value::Truth(FALSE_PLANE),
        Kind::Int => Value::Number(ZERO),
    };
    Holding {
        value,
        nil: FALSE_PLANE,
        bad: FALSE_PLANE,
    }
}

// A holding of a kind: `h`, or a holding of nothing where `h` is of another kind.
fn of_kind(h: Holding, kind: Kind) -> Holding
    ensures kind { kind_of result ≡ kind }
    ensures same { kind_of h ≡ kind → result ≡ h }
    ensures within { (code : Code) → IsIn code h → IsIn code result }
{
    match (h.value, kind) {
        (Value::Truth(_) | Value::Negated(_), Kind::Bool) => h,
        (Value::Number(_), Kind::Int) => h,
        (Value::Truth(_) | Value::Negated(_), Kind::Int) => nothing(kind),
        (Value::Number(_), Kind::Bool) => nothing(kind),
    }
}

// The holding of input `j`, or `kept` where the signature does not have it.
fn input(inputs: &[Value], j: InputId, kept: Holding) -> Holding
    ensures holding { (v : Value) → slice_get inputs.now j.0 ≡ Some v →
        result ≡ record { value = v; nil = record { 0 = 0 }; bad = record { 0 = 0 } } }
    ensures within { (code : Code) → All (IsValueIn code) inputs.now → IsIn code kept →
        IsIn code result }
{
    let j = j.0 as usize;
    if j < inputs.len() {
        return Holding {
            value: inputs[j],
            nil: FALSE_PLANE,
            bad: FALSE_PLANE,
        };
    }
    kept
}

// `->`: the second operand where the first tick is over.
fn first_then(code: &mut Code, kept: Holding, a: Holding, b: Holding) -> Result<Holding, AllocError>
    requires kept { IsIn code.old kept }
    requires left { IsIn code.old a }
    requires right { IsIn code.old b }
    requires room { HasRoom code.old 4 }
    ensures grown { OnOk result (IsGrown code.old code.new) }
    ensures few { OnOk result (AddsAtMost code.old code.new 4) }
    ensures within { IfOk result (IsIn code.new) }
    ensures holding { IfOk result (λ h. IsFlagHolding kept → kind_of b ≡ kind_of a →
        IsFor code.new (kind_of b)
        (λ s. if flag_at s kept then scalar_at s b else scalar_at s a) h) }
{
    let Value::Truth(started) = kept.value else {
        return Ok(kept);
    };
    let picked = pick(code, started, b, a)?;
    Ok(picked)
}

// The result of an operation whose operands have their places. The result of a constant is known
// before.
#[tactic(auto, using(crate::proofs::Growth::grown_then, crate::proofs::Growth::grown_none))]
fn emit_any(
    code: &mut Code,
    places: &[Place],
    inputs: &[Value],
    constant: Holding,
    kept: Holding,
    operation: Operation,
) -> Result<Holding, AllocError>
    requires operands { All (λ i. i < length places.now) (reads (operation_of operation)) }
    requires places { All (IsPlaceIn code.old) places.now }
    requires inputs { All (IsValueIn code.old) inputs.now }
    requires constant { IsIn code.old constant }
    requires kept { IsIn code.old kept }
    requires room { HasRoom code.old 10 }
    ensures grown { OnOk result (IsGrown code.old code.new) }
    ensures few { OnOk result (AddsAtMost code.old code.new 10) }
    ensures within { IfOk result (IsIn code.new) }
    ensures emitted { IfOk result (λ h. (kind : Kind) →
        IsEmitted code.new places.now inputs.now constant kept (operation_of operation) kind h) }
{
    match operation {
        Operation::Input(j) => Ok(input(inputs, j, kept)),
        Operation::Constant(_) => Ok(constant),
        Operation::Copy(a) | Operation::Sample(a) => Ok(holding(places, a)),
        Operation::ApplyUnary(op, a) => one_holding(code, op, holding(places, a)),
        Operation::ApplyBinary(op, a, b) => {
            two_holdings(code, op, holding(places, a), holding(places, b))
        }
        Operation::Choose(c, a, b) => {
            let condition = holding(places, c);
            choose(code, condition, holding(places, a), holding(places, b))
        }
        Operation::FirstThen(_, a, b) => {
            first_then(code, kept, holding(places, a), holding(places, b))
        }
        Operation::Previous(_, _) => Ok(kept),
        Operation::Latest(_, a) => {
            let place = places[a.0 as usize];
            pick(code, place.present, place.holding, kept)
        }
    }
}

/// The result of an equation whose operands have their places. It always has the kind of its
/// element.
pub(crate) fn emit(
    code: &mut Code,
    places: &[Place],
    inputs: &[Value],
    constant: Holding,
    kept: Holding,
    operation: Operation,
    kind: Kind,
) -> Result<Holding, AllocError>
    requires operands { All (λ i. i < length places.now) (reads (operation_of operation)) }
    requires places { All (IsPlaceIn code.old) places.now }
    requires inputs { All (IsValueIn code.old) inputs.now }
    requires constant { IsIn code.old constant }
    requires kept { IsIn code.old kept }
    requires room { HasRoom code.old 10 }
    ensures grown { OnOk result (IsGrown code.old code.new) }
    ensures few { OnOk result (AddsAtMost code.old code.new 10) }
    ensures within { IfOk result (IsIn code.new) }
    ensures kind { IfOk result (λ h. kind_of h ≡ kind) }
    ensures emitted { IfOk result
        (IsEmitted code.new places.now inputs.now constant kept (operation_of operation) kind) }
{
    let any = emit_any(code, places, inputs, constant, kept, operation)?;
    Ok(of_kind(any, kind))
}
