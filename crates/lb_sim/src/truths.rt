//! Operators that give truth values.

ghost use Rattle.std.specs.Prelude.{◌≡◌, ◌<◌, not, Some, IfOk, OnOk};
ghost use Rattle.lb_syntax.specs.declared.tree.Kind.TheVariants.{Bool as Bool_kind};
ghost use Rattle.lb_check.specs.Scalars.{Boolean, two_booleans, two_integers};
ghost use Rattle.lb_flat.specs.Fitting.{integers_kind, truths_kind};
ghost use Rattle.lb_machine.specs.Correct.{AddsAtMost, HasRoom, IsGrown, IsPlaneFor};
ghost use Rattle.lb_machine.specs.Listed.{listed};
ghost use Rattle.lb_machine.specs.Meaning.{Lane, HasRun};
ghost use Rattle.lb_sim.specs.Showing.{truth_at};

use crate::literal::{Literal, both, differing};
use lb_machine::{Code, Comparison, FALSE_PLANE, PlaneId, TRUE_PLANE, WordId};
use lb_syntax::BinaryOperator;
use std::alloc::AllocError;

/// A plane that is true where another is false.
pub(crate) fn not_plane(code: &mut Code, a: PlaneId) -> Result<PlaneId, AllocError>
    requires plane { a.0 < code.old.planes }
    requires room { HasRoom code.old 1 }
    ensures grown { OnOk result (IsGrown code.old code.new) }
    ensures few { OnOk result (AddsAtMost code.old code.new 1) }
    ensures plane { IfOk result (IsPlaneFor code.new (λ s. not (s.bits a.0))) }
{
    let negation = code.select(a, FALSE_PLANE, TRUE_PLANE)?;
    Ok(negation)
}

/// An operator on two truth values; an operator on integers alone gives nothing of use.
#[tactic(auto, using(crate::proofs::Growth::grown_then, crate::proofs::Growth::grown_none))]
pub(crate) fn two_truths(
    code: &mut Code,
    op: BinaryOperator,
    a: Literal,
    b: Literal,
) -> Result<Literal, AllocError>
    requires left { a.plane.0 < code.old.planes }
    requires right { b.plane.0 < code.old.planes }
    requires room { HasRoom code.old 2 }
    ensures grown { OnOk result (IsGrown code.old code.new) }
    ensures few { OnOk result (AddsAtMost code.old code.new 2) }
    ensures within { IfOk result (λ x. x.plane.0 < code.new.planes) }
    ensures means { IfOk result (λ x. truths_kind op ≡ Some Bool_kind →
        (s : Lane) → HasRun (listed code.new.instructions) s →
        Boolean (truth_at s x) ≡ two_booleans op (truth_at s a) (truth_at s b)) }
{
    match op {
        BinaryOperator::Or => {
            let neither = both(code, a.negation(), b.negation())?;
            Ok(neither.negation())
        }
        BinaryOperator::And => both(code, a, b),
        BinaryOperator::Xor | BinaryOperator::Unequal => differing(code, a, b),
        BinaryOperator::Implies => {
            let broken = both(code, a, b.negation())?;
            Ok(broken.negation())
        }
        BinaryOperator::Equal => {
            let differs = differing(code, a, b)?;
            Ok(differs.negation())
        }
        _ => Ok(a),
    }
}

/// A comparison of two integers; another operator gives nothing of use.
#[tactic(auto, using(crate::proofs::Growth::grown_then, crate::proofs::Growth::grown_none))]
pub(crate) fn compared(
    code: &mut Code,
    op: BinaryOperator,
    a: WordId,
    b: WordId,
) -> Result<Literal, AllocError>
    requires left { a.0 < code.old.words }
    requires right { b.0 < code.old.words }
    requires room { HasRoom code.old 1 }
    ensures grown { OnOk result (IsGrown code.old code.new) }
    ensures few { OnOk result (AddsAtMost code.old code.new 1) }
    ensures within { IfOk result (λ x. x.plane.0 < code.new.planes) }
    ensures means { IfOk result (λ x. integers_kind op ≡ Some Bool_kind →
        (s : Lane) → HasRun (listed code.new.instructions) s →
        Boolean (truth_at s x) ≡ two_integers op (s.ints a.0) (s.ints b.0)) }
{
    let plane = match op {
        BinaryOperator::Equal => code.compare(Comparison::Equal, a, b)?,
        BinaryOperator::Unequal => {
            let equal = code.compare(Comparison::Equal, a, b)?;
            return Ok(Literal {
                plane: equal,
                sign: false,
            });
        }
        BinaryOperator::Less => code.compare(Comparison::Below, a, b)?,
        BinaryOperator::AtMost => code.compare(Comparison::AtMost, a, b)?,
        BinaryOperator::Greater => code.compare(Comparison::Below, b, a)?,
        BinaryOperator::AtLeast => code.compare(Comparison::AtMost, b, a)?,
        _ => FALSE_PLANE,
    };
    Ok(Literal { plane, sign: true })
}
