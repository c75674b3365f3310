//! The reason why a call or an iterator has not one type, where its arguments have types (E9).

use crate::compared_types::OperandTypes;
use crate::type_fault::TypeRule;
use crate::type_reason::{TypeReason, Typed, of_rule};
use lb_check::{TypeEnv, TypeRow, signature_of};
use lb_static::Term;
use std::alloc::{AllocError, Global};

/// The reason for an argument, counted from 0, that has another type than its input, or whose input
/// has no type.
fn of_argument<'t>(
    alloc: Global,
    inputs: TypeRow<'t>,
    place: usize,
) -> Result<TypeReason<'t>, AllocError> {
    if inputs.get(alloc, place)?.is_none() {
        return Ok(of_rule(TypeRule::Length));
    }
    Ok(TypeReason {
        rule: TypeRule::Argument(place.saturating_add(1)),
        wanted: Typed::Input(inputs, place),
    })
}

/// The reason why a call or an iterator with these arguments has not one type.
pub fn call_reason<'t>(
    alloc: Global,
    env: &TypeEnv<'t, '_>,
    term: &Term,
    arguments: &OperandTypes,
) -> Result<TypeReason<'t>, AllocError> {
    let signature = signature_of(alloc, env, term, arguments.count)?;
    let inputs = signature.takes;
    let (found, wanted) = (arguments.count, inputs.len());
    if !signature.stands {
        return Ok(of_rule(TypeRule::IteratedNode));
    }
    if found != wanted {
        return Ok(of_rule(TypeRule::ArgumentCount { found, wanted }));
    }
    match arguments.unfit {
        Some(place) => of_argument(alloc, inputs, place),
        None => Ok(of_rule(TypeRule::ResultCount)),
    }
}
