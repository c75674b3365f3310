//! The variables of a caller that stand for clock parameters of a callee.

ghost use Rattle.std.specs.Prelude.{◌≡◌, ◌+◌, ◌<◌, ◌||◌, ℕ, false, IfOk, OnOk, ◌++◌, ◌∷◌, []};
ghost use Rattle.std.specs.Prelude.{get_or, length, take};
ghost use Rattle.lb_syntax.specs.Lists.{listed};
ghost use Rattle.lb_static.specs.declared.resolved.ResolvedNode.{ResolvedNode as Node};
ghost use Rattle.lb_check.specs.PlacedClocks as placed_mirror;
ghost use Rattle.lb_check.specs.StoredClocks.{given_in};

use crate::call_clock::{Given, parameters};
use crate::clock_set::Operand;
use crate::found_clocks::GivenVariable;
use lb_static::{ResolvedNode, Sampling, VariableId};
use std::alloc::{AllocError, Global};

/// Flags the variable that a clock waits for, if it has a flag.
#[tactic(auto, using(crate::proofs::clocking::GivenVariables::flag_more, crate::proofs::clocking::GivenVariables::flag_past))]
fn flag_awaited(awaited: &mut [bool], clock: Option<Sampling>)
    ensures length_kept { length awaited.new ≡ length awaited.old }
    ensures flagged { (i : ℕ) → i < length awaited.old → get_or awaited.new i false
        ≡ (placed_mirror.waits_at i clock || get_or awaited.old i false) }
{
    if let Some(clock) = clock {
        let place = clock.variable.0;
        if place < awaited.len() {
            awaited[place] = true;
        }
    }
}

/// For each input and output of a node, whether one of them waits for it.
#[tactic(auto, using(crate::proofs::clocking::GivenVariables::waited_more))]
fn awaited_parameters(alloc: Global, node: &ResolvedNode) -> Result<Vec<bool>, AllocError>
    ensures length { IfOk result (λ awaited. length awaited.items
        ≡ length (take (node.now.inputs + node.now.outputs) node.now.variables.items)) }
    ensures flags { IfOk result (λ awaited.
        placed_mirror.AreAwaited node.now awaited.items) }
{
    let parameters = parameters(node);
    let mut awaited = vec![in alloc; false; parameters.len()]?;
    for variable in parameters {
        flag_awaited(&mut awaited, variable.clock);
    }
    Ok(awaited)
}

/// The clock parameter at this place, with the variable that stands for it; none for another one.
fn given_variable(awaited: &[bool], given: &Given, place: usize) -> Option<GivenVariable>
    requires { place < length awaited.now }
    ensures { (n : Node) → placed_mirror.AreAwaited n awaited.now →
        result ≡ placed_mirror.given_variable n (given_in given.now) place }
{
    if !awaited[place] {
        return None;
    }
    let variable = given.at(place)?;
    Some(GivenVariable {
        callee: VariableId(place),
        caller: variable,
    })
}

/// Adds a pair, if there is one.
fn add_given(pairs: &mut Vec<GivenVariable>, pair: Option<GivenVariable>) -> Result<(), AllocError>
    ensures { OnOk result (pairs.new.items ≡ pairs.old.items ++ listed (λ g. g ∷ []) pair) }
{
    match pair {
        Some(pair) => {
            pairs.push(pair)?;
            Ok(())
        }
        None => Ok(()),
    }
}

/// The clock parameters of a node, each with the variable that stands for it.
fn given_where(
    alloc: Global,
    awaited: &[bool],
    given: &Given,
) -> Result<Vec<GivenVariable>, AllocError>
    ensures { (n : Node) → placed_mirror.AreAwaited n awaited.now →
        IfOk result (λ pairs. pairs.items
        ≡ placed_mirror.given_from n (given_in given.now) 0 (length awaited.now)) }
{
    let mut pairs = Vec::new(alloc);
    for place in 0..awaited.len() {
        add_given(&mut pairs, given_variable(awaited, given, place))?;
    }
    Ok(pairs)
}

/// The variables that a call gives for the clock parameters of its callee.
pub fn given_variables(
    alloc: Global,
    callee: &ResolvedNode,
    operands: &[Operand],
    lefts: &[VariableId],
) -> Result<Vec<GivenVariable>, AllocError>
    ensures { IfOk result (λ pairs. pairs.items
        ≡ placed_mirror.given_variables callee.now operands.now lefts.now) }
{
    let awaited = awaited_parameters(alloc, callee)?;
    given_where(
        alloc,
        &awaited,
        &Given::Whole(callee.inputs, operands, lefts),
    )
}
