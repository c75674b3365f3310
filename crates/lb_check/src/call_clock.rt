//! The clocks on which calls stand (E10).

ghost use Rattle.std.specs.Prelude.{◌≡◌, ◌+◌, ◌∷◌, [], List, take, drop, IfOk};
ghost use Rattle.lb_static.specs.declared.resolved.VariableId as named;
ghost use Rattle.lb_check.specs.CallClocks as variables;
ghost use Rattle.lb_check.specs.StoredClocks.{clocks_of, context_in, given_in};
ghost use Rattle.lb_check.specs.TermClocks as mirror;

use crate::clock_set::{ClockSet, Operand};
use crate::own_clock::Clock;
use crate::term_clock::ClockEnv;
use lb_static::{ResolvedNode, Sampling, Term, Variable, VariableId, part_of};
use std::alloc::{AllocError, Global};

/// The variable of a term that is a variable, in parentheses or not.
#[tactic(auto, unfolding(crate::specs::CallClocks::variable_of))]
pub fn variable_of(term: &Term) -> Option<VariableId>
    ensures { result ≡ variables.variable_of term.now }
{
    match term {
        Term::Variable(x) => Some(*x),
        Term::Group(inner) => variable_of(inner),
        _ => None,
    }
}

/// The variables of the caller that stand for variables of a callee.
#[derive(Clone, Copy)]
pub enum Given<'a> {
    /// The operands of a call within a term.
    Nested(&'a [Operand]),
    /// The operands of a call that is a whole right side, for this number of inputs, and the left
    /// variables for the outputs.
    Whole(usize, &'a [Operand], &'a [VariableId]),
}

/// The variable of the operand at a place, if it is a variable.
fn given_at(operands: &[Operand], place: usize) -> Option<VariableId>
    ensures { result ≡ mirror.given_at operands.now place }
{
    operands.get(place)?.variable
}

impl Given<'_> {
    /// The variable of the caller that stands for the variable of the callee at a place.
    pub fn at(&self, place: usize) -> Option<VariableId>
        ensures { result ≡ given_in self.now place }
    {
        match *self {
            Given::Nested(operands) => given_at(operands, place),
            Given::Whole(inputs, operands, lefts) => {
                if place < inputs {
                    given_at(operands, place)
                } else {
                    lefts.get(place - inputs).copied()
                }
            }
        }
    }
}

/// The variables of a node from place `first` on: `count`, or as many as there are.
fn variables_from<'t>(node: &'t ResolvedNode, first: usize, count: usize) -> &'t [Variable]
    ensures { result.now ≡ take count (drop first node.now.variables.items) }
{
    part_of(&node.variables, first, count)
}

/// The inputs and outputs of a node.
pub fn parameters<'t>(node: &'t ResolvedNode) -> &'t [Variable]
    ensures { result.now ≡ take (node.now.inputs + node.now.outputs) node.now.variables.items }
{
    let variables = node.variables.as_slice();
    if variables.len() <= node.inputs || variables.len() - node.inputs <= node.outputs {
        variables
    } else {
        &variables[..node.inputs + node.outputs]
    }
}

/// Whether the variable that a clock waits for, if it is one of the first `inputs`, is given a
/// variable.
pub fn is_given(inputs: usize, operands: &[Operand], clock: Option<Sampling>) -> bool
    ensures { result ≡ mirror.is_given inputs operands.now clock }
{
    match clock {
        Some(clock) => {
            let place = clock.variable.0;
            place >= inputs || given_at(operands, place).is_some()
        }
        None => true,
    }
}

/// Whether a call gives a variable for each input of its callee that is the clock variable of a
/// parameter.
pub fn are_given(callee: &ResolvedNode, operands: &[Operand]) -> bool
    ensures { result ≡ mirror.are_given callee.now operands.now }
{
    for variable in parameters(callee) {
        if !is_given(callee.inputs, operands, variable.clock) {
            return false;
        }
    }
    true
}

/// The base clock of a callee, if an operand determines it: the operand stands on one clock alone,
/// and its parameter is on the base clock.
fn determined(clock: Option<Sampling>, clock_set: ClockSet) -> Option<Clock>
    ensures { result ≡ mirror.base_of (clock ∷ []) (clock_set ∷ []) }
{
    match (clock, clock_set) {
        (None, ClockSet::OneClock(own)) => Some(own),
        _ => None,
    }
}

/// The base clock of a callee: that of the first operand that determines one.
#[tactic(auto, using(crate::proofs::clocking::ClockSetRows::beside))]
fn base_of(parameters: &[Variable], operands: &[Operand]) -> Option<Clock>
    ensures { result ≡ mirror.base_of (clocks_of parameters.now) (mirror.clock_sets operands.now) }
{
    for i in 0..parameters.len() {
        if operands.len() <= i {
            return None;
        }
        if let Some(base) = determined(parameters[i].clock, operands[i].clock_set) {
            return Some(base);
        }
    }
    None
}

/// The clock of a parameter as the caller sees it, if it sees one: the clock on which the callee
/// runs, or one on which the variable that the caller gives for the clock variable has a sign.
pub fn expected(base: Option<Clock>, given: &Given, clock: Option<Sampling>) -> Option<Clock>
    ensures { result ≡ mirror.expected base (given_in given.now) clock }
{
    match clock {
        Some(clock) => {
            let variable = given.at(clock.variable.0)?;
            Some(Clock::On(variable, clock.sign))
        }
        None => base,
    }
}

/// The inputs of a node.
pub fn inputs_of<'t>(node: &'t ResolvedNode) -> &'t [Variable]
    ensures { result.now ≡ take node.now.inputs node.now.variables.items }
{
    variables_from(node, 0, node.inputs)
}

/// The outputs of a node.
pub fn outputs_of<'t>(node: &'t ResolvedNode) -> &'t [Variable]
    ensures { result.now ≡ take node.now.outputs (drop node.now.inputs node.now.variables.items) }
{
    variables_from(node, node.inputs, node.outputs)
}

/// The base clock of a callee, if its operands determine it.
pub fn base_clock(callee: &ResolvedNode, operands: &[Operand]) -> Option<Clock>
    ensures { result ≡ mirror.base_of (mirror.input_clocks callee.now)
        (mirror.clock_sets operands.now) }
{
    base_of(inputs_of(callee), operands)
}

/// Whether each operand may stand on the clock of its parameter.
#[tactic(auto, using(crate::proofs::clocking::ClockSetRows::beside))]
fn all_fit(
    base: Option<Clock>,
    given: &Given,
    parameters: &[Variable],
    operands: &[Operand],
) -> bool
    ensures { result ≡ mirror.all_fit base (given_in given.now) (clocks_of parameters.now)
        (mirror.clock_sets operands.now) }
{
    for i in 0..parameters.len() {
        if operands.len() <= i {
            return true;
        }
        let clock = expected(base, given, parameters[i].clock);
        if !operands[i].clock_set.accepts_clock(clock) {
            return false;
        }
    }
    true
}

/// The clocks that the first result of a callee accepts.
fn first_result(base: Option<Clock>, given: &Given, outputs: &[Variable]) -> ClockSet
    ensures { result ≡ mirror.first_result base (given_in given.now) (clocks_of outputs.now) }
{
    let clock = match outputs {
        [first, ..] => expected(base, given, first.clock),
        [] => base,
    };
    match clock {
        Some(clock) => ClockSet::OneClock(clock),
        None => ClockSet::AnyClock,
    }
}

/// The clocks that a call with one result accepts.
pub fn call_clock_set(callee: &ResolvedNode, operands: &[Operand]) -> ClockSet
    ensures { result ≡ mirror.call_clock_set callee.now operands.now }
{
    let inputs = variables_from(callee, 0, callee.inputs);
    let base = base_of(inputs, operands);
    let given = &Given::Nested(operands);
    if are_given(callee, operands) && all_fit(base, given, inputs, operands) {
        let outputs = variables_from(callee, callee.inputs, callee.outputs);
        first_result(base, given, outputs)
    } else {
        ClockSet::NoClock
    }
}

/// Whether no parameter of a node has a clock of its own.
pub fn is_base_clocked(node: &ResolvedNode) -> bool
    ensures { result ≡ mirror.is_base_clocked node.now }
{
    for variable in parameters(node) {
        if variable.clock.is_some() {
            return false;
        }
    }
    true
}

/// Left variables as operands: each stands on its declared clock alone.
pub fn left_operands(
    alloc: Global,
    env: &ClockEnv,
    lefts: &[VariableId],
) -> Result<Vec<Operand>, AllocError>
    ensures { IfOk result (λ results.
        mirror.clock_sets results.items ≡ mirror.left_clock_sets (context_in env.now) lefts.now) }
{
    let mut results = Vec::new(alloc);
    for left in lefts {
        results.push(Operand {
            clock_set: ClockSet::OneClock(env.variable(*left)),
            variable: Some(*left),
        })?;
    }
    Ok(results)
}

/// The base clock of a callee whose results are those of an equation: the first that the results,
/// or else the operands, determine.
pub fn result_base(
    callee: &ResolvedNode,
    operands: &[Operand],
    results: &[Operand],
) -> Option<Clock>
    ensures { (ctx : mirror.Context) (lefts : List named.VariableId) →
        mirror.clock_sets results.now ≡ mirror.left_clock_sets ctx lefts →
        result ≡ mirror.result_base ctx callee.now operands.now lefts }
{
    if results.is_empty() {
        return Some(Clock::Base);
    }
    let outputs = variables_from(callee, callee.inputs, callee.outputs);
    match base_of(outputs, results) {
        Some(clock) => Some(clock),
        None => base_of(variables_from(callee, 0, callee.inputs), operands),
    }
}

/// Whether the operands of a call that is a whole right side, and the left variables as its
/// results, stand on the clocks of the parameters, where the callee runs on `base`. The left
/// variables also stand in `results`, as operands.
pub fn is_call_clocked(
    callee: &ResolvedNode,
    base: Option<Clock>,
    operands: &[Operand],
    lefts: &[VariableId],
    results: &[Operand],
) -> bool
    ensures { (ctx : mirror.Context) →
        mirror.clock_sets results.now ≡ mirror.left_clock_sets ctx lefts.now →
        base ≡ mirror.result_base ctx callee.now operands.now lefts.now →
        result ≡ mirror.is_call_clocked ctx callee.now operands.now lefts.now }
{
    if lefts.len() != callee.outputs || !are_given(callee, operands) {
        return false;
    }
    let given = &Given::Whole(callee.inputs, operands, lefts);
    all_fit(base, given, inputs_of(callee), operands)
        && all_fit(base, given, outputs_of(callee), results)
}
