//! The clocks on which terms stand and calls run, from the clock of a term down to its operands.

ghost use Rattle.std.specs.Prelude.{◌≡◌, IfOk, OnOk, drop, slice_get};
ghost use Rattle.lb_syntax.specs.Lists.{listed};
ghost use Rattle.lb_check.specs.PlacedClocks as placed_mirror;
ghost use Rattle.lb_check.specs.StoredClocks.{context_in, given_in};
ghost use Rattle.lb_check.specs.WalkedClocks.{known_among, known_operands};

use crate::call_clock::{Given, base_clock, expected, inputs_of};
use crate::clock_set::{ClockSet, Operand};
use crate::found_clocks::{CallClock, NodeClocks};
use crate::given_variables::given_variables;
use crate::own_clock::Clock;
use crate::term_clock::ClockEnv;
use lb_static::{CallId, ResolvedNode, Term, part_of};
use std::alloc::{AllocError, Global};

/// The clock that a set determines, or the base clock where it determines none.
pub fn determined_clock(clock_set: ClockSet) -> Clock
    ensures { result ≡ placed_mirror.determined_clock clock_set }
{
    match clock_set {
        ClockSet::OneClock(clock) => clock,
        ClockSet::NoClock | ClockSet::AnyClock => Clock::Base,
    }
}

/// The clock of the operand of a term on this clock that has one operand and is not `current`.
fn operand_clock(env: &ClockEnv, clock: Clock, term: &Term) -> Clock
    ensures { result ≡ placed_mirror.operand_clock (context_in env.now) clock term.now }
{
    match term {
        Term::When(_, x, _) => env.variable(*x),
        _ => clock,
    }
}

/// The clock of the operand of `current`, which is the first known operand.
fn current_clock(known: &[Operand]) -> Clock
    ensures { result ≡ placed_mirror.current_clock known.now }
{
    match known {
        [operand, ..] => determined_clock(operand.clock_set),
        [] => Clock::Base,
    }
}

/// The known operands past the first `count`.
fn past(known: &[Operand], count: usize) -> &[Operand]
    ensures { result.now ≡ drop count known.now }
{
    &known[count.min(known.len())..]
}

/// The clocks of the arguments of a callee that runs on this clock.
pub fn argument_clocks(
    alloc: Global,
    base: Clock,
    given: &Given,
    callee: &ResolvedNode,
) -> Result<Vec<Clock>, AllocError>
    ensures { IfOk result (λ clocks.
        clocks.items ≡ placed_mirror.argument_clocks base (given_in given.now) callee.now) }
{
    let mut clocks = Vec::new(alloc);
    for input in inputs_of(callee) {
        clocks.push(expected(Some(base), given, input.clock).unwrap_or(base))?;
    }
    Ok(clocks)
}

/// The clock on which the callee of a call runs that stands on this clock.
fn call_base(clock: Clock, callee: &ResolvedNode, operands: &[Operand]) -> Clock
    ensures { result ≡ placed_mirror.call_base clock callee.now operands.now }
{
    match base_clock(callee, operands) {
        Some(base) => base,
        None => clock,
    }
}

/// The clocks of the arguments of a call that stands on this clock.
fn call_clocks(
    alloc: Global,
    env: &ClockEnv,
    clock: Clock,
    call: CallId,
    operands: &[Operand],
) -> Result<Vec<Clock>, AllocError>
    ensures { IfOk result (λ clocks. clocks.items
        ≡ placed_mirror.call_clocks (context_in env.now) clock call operands.now) }
{
    match env.callee(call) {
        Some(callee) => {
            let base = call_base(clock, callee, operands);
            argument_clocks(alloc, base, &Given::Nested(operands), callee)
        }
        None => Ok(Vec::new(alloc)),
    }
}

/// The clock and the given variables of a call within a term that stands on this clock.
fn nested_call(
    alloc: Global,
    env: &ClockEnv,
    clock: Clock,
    call: CallId,
    operands: &[Operand],
) -> Result<CallClock, AllocError>
    ensures { IfOk result (λ found. placed_mirror.call_in found
        ≡ placed_mirror.nested_call clock operands.now ((context_in env.now).callee call)) }
{
    match env.callee(call) {
        Some(callee) => Ok(CallClock {
            runs: call_base(clock, callee, operands),
            given: given_variables(alloc, callee, operands, &[])?,
        }),
        None => Ok(CallClock {
            runs: clock,
            given: Vec::new(alloc),
        }),
    }
}

/// Notes a term with a row of operands on its own clock, which may be an iterated node.
fn note_row(
    alloc: Global,
    clock: Clock,
    term: &Term,
    placed: &mut NodeClocks,
) -> Result<(), AllocError>
    ensures { OnOk result (placed_mirror.found_in placed.new
        ≡ placed_mirror.with_term (placed_mirror.found_in placed.old)
        (placed_mirror.row_term clock term.now)) }
{
    match term {
        Term::IterateNode(_, _, _) => {
            let call = CallClock {
                runs: clock,
                given: Vec::new(alloc),
            };
            placed.note_call(clock, call)
        }
        _ => placed.note(clock),
    }
}

/// Notes the clocks of terms that stand on this clock, and returns the known operands of others.
#[cycle(placing)]
fn place_all<'k>(
    alloc: Global,
    env: &ClockEnv,
    clock: Clock,
    terms: &[Term],
    known: &'k [Operand],
    placed: &mut NodeClocks,
) -> Result<&'k [Operand], AllocError>
    ensures { IfOk result (λ left. placed_mirror.IsPlaced
        (known_among (context_in env.now) terms.now)
        (placed_mirror.placed_all (context_in env.now) clock terms.now)
        (placed_mirror.found_in placed.old) (placed_mirror.found_in placed.new)
        known.now left.now) }
{
    let mut left = known;
    for term in terms {
        left = place(alloc, env, clock, term, left, placed)?;
    }
    Ok(left)
}

/// The clock at a place, if there is one.
fn clock_at(clocks: &[Clock], place: usize) -> Option<Clock>
    ensures { result ≡ slice_get clocks.now place }
{
    clocks.get(place).copied()
}

/// Notes the clocks of an argument that stands on this clock. An argument without a clock is not
/// noted; a call with the right types has none.
#[cycle(placing)]
fn place_argument<'k>(
    alloc: Global,
    env: &ClockEnv,
    clock: Option<Clock>,
    term: &Term,
    known: &'k [Operand],
    placed: &mut NodeClocks,
) -> Result<&'k [Operand], AllocError>
    ensures { IfOk result (λ left. placed_mirror.IsPlaced
        (known_operands (context_in env.now) term.now)
        (listed (λ k. placed_mirror.placed_terms (context_in env.now) k term.now) clock)
        (placed_mirror.found_in placed.old) (placed_mirror.found_in placed.new)
        known.now left.now) }
{
    match clock {
        Some(clock) => place(alloc, env, clock, term, known, placed),
        None => {
            let mut nowhere = NodeClocks::new(alloc);
            place(alloc, env, Clock::Base, term, known, &mut nowhere)
        }
    }
}

/// Notes the clocks of arguments, each of which stands on a clock of its own, and returns the known
/// operands of others.
#[inline(always)]
#[cycle(placing)]
pub fn place_each<'k>(
    alloc: Global,
    env: &ClockEnv,
    clocks: &[Clock],
    terms: &[Term],
    known: &'k [Operand],
    placed: &mut NodeClocks,
) -> Result<&'k [Operand], AllocError>
    ensures { IfOk result (λ left. placed_mirror.IsPlaced
        (known_among (context_in env.now) terms.now)
        (placed_mirror.placed_each (context_in env.now) clocks.now terms.now)
        (placed_mirror.found_in placed.old) (placed_mirror.found_in placed.new)
        known.now left.now) }
{
    let mut left = known;
    for (i, term) in terms.iter().enumerate() {
        left = place_argument(alloc, env, clock_at(clocks, i), term, left, placed)?;
    }
    Ok(left)
}

/// Notes the clocks of the parts of a term that stands on this clock, in text order, and returns
/// the known operands of others.
#[cycle(placing)]
pub fn place<'k>(
    alloc: Global,
    env: &ClockEnv,
    clock: Clock,
    term: &Term,
    known: &'k [Operand],
    placed: &mut NodeClocks,
) -> Result<&'k [Operand], AllocError>
    ensures { IfOk result (λ left. placed_mirror.IsPlaced
        (known_operands (context_in env.now) term.now)
        (placed_mirror.placed_terms (context_in env.now) clock term.now)
        (placed_mirror.found_in placed.old) (placed_mirror.found_in placed.new)
        known.now left.now) }
{
    match term {
        Term::Group(e) => place(alloc, env, clock, e, known, placed),
        Term::Literal(_) | Term::Truth(_) | Term::Value(_) | Term::Variable(_) => {
            placed.note(clock)?;
            Ok(known)
        }
        Term::Unary(_, e)
        | Term::Pre(e)
        | Term::When(e, _, _)
        | Term::Replicate(e, _)
        | Term::Index(e, _)
        | Term::Slice(e, _, _) => {
            placed.note(clock)?;
            place(
                alloc,
                env,
                operand_clock(env, clock, term),
                e,
                known,
                placed,
            )
        }
        Term::Current(e) => {
            placed.note(clock)?;
            place(alloc, env, current_clock(known), e, past(known, 1), placed)
        }
        Term::Binary(_, a, b) | Term::Arrow(a, b) | Term::Fby(a, b) | Term::Join(a, b) => {
            placed.note(clock)?;
            let right = place(alloc, env, clock, a, known, placed)?;
            place(alloc, env, clock, b, right, placed)
        }
        Term::If(c, a, b) => {
            placed.note(clock)?;
            let left = place(alloc, env, clock, c, known, placed)?;
            let right = place(alloc, env, clock, a, left, placed)?;
            place(alloc, env, clock, b, right, placed)
        }
        Term::Array(terms)
        | Term::AtMostOne(terms)
        | Term::Nor(terms)
        | Term::IterateNode(_, _, terms)
        | Term::IterateSymbol(_, _, _, terms) => {
            note_row(alloc, clock, term, placed)?;
            place_all(alloc, env, clock, terms, known, placed)
        }
        Term::Call(call, terms) => {
            let operands = part_of(known, 0, terms.len());
            let found = nested_call(alloc, env, clock, *call, operands)?;
            placed.note_call(clock, found)?;
            let clocks = call_clocks(alloc, env, clock, *call, operands)?;
            place_each(alloc, env, &clocks, terms, past(known, terms.len()), placed)
        }
    }
}
