//! The clocks that a term accepts (E10), found from the operands up, together with the operands of
//! each `current` and of each call in it.
//!
//! The functions that `walk` calls itself through are inlined: a level of nesting has one frame on
//! the stack.

ghost use Rattle.std.specs.Prelude.{◌≡◌, reverse, IfOk};
ghost use Rattle.lb_check.specs.StoredClocks.{context_in};
ghost use Rattle.lb_check.specs.TermClocks as mirror;
ghost use Rattle.lb_check.specs.WalkedClocks as walked_mirror;

use crate::call_clock::variable_of;
use crate::clock_set::{ClockSet, Operand};
use crate::term_clock::{ClockEnv, row_clock_set, unary_clock_set};
use lb_static::Term;
use std::alloc::{AllocError, Global};

/// The operands in the opposite order.
fn turned(operands: Vec<Operand>) -> Vec<Operand>
    ensures { result.items ≡ reverse operands.items }
{
    let mut turned = operands;
    turned.reverse();
    turned
}

/// Adds the known operands of terms in a row, the last one first, and returns the operands for
/// them.
#[inline(always)]
#[cycle(clock_sets)]
fn walk_all(
    alloc: Global,
    env: &ClockEnv,
    terms: &[Term],
    known: &mut Vec<Operand>,
) -> Result<Vec<Operand>, AllocError>
    ensures { IfOk result (λ operands. walked_mirror.IsRowWalked (context_in env.now) terms.now
        known.old.items known.new.items operands.items) }
{
    let mut operands = Vec::new(alloc);
    for seen in 0..terms.len() {
        let term = &terms[terms.len() - 1 - seen];
        operands.push(Operand {
            clock_set: walk(alloc, env, term, known)?,
            variable: variable_of(term),
        })?;
    }
    Ok(turned(operands))
}

/// Adds the operands of each `current` and of each call in a term, against the order of the text,
/// and returns the clocks that the term accepts: on these it and its parts keep the rules of
/// clocks.
#[cycle(clock_sets)]
fn walk(
    alloc: Global,
    env: &ClockEnv,
    term: &Term,
    known: &mut Vec<Operand>,
) -> Result<ClockSet, AllocError>
    ensures { IfOk result (λ s. walked_mirror.IsWalked (context_in env.now) term.now
        known.old.items known.new.items s) }
{
    match term {
        Term::Literal(_) | Term::Truth(_) | Term::Value(_) => Ok(ClockSet::AnyClock),
        Term::Variable(x) => Ok(ClockSet::OneClock(env.variable(*x))),
        Term::Group(e)
        | Term::Unary(_, e)
        | Term::Pre(e)
        | Term::When(e, _, _)
        | Term::Replicate(e, _)
        | Term::Index(e, _)
        | Term::Slice(e, _, _) => Ok(unary_clock_set(env, term, walk(alloc, env, e, known)?)),
        Term::Current(e) => {
            let clock_set = walk(alloc, env, e, known)?;
            let variable = variable_of(e);
            known.push(Operand {
                clock_set,
                variable,
            })?;
            Ok(unary_clock_set(env, term, clock_set))
        }
        Term::Binary(_, a, b) | Term::Arrow(a, b) | Term::Fby(a, b) | Term::Join(a, b) => {
            let right = walk(alloc, env, b, known)?;
            let left = walk(alloc, env, a, known)?;
            Ok(left.both(right))
        }
        Term::If(c, a, b) => {
            let right = walk(alloc, env, b, known)?;
            let left = walk(alloc, env, a, known)?;
            let condition = walk(alloc, env, c, known)?;
            Ok(condition.both(left.both(right)))
        }
        Term::Array(terms)
        | Term::AtMostOne(terms)
        | Term::Nor(terms)
        | Term::IterateNode(_, _, terms)
        | Term::IterateSymbol(_, _, _, terms) => {
            Ok(row_clock_set(env, term, &walk_all(alloc, env, terms, known)?))
        }
        Term::Call(_, terms) => {
            let operands = walk_all(alloc, env, terms, known)?;
            let clock_set = row_clock_set(env, term, &operands);
            known.extend_from_slice(&turned(operands))?;
            Ok(clock_set)
        }
    }
}

/// The clocks that are inferred of a term, and the operands in it.
#[derive(Drop)]
pub struct Inferred {
    /// The clocks that it accepts.
    pub clock_set: ClockSet,
    /// The operands of each `current` and of each call in it, in text order: the operands of a call
    /// stand before the operands within them.
    pub operands: Vec<Operand>,
}

/// Infers the clocks that a term accepts, and the operands in it.
#[tactic(auto, using(crate::proofs::clocking::WalkedClocks::known_turned))]
pub fn infer(alloc: Global, env: &ClockEnv, term: &Term) -> Result<Inferred, AllocError>
    ensures clock_set { IfOk result (λ found. found.clock_set
        ≡ mirror.infer_clock (context_in env.now) term.now) }
    ensures operands { IfOk result (λ found. found.operands.items
        ≡ walked_mirror.known_operands (context_in env.now) term.now) }
{
    let mut operands = Vec::new(alloc);
    let clock_set = walk(alloc, env, term, &mut operands)?;
    Ok(Inferred {
        clock_set,
        operands: turned(operands),
    })
}

/// The operands that are inferred of a row of terms, and the operands in them.
pub struct InferredRow {
    /// The operands, one for each term.
    pub operands: Vec<Operand>,
    /// The operands of each `current` and of each call in the terms, in text order.
    pub within: Vec<Operand>,
}

// Not derived, so that a caller drops it in one step.
impl Drop for InferredRow {
    fn drop(self) {
        let InferredRow {
            operands: _,
            within: _,
        } = self;
    }
}

/// Infers the operands of a row of terms, and the operands in them.
#[tactic(auto, using(crate::proofs::clocking::WalkedClocks::known_turned))]
pub fn infer_row(alloc: Global, env: &ClockEnv, terms: &[Term]) -> Result<InferredRow, AllocError>
    ensures operands { IfOk result (λ found. found.operands.items
        ≡ mirror.operands_of (context_in env.now) terms.now) }
    ensures within { IfOk result (λ found. found.within.items
        ≡ walked_mirror.known_among (context_in env.now) terms.now) }
{
    let mut within = Vec::new(alloc);
    let operands = walk_all(alloc, env, terms, &mut within)?;
    Ok(InferredRow {
        operands,
        within: turned(within),
    })
}
