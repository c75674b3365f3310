//! The reason why a term stands on no clock, where its operands stand on clocks (E10), or why left
//! variables do not stand on the clocks of the results.

use crate::clock_fault::ClockRule;
use lb_check::{
    Clock, ClockEnv, ClockSet, Given, Operand, base_clock, expected, inputs_of, is_base_clocked,
    is_given, outputs_of, parameters, result_base, row_clock_set, unary_clock_set,
};
use lb_static::{ResolvedNode, Sampling, Term, Variable, VariableId};

/// A rule of clocks that is broken, the clock that is found, and the clock that is wanted.
#[derive(Clone, Copy)]
pub struct ClockReason {
    pub rule: ClockRule,
    pub found: Option<Clock>,
    pub wanted: Option<Clock>,
}

/// The reason for a rule that is broken, without clocks.
pub fn of_rule(rule: ClockRule) -> ClockReason {
    ClockReason {
        rule,
        found: None,
        wanted: None,
    }
}

/// The clock of a clock set, if it has one alone.
fn only_clock(clock_set: ClockSet) -> Option<Clock> {
    match clock_set {
        ClockSet::OneClock(clock) => Some(clock),
        ClockSet::NoClock | ClockSet::AnyClock => None,
    }
}

/// An operand of a row, counted from 1, on another clock than is wanted.
#[derive(Clone, Copy)]
struct Apart {
    count: usize,
    found: Option<Clock>,
    wanted: Option<Clock>,
}

/// The first operand of a row on another clock than those before it, which are on one of `clocks`.
fn first_apart(clocks: ClockSet, operands: &[Operand]) -> Option<Apart> {
    let mut before = clocks;
    for (place, operand) in operands.iter().enumerate() {
        let together = before.both(operand.clock_set);
        if !together.stands() {
            return Some(Apart {
                count: place.saturating_add(1),
                found: only_clock(operand.clock_set),
                wanted: only_clock(before),
            });
        }
        before = together;
    }
    None
}

/// The clock of a parameter as the caller sees it, if there is one and the caller sees it.
fn seen(base: Option<Clock>, given: &Given, parameter: Option<&Variable>) -> Option<Clock> {
    expected(base, given, parameter?.clock)
}

/// The first operand on another clock than its parameter.
fn first_unfit(
    base: Option<Clock>,
    given: &Given,
    parameters: &[Variable],
    operands: &[Operand],
) -> Option<Apart> {
    for (place, operand) in operands.iter().enumerate() {
        let wanted = seen(base, given, parameters.get(place));
        if !operand.clock_set.accepts_clock(wanted) {
            return Some(Apart {
                count: place.saturating_add(1),
                found: only_clock(operand.clock_set),
                wanted,
            });
        }
    }
    None
}

/// The reason for an operand, or an argument of an iterator, on another clock than those before it.
fn of_row(term: &Term, operands: &[Operand]) -> ClockReason {
    let Some(apart) = first_apart(ClockSet::AnyClock, operands) else {
        return of_rule(ClockRule::Operand(1));
    };
    let rule = match term {
        Term::IterateNode(_, _, _) | Term::IterateSymbol(_, _, _, _) => {
            ClockRule::Argument(apart.count)
        }
        _ => ClockRule::Operand(apart.count),
    };
    ClockReason {
        rule,
        found: apart.found,
        wanted: apart.wanted,
    }
}

/// The reason for a choice with branches on several clocks, or with its condition on another clock.
fn of_choice(term: &Term, operands: &[Operand]) -> ClockReason {
    let [condition, left, right] = operands else {
        return of_row(term, operands);
    };
    let branches = left.clock_set.both(right.clock_set);
    let (count, found, wanted) = if branches.stands() {
        (1, condition.clock_set, branches)
    } else {
        (3, right.clock_set, left.clock_set)
    };
    ClockReason {
        rule: ClockRule::Operand(count),
        found: only_clock(found),
        wanted: only_clock(wanted),
    }
}

/// The reason for an operand that cannot stand where it does: of `when`, on another clock than the
/// variable; of `current`, on the base clock or on a clock that nothing determines.
fn of_sampled(rule: ClockRule, operands: &[Operand], wanted: Option<Clock>) -> ClockReason {
    let found = match operands {
        [operand, ..] => only_clock(operand.clock_set),
        [] => None,
    };
    ClockReason {
        rule,
        found,
        wanted,
    }
}

/// The first clock of a parameter that waits for an input whose argument is no variable.
fn first_not_given(callee: &ResolvedNode, operands: &[Operand]) -> Option<Sampling> {
    for parameter in parameters(callee) {
        if !is_given(callee.inputs, operands, parameter.clock) {
            return parameter.clock;
        }
    }
    None
}

/// The reason for the arguments of a call, if one of them is wrong.
fn argument_reason(
    callee: &ResolvedNode,
    base: Option<Clock>,
    given: &Given,
    operands: &[Operand],
) -> Option<ClockReason> {
    if let Some(clock) = first_not_given(callee, operands) {
        let count = clock.variable.0.saturating_add(1);
        return Some(of_rule(ClockRule::ClockArgument(count)));
    }
    let apart = first_unfit(base, given, inputs_of(callee), operands)?;
    Some(ClockReason {
        rule: ClockRule::Argument(apart.count),
        found: apart.found,
        wanted: apart.wanted,
    })
}

/// The reason for a call within a term, of which an argument is wrong.
fn nested_reason(callee: Option<&ResolvedNode>, operands: &[Operand]) -> ClockReason {
    let Some(callee) = callee else {
        return of_rule(ClockRule::Argument(1));
    };
    let base = base_clock(callee, operands);
    match argument_reason(callee, base, &Given::Nested(operands), operands) {
        Some(reason) => reason,
        None => of_rule(ClockRule::Argument(1)),
    }
}

/// The reason why a term stands on no clock, where each of its operands stands on one.
pub fn clock_reason(env: &ClockEnv, term: &Term, operands: &[Operand]) -> ClockReason {
    match term {
        Term::When(_, x, _) => of_sampled(ClockRule::When, operands, Some(env.variable(*x))),
        Term::Current(_) => of_sampled(ClockRule::Current, operands, None),
        Term::If(_, _, _) => of_choice(term, operands),
        Term::Call(call, _) => nested_reason(env.callee(*call), operands),
        Term::IterateNode(_, call, _) => match env.callee(*call) {
            Some(callee) if is_base_clocked(callee) => of_row(term, operands),
            _ => of_rule(ClockRule::IteratedNode),
        },
        _ => of_row(term, operands),
    }
}

/// The clocks that a term with these operands accepts.
pub fn own_clock_set(env: &ClockEnv, term: &Term, operands: &[Operand]) -> ClockSet {
    match term {
        Term::Variable(x) => ClockSet::OneClock(env.variable(*x)),
        _ => unary_clock_set(env, term, row_clock_set(env, term, operands)),
    }
}

/// The reason for a left variable on another clock than its result.
fn left_reason(apart: Option<Apart>) -> ClockReason {
    match apart {
        Some(apart) => ClockReason {
            rule: ClockRule::Left(apart.count),
            found: apart.wanted,
            wanted: apart.found,
        },
        None => of_rule(ClockRule::Left(1)),
    }
}

/// The reason for a call that is a whole right side, with an argument or a result on a wrong clock.
/// The left variables also stand in `results`, as operands.
fn called_reason(
    callee: &ResolvedNode,
    operands: &[Operand],
    lefts: &[VariableId],
    results: &[Operand],
) -> ClockReason {
    let base = result_base(callee, operands, results);
    let given = &Given::Whole(callee.inputs, operands, lefts);
    match argument_reason(callee, base, given, operands) {
        Some(reason) => reason,
        None => left_reason(first_unfit(base, given, outputs_of(callee), results)),
    }
}

/// The reason why an equation breaks the rules of which the right side has these operands. The left
/// variables also stand in `results`, as operands.
pub fn equation_reason(
    env: &ClockEnv,
    term: &Term,
    operands: &[Operand],
    lefts: &[VariableId],
    results: &[Operand],
) -> ClockReason {
    if let Term::Call(call, _) = term {
        return match env.callee(*call) {
            Some(callee) => called_reason(callee, operands, lefts, results),
            None => of_rule(ClockRule::Argument(1)),
        };
    }
    let right = own_clock_set(env, term, operands);
    if right.stands() {
        left_reason(first_apart(right, results))
    } else {
        clock_reason(env, term, operands)
    }
}
