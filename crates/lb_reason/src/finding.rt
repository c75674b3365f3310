//! The reason why a trace does not pass: an element that decides its verdict, and what decides that
//! element.

ghost use Rattle.std.specs.Prelude.{◌≡◌, ◌<◌, [], IfOk, length, option_map};
ghost use Rattle.std.specs.List.{range_with_len};
ghost use Rattle.lb_flat.specs.Correct.{IsVerdictOf};
ghost use Rattle.lb_flat.specs.Judging.{named_elements, truth_elements};
ghost use Rattle.lb_flat.specs.Programs.{numbers_of, program_of};
ghost use Rattle.lb_reason.specs.Deciding as spec;
ghost use Rattle.lb_reason.specs.Moments.{program_now, row_now};
ghost use Rattle.lb_reason.specs.Reasons.{AreReasons, AreStepsNow, first_place, instant_of};
ghost use Rattle.lb_reason.specs.Tests.{number, passes};

use crate::deciding::{Test, chain};
use crate::moment::Moment;
use lb_check::Verdict;
use lb_flat::{ElementId, FlatProgram, Ordered, eval_trace};
use lb_history::Cell;
use lb_traces::TraceSet;
use std::alloc::{AllocError, Global};

/// An element, and its cell.
#[derive(Clone, Copy)]
pub struct Step {
    pub element: ElementId,
    pub cell: Cell,
}

/// The reason why a trace does not pass.
pub struct Reason<'a> {
    pub verdict: Verdict,
    /// The element that decides the verdict, and behind each element the one that decides it; empty
    /// where the trace passed.
    pub steps: Vec<Step>,
    /// The instant of the steps, if there are any.
    pub moment: Option<Moment<'a>>,
}

// Not derived, so that a caller drops it in one step.
impl Drop for Reason<'_> {
    fn drop(self) {
        let Reason {
            verdict: _,
            steps: _,
            moment: _,
        } = self;
    }
}

/// The first of some elements that passes a test, if one does.
fn first_among(moment: &Moment<'_>, elements: &[ElementId], test: Test) -> Option<ElementId>
    ensures { option_map number result
        ≡ spec.first_of (passes test) (row_now moment.now) (numbers_of elements.now) }
{
    for element in elements {
        if test.passes(moment.cell(*element)) {
            return Some(*element);
        }
    }
    None
}

/// The first element of a variable that has the value of a fault.
fn bad_variable(moment: &Moment<'_>, program: &FlatProgram) -> Option<ElementId>
    ensures { option_map number result ≡ spec.first_of spec.is_bad (row_now moment.now)
        (range_with_len 0 program.now.variables) }
{
    for number in 0..program.variables {
        let element = ElementId(number);
        if Test::Bad.passes(moment.cell(element)) {
            return Some(element);
        }
    }
    None
}

/// The first named element that has the value of a fault.
fn bad_place(moment: &Moment<'_>, program: &FlatProgram) -> Option<ElementId>
    ensures { option_map number result ≡ spec.first_of spec.is_bad (row_now moment.now)
        (named_elements (program_of program.now)) }
{
    let variable = bad_variable(moment, program);
    if variable.is_some() {
        return variable;
    }
    let kept = first_among(moment, &program.memory_operands, Test::Bad);
    if kept.is_some() {
        return kept;
    }
    first_among(moment, &program.asserted, Test::Bad)
}

/// The first element that is nil where a truth is wanted.
fn nil_place(moment: &Moment<'_>, program: &FlatProgram) -> Option<ElementId>
    ensures { option_map number result ≡ spec.first_of spec.is_nil (row_now moment.now)
        (truth_elements (program_of program.now)) }
{
    let clock = first_among(moment, &program.clock_elements, Test::Nil);
    if clock.is_some() {
        return clock;
    }
    let asserted = first_among(moment, &program.asserted, Test::Nil);
    if asserted.is_some() {
        return asserted;
    }
    first_among(moment, &[program.property], Test::Nil)
}

/// The first element that decides a verdict, at its instant.
fn first_element(moment: &Moment<'_>, verdict: Verdict) -> Option<ElementId>
    ensures { option_map number result
        ≡ first_place (program_now moment.now) (row_now moment.now) verdict }
{
    let program = moment.program();
    match verdict {
        Verdict::Passed => None,
        Verdict::Fault(_) => bad_place(moment, program),
        Verdict::Undefined(_) => nil_place(moment, program),
        Verdict::Assertion(_) => first_among(moment, &program.asserted, Test::False),
        Verdict::False(_) => first_among(moment, &[program.property], Test::False),
    }
}

/// The steps from an element on.
fn steps_from(alloc: Global, moment: &Moment<'_>, first: ElementId) -> Result<Vec<Step>, AllocError>
    ensures { IfOk result (λ steps. AreStepsNow moment.now first.0 steps.items) }
{
    let most = moment.equations().len() + 1;
    let elements = chain(alloc, moment, first, most)?;
    let mut steps = Vec::new(alloc);
    for i in 0..elements.len() {
        let element = elements[i];
        steps.push(Step {
            element,
            cell: moment.cell(element),
        })?;
    }
    Ok(steps)
}

/// The instant that decides a verdict, if one does.
fn instant_of(verdict: Verdict) -> Option<u32>
    ensures { result ≡ instant_of verdict }
{
    match verdict {
        Verdict::Passed => None,
        Verdict::Fault(t) | Verdict::Undefined(t) | Verdict::Assertion(t) | Verdict::False(t) =>
            Some(t),
    }
}

/// A verdict without steps.
fn without_steps<'a>(alloc: Global, verdict: Verdict) -> Reason<'a>
    ensures verdict { result.verdict ≡ verdict }
    ensures steps { result.steps.items ≡ [] }
{
    Reason {
        verdict,
        steps: Vec::new(alloc),
        moment: None,
    }
}

/// The reason for a verdict on a trace.
fn reason_of<'a>(
    alloc: Global,
    ordered: &'a Ordered,
    set: &'a TraceSet,
    k: u32,
    verdict: Verdict,
) -> Result<Reason<'a>, AllocError>
    requires trace { k < length set.now.traces }
    requires verdict { IsVerdictOf (program_of ordered.now.program) set.now k verdict }
    ensures verdict { IfOk result (λ reason. reason.verdict ≡ verdict) }
    ensures steps { IfOk result (λ reason. AreReasons (program_of ordered.now.program) set.now k
        verdict reason.steps.items) }
{
    let Some(t) = instant_of(verdict) else {
        return Ok(without_steps(alloc, verdict));
    };
    if t >= set.length(k) {
        return Ok(without_steps(alloc, verdict));
    }
    let moment = Moment::new(alloc, ordered, set, k, t)?;
    let Some(first) = first_element(&moment, verdict) else {
        return Ok(without_steps(alloc, verdict));
    };
    let steps = steps_from(alloc, &moment, first)?;
    Ok(Reason {
        verdict,
        steps,
        moment: Some(moment),
    })
}

/// The reason why a trace does not pass: its verdict; the first element that decides it at its
/// instant; and behind each element the one that decides it, with its cell there.
///
/// For a fault the first element is the first variable, operand of a memory or assertion that has
/// the value of a fault; for an undefined trace it is the first clock, assertion or property that
/// is nil; else it is the first assertion that is false, or the property. There is no step where
/// the trace passed. The last step is a comparison, an input, a constant or a memory, or an
/// operation that makes the fault.
pub fn find_reason<'a>(
    alloc: Global,
    ordered: &'a Ordered,
    set: &'a TraceSet,
    k: u32,
) -> Result<Reason<'a>, AllocError>
    requires { k < length set.now.traces }
    ensures verdict { IfOk result (λ reason.
        IsVerdictOf (program_of ordered.now.program) set.now k reason.verdict) }
    ensures steps { IfOk result (λ reason. AreReasons (program_of ordered.now.program) set.now k
        reason.verdict reason.steps.items) }
{
    let verdict = eval_trace(alloc, ordered, set, k)?;
    reason_of(alloc, ordered, set, k, verdict)
}
