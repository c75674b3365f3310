//! The text about an element that decides a verdict, and about the elements that decide it.
//!
//! ```text
//! rig7/00000 false 21: safe.ok is false (voter.lus:88:3)
//!   88:8: `and`, its left side is false
//!   88:9: trip => alarm with trip = true, alarm = false
//!   60:3: alarm = n >= ton with n = 3, ton = 5
//! ```

ghost use Rattle.std.specs.Prelude.{◌<◌, length};

use crate::expressions::{is_literal, is_short, push_expression, ungrouped};
use crate::page::{push_cell, push_spot};
use crate::scene::{Known, Scene};
use crate::site::{Placed, Site, Subject};
use lb_check::Verdict;
use lb_flat::{ElementId, Operation, Ordered};
use lb_history::{Cell, Replay};
use lb_reason::{Reason, Step, find_reason};
use lb_show::{Page, push_verdict};
use lb_static::Term;
use lb_syntax::{Expr, OperatorClass};
use lb_traces::TraceSet;
use std::alloc::{AllocError, Global};

/// The most steps that are written for a verdict.
const MOST_TOLD: usize = 8;

/// The most calls that are written for an instance.
const MOST_CALLS: usize = 4;

/// A recorded trace of a program.
#[derive(Clone, Copy)]
pub(crate) struct Recorded<'a> {
    pub(crate) ordered: &'a Ordered,
    pub(crate) set: &'a TraceSet,
    /// The number of the trace.
    pub(crate) k: u32,
    pub(crate) ghost among: { k < length set.now.traces },
}

/// A reason that is told.
#[derive(Clone, Copy)]
pub(crate) struct Telling<'p, 'a, 's> {
    pub(crate) scene: Scene<'p, 'a, 's>,
    recorded: Recorded<'a>,
    pub(crate) steps: &'p [Step],
    /// The part of the source that the element of each step stands for.
    known: &'p [Known<'a>],
}

/// The word of a form that takes one of its sides: `fby`, or else `->`.
fn arrow_word(term: &Term) -> &'static str {
    match term {
        Term::Fby(_, _) => "fby",
        _ => "->",
    }
}

/// Writes the word of a form, and the part of the form that the next words are about.
fn say_part(page: &mut Page, word: &str, part: &str) {
    page.push("`");
    page.push(word);
    page.push("`, its ");
    page.push(part);
    page.push(" is ");
}

/// Writes which side of `->` or `fby` is taken.
fn say_taken(page: &mut Page, word: &str, started: bool) {
    say_part(page, word, if started { "right side" } else { "left side" });
    page.push("taken");
}

impl<'p, 'a, 's> Telling<'p, 'a, 's> {
    /// Writes a place of the source.
    fn say_spot(&self, page: &mut Page, offset: u32) {
        push_spot(page, self.scene.subject.spot(offset));
    }

    /// Writes an expression, without the parentheses round it.
    pub(crate) fn say_expression(&self, page: &mut Page, expr: &Expr) {
        push_expression(page, self.scene.subject.source, ungrouped(expr));
    }

    /// Writes the cell of an element.
    pub(crate) fn say_cell(&self, page: &mut Page, element: ElementId) {
        push_cell(page, self.scene.moment.cell(element));
    }

    /// The part of the source for the step at a place.
    pub(crate) fn known_at(&self, place: usize) -> Known<'a> {
        self.known.get(place).copied().unwrap_or(Known::Inner)
    }

    /// The instance of the variable that is the element of a step.
    fn row_of(&self, place: usize) -> Option<usize> {
        let step = self.steps.get(place)?;
        self.scene.row_of_variable(step.element)
    }

    /// Writes the name of a variable, behind the name of its node where it belongs to another
    /// instance.
    pub(crate) fn say_name(&self, page: &mut Page, element: ElementId, row: Option<usize>) {
        let Some(signal) = self.scene.subject.signal(element) else {
            return;
        };
        if row != Some(signal.scope) {
            page.push(self.scene.label_parts(signal.scope).0);
            page.push(".");
        }
        page.push(signal.label.as_str());
    }

    /// Writes a place with the name of the file, and the calls that lead to its instance.
    pub(crate) fn say_place(&self, page: &mut Page, offset: u32, row: usize) {
        page.push(" (");
        page.push(self.scene.subject.file);
        page.push(":");
        self.say_spot(page, offset);
        let mut at = row;
        for _ in 0..MOST_CALLS {
            let Some(above) = self.scene.caller(at) else {
                break;
            };
            page.push(", in ");
            page.push(self.scene.label_parts(above).0);
            page.push(" at ");
            page.push(self.scene.label_parts(at).1);
            at = above;
        }
        page.push(")");
    }

    /// Writes a variable with its cell and its place.
    pub(crate) fn say_held(&self, page: &mut Page, element: ElementId) {
        let Some(row) = self.scene.row_of_variable(element) else {
            return;
        };
        self.say_name(page, element, None);
        page.push(" is ");
        self.say_cell(page, element);
        self.say_place(page, self.scene.offset_of(element), row);
    }

    // ## Expressions

    /// Writes the operands of an expression with their cells, except literals.
    fn say_operands(&self, page: &mut Page, site: Site<'a>, operation: Operation) {
        let mut is_first = true;
        let mut latest = None;
        for found in site.operands(operation) {
            let Some((operand, element)) = found else {
                continue;
            };
            if is_literal(operand.expr) || latest == Some(element) {
                continue;
            }
            page.push(if is_first { " with " } else { ", " });
            self.say_expression(page, operand.expr);
            page.push(" = ");
            self.say_cell(page, element);
            is_first = false;
            latest = Some(element);
        }
    }

    /// Writes an expression with the cells of its operands.
    pub(crate) fn say_whole(&self, page: &mut Page, site: Site<'a>, operation: Operation) {
        self.say_expression(page, site.expr);
        self.say_operands(page, site, operation);
    }

    /// Writes the word of a form, and which of its sides decides.
    fn say_side(&self, page: &mut Page, word: &str, side: &str, next: ElementId) {
        say_part(page, word, side);
        self.say_cell(page, next);
    }

    /// Writes an expression of two operands.
    fn say_two(
        &self,
        page: &mut Page,
        site: Site<'a>,
        operation: Operation,
        next: Option<ElementId>,
    ) {
        let Operation::ApplyBinary(op, a, _) = operation else {
            return;
        };
        let is_told = match ungrouped(site.expr) {
            Expr::Binary(_, left, right, _) => is_short(left) && is_short(right),
            _ => true,
        };
        match next {
            Some(next) if op.class() == OperatorClass::Logical && !is_told => {
                let side = if next == a { "left side" } else { "right side" };
                self.say_side(page, op.sign(), side, next);
            }
            _ => self.say_whole(page, site, operation),
        }
    }

    /// Writes how many operands of `#` or `nor` are true: `few` where its value is true, `many`
    /// where it is false.
    fn say_count(
        &self,
        page: &mut Page,
        step: Step,
        site: Site<'a>,
        operation: Operation,
        (few, many): (&str, &str),
    ) {
        match step.cell {
            Cell::Boolean(true) => page.push(few),
            Cell::Boolean(false) => page.push(many),
            _ => self.say_whole(page, site, operation),
        }
    }

    /// The latest instant before this one at which an element is present, if there is one.
    fn latest_of(&self, element: ElementId) -> Result<Option<u32>, AllocError> {
        let Recorded { ordered, set, k } = self.recorded;
        let mut replay = Replay::new(self.scene.alloc, ordered, set, k)?;
        let mut latest = None;
        for t in 0..self.scene.moment.instant {
            if replay.next() >= replay.instants() {
                break;
            }
            replay.advance();
            if replay.cell(element) != Cell::Absent {
                latest = Some(t);
            }
        }
        Ok(latest)
    }

    /// Writes since when a memory keeps its value; nothing where the operand of `current` has a
    /// value at the instant.
    fn say_since(&self, page: &mut Page, operation: Operation) {
        let (Operation::Previous(_, a) | Operation::Latest(_, a)) = operation else {
            return;
        };
        let is_latest = matches!(operation, Operation::Latest(_, _));
        if is_latest && self.scene.moment.cell(a) != Cell::Absent {
            return;
        }
        let latest = self.latest_of(a);
        page.cut_if(latest.is_err());
        if let Ok(Some(t)) = latest {
            page.push(", kept since instant ");
            page.push_number(u64::from(t));
        }
    }

    /// Writes a memory: its expression, its value and since when it keeps that.
    fn say_memory(
        &self,
        page: &mut Page,
        site: Site<'a>,
        element: ElementId,
        operation: Operation,
    ) {
        self.say_expression(page, site.expr);
        page.push(" is ");
        self.say_cell(page, element);
        self.say_since(page, operation);
    }

    /// Writes what the expression of a step with this operation is.
    fn say_term(
        &self,
        page: &mut Page,
        step: Step,
        site: Site<'a>,
        operation: Operation,
        next: Option<ElementId>,
    ) {
        let term = site.ungrouped().term;
        match (term, operation) {
            (_, Operation::Previous(_, _) | Operation::Latest(_, _)) => {
                self.say_memory(page, site, step.element, operation);
            }
            (Term::AtMostOne(_), _) => self.say_count(
                page,
                step,
                site,
                operation,
                (
                    "`#`, at most one of its operands is true",
                    "`#`, more than one of its operands is true",
                ),
            ),
            (Term::Nor(_), _) => self.say_count(
                page,
                step,
                site,
                operation,
                (
                    "`nor`, none of its operands is true",
                    "`nor`, one of its operands is true",
                ),
            ),
            (_, Operation::ApplyBinary(_, _, _)) => self.say_two(page, site, operation, next),
            (_, Operation::Choose(c, _, _)) => self.say_side(page, "if", "condition", c),
            (_, Operation::FirstThen(started, _, _)) => {
                say_taken(page, arrow_word(term), started);
            }
            _ => self.say_whole(page, site, operation),
        }
    }

    // ## Steps

    /// Writes the expression of a step.
    fn say_step(&self, page: &mut Page, place: usize, site: Site<'a>) {
        let Some(step) = self.steps.get(place) else {
            return;
        };
        let Some(operation) = self.scene.operation(step.element) else {
            return;
        };
        let next = match self.steps.get(place.saturating_add(1)) {
            Some(next) => Some(next.element),
            None => None,
        };
        self.say_term(page, *step, site, operation, next);
    }

    /// Writes a variable that no statement defines.
    fn say_input(&self, page: &mut Page, element: ElementId, row: Option<usize>) {
        let Some(own) = self.scene.row_of_variable(element) else {
            return;
        };
        self.say_spot(page, self.scene.offset_of(element));
        page.push(": ");
        self.say_name(page, element, row);
        page.push(" is ");
        self.say_cell(page, element);
        if self.scene.caller(own).is_none() {
            page.push(", an input");
        } else {
            page.push(", as it is called at ");
            page.push(self.scene.label_parts(own).1);
        }
    }

    /// Writes a variable and the expression that defines it; returns whether that expression is the
    /// next step.
    fn say_variable(&self, page: &mut Page, place: usize, row: Option<usize>) -> bool {
        let Some(step) = self.steps.get(place) else {
            return false;
        };
        let Some(placed) = self.scene.definition(step.element) else {
            self.say_input(page, step.element, row);
            return false;
        };
        self.say_spot(page, placed.offset);
        page.push(": ");
        self.say_name(page, step.element, row);
        page.push(" = ");
        if let Known::Expression(site) = self.known_at(place.saturating_add(1)) {
            self.say_step(page, place.saturating_add(1), site);
            return true;
        }
        self.say_expression(page, placed.site.expr);
        page.push(", which is ");
        self.say_cell(page, step.element);
        false
    }

    /// Writes the steps from a place on, a line each.
    fn say_steps(&self, page: &mut Page, from: usize, first_row: Option<usize>) {
        let mut row = first_row;
        let mut told: usize = 0;
        let mut is_told = false;
        for place in from..self.steps.len() {
            if told >= MOST_TOLD {
                break;
            }
            if is_told {
                is_told = false;
                continue;
            }
            match self.known_at(place) {
                Known::Variable => {
                    page.push("  ");
                    is_told = self.say_variable(page, place, row);
                    row = self.row_of(place);
                }
                Known::Expression(site) => {
                    page.push("  ");
                    self.say_spot(page, ungrouped(site.expr).offset());
                    page.push(": ");
                    self.say_step(page, place, site);
                    row = Some(site.row);
                }
                Known::Inner => continue,
            }
            page.push("\n");
            told = told.saturating_add(1);
        }
    }

    // ## Verdicts

    /// Writes an assertion that is false, and the steps behind it.
    fn say_assertion(&self, page: &mut Page, placed: Placed<'a>) {
        page.push("assert ");
        push_expression(page, self.scene.subject.source, placed.site.expr);
        self.say_place(page, placed.offset, placed.site.row);
        page.push("\n");
        self.say_steps(page, 0, Some(placed.site.row));
    }

    /// Writes the property, which is false, and the steps behind it.
    fn say_property(&self, page: &mut Page, property: ElementId) {
        self.say_held(page, property);
        page.push("\n");
        self.say_steps(page, 1, self.row_of(0));
    }

    /// Writes what decides a verdict, behind the verdict's instant. `assertion` is the assertion
    /// with the element of the first step, if one has it.
    fn say_verdict(&self, page: &mut Page, verdict: Verdict, assertion: Option<Placed<'a>>) {
        match verdict {
            Verdict::Passed => {}
            Verdict::Fault(_) => {
                self.say_fault(page);
                page.push("\n");
            }
            Verdict::Undefined(_) => {
                self.say_undefined(page);
                page.push("\n");
            }
            Verdict::Assertion(_) => {
                if let Some(placed) = assertion {
                    self.say_assertion(page, placed);
                }
            }
            Verdict::False(_) => {
                if let Some(first) = self.steps.first() {
                    self.say_property(page, first.element);
                }
            }
        }
    }
}

/// Writes a reason at its instant: a line with the name of the trace, the verdict and what decides
/// that; where the property or an assertion is false, the steps behind it follow.
fn put_moment(
    page: &mut Page,
    scene: Scene<'_, '_, '_>,
    recorded: Recorded<'_>,
    reason: &Reason<'_>,
) -> Result<(), AllocError> {
    let Some(first) = reason.steps.first() else {
        return Ok(());
    };
    let assertion = scene.subject.assertion_with(first.element);
    let steps = reason.steps.as_slice();
    let known = scene.know(steps, assertion)?;
    push_verdict(page, recorded.set.name(recorded.k), reason.verdict);
    page.push(": ");
    let telling = Telling {
        scene,
        recorded,
        steps,
        known: known.as_slice(),
    };
    telling.say_verdict(page, reason.verdict, assertion);
    Ok(())
}

/// Writes why a trace does not pass; nothing where the trace passed.
pub(crate) fn put_reason(
    alloc: Global,
    page: &mut Page,
    subject: Subject<'_, '_>,
    recorded: Recorded<'_>,
) -> Result<(), AllocError> {
    let Recorded { ordered, set, k } = recorded;
    let reason = find_reason(alloc, ordered, set, k)?;
    let Some(moment) = &reason.moment else {
        return Ok(());
    };
    let scene = Scene {
        alloc,
        subject,
        moment,
    };
    put_moment(page, scene, recorded, &reason)
}
