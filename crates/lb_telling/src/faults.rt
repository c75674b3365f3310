//! The text about a fault or nil, and about what makes it.
//!
//! ```text
//! rig7/00003 fault 4: safe.ok, n / d with n = 3, d = 0 (voter.lus:90:8)
//! rig7/00004 undefined 0: safe.ok is nil: pre x has no value yet (voter.lus:91:8)
//! ```

use crate::expressions::ungrouped;
use crate::scene::Known;
use crate::site::Site;
use crate::told::Telling;
use lb_flat::{ElementId, Operation};
use lb_show::Page;
use lb_syntax::UnaryOperator;

impl<'p, 'a, 's> Telling<'p, 'a, 's> {
    /// Writes an expression and the place at which it begins.
    fn say_placed(&self, page: &mut Page, site: Site<'a>) {
        self.say_expression(page, site.expr);
        self.say_place(page, ungrouped(site.expr).offset(), site.row);
    }

    /// Writes the operator that gives an element, with the cells of its operands.
    fn say_operator(&self, page: &mut Page, element: ElementId) {
        match self.scene.operation(element) {
            Some(Operation::ApplyBinary(op, a, b)) => {
                page.push("`");
                page.push(op.sign());
                page.push("` with ");
                self.say_cell(page, a);
                page.push(", ");
                self.say_cell(page, b);
            }
            Some(Operation::ApplyUnary(UnaryOperator::Negate, a)) => {
                page.push("`-` with ");
                self.say_cell(page, a);
            }
            _ => page.push("a fault"),
        }
    }

    /// Writes a fault of a variable that is made by an element within a form that is written as a
    /// whole.
    fn say_made(&self, page: &mut Page, variable: ElementId, element: ElementId) {
        let Some(row) = self.scene.row_of_variable(variable) else {
            return;
        };
        self.say_name(page, variable, None);
        page.push(", ");
        self.say_operator(page, element);
        self.say_place(page, self.scene.offset_of(variable), row);
    }

    /// Writes a fault in the operand of a memory or in an assertion, with the whole expression in
    /// which it stands. `first` is the element of the first step.
    fn say_within(&self, page: &mut Page, first: ElementId, element: ElementId) {
        let kept = self.scene.subject.program.memory_operands.as_slice();
        page.push(if kept.contains(&first) {
            "what a memory keeps, "
        } else {
            "an assertion, "
        });
        self.say_operator(page, element);
        let enclosing = self.scene.enclosing(first);
        page.cut_if(enclosing.is_err());
        if let Ok(Some((whole, _))) = enclosing {
            page.push(", in ");
            self.say_placed(page, whole);
        }
    }

    /// The last variable among the steps.
    fn last_variable(&self) -> Option<ElementId> {
        let mut last = None;
        for (place, step) in self.steps.iter().enumerate() {
            if let Known::Variable = self.known_at(place) {
                last = Some(step.element);
            }
        }
        last
    }

    /// Writes what makes a fault: the last of the steps.
    pub(crate) fn say_fault(&self, page: &mut Page) {
        let (Some(first), Some(last)) = (self.steps.first(), self.steps.last()) else {
            return;
        };
        match (
            self.known_at(self.steps.len().saturating_sub(1)),
            self.last_variable(),
        ) {
            (Known::Expression(site), variable) => {
                if let Some(variable) = variable {
                    self.say_name(page, variable, None);
                    page.push(", ");
                }
                if let Some(operation) = self.scene.operation(last.element) {
                    self.say_whole(page, site, operation);
                }
                self.say_place(page, ungrouped(site.expr).offset(), site.row);
            }
            (_, Some(variable)) => self.say_made(page, variable, last.element),
            (_, None) => self.say_within(page, first.element, last.element),
        }
    }

    /// Writes what is nil, the element of the first step, and what makes it so: the last one, which
    /// is a memory.
    pub(crate) fn say_undefined(&self, page: &mut Page) {
        let (Some(first), Some(last)) = (self.steps.first(), self.steps.last()) else {
            return;
        };
        if let Known::Variable = self.known_at(0) {
            self.say_name(page, first.element, None);
        } else {
            page.push("the assertion");
        }
        page.push(" is nil");
        let memory = self.scene.subject.memory(self.scene.alloc, last.element);
        page.cut_if(memory.is_err());
        if let Ok(Some(site)) = memory {
            page.push(": ");
            self.say_expression(page, site.expr);
            page.push(" has no value yet");
            self.say_place(page, site.expr.offset(), site.row);
        }
    }
}
