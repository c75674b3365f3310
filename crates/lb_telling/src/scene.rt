//! The parts of a source that the elements of a reason stand for.

use crate::site::{Owner, Placed, Site, Subject};
use lb_flat::{ElementId, Operation};
use lb_reason::{Moment, Step, given_by};
use std::alloc::{AllocError, Global};

/// The most expressions that are looked at to find the one of an element.
const MOST_SITES: usize = 1_000_000;

/// A program at an instant of a trace, with its source text.
#[derive(Clone, Copy)]
pub(crate) struct Scene<'p, 'a, 's> {
    pub(crate) alloc: Global,
    pub(crate) subject: Subject<'a, 's>,
    pub(crate) moment: &'p Moment<'a>,
}

/// The part of the source that an element stands for.
#[derive(Clone, Copy)]
pub(crate) enum Known<'a> {
    /// A variable.
    Variable,
    /// An expression.
    Expression(Site<'a>),
    /// An element within a form that is written as a whole.
    Inner,
}

impl<'p, 'a, 's> Scene<'p, 'a, 's> {
    /// The instance of a variable.
    pub(crate) fn row_of_variable(&self, element: ElementId) -> Option<usize> {
        let signal = self.subject.signal(element)?;
        Some(signal.scope)
    }

    /// The two parts of the label of an instance: the name of its node, and the place at which it
    /// is called. Of `f@12:7[2]` they are `f` and `12:7[2]`.
    pub(crate) fn label_parts(&self, row: usize) -> (&'a str, &'a str) {
        let Some(scope) = self.subject.scope(row) else {
            return ("", "");
        };
        let label = scope.label.as_str();
        label.split_once('@').unwrap_or((label, ""))
    }

    /// The instance that calls an instance, if one does.
    pub(crate) fn caller(&self, row: usize) -> Option<usize> {
        let scope = self.subject.scope(row)?;
        scope.parent
    }

    /// The statement that defines a variable.
    pub(crate) fn definition(&self, element: ElementId) -> Option<Placed<'a>> {
        let signal = self.subject.signal(element)?;
        self.subject.definition(signal.scope, signal.id)
    }

    /// The offset at which a variable is defined, or else declared.
    pub(crate) fn offset_of(&self, element: ElementId) -> u32 {
        if let Some(placed) = self.definition(element) {
            return placed.offset;
        }
        match self.subject.signal(element) {
            Some(signal) => self.subject.declaration(signal.scope, signal.id),
            None => 0,
        }
    }

    /// The operation that gives an element at the instant.
    pub(crate) fn operation(&self, element: ElementId) -> Option<Operation> {
        match given_by(self.moment.equations(), element) {
            Some(q) => Some(q.operation),
            None => None,
        }
    }

    /// The expression that defines a variable; for an input of a called node, the argument of the
    /// call.
    fn given(&self, element: ElementId) -> Result<Option<Site<'a>>, AllocError> {
        if let Some(placed) = self.definition(element) {
            return Ok(Some(placed.site));
        }
        match self.subject.signal(element) {
            Some(signal) => self.subject.argument(self.alloc, signal.scope, signal.id),
            None => Ok(None),
        }
    }

    /// The part of the source for `next`, which decides `element`, whose part is `known`.
    fn following(
        &self,
        known: Known<'a>,
        element: ElementId,
        next: ElementId,
    ) -> Result<Known<'a>, AllocError> {
        if next.0 < self.subject.program.variables {
            return Ok(Known::Variable);
        }
        let site = match (known, self.operation(element)) {
            (Known::Variable, _) => self.given(element)?,
            (Known::Expression(site), Some(operation)) => site.operand(operation, next),
            _ => None,
        };
        match (site, self.operation(next)) {
            (Some(site), Some(operation)) if site.fits(operation) => Ok(Known::Expression(site)),
            _ => Ok(Known::Inner),
        }
    }

    /// The part of the source for each step. `assertion` is the assertion with the element of the
    /// first step, if one has it.
    pub(crate) fn know(
        &self,
        steps: &[Step],
        assertion: Option<Placed<'a>>,
    ) -> Result<Vec<Known<'a>>, AllocError> {
        let mut parts = Vec::new(self.alloc);
        let mut before: Option<(Known<'a>, ElementId)> = None;
        for step in steps {
            let known = match before {
                Some((known, element)) => self.following(known, element, step.element)?,
                None => self.first_known(step.element, assertion)?,
            };
            parts.push(known)?;
            before = Some((known, step.element));
        }
        Ok(parts)
    }

    /// The part of the source for the first step.
    fn first_known(
        &self,
        first: ElementId,
        assertion: Option<Placed<'a>>,
    ) -> Result<Known<'a>, AllocError> {
        if first.0 < self.subject.program.variables {
            return Ok(Known::Variable);
        }
        match assertion {
            Some(placed) => Ok(Known::Expression(placed.site)),
            None => self.kept_operand(first),
        }
    }

    /// The expression that an element has in a statement, where `root` is the element of the whole.
    fn site_within(
        &self,
        whole: Site<'a>,
        root: ElementId,
        element: ElementId,
    ) -> Result<Option<Site<'a>>, AllocError> {
        let mut open = Vec::new(self.alloc);
        open.push((whole, root))?;
        for _ in 0..MOST_SITES {
            let Some((site, own)) = open.pop() else {
                return Ok(None);
            };
            let Some(operation) = self.operation(own) else {
                continue;
            };
            if own == element && site.fits(operation) {
                return Ok(Some(site));
            }
            for operand in site.operands(operation) {
                if let Some(operand) = operand {
                    open.push(operand)?;
                }
            }
        }
        Ok(None)
    }

    /// The whole expression in which an element stands that is not that of a variable, and the
    /// element of the whole.
    pub(crate) fn enclosing(
        &self,
        element: ElementId,
    ) -> Result<Option<(Site<'a>, ElementId)>, AllocError> {
        let Some(whole) = self.subject.enclosing(element) else {
            return Ok(None);
        };
        let site = match whole.owner {
            Owner::Variable(variable) => self.given(variable)?,
            Owner::Assertion(number) => match self.subject.assertion(number) {
                Some(placed) => Some(placed.site),
                None => None,
            },
        };
        match site {
            Some(site) => Ok(Some((site, whole.root))),
            None => Ok(None),
        }
    }

    /// The part of the source for the first step, where its element is an operand that a memory
    /// keeps.
    fn kept_operand(&self, element: ElementId) -> Result<Known<'a>, AllocError> {
        let Some((whole, root)) = self.enclosing(element)? else {
            return Ok(Known::Inner);
        };
        match self.site_within(whole, root, element)? {
            Some(site) => Ok(Known::Expression(site)),
            None => Ok(Known::Inner),
        }
    }
}
