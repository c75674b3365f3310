//! The place in a source at which an element of a flat program stands.

use crate::arguments::argument_in;
use lb_check::Checked;
use lb_flat::{ElementId, FlatProgram, Operation};
use lb_show::{Lines, Scope, Signal, Signals, Spot};
use lb_static::{Elab, Origin, ResolvedNode, ResolvedStatement, Term, VariableId};
use lb_syntax::{Declarations, Expr, Statement};
use std::alloc::{AllocError, Global};

/// A depth of parentheses that no text reaches.
const DEEPEST: usize = 1_000_000;

/// A program with its source text.
#[derive(Clone, Copy)]
pub(crate) struct Subject<'a, 's> {
    /// The name of the file.
    pub(crate) file: &'a str,
    pub(crate) source: &'a [u8],
    pub(crate) lines: &'a Lines,
    pub(crate) checked: &'a Checked<'s>,
    pub(crate) elab: &'a Elab<'s>,
    pub(crate) program: &'a FlatProgram,
    pub(crate) signals: &'a Signals,
}

/// An expression in the node of an instance.
#[derive(Clone, Copy)]
pub(crate) struct Site<'a> {
    /// The place of the instance.
    pub(crate) row: usize,
    pub(crate) term: &'a Term,
    pub(crate) expr: &'a Expr,
}

/// A statement of the node of an instance, with its expression.
#[derive(Clone, Copy)]
pub(crate) struct Placed<'a> {
    pub(crate) offset: u32,
    pub(crate) site: Site<'a>,
}

/// An operand with its element.
fn with_element<'a>(part: Option<Site<'a>>, element: ElementId) -> Option<(Site<'a>, ElementId)> {
    match part {
        Some(site) => Some((site, element)),
        None => None,
    }
}

impl<'a> Site<'a> {
    /// Another expression of the same node.
    pub(crate) fn at(&self, term: &'a Term, expr: &'a Expr) -> Site<'a> {
        Site {
            row: self.row,
            term,
            expr,
        }
    }

    /// The expression without the parentheses round it.
    pub(crate) fn ungrouped(&self) -> Site<'a> {
        let mut site = *self;
        for _ in 0..DEEPEST {
            match (site.term, site.expr) {
                (Term::Group(term), Expr::Group(expr, _)) => site = site.at(&**term, &**expr),
                _ => return site,
            }
        }
        site
    }

    /// Whether an operation is that of the expression.
    pub(crate) fn fits(&self, operation: Operation) -> bool {
        let site = self.ungrouped();
        match (site.term, operation) {
            (Term::Unary(_, _), Operation::ApplyUnary(_, _)) => true,
            (Term::Binary(op, _, _), Operation::ApplyBinary(other, _, _)) => *op == other,
            (Term::If(_, _, _), Operation::Choose(_, _, _)) => true,
            (Term::Arrow(_, _) | Term::Fby(_, _), Operation::FirstThen(_, _, _)) => true,
            (Term::Pre(_) | Term::Fby(_, _), Operation::Previous(_, _)) => true,
            (Term::Current(_), Operation::Latest(_, _)) => true,
            (Term::When(_, _, _), Operation::Sample(_)) => true,
            (Term::AtMostOne(_) | Term::Nor(_), Operation::ApplyUnary(_, _)) => true,
            (Term::Literal(_) | Term::Truth(_) | Term::Value(_), Operation::Constant(_)) => true,
            _ => false,
        }
    }

    /// The parts of a form that has one, two or three of them.
    pub(crate) fn parts(&self) -> [Option<Site<'a>>; 3] {
        match (self.term, self.expr) {
            (Term::Group(t), Expr::Group(e, _))
            | (Term::Unary(_, t), Expr::Unary(_, e, _))
            | (Term::Pre(t), Expr::Pre(e, _))
            | (Term::Current(t), Expr::Current(e, _))
            | (Term::When(t, _, _), Expr::When(e, _, _, _))
            | (Term::Replicate(t, _), Expr::Replicate(e, _, _))
            | (Term::Index(t, _), Expr::Index(e, _, _))
            | (Term::Slice(t, _, _), Expr::Slice(e, _, _, _)) => {
                [Some(self.at(&**t, &**e)), None, None]
            }
            (Term::Binary(_, t, u), Expr::Binary(_, e, f, _))
            | (Term::Arrow(t, u), Expr::Arrow(e, f, _))
            | (Term::Fby(t, u), Expr::Fby(e, f, _))
            | (Term::Join(t, u), Expr::Join(e, f, _)) => {
                [Some(self.at(&**t, &**e)), Some(self.at(&**u, &**f)), None]
            }
            (Term::If(t, u, v), Expr::If(e, f, g, _)) => [
                Some(self.at(&**t, &**e)),
                Some(self.at(&**u, &**f)),
                Some(self.at(&**v, &**g)),
            ],
            _ => [None, None, None],
        }
    }

    /// The operands of an expression with their elements, where they are known.
    pub(crate) fn operands(&self, operation: Operation) -> [Option<(Site<'a>, ElementId)>; 3] {
        let site = self.ungrouped();
        let [first, second, third] = site.parts();
        match (site.term, operation) {
            (Term::Unary(_, _), Operation::ApplyUnary(_, a))
            | (Term::Pre(_), Operation::Previous(_, a))
            | (Term::Current(_), Operation::Latest(_, a))
            | (Term::When(_, _, _), Operation::Sample(a)) => [with_element(first, a), None, None],
            (Term::Binary(_, _, _), Operation::ApplyBinary(_, a, b))
            | (Term::Arrow(_, _), Operation::FirstThen(_, a, b)) => {
                [with_element(first, a), with_element(second, b), None]
            }
            (Term::If(_, _, _), Operation::Choose(a, b, c)) => [
                with_element(first, a),
                with_element(second, b),
                with_element(third, c),
            ],
            (Term::Fby(_, _), Operation::FirstThen(_, a, b)) => {
                [with_element(first, a), Some((site, b)), None]
            }
            (Term::Fby(_, _), Operation::Previous(_, a)) => [with_element(second, a), None, None],
            _ => [None, None, None],
        }
    }

    /// The operand with an element, where it is known.
    pub(crate) fn operand(&self, operation: Operation, element: ElementId) -> Option<Site<'a>> {
        for operand in self.operands(operation) {
            if let Some((site, own)) = operand {
                if own == element {
                    return Some(site);
                }
            }
        }
        None
    }
}

/// The variable or assertion that a whole expression belongs to.
#[derive(Clone, Copy)]
pub(crate) enum Owner {
    /// The variable that the expression defines, or the input of an instance that is given its
    /// value.
    Variable(ElementId),
    /// The assertion with this number, counted over all instances.
    Assertion(usize),
}

/// A whole expression, with its element.
#[derive(Clone, Copy)]
pub(crate) struct Whole {
    pub(crate) root: ElementId,
    pub(crate) owner: Owner,
}

/// Whether `root` comes at or behind an element, and before the nearest root so far.
fn is_nearer(root: ElementId, element: ElementId, nearest: Option<Whole>) -> bool {
    match nearest {
        Some(whole) => root.0 >= element.0 && root.0 < whole.root.0,
        None => root.0 >= element.0,
    }
}

/// The offset of the name at a place among the names of some groups; an error holds how many names
/// they have.
fn name_in(groups: &[Declarations], place: usize) -> Result<u32, usize> {
    let mut before: usize = 0;
    for group in groups {
        for name in &group.names {
            if before == place {
                return Ok(name.offset);
            }
            before = before.saturating_add(1);
        }
    }
    Err(before)
}

impl<'a, 's> Subject<'a, 's> {
    /// The node of an instance.
    pub(crate) fn node(&self, row: usize) -> Option<&'a ResolvedNode<'s>> {
        let table = self.elab.table();
        let instance = table.instances.get(row)?;
        let id = instance.specialization.0 as usize;
        let specialization = table.specializations.get(id)?;
        self.elab.reached().nodes.get(specialization.node.0)
    }

    /// The line and column of a byte of the source.
    pub(crate) fn spot(&self, offset: u32) -> Spot {
        self.lines.spot(offset as usize)
    }

    /// The variable of an element, with its instance.
    pub(crate) fn signal(&self, element: ElementId) -> Option<&'a Signal> {
        self.signals.signals.get(element.0 as usize)
    }

    /// The scope of an instance.
    pub(crate) fn scope(&self, row: usize) -> Option<&'a Scope> {
        self.signals.scopes.get(row)
    }

    /// The statement at a place of the node of an instance.
    pub(crate) fn placed(&self, row: usize, place: usize) -> Option<Placed<'a>> {
        let node = self.node(row)?;
        let tree: &'a lb_syntax::Node = node.tree;
        match (node.body.get(place)?, tree.body.get(place)?) {
            (ResolvedStatement::Equation(_, term), Statement::Equation(_, expr, offset)) => {
                Some(Placed {
                    offset: *offset,
                    site: Site { row, term, expr },
                })
            }
            (ResolvedStatement::Assertion(term), Statement::Assertion(expr, offset)) => {
                Some(Placed {
                    offset: *offset,
                    site: Site { row, term, expr },
                })
            }
            _ => None,
        }
    }

    /// The statement that defines a variable of an instance.
    pub(crate) fn definition(&self, row: usize, variable: VariableId) -> Option<Placed<'a>> {
        let node = self.node(row)?;
        for (place, statement) in node.body.iter().enumerate() {
            if let ResolvedStatement::Equation(lefts, _) = statement {
                if lefts.as_slice().contains(&variable) {
                    return self.placed(row, place);
                }
            }
        }
        None
    }

    /// The assertion with a number, counted over all instances.
    pub(crate) fn assertion(&self, number: usize) -> Option<Placed<'a>> {
        let mut before: usize = 0;
        for row in 0..self.elab.table().instances.len() {
            let node = self.node(row)?;
            for (place, statement) in node.body.iter().enumerate() {
                if let ResolvedStatement::Assertion(_) = statement {
                    if before == number {
                        return self.placed(row, place);
                    }
                    before = before.saturating_add(1);
                }
            }
        }
        None
    }

    /// The assertion that has an element.
    pub(crate) fn assertion_with(&self, element: ElementId) -> Option<Placed<'a>> {
        for (number, asserted) in self.program.asserted.as_slice().iter().enumerate() {
            if asserted.0 == element.0 {
                return self.assertion(number);
            }
        }
        None
    }

    /// The offset at which a variable of an instance is declared.
    pub(crate) fn declaration(&self, row: usize, variable: VariableId) -> u32 {
        let Some(node) = self.node(row) else {
            return 0;
        };
        let tree = node.tree;
        let inputs = match name_in(tree.inputs.as_slice(), variable.0) {
            Ok(offset) => return offset,
            Err(count) => count,
        };
        let rest = variable.0.saturating_sub(inputs);
        let outputs = match name_in(tree.outputs.as_slice(), rest) {
            Ok(offset) => return offset,
            Err(count) => count,
        };
        let rest = rest.saturating_sub(outputs);
        name_in(tree.locals.as_slice(), rest).unwrap_or(tree.offset)
    }

    /// The whole expression in which an element stands, where the element is not that of a
    /// variable. Elements are numbered in the order of the text, so it is the one whose own element
    /// comes next.
    pub(crate) fn enclosing(&self, element: ElementId) -> Option<Whole> {
        let mut nearest: Option<Whole> = None;
        for q in &self.program.equations {
            let Operation::Copy(root) = q.operation else {
                continue;
            };
            if q.element.0 < self.program.variables && is_nearer(root, element, nearest) {
                let owner = Owner::Variable(q.element);
                nearest = Some(Whole { root, owner });
            }
        }
        for (number, root) in self.program.asserted.as_slice().iter().enumerate() {
            if is_nearer(*root, element, nearest) {
                let owner = Owner::Assertion(number);
                nearest = Some(Whole { root: *root, owner });
            }
        }
        nearest
    }

    /// The argument for an input of an instance, in the call of the instance.
    pub(crate) fn argument(
        &self,
        alloc: Global,
        row: usize,
        input: VariableId,
    ) -> Result<Option<Site<'a>>, AllocError> {
        let Some(instance) = self.elab.table().instances.get(row) else {
            return Ok(None);
        };
        let Origin::Called { caller, call, .. } = instance.origin else {
            return Ok(None);
        };
        let above = caller.0 as usize;
        let Some(node) = self.node(above) else {
            return Ok(None);
        };
        for place in 0..node.body.len() {
            if let Some(placed) = self.placed(above, place) {
                if let Some(argument) = argument_in(alloc, placed.site, call, input.0)? {
                    return Ok(Some(argument));
                }
            }
        }
        Ok(None)
    }
}
