//! Terms beside the expressions of which they were made.

ghost use Rattle.std.specs.Prelude.{◌<◌, IfSome};
ghost use Rattle.lb_static.specs.declared.resolved.Term.{size-Term};

use lb_static::{ResolvedNode, ResolvedStatement, Term};
use lb_syntax::{Expr, Statement};

/// A term, and the expression of which it was made.
#[derive(Clone, Copy)]
pub struct Site<'t> {
    pub term: &'t Term,
    pub expr: &'t Expr,
}

/// The operand of a term at a place, if it has one there.
fn term_operand<'t>(term: &'t Term, place: usize) -> Option<&'t Term>
    ensures { IfSome result (λ e. size-Term e.now < size-Term term.now) }
{
    match term {
        Term::Literal(_) | Term::Truth(_) | Term::Value(_) | Term::Variable(_) => None,
        Term::Group(a)
        | Term::Unary(_, a)
        | Term::Pre(a)
        | Term::Current(a)
        | Term::When(a, _, _)
        | Term::Replicate(a, _)
        | Term::Index(a, _)
        | Term::Slice(a, _, _) => match place {
            0 => Some(a),
            _ => None,
        },
        Term::Binary(_, a, b) | Term::Arrow(a, b) | Term::Fby(a, b) | Term::Join(a, b) => {
            match place {
                0 => Some(a),
                1 => Some(b),
                _ => None,
            }
        }
        Term::If(c, a, b) => match place {
            0 => Some(c),
            1 => Some(a),
            2 => Some(b),
            _ => None,
        },
        Term::Array(terms)
        | Term::AtMostOne(terms)
        | Term::Nor(terms)
        | Term::Call(_, terms)
        | Term::IterateNode(_, _, terms)
        | Term::IterateSymbol(_, _, _, terms) => terms.get(place),
    }
}

/// The operand of an expression at a place; the expression itself where there is none.
pub fn operand_at<'t>(expr: &'t Expr, place: usize) -> &'t Expr {
    match expr {
        Expr::Group(a, _) | Expr::Unary(_, a, _) | Expr::Pre(a, _) | Expr::Current(a, _) => a,
        Expr::When(a, _, _, _) | Expr::Replicate(a, _, _) => a,
        Expr::Index(a, _, _) | Expr::Slice(a, _, _, _) => a,
        Expr::Binary(_, a, b, _) => two(a, b, place),
        Expr::Arrow(a, b, _) | Expr::Fby(a, b, _) | Expr::Join(a, b, _) => two(a, b, place),
        Expr::If(c, a, b, _) => { if place == 0 { c } else { two(a, b, place - 1) } }
        Expr::Array(all, _)
        | Expr::AtMostOne(all, _)
        | Expr::Nor(all, _)
        | Expr::Call(_, _, all)
        | Expr::Iterate(_, _, _, all, _) => all.get(place).unwrap_or(expr),
        Expr::Literal(_, _) | Expr::Truth(_, _) | Expr::Variable(_) => expr,
    }
}

/// The first of two expressions at place 0, else the second.
fn two<'t>(first: &'t Expr, second: &'t Expr, place: usize) -> &'t Expr {
    if place == 0 { first } else { second }
}

impl<'t> Site<'t> {
    /// Its operand at a place, if it has one there.
    pub fn operand(self, place: usize) -> Option<Site<'t>>
        ensures { IfSome result (λ s. size-Term s.term.now < size-Term self.entry.term.now) }
    {
        Some(Site {
            term: term_operand(self.term, place)?,
            expr: operand_at(self.expr, place),
        })
    }

    /// Its operand at a place, or the term itself where it has none there.
    pub fn part(self, place: usize) -> Site<'t> {
        self.operand(place).unwrap_or(self)
    }

    /// The offset at which the expression begins.
    pub fn offset(self) -> u32 {
        self.expr.offset()
    }

    /// The offset of the sign of its operator: between its operands, or before them.
    pub fn sign_offset(self) -> u32 {
        self.expr.sign_offset().unwrap_or(self.expr.offset())
    }

    /// The offset of the variable of `when`, of the index, or of the first end of a slice.
    pub fn inner_offset(self) -> u32 {
        match self.expr {
            Expr::When(_, name, _, _) => name.offset,
            Expr::Index(_, index, _) | Expr::Slice(_, index, _, _) => index.offset(),
            _ => self.expr.offset(),
        }
    }
}

/// The right side of an equation, or the expression of an assertion.
pub fn right_side<'t>(statement: &'t Statement) -> &'t Expr {
    match statement {
        Statement::Equation(_, right, _) | Statement::Assertion(right, _) => right,
    }
}

/// The offset of the left variable at a place; that of the statement if there is none.
pub fn left_offset(statement: &Statement, place: usize) -> u32 {
    match statement {
        Statement::Equation(lefts, _, at) => match lefts.get(place) {
            Some(left) => left.offset,
            None => *at,
        },
        Statement::Assertion(_, at) => *at,
    }
}

/// A term without the parentheses around it.
pub fn ungrouped<'t>(term: &'t Term, expr: &'t Expr) -> Site<'t> {
    match term {
        Term::Group(inner) => ungrouped(inner, operand_at(expr, 0)),
        _ => Site { term, expr },
    }
}

/// A statement of a node, with its right side, or its assertion, without the parentheses around it.
#[derive(Clone, Copy)]
pub struct StatementSite<'t> {
    pub resolved: &'t ResolvedStatement,
    pub statement: &'t Statement,
    pub right: Site<'t>,
}

/// The statement of a node at a place, if there is one.
pub fn statement_at<'t>(node: &'t ResolvedNode, place: usize) -> Option<StatementSite<'t>> {
    let resolved = node.body.get(place)?;
    let statement = node.tree.body.get(place)?;
    let (ResolvedStatement::Equation(_, term) | ResolvedStatement::Assertion(term)) = resolved;
    Some(StatementSite {
        resolved,
        statement,
        right: ungrouped(term, right_side(statement)),
    })
}
