//! Expressions whose names are resolved.
//!
//! The functions that `term` calls are inlined, so that a level of nesting has one frame on the
//! stack.

ghost use Rattle.std.specs.Prelude.{map};
ghost use Rattle.lb_syntax.specs.View.{view};
ghost use Rattle.lb_static.specs.NodeProgress.{ResolvesTerm, ResolvesTerms, ResolvesBox};
ghost use Rattle.lb_static.specs.Nested.{ResolvesNested, ResolvesRow};
ghost use Rattle.lb_static.specs.Progressed.{progress};

use crate::causes::Sought;
use crate::error::StaticError;
use crate::node_builder::NodeBuilder;
use crate::resolved::{CallId, Role, StaticId, Term, VariableId};
use crate::resolving_parts::{call, named, one_static, variable};
use lb_syntax::{ArrayIterator, BinaryOperator, Expr, Operator, UnaryOperator};
use std::alloc::Global;

/// The parts of an expression before its last operand, and after it.
#[derive(Drop)]
enum Outer {
    Group,
    Unary(UnaryOperator),
    Binary(BinaryOperator, Box<Term>),
    If(Box<Term>, Box<Term>),
    Arrow(Box<Term>),
    Fby(Box<Term>),
    Pre,
    Current,
    When(VariableId, bool),
    Replicate(StaticId),
    Index(StaticId),
    Slice(StaticId, StaticId),
    Join(Box<Term>),
}

/// The part of an expression before its list of operands.
#[derive(Clone, Copy)]
enum Head {
    Array,
    AtMostOne,
    Nor,
    Call(CallId),
    IterateNode(ArrayIterator, CallId),
    IterateSymbol(ArrayIterator, BinaryOperator, StaticId),
}

/// The term of an expression, in a box.
#[inline(always)]
#[cycle(resolving)]
fn boxed<'s>(
    alloc: Global,
    here: &mut NodeBuilder<'_, 's>,
    e: &'s Expr,
) -> Result<Box<Term>, StaticError>
    ensures { ResolvesBox (progress here.old) (progress here.new) (view e.now) result }
{
    Ok(Box::new(alloc, term(alloc, here, e)?)?)
}

/// The terms of some expressions.
#[inline(always)]
#[cycle(resolving)]
fn terms<'s>(
    alloc: Global,
    here: &mut NodeBuilder<'_, 's>,
    es: &'s [Expr],
) -> Result<Vec<Term>, StaticError>
    ensures { ResolvesTerms (progress here.old) (progress here.new) (map view es.now) result }
{
    let mut all = Vec::new(alloc);
    for e in es {
        all.push(term(alloc, here, e)?)?;
    }
    Ok(all)
}

/// The term of an expression `e` in its outer part.
#[inline(always)]
#[cycle(resolving)]
fn nested<'s>(
    alloc: Global,
    here: &mut NodeBuilder<'_, 's>,
    outer: Outer,
    e: &'s Expr,
) -> Result<Term, StaticError>
    ensures { ResolvesNested (progress here.old) (progress here.new) outer (view e.now) result }
{
    let operand = boxed(alloc, here, e)?;
    match outer {
        Outer::Group => Ok(Term::Group(operand)),
        Outer::Unary(op) => Ok(Term::Unary(op, operand)),
        Outer::Binary(op, first) => Ok(Term::Binary(op, first, operand)),
        Outer::If(condition, first) => Ok(Term::If(condition, first, operand)),
        Outer::Arrow(first) => Ok(Term::Arrow(first, operand)),
        Outer::Fby(first) => Ok(Term::Fby(first, operand)),
        Outer::Pre => Ok(Term::Pre(operand)),
        Outer::Current => Ok(Term::Current(operand)),
        Outer::When(clock, sign) => Ok(Term::When(operand, clock, sign)),
        Outer::Replicate(size) => Ok(Term::Replicate(operand, size)),
        Outer::Index(index) => Ok(Term::Index(operand, index)),
        Outer::Slice(start, end) => Ok(Term::Slice(operand, start, end)),
        Outer::Join(first) => Ok(Term::Join(first, operand)),
    }
}

/// The term of a list of operands with its head.
#[inline(always)]
#[cycle(resolving)]
fn row<'s>(
    alloc: Global,
    here: &mut NodeBuilder<'_, 's>,
    head: Head,
    es: &'s [Expr],
) -> Result<Term, StaticError>
    ensures { ResolvesRow (progress here.old) (progress here.new) head (map view es.now) result }
{
    let all = terms(alloc, here, es)?;
    match head {
        Head::Array => Ok(Term::Array(all)),
        Head::AtMostOne => Ok(Term::AtMostOne(all)),
        Head::Nor => Ok(Term::Nor(all)),
        Head::Call(site) => Ok(Term::Call(site, all)),
        Head::IterateNode(iterator, site) => Ok(Term::IterateNode(iterator, site, all)),
        Head::IterateSymbol(iterator, op, size) => {
            Ok(Term::IterateSymbol(iterator, op, size, all))
        }
    }
}

/// The term that stands for an expression.
#[cycle(resolving)]
pub fn term<'s>(
    alloc: Global,
    here: &mut NodeBuilder<'_, 's>,
    e: &'s Expr,
) -> Result<Term, StaticError>
    ensures { ResolvesTerm (progress here.old) (progress here.new) (view e.now) result }
{
    match e {
        Expr::Literal(n, _) => Ok(Term::Literal(*n)),
        Expr::Truth(b, _) => Ok(Term::Truth(*b)),
        Expr::Variable(x) => named(alloc, here, x),
        Expr::Group(a, _) => nested(alloc, here, Outer::Group, a),
        Expr::Unary(op, a, _) => nested(alloc, here, Outer::Unary(*op), a),
        Expr::Binary(op, a, b, _) => {
            let first = boxed(alloc, here, a)?;
            nested(alloc, here, Outer::Binary(*op, first), b)
        }
        Expr::If(c, a, b, _) => {
            let condition = boxed(alloc, here, c)?;
            let first = boxed(alloc, here, a)?;
            nested(alloc, here, Outer::If(condition, first), b)
        }
        Expr::Arrow(a, b, _) => {
            let first = boxed(alloc, here, a)?;
            nested(alloc, here, Outer::Arrow(first), b)
        }
        Expr::Fby(a, b, _) => {
            let first = boxed(alloc, here, a)?;
            nested(alloc, here, Outer::Fby(first), b)
        }
        Expr::Pre(a, _) => nested(alloc, here, Outer::Pre, a),
        Expr::Current(a, _) => nested(alloc, here, Outer::Current, a),
        Expr::When(a, x, sign, _) => {
            let clock = variable(alloc, here, x, Sought::Clock)?;
            nested(alloc, here, Outer::When(clock, *sign), a)
        }
        Expr::Replicate(a, n, _) => {
            let size = one_static(alloc, here, Role::Size, n)?;
            nested(alloc, here, Outer::Replicate(size), a)
        }
        Expr::Index(a, i, _) => {
            let index = one_static(alloc, here, Role::Index, i)?;
            nested(alloc, here, Outer::Index(index), a)
        }
        Expr::Slice(a, i, j, _) => {
            let start = one_static(alloc, here, Role::SliceStart, i)?;
            let end = one_static(alloc, here, Role::SliceEnd(i), j)?;
            nested(alloc, here, Outer::Slice(start, end), a)
        }
        Expr::Join(a, b, _) => {
            let first = boxed(alloc, here, a)?;
            nested(alloc, here, Outer::Join(first), b)
        }
        Expr::Array(items, _) => row(alloc, here, Head::Array, items),
        Expr::AtMostOne(choices, _) => row(alloc, here, Head::AtMostOne, choices),
        Expr::Nor(operands, _) => row(alloc, here, Head::Nor, operands),
        Expr::Call(callee, statics, arguments) => {
            let site = call(alloc, here, callee, statics, None)?;
            row(alloc, here, Head::Call(site), arguments)
        }
        Expr::Iterate(iterator, operator, n, arguments, _) => {
            let size = one_static(alloc, here, Role::Size, n)?;
            match operator.as_ref() {
                Operator::Node(callee, statics) => {
                    let site = call(alloc, here, callee, statics, Some(size))?;
                    row(alloc, here, Head::IterateNode(*iterator, site), arguments)
                }
                Operator::Symbol(op) => row(
                    alloc,
                    here,
                    Head::IterateSymbol(*iterator, *op, size),
                    arguments,
                ),
            }
        }
    }
}
