//! The tree of each form, made of the parts that were read.
//!
//! Many functions take the result `read` of reading the last part, and return its error. Most stay
//! out of line, so that their variables take no stack while an expression nests. An offset `at` is
//! that of the token with which a form begins, or of the mark after its left operand.

ghost use Rattle.std.specs.Prelude.{◌≡◌, List, Some, map, ◌++◌, ◌∷◌, []};
ghost use Rattle.lb_syntax.specs.Reading as reading;
ghost use Rattle.lb_syntax.specs.Readers as readers;
ghost use Rattle.lb_syntax.specs.Readers.{Gives, GoesOn};
ghost use Rattle.lb_syntax.specs.Tree as tree;
ghost use Rattle.lb_syntax.specs.View.{view, view_box, view_static, view_statics, view_operator};
ghost use Rattle.lb_syntax.specs.declared.token.Token.{Token as AToken};

use crate::level::Form;
use crate::reader::{ReadError, after, expect, terminated};
use crate::statics::{clock, size, static_expression};
use crate::token::{Mark, PlacedToken};
use crate::tree::{ArrayIterator, Expr, Name, Offset, Operator, Static, UnaryOperator};
use std::alloc::Global;

/// After `e[`, an index or a slice of `e`, and the tokens after it.
#[inline(never)]
#[tactic(auto, unfolding(crate::specs::Reading::element_at))]
pub fn element(
    alloc: Global,
    e: Box<Expr>,
    at: Offset,
    tokens: &[PlacedToken],
) -> Result<(Box<Expr>, &[PlacedToken]), ReadError>
    ensures { Gives (λ x. (view_box x.0, x.1.now)) result
        (reading.element_at (view_box e) tokens.now) }
{
    let (i, rest) = static_expression(alloc, tokens)?;
    match after(Mark::DotDot, rest) {
        None => {
            let rest = expect(Mark::CloseBracket, rest)?;
            boxed_before(alloc, Expr::Index(e, i, at), rest)
        }
        Some(next) => {
            let (j, rest) = terminated(static_expression(alloc, next), Mark::CloseBracket)?;
            boxed_before(alloc, Expr::Slice(e, i, j, at), rest)
        }
    }
}

/// The tree in a box, and the tokens after it.
fn boxed_before<'t>(
    alloc: Global,
    e: Expr,
    rest: &'t [PlacedToken],
) -> Result<(Box<Expr>, &'t [PlacedToken]), ReadError>
    ensures { Gives {Y = tree.Expr × List AToken} (λ x. (view_box x.0, x.1.now)) result
        (Some (view e, rest.now)) }
{
    Ok((Box::new(alloc, e)?, rest))
}

/// A literal, and the tokens after it.
#[inline(never)]
pub fn literal(
    alloc: Global,
    n: u32,
    at: Offset,
    rest: &[PlacedToken],
) -> Result<(Box<Expr>, &[PlacedToken]), ReadError>
    ensures { Gives {Y = tree.Expr × List AToken} (λ x. (view_box x.0, x.1.now)) result
        (Some (tree.Literal n, rest.now)) }
{
    boxed_before(alloc, Expr::Literal(n, at), rest)
}

/// A truth, and the tokens after it.
#[inline(never)]
pub fn truth(
    alloc: Global,
    b: bool,
    at: Offset,
    rest: &[PlacedToken],
) -> Result<(Box<Expr>, &[PlacedToken]), ReadError>
    ensures { Gives {Y = tree.Expr × List AToken} (λ x. (view_box x.0, x.1.now)) result
        (Some (tree.Truth b, rest.now)) }
{
    boxed_before(alloc, Expr::Truth(b, at), rest)
}

/// A variable, and the tokens after it.
#[inline(never)]
pub fn variable<'t>(
    alloc: Global,
    name: &Name,
    rest: &'t [PlacedToken],
) -> Result<(Box<Expr>, &'t [PlacedToken]), ReadError>
    ensures { Gives {Y = tree.Expr × List AToken} (λ x. (view_box x.0, x.1.now)) result
        (Some (tree.Variable name.now, rest.now)) }
{
    boxed_before(alloc, Expr::Variable(name.copy(alloc)?), rest)
}

/// After `e when`, the tree of `e when c`, and the tokens after it.
#[inline(never)]
pub fn sampled(
    alloc: Global,
    e: Box<Expr>,
    at: Offset,
    tokens: &[PlacedToken],
) -> Result<(Box<Expr>, &[PlacedToken]), ReadError>
    ensures { Gives {Y = tree.Expr × List AToken} (λ x. (view_box x.0, x.1.now)) result
        (readers.◌>>=◌ (reading.clock_at tokens.now)
        (λ c. Some (tree.When (view_box e) c.0.0 c.0.1, c.1))) }
{
    let (c, rest) = clock(alloc, tokens)?;
    boxed_before(alloc, Expr::When(e, c.variable, c.sign, at), rest)
}

/// After `e ^`, the tree of `e ^ n`, and the tokens after it.
#[inline(never)]
pub fn replicated(
    alloc: Global,
    e: Box<Expr>,
    at: Offset,
    tokens: &[PlacedToken],
) -> Result<(Box<Expr>, &[PlacedToken]), ReadError>
    ensures { Gives {Y = tree.Expr × List AToken} (λ x. (view_box x.0, x.1.now)) result
        (readers.◌>>=◌ (reading.size_at tokens.now)
        (λ n. Some (tree.Replicate (view_box e) n.0, n.1))) }
{
    let (n, rest) = size(alloc, tokens)?;
    boxed_before(alloc, Expr::Replicate(e, n, at), rest)
}

/// A form that begins with a mark and has one tree inside.
#[derive(Clone, Copy)]
pub enum Single {
    /// `(e)`
    Group,
    /// `not a`, `- a`
    Unary(UnaryOperator),
    /// `pre a`
    Pre,
    /// `current a`
    Current,
}

/// A form that begins with a mark and has a list of trees inside.
#[derive(Clone, Copy)]
pub enum Listed {
    /// `[a, b]`
    Array,
    /// `#(a, b)`
    AtMostOne,
    /// `nor(a, b)`
    Nor,
}

/// The tree of a form with the tree that was read inside, and the tokens after it.
#[inline(never)]
pub fn with_one<'t>(
    alloc: Global,
    form: Single,
    at: Offset,
    read: Result<(Box<Expr>, &'t [PlacedToken]), ReadError>,
) -> Result<(Box<Expr>, &'t [PlacedToken]), ReadError>
    ensures { GoesOn {Y = tree.Expr × List AToken} (λ y. (view_box y.0, y.1.now)) read.entry
        (λ x. Some (reading.single form (view_box x.0), x.1.now)) result }
{
    let (e, rest) = read?;
    let tree = match form {
        Single::Group => Expr::Group(e, at),
        Single::Unary(op) => Expr::Unary(op, e, at),
        Single::Pre => Expr::Pre(e, at),
        Single::Current => Expr::Current(e, at),
    };
    boxed_before(alloc, tree, rest)
}

/// The tree of a form with the list that was read inside, and the tokens after it.
#[inline(never)]
pub fn with_list<'t>(
    alloc: Global,
    form: Listed,
    at: Offset,
    read: Result<(Vec<Expr>, &'t [PlacedToken]), ReadError>,
) -> Result<(Box<Expr>, &'t [PlacedToken]), ReadError>
    ensures { GoesOn {Y = tree.Expr × List AToken} (λ y. (view_box y.0, y.1.now)) read.entry
        (λ x. Some (reading.listed form (reading.exprs (map view x.0.items)), x.1.now)) result }
{
    let (es, rest) = read?;
    match form {
        Listed::Array => boxed_before(alloc, Expr::Array(es, at), rest),
        Listed::AtMostOne => boxed_before(alloc, Expr::AtMostOne(es, at), rest),
        Listed::Nor => boxed_before(alloc, Expr::Nor(es, at), rest),
    }
}

/// The tree of an infix form with the left operand `a` and the right one that was read, and the
/// tokens after it.
#[inline(never)]
pub fn infix_tree<'t>(
    alloc: Global,
    form: Form,
    a: Box<Expr>,
    at: Offset,
    read: Result<(Box<Expr>, &'t [PlacedToken]), ReadError>,
) -> Result<(Box<Expr>, &'t [PlacedToken]), ReadError>
    ensures { GoesOn {Y = tree.Expr × List AToken} (λ y. (view_box y.0, y.1.now)) read.entry
        (λ x. Some (reading.infix_tree form (view_box a) (view_box x.0), x.1.now)) result }
{
    let (b, rest) = read?;
    let e = match form {
        Form::Data(op) => Expr::Binary(op, a, b, at),
        Form::Arrow => Expr::Arrow(a, b, at),
        Form::Fby => Expr::Fby(a, b, at),
        _ => Expr::Join(a, b, at),
    };
    boxed_before(alloc, e, rest)
}

/// The tree `c`, the tree that was read after it, and the tokens after both.
#[inline(never)]
pub fn followed<'t>(
    c: Box<Expr>,
    read: Result<(Box<Expr>, &'t [PlacedToken]), ReadError>,
) -> Result<(Box<Expr>, Box<Expr>, &'t [PlacedToken]), ReadError>
    ensures { GoesOn {Y = (tree.Expr × tree.Expr) × List AToken}
        (λ y. ((view_box y.0, view_box y.1), y.2.now)) read.entry
        (λ x. Some ((view_box c, view_box x.0), x.1.now)) result }
{
    let (a, rest) = read?;
    Ok((c, a, rest))
}

/// The tree of `if c then a else b`, whose last branch `b` was read, and the tokens after it.
#[inline(never)]
pub fn chosen<'t>(
    alloc: Global,
    c: Box<Expr>,
    a: Box<Expr>,
    at: Offset,
    read: Result<(Box<Expr>, &'t [PlacedToken]), ReadError>,
) -> Result<(Box<Expr>, &'t [PlacedToken]), ReadError>
    ensures { GoesOn {Y = tree.Expr × List AToken} (λ y. (view_box y.0, y.1.now)) read.entry
        (λ x. Some (tree.If (view_box c) (view_box a) (view_box x.0), x.1.now)) result }
{
    let (b, rest) = read?;
    boxed_before(alloc, Expr::If(c, a, b, at), rest)
}

/// A call with the operands that were read, and the tokens after it.
#[inline(never)]
pub fn call<'t>(
    alloc: Global,
    name: &Name,
    statics: Vec<Static>,
    read: Result<(Vec<Expr>, &'t [PlacedToken]), ReadError>,
) -> Result<(Box<Expr>, &'t [PlacedToken]), ReadError>
    ensures { GoesOn {Y = tree.Expr × List AToken} (λ y. (view_box y.0, y.1.now)) read.entry
        (λ x. Some (
          tree.Call name.now (view_statics statics.items)
              (reading.exprs (map view x.0.items)),
          x.1.now,
        )) result }
{
    let (operands, rest) = read?;
    let name = name.copy(alloc)?;
    boxed_before(alloc, Expr::Call(name, statics, operands), rest)
}

/// An iterator with the operands that were read, and the tokens after it.
#[inline(always)]
pub fn iterate<'t>(
    alloc: Global,
    iterator: ArrayIterator,
    operator: Operator,
    size: Static,
    at: Offset,
    read: Result<(Vec<Expr>, &'t [PlacedToken]), ReadError>,
) -> Result<(Box<Expr>, &'t [PlacedToken]), ReadError>
    ensures { GoesOn {Y = tree.Expr × List AToken} (λ y. (view_box y.0, y.1.now)) read.entry
        (λ x. Some (
          tree.Iterate iterator (view_operator operator) (view_static size)
              (reading.exprs (map view x.0.items)),
          x.1.now,
        )) result }
{
    let (operands, rest) = read?;
    let operator = Box::new(alloc, operator)?;
    boxed_before(
        alloc,
        Expr::Iterate(iterator, operator, size, operands, at),
        rest,
    )
}

/// Pushes the tree that was read onto `found`, and returns the tokens after it.
#[inline(never)]
pub fn push_tree<'t>(
    found: &mut Vec<Expr>,
    read: Result<(Box<Expr>, &'t [PlacedToken]), ReadError>,
) -> Result<&'t [PlacedToken], ReadError>
    ensures { GoesOn {Y = List tree.Expr × List AToken}
        (λ rest. (map view found.new.items, rest.now)) read.entry
        (λ x. Some (map view found.old.items ++ view_box x.0 ∷ [], x.1.now)) result }
{
    let (e, rest) = read?;
    found.push(Box::into_inner(e))?;
    Ok(rest)
}
