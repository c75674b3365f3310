//! Static expressions, sizes, clocks and static arguments.

ghost use Rattle.std.specs.Prelude.{◌≡◌, ℕ, Option, List, ◌∷◌, Some, None, IfNone, IfSome};
ghost use Rattle.lb_syntax.specs.Nests.{NestsStatic};
ghost use Rattle.lb_syntax.specs.Reading as reading;
ghost use Rattle.lb_syntax.specs.Readers.{Gives, GoesOn};
ghost use Rattle.lb_syntax.specs.Tree as tree;
ghost use Rattle.lb_syntax.specs.View.{view_static, view_statics, view_sampling};
ghost use Rattle.lb_syntax.specs.Levels as levels;
ghost use Rattle.lb_syntax.specs.declared.token.Mark.TheVariants as m;
ghost use Rattle.lb_syntax.specs.declared.token.Token.{Token as AToken};
ghost use Rattle.lb_syntax.specs.declared.token.Token.TheVariants as token;

use crate::climb::{Grower, Growth, climb};
use crate::level::{ANY_LEVEL, ATOM_LEVEL, Form, Row, arithmetic_of, row_of, unary_level};
use crate::list::{Items, list};
use crate::reader::{ReadError, after, name_at, terminated};
use crate::token::{Mark, PlacedToken, Token};
use crate::tree::{BinaryOperator, Name, Offset, Sampling, Static, UnaryOperator};
use std::alloc::{AllocError, Global};

fn arithmetic_at(token: &Token) -> Option<BinaryOperator>
    ensures { result ≡ reading.arithmetic_at token.now }
{
    match token {
        Token::Mark(mark) => arithmetic_of(*mark),
        _ => None,
    }
}

fn level(s: &Static) -> u8
    ensures { result ≡ levels.static_level (view_static s.now) }
{
    match s {
        Static::Combined(op, ..) => row_of(Form::Data(*op)).level,
        Static::Negated(..) => unary_level(UnaryOperator::Negate),
        _ => ATOM_LEVEL,
    }
}

/// Whether an operator takes `s` as its left operand, where at least level `least` is wanted.
#[tactic(auto, unfolding(crate::specs::Reading::static_takes))]
fn takes(least: u8, row: Row, s: &Static) -> bool
    ensures { result ≡ reading.static_takes least row (view_static s.now) }
{
    least <= row.level && row.left <= level(s)
}

/// A name as a static expression, and the tokens after it.
fn named<'t>(
    alloc: Global,
    x: &Name,
    rest: &'t [PlacedToken],
) -> Result<(Static, &'t [PlacedToken]), ReadError>
    ensures { Gives {Y = tree.Static × List AToken} (λ x. (view_static x.0, x.1.now)) result
        (Some (tree.Named x.now, rest.now)) }
{
    Ok((Static::Named(x.copy(alloc)?), rest))
}

/// The static expression `(s)`, where `s` was read and `)` comes next; its `(` stands at `at`.
fn grouped<'t>(
    alloc: Global,
    at: Offset,
    read: Result<(Static, &'t [PlacedToken]), ReadError>,
) -> Result<(Static, &'t [PlacedToken]), ReadError>
    ensures { GoesOn (λ y. (view_static y.0, y.1.now)) read.entry
        (λ x. reading.grouped (view_static x.0) x.1.now) result }
{
    let (s, rest) = terminated(read, Mark::Close)?;
    Ok((Static::Grouped(Box::new(alloc, s)?, at), rest))
}

/// A reader of static expressions. The reader `inner` of nested ones, which may nest one less deep,
/// is a parameter, so that each function is proved by itself.
#[derive(Copy)]
pub struct StaticGrammar<F> {
    alloc: Global,
    /// The depth to which trees may still nest.
    depth: usize,
    inner: F,
}

impl<F: Copy> Clone for StaticGrammar<F> {
    fn clone(&self) -> Result<StaticGrammar<F>, AllocError> {
        Ok(*self)
    }
}

impl<
    F: Fn(Global, usize, u8, &[PlacedToken]) -> Result<(Static, &[PlacedToken]), ReadError>,
> StaticGrammar<F> {
    fn inner<'t>(
        &self,
        least: u8,
        tokens: &'t [PlacedToken],
    ) -> Result<(Static, &'t [PlacedToken]), ReadError>
        requires { NestsStatic self.now.depth (F.pre self.now.inner) (F.post self.now.inner) }
        ensures { Gives (λ x. (view_static x.0, x.1.now)) result
            (reading.static_tree self.now.depth least tokens.now) }
    {
        (self.inner)(self.alloc, self.depth, least, tokens)
    }

    #[tactic(auto, unfolding(crate::specs::Reading::static_level_at))]
    fn level_at<'t>(
        &self,
        least: u8,
        tokens: &'t [PlacedToken],
    ) -> Result<(Static, &'t [PlacedToken]), ReadError>
        requires { NestsStatic self.now.depth (F.pre self.now.inner) (F.post self.now.inner) }
        ensures { Gives (λ x. (view_static x.0, x.1.now)) result
            (reading.static_level_at (reading.static_tree self.now.depth) least tokens.now) }
    {
        let (first, rest) = self.first(tokens)?;
        climb(self, least, tokens.len(), first, rest)
    }

    #[tactic(auto, unfolding(crate::specs::Reading::static_first))]
    fn first<'t>(&self, tokens: &'t [PlacedToken]) -> Result<(Static, &'t [PlacedToken]), ReadError>
        requires { NestsStatic self.now.depth (F.pre self.now.inner) (F.post self.now.inner) }
        ensures { Gives (λ x. (view_static x.0, x.1.now)) result
            (reading.static_first (reading.static_tree self.now.depth) tokens.now) }
    {
        let [token, rest @ ..] = tokens else {
            return Err(ReadError::Syntax(tokens.len()));
        };
        match token.token() {
            Token::Literal(n) => Ok((Static::Whole(*n, token.start()), rest)),
            Token::Name(x) => named(self.alloc, x, rest),
            Token::Mark(Mark::Open) => self.group(token.start(), rest),
            Token::Mark(Mark::Minus) => self.negation(token.start(), rest),
            Token::Mark(_) => Err(ReadError::Syntax(tokens.len())),
        }
    }

    /// A static expression in parentheses, read after its `(`, which stands at the offset `at`.
    fn group<'t>(
        &self,
        at: Offset,
        tokens: &'t [PlacedToken],
    ) -> Result<(Static, &'t [PlacedToken]), ReadError>
        requires { NestsStatic self.now.depth (F.pre self.now.inner) (F.post self.now.inner) }
        ensures { Gives (λ x. (view_static x.0, x.1.now)) result
            (reading.static_group (reading.static_tree self.now.depth) tokens.now) }
    {
        grouped(self.alloc, at, self.inner(ANY_LEVEL, tokens))
    }

    /// The static expression `- s`, read after its `-`, which stands at the offset `at`.
    #[tactic(auto, unfolding(crate::specs::Reading::static_first))]
    fn negation<'t>(
        &self,
        at: Offset,
        tokens: &'t [PlacedToken],
    ) -> Result<(Static, &'t [PlacedToken]), ReadError>
        requires { NestsStatic self.now.depth (F.pre self.now.inner) (F.post self.now.inner) }
        ensures { Gives (λ x. (view_static x.0, x.1.now)) result
            (reading.static_first (reading.static_tree self.now.depth)
            (token.Mark m.Minus ∷ tokens.now)) }
    {
        let (s, rest) = self.inner(unary_level(UnaryOperator::Negate), tokens)?;
        Ok((Static::Negated(Box::new(self.alloc, s)?, at), rest))
    }
}

impl<F: Fn(Global, usize, u8, &[PlacedToken]) -> Result<(Static, &[PlacedToken]), ReadError>> Grower
    for StaticGrammar<F> {
    type Tree = Static;

    ghost Plain = { tree.Static };

    ghost view = { view_static };

    ghost can_grow = { λ s. NestsStatic s.depth (F.pre s.inner) (F.post s.inner) };

    ghost step_at = { λ s. reading.static_step (reading.static_tree s.depth) };

    fn step<'t>(
        &self,
        least: u8,
        left: Static,
        tokens: &'t [PlacedToken],
    ) -> Result<Growth<'t, Static>, ReadError> {
        let [token, next @ ..] = tokens else {
            return Ok(Growth::Stop(left));
        };
        let Some(op) = arithmetic_at(token.token()) else {
            return Ok(Growth::Stop(left));
        };
        let row = row_of(Form::Data(op));
        if !takes(least, row, &left) {
            return Ok(Growth::Stop(left));
        }
        let (right, rest) = self.inner(row.right, next)?;
        let a = Box::new(self.alloc, left)?;
        let b = Box::new(self.alloc, right)?;
        Ok(Growth::More(Static::Combined(op, a, b, token.start()), rest))
    }
}

#[tactic(auto, unfolding(crate::specs::Reading::static_tree))]
fn static_tree(
    alloc: Global,
    depth: usize,
    least: u8,
    tokens: &[PlacedToken],
) -> Result<(Static, &[PlacedToken]), ReadError>
    ensures { Gives (λ x. (view_static x.0, x.1.now)) result
        (reading.static_tree depth least tokens.now) }
{
    if depth == 0 {
        return Err(ReadError::Syntax(tokens.len()));
    }
    StaticGrammar {
        alloc,
        depth: depth - 1,
        inner: static_tree,
    }
    .level_at(least, tokens)
}

/// The static expression at the front of the tokens, and the tokens after it: of `n + 1]` the sum
/// of `n` and 1, and `]`.
///
/// Errors: `Syntax` where no static expression stands there, and `Memory`.
#[tactic(auto, unfolding(crate::specs::Reading::static_at))]
pub fn static_expression(
    alloc: Global,
    tokens: &[PlacedToken],
) -> Result<(Static, &[PlacedToken]), ReadError>
    ensures { Gives (λ x. (view_static x.0, x.1.now)) result (reading.static_at tokens.now) }
{
    static_tree(alloc, tokens.len(), ANY_LEVEL, tokens)
}

/// A reader of static expressions with `,` or `;` between.
#[derive(Clone, Copy)]
pub struct StaticItems {
    alloc: Global,
}

impl Items for StaticItems {
    type Item = Static;

    ghost Plain = { tree.Static };

    ghost view = { view_static };

    ghost can_read = { λ _. Unit {0} };

    ghost item_at = { λ _. reading.static_at };

    ghost separator_at = { λ _. reading.separator };

    fn item<'t>(
        &self,
        tokens: &'t [PlacedToken],
    ) -> Result<(Static, &'t [PlacedToken]), ReadError> {
        static_expression(self.alloc, tokens)
    }

    #[tactic(auto, unfolding(crate::specs::Reading::separator))]
    fn separator<'t>(&self, tokens: &'t [PlacedToken]) -> Option<&'t [PlacedToken]> {
        separator(tokens)
    }
}

/// The tokens after `,` or `;`, if one comes next.
#[tactic(auto, unfolding(crate::specs::Reading::separator))]
pub fn separator(tokens: &[PlacedToken]) -> Option<&[PlacedToken]>
    ensures none { IfNone result (reading.separator tokens.now ≡ None) }
    ensures some { IfSome result (λ rest. reading.separator tokens.now ≡ Some rest.now) }
{
    match after(Mark::Comma, tokens) {
        Some(rest) => Some(rest),
        None => after(Mark::Semicolon, tokens),
    }
}

/// One static expression or more with `,` or `;` between, as `1, n; 3`, and the tokens after them.
///
/// Errors: those of `static_expression`.
#[tactic(auto, unfolding(crate::specs::Reading::statics_at))]
pub fn statics(
    alloc: Global,
    tokens: &[PlacedToken],
) -> Result<(Vec<Static>, &[PlacedToken]), ReadError>
    ensures { Gives (λ x. (view_statics x.0.items, x.1.now)) result
        (reading.statics_at tokens.now) }
{
    list(alloc, &StaticItems { alloc }, tokens)
}

/// A size after `^`, a literal, a name or a static expression in parentheses, as `3`, `n` and
/// `(n + 1)`, and the tokens after it.
///
/// Errors: those of `static_expression`.
#[tactic(auto, unfolding(crate::specs::Reading::size_at))]
pub fn size(alloc: Global, tokens: &[PlacedToken]) -> Result<(Static, &[PlacedToken]), ReadError>
    ensures { Gives (λ x. (view_static x.0, x.1.now)) result (reading.size_at tokens.now) }
{
    let [token, rest @ ..] = tokens else {
        return Err(ReadError::Syntax(tokens.len()));
    };
    match token.token() {
        Token::Literal(n) => Ok((Static::Whole(*n, token.start()), rest)),
        Token::Name(x) => named(alloc, x, rest),
        Token::Mark(Mark::Open) => grouped(alloc, token.start(), static_expression(alloc, rest)),
        Token::Mark(_) => Err(ReadError::Syntax(tokens.len())),
    }
}

/// The variable of a clock, in parentheses or not.
#[tactic(auto, unfolding(crate::specs::Reading::clock_name_at))]
fn clock_name(alloc: Global, tokens: &[PlacedToken]) -> Result<(Name, &[PlacedToken]), ReadError>
    ensures { Gives (λ x. (x.0, x.1.now)) result (reading.clock_name_at tokens.now) }
{
    match after(Mark::Open, tokens) {
        None => name_at(alloc, tokens),
        Some(inner) => terminated(name_at(alloc, inner), Mark::Close),
    }
}

/// A clock after `when`, as `c`, `(c)`, `not c` and `not (c)`, and the tokens after it.
///
/// Errors: `Syntax` where no clock stands there, and `Memory`.
#[tactic(auto, unfolding(crate::specs::Reading::clock_at))]
pub fn clock(alloc: Global, tokens: &[PlacedToken]) -> Result<(Sampling, &[PlacedToken]), ReadError>
    ensures { Gives (λ x. (view_sampling x.0, x.1.now)) result (reading.clock_at tokens.now) }
{
    let (name, sign) = match after(Mark::Not, tokens) {
        None => (tokens, true),
        Some(next) => (next, false),
    };
    let (variable, rest) = clock_name(alloc, name)?;
    Ok((Sampling { variable, sign }, rest))
}
