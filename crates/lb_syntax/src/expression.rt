//! Expressions, by one climb over the table of levels.
//!
//! An operand is read first. Then each form whose level is high enough takes the tree so far as its
//! left operand, and reads its right operand to a least level of its own: in `a + b * c` the `+`
//! takes `b * c`. Every token is read once. Only the right edge of a left operand is looked at
//! again, and no further than the first prefix form that rules the form out.
//!
//! The functions return a `Box`, so that each level of nesting takes little stack.

ghost use Rattle.std.specs.Prelude.{◌≡◌, ℕ, Option, List, Some, None, map, nat_le, ◌≤◌};
ghost use Rattle.lb_syntax.specs.Levels as levels;
ghost use Rattle.lb_syntax.specs.Nests.{Nests};
ghost use Rattle.lb_syntax.specs.Reading as reading;
ghost use Rattle.lb_syntax.specs.Readers as readers;
ghost use Rattle.lb_syntax.specs.Readers.{Gives};
ghost use Rattle.lb_syntax.specs.Tree as tree;
ghost use Rattle.lb_syntax.specs.View.{view, view_box, view_static, view_statics, view_operator};
ghost use Rattle.lb_syntax.specs.declared.token.Mark.TheVariants as m;
ghost use Rattle.lb_syntax.specs.declared.token.Token.{Token as AToken};

use crate::climb::{Grower, Growth, climb};
use crate::forms::{
    Listed, Single, call, chosen, element, followed, infix_tree, iterate, literal, push_tree,
    replicated, sampled, truth, variable, with_list, with_one,
};
use crate::level::{
    ANY_LEVEL, ATOM_LEVEL, CHOICE_LEVEL, Form, MEMORY_LEVEL, Row, form_of, row_of, unary_level,
};
use crate::list::{Items, finish_list, list_onto};
use crate::reader::{ReadError, after, expect, terminated, then_expect};
use crate::statics::{separator, static_expression, statics};
use crate::token::{Mark, PlacedToken, Token};
use crate::tree::{
    ArrayIterator, BinaryOperator, Expr, Name, Offset, Operator, Static, UnaryOperator,
};
use std::alloc::{AllocError, Global};

fn form_at(token: &Token) -> Option<Form>
    ensures { result ≡ reading.form_at token.now }
{
    match token {
        Token::Mark(mark) => form_of(*mark),
        _ => None,
    }
}

fn level(e: &Expr) -> u8
    ensures { result ≡ levels.level (view e.now) }
{
    match e {
        Expr::Binary(op, ..) => row_of(Form::Data(*op)).level,
        Expr::Arrow(..) | Expr::Fby(..) => row_of(Form::Arrow).level,
        Expr::Join(..) => row_of(Form::Join).level,
        Expr::When(..) => row_of(Form::When).level,
        Expr::Replicate(..) => row_of(Form::Replicate).level,
        Expr::Index(..) | Expr::Slice(..) => row_of(Form::Element).level,
        Expr::If(..) => CHOICE_LEVEL,
        Expr::Unary(op, ..) => unary_level(*op),
        Expr::Pre(..) | Expr::Current(..) => MEMORY_LEVEL,
        Expr::Literal(..) | Expr::Truth(..) | Expr::Variable(_) => ATOM_LEVEL,
        Expr::Group(..) | Expr::Array(..) | Expr::AtMostOne(..) | Expr::Nor(..) => ATOM_LEVEL,
        Expr::Call(..) | Expr::Iterate(..) => ATOM_LEVEL,
    }
}

/// Whether the right edge of `e` has no prefix form of a level below `k`. The search ends at the
/// first one.
fn is_clear(k: u8, e: &Expr) -> bool
    requires { k ≤ 14 }
    ensures { result ≡ nat_le k (levels.edge (view e.now)) }
{
    match e {
        Expr::Binary(_, _, b, _) | Expr::Arrow(_, b, _) => is_clear(k, b),
        Expr::Fby(_, b, _) | Expr::Join(_, b, _) => is_clear(k, b),
        Expr::If(_, _, b, _) => k <= CHOICE_LEVEL && is_clear(k, b),
        Expr::Unary(op, a, _) => k <= unary_level(*op) && is_clear(k, a),
        Expr::Pre(a, _) | Expr::Current(a, _) => k <= MEMORY_LEVEL && is_clear(k, a),
        _ => true,
    }
}

/// Whether a form takes `e` as its left operand, where at least level `least` is wanted.
#[inline(never)]
#[tactic(auto, unfolding(crate::specs::Reading::takes))]
fn takes(least: u8, row: Row, e: &Expr) -> bool
    requires { row.level ≤ 14 }
    ensures { result ≡ reading.takes least row (view e.now) }
{
    least <= row.level && row.left <= level(e) && is_clear(row.level, e)
}

/// The iterator that a name stands for where `<<` follows it.
#[tactic(auto, unfolding(crate::specs::Reading::iterator_of))]
fn iterator_of(name: &Name) -> Option<ArrayIterator>
    ensures { result ≡ reading.iterator_of name.now }
{
    let bytes = name.as_bytes();
    if bytes == b"map".as_slice() {
        Some(ArrayIterator::Map)
    } else if bytes == b"red".as_slice() {
        Some(ArrayIterator::Red)
    } else if bytes == b"fill".as_slice() {
        Some(ArrayIterator::Fill)
    } else {
        None
    }
}

/// The operator that a mark stands for where it may be iterated.
fn symbol_of(mark: Mark) -> Option<BinaryOperator>
    ensures { result ≡ reading.symbol_of mark }
{
    match mark {
        Mark::Plus => Some(BinaryOperator::Plus),
        Mark::Minus => Some(BinaryOperator::Minus),
        Mark::Star => Some(BinaryOperator::Times),
        Mark::And => Some(BinaryOperator::And),
        Mark::Or => Some(BinaryOperator::Or),
        Mark::Xor => Some(BinaryOperator::Xor),
        _ => None,
    }
}

/// Static arguments in `<<` and `>>`, if there are any.
#[tactic(auto, unfolding(crate::specs::Reading::arguments_at))]
fn arguments(
    alloc: Global,
    tokens: &[PlacedToken],
) -> Result<(Vec<Static>, &[PlacedToken]), ReadError>
    ensures { Gives (λ x. (view_statics x.0.items, x.1.now)) result
        (reading.arguments_at tokens.now) }
{
    match after(Mark::OpenStatic, tokens) {
        None => Ok((Vec::new(alloc), tokens)),
        Some(next) => terminated(statics(alloc, next), Mark::CloseStatic),
    }
}

/// After `f<<`, the static arguments of a call up to its operands.
#[inline(never)]
fn static_arguments(
    alloc: Global,
    tokens: &[PlacedToken],
) -> Result<(Vec<Static>, &[PlacedToken]), ReadError>
    ensures { Gives (λ x. (view_statics x.0.items, x.1.now)) result
        (reading.static_arguments_at tokens.now) }
{
    let found = terminated(statics(alloc, tokens), Mark::CloseStatic);
    terminated(found, Mark::Open)
}

/// The node or operator that an iterator applies.
#[tactic(auto, unfolding(crate::specs::Reading::operator_at))]
fn operator(alloc: Global, tokens: &[PlacedToken]) -> Result<(Operator, &[PlacedToken]), ReadError>
    ensures { Gives (λ x. (view_operator x.0, x.1.now)) result (reading.operator_at tokens.now) }
{
    let [token, rest @ ..] = tokens else {
        return Err(ReadError::Syntax(tokens.len()));
    };
    match token.token() {
        Token::Name(f) => {
            let name = f.copy(alloc)?;
            let (found, rest) = arguments(alloc, rest)?;
            Ok((Operator::Node(name, found), rest))
        }
        Token::Mark(mark) => match symbol_of(*mark) {
            Some(op) => Ok((Operator::Symbol(op), rest)),
            None => Err(ReadError::Syntax(tokens.len())),
        },
        Token::Literal(_) => Err(ReadError::Syntax(tokens.len())),
    }
}

fn expect_separator(tokens: &[PlacedToken]) -> Result<&[PlacedToken], ReadError>
    ensures { Gives (λ rest. rest.now) result (reading.separator tokens.now) }
{
    match separator(tokens) {
        Some(rest) => Ok(rest),
        None => Err(ReadError::Syntax(tokens.len())),
    }
}

/// After `<<`, the node or operator that an iterator applies, and its size.
#[inline(always)]
#[tactic(auto, unfolding(crate::specs::Reading::applied_at))]
fn applied(
    alloc: Global,
    tokens: &[PlacedToken],
) -> Result<(Operator, Static, &[PlacedToken]), ReadError>
    ensures { Gives (λ x. ((view_operator x.0, view_static x.1), x.2.now)) result
        (reading.applied_at tokens.now) }
{
    let (f, rest) = operator(alloc, tokens)?;
    let rest = expect_separator(rest)?;
    let (n, rest) = terminated(static_expression(alloc, rest), Mark::CloseStatic)?;
    Ok((f, n, rest))
}

/// A reader of expressions. The reader `inner` of nested ones, which may nest one less deep, is a
/// parameter, so that each function is proved by itself.
#[derive(Copy)]
pub struct Grammar<F> {
    alloc: Global,
    /// The depth to which trees may still nest.
    depth: usize,
    inner: F,
}

impl<F: Copy> Clone for Grammar<F> {
    fn clone(&self) -> Result<Grammar<F>, AllocError> {
        Ok(*self)
    }
}

impl<
    F: Fn(Global, usize, u8, &[PlacedToken]) -> Result<(Box<Expr>, &[PlacedToken]), ReadError>,
> Grammar<F> {
    fn inner<'t>(
        &self,
        least: u8,
        tokens: &'t [PlacedToken],
    ) -> Result<(Box<Expr>, &'t [PlacedToken]), ReadError>
        requires { Nests self.now.depth (F.pre self.now.inner) (F.post self.now.inner) }
        ensures { Gives (λ x. (view_box x.0, x.1.now)) result
            (reading.tree_at self.now.depth least tokens.now) }
    {
        (self.inner)(self.alloc, self.depth, least, tokens)
    }

    #[tactic(auto, unfolding(crate::specs::Reading::level_at))]
    fn level_at<'t>(
        &self,
        least: u8,
        tokens: &'t [PlacedToken],
    ) -> Result<(Box<Expr>, &'t [PlacedToken]), ReadError>
        requires { Nests self.now.depth (F.pre self.now.inner) (F.post self.now.inner) }
        ensures { Gives (λ x. (view_box x.0, x.1.now)) result
            (reading.level_at (reading.tree_at self.now.depth) least tokens.now) }
    {
        let (first, rest) = self.first(tokens)?;
        climb(self, least, tokens.len(), first, rest)
    }

    #[tactic(auto, unfolding(crate::specs::Reading::first))]
    fn first<'t>(
        &self,
        tokens: &'t [PlacedToken],
    ) -> Result<(Box<Expr>, &'t [PlacedToken]), ReadError>
        requires { Nests self.now.depth (F.pre self.now.inner) (F.post self.now.inner) }
        ensures { Gives (λ x. (view_box x.0, x.1.now)) result
            (reading.first (reading.tree_at self.now.depth) tokens.now) }
    {
        let [token, rest @ ..] = tokens else {
            return Err(ReadError::Syntax(tokens.len()));
        };
        match token.token() {
            Token::Literal(n) => literal(self.alloc, *n, token.start(), rest),
            Token::Name(x) => self.named(x, rest),
            Token::Mark(mark) => self.marked(*mark, token.start(), tokens.len(), rest),
        }
    }

    /// The expression that begins with `mark`, read after it. The mark stands at the offset `at`;
    /// from it on, `left` tokens are left.
    #[tactic(auto, unfolding(crate::specs::Reading::marked))]
    fn marked<'t>(
        &self,
        mark: Mark,
        at: Offset,
        left: usize,
        tokens: &'t [PlacedToken],
    ) -> Result<(Box<Expr>, &'t [PlacedToken]), ReadError>
        requires { Nests self.now.depth (F.pre self.now.inner) (F.post self.now.inner) }
        ensures { Gives (λ x. (view_box x.0, x.1.now)) result
            (reading.marked (reading.tree_at self.now.depth) mark tokens.now) }
    {
        let alloc = self.alloc;
        match mark {
            Mark::True => truth(alloc, true, at, tokens),
            Mark::False => truth(alloc, false, at, tokens),
            Mark::Open => self.group(at, tokens),
            Mark::Not => self.unary(UnaryOperator::Not, at, tokens),
            Mark::Minus => self.unary(UnaryOperator::Negate, at, tokens),
            Mark::Pre => self.memory(Single::Pre, at, tokens),
            Mark::Current => self.memory(Single::Current, at, tokens),
            Mark::If => self.choice(at, tokens),
            Mark::OpenBracket => self.array(at, tokens),
            Mark::Hash => self.tuple(Listed::AtMostOne, at, tokens),
            Mark::Nor => self.tuple(Listed::Nor, at, tokens),
            _ => Err(ReadError::Syntax(left)),
        }
    }

    /// An expression in parentheses, read after its `(`.
    #[inline(always)]
    fn group<'t>(
        &self,
        at: Offset,
        tokens: &'t [PlacedToken],
    ) -> Result<(Box<Expr>, &'t [PlacedToken]), ReadError>
        requires { Nests self.now.depth (F.pre self.now.inner) (F.post self.now.inner) }
        ensures { Gives {Y = tree.Expr × List AToken} (λ x. (view_box x.0, x.1.now)) result
            (readers.◌>>=◌ (reading.until (reading.tree_at self.now.depth) m.Close tokens.now)
            (λ x. Some (tree.Group x.0, x.1))) }
    {
        with_one(
            self.alloc,
            Single::Group,
            at,
            self.until(Mark::Close, tokens),
        )
    }

    /// A `pre e` or `current e`, read after its word.
    #[inline(always)]
    fn memory<'t>(
        &self,
        form: Single,
        at: Offset,
        tokens: &'t [PlacedToken],
    ) -> Result<(Box<Expr>, &'t [PlacedToken]), ReadError>
        requires { Nests self.now.depth (F.pre self.now.inner) (F.post self.now.inner) }
        ensures { Gives (λ x. (view_box x.0, x.1.now)) result
            (reading.prefixed (reading.tree_at self.now.depth) (reading.single form)
            levels.memory_level tokens.now) }
    {
        with_one(self.alloc, form, at, self.inner(MEMORY_LEVEL, tokens))
    }

    /// An array, read after its `[`.
    #[inline(always)]
    fn array<'t>(
        &self,
        at: Offset,
        tokens: &'t [PlacedToken],
    ) -> Result<(Box<Expr>, &'t [PlacedToken]), ReadError>
        requires { Nests self.now.depth (F.pre self.now.inner) (F.post self.now.inner) }
        ensures { Gives {Y = tree.Expr × List AToken} (λ x. (view_box x.0, x.1.now)) result
            (readers.◌>>=◌ (reading.list_until (reading.tree_at self.now.depth) m.CloseBracket
            tokens.now) (λ x. Some (tree.Array (reading.exprs x.0), x.1))) }
    {
        with_list(
            self.alloc,
            Listed::Array,
            at,
            self.list_until(Mark::CloseBracket, tokens),
        )
    }

    /// A `#(a, b)` or `nor(a, b)`, read after its `#` or `nor`.
    #[inline(always)]
    fn tuple<'t>(
        &self,
        form: Listed,
        at: Offset,
        tokens: &'t [PlacedToken],
    ) -> Result<(Box<Expr>, &'t [PlacedToken]), ReadError>
        requires { Nests self.now.depth (F.pre self.now.inner) (F.post self.now.inner) }
        ensures { Gives {Y = tree.Expr × List AToken} (λ x. (view_box x.0, x.1.now)) result
            (readers.◌>>=◌ (reading.items (reading.tree_at self.now.depth) tokens.now)
            (λ x. Some (reading.listed form (reading.exprs x.0), x.1))) }
    {
        with_list(self.alloc, form, at, self.items(tokens))
    }

    #[inline(always)]
    fn unary<'t>(
        &self,
        op: UnaryOperator,
        at: Offset,
        tokens: &'t [PlacedToken],
    ) -> Result<(Box<Expr>, &'t [PlacedToken]), ReadError>
        requires { Nests self.now.depth (F.pre self.now.inner) (F.post self.now.inner) }
        ensures { Gives (λ x. (view_box x.0, x.1.now)) result
            (reading.prefixed (reading.tree_at self.now.depth) (tree.Unary op)
            (levels.unary_level op) tokens.now) }
    {
        with_one(
            self.alloc,
            Single::Unary(op),
            at,
            self.inner(unary_level(op), tokens),
        )
    }

    /// Any expression, and then a mark.
    #[inline(always)]
    #[tactic(auto, unfolding(crate::specs::Reading::until))]
    fn until<'t>(
        &self,
        mark: Mark,
        tokens: &'t [PlacedToken],
    ) -> Result<(Box<Expr>, &'t [PlacedToken]), ReadError>
        requires { Nests self.now.depth (F.pre self.now.inner) (F.post self.now.inner) }
        ensures { Gives (λ x. (view_box x.0, x.1.now)) result
            (reading.until (reading.tree_at self.now.depth) mark tokens.now) }
    {
        terminated(self.inner(ANY_LEVEL, tokens), mark)
    }

    #[inline(always)]
    #[tactic(auto, unfolding(crate::specs::Reading::choice))]
    fn choice<'t>(
        &self,
        at: Offset,
        tokens: &'t [PlacedToken],
    ) -> Result<(Box<Expr>, &'t [PlacedToken]), ReadError>
        requires { Nests self.now.depth (F.pre self.now.inner) (F.post self.now.inner) }
        ensures { Gives (λ x. (view_box x.0, x.1.now)) result
            (reading.choice (reading.tree_at self.now.depth) tokens.now) }
    {
        let (c, rest) = self.until(Mark::Then, tokens)?;
        let (c, a, rest) = followed(c, self.until(Mark::Else, rest))?;
        chosen(self.alloc, c, a, at, self.inner(CHOICE_LEVEL, rest))
    }

    /// The expression that begins with `name`, read after it.
    #[tactic(auto, unfolding(crate::specs::Reading::named))]
    fn named<'t>(
        &self,
        name: &Name,
        tokens: &'t [PlacedToken],
    ) -> Result<(Box<Expr>, &'t [PlacedToken]), ReadError>
        requires { Nests self.now.depth (F.pre self.now.inner) (F.post self.now.inner) }
        ensures { Gives (λ x. (view_box x.0, x.1.now)) result
            (reading.named (reading.tree_at self.now.depth) name.now tokens.now) }
    {
        match after(Mark::OpenStatic, tokens) {
            None => self.plain(name, tokens),
            Some(next) => match iterator_of(name) {
                Some(i) => self.iterate(i, name.offset, next),
                None => self.static_call(name, next),
            },
        }
    }

    /// A variable, or a call without static arguments.
    fn plain<'t>(
        &self,
        name: &Name,
        tokens: &'t [PlacedToken],
    ) -> Result<(Box<Expr>, &'t [PlacedToken]), ReadError>
        requires { Nests self.now.depth (F.pre self.now.inner) (F.post self.now.inner) }
        ensures { Gives (λ x. (view_box x.0, x.1.now)) result
            (reading.plain_by (reading.tree_at self.now.depth) name.now
            (readers.expect m.Open tokens.now) tokens.now) }
    {
        match after(Mark::Open, tokens) {
            None => variable(self.alloc, name, tokens),
            Some(next) => call(self.alloc, name, Vec::new(self.alloc), self.operands(next)),
        }
    }

    /// An iterator, read after `map<<`, `red<<` or `fill<<`.
    #[tactic(auto, unfolding(crate::specs::Reading::iterate))]
    fn iterate<'t>(
        &self,
        i: ArrayIterator,
        at: Offset,
        tokens: &'t [PlacedToken],
    ) -> Result<(Box<Expr>, &'t [PlacedToken]), ReadError>
        requires { Nests self.now.depth (F.pre self.now.inner) (F.post self.now.inner) }
        ensures { Gives (λ x. (view_box x.0, x.1.now)) result
            (reading.iterate (reading.tree_at self.now.depth) i tokens.now) }
    {
        let (f, n, rest) = applied(self.alloc, tokens)?;
        iterate(self.alloc, i, f, n, at, self.items(rest))
    }

    /// A call with static arguments, read after `f<<`.
    #[inline(never)]
    #[tactic(auto, unfolding(crate::specs::Reading::static_call))]
    fn static_call<'t>(
        &self,
        name: &Name,
        tokens: &'t [PlacedToken],
    ) -> Result<(Box<Expr>, &'t [PlacedToken]), ReadError>
        requires { Nests self.now.depth (F.pre self.now.inner) (F.post self.now.inner) }
        ensures { Gives (λ x. (view_box x.0, x.1.now)) result
            (reading.static_call (reading.tree_at self.now.depth) name.now tokens.now) }
    {
        let (found, rest) = static_arguments(self.alloc, tokens)?;
        call(self.alloc, name, found, self.operands(rest))
    }

    /// The operands of a call, if there are any, and its `)`, read after `f(`.
    #[inline(always)]
    #[tactic(auto, unfolding(crate::specs::Reading::operands))]
    fn operands<'t>(
        &self,
        tokens: &'t [PlacedToken],
    ) -> Result<(Vec<Expr>, &'t [PlacedToken]), ReadError>
        requires { Nests self.now.depth (F.pre self.now.inner) (F.post self.now.inner) }
        ensures { Gives (λ x. (map view x.0.items, x.1.now)) result
            (reading.operands (reading.tree_at self.now.depth) tokens.now) }
    {
        match after(Mark::Close, tokens) {
            Some(rest) => Ok((Vec::new(self.alloc), rest)),
            None => self.list_until(Mark::Close, tokens),
        }
    }

    /// One expression or more in parentheses.
    #[inline(always)]
    #[tactic(auto, unfolding(crate::specs::Reading::items))]
    fn items<'t>(
        &self,
        tokens: &'t [PlacedToken],
    ) -> Result<(Vec<Expr>, &'t [PlacedToken]), ReadError>
        requires { Nests self.now.depth (F.pre self.now.inner) (F.post self.now.inner) }
        ensures { Gives (λ x. (map view x.0.items, x.1.now)) result
            (reading.items (reading.tree_at self.now.depth) tokens.now) }
    {
        let next = expect(Mark::Open, tokens)?;
        self.list_until(Mark::Close, next)
    }

    /// One expression or more, and then a mark.
    #[inline(always)]
    #[tactic(auto, unfolding(crate::specs::Reading::list_until), using(crate::proofs::Fronts::id))]
    fn list_until<'t>(
        &self,
        mark: Mark,
        tokens: &'t [PlacedToken],
    ) -> Result<(Vec<Expr>, &'t [PlacedToken]), ReadError>
        requires { Nests self.now.depth (F.pre self.now.inner) (F.post self.now.inner) }
        ensures { Gives (λ x. (map view x.0.items, x.1.now)) result
            (reading.list_until (reading.tree_at self.now.depth) mark tokens.now) }
    {
        let mut found = Vec::new(self.alloc);
        let end = list_onto(self, &mut found, tokens);
        finish_list(found, then_expect(end, mark))
    }

    /// The tree of a form with the left operand `left`, read after the mark of the form. The mark
    /// stands at the offset `at`.
    fn longer<'t>(
        &self,
        left: Box<Expr>,
        form: Form,
        at: Offset,
        tokens: &'t [PlacedToken],
    ) -> Result<(Box<Expr>, &'t [PlacedToken]), ReadError>
        requires { Nests self.now.depth (F.pre self.now.inner) (F.post self.now.inner) }
        ensures { Gives (λ x. (view_box x.0, x.1.now)) result
            (reading.longer (reading.tree_at self.now.depth) (view_box left) form tokens.now) }
    {
        let alloc = self.alloc;
        match form {
            Form::When => sampled(alloc, left, at, tokens),
            Form::Replicate => replicated(alloc, left, at, tokens),
            Form::Element => element(alloc, left, at, tokens),
            _ => self.infix(left, form, at, tokens),
        }
    }

    /// The tree of an infix form with the left operand `left`, read after the mark of the form.
    #[tactic(auto, unfolding(crate::specs::Reading::infix_at))]
    fn infix<'t>(
        &self,
        left: Box<Expr>,
        form: Form,
        at: Offset,
        tokens: &'t [PlacedToken],
    ) -> Result<(Box<Expr>, &'t [PlacedToken]), ReadError>
        requires { Nests self.now.depth (F.pre self.now.inner) (F.post self.now.inner) }
        ensures { Gives (λ x. (view_box x.0, x.1.now)) result
            (reading.infix_at (reading.tree_at self.now.depth) (view_box left) form tokens.now) }
    {
        infix_tree(
            self.alloc,
            form,
            left,
            at,
            self.inner(row_of(form).right, tokens),
        )
    }
}

impl<
    F: Fn(Global, usize, u8, &[PlacedToken]) -> Result<(Box<Expr>, &[PlacedToken]), ReadError>,
> Items for Grammar<F> {
    type Item = Expr;

    ghost Plain = { tree.Expr };

    ghost view = { view };

    ghost can_read = { λ s. Nests s.depth (F.pre s.inner) (F.post s.inner) };

    ghost item_at = { λ s. reading.tree_at s.depth 1 };

    ghost separator_at = { λ _. readers.expect m.Comma };

    fn item<'t>(&self, tokens: &'t [PlacedToken]) -> Result<(Expr, &'t [PlacedToken]), ReadError> {
        let (e, rest) = self.inner(ANY_LEVEL, tokens)?;
        Ok((Box::into_inner(e), rest))
    }

    #[inline(always)]
    fn push_item<'t>(
        &self,
        found: &mut Vec<Expr>,
        tokens: &'t [PlacedToken],
    ) -> Result<&'t [PlacedToken], ReadError> {
        push_tree(found, self.inner(ANY_LEVEL, tokens))
    }

    fn separator<'t>(&self, tokens: &'t [PlacedToken]) -> Option<&'t [PlacedToken]> {
        after(Mark::Comma, tokens)
    }
}

impl<
    F: Fn(Global, usize, u8, &[PlacedToken]) -> Result<(Box<Expr>, &[PlacedToken]), ReadError>,
> Grower for Grammar<F> {
    type Tree = Box<Expr>;

    ghost Plain = { tree.Expr };

    ghost view = { view_box };

    ghost can_grow = { λ s. Nests s.depth (F.pre s.inner) (F.post s.inner) };

    ghost step_at = { λ s. reading.step (reading.tree_at s.depth) };

    fn step<'t>(
        &self,
        least: u8,
        left: Box<Expr>,
        tokens: &'t [PlacedToken],
    ) -> Result<Growth<'t, Box<Expr>>, ReadError> {
        let [token, next @ ..] = tokens else {
            return Ok(Growth::Stop(left));
        };
        let Some(form) = form_at(token.token()) else {
            return Ok(Growth::Stop(left));
        };
        if !takes(least, row_of(form), &left) {
            return Ok(Growth::Stop(left));
        }
        let (longer, rest) = self.longer(left, form, token.start(), next)?;
        Ok(Growth::More(longer, rest))
    }
}

#[tactic(auto, unfolding(crate::specs::Reading::tree_at))]
fn tree_at(
    alloc: Global,
    depth: usize,
    least: u8,
    tokens: &[PlacedToken],
) -> Result<(Box<Expr>, &[PlacedToken]), ReadError>
    ensures { Gives (λ x. (view_box x.0, x.1.now)) result (reading.tree_at depth least tokens.now) }
{
    if depth == 0 {
        return Err(ReadError::Syntax(tokens.len()));
    }
    Grammar {
        alloc,
        depth: depth - 1,
        inner: tree_at,
    }
    .level_at(least, tokens)
}

/// The expression at the front of the tokens, and the tokens after it: of `a + b; c` the sum of
/// `a` and `b`, and `; c`.
///
/// Errors: `Syntax` where no expression stands there, and `Memory`.
#[tactic(auto, unfolding(crate::specs::Reading::expression_at))]
pub fn expression(
    alloc: Global,
    tokens: &[PlacedToken],
) -> Result<(Expr, &[PlacedToken]), ReadError>
    ensures { Gives (λ x. (view x.0, x.1.now)) result (reading.expression_at tokens.now) }
{
    let (e, rest) = tree_at(alloc, tokens.len(), ANY_LEVEL, tokens)?;
    Ok((Box::into_inner(e), rest))
}
