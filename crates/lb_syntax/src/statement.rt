//! Statements of a node.

ghost use Rattle.std.specs.Prelude.{◌≡◌, map, Some, None};
ghost use Rattle.lb_syntax.specs.ListReading as lists;
ghost use Rattle.lb_syntax.specs.Programs as reading;
ghost use Rattle.lb_syntax.specs.Readers.{Gives};
ghost use Rattle.lb_syntax.specs.SourceView.{view_statement};
ghost use Rattle.lb_syntax.specs.Tree as tree;

use crate::declaration::names;
use crate::expression::expression;
use crate::list::{Items, any};
use crate::lookahead::skip;
use crate::reader::{ReadError, after, expect, start_of, terminated};
use crate::token::{Mark, PlacedToken};
use crate::tree::{Name, Offset, Statement};
use std::alloc::Global;

/// The left side of an equation, `a, b` or `(a, b)`.
#[tactic(auto, unfolding(crate::specs::Programs::left_at))]
fn left(alloc: Global, tokens: &[PlacedToken]) -> Result<(Vec<Name>, &[PlacedToken]), ReadError>
    ensures { Gives (λ x. (x.0.items, x.1.now)) result (reading.left_at tokens.now) }
{
    match after(Mark::Open, tokens) {
        None => names(alloc, tokens),
        Some(inner) => terminated(names(alloc, inner), Mark::Close),
    }
}

/// An assertion, read after its first word, which stands at the offset `at`.
fn assertion(
    alloc: Global,
    at: Offset,
    tokens: &[PlacedToken],
) -> Result<(Statement, &[PlacedToken]), ReadError>
    ensures { Gives (λ x. (view_statement x.0, x.1.now)) result
        (reading.statement_by (Some tokens.now) tokens.now) }
{
    let (e, rest) = terminated(expression(alloc, tokens), Mark::Semicolon)?;
    Ok((Statement::Assertion(e, at), rest))
}

/// An equation.
fn equation(alloc: Global, tokens: &[PlacedToken]) -> Result<(Statement, &[PlacedToken]), ReadError>
    ensures { Gives (λ x. (view_statement x.0, x.1.now)) result
        (reading.statement_by None tokens.now) }
{
    let at = start_of(tokens);
    let (names, rest) = terminated(left(alloc, tokens), Mark::Equal)?;
    let (e, rest) = terminated(expression(alloc, rest), Mark::Semicolon)?;
    Ok((Statement::Equation(names, e, at), rest))
}

/// An equation or an assertion.
#[tactic(auto, unfolding(crate::specs::Programs::statement_at))]
fn statement(
    alloc: Global,
    tokens: &[PlacedToken],
) -> Result<(Statement, &[PlacedToken]), ReadError>
    ensures { Gives (λ x. (view_statement x.0, x.1.now)) result (reading.statement_at tokens.now) }
{
    match after(Mark::Assert, tokens) {
        Some(claim) => assertion(alloc, start_of(tokens), claim),
        None => equation(alloc, tokens),
    }
}

/// A reader of statements, up to `tel`.
#[derive(Clone, Copy)]
struct StatementItems {
    alloc: Global,
}

impl Items for StatementItems {
    type Item = Statement;

    ghost Plain = { tree.Statement };

    ghost view = { view_statement };

    ghost can_read = { λ _. Unit {0} };

    ghost item_at = { λ _. reading.statement_at };

    ghost separator_at = { λ _. lists.at_next_statement };

    fn item<'t>(
        &self,
        tokens: &'t [PlacedToken],
    ) -> Result<(Statement, &'t [PlacedToken]), ReadError> {
        statement(self.alloc, tokens)
    }

    #[tactic(auto, unfolding(crate::specs::ListReading::at_next_statement))]
    fn separator<'t>(&self, tokens: &'t [PlacedToken]) -> Option<&'t [PlacedToken]> {
        match after(Mark::Tel, tokens) {
            Some(_) => None,
            None => Some(tokens),
        }
    }
}

/// The tokens after the end of a node, which is `;`, `.` or nothing.
fn end(tokens: &[PlacedToken]) -> &[PlacedToken]
    ensures { result.now ≡ reading.end_at tokens.now }
{
    match after(Mark::Semicolon, tokens) {
        Some(rest) => rest,
        None => skip(Mark::Dot, tokens),
    }
}

/// The statements between `let` and `tel`, and the tokens after the end of the node.
#[tactic(auto, unfolding(crate::specs::Programs::body_at))]
pub fn body(
    alloc: Global,
    tokens: &[PlacedToken],
) -> Result<(Vec<Statement>, &[PlacedToken]), ReadError>
    ensures { Gives (λ x. (map view_statement x.0.items, x.1.now)) result
        (reading.body_at tokens.now) }
{
    let rest = expect(Mark::Let, tokens)?;
    let items = StatementItems { alloc };
    let (body, rest) = terminated(any(alloc, &items, rest), Mark::Tel)?;
    Ok((body, end(rest)))
}
