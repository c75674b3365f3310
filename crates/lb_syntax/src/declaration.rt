//! Declarations of variables, and lists of names.

ghost use Rattle.std.specs.Prelude.{ℕ, List};
ghost use Rattle.lb_syntax.specs.Grammar.{Group};
ghost use Rattle.lb_syntax.specs.ListReading as lists;
ghost use Rattle.lb_syntax.specs.Programs as reading;
ghost use Rattle.lb_syntax.specs.Reading as expressions;
ghost use Rattle.lb_syntax.specs.Readers as readers;
ghost use Rattle.lb_syntax.specs.Readers.{Gives};
ghost use Rattle.lb_syntax.specs.SourceView.{view_clock, view_group, view_groups};
ghost use Rattle.lb_syntax.specs.Tree as tree;
ghost use Rattle.lb_syntax.specs.View.{view_static};
ghost use Rattle.lb_syntax.specs.declared.token.Mark.TheVariants as mark;

use crate::list::{Items, any, list};
use crate::lookahead::{at_name, skip};
use crate::reader::{ReadError, after, name_at, terminated};
use crate::statics::{clock, static_expression};
use crate::token::{Mark, PlacedToken};
use crate::tree::{Declarations, Kind, Name, Sampling, Static};
use std::alloc::Global;

/// A reader of names with `,` between.
#[derive(Clone, Copy)]
struct NameItems {
    alloc: Global,
}

impl Items for NameItems {
    type Item = Name;

    ghost Plain = { List ℕ };

    ghost view = { λ x. x };

    ghost can_read = { λ _. Unit {0} };

    ghost item_at = { λ _. readers.name_at };

    ghost separator_at = { λ _. readers.expect mark.Comma };

    fn item<'t>(&self, tokens: &'t [PlacedToken]) -> Result<(Name, &'t [PlacedToken]), ReadError> {
        name_at(self.alloc, tokens)
    }

    fn separator<'t>(&self, tokens: &'t [PlacedToken]) -> Option<&'t [PlacedToken]> {
        after(Mark::Comma, tokens)
    }
}

/// Names, `a, b`.
#[tactic(auto, using(crate::proofs::Names::same))]
pub fn names(
    alloc: Global,
    tokens: &[PlacedToken],
) -> Result<(Vec<Name>, &[PlacedToken]), ReadError>
    ensures { Gives (λ x. (x.0.items, x.1.now)) result (reading.names_at tokens.now) }
{
    list(alloc, &NameItems { alloc }, tokens)
}

/// `int` or `bool`.
#[tactic(auto, unfolding(crate::specs::Programs::kind_at))]
fn kind(tokens: &[PlacedToken]) -> Result<(Kind, &[PlacedToken]), ReadError>
    ensures { Gives (λ x. (x.0, x.1.now)) result (reading.kind_at tokens.now) }
{
    if let Some(rest) = after(Mark::Int, tokens) {
        return Ok((Kind::Int, rest));
    }
    match after(Mark::Bool, tokens) {
        Some(rest) => Ok((Kind::Bool, rest)),
        None => Err(ReadError::Syntax(tokens.len())),
    }
}

/// A reader of the sizes of a type, each after `^`.
#[derive(Clone, Copy)]
struct SizeItems {
    alloc: Global,
}

impl Items for SizeItems {
    type Item = Static;

    ghost Plain = { tree.Static };

    ghost view = { view_static };

    ghost can_read = { λ _. Unit {0} };

    ghost item_at = { λ _. expressions.static_at };

    ghost separator_at = { λ _. readers.expect mark.Caret };

    fn item<'t>(
        &self,
        tokens: &'t [PlacedToken],
    ) -> Result<(Static, &'t [PlacedToken]), ReadError> {
        static_expression(self.alloc, tokens)
    }

    fn separator<'t>(&self, tokens: &'t [PlacedToken]) -> Option<&'t [PlacedToken]> {
        after(Mark::Caret, tokens)
    }
}

/// The clock after `when`, if one is written.
#[tactic(auto, unfolding(crate::specs::Programs::when_at))]
fn sampling(
    alloc: Global,
    tokens: &[PlacedToken],
) -> Result<(Option<Sampling>, &[PlacedToken]), ReadError>
    ensures { Gives (λ x. (view_clock x.0, x.1.now)) result (reading.when_at tokens.now) }
{
    match after(Mark::When, tokens) {
        None => Ok((None, tokens)),
        Some(rest) => {
            let (found, rest) = clock(alloc, rest)?;
            Ok((Some(found), rest))
        }
    }
}

/// Variables of one type and clock, `a, b: int^n when c`.
#[tactic(auto, unfolding(crate::specs::Programs::group_at))]
fn group(alloc: Global, tokens: &[PlacedToken]) -> Result<(Declarations, &[PlacedToken]), ReadError>
    ensures { Gives (λ x. (view_group x.0, x.1.now)) result (reading.group_at tokens.now) }
{
    let (names, rest) = terminated(names(alloc, tokens), Mark::Colon)?;
    with_type(alloc, names, rest)
}

/// The group of `names`, read from its type on, after the `:`.
fn with_type(
    alloc: Global,
    names: Vec<Name>,
    tokens: &[PlacedToken],
) -> Result<(Declarations, &[PlacedToken]), ReadError>
    ensures { Gives (λ x. (view_group x.0, x.1.now)) result
        (reading.with_type names.items tokens.now) }
{
    let (kind, rest) = kind(tokens)?;
    let (sizes, rest) = any(alloc, &SizeItems { alloc }, rest)?;
    let (clock, rest) = sampling(alloc, rest)?;
    Ok((
        Declarations {
            names,
            kind,
            sizes,
            clock,
        },
        rest,
    ))
}

/// A reader of groups with `;` between.
#[derive(Clone, Copy)]
struct GroupItems {
    alloc: Global,
}

impl Items for GroupItems {
    type Item = Declarations;

    ghost Plain = { Group };

    ghost view = { view_group };

    ghost can_read = { λ _. Unit {0} };

    ghost item_at = { λ _. reading.group_at };

    ghost separator_at = { λ _. lists.at_next_group };

    fn item<'t>(
        &self,
        tokens: &'t [PlacedToken],
    ) -> Result<(Declarations, &'t [PlacedToken]), ReadError> {
        group(self.alloc, tokens)
    }

    #[tactic(auto, unfolding(crate::specs::ListReading::at_next_group))]
    fn separator<'t>(&self, tokens: &'t [PlacedToken]) -> Option<&'t [PlacedToken]> {
        at_name(after(Mark::Semicolon, tokens)?)
    }
}

/// Groups with `;` between, and perhaps one at the end.
#[tactic(auto, unfolding(crate::specs::Programs::groups_at))]
pub fn groups(
    alloc: Global,
    tokens: &[PlacedToken],
) -> Result<(Vec<Declarations>, &[PlacedToken]), ReadError>
    ensures { Gives (λ x. (view_groups x.0.items, x.1.now)) result (reading.groups_at tokens.now) }
{
    let (groups, rest) = list(alloc, &GroupItems { alloc }, tokens)?;
    Ok((groups, skip(Mark::Semicolon, rest)))
}

/// The groups of the inputs, if there are any, up to the `)` after them.
#[tactic(auto, unfolding(crate::specs::Programs::inputs_at))]
pub fn inputs(
    alloc: Global,
    tokens: &[PlacedToken],
) -> Result<(Vec<Declarations>, &[PlacedToken]), ReadError>
    ensures { Gives (λ x. (view_groups x.0.items, x.1.now)) result (reading.inputs_at tokens.now) }
{
    match after(Mark::Close, tokens) {
        Some(_) => Ok((Vec::new(alloc), tokens)),
        None => groups(alloc, tokens),
    }
}

/// A reader of groups that each end with `;`, with a further `var` before some.
#[derive(Clone, Copy)]
struct LocalItems {
    alloc: Global,
}

impl Items for LocalItems {
    type Item = Declarations;

    ghost Plain = { Group };

    ghost view = { view_group };

    ghost can_read = { λ _. Unit {0} };

    ghost item_at = { λ _. reading.closed_group_at };

    ghost separator_at = { λ _. lists.at_next_local };

    #[tactic(auto, unfolding(crate::specs::Programs::closed_group_at))]
    fn item<'t>(
        &self,
        tokens: &'t [PlacedToken],
    ) -> Result<(Declarations, &'t [PlacedToken]), ReadError> {
        terminated(group(self.alloc, tokens), Mark::Semicolon)
    }

    #[tactic(auto, unfolding(crate::specs::ListReading::at_next_local))]
    fn separator<'t>(&self, tokens: &'t [PlacedToken]) -> Option<&'t [PlacedToken]> {
        match after(Mark::Var, tokens) {
            Some(rest) => Some(rest),
            None => at_name(tokens),
        }
    }
}

/// The groups of the locals, if there are any.
#[tactic(auto, unfolding(crate::specs::Programs::locals_at))]
pub fn locals(
    alloc: Global,
    tokens: &[PlacedToken],
) -> Result<(Vec<Declarations>, &[PlacedToken]), ReadError>
    ensures { Gives (λ x. (view_groups x.0.items, x.1.now)) result (reading.locals_at tokens.now) }
{
    match after(Mark::Var, tokens) {
        Some(rest) => list(alloc, &LocalItems { alloc }, rest),
        None => Ok((Vec::new(alloc), tokens)),
    }
}
