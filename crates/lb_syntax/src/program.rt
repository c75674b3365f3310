//! Programs: constants, nodes and functions.

ghost use Rattle.std.specs.Prelude.{◌≡◌, IfOk};
ghost use Rattle.lb_syntax.specs.ListReading as lists;
ghost use Rattle.lb_syntax.specs.Parts.{view_part, added};
ghost use Rattle.lb_syntax.specs.Programs as reading;
ghost use Rattle.lb_syntax.specs.Readers.{Gives};
ghost use Rattle.lb_syntax.specs.SourceView.{view_constant, view_source};
ghost use Rattle.lb_syntax.specs.Tree as tree;

use crate::list::{Items, list};
use crate::lookahead::at_name;
use crate::node::node_at;
use crate::reader::{ReadError, after, expect, name_at, start_of, terminated};
use crate::statics::static_expression;
use crate::token::{Mark, PlacedToken};
use crate::tree::{Constant, Name, Node, Offset, Source};
use std::alloc::{AllocError, Global};

/// The tokens after `: int`, or all of them if no `:` comes next.
fn skip_type(tokens: &[PlacedToken]) -> Result<&[PlacedToken], ReadError>
    ensures { Gives (λ x. x.now) result (reading.type_at tokens.now) }
{
    match after(Mark::Colon, tokens) {
        None => Ok(tokens),
        Some(rest) => expect(Mark::Int, rest),
    }
}

/// A constant, `n = s;` or `n: int = s;`.
#[tactic(auto, unfolding(crate::specs::Programs::constant_at))]
fn constant_at(
    alloc: Global,
    tokens: &[PlacedToken],
) -> Result<(Constant, &[PlacedToken]), ReadError>
    ensures { Gives (λ x. (view_constant x.0, x.1.now)) result (reading.constant_at tokens.now) }
{
    let (name, rest) = name_at(alloc, tokens)?;
    let rest = skip_type(rest)?;
    with_value(alloc, name, rest)
}

/// The rest of a constant, from `=` on.
fn with_value(
    alloc: Global,
    name: Name,
    tokens: &[PlacedToken],
) -> Result<(Constant, &[PlacedToken]), ReadError>
    ensures { Gives (λ x. (view_constant x.0, x.1.now)) result
        (reading.with_value name tokens.now) }
{
    let rest = expect(Mark::Equal, tokens)?;
    let (value, rest) = terminated(static_expression(alloc, rest), Mark::Semicolon)?;
    Ok((Constant { name, value }, rest))
}

/// A reader of constants, one after the other.
#[derive(Clone, Copy)]
struct ConstantItems {
    alloc: Global,
}

impl Items for ConstantItems {
    type Item = Constant;

    ghost Plain = { tree.Constant };

    ghost view = { view_constant };

    ghost can_read = { λ _. Unit {0} };

    ghost item_at = { λ _. reading.constant_at };

    ghost separator_at = { λ _. lists.at_name };

    fn item<'t>(
        &self,
        tokens: &'t [PlacedToken],
    ) -> Result<(Constant, &'t [PlacedToken]), ReadError> {
        constant_at(self.alloc, tokens)
    }

    fn separator<'t>(&self, tokens: &'t [PlacedToken]) -> Option<&'t [PlacedToken]> {
        at_name(tokens)
    }
}

/// A part of a program.
#[derive(Drop)]
pub enum Part {
    /// `const n = s; k: int = t;`
    Constants(Vec<Constant>),
    /// A node or a function.
    Single(Node),
}

/// The constants after a `const`.
fn constants_part(
    alloc: Global,
    tokens: &[PlacedToken],
) -> Result<(Part, &[PlacedToken]), ReadError>
    ensures { Gives (λ x. (view_part x.0, x.1.now)) result (reading.constants_part tokens.now) }
{
    let (constants, rest) = list(alloc, &ConstantItems { alloc }, tokens)?;
    Ok((Part::Constants(constants), rest))
}

/// A node or a function, read after its word `node` or `function`, which stands at the offset `at`.
fn node_part(
    alloc: Global,
    is_function: bool,
    at: Offset,
    tokens: &[PlacedToken],
) -> Result<(Part, &[PlacedToken]), ReadError>
    ensures { Gives (λ x. (view_part x.0, x.1.now)) result
        (reading.node_part is_function tokens.now) }
{
    let (node, rest) = node_at(alloc, is_function, at, tokens)?;
    Ok((Part::Single(node), rest))
}

/// The constants after a `const`, or a node or a function.
#[tactic(auto, unfolding(crate::specs::Programs::part_at))]
fn part_at(alloc: Global, tokens: &[PlacedToken]) -> Result<(Part, &[PlacedToken]), ReadError>
    ensures { Gives (λ x. (view_part x.0, x.1.now)) result (reading.part_at tokens.now) }
{
    if let Some(rest) = after(Mark::Const, tokens) {
        return constants_part(alloc, rest);
    }
    if let Some(rest) = after(Mark::Node, tokens) {
        return node_part(alloc, false, start_of(tokens), rest);
    }
    match after(Mark::Function, tokens) {
        Some(rest) => node_part(alloc, true, start_of(tokens), rest),
        None => Err(ReadError::Syntax(tokens.len())),
    }
}

/// Adds `part` at the end of the program `source`.
fn add(source: &mut Source, part: Part) -> Result<(), AllocError>
    ensures { IfOk result (λ _.
        view_source source.new ≡ added (view_source source.old) (view_part part)) }
{
    match part {
        Part::Constants(mut constants) => source.constants.append(&mut constants)?,
        Part::Single(node) => source.nodes.push(node)?,
    }
    Ok(())
}

/// The program that all of the tokens spell.
pub fn program(alloc: Global, tokens: &[PlacedToken]) -> Result<Source, ReadError>
    ensures { Gives view_source result (reading.source_at tokens.now) }
{
    let mut source = Source {
        constants: Vec::new(alloc),
        nodes: Vec::new(alloc),
    };
    let mut rest = tokens;
    for _turn in 0..tokens.len() {
        if rest.is_empty() {
            return Ok(source);
        }
        let (part, after) = part_at(alloc, rest)?;
        add(&mut source, part)?;
        rest = after;
    }
    if rest.is_empty() {
        Ok(source)
    } else {
        Err(ReadError::Syntax(rest.len()))
    }
}
