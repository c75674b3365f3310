//! Nodes and functions.

ghost use Rattle.std.specs.Prelude.{ℕ, List};
ghost use Rattle.lb_syntax.specs.Programs as reading;
ghost use Rattle.lb_syntax.specs.Reading as expressions;
ghost use Rattle.lb_syntax.specs.Readers.{Gives};
ghost use Rattle.lb_syntax.specs.Headings.{view_heading};
ghost use Rattle.lb_syntax.specs.SourceView.{view_groups, view_node};

use crate::declaration::{groups, inputs, locals};
use crate::list::{Items, list};
use crate::lookahead::skip;
use crate::reader::{ReadError, after, expect, name_at, terminated};
use crate::statement::body;
use crate::statics::separator;
use crate::token::{Mark, PlacedToken};
use crate::tree::{Declarations, Name, Node, Offset};
use std::alloc::Global;

/// A static parameter, `const n: int`.
#[tactic(auto, unfolding(crate::specs::Programs::parameter_at))]
fn parameter(alloc: Global, tokens: &[PlacedToken]) -> Result<(Name, &[PlacedToken]), ReadError>
    ensures { Gives (λ x. (x.0, x.1.now)) result (reading.parameter_at tokens.now) }
{
    let rest = expect(Mark::Const, tokens)?;
    terminated(terminated(name_at(alloc, rest), Mark::Colon), Mark::Int)
}

/// A reader of static parameters with `,` or `;` between.
#[derive(Clone, Copy)]
struct ParameterItems {
    alloc: Global,
}

impl Items for ParameterItems {
    type Item = Name;

    ghost Plain = { List ℕ };

    ghost view = { λ x. x };

    ghost can_read = { λ _. Unit {0} };

    ghost item_at = { λ _. reading.parameter_at };

    ghost separator_at = { λ _. expressions.separator };

    fn item<'t>(&self, tokens: &'t [PlacedToken]) -> Result<(Name, &'t [PlacedToken]), ReadError> {
        parameter(self.alloc, tokens)
    }

    fn separator<'t>(&self, tokens: &'t [PlacedToken]) -> Option<&'t [PlacedToken]> {
        separator(tokens)
    }
}

/// The static parameters, if there are any.
#[tactic(auto, unfolding(crate::specs::Programs::parameters_at), using(crate::proofs::Names::same))]
fn parameters(
    alloc: Global,
    tokens: &[PlacedToken],
) -> Result<(Vec<Name>, &[PlacedToken]), ReadError>
    ensures { Gives (λ x. (x.0.items, x.1.now)) result (reading.parameters_at tokens.now) }
{
    match after(Mark::OpenStatic, tokens) {
        None => Ok((Vec::new(alloc), tokens)),
        Some(inner) => terminated(
            list(alloc, &ParameterItems { alloc }, inner),
            Mark::CloseStatic,
        ),
    }
}

/// The name of a node, its static parameters, inputs and outputs.
#[derive(Drop)]
pub struct Heading {
    name: Name,
    parameters: Vec<Name>,
    inputs: Vec<Declarations>,
    outputs: Vec<Declarations>,
}

/// A heading, `f<<const n: int>>(a: int) returns (b: int)`.
#[tactic(auto, unfolding(crate::specs::Programs::heading_at))]
fn heading_at(alloc: Global, tokens: &[PlacedToken]) -> Result<(Heading, &[PlacedToken]), ReadError>
    ensures { Gives (λ x. (view_heading x.0, x.1.now)) result (reading.heading_at tokens.now) }
{
    let (name, rest) = name_at(alloc, tokens)?;
    let (parameters, rest) = terminated(parameters(alloc, rest), Mark::Open)?;
    with_inputs(alloc, name, parameters, rest)
}

/// The rest of a heading, from its inputs on, after the `(`.
fn with_inputs(
    alloc: Global,
    name: Name,
    parameters: Vec<Name>,
    tokens: &[PlacedToken],
) -> Result<(Heading, &[PlacedToken]), ReadError>
    ensures { Gives (λ x. (view_heading x.0, x.1.now)) result
        (reading.with_inputs name parameters.items tokens.now) }
{
    let read = terminated(inputs(alloc, tokens), Mark::Close);
    let (inputs, rest) = terminated(terminated(read, Mark::Returns), Mark::Open)?;
    with_outputs(alloc, name, parameters, inputs, rest)
}

/// The rest of a heading, from its outputs on, after `returns (`.
fn with_outputs(
    alloc: Global,
    name: Name,
    parameters: Vec<Name>,
    inputs: Vec<Declarations>,
    tokens: &[PlacedToken],
) -> Result<(Heading, &[PlacedToken]), ReadError>
    ensures { Gives (λ x. (view_heading x.0, x.1.now)) result
        (reading.with_outputs name parameters.items (view_groups inputs.items) tokens.now) }
{
    let (outputs, rest) = terminated(groups(alloc, tokens), Mark::Close)?;
    Ok((
        Heading {
            name,
            parameters,
            inputs,
            outputs,
        },
        rest,
    ))
}

/// A node or a function, read after its word `node` or `function`, which stands at `offset`.
#[tactic(auto, unfolding(crate::specs::Programs::node_at))]
pub fn node_at(
    alloc: Global,
    is_function: bool,
    offset: Offset,
    tokens: &[PlacedToken],
) -> Result<(Node, &[PlacedToken]), ReadError>
    ensures { Gives (λ x. (view_node x.0, x.1.now)) result
        (reading.node_at is_function tokens.now) }
{
    let (heading, rest) = heading_at(alloc, tokens)?;
    let (locals, rest) = locals(alloc, skip(Mark::Semicolon, rest))?;
    let (body, rest) = body(alloc, rest)?;
    Ok((
        Node {
            offset,
            name: heading.name,
            is_function,
            parameters: heading.parameters,
            inputs: heading.inputs,
            outputs: heading.outputs,
            locals,
            body,
        },
        rest,
    ))
}
