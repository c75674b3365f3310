//! Inputs of an observer that are wired to something of another name.
//!
//! The inputs and then the outputs of the node under test are wired to the inputs of the observer,
//! by their order. So two Booleans that are swapped are not refused.

ghost use Rattle.std.specs.Prelude.{◌≡◌, [], IfOk, None};

use crate::texts::Text;
use lb_refusal::Options;
use lb_syntax::{Declarations, Node, Source, parse};
use std::alloc::{AllocError, Global};

/// The most warnings that are shown.
const MOST: usize = 19;

/// The node of a source with a name.
fn node_of<'s>(tree: &'s Source, name: &str) -> Option<&'s Node> {
    for node in &tree.nodes {
        if node.name.as_str() == name {
            return Some(node);
        }
    }
    None
}

/// The number of names that groups of declarations have.
fn count_of(groups: &[Declarations]) -> usize {
    let mut count: usize = 0;
    for group in groups {
        count = count.saturating_add(group.names.len());
    }
    count
}

/// The name with this number, counted from 0 through the groups; none where they have fewer.
fn name_at(groups: &[Declarations], number: usize) -> Option<&str> {
    let mut left = number;
    for group in groups {
        match group.names.get(left) {
            Some(name) => return Some(name.as_str()),
            None => left = left.saturating_sub(group.names.len()),
        }
    }
    None
}

/// The name of the input or output of the node under test that is wired to an input of an observer,
/// which has a number from 0 on.
fn wired_to(tested: &Node, number: usize) -> Option<&str> {
    let inputs = tested.inputs.as_slice();
    match name_at(inputs, number) {
        Some(name) => Some(name),
        None => name_at(
            tested.outputs.as_slice(),
            number.saturating_sub(count_of(inputs)),
        ),
    }
}

/// Puts the warning that an input of an observer is wired to something of another name.
fn put_warning(
    page: &mut String,
    observer: &Node,
    input: &str,
    tested: &Node,
    other: &str,
) -> Result<(), AllocError> {
    let (observer, tested) = (observer.name.as_str(), tested.name.as_str());
    write!(page, "warning: {observer}.{input} is {tested}.{other}\n")
}

/// Puts a warning for each input of an observer that is wired to something of another name.
fn put_warnings(page: &mut String, observer: &Node, tested: &Node) -> Result<(), AllocError> {
    let inputs = observer.inputs.as_slice();
    let mut told: usize = 0;
    for number in 0..count_of(inputs) {
        match (name_at(inputs, number), wired_to(tested, number)) {
            (Some(input), Some(other)) if input != other && told < MOST => {
                put_warning(page, observer, input, tested, other)?;
                told = told.saturating_add(1);
            }
            _ => {}
        }
    }
    Ok(())
}

/// The warnings for an observer and a node under test, by their names in a source.
fn warnings_in(
    alloc: Global,
    tree: &Source,
    observer: &str,
    tested: &str,
) -> Result<Vec<u8>, AllocError> {
    let mut page = String::new(alloc);
    if let (Some(observer), Some(tested)) = (node_of(tree, observer), node_of(tree, tested)) {
        put_warnings(&mut page, observer, tested)?;
    }
    Ok(page.into_bytes())
}

/// Warnings for a person, one in a line, of each input of the observer that is wired, by place, to
/// something of another name: `warning: safe.trip is pump.alarm`. There are at most 19, and none
/// without an observer.
pub fn wiring_warnings(
    alloc: Global,
    source: &Text<'_>,
    options: &Options,
) -> Result<Vec<u8>, AllocError>
    ensures { options.now.observer ≡ None → IfOk result (λ w. w.items ≡ []) }
{
    let Some(observer) = &options.observer else {
        return Ok(Vec::new(alloc));
    };
    match parse(alloc, source.bytes) {
        Ok(tree) => warnings_in(alloc, &tree, observer.as_str(), options.node.as_str()),
        Err(_) => Ok(Vec::new(alloc)),
    }
}
