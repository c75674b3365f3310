//! The errors for names that break a rule.
//!
//! Nothing here runs before the refusal is certain. Where memory is refused, the error is `Memory`.

ghost use Rattle.lb_static.specs.CountedNames.{Calls, Declares, use_of};
ghost use Rattle.lb_static.specs.NameFaults.{TellsName, TellsRule};

use crate::causes::{NameFault, NameRule, Sought};
use crate::error::StaticError;
use crate::fault_texts::copy_of;
use crate::scope::Scope;
use lb_syntax::{Name, Node, Source};
use std::alloc::Global;

/// The scope of a declared name that has to be new there.
#[derive(Clone, Copy)]
pub enum Declaring<'a> {
    /// The constants, nodes and functions of a source.
    Globals(&'a Source),
    /// The variables and static parameters of a node.
    Node(&'a Node),
}

/// The place of a name: in a node, among the globals, or nowhere in the source.
#[derive(Clone, Copy)]
struct Standing<'a> {
    offset: Option<u32>,
    node: Option<&'a Node>,
}

/// The error for a name that breaks a rule.
fn name_fault(alloc: Global, name: &str, rule: NameRule, standing: Standing) -> StaticError
    ensures { TellsRule name.now rule result }
{
    let mut is_refused = false;
    let node = match standing.node {
        Some(node) => Some(copy_of(alloc, node.name.as_str(), &mut is_refused)),
        None => None,
    };
    let fault = NameFault {
        name: copy_of(alloc, name, &mut is_refused),
        rule,
        offset: standing.offset,
        node,
    };
    match Box::new(alloc, fault) {
        Ok(fault) if !is_refused => StaticError::Name(fault),
        _ => StaticError::Memory,
    }
}

/// The error for a node under test or an observer that is not in the source.
pub fn unknown_start(alloc: Global, name: &str) -> StaticError
    ensures { TellsName name.now Calls result }
{
    let standing = Standing {
        offset: None,
        node: None,
    };
    name_fault(alloc, name, NameRule::Unknown(Sought::Node), standing)
}

/// The error for a name that nothing of the sort `sought` has. It stands in `node`, or else in the
/// value of a constant.
pub fn unknown_name(alloc: Global, name: &Name, sought: Sought, node: Option<&Node>) -> StaticError
    ensures { TellsName name.now (use_of sought) result }
{
    let standing = Standing {
        offset: Some(name.offset),
        node,
    };
    name_fault(alloc, name.as_str(), NameRule::Unknown(sought), standing)
}

/// The error for a call of `name` in `node` with `given` static arguments, where `wanted` are
/// needed.
pub fn other_arguments(
    alloc: Global,
    name: &Name,
    wanted: usize,
    given: usize,
    node: &Node,
) -> StaticError
    ensures { TellsName name.now Calls result }
{
    let standing = Standing {
        offset: Some(name.offset),
        node: Some(node),
    };
    let rule = NameRule::Arguments { wanted, given };
    name_fault(alloc, name.as_str(), rule, standing)
}

/// The name at a place among the variables of a node, which are its inputs, outputs and locals, and
/// the static parameters after them.
pub fn declared_name(tree: &Node, place: usize) -> Option<&Name> {
    let mut left = place;
    for groups in [&tree.inputs, &tree.outputs, &tree.locals] {
        for group in groups {
            if let Some(name) = group.names.get(left) {
                return Some(name);
            }
            left = left.saturating_sub(group.names.len());
        }
    }
    tree.parameters.get(left)
}

/// The name at a place among the constants of a source and the nodes after them.
fn global_name(source: &Source, place: usize) -> Option<&Name> {
    if let Some(constant) = source.constants.get(place) {
        return Some(&constant.name);
    }
    match source
        .nodes
        .get(place.saturating_sub(source.constants.len()))
    {
        Some(node) => Some(&node.name),
        None => None,
    }
}

/// The error for a name that is declared twice, where `names` are those that were declared before.
/// Its place is the later one of the two.
pub fn doubled_name(alloc: Global, name: &Name, declaring: Declaring, names: &Scope) -> StaticError
    ensures { TellsName name.now Declares result }
{
    let place = names.place(name.as_str()).unwrap_or(names.len());
    let (first, node) = match declaring {
        Declaring::Globals(source) => (global_name(source, place), None),
        Declaring::Node(node) => (declared_name(node, place), Some(node)),
    };
    let here = name.offset;
    let other = first.unwrap_or(name).offset;
    let standing = Standing {
        offset: Some(here.max(other)),
        node,
    };
    let doubled = NameRule::Doubled {
        first: here.min(other),
    };
    name_fault(alloc, name.as_str(), doubled, standing)
}
