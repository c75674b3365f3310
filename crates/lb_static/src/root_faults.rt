//! The faults of the interface of the node under test or of the observer.
//!
//! Nothing here runs before the refusal is certain.

ghost use Rattle.lb_static.specs.Interfaces.{IsRootFault};

use crate::causes::{RootFault, RootRule, Start};
use crate::check_interface::has_no_parameters;
use crate::data_type::DataType;
use crate::error::StaticError;
use crate::fault_texts::copy_of;
use crate::interface::Interface;
use crate::name_faults::declared_name;
use crate::reachable::Reached;
use crate::signature::Signature;
use lb_syntax::{Declarations, Name, Node};
use std::alloc::Global;

/// A rule, and the parameter, input or output that breaks it, if one does.
#[derive(Clone, Copy)]
pub struct Broken<'t> {
    rule: RootRule,
    name: Option<&'t Name>,
}

/// The error for a start, by its fault.
fn boxed(alloc: Global, fault: RootFault, is_refused: bool) -> StaticError
    ensures { IsRootFault (Unit {0}) result }
{
    match Box::new(alloc, fault) {
        Ok(fault) if !is_refused => StaticError::Root(fault),
        _ => StaticError::Memory,
    }
}

/// The error for a start that breaks a rule. Its place is that of the parameter, input or output
/// that breaks the rule, or else that of the node.
pub fn root_fault(alloc: Global, start: Start, tree: &Node, broken: Broken) -> StaticError
    ensures { IsRootFault (Unit {0}) result }
{
    let name = broken.name.unwrap_or(&tree.name);
    let mut is_refused = false;
    let fault = RootFault {
        rule: broken.rule,
        start,
        node: copy_of(alloc, tree.name.as_str(), &mut is_refused),
        name: copy_of(alloc, name.as_str(), &mut is_refused),
        offset: name.offset,
    };
    boxed(alloc, fault, is_refused)
}

/// The error for a start that is not among the reached nodes, or has no values.
pub fn missing_fault(alloc: Global, start: Start) -> StaticError
    ensures { IsRootFault (Unit {0}) result }
{
    let fault = RootFault {
        rule: RootRule::SizedTypes,
        start,
        node: String::new(alloc),
        name: String::new(alloc),
        offset: 0,
    };
    boxed(alloc, fault, false)
}

/// The error for the node under test, or else for the observer, that has static parameters.
pub fn parameters_fault(alloc: Global, reached: &Reached) -> StaticError
    ensures { IsRootFault (Unit {0}) result }
{
    let (start, id) = match reached.observer {
        Some(observer) if has_no_parameters(reached, reached.root) => (Start::Observer, observer),
        _ => (Start::UnderTest, reached.root),
    };
    match reached.nodes.get(id.0) {
        Some(node) => {
            let broken = Broken {
                rule: RootRule::NoParameters,
                name: node.tree.parameters.first(),
            };
            root_fault(alloc, start, node.tree, broken)
        }
        None => missing_fault(alloc, start),
    }
}

/// The error for a start in whose types a size is no number.
pub fn type_fault(alloc: Global, start: Start, tree: &Node) -> StaticError
    ensures { IsRootFault (Unit {0}) result }
{
    let broken = Broken {
        rule: RootRule::SizedTypes,
        name: None,
    };
    root_fault(alloc, start, tree, broken)
}

/// The first input that makes the scalar inputs too many.
fn surplus_input<'t>(interface: &Interface<'t>) -> Option<&'t Name> {
    let mut room = Signature::MOST;
    for (place, data_type) in interface.inputs().iter().enumerate() {
        let elements = data_type.element_count();
        if elements > room {
            return declared_name(interface.tree, place);
        }
        room -= elements;
    }
    None
}

/// The rule that the outputs break, which are not one `bool`.
pub fn output_rule<'t>(interface: &Interface<'t>) -> Broken<'t> {
    let first = interface.inputs;
    let (rule, name) = match interface.outputs().len() {
        0 => (RootRule::OneOutput, None),
        1 => (RootRule::TruthOutput, declared_name(interface.tree, first)),
        _ => (
            RootRule::OneOutput,
            declared_name(interface.tree, first.saturating_add(1)),
        ),
    };
    Broken { rule, name }
}

/// The rule that the first of some variables on a clock breaks, if there is one.
fn clocked(groups: &[Declarations]) -> Option<Broken> {
    for group in groups {
        if group.clock.is_some() {
            return Some(Broken {
                rule: RootRule::BaseClock,
                name: group.names.first(),
            });
        }
    }
    None
}

/// The rule that the first input or output on a clock breaks, if there is one.
fn clock_rule(tree: &Node) -> Option<Broken> {
    clocked(&tree.inputs).or(clocked(&tree.outputs))
}

/// The rule that an input or output on a clock breaks, or else the inputs, of which there are too
/// many.
pub fn input_rule<'t>(root: &Interface<'t>) -> Broken<'t> {
    clock_rule(root.tree).unwrap_or(Broken {
        rule: RootRule::FewInputs,
        name: surplus_input(root),
    })
}

/// The rule that the first input of an observer breaks that does not fit what it observes, if any.
fn wiring_rule<'t>(observer: &Interface<'t>, observed: &[DataType]) -> Option<Broken<'t>> {
    let inputs = observer.inputs();
    for (place, input) in inputs.iter().enumerate() {
        let rule = match observed.get(place) {
            Some(data_type) if input.equals(data_type) => continue,
            Some(_) => RootRule::SameType,
            None => RootRule::AsManyInputs,
        };
        return Some(Broken {
            rule,
            name: declared_name(observer.tree, place),
        });
    }
    if inputs.len() == observed.len() {
        return None;
    }
    Some(Broken {
        rule: RootRule::AsManyInputs,
        name: None,
    })
}

/// The rule that an observer breaks that does not fit the node under test.
pub fn observer_rule<'t>(observer: &Interface<'t>, root: &Interface) -> Broken<'t> {
    clock_rule(observer.tree)
        .or(wiring_rule(observer, &root.data_types))
        .unwrap_or(output_rule(observer))
}
