//! The reason why a static expression of an instance has no value.
//!
//! Nothing here runs before the refusal is certain.

ghost use Rattle.lb_static.specs.InstanceFaults.{IsValueFault};

use crate::causes::{ValueFault, ValueRule};
use crate::constants::Constants;
use crate::error::StaticError;
use crate::fault_texts::copy_of;
use crate::instance_paths::{InstancePlace, path_to};
use crate::instance_values::InstanceValues;
use crate::resolved::{ResolvedNode, StaticText};
use crate::static_value::{NoValue, Values, value_or_fault};
use lb_syntax::{Constant, Name};
use std::alloc::Global;

/// The first constant with this name, and its place.
fn constant_named<'s>(trees: &'s [Constant], name: &Name) -> Option<(usize, &'s Constant)> {
    for (place, tree) in trees.iter().enumerate() {
        if tree.name.as_str() == name.as_str() {
            return Some((place, tree));
        }
    }
    None
}

/// The reason why the constant `name` has no value: an operator in a value that it needs, or else
/// the first constant that the search meets a second time. Where memory is refused, `is_refused` is
/// set.
fn constant_fault<'s>(
    alloc: Global,
    constants: &Constants<'s>,
    name: &'s Name,
    is_refused: &mut bool,
) -> NoValue<'s> {
    let trees = constants.trees();
    let Ok(mut seen) = vec![in alloc; false; trees.len()] else {
        *is_refused = true;
        return NoValue::Name(name);
    };
    let mut needed = name;
    for _ in 0..=trees.len() {
        let Some((place, tree)) = constant_named(trees, needed) else {
            break;
        };
        needed = &tree.name;
        match seen.get_mut(place) {
            Some(is_seen) if !*is_seen => *is_seen = true,
            _ => break,
        }
        match value_or_fault(&tree.value, constants) {
            Err(NoValue::Name(next)) => needed = next,
            Err(fault) => return fault,
            Ok(_) => break,
        }
    }
    NoValue::Name(needed)
}

/// What has no value in the first static expression of a node that has none. Where memory is
/// refused, `is_refused` is set.
fn node_fault<'s>(
    alloc: Global,
    node: &ResolvedNode<'s>,
    values: &InstanceValues<'s>,
    is_refused: &mut bool,
) -> NoValue<'s> {
    for part in &node.statics {
        let found = match part.text {
            StaticText::Written(expression) => value_or_fault(expression, values),
            StaticText::Named(name) => values.get(name.as_str()).ok_or(NoValue::Name(name)),
        };
        match found {
            Err(NoValue::Name(name)) => {
                return constant_fault(alloc, values.constants, name, is_refused);
            }
            Err(fault) => return fault,
            Ok(_) => {}
        }
    }
    NoValue::Name(&node.tree.name)
}

/// The rule that is broken where something has no value, and its offset. Where memory is refused,
/// `is_refused` is set.
fn broken_rule(alloc: Global, fault: NoValue, is_refused: &mut bool) -> (ValueRule, u32) {
    match fault {
        NoValue::Name(constant) => {
            let name = copy_of(alloc, constant.as_str(), is_refused);
            (ValueRule::Constant { name }, constant.offset)
        }
        NoValue::Negation { operand, offset } => (ValueRule::Negation { operand }, offset),
        NoValue::Operator {
            operator,
            left,
            right,
            offset,
        } => (
            ValueRule::Operator {
                operator,
                left,
                right,
            },
            offset,
        ),
    }
}

/// The error for the first static expression of a node that has no value, in the instance at
/// `place`.
pub fn value_fault(
    alloc: Global,
    node: &ResolvedNode,
    values: &InstanceValues,
    place: &InstancePlace,
) -> StaticError
    ensures { IsValueFault result }
{
    let mut is_refused = false;
    let fault = node_fault(alloc, node, values, &mut is_refused);
    let (rule, offset) = broken_rule(alloc, fault, &mut is_refused);
    let fault = ValueFault {
        rule,
        offset,
        node: copy_of(alloc, node.tree.name.as_str(), &mut is_refused),
        path: path_to(alloc, place, &mut is_refused),
    };
    match Box::new(alloc, fault) {
        Ok(fault) if !is_refused => StaticError::Value(fault),
        _ => StaticError::Memory,
    }
}
