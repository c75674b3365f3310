//! The value of an instance that is out of its range.
//!
//! Nothing here runs before the refusal is certain.

ghost use Rattle.lb_static.specs.InstanceFaults.{IsRangeFault};

use crate::causes::{RangeFault, RangeRole};
use crate::error::StaticError;
use crate::fault_texts::copy_of;
use crate::instance_paths::{InstancePlace, path_to};
use crate::instance_values::InstanceValues;
use crate::name_faults::declared_name;
use crate::resolved::{ResolvedNode, Role, StaticPart, StaticText};
use crate::slices::part_of;
use crate::specialize::{LONGEST, WIDEST, size_of};
use crate::static_value::{StaticInt, static_value};
use lb_syntax::{Name, Static};
use std::alloc::Global;

/// A value, and the range in which it has to be.
#[derive(Clone, Copy)]
struct Ranged {
    role: RangeRole,
    offset: u32,
    value: i64,
    least: i64,
    most: i64,
}

/// The least last end of a slice whose first end is `start`.
fn least_end(start: &Static, values: &InstanceValues) -> i64 {
    match static_value(start, values) {
        Some(start) => start.get().max(0),
        None => 0,
    }
}

/// The value of a static expression under the values of names, if it is out of its range.
fn value_outside(part: &StaticPart, value: StaticInt, values: &InstanceValues) -> Option<Ranged> {
    let longest = i64::from(LONGEST);
    let (role, least, most) = match part.role {
        Role::Size | Role::Dimension => (RangeRole::Size, 1, longest),
        Role::Index => (RangeRole::Index, 0, longest - 1),
        Role::SliceStart => (RangeRole::SliceStart, 0, longest - 1),
        Role::SliceEnd(start) => (RangeRole::SliceEnd, least_end(start, values), longest - 1),
        Role::Argument | Role::Value => return None,
    };
    let value = value.get();
    if least <= value && value <= most {
        return None;
    }
    let offset = match part.text {
        StaticText::Written(expression) => expression.offset(),
        StaticText::Named(name) => name.offset,
    };
    Some(Ranged {
        role,
        offset,
        value,
        least,
        most,
    })
}

/// The number of elements of an array of these sizes, or 2 ^ 63 - 1 if there are more.
fn all_elements(sizes: &[StaticInt]) -> i64 {
    let mut elements: u64 = 1;
    for size in sizes {
        elements = elements.saturating_mul(size_of(*size));
    }
    i64::try_from(elements).unwrap_or(i64::MAX)
}

/// The number of elements of a variable of this name, with the range of this number.
fn width(name: &Name, elements: i64) -> Ranged {
    Ranged {
        role: RangeRole::Elements,
        offset: name.offset,
        value: elements,
        least: 0,
        most: WIDEST as i64,
    }
}

/// The first static expression whose value is out of its range in a node whose static expressions
/// have these values, or else the first variable with too many elements.
fn node_fault(node: &ResolvedNode, statics: &[StaticInt], values: &InstanceValues) -> Ranged {
    for place in 0..node.statics.len().min(statics.len()) {
        if let Some(found) = value_outside(&node.statics[place], statics[place], values) {
            return found;
        }
    }
    let tree = node.tree;
    for (place, variable) in node.variables.iter().enumerate() {
        let elements = all_elements(part_of(statics, variable.first_size.0, variable.sizes));
        if elements > WIDEST as i64 {
            return width(declared_name(tree, place).unwrap_or(&tree.name), elements);
        }
    }
    width(&tree.name, 0)
}

/// The error for the first value of a node that is out of its range, in the instance at `place`.
pub fn range_fault(
    alloc: Global,
    node: &ResolvedNode,
    statics: &[StaticInt],
    values: &InstanceValues,
    place: &InstancePlace,
) -> StaticError
    ensures { IsRangeFault result }
{
    let found = node_fault(node, statics, values);
    let mut is_refused = false;
    let fault = RangeFault {
        role: found.role,
        offset: found.offset,
        value: found.value,
        least: found.least,
        most: found.most,
        node: copy_of(alloc, node.tree.name.as_str(), &mut is_refused),
        path: path_to(alloc, place, &mut is_refused),
    };
    match Box::new(alloc, fault) {
        Ok(fault) if !is_refused => StaticError::Range(fault),
        _ => StaticError::Memory,
    }
}
