//! A node with values of its static parameters: the values of its static expressions.
//!
//! Each static expression of the node is evaluated once, and its value is held at its place. Sizes,
//! indexes and slices are judged by these values alone.

ghost use Rattle.std.specs.Prelude.{◌≡◌, ◌≤◌, ◌<◌, ◌+◌, ◌^◌, nat_le, true, IfOk, option_map};
ghost use Rattle.std.specs.Prelude.{length, pos};
ghost use Rattle.std.specs.List.{list_all};
ghost use Rattle.lb_syntax.specs.View.{view_static};
ghost use Rattle.lb_static.specs.ResolvedTerms.{static_of, is_declared_within, are_statics};
ghost use Rattle.lb_static.specs.ResolvedNodes.{counts_of};
ghost use Rattle.lb_static.specs.StaticValues.{value_under};
ghost use Rattle.lb_static.specs.Specialized.{given_by, part_value, part_values, count_between};
ghost use Rattle.lb_static.specs.Specialized.{runs_forward, part_passes, are_in_range, size_of};
ghost use Rattle.lb_static.specs.Specialized.{times_sizes, is_narrow, node_in_range, IsEvaluated};
ghost use Rattle.lb_static.specs.StaticParts.{purpose_of};

use crate::error::StaticError;
use crate::instance_paths::InstancePlace;
use crate::instance_values::InstanceValues;
use crate::range_faults::range_fault;
use crate::resolved::{ResolvedNode, Role, StaticPart, StaticText, Variable};
use crate::static_value::{StaticInt, Values, static_value};
use crate::value_faults::value_fault;
use lb_syntax::Static;
use std::alloc::{AllocError, Global};

/// The most elements of an array.
pub const LONGEST: u32 = 4096;

/// The most scalar elements of a declared type.
pub const WIDEST: u64 = 65536;

/// The value of a static expression, or of a name that stands in an expression.
fn part_value(part: &StaticPart, values: &InstanceValues) -> Option<StaticInt>
    ensures { result ≡ part_value (given_by values.now) part.now }
{
    match part.text {
        StaticText::Written(expression) => static_value(expression, values),
        StaticText::Named(name) => values.get(name.as_str()),
    }
}

/// The values of static expressions, if each of them has one.
fn part_values(
    alloc: Global,
    parts: &[StaticPart],
    values: &InstanceValues,
) -> Result<Option<Vec<StaticInt>>, AllocError>
    ensures { IfOk result (λ o.
        option_map (λ v. v.items) o ≡ part_values (given_by values.now) parts.now) }
{
    let mut all = Vec::with_capacity(alloc, parts.len())?;
    for part in parts {
        match part_value(part, values) {
            Some(value) => all.push(value)?,
            None => return Ok(None),
        }
    }
    Ok(Some(all))
}

/// Whether a value is within bounds.
fn is_between(value: StaticInt, low: u32, high: u32) -> bool
    ensures { result ≡ count_between low high (Some value) }
{
    i64::from(low) <= value.get() && value.get() <= i64::from(high)
}

/// Whether a slice does not run backwards, from the value of `start`, if it has one, to `end`.
fn ends_after(start: &Static, end: StaticInt, values: &InstanceValues) -> bool
    ensures { result
        ≡ runs_forward (value_under (given_by values.now) (view_static start.now)) (Some end) }
{
    match static_value(start, values) {
        Some(start) => 0 <= start.get() && start.get() <= end.get(),
        None => false,
    }
}

/// Whether a value is within the range that its role allows, under the values of names.
fn part_passes(role: Role, value: StaticInt, values: &InstanceValues) -> bool
    ensures { result ≡ part_passes (given_by values.now) (purpose_of role.entry) (Some value) }
{
    match role {
        Role::Size | Role::Dimension => is_between(value, 1, LONGEST),
        Role::Index | Role::SliceStart => is_between(value, 0, LONGEST - 1),
        Role::SliceEnd(start) => is_between(value, 0, LONGEST - 1)
            && ends_after(start, value, values),
        Role::Argument | Role::Value => true,
    }
}

/// Whether each value is within the range that the role of its static expression allows.
fn are_in_range(parts: &[StaticPart], statics: &[StaticInt], values: &InstanceValues) -> bool
    requires { length statics.now ≡ length parts.now }
    ensures { result ≡ are_in_range (given_by values.now) parts.now statics.now }
{
    for (place, value) in statics.iter().enumerate() {
        if !part_passes(parts[place].role, *value, values) {
            return false;
        }
    }
    true
}

/// A size as a number; a negative size counts as 0.
pub fn size_of(value: StaticInt) -> u64
    ensures value { result ≡ size_of value }
    ensures within { result < 2 ^ 32 }
{
    let number = value.get();
    if number < 0 { 0 } else { number as u64 }
}

/// The product of the sizes of an array, or 65,537 for all that are more than 65,536.
pub fn elements_of(sizes: &[StaticInt]) -> u64
    ensures value { result ≡ times_sizes 1 sizes.now }
    ensures within { result ≤ 65537 }
{
    let mut elements = 1;
    for size in sizes {
        elements = (elements * size_of(*size)).min(WIDEST + 1);
    }
    elements
}

/// Whether no variable has more than 65,536 elements.
fn are_narrow(variables: &[Variable], values: &[StaticInt]) -> bool
    requires { list_all (λ v. nat_le (v.first_size.0 + v.sizes) (length values.now)) variables.now
        ≡ true }
    ensures { result ≡ list_all (is_narrow values.now) variables.now }
{
    for variable in variables {
        let first = variable.first_size.0;
        if elements_of(&values[first..first + variable.sizes]) > WIDEST {
            return false;
        }
    }
    true
}

/// The values of the static expressions of a node under values of names, in the order of the node.
/// Each has a value in its range, or the node is refused. `place` is the place of the instance.
pub fn specialize(
    alloc: Global,
    node: &ResolvedNode,
    values: &InstanceValues,
    place: &InstancePlace,
) -> Result<Vec<StaticInt>, StaticError>
    requires { list_all (is_declared_within (counts_of node.now)) node.now.variables.items ≡ true }
    ensures { IsEvaluated (given_by values.now) node.now result }
{
    let Some(statics) = part_values(alloc, &node.statics, values)? else {
        return Err(value_fault(alloc, node, values, place));
    };
    if are_in_range(&node.statics, &statics, values) && are_narrow(&node.variables, &statics) {
        Ok(statics)
    } else {
        Err(range_fault(alloc, node, &statics, values, place))
    }
}
