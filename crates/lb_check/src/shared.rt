//! The shared part of the specializations of a node. A statement that keeps the rules of types by
//! the shared part alone is judged once for all of them.
//!
//! ```text
//! static values of f<<3>>:     3    9    4
//! static values of f<<5>>:     5    9    4
//! what they share:            -1    9    4
//! ```

ghost use Rattle.std.specs.Prelude.{◌≡◌, ◌&&◌, map, IfOk, slice_get};
ghost use Rattle.std.specs.List.{list_all, zip};
ghost use Rattle.lb_static.specs.Arithmetic.{is_int};
ghost use Rattle.lb_static.specs.declared.reachable.Reached.{Reached as ReachedNodes};
ghost use Rattle.lb_static.specs.declared.resolved.ResolvedNode.{ResolvedNode as Node};
ghost use Rattle.lb_check.specs.SharedTypes as mirror;
ghost use Rattle.lb_check.specs.StoredTypes.{context_in};
ghost use Rattle.lb_check.specs.TermTypes.{context_of, is_resolved_statement_typed};

use crate::part_types::PartTypes;
use crate::type_env::TypeEnv;
use crate::type_rules::is_statement_typed;
use lb_static::{NodeId, Reached, Specialization, SpecializationId, StaticInt, Table, part_of};
use std::alloc::{AllocError, Global};

/// The shared part of some specializations of a node.
#[derive(Drop)]
pub struct SharedPart {
    /// The shared part as a specialization of the node: -1, which is no size and no index, stands
    /// for static values that differ, and a number past all specializations for callees that
    /// differ.
    pub part: Specialization,
    /// For each statement of the node, in text order, whether it keeps the rules of types by the
    /// shared part alone.
    pub settled: Vec<bool>,
}

/// Narrows shared values to those that these values share too: -1 stands where they differ.
fn narrow_values(shared: &mut [StaticInt], values: &[StaticInt]) {
    for (place, value) in values.iter().enumerate() {
        if place < shared.len() && shared[place].get() != value.get() {
            shared[place] = StaticInt::from_int(-1);
        }
    }
}

/// Narrows shared callees to those that these callees share too: a number past all specializations
/// stands where they differ.
fn narrow_callees(shared: &mut [SpecializationId], callees: &[SpecializationId]) {
    for (place, callee) in callees.iter().enumerate() {
        if place < shared.len() && shared[place].0 != callee.0 {
            shared[place] = SpecializationId(u32::MAX);
        }
    }
}

/// Narrows a shared part to what this specialization shares too.
fn narrow(shared: &mut Specialization, specialization: &Specialization) {
    narrow_values(&mut shared.statics, &specialization.statics);
    narrow_callees(&mut shared.callees, &specialization.callees);
}

/// A copy of a specialization, without the values of its static parameters.
fn copy(alloc: Global, specialization: &Specialization) -> Result<Specialization, AllocError> {
    Ok(Specialization {
        node: specialization.node,
        values: Vec::new(alloc),
        statics: specialization.statics.clone()?,
        callees: specialization.callees.clone()?,
    })
}

/// A part of no node, which stands for no specialization.
fn blank(alloc: Global, reached: &Reached) -> Specialization {
    Specialization {
        node: NodeId(reached.nodes.len()),
        values: Vec::new(alloc),
        statics: Vec::new(alloc),
        callees: Vec::new(alloc),
    }
}

/// For each reached node, the shared part of its specializations from place `from` on, blank where
/// there are none. Nothing is promised of it: a specialization for which it does not stand is
/// judged by itself.
fn shared_specializations(
    alloc: Global,
    reached: &Reached,
    table: &Table,
    from: usize,
) -> Result<Vec<Specialization>, AllocError> {
    let mut all = Vec::new(alloc);
    for _ in 0..reached.nodes.len() {
        all.push(blank(alloc, reached))?;
    }
    for specialization in part_of(&table.specializations, from, table.specializations.len()) {
        if let Some(shared) = all.get_mut(specialization.node.0) {
            if shared.node.0 == specialization.node.0 {
                narrow(shared, specialization);
            } else {
                *shared = copy(alloc, specialization)?;
            }
        }
    }
    Ok(all)
}

/// For each statement of a node, whether it keeps the rules of types.
fn typed_statements(alloc: Global, env: &TypeEnv) -> Result<Vec<bool>, AllocError>
    ensures { IfOk result (λ settled. settled.items
        ≡ map (is_resolved_statement_typed (context_in env.now)) env.now.node.now.body.items) }
{
    let mut settled = Vec::new(alloc);
    let mut parts = PartTypes::none(alloc);
    for statement in &env.node.body {
        settled.push(is_statement_typed(alloc, env, statement, &mut parts)?)?;
    }
    Ok(settled)
}

/// A shared part, with the statements that keep the rules of types by it.
fn judged_part(
    alloc: Global,
    reached: &Reached,
    table: &Table,
    part: Specialization,
) -> Result<SharedPart, AllocError>
    ensures { IfOk result (mirror.IsJudgedPart reached.now table.now) }
{
    let Some(node) = reached.nodes.get(part.node.0) else {
        let settled = Vec::new(alloc);
        return Ok(SharedPart { part, settled });
    };
    let env = TypeEnv {
        reached,
        table,
        node,
        specialization: &part,
    };
    let settled = typed_statements(alloc, &env)?;
    Ok(SharedPart { part, settled })
}

/// For each reached node, the shared part of its specializations from place `from` on, with the
/// statements that keep the rules of types by it.
pub fn shared_parts(
    alloc: Global,
    reached: &Reached,
    table: &Table,
    from: usize,
) -> Result<Vec<SharedPart>, AllocError>
    ensures { IfOk result (λ parts. mirror.AreJudgedParts reached.now table.now parts.items) }
{
    let mut parts = Vec::new(alloc);
    for part in shared_specializations(alloc, reached, table, from)? {
        parts.push(judged_part(alloc, reached, table, part)?)?;
    }
    Ok(parts)
}

/// Whether a number is in the range of `int`.
fn is_int(value: i64) -> bool
    ensures { result ≡ is_int value }
{
    i64::from(i32::MIN) <= value && value <= i64::from(i32::MAX)
}

/// Whether a shared value stands for a static value: it is the value, or both are an `int` and the
/// shared one is negative.
fn is_value_shared(shared: StaticInt, value: StaticInt) -> bool
    ensures { result ≡ mirror.is_value_shared shared value }
{
    shared.get() == value.get()
        || (shared.natural().is_none() && (is_int(shared.get()) && is_int(value.get())))
}

/// Whether shared values stand for static values, place by place, as far as both go.
fn all_values_shared(shared: &[StaticInt], values: &[StaticInt]) -> bool
    ensures { result ≡ list_all (λ p. mirror.is_value_shared p.0 p.1) (zip shared.now values.now) }
{
    shared
        .iter()
        .zip(values.iter())
        .all(|(one, value)| is_value_shared(*one, *value))
}

/// Whether shared values stand for static values, place by place.
fn are_values_shared(shared: &[StaticInt], values: &[StaticInt]) -> bool
    ensures { result ≡ mirror.all_paired mirror.is_value_shared shared.now values.now }
{
    all_values_shared(shared, values) && shared.len() == values.len()
}

/// Whether a shared callee stands for a callee: it is the callee, or no specialization's number.
fn is_callee_shared(table: &Table, shared: SpecializationId, callee: SpecializationId) -> bool
    ensures { result ≡ mirror.is_callee_shared table.now shared callee }
{
    shared.0 == callee.0 || table.specializations.len() <= shared.0 as usize
}

/// Whether shared callees stand for callees, place by place, as far as both go.
fn all_callees_shared(
    table: &Table,
    shared: &[SpecializationId],
    callees: &[SpecializationId],
) -> bool
    ensures { result ≡ list_all (λ p. mirror.is_callee_shared table.now p.0 p.1)
        (zip shared.now callees.now) }
{
    shared
        .iter()
        .zip(callees.iter())
        .all(|(one, callee)| is_callee_shared(table, *one, *callee))
}

/// Whether shared callees stand for callees, place by place.
fn are_callees_shared(
    table: &Table,
    shared: &[SpecializationId],
    callees: &[SpecializationId],
) -> bool
    ensures { result
        ≡ mirror.all_paired (mirror.is_callee_shared table.now) shared.now callees.now }
{
    all_callees_shared(table, shared, callees) && shared.len() == callees.len()
}

/// Whether a shared part stands for this specialization.
fn is_part_shared(table: &Table, shared: &Specialization, specialization: &Specialization) -> bool
    ensures { result ≡ mirror.is_part_shared table.now shared.now specialization.now }
{
    shared.node.0 == specialization.node.0
        && (are_values_shared(&shared.statics, &specialization.statics)
            && are_callees_shared(table, &shared.callees, &specialization.callees))
}

/// For each statement of a specialization, in text order, whether the shared part settles that it
/// keeps the rules of types; empty where the shared part does not stand for the specialization.
pub fn settled_statements<'a>(
    parts: &'a [SharedPart],
    table: &Table,
    specialization: &Specialization,
) -> &'a [bool]
    ensures { (r : ReachedNodes) (n : Node) → mirror.AreJudgedParts r table.now parts.now →
        slice_get r.nodes.items specialization.now.node.0 ≡ Some n →
        mirror.AreSettled (context_of r table.now n specialization.now) result.now n.body.items }
{
    match parts.get(specialization.node.0) {
        Some(shared) if is_part_shared(table, &shared.part, specialization) => &shared.settled,
        _ => &[],
    }
}
