//! The instantiation of a program.
//!
//! The node under test comes first, then the observer, and each instance comes before those that it
//! calls. An instance is refused where there are too many before it or above it, where a static
//! expression has no value, and where a value is out of its range, in this order.
//!
//! A node with values of its parameters is evaluated once. Where it is called again with equal
//! values, the values of its static expressions are taken from the table. The instances below it
//! are instantiated again, since each has its own row.

ghost use Rattle.std.specs.Prelude.{◌≡◌, ◌≤◌, ◌<◌, ◌+◌, ◌-◌, ◌^◌, ◌++◌, ◌∷◌, [], ℕ, true, length};
ghost use Rattle.std.specs.Prelude.{option_map, slice_get, IfSome, IfOk, IfErr, OnOk};
ghost use Rattle.std.specs.List.{list_all};
ghost use Rattle.lb_static.specs.Instances.{Program, Path, instances_from};
ghost use Rattle.lb_static.specs.InstanceTable.{instance_of, path_from, paths_after};
ghost use Rattle.lb_static.specs.InstanceTable.{CallerStandsBefore, CallersStandBefore};
ghost use Rattle.lb_static.specs.HeldValues.{value_of};
ghost use Rattle.lb_static.specs.Names.{keeps_names};
ghost use Rattle.lb_static.specs.ReachedNodes.{IsReached, is_linked, id_at};
ghost use Rattle.lb_static.specs.StaticValues.{constant_value};
ghost use Rattle.lb_static.specs.ResolvedNodes.{node_of};
ghost use Rattle.lb_static.specs.ResolvedTerms.{is_site_within};
ghost use Rattle.lb_static.specs.LinkedSpecializations.{AreCalled, AreLinked, AreSpecialized};
ghost use Rattle.lb_static.specs.Instantiation.{level, instantiation_refusal, instance_refusal};
ghost use Rattle.lb_static.specs.Instantiated.{AreSound, IsInstantiable, IsBegun, IsKnownWith};
ghost use Rattle.lb_static.specs.Instantiated.{IsJudged, AreJudged, IsKnown, HasGrown, IsRefusal};
ghost use Rattle.lb_static.specs.InstanceFaults.{IsLimitFault};
ghost use Rattle.lb_static.specs.Instantiated.{AreEntered, values_at, times_of};
ghost use Rattle.lb_static.specs.Instantiated.{IsInstantiationAnswer};
ghost use Rattle.lb_static.specs.InstanceRows.{HasUsed, HasRows, IsSpecializedRow, IsOneMore};
ghost use Rattle.lb_static.specs.InstanceRows.{AreInstances};
ghost use Rattle.lb_static.specs.declared.resolved.ResolvedNode.{ResolvedNode};

use crate::causes::{Limit, LimitFault};
use crate::constants::Constants;
use crate::error::StaticError;
use crate::instance_paths::{InstancePlace, path_to};
use crate::instance_values::InstanceValues;
use crate::reachable::{NodeId, Reached};
use crate::resolved::{CallId, CallSite};
use crate::specializations::Specializations;
use crate::specialize::{size_of, specialize};
use crate::static_value::StaticInt;
use crate::table::{Instance, InstanceId, Origin, Specialization, SpecializationId, Table};
use std::alloc::Global;

/// The most instances that a program may have.
const MOST_INSTANCES: usize = 4096;

/// The most levels of instances.
const MOST_LEVELS: u32 = 64;

/// The callee of a call site of an instance: a node, the values of its static parameters, and how
/// often it is called.
#[derive(Clone, Copy)]
struct Callee<'a> {
    node: NodeId,
    values: &'a [StaticInt],
    count: u32,
}

/// The callee of a call site, where `statics` are the values of the static expressions of its node.
fn callee_of<'a>(reached: &Reached, site: &CallSite, statics: &'a [StaticInt]) -> Callee<'a>
    requires linked { is_linked reached.now site.now ≡ true }
    requires within { is_site_within (length reached.now.ids.items)
        (record { variables = 0; statics = length statics.now; calls = 0 }) site.now ≡ true }
    ensures node { id_at reached.now site.now.callee ≡ Some result.node }
    ensures within { result.node.0 < length reached.now.nodes.items }
    ensures values { result.values.now
        ≡ values_at statics.now site.now.first_argument site.now.arguments }
    ensures count { result.count ≡ times_of statics.now site.now.count }
{
    let first = site.first_argument.0;
    let count = match site.count {
        Some(count) => size_of(statics[count.0]) as u32,
        None => 1,
    };
    let node = reached.called(site).unwrap();
    Callee {
        node,
        values: &statics[first..first + site.arguments],
        count,
    }
}

/// The specializations and instances that were entered so far.
#[derive(Drop)]
struct Entered {
    specializations: Specializations,
    instances: Vec<Instance>,
}

/// An instance to enter: its node, its origin, and its level.
#[derive(Clone, Copy)]
struct Entry {
    node: NodeId,
    origin: Origin,
    level: u32,
}

/// An instance whose calls are not entered yet.
#[derive(Drop)]
struct Begun {
    /// The specialization of the instance, if it was entered before.
    known: Option<SpecializationId>,
    /// The values of the static expressions of the instance.
    statics: Vec<StaticInt>,
}

/// The begun instance of a node with values of its static parameters. If its specialization was
/// found, the values of its static expressions are copied from there.
fn begun_from(
    alloc: Global,
    place: &InstancePlace,
    constants: &Constants,
    found: Option<(SpecializationId, &Specialization)>,
    node: NodeId,
    values: &[StaticInt],
) -> Result<Begun, StaticError>
    requires sound { AreSound place.now.reached.now }
    requires within { node.0 < length place.now.reached.now.nodes.items }
    ensures known { IfOk result (λ b. IfSome b.known (λ id.
        option_map (λ f. f.0) found.entry ≡ Some id)) }
    ensures sized { IfOk result (λ b. (n : ResolvedNode)
        → slice_get place.now.reached.now.nodes.items node.0 ≡ Some n
        → length b.statics.items ≡ length n.statics.items) }
    ensures judged { (P : Program) (p : Path) (n : ResolvedNode) (before : ℕ)
        → IsInstantiable P place.now.reached.now constants.now
        → slice_get place.now.reached.now.nodes.items node.0 ≡ Some n
        → IsKnownWith P place.now.reached.now found.entry node values.now
        → before < 4096 → level P p ≤ 64
        → IsBegun P before n (instance_of p (node_of n) values.now) result }
{
    let resolved = &place.reached.nodes[node.0];
    if let Some((id, specialization)) = found {
        if specialization.statics.len() == resolved.statics.len() {
            let held = Vec::from_slice(alloc, &specialization.statics)?;
            return Ok(Begun {
                known: Some(id),
                statics: held,
            });
        }
    }
    let values = InstanceValues {
        parameters: &resolved.tree.parameters,
        values,
        constants,
    };
    let statics = specialize(alloc, resolved, &values, place)?;
    Ok(Begun {
        known: None,
        statics,
    })
}

/// The error for an instance that is past a limit, where `place.instances` were entered before it.
fn limit_fault(alloc: Global, place: &InstancePlace) -> StaticError
    ensures { IsLimitFault result }
{
    let limit = if place.instances.len() >= MOST_INSTANCES {
        Limit::Instances
    } else {
        Limit::Levels
    };
    let mut is_refused = false;
    let path = path_to(alloc, place, &mut is_refused);
    match Box::new(alloc, LimitFault { limit, path }) {
        Ok(fault) if !is_refused => StaticError::Instances(fault),
        _ => StaticError::Memory,
    }
}

/// Enters an instance; its calls and its specialization are left to be entered.
fn begin(
    alloc: Global,
    reached: &Reached,
    constants: &Constants,
    entered: &mut Entered,
    entry: Entry,
    values: &[StaticInt],
) -> Result<Begun, StaticError>
    requires sound { AreSound reached.now }
    requires within { entry.node.0 < length reached.now.nodes.items }
    requires few { length entered.old.specializations ≤ length entered.old.instances.items }
    requires room { length entered.old.instances.items ≤ 4096 }
    ensures few { OnOk result (length entered.old.instances.items < 4096) }
    ensures low { OnOk result (entry.level ≤ 64) }
    ensures row { OnOk result (entered.new.instances.items ≡ entered.old.instances.items
        ++ (record { specialization = record { 0 = 0 }; origin = entry.origin }) ∷ []) }
    ensures same { OnOk result
        (entered.new.specializations ≡ entered.old.specializations) }
    ensures known { IfOk result (λ b. IfSome b.known
        (IsKnown entered.old.specializations entry.node values.now)) }
    ensures sized { IfOk result (λ b. (n : ResolvedNode)
        → slice_get reached.now.nodes.items entry.node.0 ≡ Some n
        → length b.statics.items ≡ length n.statics.items) }
    ensures judged { (P : Program) (p : Path) (n : ResolvedNode)
        → IsInstantiable P reached.now constants.now
        → slice_get reached.now.nodes.items entry.node.0 ≡ Some n → level P p ≡ entry.level
        → AreJudged P reached.now entered.old.specializations
        → IsBegun P (length entered.old.instances.items) n (instance_of p (node_of n) values.now)
        result }
{
    if entered.instances.len() >= MOST_INSTANCES || entry.level > MOST_LEVELS {
        let place = InstancePlace {
            reached,
            instances: &entered.instances,
            origin: entry.origin,
        };
        return Err(limit_fault(alloc, &place));
    }
    entered.instances.push(Instance {
        specialization: SpecializationId(0),
        origin: entry.origin,
    })?;
    let found = entered.specializations.find(alloc, entry.node, values)?;
    let place = InstancePlace {
        reached,
        instances: &entered.instances,
        origin: entry.origin,
    };
    begun_from(alloc, &place, constants, found, entry.node, values)
}

/// Gives an instance that was begun its specialization, which is added if it is new.
fn add_specialization(
    alloc: Global,
    entered: &mut Entered,
    row: usize,
    node: NodeId,
    values: &[StaticInt],
    begun: Begun,
    callees: Vec<SpecializationId>,
) -> Result<SpecializationId, StaticError>
    requires within { row < length entered.old.instances.items }
    requires few { length entered.old.specializations < 2 ^ 32 }
    requires known { IfSome begun.known
        (IsKnown entered.old.specializations node values.now) }
    ensures err { IfErr result (λ e. e ≡ StaticError.Memory) }
    ensures rows { OnOk result
        (length entered.new.instances.items ≡ length entered.old.instances.items) }
    ensures more { OnOk result (length entered.new.specializations
        ≤ length entered.old.specializations + 1) }
    ensures grown { OnOk result
        (HasGrown entered.old.specializations entered.new.specializations) }
    ensures known { IfOk result
        (IsKnown entered.new.specializations node values.now) }
    ensures judged { (P : Program) (r : Reached) → node.0 < length r.nodes.items
        → AreJudged P r entered.old.specializations
        → ((p : Path) (n : ResolvedNode) → slice_get r.nodes.items node.0 ≡ Some n
        → IsJudged P n (instance_of p (node_of n) values.now) begun.statics.items)
        → OnOk result (AreJudged P r entered.new.specializations) }
    ensures linked_calls { (r : Reached) (n : ResolvedNode)
        → slice_get r.nodes.items node.0 ≡ Some n
        → AreLinked r entered.old.specializations
        → AreCalled r entered.old.specializations begun.statics.items n.calls.items
        callees.items
        → OnOk result (AreLinked r entered.new.specializations) }
    ensures placed { IfOk result (λ id.
        IsSpecializedRow row id entered.old.instances.items entered.new.instances.items) }
    ensures one_more { IfOk result (λ id. IsOneMore id.0
        entered.old.specializations entered.new.specializations) }
{
    let id = match begun.known {
        Some(id) => id,
        None => {
            let values = Vec::from_slice(alloc, values)?;
            let specialization = Specialization {
                node,
                values,
                statics: begun.statics,
                callees,
            };
            entered.specializations.add(alloc, specialization)?
        }
    };
    entered.instances[row].specialization = id;
    Ok(id)
}

/// Enters an instance and all instances below it, and returns its specialization.
fn enter(
    alloc: Global,
    reached: &Reached,
    constants: &Constants,
    entered: &mut Entered,
    entry: Entry,
    values: &[StaticInt],
) -> Result<SpecializationId, StaticError>
    requires sound { AreSound reached.now }
    requires within { entry.node.0 < length reached.now.nodes.items }
    requires few { length entered.old.specializations ≤ length entered.old.instances.items }
    requires room { length entered.old.instances.items ≤ 4096 }
    requires low { entry.level ≤ 65 }
    ensures few { OnOk result
        (length entered.new.specializations + length entered.old.instances.items
        ≤ length entered.old.specializations + length entered.new.instances.items) }
    ensures more { OnOk result
        (length entered.old.instances.items < length entered.new.instances.items) }
    ensures room { OnOk result (length entered.new.instances.items ≤ 4096) }
    ensures grown { OnOk result
        (HasGrown entered.old.specializations entered.new.specializations) }
    ensures known { IfOk result
        (IsKnown entered.new.specializations entry.node values.now) }
    ensures ok { IfOk result (λ _. (P : Program) (p : Path) (n : ResolvedNode)
        → IsInstantiable P reached.now constants.now
        → slice_get reached.now.nodes.items entry.node.0 ≡ Some n → level P p ≡ entry.level
        → AreJudged P reached.now entered.old.specializations
        → AreJudged P reached.now entered.new.specializations
        × AreEntered P (length entered.old.instances.items)
        (instances_from P (66 - entry.level) (instance_of p (node_of n) values.now))
        (length entered.new.instances.items)) }
    ensures err { IfErr result (λ e. (P : Program) (p : Path) (n : ResolvedNode)
        → IsInstantiable P reached.now constants.now
        → slice_get reached.now.nodes.items entry.node.0 ≡ Some n → level P p ≡ entry.level
        → AreJudged P reached.now entered.old.specializations
        → IsRefusal (instantiation_refusal P (length entered.old.instances.items)
        (instances_from P (66 - entry.level) (instance_of p (node_of n) values.now))) e) }
    ensures linked_calls { IfOk result (λ _. (P : Program) (p : Path) (n : ResolvedNode)
        → IsInstantiable P reached.now constants.now
        → slice_get reached.now.nodes.items entry.node.0 ≡ Some n → level P p ≡ entry.level
        → AreJudged P reached.now entered.old.specializations
        → AreLinked reached.now entered.old.specializations
        → AreLinked reached.now entered.new.specializations) }
    ensures used { OnOk result
        (HasUsed entered.old.specializations entered.new.specializations
        entered.old.instances.items entered.new.instances.items) }
    ensures callers { OnOk result
        (CallerStandsBefore (length entered.old.instances.items) entry.origin
        → CallersStandBefore entered.old.instances.items
        → CallersStandBefore entered.new.instances.items) }
    ensures stand { IfOk result (λ _. (P : Program) (p : Path) (n : ResolvedNode)
        → IsInstantiable P reached.now constants.now
        → slice_get reached.now.nodes.items entry.node.0 ≡ Some n → level P p ≡ entry.level
        → AreJudged P reached.now entered.old.specializations
        → path_from (paths_after [] entered.old.instances.items) entry.origin ≡ p
        → HasRows reached.now entered.new.specializations
        entered.old.instances.items entered.new.instances.items
        (instances_from P (66 - entry.level) (instance_of p (node_of n) values.now))) }
{
    let row = entered.instances.len();
    let begun = begin(alloc, reached, constants, entered, entry, values)?;
    let mut callees = Vec::new(alloc);
    for (call, site) in reached.nodes[entry.node.0].calls.iter().enumerate() {
        let callee = callee_of(reached, site, &begun.statics);
        let mut called = None;
        for index in 0..callee.count {
            let below = Entry {
                node: callee.node,
                origin: Origin::Called {
                    caller: InstanceId(row as u32),
                    call: CallId(call),
                    index,
                },
                level: entry.level + 1,
            };
            let id = enter(alloc, reached, constants, entered, below, callee.values)?;
            called = Some(id);
        }
        if let Some(id) = called {
            callees.push(id)?;
        }
    }
    add_specialization(alloc, entered, row, entry.node, values, begun, callees)
}

/// The table of the instances of a program: those of the node under test, then those of the
/// observer. A refusal is by the first instance with a fault.
pub fn instantiate(
    alloc: Global,
    reached: &Reached,
    constants: &Constants,
) -> Result<Table, StaticError>
    requires { (P : Program) × IsReached P reached.now }
    ensures answer { (P : Program) → keeps_names P ≡ true → IsReached P reached.now
        → value_of constants.now
        ≡ constant_value P.source.constants (length P.source.constants)
        → IsInstantiationAnswer P reached.now result }
    ensures specialized { (P : Program) → keeps_names P ≡ true → IsReached P reached.now
        → value_of constants.now
        ≡ constant_value P.source.constants (length P.source.constants)
        → IfOk result (AreSpecialized P reached.now) }
    ensures rows { (P : Program) → keeps_names P ≡ true → IsReached P reached.now
        → value_of constants.now
        ≡ constant_value P.source.constants (length P.source.constants)
        → IfOk result (AreInstances P reached.now) }
{
    let mut entered = Entered {
        specializations: Specializations::new(alloc),
        instances: Vec::new(alloc),
    };
    let under_test = Entry {
        node: reached.root,
        origin: Origin::UnderTest,
        level: 1,
    };
    let root = enter(alloc, reached, constants, &mut entered, under_test, &[])?;
    let observer = match reached.observer {
        Some(node) if node.0 < reached.nodes.len() => {
            let entry = Entry {
                node,
                origin: Origin::Observer,
                level: 1,
            };
            let id = enter(alloc, reached, constants, &mut entered, entry, &[])?;
            Some(id)
        }
        _ => None,
    };
    let specializations = entered.specializations.into_vec(alloc)?;
    Ok(Table {
        specializations,
        instances: entered.instances,
        root,
        observer,
    })
}
