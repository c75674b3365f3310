//! Recursion: no reached node may reach itself by its calls.

ghost use Rattle.std.specs.Prelude.{◌≡◌, ◌<◌, true, map, length, string_bytes, All, IfOk};
ghost use Rattle.lb_static.specs.CallGraphs.{IsCallsAnswer, IsCycleTold, names_at, names_on};
ghost use Rattle.lb_static.specs.CallGraphs.{callee_of, callees_of, graph_of};
ghost use Rattle.lb_static.specs.Instances.{Program};
ghost use Rattle.lb_static.specs.Names.{keeps_names};
ghost use Rattle.lb_static.specs.ReachedNodes.{IsReached};

use crate::causes::{CallCycle, CycleCall};
use crate::cycle::find_cycle;
use crate::error::StaticError;
use crate::reachable::Reached;
use crate::resolved::{CallSite, ResolvedNode};
use std::alloc::{AllocError, Global};

/// The place of the callee of a call, if it is a reached node.
fn callee(reached: &Reached, call: &CallSite) -> Option<usize>
    ensures { result ≡ callee_of reached.now call.now }
{
    let place = reached.called(call)?.0;
    if place < reached.nodes.len() {
        Some(place)
    } else {
        None
    }
}

/// The places of the callees of some calls.
fn callees(alloc: Global, reached: &Reached, calls: &[CallSite]) -> Result<Vec<usize>, AllocError>
    ensures { IfOk result (λ v. v.items ≡ callees_of reached.now calls.now) }
{
    let mut places = Vec::new(alloc);
    for call in calls {
        if let Some(place) = callee(reached, call) {
            places.push(place)?;
        }
    }
    Ok(places)
}

/// The graph of calls: for each reached node, the places of its callees.
fn call_graph(alloc: Global, reached: &Reached) -> Result<Vec<Vec<usize>>, AllocError>
    ensures { IfOk result (λ g. map (λ v. v.items) g.items ≡ graph_of reached.now) }
{
    let mut graph = Vec::new(alloc);
    for node in &reached.nodes {
        graph.push(callees(alloc, reached, &node.calls)?)?;
    }
    Ok(graph)
}

/// The offset of the first call of one node to another.
fn call_offset(reached: &Reached, node: &ResolvedNode, called: usize) -> u32 {
    for call in &node.calls {
        if callee(reached, call) == Some(called) {
            return call.offset;
        }
    }
    let name = &node.tree.name;
    name.offset
}

/// The calls on a cycle of reached nodes: each node calls the next one, and the last one calls the
/// first.
fn cycle_calls(
    alloc: Global,
    reached: &Reached,
    cycle: &[usize],
) -> Result<Vec<CycleCall>, AllocError>
    requires { All (λ i. i < length reached.now.nodes.items) cycle.now }
    ensures { IfOk result (λ calls. map (λ c. string_bytes c.node) calls.items
        ≡ names_at reached.now cycle.now) }
{
    let mut calls = Vec::new(alloc);
    for (turn, place) in cycle.iter().enumerate() {
        let node = &reached.nodes[*place];
        let next = if turn + 1 < cycle.len() {
            cycle[turn + 1]
        } else {
            cycle[0]
        };
        calls.push(CycleCall {
            node: String::from_str(alloc, node.tree.name.as_str())?,
            offset: call_offset(reached, node, next),
        })?;
    }
    Ok(calls)
}

/// A cycle of calls through reached nodes, in a box.
fn call_cycle(
    alloc: Global,
    reached: &Reached,
    cycle: &[usize],
) -> Result<Box<CallCycle>, AllocError>
    requires { All (λ i. i < length reached.now.nodes.items) cycle.now }
    ensures { IfOk result (λ c.
        names_on c.value ≡ names_at reached.now cycle.now) }
{
    let calls = cycle_calls(alloc, reached, cycle)?;
    Ok(Box::new(alloc, CallCycle { calls })?)
}

/// Judges that no reached node reaches itself by its calls.
pub fn check_recursion(alloc: Global, reached: &Reached) -> Result<(), StaticError>
    ensures answer { (P : Program) → keeps_names P ≡ true → IsReached P reached.now →
        IsCallsAnswer P result }
    ensures told { (P : Program) → keeps_names P ≡ true → IsReached P reached.now →
        IsCycleTold P result }
{
    let graph = call_graph(alloc, reached)?;
    match find_cycle(alloc, &graph)? {
        None => Ok(()),
        Some(cycle) => Err(StaticError::Recursion(call_cycle(alloc, reached, &cycle)?)),
    }
}
