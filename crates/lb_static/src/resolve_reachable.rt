//! The nodes that are reached by name from the node under test and the observer.

ghost use Rattle.std.specs.Prelude.{◌≡◌, ◌<◌, ◌≤◌, ℕ, [], Bool, true, is_some, length, map, nat_lt};
ghost use Rattle.std.specs.Prelude.{option_map, slice_get, OnOk, IfOk, IfErr, MatchOption};
ghost use Rattle.std.specs.List.{list_all};
ghost use Rattle.lb_syntax.specs.SourceView.{view_source};
ghost use Rattle.lb_syntax.specs.Tree.{Node as TreeNode};
ghost use Rattle.lb_static.specs.Elaborated.{program_of};
ghost use Rattle.lb_static.specs.SourceNames.{names_in_source, node_in_source};
ghost use Rattle.lb_static.specs.CountedNames.{Calls, are_named_where, counted, starts_where};
ghost use Rattle.lb_static.specs.NameFaults.{is_told, told_in, IsNameFault};
ghost use Rattle.lb_static.specs.Names.{are_distinct, starts, calls};
ghost use Rattle.lb_static.specs.CalledNodes.{AreResolved, AreStarts, IsStart, Reaches, are_named};
ghost use Rattle.lb_static.specs.CalledNodes.{callees, ids_of};
ghost use Rattle.lb_static.specs.WorkLists.{AreReachable, visited_after_all, within};

use crate::error::StaticError;
use crate::globals::Globals;
use crate::name_faults::unknown_start;
use crate::reachable::{NodeId, Reached};
use crate::resolved::{CallSite, ResolvedNode};
use crate::resolving_nodes::resolve_node;
use crate::work_list::WorkList;
use lb_syntax::Source;
use std::alloc::{AllocError, Global};

/// The place of the node with this name.
fn place_named(source: &Source, name: &str) -> Option<usize>
    ensures { MatchOption result (node_in_source source.now name.now ≡ None)
        (λ place. (place < length source.now.nodes.items)
        × (slice_get (view_source source.now).nodes place
        ≡ node_in_source source.now name.now)) }
{
    for place in 0..source.nodes.len() {
        if source.nodes[place].name.as_str() == name {
            return Some(place);
        }
    }
    None
}

/// Visits the callees of some calls, in text order.
fn visit_callees(calls: &[CallSite], work_list: &mut WorkList) -> Result<(), AllocError>
    requires { list_all (λ s. nat_lt s.callee.0 work_list.old.count) calls.now ≡ true }
    ensures order { OnOk result
        (work_list.new.order ≡ visited_after_all work_list.old.order (callees calls.now)) }
    ensures count { OnOk result (work_list.new.count ≡ work_list.old.count) }
{
    for call in calls {
        work_list.visit(call.callee.0)?;
    }
    Ok(())
}

/// Resolves the names of each node that came up, and visits its callees. No node is resolved yet.
fn resolve_visited<'s>(
    alloc: Global,
    globals: &Globals,
    source: &'s Source,
    work_list: &mut WorkList,
    nodes: &mut Vec<ResolvedNode<'s>>,
) -> Result<(), StaticError>
    requires names { globals.now.names ≡ names_in_source (view_source source.now) }
    requires constants { globals.now.constants ≡ length source.now.constants.items }
    requires count { work_list.old.count ≡ length source.now.nodes.items }
    requires none { nodes.old.items ≡ [] }
    ensures resolved { OnOk result
        (AreResolved (view_source source.now) work_list.old.order work_list.new.order
        nodes.new.items) }
    ensures all { OnOk result (length nodes.new.items ≡ length work_list.new.order) }
    ensures count { OnOk result (work_list.new.count ≡ work_list.old.count) }
    ensures few { OnOk result (length work_list.new.order ≤ work_list.new.count) }
    ensures err { IfErr result (λ e. (start : TreeNode → Bool)
        → AreReachable (view_source source.now).nodes start calls work_list.old.order
        → IsNameFault e (list_all (told_in e (view_source source.now))
        (within (view_source source.now).nodes start calls
        (length (view_source source.now).nodes)))) }
{
    while let Some(place) = work_list.place(nodes.len()) {
        let node = resolve_node(alloc, globals, source, &source.nodes[place])?;
        visit_callees(&node.calls, work_list)?;
        nodes.push(node)?;
    }
    Ok(())
}

/// Visits the node with this name and returns its turn.
fn visit_named(
    alloc: Global,
    source: &Source,
    name: &str,
    work_list: &mut WorkList,
) -> Result<NodeId, StaticError>
    requires count { work_list.old.count ≡ length source.now.nodes.items }
    ensures start { IfOk result (λ id.
        IsStart (view_source source.now) name.now work_list.old.order work_list.new.order id) }
    ensures count { OnOk result (work_list.new.count ≡ work_list.old.count) }
    ensures err { IfErr result (λ e.
        IsNameFault e (counted (is_told e Calls)
        (λ x. is_some (node_in_source source.now x)) name.now)) }
{
    match place_named(source, name) {
        Some(place) => Ok(NodeId(work_list.visit(place)?)),
        None => Err(unknown_start(alloc, name)),
    }
}

/// Visits the node under test and the observer, if there is one.
fn visit_starts(
    alloc: Global,
    source: &Source,
    node: &str,
    observer: Option<&str>,
    work_list: &mut WorkList,
) -> Result<(NodeId, Option<NodeId>), StaticError>
    requires once { are_distinct (names_in_source (view_source source.now)) ≡ true }
    requires none { work_list.old.order ≡ [] }
    requires count { work_list.old.count ≡ length source.now.nodes.items }
    ensures starts { IfOk result (λ found.
        AreStarts (program_of source.now node.now (option_map (λ o. o.now) observer.entry))
        work_list.new.order found.0 found.1) }
    ensures count { OnOk result (work_list.new.count ≡ work_list.old.count) }
    ensures err { IfErr result (λ e. IsNameFault e (starts_where (is_told e)
        (program_of source.now node.now (option_map (λ o. o.now) observer.entry)))) }
{
    let root = visit_named(alloc, source, node, work_list)?;
    match observer {
        None => Ok((root, None)),
        Some(name) => {
            let observer = visit_named(alloc, source, name, work_list)?;
            Ok((root, Some(observer)))
        }
    }
}

/// For each node of the source its place among the nodes that came up, if it did.
fn node_ids(alloc: Global, turns: &[Option<usize>]) -> Result<Vec<Option<NodeId>>, AllocError>
    ensures { IfOk result (λ ids. ids.items ≡ ids_of turns.now) }
{
    let mut ids = Vec::new(alloc);
    for turn in turns {
        ids.push(turn.map(NodeId))?;
    }
    Ok(ids)
}

/// The nodes that are reached from the node under test and from the observer, if there is one. At
/// the start no node came up.
fn reach_all<'s>(
    alloc: Global,
    globals: &Globals,
    source: &'s Source,
    node: &str,
    observer: Option<&str>,
    work_list: &mut WorkList,
) -> Result<Reached<'s>, StaticError>
    requires names { globals.now.names ≡ names_in_source (view_source source.now) }
    requires constants { globals.now.constants ≡ length source.now.constants.items }
    requires once { are_distinct (names_in_source (view_source source.now)) ≡ true }
    requires none { work_list.old.order ≡ [] }
    requires count { work_list.old.count ≡ length source.now.nodes.items }
    ensures { Reaches are_named are_named_where (program_of source.now node.now
        (option_map (λ o. o.now) observer.entry)) result }
{
    let (root, observer) = visit_starts(alloc, source, node, observer, work_list)?;
    let mut nodes = Vec::new(alloc);
    resolve_visited(alloc, globals, source, work_list, &mut nodes)?;
    let ids = node_ids(alloc, work_list.turns())?;
    Ok(Reached {
        nodes,
        ids,
        root,
        observer,
    })
}

/// The nodes that are reached from the node under test and from the observer, if there is one,
/// with their names resolved. An unknown name of a start or of a reached node is refused.
pub fn reach<'s>(
    alloc: Global,
    globals: &Globals,
    source: &'s Source,
    node: &str,
    observer: Option<&str>,
) -> Result<Reached<'s>, StaticError>
    requires names { globals.now.names ≡ names_in_source (view_source source.now) }
    requires constants { globals.now.constants ≡ length source.now.constants.items }
    requires once { are_distinct (names_in_source (view_source source.now)) ≡ true }
    ensures { Reaches are_named are_named_where (program_of source.now node.now
        (option_map (λ o. o.now) observer.entry)) result }
{
    let mut work_list = WorkList::new(alloc, source.nodes.len())?;
    reach_all(alloc, globals, source, node, observer, &mut work_list)
}
