//! Paths to instances: the calls that lead to an instance.

use crate::causes::{CallPath, CallStep, Start};
use crate::fault_texts::copy_of;
use crate::reachable::{NodeId, Reached};
use crate::resolved::{CallId, CallSite};
use crate::table::{Instance, Origin};
use std::alloc::{AllocError, Global};

/// The place of an instance among the calls, whose callers are among `instances`.
#[derive(Clone, Copy)]
pub struct InstancePlace<'a, 's> {
    pub reached: &'a Reached<'s>,
    pub instances: &'a [Instance],
    pub origin: Origin,
}

/// The call site of a call of a node.
fn called_site<'r>(reached: &'r Reached, node: NodeId, call: CallId) -> Option<&'r CallSite> {
    match reached.nodes.get(node.0) {
        Some(node) => node.calls.get(call.0),
        None => None,
    }
}

/// The name of a reached node. Where memory is refused it is empty, and `is_refused` is set.
fn name_of(alloc: Global, reached: &Reached, node: NodeId, is_refused: &mut bool) -> String {
    match reached.nodes.get(node.0) {
        Some(node) => copy_of(alloc, node.tree.name.as_str(), is_refused),
        None => String::new(alloc),
    }
}

/// Sets the start of a path to the node under test, or to the observer where `origin` is that of
/// the observer, and returns the node.
fn start_path(
    alloc: Global,
    reached: &Reached,
    origin: Origin,
    path: &mut CallPath,
    is_refused: &mut bool,
) -> NodeId {
    let (start, node) = match (origin, reached.observer) {
        (Origin::Observer, Some(observer)) => (Start::Observer, observer),
        _ => (Start::UnderTest, reached.root),
    };
    path.start = start;
    path.node = name_of(alloc, reached, node, is_refused);
    node
}

/// Makes an empty path lead to the instance with this origin, whose callers are among `instances`,
/// and returns the node of the instance.
fn lead(
    alloc: Global,
    reached: &Reached,
    instances: &[Instance],
    origin: Origin,
    path: &mut CallPath,
    is_refused: &mut bool,
) -> NodeId {
    let Origin::Called {
        caller,
        call,
        index,
    } = origin
    else {
        return start_path(alloc, reached, origin, path, is_refused);
    };
    let place = caller.0 as usize;
    let Some(instance) = instances.get(place) else {
        return start_path(alloc, reached, origin, path, is_refused);
    };
    let above = lead(
        alloc,
        reached,
        &instances[..place],
        instance.origin,
        path,
        is_refused,
    );
    let Some(site) = called_site(reached, above, call) else {
        return above;
    };
    let node = reached.called(site).unwrap_or(above);
    let step = CallStep {
        node: name_of(alloc, reached, node, is_refused),
        offset: site.offset,
        index: site.count.and(Some(index)),
    };
    if path.steps.push(step).is_err() {
        *is_refused = true;
    }
    node
}

/// The path to the instance at a place. Where memory is refused, `is_refused` is set.
pub fn path_to(alloc: Global, place: &InstancePlace, is_refused: &mut bool) -> CallPath {
    let mut path = CallPath {
        start: Start::UnderTest,
        node: String::new(alloc),
        steps: Vec::new(alloc),
    };
    lead(
        alloc,
        place.reached,
        place.instances,
        place.origin,
        &mut path,
        is_refused,
    );
    path
}

/// The path to the instance with this origin, whose callers are among `instances`.
pub fn call_path(
    alloc: Global,
    reached: &Reached,
    instances: &[Instance],
    origin: Origin,
) -> Result<CallPath, AllocError> {
    let place = InstancePlace {
        reached,
        instances,
        origin,
    };
    let mut is_refused = false;
    let path = path_to(alloc, &place, &mut is_refused);
    if is_refused {
        Err(AllocError)
    } else {
        Ok(path)
    }
}
