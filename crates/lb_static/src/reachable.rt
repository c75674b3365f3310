//! The nodes that are reached by name from the node under test and the observer.

ghost use Rattle.std.specs.Prelude.{◌≡◌, option_map};
ghost use Rattle.lb_static.specs.ReachedNodes.{callee_in, id_at};

use crate::resolved::{CallId, CallSite, ResolvedNode};

/// The place of a node among the reached nodes.
#[derive(Clone, Copy, PartialEq, Eq, Hash)]
pub struct NodeId(pub usize);

/// The reached nodes, with their names resolved: the node under test, then the observer if there is
/// one, then their callees, and so on, each of them once.
#[derive(Drop)]
pub struct Reached<'s> {
    pub nodes: Vec<ResolvedNode<'s>>,
    /// For each node of the source, its place among the reached nodes, if it is reached.
    pub ids: Vec<Option<NodeId>>,
    /// The node under test.
    pub root: NodeId,
    pub observer: Option<NodeId>,
}

impl<'s> Reached<'s> {
    /// The node that a call site calls, if it is a reached node.
    pub fn called(&self, site: &CallSite) -> Option<NodeId>
        ensures { result ≡ id_at self.now site.now.callee }
    {
        *self.ids.get(site.callee.0)?
    }

    /// The node that a call of a node calls, if it is a reached node.
    pub fn callee(&self, node: &ResolvedNode<'s>, call: CallId) -> Option<&ResolvedNode<'s>>
        ensures { option_map (λ n. n.now) result ≡ callee_in self.now node.now call }
    {
        let site = node.calls.get(call.0)?;
        let id = self.called(site)?;
        self.nodes.get(id.0)
    }
}
