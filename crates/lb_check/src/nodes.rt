//! The nodes that are reached.

ghost use Rattle.std.specs.Prelude.{◌≡◌, option_map, slice_get};

use lb_static::{NodeId, Reached, ResolvedNode};

/// The node of this number, if it is reached.
pub fn node_at<'r, 's>(reached: &'r Reached<'s>, id: NodeId) -> Option<&'r ResolvedNode<'s>>
    ensures { option_map (λ n. n.now) result ≡ slice_get reached.now.nodes.items id.0 }
{
    reached.nodes.get(id.0)
}
