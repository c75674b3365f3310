//! The nodes of specializations, each once.

ghost use Rattle.std.specs.Prelude.{◌≡◌, ◌⊎◌, ℕ, Bool, true, false, not, get_or, find, map, IfOk};
ghost use Rattle.lb_static.specs.declared.reachable.NodeId as reach;

use lb_static::{NodeId, Specialization};
use std::alloc::{AllocError, Global};

/// Flags a node, and returns whether it had no flag before. A node past the flags is never flagged.
fn flag(seen: &mut [bool], id: NodeId) -> bool
    ensures fresh { result ≡ not (get_or seen.old id.0 false) }
    ensures flagged { (k : ℕ) → get_or seen.new k false ≡ true
        → (k ≡ id.0) ⊎ (get_or seen.old k false ≡ true) }
{
    let place = id.0;
    if place >= seen.len() {
        return true;
    }
    let fresh = !seen[place];
    seen[place] = true;
    fresh
}

/// The nodes of some specializations, each once, in the order in which they come up first. There
/// are flags for `nodes` nodes; a node past them is added each time.
pub fn used_nodes(
    alloc: Global,
    nodes: usize,
    specializations: &[Specialization],
) -> Result<Vec<NodeId>, AllocError>
    ensures { (f : reach.NodeId → Bool) → IfOk result (λ ids.
        find f ids.items ≡ find f (map (λ s. s.node) specializations.now)) }
{
    let mut seen = vec![in alloc; false; nodes]?;
    let mut ids = Vec::new(alloc);
    for specialization in specializations {
        if flag(&mut seen, specialization.node) {
            ids.push(specialization.node)?;
        }
    }
    Ok(ids)
}
