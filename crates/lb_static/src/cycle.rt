//! Cycles in a graph of calls.
//!
//! A chain of calls may be as long as the source, so no function calls itself along it: the search
//! holds its path in a vector. It follows each call once, so its time is linear in nodes and calls.

ghost use Rattle.std.specs.Prelude.{◌≡◌, [], map, None, IfOk};
ghost use Rattle.lb_static.specs.CallGraphs.{AreWithin, IsCycleAnswer};
ghost use Rattle.lb_static.specs.CycleSearch.{IsAt, IsBetween, IsSearchAnswer, from_first};
ghost use Rattle.lb_static.specs.declared.cycle.Progress.TheVariants.{Unseen};

use std::alloc::{AllocError, Global};

/// The progress of the search at a node.
#[derive(Clone, Copy)]
enum Progress {
    /// The node was not begun.
    Unseen,
    /// The node is on the path.
    Open,
    /// All callees of the node are done.
    Done,
}

/// A node on the path.
#[derive(Clone, Copy)]
struct Visit<'g> {
    node: usize,
    /// The calls that are still to be followed.
    left: &'g [usize],
}

impl<'g> Visit<'g> {
    ghost use Rattle.std.specs.Prelude.{◌≡◌, ◌<◌, map, length};
    ghost use Rattle.lb_static.specs.CallGraphs.{called};

    /// A visit of a node with none of its calls followed yet.
    fn new(node: usize, graph: &'g [Vec<usize>]) -> Visit<'g>
        requires { node < length graph.now }
        ensures node { result.node ≡ node }
        ensures left { result.left.now ≡ called (map (λ v. v.items) graph.now) node }
    {
        let left = graph[node].as_slice();
        Visit { node, left }
    }
}

/// The nodes on a path from the node `first` on; none if it is not on the path.
fn path_from(alloc: Global, path: &[Visit], first: usize) -> Result<Vec<usize>, AllocError>
    ensures { IfOk result (λ v. v.items ≡ from_first first (map (λ f. f.node) path.now)) }
{
    let mut start = 0;
    while start < path.len() && path[start].node != first {
        start += 1;
    }
    path[start..].iter().map(|visit| visit.node).collect(alloc)
}

/// Follows the calls of a node that was not begun, from an empty path. Returns a cycle of calls, if
/// it meets one. If not, the node is done, with all that it reaches, and the path is empty again.
fn search_from<'g>(
    alloc: Global,
    graph: &'g [Vec<usize>],
    progress: &mut [Progress],
    path: &mut Vec<Visit<'g>>,
    start: usize,
) -> Result<Option<Vec<usize>>, AllocError>
    requires within { AreWithin (map (λ v. v.items) graph.now) }
    requires between { IsBetween (map (λ v. v.items) graph.now) progress.old }
    requires unseen { IsAt progress.old start Unseen }
    requires none { path.old.items ≡ [] }
    ensures answer { IfOk result
        (IsSearchAnswer (map (λ v. v.items) graph.now) progress.old start progress.new) }
    ensures none { IfOk result (λ found. found ≡ None → path.new.items ≡ []) }
{
    progress[start] = Progress::Open;
    path.push(Visit::new(start, graph))?;
    while let Some(visit) = path.pop() {
        match visit.left.split_first() {
            None => progress[visit.node] = Progress::Done,
            Some((&callee, left)) => {
                let node = visit.node;
                path.push(Visit { node, left })?;
                match progress[callee] {
                    Progress::Unseen => {
                        progress[callee] = Progress::Open;
                        path.push(Visit::new(callee, graph))?;
                    }
                    Progress::Open => return Ok(Some(path_from(alloc, path, callee)?)),
                    Progress::Done => {}
                }
            }
        }
    }
    Ok(None)
}

/// Searches from each node that is still not begun. At the start no node is begun, and the path is
/// empty.
fn search_from_each<'g>(
    alloc: Global,
    graph: &'g [Vec<usize>],
    progress: &mut [Progress],
    path: &mut Vec<Visit<'g>>,
) -> Result<Option<Vec<usize>>, AllocError>
    requires within { AreWithin (map (λ v. v.items) graph.now) }
    requires between { IsBetween (map (λ v. v.items) graph.now) progress.old }
    requires none { path.old.items ≡ [] }
    ensures { IfOk result (IsCycleAnswer (map (λ v. v.items) graph.now)) }
{
    for start in 0..graph.len() {
        if matches!(progress[start], Progress::Unseen) {
            if let Some(cycle) = search_from(alloc, graph, progress, path, start)? {
                return Ok(Some(cycle));
            }
        }
    }
    Ok(None)
}

/// A cycle of calls, or none if there is none: each node calls the next one, and the last one calls
/// the first. The graph has, for each node, the nodes that it calls.
pub fn find_cycle(alloc: Global, graph: &[Vec<usize>]) -> Result<Option<Vec<usize>>, AllocError>
    requires { AreWithin (map (λ v. v.items) graph.now) }
    ensures { IfOk result (IsCycleAnswer (map (λ v. v.items) graph.now)) }
{
    let mut progress = vec![in alloc; Progress::Unseen; graph.len()]?;
    let mut path = Vec::new(alloc);
    search_from_each(alloc, graph, &mut progress, &mut path)
}
