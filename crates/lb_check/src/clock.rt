//! Declared clocks: the variables that wait for others, and the depths of their clocks (E10).

ghost use Rattle.std.specs.Prelude.{◌≡◌, ◌+◌, ◌<◌, ◌≤◌, ℕ, true, Some, None, List, length};
ghost use Rattle.std.specs.Prelude.{IfOk, IfSome};
ghost use Rattle.lb_syntax.specs.Tree.{Name};
ghost use Rattle.lb_static.specs.Names.{are_distinct};
ghost use Rattle.lb_static.specs.Parts.{variable_names};
ghost use Rattle.lb_static.specs.ResolvedNodes.{IsResolved, node_of};
ghost use Rattle.lb_check.specs.BrokenParts.{first_broken};
ghost use Rattle.lb_check.specs.ClockDepths.{AreAwaited, AreDepths, IsCircle, IsKnown};
ghost use Rattle.lb_check.specs.ClockDepths.{HasDepth, depth_within, waits_below};
ghost use Rattle.lb_check.specs.FoundParts.{IsDeclaredClock};

use lb_static::{ResolvedNode, Variable};
use std::alloc::{AllocError, Global};

/// The depth of the declared clock of a variable: the number of steps to a variable without a
/// clock, or to one whose depth is known, with that depth added. None in a circle, where there are
/// more steps than variables.
#[tactic(auto, using(crate::proofs::clocking::ClockDepths::steps))]
fn depth_of(depths: &[Option<usize>], variables: &[Variable], first: usize) -> Option<usize>
    requires awaited { AreAwaited variables.now }
    requires known { AreDepths variables.now depths.now }
    requires within { first < length variables.now }
    ensures found { (d : ℕ) → result ≡ Some d →
        HasDepth variables.now d first × d ≤ length variables.now }
    ensures circle { result ≡ None →
        depth_within (length variables.now + 1) variables.now first ≡ None }
{
    let mut variable = first;
    for steps in 0..variables.len() + 1 {
        if let Some(depth) = depths[variable] {
            if depth > variables.len() - steps {
                return None;
            }
            return Some(steps + depth);
        }
        let Some(clock) = variables[variable].clock else {
            return Some(steps);
        };
        variable = clock.variable.0;
    }
    None
}

/// Notes the depths of a variable and of those that it leads to, up to one whose depth is known.
fn note_depths(depths: &mut [Option<usize>], variables: &[Variable], first: usize, depth: usize)
    requires awaited { AreAwaited variables.now }
    requires known { AreDepths variables.now depths.old }
    requires within { first < length variables.now }
    requires stands { HasDepth variables.now depth first }
    requires small { depth ≤ length variables.now }
    ensures known { AreDepths variables.now depths.new }
    ensures noted { IsKnown depths.new first }
    ensures kept { (x : ℕ) → IsKnown depths.old x → IsKnown depths.new x }
{
    let mut variable = first;
    for above in 0..depth + 1 {
        if depths[variable].is_some() {
            return;
        }
        depths[variable] = Some(depth - above);
        let Some(clock) = variables[variable].clock else {
            return;
        };
        variable = clock.variable.0;
    }
}

/// The place of the first variable whose declared clock leads in a circle.
fn first_in_circle(alloc: Global, variables: &[Variable]) -> Result<Option<usize>, AllocError>
    requires awaited { AreAwaited variables.now }
    ensures { IfOk result (IsCircle variables.now) }
{
    let mut depths = vec![in alloc; None; variables.len()]?;
    for variable in 0..variables.len() {
        let Some(depth) = depth_of(&depths, variables, variable) else {
            return Ok(Some(variable));
        };
        note_depths(&mut depths, variables, variable, depth);
    }
    Ok(None)
}

/// The place of the first variable of a list that is on a clock and waits for none of the first
/// `count` variables.
#[tactic(auto, using(crate::proofs::clocking::ClockDepths::waits_next))]
fn first_waiting_past(variables: &[Variable], count: usize) -> Option<usize>
    ensures first { result ≡ first_broken (waits_below count) variables.now }
    ensures within { IfSome result (λ i. i < length variables.now) }
{
    for (i, variable) in variables.iter().enumerate() {
        if let Some(clock) = variable.clock {
            if clock.variable.0 >= count {
                return Some(i);
            }
        }
    }
    None
}

/// Whether a node has all its inputs and outputs, and each variable that is waited for.
fn is_whole(node: &ResolvedNode) -> bool
    ensures interface { result ≡ true →
        node.now.inputs + node.now.outputs ≤ length node.now.variables.items }
    ensures awaited { result ≡ true → AreAwaited node.now.variables.items }
    ensures resolved { (nodes : List Name) → IsResolved nodes node.now → result ≡ true }
{
    let count = node.variables.len();
    node.inputs <= count
        && node.outputs <= count - node.inputs
        && first_waiting_past(&node.variables, count).is_none()
}

/// The place of the first variable whose declared clock breaks the rules of declared clocks: an
/// input waits for an input, an output for an input or an output, and declared clocks do not run in
/// a circle.
pub fn ill_declared_clock(alloc: Global, node: &ResolvedNode) -> Result<Option<usize>, AllocError>
    ensures { (nodes : List Name) → IsResolved nodes node.now →
        are_distinct (variable_names (node_of node.now)) ≡ true →
        IfOk result (IsDeclaredClock (node_of node.now)) }
{
    if !is_whole(node) {
        return Ok(Some(0));
    }
    let interface = node.inputs + node.outputs;
    if let Some(i) = first_waiting_past(&node.variables[..node.inputs], node.inputs) {
        return Ok(Some(i));
    }
    if let Some(i) = first_waiting_past(&node.variables[node.inputs..interface], interface) {
        return Ok(Some(node.inputs + i));
    }
    first_in_circle(alloc, &node.variables)
}
