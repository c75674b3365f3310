//! The clocks of a program (E10): they are found once, and what is found of a statement judges it.

ghost use Rattle.std.specs.Prelude.{◌≡◌, IfOk, IfSome, OnOk, find, if◌then◌else◌, is_some, map};
ghost use Rattle.std.specs.Prelude.{not, option_map, slice_get, true};
ghost use Rattle.std.specs.{List.list_all, Option.unwrap_or};
ghost use Rattle.lb_syntax.specs.Lists.{or_else};
ghost use Rattle.lb_static.specs.Instances.{Program, instances};
ghost use Rattle.lb_static.specs.Names.{keeps_names};
ghost use Rattle.lb_static.specs.ReachedNodes.{IsReached};
ghost use Rattle.lb_static.specs.declared.reachable.NodeId.{NodeId as Place};
ghost use Rattle.lb_static.specs.declared.reachable.Reached.{Reached as Nodes};
ghost use Rattle.lb_check.specs.BrokenParts.{is_part_clocked};
ghost use Rattle.lb_check.specs.BrokenRules.{IsBroken};
ghost use Rattle.lb_check.specs.ClockRules.{is_clocked};
ghost use Rattle.lb_check.specs.FoundParts.{AreClockedParts, IsClockedPart, IsIllClocked};
ghost use Rattle.lb_check.specs.FoundParts.{broken_part};
ghost use Rattle.lb_check.specs.JudgedPrograms.{IsJudged};
ghost use Rattle.lb_check.specs.NodeClocks.{is_clocked_at};
ghost use Rattle.lb_check.specs.PlacedClocks as placed_mirror;
ghost use Rattle.lb_check.specs.PlacedClocks.{determined_clock as clock_in_set};
ghost use Rattle.lb_check.specs.PlacedClocks.{found_in, node_terms, nothing_found, placed_call};
ghost use Rattle.lb_check.specs.PlacedClocks.{placed_side, placed_statement, placed_terms};
ghost use Rattle.lb_check.specs.PlacedClocks.{with_terms};
ghost use Rattle.lb_check.specs.StoredClocks.{context_in};
ghost use Rattle.lb_check.specs.TermClocks as mirror;
ghost use Rattle.lb_check.specs.TypeRules.{is_typed};

use crate::call_clock::{Given, is_call_clocked, left_operands, result_base};
use crate::clock::ill_declared_clock;
use crate::clock_set::{ClockSet, Operand};
use crate::found_clocks::{CallClock, NodeClocks};
use crate::given_variables::given_variables;
use crate::own_clock::{Clock, is_same};
use crate::part::{IllFormed, Part};
use crate::placed_clock::{argument_clocks, determined_clock, place, place_each};
use crate::term_clock::ClockEnv;
use crate::walked_clocks::{infer, infer_row};
use lb_static::{
    CallId, NodeId, Reached, ResolvedNode, ResolvedStatement, Table, Term, VariableId,
};
use std::alloc::{AllocError, Global};

/// The clock of an equation: that of its first left variable.
pub fn left_clock(env: &ClockEnv, lefts: &[VariableId]) -> Clock
    ensures { result ≡ mirror.left_clock (context_in env.now) lefts.now }
{
    match lefts {
        [first, ..] => env.variable(*first),
        [] => Clock::Base,
    }
}

/// Whether each of some variables stands on this clock.
fn are_on(env: &ClockEnv, clock: Clock, lefts: &[VariableId]) -> bool
    ensures { result
        ≡ list_all (λ x. mirror.is_same clock ((context_in env.now).variable x)) lefts.now }
{
    for left in lefts {
        if !is_same(clock, env.variable(*left)) {
            return false;
        }
    }
    true
}

/// Whether the left variables stand on one clock, which the right side accepts.
fn is_one_clocked(env: &ClockEnv, lefts: &[VariableId], clock_set: ClockSet) -> bool
    ensures { result ≡ mirror.is_one_clocked (context_in env.now) lefts.now clock_set }
{
    let clock = left_clock(env, lefts);
    clock_set.accepts_clock(Some(clock)) && are_on(env, clock, lefts)
}

/// A call that is the whole right side of an equation.
#[derive(Clone, Copy)]
struct SideCall {
    /// The clock on which its callee runs.
    runs: Clock,
    /// Whether the equation keeps the rules of clocks.
    kept: bool,
}

/// Judges a call of this callee that is the whole right side of an equation.
fn side_call(
    alloc: Global,
    env: &ClockEnv,
    callee: &ResolvedNode,
    operands: &[Operand],
    lefts: &[VariableId],
) -> Result<SideCall, AllocError>
    ensures runs { IfOk result (λ call. call.runs
        ≡ placed_mirror.side_base (context_in env.now) callee.now operands.now lefts.now) }
    ensures kept { IfOk result (λ call. call.kept
        ≡ mirror.is_call_clocked (context_in env.now) callee.now operands.now lefts.now) }
{
    let results = left_operands(alloc, env, lefts)?;
    let base = result_base(callee, operands, &results);
    let kept = is_call_clocked(callee, base, operands, lefts, &results);
    let runs = match base {
        Some(base) => base,
        None => Clock::Base,
    };
    Ok(SideCall { runs, kept })
}

/// Notes the clocks of a call of this callee that is the whole right side of an equation, and
/// returns whether the equation keeps the rules of clocks.
fn place_called(
    alloc: Global,
    env: &ClockEnv,
    lefts: &[VariableId],
    callee: &ResolvedNode,
    terms: &[Term],
    placed: &mut NodeClocks,
) -> Result<bool, AllocError>
    ensures kept { IfOk result (λ kept. kept
        ≡ mirror.is_call_clocked (context_in env.now) callee.now
        (mirror.operands_of (context_in env.now) terms.now) lefts.now) }
    ensures placed { OnOk result (found_in placed.new
        ≡ with_terms (found_in placed.old) (placed_call (context_in env.now) lefts.now
        (mirror.operands_of (context_in env.now) terms.now) terms.now (Some callee.now))) }
{
    let row = infer_row(alloc, env, terms)?;
    let operands = row.operands.as_slice();
    let SideCall { runs, kept } = side_call(alloc, env, callee, operands, lefts)?;
    let given = given_variables(alloc, callee, operands, lefts)?;
    placed.note_call(left_clock(env, lefts), CallClock { runs, given })?;
    let sources = &Given::Whole(callee.inputs, operands, lefts);
    let clocks = argument_clocks(alloc, runs, sources, callee)?;
    place_each(alloc, env, &clocks, terms, &row.within, placed)?;
    Ok(kept)
}

/// Notes the clocks of a call that is the whole right side of an equation, and returns whether the
/// equation keeps the rules of clocks.
#[tactic(auto, using(crate::proofs::clocking::WalkedClocks::none_placed))]
fn place_call(
    alloc: Global,
    env: &ClockEnv,
    lefts: &[VariableId],
    call: CallId,
    terms: &[Term],
    placed: &mut NodeClocks,
) -> Result<bool, AllocError>
    ensures kept { IfOk result (λ kept.
        kept ≡ mirror.is_called_clocked (context_in env.now) lefts.now call terms.now) }
    ensures placed { OnOk result (found_in placed.new
        ≡ with_terms (found_in placed.old) (placed_call (context_in env.now) lefts.now
        (mirror.operands_of (context_in env.now) terms.now) terms.now
        ((context_in env.now).callee call))) }
{
    match env.callee(call) {
        Some(callee) => place_called(alloc, env, lefts, callee, terms, placed),
        None => {
            let runs = left_clock(env, lefts);
            let given = Vec::new(alloc);
            placed.note_call(runs, CallClock { runs, given })?;
            Ok(false)
        }
    }
}

/// Notes the clocks of a term that is no part of another, and returns the clocks that it accepts.
/// It stands on `clock`, or else on the clock that it determines.
fn place_term(
    alloc: Global,
    env: &ClockEnv,
    clock: Option<Clock>,
    term: &Term,
    placed: &mut NodeClocks,
) -> Result<ClockSet, AllocError>
    ensures clock_set { IfOk result (λ s. s ≡ mirror.infer_clock (context_in env.now) term.now) }
    ensures placed { OnOk result (found_in placed.new
        ≡ with_terms (found_in placed.old) (placed_terms (context_in env.now)
        (unwrap_or clock (clock_in_set (mirror.infer_clock (context_in env.now) term.now)))
        term.now)) }
{
    let found = infer(alloc, env, term)?;
    let clock = clock.unwrap_or(determined_clock(found.clock_set));
    place(alloc, env, clock, term, &found.operands, placed)?;
    Ok(found.clock_set)
}

/// Notes the clocks of the right side of an equation, and returns whether the equation keeps the
/// rules of clocks.
#[tactic(auto, unfolding(crate::specs::PlacedClocks::placed_side, crate::specs::TermClocks::is_equation_clocked))]
fn place_side(
    alloc: Global,
    env: &ClockEnv,
    lefts: &[VariableId],
    right: &Term,
    placed: &mut NodeClocks,
) -> Result<bool, AllocError>
    ensures kept { IfOk result (λ kept.
        kept ≡ mirror.is_equation_clocked (context_in env.now) lefts.now right.now) }
    ensures placed { OnOk result (found_in placed.new ≡ with_terms (found_in placed.old)
        (placed_side (context_in env.now) lefts.now right.now)) }
{
    match right {
        Term::Group(e) => place_side(alloc, env, lefts, e, placed),
        Term::Call(call, terms) => place_call(alloc, env, lefts, *call, terms, placed),
        _ => {
            let clock_set = place_term(alloc, env, Some(left_clock(env, lefts)), right, placed)?;
            Ok(is_one_clocked(env, lefts, clock_set))
        }
    }
}

/// Notes the clocks of a statement, and returns whether it keeps the rules of clocks.
fn place_statement(
    alloc: Global,
    env: &ClockEnv,
    statement: &ResolvedStatement,
    placed: &mut NodeClocks,
) -> Result<bool, AllocError>
    ensures kept { IfOk result (λ kept. kept
        ≡ mirror.is_resolved_statement_clocked (context_in env.now) statement.now) }
    ensures placed { OnOk result (found_in placed.new ≡ with_terms (found_in placed.old)
        (placed_statement (context_in env.now) statement.now)) }
{
    match statement {
        ResolvedStatement::Equation(lefts, right) => place_side(alloc, env, lefts, right, placed),
        ResolvedStatement::Assertion(term) => {
            let clock_set = place_term(alloc, env, None, term, placed)?;
            Ok(clock_set.stands())
        }
    }
}

/// The place of the first statement that breaks a rule, after the one at `place` is judged too.
fn first_so_far(broken: Option<usize>, kept: bool, place: usize) -> Option<usize>
    ensures { result ≡ or_else broken (if kept then None else Some place) }
{
    match broken {
        None if !kept => Some(place),
        _ => broken,
    }
}

/// The first part of a node that breaks the rules of clocks, from the places of the first declared
/// clock and of the first statement that do.
fn first_part(declared: Option<usize>, statement: Option<usize>) -> Option<Part>
    ensures { result ≡ broken_part declared statement }
{
    match (declared, statement) {
        (Some(i), _) => Some(Part::Variable(VariableId(i))),
        (None, Some(j)) => Some(Part::Statement(j)),
        (None, None) => None,
    }
}

/// The clocks of a node, and its first part that breaks the rules of clocks.
#[derive(Drop)]
struct ClockedNode {
    clocks: NodeClocks,
    broken: Option<Part>,
}

/// Finds the clocks of a reached node, and its first part that breaks the rules of clocks: a
/// declared clock, or else a statement.
fn clocked_node(alloc: Global, env: &ClockEnv) -> Result<ClockedNode, AllocError>
    ensures part { (P : Program) (id : Place) → keeps_names P ≡ true
        → IsReached P env.now.reached.now
        → slice_get env.now.reached.now.nodes.items id.0 ≡ Some env.now.node.now
        → IfOk result (λ found. IsClockedPart env.now.reached.now id found.broken) }
    ensures placed { IfOk result (λ found. found_in found.clocks ≡ with_terms nothing_found
        (node_terms env.now.reached.now env.now.node.now)) }
{
    let declared = ill_declared_clock(alloc, env.node)?;
    let mut statement_place = None;
    let mut clocks = NodeClocks::new(alloc);
    for (j, statement) in env.node.body.iter().enumerate() {
        let kept = place_statement(alloc, env, statement, &mut clocks)?;
        statement_place = first_so_far(statement_place, kept, j);
    }
    Ok(ClockedNode {
        clocks,
        broken: first_part(declared, statement_place),
    })
}

/// The part of this node that breaks the rules of clocks. A node that is not reached breaks them in
/// its first statement.
fn part_at(parts: &[Option<Part>], id: NodeId) -> Option<Part>
    ensures { (r : Nodes) → AreClockedParts r parts.now → IsClockedPart r id result }
{
    if id.0 < parts.len() {
        parts[id.0]
    } else {
        Some(Part::Statement(0))
    }
}

/// The node of the first specialization that breaks the rules of clocks, with the part of each
/// reached node that does.
fn first_ill_clocked(parts: &[Option<Part>], table: &Table) -> Option<IllFormed>
    ensures first { (r : Nodes) → AreClockedParts r parts.now →
        option_map (λ f. f.node) result ≡ find (λ id. not (is_clocked_at r id))
        (map (λ s. s.node) table.now.specializations.items) }
    ensures part { (r : Nodes) → AreClockedParts r parts.now →
        IfSome result (λ f. IsIllClocked r f.node f.part) }
{
    for specialization in &table.specializations {
        let node = specialization.node;
        if let Some(part) = part_at(parts, node) {
            return Some(IllFormed { node, part });
        }
    }
    None
}

/// The clocks of a program.
#[derive(Drop)]
pub struct ProgramClocks {
    /// The clocks of each reached node.
    pub clocks: Vec<NodeClocks>,
    /// The first node of an instance that breaks the rules of clocks, and its first part that does.
    pub broken: Option<IllFormed>,
}

/// Finds the clocks of each reached node, and the first node of an instance that breaks the rules
/// of clocks (E10), with its first part that does, where each instance keeps the rules of types.
/// The declared clocks of a node do not run in a circle, and what each statement of it combines is
/// on one clock.
pub fn program_clocks(
    alloc: Global,
    reached: &Reached,
    table: &Table,
) -> Result<ProgramClocks, AllocError>
    ensures judged { (P : Program) → IsJudged P reached.now table.now
        → list_all (is_typed P) (instances P) ≡ true → IfOk result (λ found.
        is_some found.broken
        ≡ not (list_all (λ here. is_clocked P here.node) (instances P))) }
    ensures named { (P : Program) → IsJudged P reached.now table.now
        → list_all (is_typed P) (instances P) ≡ true → IfOk result (λ found.
        IfSome found.broken (λ f. IsBroken (λ here. is_clocked P here.node)
        (λ here. is_part_clocked P here.node) P reached.now f.node f.part)) }
    ensures placed { IfOk result (λ found. map found_in found.clocks.items
        ≡ map (λ n. with_terms nothing_found (node_terms reached.now n))
        reached.now.nodes.items) }
{
    let mut parts = Vec::new(alloc);
    let mut clocks = Vec::new(alloc);
    for node in &reached.nodes {
        let found = clocked_node(alloc, &ClockEnv { reached, node })?;
        parts.push(found.broken)?;
        clocks.push(found.clocks)?;
    }
    let broken = first_ill_clocked(&parts, table);
    Ok(ProgramClocks { clocks, broken })
}
