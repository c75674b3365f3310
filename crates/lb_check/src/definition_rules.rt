//! Definitions, and functions without memory, in all forms of expressions (E11).

ghost use Rattle.std.specs.Prelude.{◌≡◌, ◌+◌, true, length, slice_index, find, is_some, not};
ghost use Rattle.std.specs.Prelude.{IfOk, IfSome, min, option_map};
ghost use Rattle.std.specs.List.{list_all};
ghost use Rattle.lb_check.specs.BrokenParts.{first_broken, is_part_defined};
ghost use Rattle.lb_check.specs.BrokenRules.{IsBroken};
ghost use Rattle.lb_check.specs.DefinitionRules.{is_defined};
ghost use Rattle.lb_check.specs.FoundParts.{IsDefinedPart, IsDefinedPlace};
ghost use Rattle.lb_check.specs.FoundParts.{IsIllDefined};
ghost use Rattle.lb_check.specs.JudgedPrograms.{IsJudged};
ghost use Rattle.lb_check.specs.NodeDefinitions as mirror;
ghost use Rattle.lb_static.specs.Instances.{Program, instances};
ghost use Rattle.lb_static.specs.Names.{keeps_names};
ghost use Rattle.lb_static.specs.ReachedNodes.{IsReached};

use crate::nodes::node_at;
use crate::part::{IllFormed, Part};
use crate::used_nodes::used_nodes;
use lb_static::{
    CallId, NodeId, Reached, ResolvedNode, ResolvedStatement, Table, Term, VariableId,
};
use std::alloc::{AllocError, Global};

/// `seen` and one more, where 2 stands for 2 and more.
fn one_more(seen: u8) -> u8
    ensures { result ≡ min 2 (seen + 1) }
{
    if seen < 2 { seen + 1 } else { 2 }
}

/// Counts how often each place stands among some left variables: 0, 1, and 2 for any more.
#[tactic(auto, using(crate::proofs::definitions::Defining::count_next))]
fn count(counts: &mut [u8], lefts: &[VariableId])
    ensures { mirror.AreCounts counts.new (λ i.
        slice_index counts.old i + mirror.count_left i lefts.now) }
{
    for x in lefts {
        let place = x.0;
        if place < counts.len() {
            counts[place] = one_more(counts[place]);
        }
    }
}

/// For each of `variables` variables how often it stands on the left: 0, 1, and 2 for any more.
#[tactic(auto, using(crate::proofs::definitions::Defining::counts_next))]
fn left_counts(
    alloc: Global,
    variables: usize,
    body: &[ResolvedStatement],
) -> Result<Vec<u8>, AllocError>
    ensures length_kept { IfOk result (λ counts. length counts.items ≡ variables) }
    ensures counted { IfOk result (λ counts.
        mirror.AreCounts counts.items (λ i. mirror.count_statements i body.now)) }
{
    let mut counts = vec![in alloc; 0u8; variables]?;
    for statement in body {
        if let ResolvedStatement::Equation(lefts, _) = statement {
            count(&mut counts, lefts.as_slice());
        }
    }
    Ok(counts)
}

/// The place of the first variable that does not stand on the left as often as it should: an output
/// or local once, an input never; the inputs come first among the variables.
fn first_ill_defined_variable(
    alloc: Global,
    inputs: usize,
    variables: usize,
    body: &[ResolvedStatement],
) -> Result<Option<usize>, AllocError>
    ensures { IfOk result (IsDefinedPlace inputs variables body.now) }
{
    let counts = left_counts(alloc, variables, body)?;
    for (i, seen) in counts.iter().enumerate() {
        let wanted = if i < inputs { 0 } else { 1 };
        if *seen != wanted {
            return Ok(Some(i));
        }
    }
    Ok(None)
}

/// Whether the callee of a call is a function.
pub fn calls_function(reached: &Reached, node: &ResolvedNode, call: CallId) -> bool
    ensures { result ≡ mirror.calls_function reached.now node.now call }
{
    match reached.callee(node, call) {
        Some(callee) => callee.tree.is_function,
        None => false,
    }
}

/// Whether none of these terms holds `->`, `fby`, `pre`, `current` or a call of a node.
#[cycle(memory)]
#[tactic(auto, using(crate::proofs::definitions::Defining::memoryless_next))]
fn all_memoryless(reached: &Reached, node: &ResolvedNode, terms: &[Term]) -> bool
    ensures { result ≡ list_all (mirror.is_memoryless reached.now node.now) terms.now }
{
    for term in terms {
        if !is_memoryless(reached, node, term) {
            return false;
        }
    }
    true
}

/// Whether a term holds no `->`, `fby`, `pre` and `current`, and calls functions alone.
#[cycle(memory)]
#[tactic(auto, unfolding(crate::specs::NodeDefinitions::is_memoryless))]
fn is_memoryless(reached: &Reached, node: &ResolvedNode, term: &Term) -> bool
    ensures { result ≡ mirror.is_memoryless reached.now node.now term.now }
{
    match term {
        Term::Literal(_) | Term::Truth(_) | Term::Variable(_) | Term::Value(_) => true,
        Term::Group(e)
        | Term::Unary(_, e)
        | Term::When(e, _, _)
        | Term::Replicate(e, _)
        | Term::Index(e, _)
        | Term::Slice(e, _, _) => is_memoryless(reached, node, e),
        Term::Binary(_, a, b) | Term::Join(a, b) => {
            is_memoryless(reached, node, a) && is_memoryless(reached, node, b)
        }
        Term::If(c, a, b) => {
            is_memoryless(reached, node, c)
                && (is_memoryless(reached, node, a) && is_memoryless(reached, node, b))
        }
        Term::Arrow(_, _) | Term::Fby(_, _) | Term::Pre(_) | Term::Current(_) => false,
        Term::Array(terms)
        | Term::AtMostOne(terms)
        | Term::Nor(terms)
        | Term::IterateSymbol(_, _, _, terms) => all_memoryless(reached, node, terms),
        Term::Call(call, terms) | Term::IterateNode(_, call, terms) => {
            calls_function(reached, node, *call) && all_memoryless(reached, node, terms)
        }
    }
}

/// The place of the first statement with memory, in a function.
fn first_with_memory(reached: &Reached, node: &ResolvedNode) -> Option<usize>
    ensures { result ≡ first_broken (mirror.is_statement_memoryless reached.now node.now)
        node.now.body.items }
{
    for (j, statement) in node.body.iter().enumerate() {
        let (ResolvedStatement::Equation(_, e) | ResolvedStatement::Assertion(e)) = statement;
        if !is_memoryless(reached, node, e) {
            return Some(j);
        }
    }
    None
}

/// The place of the first statement with memory of a node, if it is a function.
fn memory_in_function(reached: &Reached, node: &ResolvedNode) -> Option<usize>
    ensures { result ≡ mirror.memory_in_function reached.now node.now }
{
    if node.tree.is_function {
        first_with_memory(reached, node)
    } else {
        None
    }
}

/// The first part of a reached node that breaks the rules of definitions: a statement of a function
/// with memory, or else a variable.
fn ill_defined_part(
    alloc: Global,
    reached: &Reached,
    id: NodeId,
) -> Result<Option<Part>, AllocError>
    ensures { (P : Program) → keeps_names P ≡ true → IsReached P reached.now
        → IfOk result (IsDefinedPart P reached.now id) }
{
    let Some(node) = node_at(reached, id) else {
        return Ok(Some(Part::Statement(0)));
    };
    if let Some(j) = memory_in_function(reached, node) {
        return Ok(Some(Part::Statement(j)));
    }
    match first_ill_defined_variable(alloc, node.inputs, node.variables.len(), &node.body)? {
        Some(i) => Ok(Some(Part::Variable(VariableId(i)))),
        None => Ok(None),
    }
}

/// The first of some nodes that breaks the rules of definitions, and its first part that does.
fn first_ill_defined(
    alloc: Global,
    reached: &Reached,
    ids: &[NodeId],
) -> Result<Option<IllFormed>, AllocError>
    ensures first { (P : Program) → keeps_names P ≡ true → IsReached P reached.now
        → IfOk result (λ found. option_map (λ f. f.node) found
        ≡ find (λ id. not (mirror.is_defined_at P reached.now id)) ids.now) }
    ensures part { (P : Program) → keeps_names P ≡ true → IsReached P reached.now
        → IfOk result (λ found. IfSome found (λ f. IsIllDefined P reached.now f.node f.part)) }
{
    for id in ids {
        if let Some(part) = ill_defined_part(alloc, reached, *id)? {
            return Ok(Some(IllFormed { node: *id, part }));
        }
    }
    Ok(None)
}

/// The first node of an instance that breaks the rules of definitions and of functions (E11), and
/// its first part that does: over all left sides of a node together each output and local stands
/// exactly once, and an input never; a function holds no `pre`, `->`, `fby` and `current`, and
/// calls or iterates only functions and symbols.
pub fn ill_defined(
    alloc: Global,
    reached: &Reached,
    table: &Table,
) -> Result<Option<IllFormed>, AllocError>
    ensures judged { (P : Program) → IsJudged P reached.now table.now → IfOk result (λ found.
        is_some found ≡ not (list_all (λ here. is_defined P here.node) (instances P))) }
    ensures named { (P : Program) → IsJudged P reached.now table.now → IfOk result (λ found.
        IfSome found (λ f. IsBroken (λ here. is_defined P here.node)
        (λ here. is_part_defined P here.node) P reached.now f.node f.part)) }
{
    let ids = used_nodes(alloc, reached.nodes.len(), &table.specializations)?;
    first_ill_defined(alloc, reached, &ids)
}
