//! The types of the terms of a program, found in the step that judges them (E9).

ghost use Rattle.std.specs.Prelude.{◌≡◌, is_ok, slice_get, IfErr, IfOk, None, OnOk, []};
ghost use Rattle.std.specs.List.{list_all};
ghost use Rattle.lb_syntax.specs.Lists.{holds};
ghost use Rattle.lb_static.specs.Instances.{Program, instances};
ghost use Rattle.lb_check.specs.BrokenParts.{first_broken, is_part_typed};
ghost use Rattle.lb_check.specs.BrokenRules.{IsBroken};
ghost use Rattle.lb_check.specs.FoundParts.{AreJudgedTypes, IsJudgedSpecialization};
ghost use Rattle.lb_check.specs.JudgedPrograms.{IsJudged};
ghost use Rattle.lb_check.specs.PlacedTypes as placed_mirror;
ghost use Rattle.lb_check.specs.SharedTypes.{AreJudgedParts, AreSettled};
ghost use Rattle.lb_check.specs.StoredTypes.{context_in};
ghost use Rattle.lb_check.specs.TermTypes.{is_resolved_statement_typed};
ghost use Rattle.lb_check.specs.TypeRules.{is_typed};

use crate::found_types::NodeTypes;
use crate::nodes::node_at;
use crate::part::Part;
use crate::part_types::PartTypes;
use crate::shared::{SharedPart, settled_statements, shared_parts};
use crate::type_env::TypeEnv;
use crate::type_rules::{first_ill_typed_variable, is_statement_typed};
use lb_static::{NodeId, Reached, Specialization, Table, VariableId};
use std::alloc::{AllocError, Global};

/// Moves all parts to the found types of a specialization, in text order.
fn move_all(parts: &mut PartTypes, found: &mut NodeTypes) -> Result<(), AllocError>
    ensures { OnOk result (placed_mirror.AreMoved (placed_mirror.kept_in parts.old)
        (placed_mirror.kept_in parts.new) (placed_mirror.found_in found.old)
        (placed_mirror.found_in found.new)) }
{
    while let Some(part) = parts.found.pop() {
        found.note(part.data_type.kind, &part.data_type.sizes, part.elements)?;
    }
    Ok(())
}

/// Whether a statement is settled.
fn is_settled(settled: &[bool], k: usize) -> bool
    ensures { result ≡ holds (λ b. b) (slice_get settled.now k) }
{
    k < settled.len() && settled[k]
}

/// The place of the first statement that breaks the rules of types. Where there is none, the types
/// of all terms are found. Once they are too many, settled statements are not looked at.
fn first_ill_typed_statement(
    alloc: Global,
    env: &TypeEnv,
    settled: &[bool],
    parts: &mut PartTypes,
    found: &mut NodeTypes,
) -> Result<Option<usize>, AllocError>
    requires settled { AreSettled (context_in env.now) settled.now env.now.node.now.body.items }
    requires moved { (placed_mirror.kept_in parts.old).found ≡ [] }
    ensures first { IfOk result (λ o. o ≡ first_broken
        (is_resolved_statement_typed (context_in env.now)) env.now.node.now.body.items) }
    ensures kept { IfOk result (λ o. o ≡ None → placed_mirror.AreKept
        (placed_mirror.node_types (context_in env.now) env.now.node.now)
        (placed_mirror.kept_in parts.old) (placed_mirror.kept_in parts.new)
        (placed_mirror.found_in found.old) (placed_mirror.found_in found.new)) }
{
    for (j, statement) in env.node.body.iter().enumerate() {
        if parts.left == 0 && is_settled(settled, j) {
            continue;
        }
        if !is_statement_typed(alloc, env, statement, parts)? {
            return Ok(Some(j));
        }
        move_all(parts, found)?;
    }
    Ok(None)
}

/// The types of the terms of a specialization, as far as they are kept; or the first part that
/// breaks the rules of types: a declared clock, or else a statement.
fn specialization_types(
    alloc: Global,
    reached: &Reached,
    table: &Table,
    shared: &[SharedPart],
    specialization: &Specialization,
    parts: &mut PartTypes,
) -> Result<Result<NodeTypes, Part>, AllocError>
    requires shared { AreJudgedParts reached.now table.now shared.now }
    requires moved { (placed_mirror.kept_in parts.old).found ≡ [] }
    ensures { IfOk result (IsJudgedSpecialization reached.now table.now specialization.now
        (placed_mirror.kept_in parts.old) (placed_mirror.kept_in parts.new)) }
{
    let Some(node) = node_at(reached, specialization.node) else {
        return Ok(Err(Part::Statement(0)));
    };
    let env = TypeEnv {
        reached,
        table,
        node,
        specialization,
    };
    if let Some(i) = first_ill_typed_variable(alloc, &env, &node.variables)? {
        return Ok(Err(Part::Variable(VariableId(i))));
    }
    let settled = settled_statements(shared, table, specialization);
    let mut found = NodeTypes::none(alloc);
    match first_ill_typed_statement(alloc, &env, settled, parts, &mut found)? {
        Some(j) => Ok(Err(Part::Statement(j))),
        None => Ok(Ok(found)),
    }
}

/// A part that breaks the rules of types.
#[derive(Clone, Copy)]
pub struct IllTyped {
    /// The place of its specialization among those of the table.
    pub place: usize,
    pub node: NodeId,
    pub part: Part,
}

/// Once nothing is kept any more, judges what the specializations from place `from` on share, unless
/// that was done before.
fn share_rest(
    alloc: Global,
    reached: &Reached,
    table: &Table,
    from: usize,
    parts: &PartTypes,
    shared: &mut Vec<SharedPart>,
) -> Result<(), AllocError>
    requires { AreJudgedParts reached.now table.now shared.old.items }
    ensures { OnOk result (AreJudgedParts reached.now table.now shared.new.items) }
{
    if parts.left > 0 || !shared.is_empty() {
        return Ok(());
    }
    *shared = shared_parts(alloc, reached, table, from)?;
    Ok(())
}

/// The types of the terms of each specialization, or the first part that breaks the rules of types.
fn types_by_specialization(
    alloc: Global,
    reached: &Reached,
    table: &Table,
) -> Result<Result<Option<Vec<NodeTypes>>, IllTyped>, AllocError>
    ensures { IfOk result (AreJudgedTypes reached.now table.now) }
{
    let mut parts = PartTypes::all(alloc);
    let mut shared = Vec::new(alloc);
    let mut all = Vec::new(alloc);
    for (place, specialization) in table.specializations.iter().enumerate() {
        share_rest(alloc, reached, table, place, &parts, &mut shared)?;
        match specialization_types(alloc, reached, table, &shared, specialization, &mut parts)? {
            Ok(found) => all.push(found)?,
            Err(part) => {
                let node = specialization.node;
                return Ok(Err(IllTyped { place, node, part }));
            }
        }
    }
    if parts.left == 0 {
        return Ok(Ok(None));
    }
    Ok(Ok(Some(all)))
}

/// The types of the terms of each specialization, or none where all terms together have more than
/// 65,536 scalar elements: the program is too large then. Where an instance breaks the rules of
/// types (E9), the first specialization of which one does, and its first part that does.
pub fn judged_types(
    alloc: Global,
    reached: &Reached,
    table: &Table,
) -> Result<Result<Option<Vec<NodeTypes>>, IllTyped>, AllocError>
    ensures judged { (P : Program) → IsJudged P reached.now table.now → IfOk result (λ found.
        is_ok found ≡ list_all (is_typed P) (instances P)) }
    ensures named { (P : Program) → IsJudged P reached.now table.now → IfOk result (λ found.
        IfErr found (λ f.
        IsBroken (is_typed P) (is_part_typed P) P reached.now f.node f.part)) }
    ensures found { IfOk result (λ found.
        IfOk found (placed_mirror.AreFound reached.now table.now)) }
{
    types_by_specialization(alloc, reached, table)
}
