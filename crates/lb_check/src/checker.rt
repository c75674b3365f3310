//! Types, clocks and definitions of a program (E9, E10, E11).

ghost use Rattle.std.specs.Prelude.{◌≡◌, IfOk, MatchResult, None, map, true};
ghost use Rattle.std.specs.List.{list_all};
ghost use Rattle.lb_static.specs.Elaborated.{IsLawful};
ghost use Rattle.lb_static.specs.Instances.{Program, instances};
ghost use Rattle.lb_check.specs.Acceptance.{check_refusal};
ghost use Rattle.lb_check.specs.Correct.{IsCheckAnswer, IsFirstBroken};
ghost use Rattle.lb_check.specs.JudgedPrograms.{IsJudged};
ghost use Rattle.lb_check.specs.PlacedClocks.{found_in, node_terms, nothing_found, with_terms};
ghost use Rattle.lb_check.specs.PlacedTypes.{AreFound};
ghost use Rattle.lb_check.specs.TypeRules.{is_typed};

use crate::checked::{Checked, Checking};
use crate::clock_rules::program_clocks;
use crate::definition_rules::ill_defined;
use crate::found_clocks::NodeClocks;
use crate::found_types::NodeTypes;
use crate::judged_types::judged_types;
use crate::refused::{Broken, Refused};
use lb_static::{Elab, Reached, Table};
use std::alloc::{AllocError, Global};

/// What is found of a program that keeps the rules of types, clocks and definitions.
#[derive(Drop)]
struct Found {
    /// The clocks of the terms of each reached node.
    clocks: Vec<NodeClocks>,
    /// The types of the terms of each specialization, or none where they are too many.
    types: Option<Vec<NodeTypes>>,
}

/// The clocks of the terms of a program that keeps the rules of types; or the first of the rules of
/// clocks (E10) and definitions (E11) that it breaks, each over all instances.
fn judged_clocks(
    alloc: Global,
    reached: &Reached,
    table: &Table,
) -> Result<Result<Vec<NodeClocks>, Broken>, AllocError>
    ensures answer { (P : Program) → IsJudged P reached.now table.now
        → list_all (is_typed P) (instances P) ≡ true → IfOk result (λ judged.
        MatchResult judged (λ _. check_refusal P ≡ None) (IsFirstBroken P reached.now)) }
    ensures clocks { IfOk result (λ judged. IfOk judged (λ clocks. map found_in clocks.items
        ≡ map (λ n. with_terms nothing_found (node_terms reached.now n))
        reached.now.nodes.items)) }
{
    let program = program_clocks(alloc, reached, table)?;
    if let Some(found) = program.broken {
        return Ok(Err(Broken::Clocks(found)));
    }
    match ill_defined(alloc, reached, table)? {
        Some(found) => Ok(Err(Broken::Definitions(found))),
        None => Ok(Ok(program.clocks)),
    }
}

/// The clocks and types of the terms of a program; or the first of the rules of types (E9), clocks
/// (E10) and definitions (E11) that it breaks, each over all instances.
fn judged_program(
    alloc: Global,
    reached: &Reached,
    table: &Table,
) -> Result<Result<Found, Broken>, AllocError>
    ensures answer { (P : Program) → IsJudged P reached.now table.now → IfOk result (λ judged.
        MatchResult judged (λ _. check_refusal P ≡ None) (IsFirstBroken P reached.now)) }
    ensures clocks { IfOk result (λ judged. IfOk judged (λ f. map found_in f.clocks.items
        ≡ map (λ n. with_terms nothing_found (node_terms reached.now n))
        reached.now.nodes.items)) }
    ensures types { IfOk result (λ judged.
        IfOk judged (λ f. AreFound reached.now table.now f.types)) }
{
    let types = match judged_types(alloc, reached, table)? {
        Ok(types) => types,
        Err(found) => return Ok(Err(Broken::Types(found))),
    };
    match judged_clocks(alloc, reached, table)? {
        Ok(clocks) => Ok(Ok(Found { clocks, types })),
        Err(broken) => Ok(Err(broken)),
    }
}

/// Checks an elaborated program: the checked program; or the first of the rules of types (E9),
/// clocks (E10) and definitions (E11) that it breaks, each over all instances, with the node and
/// the part of it that breaks it.
///
/// Why the part breaks the rule, `lb_cause` finds: its `check_with_cause` is this check with the
/// causes.
pub fn check<'s>(
    alloc: Global,
    elab: Elab<'s>,
) -> Result<Result<Checked<'s>, Refused<'s>>, AllocError>
    ensures answer { IfOk result (IsCheckAnswer elab.entry) }
    ensures same { IfOk result (λ answer.
        MatchResult answer (λ c. c.elab ≡ elab.entry) (λ r. r.elab ≡ elab.entry)) }
    ensures lawful { IsLawful elab.entry }
{
    match judged_program(alloc, elab.reached(), elab.table())? {
        Ok(found) => Ok(Ok(Checked::new(Checking {
            elab,
            clocks: found.clocks,
            types: found.types,
        }))),
        Err(broken) => Ok(Err(Refused { elab, broken })),
    }
}
