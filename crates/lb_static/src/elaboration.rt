//! Elaboration of a program: its names, its static values, its instances and the interface of the
//! node under test.

ghost use Rattle.std.specs.Prelude.{◌≡◌, true, option_map};
ghost use Rattle.lb_syntax.specs.SourceView.{view_source};
ghost use Rattle.lb_static.specs.Elaborated.{program_of};
ghost use Rattle.lb_static.specs.Correct.{Elaborates};
ghost use Rattle.lb_static.specs.TableAnswers.{IsTableAnswer};
ghost use Rattle.lb_static.specs.Instances.{Program};
ghost use Rattle.lb_static.specs.Names.{keeps_names};
ghost use Rattle.lb_static.specs.ReachedNodes.{IsReached};

use crate::check_interface::{check_interface, have_no_parameters};
use crate::check_recursion::check_recursion;
use crate::constants::Constants;
use crate::elab::{Elab, Elaboration};
use crate::error::StaticError;
use crate::instantiate::instantiate;
use crate::reachable::Reached;
use crate::resolve_names::resolve_names;
use crate::root_faults::parameters_fault;
use crate::table::Table;
use lb_syntax::Source;
use std::alloc::Global;

/// The instances of a program, with their static values. Its names were judged before.
fn instances_of_program(
    alloc: Global,
    source: &Source,
    reached: &Reached,
) -> Result<Table, StaticError>
    requires { (P : Program) × IsReached P reached.now }
    ensures { (P : Program) → keeps_names P ≡ true → IsReached P reached.now
        → P.source ≡ view_source source.now → IsTableAnswer P reached.now result }
{
    check_recursion(alloc, reached)?;
    if !have_no_parameters(reached) {
        return Err(parameters_fault(alloc, reached));
    }
    let constants = Constants::new(alloc, &source.constants)?;
    instantiate(alloc, reached, &constants)
}

/// The elaborated program of a node under test and its observer, if there is one: the reached
/// nodes, the instances with their static values, and the signature.
///
/// A refusal is by the first rule that is broken, in this order: names (E4), recursion (E7), static
/// parameters of the node under test or the observer (E8), instances and static values (E12, E5,
/// E6), and the interface of the node under test and of the observer (E8).
pub fn elaborate<'s>(
    alloc: Global,
    source: &'s Source,
    node: &'s str,
    observer: Option<&'s str>,
) -> Result<Elab<'s>, StaticError>
    ensures { Elaborates
        (program_of source.now node.now (option_map (λ o. o.now) observer.entry)) result }
{
    let reached = resolve_names(alloc, source, node, observer)?;
    let table = instances_of_program(alloc, source, &reached)?;
    let signature = check_interface(alloc, &reached, &table)?;
    Ok(Elab::new(Elaboration {
        source,
        node,
        observer,
        reached,
        table,
        signature,
    }))
}
