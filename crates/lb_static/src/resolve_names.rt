//! The names of a program: the nodes that are reached from the node under test and the observer,
//! and a check that each name in them has a meaning.

ghost use Rattle.std.specs.Prelude.{◌≡◌, true, length, option_map};
ghost use Rattle.lb_syntax.specs.SourceView.{view_source};
ghost use Rattle.lb_static.specs.CalledNodes.{Reaches};
ghost use Rattle.lb_static.specs.CountedNames.{keeps_names_where};
ghost use Rattle.lb_static.specs.Elaborated.{program_of};
ghost use Rattle.lb_static.specs.Names.{are_distinct, keeps_names};
ghost use Rattle.lb_static.specs.SourceNames.{names_in_source};

use crate::constant_names::check_constants;
use crate::error::StaticError;
use crate::globals::Globals;
use crate::reachable::Reached;
use crate::resolve_reachable::reach;
use lb_syntax::Source;
use std::alloc::Global;

/// The nodes that are reached by name, with their names resolved. The global names of the source
/// are given.
fn resolve_reached<'s>(
    alloc: Global,
    globals: &Globals,
    source: &'s Source,
    node: &str,
    observer: Option<&str>,
) -> Result<Reached<'s>, StaticError>
    requires names { globals.now.names ≡ names_in_source (view_source source.now) }
    requires constants { globals.now.constants ≡ length source.now.constants.items }
    requires once { are_distinct (names_in_source (view_source source.now)) ≡ true }
    ensures { Reaches keeps_names keeps_names_where (program_of source.now node.now
        (option_map (λ o. o.now) observer.entry)) result }
{
    let reached = reach(alloc, globals, source, node, observer)?;
    check_constants(alloc, globals, source, &reached.nodes)?;
    Ok(reached)
}

/// The nodes that are reached by name, with their names resolved.
///
/// A doubled name of a constant, node or function is refused wherever it stands. Any other name is
/// judged only in a reached node, or in the value of a constant that is reached from such a node.
pub fn resolve_names<'s>(
    alloc: Global,
    source: &'s Source,
    node: &str,
    observer: Option<&str>,
) -> Result<Reached<'s>, StaticError>
    ensures { Reaches keeps_names keeps_names_where (program_of source.now node.now
        (option_map (λ o. o.now) observer.entry)) result }
{
    let globals = Globals::new(alloc, source)?;
    resolve_reached(alloc, &globals, source, node, observer)
}
