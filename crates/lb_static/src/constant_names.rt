//! The constants that are reached by name from the reached nodes. Each name in the value of such a
//! constant has to be the name of a constant.

ghost use Rattle.std.specs.Prelude.{◌≡◌, ℕ, [], true, false, flat_map, length, map, List, OnOk};
ghost use Rattle.std.specs.Prelude.{IfOk, IfErr, MatchOption, All};
ghost use Rattle.std.specs.List.{list_all};
ghost use Rattle.lb_syntax.specs.SourceView.{view_source};
ghost use Rattle.lb_syntax.specs.Tree.{Name as TreeName};
ghost use Rattle.lb_syntax.specs.View.{view_static};
ghost use Rattle.lb_static.specs.SourceNames.{names_in_source};
ghost use Rattle.lb_static.specs.NamedConstants.{AreNamed, IsUnknown, is_judged, keeps_constants};
ghost use Rattle.lb_static.specs.NamedConstants.{keeps_constants_of, node_constants};
ghost use Rattle.lb_static.specs.NamedConstants.{told_constants, told_constants_of};
ghost use Rattle.lb_static.specs.NamedConstants.{part_constants, place_named, places_named};
ghost use Rattle.lb_static.specs.NameFaults.{named_in, IsNameFault};
ghost use Rattle.lb_static.specs.Names.{are_distinct};
ghost use Rattle.lb_static.specs.Parts.{among, static_names};
ghost use Rattle.lb_static.specs.ResolvedNodes.{IsResolved, node_of};
ghost use Rattle.lb_static.specs.WorkLists.{visited_after_all};

use crate::causes::Sought;
use crate::error::StaticError;
use crate::globals::Globals;
use crate::name_faults::unknown_name;
use crate::resolved::{ResolvedNode, StaticPart, StaticText};
use crate::work_list::WorkList;
use lb_syntax::{Name, Source, Static};
use std::alloc::{AllocError, Global};

/// Whether a name is one of these.
fn is_among(name: &Name, names: &[Name]) -> bool
    ensures { result ≡ among name.now names.now }
{
    for other in names {
        if name.as_str() == other.as_str() {
            return true;
        }
    }
    false
}

/// Visits the constant with this name, if there is one and the name is not hidden.
fn visit_name(
    name: &Name,
    globals: &Globals,
    hidden: &[Name],
    work_list: &mut WorkList,
) -> Result<(), AllocError>
    requires { work_list.old.count ≡ globals.now.constants }
    ensures order { OnOk result (work_list.new.order
        ≡ visited_after_all work_list.old.order (place_named globals.now hidden.now name.now)) }
    ensures count { OnOk result (work_list.new.count ≡ work_list.old.count) }
{
    if is_among(name, hidden) {
        return Ok(());
    }
    if let Some(place) = globals.constant_place(name.as_str()) {
        work_list.visit(place)?;
    }
    Ok(())
}

/// Visits the constants that a static expression names, except by hidden names.
fn visit_names(
    expression: &Static,
    globals: &Globals,
    hidden: &[Name],
    work_list: &mut WorkList,
) -> Result<(), AllocError>
    requires { work_list.old.count ≡ globals.now.constants }
    ensures order { OnOk result (work_list.new.order ≡ visited_after_all work_list.old.order
        (places_named globals.now hidden.now (static_names (view_static expression.now)))) }
    ensures count { OnOk result (work_list.new.count ≡ work_list.old.count) }
{
    match expression {
        Static::Whole(_, _) => Ok(()),
        Static::Named(x) => visit_name(x, globals, hidden, work_list),
        Static::Grouped(inner, _) | Static::Negated(inner, _) => {
            visit_names(inner, globals, hidden, work_list)
        }
        Static::Combined(_, left, right, _) => {
            visit_names(left, globals, hidden, work_list)?;
            visit_names(right, globals, hidden, work_list)
        }
    }
}

/// The first name in a static expression that is not the name of a constant.
fn first_unknown<'s>(expression: &'s Static, globals: &Globals) -> Option<&'s Name>
    ensures { MatchOption result
        (is_judged globals.now (static_names (view_static expression.now)) ≡ true)
        (λ x. IsUnknown globals.now (static_names (view_static expression.now)) x.now) }
{
    match expression {
        Static::Whole(_, _) => None,
        Static::Named(x) => match globals.constant_place(x.as_str()) {
            Some(_) => None,
            None => Some(x),
        },
        Static::Grouped(inner, _) | Static::Negated(inner, _) => first_unknown(inner, globals),
        Static::Combined(_, left, right, _) => match first_unknown(left, globals) {
            Some(x) => Some(x),
            None => first_unknown(right, globals),
        },
    }
}

/// Visits the constants that some static expressions name, except by hidden names.
fn visit_parts(
    parts: &[StaticPart],
    globals: &Globals,
    hidden: &[Name],
    work_list: &mut WorkList,
) -> Result<(), AllocError>
    requires { work_list.old.count ≡ globals.now.constants }
    ensures order { OnOk result (work_list.new.order ≡ visited_after_all work_list.old.order
        (flat_map (part_constants globals.now hidden.now) parts.now)) }
    ensures count { OnOk result (work_list.new.count ≡ work_list.old.count) }
{
    for part in parts {
        match part.text {
            StaticText::Written(expression) => visit_names(expression, globals, hidden, work_list)?,
            StaticText::Named(name) => visit_name(name, globals, hidden, work_list)?,
        }
    }
    Ok(())
}

/// Visits the constants that some nodes name. The static parameters of a node hide constants.
fn visit_nodes(
    nodes: &[ResolvedNode],
    globals: &Globals,
    work_list: &mut WorkList,
) -> Result<(), AllocError>
    requires { work_list.old.count ≡ globals.now.constants }
    ensures order { OnOk result (work_list.new.order
        ≡ visited_after_all work_list.old.order (flat_map (node_constants globals.now) nodes.now)) }
    ensures count { OnOk result (work_list.new.count ≡ work_list.old.count) }
{
    for node in nodes {
        visit_parts(&node.statics, globals, &node.tree.parameters, work_list)?;
    }
    Ok(())
}

/// Judges the names in the value of each constant that came up, and visits the constants with these
/// names.
fn check_visited(
    alloc: Global,
    globals: &Globals,
    source: &Source,
    work_list: &mut WorkList,
) -> Result<(), StaticError>
    requires names { globals.now.names ≡ names_in_source (view_source source.now) }
    requires constants { globals.now.constants ≡ length source.now.constants.items }
    requires once { are_distinct (names_in_source (view_source source.now)) ≡ true }
    requires count { work_list.old.count ≡ globals.now.constants }
    ensures ok { OnOk result ((xs : List TreeName)
        → AreNamed (view_source source.now) xs work_list.old.order
        → keeps_constants (view_source source.now) xs ≡ true) }
    ensures err { IfErr result (λ e. (xs : List TreeName)
        → AreNamed (view_source source.now) xs work_list.old.order
        → IsNameFault e (told_constants e (view_source source.now) xs)) }
{
    let mut done = 0;
    while let Some(place) = work_list.place(done) {
        let value = &source.constants[place].value;
        if let Some(name) = first_unknown(value, globals) {
            return Err(unknown_name(alloc, name, Sought::Constant, None));
        }
        visit_names(value, globals, &[], work_list)?;
        done += 1;
    }
    Ok(())
}

/// Judges the constants that some nodes name, and those that these name in turn. At the start no
/// constant came up.
fn check_named(
    alloc: Global,
    globals: &Globals,
    source: &Source,
    nodes: &[ResolvedNode],
    work_list: &mut WorkList,
) -> Result<(), StaticError>
    requires names { globals.now.names ≡ names_in_source (view_source source.now) }
    requires constants { globals.now.constants ≡ length source.now.constants.items }
    requires once { are_distinct (names_in_source (view_source source.now)) ≡ true }
    requires resolved { All (IsResolved (map (λ n. n.name)
        (view_source source.now).nodes)) nodes.now }
    requires named { list_all (λ r. named_in (view_source source.now) (node_of r)) nodes.now
        ≡ true }
    requires none { work_list.old.order ≡ [] }
    requires count { work_list.old.count ≡ globals.now.constants }
    ensures ok { OnOk result (keeps_constants_of (view_source source.now) nodes.now ≡ true) }
    ensures err { IfErr result (λ e.
        IsNameFault e (told_constants_of e (view_source source.now) nodes.now)) }
{
    visit_nodes(nodes, globals, work_list)?;
    check_visited(alloc, globals, source, work_list)
}

/// Judges the constants that reached nodes name, and those that these name in turn. An unknown name
/// in the value of such a constant is refused.
pub fn check_constants(
    alloc: Global,
    globals: &Globals,
    source: &Source,
    nodes: &[ResolvedNode],
) -> Result<(), StaticError>
    requires names { globals.now.names ≡ names_in_source (view_source source.now) }
    requires constants { globals.now.constants ≡ length source.now.constants.items }
    requires once { are_distinct (names_in_source (view_source source.now)) ≡ true }
    requires resolved { All (IsResolved (map (λ n. n.name)
        (view_source source.now).nodes)) nodes.now }
    requires named { list_all (λ r. named_in (view_source source.now) (node_of r)) nodes.now
        ≡ true }
    ensures ok { OnOk result (keeps_constants_of (view_source source.now) nodes.now ≡ true) }
    ensures err { IfErr result (λ e.
        IsNameFault e (told_constants_of e (view_source source.now) nodes.now)) }
{
    let mut work_list = WorkList::new(alloc, source.constants.len())?;
    check_named(alloc, globals, source, nodes, &mut work_list)
}
