//! The clocks of the variables of the rows of the table of instances.
//!
//! Each variable has two: the instants of its own clock at which it is false, and those at which it
//! is true. The variables of all rows stand one after another, and so do their clocks:
//!
//! ```text
//! row 0: c, y when c     0: c is false, 1: c is true, 2: on 1, y is false, 3: on 1, y is true
//! ```
//!
//! A call may give a variable of the caller for a variable that clocks of the callee wait for. Then
//! the first element of the caller's variable serves for it.

ghost use Rattle.std.specs.Prelude.{◌≡◌, ◌++◌, ◌∷◌, [], ◌<◌, ◌+◌, ◌*◌, ◌^◌, min, map};
ghost use Rattle.std.specs.Prelude.{option_map, length, get_or, flat_map, take, IfOk, OnOk};
ghost use Rattle.lb_syntax.specs.Lists.{listed};
ghost use Rattle.lb_expand.specs.TableClocks as mirror;
ghost use Rattle.lb_expand.specs.TableClocks.{sources_of};

use crate::layout::Layout;
use lb_check::{CallClock, Checked, GivenVariable, declared_clock};
use lb_flat::{Clock, ClockId, ElementId};
use lb_static::{CallId, Instance, InstanceId, Origin, Reached, ResolvedNode, Table, VariableId};
use std::alloc::{AllocError, Global};

/// The most variables of an accepted program.
const MOST: usize = 65536;

/// The clocks of the variables of a table, and those on which its rows run.
#[derive(Drop)]
pub(crate) struct Clocks {
    /// Two clocks for each variable of all rows.
    pub(crate) table: Vec<Clock>,
    /// The clock on which each row runs.
    runs: Vec<Option<ClockId>>,
}

/// The number of a variable of a row among those of all rows.
fn variable_number(layout: &Layout, row: InstanceId, x: usize) -> usize
    ensures value { result ≡ mirror.variable_number layout.now.variables.items row.0 x }
    ensures few { result < 65537 }
{
    let number = layout.first_variable(row).saturating_add(x);
    number.min(MOST)
}

/// The place of a clock of a row, where `runs` holds the clock on which each row runs.
fn clock_id(
    layout: &Layout,
    runs: &[Option<ClockId>],
    row: InstanceId,
    clock: lb_check::Clock,
) -> Option<ClockId>
    ensures { result ≡ mirror.clock_id layout.now.variables.items runs.now row.0 clock }
{
    match clock {
        lb_check::Clock::Base => runs.get(row.0 as usize).copied().unwrap_or(None),
        lb_check::Clock::On(x, sign) => {
            let first = 2 * variable_number(layout, row, x.0) as u32;
            Some(ClockId(if sign { first + 1 } else { first }))
        }
    }
}

/// The `CallClock` that is found for a call of a row.
fn found_call<'a>(checked: &'a Checked, row: InstanceId, call: CallId) -> Option<&'a CallClock>
    ensures { option_map (λ found. found.now) result
        ≡ mirror.found_call checked.now.elab.table checked.now.clocks.items row.0 call.0 }
{
    let table = checked.elab().table();
    let row = table.instances.get(row.0 as usize)?;
    let specialization = table.specializations.get(row.specialization.0 as usize)?;
    checked.call_clocks(specialization.node).get(call.0)
}

/// The node of a row.
pub(crate) fn node_at<'a, 's>(
    reached: &'a Reached<'s>,
    table: &Table,
    row: &Instance,
) -> Option<&'a ResolvedNode<'s>>
    ensures { option_map (λ node. node.now) result
        ≡ mirror.node_at reached.now table.now row.now }
{
    let specialization = table.specializations.get(row.specialization.0 as usize)?;
    reached.nodes.get(specialization.node.0)
}

/// The clock on which a row runs, where `before` holds those of the rows before it.
fn row_runs(
    checked: &Checked,
    layout: &Layout,
    before: &[Option<ClockId>],
    origin: Origin,
) -> Option<ClockId>
    ensures { result ≡ mirror.row_runs (sources_of checked.now layout.now) before.now origin }
{
    let Origin::Called { caller, call, .. } = origin else {
        return None;
    };
    match found_call(checked, caller, call) {
        Some(found) => clock_id(layout, before, caller, found.runs),
        None => None,
    }
}

/// The clocks on which the rows of a table run.
fn table_runs(
    alloc: Global,
    checked: &Checked,
    layout: &Layout,
) -> Result<Vec<Option<ClockId>>, AllocError>
    ensures { IfOk result (λ runs. runs.items
        ≡ mirror.all_runs (sources_of checked.now layout.now)) }
{
    let table = checked.elab().table();
    let mut runs = Vec::new(alloc);
    for row in 0..table.instances.len() {
        let clock = row_runs(checked, layout, &runs, table.instances[row].origin);
        runs.push(clock)?;
    }
    Ok(runs)
}

/// The variable of the caller that is given for variable `x` of the callee.
fn given_for(given: &[GivenVariable], x: usize) -> Option<VariableId>
    ensures { result ≡ mirror.given_for given.now x }
{
    for pair in given {
        if pair.callee.0 == x {
            return Some(pair.caller);
        }
    }
    None
}

/// The number, among all variables, of the caller's variable that is given for variable `x`.
fn caller_number(checked: &Checked, layout: &Layout, origin: Origin, x: usize) -> Option<usize>
    ensures { result ≡ mirror.caller_number (sources_of checked.now layout.now) origin x }
{
    let Origin::Called { caller, call, .. } = origin else {
        return None;
    };
    let found = found_call(checked, caller, call)?;
    let variable = given_for(&found.given, x)?;
    Some(variable_number(layout, caller, variable.0))
}

/// The first element of a variable of a row.
fn own_element(layout: &Layout, row: InstanceId, x: usize) -> ElementId
    ensures { result ≡ mirror.own_element layout.now.variables.items layout.now.starts.items
        row.0 x }
{
    let elements = layout.elements(row, VariableId(x));
    if elements.start < elements.end {
        ElementId(elements.start)
    } else {
        ElementId(0)
    }
}

/// The element at a place.
fn element_at(elements: &[ElementId], place: usize) -> ElementId
    ensures { result ≡ get_or elements.now place mirror.no_element }
{
    elements.get(place).copied().unwrap_or(ElementId(0))
}

/// The first `count` elements, or all where there are fewer.
fn first_elements(elements: &[ElementId], count: usize) -> &[ElementId]
    ensures { result.now ≡ take count elements.now }
{
    if elements.len() <= count {
        elements
    } else {
        &elements[..count]
    }
}

/// The element that serves for variable `x` of a row; `before` holds those of the rows before it.
fn serving_element(
    checked: &Checked,
    layout: &Layout,
    before: &[ElementId],
    row: InstanceId,
    origin: Origin,
    x: usize,
) -> ElementId
    ensures { result ≡ mirror.serving_element (sources_of checked.now layout.now) before.now row.0
        origin x }
{
    match caller_number(checked, layout, origin, x) {
        Some(number) => element_at(before, number),
        None => own_element(layout, row, x),
    }
}

/// Adds the elements that serve for the variables of a row.
fn push_serving(
    serving: &mut Vec<ElementId>,
    checked: &Checked,
    layout: &Layout,
    row: InstanceId,
    origin: Origin,
) -> Result<(), AllocError>
    ensures { OnOk result (serving.new.items ≡ serving.old.items
        ++ mirror.row_serving (sources_of checked.now layout.now) row.0 origin
        serving.old.items) }
{
    let before = serving.len();
    for x in 0..layout.variable_count(row) {
        let known = first_elements(serving, before);
        let element = serving_element(checked, layout, known, row, origin, x);
        serving.push(element)?;
    }
    Ok(())
}

/// The elements that serve for the variables of the rows of a table.
fn table_serving(
    alloc: Global,
    checked: &Checked,
    layout: &Layout,
) -> Result<Vec<ElementId>, AllocError>
    requires few { length checked.now.elab.table.instances.items < 2 ^ 32 }
    ensures { IfOk result (λ serving. serving.items
        ≡ mirror.all_serving (sources_of checked.now layout.now)) }
{
    let table = checked.elab().table();
    let mut serving = Vec::new(alloc);
    for row in 0..table.instances.len() {
        let origin = table.instances[row].origin;
        push_serving(
            &mut serving,
            checked,
            layout,
            InstanceId(row as u32),
            origin,
        )?;
    }
    Ok(serving)
}

/// Adds two clocks: the instants of `parent` at which `element` is false, and those where it is
/// true.
fn push_signs(
    clocks: &mut Vec<Clock>,
    parent: Option<ClockId>,
    element: ElementId,
) -> Result<(), AllocError>
    ensures { OnOk result (clocks.new.items
        ≡ clocks.old.items ++ mirror.signed_clocks parent element) }
{
    clocks.push(Clock {
        parent,
        element,
        sign: false,
    })?;
    clocks.push(Clock {
        parent,
        element,
        sign: true,
    })?;
    Ok(())
}

/// Adds the clocks of the variables of a row of this node.
fn push_clocks(
    clocks: &mut Vec<Clock>,
    layout: &Layout,
    runs: &[Option<ClockId>],
    serving: &[ElementId],
    row: InstanceId,
    node: &ResolvedNode,
) -> Result<(), AllocError>
    ensures { OnOk result (clocks.new.items ≡ clocks.old.items
        ++ mirror.node_clocks layout.now.variables.items runs.now serving.now row.0 node.now) }
{
    for x in 0..layout.variable_count(row) {
        let parent = clock_id(layout, runs, row, declared_clock(node, VariableId(x)));
        let element = element_at(serving, variable_number(layout, row, x));
        push_signs(clocks, parent, element)?;
    }
    Ok(())
}

/// Adds the clocks of the variables of a row, if it has a node.
#[tactic(auto, using(lb_syntax::proofs::ListPlaces::nothing_added))]
fn push_row(
    clocks: &mut Vec<Clock>,
    layout: &Layout,
    runs: &[Option<ClockId>],
    serving: &[ElementId],
    row: InstanceId,
    node: Option<&ResolvedNode>,
) -> Result<(), AllocError>
    ensures { OnOk result (clocks.new.items ≡ clocks.old.items ++ listed
        (mirror.node_clocks layout.now.variables.items runs.now serving.now row.0)
        (option_map (λ n. n.now) node.entry)) }
{
    match node {
        Some(node) => push_clocks(clocks, layout, runs, serving, row, node),
        None => Ok(()),
    }
}

/// The clocks of the variables of the rows of a table, where `runs` holds the clocks on which rows
/// run, and `serving` the elements that serve for variables.
fn table_clocks(
    alloc: Global,
    reached: &Reached,
    table: &Table,
    layout: &Layout,
    runs: &[Option<ClockId>],
    serving: &[ElementId],
) -> Result<Vec<Clock>, AllocError>
    requires few { length table.now.instances.items < 2 ^ 32 }
    ensures { IfOk result (λ clocks. clocks.items ≡ mirror.table_clocks reached.now table.now
        layout.now.variables.items runs.now serving.now table.now.instances.items) }
{
    let mut clocks = Vec::new(alloc);
    for row in 0..table.instances.len() {
        let node = node_at(reached, table, &table.instances[row]);
        push_row(
            &mut clocks,
            layout,
            runs,
            serving,
            InstanceId(row as u32),
            node,
        )?;
    }
    Ok(clocks)
}

impl Clocks {
    ghost use Rattle.lb_static.specs.Elaborated.{elaborated_program};
    ghost use Rattle.lb_expand.specs.ClockPlaces.{AreClocksOf};
    ghost use Rattle.lb_expand.specs.TableClocks.{IsLayoutOf};
    ghost use Rattle.lb_flat.specs.Within.{AreClocks};

    /// The clocks of a table.
    pub(crate) fn new(
        alloc: Global,
        checked: &Checked,
        layout: &Layout,
    ) -> Result<Clocks, AllocError>
        requires few { length checked.now.elab.table.instances.items < 2 ^ 32 }
        ensures table { IfOk result (λ c. c.table.items
            ≡ mirror.all_clocks (sources_of checked.now layout.now)) }
        ensures runs { IfOk result (λ c. c.runs.items
            ≡ mirror.all_runs (sources_of checked.now layout.now)) }
        ensures lawful { IfOk result (λ c.
            IsLayoutOf checked.now.elab.reached checked.now.elab.table layout.now →
            AreClocksOf (elaborated_program checked.now.elab) layout.now.variables.items c) }
        ensures within { IfOk result (λ c.
            IsLayoutOf checked.now.elab.reached checked.now.elab.table layout.now →
            AreClocks layout.now.count c.table.items) }
    {
        let elab = checked.elab();
        let runs = table_runs(alloc, checked, layout)?;
        let serving = table_serving(alloc, checked, layout)?;
        let table = table_clocks(alloc, elab.reached(), elab.table(), layout, &runs, &serving)?;
        Ok(Clocks { table, runs })
    }

    /// The place of a clock of a row.
    pub(crate) fn of(
        &self,
        layout: &Layout,
        row: InstanceId,
        clock: lb_check::Clock,
    ) -> Option<ClockId>
        ensures { result ≡ mirror.clock_id layout.now.variables.items self.now.runs.items row.0
            clock }
    {
        clock_id(layout, &self.runs, row, clock)
    }
}
