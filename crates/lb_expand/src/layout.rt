//! The places of the scalar elements of the rows of the table of instances.
//!
//! The variables of all rows stand one after another, and so do their elements:
//!
//! ```text
//! row 0: a, m^2   row 1: x     variables before each row       0 2 3
//!                              elements before each variable   0 1 3 4
//! ```

ghost use Rattle.std.specs.Prelude.{◌≡◌, ◌≤◌, ◌<◌, ◌+◌, min, map, take, drop, IfOk};
ghost use Rattle.lb_expand.specs.Rows.{sum_of, declared_width, widths_in, AreAdded};

use lb_flat::ElementId;
use lb_static::{
    Instance, InstanceId, Reached, StaticInt, Table, Variable, VariableId, elements_of, part_of,
};
use std::alloc::{AllocError, AllocFailed, Global};
use std::ops::Range;

/// The most elements of variables.
const MOST: u32 = 65536;

/// Why there is no layout.
#[derive(Drop)]
pub(crate) enum LayoutError {
    /// Memory ran out.
    Memory,
    /// There are more than 65,536 elements.
    Large,
}

impl From<AllocError> for LayoutError {
    ghost use Rattle.lb_expand.specs.declared.layout.LayoutError.TheVariants.{Memory};

    ghost from_gives = { λ _ e. e ≡ Memory };

    fn from(_e: AllocError) -> LayoutError {
        LayoutError::Memory
    }
}

impl<T: Drop> From<AllocFailed<T>> for LayoutError {
    ghost use Rattle.lb_expand.specs.declared.layout.LayoutError.TheVariants.{Memory};

    ghost from_gives = { λ _ e. e ≡ Memory };

    fn from(_e: AllocFailed<T>) -> LayoutError {
        LayoutError::Memory
    }
}

/// The place of an element: its row, its variable among those of the row, and its index in that.
#[derive(Clone, Copy)]
pub(crate) struct ElementPlace {
    pub(crate) row: usize,
    pub(crate) variable: usize,
    pub(crate) index: u32,
}

/// The places of the elements of the rows of a table.
#[derive(Drop)]
pub(crate) struct Layout {
    /// How many variables stand before each row; one more at the end: all variables.
    variables: Vec<usize>,
    /// How many elements stand before each variable of all rows; one more at the end: all elements.
    starts: Vec<u32>,
    /// How many elements there are.
    pub(crate) count: u32,
}

/// How many elements a variable has under these static values, or 65,537 for more than 65,536.
pub(crate) fn width(statics: &[StaticInt], variable: &Variable) -> u32
    ensures { result ≡ min (declared_width statics.now variable.now) 65537 }
{
    let sizes = part_of(statics, variable.first_size.0, variable.sizes);
    elements_of(sizes) as u32
}

/// Adds the starts of some variables behind `last` elements; returns how many there are then.
fn add_variables(
    starts: &mut Vec<u32>,
    last: u32,
    statics: &[StaticInt],
    variables: &[Variable],
) -> Result<u32, LayoutError>
    requires { last ≤ 65536 }
    ensures added { IfOk result (AreAdded (map (declared_width statics.now) variables.now) last
        starts.old.items starts.new.items) }
    ensures large { result ≡ Err LayoutError.Large →
        65536 < last + sum_of (map (declared_width statics.now) variables.now) }
{
    let mut next = last;
    for variable in variables {
        let width = width(statics, variable);
        if width > MOST - next {
            return Err(LayoutError::Large);
        }
        next += width;
        starts.push(next)?;
    }
    Ok(next)
}

/// Adds the starts of the variables of a row.
fn add_row(
    starts: &mut Vec<u32>,
    last: u32,
    reached: &Reached,
    table: &Table,
    row: &Instance,
) -> Result<u32, LayoutError>
    requires { last ≤ 65536 }
    ensures added { IfOk result (AreAdded (widths_in reached.now table.now row.now) last
        starts.old.items starts.new.items) }
    ensures large { result ≡ Err LayoutError.Large →
        65536 < last + sum_of (widths_in reached.now table.now row.now) }
{
    let Some(specialization) = table.specializations.get(row.specialization.0 as usize) else {
        return Ok(last);
    };
    match reached.nodes.get(specialization.node.0) {
        Some(node) => add_variables(starts, last, &specialization.statics, &node.variables),
        None => Ok(last),
    }
}

impl Layout {
    ghost use Rattle.std.specs.Prelude.{ℕ, get_or, length};
    ghost use Rattle.lb_expand.specs.Rows.{variables_before, element_total, row_numbers};
    ghost use Rattle.lb_expand.specs.Rows.{count_at, numbers_between, numbers_at};

    /// The places of the elements of the rows of a table.
    ///
    /// Fails with `Large` where there are more than 65,536.
    pub(crate) fn new(
        alloc: Global,
        reached: &Reached,
        table: &Table,
    ) -> Result<Layout, LayoutError>
        ensures numbers { IfOk result (λ l. (row x : ℕ) →
            numbers_at l.variables.items l.starts.items row x
            ≡ row_numbers reached.now table.now row (record { 0 = x })) }
        ensures variables { IfOk result (λ l. (row : ℕ) →
            row ≤ length table.now.instances.items →
            get_or l.variables.items row 0 ≡ variables_before reached.now table.now row) }
        ensures count { IfOk result (λ l. l.count ≡ element_total reached.now table.now) }
        ensures few { IfOk result (λ l. l.count ≤ 65536) }
        ensures large { result ≡ Err LayoutError.Large →
            65536 < element_total reached.now table.now }
    {
        let mut variables = Vec::new(alloc);
        let mut starts = Vec::new(alloc);
        let mut count = 0;
        variables.push(0)?;
        starts.push(0)?;
        for row in &table.instances {
            count = add_row(&mut starts, count, reached, table, row)?;
            variables.push(starts.len() - 1)?;
        }
        Ok(Layout {
            variables,
            starts,
            count,
        })
    }

    /// How many variables stand before a row.
    pub(crate) fn first_variable(&self, row: InstanceId) -> usize
        ensures { result ≡ get_or self.now.variables.items row.0 0 }
    {
        self.variables.get(row.0 as usize).copied().unwrap_or(0)
    }

    /// How many variables a row has.
    pub(crate) fn variable_count(&self, row: InstanceId) -> usize
        ensures { result ≡ count_at self.now.variables.items row.0 }
    {
        let row = row.0 as usize;
        let first = self.variables.get(row).copied().unwrap_or(0);
        let next = self.variables.get(row + 1).copied().unwrap_or(0);
        next.saturating_sub(first)
    }

    /// The elements of a variable of a row.
    pub(crate) fn elements(&self, row: InstanceId, x: VariableId) -> Range<u32>
        ensures { numbers_between result.start result.end
            ≡ numbers_at self.now.variables.items self.now.starts.items row.0 x.0 }
    {
        let row = row.0 as usize;
        let first = self.variables.get(row).copied().unwrap_or(0);
        let next = self.variables.get(row + 1).copied().unwrap_or(0);
        if x.0 >= next.saturating_sub(first) {
            return 0..0;
        }
        let variable = first + x.0;
        let start = self.starts.get(variable).copied().unwrap_or(0);
        let end = self.starts.get(variable + 1).copied().unwrap_or(0);
        start..end
    }
    /// The place of an element.
    pub(crate) fn place_of(&self, element: ElementId) -> ElementPlace {
        let starts = self.starts.partition_point(|start| *start <= element.0);
        let variable = starts.saturating_sub(1);
        let rows = self.variables.partition_point(|first| *first <= variable);
        let row = rows.saturating_sub(1);
        let first = self.variables.get(row).copied().unwrap_or(0);
        let start = self.starts.get(variable).copied().unwrap_or(0);
        ElementPlace {
            row,
            variable: variable.saturating_sub(first),
            index: element.0.saturating_sub(start),
        }
    }
}
