//! The size of a program: its variables, and its expressions with their parts.

ghost use Rattle.std.specs.Prelude.{◌≡◌, IfSome, None, false, length, sum_by};
ghost use Rattle.lb_static.specs.Elaborated.{elaborated_program};
ghost use Rattle.lb_check.specs.TypeRules as rules;
ghost use Rattle.lb_expand.specs.Rows.{declared_width, element_total, sum_of, widths_in};
ghost use Rattle.lb_expand.specs.SizeFaults.{Counts, IsSizeFault};
ghost use Rattle.lb_expand.specs.TableSizes.{lent_size, term_total};

use crate::error::SizeFault;
use crate::layout::width;
use lb_check::Checked;
use lb_static::{Instance, Reached, StaticInt, Table, Variable};

/// The greatest size of a program.
const MOST: u32 = 65536;

/// The least size that is too large.
const LEAST_TOO_LARGE: u64 = 65537;

/// How many scalar elements the expressions of a row have together, or 65,537 for more than 65,536.
///
/// Where no types are found for them, the program is too large, and the answer is 65,537 too.
fn row_size(checked: &Checked, row: &Instance) -> u32
    ensures { result ≡ lent_size checked.now.types row.now.specialization.0 }
{
    match checked.term_types(row.specialization) {
        Some(types) => types.size(),
        None => MOST + 1,
    }
}

/// Whether a checked program is small enough, where its variables have `elements` elements.
pub(crate) fn is_small(checked: &Checked, elements: u32) -> bool
    requires { elements ≡ element_total checked.now.elab.reached checked.now.elab.table }
    ensures { result ≡ rules.is_small (elaborated_program checked.now.elab) }
{
    let mut left = (MOST + 1).saturating_sub(elements);
    for row in &checked.elab().table().instances {
        left = left.saturating_sub(row_size(checked, row));
    }
    left > 0
}

/// How many scalar elements some variables have under these static values.
fn element_count(statics: &[StaticInt], variables: &[Variable]) -> u64
    ensures { Counts result (sum_by (declared_width statics.now) variables.now) }
{
    let mut count: u64 = 0;
    for variable in variables {
        count = count.saturating_add(u64::from(width(statics, variable)));
    }
    count
}

/// How many scalar elements the variables of a row have.
fn row_variables(reached: &Reached, table: &Table, row: &Instance) -> u64
    ensures { Counts result (sum_of (widths_in reached.now table.now row.now)) }
{
    let Some(specialization) = table.specializations.get(row.specialization.0 as usize) else {
        return 0;
    };
    match reached.nodes.get(specialization.node.0) {
        Some(node) => element_count(&specialization.statics, &node.variables),
        None => 0,
    }
}

/// How many scalar elements the variables of all rows have.
fn all_variables(reached: &Reached, table: &Table) -> u64
    ensures { Counts result (element_total reached.now table.now) }
{
    let mut count: u64 = 0;
    for row in &table.instances {
        count = count.saturating_add(row_variables(reached, table, row));
    }
    count
}

/// How many scalar elements the expressions of all rows have; none where types of a row are
/// missing.
fn all_expressions(checked: &Checked, table: &Table) -> Option<u64>
    ensures found { IfSome result (λ _.
        checked.now.types ≡ None → length table.now.instances.items ≡ 0) }
    ensures count { IfSome result (λ n.
        Counts n (term_total table.now (lent_size checked.now.types))) }
{
    let mut count: u64 = 0;
    for row in &table.instances {
        let types = checked.term_types(row.specialization)?;
        count = count.saturating_add(u64::from(types.size()));
    }
    Some(count)
}

/// The size of a checked program that is too large.
pub(crate) fn size_fault(checked: &Checked) -> SizeFault
    requires { rules.is_small (elaborated_program checked.now.elab) ≡ false }
    ensures { IsSizeFault (elaborated_program checked.now.elab) result }
{
    let elab = checked.elab();
    let table = elab.table();
    let variables = all_variables(elab.reached(), table);
    match all_expressions(checked, table) {
        Some(expressions) => SizeFault {
            size: variables.saturating_add(expressions),
            is_least: false,
            limit: MOST,
        },
        None => SizeFault {
            size: variables.max(LEAST_TOO_LARGE),
            is_least: true,
            limit: MOST,
        },
    }
}
