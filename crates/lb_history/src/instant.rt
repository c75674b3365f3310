//! One instant of a flat program: its row of cells, and the memories after it.

ghost use Rattle.std.specs.Prelude.{◌≡◌, ◌<◌, [], length, map, get_or, All};
ghost use Rattle.lb_static.specs.Signature.{kinds_of};
ghost use Rattle.lb_flat.specs.Inputs.{inputs_of};
ghost use Rattle.lb_flat.specs.Programs.{flat_equations};
ghost use Rattle.lb_flat.specs.Run.{now, filled, advanced};
ghost use Rattle.lb_traces.specs.Traces.{trace_at};
ghost use Rattle.lb_flat.specs.Values.{cell_of, clock_of, operation_of};
ghost use Rattle.lb_flat.specs.Within.{AreClocks, IsWithin};

use lb_flat::{Cell, Clock, Equation, Operation, input_at, now, remember};
use lb_syntax::Kind;
use lb_traces::TraceSet;

/// An instant of a recorded trace, and the kind of each column of the traces.
#[derive(Clone, Copy)]
pub(crate) struct Instant<'a> {
    pub(crate) set: &'a TraceSet,
    pub(crate) kinds: &'a [Kind],
    /// The number of the trace.
    pub(crate) k: u32,
    /// The number of the instant.
    pub(crate) t: u32,
    pub(crate) ghost columns: { kinds.now ≡ kinds_of set.now.signature },
    pub(crate) ghost recorded: { k < length set.now.traces },
    pub(crate) ghost within: { t < length (trace_at set.now.traces k).1 },
}

// ## The row

/// The cell of an equation, from a row in which the cells that it reads are computed.
fn equation_cell(clocks: &[Clock], row: &[Cell], q: &Equation, at: Instant) -> Cell
    requires table { AreClocks (length row.now) clocks.now }
    requires within { IsWithin (length row.now) clocks.now q.now }
    ensures { cell_of result
        ≡ now (get_or (inputs_of at.entry.set.now at.entry.k) at.entry.t [])
        (map cell_of row.now) (clock_of clocks.now q.now.clock) (operation_of q.now.operation) }
{
    match &q.operation {
        Operation::Input(input) => input_at(at.set, at.kinds, at.k, at.t, *input),
        _ => now(clocks, row, q),
    }
}

/// Computes the row of an instant: each equation in order gives its element.
pub(crate) fn compute(row: &mut [Cell], clocks: &[Clock], equations: &[Equation], at: Instant)
    requires table { AreClocks (length row.old) clocks.now }
    requires within { All (IsWithin (length row.old) clocks.now) equations.now }
    ensures elements { length row.new ≡ length row.old }
    ensures row { map cell_of row.new
        ≡ filled (get_or (inputs_of at.entry.set.now at.entry.k) at.entry.t [])
        (map cell_of row.old) (flat_equations clocks.now equations.now) }
{
    for i in 0..equations.len() {
        let q = &equations[i];
        row[q.element.0 as usize] = equation_cell(clocks, row, q, at);
    }
}

// ## Memories

/// Moves every memory to the next instant, after the row of this one.
pub(crate) fn commit(equations: &mut [Equation], row: &[Cell], clocks: &[Clock])
    requires within { All (IsWithin (length row.now) clocks.now) equations.old }
    ensures within { All (IsWithin (length row.now) clocks.now) equations.new }
    ensures memories { flat_equations clocks.now equations.new
        ≡ map (advanced (map cell_of row.now)) (flat_equations clocks.now equations.old) }
{
    for i in 0..equations.len() {
        remember(row, &mut equations[i].operation);
    }
}
