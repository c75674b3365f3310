//! The whole flat program: the rows of the table of instances that start, and what all rows emit.

ghost use Rattle.std.specs.Prelude.{◌≡◌, ◌<◌, ◌≤◌, ◌+◌, ◌^◌, true, false, Some, length, OnOk};
ghost use Rattle.std.specs.Prelude.{IfOk};
ghost use Rattle.std.specs.Option.{ForSome};
ghost use Rattle.lb_syntax.specs.Lists.{Every};
ghost use Rattle.lb_expand.specs.EmitRows.{bodies, IsCounted, HasRows};
ghost use Rattle.lb_expand.specs.EmitWhole as mirror;
ghost use Rattle.lb_expand.specs.Frames.{with_copies};
ghost use Rattle.lb_flat.specs.Programs.{numbers_of, program_of, IsInRange};
ghost use Rattle.lb_expand.specs.TermEmissions.{state_of};
ghost use Rattle.lb_flat.specs.Within.{AreClocks};

use crate::clocks::node_at;
use crate::expansion::begin_emission::Beginning;
use crate::expansion::frame::TableFrame;
use crate::expansion::start::Start;
use crate::expansion::term_emission::TermEmission;
use crate::temporary_kinds::temporary_kinds;
use lb_flat::{Clock, FlatProgram};
use lb_static::{Origin, Reached, Table};
use lb_syntax::Kind;
use std::alloc::{AllocError, Global};

/// Whether an instance starts the node under test, or the observer.
fn is_start(observer: bool, origin: Origin) -> bool
    ensures { result ≡ mirror.is_start observer origin }
{
    match origin {
        Origin::UnderTest => !observer,
        Origin::Observer => observer,
        Origin::Called { .. } => false,
    }
}

/// The first row that starts the node under test, or the observer.
pub(crate) fn start_in(reached: &Reached, table: &Table, observer: bool) -> Option<Start>
    ensures { result ≡ mirror.start_in reached.now table.now observer }
{
    for row in 0..table.instances.len() {
        let instance = table.instances[row];
        if is_start(observer, instance.origin) {
            return match node_at(reached, table, &instance) {
                Some(node) => Some(Start {
                    row,
                    inputs: node.inputs,
                    outputs: node.outputs,
                }),
                None => None,
            };
        }
    }
    None
}

impl TermEmission {
    /// Emits the inputs of the observer as copies of the inputs and outputs of the node under test.
    pub(crate) fn observe<F: TableFrame>(
        &mut self,
        frame: &mut F,
        root: Start,
        observer: Start,
    ) -> Result<(), AllocError>
        requires clocks { F.clocks frame.old ≡ self.old.clocks.items }
        requires variables { F.variables frame.old ≤ self.old.next }
        requires root_row { F.is_row frame.old root.row ≡ true }
        requires observer_row { F.is_row frame.old observer.row ≡ true }
        requires outputs { root.inputs + root.outputs < 2 ^ 64 }
        ensures state { OnOk result (state_of self.new ≡ with_copies (state_of self.old)
            (mirror.observed_at (F.contexts frame.old) (Some root) (Some observer))) }
        ensures found { OnOk result (numbers_of self.new.found.items
            ≡ numbers_of self.old.found.items) }
        ensures next { OnOk result (self.new.next ≡ self.old.next) }
        ensures clocks { OnOk result (self.new.clocks ≡ self.old.clocks) }
        ensures rows { F.is_row frame.new ≡ F.is_row frame.old }
        ensures contexts { F.contexts frame.new ≡ F.contexts frame.old }
        ensures table { F.clocks frame.new ≡ F.clocks frame.old }
        ensures variables { F.variables frame.new ≡ F.variables frame.old }
    {
        let from = self.found.len();
        frame.enter(root.row);
        self.put_parameters(&*frame, 0, root.inputs + root.outputs)?;
        frame.enter(observer.row);
        self.copy_parameters(&*frame, observer.inputs, from)?;
        self.cut(from);
        Ok(())
    }
}

/// The flat program of the rows of a table of instances, on inputs of the kinds `inputs`, where the
/// elements of variables have the kinds `kinds`.
pub(crate) fn emit_program<F: TableFrame>(
    alloc: Global,
    frame: &mut F,
    reached: &Reached,
    table: &Table,
    clocks: Vec<Clock>,
    inputs: Vec<Kind>,
    kinds: Vec<Kind>,
    variables: u32,
) -> Result<FlatProgram, AllocError>
    requires table { F.clocks frame.old ≡ clocks.items }
    requires variables { F.variables frame.old ≡ variables }
    requires clocks { AreClocks variables clocks.items }
    requires kinds { length kinds.items ≡ variables }
    requires positive { 0 < variables }
    requires elements { (mirror.whole reached.now table.now (F.contexts frame.old) inputs.items
        kinds.items variables).size < 2 ^ 32 }
    requires places { Every IsCounted (bodies reached.now table.now (F.contexts frame.old) 0
        table.now.instances.items) }
    requires there { HasRows reached.now table.now (F.is_row frame.old) }
    requires root { ForSome (mirror.start_in reached.now table.now false)
        (mirror.IsReady (F.contexts frame.old) (F.is_row frame.old)) }
    requires observer { ForSome (mirror.start_in reached.now table.now true)
        (mirror.IsReady (F.contexts frame.old) (F.is_row frame.old)) }
    ensures program { IfOk result (λ p. program_of p ≡ mirror.whole reached.now table.now
        (F.contexts frame.old) inputs.items kinds.items variables) }
    ensures in_range { IfOk result (λ p. IsInRange p) }
    ensures clocks { IfOk result (λ p. p.clocks.items ≡ clocks.items) }
{
    let beginning = Beginning::new(alloc, frame, reached, table, &clocks, variables)?;
    let Beginning {
        copies,
        clock_elements,
        property,
    } = beginning;
    let mut emission = TermEmission::new(alloc, clocks, variables);
    emission.rows(frame, reached, table)?;
    let mut all_kinds = kinds;
    temporary_kinds(&mut all_kinds, &emission.equations)?;
    let equations = emission.equations_behind(copies)?;
    Ok(emission.into_program(
        equations,
        inputs,
        all_kinds,
        variables,
        clock_elements,
        property,
    ))
}
