//! An instant of a recorded trace, with the memories before it.

ghost use Rattle.std.specs.Prelude.{◌≡◌, ◌+◌, ◌<◌, ◌≤◌, length, IfOk};
ghost use Rattle.lb_flat.specs.Inputs.{inputs_of};
ghost use Rattle.lb_flat.specs.Programs.{flat_equations, program_of};
ghost use Rattle.lb_traces.specs.Traces.{trace_at};
ghost use Rattle.lb_history.specs.ReplayParts.{next_in, program_in, recording_in, trace_in};
ghost use Rattle.lb_history.specs.Replaying.{equations_before};
ghost use Rattle.lb_history.specs.Replays.{replayed_props};

use lb_flat::{ElementId, Equation, FlatProgram, Ordered};
use lb_history::{Cell, Replay};
use lb_traces::TraceSet;
use std::alloc::{AllocError, Global};

/// A replay of a trace that has computed `instants` instants.
fn replay_to<'a>(
    alloc: Global,
    ordered: &'a Ordered,
    set: &'a TraceSet,
    trace: u32,
    instants: u32,
) -> Result<Replay<'a>, AllocError>
    requires trace { trace < length set.now.traces }
    requires instants { instants ≤ length (trace_at set.now.traces trace).1 }
    ensures program { IfOk result (λ replay. program_in replay ≡ ordered.now.program) }
    ensures recording { IfOk result (λ replay. recording_in replay ≡ set.now) }
    ensures trace { IfOk result (λ replay. trace_in replay ≡ trace) }
    ensures next { IfOk result (λ replay. next_in replay ≡ instants) }
{
    let mut replay = Replay::new(alloc, ordered, set, trace)?;
    'instants: while replay.next() < instants {
        replay.advance();
    }
    Ok(replay)
}

/// An instant of a recorded trace.
pub struct Moment<'a> {
    /// The replay after the instant.
    after: Replay<'a>,
    /// The equations, with their memories as they are before the instant.
    equations: Vec<Equation>,
    /// The number of the instant.
    pub instant: u32,
    program: &'a FlatProgram,
    ghost was: { next_in after ≡ instant + 1 },
    ghost of: { program_in after ≡ program.now },
    ghost before: { flat_equations program.now.clocks.items equations.items
        ≡ equations_before (program_of program.now).size (program_of program.now).equations
        (inputs_of (recording_in after) (trace_in after)) instant } by { Prim.hlevel replayed_props },
}

// Not derived, so that a caller drops it in one step.
impl Drop for Moment<'_> {
    fn drop(self) {
        let Moment {
            after: _,
            equations: _,
            instant: _,
            program: _,
        } = self;
    }
}

impl<'a> Moment<'a> {
    ghost use Rattle.lb_flat.specs.Run.{cell};
    ghost use Rattle.lb_flat.specs.Values.{cell_of};
    ghost use Rattle.lb_reason.specs.Moments.{equations_now, inputs_now, program_now, row_now};

    /// An instant of a trace.
    pub(crate) fn new(
        alloc: Global,
        ordered: &'a Ordered,
        set: &'a TraceSet,
        trace: u32,
        instant: u32,
    ) -> Result<Moment<'a>, AllocError>
        requires trace { trace < length set.now.traces }
        requires instant { instant < length (trace_at set.now.traces trace).1 }
        ensures program { IfOk result (λ m. program_now m ≡ program_of ordered.now.program) }
        ensures inputs { IfOk result (λ m. inputs_now m ≡ inputs_of set.now trace) }
        ensures instant { IfOk result (λ m. m.instant ≡ instant) }
    {
        let mut after = replay_to(alloc, ordered, set, trace, instant)?;
        let mut equations = Vec::new(alloc);
        equations.extend_from_slice(after.equations())?;
        after.advance();
        Ok(Moment {
            after,
            equations,
            instant,
            program: &ordered.program,
        })
    }

    /// The program.
    pub(crate) fn program(&self) -> &'a FlatProgram
        ensures { program_of result.now ≡ program_now self.now }
    {
        self.program
    }

    /// The equations, with their memories as they are before the instant.
    pub fn equations(&self) -> &[Equation]
        ensures { flat_equations self.now.program.now.clocks.items result.now
            ≡ equations_now self.now }
    {
        self.equations.as_slice()
    }

    /// The cell of an element at the instant.
    pub fn cell(&self, element: ElementId) -> Cell
        ensures { cell_of result ≡ cell (row_now self.now) element.0 }
    {
        self.after.cell(element)
    }
}
