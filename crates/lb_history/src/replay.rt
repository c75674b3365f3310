//! A recorded trace, replayed instant by instant.

ghost use Rattle.std.specs.Prelude.{◌≡◌, ◌<◌, ◌≤◌, true, false, replicate, length, IfOk};
ghost use Rattle.lb_static.specs.Signature.{kinds_of};
ghost use Rattle.lb_flat.specs.InOrder.{is_in_order};
ghost use Rattle.lb_flat.specs.Inputs.{inputs_of};
ghost use Rattle.lb_flat.specs.Programs.{flat_equations, IsInRange};
ghost use Rattle.lb_traces.specs.Traces.{trace_at};
ghost use Rattle.lb_history.specs.Replays.{IsReplayed, replayed_props};

use crate::instant::{Instant, commit, compute};
use lb_flat::{Cell, ElementId, Equation, FlatProgram, Ordered, kinds_of};
use lb_syntax::Kind;
use lb_traces::TraceSet;
use std::alloc::{AllocError, Global};

/// A replay of one trace of a program. It takes memory when it is made, and none for an instant.
///
/// ```text
/// let mut replay = Replay::new(alloc, &ordered, &set, 0)?;
/// while replay.next() < replay.instants() {
///     replay.advance();
///     let cell = replay.cell(ElementId(0));
/// }
/// ```
pub struct Replay<'a> {
    program: &'a FlatProgram,
    set: &'a TraceSet,
    /// The kind of each column of the traces.
    kinds: Vec<Kind>,
    /// The number of the trace.
    trace: u32,
    /// The number of instants of the trace.
    instants: u32,
    /// The instant that comes next.
    next: u32,
    /// The equations, with their memories as they are before the instant `next`.
    equations: Vec<Equation>,
    /// The row of the instant before `next`.
    row: Vec<Cell>,
    ghost in_range: { IsInRange program.now },
    ghost in_order: { is_in_order (replicate program.now.size false)
        (flat_equations program.now.clocks.items program.now.equations.items) ≡ true },
    ghost columns: { kinds.items ≡ kinds_of set.now.signature },
    ghost recorded: { trace < length set.now.traces },
    ghost all_instants: { instants ≡ length (trace_at set.now.traces trace).1 },
    ghost within: { next ≤ instants },
    ghost replayed: { IsReplayed program.now (inputs_of set.now trace) next equations.items
        row.items } by { Prim.hlevel replayed_props },
}

// Not derived, so that a caller drops it in one step.
impl Drop for Replay<'_> {
    fn drop(self) {
        let Replay {
            program: _,
            set: _,
            kinds: _,
            trace: _,
            instants: _,
            next: _,
            equations: _,
            row: _,
        } = self;
    }
}

impl<'a> Replay<'a> {
    ghost use Rattle.std.specs.Prelude.{ℕ, suc, ◌+◌};
    ghost use Rattle.lb_flat.specs.Programs.{program_of};
    ghost use Rattle.lb_flat.specs.Values.{cell_of};
    ghost use Rattle.lb_history.specs.Histories.{IsHistoryCell};
    ghost use Rattle.lb_flat.specs.Run.{cell};
    ghost use Rattle.lb_history.specs.ReplayParts.{program_in, recording_in, trace_in, next_in};
    ghost use Rattle.lb_history.specs.ReplayParts.{equations_in, row_in};

    /// The replay of a trace of `set`, given by its number, before its first instant.
    pub fn new(
        alloc: Global,
        ordered: &'a Ordered,
        set: &'a TraceSet,
        trace: u32,
    ) -> Result<Replay<'a>, AllocError>
        requires { trace < length set.now.traces }
        ensures program { IfOk result (λ replay. program_in replay ≡ ordered.now.program) }
        ensures recording { IfOk result (λ replay. recording_in replay ≡ set.now) }
        ensures trace { IfOk result (λ replay. trace_in replay ≡ trace) }
        ensures next { IfOk result (λ replay. next_in replay ≡ 0) }
    {
        let program = &ordered.program;
        let kinds = kinds_of(alloc, set.signature())?;
        let instants = set.length(trace);
        let mut equations = Vec::new(alloc);
        equations.extend_from_slice(program.equations.as_slice())?;
        let row = vec![in alloc; Cell::Absent; program.size as usize]?;
        Ok(Replay {
            program,
            set,
            kinds,
            trace,
            instants,
            next: 0,
            equations,
            row,
        })
    }

    /// The number of instants of the trace.
    pub fn instants(&self) -> u32
        ensures { result ≡ length (trace_at (recording_in self.now).traces (trace_in self.now)).1 }
    {
        self.instants
    }

    /// The instant that comes next.
    pub fn next(&self) -> u32
        ensures { result ≡ next_in self.now }
    {
        self.next
    }

    /// The equations, in order, with their memories as they are before the instant that comes next.
    pub fn equations(&self) -> &[Equation]
        ensures { flat_equations (program_in self.now).clocks.items result.now
            ≡ equations_in self.now }
    {
        self.equations.as_slice()
    }

    /// Computes the next instant.
    pub fn advance(&mut self)
        requires { next_in self.old
            < length (trace_at (recording_in self.old).traces (trace_in self.old)).1 }
        ensures program { program_in self.new ≡ program_in self.old }
        ensures recording { recording_in self.new ≡ recording_in self.old }
        ensures trace { trace_in self.new ≡ trace_in self.old }
        ensures next { next_in self.new ≡ next_in self.old + 1 }
    {
        let at = Instant {
            set: self.set,
            kinds: self.kinds.as_slice(),
            k: self.trace,
            t: self.next,
        };
        let clocks = self.program.clocks.as_slice();
        compute(
            self.row.as_mut_slice(),
            clocks,
            self.equations.as_slice(),
            at,
        );
        commit(self.equations.as_mut_slice(), self.row.as_slice(), clocks);
        self.next += 1;
    }

    /// The cell of an element in the row of the instant before the next one. An element of a
    /// variable holds what the history has there. The cell is absent before the first instant, and
    /// where there is no such element.
    pub fn cell(&self, element: ElementId) -> Cell
        ensures row { (t : ℕ) → next_in self.now ≡ suc t →
            cell_of result ≡ cell (row_in self.now t) element.0 }
        ensures history { (t : ℕ) → next_in self.now ≡ suc t →
            IsHistoryCell (program_of (program_in self.now)) (recording_in self.now)
            (trace_in self.now) t element.0 (cell_of result) }
    {
        let place = element.0 as usize;
        if place < self.row.len() {
            self.row[place]
        } else {
            Cell::Absent
        }
    }
}
