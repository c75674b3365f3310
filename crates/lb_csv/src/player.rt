//! The instants of a trace that are shown.

ghost use Rattle.std.specs.Prelude.{◌≤◌, length};
ghost use Rattle.lb_traces.specs.Traces.{trace_at};
ghost use Rattle.lb_history.specs.ReplayParts.{next_in, recording_in, trace_in};

use crate::column::Column;
use lb_flat::Ordered;
use lb_history::{Cell, Replay};
use lb_traces::TraceSet;
use std::alloc::{AllocError, Global};

/// A trace that is replayed, from one instant up to another.
#[derive(Drop)]
pub struct Player<'a> {
    replay: Replay<'a>,
    /// The instant behind the last.
    pub end: u32,
    ghost within: { end ≤ length (trace_at (recording_in replay).traces (trace_in replay)).1 },
    ghost before: { next_in replay ≤ end },
}

impl<'a> Player<'a> {
    ghost use Rattle.std.specs.Prelude.{◌≡◌, ◌+◌, ◌<◌, ℕ, suc, map, nat_lt, IfOk, OnOk};
    ghost use Rattle.lb_flat.specs.Inputs.{inputs_of};
    ghost use Rattle.lb_flat.specs.Programs.{program_of};
    ghost use Rattle.lb_flat.specs.Values.{cell_of};
    ghost use Rattle.lb_history.specs.Replaying.{row_at};
    ghost use Rattle.lb_csv.specs.CsvTexts.{cells_in};
    ghost use Rattle.lb_csv.specs.Players.{program_played, inputs_played, next_played};
    ghost use Rattle.lb_csv.specs.Shown.{numbers_of};

    /// A player of a trace, from an instant up to another.
    pub fn new(
        alloc: Global,
        ordered: &'a Ordered,
        set: &'a TraceSet,
        k: u32,
        first: u32,
        end: u32,
    ) -> Result<Player<'a>, AllocError>
        requires trace { k < length set.now.traces }
        requires first { first ≤ end }
        requires end { end ≤ length (trace_at set.now.traces k).1 }
        ensures program { IfOk result (λ p. program_played p ≡ program_of ordered.now.program) }
        ensures inputs { IfOk result (λ p. inputs_played p ≡ inputs_of set.now k) }
        ensures first { IfOk result (λ p. next_played p ≡ first) }
        ensures end { IfOk result (λ p. p.end ≡ end) }
    {
        let mut replay = Replay::new(alloc, ordered, set, k)?;
        'instants: while replay.next() < first {
            replay.advance();
        }
        Ok(Player { replay, end })
    }

    /// The instant that comes next.
    pub fn next(&self) -> u32
        ensures { result ≡ next_played self.now }
    {
        self.replay.next()
    }

    /// Whether an instant is left.
    pub fn has_next(&self) -> bool
        ensures { result ≡ nat_lt (next_played self.now) self.now.end }
    {
        self.replay.next() < self.end
    }

    /// Computes the next instant.
    pub fn advance(&mut self)
        requires { next_played self.old < self.old.end }
        ensures program { program_played self.new ≡ program_played self.old }
        ensures inputs { inputs_played self.new ≡ inputs_played self.old }
        ensures next { next_played self.new ≡ next_played self.old + 1 }
        ensures end { self.new.end ≡ self.old.end }
    {
        self.replay.advance();
    }

    /// Reads the cells of some elements at the instant before the next one.
    pub fn read(&self, columns: &[Column], cells: &mut Vec<Cell>) -> Result<(), AllocError>
        ensures { (t : ℕ) → next_played self.now ≡ suc t → OnOk result (map cell_of cells.new.items
            ≡ cells_in (row_at (program_played self.now) (inputs_played self.now) t)
            (numbers_of columns.now)) }
    {
        cells.clear();
        for column in columns {
            cells.push(self.replay.cell(column.element))?;
        }
        Ok(())
    }
}
