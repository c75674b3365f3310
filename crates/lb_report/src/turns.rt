//! Running a round and reading the next one: one after the other, or both at once.

ghost use Rattle.std.specs.Prelude.{◌≡◌, ◌<◌};
ghost use Rattle.lb_report.specs.JudgedParts.{IsOutOfMemory};

use crate::pieces::Cut;
use crate::rounds::{Halt, Judged, Reading, Rounds, State, joined};
use lb_check::Verdict;
use lb_feed::{Feed, Window};
use lb_trace::{ColumnTable, RoundReader};
use lb_traces::TraceSet;
use std::alloc::AllocError;
use std::thread::{Threads, join_mut};

/// The halt where memory ran out while traces were run and others were read. A read that failed
/// comes first.
fn out_of_memory(read: Result<(), Cut>) -> Halt
    ensures { IsOutOfMemory read result }
{
    match read {
        Err(Cut::Load(cause)) => Halt::Load(cause),
        _ => Halt::from(AllocError),
    }
}

impl Rounds<'_, '_> {
    ghost use Rattle.std.specs.Prelude.{[], IfOk, IfSome};
    ghost use Rattle.lb_trace.specs.RoundReaders.{IsRound};
    ghost use Rattle.lb_trace.specs.Rolls.{IsRoll};
    ghost use Rattle.lb_trace.specs.Tables.{IsColumnTable};
    ghost use Rattle.lb_pool.specs.Correct.{AreVerdicts};
    ghost use Rattle.lb_feed.specs.Windows.{IsWindow, left};
    ghost use Rattle.lb_report.specs.JudgedParts.{IsReadingOf, IsState};
    ghost use Rattle.lb_report.specs.Pieces.{IsFilling, IsOpenRound};
    ghost use Rattle.lb_report.specs.Turns.{IsTurn};

    /// Why a text was not judged to its end, where reading into the round of `state` was cut.
    fn reading_of(&self, state: State, cut: Cut) -> Reading
        requires { IsRoll state.judged.roll }
        ensures { IsReadingOf self.now.runner.program.now.program.now self.now.signature.now state
            cut result }
    {
        match cut {
            Cut::Load(cause) => Reading::Halted(Halt::Load(cause)),
            Cut::Refused(cause) => Reading::Halted(Halt::Refused(cause)),
            Cut::Stopped(record) => Reading::Halted(self.stop(state, record)),
            Cut::Quoted => Reading::Quoted(state),
        }
    }

    /// Reads more traces into the round of a state, until it is full or the feed is over.
    pub(crate) fn read_on<F: Feed>(
        &self,
        feed: &mut F,
        window: &mut Window,
        table: &ColumnTable,
        state: State,
    ) -> Result<State, Reading>
        requires window { IsWindow window.old }
        requires failures { F.failures feed.old < u64.MAX }
        requires table { IsColumnTable self.now.signature.now table.now }
        requires state { IsState self.now.signature.now state }
        ensures { IsTurn self.now.runner.program.now.program.now self.now.signature.now table.now
            window.old window.new
            (left (F.coming feed.old) (F.given feed.old) (F.failures feed.old))
            (left (F.coming feed.new) (F.given feed.new) (F.failures feed.new)) state result }
    {
        let mut next = state;
        match self.read_round(feed, window, table, &mut next.round) {
            Ok(()) => Ok(next),
            Err(cut) => Err(self.reading_of(next, cut)),
        }
    }

    /// An empty round: the spare one, if there is one.
    fn empty_round(&self, spare: Option<RoundReader>) -> Result<RoundReader, AllocError>
        requires { IfSome spare (λ round.
            round.recorder.rows.signature ≡ self.now.signature.now) }
        ensures { IfOk result (IsRound self.now.signature.now []) }
    {
        match spare {
            Some(mut round) => {
                round.clear();
                Ok(round)
            }
            None => self.new_round(),
        }
    }

    /// Runs the traces of a set by several workers, and meanwhile reads others into a round.
    fn run_beside<R: Threads + Sync, F: Feed>(
        &self,
        rt: &R,
        set: &TraceSet,
        feed: &mut F,
        window: &mut Window,
        table: &ColumnTable,
        round: &mut RoundReader,
    ) -> (Result<Vec<Verdict>, AllocError>, Result<(), Cut>)
        requires window { IsWindow window.old }
        requires failures { F.failures feed.old < u64.MAX }
        requires table { IsColumnTable self.now.signature.now table.now }
        requires round { IsOpenRound self.now.signature.now round.old }
        ensures verdicts { IfOk result.0 (λ verdicts.
            AreVerdicts self.now.runner.program.now.program.now set.now verdicts.items) }
        ensures filling { IsFilling self.now.signature.now table.now window.old window.new
            (left (F.coming feed.old) (F.given feed.old) (F.failures feed.old))
            (left (F.coming feed.new) (F.given feed.new) (F.failures feed.new))
            round.old round.new result.1 }
    {
        join_mut(
            rt,
            &mut || self.run_side_by_side(rt, set),
            &mut || self.read_round(feed, window, table, round),
        )
    }

    /// Runs the traces of the round, and meanwhile reads others into the spare round. Then the two
    /// change places.
    fn run_and_read<R: Threads + Sync, F: Feed>(
        &self,
        rt: &R,
        feed: &mut F,
        window: &mut Window,
        table: &ColumnTable,
        state: State,
    ) -> Result<State, Reading>
        requires window { IsWindow window.old }
        requires failures { F.failures feed.old < u64.MAX }
        requires table { IsColumnTable self.now.signature.now table.now }
        requires state { IsState self.now.signature.now state }
        ensures { IsTurn self.now.runner.program.now.program.now self.now.signature.now table.now
            window.old window.new
            (left (F.coming feed.old) (F.given feed.old) (F.failures feed.old))
            (left (F.coming feed.new) (F.given feed.new) (F.failures feed.new)) state result }
    {
        let State {
            judged,
            room,
            round,
            spare,
        } = state;
        let Judged { roll, verdicts } = judged;
        let set = round.set();
        let roll = self.named(roll, set)?;
        let mut next = self.empty_round(spare)?;
        let (found, read) = self.run_beside(rt, set, feed, window, table, &mut next);
        let Ok(verdicts) = joined(verdicts, found) else {
            return Err(Reading::Halted(out_of_memory(read)));
        };
        let state = State {
            judged: Judged { roll, verdicts },
            room,
            round: next,
            spare: Some(round),
        };
        match read {
            Ok(()) => Ok(state),
            Err(cut) => Err(self.reading_of(state, cut)),
        }
    }

    /// Runs the traces of the round, and reads others. Several workers do both at once.
    pub(crate) fn turn<R: Threads + Sync, F: Feed>(
        &self,
        rt: &R,
        feed: &mut F,
        window: &mut Window,
        table: &ColumnTable,
        state: State,
    ) -> Result<State, Reading>
        requires window { IsWindow window.old }
        requires failures { F.failures feed.old < u64.MAX }
        requires table { IsColumnTable self.now.signature.now table.now }
        requires state { IsState self.now.signature.now state }
        ensures { IsTurn self.now.runner.program.now.program.now self.now.signature.now table.now
            window.old window.new
            (left (F.coming feed.old) (F.given feed.old) (F.failures feed.old))
            (left (F.coming feed.new) (F.given feed.new) (F.failures feed.new)) state result }
    {
        if self.workers == 1 {
            let next = self.next_round(rt, state)?;
            self.read_on(feed, window, table, next)
        } else {
            self.run_and_read(rt, feed, window, table, state)
        }
    }
}
