//! Judging a text that has quotes, from its begin or from a place on.
//!
//! A line end between quotes ends no record, so such a text is read by `csv`, and all that is left
//! of it is in memory.

use crate::rounds::{Halt, Judged, Reading, Rounds, State};
use csv::{ByteRecord, Reader};
use lb_feed::{Feed, Window};
use lb_trace::{ColumnTable, TraceError, next, reader_of, table_of};
use std::alloc::AllocError;
use std::thread::Threads;

impl Rounds<'_, '_> {
    ghost use Rattle.std.specs.Prelude.{◌<◌, ◌∷◌, ◌++◌, [], ℕ, List, IfErr, IfOk, OnOk};
    ghost use Rattle.csv.specs.Records.{fields_of};
    ghost use Rattle.lb_trace.specs.Readers.{Reaches};
    ghost use Rattle.lb_trace.specs.Rolls.{IsRoll};
    ghost use Rattle.lb_trace.specs.Spelling.{Record};
    ghost use Rattle.lb_trace.specs.Tables.{IsColumnTable};
    ghost use Rattle.lb_feed.specs.Windows.{IsWindow, left};
    ghost use Rattle.lb_report.specs.JudgedParts.{HaltsRest, HasHaltedAt, HasRoll};
    ghost use Rattle.lb_report.specs.JudgedParts.{IsHalt, IsJudgedFrom, IsPartRead};
    ghost use Rattle.lb_report.specs.JudgedParts.{IsRestRefused, IsState, IsTextJudged};
    ghost use Rattle.lb_report.specs.JudgedParts.{IsTextRefused, JudgesRest};
    ghost use Rattle.lb_report.specs.QuotedTexts.{IsWholeJudged, IsWholeRefused};

    /// Judges all traces of a feed.
    pub(crate) fn judge<R: Threads + Sync, F: Feed>(
        &self,
        rt: &R,
        feed: &mut F,
        window: &mut Window,
    ) -> Result<Judged, Halt>
        requires window { IsWindow window.old }
        requires failures { F.failures feed.old < u64.MAX }
        ensures window { OnOk result (IsWindow window.new) }
        ensures ok { IfOk result (λ judged.
            IsTextJudged self.now.runner.program.now.program.now self.now.signature.now
            window.old window.new
            (left (F.coming feed.old) (F.given feed.old) (F.failures feed.old))
            (left (F.coming feed.new) (F.given feed.new) (F.failures feed.new)) judged) }
        ensures err { IfErr result (λ halt. IsTextRefused self.now.signature.now
            window.old window.new
            (left (F.coming feed.old) (F.given feed.old) (F.failures feed.old))
            (left (F.coming feed.new) (F.given feed.new) (F.failures feed.new)) halt) }
    {
        match self.read_header(feed, window) {
            Ok(table) => {
                let state = self.begin()?;
                self.judge_rest(rt, feed, window, &table, state)
            }
            Err(Halt::Quoted) => self.judge_quoted_text(rt, feed, window),
            Err(halt) => Err(halt),
        }
    }

    /// Judges the rest of a feed.
    pub(crate) fn judge_rest<R: Threads + Sync, F: Feed>(
        &self,
        rt: &R,
        feed: &mut F,
        window: &mut Window,
        table: &ColumnTable,
        begun: State,
    ) -> Result<Judged, Halt>
        requires window { IsWindow window.old }
        requires failures { F.failures feed.old < u64.MAX }
        requires table { IsColumnTable self.now.signature.now table.now }
        requires state { IsState self.now.signature.now begun }
        ensures window { OnOk result (IsWindow window.new) }
        ensures ok { IfOk result
            (JudgesRest self.now.runner.program.now.program.now self.now.signature.now table.now
            window.old window.new
            (left (F.coming feed.old) (F.given feed.old) (F.failures feed.old))
            (left (F.coming feed.new) (F.given feed.new) (F.failures feed.new)) begun) }
        ensures err { IfErr result (λ halt. (rows : List Record)
            → IsPartRead self.now.runner.program.now.program.now self.now.signature.now table.now
            rows begun
            → IsRestRefused self.now.signature.now table.now rows window.old window.new
            (left (F.coming feed.old) (F.given feed.old) (F.failures feed.old))
            (left (F.coming feed.new) (F.given feed.new) (F.failures feed.new)) halt) }
    {
        match self.judge_further(rt, feed, window, table, begun) {
            Ok(judged) => Ok(judged),
            Err(halt) => Err(self.refusal(table, halt)),
        }
    }

    /// `judge_rest`, but the halt is returned as it is: other records may stand before the rest.
    fn judge_further<R: Threads + Sync, F: Feed>(
        &self,
        rt: &R,
        feed: &mut F,
        window: &mut Window,
        table: &ColumnTable,
        begun: State,
    ) -> Result<Judged, Halt>
        requires window { IsWindow window.old }
        requires failures { F.failures feed.old < u64.MAX }
        requires table { IsColumnTable self.now.signature.now table.now }
        requires state { IsState self.now.signature.now begun }
        ensures window { OnOk result (IsWindow window.new) }
        ensures ok { IfOk result
            (JudgesRest self.now.runner.program.now.program.now self.now.signature.now table.now
            window.old window.new
            (left (F.coming feed.old) (F.given feed.old) (F.failures feed.old))
            (left (F.coming feed.new) (F.given feed.new) (F.failures feed.new)) begun) }
        ensures err { IfErr result
            (HaltsRest self.now.runner.program.now.program.now self.now.signature.now table.now
            window.old window.new
            (left (F.coming feed.old) (F.given feed.old) (F.failures feed.old))
            (left (F.coming feed.new) (F.given feed.new) (F.failures feed.new)) begun) }
        ensures kept { IfErr result HasRoll }
    {
        match self.judge_pieces(rt, feed, window, table, begun) {
            Ok(judged) => Ok(judged),
            Err(Reading::Halted(halt)) => Err(halt),
            Err(Reading::Quoted(state)) => self.judge_quoted(rt, feed, window, table, state),
        }
    }

    /// Judges a text with quotes from its begin.
    pub(crate) fn judge_quoted_text<R: Threads + Sync, F: Feed>(
        &self,
        rt: &R,
        feed: &mut F,
        window: &mut Window,
    ) -> Result<Judged, Halt>
        requires window { IsWindow window.old }
        requires failures { F.failures feed.old < u64.MAX }
        ensures window { OnOk result (IsWindow window.new) }
        ensures ok { IfOk result (λ judged.
            IsTextJudged self.now.runner.program.now.program.now self.now.signature.now
            window.old window.new
            (left (F.coming feed.old) (F.given feed.old) (F.failures feed.old))
            (left (F.coming feed.new) (F.given feed.new) (F.failures feed.new)) judged) }
        ensures err { IfErr result (λ halt. IsTextRefused self.now.signature.now
            window.old window.new
            (left (F.coming feed.old) (F.given feed.old) (F.failures feed.old))
            (left (F.coming feed.new) (F.given feed.new) (F.failures feed.new)) halt) }
    {
        window.fill_all(feed)?;
        self.judge_whole(rt, window.text())
    }

    /// Judges a text, which may have quotes.
    fn judge_whole<R: Threads + Sync>(&self, rt: &R, text: &[u8]) -> Result<Judged, Halt>
        ensures ok { IfOk result
            (IsWholeJudged self.now.runner.program.now.program.now self.now.signature.now
            text.now) }
        ensures err { IfErr result (IsWholeRefused self.now.signature.now text.now) }
    {
        let mut entry = ByteRecord::new(self.alloc);
        let mut reader = reader_of(self.alloc, text);
        if !next(&mut reader, &mut entry)? {
            return Err(Halt::Refused(TraceError::Header));
        }
        let Some(table) = table_of(self.alloc, self.signature, entry)? else {
            return Err(Halt::Refused(TraceError::Header));
        };
        let state = self.begin()?;
        match self.judge_records(rt, &mut reader, &table, state) {
            Ok(judged) => Ok(judged),
            Err(halt) => Err(self.refusal(&table, halt)),
        }
    }

    /// Judges the rest of a text, which has quotes.
    fn judge_quoted<R: Threads + Sync, F: Feed>(
        &self,
        rt: &R,
        feed: &mut F,
        window: &mut Window,
        table: &ColumnTable,
        state: State,
    ) -> Result<Judged, Halt>
        requires window { IsWindow window.old }
        requires failures { F.failures feed.old < u64.MAX }
        requires table { IsColumnTable self.now.signature.now table.now }
        requires state { IsState self.now.signature.now state }
        ensures window { OnOk result (IsWindow window.new) }
        ensures ok { IfOk result
            (JudgesRest self.now.runner.program.now.program.now self.now.signature.now table.now
            window.old window.new
            (left (F.coming feed.old) (F.given feed.old) (F.failures feed.old))
            (left (F.coming feed.new) (F.given feed.new) (F.failures feed.new)) state) }
        ensures err { IfErr result
            (HaltsRest self.now.runner.program.now.program.now self.now.signature.now table.now
            window.old window.new
            (left (F.coming feed.old) (F.given feed.old) (F.failures feed.old))
            (left (F.coming feed.new) (F.given feed.new) (F.failures feed.new)) state) }
        ensures kept { IfErr result HasRoll }
    {
        window.fill_all(feed)?;
        self.judge_behind(rt, window.text(), table, state)
    }

    /// Judges a text behind what `state` has read; the text may have quotes.
    fn judge_behind<R: Threads + Sync>(
        &self,
        rt: &R,
        text: &[u8],
        table: &ColumnTable,
        state: State,
    ) -> Result<Judged, Halt>
        requires table { IsColumnTable self.now.signature.now table.now }
        requires state { IsState self.now.signature.now state }
        ensures ok { IfOk result (λ judged. (rows : List Record)
            → IsPartRead self.now.runner.program.now.program.now self.now.signature.now table.now
            rows state
            → IsJudgedFrom self.now.runner.program.now.program.now self.now.signature.now table.now
            (10 ∷ text.now) [] rows judged) }
        ensures err { IfErr result (λ halt. (rows : List Record)
            → IsPartRead self.now.runner.program.now.program.now self.now.signature.now table.now
            rows state
            → HasHaltedAt self.now.signature.now table.now (10 ∷ text.now) [] rows halt) }
        ensures kept { IfErr result HasRoll }
    {
        // Behind a line end a byte order mark stays in the text: only a whole text drops it.
        let mut line = b"\n".to_vec(self.alloc)?;
        line.extend_from_slice(text)?;
        let mut reader = reader_of(self.alloc, line.as_slice());
        self.judge_records(rt, &mut reader, table, state)
    }

    /// Judges the records of a reader.
    fn judge_records<R: Threads + Sync>(
        &self,
        rt: &R,
        reader: &mut Reader<&[u8]>,
        table: &ColumnTable,
        begun: State,
    ) -> Result<Judged, Halt>
        requires table { IsColumnTable self.now.signature.now table.now }
        requires state { IsState self.now.signature.now begun }
        ensures ok { IfOk result (λ judged. (text : List ℕ) → (given rows : List Record)
            → Reaches text given reader.old
            → IsPartRead self.now.runner.program.now.program.now self.now.signature.now table.now
            rows begun
            → IsJudgedFrom self.now.runner.program.now.program.now self.now.signature.now table.now
            text given rows judged) }
        ensures err { IfErr result (λ halt. (text : List ℕ) → (given rows : List Record)
            → Reaches text given reader.old
            → IsPartRead self.now.runner.program.now.program.now self.now.signature.now table.now
            rows begun
            → HasHaltedAt self.now.signature.now table.now text given rows halt) }
        ensures kept { IfErr result HasRoll }
    {
        let mut state = begun;
        let mut entry = ByteRecord::new(self.alloc);
        'records: for _ in 0..u64::MAX {
            if !next(reader, &mut entry)? {
                return self.last_round(rt, state);
            }
            if !state.round.goes_on(&entry) {
                state = self.begin_trace(rt, table, &entry, state)?;
                continue;
            }
            match state.round.add_record(self.alloc, table, &entry) {
                Ok(()) => {}
                Err(cause) => return Err(self.refused_record(table, &entry, state, cause)),
            }
        }
        // No text has that many records.
        Err(Halt::from(AllocError))
    }

    /// Adds a record that begins a trace to the round, or to a new one where that one is full.
    fn begin_trace<R: Threads + Sync>(
        &self,
        rt: &R,
        table: &ColumnTable,
        entry: &ByteRecord,
        state: State,
    ) -> Result<State, Halt>
        requires table { IsColumnTable self.now.signature.now table.now }
        requires state { IsState self.now.signature.now state }
        ensures state { IfOk result (IsState self.now.signature.now) }
        ensures ok { IfOk result (λ next. (rows : List Record)
            → IsPartRead self.now.runner.program.now.program.now self.now.signature.now table.now
            rows state
            → IsPartRead self.now.runner.program.now.program.now self.now.signature.now table.now
            (rows ++ fields_of entry.now ∷ []) next) }
        ensures err { IfErr result (λ halt. (rows : List Record)
            → IsPartRead self.now.runner.program.now.program.now self.now.signature.now table.now
            rows state
            → IsHalt self.now.signature.now table.now
            (rows ++ fields_of entry.now ∷ []) halt) }
        ensures kept { IfErr result HasRoll }
    {
        let mut state = self.with_room(rt, state)?;
        match state.round.add_record(self.alloc, table, entry) {
            Ok(()) => Ok(state),
            Err(cause) => Err(self.refused_record(table, entry, state, cause)),
        }
    }

    /// The halt at a record that the round has refused with `cause`.
    fn refused_record(
        &self,
        table: &ColumnTable,
        entry: &ByteRecord,
        state: State,
        cause: TraceError,
    ) -> Halt
        requires table { IsColumnTable self.now.signature.now table.now }
        requires roll { IsRoll state.judged.roll }
        ensures halt { (rows : List Record)
            → IsPartRead self.now.runner.program.now.program.now self.now.signature.now table.now
            rows state
            → IsHalt self.now.signature.now table.now
            (rows ++ fields_of entry.now ∷ []) result }
        ensures kept { HasRoll result }
    {
        if cause.number() == 0 {
            return Halt::Refused(cause);
        }
        let State { judged, round, .. } = state;
        let Judged { roll, .. } = judged;
        match self.named(roll, round.set()) {
            Ok(roll) => Halt::Early(roll.refusal_of(self.alloc, table, entry)),
            Err(halt) => halt,
        }
    }
}
