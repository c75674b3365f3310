//! Judging while reading: the traces of a text, round after round.
//!
//! ```text
//! feed -> window -> whole traces -> rows -> once they are many, run -> names and verdicts
//! ```
//!
//! A round ends once it has enough instants or traces; then its traces are run, and their rows are
//! dropped. The name, the length and the verdict of each trace are kept.
//!
//! ```text
//! one worker        read 1 | run 1 | read 2 | run 2 | read 3 | run 3
//! several           read 1 | read 2         | read 3         |
//!                          | run 1          | run 2          | run 3
//! ```
//!
//! Several workers run a round side by side, and meanwhile the next round is read.

ghost use Rattle.std.specs.Prelude.{◌≡◌, ◌<◌, ◌≤◌, ◌++◌, IfOk, IsOkAnd};

use lb_check::Verdict;
use lb_feed::{Feed, LoadError, Window};
use lb_pool::{NoGate, Plan, RoundRoom, SetRunner, run_workers};
use lb_static::Signature;
use lb_syntax::Kind;
use lb_trace::{
    ColumnTable, Roll, RoundReader, TraceError, begin, header_len, is_plain, strip_bom,
};
use lb_traces::TraceSet;
use std::alloc::{AllocError, Global};
use std::thread::Threads;

/// The most traces of a round, about.
const MOST_TRACES: u32 = 16_384;

/// A round of fewer bytes of rows is never enough for a worker: what its rows take in memory is
/// little beside the rest.
const LEAST_ROUND: usize = 8 << 20;

/// How a text is judged: the program, the signature of its traces, how large the rounds are and how
/// many workers run them.
#[derive(Clone, Copy)]
pub(crate) struct Rounds<'a, 'p> {
    pub(crate) alloc: Global,
    pub(crate) signature: &'a Signature,
    pub(crate) runner: SetRunner<'a, 'p>,
    /// How many instants a round has, about, and how many bytes its rows take.
    pub(crate) instants: u32,
    pub(crate) bytes: usize,
    /// The integers of a round take 16 bits each as long as at most one in this many does not fit;
    /// with 0 they take 32.
    pub(crate) one_in: usize,
    /// How many instants are enough for each instant of the longest trace.
    pub(crate) turns: usize,
    /// How many bytes of a text, or of a section, are in memory, unless a trace is longer.
    pub(crate) window: usize,
    /// How many workers run a round.
    pub(crate) workers: u32,
    pub(crate) ghost some: { (0 < workers) × (workers ≤ 64) },
}

/// The names of the traces so far, and their verdicts.
#[derive(Drop)]
pub(crate) struct Judged {
    pub(crate) roll: Roll,
    pub(crate) verdicts: Vec<Verdict>,
}

/// Why a text was not judged to its end.
#[derive(Drop)]
pub(crate) enum Halt {
    /// It could not be read.
    Load(LoadError),
    /// It is refused, or memory ran out.
    Refused(TraceError),
    /// It is refused if no other records stand before it.
    Early(TraceError),
    /// A record of it is refused; `judged` names the traces before it.
    Stopped { judged: Judged, record: Vec<u8> },
    /// It has a quote.
    Quoted,
}

impl From<AllocError> for Halt {
    ghost use Rattle.lb_report.specs.declared.rounds.Halt.TheVariants.{Refused};
    ghost use Rattle.lb_trace.specs.declared.error.TraceError.TheVariants.{Memory};

    ghost from_gives = { λ cause e. e ≡ Refused (Memory cause) };

    fn from(cause: AllocError) -> Halt {
        Halt::Refused(TraceError::Memory(cause))
    }
}

impl From<TraceError> for Halt {
    ghost use Rattle.lb_report.specs.declared.rounds.Halt.TheVariants.{Refused};

    ghost from_gives = { λ cause e. e ≡ Refused cause };

    fn from(cause: TraceError) -> Halt {
        Halt::Refused(cause)
    }
}

impl From<LoadError> for Halt {
    ghost use Rattle.lb_report.specs.declared.rounds.Halt.TheVariants.{Load};

    ghost from_gives = { λ cause e. e ≡ Load cause };

    fn from(cause: LoadError) -> Halt {
        Halt::Load(cause)
    }
}

/// The state of a worker from round to round.
#[derive(Drop)]
pub(crate) struct State {
    pub(crate) judged: Judged,
    /// What one worker needs to run traces.
    pub(crate) room: Option<RoundRoom>,
    /// The traces that have been read and not run yet.
    pub(crate) round: RoundReader,
    /// A round that was run, for more traces.
    pub(crate) spare: Option<RoundReader>,
}

// How many bytes an integer of a row takes; where rows are packed, if it fits 16 bits.
fn integer_bytes(packs: bool) -> usize
    ensures { result ≤ 4 }
{
    if packs { 2 } else { 4 }
}

/// How many bytes the row of an instant takes; where rows are packed, if its integers fit 16 bits.
pub(crate) fn row_bytes(signature: &Signature, packs: bool) -> usize {
    let mut integers = 0usize;
    for i in 0..signature.len() {
        if let Kind::Int = signature.kind(i) {
            integers += 1;
        }
    }
    let booleans = signature.len() as usize - integers;
    integer_bytes(packs) * integers + 8 * booleans.div_ceil(64)
}

// The number of instants of the longest trace of a set.
fn longest(set: &TraceSet) -> u32 {
    let mut most = 0;
    for k in 0..set.len() {
        most = most.max(set.length(k));
    }
    most
}

/// The verdicts of some traces, and behind them those that others were found to have.
pub(crate) fn joined(
    verdicts: Vec<Verdict>,
    found: Result<Vec<Verdict>, AllocError>,
) -> Result<Vec<Verdict>, AllocError>
    ensures { IfOk result (λ all.
        IsOkAnd found (λ more. all.items ≡ verdicts.items ++ more.items)) }
{
    let mut all = verdicts;
    let more = found?;
    all.extend_from_slice(more.as_slice())?;
    Ok(all)
}

impl Judged {
    ghost use Rattle.std.specs.Prelude.{[], IfErr};
    ghost use Rattle.lb_static.specs.Signature.{Elements};
    ghost use Rattle.lb_traces.specs.Traces.{Traces};
    ghost use Rattle.lb_flat.specs.declared.program.FlatProgram.{FlatProgram};
    ghost use Rattle.lb_trace.specs.Rolls.{IsRoll, RefusesRoll};
    ghost use Rattle.lb_report.specs.JudgedParts.{AreJudgedTraces};

    /// The names and verdicts of no traces.
    pub(crate) fn new(alloc: Global, signature: &Signature) -> Result<Judged, AllocError>
        ensures { IfOk result (λ judged. (p : FlatProgram)
            → AreJudgedTraces p signature.now [] judged) }
    {
        Ok(Judged {
            roll: Roll::new(alloc, signature)?,
            verdicts: Vec::new(alloc),
        })
    }

    /// Appends the names and verdicts of `more`, which was judged of the text behind.
    pub(crate) fn append(self, alloc: Global, more: &Judged) -> Result<Judged, TraceError>
        requires names { IsRoll self.roll }
        requires more { IsRoll more.now.roll }
        ensures roll { IfOk result (λ judged. IsRoll judged.roll) }
        ensures ok { IfOk result (λ judged. (p : FlatProgram) → (elements : Elements)
            → (some others : Traces) → AreJudgedTraces p elements some self
            → AreJudgedTraces p elements others more.now
            → AreJudgedTraces p elements (some ++ others) judged) }
        ensures err { IfErr result (RefusesRoll self.roll more.now.roll) }
    {
        let Judged { roll, mut verdicts } = self;
        let roll = roll.append_roll(alloc, &more.roll)?;
        let Ok(()) = verdicts.extend_from_slice(more.verdicts.as_slice()) else {
            return Err(TraceError::Memory(AllocError));
        };
        Ok(Judged { roll, verdicts })
    }
}

impl Rounds<'_, '_> {
    ghost use Rattle.std.specs.Prelude.{◌∷◌, [], List, IfErr, OnOk};
    ghost use Rattle.lb_trace.specs.Lines.{record_of};
    ghost use Rattle.lb_trace.specs.Rolls.{IsRoll};
    ghost use Rattle.lb_pool.specs.Correct.{AreVerdicts};
    ghost use Rattle.lb_trace.specs.RoundReaders.{IsRound};
    ghost use Rattle.lb_trace.specs.Spelling.{Record};
    ghost use Rattle.lb_trace.specs.Tables.{IsColumnTable};
    ghost use Rattle.lb_trace.specs.declared.table.ColumnTable.{ColumnTable as Table};
    ghost use Rattle.lb_feed.specs.Windows.{IsWindow, left};
    ghost use Rattle.lb_feed.specs.declared.feed.LoadError.{LoadError};
    ghost use Rattle.lb_report.specs.JudgedParts.{HaltsPart, HasRoll, IsHalt, IsHeadHalted};
    ghost use Rattle.lb_report.specs.JudgedParts.{IsHeadRead, IsJudgedPart, IsLastHalt, IsNamed};
    ghost use Rattle.lb_report.specs.JudgedParts.{IsPartRead, IsPiecesJudged, IsReading, IsReadOn};
    ghost use Rattle.lb_report.specs.JudgedParts.{IsState, JudgesPart, KeepsPart, RefusesNames};
    ghost use Rattle.lb_report.specs.declared.rounds.Halt.TheVariants.{Load};
    ghost use Rattle.lb_report.specs.Sections.{IsSetAside};

    /// An empty round with room for its cells and a quarter more.
    pub(crate) fn new_round(&self) -> Result<RoundReader, AllocError>
        ensures { IfOk result (IsRound self.now.signature.now []) }
    {
        let cells = (self.instants as usize).saturating_mul(self.signature.len() as usize);
        let cells = cells.saturating_add(cells / 4);
        RoundReader::new(self.alloc, self.signature, cells, self.one_in)
    }

    /// A state of `judged` and an empty round.
    pub(crate) fn begin_with(&self, judged: Judged) -> Result<State, AllocError>
        requires { IsRoll judged.roll }
        ensures state { IfOk result (IsState self.now.signature.now) }
        ensures part { IfOk result (λ state. (table : Table) → (rows : List Record)
            → IsJudgedPart self.now.runner.program.now.program.now self.now.signature.now table
            rows judged
            → IsPartRead self.now.runner.program.now.program.now self.now.signature.now table
            rows state) }
    {
        Ok(State {
            judged,
            room: None,
            round: self.new_round()?,
            spare: None,
        })
    }

    /// A state in which no record has been read.
    pub(crate) fn begin(&self) -> Result<State, AllocError>
        ensures state { IfOk result (IsState self.now.signature.now) }
        ensures part { IfOk result (λ state. (table : Table) →
            IsPartRead self.now.runner.program.now.program.now self.now.signature.now table
            [] state) }
    {
        self.begin_with(Judged::new(self.alloc, self.signature)?)
    }

    /// How many bytes of rows a round has, about, beside a window: fewer, where a long trace has
    /// made the window longer.
    pub(crate) fn bytes_beside(&self, window: &Window) -> usize {
        self.bytes
            .saturating_sub(window.size().saturating_sub(self.window))
    }

    /// Whether a round has enough traces to be run: it has `bytes` bytes of rows, or many instants
    /// or traces, or enough instants for its longest trace.
    pub(crate) fn is_full(&self, round: &RoundReader, bytes: usize) -> bool {
        let set = round.set();
        set.instants() >= self.instants
            || set.bytes() >= bytes
            || set.len() >= MOST_TRACES
            || self.is_enough(set)
    }

    // Whether a round of one worker has enough instants for its longest trace. With `turns` 100 and
    // a longest trace of 900 instants that is 90,000: lanes are idle only near the end of the round.
    // More rows would take more memory, and the first touch of each page takes time.
    fn is_enough(&self, set: &TraceSet) -> bool {
        if self.workers > 1 || set.bytes() < LEAST_ROUND {
            return false;
        }
        let enough = (longest(set) as usize).saturating_mul(self.turns);
        set.instants() as usize >= enough
    }

    /// The verdicts of the traces of a round, in their order, by several workers.
    pub(crate) fn run_side_by_side<R: Threads + Sync>(
        &self,
        rt: &R,
        set: &TraceSet,
    ) -> Result<Vec<Verdict>, AllocError>
        ensures { IfOk result (λ verdicts.
            AreVerdicts self.now.runner.program.now.program.now set.now verdicts.items) }
    {
        let (alloc, workers) = (self.alloc, self.workers);
        let plan = Plan::by_length(alloc, set, self.runner.lanes)?;
        run_workers(rt, alloc, self.runner.program, set, &plan, workers, &NoGate)
    }

    /// The verdicts of the traces of a round, in their order.
    fn run<R: Threads + Sync>(
        &self,
        rt: &R,
        set: &TraceSet,
        room: &mut Option<RoundRoom>,
    ) -> Result<Vec<Verdict>, AllocError>
        ensures { IfOk result (λ verdicts.
            AreVerdicts self.now.runner.program.now.program.now set.now verdicts.items) }
    {
        if self.workers == 1 {
            self.runner.run(self.alloc, set, room)
        } else {
            self.run_side_by_side(rt, set)
        }
    }

    /// The names of the traces so far, and behind them those of a set.
    pub(crate) fn named(&self, roll: Roll, set: &TraceSet) -> Result<Roll, Halt>
        requires { IsRoll roll }
        ensures roll { IfOk result IsRoll }
        ensures ok { IfOk result (IsNamed roll set.now) }
        ensures err { IfErr result (RefusesNames roll set.now) }
    {
        match roll.append(self.alloc, set) {
            Ok(roll) => Ok(roll),
            Err(cause) => Err(Halt::Early(cause)),
        }
    }

    /// Runs the traces of the round, and appends their names and verdicts to the others. The rows
    /// of the round are left in it.
    fn settle<R: Threads + Sync>(&self, rt: &R, state: State) -> Result<State, Halt>
        requires { IsState self.now.signature.now state }
        ensures roll { IfOk result (λ next. IsRoll next.judged.roll) }
        ensures ok { IfOk result (λ next.
            JudgesPart self.now.runner.program.now.program.now self.now.signature.now state
            next.judged) }
        ensures round { IfOk result (λ next.
            next.round.recorder.rows.signature ≡ self.now.signature.now) }
        ensures spare { IfOk result (λ next. next.spare ≡ state.spare) }
        ensures err { IfErr result
            (HaltsPart self.now.runner.program.now.program.now self.now.signature.now state) }
        ensures kept { IfErr result HasRoll }
    {
        let State {
            judged,
            mut room,
            round,
            spare,
        } = state;
        let Judged { roll, verdicts } = judged;
        let set = round.set();
        let roll = self.named(roll, set)?;
        let found = self.run(rt, set, &mut room);
        let verdicts = joined(verdicts, found)?;
        Ok(State {
            judged: Judged { roll, verdicts },
            room,
            round,
            spare,
        })
    }

    /// Runs the traces of the round by `settle`, and begins another round.
    pub(crate) fn next_round<R: Threads + Sync>(&self, rt: &R, state: State) -> Result<State, Halt>
        requires { IsState self.now.signature.now state }
        ensures state { IfOk result (IsState self.now.signature.now) }
        ensures ok { IfOk result
            (KeepsPart self.now.runner.program.now.program.now self.now.signature.now state) }
        ensures err { IfErr result
            (HaltsPart self.now.runner.program.now.program.now self.now.signature.now state) }
        ensures kept { IfErr result HasRoll }
    {
        let mut next = self.settle(rt, state)?;
        next.round.clear();
        Ok(next)
    }

    /// `next_round` where the round is full, and else the state as it is.
    pub(crate) fn with_room<R: Threads + Sync>(&self, rt: &R, state: State) -> Result<State, Halt>
        requires { IsState self.now.signature.now state }
        ensures state { IfOk result (IsState self.now.signature.now) }
        ensures ok { IfOk result
            (KeepsPart self.now.runner.program.now.program.now self.now.signature.now state) }
        ensures err { IfErr result
            (HaltsPart self.now.runner.program.now.program.now self.now.signature.now state) }
        ensures kept { IfErr result HasRoll }
    {
        if self.is_full(&state.round, self.bytes) {
            self.next_round(rt, state)
        } else {
            Ok(state)
        }
    }

    /// Runs the traces of the last round.
    pub(crate) fn last_round<R: Threads + Sync>(&self, rt: &R, state: State) -> Result<Judged, Halt>
        requires { IsState self.now.signature.now state }
        ensures roll { IfOk result (λ judged. IsRoll judged.roll) }
        ensures ok { IfOk result
            (JudgesPart self.now.runner.program.now.program.now self.now.signature.now state) }
        ensures err { IfErr result
            (HaltsPart self.now.runner.program.now.program.now self.now.signature.now state) }
        ensures kept { IfErr result HasRoll }
    {
        let settled = self.settle(rt, state)?;
        Ok(settled.judged)
    }

    /// The halt of a reading that stopped at a record.
    pub(crate) fn stop(&self, state: State, line: Vec<u8>) -> Halt
        requires { IsRoll state.judged.roll }
        ensures halt { (table : Table) → (rows more : List Record)
            → IsPartRead self.now.runner.program.now.program.now self.now.signature.now table
            rows state
            → IsHalt self.now.signature.now table (rows ++ record_of line.items ∷ more) result }
        ensures kept { HasRoll result }
    {
        let State { judged, round, .. } = state;
        let Judged { roll, verdicts } = judged;
        match self.named(roll, round.set()) {
            Ok(roll) => {
                let judged = Judged { roll, verdicts };
                Halt::Stopped {
                    judged,
                    record: line,
                }
            }
            Err(halt) => halt,
        }
    }

    /// The halt of a text with nothing before it: `Early` and `Stopped` become `Refused`.
    pub(crate) fn refusal(&self, table: &ColumnTable, halt: Halt) -> Halt
        requires table { IsColumnTable self.now.signature.now table.now }
        requires kept { HasRoll halt }
        ensures load { (e : LoadError) → halt ≡ Load e → result ≡ Load e }
        ensures last { (rows : List Record) → IsHalt self.now.signature.now table.now rows halt
            → IsLastHalt self.now.signature.now table.now rows result }
    {
        match halt {
            Halt::Early(cause) => Halt::Refused(cause),
            Halt::Stopped { judged, record } => {
                let Judged { roll, .. } = judged;
                let line = record.as_slice();
                Halt::Refused(roll.refusal_of_line(self.alloc, table, line))
            }
            Halt::Refused(cause) => Halt::Refused(cause),
            Halt::Load(cause) => Halt::Load(cause),
            Halt::Quoted => Halt::Quoted,
        }
    }

    /// Reads the header of a feed, and drops its bytes from the window.
    pub(crate) fn read_header<F: Feed>(
        &self,
        feed: &mut F,
        window: &mut Window,
    ) -> Result<ColumnTable, Halt>
        requires window { IsWindow window.old }
        requires failures { F.failures feed.old < u64.MAX }
        ensures window { OnOk result (IsWindow window.new) }
        ensures table { IfOk result (IsColumnTable self.now.signature.now) }
        ensures ok { IfOk result (λ table.
            IsHeadRead self.now.signature.now table window.old window.new
            (left (F.coming feed.old) (F.given feed.old) (F.failures feed.old))
            (left (F.coming feed.new) (F.given feed.new) (F.failures feed.new))) }
        ensures err { IfErr result (λ halt.
            IsHeadHalted self.now.signature.now window.old window.new
            (left (F.coming feed.old) (F.given feed.old) (F.failures feed.old))
            (left (F.coming feed.new) (F.given feed.new) (F.failures feed.new)) halt) }
    {
        let count = self.first_piece(feed, window)?;
        let piece = &window.text()[..count];
        let len = header_len(piece);
        let head = &piece[..len];
        if !is_plain(head) {
            return Err(Halt::Quoted);
        }
        let Some(begun) = begin(self.alloc, self.signature, strip_bom(head))? else {
            return Err(Halt::Refused(TraceError::Header));
        };
        let table = begun.table;
        window.let_go(len);
        Ok(table)
    }

    /// Judges the traces of a feed behind its header up to its end, or to the first piece that has
    /// a quote.
    pub(crate) fn judge_pieces<R: Threads + Sync, F: Feed>(
        &self,
        rt: &R,
        feed: &mut F,
        window: &mut Window,
        table: &ColumnTable,
        begun: State,
    ) -> Result<Judged, Reading>
        requires window { IsWindow window.old }
        requires failures { F.failures feed.old < u64.MAX }
        requires table { IsColumnTable self.now.signature.now table.now }
        requires state { IsState self.now.signature.now begun }
        ensures window { OnOk result (IsWindow window.new) }
        ensures roll { IfOk result (λ judged. IsRoll judged.roll) }
        ensures ok { IfOk result (λ judged. (rows : List Record)
            → IsPartRead self.now.runner.program.now.program.now self.now.signature.now table.now
            rows begun
            → IsPiecesJudged self.now.runner.program.now.program.now self.now.signature.now
            table.now rows window.old window.new
            (left (F.coming feed.old) (F.given feed.old) (F.failures feed.old))
            (left (F.coming feed.new) (F.given feed.new) (F.failures feed.new)) judged) }
        ensures err { IfErr result (λ reading. (rows : List Record)
            → IsPartRead self.now.runner.program.now.program.now self.now.signature.now table.now
            rows begun
            → IsReading self.now.runner.program.now.program.now self.now.signature.now table.now
            rows window.old window.new
            (left (F.coming feed.old) (F.given feed.old) (F.failures feed.old))
            (left (F.coming feed.new) (F.given feed.new) (F.failures feed.new)) reading) }
        ensures on { IfErr result (IsReadOn self.now.signature.now window.new
            (left (F.coming feed.old) (F.given feed.old) (F.failures feed.old))
            (left (F.coming feed.new) (F.given feed.new) (F.failures feed.new))) }
    {
        let mut state = self.read_on(feed, window, table, begun)?;
        'rounds: while !window.is_done() {
            state = self.turn(rt, feed, window, table, state)?;
        }
        Ok(self.last_round(rt, state)?)
    }

    /// Judges all traces of a section of a text. Where they are not judged, memory ran out, or the
    /// section is to be judged again with what follows it.
    pub(crate) fn judge_section<R: Threads + Sync, F: Feed>(
        &self,
        rt: &R,
        feed: &mut F,
        window: &mut Window,
        table: &ColumnTable,
    ) -> Result<Judged, Halt>
        requires window { IsWindow window.old }
        requires failures { F.failures feed.old < u64.MAX }
        requires table { IsColumnTable self.now.signature.now table.now }
        ensures window { OnOk result (IsWindow window.new) }
        ensures roll { IfOk result (λ judged. IsRoll judged.roll) }
        ensures ok { IfOk result (λ judged.
            IsPiecesJudged self.now.runner.program.now.program.now self.now.signature.now table.now
            [] window.old window.new
            (left (F.coming feed.old) (F.given feed.old) (F.failures feed.old))
            (left (F.coming feed.new) (F.given feed.new) (F.failures feed.new)) judged) }
        ensures err { IfErr result IsSetAside }
    {
        match self.judge_pieces(rt, feed, window, table, self.begin()?) {
            Ok(judged) => Ok(judged),
            Err(Reading::Halted(Halt::Refused(cause))) => Err(Halt::Refused(cause)),
            Err(_) => Err(Halt::Quoted),
        }
    }
}

/// Why the pieces of a text were not judged to the end.
#[derive(Drop)]
pub(crate) enum Reading {
    /// The next piece has a quote.
    Quoted(State),
    Halted(Halt),
}

impl From<AllocError> for Reading {
    ghost use Rattle.lb_report.specs.declared.rounds.Halt.TheVariants.{Refused};
    ghost use Rattle.lb_report.specs.declared.rounds.Reading.TheVariants.{Halted};
    ghost use Rattle.lb_trace.specs.declared.error.TraceError.TheVariants.{Memory};

    ghost from_gives = { λ cause e. e ≡ Halted (Refused (Memory cause)) };

    fn from(cause: AllocError) -> Reading {
        Reading::Halted(Halt::from(cause))
    }
}

impl From<Halt> for Reading {
    ghost use Rattle.lb_report.specs.declared.rounds.Reading.TheVariants.{Halted};

    ghost from_gives = { λ cause e. e ≡ Halted cause };

    fn from(halt: Halt) -> Reading {
        Reading::Halted(halt)
    }
}
