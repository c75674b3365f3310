//! Judging a file with several workers: each has a section of it, which it reads and runs by itself.
//!
//! ```text
//! file      trace,x | a,1 | a,5 | b,0 | c,7 | c,7 | d,2
//! section             0 ............... | 1 ...........
//! ```
//!
//! A section begins and ends with whole traces. Names and verdicts of all sections are put one
//! after the other in the order of the file.

ghost use Rattle.std.specs.Prelude.{◌≡◌, ◌<◌, ◌≤◌, [], ℕ, List, IfErr, IfOk, IfSome};
ghost use Rattle.std.specs.Prelude.{◌==◌, ◌+◌, get_or, length};
ghost use Rattle.std.specs.List.{All, AllZip, range_with_len};
ghost use Rattle.lb_flat.specs.declared.program.FlatProgram.{FlatProgram};
ghost use Rattle.lb_static.specs.Signature.{Elements};
ghost use Rattle.lb_trace.specs.Rolls.{IsRoll};
ghost use Rattle.lb_trace.specs.Spelling.{Record};
ghost use Rattle.lb_trace.specs.Tables.{IsColumnTable};
ghost use Rattle.lb_feed.specs.Ranges.{AreRangeEnds};
ghost use Rattle.lb_feed.specs.SectionEnds.{AreEnds, start_of};
ghost use Rattle.lb_report.specs.JudgedParts.{IsJudgedPart};
ghost use Rattle.lb_report.specs.Ranges.{AreRangesJudged, IsRangeTold, IsRangesHalt};
ghost use Rattle.lb_report.specs.Sections.{AreAppended, IsRefusedWithin, IsSection, KeepsRoll};
ghost use Rattle.lb_report.specs.Sections.{is_alone};

use crate::rounds::{Halt, Judged, Rounds};
use lb_feed::{Feed, PlacedFile, RangeFeed, Window, start_at};
use lb_trace::{ColumnTable, TraceError, whole_traces};
use rayon::prelude::*;
use std::alloc::{AllocError, Global};
use std::thread::Threads;

/// How many bytes are searched for the end of a trace, at first and at most.
const PROBE: usize = 1 << 16;

const MOST_PROBE: usize = 1 << 22;

/// The places where up to `count` sections of a file end, each behind a whole trace. The first
/// section begins at `from`, and the last one ends at `size`, the end of the file.
pub(crate) fn ends_in_file<F: PlacedFile>(
    alloc: Global,
    file: &F,
    from: u64,
    size: u64,
    count: u64,
) -> Result<Vec<u64>, AllocError>
    requires within { from ≤ size }
    requires size { size ≤ 1073741824 }
    ensures { IfOk result (λ ends. AreEnds from size ends.items) }
{
    let mut ends = Vec::new(alloc);
    let mut last = from;
    'sections: for k in 1..count.max(1) {
        let place = from + (size - from) / count * k;
        let end = end_behind(alloc, file, last, place, size);
        if end > last {
            ends.push(end)?;
            last = end;
        }
    }
    ends.push(size)?;
    Ok(ends)
}

// The end of a trace behind `place` of a file. `last` where `place` is not behind it, or where no
// end is found.
fn end_behind<F: PlacedFile>(alloc: Global, file: &F, last: u64, place: u64, size: u64) -> u64
    requires last { last ≤ size }
    requires place { place ≤ size }
    requires size { size ≤ 1073741824 }
    ensures from { last ≤ result }
    ensures within { result ≤ size }
{
    if place <= last {
        return last;
    }
    match end_in_file(alloc, file, place, size) {
        Some(end) => end.max(last),
        None => last,
    }
}

// The end of a trace behind `place` of a file. None where none is found.
fn end_in_file<F: PlacedFile>(alloc: Global, file: &F, place: u64, size: u64) -> Option<u64>
    requires within { place ≤ size }
    requires size { size ≤ 1073741824 }
    ensures { IfSome result (λ end. (place ≤ end) × (end ≤ size)) }
{
    let mut probe = PROBE;
    'probes: while probe <= MOST_PROBE {
        let mut bytes = Vec::new(alloc);
        let Ok(()) = bytes.resize(probe, 0) else {
            return None;
        };
        let mut window = RangeFeed::new(file, place, size);
        let Ok(found) = window.read(bytes.as_mut_slice()) else {
            return None;
        };
        if let Some(end) = trace_end(&bytes[..found]) {
            return Some((place + end as u64).min(size));
        }
        if found < probe {
            return None;
        }
        probe *= 4;
    }
    None
}

/// A place of a text where a trace ends; the text may begin within a line.
fn trace_end(text: &[u8]) -> Option<usize>
    ensures { IfSome result (λ end. (0 < end) × (end ≤ length text.now)) }
{
    let line = text.iter().position(|b| *b == b'\n' || *b == b'\r')? + 1;
    let count = whole_traces(&text[line..]);
    if count == 0 { None } else { Some(line + count) }
}

/// The first sections as judged, how many they are, and why the others are not judged.
#[derive(Drop)]
struct Appended {
    all: Judged,
    count: usize,
    halt: Option<Halt>,
}

/// Appends the judged sections to `before`, in order. A section that was not judged by itself is
/// left out, with all behind it.
fn append_all(
    alloc: Global,
    judged: Vec<Result<Judged, Halt>>,
    table: &ColumnTable,
    before: Judged,
) -> Result<Appended, TraceError>
    requires before { IsRoll before.roll }
    requires rolls { All KeepsRoll judged.items }
    ensures roll { IfOk result (λ a. IsRoll a.all.roll) }
    ensures ok { IfOk result (λ a. (p : FlatProgram) → (elements : Elements)
        → (rows : List Record) → (texts : List (List ℕ)) → IsColumnTable elements table.now
        → IsJudgedPart p elements table.now rows before
        → AllZip (IsSection p elements table.now) texts judged.items
        → AreAppended p elements table.now rows texts a) }
    ensures err { IfErr result (λ e. (p : FlatProgram) → (elements : Elements)
        → (rows : List Record) → (texts : List (List ℕ)) → IsColumnTable elements table.now
        → IsJudgedPart p elements table.now rows before
        → AllZip (IsSection p elements table.now) texts judged.items
        → IsRefusedWithin elements table.now rows texts e) }
{
    let mut all = before;
    let mut count = 0;
    'sections: for one in judged {
        match one {
            Ok(some) => all = all.append(alloc, &some)?,
            Err(Halt::Stopped { judged, record }) => {
                let Judged { roll, .. } = all;
                let roll = roll.append_roll(alloc, &judged.roll)?;
                return Err(roll.refusal_of_line(alloc, table, record.as_slice()));
            }
            Err(halt) => {
                return Ok(Appended {
                    all,
                    count,
                    halt: Some(halt),
                });
            }
        }
        count += 1;
    }
    Ok(Appended {
        all,
        count,
        halt: None,
    })
}

/// Whether the halt of a section says that it cannot be judged by itself.
fn goes_on_alone(halt: &Halt) -> bool
    ensures { result ≡ is_alone halt.now }
{
    matches!(halt, Halt::Quoted | Halt::Early(_))
}

/// Judges the section of a file from `start` to `past` by itself. `Quoted` says that it is to be
/// judged again with what follows it: it has a quote, could not be read or is refused, or it is not
/// the last one and does not end with a line at `past`, as in a file that has changed.
fn judge_range<R: Threads + Sync, F: PlacedFile>(
    rt: &R,
    rounds: &Rounds<'_, '_>,
    table: &ColumnTable,
    file: &F,
    start: u64,
    past: u64,
    is_last: bool,
) -> Result<Judged, Halt>
    requires table { IsColumnTable rounds.now.signature.now table.now }
    requires ordered { start ≤ past }
    requires short { past ≤ 1073741824 }
    ensures { IsRangeTold rounds.now.runner.program.now.program.now rounds.now.signature.now
        table.now (F.bytes file.now) start past is_last result }
{
    let mut window = Window::new(rounds.alloc, rounds.window)?;
    let mut feed = RangeFeed::new(file, start, past);
    let judged = rounds.judge_section(rt, &mut feed, &mut window, table)?;
    let at = feed.at();
    if is_last || (window.is_ended() && at == past) {
        Ok(judged)
    } else {
        Err(Halt::Quoted)
    }
}

/// The sections of a file behind its header, each judged by itself.
fn told_ranges<R: Threads + Sync, F: PlacedFile + Sync>(
    rt: &R,
    rounds: &Rounds<'_, '_>,
    table: &ColumnTable,
    file: &F,
    from: u64,
    ends: &[u64],
) -> Result<Vec<Result<Judged, Halt>>, AllocError>
    requires table { IsColumnTable rounds.now.signature.now table.now }
    requires ends { (size : ℕ) × AreRangeEnds from size ends.now }
    ensures { IfOk result (λ judged. AllZip (λ i one.
        IsRangeTold rounds.now.runner.program.now.program.now rounds.now.signature.now table.now
        (F.bytes file.now) (start_of from ends.now i) (get_or ends.now i 0)
        (i + 1 == length ends.now) one)
        (range_with_len 0 (length ends.now)) judged.items) }
{
    (0..ends.len())
        .into_par_iter()
        .with_min_len(1)
        .map(
            |i: usize| -> Result<Judged, Halt>
                requires { IsColumnTable rounds.now.signature.now table.now
                    × ((size : ℕ) × AreRangeEnds from size ends.now) × (i < length ends.now) }
                ensures { IsRangeTold rounds.entry.now.runner.program.now.program.now
                    rounds.entry.now.signature.now table.entry.now (F.bytes file.entry.now)
                    (start_of from ends.entry.now i) (get_or ends.entry.now i 0)
                    (i + 1 == length ends.entry.now) result }
            {
                let start = start_at(from, ends, i);
                judge_range(rt, rounds, table, file, start, ends[i], i + 1 == ends.len())
            },
        )
        .collect::<Vec<_>>(rt, rounds.alloc)
}

/// Judges the bytes of a file from `start` to `size` by one worker, behind `judged`.
fn judge_onward<R: Threads + Sync, F: PlacedFile>(
    rt: &R,
    rounds: &Rounds<'_, '_>,
    table: &ColumnTable,
    file: &F,
    start: u64,
    size: u64,
    judged: Judged,
) -> Result<Judged, Halt>
    requires table { IsColumnTable rounds.now.signature.now table.now }
    requires ordered { start ≤ size }
    requires short { size ≤ 1073741824 }
    requires judged { IsRoll judged.roll }
    ensures ok { IfOk result (λ all. (rows : List Record)
        → IsJudgedPart rounds.now.runner.program.now.program.now rounds.now.signature.now table.now
        rows judged
        → AreRangesJudged rounds.now.runner.program.now.program.now rounds.now.signature.now
        table.now rows (F.bytes file.now) start size all) }
    ensures err { IfErr result (λ halt. (rows : List Record)
        → IsJudgedPart rounds.now.runner.program.now.program.now rounds.now.signature.now table.now
        rows judged
        → IsRangesHalt rounds.now.signature.now table.now rows (F.bytes file.now) F.may_fail start
        size halt) }
{
    let mut feed = RangeFeed::new(file, start, size);
    let mut window = Window::new(rounds.alloc, rounds.window)?;
    rounds.judge_rest(
        rt,
        &mut feed,
        &mut window,
        table,
        rounds.begin_with(judged)?,
    )
}

/// Judges the sections of a file behind its header, which are from `from` to `size`.
pub(crate) fn judge_ranges<R: Threads + Sync, F: PlacedFile + Sync>(
    rt: &R,
    rounds: &Rounds<'_, '_>,
    table: &ColumnTable,
    file: &F,
    from: u64,
    size: u64,
    ends: &[u64],
) -> Result<Judged, Halt>
    requires table { IsColumnTable rounds.now.signature.now table.now }
    requires ends { AreRangeEnds from size ends.now }
    ensures ok { IfOk result (AreRangesJudged rounds.now.runner.program.now.program.now
        rounds.now.signature.now table.now [] (F.bytes file.now) from size) }
    ensures err { IfErr result (IsRangesHalt rounds.now.signature.now table.now []
        (F.bytes file.now) F.may_fail from size) }
{
    let alloc = rounds.alloc;
    let told = told_ranges(rt, rounds, table, file, from, ends)?;
    let begun = Judged::new(alloc, rounds.signature)?;
    let Appended { all, count, halt } = append_all(alloc, told, table, begun)?;
    let Some(halt) = halt else {
        return Ok(all);
    };
    if !goes_on_alone(&halt) {
        return Err(halt);
    }
    let start = start_at(from, ends, count);
    judge_onward(rt, rounds, table, file, start, size, all)
}
