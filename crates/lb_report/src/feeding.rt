//! The bench on traces that come from a feed.

ghost use Rattle.std.specs.Prelude.{◌≡◌, ◌<◌, ◌≤◌, ◌+◌, ◌*◌, ◌/◌, IfErr, IfOk, IfSome, OnOk, length};
ghost use Rattle.lb_traces.specs.Traces.{trace_names};
ghost use Rattle.lb_output.specs.Reports.{IsReport};
ghost use Rattle.lb_feed.specs.Windows.{IsWindow, left};
ghost use Rattle.lb_report.specs.Bench.{OnlyProgram};
ghost use Rattle.lb_report.specs.FeedAnswers.{IsFeedAnswer};
ghost use Rattle.lb_report.specs.FeedJudging.{IsJudgingFault, IsLastFault, IsProgramJudged};
ghost use Rattle.lb_report.specs.FeedJudging.{fault_by, told_first, too_long};
ghost use Rattle.lb_report.specs.JudgedParts.{IsTextJudged, IsTextRefused};
ghost use Rattle.lb_report.specs.RangeAnswers.{IsFileAnswer};
ghost use Rattle.lb_report.specs.Ranges.{IsFileJudged};

use crate::answer::{AcceptedProgram, accept};
use crate::rounds::{Halt, Judged, Rounds, row_bytes};
use crate::sections::{ends_in_file, judge_ranges};
use lb_feed::{Feed, LoadError, PlacedFile, TextFeed, Window, bytes_from};
use lb_pool::{LaneProgram, Report, SetRunner, compile};
use lb_refusal::{BenchError, Options};
use lb_static::Signature;
use lb_trace::TraceError;
use rayon::current_num_threads;
use std::alloc::Global;
use std::thread::Threads;

/// How much of a text is judged at once. A report does not depend on these sizes.
#[derive(Clone, Copy)]
pub struct Sizes {
    /// How many bytes are in memory, unless a trace is longer: of a text, and of each section of a
    /// file.
    pub window: usize,
    /// How many bytes of rows a worker has in memory, about, where it runs rounds of its own.
    pub round: usize,
    /// How many bytes of rows a round has, about, that several workers run together. There are two
    /// such rounds: one is run while the other is read.
    pub shared: usize,
    /// The least size, in bytes, of a file that is read in sections.
    pub least: u64,
}

impl Sizes {
    /// The sizes for a run: rounds fill many lanes, and yet a run takes only 24 MB and 2 MB for
    /// each worker. Where more than four judge sections of a file, their rounds are smaller yet.
    pub fn usual(workers: u32) -> Sizes
        ensures window { result.window ≤ 1048576 }
        ensures filled { 4980736 ≤ result.round }
        ensures rounds { workers ≤ 4 → workers * result.round ≤ 19922944 }
        ensures shared { (9437184 ≤ result.shared) × (result.shared ≤ 11534336) }
        ensures least { result.least ≡ 2097152 }
    {
        Sizes {
            window: if workers == 1 { 1 << 18 } else { 1 << 19 },
            round: match workers {
                1 => 18 << 20,
                2 => 9 << 20,
                3 => 23 << 18,
                _ => 19 << 18,
            },
            shared: match workers {
                2 => 9 << 20,
                3 => 19 << 19,
                _ => 11 << 20,
            },
            least: 1 << 21,
        }
    }
}

/// The most bytes of a trace text.
pub(crate) const MOST_BYTES: usize = 1_073_741_824;

/// How many bytes of a file are read for its header, at most.
const HEAD: usize = 1 << 16;

/// Why there is no report on the traces of a feed.
#[derive(Drop)]
pub enum FeedFault {
    /// E0 or E21: the feed failed, or has too many bytes.
    Load(LoadError),
    /// E0 to E18.
    Refused(BenchError),
}

impl From<LoadError> for FeedFault {
    ghost use Rattle.lb_report.specs.declared.feeding.FeedFault.TheVariants.{Load};

    ghost from_gives = { λ cause e. e ≡ Load cause };

    fn from(cause: LoadError) -> FeedFault {
        FeedFault::Load(cause)
    }
}

/// A round of this many bytes fills a worker's lanes without packing, unless the program is large.
/// Packing takes time, so such a round keeps 32 bits for each integer.
const ROOMY: usize = 16 << 20;

/// Rows of a small round are packed as long as at most one integer in this many does not fit 16
/// bits.
const FEW: usize = 16;

/// Rows of a roomy round are packed as long as at most one integer in this many does not fit:
/// packing gains less there.
const RARE: usize = 256;

/// How many instants a long trace has, where it is asked whether a roomy round has enough.
const LONG_TRACE: usize = 1024;

// How many times as many instants as its longest trace a round needs: 100 for a program of 400
// planes and words. Lanes are idle at the end of a round, and that costs the more the larger the
// program is.
fn turns_of(lanes: &LaneProgram<'_>) -> usize {
    (lanes.planes as usize + lanes.words as usize) / 4
}

// How rare integers beyond 16 bits have to be for rows to be packed: 256 stands for at most one in
// 256. 0 says that rows are not packed, since a round has enough instants as it is.
fn packing_of(signature: &Signature, turns: usize, sizes: Sizes) -> usize {
    if sizes.round < ROOMY {
        return FEW;
    }
    let row = row_bytes(signature, false);
    let wanted = turns.saturating_mul(LONG_TRACE).saturating_mul(row);
    if wanted > sizes.round { RARE } else { 0 }
}

/// The rounds in which the traces of a program are judged, each by `workers` workers.
fn rounds_of<'a, 'p>(
    alloc: Global,
    program: &'a AcceptedProgram,
    lanes: &'a LaneProgram<'p>,
    options: &Options,
    sizes: Sizes,
    workers: u32,
) -> Rounds<'a, 'p>
    requires { (0 < workers) × (workers ≤ 64) }
    ensures signature { result.signature.now ≡ program.now.signature }
    ensures program { result.runner.program.now.program.now ≡ lanes.now.program.now }
{
    let turns = turns_of(lanes);
    let one_in = packing_of(&program.signature, turns, sizes);
    let bytes = if workers == 1 {
        sizes.round
    } else {
        sizes.shared
    };
    let row = row_bytes(&program.signature, one_in > 0).max(1);
    Rounds {
        alloc,
        signature: &program.signature,
        runner: SetRunner {
            program: lanes,
            lanes: options.batch,
        },
        instants: (bytes / row).clamp(1, 4_000_000) as u32,
        bytes,
        one_in,
        turns,
        window: sizes.window,
        workers,
    }
}

/// The number of workers that judge: that of the options, or for 0 the number of processors.
fn workers_of<R: Threads>(rt: &R, options: &Options) -> usize
    ensures { 0 < result }
{
    match options.workers {
        0 => current_num_threads(rt),
        count => count as usize,
    }
}

/// The sizes where `workers` workers judge sections of a file, each with rounds of its own. These
/// take no more than 17 MiB together and 1 MiB for each worker.
fn in_sections(sizes: Sizes, workers: usize) -> Sizes
    requires { 0 < workers }
    ensures small { result.round ≤ sizes.round }
    ensures share { result.round ≤ 17825792 / workers + 1048576 }
{
    let mut sections = sizes;
    sections.round = sizes.round.min((17 << 20) / workers + (1 << 20));
    sections
}

/// Judges the traces of a feed by a program.
fn judged_by<R, F>(
    rt: &R,
    alloc: Global,
    program: &AcceptedProgram,
    feed: &mut F,
    window: &mut Window,
    options: &Options,
    sizes: Sizes,
) -> Result<Judged, Halt>
where
    R: Threads + Sync,
    F: Feed + Send,
    requires window { IsWindow window.old }
    requires failures { F.failures feed.old < u64.MAX }
    ensures window { OnOk result (IsWindow window.new) }
    ensures ok { IfOk result (λ judged.
        IsTextJudged program.now.ordered.program program.now.signature window.old window.new
        (left (F.coming feed.old) (F.given feed.old) (F.failures feed.old))
        (left (F.coming feed.new) (F.given feed.new) (F.failures feed.new)) judged) }
    ensures err { IfErr result (λ halt.
        IsTextRefused program.now.signature window.old window.new
        (left (F.coming feed.old) (F.given feed.old) (F.failures feed.old))
        (left (F.coming feed.new) (F.given feed.new) (F.failures feed.new)) halt) }
{
    let lanes = compile(alloc, &program.ordered)?;
    let workers = workers_of(rt, options).clamp(1, 64) as u32;
    let rounds = rounds_of(alloc, program, &lanes, options, sizes, workers);
    rounds.judge(rt, feed, window)
}

/// Judges the traces of a file of `size` bytes by a program, in sections. None where the first
/// `HEAD` bytes hold nothing behind the header, where the header has a quote, is refused or could
/// not be read, and where memory ran out before the sections are judged.
fn judged_file<R, F>(
    rt: &R,
    alloc: Global,
    program: &AcceptedProgram,
    file: &F,
    size: u64,
    options: &Options,
    sizes: Sizes,
) -> Option<Result<Judged, Halt>>
where
    R: Threads + Sync,
    F: PlacedFile + Sync,
    requires short { size ≤ 1073741824 }
    requires size { IfSome (F.bytes file.now) (λ bytes. size ≡ length bytes) }
    ensures { IfSome result (IsFileJudged program.now.ordered.program program.now.signature
        (F.bytes file.now) F.may_fail) }
{
    let Ok(lanes) = compile(alloc, &program.ordered) else {
        return None;
    };
    let count = workers_of(rt, options);
    let rounds = rounds_of(
        alloc,
        program,
        &lanes,
        options,
        in_sections(sizes, count),
        1,
    );
    let bytes = bytes_from(alloc, file, 0, size.min(HEAD as u64) as usize)?;
    let Ok(mut window) = Window::new(alloc, HEAD) else {
        return None;
    };
    let mut head = TextFeed::new(bytes.as_slice());
    let Ok(table) = rounds.read_header(&mut head, &mut window) else {
        return None;
    };
    if window.is_done() {
        return None;
    }
    let from = (window.read() - window.text().len()) as u64;
    let Ok(ends) = ends_in_file(alloc, file, from, size, count as u64) else {
        return None;
    };
    Some(judge_ranges(rt, &rounds, &table, file, from, size, ends.as_slice()))
}

/// [`bench`](crate::bench) on the traces of a large open file, which several workers read in
/// sections side by side, each at its own places. None says nothing of the texts: [`bench_feed`] of
/// the file's bytes then answers. None is returned where one worker is to read the file, where it
/// is no regular file, not large or longer than a trace text may be, and where the source or the
/// header is not plainly accepted. E21 is returned only for a file whose reads may fail.
pub fn bench_ranges<R, F>(
    rt: &R,
    source: &[u8],
    file: &F,
    options: &Options,
    sizes: Sizes,
) -> Option<Result<Report, FeedFault>>
where
    R: AllocGlobal + Threads + Sync,
    F: PlacedFile + Sync,
    ensures { IfSome result (IsFileAnswer source.now (F.bytes file.now) F.may_fail options.now) }
{
    let alloc = rt.alloc();
    let size = file.size();
    if workers_of(rt, options) == 1 || size < sizes.least || size > MOST_BYTES as u64 {
        return None;
    }
    let Ok(program) = accept(alloc, source, options) else {
        return None;
    };
    let found = judged_file(rt, alloc, &program, file, size, options, sizes)?;
    match found {
        Ok(judged) => Some(report_of(alloc, &judged, size as usize)),
        Err(halt) => Some(Err(fault_of(halt))),
    }
}

/// Judges the traces of a feed by the program of a source.
fn judge_feed<R, F>(
    rt: &R,
    alloc: Global,
    source: &[u8],
    feed: &mut F,
    window: &mut Window,
    options: &Options,
    sizes: Sizes,
) -> Result<Judged, FeedFault>
where
    R: Threads + Sync,
    F: Feed + Send,
    requires window { IsWindow window.old }
    requires failures { F.failures feed.old < u64.MAX }
    ensures window { OnOk result (IsWindow window.new) }
    ensures ok { IfOk result (λ judged. OnlyProgram source.now options.now (λ P.
        IsProgramJudged P window.old window.new
        (left (F.coming feed.old) (F.given feed.old) (F.failures feed.old))
        (left (F.coming feed.new) (F.given feed.new) (F.failures feed.new)) judged)) }
    ensures err { IfErr result (λ fault. IsJudgingFault source.now options.now
        window.old window.new
        (left (F.coming feed.old) (F.given feed.old) (F.failures feed.old))
        (left (F.coming feed.new) (F.given feed.new) (F.failures feed.new)) fault) }
{
    let program = match accept(alloc, source, options) {
        Ok(program) => program,
        Err(cause) => return Err(FeedFault::Refused(cause)),
    };
    match judged_by(rt, alloc, &program, feed, window, options, sizes) {
        Ok(judged) => Ok(judged),
        Err(halt) => Err(fault_of(halt)),
    }
}

/// The fault of a text that was not judged to its end.
fn fault_of(halt: Halt) -> FeedFault
    ensures { result ≡ fault_by halt }
{
    match halt {
        Halt::Load(cause) => FeedFault::Load(cause),
        Halt::Refused(cause) => FeedFault::Refused(BenchError::Trace(cause)),
        _ => FeedFault::Refused(BenchError::Memory),
    }
}

/// The report on the traces of a text; `bytes` is the length of the text.
fn report_of(alloc: Global, judged: &Judged, bytes: usize) -> Result<Report, FeedFault>
    requires { length judged.now.verdicts.items ≡ length judged.now.roll.names.traces }
    ensures short { OnOk result (bytes ≤ 1073741824) }
    ensures ok { IfOk result (IsReport (trace_names judged.now.roll.names.traces)
        judged.now.verdicts.items) }
    ensures err { IfErr result (IsLastFault bytes) }
{
    if bytes > MOST_BYTES {
        return Err(FeedFault::Refused(too_long()));
    }
    match Report::new(alloc, judged.roll.names(), judged.verdicts.as_slice()) {
        Ok(report) => Ok(report),
        Err(_) => Err(FeedFault::Refused(BenchError::Memory)),
    }
}

/// The refusal of a trace text that has too many bytes.
pub(crate) fn too_long() -> BenchError
    ensures { result ≡ too_long }
{
    BenchError::Trace(TraceError::Limit { record: None })
}

/// The refusal of a source and a trace text of `bytes` bytes, where `cause` was found while they
/// were judged. That a text is too long comes before what is wrong with its records.
fn first_of(cause: BenchError, bytes: usize) -> BenchError
    ensures { result ≡ told_first cause bytes }
{
    match &cause {
        BenchError::Trace(trace) if bytes > MOST_BYTES && trace.number() != 0 => too_long(),
        _ => cause,
    }
}

/// Runs a node of a source over the traces of a feed, and reports the verdict of each, as
/// [`bench`](crate::bench) does on all bytes of the feed. In memory are no more than a part of the
/// text, the rows of some traces, and the names and verdicts of all.
///
/// The feed is read to its end, also where the texts are refused. The errors are E0 to E18, and E21
/// where the feed failed or gave more than 1,100,000,000 bytes.
pub fn bench_feed<R, F>(
    rt: &R,
    source: &[u8],
    feed: &mut F,
    options: &Options,
    sizes: Sizes,
) -> Result<Report, FeedFault>
where
    R: AllocGlobal + Threads + Sync,
    F: Feed + Send,
    requires { F.failures feed.old < u64.MAX }
    ensures { IsFeedAnswer source.now options.now
        (left (F.coming feed.old) (F.given feed.old) (F.failures feed.old))
        (left (F.coming feed.new) (F.given feed.new) (F.failures feed.new)) result }
{
    let alloc = rt.alloc();
    let Ok(mut window) = Window::new(alloc, sizes.window) else {
        return Err(FeedFault::Load(LoadError::Memory));
    };
    match judge_feed(rt, alloc, source, feed, &mut window, options, sizes) {
        Ok(judged) => report_of(alloc, &judged, window.read()),
        Err(FeedFault::Load(cause)) => Err(FeedFault::Load(cause)),
        Err(FeedFault::Refused(cause)) => {
            window.drain(feed)?;
            Err(FeedFault::Refused(first_of(cause, window.read())))
        }
    }
}
