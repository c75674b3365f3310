//! The live report: from a source and a trace text to a sink, line by line.

ghost use Rattle.std.specs.Prelude.{◌≡◌, ◌<◌, ◌≤◌, ◌++◌, ℕ, IfErr, IfNone, IfOk, IfSome, List};
ghost use Rattle.std.specs.Prelude.{Some, Vec, length};
ghost use Rattle.std.specs.Global.{Global as Heap};
ghost use Rattle.std.specs.List.{AllZip};
ghost use Rattle.lb_flat.specs.Programs.{program_of};
ghost use Rattle.lb_flat.specs.RightVerdicts.{right_verdicts};
ghost use Rattle.lb_flat.specs.Standing.{HasKindsOf};
ghost use Rattle.lb_trace.specs.Chunks.{text_of};
ghost use Rattle.lb_pool.specs.Correct.{AreVerdicts};
ghost use Rattle.lb_output.specs.Follows.{IsFollowed};
ghost use Rattle.lb_pool.specs.RightReports.{right_report};
ghost use Rattle.lb_plan.specs.Plans.{numbers_in};
ghost use Rattle.lb_feed.specs.FileChunks.{IsChunkAt};
ghost use Rattle.lb_report.specs.Bench.{IsRefused};
ghost use Rattle.lb_report.specs.LiveReports.{IsFileUnderWay, IsFollowAnswer, IsPrepared};
ghost use Rattle.lb_report.specs.LiveReports.{IsPreparedFile};

use crate::answer::{AcceptedProgram, accept};
use lb_feed::{FileChunks, PlacedFile};
use lb_pool::{FollowError, Gate, Plan, Sink, run_follow};
use lb_refusal::{BenchError, Options};
use lb_trace::{read_loaded, read_traces_by};
use lb_traces::TraceSet;
use std::alloc::{AllocError, Global};
use std::sync::Wait;
use std::thread::Threads;
use std::time::Clock;
use thiserror::Error;

/// Why a live report did not go out whole.
#[derive(Debug, Drop, Error)]
pub enum FollowFault {
    /// E0 to E18: what refuses the texts, or memory ran out before the run. No byte went out.
    #[error(transparent)]
    Refused(BenchError),
    /// E0 or E19: memory was refused in the run, or the sink failed. The first bytes of the report
    /// went out, as many as the error counts.
    #[error(transparent)]
    Stopped(FollowError),
}

impl From<BenchError> for FollowFault {
    ghost use Rattle.lb_report.specs.declared.live.FollowFault.TheVariants.{Refused};

    ghost from_gives = { λ cause e. e ≡ Refused cause };

    fn from(cause: BenchError) -> FollowFault {
        FollowFault::Refused(cause)
    }
}

/// A program, its traces and a plan over them, ready to be run.
#[derive(Drop)]
struct Prepared {
    program: AcceptedProgram,
    set: TraceSet,
    plan: Plan,
}

/// The plan of which traces run together, as the options say.
fn plan_of(alloc: Global, set: &TraceSet, options: &Options) -> Result<Plan, AllocError>
    ensures { IfOk result (λ plan. length (numbers_in plan) ≡ length set.now.traces) }
{
    if options.by_length {
        Plan::by_length(alloc, set, options.batch)
    } else {
        Plan::in_order(alloc, set.len(), options.batch)
    }
}

/// The program that a source spells and the traces that a text spells, ready to be run.
fn prepare<R: Threads + Sync>(
    rt: &R,
    alloc: Global,
    source: &[u8],
    traces: &[u8],
    options: &Options,
) -> Result<Prepared, BenchError>
    ensures ok { IfOk result (IsPrepared source.now traces.now options.now) }
    ensures err { IfErr result (IsRefused source.now traces.now options.now) }
{
    let program = accept(alloc, source, options)?;
    let set = read_traces_by(rt, alloc, &program.signature, traces, options.workers)?;
    let plan = plan_of(alloc, &set, options)?;
    Ok(Prepared { program, set, plan })
}

/// The program that a source spells and the traces of a text, ready to be run. The text is the
/// chunk `first`, then the chunks that `load` returns for `numbers`. None where anything is
/// refused, the text has quotes, or a chunk is not loaded.
fn prepare_loaded<R, F>(
    rt: &R,
    source: &[u8],
    first: &[u8],
    load: &F,
    numbers: &[usize],
    options: &Options,
) -> Option<Prepared>
where
    R: AllocGlobal + Threads + Sync,
    F: Fn(usize) -> Option<Vec<u8>> + Sync,
    requires load { F.IsAlwaysCallable load.now }
    requires workers { 0 < options.now.workers }
    ensures { IfSome result (λ p. (chunks : List (Vec ℕ Heap))
        × AllZip (λ k chunk. F.post load.now k (Some chunk)) numbers.now chunks
        × IsPrepared source.now (first.now ++ text_of chunks) options.now p) }
{
    let alloc = rt.alloc();
    let Ok(program) = accept(alloc, source, options) else {
        return None;
    };
    let signature = &program.signature;
    let workers = options.workers as usize;
    let Some(set) = read_loaded(rt, alloc, signature, first, load, numbers, workers) else {
        return None;
    };
    let Ok(plan) = plan_of(alloc, &set, options) else {
        return None;
    };
    Some(Prepared { program, set, plan })
}

/// [`prepare_loaded`] of the chunks of a large file. None also where one worker is to read it, and
/// where it is not large.
fn prepare_file<R, F>(rt: &R, source: &[u8], file: &F, options: &Options) -> Option<Prepared>
where
    R: AllocGlobal + Threads + Sync,
    F: PlacedFile + Sync,
    requires { 0 < options.now.workers }
    ensures { IfSome result (IsPreparedFile source.now (F.bytes file.now) options.now) }
{
    if options.workers == 1 {
        return None;
    }
    let alloc = rt.alloc();
    let chunks = &FileChunks::of_file(alloc, file)?;
    let load = |k: usize| -> Option<Vec<u8>>
        ensures { IfSome result (λ chunk. IsChunkAt (F.bytes chunks.entry.now.file.now)
            chunks.entry.now.ends.items k chunk.items) }
    { chunks.load(alloc, k) };
    prepare_loaded(
        rt,
        source,
        chunks.first.as_slice(),
        &load,
        chunks.numbers.as_slice(),
        options,
    )
}

/// Runs the traces of `prepared`, and writes the report to `sink`.
fn follow_prepared<R, G, S>(
    rt: &R,
    alloc: Global,
    prepared: &Prepared,
    workers: u32,
    gate: &G,
    sink: &mut S,
) -> Result<(), FollowError>
where
    R: Threads + Wait + Clock + Sync,
    G: Gate + Sync,
    S: Sink,
    requires plan { length (numbers_in prepared.now.plan) ≡ length prepared.now.set.traces }
    requires kinds { HasKindsOf (program_of prepared.now.program.ordered.program)
        prepared.now.set }
    requires workers { (0 < workers) × (workers ≤ 64) }
    requires failures { S.failures sink.old < u64.MAX }
    ensures right { AreVerdicts prepared.now.program.ordered.program prepared.now.set
        (right_verdicts (program_of prepared.now.program.ordered.program) prepared.now.set) }
    ensures followed { IsFollowed
        (right_report prepared.now.program.ordered.program prepared.now.set)
        (S.taken sink.old) (S.taken sink.new) (S.failures sink.old) (S.failures sink.new) result }
{
    let Prepared { program, set, plan } = prepared;
    run_follow(rt, alloc, &program.ordered, set, plan, workers, gate, sink)
}

/// Runs a node of a source over the traces of a text, as [`crate::bench`] does with 1 to 64
/// workers, and writes the report to a sink: each line goes out as soon as it and all before it are
/// known.
///
/// Where the texts are refused no byte goes out. Where memory is refused in the run, or the sink
/// fails, the first bytes of the report went out, and the error counts them.
pub fn follow<R, G, S>(
    rt: &R,
    source: &[u8],
    traces: &[u8],
    options: &Options,
    gate: &G,
    sink: &mut S,
) -> Result<(), FollowFault>
where
    R: AllocGlobal + Threads + Wait + Clock + Sync,
    G: Gate + Sync,
    S: Sink,
    requires workers { 0 < options.now.workers }
    requires failures { S.failures sink.old < u64.MAX }
    ensures { IsFollowAnswer source.now traces.now options.now (S.taken sink.old)
        (S.taken sink.new) (S.failures sink.old) (S.failures sink.new) result }
{
    let alloc = rt.alloc();
    let prepared = prepare(rt, alloc, source, traces, options)?;
    match follow_prepared(rt, alloc, &prepared, options.workers, gate, sink) {
        Ok(()) => Ok(()),
        Err(cause) => Err(FollowFault::Stopped(cause)),
    }
}

/// [`follow`] of a source and the traces of a large file, which is read in chunks, each at its
/// place. None where one worker is to read it, where it is not large, and where anything is
/// refused; then no byte went out, and [`follow`] of its bytes answers.
pub fn follow_file<R, F, G, S>(
    rt: &R,
    source: &[u8],
    file: &F,
    options: &Options,
    gate: &G,
    sink: &mut S,
) -> Option<Result<(), FollowError>>
where
    R: AllocGlobal + Threads + Wait + Clock + Sync,
    F: PlacedFile + Sync,
    G: Gate + Sync,
    S: Sink,
    requires workers { 0 < options.now.workers }
    requires failures { S.failures sink.old < u64.MAX }
    ensures some { IfSome result (IsFileUnderWay source.now (F.bytes file.now) options.now
        (S.taken sink.old) (S.taken sink.new) (S.failures sink.old) (S.failures sink.new)) }
    ensures none { IfNone result (sink.new ≡ sink.old) }
{
    let Some(prepared) = prepare_file(rt, source, file, options) else {
        return None;
    };
    let workers = options.workers;
    Some(follow_prepared(rt, rt.alloc(), &prepared, workers, gate, sink))
}
