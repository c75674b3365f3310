//! The bench: from a source and a trace text to the report.
//!
//! ```text
//! source -> parse -> elaborate -> check -> expand -> order --.
//!                                                            |
//! traces -> feed -> window -> whole traces -> rows -> run <---'
//!                                                     |
//!                                                  Report
//! ```

ghost use Rattle.std.specs.Prelude.{◌<◌, IfOk, IfErr, length};
ghost use Rattle.lb_syntax.specs.Tokens.{Text};
ghost use Rattle.lb_feed.specs.Cases.{parts_of};
ghost use Rattle.lb_report.specs.Bench.{IsRefused, OnlyProgram};
ghost use Rattle.lb_report.specs.Correct.{IsBenchAnswer};
ghost use Rattle.lb_report.specs.AcceptedPrograms.{IsAcceptedProgram};

use crate::feeding::{FeedFault, MOST_BYTES, Sizes, bench_feed, too_long};
use crate::program::Program;
use lb_feed::{TextFeed, split_case};
use lb_flat::Ordered;
use lb_pool::Report;
use lb_refusal::{BenchError, Options};
use lb_static::Signature;
use lb_syntax::parse;
use std::alloc::Global;
use std::thread::Threads;

/// A program that keeps all rules: the signature of its traces and its equations, ready to run.
#[derive(Drop)]
pub(crate) struct AcceptedProgram {
    pub(crate) signature: Signature,
    pub(crate) ordered: Ordered,
}

/// The program that a source spells, ready to run.
pub(crate) fn accept(
    alloc: Global,
    source: &[u8],
    options: &Options,
) -> Result<AcceptedProgram, BenchError>
    ensures ok { IfOk result (λ p. OnlyProgram source.now options.now (IsAcceptedProgram p)) }
    ensures err { IfErr result (λ e.
        (traces : Text) → IsRefused source.now traces options.now e) }
{
    let tree = parse(alloc, source)?;
    let Program { checked, ordered } = Program::of_tree(alloc, &tree, options)?;
    Ok(AcceptedProgram {
        signature: checked.into_signature(),
        ordered,
    })
}

/// The refusal of a source and a trace text that has too many bytes.
fn refusal_of_long(alloc: Global, source: &[u8], options: &Options) -> BenchError
    ensures { (traces : Text) → 1073741824 < length traces
        → IsRefused source.now traces options.now result }
{
    match accept(alloc, source, options) {
        Ok(_program) => too_long(),
        Err(cause) => cause,
    }
}

/// Runs a node of a source over the traces of a text, and reports the verdict of each.
///
/// The options name the node under test and the observer, and set how many workers run the traces
/// side by side: 1 to 64, or with 0 as many as there are processors. The report does not depend on
/// that number. An error is the refusal of the first part that refuses: E1 to E18, or E0 where
/// memory ran out. The text is judged as [`bench_feed`](crate::bench_feed) judges one that is read.
pub fn bench<R: AllocGlobal + Threads + Sync>(
    rt: &R,
    source: &[u8],
    traces: &[u8],
    options: &Options,
) -> Result<Report, BenchError>
    ensures { IsBenchAnswer source.now traces.now options.now result }
{
    if traces.len() > MOST_BYTES {
        return Err(refusal_of_long(rt.alloc(), source, options));
    }
    let mut feed = TextFeed::new(traces);
    match bench_feed(
        rt,
        source,
        &mut feed,
        options,
        Sizes::usual(options.workers),
    ) {
        Ok(report) => Ok(report),
        Err(FeedFault::Refused(cause)) => Err(cause),
        Err(FeedFault::Load(_)) => Err(BenchError::Memory),
    }
}

/// Runs a case text: its first part is the source, its second part the traces.
///
/// ```text
/// node main(x: int) returns (ok: bool); let ok = x < 5; tel
/// %traces
/// trace,x
/// a,1
/// ```
pub fn run_case<R: AllocGlobal + Threads + Sync>(
    rt: &R,
    case: &[u8],
    options: &Options,
) -> Result<Report, BenchError>
    ensures { let parts = parts_of case.now in
        IsBenchAnswer parts.source parts.traces options.now result }
{
    let (source, traces) = split_case(case);
    bench(rt, source, traces, options)
}
