//! The live report: the bytes that go out, and when.

ghost use Rattle.std.specs.Prelude.{◌<◌};

use crate::answers::spread;
use crate::pool::{Hold, LANES, SPREADS, TURNS, first_case};
use lb_report::{
    FollowFault, Gate, NoGate, Options, Sink, TextPlaces, Writer, follow, follow_file, split_case,
};
use lb_test_support::cases::push_case;
use lb_test_support::rows::write_out;
use lb_test_support::texts::{Said, around, expect, push_unlike};
use std::hint::spin_loop;
use std::io::{ErrorKind, Write};
use std::sync::Wait;
use std::sync::atomic::{AtomicBool, AtomicU64, Ordering};
use std::test::Fail;
use std::thread::Threads;
use std::time::Clock;

// ## Any number of workers and lanes

// Writes the case of a row with counted records, and the answer of its live report: `whole` and the
// report.
fn write_case(short: &str, row: &mut Said, case: &mut Said, report: &mut Said) {
    let (asked, answer) = around(short, "%answer\n");
    let _ = write_out(row, asked);
    case.clear();
    push_case(case, row.as_str());
    let _ = write_out(row, answer);
    report.clear();
    report.push_str("whole:\n");
    report.push_str(around(row.as_str(), "status ").0);
    report.cut_with(case);
    report.cut_with(row);
}

// The end of a live report: `whole`, the number of a refusal, or the cause of a stop.
fn push_end(answer: &Result<(), FollowFault>, said: &mut Said) {
    match answer {
        Ok(()) => said.push_str("whole"),
        Err(FollowFault::Refused(cause)) => write!(said, "E{}", cause.number()),
        Err(FollowFault::Stopped(cause)) => write!(said, "{cause}"),
    }
}

// `push_end` for an answer that is then dropped.
fn push_last(answer: Result<(), FollowFault>, said: &mut Said) {
    push_end(&answer, said);
}

// The end of a live report on a case, written to `sink` by workers that pass `gate`.
fn push_followed<R, G, S>(
    rt: &R,
    case: &str,
    options: &Options,
    gate: &G,
    sink: &mut S,
    said: &mut Said,
)
where
    R: AllocGlobal + Threads + Wait + Clock + Sync,
    G: Gate + Sync,
    S: Sink,
    requires workers { 0 < options.now.workers }
    requires failures { S.failures sink.old < u64.MAX }
{
    let (source, traces) = split_case(case.as_bytes());
    push_last(follow(rt, source, traces, options, gate, sink), said);
}

// The end of a live report, and the bytes that went out.
fn push_live<R: AllocGlobal + Threads + Wait + Clock + Sync>(
    rt: &R,
    case: &str,
    options: &Options,
    said: &mut Said,
)
    requires { 0 < options.now.workers }
{
    let mut output: Vec<u8> = Vec::new(rt.alloc());
    push_followed(
        rt,
        case,
        options,
        &NoGate,
        &mut Writer::new(&mut output),
        said,
    );
    let text = std::str::from_utf8(output.as_slice()).unwrap_or("no text");
    write!(said, ":\n{text}");
}

// The answer of a live report on a case, if it is not `report`.
fn push_other<R: AllocGlobal + Threads + Wait + Clock + Sync>(
    rt: &R,
    case: &str,
    report: &str,
    options: Options,
    unlike: &mut Said,
)
    requires { 0 < options.workers }
{
    let mut other = Said::new(rt.alloc());
    push_live(rt, case, &options, &mut other);
    push_unlike(
        report,
        &other,
        options.workers,
        options.batch as usize,
        unlike,
    )
}

// `push_other` for each number of workers and of lanes, in order and by length.
fn push_others<R: AllocGlobal + Threads + Wait + Clock + Sync>(
    rt: &R,
    case: &str,
    report: &str,
    unlike: &mut Said,
) {
    for workers in [1u32, 2, 7, 64] {
        for lanes in LANES {
            for by_length in [false, true] {
                match spread(rt.alloc(), workers.max(1), lanes, by_length) {
                    Ok(options) => push_other(rt, case, report, options, unlike),
                    Err(_) => unlike.cut(),
                }
            }
        }
    }
}

// The answers of live reports on the cases of a table that are not the report of the case.
fn unlike_reports<R: AllocGlobal + Threads + Wait + Clock + Sync>(rt: &R) -> Said {
    let mut row = Said::new(rt.alloc());
    let mut case = Said::new(rt.alloc());
    let mut report = Said::new(rt.alloc());
    let mut unlike = Said::new(rt.alloc());
    for short in SPREADS.split("\n%case\n") {
        write_case(short, &mut row, &mut case, &mut report);
        push_others(rt, case.as_str(), report.as_str(), &mut unlike);
    }
    unlike
}

/// The report goes out whole, whatever the workers, the lanes and the verdicts are.
#[test]
fn every_worker_and_width(rt: HostRuntime) -> Result<(), Fail> {
    expect(&unlike_reports(&rt), "")
}

// ## While batches run

/// An output that takes all bytes, and counts the lines.
#[derive(Drop)]
struct CountedLines<'a> {
    text: Vec<u8>,
    lines: &'a AtomicU64,
}

impl Write for CountedLines<'_> {
    fn write(&mut self, bytes: &[u8]) -> std::io::Result<usize> {
        self.text.extend_from_slice(bytes)?;
        let lines = bytes.iter().filter(|b| **b == b'\n').count();
        self.lines.fetch_add(lines as u64, Ordering::SeqCst);
        Ok(bytes.len())
    }

    fn flush(&mut self) -> std::io::Result<()> {
        Ok(())
    }
}

/// A gate that holds the worker of batch 1 until the lines of batch 0 are out.
#[derive(Drop)]
struct UntilWritten<'a> {
    lines: &'a AtomicU64,
    has_given_up: AtomicBool,
}

impl UntilWritten<'_> {
    fn wait(&self) {
        for _ in 0..TURNS {
            if self.lines.load(Ordering::SeqCst) >= 64 {
                return;
            }
            spin_loop();
        }
        self.has_given_up.store(true, Ordering::SeqCst);
    }
}

impl Gate for UntilWritten<'_> {
    fn enter(&self, batch: u32) {
        if batch == 1 {
            self.wait();
        }
    }
}

// The end of a live report on traces of sixty-five lengths, by two workers that pass a gate, and
// the number of lines that went out.
fn gated<R: AllocGlobal + Threads + Wait + Clock + Sync, G: Gate + Sync>(
    rt: &R,
    gate: &G,
    lines: &AtomicU64,
) -> Said {
    let mut said = Said::new(rt.alloc());
    let case = first_case(rt.alloc());
    said.cut_with(&case);
    let Ok(options) = spread(rt.alloc(), 2, 64, false) else {
        said.cut();
        return said;
    };
    let text = Vec::new(rt.alloc());
    let mut output = CountedLines { text, lines };
    let mut sink = Writer::new(&mut output);
    push_followed(rt, case.as_str(), &options, gate, &mut sink, &mut said);
    write!(said, ", {} lines", lines.load(Ordering::SeqCst));
    said
}

/// An implementation that writes everything at the end does not pass the gate.
#[test]
fn lines_while_a_batch_waits(rt: HostRuntime) -> Result<(), Fail> {
    let lines = AtomicU64::new(0);
    let gate = UntilWritten {
        lines: &lines,
        has_given_up: AtomicBool::new(false),
    };
    expect(&gated(&rt, &gate, &lines), "whole, 66 lines")?;
    assert!(rt; !gate.has_given_up.load(Ordering::SeqCst));
    Ok(())
}

/// An implementation that runs all batches on one thread does not pass the gate.
#[test]
fn one_thread_for_all_lines(rt: HostRuntime) -> Result<(), Fail> {
    let lines = AtomicU64::new(0);
    let gate = Hold::new();
    expect(&gated(&rt, &gate, &lines), "whole, 66 lines")?;
    assert!(rt; !gate.has_given_up());
    Ok(())
}

// ## A sink that fails

/// An output that takes one byte a write. Once it has taken `fails_at` bytes, each write fails.
#[derive(Drop)]
struct Brittle<'a> {
    taken: &'a mut Vec<u8>,
    fails_at: usize,
}

impl Write for Brittle<'_> {
    fn write(&mut self, bytes: &[u8]) -> std::io::Result<usize> {
        if self.taken.len() >= self.fails_at {
            return Err(ErrorKind::Interrupted.into());
        }
        match bytes {
            [first, ..] => {
                self.taken.push(*first)?;
                Ok(1)
            }
            [] => Ok(0),
        }
    }

    fn flush(&mut self) -> std::io::Result<()> {
        Ok(())
    }
}

// The end of a live report on a sink that fails after `fails_at` bytes, and the bytes that it took.
fn push_brittle<R: AllocGlobal + Threads + Wait + Clock + Sync>(
    rt: &R,
    case: &str,
    fails_at: usize,
    said: &mut Said,
) {
    let Ok(options) = spread(rt.alloc(), 2, 64, false) else {
        return said.cut();
    };
    let mut taken: Vec<u8> = Vec::new(rt.alloc());
    let mut output = Brittle {
        taken: &mut taken,
        fails_at,
    };
    let mut sink = Writer::new(&mut output);
    push_followed(rt, case, &options, &NoGate, &mut sink, said);
    drop(sink);
    drop(output);
    let text = std::str::from_utf8(taken.as_slice()).unwrap_or("no text");
    write!(said, ":\n{text}");
}

// The answer of `push_brittle`, if the report does not stop once its sink has failed, or if the
// bytes that went out are not its first ones.
fn push_not_stopped<R: AllocGlobal + Threads + Wait + Clock + Sync>(
    rt: &R,
    case: &str,
    report: &str,
    fails_at: usize,
    unlike: &mut Said,
) {
    let mut said = Said::new(rt.alloc());
    push_brittle(rt, case, fails_at, &mut said);
    let first = report.get(..fails_at).unwrap_or("no text");
    let mut wanted = Said::new(rt.alloc());
    write!(wanted, "the output failed after {fails_at} bytes:\n{first}");
    push_unlike(wanted.as_str(), &said, 2, fails_at, unlike);
}

// The wrong answers where each write of a report fails in turn, and the length of the report.
fn not_stopped<R: AllocGlobal + Threads + Wait + Clock + Sync>(rt: &R) -> Said {
    let mut row = Said::new(rt.alloc());
    let mut case = Said::new(rt.alloc());
    let mut report = Said::new(rt.alloc());
    let mut unlike = Said::new(rt.alloc());
    let (short, _) = around(around(SPREADS, "\n%case\n").1, "\n%case\n");
    write_case(short, &mut row, &mut case, &mut report);
    let report = around(report.as_str(), ":\n").1;
    for fails_at in 0..report.len() {
        push_not_stopped(rt, case.as_str(), report, fails_at, &mut unlike);
    }
    write!(unlike, "{} bytes", report.len());
    unlike
}

/// Each write of the report on lanes that retire fails in turn.
#[test]
fn each_write_fails(rt: HostRuntime) -> Result<(), Fail> {
    expect(&not_stopped(&rt), "755 bytes")
}

// ## Refused texts

/// A text that is refused, for a rule of types.
const REFUSED: &str = "\
node main(x, y: int; c: bool) returns (ok: bool);
var z: int;
let z = x when y; ok = true; tel
%traces
trace,x,y,c
a,1,2,1
";

// The end of a live report on refused texts, and the bytes that go out.
fn refused<R: AllocGlobal + Threads + Wait + Clock + Sync>(rt: &R) -> Said {
    let mut said = Said::new(rt.alloc());
    match spread(rt.alloc(), 1, 64, false) {
        Ok(options) => push_live(rt, REFUSED, &options, &mut said),
        Err(_) => said.cut(),
    }
    said
}

/// No byte goes out where the texts are refused.
#[test]
fn refused_texts(rt: HostRuntime) -> Result<(), Fail> {
    expect(&refused(&rt), "E9:\n")
}

// ## A large text that is read in chunks

/// A node that is false from ninety on.
const NINETY: &[u8] = b"node main(x: int) returns (ok: bool); let ok = x < 90; tel\n";

// A text of more than two megabytes, and its report. Each trace has a hundred instants, and counts
// up from a number below twenty.
fn push_counting(text: &mut Said, report: &mut Said) {
    text.push_str("trace,x\n");
    for k in 0..2600u32 {
        let first = k % 20;
        for t in 0..100u32 {
            write!(text, "t{k},{}\n", first + t);
        }
        write!(report, "t{k} false {}\n", 90 - first);
    }
    report.push_str("total 2600 passed 0 fault 0 undefined 0 assertion 0 false 2600\n")
}

// The bytes of a live report on a text that is read in chunks; none if the report is not whole.
fn placed<R: AllocGlobal + Threads + Wait + Clock + Sync>(rt: &R, text: &[u8]) -> Said {
    let mut said = Said::new(rt.alloc());
    let Ok(options) = spread(rt.alloc(), 2, 64, false) else {
        said.cut();
        return said;
    };
    let mut output: Vec<u8> = Vec::new(rt.alloc());
    let mut sink = Writer::new(&mut output);
    let found = follow_file(
        rt,
        NINETY,
        &TextPlaces { text },
        &options,
        &NoGate,
        &mut sink,
    );
    let is_whole = matches!(found, Some(Ok(())));
    drop(sink);
    if !is_whole {
        output.clear();
    }
    said.push_str(std::str::from_utf8(output.as_slice()).unwrap_or("no text"));
    said
}

#[test]
fn live_report_in_chunks(rt: HostRuntime) -> Result<(), Fail> {
    let mut text = Said::new(rt.alloc());
    let mut report = Said::new(rt.alloc());
    push_counting(&mut text, &mut report);
    expect(&placed(&rt, text.as_str().as_bytes()), report.whole()?)
}
