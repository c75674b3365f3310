//! Traces that come from a feed and are judged in rounds of a few bytes: the answer is that on the
//! text as a whole.

use crate::answers::{push_refusal, spread};
use lb_report::{BenchError, FeedFault, LoadError, Reader, Report, Sizes, bench, bench_feed};
use lb_test_support::texts::{Said, around, expect, push_text, push_unlike};
use std::io::{ErrorKind, Read};
use std::test::Fail;
use std::thread::Threads;

/// Sizes by which a round has one instant, three or five of two columns, and a window less than a
/// line, a line or some lines.
pub const SIZES: [Sizes; 3] = [
    Sizes {
        window: 1,
        round: 1,
        shared: 1,
        least: 1,
    },
    Sizes {
        window: 9,
        round: 36,
        shared: 36,
        least: 1,
    },
    Sizes {
        window: 64,
        round: 60,
        shared: 60,
        least: 1,
    },
];

/// The numbers of workers that judge.
pub const WORKERS: [u32; 4] = [0, 1, 2, 7];

/// A feed that gives a text in two pieces, or in more where there is less room. It may fail at the
/// end of the text.
#[derive(Drop)]
pub struct Pieces<'t> {
    rest: &'t [u8],
    /// The number of bytes of the first piece that are left.
    first: usize,
    fails: bool,
}

impl<'t> Pieces<'t> {
    /// A feed of `text` in two pieces, the first of `first` bytes.
    pub fn new(text: &'t [u8], first: usize) -> Pieces<'t> {
        Pieces {
            rest: text,
            first,
            fails: false,
        }
    }

    /// `new` for a feed that fails at the end of the text.
    fn failing(text: &'t [u8], first: usize) -> Pieces<'t> {
        Pieces {
            rest: text,
            first,
            fails: true,
        }
    }
}

impl Read for Pieces<'_> {
    fn read(&mut self, buffer: &mut [u8]) -> std::io::Result<usize> {
        if self.fails && self.rest.is_empty() {
            return Err(ErrorKind::Interrupted.into());
        }
        let most = if self.first == 0 {
            buffer.len()
        } else {
            buffer.len().min(self.first)
        };
        let count = most.min(self.rest.len());
        buffer[..count].copy_from_slice(&self.rest[..count]);
        self.rest = &self.rest[count..];
        self.first = self.first.saturating_sub(count);
        Ok(count)
    }
}

/// The lines of a report in one line.
pub fn push_report(said: &mut Said, report: &Report) {
    let text = std::str::from_utf8(report.text.as_slice()).unwrap_or("no text");
    for line in text.split_terminator('\n') {
        write!(said, "{line}; ");
    }
    write!(said, "status {}", report.status);
}

/// The cause for which there is no report, with the record where that is known.
pub fn push_cause(said: &mut Said, cause: &BenchError) {
    match cause {
        BenchError::Trace(cause) => write!(said, "E{} {cause}", cause.number()),
        other => push_refusal(said, other),
    }
}

/// The answer on a text as a whole, in one line.
fn push_answered(said: &mut Said, answer: &Result<Report, BenchError>) {
    match answer {
        Ok(report) => push_report(said, report),
        Err(cause) => push_cause(said, cause),
    }
}

/// `push_answered` for an answer that is then dropped.
fn push_answer(said: &mut Said, answer: Result<Report, BenchError>) {
    push_answered(said, &answer);
}

/// The answer on a source and a text as a whole.
pub fn push_whole<R: AllocGlobal + Threads + Sync>(
    rt: &R,
    source: &str,
    text: &[u8],
    said: &mut Said,
) {
    match spread(rt.alloc(), 1, 64, false) {
        Ok(options) => push_answer(said, bench(rt, source.as_bytes(), text, &options)),
        Err(_) => said.cut(),
    }
}

/// The answer on a feed or a file, in one line.
fn push_judgement(said: &mut Said, found: &Result<Report, FeedFault>) {
    match found {
        Ok(report) => push_report(said, report),
        Err(FeedFault::Refused(cause)) => push_cause(said, cause),
        Err(FeedFault::Load(LoadError::Read)) => said.push_str("E21"),
        Err(FeedFault::Load(LoadError::Memory)) => said.push_str("E0"),
    }
}

/// `push_judgement` for an answer that is then dropped.
pub fn push_found(said: &mut Said, found: Result<Report, FeedFault>) {
    push_judgement(said, &found);
}

/// The answer on a source and a feed, if it is not `wanted`. `run` is the number of workers and the
/// sizes of the rounds.
fn push_unlike_feed<R: AllocGlobal + Threads + Sync>(
    rt: &R,
    source: &str,
    pieces: Pieces<'_>,
    run: (u32, Sizes),
    wanted: &str,
    unlike: &mut Said,
) {
    let (workers, sizes) = run;
    let first = pieces.first;
    let Ok(options) = spread(rt.alloc(), workers, 64, false) else {
        return unlike.cut();
    };
    let mut said = Said::new(rt.alloc());
    let mut feed = Reader::new(pieces);
    let found = bench_feed(rt, source.as_bytes(), &mut feed, &options, sizes);
    push_found(&mut said, found);
    push_unlike(wanted, &said, workers, first, unlike);
}

/// The answers in rounds that are not `wanted`, on a text that is cut at byte `first`: by one
/// worker with each of the sizes, and by a number of workers and with sizes that change from byte
/// to byte.
pub fn push_unlike_rounds<R: AllocGlobal + Threads + Sync>(
    rt: &R,
    source: &str,
    text: &[u8],
    first: usize,
    wanted: &str,
    unlike: &mut Said,
) {
    for sizes in SIZES {
        let pieces = Pieces::new(text, first);
        push_unlike_feed(rt, source, pieces, (1, sizes), wanted, unlike);
    }
    let run = (WORKERS[first % 4], SIZES[first % 3]);
    push_unlike_feed(rt, source, Pieces::new(text, first), run, wanted, unlike);
}

/// A node that sums its input over the instants of a trace.
pub const SUM: &str = "\
node main(x: int; c: bool) returns (ok: bool);
var n: int;
let n = (0 -> pre n) + x; ok = n < 40 or c; tel";

/// The answer on a text as a whole, and the answers that differ in rounds, cut at each of its
/// bytes.
fn push_cuts<R: AllocGlobal + Threads + Sync>(rt: &R, text: &[u8], said: &mut Said) {
    push_whole(rt, SUM, text, said);
    let mut unlike = Said::new(rt.alloc());
    for first in 0..text.len() {
        push_unlike_rounds(rt, SUM, text, first, said.as_str(), &mut unlike);
    }
    said.push_said(&unlike);
}

/// `push_cuts` for a text whose columns are an integer `x` and a Boolean `c`.
pub fn push_cut<R: AllocGlobal + Threads + Sync>(rt: &R, asked: &str, said: &mut Said) {
    let mut text = Said::new(rt.alloc());
    push_text(asked, &mut text);
    match text.whole() {
        Ok(text) => push_cuts(rt, text.as_bytes(), said),
        Err(_) => said.cut(),
    }
}

// Texts of twenty records. One trace, twenty and two; a fault; lines that end in each way, and
// empty ones; a byte order mark; names that come back, soon and late; each refusal of a record, at
// the start, late and in the last one; quotes that first come late, of a name, of a cell with a
// line end, and open ones.
pub const CUTS: &str = "\
trace,x,c{20 /a,@,0} => \
a false 9; total 1 passed 0 fault 0 undefined 0 assertion 0 false 1; status 1
trace,x,c{20 /t@,@,0}/ => \
{20 t@ passed; }total 20 passed 20 fault 0 undefined 0 assertion 0 false 0; status 0
trace,x,c{10 /a,@,0}{10 /b,@,1}\\ => \
a false 9; b passed; total 2 passed 1 fault 0 undefined 0 assertion 0 false 1; status 1
trace,c,x{9 /a,0,@}/b,1,2147483647/b,1,1{9 \\/c,0,9} => a passed; b fault 1; c false 4; \
total 3 passed 1 fault 1 undefined 0 assertion 0 false 1; status 1
//\\/trace,x,c\\{10 \\/a,@,0//}{10 //\\b,@,0}//// => \
a false 9; b false 9; total 2 passed 0 fault 0 undefined 0 assertion 0 false 2; status 1
^'trace',x,c{20 /t@,@,0} => \
{20 t@ passed; }total 20 passed 20 fault 0 undefined 0 assertion 0 false 0; status 0
trace,x,c => total 0 passed 0 fault 0 undefined 0 assertion 0 false 0; status 0
trace,x{20 /a,@} => E14 the first record is not `trace` and the name of each scalar input
trace,x,c/a,,1{19 /b,@,1} => E16 the cell of record 1 in column 0 is no value of it
trace,x,c{9 /a,@,0}{9 /b,@,1}/a,7,0/b,1,1/ => \
E17 the trace name of record 19 is ill-formed or comes back
trace,x,c{18 /t@,@,0}/t3,1,0/b,1,1 => \
E17 the trace name of record 19 is ill-formed or comes back
trace,x,c{17 /a,@,0}/b,x,0/c,1/c,1,1 => E16 the cell of record 18 in column 0 is no value of it
trace,x,c{19 /t@,@,1}/z,1 => E15 record 20 has 1 cells, and the header 2
trace,x,c{19 /t@,@,1}/z z,1,1 => E17 the trace name of record 20 is ill-formed or comes back
trace,x,c{17 /t@,@,1}/'a',1,0/'a',39,0/a,'1',1 => \
{17 t@ passed; }a false 1; total 18 passed 17 fault 0 undefined 0 assertion 0 false 1; status 1
trace,x,c{10 /a,@,1}{9 /'a',@,0}/b,1,1 => \
a false 10; b passed; total 2 passed 1 fault 0 undefined 0 assertion 0 false 1; status 1
trace,x,c{18 /t@,@,1}/z,'1/t0,9,9',0/t0,1,1 => \
E16 the cell of record 19 in column 0 is no value of it
trace,x,c{9 /t@,@,1}/q,'1',1{9 /u@,1,1}/t0,1,1 => \
E17 the trace name of record 20 is ill-formed or comes back
trace,x,c{19 /t@,@,1}/z,1,'1 => {19 t@ passed; }z passed; \
total 20 passed 20 fault 0 undefined 0 assertion 0 false 0; status 0";

/// The length of the longest trace text of a case that is judged in rounds.
const SHORT: usize = 2_000;

/// The answers on a text in rounds, cut behind its first bytes, that differ from that on it as a
/// whole.
fn push_first_cuts<R: AllocGlobal + Threads + Sync>(
    rt: &R,
    source: &str,
    text: &[u8],
    unlike: &mut Said,
) {
    let mut whole = Said::new(rt.alloc());
    push_whole(rt, source, text, &mut whole);
    for first in 4..8usize {
        push_unlike_rounds(rt, source, text, first, whole.as_str(), unlike);
    }
}

/// `push_first_cuts` for a case text, if its traces are short.
pub fn push_case_in_rounds<R: AllocGlobal + Threads + Sync>(rt: &R, case: &str, unlike: &mut Said) {
    let (source, traces) = around(case, "%traces\n");
    if traces.len() > SHORT {
        return;
    }
    push_first_cuts(rt, source, traces.as_bytes(), unlike);
}

/// The answers that are not E21 on feeds that fail behind each number of bytes of a text, by each
/// number of workers.
fn push_not_told<R: AllocGlobal + Threads + Sync>(
    rt: &R,
    source: &str,
    text: &[u8],
    unlike: &mut Said,
) {
    for count in 0..=text.len() {
        for workers in WORKERS {
            let pieces = Pieces::failing(text.get(..count).unwrap_or(text), count / 2);
            let run = (workers, SIZES[count % 3]);
            push_unlike_feed(rt, source, pieces, run, "E21", unlike);
        }
    }
}

/// Texts whose feed fails: one that is accepted, one that is refused, one with quotes.
pub const FAILING: [&str; 3] = [
    "trace,x,c\na,1,0\nb,2,0\nc,3,1\nc,4,1\nd,5,1\ne,6,1\ne,7,1\nf,8,1\ng,9,1\n",
    "trace,x,c\na,1,0\nb,2,0\na,3,1\nc,4,1\nd,5\n",
    "trace,x,c\na,1,0\nb,2,0\nc,\"3\",1\n\"d\",4,1\nd,5,1\n",
];

/// Sources: one that is accepted, and two that are refused.
const SOURCES: [&str; 3] = [
    SUM,
    "node main(x: int) returns (ok: bool); let ok = x; tel",
    "",
];

/// The answers that are not E21 on feeds that fail.
fn not_told<R: AllocGlobal + Threads + Sync>(rt: &R) -> Said {
    let mut said = Said::new(rt.alloc());
    for text in FAILING {
        for source in SOURCES {
            push_not_told(rt, source, text.as_bytes(), &mut said);
        }
    }
    said
}

/// A feed that fails is E21, also where the texts before are refused, and gives no report.
#[test]
fn failing_feeds(rt: HostRuntime) -> Result<(), Fail> {
    expect(&not_told(&rt), "")
}
