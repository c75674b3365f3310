//! Batches of traces in lanes, beside the same traces one after the other.

ghost use Rattle.std.specs.Prelude.{◌≡◌, ◌<◌, ◌≤◌, [], All, length, true};
ghost use Rattle.lb_static.specs.Signature.{kinds_of};
ghost use Rattle.lb_sim.specs.BatchRuns.{flat_of};
ghost use Rattle.lb_sim.specs.InputRows.{HaveInstant};

use lb_check::Verdict;
use lb_flat::{Ordered, eval_trace};
use lb_lanes::Plane;
use lb_sim::{
    BatchRoom, BatchRun, Inputs, LaneProgram, compile, has_kinds, run_batch, run_queue_in,
};
use lb_test_support::cases::{prepared, push_case};
use lb_test_support::texts::{Said, around, expect, first_line, is_same};
use lb_test_support::{forms, random, runs};
use lb_traces::TraceSet;
use std::alloc::{AllocError, Global};
use std::test::Fail;

// ## Questions

/// A question on the lanes of a case.
#[derive(Clone, Copy)]
enum Question<'a> {
    /// The verdicts of all traces, 64 at a time, about three of them in each lane.
    All,
    /// The verdicts of these traces, batch by batch.
    Members(&'a str),
    /// The lanes of all traces after each instant, in one batch.
    Steps,
}

// The kind of a verdict, and its instant.
fn parts(verdict: Verdict) -> (u32, u32) {
    match verdict {
        Verdict::Passed => (0, 0),
        Verdict::Fault(t) => (1, t),
        Verdict::Undefined(t) => (2, t),
        Verdict::Assertion(t) => (3, t),
        Verdict::False(t) => (4, t),
    }
}

// The words of a verdict.
fn push_verdict(verdict: Verdict, said: &mut Said) {
    match verdict {
        Verdict::Passed => said.push_str("passed"),
        Verdict::Fault(t) => write!(said, "fault {t}"),
        Verdict::Undefined(t) => write!(said, "undefined {t}"),
        Verdict::Assertion(t) => write!(said, "assertion {t}"),
        Verdict::False(t) => write!(said, "false {t}"),
    }
}

// Whether `numbers` are at most 64 numbers of traces of `set`.
fn are_members(set: &TraceSet, numbers: &[u32]) -> bool
    ensures members { result ≡ true → All (λ k. k < length set.now.traces) numbers.now }
    ensures few { result ≡ true → length numbers.now ≤ 64 }
{
    let count = set.len();
    for i in 0..numbers.len() {
        if numbers[i] >= count {
            return false;
        }
    }
    numbers.len() <= 64
}

// ## Whole batches

// The verdict of a member in its lane, marked if `eval_trace` gives another one.
fn push_judged(
    alloc: Global,
    ordered: &Ordered,
    set: &TraceSet,
    member: u32,
    verdict: Verdict,
    said: &mut Said,
)
    requires { member < length set.now.traces }
{
    said.push_str(set.name(member));
    said.push(' ');
    push_verdict(verdict, said);
    match eval_trace(alloc, ordered, set, member) {
        Ok(alone) if parts(verdict) == parts(alone) => {}
        Ok(_) => said.push_str(", and not alone"),
        Err(_) => said.cut(),
    }
    said.push('\n');
}

// The verdict of each member in its lane, if the members are traces of `set`.
fn push_members(
    alloc: Global,
    ordered: &Ordered,
    program: &LaneProgram<'_>,
    set: &TraceSet,
    members: &[u32],
    said: &mut Said,
) {
    if !are_members(set, members) {
        return said.push_str("no members");
    }
    let Ok(done) = run_batch(alloc, program, set, members) else {
        return said.cut();
    };
    if done.members().len() != members.len() || done.verdicts().len() != members.len() {
        return said.push_str("another count");
    }
    for i in 0..members.len() {
        push_judged(alloc, ordered, set, members[i], done.verdicts()[i], said);
    }
}

// `push_members` where about three members run in each lane, one after the other.
fn push_queue(
    alloc: Global,
    ordered: &Ordered,
    program: &LaneProgram<'_>,
    set: &TraceSet,
    members: &[u32],
    said: &mut Said,
) -> Result<(), AllocError> {
    if !are_members(set, members) {
        said.push_str("no members");
        return Ok(());
    }
    let mut verdicts = vec![in alloc; Verdict::Passed; members.len()]?;
    let lanes = members.len() as u32 / 3 + 1;
    let room = BatchRoom::new(alloc, program)?;
    run_queue_in(room, program, set, members, lanes, verdicts.as_mut_slice());
    for i in 0..members.len() {
        push_judged(alloc, ordered, set, members[i], verdicts[i], said);
    }
    Ok(())
}

// `push_queue` for all traces, 64 at a time.
fn push_all(
    alloc: Global,
    ordered: &Ordered,
    program: &LaneProgram<'_>,
    set: &TraceSet,
    said: &mut Said,
) -> Result<(), AllocError> {
    let mut members = Vec::new(alloc);
    for k in 0..set.len() {
        members.push(k)?;
        if members.len() == 64 {
            push_queue(alloc, ordered, program, set, members.as_slice(), said)?;
            members.clear();
        }
    }
    push_queue(alloc, ordered, program, set, members.as_slice(), said)
}

// The numbers that a text spells.
fn numbers_of(alloc: Global, text: &str) -> Result<Vec<u32>, AllocError> {
    let mut numbers = Vec::new(alloc);
    for word in text.split(' ') {
        numbers.push(word.parse::<u32>().unwrap_or(u32::MAX))?;
    }
    Ok(numbers)
}

// `push_members` for each batch that a text spells: `0 1;2` is two batches.
fn push_batches(
    alloc: Global,
    ordered: &Ordered,
    program: &LaneProgram<'_>,
    set: &TraceSet,
    batches: &str,
    said: &mut Said,
) {
    for batch in batches.split(';') {
        match &numbers_of(alloc, batch) {
            Ok(numbers) => push_members(alloc, ordered, program, set, numbers, said),
            Err(_) => said.cut(),
        }
    }
}

// ## Step by step

// The lanes whose members have instant `t`.
fn lanes_at(set: &TraceSet, members: &[u32], t: u32) -> Plane
    requires members { All (λ k. k < length set.now.traces) members.now }
    requires few { length members.now ≤ 64 }
{
    let mut lanes = 0u64;
    for i in 0..members.len() {
        if t < set.length(members[i]) {
            lanes |= 1u64 << (i as u32);
        }
    }
    Plane(lanes)
}

// Whether each lane of `live` has a member with instant `t`.
fn have_instant(set: &TraceSet, members: &[u32], t: u32, live: Plane) -> bool
    requires members { All (λ k. k < length set.now.traces) members.now }
    requires few { length members.now ≤ 64 }
    ensures { result ≡ true → HaveInstant set.now members.now [] t live.0 }
{
    for i in 0..64u32 {
        if live.get(i) && (i as usize >= members.len() || t >= set.length(members[i as usize])) {
            return false;
        }
    }
    true
}

// The lanes that are not active, each with its verdict, and the active ones that have not passed.
fn push_lanes(run: &BatchRun<'_>, count: u32, said: &mut Said)
    requires { count ≤ 64 }
{
    for lane in 0..count {
        let verdict = run.verdict(lane);
        if !run.active().get(lane) {
            write!(said, " {lane} ");
            push_verdict(verdict, said);
        } else if parts(verdict).0 != 0 {
            write!(said, " {lane} active");
        }
    }
    said.push('\n');
}

// Runs one instant in the live lanes whose members have it; then the lanes after it.
fn push_step(
    run: &mut BatchRun<'_>,
    inputs: &mut Inputs,
    set: &TraceSet,
    members: &[u32],
    said: &mut Said,
)
    requires members { All (λ k. k < length set.now.traces) members.now }
    requires few { length members.now ≤ 64 }
    requires kinds { kinds_of set.now.signature ≡ inputs.old.columns.kinds.items }
    requires inputs { inputs.old.columns.kinds.items ≡ (flat_of run.old).inputs }
    ensures program { run.new.program.now ≡ run.old.program.now }
    ensures columns { inputs.new.columns ≡ inputs.old.columns }
{
    let t = run.steps;
    let live = run.live.and(lanes_at(set, members, t));
    if t >= 1_000_000 || !have_instant(set, members, t, live) {
        return said.push_str("no instant");
    }
    inputs.load(set, members, t, live);
    run.step(inputs, live);
    write!(said, "{t}:");
    push_lanes(run, members.len() as u32, said);
}

// The lanes before the first instant, and after each of ten instants.
fn push_steps(
    run: &mut BatchRun<'_>,
    inputs: &mut Inputs,
    set: &TraceSet,
    members: &[u32],
    said: &mut Said,
)
    requires members { All (λ k. k < length set.now.traces) members.now }
    requires few { length members.now ≤ 64 }
    requires kinds { kinds_of set.now.signature ≡ inputs.old.columns.kinds.items }
    requires inputs { inputs.old.columns.kinds.items ≡ (flat_of run.old).inputs }
{
    said.push_str("start:");
    push_lanes(run, members.len() as u32, said);
    for _ in 0..10 {
        push_step(run, inputs, set, members, said);
    }
}

// `push_steps` for all traces of a set, if they are at most 64 and have the inputs of the program.
fn push_run(
    alloc: Global,
    program: &LaneProgram<'_>,
    set: &TraceSet,
    said: &mut Said,
) -> Result<(), AllocError> {
    let mut members = Vec::new(alloc);
    for k in 0..set.len() {
        members.push(k)?;
    }
    let members = members.as_slice();
    let mut inputs = Inputs::new(alloc, program)?;
    if !are_members(set, members) || !has_kinds(set.signature(), inputs.columns.kinds.as_slice()) {
        said.push_str("no run");
        return Ok(());
    }
    let mut run = BatchRun::new(alloc, program, members.len() as u32)?;
    push_steps(&mut run, &mut inputs, set, members, said);
    Ok(())
}

// ## Cases

fn push_on_set(
    alloc: Global,
    ordered: &Ordered,
    set: &TraceSet,
    question: Question<'_>,
    said: &mut Said,
) -> Result<(), AllocError> {
    let program = &compile(alloc, ordered)?;
    match question {
        Question::All => push_all(alloc, ordered, program, set, said),
        Question::Members(batches) => {
            push_batches(alloc, ordered, program, set, batches, said);
            Ok(())
        }
        Question::Steps => push_run(alloc, program, set, said),
    }
}

fn push_on_case(
    alloc: Global,
    case: &str,
    observer: &str,
    question: Question<'_>,
    said: &mut Said,
) {
    match &prepared(alloc, case, observer) {
        Some((ordered, set)) => {
            if push_on_set(alloc, ordered, set, question, said).is_err() {
                said.cut();
            }
        }
        None => said.push_str("refused"),
    }
}

/// The question of a line: the members of some batches, `steps`, or nothing.
fn question_of(line: &str) -> Question<'_> {
    if line.is_empty() {
        return Question::All;
    }
    if is_same(line, "steps") {
        return Question::Steps;
    }
    Question::Members(line)
}

/// The answer on a case with counted records, to the question of its first line.
pub fn push_lanes_of(alloc: Global, asked: &str, said: &mut Said) {
    let (line, short) = first_line(asked);
    let mut case = Said::new(alloc);
    push_case(&mut case, short);
    said.cut_with(&case);
    push_on_case(alloc, case.as_str(), "", question_of(line), said);
}

// ## Rows

/// Cases: one batch in each order; traces in which a clock first ticks at different instants, or a
/// memory stays nil for different times; sixty-five lengths, so that the second batch has one
/// trace; traces of which some end early, one of them replaced, and step by step.
pub const BATCHES: &str = "\
0 1 2;0 2 1;1 0 2;1 2 0;2 0 1;2 1 0
node cnt(x: int) returns (n: int); let n = x -> pre n + x; tel
node main(c: bool; x, e: int) returns (ok: bool);
var m: int;
let m = 0 -> current (cnt(x when c)); ok = m = e; tel
%traces
trace,c,x,e
a,0,1,0
a,1,1,1
a,0,1,1
a,1,1,2
b,0,7,0
b,1,1,1
b,0,9,1
b,1,1,2
d,0,1,0
d,1,1,1
d,0,1,2
%answer
a passed
b passed
d false 2
a passed
d false 2
b passed
b passed
a passed
d false 2
b passed
d false 2
a passed
d false 2
a passed
b passed
d false 2
b passed
a passed
%case
0;1 0;3 0;2 0 4;0 1 2 3 4 5 6
node cnt(x: int) returns (n: int); let n = x -> pre n + x; tel
node main(c: bool; x, e: int) returns (ok: bool);
var m: int;
let m = current (cnt(x when c)); ok = if e < 0 then true else m = e; tel
%traces
trace,c,x,e
a,1,5,5
a,0,9,5
a,1,2,7
a,0,9,6
b,0,9,-1
b,0,9,-1
b,1,4,4
b,1,3,7
b,0,9,8
d,0,1,-1
d,0,1,-1
d,0,1,-1
d,0,1,-1
f,0,1,-1
f,0,1,0
g,0,1,-1
g,1,2,2
g,0,5,2
g,1,3,4
h,1,7,7
h,1,1,8
i,1,2147483647,2147483647
i,0,1,2147483647
i,1,1,-1
%answer
a false 3
b false 4
a false 3
f undefined 1
a false 3
d passed
a false 3
g false 3
a false 3
b false 4
d passed
f undefined 1
g false 3
h passed
i fault 2
%case
0;1 0;2 3;0 1 2 3
node main(c: bool; x, e: int) returns (ok: bool);
var p, q: int;
let
  p = pre (pre x);
  q = current (pre (x when c));
  ok = if e < 0 then true else p + q = e;
tel
%traces
trace,c,x,e
a,1,1,-1
a,1,2,-1
a,0,3,2
a,1,4,4
b,1,1,-1
b,0,2,-1
b,0,3,-1
b,1,4,3
b,1,5,7
b,0,6,9
d,1,1,-1
d,0,2,-1
d,0,3,1
f,1,1,-1
f,1,2,-1
f,0,3,2
f,1,4,5
%answer
a passed
b false 5
a passed
d undefined 2
f false 3
a passed
b false 5
d undefined 2
f false 3
%case
2;2 2 0
node main(x: int) returns (ok: bool); let ok = pre x = 1; tel
%traces
trace,x
a,1
b,2
d,3
%answer
d undefined 0
d undefined 0
d undefined 0
a undefined 0
%case

node main() returns (ok: bool);
var n: int;
let n = 0 -> pre n + 1; ok = n < 64; tel
%traces
trace
{1..65 t@ @
}%answer
{1..64 t@ passed
}t65 false 64
%case

node main(x: int) returns (ok: bool);
var q: int;
let q = 100 / (x + 1); ok = x < 50; tel
%traces
trace,x
{5 t@ 10,1
}t5 1,-1
t5 8,1
t5 1,50
t6 1,1
t7 9,1
t7 1,50
{8..63 t@ 10,1
}%answer
{5 t@ passed
}t5 fault 0
t6 passed
t7 false 9
{8..63 t@ passed
}%case

node main(x: int) returns (ok: bool);
var q: int;
let q = 100 / (x + 1); ok = x < 50; tel
%traces
trace,x
{6 t@ 10,1
}t6 1,1
t7 9,1
t7 1,50
{8..63 t@ 10,1
}%answer
{7 t@ passed
}t7 false 9
{8..63 t@ passed
}%case
steps
node main(x: int) returns (ok: bool);
var q: int;
let q = 100 / (x + 1); ok = x < 50; tel
%traces
trace,x
{5 t@ 10,1
}t5 1,-1
t5 8,1
t5 1,50
t6 1,1
t7 9,1
t7 1,50
{8..63 t@ 10,1
}%answer
start:
0: 5 fault 0
{1..8 @: 5 fault 0 6 passed
}9: 5 fault 0 6 passed 7 false 9
%case
steps
node main(p, q: bool; d: int) returns (ok: bool);
var z: int;
let assert p; z = 1 / d; ok = if q then true else pre q; tel
%traces
trace,p,q,d
a,1,1,1
a,1,0,1
a,1,0,1
b,1,0,1
c,1,1,1
c,0,1,1
d,1,1,0
d,1,0,1
d,0,0,1
e,1,1,1
f 4,1,1,1
g,1,1,1
g,0,1,0
%answer
start:
0: 1 undefined 0 3 fault 0
1: 1 undefined 0 2 assertion 1 3 fault 0 4 passed 6 fault 1
2: 0 false 2 1 undefined 0 2 assertion 1 3 fault 0 4 passed 6 fault 1
3: 0 false 2 1 undefined 0 2 assertion 1 3 fault 0 4 passed 6 fault 1
{4..9 @: 0 false 2 1 undefined 0 2 assertion 1 3 fault 0 4 passed 5 passed 6 fault 1
}";

// ## The programs of the other tables

// Whether each trace of a case has the verdict of its report in its lane, and alone.
fn is_same_in_lanes(alloc: Global, row: &str, said: &mut Said) -> bool {
    let (asked, wanted) = around(row, "%answer\n");
    let (observer, case) = first_line(asked);
    said.clear();
    push_on_case(alloc, case, observer.trim(), Question::All, said);
    match wanted.strip_prefix(said.as_str()) {
        Some(rest) => rest.starts_with("total "),
        None => is_same(said.as_str(), "refused") && wanted.starts_with("E"),
    }
}

// Adds the first of some cases that has other verdicts in lanes, behind these. Returns whether
// there is none.
fn are_same_in_lanes(alloc: Global, rows: &str, said: &mut Said) -> bool {
    for row in rows.split("\n%case") {
        if !is_same_in_lanes(alloc, row, said) {
            write!(said, ", in lanes: {row}");
            return false;
        }
    }
    true
}

// The first of all cases that has other verdicts in lanes, behind these. Nothing where there is
// none.
fn first_in_lanes(alloc: Global) -> Said {
    let mut said = Said::new(alloc);
    for rows in [runs::REPORTS, forms::FORMS, random::PROGRAMS] {
        if !are_same_in_lanes(alloc, rows, &mut said) {
            return said;
        }
    }
    said.clear();
    said
}

/// Each program of the whole language has the verdicts of its report in lanes too.
#[test]
fn programs_in_lanes(rt: HostRuntime) -> Result<(), Fail> {
    expect(&first_in_lanes(rt.alloc()), "")
}
