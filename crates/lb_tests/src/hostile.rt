//! Texts that are cut short or damaged, and programs at their limits.

use crate::answers::{push_run, spread};
use lb_test_support::texts::{Said, around, expect};
use std::test::Fail;
use std::thread::Threads;

/// A case text; each of its parts ends with a newline.
const CASE: &str = "\
node main(x: int) returns (ok: bool);
var n: int;
let
  n = 0 -> pre n + x;
  ok = n < 10;
tel
%traces
trace,x
a,1
a,5
a,6
b,0
";

/// The number of an answer that is neither a refusal nor a whole report.
const NO_ANSWER: u8 = 99;

/// An answer as one number: that of the refusal, or 0 for a report with its last line.
fn number_of(said: &str) -> u8 {
    match said.strip_prefix("E") {
        Some(refusal) => around(refusal, " ").0.parse::<u8>().unwrap_or(NO_ANSWER),
        None if said.ends_with("\nstatus 0") || said.ends_with("\nstatus 1") => 0,
        None => NO_ANSWER,
    }
}

/// The answer on a case text by one worker, as a number.
fn answer<R: AllocGlobal + Threads + Sync>(rt: &R, case: &[u8]) -> u8 {
    let Ok(options) = spread(rt.alloc(), 1, 64, false) else {
        return NO_ANSWER;
    };
    let mut said = Said::new(rt.alloc());
    push_run(rt, case, &options, &mut said);
    said.whole().map_or(NO_ANSWER, number_of)
}

/// The wanted answer by the last line of a trace text: a trace name alone is a record without its
/// cell (E15), a comma behind it begins an empty cell (E16), and all else is a report.
fn of_last_line(text: &str) -> u8 {
    let line = text.rsplit('\n').next().unwrap_or("");
    match line.len() {
        1 => 15,
        2 => 16,
        _ => 0,
    }
}

/// The wanted answer on `text`, the first bytes of the case text.
fn wanted_of(text: &str) -> u8 {
    let Some((_, rest)) = text.split_once("tel") else {
        return if text.is_empty() { 4 } else { 2 };
    };
    if rest.len() < 2 {
        return 14;
    }
    if "\n%trace".starts_with(rest) {
        return 1;
    }
    match rest.split_once("trace,x") {
        None => 14,
        Some((_, records)) => of_last_line(records),
    }
}

/// The first length to which the case text is cut and then has a wrong answer, behind that answer.
/// Nothing where there is none.
fn first_wrong_cut<R: AllocGlobal + Threads + Sync>(rt: &R) -> Said {
    let mut said = Said::new(rt.alloc());
    for length in 0..CASE.len() + 1 {
        let text = CASE.get(..length).unwrap_or("no text");
        let number = answer(rt, text.as_bytes());
        if number != wanted_of(text) {
            write!(said, "{number} at byte {length}");
            return said;
        }
    }
    said
}

#[test]
fn cut_texts(rt: HostRuntime) -> Result<(), Fail> {
    expect(&first_wrong_cut(&rt), "")
}

/// The bytes that are put in place of each byte.
const DAMAGE: [u8; 3] = [0, 0xFF, b'('];

/// The answer on the case text with `byte` at `place`.
fn answer_damaged<R: AllocGlobal + Threads + Sync>(rt: &R, place: usize, byte: u8) -> u8 {
    let Ok(mut text) = Vec::from_slice(rt.alloc(), CASE.as_bytes()) else {
        return NO_ANSWER;
    };
    if let Some(damaged) = text.get_mut(place) {
        *damaged = byte;
    }
    answer(rt, text.as_slice())
}

/// The first place of the case text, and the byte put there, for which the answer is neither a
/// refusal of the texts, with a number below 19, nor a whole report. Nothing where there is none.
fn first_wrong_damage<R: AllocGlobal + Threads + Sync>(rt: &R) -> Said {
    let mut said = Said::new(rt.alloc());
    for place in 0..CASE.len() {
        for byte in DAMAGE {
            if answer_damaged(rt, place, byte) >= 19 {
                write!(said, "byte {place} is {byte}");
                return said;
            }
        }
    }
    said
}

#[test]
fn damaged_texts(rt: HostRuntime) -> Result<(), Fail> {
    expect(&first_wrong_damage(&rt), "")
}

/// A source of `count` nodes. Each node calls the next, but for the last.
fn push_chain(count: u32, source: &mut Said) {
    source.push_str("node main");
    for k in 1..count {
        write!(
            source,
            "(a: int) returns (b: bool); let b = n{k}(a); tel\nnode n{k}"
        );
    }
    source.push_str("(a: int) returns (b: bool); let b = a > 0; tel\n");
}

/// The answer on a chain of `count` nodes, which runs over one trace.
fn answer_on_chain<R: AllocGlobal + Threads + Sync>(rt: &R, count: u32) -> u8 {
    let mut case = Said::new(rt.alloc());
    push_chain(count, &mut case);
    case.push_str("%traces\ntrace,a\nt,1\n");
    match case.whole() {
        Ok(case) => answer(rt, case.as_bytes()),
        Err(_) => NO_ANSWER,
    }
}

/// The answers on the longest chain that is accepted, and on a longer one.
fn answers_on_chains<R: AllocGlobal + Threads + Sync>(rt: &R) -> Said {
    let mut said = Said::new(rt.alloc());
    let longest = answer_on_chain(rt, 64);
    let longer = answer_on_chain(rt, 65);
    write!(said, "{longest} and {longer}");
    said
}

#[test]
fn chains(rt: HostRuntime) -> Result<(), Fail> {
    expect(&answers_on_chains(&rt), "0 and 12")
}

/// Programs and trace texts at their limits, and just beyond: instances, size, traces.
pub const LIMITS: &str = "
node f(a: int) returns (b: int); let b = a; tel
node main(x: int) returns (ok: bool);
var B: int^4095;
let B = map<<f,4095>>(x^4095); ok = B[4094] = x; tel
%traces
trace,x
a,1
%answer
a passed
total 1 passed 1 fault 0 undefined 0 assertion 0 false 0
status 0
%case
node f(a: int) returns (b: int); let b = a; tel
node main(x: int) returns (ok: bool);
var B: int^4096;
let B = map<<f,4096>>(x^4096); ok = B[4095] = x; tel
%traces
trace,x
a,1
%answer
E12 large
%case
node main(x: int) returns (ok: bool); var A: int^4096;
let A = x^4096; ok = A[0] = x{12  and A[0] = x}; tel
%traces
trace,x
a,1
%answer
a passed
total 1 passed 1 fault 0 undefined 0 assertion 0 false 0
status 0
%case
node main(x: int) returns (ok: bool); var A: int^4096;
let A = x^4096; ok = A[0] = x{13  and A[0] = x}; tel
%traces
trace,x
a,1
%answer
E12 large
%case
node main() returns (ok: bool); let ok = true; tel
%traces
trace
{1000001 t@
}%answer
E18 limit";
