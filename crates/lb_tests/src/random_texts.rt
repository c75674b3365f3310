//! Random texts with a mistake in one record: in rounds and in sections the answer is the one on
//! the text as a whole.

use crate::rounds::{SUM, push_unlike_rounds, push_whole};
use crate::sections::push_unlike_reads;
use lb_test_support::texts::{Said, expect};
use std::test::Fail;
use std::thread::Threads;

/// A record: `#` is the number of its trace, `x` and `c` are its cells.
const RECORD: &str = "t#,x,c";

/// The records in its place: itself, a cell more or less, an ill-formed cell, an ill-formed name or
/// one that comes back, and quotes.
const MISTAKES: [&str; 9] = [
    RECORD,
    "t#,x,c,1",
    "t#,x",
    "t#,x,xc",
    "t #,x,c",
    "t0,x,c",
    "\"t#\",x,c",
    "t#,\"x\",c",
    "t#,x,\"c",
];

/// Numbers that follow from a seed.
#[derive(Drop)]
struct Numbers {
    state: u64,
}

impl Numbers {
    /// The next number, less than a bound.
    fn below(&mut self, bound: u64) -> u64 {
        let scaled = self.state.wrapping_mul(6_364_136_223_846_793_005);
        self.state = scaled.wrapping_add(1_442_695_040_888_963_407);
        (self.state >> 33).checked_rem(bound).unwrap_or(0)
    }
}

// A record of a trace.
fn push_record(text: &mut Said, numbers: &mut Numbers, trace: u64, record: &str) {
    let x = numbers.below(12);
    let c = numbers.below(2);
    for letter in record.chars() {
        match letter {
            '#' => write!(text, "{trace}"),
            'x' => write!(text, "{x}"),
            'c' => write!(text, "{c}"),
            _ => text.push(letter),
        }
    }
}

// The end of a line.
fn push_line_end(text: &mut Said, numbers: &mut Numbers) {
    text.push_str(match numbers.below(8) {
        0 => "\r\n",
        1 => "\n\n",
        2 => "\r",
        _ => "\n",
    })
}

// A text of twenty records, one of which has a mistake.
fn push_random(text: &mut Said, numbers: &mut Numbers, wrong: u64, mistake: &str) {
    text.push_str("trace,x,c\n");
    let mut trace = 0u64;
    for k in 0..20u64 {
        if numbers.below(3) == 0 {
            trace = trace.saturating_add(1);
        }
        let here = if k == wrong { mistake } else { RECORD };
        push_record(text, numbers, trace, here);
        push_line_end(text, numbers);
    }
}

/// The answers on a random text, in rounds and in sections, that differ from that on the text as a
/// whole.
fn push_differing<R: AllocGlobal + Threads + Sync>(
    rt: &R,
    text: &[u8],
    first: usize,
    unlike: &mut Said,
) {
    let mut whole = Said::new(rt.alloc());
    push_whole(rt, SUM, text, &mut whole);
    push_unlike_rounds(rt, SUM, text, first, whole.as_str(), unlike);
    push_unlike_reads(rt, text, first, whole.as_str(), unlike);
}

/// The answers on random texts, with each mistake in each record, that differ in rounds or in
/// sections.
fn differing<R: AllocGlobal + Threads + Sync>(rt: &R) -> Said {
    let mut numbers = Numbers { state: 47 };
    let mut text = Said::new(rt.alloc());
    let mut unlike = Said::new(rt.alloc());
    for mistake in MISTAKES {
        for wrong in 0..20u64 {
            text.clear();
            push_random(&mut text, &mut numbers, wrong, mistake);
            let first = numbers.below(200).saturating_add(1) as usize;
            push_differing(rt, text.as_str().as_bytes(), first, &mut unlike);
        }
    }
    unlike
}

#[test]
fn random_texts(rt: HostRuntime) -> Result<(), Fail> {
    expect(&differing(&rt), "")
}
