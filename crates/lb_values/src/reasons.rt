//! Why the traces of a report do not pass.

use crate::case::Case;
use lb_report::Options;
use lb_syntax::parse;
use lb_telling::{Explained, explain_traces};
use std::alloc::{AllocError, Global};

/// The part of a line of a report that was read so far.
#[derive(Clone, Copy, PartialEq, Eq)]
enum Read {
    /// A part of the name.
    Name,
    /// The name, and the space behind it.
    Space,
    /// More than the name and the space.
    Rest,
}

/// The part read of a line once the byte `b` follows; behind a line end the next line begins.
fn read_more(read: Read, b: u8) -> Read {
    match (read, b) {
        (_, b'\n') => Read::Name,
        (Read::Name, b' ') => Read::Space,
        (Read::Name, _) => Read::Name,
        (Read::Space | Read::Rest, _) => Read::Rest,
    }
}

/// The numbers of the first traces of a report that did not pass, at most `most`: behind the name
/// of each begins the word `fault`, `undefined`, `assertion` or `false`.
fn failing(alloc: Global, report: &[u8], most: usize) -> Result<Vec<u32>, AllocError> {
    let mut numbers = Vec::new(alloc);
    let mut number: u32 = 0;
    let mut read = Read::Name;
    for b in report {
        if numbers.len() >= most {
            return Ok(numbers);
        }
        if read == Read::Space && matches!(*b, b'f' | b'u' | b'a') {
            numbers.push(number)?;
        }
        if *b == b'\n' {
            number = number.saturating_add(1);
        }
        read = read_more(read, *b);
    }
    Ok(numbers)
}

/// Explains why the first traces of a report do not pass, at most `most`: for each a line with its
/// name, its verdict and what decides that, and where the property or an assertion is false the
/// steps behind it. The report is one on these texts; `file` is the name of the source.
pub fn explain_report(
    alloc: Global,
    file: &str,
    source: &[u8],
    traces: &[u8],
    options: &Options,
    report: &[u8],
    most: usize,
) -> Result<Vec<u8>, AllocError> {
    let numbers = failing(alloc, report, most)?;
    if numbers.is_empty() {
        return Ok(Vec::new(alloc));
    }
    let Ok(tree) = parse(alloc, source) else {
        return Ok(Vec::new(alloc));
    };
    let Ok(case) = Case::of_tree(alloc, &tree, traces, options) else {
        return Ok(Vec::new(alloc));
    };
    let Case { program, set } = &case;
    let explained = Explained {
        file,
        source,
        checked: &program.checked,
        ordered: &program.ordered,
        set,
    };
    explain_traces(alloc, explained, numbers.as_slice())
}
