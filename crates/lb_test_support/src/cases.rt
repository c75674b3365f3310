//! Cases: a source and its traces in one text, parted by the line `%traces`.

use crate::texts::{Said, around, named};
use lb_cause::check_with_cause;
use lb_check::Checked;
use lb_expand::expand;
use lb_flat::{Ordered, order};
use lb_static::elaborate;
use lb_syntax::{Source, parse};
use lb_trace::read_traces;
use lb_traces::TraceSet;
use std::alloc::Global;

// The records of a line: `a 2,7` is `a,7` twice. A line without a space is one record.
fn push_records(case: &mut Said, line: &str) {
    let (name, records) = line.split_once(' ').unwrap_or((line, "1"));
    let (count, cells) = around(records, ",");
    let comma = if cells.is_empty() { "" } else { "," };
    for _ in 0..count.parse::<u32>().unwrap_or(0) {
        write!(case, "{name}{comma}{cells}\n");
    }
}

/// A case with counted records, written out: `a 2,7` is `a,7` twice.
pub fn push_case(case: &mut Said, short: &str) {
    let (source, traces) = around(short, "%traces\n");
    write!(case, "{source}%traces\n");
    for line in traces.split('\n') {
        push_records(case, line);
    }
}

/// The program of a tree that keeps all rules, with `main` under test and perhaps an observer.
pub fn checked_of<'t>(alloc: Global, tree: &'t Source, observer: &'t str) -> Option<Checked<'t>> {
    let elab = elaborate(alloc, tree, "main", named(observer)).ok()?;
    check_with_cause(alloc, elab).ok()
}

/// The equations of a case and its traces, if its texts are accepted. An empty name is no observer.
pub fn prepared(alloc: Global, case: &str, observer: &str) -> Option<(Ordered, TraceSet)> {
    let (source, traces) = around(case, "%traces\n");
    let tree = parse(alloc, source.as_bytes()).ok()?;
    let checked = checked_of(alloc, &tree, observer)?;
    let flat = expand(alloc, &checked).ok();
    let set = read_traces(alloc, &checked.into_signature(), traces.as_bytes()).ok()?;
    Some((order(alloc, flat?).ok()?, set))
}
