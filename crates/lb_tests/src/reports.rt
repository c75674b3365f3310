//! Case texts in their two parts, statuses and options.

use lb_check::Verdict;
use lb_report::{Options, split_case, status};
use lb_test_support::texts::{Said, expect};
use std::alloc::{AllocError, Global};
use std::test::Fail;

/// The source and the traces of a case text, each with a `|` at its end.
pub fn push_parts(case: &str, said: &mut Said) {
    let (source, traces) = split_case(case.as_bytes());
    let source = std::str::from_utf8(source).unwrap_or("no text");
    let traces = std::str::from_utf8(traces).unwrap_or("no text");
    write!(said, "{source}|{traces}|");
}

/// Case texts and their parts.
pub const CASES: &str = "\
a
%traces
b => a
|b|
----
a
%traces\r
b
%traces
 => a
|b
%traces
|
----
%traces => ||
----
a %traces
b => a %traces
b||
----
a
%traces\x20
b => a
%traces\x20
b||
----
a
%traces\r => a
%traces\r||
----
 => ||";

// The statuses of some verdicts, and the parts of options.
fn told(alloc: Global) -> Result<Said, AllocError> {
    let mut said = Said::new(alloc);
    for verdict in [
        Verdict::Passed,
        Verdict::Assertion(0),
        Verdict::Fault(1999999999),
        Verdict::Undefined(0),
    ] {
        write!(said, "{} ", status(&[verdict]));
    }
    let options = Options::new(String::from_str(alloc, "main")?, None, 1, 64, true);
    push_options(&options, &mut said);
    Ok(said)
}

fn push_options(options: &Options, said: &mut Said) {
    let observer = options.observer_name().unwrap_or("alone");
    let (workers, batch, by_length) = (options.workers, options.batch, options.by_length);
    write!(
        said,
        "{} {observer} {workers} {batch} {by_length}",
        options.node
    );
}

#[test]
fn statuses_and_options(rt: HostRuntime) -> Result<(), Fail> {
    assert!(rt; status(&[]) == 0);
    expect(&told(rt.alloc())?, "0 0 1 1 main alone 1 64 true")
}
