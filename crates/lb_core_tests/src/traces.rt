//! Traces that are built row after row.

use lb_static::Signature;
use lb_syntax::Kind;
use lb_traces::{TraceRows, is_trace_name};
use std::test::Fail;

#[test]
fn names_of_traces(rt: HostRuntime) {
    assert!(rt; is_trace_name(b"a/b.c-1_2") && !is_trace_name(b""));
}

#[test]
fn cells_of_traces(rt: HostRuntime) -> Result<(), Fail> {
    let alloc = rt.alloc();
    let mut signature = Signature::new(alloc);
    signature.push(String::from_str(alloc, "x")?, Kind::Int)?;
    signature.push(String::from_str(alloc, "c")?, Kind::Bool)?;
    let mut rows = TraceRows::new(alloc, &signature)?;
    rows.start("a/b.c-1_2", &[-5, 1])?;
    rows.push(&[2147483647, 0])?;
    let set = rows.into_set();
    let counts = [set.signature().len(), set.len(), set.length(0)];
    assert!(rt; counts == [2, 1, 2] && set.instants() == 2 && set.name(0) == "a/b.c-1_2");
    let truths = [set.bool_at(0, 0, 1), set.bool_at(0, 1, 1)];
    assert!(rt; set.int_at(0, 1, 0) == 2147483647 && truths == [true, false]);
    Ok(())
}
