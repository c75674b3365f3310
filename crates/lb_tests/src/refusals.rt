//! Case texts that are refused, and the refusal.

use crate::answers::push_refusal;
use lb_report::BenchError;
use lb_syntax::SyntaxError;
use lb_test_support::texts::{Said, expect};
use lb_trace::TraceError;
use std::alloc::Global;
use std::test::Fail;

/// The refusals that no case has.
// No text brings them about in little time.
fn rare_refusals(alloc: Global) -> Said {
    let mut said = Said::new(alloc);
    push_refusal(&mut said, &BenchError::Memory);
    push_refusal(
        &mut said,
        &BenchError::Trace(TraceError::Limit { record: None }),
    );
    push_refusal(&mut said, &BenchError::Syntax(SyntaxError::Memory));
    said
}

#[test]
fn refusals(rt: HostRuntime) -> Result<(), Fail> {
    expect(&rare_refusals(rt.alloc()), "E0 memoryE18 limitE0 memory")
}

/// Refusals, by the first part that refuses.
pub const REFUSALS: &str = "
%
%answer
E1 character at 1:1
%case
node main(x: int) returns (ok: bool);
let
  ok = x < 1 < 2; tel
%answer
E2 syntax at 3:14
%case
node main(x: int) returns (ok: bool); let ok = z; tel
%answer
E4 name
%case
node main(x: int) returns (ok: int); let ok = 1; tel
%answer
E8 root
%case
node main(x: int) returns (ok: bool); let ok = x; tel
%answer
E9 type in main
%case
node main(x: bool) returns (ok: bool); let ok = x when x; tel
%answer
E10 clock in main
%case
node main(x: int) returns (ok: bool); var z: int; let ok = true; tel
%answer
E11 definition in main
%case
node main(x: int) returns (ok: bool); var y, z: int; let y = z; z = y; ok = true; tel
%answer
E13 cycle
%case
node main(x: int) returns (ok: bool); let ok = true; tel
%answer
E14 header
%case
node main(x: int) returns (ok: bool); let ok = true; tel
%traces
trace
%answer
E14 header
%case
node main(x: int) returns (ok: bool); let ok = true; tel
%traces
trace,x
a,1,2
%answer
E15 record
%case
node main(x: int) returns (ok: bool); let ok = true; tel
%traces
trace,x
a,2147483648
%answer
E16 cell
%case
node main(x: int) returns (ok: bool); let ok = true; tel
%traces
trace,x
a,1
b,1
a,1
%answer
E17 trace
%case
node main(x: int) returns (ok: bool); let ok = true; tel
%traces
trace,y
%answer
E14 header
%case
node main(x: int) returns (ok: bool); let ok = true; tel
%traces
trace,x,x
%answer
E14 header";
