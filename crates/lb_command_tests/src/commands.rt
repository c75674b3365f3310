//! Runs of the program, and their exit statuses.

use crate::command_lines::{expect, told};
use crate::outputs::answer_within;
use std::test::Fail;

/// Words and inputs, and the errors, the status, and whether there is output.
pub const RUNS: &str = "\
lbench --batch 65 => refused: E20 usage
status 2
----
lbench --batch 0 => refused: E20 usage
status 2
----
lbench --workers +7 => refused: E20 usage
status 2
----
lbench a b c => refused: E20 usage
status 2
----
lbench no/such/source => refused: E21 read
status 3
----
lbench --follow --workers 0 => refused: E20 usage
status 2
----
lbench --follow no/such/source => refused: E21 read
status 3
----
lbench --follow
% => refused: E1 character at 1:1
status 2
----
lbench --follow
node main(x: int) returns (ok: bool);
var n: int;
let
  n = 0 -> pre n + x;
  ok = n < 10;
tel
%traces
trace,x
a,1
a,5
a,6
b,0 => status 0 with output
----
lbench
% => refused: E1 character at 1:1
status 2
----
lbench
node
  ; => refused: E2 syntax at 2:3
status 2
----
lbench --format xml => refused: E20 usage
status 2
----
lbench --format csv => refused: E20 usage
status 2
----
lbench --show a --format junit => refused: E20 usage
status 2
----
lbench --merge => refused: E20 usage
status 2
----
lbench a.lus --merge a.report => refused: E20 usage
status 2
----
lbench --merge no/such/report => refused: E21 read
status 3
----
lbench --part 0/3 a.lus a.csv => refused: E20 usage
status 2
----
lbench --part 4/3 a.lus a.csv => refused: E20 usage
status 2
----
lbench --part x a.lus a.csv => refused: E20 usage
status 2
----
lbench --part 1/65537 a.lus a.csv => refused: E20 usage
status 2
----
lbench --part +1/2 a.lus a.csv => refused: E20 usage
status 2
----
lbench --part 1/2 a.lus => refused: E20 usage
status 2
----
lbench --strict --follow => refused: E20 usage
status 2
----
lbench --follow --format junit => refused: E20 usage
status 2
----
lbench --follow --baseline no/such/report => refused: E20 usage
status 2
----
lbench --baseline no/such/report
node main(x: int) returns (ok: bool); let ok = x < 5; tel
%traces
trace,x => refused: E21 read
status 3
----
lbench
node main(x: int) returns (ok: bool); let ok = x < 5; tel
%traces
trace,x => status 0 with output
----
lbench --strict
node main(x: int) returns (ok: bool); let ok = x < 5; tel
%traces
trace,x => status 1 with output
----
lbench --strict --format lines
node main(x: int) returns (ok: bool); let assert x < 3; ok = x < 5; tel
%traces
trace,x
a,4 => status 1 with output
----
lbench --format junit
node main(x: int) returns (ok: bool); let assert x < 3; ok = x < 5; tel
%traces
trace,x
a,4 => status 0 with output
----
lbench --strict --check
node main(x: int) returns (ok: bool); let ok = x < 5; tel => status 0
----
lbench --check
node main(x: int) returns (ok: bool); let ok = x < 5; tel => status 0
----
lbench --check --follow
node main(x: int) returns (ok: bool); let ok = x < 5; tel
%traces
no header => status 0
----
lbench --check
node main(x: int) returns (ok: bool); let ok = x; tel => refused: E9 type
status 2
----
lbench --check --node other
node main(x: int) returns (ok: bool); let ok = x < 5; tel => refused: E4 name
status 2
----
lbench --check no/such/source => refused: E21 read
status 3
----
lbench --header
% => refused: E1 character at 1:1
status 2
----
lbench --check=1 => refused: E20 usage
status 2
----
lbench --version --version => refused: E20 usage
status 2
----
lbench -V --check => status 0 with output
----
lbench --help => status 0 with output";

/// A node with arrays among its inputs.
const TANK: &str = "\
const n = 2;
node tank(level: int^n; open: bool^3^n; x: int) returns (ok: bool); let ok = x < 5; tel
";

/// The header of `TANK`, in which the last index changes fastest.
const HEADER: &str = "\
trace,level[0],level[1],\
open[0][0],open[0][1],open[0][2],open[1][0],open[1][1],open[1][2],x
||0
";

/// Whether a version is printed, and nothing else.
fn is_version(said: &str) -> bool {
    said.starts_with("lbench 0.1.0\nrattle-kit-") && said.ends_with("||0\n")
}

#[test]
fn told_without_traces(rt: HostRuntime) -> Result<(), Fail> {
    let version = told(&rt, "lbench --version", "")?;
    assert!(rt; is_version(version.as_str()));
    expect(&told(&rt, "lbench --header --node tank", TANK), HEADER)
}

#[test]
fn failing_output(rt: HostRuntime) -> Result<(), Fail> {
    let mut room = [0u8; 9];
    let said = answer_within(&rt, "lbench --help", "", room.as_mut_slice());
    expect(&said, "refused: E19 write\nstatus 3")
}
