//! Case texts and the answers of the program: the report and the status.

/// The verdicts of traces. Among them: a counter, with an assumption and without; sums and
/// quotients at the bounds; operators that are strict, and `if` that is not; memories at the first
/// instant, guarded and not; equations in no order.
pub const REPORTS: &str = "
node main(x: int) returns (ok: bool);
var n: int;
let
  n = 0 -> pre n + x;
  ok = n < 10;
tel
%traces
trace,x
a,1
a,5
a,6
b,0
%answer
a false 2
b passed
total 2 passed 1 fault 0 undefined 0 assertion 0 false 1
status 1
%case
node main(x: int) returns (ok: bool); let ok = x < 10; tel
%traces
trace,x
%answer
total 0 passed 0 fault 0 undefined 0 assertion 0 false 0
status 0
%case
node main(x: int) returns (ok: bool);
var n: int;
let
  assert x < 6;
  n = 0 -> pre n + x;
  ok = n < 10;
tel
%traces
trace,x
a,1
a,5
a,6
b,0
%answer
a assertion 2
b passed
total 2 passed 1 fault 0 undefined 0 assertion 1 false 0
status 0
%case
node main(x: int) returns (ok: bool);
var y: int;
let y = x + 1; ok = true; tel
%traces
trace,x
a,0
a,2147483647
b,2147483646
%answer
a fault 1
b passed
total 2 passed 1 fault 1 undefined 0 assertion 0 false 0
status 1
%case
node main(p, q: bool) returns (ok: bool); let assert p; ok = q; tel
%traces
trace,p,q
a,1,1
a,0,1
a,1,1
a,1,0
b,1,1
b,1,0
b,1,1
b,0,1
%answer
a assertion 1
b false 1
total 2 passed 0 fault 0 undefined 0 assertion 1 false 1
status 1
%case
node main(x: int) returns (ok: bool);
var y: int;
let assert x > 0; y = 10; ok = x > 0; tel
%traces
trace,x
a,0
%answer
a assertion 0
total 1 passed 0 fault 0 undefined 0 assertion 1 false 0
status 0
%case
node main(x: int) returns (ok: bool);
var y: int;
let y = 10; assert true; ok = x > 0; tel
%traces
trace,x
a,0
%answer
a false 0
total 1 passed 0 fault 0 undefined 0 assertion 0 false 1
status 1
%case
node main(x: int; c: bool) returns (ok: bool);
var z: int;
let z = -x; ok = c; tel
%traces
trace,c,x
a,1,2147483647
a,1,-2147483648
b,0,0
%answer
a fault 1
b false 0
total 2 passed 0 fault 1 undefined 0 assertion 0 false 1
status 1
%case
node main(x, y, z: int) returns (ok: bool); let ok = x + y = z; tel
%traces
trace,x,y,z
a,2147483646,1,2147483647
b,2147483647,1,0
%answer
a passed
b fault 0
total 2 passed 1 fault 1 undefined 0 assertion 0 false 0
status 1
%case
node main(x, y, z: int) returns (ok: bool); let ok = x div y = z; tel
%traces
trace,x,y,z
a,-7,2,-3
b,-2147483648,-1,0
%answer
a passed
b fault 0
total 2 passed 1 fault 1 undefined 0 assertion 0 false 0
status 1
%case
node main(x, y, z: int) returns (ok: bool); let ok = x mod y = z; tel
%traces
trace,x,y,z
a,-7,2,-1
b,1,0,0
%answer
a passed
b fault 0
total 2 passed 1 fault 1 undefined 0 assertion 0 false 0
status 1
%case
node main(p, q: bool) returns (ok: bool); let ok = p => q; tel
%traces
trace,p,q
a,1,0
b,0,0
%answer
a false 0
b passed
total 2 passed 1 fault 0 undefined 0 assertion 0 false 1
status 1
%case
node main(x: int; c: bool) returns (ok: bool); let ok = c or 1 div x = 1; tel
%traces
trace,x,c
a,1,0
b,0,1
%answer
a passed
b fault 0
total 2 passed 1 fault 1 undefined 0 assertion 0 false 0
status 1
%case
node main(x: int; c: bool) returns (ok: bool); let ok = (if c then 1 else 1 div x) = 1; tel
%traces
trace,x,c
a,0,1
b,0,0
%answer
a passed
b fault 0
total 2 passed 1 fault 1 undefined 0 assertion 0 false 0
status 1
%case
node main(x: bool) returns (ok: bool); let ok = x -> pre x; tel
%traces
trace,x
a,1
a,0
a,1
%answer
a false 2
total 1 passed 0 fault 0 undefined 0 assertion 0 false 1
status 1
%case
node main(x: bool) returns (ok: bool); let ok = pre x; tel
%traces
trace,x
a,1
a,1
%answer
a undefined 0
total 1 passed 0 fault 0 undefined 1 assertion 0 false 0
status 1
%case
node main(x: bool) returns (ok: bool); let ok = true -> pre x; tel
%traces
trace,x
a,1
a,1
%answer
a passed
total 1 passed 1 fault 0 undefined 0 assertion 0 false 0
status 0
%case
node main(x: int) returns (ok: bool);
var q: int;
let q = pre x / 0; ok = true; tel
%traces
trace,x
a,2
a,2
b,2
%answer
a fault 1
b passed
total 2 passed 1 fault 1 undefined 0 assertion 0 false 0
status 1
%case
node main(x: int) returns (ok: bool);
var q: int;
let q = 1 / pre x; ok = true; tel
%traces
trace,x
a,0
a,0
b,0
%answer
a fault 1
b passed
total 2 passed 1 fault 1 undefined 0 assertion 0 false 0
status 1
%case
node main(b: bool) returns (ok: bool); let assert false; ok = pre b; tel
%traces
trace,b
a,1
%answer
a undefined 0
total 1 passed 0 fault 0 undefined 1 assertion 0 false 0
status 1
%case
node main(b: bool) returns (ok: bool);
var z: int;
let z = 1 / 0; assert false; ok = pre b; tel
%traces
trace,b
a,1
%answer
a fault 0
total 1 passed 0 fault 1 undefined 0 assertion 0 false 0
status 1
%case
node main(x: bool) returns (ok: bool); let assert pre x; ok = x; tel
%traces
trace,x
a,0
%answer
a undefined 0
total 1 passed 0 fault 0 undefined 1 assertion 0 false 0
status 1
%case
node main(x: bool) returns (ok: bool); let ok = if pre x then true else true; tel
%traces
trace,x
a,1
%answer
a undefined 0
total 1 passed 0 fault 0 undefined 1 assertion 0 false 0
status 1
%case
node main(x: bool) returns (ok: bool); let ok = if x then true else pre x; tel
%traces
trace,x
a,1
b,0
%answer
a passed
b undefined 0
total 2 passed 1 fault 0 undefined 1 assertion 0 false 0
status 1
%case
node main(x: bool) returns (ok: bool); let ok = x or #(x, pre x); tel
%traces
trace,x
a,1
%answer
a undefined 0
total 1 passed 0 fault 0 undefined 1 assertion 0 false 0
status 1
%case
node main(x: bool) returns (ok: bool); let ok = true -> pre pre x; tel
%traces
trace,x
a,1
a,1
%answer
a undefined 1
total 1 passed 0 fault 0 undefined 1 assertion 0 false 0
status 1
%case
node main(x: bool) returns (ok: bool); let ok = true fby x; assert ok; tel
%traces
trace,x
a,1
a,0
a,1
%answer
a assertion 2
total 1 passed 0 fault 0 undefined 0 assertion 1 false 0
status 0
%case
node main(x: bool) returns (ok: bool);
var a, b, c, z: bool;
let ok = z and b; z = not x; a = true -> pre b; c = a; b = c; tel
%traces
trace,x
a,0
a,1
%answer
a false 1
total 1 passed 0 fault 0 undefined 0 assertion 0 false 1
status 1
%case
node main(x: int) returns (ok: bool);
var n, y: int;
let
  n = 0 -> pre n + 1;
  y = if n = 0 then 0 else if n = 1 then 7 else if n = 2 then -58 else if n = 3 then 936
    else if n = 4 then -20471 else if n = 5 then 4096 else if n = 6 then 1
    else if n = 7 then 2147483647 else -2147483647 - 1;
  ok = x = y;
tel
%traces
trace,x
a,-0
a,007
a,-58
a,936
a,-20471
a,000000000000004096
a,00000000000000000001
a,2147483647
a,-2147483648
%answer
a passed
total 1 passed 1 fault 0 undefined 0 assertion 0 false 0
status 0
%case
node main(x: int; c: bool; y: int) returns (ok: bool);
let ok = (c and y = 2 and x = 1) -> (not c and y = 4 and x = 3); tel
%traces
trace,c,y,x
a,true,2,1
a,0,4,3
a/b.c-1_2,1,2,1
%answer
a passed
a/b.c-1_2 passed
total 2 passed 2 fault 0 undefined 0 assertion 0 false 0
status 0
%case
node main(x: int) returns (ok: bool); let ok = x = 1; tel
%traces
\u{feff}\"trace\",\"x\"\r
\"a\",\"1\"\r
%answer
a passed
total 1 passed 1 fault 0 undefined 0 assertion 0 false 0
status 0
%case
node main() returns (ok: bool); let ok = true -> false; tel
%traces
trace
a
a
b
%answer
a false 1
b passed
total 2 passed 1 fault 0 undefined 0 assertion 0 false 1
status 1";
