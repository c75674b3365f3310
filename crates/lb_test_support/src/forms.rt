//! Programs of all forms and the answers on them: arrays, calls, iterators, clocks and observers.

/// Case texts: inputs that are arrays; sizes that are constants; variables and calls on clocks; a
/// fault of a clock; `current` of `current`; iterators with and without a memory; several results;
/// an observer; cycles through `current` and through a call; and sizes at the limit and over it.
pub const FORMS: &str = "
node main(m: int^3^2; e: int) returns (ok: bool); let ok = m[1][2] = e; tel
%traces
trace,m[0][0],m[0][1],m[0][2],m[1][0],m[1][1],m[1][2],e
a,1,2,3,4,5,6,6
%answer
a passed
total 1 passed 1 fault 0 undefined 0 assertion 0 false 0
status 0
%case
const n = 5 div 2;
node main(A: int^n) returns (ok: bool); let ok = A[0] < A[1]; tel
%traces
trace,A[0],A[1]
a,1,2
%answer
a passed
total 1 passed 1 fault 0 undefined 0 assertion 0 false 0
status 0
%case
node main(c: bool; x, e: int) returns (ok: bool);
var s, p: int when c; m: int;
let s = x when c; p = 0 -> pre s; m = current p; ok = m = e; tel
%traces
trace,c,x,e
a,0,5,0
a,1,3,0
a,0,9,0
a,1,4,3
a,1,6,4
%answer
a undefined 0
total 1 passed 0 fault 0 undefined 1 assertion 0 false 0
status 1
%case
node f(c: bool; y: int when c) returns (z: int when c); let z = y; tel
node main(x, y: int; c: bool) returns (ok: bool);
var w: int when c;
let w = f(c, x when c); ok = true; tel
%traces
trace,x,y,c
a,1,2,1
%answer
a passed
total 1 passed 1 fault 0 undefined 0 assertion 0 false 0
status 0
%case
node main(d: int) returns (ok: bool);
var c: bool; y: int when c;
let c = 1 / d > 0; y = 2 when c; ok = true; tel
%traces
trace,d
a,0
%answer
a fault 0
total 1 passed 0 fault 1 undefined 0 assertion 0 false 0
status 1
%case
node main(d, b: bool; e: int) returns (ok: bool);
var c: bool when d; n: int when not c; m: int;
let c = b when d; n = 1 -> pre n + 1; m = current current n; ok = m = e; tel
%traces
trace,d,b,e
a,1,0,1
a,0,0,1
a,1,0,2
%answer
a passed
total 1 passed 1 fault 0 undefined 0 assertion 0 false 0
status 0
%case
node cnt(x: int) returns (n: int); let n = x -> pre n + x; tel
node main(c: bool; x, e: int) returns (ok: bool);
var m: int;
let m = current (cnt(x when c)); ok = m = e; tel
%traces
trace,c,x,e
a,0,1,0
a,1,1,1
a,0,1,1
a,1,1,2
b,0,7,0
b,1,1,1
b,0,9,1
b,1,1,2
d,0,1,0
d,1,1,1
d,0,1,2
%answer
a undefined 0
b undefined 0
d undefined 0
total 3 passed 0 fault 0 undefined 3 assertion 0 false 0
status 1
%case
node cnt(x: int) returns (n: int); let n = x -> pre n + x; tel
node main(c: bool; x, e: int) returns (ok: bool);
var m: int;
let m = 0 -> current (cnt(x when c)); ok = m = e; tel
%traces
trace,c,x,e
a,0,1,0
a,1,1,1
a,0,1,1
a,1,1,2
b,0,7,0
b,1,1,1
b,0,9,1
b,1,1,2
d,0,1,0
d,1,1,1
d,0,1,2
%answer
a passed
b passed
d false 2
total 3 passed 2 fault 0 undefined 0 assertion 0 false 1
status 1
%case
node cnt(x: int) returns (n: int); let n = x -> pre n + x; tel
node main(A: int^3; b: int) returns (ok: bool);
var S: int^3;
let S = map<<cnt,3>>(A); ok = red<<+,3>>(0,S) = b; tel
%traces
trace,A[0],A[1],A[2],b
a,1,10,100,111
a,1,0,0,112
%answer
a passed
total 1 passed 1 fault 0 undefined 0 assertion 0 false 0
status 0
%case
node dg(a, d: int) returns (r: int); let r = 10 * a + d; tel
node main(A: int^3; b: int) returns (ok: bool); let ok = red<<dg,3>>(0,A) = b; tel
%traces
trace,A[0],A[1],A[2],b
a,1,2,3,123
%answer
a passed
total 1 passed 1 fault 0 undefined 0 assertion 0 false 0
status 0
%case
node dg(a, d: int) returns (r: int); let r = 10 * a + d; tel
node main(A: int^3; b: int) returns (ok: bool); let ok = red<<dg,3>>(0,A) = b; tel
%traces
trace,A[0],A[1],A[2],b
a,1,2,3,321
%answer
a false 0
total 1 passed 0 fault 0 undefined 0 assertion 0 false 1
status 1
%case
node dg(a, d: int) returns (r: int); let r = 10 * a + d; tel
node up(a: int) returns (b, e: int); let b = a * 2; e = a + 1; tel
node main() returns (ok: bool);
var z: int; B: int^3;
let (z, B) = fill<<up,3>>(1); ok = z = 8 and red<<dg,3>>(0,B) = 235; tel
%traces
trace
a
%answer
a passed
total 1 passed 1 fault 0 undefined 0 assertion 0 false 0
status 0
%case
node two(a, b: int) returns (p, q: int); let p = a + 1; q = b * 2; tel
node main(x, e: int) returns (ok: bool);
var p, q: int;
let (p, q) = two(x, p); ok = q = e; tel
%traces
trace,x,e
a,3,8
%answer
a passed
total 1 passed 1 fault 0 undefined 0 assertion 0 false 0
status 0
%case o
node main(x: int) returns (y: int); let y = x * 2; tel
node o(x, y: int) returns (ok: bool); let assert x >= 0; ok = y <> 6; tel
%traces
trace,x
a,1
a,3
b,-1
b,3
d,1
%answer
a false 1
b assertion 0
d passed
total 3 passed 1 fault 0 undefined 0 assertion 1 false 1
status 1
%case
node main(x, y: int; c: bool) returns (ok: bool);
var d: bool; t: bool when d;
let t = true when d; d = current t; ok = true; tel
%traces
trace,x,y,c
%answer
E13 cycle
%case
node two(a, b: int) returns (p, q: int); let p = a + 1; q = b * 2; tel
node main(x, e: int) returns (ok: bool);
var p, q: int;
let (p, q) = two(q, p); ok = q = e; tel
%traces
trace,x,e
a,3,8
%answer
E13 cycle
%case
node main(x: int) returns (ok: bool); var A: int^4096; let A = x^4096; ok = A[0] = x; tel
%traces
trace,x
a,1
%answer
a passed
total 1 passed 1 fault 0 undefined 0 assertion 0 false 0
status 0
%case
node main(x: int) returns (ok: bool);
var A: int^4096;
let A = x^4096; ok = A[0] = x and A[0] = x and A[0] = x and A[0] = x and A[0] = x
  and A[0] = x and A[0] = x and A[0] = x and A[0] = x and A[0] = x and A[0] = x
  and A[0] = x and A[0] = x and A[0] = x; tel
%traces
trace,x
a,1
%answer
E12 large";
