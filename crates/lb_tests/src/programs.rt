//! The rules of types, clocks and definitions, and of traces, one program a row.

use crate::answers;
use lb_test_support::texts::Said;
use std::thread::Threads;

/// The answer on a program of `NODES`, a front and an end. A program that keeps the rules is
/// refused later (E14), since it has no traces; its answer is `accepted`.
pub fn push_answer<R: AllocGlobal + Threads + Sync>(
    rt: &R,
    front: &str,
    end: &str,
    said: &mut Said,
) {
    let mut case = Said::new(rt.alloc());
    case.push_str(NODES);
    case.push_str(front);
    case.push_str(end);
    said.cut_with(&case);
    answers::push_answer(rt, case.as_str(), "", said);
    if said.as_str().starts_with("E14") {
        said.clear();
        said.push_str("accepted");
    }
}

/// A constant and nodes, which the nodes under test may use.
const NODES: &str = "\
const k = 2;
node two(a, b: int) returns (p, q: int); let p = a + 1; q = b * 2; tel
node f(c: bool; y: int when c) returns (z: int when c); let z = y; tel
node g() returns (n: int); let n = 1 -> pre n + 1; tel
node h(x: int) returns (b: bool; y: int when b); let b = x > 0; y = x when b; tel
node next(x: int) returns (y: int); let y = x + 1; tel
node sum(x, y: int) returns (z: int); let z = x + y; tel
node hold(c: bool; y: int when c) returns (z: int);
let z = if c then current y else 0 -> pre z; tel
node mistyped(x: int) returns (y: int); let y = true; tel
node unclocked(x: int) returns (y: int); let y = current 1; tel
node twice(x: int) returns (y: int); let y = 1; y = 2; tel
node circle(x: int) returns (y: int); var p: bool when p; let p = true; y = x; tel
function steady(x: int) returns (y: int); let y = x; tel
function calm(x: int) returns (y: int); let y = steady(x); tel
function calls(x: int) returns (y: int); let y = next(x); tel
function remembers(x: int) returns (y: int); let y = pre x; tel
function all(c: bool) returns (b: bool); let b = red<<and, 2>>(true, [pre c, c]); tel
";

/// The node under test, but for its locals and statements.
pub const MAIN: &str = "node main(x, y: int; c, d: bool) returns (ok: bool); ";

/// The rules of types, then of clocks and of definitions; their order, and which node is named.
pub const RULES: &str = "\
let ok = true; tel => accepted
let ok = x; tel => E9 type in main
var z: int; let z = x when y; ok = true; tel => E9 type in main
let assert x; ok = true; tel => E9 type in main
var m: int^3; let m = [x, y, 0]; ok = m[2] > 0; tel => accepted
var m: int^3; let m = [x, y]; ok = true; tel => E9 type in main
var m: int^2; let m = x ^ 2; ok = m[2] > 0; tel => E9 type in main
var m: int^2^3; let m = [x, y]^3; ok = m[2][1] > 0; tel => accepted
let ok = ([x, y]^3)[3][0] > 0; tel => E9 type in main
var m: int^2; let m = [x, y, 0][1..2]; ok = true; tel => accepted
var m: int^3; let m = [x, y, 0][1..3]; ok = true; tel => E9 type in main
var m: int^2^7; let m = [x, y]^3 | [x, y]^4; ok = true; tel => accepted
var m: int^4096; let m = x^4096 | [x]; ok = true; tel => E9 type in main
var m: int^5^2; let m = [x^5, y^5]; ok = true; tel => accepted
var m: int^4; let m = map<<next, 4>>(x^4); ok = true; tel => accepted
var m: int^5; let m = map<<next, 5>>(x^4); ok = true; tel => E9 type in main
var m: int^4; let m = fill<<next, 4>>(x^4); ok = true; tel => E9 type in main
let ok = red<<+, 3>>(0, [x, y, 1]) > 0; tel => accepted
let ok = red<<+, 2>>(0, [x, y, 1]) > 0; tel => E9 type in main
var p, q: int; let (p, q) = two(x, y); ok = p < q; tel => accepted
var p: int; let p = two(x, y); ok = true; tel => E9 type in main
var p, q: int; let (p, q) = two(x, c); ok = true; tel => E9 type in main
var z: int when c; let z = x when c; ok = true; tel => accepted
var z: int when c; let z = 1; ok = true; tel => accepted
var z: int when c; let z = x when d; ok = true; tel => E10 clock in main
var z: int when c; let z = x when not c; ok = true; tel => E10 clock in main
var z: int when c; let z = x; ok = true; tel => E10 clock in main
var z: int when c; let z = (x when c) + 7; ok = true; tel => accepted
var z: int when c; let z = (x when c) + (x when d); ok = true; tel => E10 clock in main
var z: int; let z = x + (y when c); ok = true; tel => E10 clock in main
var z: int; let z = current (x when c); ok = z > 0; tel => accepted
var z: int; let z = current 1; ok = true; tel => E10 clock in main
var z: int; let z = current x; ok = true; tel => E10 clock in main
var b: bool when c; z: int when b; let b = d when c; z = (x when c) when b; ok = c; tel => accepted
var b: bool when c; z: int when b; let b = d when c; z = x when b; ok = c; tel => E10 clock in main
let assert (x when c) > 0; ok = true; tel => accepted
let assert (x when c) > y; ok = true; tel => E10 clock in main
var p: bool when c; q: bool when p; let p = true; q = true; ok = true; tel => accepted
var p: bool when q; q: bool when c; r: int when p; let p=true; q=true; r=1; ok=c; tel => accepted
var p: bool when q; q: bool when p; let p = true; q = true; ok = true; tel => E10 clock in main
var z: int; let z = circle(x); ok = true; tel => E10 clock in circle
var z: int when c; let z = f(c, x when c); ok = true; tel => accepted
var z: int when c; let z = (f(((c)), 3)); ok = true; tel => accepted
var z: int when c; let z = f(true, x when c); ok = true; tel => E10 clock in main
var z: int; let z = f(true, x); ok = true; tel => E10 clock in main
var z: int when c; let z = f(c, x when d); ok = true; tel => E10 clock in main
var z: int when c; let z = f(c, x); ok = true; tel => E10 clock in main
var z: int when d; let z = f(c, x when c); ok = true; tel => E10 clock in main
var z: int; let z = f(c, x when c); ok = true; tel => E10 clock in main
var z: int; let z = current f(c, x when c); ok = true; tel => accepted
let ok = hold(c, x when c) > 0; tel => accepted
let ok = hold(c, x when not c) > 0; tel => E10 clock in main
var z: int when c; let z = g(); ok = true; tel => accepted
var z: int; let z = current g(); ok = true; tel => E10 clock in main
var z: int when c; let z = next(x when c); ok = true; tel => accepted
var b: bool; z: int when b; let b, z = h(x); ok = true; tel => accepted
var b: bool; z: int when c; let b, z = h(x); ok = true; tel => E10 clock in main
var m: int^2; let m = map<<next, 2>>([x, 3]); ok = true; tel => accepted
var m: int^2; let m = map<<f, 2>>([c, d], [x, x]); ok = true; tel => E10 clock in main
var z: int; let ok = true; tel => E11 definition in main
let ok = true; x = 1; tel => E11 definition in main
let ok = true; ok = false; tel => E11 definition in main
var p, q: int; let (p, q) = two(x, y); ok = true; tel => accepted
var p, q: int; let (q, p) = two(x, y); ok = true; tel => accepted
var p, q: int; let p = x; ok = true; tel => E11 definition in main
var p, q: int; let (p, q) = two(x, y); p = x; ok = true; tel => E11 definition in main
var p: int; let (p, p) = two(x, y); ok = true; tel => E11 definition in main
var p: int; let (x, p) = two(x, y); ok = true; tel => E11 definition in main
let ok = calm(x) = 0; tel => accepted
let ok = steady(x) = 0; tel => accepted
let ok = calls(x) = 0; tel => E11 definition in calls
let ok = remembers(x) = 0; tel => E11 definition in remembers
let ok = red<<and, 2>>(true, [pre c, c]); tel => accepted
let ok = all(c); tel => E11 definition in all
var z: int; let ok = x; tel => E9 type in main
var z: int; let ok = current 1 > 0; tel => E10 clock in main
let ok = next(x) > 0; tel => accepted
let ok = mistyped(x) > 0; tel => E9 type in mistyped
let ok = unclocked(x) > 0; tel => E10 clock in unclocked
let ok = twice(x) > 0; tel => E11 definition in twice
let ok = next(x); tel => E9 type in main
let ok = next(current 1) > 0; tel => E10 clock in main
let ok = next(x) > 0; ok = true; tel => E11 definition in main
let ok = twice(x); tel => E9 type in main
let ok = mistyped(true); tel => E9 type in mistyped";

/// A node `n` whose inputs are on several clocks, and a node under test that calls it.
pub const CLOCKED: &str = "node main(c, d: bool; x, y: int) returns (ok: bool);
var v: int when c; w: int when d; e: bool when c; u: int when e; a: int^2; b: bool^2;
  t: int^2 when c;
let v = x when c; w = x when d; e = d when c; u = v when e; a = x^2; b = c^2; t = v^2;
  ok = n(c, d, x, y, v, w, e, u, a, b, t); tel
node n(c, d: bool; x, y: int; v: int when c; w: int when d; e: bool when c;
  u: int when e; a: int^2; b: bool^2; t: int^2 when c) returns (o: bool); let ";

/// Statements of `n`, then calls in it. Where they keep the rules of clocks, the output still has
/// no definition.
pub const STATEMENTS: &str = "\
v = x when c; tel => E11 definition in n
v = x when not c; tel => E10 clock in n
x = x when c; tel => E10 clock in n
v = v when c; tel => E10 clock in n
u = v when e; tel => E11 definition in n
u = x when e; tel => E10 clock in n
v = w; tel => E10 clock in n
v = 1 when c; tel => E11 definition in n
v = k; tel => E11 definition in n
v = v + 1; tel => E11 definition in n
v = v + v; tel => E11 definition in n
v = 1 + 1; tel => E11 definition in n
x = 1 + x; tel => E11 definition in n
x = x + v; tel => E10 clock in n
v = 1 + (x + v); tel => E10 clock in n
v = (x + v) + 1; tel => E10 clock in n
v = v + (x when not c); tel => E10 clock in n
x = if c then y else v; tel => E10 clock in n
v = (v fby (v -> pre v)); tel => E11 definition in n
x = 0 -> v; tel => E10 clock in n
x = current v; tel => E11 definition in n
v = current u; tel => E11 definition in n
x = current u; tel => E10 clock in n
x = current x; tel => E10 clock in n
x = current 1; tel => E10 clock in n
a = [x, 1]; tel => E11 definition in n
a = [x, v]; tel => E10 clock in n
a = x^2; tel => E11 definition in n
a = [x] | [v]; tel => E10 clock in n
x = a[0]; tel => E11 definition in n
v = a[0]; tel => E10 clock in n
c = nor(d, e); tel => E10 clock in n
c = #(d, c); tel => E11 definition in n
c = #(true); tel => E11 definition in n
e = #(true, e, e); tel => E11 definition in n
e = #(e, true, d when not c); tel => E10 clock in n
x, y = two(x, y); tel => E11 definition in n
x, v = two(x, y); tel => E10 clock in n
assert c; tel => E11 definition in n
assert e; tel => E11 definition in n
assert true; tel => E11 definition in n
assert c or e; tel => E10 clock in n
x = y; v = x; tel => E10 clock in n
v = f(c, x when c); tel => E11 definition in n
v = f((c), v); tel => E11 definition in n
v = f(c, 1); tel => E11 definition in n
u = f(e, 1); tel => E11 definition in n
v = f(); tel => E9 type in n
v = f(c, x); tel => E10 clock in n
v = f(c, w); tel => E10 clock in n
v = f(c, x when not c); tel => E10 clock in n
v = f(c, v + x); tel => E10 clock in n
w = f(c, v); tel => E10 clock in n
w = f(d, v); tel => E10 clock in n
x = f(c, v); tel => E10 clock in n
v = f(true, v); tel => E10 clock in n
v = f(not c, v); tel => E10 clock in n
u = f(e, u); tel => E11 definition in n
v = f(e, u); tel => E10 clock in n
x = current f(c, v); tel => E11 definition in n
x = current f(c, v) + 1; tel => E11 definition in n
x = f(c, v) + 1; tel => E10 clock in n
c, v = h(x); tel => E11 definition in n
c, v = (h(1)); tel => E11 definition in n
d, v = h(x); tel => E10 clock in n
e, u = h(v); tel => E11 definition in n
e, u = h(x); tel => E10 clock in n
c = h(x); tel => E9 type in n
x = sum(x, y); tel => E11 definition in n
x = sum(1, 2); tel => E11 definition in n
v = sum(v, v); tel => E11 definition in n
v = sum(1, 2); tel => E11 definition in n
v = sum(1, v); tel => E11 definition in n
x = sum(1, v); tel => E10 clock in n
v = sum(v, x); tel => E10 clock in n
v = sum(x when c, x when not c); tel => E10 clock in n
x, y = sum(x, y); tel => E9 type in n
a = map<<sum, 2>>(a, a); tel => E11 definition in n
x = red<<sum, 2>>(x, a); tel => E11 definition in n
x = red<<sum, 2>>(v, a); tel => E10 clock in n
a = map<<f, 2>>(b, a); tel => E10 clock in n
a = map<<+, 2>>(a, a); tel => E11 definition in n
a = map<<+, 2>>(a, t); tel => E10 clock in n";

/// A program and the line before its traces.
pub const PLAIN: &str = "node main(x: int) returns (ok: bool); let ok = true; tel
%traces
";

/// Trace texts.
pub const TRACES: &str = "\
trace,x
a,1,2 => E15 record
----
trace,x
a => E15 record
----
trace,x
a, => E16 cell
----
trace,x
a,+1 => E16 cell
----
trace,x
a, 1 => E16 cell
----
trace,x
a,000000000000000000001 => E16 cell
----
trace,x
a,2147483648 => E16 cell
----
trace,x
,1 => E17 trace
----
trace,x
a b,zz => E17 trace
----
trace,x
aaaaaaaaaaaaaaaaaaaaaaaaaaaaaaaaaaaaaaaaaaaaaaaaaaaaaaaaaaaaaaaaa,1 => E17 trace
----
trace,x
a,1
b,1
a,1 => E17 trace";
