//! The sizes of programs that are too large (E12), and the definitions of the elements of cycles
//! (E13).
//!
//! Each element of a cycle has a line of its own, with the place of what defines it and the path to
//! its instance: the node under test or the observer, and each call from there. Each element needs
//! the next one; the first has the least number.

use crate::cycles::least_of;
use lb_check::Checked;
use lb_expand::{FlatError, SizeFault, expand, with_places};
use lb_flat::{Cycle, Flat, OrderError, order};
use lb_static::{CallPath, CallStep};
use lb_syntax::{line_column, parse};
use lb_test_support::cases::checked_of;
use lb_test_support::texts::Said;
use std::alloc::Global;

/// ` at 3:5`: the line and the column of an offset.
fn push_place(text: &str, offset: u32, said: &mut Said) {
    let bytes = text.as_bytes();
    if bytes.len() >= u32::MAX as usize {
        return said.push_str(" in a long text");
    }
    let place = line_column(bytes, offset);
    write!(said, " at {}:{}", place.line, place.column);
}

/// ` > cell[1] at 3:5`
fn push_step(text: &str, step: &CallStep, said: &mut Said) {
    said.push_str(" > ");
    said.push_str(step.node.as_str());
    if let Some(index) = step.index {
        write!(said, "[{index}]");
    }
    push_place(text, step.offset, said);
}

/// ` in main > cell[1] at 3:5`
fn push_path(text: &str, path: &CallPath, said: &mut Said) {
    said.push_str(" in ");
    said.push_str(path.node.as_str());
    for step in &path.steps {
        push_step(text, step, said);
    }
}

/// Element `k` of a cycle, with the place of its definition and the path to its instance.
fn push_element(text: &str, cycle: &Cycle, k: usize, said: &mut Said) {
    let Some(place) = cycle.places.get(k) else {
        return said.push_str("\n no place");
    };
    write!(said, "\n {}", place.name);
    push_place(text, place.offset, said);
    match cycle.instances.get(place.instance) {
        Some(path) => push_path(text, path, said),
        None => said.push_str(" in no instance"),
    }
}

fn push_cycle(text: &str, cycle: &Cycle, said: &mut Said) {
    let least = least_of(&cycle.elements);
    for k in least..cycle.elements.len() {
        push_element(text, cycle, k, said);
    }
    for k in 0..least {
        push_element(text, cycle, k, said);
    }
}

/// The cause for which a program has no order.
fn push_unordered(text: &str, cause: &OrderError, said: &mut Said) {
    match cause {
        OrderError::Cycle(cycle) => push_cycle(text, cycle, said),
        OrderError::Memory => said.push_str("\n memory"),
    }
}

fn push_order(alloc: Global, text: &str, checked: &Checked, flat: Flat, said: &mut Said) {
    match order(alloc, flat) {
        Ok(_) => said.push_str("\n in order"),
        Err(cause) => push_unordered(text, &with_places(alloc, checked, cause), said),
    }
}

/// The size of a program that is too large.
fn push_large(fault: &SizeFault, said: &mut Said) {
    let least = if fault.is_least { "at least " } else { "" };
    write!(said, "\n size {least}{} of {}", fault.size, fault.limit);
}

fn push_expanded(alloc: Global, text: &str, checked: &Checked, said: &mut Said) {
    match expand(alloc, checked) {
        Ok(flat) => push_order(alloc, text, checked, flat, said),
        Err(FlatError::Large(fault)) => push_large(&fault, said),
        Err(FlatError::Memory) => said.push_str("\n memory"),
    }
}

/// The cause for which a source is refused, with `observer`; an empty name is no observer.
pub fn push_cause(alloc: Global, observer: &str, text: &str, said: &mut Said) {
    let Ok(tree) = &parse(alloc, text.as_bytes()) else {
        return said.push_str("\n refused before");
    };
    match &checked_of(alloc, tree, observer) {
        Some(checked) => push_expanded(alloc, text, checked, said),
        None => said.push_str("\n refused before"),
    }
}

/// Sources without an observer. Cycles: after comments, tabs and carriage returns; in what is
/// called, and in what that calls; through the input and the output of a call; in one of two
/// iterated nodes, which differ by a static argument; through elements of an array of arrays; and
/// through the second of two results. Sizes: of one node; of calls; of variables alone; and of
/// expressions that are too many to be counted.
pub const CAUSES: &str = "-- a comment; and\ttabs\r
node main(c: bool) returns (ok: bool);\r
var\tx, y: int;\r
let\r
\tx = y + 1;\r
\ty = (* one\r
more *) x;\t/* and */\tok = c;\r
tel
=>
 x at 5:2 in main
 y at 6:2 in main
----
node inner(a: int) returns (b: int);
var u, v: int;
let
  u = v;
  v = u + a; b = v;
tel
node outer(a: int) returns (b: int); let b = a + inner(a); tel
node main(c: bool) returns (ok: bool);
let
  ok = outer(1) > 0 and c;
tel
=>
 u at 4:3 in main > outer at 10:8 > inner at 7:50
 v at 5:3 in main > outer at 10:8 > inner at 7:50
----
node same(a: int) returns (b: int); let b = a; tel
node main(c: bool) returns (ok: bool);
var x: int;
let
  x = 1 + same(x);
  ok = c;
tel
=>
 x at 5:3 in main
 b at 1:41 in main > same at 5:11
 a at 5:11 in main > same at 5:11
----
node cell<<const k: int>>(a: int) returns (b: int);
var t: int^2;
let
  t = [a, t[k]]; b = t[1];
tel
node main(c: bool) returns (ok: bool);
var p, q: int^2;
let
  p = map<<cell<<0>>, 2>>([1, 2]);
  q = map<<cell<<1>>, 2>>([1, 2]);
  ok = p[0] = q[1] and c;
tel
=>
 t[1] at 4:3 in main > cell[1] at 10:12
----
node main(c: bool) returns (ok: bool);
var m: int^2^3;
let
  m = [[1, 2], [3, 4], [m[2][1], m[2][0]]];
  ok = c;
tel
=>
 m[2][0] at 4:3 in main
 m[2][1] at 4:3 in main
----
node two(a, b: int) returns (p, q: int); let p = a; q = b; tel
node main(c: bool) returns (ok: bool);
var x, y: int;
let
  (x, y) = two(1, y);
  ok = c;
tel
=>
 y at 5:3 in main
 q at 1:53 in main > two at 5:12
 b at 5:12 in main > two at 5:12
----
node sum(a, x: int) returns (b: int); let b = a + x; tel
node main(c: bool) returns (ok: bool);
var s: int; t: int^2;
let
  t = [1, s];
  s = red<<sum, 2>>(0, t);
  ok = c;
tel
=>
 s at 6:3 in main
 b at 1:43 in main > sum[1] at 6:12
 x at 6:12 in main > sum[1] at 6:12
 t[1] at 5:3 in main
----
node main(c: bool) returns (ok: bool); var x: int; let x = 0 -> pre x; ok = c; tel
=>
 in order
----
node main(c: bool) returns (ok: bool); var a: int^4096^8; let a = 0^4096^8; ok = c; tel
=>
 size 69636 of 65536
----
node f(x: int^4096) returns (y: int^4096); let y = x; tel
node main(c: bool) returns (ok: bool);
var a: int^4096; let a = f(f(f(f(f(f(0^4096)))))); ok = c; tel
=>
 size 106500 of 65536
----
node f(x: int^4096) returns (y: int^4096); let y = x; tel
node main(c: bool) returns (ok: bool);
var a: int^4096; let a = f(f(f(f(f(f(f(f(0^4096)))))))); ok = c; tel
=>
 size 139268 of 65536
----
node main(c: bool) returns (ok: bool);
var a, b: int^4096^8; let a = b; b = 0^4096^8; ok = c; tel
=>
 size at least 65538 of 65536
----
node main(c: bool) returns (ok: bool); let ok = (0^4096^16)[0][0] = 0 and c; tel
=>
 size at least 65537 of 65536";

/// Sources with the observer `watch`: a cycle in it, one in what it calls, and a size that is over
/// the limit with it.
pub const OBSERVED: &str = "node main(c: bool) returns (ok: bool); let ok = c; tel
node watch(c, ok: bool) returns (fine: bool);
var z: bool;
let
  fine = ok;
  z = not z;
tel
=>
 z at 6:3 in watch
----
node main(c: bool) returns (ok: bool); let ok = c; tel
node later(a: bool) returns (b: bool);
let
  b = a or not b;
tel
node watch(c, ok: bool) returns (fine: bool);
let
  fine = later(c) and later(ok);
tel
=>
 b at 4:3 in watch > later at 8:10
----
node main(c: bool) returns (ok: bool);
var a: int^4096^4; let a = 0^4096^4; ok = c; tel
node watch(c, ok: bool) returns (fine: bool);
var a: int^4096^3; let a = 0^4096^3; fine = ok; tel
=>
 size 65545 of 65536";
