//! Rows on programs.

/// Refusals E4 to E13.
pub const PROGRAMS: &str = "\
lbench --explain
node main(x: int) returns (ok: bool);
let okk = x < 3; tel => refused: E4 name
-:2:5: error: no variable is named `okk`
    2 | let okk = x < 3; tel
      |     ^^^
help: a similar name is `ok`
in node main
status 2
----
lbench --explain
node main(x: int) returns (ok: bool);
var n: int; n: int;
let n = 1; ok = n < 3; tel => refused: E4 name
-:2:13: error: `n` is declared twice
    2 | var n: int; n: int;
      |             ^
-:2:5: note: it is declared here first
in node main
status 2
----
lbench --explain
node more<<const n: int>>(x: int) returns (y: int); let y = x + n; tel
node main(x: int) returns (ok: bool);
let ok = more(x) < 3; tel => refused: E4 name
-:3:10: error: `more` takes 1 static argument, and is given 0
    3 | let ok = more(x) < 3; tel
      |          ^^^^
in node main
status 2
----
lbench --explain
node pump(x: int) returns (ok: bool);
let ok = x < 3; tel => refused: E4 name
-:1:1: error: no node or function is named `main`
help: --node names the node under test, --observe the observer
status 2
----
lbench --explain
node main(x: int) returns (ok: bool);
let ok = lowlevle(x); tel
node lowlevel(x: int) returns (ok: bool);
let ok = true; tel => refused: E4 name
-:2:10: error: no node or function is named `lowlevle`
    2 | let ok = lowlevle(x); tel
      |          ^^^^^^^^
help: a similar name is `lowlevel`
in node main
status 2
----
lbench --explain
node main(x: int) returns (ok: bool);
let ok = {60 x < 3 and }y; tel => refused: E4 name
-:2:610: error: no variable, static parameter or constant is named `y`
    2 | and {7 x < 3 and }y; tel
      |     {70  }^
in node main
status 2
----
lbench --explain
const k = 7 div 0;
node main(x: int) returns (ok: bool);
let ok = x < k; tel => refused: E5 constant
-:1:13: error: `7 div 0` has no value: the divisor is 0
    1 | const k = 7 div 0;
      |             ^^^
in node main
status 2
----
lbench --explain
const k = m; m = k;
node main(x: int) returns (ok: bool);
let ok = x < k; tel => refused: E5 constant
-:1:7: error: the value of constant `k` needs itself
    1 | const k = m; m = k;
      |       ^
in node main
status 2
----
lbench --explain
const k = 2147483647 + 1;
node main(x: int) returns (ok: bool);
let ok = x < k; tel => refused: E5 constant
-:1:22: error: `2147483647 + 1` is out of the range of int, -2147483648 to 2147483647
    1 | const k = 2147483647 + 1;
      |                      ^
in node main
status 2
----
lbench --explain
node f<<const n: int>>(x: int) returns (y: int);
var A: int^n; let A = x^n; y = A[0]; tel
node main(x: int) returns (ok: bool);
let ok = f<<3 - 3>>(x) < 3; tel => refused: E6 range
-:2:12: error: the size is 0, and may be from 1 to 4096
    2 | var A: int^n; let A = x^n; y = A[0]; tel
      |            ^
in node f, called at -:4:10
status 2
----
lbench --explain
node main(x: int) returns (ok: bool);
var A: int^3; let A = x^3; ok = A[-1] < 3; tel => refused: E6 range
-:2:35: error: the index is -1, and may be from 0 to 4095
    2 | var A: int^3; let A = x^3; ok = A[-1] < 3; tel
      |                                   ^
in node main
status 2
----
lbench --explain
node main(x: int) returns (ok: bool);
var A: int^3; let A = x^3; ok = A[2..1][0] < 3; tel => refused: E6 range
-:2:38: error: the slice ends at 1, and may be from 2 to 4095
    2 | var A: int^3; let A = x^3; ok = A[2..1][0] < 3; tel
      |                                      ^
in node main
status 2
----
lbench --explain
node main(x: int) returns (ok: bool);
let ok = f(x); tel
node f(x: int) returns (y: bool); let y = g(x); tel
node g(x: int) returns (y: bool); let y = f(x); tel => refused: E7 recursion
-:3:43: error: node f reaches itself: f calls g
    3 | node f(x: int) returns (y: bool); let y = g(x); tel
      |                                           ^
-:4:43: note: g calls f
status 2
----
lbench --explain
node main(x: int) returns (ok: bool);
let ok = main(x); tel => refused: E7 recursion
-:2:10: error: node main reaches itself: main calls main
    2 | let ok = main(x); tel
      |          ^^^^
status 2
----
lbench --explain
node main(x: int) returns (ok: bool);
let ok = p(x); tel
node p(x: int) returns (y: bool); let y = map<<q, 2>>(x^2)[0]; tel
node q(x: int) returns (y: bool); let y = r(x); tel
node r(x: int) returns (y: bool); let y = p(x); tel => refused: E7 recursion
-:3:48: error: node p reaches itself: p calls q
    3 | node p(x: int) returns (y: bool); let y = map<<q, 2>>(x^2)[0]; tel
      |                                                ^
-:4:43: note: q calls r
-:5:43: note: r calls p
status 2
----
lbench --explain
node main(x: int) returns (ok: bool; y: int); let ok = true; y = 1; tel => refused: E8 root
-:1:38: error: main, the node under test, has to have one output, the property
    1 | node main(x: int) returns (ok: bool; y: int); let ok = true; y = 1; tel
      |                                      ^
help: --observe names a node that judges its outputs
status 2
----
lbench --explain --observe safe
node main(x: int; open: bool) returns (alarm: bool); let alarm = open; tel
node safe(x: int; open: bool) returns (ok: bool); let ok = true; tel => refused: E8 root
-:2:6: error: safe, the observer, lacks an input for `alarm: bool` of the node under test
    2 | node safe(x: int; open: bool) returns (ok: bool); let ok = true; tel
      |      ^^^^
help: an observer takes the inputs and then the outputs of the node under test
status 2
----
lbench --explain --observe safe
node main(x: int; open: bool) returns (alarm: bool); let alarm = open; tel
node safe(x, open: int; alarm: bool) returns (ok: bool); let ok = true; tel => refused: E8 root
-:2:14: error: safe, the observer, has `open: int`, to which `open: bool` is wired
    2 | node safe(x, open: int; alarm: bool) returns (ok: bool); let ok = true; tel
      |              ^^^^
help: an observer takes the inputs and then the outputs of the node under test
status 2
----
lbench --explain
node main(x: int; open: bool) returns (ok: bool);
let ok = x + open < 3; tel => refused: E9 type
-:2:14: error: `+` wants int, this is bool
    2 | let ok = x + open < 3; tel
      |              ^^^^
in node main
status 2
----
lbench --explain
node main(x: int) returns (ok: bool);
let ok = not x = 1; tel => refused: E9 type
-:2:14: error: `not` wants bool, this is int
    2 | let ok = not x = 1; tel
      |              ^
help: this is read as `(not x) = ..`; write parentheses round the comparison
in node main
status 2
----
lbench --explain
node f(a: int; b: bool) returns (ok: bool);
let ok = b; tel
node main(x: int) returns (ok: bool);
let ok = f(x); tel => refused: E9 type
-:4:10: error: 1 argument is given, 2 are wanted
    4 | let ok = f(x); tel
      |          ^
in node main
status 2
----
lbench --explain
node main(x: int) returns (ok: bool);
var A: int^3;
let A = x^3; ok = A[7] < 3; tel => refused: E9 type
-:3:21: error: the index is outside of the array, which is int^3
    3 | let A = x^3; ok = A[7] < 3; tel
      |                     ^
in node main
status 2
----
lbench --explain
node main(x: int) returns (ok: bool);
let ok = x[0] < 1; tel => refused: E9 type
-:2:10: error: `[` wants an array, this is int
    2 | let ok = x[0] < 1; tel
      |          ^
in node main
status 2
----
lbench --explain
node main(x: int) returns (ok: bool);
let ok = x^2 = x^2; tel => refused: E9 type
-:2:10: error: `=` wants int or bool, this is int^2
    2 | let ok = x^2 = x^2; tel
      |          ^
in node main
status 2
----
lbench --explain
node f(c: bool) returns (y: int when l);
var l: bool;
let y = 1 when l; l = c; tel
node main(x: int) returns (ok: bool);
let ok = current f(true) < x; tel => refused: E10 clock
-:1:38: error: the clock of an input has to be an input, that of an output an input or an output
    1 | node f(c: bool) returns (y: int when l);
      |                                      ^
in node f, called at -:5:18
status 2
----
lbench --explain
node f(a: int) returns (b, c: int); let b = a; c = a; tel
node main(x: int) returns (ok: bool);
let ok = red<<f, 3>>(x, x^3) < 1; tel => refused: E9 type
-:3:10: error: this node does not fit its iterator
    3 | let ok = red<<f, 3>>(x, x^3) < 1; tel
      |          ^^^
help: `red` wants one output, of the type of the first input
in node main
status 2
----
lbench --explain
node main(x: int) returns (ok: bool);
let ok = (x^4096 | [x])[0] < 1; tel => refused: E9 type
-:2:11: error: this array would have no element, or more than 4096
    2 | let ok = (x^4096 | [x])[0] < 1; tel
      |           ^
in node main
status 2
----
lbench --explain
node rise(x: int) returns (y: int);
var z: bool;
let z = x; y = x; tel
node main(x: int) returns (ok: bool);
let ok = rise(x) < 9; tel => refused: E9 type
-:3:5: error: this is bool, and the right side is int
    3 | let z = x; y = x; tel
      |     ^
in node rise, called at -:5:10
status 2
----
lbench --explain
node main(x: int; open: bool) returns (ok: bool);
var y: int when open;
let y = x when open; ok = y + x < 9; tel => refused: E10 clock
-:3:31: error: `+` wants operands on one clock; this is on the base clock, and another operand on `when open`
    3 | let y = x when open; ok = y + x < 9; tel
      |                               ^
-:1:11: note: `x` is declared here, on the base clock
-:2:5: note: `y` is declared here, on `when open`
help: `e when c` puts e on the clock of c, `current e` takes it off again
in node main
status 2
----
lbench --explain
node main(x: int; open: bool) returns (ok: bool);
var y: int when open; z: int when not open;
let y = x when open; z = x when not open;
  ok = current(y + z) < 3; tel => refused: E10 clock
-:4:20: error: `+` wants operands on one clock; this is on `when not open`, and another operand on `when open`
    4 |   ok = current(y + z) < 3; tel
      |                    ^
-:2:23: note: `z` is declared here, on `when not open`
-:2:5: note: `y` is declared here, on `when open`
help: `e when c` puts e on the clock of c, `current e` takes it off again
in node main
status 2
----
lbench --explain
node main(x: int; open: bool) returns (ok: bool);
var y: int when open;
let y = x; ok = current y < 3; tel => refused: E10 clock
-:3:5: error: this is on `when open`, and the right side on the base clock
    3 | let y = x; ok = current y < 3; tel
      |     ^
-:1:11: note: `x` is declared here, on the base clock
-:2:5: note: `y` is declared here, on `when open`
help: `e when c` puts e on the clock of c, `current e` takes it off again
in node main
status 2
----
lbench --explain
node hold(c: bool; a: int when c) returns (ok: bool);
let ok = c; tel
node main(x: int; open: bool) returns (ok: bool);
let ok = hold(open, x); tel => refused: E10 clock
-:4:21: error: argument 2: this is on the base clock, and it has to be on `when open`
    4 | let ok = hold(open, x); tel
      |                     ^
-:3:11: note: `x` is declared here, on the base clock
-:1:20: note: the input `a` of hold is declared here
help: `e when c` puts e on the clock of c, `current e` takes it off again
in node main
status 2
----
lbench --explain
node main(x: int; open: bool) returns (ok: bool);
var y: int when open;
let y = (x when open) when open; ok = true; tel => refused: E10 clock
-:3:9: error: this is on `when open`, and the variable after `when` on the base clock
    3 | let y = (x when open) when open; ok = true; tel
      |         ^
-:3:12: note: this `when` puts it on `when open`
-:1:19: note: `open` is declared here, on the base clock
in node main
status 2
----
lbench --explain
node main(x: int) returns (ok: bool);
var y: bool;
let ok = x < 9; tel => refused: E11 definition
-:2:5: error: `y` is never defined
    2 | var y: bool;
      |     ^
in node main
status 2
----
lbench --explain
node main(x: int) returns (ok: bool);
let ok = x < 9;
  ok = x > 3; tel => refused: E11 definition
-:1:28: error: `ok` is defined more than once
    1 | node main(x: int) returns (ok: bool);
      |                            ^^
-:2:5: note: it is defined here
-:3:3: note: it is defined here
in node main
status 2
----
lbench --explain
node main(x: int) returns (ok: bool);
let ok = x < 3; x = 3; tel => refused: E11 definition
-:1:11: error: `x` is an input, and is defined
    1 | node main(x: int) returns (ok: bool);
      |           ^
-:2:17: note: it is defined here
in node main
status 2
----
lbench --explain
function low(x: int) returns (y: int);
let y = 0 -> x; tel
node main(x: int) returns (ok: bool);
let ok = low(x) < 9; tel => refused: E11 definition
-:2:11: error: a function has no memory, and `->` has one
    2 | let y = 0 -> x; tel
      |           ^^
help: declare it by `node` instead of `function`
in node low, called at -:4:10
status 2
----
lbench --explain
node main(x: int) returns (ok: bool);
var A, B: int^4096^8;
let A = x^4096^8; B = A; ok = true; tel => refused: E12 large
-:1:6: error: expanded, the program has at least 65538 scalar elements; at most 65536 are run
    1 | node main(x: int) returns (ok: bool);
      |      ^^^^
help: each instance counts each variable and each expression, with all elements
status 2
----
lbench --explain
node one(x: int) returns (y: int); let y = x; tel
node main(x: int) returns (ok: bool);
var A: int^4096;
let A = map<<one, 4096>>(x^4096); ok = A[0] = x; tel => refused: E12 large
-:4:14: error: this is instance 4097; at most 4096 are built
    4 | let A = map<<one, 4096>>(x^4096); ok = A[0] = x; tel
      |              ^^^
in node one, called at -:4:14 for index 4095
status 2
----
lbench --explain
node one(x: int) returns (y: int); let y = x; tel
node few(x: int) returns (y: int); let y = map<<one, 64>>(x^64)[0]; tel
node main(x: int) returns (ok: bool);
var A: int^64;
let A = map<<few, 64>>(x^64); ok = A[0] = x; tel => refused: E12 large
-:5:14: error: this is instance 4097; at most 4096 are built
    5 | let A = map<<few, 64>>(x^64); ok = A[0] = x; tel
      |              ^^^
in node few, called at -:5:14 for index 63
status 2
----
lbench --explain
node main(x: int) returns (ok: bool);
var a, b: int;
let a = b;
  b = a; ok = a = x; tel => refused: E13 cycle
-:3:5: error: `a` needs itself at the same instant
    3 | let a = b;
      |     ^
a (3:5) needs b (4:3), which needs a
help: `pre` or `fby` takes a value of the instant before
in node main
status 2
----
lbench --explain
node main(x: int) returns (ok: bool);
let
  ok = not ok; tel => refused: E13 cycle
-:3:3: error: `ok` needs itself at the same instant
    3 |   ok = not ok; tel
      |   ^^
ok (3:3) needs ok
help: `pre` or `fby` takes a value of the instant before
in node main
status 2
----
lbench --explain
node main(x: int) returns (ok: bool);
var A: int^3;
let A = [x, A[2], A[1]]; ok = A[0] = x; tel => refused: E13 cycle
-:3:5: error: `A[2]` needs itself at the same instant
    3 | let A = [x, A[2], A[1]]; ok = A[0] = x; tel
      |     ^
A[2] (3:5) needs A[1] (3:5), which needs A[2]
help: `pre` or `fby` takes a value of the instant before
in node main
status 2
----
lbench --explain
node main(x: int) returns (ok: bool);
var a, b, c, d, e, f: int;
let
  a = b; b = c; c = d; d = e; e = f; f = a; ok = a < x; tel => refused: E13 cycle
-:4:3: error: `a` needs itself at the same instant
    4 |   a = b; b = c; c = d; d = e; e = f; f = a; ok = a < x; tel
      |   ^
a (4:3) needs b (4:10), which needs c (4:17),
which needs d (4:24), which needs e (4:31), which needs f (4:38),
which needs a
help: `pre` or `fby` takes a value of the instant before
in node main
status 2
----
lbench --explain --node pump --observe safe
node pump(level: int) returns (open, alarm: bool);
let open = level < 9; alarm = level > 12; tel
node safe(level: int; alarm, open: bool) returns (ok: bool);
let ok = not alarm or open; tel
%traces
trace,level
calm,3 => warning: safe.alarm is pump.open
warning: safe.open is pump.alarm
calm false 0: safe.ok is false (-:4:5)
  4:10: not alarm or open with not alarm = false, open = false
  4:10: not alarm with alarm = true
  3:23: alarm is true, an input
  2:5: pump.open = level < 9 with level = 3
status 1
----
lbench --explain --node pump --observe safe
node pump(level: int) returns (open, alarm: bool);
let open = level < 9; alarm = level > 12; tel
node safe(level: int; open, alarm: bool) returns (ok: bool);
let ok = not alarm or open; tel
%traces
trace,level
calm,3 => status 0";
