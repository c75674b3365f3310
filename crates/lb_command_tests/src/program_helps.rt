//! Rows on the explanations of common mistakes in programs.

/// The explanations of common mistakes in names, sizes, types, clocks and definitions.
pub const PROGRAM_HELPS: &str = "\
lbench --explain
node main(x: int^M) returns (ok: bool);
let ok = true; tel => refused: E4 name
-:1:18: error: no static parameter or constant is named `M`
    1 | node main(x: int^M) returns (ok: bool);
      |                  ^
in node main
status 2
----
lbench --explain
node main(x: int) returns (ok: bool);
var y: int when c;
let y = x; ok = true; tel => refused: E4 name
-:2:17: error: no variable is named `c`
    2 | var y: int when c;
      |                 ^
in node main
status 2
----
lbench --explain
node main(x: int) returns (ok: bool);
let ok = true; y = x; tel => refused: E4 name
-:2:16: error: no variable is named `y`
    2 | let ok = true; y = x; tel
      |                ^
help: a local is declared before let, by `var y: int;` or `: bool;`
in node main
status 2
----
lbench --explain
node main(x: int) returns (ok: bool);
var A: int^4096^17;
let A = x^4096^17; ok = true; tel => refused: E6 range
-:2:5: error: `A` has more than 65536 elements
    2 | var A: int^4096^17;
      |     ^
in node main
status 2
----
lbench --explain
node main<<const n: int>>(x: int) returns (ok: bool);
let ok = x < n; tel => refused: E8 root
-:1:18: error: main, the node under test, has the static parameter `n`, and may have none
    1 | node main<<const n: int>>(x: int) returns (ok: bool);
      |                  ^
status 2
----
lbench --explain
node main(x: int) returns (ok: int);
let ok = x; tel => refused: E8 root
-:1:28: error: main, the node under test, has an output `ok` that is no bool, as a property is
    1 | node main(x: int) returns (ok: int);
      |                            ^^
status 2
----
lbench --explain
node main(c: bool; x: int when c) returns (ok: bool);
let ok = c; tel => refused: E8 root
-:1:20: error: main, the node under test, has `x` on a clock; its inputs and outputs have none
    1 | node main(c: bool; x: int when c) returns (ok: bool);
      |                    ^
status 2
----
lbench --explain
node main(x: int^1024) returns (ok: bool);
let ok = true; tel => refused: E8 root
-:1:11: error: main, the node under test, has more than 1023 scalar inputs, counted up to `x`
    1 | node main(x: int^1024) returns (ok: bool);
      |           ^
status 2
----
lbench --observe safe --explain
node main(x: int) returns (y: int); let y = x; tel
node safe(x, y, z: int) returns (ok: bool); let ok = x < y; tel => refused: E8 root
-:2:17: error: safe, the observer, has an input `z` to which nothing is wired
    2 | node safe(x, y, z: int) returns (ok: bool); let ok = x < y; tel
      |                 ^
help: an observer takes the inputs and then the outputs of the node under test
status 2
----
lbench --explain
node g(x: int) returns (y, z: int); let y = x; z = x; tel
node main(x: int) returns (ok: bool);
let ok = g(x) < 1; tel => refused: E9 type
-:3:10: error: one result is wanted, this has 2 results
    3 | let ok = g(x) < 1; tel
      |          ^
in node main
status 2
----
lbench --explain
node g(x: int) returns (y, z: int); let y = x; z = x; tel
node main(x: int) returns (ok: bool);
var a, b, c: int;
let (a, b, c) = g(x); ok = true; tel => refused: E9 type
-:4:6: error: 3 variables on the left, 2 results on the right
    4 | let (a, b, c) = g(x); ok = true; tel
      |      ^
in node main
status 2
----
lbench --explain
node main(x: int) returns (ok: bool);
let assert x; ok = true; tel => refused: E9 type
-:2:12: error: an assertion is bool, this is int
    2 | let assert x; ok = true; tel
      |            ^
in node main
status 2
----
lbench --explain
node main(x: int) returns (ok: bool);
let ok = current (true when x); tel => refused: E9 type
-:2:29: error: the variable of a clock is bool, this is int
    2 | let ok = current (true when x); tel
      |                             ^
help: give the condition a variable of its own: `c = ..`, and then `when c`
in node main
status 2
----
lbench --explain
node main(x: int) returns (ok: bool);
let ok = if true then x else false; tel => refused: E9 type
-:2:30: error: `if` wants int, this is bool
    2 | let ok = if true then x else false; tel
      |                              ^^^^^
in node main
status 2
----
lbench --explain
node f(x: int) returns (y: int); let y = x; tel
node main(x: int) returns (ok: bool);
let ok = f(true) < x; tel => refused: E9 type
-:3:12: error: argument 1: int is wanted, this is bool
    3 | let ok = f(true) < x; tel
      |            ^^^^
in node main
status 2
----
lbench --explain
node f(x: int) returns (y: int); let y = x; tel
node main(x: int) returns (ok: bool);
let ok = f(x, x) < x; tel => refused: E9 type
-:3:10: error: 2 arguments are given, 1 is wanted
    3 | let ok = f(x, x) < x; tel
      |          ^
in node main
status 2
----
lbench --explain
node f(x: int) returns (y: int); let y = x; tel
node main(x: int) returns (ok: bool);
var a: int; A: int^3;
let (a, A) = fill<<f, 3>>(x); ok = true; tel => refused: E9 type
-:4:14: error: this node does not fit its iterator
    4 | let (a, A) = fill<<f, 3>>(x); ok = true; tel
      |              ^^^^
help: `fill` wants one input, an output of its type, and further outputs
in node main
status 2
----
lbench --explain
node main(x: int) returns (ok: bool);
let ok = (x | [1])[0] < 1; tel => refused: E9 type
-:2:11: error: `|` wants arrays of one type, this is int
    2 | let ok = (x | [1])[0] < 1; tel
      |           ^
in node main
status 2
----
lbench --explain
node f(c: bool when d; d: bool when c) returns (y: int); let y = 1; tel
node main(x: int) returns (ok: bool);
let ok = f(true, true) < x; tel => refused: E10 clock
-:1:21: error: this declared clock depends on itself
    1 | node f(c: bool when d; d: bool when c) returns (y: int); let y = 1; tel
      |                     ^
in node f, called at -:3:10
status 2
----
lbench --explain
node f(c: bool; x: int when c) returns (y: int when c); let y = x; tel
node main(c: bool; x: int) returns (ok: bool);
let ok = current f(not c, x when c) < 1; tel => refused: E10 clock
-:3:20: error: argument 1 is the clock of another one, and has to be a variable
    3 | let ok = current f(not c, x when c) < 1; tel
      |                    ^^^
-:1:8: note: the input `c` of f is declared here
in node main
status 2
----
lbench --explain
node main(x: int) returns (ok: bool);
let ok = current x < 1; tel => refused: E10 clock
-:2:18: error: `current` takes what is on the clock of a variable; this is on the base clock
    2 | let ok = current x < 1; tel
      |                  ^
-:1:11: note: `x` is declared here, on the base clock
help: what is on the base clock has a value at each instant; leave out `current`
in node main
status 2
----
lbench --explain
node g(x: int) returns (y: int); let y = pre x; tel
function f(x: int) returns (y: int); let y = g(x); tel
node main(x: int) returns (ok: bool);
let ok = f(x) < 1; tel => refused: E11 definition
-:2:46: error: a function calls functions alone, and `g` is a node
    2 | function f(x: int) returns (y: int); let y = g(x); tel
      |                                              ^
help: declare it by `node` instead of `function`
in node f, called at -:4:10
status 2";
