//! Rows on the mistakes of newcomers in sources, who come from other languages.

/// The help for mistakes in sources.
pub const MISTAKES: &str = "\
lbench --check --explain
node main(x: int; c: bool) returns (ok: bool);
let ok = (x, c); tel => refused: E2 syntax at 2:12
-:2:12: error: expected `)` or an operator, found `,`
    2 | let ok = (x, c); tel
      |            ^
-:1:1: note: in node main, which begins here
help: there are no tuples; write an equation for each value
status 2
----
lbench --check --explain
node main(x: int; c: bool) returns (ok: bool);
let ok = x when (not c); tel => refused: E2 syntax at 2:18
-:2:18: error: expected a name, found `not`
    2 | let ok = x when (not c); tel
      |                  ^^^
-:1:1: note: in node main, which begins here
help: `when` takes a Boolean variable: `x when c`, `x when not c`
status 2
----
lbench --check --explain
node main(x: int; c: bool) returns (ok: bool);
let ok = x when (c and c); tel => refused: E2 syntax at 2:20
-:2:20: error: expected `)`, found `and`
    2 | let ok = x when (c and c); tel
      |                    ^^^
-:1:1: note: in node main, which begins here
help: `when` takes a Boolean variable: `x when c`, `x when not c`
status 2
----
lbench --check --explain
node main(x: int; c: bool) returns (ok: bool);
let ok = x when (x > 3); tel => refused: E2 syntax at 2:20
-:2:20: error: expected `)`, found `>`
    2 | let ok = x when (x > 3); tel
      |                    ^
-:1:1: note: in node main, which begins here
help: `when` takes a Boolean variable: `x when c`, `x when not c`
status 2
----
lbench --check --explain
node main(x: int; c: bool) returns (ok: bool);
let ok = x when true; tel => refused: E2 syntax at 2:17
-:2:17: error: expected `not`, a name or `(`, found `true`
    2 | let ok = x when true; tel
      |                 ^^^^
-:1:1: note: in node main, which begins here
help: `when` takes a Boolean variable: `x when c`, `x when not c`
status 2
----
lbench --check --explain
node main(x: int; c: bool) returns (ok: bool);
let ok = x when not not c; tel => refused: E2 syntax at 2:21
-:2:21: error: expected a name or `(`, found `not`
    2 | let ok = x when not not c; tel
      |                     ^^^
-:1:1: note: in node main, which begins here
help: `when` takes a Boolean variable: `x when c`, `x when not c`
status 2
----
lbench --check --explain
node main(x: int; c: bool) returns (ok: bool);
let ok = x when c(x); tel => refused: E2 syntax at 2:18
-:2:18: error: expected `;` or an operator, found `(`
    2 | let ok = x when c(x); tel
      |                  ^
-:1:1: note: in node main, which begins here
help: `when` takes a Boolean variable: `x when c`, `x when not c`
status 2
----
lbench --check --explain
node main(x: int; c: bool) returns (ok: bool);
let ok = x[(0 and 1)]; tel => refused: E2 syntax at 2:15
-:2:15: error: expected `)` or an operator of static expressions, found `and`
    2 | let ok = x[(0 and 1)]; tel
      |               ^^^
-:1:1: note: in node main, which begins here
status 2
----
lbench --check --explain
node main(x: int; c: bool) returns (ok: bool);
let ok = map<<f>>(x); tel => refused: E2 syntax at 2:16
-:2:16: error: expected `<<`, `,` or `;`, found `>>`
    2 | let ok = map<<f>>(x); tel
      |                ^^
-:1:1: note: in node main, which begins here
help: an iterator has a size: `map<<f, 3>>(A)`
status 2
----
lbench --check --explain
node main(x: int; c: bool) returns (ok: bool);
let ok = map<<f<<3>>(x); tel => refused: E2 syntax at 2:21
-:2:21: error: expected `,` or `;`, found `(`
    2 | let ok = map<<f<<3>>(x); tel
      |                     ^
-:1:1: note: in node main, which begins here
help: an iterator has a size: `map<<f, 3>>(A)`
status 2
----
lbench --check --explain
node main(x: int; c: bool) returns (ok: bool);
let ok = nor(); tel => refused: E2 syntax at 2:14
-:2:14: error: expected an expression, found `)`
    2 | let ok = nor(); tel
      |              ^
-:1:1: note: in node main, which begins here
status 2
----
lbench --check --explain
node main(x: int; c: bool) returns (ok: bool);
let ok = x =< 3; tel => refused: E2 syntax at 2:13
-:2:13: error: expected an expression, found `<`
    2 | let ok = x =< 3; tel
      |             ^
-:1:1: note: in node main, which begins here
help: less or equal is written `<=`
status 2
----
lbench --check --explain
node main(x: int; c: bool) returns (ok: bool);
let ok = x ** 2 > 3; tel => refused: E2 syntax at 2:13
-:2:13: error: expected an expression, found `*`
    2 | let ok = x ** 2 > 3; tel
      |             ^
-:1:1: note: in node main, which begins here
help: there is no power; write a product
status 2
----
lbench --check --explain
node main(x: int; c: bool) returns (ok: bool);
let ok = c and then c; tel => refused: E2 syntax at 2:16
-:2:16: error: expected an expression, found `then`
    2 | let ok = c and then c; tel
      |                ^^^^
-:1:1: note: in node main, which begins here
help: write `and`; both of its sides are evaluated
status 2
----
lbench --check --explain
node main(x: int; c: bool) returns (ok: bool);
let ok = c implies c; tel => refused: E2 syntax at 2:12
-:2:12: error: expected `;` or an operator, found `implies`
    2 | let ok = c implies c; tel
      |            ^^^^^^^
-:1:1: note: in node main, which begins here
help: implication is written `=>`
status 2
----
lbench --check --explain
node main(x: int; c: bool) returns (ok: bool);
let ok = x rem 2 = 0; tel => refused: E2 syntax at 2:12
-:2:12: error: expected `;` or an operator, found `rem`
    2 | let ok = x rem 2 = 0; tel
      |            ^^^
-:1:1: note: in node main, which begins here
help: the remainder is written `mod`
status 2
----
lbench --check --explain
node main(x: int; c: bool) returns (ok: bool);
let ok = x >> 2 > 0; tel => refused: E2 syntax at 2:12
-:2:12: error: expected `;` or an operator, found `>>`
    2 | let ok = x >> 2 > 0; tel
      |            ^^
-:1:1: note: in node main, which begins here
help: there are no shifts; multiply or divide
status 2
----
lbench --check --explain
node main(x: int; c: bool) returns (ok: bool);
let ok = x < +3; tel => refused: E2 syntax at 2:14
-:2:14: error: expected an expression, found `+`
    2 | let ok = x < +3; tel
      |              ^
-:1:1: note: in node main, which begins here
help: a number has no `+` before it
status 2
----
lbench --check --explain
node main(x: int; c: bool) returns (ok: bool);
let ok = x < .5; tel => refused: E2 syntax at 2:14
-:2:14: error: expected an expression, found `.`
    2 | let ok = x < .5; tel
      |              ^
-:1:1: note: in node main, which begins here
help: real numbers are not in the language; scale them to int
status 2
----
lbench --check --explain
node main(x: int; c: bool) returns (ok: bool);
let ok = x < 0x10; tel => refused: E2 syntax at 2:15
-:2:15: error: expected `;` or an operator, found `x10`
    2 | let ok = x < 0x10; tel
      |               ^^^
-:1:1: note: in node main, which begins here
help: a number has decimal digits alone
status 2
----
lbench --check --explain
node main(x: int; c: bool) returns (ok: bool);
let ok = int(c) < 3; tel => refused: E2 syntax at 2:10
-:2:10: error: expected an expression, found `int`
    2 | let ok = int(c) < 3; tel
      |          ^^^
-:1:1: note: in node main, which begins here
help: `if b then 1 else 0` makes an int of a bool
status 2
----
lbench --check --explain
node main(x: int; c: bool) returns (ok: bool);
let ok = fby(x; 1; 0) < 3; tel => refused: E2 syntax at 2:10
-:2:10: error: expected an expression, found `fby`
    2 | let ok = fby(x; 1; 0) < 3; tel
      |          ^^^
-:1:1: note: in node main, which begins here
help: `fby` stands between two values: `0 fby x`
status 2
----
lbench --check --explain
node main(x: int; c: bool) returns (ok: bool);
let ok = (restart f every c)(x); tel => refused: E2 syntax at 2:19
-:2:19: error: expected `)` or an operator, found `f`
    2 | let ok = (restart f every c)(x); tel
      |                   ^
-:1:1: note: in node main, which begins here
help: restart is not in the language; give the node an input for the reset
status 2
----
lbench --check --explain
node main(x: int; c: bool) returns (ok: bool);
let ok <- c; tel => refused: E2 syntax at 2:8
-:2:8: error: expected `,` or `=`, found `<`
    2 | let ok <- c; tel
      |        ^
-:1:1: note: in node main, which begins here
help: an equation is written `x = e;`
status 2
----
lbench --check --explain
node main(x: int; c: bool) returns (ok: bool);
let ok += 1; tel => refused: E2 syntax at 2:8
-:2:8: error: expected `,` or `=`, found `+`
    2 | let ok += 1; tel
      |        ^
-:1:1: note: in node main, which begins here
help: an equation is written `x = e;`
status 2
----
lbench --check --explain
node main(x: int; c: bool) returns (ok: bool);
let return c; tel => refused: E2 syntax at 2:12
-:2:12: error: expected `,` or `=`, found `c`
    2 | let return c; tel
      |            ^
-:1:1: note: in node main, which begins here
help: an output has its value from an equation: `ok = e;`
status 2
----
lbench --check --explain
node main(x: int; c: bool) returns (ok: bool);
let while c do ok = c; tel => refused: E2 syntax at 2:11
-:2:11: error: expected `,` or `=`, found `c`
    2 | let while c do ok = c; tel
      |           ^
-:1:1: note: in node main, which begins here
help: there are no loops; map, red and fill run over arrays
status 2
----
lbench --check --explain
node main(x: int; c: bool) returns (ok: bool);
let ok = case x of 1; tel => refused: E2 syntax at 2:15
-:2:15: error: expected `;` or an operator, found `x`
    2 | let ok = case x of 1; tel
      |               ^
-:1:1: note: in node main, which begins here
help: `if` chooses a value: `if c then a else b`
status 2
----
lbench --check --explain
node main(x: int; c: bool) returns (ok: bool);
let ok = if c then c; tel => refused: E2 syntax at 2:21
-:2:21: error: expected `else` or an operator, found `;`
    2 | let ok = if c then c; tel
      |                     ^
-:1:1: note: in node main, which begins here
help: `if` has a value in both cases: `if c then a else b`
status 2
----
lbench --check --explain
node main(x: int; c: bool) returns (ok: bool);
let ok = if c then c else c fi; tel => refused: E2 syntax at 2:29
-:2:29: error: expected `;` or an operator, found `fi`
    2 | let ok = if c then c else c fi; tel
      |                             ^^
-:1:1: note: in node main, which begins here
help: no word ends an `if`
status 2
----
lbench --check --explain
node main(x: int; c: bool) returns (ok: bool);
let var y: int; ok = c; tel => refused: E2 syntax at 2:5
-:2:5: error: expected a name, `(`, `assert` or `tel`, found `var`
    2 | let var y: int; ok = c; tel
      |     ^^^
-:1:1: note: in node main, which begins here
help: locals are declared before let: `var x: int;`
status 2
----
lbench --check --explain
node main(x: int; c: bool) returns (ok: bool);
let
  ok = c
  assert c;
tel => refused: E2 syntax at 4:3
-:4:3: error: expected `;` or an operator, found `assert`
    4 |   assert c;
      |   ^^^^^^
-:1:1: note: in node main, which begins here
help: a `;` may be missing at the end of the line above
status 2
----
lbench --check --explain
node main(x: int; c: bool) returns (ok: bool);
var y: int
let ok = c; tel => refused: E2 syntax at 3:1
-:3:1: error: expected `^`, `when` or `;`, found `let`
    3 | let ok = c; tel
      | ^^^
-:1:1: note: in node main, which begins here
help: a `;` may be missing at the end of the line above
status 2
----
lbench --check --explain
node main(x: int; c: bool) returns (ok: bool);
ok = c; tel => refused: E2 syntax at 2:1
-:2:1: error: expected `var` or `let`, found `ok`
    2 | ok = c; tel
      | ^^
-:1:1: note: in node main, which begins here
help: the equations of a node begin with let
status 2
----
lbench --check --explain
node main(x: int; c: bool) returns (ok: bool);
let ok = c;
node other(x: int) returns (y: int); => refused: E2 syntax at 3:1
-:3:1: error: expected a name, `(`, `assert` or `tel`, found `node`
    3 | node other(x: int) returns (y: int);
      | ^^^^
-:1:1: note: in node main, which begins here
help: the equations of a node end with tel
status 2
----
lbench --check --explain
node main(int x) returns (ok: bool); => refused: E2 syntax at 1:11
-:1:11: error: expected a name or `)`, found `int`
    1 | node main(int x) returns (ok: bool);
      |           ^^^
-:1:1: note: in node main, which begins here
help: a type stands behind the name: `x: int`
status 2
----
lbench --check --explain
node main(x: int; c: bool) returns (ok: bool);
var y: int = 3; => refused: E2 syntax at 2:12
-:2:12: error: expected `^`, `when` or `;`, found `=`
    2 | var y: int = 3;
      |            ^
-:1:1: note: in node main, which begins here
help: a variable has its value from an equation behind let: `x = e;`
status 2
----
lbench --check --explain
node main(x: int; c: bool) returns (ok: bool);
var y: int; y = 3; => refused: E2 syntax at 2:15
-:2:15: error: expected `,` or `:`, found `=`
    2 | var y: int; y = 3;
      |               ^
-:1:1: note: in node main, which begins here
help: equations stand between let and tel
status 2
----
lbench --check --explain
const debug = true;
node main(x: int; c: bool) returns (ok: bool); => refused: E2 syntax at 1:15
-:1:15: error: expected a number, a name, `-` or `(`, found `true`
    1 | const debug = true;
      |               ^^^^
help: constants and static values are int; write `true` or `false` itself
status 2
----
lbench --check --explain
node main(x: int; c: bool) returns (ok: bool);
// a comment
let ok = c; tel => refused: E2 syntax at 2:1
-:2:1: error: expected `var` or `let`, found `/`
    2 | // a comment
      | ^
-:1:1: note: in node main, which begins here
help: a comment is written `-- ..` or `(* .. *)`
status 2
----
lbench --check --explain
trace,x,c
a,1,1 => refused: E2 syntax at 1:1
-:1:1: error: expected `const`, `node`, `function` or the end of the text, found `trace`
    1 | trace,x,c
      | ^^^^^
help: these are traces; a source comes first, then its traces
status 2
----
lbench --check --explain
node main(x: int; c: bool) returns (ok: bool);
let ok = c ? c : c; tel => refused: E1 character at 2:12
-:2:12: error: `?` begins no token
    2 | let ok = c ? c : c; tel
      |            ^
help: `if` chooses a value: `if c then a else b`
status 2
----
lbench --check --explain
node main(x: int; c: bool) returns (ok: bool);
let ok = last 'x > 3; tel => refused: E1 character at 2:15
-:2:15: error: `'` begins no token
    2 | let ok = last 'x > 3; tel
      |               ^
help: last is not in the language; write `first -> pre x`
status 2
----
lbench --check --explain
node main(x: int; c: bool) returns (ok: bool);
let ok = c and TRUE; tel => refused: E4 name
-:2:16: error: no variable, static parameter or constant is named `TRUE`
    2 | let ok = c and TRUE; tel
      |                ^^^^
help: `true` and `false` are written in small letters
in node main
status 2
----
lbench --check --explain
const n = 3;
node main(x: int; c: bool) returns (ok: bool);
var n: int; A: int^n;
let n = x; A = x^3; ok = A[0] < n; tel => refused: E4 name
-:3:20: error: no static parameter or constant is named `n`
    3 | var n: int; A: int^n;
      |                    ^
help: `n` is a variable of this node, and hides the constant in all of it; give one of them another name
in node main
status 2
----
lbench --check --explain
node main(x: int; c: bool) returns (ok: bool);
var A: int^3;
let A = x^3; ok = A[x] < 3; tel => refused: E4 name
-:3:21: error: no static parameter or constant is named `x`
    3 | let A = x^3; ok = A[x] < 3; tel
      |                     ^
help: `x` is a variable of this node; a size, an index or a static argument has no variable
in node main
status 2
----
lbench --check --explain
const m = 3;
node main(x: int; c: bool) returns (ok: bool);
var A: int^n;
let A = x^3; ok = c; tel => refused: E4 name
-:3:12: error: no static parameter or constant is named `n`
    3 | var A: int^n;
      |            ^
in node main
status 2
----
lbench --check --explain
node main(x: int; c: bool) returns (ok: bool);
let y = x; ok = y < 3; tel => refused: E4 name
-:2:5: error: no variable is named `y`
    2 | let y = x; ok = y < 3; tel
      |     ^
help: a local is declared before let, by `var y: int;` or `: bool;`
in node main
status 2
----
lbench --check --explain
node main(x: int; c: bool) returns (ok: bool);
let ok = x ^ 2 < 9; tel => refused: E9 type
-:2:10: error: `<` wants int, this is int^2
    2 | let ok = x ^ 2 < 9; tel
      |          ^
help: `^` makes an array; a power is written as a product, `x * x`
in node main
status 2
----
lbench --check --explain
node main(x: int; c: bool) returns (ok: bool);
let ok = (x when x > 3) > 3; tel => refused: E9 type
-:2:18: error: the variable of a clock is bool, this is int
    2 | let ok = (x when x > 3) > 3; tel
      |                  ^
help: give the condition a variable of its own: `c = ..`, and then `when c`
in node main
status 2
----
lbench --check --explain
node main(x: int; c: bool) returns (ok: bool);
let ok = current x < 3; tel => refused: E10 clock
-:2:18: error: `current` takes what is on the clock of a variable; this is on the base clock
    2 | let ok = current x < 3; tel
      |                  ^
-:1:11: note: `x` is declared here, on the base clock
help: what is on the base clock has a value at each instant; leave out `current`
in node main
status 2";
