//! Rows on the explanations of common mistakes in texts.

/// The tokens that could stand where one is refused, and the help for common mistakes in sources
/// and traces.
pub const HELPS: &str = "\
lbench --explain
node main(x: int) returns (ok: bool);
let ok = not !(x < 1); tel => refused: E1 character at 2:14
-:2:14: error: `!` begins no token
    2 | let ok = not !(x < 1); tel
      |              ^
help: negation is written `not`
status 2
----
lbench --explain
node main(x: int) returns (ok: bool);
let ok = x % 2 = 0; tel => refused: E1 character at 2:12
-:2:12: error: `%` begins no token
    2 | let ok = x % 2 = 0; tel
      |            ^
help: the remainder is written `mod`
status 2
----
lbench --explain
node main(x: int) returns (ok: bool);
let ok = x < 1 && x > 2; tel => refused: E1 character at 2:16
-:2:16: error: `&` begins no token
    2 | let ok = x < 1 && x > 2; tel
      |                ^^
help: conjunction is written `and`
status 2
----
lbench --explain
node main(x: int) returns (ok: bool);
let ok = x = 'a'; tel => refused: E1 character at 2:14
-:2:14: error: `'` begins no token
    2 | let ok = x = 'a'; tel
      |              ^
help: there are no strings and no includes in the language
status 2
----
lbench --explain
node main(x: int) returns (ok: bool);
let ok = x < 1; } tel => refused: E1 character at 2:17
-:2:17: error: `}` begins no token
    2 | let ok = x < 1; } tel
      |                 ^
help: structures, enumerations and blocks are not in the language
status 2
----
lbench --explain
node main(x: int) returns (ok: bool);
let ok = ~x < 1; tel => refused: E1 character at 2:10
-:2:10: error: `~` begins no token
    2 | let ok = ~x < 1; tel
      |          ^
help: negation is written `not`, and the sign of a number `-`
status 2
----
lbench --explain
node main(x: int) returns (ok: bool);
let ok = $x < 1; tel => refused: E1 character at 2:10
-:2:10: error: `$` begins no token
    2 | let ok = $x < 1; tel
      |          ^
help: names have letters, digits and `_`
status 2
----
lbench --explain
node main(x: integer) returns (ok: bool);
let ok = true; tel => refused: E2 syntax at 1:14
-:1:14: error: expected `int` or `bool`, found `integer`
    1 | node main(x: integer) returns (ok: bool);
      |              ^^^^^^^
-:1:1: note: in node main, which begins here
help: write int
status 2
----
lbench --explain
node main(x: boolean) returns (ok: bool);
let ok = true; tel => refused: E2 syntax at 1:14
-:1:14: error: expected `int` or `bool`, found `boolean`
    1 | node main(x: boolean) returns (ok: bool);
      |              ^^^^^^^
-:1:1: note: in node main, which begins here
help: write bool
status 2
----
lbench --explain
node main(x: float) returns (ok: bool);
let ok = true; tel => refused: E2 syntax at 1:14
-:1:14: error: expected `int` or `bool`, found `float`
    1 | node main(x: float) returns (ok: bool);
      |              ^^^^^
-:1:1: note: in node main, which begins here
help: real numbers are not in the language; scale them to int
status 2
----
lbench --explain
node main(x: int) return (ok: bool);
let ok = true; tel => refused: E2 syntax at 1:19
-:1:19: error: expected `returns`, found `return`
    1 | node main(x: int) return (ok: bool);
      |                   ^^^^^^
-:1:1: note: in node main, which begins here
help: write returns
status 2
----
lbench --explain
node main(x: int) returns (ok: bool);
vars y: int;
let ok = true; tel => refused: E2 syntax at 2:1
-:2:1: error: expected `var` or `let`, found `vars`
    2 | vars y: int;
      | ^^^^
-:1:1: note: in node main, which begins here
help: write var
status 2
----
lbench --explain
node main(x: int) returns (ok: bool)
begin ok = true; tel => refused: E2 syntax at 2:1
-:2:1: error: expected `;`, `var` or `let`, found `begin`
    2 | begin ok = true; tel
      | ^^^^^
-:1:1: note: in node main, which begins here
help: the equations of a node begin with let
status 2
----
lbench --explain
enum t;
node main(x: int) returns (ok: bool);
let ok = true; tel => refused: E2 syntax at 1:1
-:1:1: error: expected `const`, `node`, `function` or the end of the text, found `enum`
    1 | enum t;
      | ^^^^
help: enumerations are not in the language; use bool or int with constants
status 2
----
lbench --explain
struct t;
node main(x: int) returns (ok: bool);
let ok = true; tel => refused: E2 syntax at 1:1
-:1:1: error: expected `const`, `node`, `function` or the end of the text, found `struct`
    1 | struct t;
      | ^^^^^^
help: structures are not in the language; use several variables, or an array
status 2
----
lbench --explain
package p;
node main(x: int) returns (ok: bool);
let ok = true; tel => refused: E2 syntax at 1:1
-:1:1: error: expected `const`, `node`, `function` or the end of the text, found `package`
    1 | package p;
      | ^^^^^^^
help: packages are not in the language
status 2
----
lbench --explain
extern node main(x: int) returns (ok: bool);
let ok = true; tel => refused: E2 syntax at 1:1
-:1:1: error: expected `const`, `node`, `function` or the end of the text, found `extern`
    1 | extern node main(x: int) returns (ok: bool);
      | ^^^^^^
help: external nodes are not in the language
status 2
----
lbench --explain
node main(x: int) returns (ok: bool);
let ok = true; tel;
end => refused: E2 syntax at 3:1
-:3:1: error: expected `const`, `node`, `function` or the end of the text, found `end`
    3 | end
      | ^^^
help: the equations of a node end with tel
status 2
----
lbench --explain
node main(x: int) returns (ok: bool);
let ok = x == 1; tel => refused: E2 syntax at 2:13
-:2:13: error: expected an expression, found `=`
    2 | let ok = x == 1; tel
      |             ^
-:1:1: note: in node main, which begins here
help: equality is written `=`
status 2
----
lbench --explain
node main(x: int) returns (ok: bool);
let ok = x /= 1; tel => refused: E2 syntax at 2:13
-:2:13: error: expected an expression, found `=`
    2 | let ok = x /= 1; tel
      |             ^
-:1:1: note: in node main, which begins here
help: unequal is written `<>`
status 2
----
lbench --explain
node main(x: int) returns (ok: bool);
let ok : x < 1; tel => refused: E2 syntax at 2:8
-:2:8: error: expected `,` or `=`, found `:`
    2 | let ok : x < 1; tel
      |        ^
-:1:1: note: in node main, which begins here
help: an equation is written `x = e;`
status 2
----
lbench --explain
node main(x: int) returns (ok: bool);
const N = 3;
let ok = x < N; tel => refused: E2 syntax at 2:1
-:2:1: error: expected `var` or `let`, found `const`
    2 | const N = 3;
      | ^^^^^
-:1:1: note: in node main, which begins here
help: constants are declared outside of nodes
status 2
----
lbench --explain
node main(x: int) returns (ok: bool);
let ok = x.y < 1; tel => refused: E2 syntax at 2:11
-:2:11: error: expected `;` or an operator, found `.`
    2 | let ok = x.y < 1; tel
      |           ^
-:1:1: note: in node main, which begins here
help: structures are not in the language
status 2
----
lbench --explain
node main(x: int) returns (ok: bool);
let if x < 1 then ok = true; tel => refused: E2 syntax at 2:5
-:2:5: error: expected a name, `(`, `assert` or `tel`, found `if`
    2 | let if x < 1 then ok = true; tel
      |     ^^
-:1:1: note: in node main, which begins here
help: `if` chooses a value: `x = if c then a else b;`
status 2
----
lbench --explain
node main(x, y: int, z: int) returns (ok: bool);
let ok = true; tel => refused: E2 syntax at 1:20
-:1:20: error: expected `^`, `when`, `;` or `)`, found `,`
    1 | node main(x, y: int, z: int) returns (ok: bool);
      |                    ^
-:1:1: note: in node main, which begins here
help: variables of one type are parted by `,`, and others by `;`
status 2
----
lbench --explain
node main(x: int) returns (ok: bool);
var A: int^2;
let A[0] = 1; ok = true; tel => refused: E2 syntax at 3:6
-:3:6: error: expected `,` or `=`, found `[`
    3 | let A[0] = 1; ok = true; tel
      |      ^
-:1:1: note: in node main, which begins here
help: an equation defines a whole array: `x = [a, b];`
status 2
----
lbench --explain
node main(x: int) returns (ok: bool);
var y int;
let ok = true; tel => refused: E2 syntax at 2:7
-:2:7: error: expected `,` or `:`, found `int`
    2 | var y int;
      |       ^^^
-:1:1: note: in node main, which begins here
help: a type stands behind the name: `x: int`
status 2
----
lbench --explain
node main(x: int) returns (ok: bool);
var y: int z: int;
let ok = true; tel => refused: E2 syntax at 2:12
-:2:12: error: expected `^`, `when` or `;`, found `z`
    2 | var y: int z: int;
      |            ^
-:1:1: note: in node main, which begins here
status 2
----
lbench --explain
node main(x: int when) returns (ok: bool);
let ok = true; tel => refused: E2 syntax at 1:22
-:1:22: error: expected `not`, a name or `(`, found `)`
    1 | node main(x: int when) returns (ok: bool);
      |                      ^
-:1:1: note: in node main, which begins here
help: `when` takes a Boolean variable: `x when c`, `x when not c`
status 2
----
lbench --explain
node main(x: int^) returns (ok: bool);
let ok = true; tel => refused: E2 syntax at 1:18
-:1:18: error: expected a number, a name or `(`, found `)`
    1 | node main(x: int^) returns (ok: bool);
      |                  ^
-:1:1: note: in node main, which begins here
status 2
----
lbench --explain
node main(x: int;; y: int) returns (ok: bool);
let ok = true; tel => refused: E2 syntax at 1:18
-:1:18: error: expected a name or `)`, found `;`
    1 | node main(x: int;; y: int) returns (ok: bool);
      |                  ^
-:1:1: note: in node main, which begins here
status 2
----
lbench --explain
node main[x: int] returns (ok: bool);
let ok = true; tel => refused: E2 syntax at 1:10
-:1:10: error: expected `<<` or `(`, found `[`
    1 | node main[x: int] returns (ok: bool);
      |          ^
-:1:1: note: in node main, which begins here
status 2
----
lbench --explain
node main<<n: int>>(x: int) returns (ok: bool);
let ok = true; tel => refused: E2 syntax at 1:12
-:1:12: error: expected `const`, found `n`
    1 | node main<<n: int>>(x: int) returns (ok: bool);
      |            ^
-:1:1: note: in node main, which begins here
status 2
----
lbench --explain
node main<<const n>>(x: int) returns (ok: bool);
let ok = true; tel => refused: E2 syntax at 1:19
-:1:19: error: expected `:`, found `>>`
    1 | node main<<const n>>(x: int) returns (ok: bool);
      |                   ^^
-:1:1: note: in node main, which begins here
status 2
----
lbench --explain
node main<<const n: int)(x: int) returns (ok: bool);
let ok = true; tel => refused: E2 syntax at 1:24
-:1:24: error: expected `,`, `;` or `>>`, found `)`
    1 | node main<<const n: int)(x: int) returns (ok: bool);
      |                        ^
-:1:1: note: in node main, which begins here
status 2
----
lbench --explain
const N 3;
node main(x: int) returns (ok: bool);
let ok = x < N; tel => refused: E2 syntax at 1:9
-:1:9: error: expected `:` or `=`, found `3`
    1 | const N 3;
      |         ^
status 2
----
lbench --explain
const N = 3 + ;
node main(x: int) returns (ok: bool);
let ok = x < N; tel => refused: E2 syntax at 1:15
-:1:15: error: expected a number, a name, `-` or `(`, found `;`
    1 | const N = 3 + ;
      |               ^
status 2
----
lbench --explain
const N = 3 4;
node main(x: int) returns (ok: bool);
let ok = x < N; tel => refused: E2 syntax at 1:13
-:1:13: error: expected `;` or an operator of static expressions, found `4`
    1 | const N = 3 4;
      |             ^
status 2
----
lbench --explain
const N = (3;
node main(x: int) returns (ok: bool);
let ok = x < N; tel => refused: E2 syntax at 1:13
-:1:13: error: expected `)` or an operator of static expressions, found `;`
    1 | const N = (3;
      |             ^
status 2
----
lbench --explain
node main(x: int) returns (ok: bool);
let ok = (x < 1; tel => refused: E2 syntax at 2:16
-:2:16: error: expected `)` or an operator, found `;`
    2 | let ok = (x < 1; tel
      |                ^
-:1:1: note: in node main, which begins here
status 2
----
lbench --explain
node main(x: int) returns (ok: bool);
let ok = [x, 1; tel => refused: E2 syntax at 2:15
-:2:15: error: expected `,`, `]` or an operator, found `;`
    2 | let ok = [x, 1; tel
      |               ^
-:1:1: note: in node main, which begins here
status 2
----
lbench --explain
node main(x: int) returns (ok: bool);
let ok = x[1; tel => refused: E2 syntax at 2:13
-:2:13: error: expected `]`, `..` or an operator of static expressions, found `;`
    2 | let ok = x[1; tel
      |             ^
-:1:1: note: in node main, which begins here
status 2
----
lbench --explain
node main(x: int) returns (ok: bool);
let ok = if x < 1 else true; tel => refused: E2 syntax at 2:19
-:2:19: error: expected `then` or an operator, found `else`
    2 | let ok = if x < 1 else true; tel
      |                   ^^^^
-:1:1: note: in node main, which begins here
status 2
----
lbench --explain
node main(x: int) returns (ok: bool);
let ok = map<<, 3>>(x); tel => refused: E2 syntax at 2:15
-:2:15: error: expected a name, `+`, `-`, `*`, `and`, `or` or `xor`, found `,`
    2 | let ok = map<<, 3>>(x); tel
      |               ^
-:1:1: note: in node main, which begins here
status 2
----
lbench --explain
node main(x: int) returns (ok: bool);
let ok = f(x, ; tel => refused: E2 syntax at 2:15
-:2:15: error: expected an expression, found `;`
    2 | let ok = f(x, ; tel
      |               ^
-:1:1: note: in node main, which begins here
status 2
----
lbench --explain
node main(x: int) returns (ok: bool);
let ok = x when ; tel => refused: E2 syntax at 2:17
-:2:17: error: expected `not`, a name or `(`, found `;`
    2 | let ok = x when ; tel
      |                 ^
-:1:1: note: in node main, which begins here
help: `when` takes a Boolean variable: `x when c`, `x when not c`
status 2
----
lbench --explain
node main(x: int) returns (ok: bool);
let (ok; y) = f(x); tel => refused: E2 syntax at 2:8
-:2:8: error: expected `,` or `)`, found `;`
    2 | let (ok; y) = f(x); tel
      |        ^
-:1:1: note: in node main, which begins here
status 2
----
lbench --explain
node main(x: int) returns (ok: bool);
let ok = x^; tel => refused: E2 syntax at 2:12
-:2:12: error: expected a number, a name or `(`, found `;`
    2 | let ok = x^; tel
      |            ^
-:1:1: note: in node main, which begins here
status 2
----
lbench --explain
node main(open: bool; n: int) returns (ok: bool);
let ok = open or n < 3; tel
%traces
trace,n,open
a,2147483648,1 => refused: E16 cell
-:5:3: error: column `n` is int, and `2147483648` is no value of it
    5 | a,2147483648,1
      |   ^^^^^^^^^^
help: an int is from -2147483648 to 2147483647
in trace `a`, instant 0, record 1
status 2
----
lbench --explain
node main(open: bool; n: int) returns (ok: bool);
let ok = open or n < 3; tel
%traces
trace,n,open
a,-2147483649,1 => refused: E16 cell
-:5:3: error: column `n` is int, and `-2147483649` is no value of it
    5 | a,-2147483649,1
      |   ^^^^^^^^^^^
help: an int is from -2147483648 to 2147483647
in trace `a`, instant 0, record 1
status 2
----
lbench --explain
node main(open: bool; n: int) returns (ok: bool);
let ok = open or n < 3; tel
%traces
trace,n,open
a,0x1F,1 => refused: E16 cell
-:5:3: error: column `n` is int, and `0x1F` is no value of it
    5 | a,0x1F,1
      |   ^^^^
help: write the number in decimal digits
in trace `a`, instant 0, record 1
status 2
----
lbench --explain
node main(open: bool; n: int) returns (ok: bool);
let ok = open or n < 3; tel
%traces
trace,n,open
a,1e3,1 => refused: E16 cell
-:5:3: error: column `n` is int, and `1e3` is no value of it
    5 | a,1e3,1
      |   ^^^
help: write the number without an exponent
in trace `a`, instant 0, record 1
status 2
----
lbench --explain
node main(open: bool; n: int) returns (ok: bool);
let ok = open or n < 3; tel
%traces
trace,n,open
a,true,1 => refused: E16 cell
-:5:3: error: column `n` is int, and `true` is no value of it
    5 | a,true,1
      |   ^^^^
help: this column is of int; write 1 or 0
in trace `a`, instant 0, record 1
status 2
----
lbench --explain
node main(open: bool; n: int) returns (ok: bool);
let ok = open or n < 3; tel
%traces
trace,n,open
a,1,False => refused: E16 cell
-:5:5: error: column `open` is bool, and `False` is no value of it
    5 | a,1,False
      |     ^^^^^
help: write `false`, in small letters, or 0
in trace `a`, instant 0, record 1
status 2
----
lbench --explain
node main(open: bool; n: int) returns (ok: bool);
let ok = open or n < 3; tel
%traces
trace,n,open
a,1, => refused: E16 cell
-:5:5: error: column `open` is bool, and an empty cell is no value of it
    5 | a,1,
      |     ^
help: an empty cell is no value; write 0, 1, false or true
in trace `a`, instant 0, record 1
status 2
----
lbench --explain
node main(open: bool; n: int) returns (ok: bool);
let ok = open or n < 3; tel
%traces
trace,n,open
a,1,yes => refused: E16 cell
-:5:5: error: column `open` is bool, and `yes` is no value of it
    5 | a,1,yes
      |     ^^^
help: write 0, 1, false or true
in trace `a`, instant 0, record 1
status 2
----
lbench --explain
node main(open: bool; n: int) returns (ok: bool);
let ok = open or n < 3; tel
%traces
trace,n,open
a,1, 1 => refused: E16 cell
-:5:5: error: column `open` is bool, and ` 1` is no value of it
    5 | a,1, 1
      |     ^^
help: no space may stand beside a value
in trace `a`, instant 0, record 1
status 2
----
lbench --explain
node main(open: bool; n: int) returns (ok: bool);
let ok = open or n < 3; tel
%traces
trace,open
a,1,1 => refused: E14 header
-:4:1: error: the header lacks an input
    4 | trace,open
      | ^^^^^^^^^^
missing: n
wanted: trace,open,n, the inputs in any order
status 2
----
lbench --explain
node main(open: bool; n: int) returns (ok: bool);
let ok = open or n < 3; tel
%traces
trace,n ,open
a,1,1 => refused: E14 header
-:4:7: error: no input of the node under test is `n `
    4 | trace,n ,open
      |       ^^
missing: n
unknown: `n `
help: no space may stand beside a name
wanted: trace,open,n, the inputs in any order
status 2";
