//! Rows on texts, traces, words and files.

/// Refusals E1 to E3 and E14 to E21.
pub const TEXTS: &str = "\
lbench --explain
node main(x: int) returns (ok: bool);
let ok = x != 3; tel => refused: E1 character at 2:12
-:2:12: error: `!` begins no token
    2 | let ok = x != 3; tel
      |            ^^
help: unequal is written `<>`
status 2
----
lbench --explain
node main(x: int) returns (ok: bool);
-- the rest is open
let ok = (* x = 3; tel => refused: E1 character at 3:10
-:3:10: error: the comment that begins here is not closed
    3 | let ok = (* x = 3; tel
      |          ^^
help: `(*` is closed by the next `*)`
status 2
----
lbench --explain
include \"pump.lus\" => refused: E1 character at 1:9
-:1:9: error: `\"` begins no token
    1 | include \"pump.lus\"
      |         ^
help: there are no strings and no includes in the language
status 2
----
lbench --explain
node main(x: int) returns (ok: bool);
let ok = x < 3 & x > 1; tel => refused: E1 character at 2:16
-:2:16: error: `&` begins no token
    2 | let ok = x < 3 & x > 1; tel
      |                ^
help: conjunction is written `and`
status 2
----
lbench --explain
node main(x: int) returns (ok: bool);
let ok = 1 < x < 3; tel => refused: E2 syntax at 2:16
-:2:16: error: expected `;` or another operator, found `<`
    2 | let ok = 1 < x < 3; tel
      |                ^
-:1:1: note: in node main, which begins here
help: this operator does not group with the one before it; write parentheses
status 2
----
lbench --explain
node main(x: real) returns (ok: bool);
let ok = true; tel => refused: E2 syntax at 1:14
-:1:14: error: expected `int` or `bool`, found `real`
    1 | node main(x: real) returns (ok: bool);
      |              ^^^^
-:1:1: note: in node main, which begins here
help: real numbers are not in the language; scale them to int
status 2
----
lbench --explain
node main(x: int) returns (ok: bool);
let ok = x < 3
tel => refused: E2 syntax at 3:1
-:3:1: error: expected `;` or an operator, found `tel`
    3 | tel
      | ^^^
-:1:1: note: in node main, which begins here
help: a `;` may be missing at the end of the line above
status 2
----
lbench --explain
node main(x: int) returns (ok: bool);
let
  ok = x < 3; => refused: E2 syntax at 3:14
-:3:14: error: expected a name, `(`, `assert` or `tel`, found the end of the text
    3 |   ok = x < 3;
      |              ^
-:1:1: note: in node main, which begins here
help: the equations of a node end with tel
status 2
----
lbench --explain
node main(x: int) returns (ok: bool);
let ok = x < 1 || x > 3; tel => refused: E2 syntax at 2:17
-:2:17: error: expected an expression, found `|`
    2 | let ok = x < 1 || x > 3; tel
      |                 ^
-:1:1: note: in node main, which begins here
help: disjunction is written `or`
status 2
----
lbench --explain
node main(x: int) returns (ok: bool);
let ok := x < 1; tel => refused: E2 syntax at 2:8
-:2:8: error: expected `,` or `=`, found `:`
    2 | let ok := x < 1; tel
      |        ^
-:1:1: note: in node main, which begins here
help: an equation is written `x = e;`
status 2
----
lbench --explain
node main(x: int, y: int) returns (ok: bool);
let ok = x < y; tel => refused: E2 syntax at 1:17
-:1:17: error: expected `^`, `when`, `;` or `)`, found `,`
    1 | node main(x: int, y: int) returns (ok: bool);
      |                 ^
-:1:1: note: in node main, which begins here
help: variables of one type are parted by `,`, and others by `;`
status 2
----
lbench --explain
node main(x: int) returns (ok: bool);
let
  if x < 1 then ok = true else ok = false;
tel => refused: E2 syntax at 3:3
-:3:3: error: expected a name, `(`, `assert` or `tel`, found `if`
    3 |   if x < 1 then ok = true else ok = false;
      |   ^^
-:1:1: note: in node main, which begins here
help: `if` chooses a value: `x = if c then a else b;`
status 2
----
lbench --explain
node main(x: int^2) returns (ok: bool);
var y: int^2;
let y[0] = x[1]; ok = true; tel => refused: E2 syntax at 3:6
-:3:6: error: expected `,` or `=`, found `[`
    3 | let y[0] = x[1]; ok = true; tel
      |      ^
-:1:1: note: in node main, which begins here
help: an equation defines a whole array: `x = [a, b];`
status 2
----
lbench --explain
type speed = int;
node main(x: int) returns (ok: bool);
let ok = true; tel => refused: E2 syntax at 1:1
-:1:1: error: expected `const`, `node`, `function` or the end of the text, found `type`
    1 | type speed = int;
      | ^^^^
help: named types are not in the language; write int, bool or an array of them
status 2
----
lbench --explain
node main(x: int; c: bool) returns (ok: bool);
let ok = merge c (true -> x) (false -> 2) > 1; tel => refused: E2 syntax at 2:16
-:2:16: error: expected `;` or an operator, found `c`
    2 | let ok = merge c (true -> x) (false -> 2) > 1; tel
      |                ^
-:1:1: note: in node main, which begins here
help: merge is not in the language; use `if` with `current`
status 2
----
lbench --explain
node main(x: int) returns (ok: bool);
let ok = x < 1.5; tel => refused: E2 syntax at 2:15
-:2:15: error: expected `;` or an operator, found `.`
    2 | let ok = x < 1.5; tel
      |               ^
-:1:1: note: in node main, which begins here
help: real numbers are not in the language; scale them to int
status 2
----
lbench --explain
node main(x: int) returns (ok: bool);
let ok = if x < 1 then true elsif x < 2 then false else true; tel => refused: E2 syntax at 2:29
-:2:29: error: expected `else` or an operator, found `elsif`
    2 | let ok = if x < 1 then true elsif x < 2 then false else true; tel
      |                             ^^^^^
-:1:1: note: in node main, which begins here
help: elsif is not in the language; write `else if`
status 2
----
lbench --explain
const n{64 m} = 3; => refused: E3 size at 1:7
-:1:7: error: this name has 65 bytes; at most 64 are read
    1 | const n{64 m} = 3;
      |       {65 ^}
status 2
----
lbench --explain
node main(x: int) returns (ok: bool);
let ok = x > -2147483648; tel => refused: E3 size at 2:15
-:2:15: error: this number is greater than 2147483647, the greatest int
    2 | let ok = x > -2147483648; tel
      |               ^^^^^^^^^^
help: the least int is written `-2147483647 - 1`
status 2
----
lbench --explain
node main(x: int) returns (ok: bool);
let ok = x = 
{500 1 +
}1; tel => refused: E3 size at 501:3
-:501:3: error: this statement has 502 operators and opening brackets; at most 500 are read
  501 | 1 +
      |   ^
help: give parts of it to variables of their own
status 2
----
lbench --explain
node main({70 n}: bool) returns (ok: bool);
let ok = true; tel => refused: E3 size at 1:11
-:1:11: error: this name has 70 bytes; at most 64 are read
    1 | node main({70 n}
      |           {70 ^}
status 2
----
lbench --explain
node main(open: bool; level: int) returns (ok: bool);
let ok = level < 9; tel
%traces
 => refused: E14 header
-:4:1: error: there is no header: the text of the traces is empty
wanted: trace,open,level, the inputs in any order
status 2
----
lbench --explain
node main(open: bool; level: int) returns (ok: bool);
let ok = level < 9; tel
%traces
trace,opn,level
a,1,2
 => refused: E14 header
-:4:7: error: no input of the node under test is `opn`
    4 | trace,opn,level
      |       ^^^
missing: open
unknown: `opn`
help: a similar input is `open`
wanted: trace,open,level, the inputs in any order
status 2
----
lbench --explain
node main(open: bool; level: int) returns (ok: bool);
let ok = level < 9; tel
%traces
Trace,open,level
 => refused: E14 header
-:4:1: error: the first column has to be `trace`, and is `Trace`
    4 | Trace,open,level
      | ^^^^^
help: case counts
wanted: trace,open,level, the inputs in any order
status 2
----
lbench --explain
node main(open: bool; level: int) returns (ok: bool);
let ok = level < 9; tel
%traces
trace;open;level
 => refused: E14 header
-:4:1: error: the first column has to be `trace`, and is `trace;open;level`
    4 | trace;open;level
      | ^^^^^^^^^^^^^^^^
missing: open, level
help: it looks parted by `;`; cells are parted by `,`
wanted: trace,open,level, the inputs in any order
status 2
----
lbench --explain
node main(open: bool; level: int) returns (ok: bool);
let ok = level < 9; tel
%traces
trace,open,level,open
 => refused: E14 header
-:4:18: error: two columns are `open`
    4 | trace,open,level,open
      |                  ^^^^
wanted: trace,open,level, the inputs in any order
status 2
----
lbench --explain
node main(open: bool; level: int) returns (ok: bool);
let ok = level < 9; tel
%traces
trace,Open, level
 => refused: E14 header
-:4:7: error: no input of the node under test is `Open`
    4 | trace,Open, level
      |       ^^^^
missing: open, level
unknown: `Open`, ` level`
help: a similar input is `open`; case counts
wanted: trace,open,level, the inputs in any order
status 2
----
lbench --explain
node main(open: bool; level: int) returns (ok: bool);
let ok = level < 9; tel
%traces
trace,open,level
a,1
 => refused: E15 record
-:5:1: error: this record has 2 cells, and the header has 3
    5 | a,1
      | ^^^
in trace `a`, instant 0, record 1
status 2
----
lbench --explain
node main(open: bool; level: int) returns (ok: bool);
let ok = level < 9; tel
%traces
trace,open,level
a,1,2

a,1,2,
 => refused: E15 record
-:7:7: error: this record has 4 cells, and the header has 3
    7 | a,1,2,
      |       ^
help: a comma at the end of a line begins one more cell
in trace `a`, instant 1, record 2
status 2
----
lbench --explain
node main(open: bool; level: int) returns (ok: bool);
let ok = level < 9; tel
%traces
trace,open,level
a,\"1,2
b,1,2
 => refused: E15 record
-:5:1: error: this record has 2 cells, and the header has 3
    5 | a,\"1,2
      | ^^^^^^
help: a `\"` that begins a cell goes on to the next `\"`, over ends of lines too
in trace `a`, instant 0, record 1
status 2
----
lbench --explain
node main(open: bool; level: int) returns (ok: bool);
let ok = level < 9; tel
%traces
trace,open,level
a;1;2
 => refused: E15 record
-:5:1: error: this record has 1 cell, and the header has 3
    5 | a;1;2
      | ^^^^^
help: it looks parted by `;`; cells are parted by `,`
in trace `a;1;2`, instant 0, record 1
status 2
----
lbench --explain
node main(open: bool; level: int) returns (ok: bool);
let ok = level < 9; tel
%traces
trace,open,level
a,1,2
b,1,2
b,TRUE,2
 => refused: E16 cell
-:7:3: error: column `open` is bool, and `TRUE` is no value of it
    7 | b,TRUE,2
      |   ^^^^
help: write `true`, in small letters, or 1
in trace `b`, instant 1, record 3
status 2
----
lbench --explain
node main(open: bool; level: int) returns (ok: bool);
let ok = level < 9; tel
%traces
trace,level,open
a,12.0,1
 => refused: E16 cell
-:5:3: error: column `level` is int, and `12.0` is no value of it
    5 | a,12.0,1
      |   ^^^^
help: write the number without a point; scale it if need be
in trace `a`, instant 0, record 1
status 2
----
lbench --explain
node main(open: bool; level: int) returns (ok: bool);
let ok = level < 9; tel
%traces
trace,open,level
\"a\",1,\"+7\"
 => refused: E16 cell
-:5:7: error: column `level` is int, and `+7` is no value of it
    5 | \"a\",1,\"+7\"
      |       ^^^^
help: write the number without `+`
in trace `a`, instant 0, record 1
status 2
----
lbench --explain
node main(open: bool; level: int) returns (ok: bool);
let ok = level < 9; tel
%traces
trace,open,level
a,1,
 => refused: E16 cell
-:5:5: error: column `level` is int, and an empty cell is no value of it
    5 | a,1,
      |     ^
help: an empty cell is no value; write a number
in trace `a`, instant 0, record 1
status 2
----
lbench --explain
node main(open: bool; level: int) returns (ok: bool);
let ok = level < 9; tel
%traces
trace,open,level
a,1,\"{50 x}\ty\"
 => refused: E16 cell
-:5:5: error: column `level` is int, and `{40 x}..` is no value of it
    5 | a,1,\"{50 x} y\"
      |     {54 ^}
help: write at most 20 digits, with or without a `-` before them
in trace `a`, instant 0, record 1
status 2
----
lbench --explain
node main(open: bool; level: int) returns (ok: bool);
let ok = level < 9; tel
%traces
trace,open,level
a,1,\"1\t2\"
 => refused: E16 cell
-:5:5: error: column `level` is int, and `1\\t2` is no value of it
    5 | a,1,\"1 2\"
      |     ^^^^^
help: write at most 20 digits, with or without a `-` before them
in trace `a`, instant 0, record 1
status 2
----
lbench --explain
node main(open: bool; level: int) returns (ok: bool);
let ok = level < 9; tel
%traces
trace,open,level
a,1, 2
 => refused: E16 cell
-:5:5: error: column `level` is int, and ` 2` is no value of it
    5 | a,1, 2
      |     ^^
help: no space may stand beside a value
in trace `a`, instant 0, record 1
status 2
----
lbench --explain
node main(open: bool; level: int) returns (ok: bool);
let ok = level < 9; tel
%traces
trace,open,level
a b,1,2
 => refused: E17 trace
-:5:1: error: the trace name `a b` has a space
    5 | a b,1,2
      | ^^^
help: a name has 1 to 64 letters, digits, `_`, `-`, `.` and `/`
in record 1
status 2
----
lbench --explain
node main(open: bool; level: int) returns (ok: bool);
let ok = level < 9; tel
%traces
trace,open,level
a,1,2
b,1,2

a,1,2
 => refused: E17 trace
-:8:1: error: trace `a` comes back after a record of another trace
    8 | a,1,2
      | ^
-:5:1: note: it began here; the records of a trace stand together
in record 3
status 2
----
lbench --explain
node main(open: bool; level: int) returns (ok: bool);
let ok = level < 9; tel
%traces
trace,open,level
,1,2
 => refused: E17 trace
-:5:1: error: the trace name is empty
    5 | ,1,2
      | ^
help: a name has 1 to 64 letters, digits, `_`, `-`, `.` and `/`
in record 1
status 2
----
lbench --explain
node main() returns (ok: bool);
let ok = true; tel
%traces
trace
a
{1000001 b
} => refused: E18 limit
-:1000006:1: error: this is instant 1000000 of its trace; at most 1000000 are read
help: split the traces into several files, and run each
in trace `b`, instant 1000000, record 1000002
status 2
----
lbench --explain
node main() returns (ok: bool);
let ok = true; tel
%traces
trace
{1000001 \"b\"
} => refused: E18 limit
-:1000005:1: error: this is instant 1000000 of its trace; at most 1000000 are read
help: split the traces into several files, and run each
in trace `b`, instant 1000000, record 1000001
status 2
----
lbench --explain
node main() returns (ok: bool);
let ok = true; tel
%traces
trace

{1000002 a/b
} => refused: E18 limit
-:1000006:1: error: this is instant 1000000 of its trace; at most 1000000 are read
help: split the traces into several files, and run each
in trace `a/b`, instant 1000000, record 1000001
status 2
----
lbench --explain
node main() returns (ok: bool);
let ok = true; tel
%traces
trace
{1..1000002 a@
} => refused: E18 limit
-:1000005:1: error: this is trace 1000001; at most 1000000 are read
help: `--part 1/16` judges the first of 16 parts of a file of traces
in trace `a1000001`, instant 0, record 1000001
status 2
----
lbench --explain --workers 65 => refused: E20 usage
lbench: error: `65` is no value of `--workers`, which takes a number from 0 to 64
status 2
----
lbench a b --explain c => refused: E20 usage
lbench: error: `c` is a third path; a source and its traces are two
status 2
----
lbench --by-length --explain --by-length => refused: E20 usage
lbench: error: `--by-length` is given twice
status 2
----
lbench --explain --batch => refused: E20 usage
lbench: error: `--batch` lacks its value, a number from 1 to 64
status 2
----
lbench --explain no/such/source => refused: E21 read
lbench: error: `no/such/source` can not be read: No such file or directory (os error 2)
status 3
----
lbench --explain . => refused: E21 read
lbench: error: `.` can not be read: it is a folder, a read failed, or it is longer than 1100000000 bytes
status 3
----
lbench --workers 2 --explain /dev/null/pump.lus pump.csv => refused: E21 read
lbench: error: `/dev/null/pump.lus` can not be read: Not a directory (os error 20)
status 3";
