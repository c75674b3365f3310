//! Rows on the mistakes of newcomers in traces and in words.

/// The help for mistakes in traces and in words.
pub const TRACE_MISTAKES: &str = "\
lbench --explain
node main(c: bool; x: int) returns (ok: bool);
let ok = c or x < 9; tel
%traces
trace,c,x,time
a,1,2,3 => refused: E14 header
-:4:11: error: no input of the node under test is `time`
    4 | trace,c,x,time
      |           ^^^^
unknown: `time`
help: leave out each column that is no input
wanted: trace,c,x, the inputs in any order
status 2
----
lbench --explain
node main(c: bool; x: int) returns (ok: bool);
let ok = c or x < 9; tel
%traces
c,x
1,2 => refused: E14 header
-:4:1: error: the first column has to be `trace`, and is `c`
    4 | c,x
      | ^
help: the first cell of each record names its trace
wanted: trace,c,x, the inputs in any order
status 2
----
lbench --explain
node main(c: bool; x: int) returns (ok: bool);
let ok = c or x < 9; tel
%traces
# recorded
trace,c,x => refused: E14 header
-:4:1: error: the first column has to be `trace`, and is `# recorded`
    4 | # recorded
      | ^^^^^^^^^^
missing: c, x
help: a text of traces has no comments
wanted: trace,c,x, the inputs in any order
status 2
----
lbench --explain
node main(c: bool; x: int) returns (ok: bool);
let ok = c or x < 9; tel
%traces
sep=;
trace;c;x => refused: E14 header
-:4:1: error: the first column has to be `trace`, and is `sep=;`
    4 | sep=;
      | ^^^^^
missing: c, x
help: leave out the line that names the separator
wanted: trace,c,x, the inputs in any order
status 2
----
lbench --explain
node main(c: bool; x: int) returns (ok: bool);
let ok = c or x < 9; tel
%traces
trace,c,x
# rig 2
a,1,2 => refused: E15 record
-:5:1: error: this record has 1 cell, and the header has 3
    5 | # rig 2
      | ^^^^^^^
help: a text of traces has no comments
in trace `# rig 2`, instant 0, record 1
status 2
----
lbench --explain
node main(c: bool; x: int) returns (ok: bool);
let ok = c or x < 9; tel
%traces
trace,c,x
a,1,2
  
a,1,3 => refused: E15 record
-:6:1: error: this record has 1 cell, and the header has 3
    6 |   
      | ^^
help: a line of spaces is a record too; an empty line is none
in trace `  `, instant 0, record 2
status 2
----
lbench --explain
node main(c: bool; x: int) returns (ok: bool);
let ok = c or x < 9; tel
%traces
trace,c,x
a,1,\"2,5\" => refused: E16 cell
-:5:5: error: column `x` is int, and `2,5` is no value of it
    5 | a,1,\"2,5\"
      |     ^^^^^
help: write the number without a comma; scale it if need be
in trace `a`, instant 0, record 1
status 2
----
lbench --explain
node main(c: bool; x: int) returns (ok: bool);
let ok = c or x < 9; tel
%traces
trace,c,x
a,1,1.5E+03 => refused: E16 cell
-:5:5: error: column `x` is int, and `1.5E+03` is no value of it
    5 | a,1,1.5E+03
      |     ^^^^^^^
help: write the number without an exponent
in trace `a`, instant 0, record 1
status 2
----
lbench --explain
node main(c: bool; x: int) returns (ok: bool);
let ok = c or x < 9; tel
%traces
trace,c,x
a,1,TRUE => refused: E16 cell
-:5:5: error: column `x` is int, and `TRUE` is no value of it
    5 | a,1,TRUE
      |     ^^^^
help: this column is of int; write 1 or 0
in trace `a`, instant 0, record 1
status 2
----
lbench --explain
node main(c: bool; x: int) returns (ok: bool);
let ok = c or x < 9; tel
%traces
trace,c,x
a,1,\"2
a,1,3 => refused: E16 cell
-:5:5: error: column `x` is int, and `2\\na,1,3` is no value of it
    5 | a,1,\"2
      |     ^^
help: a `\"` that begins a cell goes on to the next `\"`, over ends of lines too
in trace `a`, instant 0, record 1
status 2
----
lbench --explain
node main(A: int^2) returns (ok: bool);
let ok = A[0] < A[1]; tel
%traces
trace,A
a,1 => refused: E14 header
-:4:7: error: no input of the node under test is `A`
    4 | trace,A
      |       ^
missing: A[0], A[1]
unknown: `A`
help: an array has a column for each of its elements
wanted: trace,A[0],A[1], the inputs in any order
status 2
----
lbench --explain
node main(c: bool; x: int) returns (ok: bool);
let ok = c or x < 9; tel
%traces
t\0r\0a\0c\0e\0 => refused: E14 header
-:4:1: error: the first column has to be `trace`, and is `t\\x00r\\x00a\\x00c\\x00e\\x00`
    4 | t?r?a?c?e?
      | ^^^^^^^^^^
missing: c, x
help: save the file as UTF-8, not as UTF-16
wanted: trace,c,x, the inputs in any order
status 2
----
lbench --explain --workers -1 => refused: E20 usage
lbench: error: `-1` is no value of `--workers`, which takes a number from 0 to 64
status 2
----
lbench --batch -1 --explain => refused: E20 usage
lbench: error: `-1` is no value of `--batch`, which takes a number from 1 to 64
status 2
----
lbench --explain --workers --batch 3 => refused: E20 usage
lbench: error: `--workers` lacks its value, a number from 0 to 64
status 2
----
lbench --explain --show -1 p.lus p.csv => refused: E20 usage
lbench: error: `--show` lacks its value, the name of a trace
help: a leading `-` needs `=`: `--show=-1`
status 2";
