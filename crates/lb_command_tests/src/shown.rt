//! The values of traces, as they are printed.

/// Words and inputs, and the output, the errors and the status.
pub const SHOWN: &str = "\
lbench --show one
-- Two levels of instances, an array, a clock, nil and a fault.
node count(up: bool) returns (n: int);
let
  n = (0 -> pre n) + (if up then 1 else 0);
tel
node twice(up: bool; c: bool) returns (n: int; held: int);
var slow: int when c;
let
  n = count(up) + count(not up);
  slow = n when c;
  held = current slow;
tel
node main(up: bool; c: bool; d: int) returns (ok: bool);
var n: int; held: int; A: int^2; last: int; q: int;
let
  (n, held) = twice(up, c);
  A = [n, d];
  last = pre d;
  q = n / d;
  ok = n < 4;
tel
%traces
trace,up,c,d
one,1,0,5
one,0,1,-7
one,1,0,3
one,1,1,2
one,1,1,2
two,1,1,1
two,0,1,0
three,1,0,2147483647
=>
one false 3

instant    0  1  2 >3
main.up    1  .  1  1
main.c     .  1  .  1
main.d     5 -7  3  2
main.ok    1  1  1 >.
main.n     1  2  3  4
main.held  ?  2  2  4
main.A[0]  1  2  3  4
main.A[1]  5 -7  3  2
main.last  ?  5 -7  3
main.q     0  0  1  2
status 0
----
lbench --show one --format csv --all --last 2
as above
=>
instant,main.up,main.c,main.d,main.ok,main.n,main.held,main.A[0],main.A[1],main.last,main.q,main.twice@16:15.up,main.twice@16:15.c,main.twice@16:15.n,main.twice@16:15.held,main.twice@16:15.slow,main.twice@16:15.count@9:7.up,main.twice@16:15.count@9:7.n,main.twice@16:15.count@9:19.up,main.twice@16:15.count@9:19.n
2,1,0,3,1,3,2,3,3,-7,1,1,0,3,2,,1,2,0,1
3,1,1,2,0,4,4,4,2,3,2,1,1,4,4,4,1,3,0,1
status 0
----
lbench --show two --format vcd --vars q,ok,main.last
as above
=>
$comment two fault 1 $end
$timescale 1 us $end
$scope module main $end
$var integer 32 ! q [31:0] $end
$var wire 1 $ q! $end
$var wire 1 \" ok $end
$var integer 32 # last [31:0] $end
$upscope $end
$enddefinitions $end
#0
b1 !
0$
1\"
bx #
#1
bx !
1$
b1 #
#2
status 0
----
lbench --show three --format csv --vars main.twice@16:15.slow,A[1],A
as above
=>
instant,main.twice@16:15.slow,main.A[1],main.A[0],main.A[1]
0,,2147483647,1,2147483647
status 0
----
lbench --observe safe --show t --all
node cell(on: bool) returns (n: int);
let n = (0 -> pre n) + (if on then 1 else 0); tel
node main(on: bool^2; go: bool) returns (ok: bool);
var c: int^2; slow: int when go; p: bool;
let
  c = map<<cell, 2>>(on);
  slow = c[0] when go;
  p = false -> pre on[0];
  ok = c[0] + c[1] < 4;
tel
node safe(on: bool^2; go: bool; x: bool) returns (ok: bool);
var bad: int;
let
  assert go or x;
  bad = 6 / (3 - current_of(go));
  ok = x and bad > 0;
tel
node current_of(go: bool) returns (n: int);
let n = (0 -> pre n) + 1; tel
%traces
trace,on[0],on[1],go
t,1,0,1
t,1,1,0
t,0,0,1
u,1,1,0
u,1,1,0
=>
t fault 2

instant                   0 1 >2
main.on[0]                1 1  .
main.on[1]                . 1  .
main.go                   1 .  1
main.ok                   1 1  1
main.c[0]                 1 2  2
main.c[1]                 0 1  1
main.slow                 1    2
main.p                    . 1  1
main.cell@6:12[0].on      1 1  .
main.cell@6:12[0].n       1 2  2
main.cell@6:12[1].on      . 1  .
main.cell@6:12[1].n       0 1  1
safe.on[0]                1 1  .
safe.on[1]                . 1  .
safe.go                   1 .  1
safe.x                    1 1  1
safe.ok                   1 1 >!
safe.bad                  3 6 >!
safe.current_of@15:18.go  1 .  1
safe.current_of@15:18.n   1 2  3
status 0
----
lbench --observe safe --show t --format csv
as above
=>
instant,main.on[0],main.on[1],main.go,main.ok,main.c[0],main.c[1],main.slow,main.p,safe.on[0],safe.on[1],safe.go,safe.x,safe.ok,safe.bad
0,1,0,1,1,1,0,1,0,1,0,1,1,1,3
1,1,1,0,1,2,1,,1,1,1,0,1,1,6
2,0,0,1,1,2,1,2,1,0,0,1,1,!,!
status 0
----
lbench --observe safe --show t --format vcd --vars slow,safe.bad,c[1]
as above
=>
$comment t fault 2 $end
$timescale 1 us $end
$scope module main $end
$var integer 32 ! slow [31:0] $end
$var integer 32 # c[1] [31:0] $end
$upscope $end
$scope module safe $end
$var integer 32 \" bad [31:0] $end
$var wire 1 % bad! $end
$upscope $end
$enddefinitions $end
#0
b1 !
b11 \"
0%
b0 #
#1
bz !
b110 \"
b1 #
#2
b10 !
bx \"
1%
#3
status 0
----
lbench --observe safe --show u --last 1
as above
=>
u assertion 1

instant     >1
main.on[0]   1
main.on[1]   1
main.go      .
main.ok      .
main.c[0]    2
main.c[1]    2
main.slow
main.p       1
safe.on[0]   1
safe.on[1]   1
safe.go      .
safe.x       .
safe.ok      .
safe.bad     6
status 0
----
lbench --show x --format svg
node main(up: bool; n: int) returns (ok: bool);
var k: int when up; l: int;
let
  k = n when up;
  l = current k;
  ok = l < 3 or 6 / n > 1;
tel
%traces
trace,up,n
x,1,2
x,0,4
x,1,0
=>
<svg xmlns=\"http://www.w3.org/2000/svg\" font-family=\"monospace\" font-size=\"12\" width=\"214\" height=\"186\">
<defs><pattern id=\"nil\" width=\"6\" height=\"6\" patternUnits=\"userSpaceOnUse\"><path d=\"M0 6L6 0\" stroke=\"#888\"/></pattern></defs>
<rect width=\"100%\" height=\"100%\" fill=\"#fff\"/>
<text x=\"8\" y=\"18\" font-weight=\"bold\">x fault 2</text>
<rect x=\"102\" y=\"48\" width=\"16\" height=\"130\" fill=\"#fd8\"/>
<text x=\"78\" y=\"36\" text-anchor=\"middle\" fill=\"#666\">0</text>
<text x=\"94\" y=\"36\" text-anchor=\"middle\" fill=\"#666\">1</text>
<text x=\"110\" y=\"47\" text-anchor=\"middle\" fill=\"#b00\">2</text>
<text x=\"8\" y=\"66\">main.up</text>
<path fill=\"none\" stroke=\"#161\" stroke-width=\"2\" d=\"M70 53H86V69H102V53H118\"/>
<text x=\"8\" y=\"92\">main.n</text>
<rect x=\"70\" y=\"79\" width=\"16\" height=\"16\" fill=\"#eef\" stroke=\"#448\"/>
<text x=\"78\" y=\"92\" text-anchor=\"middle\">2</text>
<rect x=\"86\" y=\"79\" width=\"16\" height=\"16\" fill=\"#eef\" stroke=\"#448\"/>
<text x=\"94\" y=\"92\" text-anchor=\"middle\">4</text>
<rect x=\"102\" y=\"79\" width=\"16\" height=\"16\" fill=\"#eef\" stroke=\"#448\"/>
<text x=\"110\" y=\"92\" text-anchor=\"middle\">0</text>
<text x=\"8\" y=\"118\">main.ok</text>
<rect x=\"102\" y=\"105\" width=\"16\" height=\"16\" fill=\"#d22\"/>
<path fill=\"none\" stroke=\"#161\" stroke-width=\"2\" d=\"M70 105H102\"/>
<text x=\"8\" y=\"144\">main.k</text>
<rect x=\"70\" y=\"131\" width=\"16\" height=\"16\" fill=\"#eef\" stroke=\"#448\"/>
<text x=\"78\" y=\"144\" text-anchor=\"middle\">2</text>
<rect x=\"102\" y=\"131\" width=\"16\" height=\"16\" fill=\"#eef\" stroke=\"#448\"/>
<text x=\"110\" y=\"144\" text-anchor=\"middle\">0</text>
<text x=\"8\" y=\"170\">main.l</text>
<rect x=\"70\" y=\"157\" width=\"32\" height=\"16\" fill=\"#eef\" stroke=\"#448\"/>
<text x=\"86\" y=\"170\" text-anchor=\"middle\">2</text>
<rect x=\"102\" y=\"157\" width=\"16\" height=\"16\" fill=\"#eef\" stroke=\"#448\"/>
<text x=\"110\" y=\"170\" text-anchor=\"middle\">0</text>
</svg>
status 0
----
lbench --show x
as above
=>
x fault 2

instant  0 1 >2
main.up  1 .  1
main.n   2 4  0
main.ok  1 1 >!
main.k   2    0
main.l   2 2  0
status 0
----
lbench --show v --format svg --vars ok
node main(x: int) returns (ok: bool);
let ok = x > pre x; tel
%traces
trace,x
v,3
v,4
=>
<svg xmlns=\"http://www.w3.org/2000/svg\" font-family=\"monospace\" font-size=\"12\" width=\"214\" height=\"82\">
<defs><pattern id=\"nil\" width=\"6\" height=\"6\" patternUnits=\"userSpaceOnUse\"><path d=\"M0 6L6 0\" stroke=\"#888\"/></pattern></defs>
<rect width=\"100%\" height=\"100%\" fill=\"#fff\"/>
<text x=\"8\" y=\"18\" font-weight=\"bold\">v undefined 0</text>
<rect x=\"70\" y=\"48\" width=\"16\" height=\"26\" fill=\"#fd8\"/>
<text x=\"78\" y=\"47\" text-anchor=\"middle\" fill=\"#b00\">0</text>
<text x=\"8\" y=\"66\">main.ok</text>
<rect x=\"70\" y=\"53\" width=\"16\" height=\"16\" fill=\"url(#nil)\"/>
<path fill=\"none\" stroke=\"#161\" stroke-width=\"2\" d=\"\"/>
</svg>
status 0
----
lbench --show v --format csv --follow
as above
=>
instant,main.x,main.ok
0,3,?
status 0
----
lbench --show nobody --explain
as above
=>
refused: E20 usage
lbench: error: no trace is named `nobody`
help: the report has the names of all traces
status 2
----
lbench --show v --vars x,y --explain
as above
=>
refused: E20 usage
lbench: error: no variable is named `y`
help: `--format csv --all --last 1` prints the names of all variables
status 2
----
lbench --show v --format pdf --explain
as above
=>
refused: E20 usage
lbench: error: `pdf` is no value of `--format`, which takes lines or junit, and with `--show` table, csv, vcd or svg
status 2
----
lbench --show v --last -1
as above
=>
refused: E20 usage
status 2
----
lbench --show v --last 1000000001
as above
=>
refused: E20 usage
status 2
----
lbench --show v --format csv
node main(x: int) returns (ok: bool);
let ok = x > pre x; tel
%traces
trace,y
v,3
=>
refused: E14 header
status 2";
