//! Values of a trace in each format: clocks, an array, nil, a fault, and two levels of instances.

/// Words and inputs, and the output, the errors and the status.
pub const FORMATS: &str = "\
lbench --show t --all
node keep(c: bool; x: int when c) returns (y: int);
let y = current x; tel
node pair(c: bool; x: int) returns (q: int^2);
var s: int when c;
let
  s = x when c;
  q = [keep(c, s), 6 / x];
tel
node main(c: bool; x: int) returns (ok: bool);
var A: int^2; b: bool;
let
  A = pair(c, x);
  b = pre c;
  ok = A[1] > 0;
tel
%traces
trace,c,x
t,0,3
t,1,2
t,0,0
=>
t fault 2

instant                    0 1 >2
main.c                     . 1  .
main.x                     3 2  0
main.ok                    1 1 >!
main.A[0]                  ? 2  2
main.A[1]                  2 3 >!
main.b                     ? .  1
main.pair@12:7.c           . 1  .
main.pair@12:7.x           3 2  0
main.pair@12:7.q[0]        ? 2  2
main.pair@12:7.q[1]        2 3 >!
main.pair@12:7.s             2
main.pair@12:7.keep@7:8.c  . 1  .
main.pair@12:7.keep@7:8.x    2
main.pair@12:7.keep@7:8.y  ? 2  2
status 0
----
lbench --show t --all --format csv
as above
=>
instant,main.c,main.x,main.ok,main.A[0],main.A[1],main.b,main.pair@12:7.c,main.pair@12:7.x,\
main.pair@12:7.q[0],main.pair@12:7.q[1],main.pair@12:7.s,main.pair@12:7.keep@7:8.c,\
main.pair@12:7.keep@7:8.x,main.pair@12:7.keep@7:8.y
0,0,3,1,?,2,?,0,3,?,2,,0,,?
1,1,2,1,2,3,0,1,2,2,3,2,1,2,2
2,0,0,!,2,!,1,0,0,2,!,,0,,2
status 0
----
lbench --show t --all --format vcd
as above
=>
$comment t fault 2 $end
$timescale 1 us $end
$scope module main $end
$var wire 1 ! c $end
$var integer 32 \" x [31:0] $end
$var wire 1 # ok $end
$var wire 1 1 ok! $end
$var integer 32 $ A[0] [31:0] $end
$var integer 32 % A[1] [31:0] $end
$var wire 1 3 A[1]! $end
$var wire 1 & b $end
$scope module pair@12:7 $end
$var wire 1 ' c $end
$var integer 32 ( x [31:0] $end
$var integer 32 ) q[0] [31:0] $end
$var integer 32 * q[1] [31:0] $end
$var wire 1 8 q[1]! $end
$var integer 32 + s [31:0] $end
$scope module keep@7:8 $end
$var wire 1 , c $end
$var integer 32 - x [31:0] $end
$var integer 32 . y [31:0] $end
$upscope $end
$upscope $end
$upscope $end
$enddefinitions $end
#0
0!
b11 \"
1#
01
bx $
b10 %
03
x&
0'
b11 (
bx )
b10 *
08
bz +
0,
bz -
bx .
#1
1!
b10 \"
b10 $
b11 %
0&
1'
b10 (
b10 )
b11 *
b10 +
1,
b10 -
b10 .
#2
0!
b0 \"
x#
11
bx %
13
1&
0'
b0 (
bx *
18
bz +
0,
bz -
#3
status 0
----
lbench --show t --all --format svg
as above
=>
<svg xmlns=\"http://www.w3.org/2000/svg\" font-family=\"monospace\" font-\
size=\"12\" width=\"270\" height=\"420\">
<defs><pattern id=\"nil\" width=\"6\" height=\"6\" patternUnits=\"userSpaceOnUse\">\
<path d=\"M0 6L6 0\" stroke=\"#888\"/></pattern></defs>
<rect width=\"100%\" height=\"100%\" fill=\"#fff\"/>
<text x=\"8\" y=\"18\" font-weight=\"bold\">t fault 2</text>
<rect x=\"246\" y=\"48\" width=\"16\" height=\"364\" fill=\"#fd8\"/>
<text x=\"222\" y=\"36\" text-anchor=\"middle\" fill=\"#666\">0</text>
<text x=\"238\" y=\"36\" text-anchor=\"middle\" fill=\"#666\">1</text>
<text x=\"254\" y=\"47\" text-anchor=\"middle\" fill=\"#b00\">2</text>
<text x=\"8\" y=\"66\">main.c</text>
<path fill=\"none\" stroke=\"#161\" stroke-width=\"2\" d=\"M214 69H230V53H246V69H262\"/>
<text x=\"8\" y=\"92\">main.x</text>
<rect x=\"214\" y=\"79\" width=\"16\" height=\"16\" fill=\"#eef\" stroke=\"#448\"/>
<text x=\"222\" y=\"92\" text-anchor=\"middle\">3</text>
<rect x=\"230\" y=\"79\" width=\"16\" height=\"16\" fill=\"#eef\" stroke=\"#448\"/>
<text x=\"238\" y=\"92\" text-anchor=\"middle\">2</text>
<rect x=\"246\" y=\"79\" width=\"16\" height=\"16\" fill=\"#eef\" stroke=\"#448\"/>
<text x=\"254\" y=\"92\" text-anchor=\"middle\">0</text>
<text x=\"8\" y=\"118\">main.ok</text>
<rect x=\"246\" y=\"105\" width=\"16\" height=\"16\" fill=\"#d22\"/>
<path fill=\"none\" stroke=\"#161\" stroke-width=\"2\" d=\"M214 105H246\"/>
<text x=\"8\" y=\"144\">main.A[0]</text>
<rect x=\"214\" y=\"131\" width=\"16\" height=\"16\" fill=\"url(#nil)\"/>
<rect x=\"230\" y=\"131\" width=\"32\" height=\"16\" fill=\"#eef\" stroke=\"#448\"/>
<text x=\"246\" y=\"144\" text-anchor=\"middle\">2</text>
<text x=\"8\" y=\"170\">main.A[1]</text>
<rect x=\"214\" y=\"157\" width=\"16\" height=\"16\" fill=\"#eef\" stroke=\"#448\"/>
<text x=\"222\" y=\"170\" text-anchor=\"middle\">2</text>
<rect x=\"230\" y=\"157\" width=\"16\" height=\"16\" fill=\"#eef\" stroke=\"#448\"/>
<text x=\"238\" y=\"170\" text-anchor=\"middle\">3</text>
<rect x=\"246\" y=\"157\" width=\"16\" height=\"16\" fill=\"#d22\"/>
<text x=\"8\" y=\"196\">main.b</text>
<rect x=\"214\" y=\"183\" width=\"16\" height=\"16\" fill=\"url(#nil)\"/>
<path fill=\"none\" stroke=\"#161\" stroke-width=\"2\" d=\"M230 199H246V183H262\"/>
<text x=\"8\" y=\"222\">main.pair@12:7.c</text>
<path fill=\"none\" stroke=\"#161\" stroke-width=\"2\" d=\"M214 225H230V209H246V225H262\"/>
<text x=\"8\" y=\"248\">main.pair@12:7.x</text>
<rect x=\"214\" y=\"235\" width=\"16\" height=\"16\" fill=\"#eef\" stroke=\"#448\"/>
<text x=\"222\" y=\"248\" text-anchor=\"middle\">3</text>
<rect x=\"230\" y=\"235\" width=\"16\" height=\"16\" fill=\"#eef\" stroke=\"#448\"/>
<text x=\"238\" y=\"248\" text-anchor=\"middle\">2</text>
<rect x=\"246\" y=\"235\" width=\"16\" height=\"16\" fill=\"#eef\" stroke=\"#448\"/>
<text x=\"254\" y=\"248\" text-anchor=\"middle\">0</text>
<text x=\"8\" y=\"274\">main.pair@12:7.q[0]</text>
<rect x=\"214\" y=\"261\" width=\"16\" height=\"16\" fill=\"url(#nil)\"/>
<rect x=\"230\" y=\"261\" width=\"32\" height=\"16\" fill=\"#eef\" stroke=\"#448\"/>
<text x=\"246\" y=\"274\" text-anchor=\"middle\">2</text>
<text x=\"8\" y=\"300\">main.pair@12:7.q[1]</text>
<rect x=\"214\" y=\"287\" width=\"16\" height=\"16\" fill=\"#eef\" stroke=\"#448\"/>
<text x=\"222\" y=\"300\" text-anchor=\"middle\">2</text>
<rect x=\"230\" y=\"287\" width=\"16\" height=\"16\" fill=\"#eef\" stroke=\"#448\"/>
<text x=\"238\" y=\"300\" text-anchor=\"middle\">3</text>
<rect x=\"246\" y=\"287\" width=\"16\" height=\"16\" fill=\"#d22\"/>
<text x=\"8\" y=\"326\">main.pair@12:7.s</text>
<rect x=\"230\" y=\"313\" width=\"16\" height=\"16\" fill=\"#eef\" stroke=\"#448\"/>
<text x=\"238\" y=\"326\" text-anchor=\"middle\">2</text>
<text x=\"8\" y=\"352\">main.pair@12:7.keep@7:8.c</text>
<path fill=\"none\" stroke=\"#161\" stroke-width=\"2\" d=\"M214 355H230V339H246V355H262\"/>
<text x=\"8\" y=\"378\">main.pair@12:7.keep@7:8.x</text>
<rect x=\"230\" y=\"365\" width=\"16\" height=\"16\" fill=\"#eef\" stroke=\"#448\"/>
<text x=\"238\" y=\"378\" text-anchor=\"middle\">2</text>
<text x=\"8\" y=\"404\">main.pair@12:7.keep@7:8.y</text>
<rect x=\"214\" y=\"391\" width=\"16\" height=\"16\" fill=\"url(#nil)\"/>
<rect x=\"230\" y=\"391\" width=\"32\" height=\"16\" fill=\"#eef\" stroke=\"#448\"/>
<text x=\"246\" y=\"404\" text-anchor=\"middle\">2</text>
</svg>
status 0";
