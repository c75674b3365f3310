//! The place of a syntax error: the first token with which the tokens so far begin no text of the
//! grammar, or the place after the last byte.
//!
//! The rows go through the productions, and through the places in each: one text with a wrong token
//! there, and one that ends there. The contract says no more than that E2 stands at a token or at
//! the end.

/// Whole texts.
pub const PARTS: &str = "x at 1:1
; at 1:1
let at 1:1
const 3 = 1; at 1:7
const  at 1:7
const n ; at 1:9
const n at 1:8
const n: bool = 3; at 1:10
const n: at 1:9
const n: int ; at 1:14
const n: int at 1:13
const n = 3 4; at 1:13
const n = 3 at 1:12
const n = 3; = 4; at 1:14
const n = 3; ; at 1:14
const n = 3; const node at 1:20
const n = 3; k: = 4; at 1:17
node (x: int) at 1:6
node at 1:5
function node n() at 1:10
function at 1:9
node n returns at 1:8
node n at 1:7
node n<<k: int>>() at 1:9
node n<<>>() at 1:9
node n<< at 1:9
node n<<const : int>>() at 1:15
node n<<const at 1:14
node n<<const k >>() at 1:17
node n<<const k at 1:16
node n<<const k: bool>>() at 1:18
node n<<const k: at 1:17
node n<<const k: int const j: int>>() at 1:22
node n<<const k: int at 1:21
node n<<const k: int, >>() at 1:23
node n<<const k: int, at 1:22
node n<<const k: int; ; const j: int>>() at 1:23
node n<<const k: int; at 1:22
node n<<const k: int>> returns at 1:24
node n<<const k: int>> at 1:23
node n(int) at 1:8
node n(;) at 1:8
node n( at 1:8
node n(x int) at 1:10
node n(x ; y: int) at 1:10
node n(x at 1:9
node n(x, : int) at 1:11
node n(x, at 1:10
node n(x: x) at 1:11
node n(x: ^ 3) at 1:11
node n(x: at 1:10
node n(x: int int) at 1:15
node n(x: int , y: int) at 1:15
node n(x: int at 1:14
node n(x: int; ;) at 1:16
node n(x: int; 3) at 1:16
node n(x: int; at 1:15
node n(x: int ^ ) at 1:17
node n(x: int ^ when c) at 1:17
node n(x: int ^ at 1:16
node n(x: int ^ 3 4) at 1:19
node n(x: int ^ 3 at 1:18
node n(x: int when ) at 1:20
node n(x: int when at 1:19
node n(x: int when not not c) at 1:24
node n(x: int when not at 1:23
node n(x: int when (not c)) at 1:21
node n(x: int when ( at 1:21
node n(x: int when (c , d)) at 1:23
node n(x: int when (c at 1:22
node n(x: int when not ()) at 1:25
node n(x: int when c ^ 2) at 1:22
node n(x: int when c and d) at 1:22
node n(x: int when c at 1:21
node n() let at 1:10
node n() at 1:9
node n() returns y: int at 1:18
node n() returns at 1:17
node n() returns () at 1:19
node n() returns ( at 1:19
node n() returns (y ) at 1:21
node n() returns (y: int returns at 1:26
node n() returns (y: int; let at 1:27
node n() returns (y: int) tel at 1:27
node n() returns (y: int) returns at 1:27
node n() returns (y: int) at 1:26
node n() returns (y: int); ; at 1:28
node n() returns (y: int); at 1:27
node n() returns (y: int) var let at 1:31
node n() returns (y: int) var <= a: bool; at 1:31
node n() returns (y: int) var at 1:30
node n() returns (y: int) var a ; at 1:33
node n() returns (y: int) var a at 1:32
node n() returns (y: int) var a: ; at 1:34
node n() returns (y: int) var a: at 1:33
node n() returns (y: int) var a: int let at 1:38
node n() returns (y: int) var a: int ) let at 1:38
node n() returns (y: int) var a: int at 1:37
node n() returns (y: int) var a: int; ; at 1:39
node n() returns (y: int) var a: int; int at 1:39
node n() returns (y: int) var a: int; at 1:38
node n() returns (y: int) var a: int; var let at 1:43
node n() returns (y: int) var a: int; var <= b: bool; at 1:43
node n() returns (y: int) var a: int; var var b: bool; at 1:43
node n() returns (y: int) var a: int; var at 1:42
node n() returns (y: int) let let at 1:31
node n() returns (y: int) let at 1:30
node n() returns (y: int) let tel tel at 1:35
node n() returns (y: int) let tel; ; at 1:36
node n() returns (y: int) let tel; . at 1:36
node n() returns (y: int) let tel. ; at 1:36
node n() returns (y: int) let tel; x at 1:36";

/// The first line of a text whose second one is within a body.
pub const BODY: &str = "node n() returns (y: int) let\n";

/// The text behind `let`, on the second line, and the place of its error.
pub const STATEMENTS: &str = "; tel at 2:1
const n = 1; tel at 2:1
if a then b tel at 2:1
var a: int; tel at 2:1
node m() at 2:1
y ; tel at 2:3
y (x) = 1; tel at 2:3
y at 2:2
y, = 1; tel at 2:4
y, at 2:3
() = 1; tel at 2:2
( at 2:2
(y = 1; tel at 2:4
(y at 2:3
(y, ) = 1; tel at 2:5
(y, at 2:4
(y) , z = 1; tel at 2:5
(y) at 2:4
y = ; tel at 2:5
y = = 1; tel at 2:5
y = at 2:4
y = 1 x; tel at 2:7
y = 1 tel at 2:7
y = 1 , z = 2; tel at 2:7
y = 1 at 2:6
assert ; tel at 2:8
assert at 2:7
assert x tel at 2:10
assert x , z; tel at 2:10
assert x at 2:9
y = 1; ; tel at 2:8
y = 1; = 2; tel at 2:8
y = 1; let tel at 2:8
y = 1; at 2:7";

/// The first line of a text whose second one is an expression.
pub const TERM: &str = "node n() returns (y: int) let y =\n";

/// The text behind `y =`, on the second line, and the place of its error.
pub const EXPRESSIONS: &str = "a | ; tel at 2:5
a | at 2:4
a -> ) tel at 2:6
a -> at 2:5
a fby ; tel at 2:7
a fby at 2:6
a => then tel at 2:6
a => at 2:5
a or or b; at 2:6
a or at 2:5
a xor ; tel at 2:7
a xor at 2:6
a and * b; at 2:7
a and at 2:6
a = = b; at 2:5
a = at 2:4
a <> ; tel at 2:6
a <> at 2:5
a < ; tel at 2:5
a < at 2:4
a <= let tel at 2:6
a <= at 2:5
a > ]; tel at 2:5
a > at 2:4
a >= ; tel at 2:6
a >= at 2:5
a + + b; at 2:5
a + at 2:4
a - * b; at 2:5
a - at 2:4
a * ; tel at 2:5
a * at 2:4
a / / b; at 2:5
a / at 2:4
a div div b; at 2:7
a div at 2:6
a mod ; tel at 2:7
a mod at 2:6
not ; tel at 2:5
not and b; at 2:5
not at 2:4
- * b; at 2:3
- at 2:2
pre ; tel at 2:5
pre when c; at 2:5
pre at 2:4
current -> b; at 2:9
current at 2:8
if then a else b; at 2:4
if at 2:3
if c ; tel at 2:6
if c else b; at 2:6
if c at 2:5
if c then else b; at 2:11
if c then at 2:10
if c then a ; tel at 2:13
if c then a then b; at 2:13
if c then a at 2:12
if c then a else ; tel at 2:18
if c then a else at 2:17
if c then a else b else a; at 2:20
if c then a else b at 2:19
a when 3; at 2:8
a when pre c; at 2:8
a when at 2:7
a when not not c; at 2:12
a when not at 2:11
a when (3); at 2:9
a when ( at 2:9
a when (c + d); at 2:11
a when (c at 2:10
a when not (not c); at 2:13
a when c c; at 2:10
a when c [0]; at 2:10
a when c at 2:9
a ^ - 1; at 2:5
a ^ [0]; at 2:5
a ^ at 2:4
a ^ (); at 2:6
a ^ ( at 2:6
a ^ (1 ; tel at 2:8
a ^ (1 at 2:7
a ^ 2 3; at 2:7
a ^ 2 at 2:6
a[]; at 2:3
a[..1]; at 2:3
a[ at 2:3
a[1 , 2]; at 2:5
a[1 < 2]; at 2:5
a[1 at 2:4
a[1..]; at 2:6
a[1.. at 2:6
a[1..2 ..3]; at 2:8
a[1..2 at 2:7
a[1] b; at 2:6
a[1] at 2:5
(); at 2:2
( at 2:2
(a , b); at 2:4
(a ; tel at 2:4
(a at 2:3
(a) b; at 2:5
[]; at 2:2
[ at 2:2
[a ; tel at 2:4
[a ); at 2:4
[a at 2:3
[a, ]; at 2:5
[a, at 2:4
# a; at 2:3
# at 2:2
#(); at 2:3
#( at 2:3
#(a ]; at 2:5
#(a at 2:4
#(a, ); at 2:6
#(a, at 2:5
nor nor(a); at 2:5
nor at 2:4
nor(); at 2:5
nor( at 2:5
nor(a ; tel at 2:7
nor(a at 2:6
nor(a, , b); at 2:8
f g; at 2:3
f(; tel at 2:3
f(, a); at 2:3
f( at 2:3
f(a ; tel at 2:5
f(a b); at 2:5
f(a at 2:4
f(a, ); at 2:6
f(a, at 2:5
f(a) (b); at 2:6
f(a) at 2:5
f<<>>(a); at 2:4
f<< at 2:4
f<<1 > 2; at 2:6
f<<1 < 2>>(a); at 2:6
f<<1 at 2:5
f<<1, >>(a); at 2:7
f<<1, at 2:6
f<<1; ; 2>>(a); at 2:7
f<<1; at 2:6
f<<1>> ; tel at 2:8
f<<1>> at 2:7
f<<1>>(; tel at 2:8
f<<1>>( at 2:8
f<<1>>(a ]; at 2:10
map<<1, 3>>(a); at 2:6
map<</, 3>>(a); at 2:6
map<<not, 3>>(a); at 2:6
map<< at 2:6
red<<f >>(a); at 2:8
red<<f at 2:7
red<<+ 3>>(a); at 2:8
red<<+ at 2:7
fill<<f<<>>, 3>>(a); at 2:10
fill<<f<< at 2:10
fill<<f<<1 ], 3>>(a); at 2:12
fill<<f<<1>> (a); at 2:14
fill<<f<<1>> at 2:13
map<<f, >>(a); at 2:9
map<<f; at 2:8
map<<f, 3 , 4>>(a); at 2:11
map<<f, 3 at 2:10
map<<f, 3>> a; at 2:13
map<<f, 3>> at 2:12
map<<f, 3>>(); at 2:13
map<<f, 3>>( at 2:13
map<<f, 3>>(a ; tel at 2:15
map<<f, 3>>(a at 2:14
true false; at 2:6
true at 2:5
1 2; at 2:3
1 if c then a else b; at 2:3
a < b < c; at 2:7
a = b <> c; at 2:7
not a = b = c; at 2:11
a = not b = c; at 2:11
a and not b = c = d; at 2:17
a < b + 1 >= c; at 2:11
(a <= b <= c); at 2:9
f(a = b = c); at 2:9
if a < b < c then a else b; at 2:10
if c then a else b < d < e; at 2:24
1 - if c then 2 else a < b < d; at 2:28
pre if c then a else b = d = e; at 2:28
pre a when c [0]; at 2:14
a -> b when c ^ 2; at 2:15
- a when c [0]; at 2:12
a or b when c (d); at 2:15
tel at 2:1
=> a; at 2:1
when c; at 2:1";

/// The first line of a text whose second one is a static expression.
pub const CONSTANT: &str = "const n =\n";

/// The text behind `const n =`, on the second line, and the place of its error.
pub const STATICS: &str = "; at 2:1
true; at 2:1
not 1; at 2:1
[1]; at 2:1
 at 2:1
1 + ; at 2:5
1 + at 2:4
1 - + 2; at 2:5
1 - at 2:4
1 * * 2; at 2:5
1 * at 2:4
1 / ); at 2:5
1 / at 2:4
1 div mod 2; at 2:7
1 div at 2:6
1 mod ; at 2:7
1 mod at 2:6
- ; at 2:3
- at 2:2
2 * - + 1; at 2:7
(); at 2:2
( at 2:2
(1 ; at 2:4
(1 at 2:3
(1) 2; at 2:5
(1) at 2:4
1 < 2; at 2:3
1 ^ 2; at 2:3
1 and k; at 2:3
k (1); at 2:3
k k; at 2:3
k ..2; at 2:3";
