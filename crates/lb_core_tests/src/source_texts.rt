//! Source texts at their limits and beyond: the number of their constants and nodes, or the
//! refusal.
//!
//! `no token begins at` is E1, `no tree fits the tokens up to` is E2, `over its limit at` is E3.
//! The contract says no more of the place of E2 than that it is at a token or at the end.

/// Texts, and the number of their constants and nodes, or the refusal.
pub const CASES: &str = "-- nothing
text => 0 constants, 0 nodes
----
const n = 3; k: int = n;
node f<<const a: int, const b: int; const c: int>>(x, y: int^2^3; z: bool when not w;)
returns (o: int when (w););
var p: int; q, r: bool; var s: int;
let
  o = 1;
  (p, s) = 2;
  q, r = 3;
  assert 4;
tel;
const m = 7;
function g() returns (o: bool) let o = 1; tel.
node h(x: int) returns (o: int;) let tel
text => 3 constants, 3 nodes
----
node f() returns (y: int);
let y = 1;

text => no tree fits the tokens up to 3:1
----
node f() returns (y: int); let y = 1; tel;;
text => no tree fits the tokens up to 1:43
----
node f() returns (); let tel
text => no tree fits the tokens up to 1:19
----
node f(x: int;;) returns (y: int) let tel
text => no tree fits the tokens up to 1:15
----
node f<<>>() returns (y: int) let tel
text => no tree fits the tokens up to 1:9
----
node f() returns (y: int) var let tel
text => no tree fits the tokens up to 1:31
----
node f() returns (y: int) var a: int let tel
text => no tree fits the tokens up to 1:38
----
node f() returns (y: int) let (y = 1; tel
text => no tree fits the tokens up to 1:34
----
node f() returns (y: int) let y = 1 tel
text => no tree fits the tokens up to 1:37
----
const n: bool = 3;
text => no tree fits the tokens up to 1:10
----
const
text => no tree fits the tokens up to 1:6
----
x
text => no tree fits the tokens up to 1:1
----
node 2147483648 %
text => no token begins at 1:17
----
node 1 2147483648
text => over its limit at 1:8
----
(* a (* b *) const n = 1;
text => 1 constants, 0 nodes
----
(* a (* b *) const n = 1; *)
text => no tree fits the tokens up to 1:27
----
/* a /* (* b */ const n = 1;
text => 1 constants, 0 nodes
----
const n = 1;
  /* no end

text => no token begins at 2:3
----
-- (* /*
const n = 1; (*)
text => no token begins at 2:14
----
\u{feff}const n = 1;
text => no token begins at 1:1
----
const n{63 a} = 1;
text => 1 constants, 0 nodes
----
const
n{64 a} = 1;
text => over its limit at 2:1
----
node f() returns (y: int);
let
  y = 1;
text => no tree fits the tokens up to 3:9
----
node f() returns (y: int);
let y = 1;
node g() returns (y: int); let tel
text => no tree fits the tokens up to 3:1
----
node f() returns (y: int);
let tel
 y = 1;
text => no tree fits the tokens up to 3:2
----
node f() returns (y: int);
let y = 2147483648;
text => over its limit at 2:9
----
node n() returns (y: int) let
y = -2147483648; tel
text => over its limit at 2:6
----
node n() returns (y: int) let
y = a < b < 3; tel
text => no tree fits the tokens up to 2:11
----
node n() returns (y: int) let
y = (1 2; tel
text => no tree fits the tokens up to 2:8
----
node n() returns (y: int) let
y = f<<1>>; tel
text => no tree fits the tokens up to 2:11
----
{1000000  }
text => 0 constants, 0 nodes
----
{1000001  }
text => over its limit at 1:1
----
%{999999  }
text => no token begins at 1:1
----
%{1000000  }
text => over its limit at 1:1
----
%{65 n}
text => no token begins at 1:1
----
2147483648 %
text => no token begins at 1:12
----
node main\r\n\t/* tel
text => no token begins at 2:2
----
x = {64 n}
text => no tree fits the tokens up to 1:1
----
x = {65 n}
text => over its limit at 1:5
----
x
 = 1;
\t-2147483647 
text => no tree fits the tokens up to 1:1
----
x
 = 1;
\t-2147483648 
text => over its limit at 3:3
----
ok = {499 (}
text => no tree fits the tokens up to 1:1
----
ok = {500 (}
text => over its limit at 1:505
----
ok = {500 a;(}
text => no tree fits the tokens up to 1:1
----
let {501 x = y; }
text => no tree fits the tokens up to 1:1
----
ok = {166 map<<f<<1>>;3>>(}
text => no tree fits the tokens up to 1:1
----
ok = {200 map<<f<<1>>;3>>(}
text => over its limit at 1:2668
----
<<{500 (;}
text => over its limit at 1:1001
----
<< let {500 (;}
text => no tree fits the tokens up to 1:1
----
>> << >>{500 (;}
text => no tree fits the tokens up to 1:1
----
node n() returns (y: int)
let
assert {500 (}x{500 )};
tel
text => 0 constants, 1 nodes
----
node n() returns (y: int)
let
assert {501 (}x{501 )};
tel
text => over its limit at 3:508
----
node n() returns (y: int)
let
assert {500 [}x{500 ]};
tel
text => 0 constants, 1 nodes
----
node n() returns (y: int)
let
assert {501 [}x{501 ]};
tel
text => over its limit at 3:508
----
node n() returns (y: int)
let
assert {500 f(}x{500 )};
tel
text => 0 constants, 1 nodes
----
node n() returns (y: int)
let
assert {501 f(}x{501 )};
tel
text => over its limit at 3:1009
----
node n() returns (y: int)
let
assert {500 pre }x;
tel
text => 0 constants, 1 nodes
----
node n() returns (y: int)
let
assert {501 pre }x;
tel
text => over its limit at 3:2008
----
node n() returns (y: int)
let
assert {500 not }x;
tel
text => 0 constants, 1 nodes
----
node n() returns (y: int)
let
assert {501 not }x;
tel
text => over its limit at 3:2008
----
node n() returns (y: int)
let
assert {500 if }x{500  then 1 else 2};
tel
text => 0 constants, 1 nodes
----
node n() returns (y: int)
let
assert {501 if }x{501  then 1 else 2};
tel
text => over its limit at 3:1508
----
node n() returns (y: int)
let
y = {499 (}x{499 )};
tel
text => 0 constants, 1 nodes
----
node n() returns (y: int)
let
y = {500 (}x{500 )};
tel
text => over its limit at 3:504
----
node n() returns (y: int)
let
y = {499 [}x{499 ]};
tel
text => 0 constants, 1 nodes
----
node n() returns (y: int)
let
y = {500 [}x{500 ]};
tel
text => over its limit at 3:504
----
node n() returns (y: int)
let
y = {499 f(}x{499 )};
tel
text => 0 constants, 1 nodes
----
node n() returns (y: int)
let
y = {500 f(}x{500 )};
tel
text => over its limit at 3:1004
----
node n() returns (y: int)
let
y = a^{498 (}x{498 )};
tel
text => 0 constants, 1 nodes
----
node n() returns (y: int)
let
y = a^{499 (}x{499 )};
tel
text => over its limit at 3:505
----
node n() returns (y: int)
let
y = {166 map<<f<<1>>;3>>(}x{166 )};
tel
text => 0 constants, 1 nodes
----
node n() returns (y: int)
let
y = {167 map<<f<<1>>;3>>(}x{167 )};
tel
text => over its limit at 3:2667
----
node n() returns (y: int)
let
y = {200 map<<f<<1>>;3>>(}x{200 )};
tel
text => over its limit at 3:2667";
