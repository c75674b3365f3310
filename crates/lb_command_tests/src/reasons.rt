//! The reasons that are printed for traces that do not pass.

/// Words and inputs, and the output, the errors and the status.
pub const REASONS: &str = "\
lbench --observe safe --explain
-- Heats below 18 degrees, and stops above 22.
node main(t: int; door: bool) returns (heat: bool);
let
  heat = (t < 18) -> if t < 18 then true else if t > 22 then false else pre heat;
tel

-- The heater is never on while the door is open.
node safe(t: int; door: bool; heat: bool) returns (ok: bool);
let
  ok = not (heat and door);
tel
%traces
trace,t,door
calm,17,0
calm,20,0
calm,23,0
calm,21,1
draught,17,0
draught,19,0
draught,20,1
cold,15,1
=>
calm passed
draught false 2
cold false 0
total 3 passed 1 fault 0 undefined 0 assertion 0 false 2
draught false 2: safe.ok is false (-:10:3)
  10:8: not (heat and door) with heat and door = true
  10:13: heat and door with heat = true, door = true
  8:31: heat is true, an input
  4:3: main.heat = `->`, its right side is taken
  4:22: `if`, its condition is false
  4:47: `if`, its condition is false
  4:73: pre heat is true, kept since instant 1
cold false 0: safe.ok is false (-:10:3)
  10:8: not (heat and door) with heat and door = true
  10:13: heat and door with heat = true, door = true
  8:31: heat is true, an input
  4:3: main.heat = `->`, its left side is taken
  4:11: t < 18 with t = 15
status 1
----
lbench --explain
node count(up: bool; ton: int) returns (alarm: bool);
var n: int;
let
  n = if up then (0 -> pre n) + 1 else 0;
  alarm = n >= ton;
tel
node main(trip: bool; x: int; d: int; c: bool) returns (ok: bool);
var alarm: bool; r: int; k: bool when c; cur: bool;
let
  alarm = count(trip, 3);
  assert not (trip and x > 9);
  r = x / d;
  k = trip when c;
  cur = current k;
  ok = (trip => alarm) and (r < 5) and not cur or (x = 7);
tel
%traces
trace,trip,x,d,c
a,0,1,1,1
a,1,1,1,0
b,0,1,1,1
b,0,9,0,0
c,0,1,1,0
d,0,1,1,1
d,1,12,3,0
e,0,1,1,1
e,0,9,1,1
f,0,1,1,1
f,0,2147483647,1,1
g,1,7,1,1
g,1,7,1,1
g,1,1,1,0
=>
a false 1
b fault 1
c undefined 0
d assertion 1
e false 1
f false 1
g false 2
total 7 passed 0 fault 1 undefined 1 assertion 1 false 4
a false 1: main.ok is false (-:15:3)
  15:8: `or`, its left side is false
  15:8: `and`, its left side is false
  15:8: `and`, its left side is false
  15:9: trip => alarm with trip = true, alarm = false
  10:3: alarm = count(trip, 3), which is false
  5:3: count.alarm = n >= ton with n = 1, ton = 3
b fault 1: main.r, x / d with x = 9, d = 0 (-:12:7)
c undefined 0: main.ok is nil: current k has no value yet (-:14:9)
d assertion 1: assert not (trip and x > 9) (-:11:3)
  11:10: not (trip and x > 9) with trip and x > 9 = true
  11:15: `and`, its left side is true
  7:11: trip is true, an input
e false 1: main.ok is false (-:15:3)
  15:8: `or`, its left side is false
  15:8: `and`, its left side is false
  15:8: `and`, its right side is false
  15:29: r < 5 with r = 9
f false 1: main.ok is false (-:15:3)
  15:8: `or`, its left side is false
  15:8: `and`, its left side is false
  15:8: `and`, its right side is false
  15:29: r < 5 with r = 2147483647
g false 2: main.ok is false (-:15:3)
  15:8: `or`, its left side is false
  15:8: `and`, its right side is false
  15:40: not cur with cur = true
  14:3: cur = current k is true, kept since instant 1
status 1
----
lbench --explain
const top = 5;
node step(n: int; on: bool) returns (m: int);
let
  m = if on then 100 / n else n;
tel
node mem(a: bool; b: bool) returns (was: bool; cnt: int);
let
  was = false fby a;
  cnt = 0 fby (cnt + 1);
tel
node main(n: int; on: bool^3; z: int) returns (ok: bool);
var A: int^3; was: bool; cnt: int; one: bool; none: bool; s: int; w: int; any: bool;
let
  A = map<<step, 3>>([n, n + 1, z], on);
  (was, cnt) = mem(on[0], on[1]);
  one = #(on[0], on[1], on[2]);
  none = nor(was, cnt > 3);
  s = red<<+, 3>>(0, A);
  w = pre (z * z);
  any = red<<or, 3>>(false, on);
  assert true -> (w <> 49 or s > 0);
  ok = if any then one else none and s < top * 100;
tel
%traces
trace,n,on[0],on[1],on[2],z
a,1,1,0,0,3
a,0,1,0,0,3
b,1,1,0,1,3
c,1,0,0,0,3
c,1,1,0,0,3
c,1,0,0,0,3
e,-9,0,0,0,7
e,-9,0,0,0,-4
f,499,0,0,0,7
=>
a fault 1
b false 0
c false 2
e assertion 1
f false 0
total 5 passed 0 fault 1 undefined 0 assertion 1 false 3
a fault 1: step.m, 100 / n with n = 0 (-:4:18, in main at 14:12[0])
b false 0: main.ok is false (-:22:3)
  22:8: `if`, its condition is true
  16:3: one = `#`, more than one of its operands is true
  11:19: on[0] is true, an input
c false 2: main.ok is false (-:22:3)
  22:8: `if`, its condition is false
  22:29: `and`, its left side is false
  17:3: none = `nor`, one of its operands is true
  15:3: was = mem(on[0], on[1]), which is true
  8:3: mem.was = `fby`, its right side is taken
  8:9: false fby a is true, kept since instant 1
e assertion 1: assert true -> (w <> 49 or s > 0) (-:21:3)
  21:10: `->`, its right side is taken
  21:19: `or`, its left side is false
  21:19: w <> 49 with w = 49
f false 0: main.ok is false (-:22:3)
  22:8: `if`, its condition is false
  22:29: `and`, its right side is false
  22:38: s < top * 100 with s = 1006, top * 100 = 500
status 1
----
lbench --observe safe --explain
-- A door: it opens on a request, and shuts after two ticks.
node timer<<const n: int>>(run: bool) returns (done: bool);
var left: int;
let
  left = if run then (n fby (left - 1)) else n;
  done = left <= 0;
tel
node main(request: bool; block: bool; load: int) returns (open: bool; weight: int);
var c: bool; rare: int when c; done: bool;
let
  c = block -> not pre block;
  rare = load when c;
  weight = current rare;
  done = timer<<2>>(true -> pre open);
  open = request or (false -> pre open) and not done;
  assert load >= 0;
tel
node safe(request: bool; block: bool; load: int; open: bool; weight: int) returns (ok: bool);
let
  ok = not open xor block => 100 / (weight + 1) > 0;
tel
%traces
trace,request,block,load
p,1,1,5
p,0,0,7
q,1,0,5
r,1,1,-1
s,0,1,-1
t,1,1,500
u,0,1,5
=>
p passed
q undefined 0
r fault 0
s fault 0
t false 0
u passed
total 6 passed 2 fault 2 undefined 1 assertion 0 false 1
q undefined 0: safe.ok is nil: current rare has no value yet (-:13:12)
r fault 0: safe.ok, 100 / (weight + 1) with weight + 1 = 0 (-:20:30)
s fault 0: safe.ok, 100 / (weight + 1) with weight + 1 = 0 (-:20:30)
t false 0: safe.ok is false (-:20:3)
  20:8: `=>`, its right side is false
  20:30: 100 / (weight + 1) > 0 with 100 / (weight + 1) = 0
status 1
----
lbench --explain
node both(a: bool; b: bool) returns (y: bool);
let y = a and b; tel
node main(a: bool; b: bool; c: bool; x: int) returns (ok: bool);
var p: bool; q: bool;
let
  p = both(a, both(b, c));
  q = both(c, true -> pre (x > 3));
  assert nor(a, b, c) or x > 0;
  ok = if a then p else q;
tel
%traces
trace,a,b,c,x
a,1,1,0,1
b,0,1,1,2
b,0,1,1,2
c,0,1,0,0
=>
a false 0
b false 1
c assertion 0
total 3 passed 0 fault 0 undefined 0 assertion 1 false 2
a false 0: main.ok is false (-:9:3)
  9:8: `if`, its condition is true
  6:3: p = both(a, both(b, c)), which is false
  2:5: both.y = a and b with a = true, b = false
  1:20: b is false, as it is called at 6:7
  2:5: both.y = a and b with a = true, b = false
  1:20: b is false, as it is called at 6:15
  3:29: main.c is false, an input
b false 1: main.ok is false (-:9:3)
  9:8: `if`, its condition is false
  7:3: q = both(c, true -> pre (x > 3)), which is false
  2:5: both.y = a and b with a = true, b = false
  1:20: b is false, as it is called at 7:7
  7:15: `->`, its right side is taken
  7:23: pre (x > 3) is false, kept since instant 0
c assertion 0: assert nor(a, b, c) or x > 0 (-:8:3)
  8:10: `or`, its left side is false
  8:10: `nor`, one of its operands is true
  3:20: b is true, an input
status 1
----
lbench --explain
-- Two levels of instances, an array, a clock, nil and a fault.
node count(up: bool) returns (n: int);
let
  n = (0 -> pre n) + (if up then 1 else 0);
tel
node twice(up: bool; c: bool) returns (n: int; held: int);
var slow: int when c;
let
  n = count(up) + count(not up);
  slow = n when c;
  held = current slow;
tel
node main(up: bool; c: bool; d: int) returns (ok: bool);
var n: int; held: int; A: int^2; last: int; q: int;
let
  (n, held) = twice(up, c);
  A = [n, d];
  last = pre d;
  q = n / d;
  ok = n < 4;
tel
%traces
trace,up,c,d
one,1,0,5
one,0,1,-7
one,1,0,3
one,1,1,2
one,1,1,2
two,1,1,1
two,0,1,0
three,1,0,2147483647
=>
one false 3
two fault 1
three passed
total 3 passed 1 fault 1 undefined 0 assertion 0 false 1
one false 3: main.ok is false (-:20:3)
  20:8: n < 4 with n = 4
two fault 1: main.q, n / d with n = 2, d = 0 (-:19:7)
status 1
----
lbench --observe safe --explain
node cell(on: bool) returns (n: int);
let n = (0 -> pre n) + (if on then 1 else 0); tel
node main(on: bool^2; go: bool) returns (ok: bool);
var c: int^2; slow: int when go; p: bool;
let
  c = map<<cell, 2>>(on);
  slow = c[0] when go;
  p = false -> pre on[0];
  ok = c[0] + c[1] < 4;
tel
node safe(on: bool^2; go: bool; x: bool) returns (ok: bool);
var bad: int;
let
  assert go or x;
  bad = 6 / (3 - current_of(go));
  ok = x and bad > 0;
tel
node current_of(go: bool) returns (n: int);
let n = (0 -> pre n) + 1; tel
%traces
trace,on[0],on[1],go
t,1,0,1
t,1,1,0
t,0,0,1
u,1,1,0
u,1,1,0
=>
t fault 2
u assertion 1
total 2 passed 0 fault 1 undefined 0 assertion 1 false 0
warning: safe.x is main.ok
t fault 2: safe.bad, 6 / (3 - current_of(go)) with 3 - current_of(go) = 0 (-:15:9)
u assertion 1: assert go or x (-:14:3)
  14:10: go or x with go = false, x = false
  11:23: go is false, an input
  3:23: main.go is false, an input
status 1
----
lbench --explain
node scaled(x: int; b: bool) returns (y: int);
let y = if b then x * 1000000 else x; tel
node holds(b: bool) returns (y: bool);
let y = b -> pre y and b; tel
node main(x: int; d: int; A: int^2) returns (ok: bool);
var s: int; r: int; p: bool;
let
  s = red<<+, 2>>(0, A);
  r = scaled(x / d, x > 3 and d > 1);
  p = holds(x > d and not (d = 7));
  assert true -> (pre (100 / A[0]) > 0 or r < 0);
  ok = p and (scaled(0 -> pre (A[1] - d), false) < 9);
tel
%traces
trace,x,d,A[0],A[1]
sum,1,1,2147483647,1
argument,5,0,1,1
large,5000,2,1,1
asserted,2,1,0,1
kept,2,1,1,-2147483648
given,9,7,1,1
given,2,3,1,1
deep,9,1,1,1
deep,9,7,1,1
=>
sum fault 0
argument fault 0
large fault 0
asserted fault 0
kept fault 0
given false 0
deep false 1
total 7 passed 0 fault 5 undefined 0 assertion 0 false 2
sum fault 0: main.s, `+` with 2147483647, 1 (-:8:3)
argument fault 0: scaled.x, x / d with x = 5, d = 0 (-:9:14)
large fault 0: scaled.y, x * 1000000 with x = 2500 (-:2:19, in main at 9:7)
asserted fault 0: 100 / A[0] with A[0] = 0 (-:11:24)
kept fault 0: A[1] - d with A[1] = -2147483648, d = 1 (-:12:32)
given false 0: main.ok is false (-:12:3)
  12:8: `and`, its left side is false
  10:3: p = holds(x > d and not (d = 7)), which is false
  4:5: holds.y = `->`, its left side is taken
  3:12: b is false, as it is called at 10:7
  10:13: `and`, its right side is false
  10:23: not (d = 7) with d = 7 = true
  10:28: d = 7 with d = 7
deep false 1: main.ok is false (-:12:3)
  12:8: `and`, its left side is false
  10:3: p = holds(x > d and not (d = 7)), which is false
  4:5: holds.y = `->`, its right side is taken
  4:14: pre y and b with pre y = true, b = false
  3:12: b is false, as it is called at 10:7
  10:13: `and`, its right side is false
  10:23: not (d = 7) with d = 7 = true
  10:28: d = 7 with d = 7
status 1
----
lbench --explain
node main(x: bool; d: bool) returns (ok: bool);
let
  assert x -> red<<and, 2>>(true, pre (pre [x, d]));
  ok = true -> if pre x then d else pre (pre d);
tel
%traces
trace,x,d
assumed,1,1
assumed,1,1
first,0,1
=>
assumed undefined 1
first assertion 0
total 2 passed 0 fault 0 undefined 1 assertion 1 false 0
assumed undefined 1: the assertion is nil: pre (pre [x, d]) has no value yet (-:3:35)
first assertion 0: assert x -> red<<and, 2>>(true, pre (pre [x, d])) (-:3:3)
  3:10: `->`, its left side is taken
  1:11: x is false, an input
status 1
----
lbench --explain
node late(c: bool; x: int when c) returns (y: int);
let y = current x; tel
node main(x: int; c: bool) returns (ok: bool);
var y: int; on: bool; r: int when on;
let
  y = late(c, x when c);
  on = c -> pre c or pre (pre c);
  r = x when on;
  ok = y > x or current r > 3 -> if pre (x > 2) then x > 1 else pre (pre x) > 1;
tel
%traces
trace,x,c
called,1,0
clock,1,1
clock,1,1
deep,5,1
deep,1,0
=>
called undefined 0
clock false 0
deep undefined 1
total 3 passed 0 fault 0 undefined 2 assertion 0 false 1
called undefined 0: main.ok is nil: current x has no value yet (-:2:9, in main at 6:7)
clock false 0: main.ok is false (-:9:3)
  9:8: `->`, its left side is taken
  9:8: `or`, its left side is false
  9:8: y > x with y = 1, x = 1
deep undefined 1: main.on is nil: pre (pre c) has no value yet (-:7:22)
status 1
----
lbench --explain
node main(x: int) returns (ok: bool);
let ok = x > pre x; tel
%traces
trace,x{22 
t@,1}
=>
{22 t@ undefined 0
}total 22 passed 0 fault 0 undefined 22 assertion 0 false 0
{20 t@ undefined 0: main.ok is nil: pre x has no value yet (-:2:14)
}status 1
----
lbench --explain-all
as above
=>
{22 t@ undefined 0
}total 22 passed 0 fault 0 undefined 22 assertion 0 false 0
{22 t@ undefined 0: main.ok is nil: pre x has no value yet (-:2:14)
}status 1
----
lbench --explain
-- Where `nor` and `#` are true, and where `fby` takes its right side.
node main(a, b: bool; n: int) returns (ok: bool);
var few, none: bool;
let
  none = not nor(a, b);
  few = not #(a, b);
  ok = if n = 0 then none else if n = 1 then few else (true fby a);
tel
%traces
trace,a,b,n
none,0,0,0
few,0,1,1
late,0,1,2
late,0,1,2
=>
none false 0
few false 0
late false 1
total 3 passed 0 fault 0 undefined 0 assertion 0 false 3
none false 0: main.ok is false (-:7:3)
  7:8: `if`, its condition is true
  5:3: none = not nor(a, b) with nor(a, b) = true
  5:14: `nor`, none of its operands is true
few false 0: main.ok is false (-:7:3)
  7:8: `if`, its condition is false
  7:32: `if`, its condition is true
  6:3: few = not #(a, b) with #(a, b) = true
  6:13: `#`, at most one of its operands is true
late false 1: main.ok is false (-:7:3)
  7:8: `if`, its condition is false
  7:32: `if`, its condition is false
  7:56: `fby`, its right side is taken
  7:56: true fby a is false, kept since instant 0
status 1
----
lbench --explain
-- Faults within an array form and an iterator: of an assertion, and of a memory.
node main(n: int) returns (ok: bool);
var m: int;
let
  assert [100 / n, 1][0] < 100;
  assert red<<+, 2>>(n, [2147483640, 1]) > 0;
  m = 0 -> pre (([100 / (n - 3), 1])[0]);
  ok = m < 100;
tel
%traces
trace,n
zero,0
sum,9
three,3
=>
zero fault 0
sum fault 0
three fault 0
total 3 passed 0 fault 3 undefined 0 assertion 0 false 0
zero fault 0: an assertion, `/` with 100, 0, in [100 / n, 1][0] < 100 (-:5:10)
sum fault 0: an assertion, `+` with 9, 2147483640, in red<<+, 2>>(n, [2147483640, 1]) > 0 (-:6:10)
three fault 0: what a memory keeps, `/` with 100, 0, in 0 -> pre (([100 / (n - 3), 1])[0]) (-:7:7)
status 1
----
lbench --explain
-- Nil within `#` and `nor`.
node main(k: int; a, b: bool) returns (ok: bool);
var few, none: bool;
let
  few = #(a, pre b, b);
  none = nor(a and pre (a or b), b);
  ok = if k = 0 then few else if k = 1 then none
    else #(false, not nor(b, (true fby a) and true -> pre (pre a)));
tel
%traces
trace,k,a,b
few,0,1,0
none,1,0,1
deep,2,1,0
deep,2,1,0
=>
few undefined 0
none undefined 0
deep undefined 1
total 3 passed 0 fault 0 undefined 3 assertion 0 false 0
few undefined 0: main.ok is nil: pre b has no value yet (-:5:14)
none undefined 0: main.ok is nil: pre (a or b) has no value yet (-:6:20)
deep undefined 1: main.ok is nil: pre (pre a) has no value yet (-:8:55)
status 1
----
lbench --explain
-- Nil within array forms.
node main(k: int; a, b: bool) returns (ok: bool);
var A: bool^3; M: bool^2^2;
let
  A = [a, b] | [pre (a and b)];
  M = [[a, b], pre [b, a]];
  ok = if k = 0 then A[2] else if k = 1 then ([b, a, pre b][1..2])[1]
    else if k = 2 then ((pre b)^2)[1] else if k = 3 then (pre [a, b])[0]
    else if k = 4 then (if a then pre A else A)[1] else if k = 5 then M[1][0]
    else (A -> A)[2];
tel
%traces
trace,k,a,b
joined,0,1,1
slice,1,1,1
copies,2,1,1
array,3,1,1
branch,4,1,1
matrix,5,1,1
side,6,1,1
=>
joined undefined 0
slice undefined 0
copies undefined 0
array undefined 0
branch undefined 0
matrix undefined 0
side undefined 0
total 7 passed 0 fault 0 undefined 7 assertion 0 false 0
joined undefined 0: main.ok is nil: pre (a and b) has no value yet (-:5:17)
slice undefined 0: main.ok is nil: pre b has no value yet (-:7:54)
copies undefined 0: main.ok is nil: pre b has no value yet (-:8:26)
array undefined 0: main.ok is nil: pre [a, b] has no value yet (-:8:59)
branch undefined 0: main.ok is nil: pre A has no value yet (-:9:35)
matrix undefined 0: main.ok is nil: pre [b, a] has no value yet (-:6:16)
side undefined 0: main.ok is nil: pre (a and b) has no value yet (-:5:17)
status 1
----
lbench --explain
-- Nil within iterators, over operators and over nodes.
node both(acc, x: bool) returns (r: bool);
let r = acc and x; tel
node next(acc: bool) returns (r, e: bool);
let r = not acc; e = [acc, pre acc][1]; tel
node main(k: int; a, b: bool) returns (ok: bool);
var last: bool; E: bool^2;
let
  (last, E) = fill<<next, 2>>([a, pre a][1]);
  ok = if k = 0 then red<<and, 2>>(true, [a, pre b])
    else if k = 1 then (map<<or, 2>>([a, b], pre [b, a]))[1]
    else if k = 2 then red<<both, 2>>(a, [b, pre b])
    else if k = 3 then (map<<both, 2>>([a, b], [a, pre (not b)]))[1]
    else if k = 4 then red<<xor, 2>>(#(a, pre a), [a, b]) else if k = 5 then E[1] else last;
tel
%traces
trace,k,a,b
red,0,1,1
map,1,1,1
red_node,2,1,1
map_node,3,1,1
first,4,1,1
own,5,1,1
last,6,1,1
=>
red undefined 0
map undefined 0
red_node undefined 0
map_node undefined 0
first undefined 0
own undefined 0
last undefined 0
total 7 passed 0 fault 0 undefined 7 assertion 0 false 0
red undefined 0: main.ok is nil: pre b has no value yet (-:10:46)
map undefined 0: main.ok is nil: pre [b, a] has no value yet (-:11:46)
red_node undefined 0: main.ok is nil: pre b has no value yet (-:12:46)
map_node undefined 0: main.ok is nil: pre (not b) has no value yet (-:13:52)
first undefined 0: main.ok is nil: pre a has no value yet (-:14:43)
own undefined 0: main.ok is nil: pre acc has no value yet (-:5:28, in main at 9:21[1])
last undefined 0: main.ok is nil: pre a has no value yet (-:9:35)
status 1
----
lbench --explain
-- Nil within the forms of a called node, behind the memories of other instances.
node sum(x: int) returns (n: int);
let n = x -> pre n + x; tel
node pick(A: int^2; c: bool; y: int when c) returns (n: int);
var B: int^2; z: int when c;
let
  z = 0 fby (y + sum(y));
  B = (0^2) fby (A -> pre A);
  n = ([B[0], current z] | B)[1];
tel
node main(x: int; c: bool) returns (ok: bool);
let ok = #(pick([sum(x), x], c, x when c) < 0, x < 0); tel
%traces
trace,x,c
slow,1,0
=>
slow undefined 0
total 1 passed 0 fault 0 undefined 1 assertion 0 false 0
slow undefined 0: main.ok is nil: current z has no value yet (-:9:15, in main at 12:12)
status 1
----
lbench --explain
-- Nil within the forms of an assertion and of a clock.
node main(k: int; a, b: bool) returns (ok: bool);
var on: bool; r: int when on;
let
  assert if k = 0 then [a, true][1] else #(pre a, b);
  on = if k = 1 then true else nor(current (a when b), a);
  r = k when on;
  ok = true -> current r >= 0;
tel
%traces
trace,k,a,b
assumed,1,0,1
clock,0,1,0
=>
assumed undefined 0
clock undefined 0
total 2 passed 0 fault 0 undefined 2 assertion 0 false 0
assumed undefined 0: the assertion is nil: pre a has no value yet (-:5:44)
clock undefined 0: main.on is nil: current (a when b) has no value yet (-:6:36)
status 1";
