//! Random programs, and each cell of the values of a trace.
//!
//! `bench/values` makes the programs, and computes the values by a naive reading of the equations,
//! which is written apart, from the pages alone. These few programs were chosen out of many:
//! together they have each form on a clock and off it, and each verdict.

/// Words and inputs, and the output, the errors and the status.
pub const RANDOM_VALUES: &str = "\
lbench --show t0 --all --format csv
node count(x: int) returns (n: int);
let n = (x -> pre n + x) mod 100; tel
node main(i0: bool; i1: int; i2: int; i3: bool^2) returns (ok: bool);
var v0: int^1; v1: bool when not i0; v2: int^2 when not v1;
let
  assert true -> (i0 fby i0) or (i2 <> i1);
  v0 = map<<+, 1>>((0^1), map<<count, 1>>((i1^1)));
  ok = true -> (((if i0 then i1 else i1) <= ((i1 + i1) mod 1000)) or ((i0 -> i0) => (current
    v1)) or (not (i0 -> pre ok)));
  v2 = ((((((1 when not i0)^2) when not v1) -> (((i2^2) when not i0) when not v1)) -> [(10 when
    not v1), ((2 when not i0) when not v1)]) -> pre v2);
  v1 = (((i0 when not i0) -> pre v1) fby v1);
tel
%traces
trace,i0,i1,i2,i3[0],i3[1]
t0,0,1,3,1,0
t0,1,1,3,0,1
t0,0,3,3,0,1
t0,0,3,2,1,0
t0,1,20,20,0,1
t0,1,-2,3,0,1
=>
instant,main.i0,main.i1,main.i2,main.i3[0],main.i3[1],main.ok,main.v0[0],main.v1,main.v2[0],\
main.v2[1],main.count@7:32[0].x,main.count@7:32[0].n
0,0,1,3,1,0,1,1,0,1,1,1,1
1,1,1,3,0,1,1,2,,,,1,2
2,0,3,3,0,1,1,5,0,1,1,3,5
3,0,3,2,1,0,1,8,0,1,1,3,8
4,1,20,20,0,1,1,28,,,,20,28
status 0
----
lbench --show t0 --all --format csv
node toggle(b: bool) returns (c: bool);
let c = b -> if b then not pre c else pre c; tel
node late(c: bool; y: int when c) returns (z: int when c);
let z = 0 -> pre y; tel
node main(i0: bool; i1: int; i2: int^3) returns (ok: bool);
var v0: bool when i0; v1: int^1 when not v0; v2: int when i0; v3: int^2^2; v4: bool^2; v5:
    int^2; v6: int when i0;
let
  v3 = [(i1^2), [i1, i1]];
  v5 = (i1^2);
  v6 = ((current ((v2^3) when not v0)))[2];
  v1 = ((pre (2147483647^2)))[1 .. 1];
  v4 = map<<and, 2>>(((i0^1) | map<<xor, 1>>((false^1), [i0])), (false^2));
  ok = true -> (nor((current v0), (i0 or i0), (i0 and i0)) or toggle(i0) or (red<<+, 2>>(i1, v5)
    = (if false then i1 else 10)));
  v2 = late(i0, (i1 when i0));
  v0 = (((((i0 when i0)^1) -> pre ([i0] when i0)))[0] and ((if false then (i0 when i0) else (i0
    when i0)) xor ((false when i0) fby v0)));
tel
%traces
trace,i0,i1,i2[0],i2[1],i2[2]
t0,0,7,3,7,3
t0,0,7,3,7,3
t0,0,-1,3,7,20
t0,0,1,-2,20,1
t0,0,1,2,0,-2
t0,0,1,20,1,1
=>
instant,main.i0,main.i1,main.i2[0],main.i2[1],main.i2[2],main.ok,main.v0,main.v1[0],main.v2,\
main.v3[0][0],main.v3[0][1],main.v3[1][0],main.v3[1][1],main.v4[0],main.v4[1],main.v5[0],\
main.v5[1],main.v6,main.toggle@14:63.b,main.toggle@14:63.c,main.late@16:8.c,main.late@16:8.y,\
main.late@16:8.z
0,0,7,3,7,3,1,,,,7,7,7,7,0,0,7,7,,0,0,0,,
1,0,7,3,7,3,?,,,,7,7,7,7,0,0,7,7,,0,0,0,,
status 0
----
lbench --show t0 --all --format csv
const C = 3; D: int = C - 1;
node split(x: int) returns (b: bool; y: int when b; z: int when not b);
let b = x > 0; y = count(x when b); z = (-x when not b) -> pre z + 1; tel
node count(x: int) returns (n: int);
let n = (x -> pre n + x) mod 100; tel
node step<<const k: int>>(a: int) returns (b, e: int);
let b = (a + k) mod 50; e = k fby (e + a) mod 50; tel
node main(i0: bool; i1: int; i2: int^1) returns (ok: bool);
var v0: int when i0; v1: int when i0; v2: bool; v3: int when v2; v4: int when not v2; v5: int^2;
let
  v5 = [(current v0), (((i1 -> (current v4)) * ((i1 - C) mod 1000)) mod 1000)];
  (v2, v3, v4) = split(red<<count, 1>>((current v0)));
  assert true -> (ok => true) or (true and false);
  ok = true -> (((if i0 then v2 else i0) -> nor(v2, i0, i0)) or ((i0 -> pre ok) xor (if v2 then
    v2 else i0)) or (if (if i0 then v2 else v2) then #(i0, i0, v2) else (i0 -> (current (true
    when not v2)))));
  (v0, v1) = step<<2>>(((if (true when i0) then 0 else 2147483647) -> ((2 + 2147483647) mod
    1000)));
tel
%traces
trace,i0,i1,i2[0]
t0,1,20,2
t0,0,20,-2
t0,1,-2,-2147483648
t0,0,2,-2
t0,0,1,-2
t0,1,0,-2147483648
=>
instant,main.i0,main.i1,main.i2[0],main.ok,main.v0,main.v1,main.v2,main.v3,main.v4,main.v5[0],\
main.v5[1],main.split@12:18.x,main.split@12:18.b,main.split@12:18.y,main.split@12:18.z,\
main.split@12:18.count@3:20.x,main.split@12:18.count@3:20.n,main.count@12:29[0].x,\
main.count@12:29[0].n,main.step@17:14.a,main.step@17:14.b,main.step@17:14.e
0,1,20,2,1,2,2,1,2,,2,340,2,1,2,,2,2,2,2,0,2,2
1,0,20,-2,1,,,1,6,,2,?,4,1,6,,4,6,2,4,,,
2,1,-2,-2147483648,!,!,2,!,,,!,?,!,!,,,,,!,!,!,!,2
status 0
----
lbench --show t0 --all --format csv
const C = 3; D: int = C - 1;
node count(x: int) returns (n: int);
let n = (x -> pre n + x) mod 100; tel
node toggle(b: bool) returns (c: bool);
let c = b -> if b then not pre c else pre c; tel
node step<<const k: int>>(a: int) returns (b, e: int);
let b = (a + k) mod 50; e = k fby (e + a) mod 50; tel
node main(i0: bool; i1: int) returns (ok: bool);
var v0: int^1 when i0; v1: int^2^2; v2: bool^2; v3: int; v4: int when not i0; v5: int^1 when not
    i0;
let
  (v4, v5) = fill<<step<<C>>, 1>>((if (10 <= 1) then (((i1 when not i0) - (0 when not i0)) mod
    1000) else (- (i1 when not i0))));
  assert true -> ((false^3))[1] or (ok fby i0);
  v1 = ((([(i1^2), (i1^2)] fby v1))[1 .. 1] | ((((i1^2)^3))[1 .. 2])[1 .. 1]);
  v0 = ([i1] when i0);
  v2 = map<<xor, 2>>(([i0] | map<<toggle, 1>>([i0])), map<<toggle, 2>>((if i0 then (i0^2) else
    (i0^2))));
  v3 = ((((i1 - 2) mod 1000) -> (current (D when not i0))) div count((current (i1 when i0))));
  ok = true -> ((#(false, i0, i0) -> pre ok) or ((i0 -> (current (false when i0))) -> pre ok) or
    (toggle(i0) -> (current (i0 when i0))));
tel
%traces
trace,i0,i1
t0,1,46341
t0,0,46341
t0,1,2
t0,0,-2
t0,1,7
t0,1,7
=>
instant,main.i0,main.i1,main.ok,main.v0[0],main.v1[0][0],main.v1[0][1],main.v1[1][0],\
main.v1[1][1],main.v2[0],main.v2[1],main.v3,main.v4,main.v5[0],main.step@12:20[0].a,\
main.step@12:20[0].b,main.step@12:20[0].e,main.toggle@17:35[0].b,main.toggle@17:35[0].c,\
main.toggle@17:60[0].b,main.toggle@17:60[0].c,main.toggle@17:60[1].b,main.toggle@17:60[1].c,\
main.count@19:64.x,main.count@19:64.n,main.toggle@21:6.b,main.toggle@21:6.c
0,1,46341,1,46341,46341,46341,46341,46341,0,0,8,,,,,,1,1,1,1,1,1,46341,41,1,1
1,0,46341,1,,46341,46341,46341,46341,1,0,0,-38,3,-46341,-38,3,0,1,0,1,0,1,46341,82,0,1
2,1,2,1,2,46341,46341,2,2,1,0,0,,,,,,1,0,1,0,1,0,2,84,1,0
status 0
----
lbench --show t0 --all --format csv
const C = 3; D: int = C - 1;
function two(a, b: int) returns (p, q: int);
let p = (a + C) mod 100; q = if b > D then b else a; tel
node main(i0: bool; i1: int) returns (ok: bool);
var v0: int; v1: int; v2: int^3 when i0; v3: int;
let
  v3 = ((i1 fby v0) mod 7);
  ok = true -> (((v3 >= v3) fby i0) or false or (not (not false)));
  (v0, v1) = two((((i1 fby v0) + (pre v1)) mod 1000), (((i1^2) -> (current ((i1^2) when not
    i0))))[1]);
  v2 = ([(v1 when i0), ((D + (10 when i0)) mod 1000), ((v0 when i0) -> pre (i1 when i0)),
    (2147483647 div ((-3) when i0))])[1 .. 3];
tel
%traces
trace,i0,i1
t0,1,7
t0,1,20
t0,1,20
t0,0,1
t0,0,-1
t0,0,2
=>
instant,main.i0,main.i1,main.ok,main.v0,main.v1,main.v2[0],main.v2[1],main.v2[2],main.v3,\
main.two@9:14.a,main.two@9:14.b,main.two@9:14.p,main.two@9:14.q
0,1,7,1,?,7,12,?,-715827882,0,?,7,?,7
1,1,20,1,?,?,12,7,-715827882,?,?,?,?,?
2,1,20,1,?,?,12,20,-715827882,?,?,?,?,?
3,0,1,1,?,?,,,,?,?,1,?,?
4,0,-1,0,?,?,,,,?,?,-1,?,?
status 0
----
lbench --show t0 --all --format csv
node count(x: int) returns (n: int);
let n = (x -> pre n + x) mod 100; tel
node toggle(b: bool) returns (c: bool);
let c = b -> if b then not pre c else pre c; tel
node hold(c: bool; y: int when c) returns (z: int);
let z = if c then current y else 0 -> pre z; tel
node main(i0: bool; i1: int) returns (ok: bool);
var v0: int^1; v1: int^3; v2: int^3 when not i0; v3: bool^2 when not i0;
let
  v3 = (map<<xor, 2>>(((i0^2) when not i0), (if (i0 when not i0) then ((i0^2) when not i0) else
    [true, (i0 when not i0)])) -> [(((-3) when not i0) <> 0), (if (true when not i0) then (i0
    when not i0) else (true when not i0))]);
  v0 = map<<count, 1>>((i1^1));
  v1 = [count(((i1 - 5) mod 1000)), (pre i1), (((i1 + i1) mod 1000) / i1)];
  ok = true -> (((i1 fby i1) >= hold(i0, i1 when i0)) or ((i1 -> (current (i1 when i0))) <
    (v1)[2]) or (toggle(i0) -> ((i0^3))[0]));
  v2 = map<<-, 3>>(((i1 when not i0)^3), (map<<+, 1>>((v0 when not i0), (v0 when not i0)) |
    (([i1, i1] when not i0) -> ((i1^2) when not i0))));
  assert true -> #(ok, false, i0) or (i1 <> i1);
tel
%traces
trace,i0,i1
t0,0,20
t0,0,20
t0,0,20
t0,0,20
t0,0,0
t0,0,7
=>
instant,main.i0,main.i1,main.ok,main.v0[0],main.v1[0],main.v1[1],main.v1[2],main.v2[0],\
main.v2[1],main.v2[2],main.v3[0],main.v3[1],main.count@13:13[0].x,main.count@13:13[0].n,\
main.count@14:9.x,main.count@14:9.n,main.hold@15:33.c,main.hold@15:33.y,main.hold@15:33.z,\
main.toggle@16:18.b,main.toggle@16:18.c
0,0,20,1,20,15,?,2,-20,0,0,1,0,20,20,15,15,0,,0,0,0
1,0,20,?,40,30,20,2,-60,0,0,1,0,20,40,15,30,0,,0,0,0
status 0
----
lbench --show t0 --all --format csv
const C = 3; D: int = C - 1;
function two(a, b: int) returns (p, q: int);
let p = (a + C) mod 100; q = if b > D then b else a; tel
node main(i0: bool; i1: int) returns (ok: bool);
var v0: int^1 when i0; v1: int^1; v2: int^1;
let
  v0 = (map<<+, 2>>(([i1, i1] when i0), (((i1^2) when i0) fby ((1^2) when i0))))[1 .. 1];
  (v1, v2) = map<<two, 1>>(((current ((i1^2) when not i0)))[1 .. 1], ((if i0 then [i1] else
    (i1^1)) -> (current v0)));
  ok = true -> ((i0 -> pre ok) or ((v2)[0] < (if i0 then i1 else i1)) or ((false -> pre ok) ->
    (current (true when not i0))));
tel
%traces
trace,i0,i1
t0,1,-1
t0,0,20
t0,0,7
t0,1,3
t0,1,3
t0,1,0
=>
instant,main.i0,main.i1,main.ok,main.v0[0],main.v1[0],main.v2[0],main.two@8:19[0].a,\
main.two@8:19[0].b,main.two@8:19[0].p,main.two@8:19[0].q
0,1,-1,1,-2,?,?,?,-1,?,?
1,0,20,1,,23,20,20,-2,23,20
2,0,7,1,,10,7,7,-2,10,7
3,1,3,1,4,10,4,7,4,10,4
4,1,3,1,4,10,4,7,4,10,4
5,1,0,1,1,10,7,7,1,10,7
status 0
----
lbench --show t0 --all --format csv
const C = 3; D: int = C - 1;
function two(a, b: int) returns (p, q: int);
let p = (a + C) mod 100; q = if b > D then b else a; tel
node count(x: int) returns (n: int);
let n = (x -> pre n + x) mod 100; tel
node step<<const k: int>>(a: int) returns (b, e: int);
let b = (a + k) mod 50; e = k fby (e + a) mod 50; tel
node shift<<const n: int>>(x: int; A: int^n) returns (y: int);
var B: int^n;
let B = A -> pre A; y = red<<+, n>>(x, B) mod 100; tel
node main(i0: bool; i1: int; i2: int; i3: int^2) returns (ok: bool);
var v0: int; v1: int; v2: int^3 when i0; v3: int when not i0; v4: int when not i0; v5: int;
let
  ok = true -> (((if i0 then v0 else v5) <> count(v1)) or (red<<+, 3>>(i2, [v0, i2, v1]) >= (5
    fby i1)) or (pre ok));
  (v3, v4) = two(red<<-, 1>>(((v0 when not i0) fby v3), ([v1] when not i0)), (((- 2) *
    shift<<D>>((i1 when not i0), (i3 when not i0))) mod 1000));
  v2 = (([(i2 when i0)] | (if (i0 when i0) then [(i1 when i0), (v1 when i0)] else (i3 when i0)))
    fby v2);
  v5 = ((current v2))[2];
  (v0, v1) = step<<2>>((([i2, 10, i1])[2] / ([i1])[0]));
tel
%traces
trace,i0,i1,i2,i3[0],i3[1]
t0,1,20,-1,-1,20
t0,0,7,-1,2,-1
t0,0,7,3,2,-1
t0,0,0,3,2,3
t0,0,0,20,1,1
t0,0,2147483647,3,0,20
=>
instant,main.i0,main.i1,main.i2,main.i3[0],main.i3[1],main.ok,main.v0,main.v1,main.v2[0],\
main.v2[1],main.v2[2],main.v3,main.v4,main.v5,main.count@14:45.x,main.count@14:45.n,\
main.two@16:14.a,main.two@16:14.b,main.two@16:14.p,main.two@16:14.q,main.shift@17:5.x,\
main.shift@17:5.A[0],main.shift@17:5.A[1],main.shift@17:5.y,main.shift@17:5.B[0],\
main.shift@17:5.B[1],main.step@21:14.a,main.step@21:14.b,main.step@21:14.e
0,1,20,-1,-1,20,1,3,2,-1,20,2,,,2,2,2,,,,,,,,,,,1,3,2
1,0,7,-1,2,-1,1,3,3,,,,3,0,2,3,5,0,-16,3,0,7,2,-1,8,2,-1,1,3,3
2,0,7,3,2,-1,1,3,4,,,,2,-1,2,4,9,-1,-16,2,-1,7,2,-1,8,2,-1,1,3,4
3,0,0,3,2,3,!,!,5,,,,0,-3,2,5,14,-3,-2,0,-3,0,2,3,1,2,-1,!,!,5
status 0
----
lbench --show t0 --all --format csv
node split(x: int) returns (b: bool; y: int when b; z: int when not b);
let b = x > 0; y = count(x when b); z = (-x when not b) -> pre z + 1; tel
node count(x: int) returns (n: int);
let n = (x -> pre n + x) mod 100; tel
node late(c: bool; y: int when c) returns (z: int when c);
let z = 0 -> pre y; tel
node main(i0: bool; i1: int) returns (ok: bool);
var v0: int when not i0; v1: bool when i0; v2: int when v1; v3: int when not v1;
let
  (v1, v2, v3) = split(late(i0, (i1 when i0)));
  ok = true -> (i0 or i0 or (#(i0, i0, i0) xor true));
  v0 = (- (if (i0 when not i0) then ((i1 when not i0) fby v0) else (((i1 when not i0) * (i1 when
    not i0)) mod 1000)));
tel
%traces
trace,i0,i1
t0,0,-2
t0,1,-2
t0,0,3
t0,0,3
t0,0,0
t0,1,2
=>
instant,main.i0,main.i1,main.ok,main.v0,main.v1,main.v2,main.v3,main.split@10:18.x,\
main.split@10:18.b,main.split@10:18.y,main.split@10:18.z,main.split@10:18.count@2:20.x,\
main.split@10:18.count@2:20.n,main.late@10:24.c,main.late@10:24.y,main.late@10:24.z
0,0,-2,1,-4,,,,,,,,,,0,,
1,1,-2,1,,0,,0,0,0,,0,,,1,-2,0
2,0,3,0,-9,,,,,,,,,,0,,
status 0
----
lbench --show t0 --all --format csv
const C = 3; D: int = C - 1;
function two(a, b: int) returns (p, q: int);
let p = (a + C) mod 100; q = if b > D then b else a; tel
node toggle(b: bool) returns (c: bool);
let c = b -> if b then not pre c else pre c; tel
node hold(c: bool; y: int when c) returns (z: int);
let z = if c then current y else 0 -> pre z; tel
node main(i0: bool; i1: int) returns (ok: bool);
var v0: int; v1: int^3; v2: int; v3: int; v4: bool when not i0; v5: int^3 when not i0; v6: int^2
    when not v4;
let
  v0 = (if #(i0, (i0 -> i0), (i0 fby i0)) then (((-3) fby v0) -> (2147483647 -> pre v0)) else
    hold(i0, i1 when i0));
  assert true -> (v0 <> C) or ((i0^2))[1];
  v6 = ((((1^1) -> pre (([v2] when not i0) when not v4)) | [((v3 when not i0) when not v4), ((v2
    when not i0) when not v4)]))[1 .. 2];
  ok = true -> (((i0 -> pre i0) fby i0) or toggle(i0) or i0);
  v5 = ([(i1 when not i0), (i1 when not i0), (v2 when not i0), (i1 when not i0)])[1 .. 3];
  v1 = (current ((v0^3) when not i0));
  (v2, v3) = two(i1, (- (v1)[2]));
  v4 = toggle((pre v4));
tel
%traces
trace,i0,i1
t0,1,-1
t0,1,-2
t0,0,-1
t0,1,0
t0,1,20
t0,1,20
=>
instant,main.i0,main.i1,main.ok,main.v0,main.v1[0],main.v1[1],main.v1[2],main.v2,main.v3,\
main.v4,main.v5[0],main.v5[1],main.v5[2],main.v6[0],main.v6[1],main.hold@13:5.c,\
main.hold@13:5.y,main.hold@13:5.z,main.toggle@17:44.b,main.toggle@17:44.c,main.two@20:14.a,\
main.two@20:14.b,main.two@20:14.p,main.two@20:14.q,main.toggle@21:8.b,main.toggle@21:8.c
0,1,-1,1,-1,?,?,?,2,?,,,,,,,1,-1,-1,1,1,-1,?,2,?,,
1,1,-2,1,-2,?,?,?,1,?,,,,,,,1,-2,-2,1,0,-2,?,1,?,,
2,0,-1,1,-2,-2,-2,-2,2,-1,?,-1,2,-1,,,0,,-2,0,0,-1,2,2,-1,?,?
status 0
----
lbench --show t0 --all --format csv
node count(x: int) returns (n: int);
let n = (x -> pre n + x) mod 100; tel
node main(i0: bool; i1: int) returns (ok: bool);
var v0: int^1 when i0; v1: bool^2 when not i0; v2: bool when i0; v3: int;
let
  ok = true -> (i0 or (red<<+, 3>>(v3, [1, i1, v3]) < red<<count, 1>>(0)) or ((0 -> pre v3) >=
    count(v3)));
  v0 = (map<<-, 2>>((((i1^1) when i0) | ((i1^1) when i0)), ([(i1 when i0), (i1 when i0)] fby
    (((-3)^2) when i0))))[1 .. 1];
  v1 = ([i0, i0] when not i0);
  v3 = i1;
  v2 = (((i1 when i0) = (i1 when i0)) fby v2);
tel
%traces
trace,i0,i1
t0,0,3
t0,0,3
t0,0,1
t0,0,0
t0,1,20
t0,0,-1
=>
instant,main.i0,main.i1,main.ok,main.v0[0],main.v1[0],main.v1[1],main.v2,main.v3,\
main.count@6:60[0].x,main.count@6:60[0].n,main.count@7:5.x,main.count@7:5.n
0,0,3,1,,0,0,,3,0,0,3,3
1,0,3,0,,0,0,,3,0,0,3,6
status 0
----
lbench --show t0 --all --format csv
node split(x: int) returns (b: bool; y: int when b; z: int when not b);
let b = x > 0; y = count(x when b); z = (-x when not b) -> pre z + 1; tel
node count(x: int) returns (n: int);
let n = (x -> pre n + x) mod 100; tel
node main(i0: bool; i1: int; i2: bool^2) returns (ok: bool);
var v0: int^2; v1: int when i0; v2: int^2^2; v3: bool when not i0; v4: bool; v5: int when v4;
    v6: int when not v4;
let
  v1 = (((pre v1) fby v1) fby v1);
  v0 = map<<count, 2>>([i1, i1]);
  (v4, v5, v6) = split(count(2147483647));
  v2 = [(if ([false])[0] then (v0 -> (current (v0 when not i0))) else (v0 fby v0)), v0];
  v3 = (((([false, i0, i0] when not i0) -> pre ([i0, i0, i0] when not i0)) -> pre ([i0, i0,
    false] when not i0)))[0];
  ok = true -> (((i0 -> (current (i0 when i0))) => (current v3)) or (not (if i0 then v4 else
    i0)) or nor((current (true when i0)), (i1 <= i1), i0));
tel
%traces
trace,i0,i1,i2[0],i2[1]
t0,0,1,1,1
t0,1,0,1,1
t0,1,0,1,1
t0,1,1,0,1
t0,0,1,1,1
t0,0,1,1,1
=>
instant,main.i0,main.i1,main.i2[0],main.i2[1],main.ok,main.v0[0],main.v0[1],main.v1,\
main.v2[0][0],main.v2[0][1],main.v2[1][0],main.v2[1][1],main.v3,main.v4,main.v5,main.v6,\
main.count@10:13[0].x,main.count@10:13[0].n,main.count@10:13[1].x,main.count@10:13[1].n,\
main.split@11:18.x,main.split@11:18.b,main.split@11:18.y,main.split@11:18.z,\
main.split@11:18.count@2:20.x,main.split@11:18.count@2:20.n,main.count@11:24.x,main.count@11:24.n
0,0,1,1,1,1,1,1,,1,1,1,1,0,1,47,,1,1,1,1,47,1,47,,47,47,2147483647,47
1,1,0,1,1,!,1,1,?,1,1,1,1,,!,,,0,1,0,1,!,!,,,,,2147483647,!
status 0
----
lbench --show t0 --all --format csv
const C = 3; D: int = C - 1;
node step<<const k: int>>(a: int) returns (b, e: int);
let b = (a + k) mod 50; e = k fby (e + a) mod 50; tel
node main(i0: bool; i1: int) returns (ok: bool);
var v0: int; v1: int^3; v2: bool^2 when i0;
let
  v2 = ([i0, i0] when i0);
  ok = true -> (i0 or ((not i0) => true) or (red<<-, 3>>(v0, v1) = (v0 / C)));
  (v0, v1) = fill<<step<<C>>, 3>>(((((i1 - i1) mod 1000) * i1) mod 1000));
  assert true -> (if i0 then ok else ok) or (i0 -> (current (i0 when not ok)));
tel
%traces
trace,i0,i1
t0,1,-2
t0,1,3
t0,1,3
t0,0,2
t0,0,0
t0,0,-2
=>
instant,main.i0,main.i1,main.ok,main.v0,main.v1[0],main.v1[1],main.v1[2],main.v2[0],main.v2[1],\
main.step@9:20[0].a,main.step@9:20[0].b,main.step@9:20[0].e,main.step@9:20[1].a,\
main.step@9:20[1].b,main.step@9:20[1].e,main.step@9:20[2].a,main.step@9:20[2].b,\
main.step@9:20[2].e
0,1,-2,1,9,3,3,3,1,1,0,3,3,3,6,3,6,9,3
1,1,3,1,9,3,6,9,1,1,0,3,3,3,6,6,6,9,9
status 0
----
lbench --show t0 --all --format csv
const C = 3; D: int = C - 1;
function two(a, b: int) returns (p, q: int);
let p = (a + C) mod 100; q = if b > D then b else a; tel
node count(x: int) returns (n: int);
let n = (x -> pre n + x) mod 100; tel
node main(i0: bool; i1: int) returns (ok: bool);
var v0: int^2; v1: bool when i0; v2: bool^2 when not v1; v3: int^1; v4: int^1;
let
  assert true -> (if ok then ok else i0) or (i0 fby ok);
  v2 = map<<or, 2>>((([i0, i0] when i0) when not v1), (([i0, i0] when i0) when not v1));
  (v3, v4) = map<<two, 1>>((([1] -> pre v4) fby v4), ((if i0 then (i1^1) else [i1]) -> (current
    ([i1] when not i0))));
  v0 = [((current (2147483647 when i0)) fby i1), ([i1, 10])[0]];
  ok = true -> ((if (i0 or i0) then (i0 -> (current v1)) else (i0 xor i0)) or ((i1 mod 7) <=
    count(i1)) or ((i0 xor i0) -> pre i0));
  v1 = ((i0 when i0) or (if (i0 when i0) then (not (i0 when i0)) else ((i0 when i0) => (i0 when
    i0))));
tel
%traces
trace,i0,i1
t0,0,-1
t0,0,20
t0,0,-2
t0,1,0
t0,1,0
t0,0,-1
=>
instant,main.i0,main.i1,main.ok,main.v0[0],main.v0[1],main.v1,main.v2[0],main.v2[1],main.v3[0],\
main.v4[0],main.two@11:19[0].a,main.two@11:19[0].b,main.two@11:19[0].p,main.two@11:19[0].q,\
main.count@15:5.x,main.count@15:5.n
0,0,-1,1,?,-1,,,,4,1,1,-1,4,1,-1,-1
1,0,20,1,-1,20,,,,4,20,1,20,4,20,20,19
2,0,-2,1,20,-2,,,,23,20,20,-2,23,20,-2,17
3,1,0,1,-2,0,1,,,23,20,20,-2,23,20,0,17
4,1,0,1,0,0,1,,,23,20,20,-2,23,20,0,17
5,0,-1,1,0,-1,,,,23,20,20,-1,23,20,-1,16
status 0
----
lbench --show t0 --all --format csv
node count(x: int) returns (n: int);
let n = (x -> pre n + x) mod 100; tel
node toggle(b: bool) returns (c: bool);
let c = b -> if b then not pre c else pre c; tel
node main(i0: bool; i1: int) returns (ok: bool);
var v0: bool^2 when not i0; v1: int when i0; v2: int^2^2;
let
  ok = true -> ((red<<count, 3>>(i1) <> (if i0 then i1 else i1)) or (if (i0 fby i0) then (not
    i0) else toggle(i0)) or (toggle(true) -> pre i0));
  v1 = ((((if (i0 when i0) then (0 when i0) else (i1 when i0)) + count((i1 when i0))) mod 1000)
    div red<<count, 1>>((((i1^3) when i0))[1]));
  v0 = ((i0^2) when not i0);
  v2 = ((((i1^2)^1) -> (current ([[i1, 0]] when not i0))) | (([(i1^2)] | [[i1, i1]]))[1 .. 1]);
tel
%traces
trace,i0,i1
t0,0,-1
t0,0,0
t0,0,1
t0,1,0
t0,1,3
t0,1,3
=>
instant,main.i0,main.i1,main.ok,main.v0[0],main.v0[1],main.v1,main.v2[0][0],main.v2[0][1],\
main.v2[1][0],main.v2[1][1],main.count@8:23[0].x,main.count@8:23[0].n,main.count@8:23[1].x,\
main.count@8:23[1].n,main.count@8:23[2].x,main.count@8:23[2].n,main.toggle@9:14.b,\
main.toggle@9:14.c,main.toggle@9:30.b,main.toggle@9:30.c,main.count@10:66.x,main.count@10:66.n,\
main.count@11:14[0].x,main.count@11:14[0].n
0,0,-1,1,0,0,,-1,-1,-1,-1,-1,-1,-1,-1,-1,-1,0,0,1,1,,,,
1,0,0,1,0,0,,0,0,0,0,0,-1,-1,-2,-2,-3,0,0,1,0,,,,
2,0,1,1,0,0,,1,0,1,1,1,0,0,-2,-2,-5,0,0,1,1,,,,
3,1,0,1,,,!,1,0,0,0,0,0,0,-2,-2,-7,1,1,1,0,0,0,0,0
status 0
----
lbench --show t0 --all --format csv
const C = 3; D: int = C - 1;
function two(a, b: int) returns (p, q: int);
let p = (a + C) mod 100; q = if b > D then b else a; tel
node count(x: int) returns (n: int);
let n = (x -> pre n + x) mod 100; tel
node toggle(b: bool) returns (c: bool);
let c = b -> if b then not pre c else pre c; tel
node main(i0: bool; i1: int; i2: int^2^2) returns (ok: bool);
var v0: int; v1: int; v2: bool^2;
let
  assert true -> (i0 fby i0) or (false -> false);
  ok = true -> (nor(i0, i0, toggle(i0)) or ((v1 <= C) -> (current (i0 when i0))) or
    nor(((i0^3))[1], (not i0), (if i0 then i0 else true)));
  (v0, v1) = two((red<<-, 1>>(0, [i1]) fby i1), (map<<count, 1>>((0^1)))[0]);
  v2 = map<<toggle, 2>>([(i0 or i0), toggle(i0)]);
tel
%traces
trace,i0,i1,i2[0][0],i2[0][1],i2[1][0],i2[1][1]
t0,1,1,-2,-2,2147483647,2
t0,0,1,3,-2,3,3
t0,1,3,-2,3,20,3
t0,1,7,-2,3,20,3
t0,1,7,-2147483648,7,2,1
t0,0,7,2,-2,2,1
=>
instant,main.i0,main.i1,main.i2[0][0],main.i2[0][1],main.i2[1][0],main.i2[1][1],main.ok,main.v0,\
main.v1,main.v2[0],main.v2[1],main.toggle@12:29.b,main.toggle@12:29.c,main.two@14:14.a,\
main.two@14:14.b,main.two@14:14.p,main.two@14:14.q,main.count@14:55[0].x,main.count@14:55[0].n,\
main.toggle@15:13[0].b,main.toggle@15:13[0].c,main.toggle@15:13[1].b,main.toggle@15:13[1].c,\
main.toggle@15:38.b,main.toggle@15:38.c
0,1,1,-2,-2,2147483647,2,1,2,-1,1,1,1,1,-1,0,2,-1,0,0,1,1,1,1,1,1
1,0,1,3,-2,3,3,1,4,1,1,0,0,1,1,0,4,1,0,0,0,1,1,0,0,1
2,1,3,-2,3,20,3,1,4,1,0,0,1,0,1,0,4,1,0,0,1,0,0,0,1,0
status 0
----
lbench --show t0 --all --format csv
node split(x: int) returns (b: bool; y: int when b; z: int when not b);
let b = x > 0; y = count(x when b); z = (-x when not b) -> pre z + 1; tel
node count(x: int) returns (n: int);
let n = (x -> pre n + x) mod 100; tel
node main(i0: bool; i1: int; i2: bool) returns (ok: bool);
var v0: int^1 when i0; v1: bool when i0; v2: int when v1; v3: int when not v1;
let
  v0 = ((map<<+, 2>>(([i1, i1] when i0), ((i1^2) when i0)) fby ((i1^2) when i0)))[1 .. 1];
  (v1, v2, v3) = split(((if (true when i0) then 5 else (i1 when i0)) -> (i1 when i0)));
  ok = true -> (((i1 <> i1) -> pre i0) or (current (false when i2)) or (current (i2 when not
    i0)));
tel
%traces
trace,i0,i1,i2
t0,0,0,1
t0,0,0,1
t0,0,0,0
t0,1,20,0
t0,1,-1,0
t0,0,3,0
=>
instant,main.i0,main.i1,main.i2,main.ok,main.v0[0],main.v1,main.v2,main.v3,main.split@9:18.x,\
main.split@9:18.b,main.split@9:18.y,main.split@9:18.z,main.split@9:18.count@2:20.x,\
main.split@9:18.count@2:20.n
0,0,0,1,1,,,,,,,,,,
1,0,0,1,1,,,,,,,,,,
2,0,0,0,0,,,,,,,,,,
status 0
----
lbench --show t0 --all --format csv
node toggle(b: bool) returns (c: bool);
let c = b -> if b then not pre c else pre c; tel
node hold(c: bool; y: int when c) returns (z: int);
let z = if c then current y else 0 -> pre z; tel
node main(i0: bool; i1: int; i2: int^1) returns (ok: bool);
var v0: int^1; v1: int^1; v2: bool; v3: bool^2 when v2;
let
  v2 = (current (i0 when not i0));
  ok = true -> ((if (if i0 then false else i0) then v2 else (if v2 then v2 else i0)) or ((true
    -> pre v2) fby v2) or ((i0 and v2) => nor(v2, v2, false)));
  v1 = [(if toggle(i0) then ((i1 + i1) mod 1000) else hold(i0, i1 when i0))];
  v0 = ((current ((i1^2) when i0)))[1 .. 1];
  v3 = map<<xor, 2>>((((v2^3) when v2))[1 .. 2], (map<<xor, 2>>(([false, v2] when v2), ((i0^2)
    when v2)) fby v3));
tel
%traces
trace,i0,i1,i2[0]
t0,0,1,20
t0,1,1,-1
t0,1,-1,-2
t0,1,-2,-2
t0,1,-2,3
t0,1,0,3
=>
instant,main.i0,main.i1,main.i2[0],main.ok,main.v0[0],main.v1[0],main.v2,main.v3[0],main.v3[1],\
main.toggle@11:13.b,main.toggle@11:13.c,main.hold@11:55.c,main.hold@11:55.y,main.hold@11:55.z
0,0,1,20,1,?,0,0,,,0,0,0,,0
1,1,1,-1,1,1,2,0,,,1,1,1,1,1
2,1,-1,-2,1,-1,-1,0,,,1,0,1,-1,-1
3,1,-2,-2,1,-2,-4,0,,,1,1,1,-2,-2
4,1,-2,3,1,-2,-2,0,,,1,0,1,-2,-2
5,1,0,3,1,0,0,0,,,1,1,1,0,0
status 0
----
lbench --show t0 --all --format csv
node split(x: int) returns (b: bool; y: int when b; z: int when not b);
let b = x > 0; y = count(x when b); z = (-x when not b) -> pre z + 1; tel
node count(x: int) returns (n: int);
let n = (x -> pre n + x) mod 100; tel
node toggle(b: bool) returns (c: bool);
let c = b -> if b then not pre c else pre c; tel
node hold(c: bool; y: int when c) returns (z: int);
let z = if c then current y else 0 -> pre z; tel
node main(i0: bool; i1: int) returns (ok: bool);
var v0: bool when i0; v1: int when v0; v2: int when not v0; v3: bool when i0; v4: int when v3;
    v5: int when not v3;
let
  (v3, v4, v5) = split((if (v0 -> (current (v0 when not v0))) then ((i1 when i0) -> 10) else
    (((-3) when i0) -> pre (i1 when i0))));
  (v0, v1, v2) = split((i1 when i0));
  ok = true -> (((if i0 then [i0, i0] else [false, i0]))[1] or (hold(i0, i1 when i0) <= ((i1 +
    2) mod 1000)) or (map<<toggle, 3>>((i0^3)))[1]);
tel
%traces
trace,i0,i1
t0,1,20
t0,0,20
t0,1,3
t0,0,1
t0,1,2147483647
t0,0,2
=>
instant,main.i0,main.i1,main.ok,main.v0,main.v1,main.v2,main.v3,main.v4,main.v5,\
main.split@13:18.x,main.split@13:18.b,main.split@13:18.y,main.split@13:18.z,\
main.split@13:18.count@2:20.x,main.split@13:18.count@2:20.n,main.split@15:18.x,\
main.split@15:18.b,main.split@15:18.y,main.split@15:18.z,main.split@15:18.count@2:20.x,\
main.split@15:18.count@2:20.n,main.hold@16:65.c,main.hold@16:65.y,main.hold@16:65.z,\
main.toggle@17:28[0].b,main.toggle@17:28[0].c,main.toggle@17:28[1].b,main.toggle@17:28[1].c,\
main.toggle@17:28[2].b,main.toggle@17:28[2].c
0,1,20,1,1,20,,1,20,,20,1,20,,20,20,20,1,20,,20,20,1,20,20,1,1,1,1,1,1
1,0,20,1,,,,,,,,,,,,,,,,,,,0,,20,0,1,0,1,0,1
2,1,3,1,1,23,,?,,,?,?,,,,,3,1,23,,3,23,1,3,3,1,0,1,0,1,0
status 0
----
lbench --show t0 --all --format csv
const C = 3; D: int = C - 1;
function two(a, b: int) returns (p, q: int);
let p = (a + C) mod 100; q = if b > D then b else a; tel
node count(x: int) returns (n: int);
let n = (x -> pre n + x) mod 100; tel
node main(i0: bool; i1: int) returns (ok: bool);
var v0: bool^2; v1: int^1 when not i0; v2: int^1 when not i0;
let
  (v1, v2) = map<<two, 1>>((([(i1 when not i0)] -> pre v2) -> ((i1^1) when not i0)), map<<count,
    1>>(((i1^1) when not i0)));
  v0 = map<<xor, 2>>([(if i0 then i0 else i0), (i1 = i1)], map<<xor, 2>>((if i0 then [i0, true]
    else [i0, i0]), [i0, i0]));
  ok = true -> (i0 or (pre i0) or ((pre v0))[0]);
  assert true -> (i0 -> pre ok) or (i0 -> pre i0);
tel
%traces
trace,i0,i1
t0,1,-2
t0,1,7
t0,0,-2
t0,0,-2
t0,1,20
t0,1,2
=>
instant,main.i0,main.i1,main.ok,main.v0[0],main.v0[1],main.v1[0],main.v2[0],main.two@9:19[0].a,\
main.two@9:19[0].b,main.two@9:19[0].p,main.two@9:19[0].q,main.count@9:91[0].x,\
main.count@9:91[0].n
0,1,-2,1,1,1,,,,,,,,
1,1,7,1,1,1,,,,,,,,
2,0,-2,1,0,1,1,-2,-2,-2,1,-2,-2,-2
3,0,-2,0,0,1,1,-2,-2,-4,1,-2,-2,-4
status 0
----
lbench --show t0 --all --format csv
node late(c: bool; y: int when c) returns (z: int when c);
let z = 0 -> pre y; tel
node main(i0: bool; i1: int; i2: int^1) returns (ok: bool);
var v0: int when not i0; v1: int^2 when i0; v2: int when i0;
let
  assert true -> (i1 < 2) or #(ok, ok, i0);
  v2 = late(i0, (i1 when i0));
  v1 = ([i1, i1] when i0);
  ok = true -> ((current (i0 when i0)) or (not ([i0, i0])[0]) or (current (false when i0)));
  v0 = (((i1^3) when not i0))[2];
tel
%traces
trace,i0,i1,i2[0]
t0,0,-2,2
t0,1,1,2
t0,1,7,-1
t0,1,0,-1
t0,1,0,2
t0,1,2,2
=>
instant,main.i0,main.i1,main.i2[0],main.ok,main.v0,main.v1[0],main.v1[1],main.v2,\
main.late@7:8.c,main.late@7:8.y,main.late@7:8.z
0,0,-2,2,1,-2,,,,0,,
1,1,1,2,1,,1,1,0,1,1,0
2,1,7,-1,1,,7,7,1,1,7,1
status 0
----
lbench --show t0 --all --format csv
node main(i0: bool; i1: int; i2: int^3) returns (ok: bool);
var v0: int^2 when i0; v1: int^2 when not i0; v2: bool^2; v3: bool when i0;
let
  v3 = (if ((i1 when i0) <> (((i1 when i0) + (i1 when i0)) mod 1000)) then (nor((i0 when i0),
    true, (i0 when i0)) fby v3) else (if (((i0 when i0)^1))[0] then (pre v3) else (true when
    i0)));
  v2 = ((((i0^2) -> pre v2) -> pre v2) -> pre v2);
  ok = true -> ((if i0 then (not i0) else (i0 -> i0)) or (current (i0 when not i0)) or (if
    (current v3) then (true -> pre i0) else (if i0 then i0 else i0)));
  v1 = (((i1 when not i0)^2) -> (map<<+, 1>>(([i1] when not i0), (((-3)^1) when not i0)) |
    (([i1, i1] when not i0))[1 .. 1]));
  v0 = ((0^2) when i0);
tel
%traces
trace,i0,i1,i2[0],i2[1],i2[2]
t0,0,7,-1,-2,-1
t0,1,7,-2,-1,-2
t0,1,2147483647,3,20,0
t0,1,-2,7,3,-2
t0,1,1,7,3,-2
t0,1,7,2,1,20
=>
instant,main.i0,main.i1,main.i2[0],main.i2[1],main.i2[2],main.ok,main.v0[0],main.v0[1],\
main.v1[0],main.v1[1],main.v2[0],main.v2[1],main.v3
0,0,7,-1,-2,-1,1,,,7,7,0,0,
1,1,7,-2,-1,-2,1,0,0,,,0,0,0
2,1,2147483647,3,20,0,!,0,0,,,0,0,!
status 0";
