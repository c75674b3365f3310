//! Random programs of the whole language, and the verdicts of random traces.
//!
//! A generator made the programs. An evaluator that was written apart, from the pages alone, found
//! the wanted verdicts. These few programs were chosen out of many: together they have each form on
//! a clock and off it.

/// The programs.
pub const PROGRAMS: &str = "
const C0 = 1; C1 = 1;
function two(a, b: int) returns (p, q: int);
let p = (a + 1) mod 1000; q = (b * 2) mod 1000; tel
node main(i0: bool; i1: int; i2: bool^3; w: int; e: int) returns (ok: bool);
var z3: int^1 when i0; z4: int^1 when i0; v5: int; v6: bool when not (i0); v7: bool when not v6;
let
  ok = if w = 0 then v5 = e else if w = 1 then (current z3[0]) = e else if w = 2 then (current
    (current v7)) = (e = 1) else if w = 3 then (current v6) = (e = 1) else if w = 4 then
    (current z4[0]) = e else true;
  z3, z4 = map<<two, C1>>(((((((-4)^3) when i0))[1])^C0), (([C0] when (i0)) -> pre ((z4 fby
    z3))));
  v7 = true -> ((red<<and, (7 mod 2)>>(#((v6 when not v6)), ((true^1) when not v6)) xor
    ((((true^(5 mod 3)) when not i0) when not v6))[C1]));
  v5 = (((current ((7 when not i0) - (i1 when not i0))) -> (i1 fby ((0^1))[0]))) mod 31;
  v6 = (true and (i0 when not i0));
tel
%traces
trace,i0,i1,i2[0],i2[1],i2[2],w,e
a,1,20,1,1,1,0,0
a,1,-6,0,1,1,0,0
a,1,-7,1,1,0,0,0
a,1,-9,0,1,0,0,0
b,1,20,1,1,1,1,-3
b,1,-6,0,1,1,1,-3
b,1,-7,1,1,0,1,-3
b,1,-9,0,1,0,1,-3
%answer
a undefined 0
b passed
total 2 passed 1 fault 0 undefined 1 assertion 0 false 0
status 1
%case
const C0 = 1; C1 = 3;
node main(i0: int^3; w: int; e: int) returns (ok: bool);
var v1: bool; v2: bool; z3: int when v1; z4: int^1 when v1; v5: bool^C1^1 when v1; z6: int when
    v2; z7: int when v2;
let
  v2 = (if v1 then (current (v1 when v1)) else v1);
  (z3, z4) = fill<<step<<4>>, C0>>((((-3) when v1) + ((i0[C0] when v1) -> (-4))));
  v5 = ((([false, false, false]^C1) when v1))[1 .. C0];
  v1 = true -> (true);
  ok = if w = 0 then (current v5[0][0]) = (e = 1) else if w = 1 then (current v5[0][1]) = (e =
    1) else if w = 2 then v2 = (e = 1) else if w = 3 then (current z6) = e else if w = 4 then
    (current v5[0][2]) = (e = 1) else if w = 5 then (current z3) = e else if w = 6 then (current
    z4[0]) = e else if w = 7 then (current z7) = e else if w = 8 then v1 = (e = 1) else true;
  (z6, z7) = step<<(5 + 1)>>((((-4) when v2) div 2));
tel
node step<<const k: int>>(a: int) returns (b, e: int);
let b = (a + k) mod 50; e = k -> (pre e + a) mod 50; tel
%traces
trace,i0[0],i0[1],i0[2],w,e
a,0,-2,16,0,0
a,12,-4,10,0,0
a,1,16,-9,0,0
a,14,-1,0,0,0
a,0,0,4,0,0
b,0,-2,16,6,4
b,12,-4,10,6,-3
b,1,16,-9,6,-10
b,14,-1,0,6,-17
b,0,0,4,6,-23
%answer
a passed
b false 4
total 2 passed 1 fault 0 undefined 0 assertion 0 false 1
status 1
%case
node main(i0: int^3; i1: int; w: int; e: int) returns (ok: bool);
var v2: int; v3: bool; v4: int; v5: int;
let
  v2 = (cnt(i1)) mod 1009;
  assert (([false, true, true, false])[2] or ((v3 -> pre (v3)) xor (if v3 then v3 else v3)));
  v4 = ((if (v3 -> pre ((v3 -> pre (v3)))) then (v2 -> pre ((v4 div 5))) else (v2 -> pre
    (red<<cnt, 2>>(v4))))) mod 97;
  assert ((v3 when not v3) -> pre (red<<or, 4>>((v3 when not (v3)), ([true, true, false, true]
    when not v3))));
  v5 = (red<<cnt, 3>>((v4 mod (-3)))) mod 97;
  ok = if w = 0 then v3 = (e = 1) else if w = 1 then v4 = e else if w = 2 then v5 = e else if w
    = 3 then v2 = e else true;
  v3 = (v2 <= i0[1]);
tel
node late(c: bool; y: int when c) returns (z: int when c);
let z = 0 -> pre y; tel
node cnt(x: int) returns (n: int);
let n = (x -> pre n + x) mod 1000; tel
node delay<<const n: int>>(x: int^n; b: bool) returns (y: int^n);
let y = if b then x else x -> pre y; tel
%traces
trace,i0[0],i0[1],i0[2],i1,w,e
a,-4,14,14,6,0,1
a,-3,2,-7,4,0,0
b,-6,-8,7,18,0,0
%answer
a assertion 1
b assertion 0
total 2 passed 0 fault 0 undefined 0 assertion 2 false 0
status 0
%case
const C0 = 4;
node late(c: bool; y: int when c) returns (z: int when c);
let z = 0 -> pre y; tel
node main(i0: int; c: bool; w: int; e: int) returns (ok: bool);
var v2: bool when c; v3: int^(4 - 3) when v2; v4: bool; v5: int when not v2; v6: int; v7: bool;
    v8: bool;
let
  v6 = ((i0 fby 3)) mod 97;
  v7 = ((if v4 then (current ((false^1) when v4)) else (true^1)))[(1 mod 1)];
  v2 = ((c when c) xor false);
  v4 = (if (not c) then (current (c when not c)) else c);
  v5 = ((- 2)) mod 1009;
  v8 = (current (c when not v7));
  v3 = [late(v2, ((i0 when c) when v2))];
  ok = if w = 0 then (current v2) = (e = 1) else if w = 1 then v4 = (e = 1) else if w = 2 then
    v6 = e else if w = 3 then v7 = (e = 1) else if w = 4 then (current (current v3[0])) = e else
    if w = 5 then v8 = (e = 1) else if w = 6 then (current (current v5)) = e else true;
tel
%traces
trace,i0,c,w,e
a,17,1,6,0
a,-8,1,6,0
b,6,1,0,2
b,0,1,0,1
b,11,0,0,1
b,-7,1,0,1
c,6,1,1,1
c,0,1,1,1
c,11,0,1,0
c,-7,1,1,1
d,6,1,6,0
d,0,1,6,0
d,11,0,6,0
d,-7,1,6,0
%answer
a undefined 0
b false 0
c passed
d undefined 0
total 4 passed 1 fault 0 undefined 2 assertion 0 false 1
status 1
%case
const C0 = 2;
node cnt(x: int) returns (n: int);
let n = (x -> pre n + x) mod 1000; tel
node f0(a: int) returns (o2: int; o3: bool);
var v1: bool; v4: bool; v5: int;
let
  v4 = true -> ((o3 -> pre ((o3 fby o3))));
  o3 = true -> ((if v1 then (current ((a when v1) = (o2 when v1))) else v1));
  v1 = true;
  v5 = (cnt((9 -> red<<-, C0>>(a, ((-3)^C0))))) mod 97;
  o2 = (((if v1 then a else a) -> a)) mod 31;
tel
node main(i0: bool; w: int; e: int) returns (ok: bool);
var v1: bool; z2: int when i0; z3: bool when i0; v4: bool^((3 * 2) / 2) when not z3; v5: int;
let
  (z2, z3) = f0(((9 when i0) -> pre (red<<-, 1>>(z2, [4]))));
  v4 = map<<and, ((3 * 2) / 2)>>(([[true, true, false], (true^3), [false, true, true],
    (false^3)])[1], ([false] | ([false, false] when not z3)));
  v5 = (red<<cnt, (8 mod 3)>>(((-4) - C0))) mod 97;
  v1 = true -> ((((-1) >= 6) => (i0 -> pre (v1))));
  ok = if w = 0 then v1 = (e = 1) else if w = 1 then (current z3) = (e = 1) else if w = 2 then
    (current (current v4[0])) = (e = 1) else if w = 3 then (current (current v4[2])) = (e = 1)
    else if w = 4 then (current (current v4[1])) = (e = 1) else if w = 5 then (current z2) = e
    else if w = 6 then v5 = e else true;
tel
%traces
trace,i0,w,e
a,1,0,1
a,1,0,1
a,1,0,1
a,0,0,1
b,1,2,0
b,1,2,0
b,1,2,0
b,0,2,0
%answer
a passed
b undefined 0
total 2 passed 1 fault 0 undefined 1 assertion 0 false 0
status 1
%case
const C0 = 3; C1: int = 2;
node cnt(x: int) returns (n: int);
let n = (x -> pre n + x) mod 1000; tel
node main(i0: int; i1: int; c: bool; w: int; e: int) returns (ok: bool);
var v3: bool; v4: int; v5: bool;
let
  v5 = (v3 -> c);
  assert (current (if (v3 when (c)) then (v3 when (c)) else (v3 when (c))));
  ok = if w = 0 then v3 = (e = 1) else if w = 1 then v5 = (e = 1) else if w = 2 then v4 = e else
    true;
  v3 = (((true^4))[2] -> (current (c when not (c))));
  v4 = (red<<+, 1>>((current red<<-, C0>>((i1 when not v3), ((8^C0) when not v3))), map<<cnt,
    1>>((((-1)^1) -> [4])))) mod 31;
tel
%traces
trace,i0,i1,c,w,e
a,11,17,1,2,0
b,11,9,1,0,1
b,20,15,0,0,0
b,7,17,0,0,1
b,13,15,0,0,0
c,11,9,1,1,1
c,20,15,0,1,0
c,7,17,0,1,0
c,13,15,0,1,0
d,11,9,1,2,0
d,20,15,0,2,-6
d,7,17,0,2,0
d,13,15,0,2,2
%answer
a undefined 0
b false 2
c passed
d undefined 0
total 4 passed 1 fault 0 undefined 2 assertion 0 false 1
status 1
%case
node cnt(x: int) returns (n: int);
let n = (x -> pre n + x) mod 1000; tel
node main(i0: bool; i1: int^1; c: bool; w: int; e: int) returns (ok: bool);
var z3: int; z4: int; v5: int when (c); v6: int; v7: bool;
let
  v6 = (z4 -> pre (z4));
  z3, z4 = two(red<<cnt, 3>>((8 -> (-3))), ((i1[0] - i1[0]) mod (i1)[(0 + 0)]));
  v7 = (if (not c) then (current ((true when not (c)) and false)) else i0);
  assert (((z4 when not c) > ((2147483647 when not (c)) -> pre ((-4)))) or nor(((v7 when not c)
    fby false), (c when not (c)), ((v7 when not c) fby true)));
  v5 = ((4 + ((-3) when c)) * ((-2) fby v5));
  ok = if w = 0 then v7 = (e = 1) else if w = 1 then z4 = e else if w = 2 then v6 = e else if w
    = 3 then z3 = e else if w = 4 then (current v5) = e else true;
tel
function two(a, b: int) returns (p, q: int);
let p = (a + 1) mod 1000; q = (b * 2) mod 1000; tel
node late(c: bool; y: int when c) returns (z: int when c);
let z = 0 -> pre y; tel
%traces
trace,i0,i1[0],c,w,e
a,1,4,1,3,9
a,1,-3,0,3,23
b,0,6,1,0,0
b,1,0,1,0,1
b,0,2,0,0,0
b,0,-4,1,0,0
b,1,-1,0,0,0
%answer
a false 1
b fault 1
total 2 passed 0 fault 1 undefined 0 assertion 0 false 1
status 1
%case
node cnt(x: int) returns (n: int);
let n = (x -> pre n + x) mod 1000; tel
node hold(c: bool; y: int when c) returns (z: int);
let z = if c then current y else 0 -> pre z; tel
node main(i0: bool^2; i1: int^1; i2: bool; w: int; e: int) returns (ok: bool);
var v3: int; v4: int; v5: bool; v6: bool; v7: int;
let
  v3 = (current (pre ((v4 when not i2) -> pre (9))));
  v7 = hold(v6, (v3 when (v6)));
  ok = if w = 0 then v5 = (e = 1) else if w = 1 then v4 = e else if w = 2 then v6 = (e = 1) else
    if w = 3 then v7 = e else if w = 4 then v3 = e else true;
  v5 = i2;
  v4 = (i1[(2 mod 1)] fby (- i1[0]));
  v6 = red<<and, 3>>((pre v6), ((true^3) -> [true, false, false]));
tel
node split(x: int) returns (b: bool; y: int when b; u: int when not b);
let b = x > 0; y = x when b; u = (-x when not b) -> pre u + 1; tel
%traces
trace,i0[0],i0[1],i1[0],i2,w,e
a,1,1,-7,1,0,1
a,0,0,1,1,0,1
a,0,0,46341,0,0,0
a,0,0,16,1,0,1
a,0,1,9,1,0,1
b,1,0,-2147483648,1,0,1
b,0,0,13,1,0,1
b,0,0,6,1,0,1
b,0,1,-9,0,0,0
%answer
a undefined 0
b fault 0
total 2 passed 0 fault 1 undefined 1 assertion 0 false 0
status 1
%case
const C0 = 2;
node main(i0: bool; i1: int; i2: int; c: bool; w: int; e: int) returns (ok: bool);
var v4: int when i0; v5: int^2; v6: int; v7: int^1; v8: int when not i0;
let
  v4 = (((i2 when i0) fby (v4 mod 5))) mod 1009;
  ok = if w = 0 then v5[0] = e else if w = 1 then v5[1] = e else if w = 2 then v6 = e else if w
    = 3 then (current v4) = e else if w = 4 then v7[0] = e else if w = 5 then (current v8) = e
    else true;
  v7 = (if c then (8^1) else [6]);
  v8 = (((if (i0 when not i0) then (-2) else (v6 when not i0)) - ((v6 when not (i0)) + (-4))))
    mod 97;
  v5 = (if (c and i0) then ([4, 7] -> pre (v5)) else map<<+; 2>>((7^C0), (C0^C0)));
  v6 = ((i2 -> pre ((current v4)))) mod 97;
tel
%traces
trace,i0,i1,i2,c,w,e
a,1,13,14,1,0,4
a,0,-7,3,0,0,9
a,0,7,4,1,0,9
a,1,5,6,0,0,9
b,1,13,14,1,5,0
b,0,-7,3,0,5,4
b,0,7,4,1,5,4
b,1,5,6,0,5,4
c,0,19,8,0,0,9
c,0,4,14,1,0,9
c,0,5,-4,1,0,9
d,0,19,8,0,2,8
d,0,4,14,1,2,0
d,0,5,-4,1,2,0
e,1,19,16,1,0,4
e,0,-5,13,1,0,9
e,1,2,-2,1,0,9
e,0,5,-9,0,0,9
e,0,-7,18,0,0,9
%answer
a passed
b undefined 0
c passed
d undefined 1
e passed
total 5 passed 3 fault 0 undefined 2 assertion 0 false 0
status 1";
