//! Controllers, and the reasons why their traces do not pass: each of the four verdicts, of five
//! controllers.

/// Words and inputs, and the output, the errors and the status.
pub const CONTROLLERS: &str = "\
lbench --node cruise --observe safe --explain
-- A cruise control. The wheel tells its speed now and then.
node cruise(on, brake, fresh: bool; wheel, want: int) returns (gas: int; active: bool);
var told: int when fresh; speed: int;
let
  told = wheel when fresh;
  speed = current told;
  active = on and not brake -> (not brake and want > 0 or pre active) and on;
  gas = if active then 1000 / want * (want - speed) else 0;
tel
-- It lets go while somebody brakes, and the wheel never turns backwards.
node safe(on, brake, fresh: bool; wheel, want, gas: int; active: bool) returns (ok: bool);
let
  assert fresh => wheel >= 0;
  ok = (brake => not active) and gas >= -500;
tel
%traces
trace,on,brake,fresh,wheel,want
braked,1,0,1,40,50
braked,1,1,0,-1,50
stopped,1,0,1,10,0
backwards,1,0,1,60,50
backwards,0,0,1,-3,50
silent,1,0,0,30,50
fast,1,0,1,70,50
fast,1,0,0,0,40
=>
braked false 1
stopped fault 0
backwards assertion 1
silent undefined 0
fast false 1
total 5 passed 0 fault 1 undefined 1 assertion 1 false 2
braked false 1: safe.ok is false (-:14:3)
  14:8: `and`, its left side is false
  14:9: brake => not active with brake = true, not active = false
  14:18: not active with active = true
  11:58: active is true, an input
  7:3: cruise.active = `->`, its right side is taken
  7:32: `and`, its left side is true
  7:33: `or`, its right side is true
  7:59: pre active is true, kept since instant 0
stopped fault 0: cruise.gas, 1000 / want with want = 0 (-:8:24)
backwards assertion 1: assert fresh => wheel >= 0 (-:13:3)
  13:10: `=>`, its right side is false
  13:19: wheel >= 0 with wheel = -3
silent undefined 0: safe.ok is nil: current told has no value yet (-:6:11)
fast false 1: safe.ok is false (-:14:3)
  14:8: `and`, its right side is false
  14:34: gas >= -500 with gas = -750
status 1
----
lbench --explain
-- A lift between three floors: no call waits for more than two ticks.
node waits(call, here: bool) returns (late: bool);
var open: bool; n: int;
let
  open = (call or (false -> pre open)) and not here;
  n = if open then (0 -> pre n) + 1 else 0;
  late = n > 2;
tel
node add(sum, w: int) returns (total: int); let total = sum + w; tel
node is_at(floor, k: int) returns (here: bool); let here = floor = k; tel
node main(call: bool^3; floor: int; w: int^2; moving: bool) returns (ok: bool);
var here, late: bool^3; load: int;
let
  here = map<<is_at, 3>>(floor^3, [0, 1, 2]);
  late = map<<waits, 3>>(call, here);
  load = red<<add, 2>>(0, w);
  assert if moving then floor - pre floor < 2 else true;
  ok = not red<<or, 3>>(false, late) and load < 900;
tel
%traces
trace,call[0],call[1],call[2],floor,w[0],w[1],moving
forgotten,0,1,0,0,70,80,0
forgotten,0,0,0,0,70,80,0
forgotten,0,0,0,0,70,80,0
heavy,0,0,0,1,2147483647,5,0
jumped,0,0,0,0,70,80,0
jumped,0,0,0,2,70,80,1
starting,0,0,0,1,70,80,1
=>
forgotten false 2
heavy fault 0
jumped assertion 1
starting undefined 0
total 4 passed 0 fault 1 undefined 1 assertion 1 false 1
forgotten false 2: main.ok is false (-:18:3)
  18:8: `and`, its left side is false
  18:8: not red<<or, 3>>(false, late) with red<<or, 3>>(false, late) = true
  15:3: late[1] = map<<waits, 3>>(call, here), which is true
  7:3: waits.late = n > 2 with n = 3
heavy fault 0: add.total, sum + w with sum = 2147483647, w = 5 (-:9:57, in main at 16:15[1])
jumped assertion 1: assert if moving then floor - pre floor < 2 else true (-:17:3)
  17:10: `if`, its condition is true
  17:25: floor - pre floor < 2 with floor - pre floor = 2
starting undefined 0: the assertion is nil: pre floor has no value yet (-:17:33)
status 1
----
lbench --explain
-- Two gates of a canal lock. A gate opens on demand, and never both at once.
node gate(ask, hold: bool; speed: int) returns (open: bool; turn: int);
var n: int;
let
  n = 0 fby (if ask and not hold then n + 1 else 0);
  open = (false -> pre open) and ask or n >= 2;
  turn = 90 / speed;
tel
node main(up, down, boat: bool; speed: int) returns (ok: bool);
var upper, lower, calm: bool; a, b: int;
let
  (upper, a) = gate(up, false -> pre lower, speed);
  (lower, b) = gate(down, upper, speed + 1);
  calm = if up then not pre boat else true;
  assert up or down or not boat;
  ok = not (upper and lower) and not (lower and boat) and calm;
tel
%traces
trace,up,down,boat,speed
both,0,0,0,9
both,1,1,0,9
both,1,1,0,9
both,1,1,0,9
caught,0,1,0,9
caught,0,1,0,9
caught,0,1,0,9
caught,0,1,1,9
jammed_up,0,0,0,0
jammed_down,0,0,0,9
jammed_down,0,0,0,-1
drifting,0,0,1,9
first,1,0,0,9
=>
both false 3
caught false 3
jammed_up fault 0
jammed_down fault 1
drifting assertion 0
first undefined 0
total 6 passed 0 fault 2 undefined 1 assertion 1 false 2
both false 3: main.ok is false (-:16:3)
  16:8: `and`, its left side is false
  16:8: `and`, its left side is false
  16:8: not (upper and lower) with upper and lower = true
  16:13: upper and lower with upper = true, lower = true
  12:3: upper = gate(up, false -> pre lower, speed), which is true
  6:3: gate.open = `or`, its right side is true
  6:41: n >= 2 with n = 2
caught false 3: main.ok is false (-:16:3)
  16:8: `and`, its left side is false
  16:8: `and`, its right side is false
  16:34: not (lower and boat) with lower and boat = true
  16:39: lower and boat with lower = true, boat = true
  13:3: lower = gate(down, upper, speed + 1), which is true
  6:3: gate.open = `or`, its left side is true
  6:10: `and`, its left side is true
  6:11: `->`, its right side is taken
jammed_up fault 0: gate.turn, 90 / speed with speed = 0 (-:7:10, in main at 12:16)
jammed_down fault 1: gate.turn, 90 / speed with speed = 0 (-:7:10, in main at 13:16)
drifting assertion 0: assert up or down or not boat (-:15:3)
  15:10: `or`, its left side is false
  15:10: up or down with up = false, down = false
  9:11: up is false, an input
first undefined 0: main.ok is nil: pre boat has no value yet (-:14:25)
status 1
----
lbench --node charger --observe watch --explain
-- A charger for three cells, which rests while it is hot.
node cell(level, top: int) returns (full: bool; rest: int);
let
  assert level >= 0;
  full = level >= top;
  rest = top - level;
tel
node free(full, hot: bool) returns (on: bool);
let on = not (false -> pre hot) and not full; tel
node tally(n: int; on: bool) returns (m: int);
let m = if on then n + 1 else n; tel
node charger(level: int^3; top: int; hot: bool) returns (on: bool^3; power: int);
var full: bool^3; rest: int^3; count: int;
let
  (full, rest) = map<<cell, 3>>(level, top^3);
  on = map<<free, 3>>(full, hot^3);
  count = red<<tally, 3>>(0, on);
  power = if hot then 0 else 600 / count;
tel
node watch(level: int^3; top: int; hot: bool; on: bool^3; power: int) returns (ok: bool);
var limit: int when hot;
let
  limit = top when hot;
  ok = (hot => nor(on[0], on[1], on[2])) and
    (if power > 300 then power <= current limit else true);
tel
%traces
trace,level[0],level[1],level[2],top,hot
heats,100,40,60,100,0
heats,100,40,60,100,1
all_full,100,100,100,100,0
broken,50,-2147483648,50,100,0
negative,50,50,-1,100,0
single,100,100,7,100,0
=>
heats false 1
all_full fault 0
broken fault 0
negative assertion 0
single undefined 0
total 5 passed 0 fault 2 undefined 1 assertion 1 false 1
heats false 1: watch.ok is false (-:24:3)
  24:8: `and`, its left side is false
  24:9: `=>`, its right side is false
  24:16: `nor`, one of its operands is true
  20:47: on[1] is true, an input
  16:3: charger.on[1] = map<<free, 3>>(full, hot^3), which is true
  9:5: free.on = `and`, its left side is true
  9:10: not (false -> pre hot) with false -> pre hot = false
  9:15: `->`, its right side is taken
all_full fault 0: charger.power, 600 / count with count = 0 (-:18:30)
broken fault 0: cell.rest, top - level with top = 100, level = -2147483648 \
(-:6:10, in charger at 15:23[1])
negative assertion 0: assert level >= 0 (-:4:3, in charger at 15:23[2])
  4:10: level >= 0 with level = -1
single undefined 0: watch.ok is nil: current limit has no value yet (-:25:35)
status 1
----
lbench --explain
-- A filler: bottles pass now and then. Three light ones in a row raise an alarm.
node count(light: bool) returns (n: int);
let
  n = if light then (0 -> pre n) + 1 else 0;
tel
node main(passes: bool; weight, full: int; stop: bool) returns (ok: bool);
var w, f, share, row: int when passes; alarm, seen: bool;
let
  w = weight when passes;
  f = full when passes;
  share = w * 100 / f;
  row = count(share < 95);
  seen = passes -> pre seen or passes;
  alarm = if seen or stop then current (row >= 3) else false;
  assert w > 0;
  ok = not (alarm and not stop);
tel
%traces
trace,passes,weight,full,stop
kept,1,90,100,0
kept,1,90,100,0
kept,1,90,100,1
kept,0,7,0,0
now,1,90,100,0
now,0,90,100,0
now,1,94,100,0
now,1,189,200,0
no_size,0,5,0,0
no_size,1,5,0,0
empty,1,0,100,1
early,0,5,5,1
=>
kept false 3
now false 3
no_size fault 1
empty assertion 0
early undefined 0
total 5 passed 0 fault 1 undefined 1 assertion 1 false 2
kept false 3: main.ok is false (-:16:3)
  16:8: not (alarm and not stop) with alarm and not stop = true
  16:13: alarm and not stop with alarm = true, not stop = true
  14:3: alarm = `if`, its condition is true
  14:32: current (row >= 3) is true, kept since instant 2
now false 3: main.ok is false (-:16:3)
  16:8: not (alarm and not stop) with alarm and not stop = true
  16:13: alarm and not stop with alarm = true, not stop = true
  14:3: alarm = `if`, its condition is true
  14:32: current (row >= 3) is true
  14:41: row >= 3 with row = 3
no_size fault 1: main.share, w * 100 / f with w * 100 = 500, f = 0 (-:11:11)
empty assertion 0: assert w > 0 (-:15:3)
  15:10: w > 0 with w = 0
early undefined 0: main.ok is nil: current (row >= 3) has no value yet (-:14:32)
status 1";
