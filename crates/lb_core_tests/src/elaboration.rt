//! Sources and the answers of `elaborate`: the instances and the inputs, or the refusal.
//!
//! No contract says which names a refusal of names, static values or sizes holds. The inputs of the
//! last program have 2^32 scalar elements, one more than 32 bits count.

/// Sources, each with its node under test, and perhaps an observer, in the last line.
pub const CASES: &str = "node main(x: int) returns (ok: bool); let ok = x > 0; tel
main => 1 of 1: main | x: Int
----
node main() returns (ok: bool); let ok = true; tel
main => 1 of 1: main |
----
node main(x: int) returns (ok: bool); let ok = y > 0; tel
main => the name y is unknown or doubled
----
node main(x: int) returns (ok: bool); let y = true; tel
main => the name y is unknown or doubled
----
node main(x: int) returns (ok: bool); var x: int; let ok = x > 0; tel
main => the name x is unknown or doubled
----
const main = 1; node main() returns (ok: bool); let ok = true; tel
main => the name main is unknown or doubled
----
node other(x: int) returns (ok: bool); let ok = x > 0; tel
main => the name main is unknown or doubled
----
node main(x: int) returns (ok: bool); let ok = f(x); tel
main => the name f is unknown or doubled
----
node main(x: int) returns (ok: bool); let ok = f(x); tel
node f(x: int) returns (y: bool); let y = x > 0; tel
main => 2 of 2: main f | x: Int
----
node main(x: int) returns (ok: bool); let ok = f(x); tel
node f<<const n: int>>(x: int) returns (y: bool); let y = x > n; tel
main => the name f is unknown or doubled
----
node main(x: int) returns (ok: bool); let ok = f(x); tel
function f(x: int) returns (y: bool); let y = g(x); tel
function g(x: int) returns (y: bool); let y = x > 0; tel
main => 3 of 3: main f g | x: Int
----
node main(x: int) returns (ok: bool); let ok = f(x); tel
function f(x: int) returns (y: bool); let y = g(x); tel
function g(x: int) returns (y: bool); let y = z > 0; tel
main => the name z is unknown or doubled
----
node main(x: int) returns (ok: bool); let ok = x > 0; tel
node other(x: int) returns (ok: bool); let ok = nowhere(x, z); tel
main => 1 of 1: main | x: Int
----
node main(x: int) returns (ok: bool); let ok = x > 0; tel
const other = 1;
node other(x: int) returns (ok: bool); let ok = x > 0; tel
main => the name other is unknown or doubled
----
const n = k; node main(x: int) returns (ok: bool); let ok = x > 0; tel
main => 1 of 1: main | x: Int
----
const n = k; node main(x: int) returns (ok: bool); let ok = x > n; tel
main => the name k is unknown or doubled
----
const n = m + 1; m = k; node main(x: int) returns (ok: bool); let ok = x > n; tel
main => the name k is unknown or doubled
----
const n = k; node main(n: int) returns (ok: bool); let ok = n > 0; tel
main => 1 of 1: main | n: Int
----
const k = 2; node main(x: int) returns (ok: bool); let ok = k(x); tel
main => the name k is unknown or doubled
----
node main(a: int^3; i: int) returns (ok: bool); let ok = a[i] > 0; tel
main => the name i is unknown or doubled
----
node main(x: int) returns (ok: bool); let ok = current (x when c) > 0; tel
main => the name c is unknown or doubled
----
node main(x: int when k) returns (ok: bool); let ok = true; tel
main => the name k is unknown or doubled
----
node main<<const n: int; const n: int>>(x: int) returns (ok: bool); let ok = true; tel
main => the name n is unknown or doubled
----
node main(a: int^3; c: bool) returns (ok: bool); var s: int when c;
let s = 1 when c; ok = f<<2>>(a[0], current s) > 0; tel
node f<<const n: int>>(x, z: int) returns (y: int); let y = x + n; tel
main => 2 of 2: main f | a[0]: Int a[1]: Int a[2]: Int c: Bool
----
node main(a: int^3) returns (ok: bool); var b: int^3; c: int^2; s: int;
let b = map<<g, 3>>(a); c = a[0..1]; s = red<<+, 3>>(0, a); ok = true; tel
node g(x: int) returns (y: int); let y = x; tel
main => 4 of 2: main g | a[0]: Int a[1]: Int a[2]: Int
----
const k = 2; node main(x: bool^k) returns (ok: bool); let ok = x[k - 1] and k > 1; tel
main => 1 of 1: main | x[0]: Bool x[1]: Bool
----
const k = 2; const m = 3; node main(x: int) returns (ok: bool); let ok = f<<m>>(x) > k; tel
node f<<const n: int>>(x: int) returns (y: int); let y = x + n; tel
main => 2 of 2: main f | x: Int
----
node main(x: int) returns (ok: bool); let ok = x > 0; tel
main, watch => the name watch is unknown or doubled
----
node main() returns (ok: bool); let ok = true; tel
main, main => the node that is run, or its observer, has an interface that it may not have
----
node main() returns (ok: bool); let ok = true; tel
node o(ok: bool) returns (fine: bool); let fine = ok; tel
main, o => 2 of 2: main o |
----
node main(x: int) returns (y: bool); let y = x > 0; tel
node watch(x: int; y: bool) returns (ok: bool); let ok = z; tel
main, watch => the name z is unknown or doubled
----
node main(x: int) returns (y: bool); let y = x > 0; tel
node watch(x: int; y: bool) returns (ok: bool); let ok = y or x < 1; tel
main, watch => 2 of 2: main watch | x: Int
----
node main(x: bool) returns (ok: bool); let ok = main(x); tel
main => the node main reaches itself by its calls
----
node main(x: bool) returns (ok: bool); let ok = a(x); tel
node a(x: bool) returns (y: bool); let y = b(x); tel
node b(x: bool) returns (y: bool); let y = a(x); tel
main => the node a reaches itself by its calls
----
node main(x: bool) returns (ok: bool); let ok = x; tel
node a(x: bool) returns (y: bool); let y = a(x); tel
main => 1 of 1: main | x: Bool
----
node main(x: bool) returns (ok: bool); var v: bool ^ 2;
let v = map<<a, 2>>(x ^ 2); ok = v[0]; tel
node a(x: bool) returns (y: bool); let y = main(x); tel
main => the node main reaches itself by its calls
----
node main(x: bool) returns (ok: bool); let ok = a(x) and b(x); tel
node a(x: bool) returns (y: bool); let y = c(x); tel
node b(x: bool) returns (y: bool); let y = c(x); tel
node c(x: bool) returns (y: bool); let y = x; tel
main => 5 of 4: main a b c | x: Bool
----
node a(x: bool) returns (y: bool); let y = b(x); tel
node b(x: bool) returns (y: bool); let y = c(x); tel
node c(x: bool) returns (y: bool); let y = d(x); tel
node d(x: bool) returns (y: bool); let y = x; tel
a => 4 of 4: a b c d | x: Bool
----
node a(x: bool) returns (y: bool); let y = b(x) and c(x); tel
node b(x: bool) returns (y: bool); let y = d(x); tel
node c(x: bool) returns (y: bool); let y = d(x); tel
node d(x: bool) returns (y: bool); let y = x; tel
a => 5 of 4: a b c d | x: Bool
----
node a(x: bool) returns (y: bool); let y = b(x); tel
node b(x: bool) returns (y: bool); let y = c(x); tel
node c(x: bool) returns (y: bool); let y = c(x); tel
a => the node c reaches itself by its calls
----
node a(x: bool) returns (y: bool); let y = d(x); tel
node b(x: bool) returns (y: bool); let y = x; tel
node c(x: bool) returns (y: bool); let y = b(x); tel
node d(x: bool) returns (y: bool); let y = c(x) and a(x); tel
a => the node a reaches itself by its calls
----
node a(x: bool) returns (y: bool); let y = b(x); tel
node b(x: bool) returns (y: bool); let y = d(x) and c(x); tel
node c(x: bool) returns (y: bool); let y = b(x); tel
node d(x: bool) returns (y: bool); let y = x; tel
a => the node b reaches itself by its calls
----
const k = 2;
node main(x: int) returns (y: bool); var a: int;
let a = f<<k>>(x) + f<<2>>(x) + f<<k + 1>>(x); y = a > 0; tel
node f<<const n: int>>(x: int) returns (y: int); let y = g(x) * n; tel
node g(x: int) returns (y: int); let y = x; tel
main => 7 of 4: main f g | x: Int
----
node main(x: int) returns (ok: bool); var y: int^4095;
let y = map<<f; 4095>>(x^4095); ok = y[0] > 0; tel
node f(x: int) returns (y: int); let y = x; tel
main => 4096 of 2: main f | x: Int
----
node main(x: int) returns (ok: bool); var y: int^4096;
let y = map<<f; 4096>>(x^4096); ok = y[0] > 0; tel
node f(x: int) returns (y: int); let y = x; tel
main => there are more than 4096 instances or 64 levels of them
----
node main(a: int^4096) returns (y: int^4096); var b: int;
let b = g(a[0]); y = map<<f; 4096>>(a); tel
node g(x: int) returns (y: int); let y = (x^3)[4096]; tel
node f(x: int) returns (y: int); let y = x; tel
main => a size, an index or a slice of the node g is out of its range
----
node main(a: int^0) returns (y: int^(1 div 0)); let y = a; tel
main => a static expression of the node main has no value
----
node main(a: int^0) returns (ok: bool); let ok = true; tel
main => a size, an index or a slice of the node main is out of its range
----
node main(a: int^4097) returns (ok: bool); let ok = true; tel
main => a size, an index or a slice of the node main is out of its range
----
node main() returns (ok: bool); var a: int^4096^17; let ok = true; tel
main => a size, an index or a slice of the node main is out of its range
----
node main() returns (ok: bool); var a: int^4096^16; let ok = true; tel
main => 1 of 1: main |
----
node main(a: int^9) returns (ok: bool); var b: int^1; let b = a[3..2]; ok = true; tel
main => a size, an index or a slice of the node main is out of its range
----
const n = 1 div 0; node main(a: int^n) returns (ok: bool); let ok = true; tel
main => a static expression of the node main has no value
----
const n = 1 div 0; node main(x: int) returns (ok: bool); let ok = x > n; tel
main => a static expression of the node main has no value
----
const n = 3; node main() returns (ok: bool); let ok = n > 0; tel
main => 1 of 1: main |
----
const n = 2; m = n * 2 + 1; node main(a: bool^m) returns (ok: bool); let ok = a[0]; tel
main => 1 of 1: main | a[0]: Bool a[1]: Bool a[2]: Bool a[3]: Bool a[4]: Bool
----
const m = n * 2 + 1; n = 2; node main(a: bool^m) returns (ok: bool); let ok = a[0]; tel
main => 1 of 1: main | a[0]: Bool a[1]: Bool a[2]: Bool a[3]: Bool a[4]: Bool
----
const a = b + 1; b = a - 1; c = 2; node main(x: bool^a) returns (ok: bool); let ok = x[0]; tel
main => a static expression of the node main has no value
----
const a = b + 1; b = a - 1; c = 2; node main(x: bool^c) returns (ok: bool); let ok = x[0]; tel
main => 1 of 1: main | x[0]: Bool x[1]: Bool
----
const a = -7 / 2; node main(x: bool^(5 + a)) returns (ok: bool); let ok = x[0]; tel
main => 1 of 1: main | x[0]: Bool x[1]: Bool
----
const a = -7 mod 2; node main(x: bool^(3 + a)) returns (ok: bool); let ok = x[0]; tel
main => 1 of 1: main | x[0]: Bool x[1]: Bool
----
const a = -2147483647 - 1; node main(x: bool^(2 + (a + 2147483647))) returns (ok: bool);
let ok = x[0]; tel
main => 1 of 1: main | x[0]: Bool
----
const a = 2147483647 + 1; node main(x: bool^(a - 2147483647)) returns (ok: bool); let ok = x[0]; tel
main => a static expression of the node main has no value
----
const a = 65536 * -32768; node main(x: bool^(2 + (a + 2147483647))) returns (ok: bool);
let ok = x[0]; tel
main => 1 of 1: main | x[0]: Bool
----
const a = (-2147483647 - 1) div -1; node main(x: bool^(a - a + 1)) returns (ok: bool);
let ok = x[0]; tel
main => a static expression of the node main has no value
----
const a = 7 mod 0; node main(x: bool^(a - a + 1)) returns (ok: bool); let ok = x[0]; tel
main => a static expression of the node main has no value
----
const a = -(-2147483647 - 1); node main(x: bool^(a - a + 1)) returns (ok: bool); let ok = x[0]; tel
main => a static expression of the node main has no value
----
const a = -1; node main(x: bool^a) returns (ok: bool); let ok = x[0]; tel
main => a size, an index or a slice of the node main is out of its range
----
node main(c: bool; m: int^3^2) returns (ok: bool); let ok = c; tel
main => 1 of 1: main | c: Bool{3  m[0][@]: Int}{3  m[1][@]: Int}
----
const n = 2; node main(a, b: bool^n) returns (ok: bool); let ok = a[0]; tel
main => 1 of 1: main | a[0]: Bool a[1]: Bool b[0]: Bool b[1]: Bool
----
node alone(x: bool) returns (y: bool); let y = x; tel
node main(a: int; m: int^2; c: bool) returns (ok: bool);
let ok = f(c) and m[0] > a; tel
node f(x: bool) returns (y: bool); let y = not x; tel
main => 2 of 2: main f | a: Int m[0]: Int m[1]: Int c: Bool
----
node main(x: int) returns (y: int); let y = x; tel
main => the node that is run, or its observer, has an interface that it may not have
----
node main(x: int) returns (ok: bool^1); let ok = true^1; tel
main => the node that is run, or its observer, has an interface that it may not have
----
node main() returns (a, b: bool); let a = true; b = a; tel
main => the node that is run, or its observer, has an interface that it may not have
----
node main(c: bool; x: bool when c) returns (ok: bool); let ok = c; tel
main => the node that is run, or its observer, has an interface that it may not have
----
node main(x: int^32^32) returns (ok: bool); let ok = true; tel
main => the node that is run, or its observer, has an interface that it may not have
----
node main(x: int^4096^16) returns (ok: bool); let ok = true; tel
main => the node that is run, or its observer, has an interface that it may not have
----
node main<<const n: int>>() returns (ok: bool); let ok = true; tel
main => the node that is run, or its observer, has an interface that it may not have
----
node main(x: int^2) returns (y: int); let y = x[0]; tel
node o(x: int^2; y: int) returns (ok: bool); let ok = y = x[0]; tel
main, o => 2 of 2: main o | x[0]: Int x[1]: Int
----
node main(x: int^2) returns (y: int); let y = x[0]; tel
node o(x: int^2) returns (ok: bool); let ok = true; tel
main, o => the node that is run, or its observer, has an interface that it may not have
----
node main(x: int^2^3) returns (y: int); let y = 1; tel
node o(x: int^3^2; y: int) returns (ok: bool); let ok = true; tel
main, o => the node that is run, or its observer, has an interface that it may not have
----
node main(x: int) returns (y: int); let y = x; tel
node o(x, y: int) returns (ok: int); let ok = x; tel
main, o => the node that is run, or its observer, has an interface that it may not have
----
node main(x: int) returns (ok: bool); let ok = f(x) > 0; tel
node f(x: int) returns (y: int); let y = (x^(1 div 0))[0]; tel
main => a static expression of the node f has no value
----
node main(x: int) returns (ok: bool); let ok = f(x) > 0; tel
node f(x: int) returns (y: int); let y = (x^0)[0]; tel
main => a size, an index or a slice of the node f is out of its range
----
node main(x: int^1023) returns (ok: bool); let ok = true; tel
main => 1 of 1: main |{1023  x[@]: Int}
----
node main({65535 x@, }y: int^4096^16) returns (ok: bool); let ok = true; tel
main => the node that is run, or its observer, has an interface that it may not have";
