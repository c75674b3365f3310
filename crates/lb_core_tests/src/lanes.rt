//! Worked values of each kernel, none of them from the kernels themselves.

ghost use Rattle.std.specs.Prelude.{◌≡◌, length};
ghost use Rattle.lb_lanes.specs.Kernels.{AreInts};

use crate::words::Words;
use lb_lanes::{
    IntLanes, IntOperator, Plane, and_slices, any_outside, commit_ints, commit_planes, or_slices,
    transpose, xor_slices,
};
use lb_test_support::texts::{Said, around};
use std::alloc::{AllocError, Global};

/// The two integers in lanes 0 and 1, and 0 elsewhere.
pub fn pair(first: i32, second: i32) -> IntLanes
    ensures { AreInts result }
{
    let mut lanes = IntLanes::splat(0);
    lanes.set(0, i64::from(first));
    lanes.set(1, i64::from(second));
    lanes
}

/// The operator of a sign.
pub fn operator(sign: u8) -> IntOperator {
    match sign {
        b'+' => IntOperator::Add,
        b'-' => IntOperator::Sub,
        b'*' => IntOperator::Mul,
        b'/' => IntOperator::Div,
        _ => IntOperator::Rem,
    }
}

// The result of a kernel that puts it into lanes which held 99, and the plane of its faults.
fn put(kernel: &[u8], a: &IntLanes, b: &IntLanes, active: Plane) -> (IntLanes, Plane)
    requires left { AreInts a.now }
    requires right { AreInts b.now }
{
    let mut out = IntLanes::splat(99);
    let mut faults = Plane(0);
    match kernel {
        [b'c', ..] => out.copy_from(a),
        [b's', ..] => out.set_blend(active, a, b),
        [sign, ..] => faults = a.operate(operator(*sign), b, active, &mut out),
        _ => {}
    }
    (out, faults)
}

// The result of a kernel on two rows of integers, and the plane where it faults or holds.
fn applied(kernel: &[u8], a: &IntLanes, b: &IntLanes, active: Plane) -> (IntLanes, Plane)
    requires left { AreInts a.now }
    requires right { AreInts b.now }
{
    match kernel {
        [b'+', ..] => a.add(b, active),
        [b'-', ..] => a.sub(b, active),
        [b'*', ..] => a.mul(b, active),
        [b'/', ..] => a.div(b, active),
        [b'%', ..] => a.rem(b, active),
        [b'n', ..] => a.neg(active),
        [b'=', ..] => (IntLanes::splat(0), a.eq(b)),
        [b'<', ..] => (IntLanes::splat(0), a.lt(b)),
        [b'l', ..] => (IntLanes::splat(0), a.le(b)),
        [b'>', put_kernel @ ..] => put(put_kernel, a, b, active),
        _ => (IntLanes::blend(active, a, b), Plane(0)),
    }
}

// Lanes 0 and 1 of the result of a kernel on its five numbers, and its plane.
pub fn push_ints(asked: &str, said: &mut Said) {
    let mut words = Words::new(asked);
    let kernel = words.word();
    let a = pair(words.number(), words.number());
    let b = pair(words.number(), words.number());
    let active = words.plane();
    if words.lacks_number() {
        return said.push_str("no numbers");
    }
    let (lanes, faults) = applied(kernel.as_bytes(), &a, &b, active);
    write!(said, "{} {} {}", lanes.get(0), lanes.get(1), faults.0);
}

// The result of a kernel on two planes.
fn combined(kernel: &[u8], p: Plane, q: Plane) -> Plane {
    match kernel {
        [b'&', ..] => p.and(q),
        [b'|', ..] => p.or(q),
        [b'^', ..] => p.xor(q),
        [b'!', ..] => p.not(),
        _ => Plane::select(Plane(3), p, q),
    }
}

// The result of a kernel on its two planes.
pub fn push_plane(asked: &str, said: &mut Said) {
    let mut words = Words::new(asked);
    let kernel = words.word();
    let p = words.plane();
    let q = words.plane();
    if words.lacks_number() {
        return said.push_str("no numbers");
    }
    write!(said, "{}", combined(kernel.as_bytes(), p, q).0);
}

// Rows: a kernel, lanes 0 and 1 of its operands, and the plane of the lanes that count, or that
// take the first operand. Then lanes 0 and 1 of the result, and the plane of its faults, or of
// where it holds. All other lanes are 0. A kernel with `>` puts its result into lanes that held
// something else.
pub const INTEGERS: &str = "\
+ 2147483647 2 1 3 3 => 0 5 1
+ 2147483647 2 1 3 2 => 0 5 0
* 65536 65536 32768 32767 3 => 0 2147418112 1
- -2147483648 7 1 9 3 => 0 -2 1
neg -2147483648 7 0 0 3 => 0 -7 1
/ -7 5 2 0 3 => -3 0 2
/ -7 5 2 0 1 => -3 0 0
% -7 5 2 0 3 => -1 0 2
/ -2147483648 7 -1 -1 3 => 0 -7 1
% -2147483648 7 -1 -1 3 => 0 0 1
= -1 5 1 5 0 => 0 0 18446744073709551614
< -1 5 1 5 0 => 0 0 1
le -1 5 1 5 0 => 0 0 18446744073709551615
blend -1 5 1 5 2 => 1 5 0
blend -1 5 1 7 2 => 1 5 0
>+ 2147483647 -5 1 3 3 => 0 -2 1
>+ 2147483647 -5 1 3 2 => 0 -2 0
>+ -2147483648 -2147483648 0 -1 3 => -2147483648 0 2
>+ -2147483648 2147483647 -2147483648 2147483647 1 => 0 0 1
>- -2147483648 5 1 7 3 => 0 -2 1
>- 0 2147483647 -2147483648 -1 3 => 0 0 3
>- -2147483648 9 -2147483648 4 2 => 0 5 0
>* 65536 -65536 32768 32768 3 => 0 -2147483648 1
>* 46341 46340 46341 46340 3 => 0 2147395600 1
>* -2147483648 3 -1 -4 1 => 0 0 1
>/ -7 7 2 -2 3 => -3 -3 0
>/ 1 9 0 3 7 => 0 3 5
>/ 1 9 0 3 2 => 0 3 0
>/ -2147483648 -2147483648 -1 1 3 => 0 -2147483648 1
>/ -2147483648 -2147483648 -1 1 2 => 0 -2147483648 0
>% -7 7 2 -2 3 => -1 1 0
>% 1 9 0 4 5 => 0 0 5
>% -2147483648 -2147483648 -1 2 3 => 0 0 1
>% 5 9 0 4 2 => 0 1 0
>copy -1 5 1 7 0 => -1 5 0
>set -1 5 1 7 0 => 1 7 0
>set -1 5 1 7 2 => 1 5 0
>set -1 5 1 7 1 => -1 7 0";

// Kernels and their planes; the last takes lanes 0 and 1 of the first plane.
pub const PLANES: &str = "\
& 12 10 => 8
| 12 10 => 14
^ 12 10 => 6
! 1 0 => 18446744073709551614
select 5 12 => 13";

// Sets the rows that a text spells: `3:5;` sets row 3 to 5. Others stay as they are.
fn set_rows(words: &mut [u64; 64], asked: &str) {
    for row in asked.split(';') {
        let (number, word) = around(row, ":");
        let number = number.parse::<usize>().unwrap_or(64);
        if number < 64 {
            words[number] = word.parse::<u64>().unwrap_or(0);
        }
    }
}

/// The rows of a matrix that are not 0 once it has been transposed.
pub fn push_transposed(asked: &str, said: &mut Said) {
    let mut words = [0u64; 64];
    set_rows(&mut words, asked);
    transpose(&mut words);
    for number in 0..64usize {
        if words[number] != 0 {
            write!(said, "{number}:{};", words[number]);
        }
    }
}

// The rows of a matrix that are not 0, and those of the transposed matrix.
pub const MATRICES: &str = "\
0:2; => 1:1;
63:1; => 0:9223372036854775808;
0:9223372036854775808; => 63:1;
63:9223372036854775808; => 63:9223372036854775808;
31:4294967296; => 32:2147483648;
32:1073741824; => 30:4294967296;
0:5;2:1;63:4; => 0:5;2:9223372036854775809;
15:65536;16:256;47:2;48:140737488355328; => 1:140737488355328;8:65536;16:32768;47:281474976710656;
7:256;8:16;33:17179869184;34:4294967296;62:2305843009213693952; => \
4:256;8:128;32:17179869184;34:8589934592;61:4611686018427387904;
1:134217728;3:576460752303423488;13:2147483648;20:16384;31:281474976710720;\
32:35184372088832;47:1152921504606846976;52:34359738368; => \
6:2147483648;14:1048576;27:2;31:8192;35:4503599627370496;45:4294967296;48:2147483648;59:8;\
60:140737488355328;
0:18446744073709551615; => {64 @:1;}
{64 @:9223372036854775808;} => 63:18446744073709551615;
{64 @:18446744073709551615;} => {64 @:18446744073709551615;}";

// Whether bit `c` of row `r` became bit `r` of row `c`, for all of them.
fn are_transposed(old: &[u64; 64], new: &[u64; 64]) -> bool {
    for r in 0..64u32 {
        for c in 0..64u32 {
            let was = old[r as usize] >> c;
            let is = new[c as usize] >> r;
            if was % 2 != is % 2 {
                return false;
            }
        }
    }
    true
}

// Numbers that look drawn at random.
fn drawn(seed: u64) -> [u64; 65] {
    let mut all = [0; 65];
    let mut state = seed;
    for k in 0..65 {
        state = state
            .wrapping_mul(6364136223846793005)
            .wrapping_add(1442695040888963407);
        all[k] = state;
    }
    all
}

// Whether `transpose` is right on a matrix whose rows and columns are full.
fn is_full_transposed() -> bool {
    let drawn = drawn(7);
    let mut old = [0; 64];
    for k in 0..64 {
        old[k] = drawn[k];
    }
    let mut new = old;
    transpose(&mut new);
    are_transposed(&old, &new)
}

#[test]
fn a_full_matrix(rt: HostRuntime) {
    assert!(rt; Plane(4).get(2) && !Plane(4).get(3));
    assert!(rt; is_full_transposed());
}

const LENGTHS: [usize; 5] = [0, 1, 63, 64, 65];

// Runs the kernel on words with this number.
fn run_words(kernel: u8, a: &[u64], b: &[u64], out: &mut [u64])
    requires left { length a.now ≡ length out.old }
    requires right { length b.now ≡ length out.old }
    ensures { length out.new ≡ length out.old }
{
    match kernel {
        0 => and_slices(a, b, out),
        1 => or_slices(a, b, out),
        2 => xor_slices(a, b, out),
        _ => commit_planes(out, a, Plane(0xff00)),
    }
}

// The result of a kernel on two words. The last kernel finds their exclusive or in `out`.
fn word_of(kernel: u8, a: u64, b: u64) -> u64 {
    match kernel {
        0 => a & b,
        1 => a | b,
        2 => a ^ b,
        _ => (a & 0xff00) | ((a ^ b) & 0xffff_ffff_ffff_00ff),
    }
}

// Whether each kernel on words does what a plain loop does.
fn are_as_alone(a: &[u64], b: &[u64], out: &mut [u64]) -> bool
    requires left { length a.now ≡ length out.old }
    requires right { length b.now ≡ length out.old }
{
    for kernel in 0..4 {
        run_words(kernel, a, b, out);
        for k in 0..a.len() {
            if out[k] != word_of(kernel, a[k], b[k]) {
                return false;
            }
        }
    }
    true
}

// `are_as_alone` for each length.
fn are_words_as_alone() -> bool {
    let (a, b) = (drawn(1), drawn(2));
    let mut out = [0; 65];
    for n in LENGTHS {
        let n = n.min(65);
        if !are_as_alone(&a[..n], &b[..n], &mut out[..n]) {
            return false;
        }
    }
    true
}

// 65 elements, with `from`, `from + 1` and so on in all lanes.
fn counted(alloc: Global, from: i64) -> Result<Vec<IntLanes>, AllocError> {
    let mut all = Vec::new(alloc);
    for k in 0..65i64 {
        all.push(IntLanes::splat(from.wrapping_add(k)))?;
    }
    Ok(all)
}

// Whether lanes 0 and 2 are new, and lane 1 is old.
fn are_new(ints: &[IntLanes]) -> bool {
    let mut old = 0i64;
    for lanes in ints {
        let new = old.wrapping_add(1000);
        if lanes.get(0) != new || lanes.get(1) != old || lanes.get(2) != new {
            return false;
        }
        old = old.wrapping_add(1);
    }
    true
}

// Whether `commit_ints` is right on the first elements, for each length.
fn are_committed(old: &mut [IntLanes], new: &[IntLanes]) -> bool {
    for n in LENGTHS {
        if n > old.len() || n > new.len() {
            return false;
        }
        commit_ints(&mut old[..n], &new[..n], Plane(5));
        if !are_new(&old[..n]) {
            return false;
        }
    }
    true
}

// `are_committed` for the elements of `counted`.
fn are_counted_committed(alloc: Global) -> Result<bool, AllocError> {
    let mut old = counted(alloc, 0)?;
    let new = counted(alloc, 1000)?;
    Ok(are_committed(&mut old, &new))
}

// Whether `any_outside` finds `value`, which stands last among `n` values.
fn is_outside(n: usize, value: i64) -> bool {
    let mut values = [0; 65];
    let n = n.min(65);
    if n > 0 {
        values[n - 1] = value;
    }
    any_outside(&values[..n])
}

// The lanes out of range, where lane 0 is one past the greatest integer and lane 1 is the least.
fn outside_lanes() -> Plane {
    let mut lanes = IntLanes::splat(0);
    lanes.set(0, 2147483648);
    lanes.set(1, -2147483648);
    lanes.outside()
}

// Whether a value out of range is found just where there is one, for each length.
fn are_outside_found() -> bool {
    for n in LENGTHS {
        if is_outside(n, 0) || is_outside(n, -2147483648) || is_outside(n, 2147483648) != (n > 0) {
            return false;
        }
    }
    true
}

#[test]
fn slices_of_each_length(rt: HostRuntime) -> Result<(), AllocError> {
    let are_committed = are_counted_committed(rt.alloc())?;
    assert!(rt; are_committed);
    assert!(rt; are_words_as_alone());
    assert!(rt; are_outside_found());
    assert!(rt; outside_lanes().0 == 1);
    Ok(())
}
