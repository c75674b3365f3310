//! Worked values of lane words, from the rules of the operators and not from the kernels.

use crate::lanes::operator;
use crate::words::Words;
use lb_lanes::{LaneWord, Plane, Width};
use lb_test_support::texts::{Said, around, is_same};

// Puts the value of `lane:value` into its lane. Returns whether there is such a lane and a value.
fn set_lane(word: &mut LaneWord, spelled: &str) -> bool {
    let (lane, value) = around(spelled, ":");
    match (lane.parse::<u32>(), value.parse::<i32>()) {
        (Ok(lane), Ok(value)) if lane < 64 => {
            word.set(lane, value);
            true
        }
        _ => false,
    }
}

// The word of `4,1:-4,63:0`: 4 in each lane, but -4 in lane 1 and 0 in lane 63.
fn word_of(spelled: &str) -> Option<LaneWord> {
    let mut parts = spelled.split(',');
    let mut word = LaneWord::splat(parts.next().unwrap_or("").parse::<i32>().ok()?);
    for part in parts {
        if !set_lane(&mut word, part) {
            return None;
        }
    }
    Some(word)
}

// The plane of a number, or of `all`.
fn plane_of(spelled: &str) -> Option<Plane> {
    if is_same(spelled, "all") {
        return Some(Plane(u64::MAX));
    }
    Some(Plane(spelled.parse::<u64>().ok()?))
}

// Runs a kernel, which puts its result into the lanes of `width` of `out`, and returns its plane.
fn put(
    kernel: &[u8],
    a: &LaneWord,
    b: &LaneWord,
    active: Plane,
    width: Width,
    out: &mut LaneWord,
) -> Plane {
    match kernel {
        [b'=', ..] => return a.eq(b, width),
        [b'<', ..] => return a.lt(b, width),
        [b'l', ..] => return a.le(b, width),
        [b'E', ..] => return out.set_where_eq(a, b, a, b, width),
        [b'B', ..] => return out.set_where_lt(a, b, a, b, width),
        [b'M', ..] => return out.set_where_le(a, b, a, b, width),
        [b'c', ..] => out.copy_from(a),
        [b's', ..] => out.set_blend(active, a, b, width),
        [sign, ..] => return a.operate(operator(*sign), b, active, width, out),
        [] => {}
    }
    Plane(0)
}

// The result of the kernel of a row on its two words, put into lanes that held 0, and its plane.
fn put_row(asked: &str, width: Width) -> Option<(LaneWord, Plane)> {
    let mut words = Words::new(asked);
    let kernel = words.word();
    let a = word_of(words.word())?;
    let b = word_of(words.word())?;
    let active = plane_of(words.word())?;
    let mut out = LaneWord::splat(0);
    let plane = put(kernel.as_bytes(), &a, &b, active, width, &mut out);
    Some((out, plane))
}

/// Lanes 0, 1, 31 and 63 of the result of a kernel on two words, and its plane.
pub fn push_words(asked: &str, said: &mut Said) {
    match put_row(asked, Width::all()) {
        Some((out, plane)) => {
            for lane in [0u32, 1, 31, 63] {
                write!(said, "{} ", out.get(lane));
            }
            write!(said, "{}", plane.0);
        }
        None => said.push_str("no numbers"),
    }
}

// The lanes that a row asks for, and the result of its kernel in the least width with these lanes.
fn put_narrow_row(asked: &str) -> Option<(Plane, LaneWord, Plane)> {
    let (row, told) = asked.rsplit_once(' ')?;
    let told = plane_of(told)?;
    let (out, plane) = put_row(row, Width::of(told))?;
    Some((told, out, plane))
}

/// The lanes that a row asks for, of the result of its kernel in the least width with these lanes,
/// and of its plane.
pub fn push_narrow(asked: &str, said: &mut Said) {
    let Some((told, out, plane)) = put_narrow_row(asked) else {
        return said.push_str("no numbers");
    };
    for lane in 0..64u32 {
        if told.get(lane) {
            write!(said, "{} ", out.get(lane));
        }
    }
    write!(said, "{}", plane.and(told).0);
}

// Rows: a kernel, two words, and the plane of the lanes that count, or that take the first word.
// Then lanes 0, 1, 31 and 63 of the result, and the plane of its faults, or of where it holds. `E`,
// `B` and `M` take the first word where it is equal to the second, below it or at most it, and else
// the second.
pub const WORDS: &str = "\
+ 5,63:2147483647 7,63:1 all => 12 12 12 0 9223372036854775808
+ 5,63:2147483647 7,63:1 9223372036854775807 => 12 12 12 0 0
+ -2147483648,1:3 -1,1:4 3 => 0 7 0 0 1
+ 2147483647,0:1,31:-5 1,31:-2147483644 all => 2 0 0 0 18446744073709551614
- -2147483648,1:2,63:-3 1,63:2147483647 all => 0 1 0 0 18446744073709551613
- 0,31:2147483647 -2147483648,31:-1 2147483651 => 0 0 0 0 2147483651
- 9 4 0 => 0 0 0 0 0
* 65536,1:-65536,31:46340,63:3 32768,31:46340,63:-7 all => \
0 -2147483648 2147395600 -21 9223372034707292157
* -2147483648,1:0 -1,63:1 all => 0 0 0 -2147483648 9223372036854775805
* 46341 46341 5 => 0 0 0 0 5
* -46341,63:-1 46340,63:-2147483648 9223372036854775809 => -2147441940 0 0 0 9223372036854775808
/ 7,0:-7,1:2147483647,31:-2147483648 2 all => -3 1073741823 -1073741824 3 0
/ 7,0:-7,1:2147483647,31:-2147483648 -2 all => 3 -1073741823 1073741824 -3 0
/ 7,0:-7,1:2147483647,31:-2147483648 -1 all => 7 -2147483647 0 -7 2147483648
/ 7,0:-7,1:2147483647,31:-2147483648 1 all => -7 2147483647 -2147483648 7 0
/ 7,0:-7,1:2147483647,31:-2147483648 0 all => 0 0 0 0 18446744073709551615
/ 7,0:-7,1:2147483647,31:-2147483648 0 0 => 0 0 0 0 0
/ -2147483647,1:2147483647,31:-2147483648,63:9 2147483647 all => -1 1 -1 0 0
/ -2147483647,1:2147483647,31:-2147483648,63:9 -2147483648 all => 0 0 1 0 0
/ 699,0:-700,1:700,31:-2147483648,63:2147483647 7 all => -100 100 -306783378 306783378 0
/ 699,0:-700,1:700,31:-2147483648,63:2147483647 -641 all => 1 -1 3350208 -3350208 0
/ 1000000006,0:1000000007,1:-1000000007,31:-2147483648,63:2147483647 1000000007 all => \
1 -1 -2 2 0
% 7,0:-7,1:2147483647,31:-2147483648 2 all => -1 1 0 1 0
% 7,0:-7,1:2147483647,31:-2147483648 -1 all => 0 0 0 0 2147483648
% 7,0:-7,1:2147483647,31:-2147483648 0 6 => 0 0 0 0 6
% 699,0:-699,1:701,31:-2147483648,63:2147483647 7 all => -6 1 -2 1 0
% 699,0:-699,1:701,31:-2147483648,63:2147483647 -641 all => -58 60 -320 319 0
% -2147483647,1:2147483647,31:-2147483648,63:9 -2147483648 all => -2147483647 2147483647 0 9 0
/ 100,1:-2147483648 9,1:-1,63:0 9223372036854775805 => 11 0 11 0 0
/ 100,1:-2147483648 9,1:-1,63:0 all => 11 0 11 0 9223372036854775810
/ 100,0:-100,63:100 9,0:3,1:-3,31:0 all => -33 -33 0 11 2147483648
% 100,1:-2147483648 9,1:-1,63:0 all => 1 0 1 0 9223372036854775810
% 100,0:-100,63:100 9,0:3,1:-3,31:0 9223372036854775807 => -1 1 0 0 2147483648
= 4,1:-4,63:0 4 0 => 0 0 0 0 9223372036854775805
< 4,1:-2147483648,63:2147483647 4 0 => 0 0 0 0 2
< -1 0,31:-2147483648 0 => 0 0 0 0 18446744071562067967
le 4,1:-2147483648,63:2147483647 4 0 => 0 0 0 0 9223372036854775807
E 4,1:-4,63:0 4 0 => 4 4 4 4 9223372036854775805
B 4,1:-4,63:9 4,1:3,63:-9 0 => 4 -4 4 -9 2
M 4,1:-4,63:9 4,1:3,63:-9 0 => 4 -4 4 -9 9223372036854775807
set 1,63:2 3,1:-4 9223372036854775809 => 1 -4 3 2 0
set 1,63:2 3,1:-4 all => 1 1 1 2 0
copy -1,31:2147483647,63:-2147483648 0 0 => -1 -1 2147483647 -2147483648 0";

// Rows: a kernel, two words, the plane of the lanes that count, or that take the first word, and
// the lanes that are asked for. Then these lanes of the result, and of the plane of its faults, or
// of where it holds. Only the least width with these lanes is computed, and the values of other
// lanes change nothing.
pub const NARROW: &str = "\
= 4,15:-4,16:9 4 0 32769 => 0 0 1
= 4,15:-4,31:9 4,16:0,31:9 0 2147581952 => 0 0 0 2147483648
= 4,32:-4,47:9 4,47:9 0 140741783388160 => 0 0 0 140737488420864
= 4,48:-4 4,63:9 0 9223653511831486464 => 0 0 0
< -1,15:0,16:-5 0 0 32769 => 0 0 1
< -1,16:2147483647 0,31:-2147483648 0 2147581952 => 0 0 0 32768
< -1,47:-2147483648 -1,32:0,48:7 0 140741783388160 => 0 0 0 140741783322624
< 3,16:-2147483648 -3 0 65536 => 0 65536
le 4,15:2147483647 4 0 32769 => 0 0 1
le 4,16:-2147483648,31:5 4 0 2147581952 => 0 0 0 98304
le 4,32:5,47:4 4 0 140741783388160 => 0 0 0 140737488420864
le 4,48:5 4 0 281474976710656 => 0 0
E 4,15:-4 4,0:3 0 32769 => 3 4 0
B 4,16:-4,31:9 4,31:10 0 2147581952 => 4 -4 9 2147549184
M 4,32:9,47:-9 4,16:3 0 140741783388160 => 3 4 -9 140737488355328
set 1,15:2 3,0:-4 32768 32769 => -4 2 0
set 1,31:2 3,16:-4 2147483648 2147581952 => 3 -4 2 0
set 1,47:2,48:5 3,32:-4 all 140741783388160 => 1 1 2 0
set 1,32:2 3,32:-4 18446744069414584319 4294967296 => -4 0
+ 2147483647,15:5 1 all 32769 => 0 6 1
+ 2147483647,15:5 1 18446744073709551614 32769 => 0 6 0
+ 5,16:2147483647,48:2147483647 7,16:1,48:1 all 140741783388160 => 0 12 12 65536
+ 5,48:2147483647,63:-8 7 all 9223653511831486464 => 0 -1 281474976710656
- -2147483648,15:3,31:0 1 all 2147581952 => 2 0 -1 65536
* 3,15:65536,16:46341 32768,0:-7 all 32769 => -21 0 32768
* 65536,16:3,31:-65536 32768,16:7 all 2147581952 => 0 21 -2147483648 32768
* 46340,47:46341 46340,47:46341 all 140741783388160 => 2147395600 2147395600 0 140737488355328
/ 7,15:-7 2,16:0,48:0 all 32769 => 3 -3 0
/ 9 0,15:2 32768 32769 => 0 4 0
/ 100,15:9 9,15:0,16:3 all 32769 => 11 0 32768
/ 7,31:-2147483648 -1,32:5 all 2147581952 => -7 -7 0 2147483648
/ 700,47:-701 7,32:8,63:0 all 140741783388160 => 100 87 -100 0
/ 8388608,16:-9,47:2147483647 10,16:2,47:-641,48:0 all 140741783388160 => -4 838860 -3350208 0
% 7,0:-7 2,48:0 all 32769 => -1 1 0
% 699,16:-699,31:701 7,32:0 all 2147581952 => 6 -6 1 0
% 100,32:-100,47:5 9,16:-3,47:0 all 140741783388160 => 1 -1 0 140737488355328
% -2147483648,32:7 -1,47:2147483647 all 140741783388160 => 0 0 -1 65536";
