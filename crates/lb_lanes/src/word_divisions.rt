//! Quotients and remainders of 64 integers of 32 bits, under a plane of active lanes.
//!
//! The divisor is mostly the same in all active lanes, as a constant is. Then each lane takes a
//! multiplication and a shift, or a shift alone where the divisor is a power of 2. Else all lanes
//! are divided as small numbers. A lane that this leaves in doubt is then divided by itself, unless
//! its divisor is 0. Where the first dividend is large, every lane is divided by itself: a lane
//! that is not active or cannot be divided has 1 for a divisor, and its result is made 0:
//!
//! ```text
//! active      1    1    0    1
//! dividends   7    8    9    5
//! divisors    2    0    0    3         2 1 1 3
//! quotients   3    0    0    1         3 8 9 1, and the active lanes that can be divided kept
//! faults      0    1    0    0
//! ```

ghost use Rattle.std.specs.Prelude.{◌≡◌, ℕ, ◌<◌, ◌^◌, true, IsTrue, pos, ℤ, int_div, unsigned_abs};
ghost use Rattle.std.specs.Prelude.{MatchOption, if◌then◌else◌};
ghost use Rattle.std.specs.Int.{cast_signed, w32};
ghost use Rattle.lb_lanes.specs.Kernels.{IsKernelBelow, bits_lane, lanes_in};
ghost use Rattle.lb_lanes.specs.Operators.{can_divide, divided_by};
ghost use Rattle.lb_lanes.specs.Planes.{on};

use crate::division::Division;
use crate::planes::Plane;
use crate::reciprocals::{reciprocal, word_divided, word_shifted};
use crate::width::Width;
use crate::word_kernels::{blend, keep};
use crate::word_quotients::{LARGE, divide_small};
use crate::word_tests::{Divisible, Equal, tested};

// Puts the results into `out`, for lanes that can all be divided.
fn divide_all<K: Division>(a: &[u32; 64], divisors: &[u32; 64], width: Width, out: &mut [u32; 64])
    requires { (i : ℕ) → i < lanes_in width
        → IsTrue (can_divide (bits_lane a.now i) (bits_lane divisors.now i)) }
    ensures { (i : ℕ) → i < lanes_in width
        → bits_lane out.new i ≡ K.divided (bits_lane a.now i) (bits_lane divisors.now i) }
{
    for i in 0..16 * width.chunks {
        let divided = K::divide(a[i].cast_signed(), divisors[i].cast_signed());
        out[i] = divided.cast_unsigned();
    }
}

// Puts the results into `out`, each lane divided by itself, and returns the faults.
fn run_one_by_one<K: Division>(
    a: &[u32; 64],
    b: &[u32; 64],
    active: u64,
    width: Width,
    out: &mut [u32; 64],
) -> u64
    ensures { IsKernelBelow (lanes_in width) (divided_by K.divided) (bits_lane a.now)
        (bits_lane b.now) active (bits_lane out.new) result }
{
    let divisible = tested::<Divisible>(a, b, width);
    let divides = active & divisible;
    if divides == width.plane() {
        divide_all::<K>(a, b, width, out);
        return 0;
    }
    let mut divisors = [1u32; 64];
    blend(divides, b, &[1; 64], width, &mut divisors);
    let mut results = [0u32; 64];
    divide_all::<K>(a, &divisors, width, &mut results);
    blend(divides, &results, &[0; 64], width, out);
    active & !divisible
}

// The word of the result if `divides`, and else `held`.
fn divided_or<K: Division>(x: u32, y: u32, divides: bool, held: u32) -> u32
    requires { IsTrue divides → IsTrue (can_divide (cast_signed w32 x) (cast_signed w32 y)) }
    ensures { cast_signed w32 result ≡ (if divides
        then K.divided (cast_signed w32 x) (cast_signed w32 y) else cast_signed w32 held) }
{
    if !divides {
        return held;
    }
    K::divide(x.cast_signed(), y.cast_signed()).cast_unsigned()
}

// Puts the results of the lanes of `divides`, mostly few, into `out`, each divided by itself.
#[inline(never)]
fn divide_some<K: Division>(
    a: &[u32; 64],
    b: &[u32; 64],
    divides: u64,
    width: Width,
    out: &mut [u32; 64],
)
    requires { (i : ℕ) → i < lanes_in width → on divides i ≡ true
        → IsTrue (can_divide (bits_lane a.now i) (bits_lane b.now i)) }
    ensures { (i : ℕ) → i < lanes_in width → bits_lane out.new i ≡ (if on divides i
        then K.divided (bits_lane a.now i) (bits_lane b.now i) else bits_lane out.old i) }
{
    for i in 0..16 * width.chunks {
        let chosen = Plane(divides).get(i as u32);
        out[i] = divided_or::<K>(a[i], b[i], chosen, out[i]);
    }
}

// Puts the results into `out`, each lane divided by its own divisor, and returns the faults.
#[inline(never)]
fn run_each_division<K: Division>(
    a: &[u32; 64],
    b: &[u32; 64],
    active: u64,
    width: Width,
    out: &mut [u32; 64],
) -> u64
    ensures { IsKernelBelow (lanes_in width) (divided_by K.divided) (bits_lane a.now)
        (bits_lane b.now) active (bits_lane out.new) result }
{
    // Where the first active lane has a large dividend, others mostly have one, too.
    let first = (active.trailing_zeros() % 64) as usize;
    if a[first].cast_signed().unsigned_abs() >= LARGE {
        return run_one_by_one::<K>(a, b, active, width, out);
    }
    let mut doubts = [0u32; 64];
    if divide_small::<K>(a, b, width, out, &mut doubts) == 0 {
        keep(active, width, out);
        return 0;
    }
    let doubtful = active & !tested::<Equal>(&doubts, &[0; 64], width);
    keep(active, width, out);
    let others = doubtful & !tested::<Equal>(b, &[0; 64], width);
    if others == 0 {
        return doubtful;
    }
    let divisible = tested::<Divisible>(a, b, width);
    divide_some::<K>(a, b, doubtful & divisible, width, out);
    doubtful & !divisible
}

// The one divisor of all active lanes, if there is one and each integer can be divided by it.
fn common_divisor(b: &[u32; 64], active: u64, width: Width) -> Option<u32>
    ensures { MatchOption result (Unit {0}) (λ d.
        ((i : ℕ) → i < lanes_in width → on active i ≡ true → bits_lane b.now i ≡ cast_signed w32 d)
        × ((v : ℤ) → IsTrue (can_divide v (cast_signed w32 d)))) }
{
    let divisor = b[(active.trailing_zeros() % 64) as usize];
    if divisor == 0 || divisor == 4294967295 {
        return None;
    }
    // Divisors that are not the same mostly differ in the first and the last active lane.
    if b[63 - (active.leading_zeros() % 64) as usize] != divisor {
        return None;
    }
    let others = active & !tested::<Equal>(b, &[divisor; 64], width);
    if others == 0 { Some(divisor) } else { None }
}

// Puts the results into `out`, for one divisor in all lanes, whose size is 2 ^ `shift`.
fn divide_by_power<K: Division>(
    a: &[u32; 64],
    divisor: u32,
    shift: u32,
    width: Width,
    out: &mut [u32; 64],
)
    requires short { shift < 32 }
    requires power { unsigned_abs (cast_signed w32 divisor) ≡ 2 ^ shift }
    requires divisible { (v : ℤ) → IsTrue (can_divide v (cast_signed w32 divisor)) }
    ensures { (i : ℕ) → i < lanes_in width
        → bits_lane out.new i ≡ K.divided (bits_lane a.now i) (cast_signed w32 divisor) }
{
    for i in 0..16 * width.chunks {
        let quotient = word_shifted(a[i], divisor, shift);
        out[i] = K::from_quotient(a[i], divisor, quotient);
    }
}

// Puts the results into `out`, for one divisor in all lanes.
fn divide_by_one<K: Division>(a: &[u32; 64], divisor: u32, width: Width, out: &mut [u32; 64])
    requires { (v : ℤ) → IsTrue (can_divide v (cast_signed w32 divisor)) }
    ensures { (i : ℕ) → i < lanes_in width
        → bits_lane out.new i ≡ K.divided (bits_lane a.now i) (cast_signed w32 divisor) }
{
    let size = divisor.cast_signed().unsigned_abs();
    let log = size.ilog2();
    if 1u32 << log == size {
        divide_by_power::<K>(a, divisor, log, width, out);
        return;
    }
    let (factor, shift) = reciprocal(size, log);
    for i in 0..16 * width.chunks {
        let quotient = word_divided(a[i], divisor, factor, shift);
        out[i] = K::from_quotient(a[i], divisor, quotient);
    }
}

// Puts the results of the division into `out`, and returns the faults.
pub(crate) fn run_division<K: Division>(
    a: &[u32; 64],
    b: &[u32; 64],
    active: u64,
    width: Width,
    out: &mut [u32; 64],
) -> u64
    ensures { IsKernelBelow (lanes_in width) (divided_by K.divided) (bits_lane a.now)
        (bits_lane b.now) active (bits_lane out.new) result }
{
    match common_divisor(b, active, width) {
        Some(divisor) => {
            divide_by_one::<K>(a, divisor, width, out);
            keep(active, width, out);
            0
        }
        None => run_each_division::<K>(a, b, active, width, out),
    }
}
