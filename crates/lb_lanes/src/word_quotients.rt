//! Divisions of 64 integers by 64 others, where most are small.
//!
//! A processor divides floats side by side, but integers one after the other. So a quotient is
//! guessed by floats, and checked by its product with the divisor, in integers. The proof rests on
//! the check alone:
//!
//! ```text
//! 57 / 10    guess 5    57 - 5 * 10 = 7 is below 10: the quotient is 5
//! 60 / 10    guess 5    60 - 5 * 10 = 10 is not: in doubt
//! 57 / 0     guess any  57 is not below 0: in doubt
//! ```
//!
//! Where quotient and divisor are below 2 ^ 16, their product fits a word. Lanes in doubt get 0.

ghost use Rattle.std.specs.Prelude.{◌≡◌, ℕ, ◌<◌, ◌==◌, ◌/◌, true, pos, IfSome, slice_index};
ghost use Rattle.std.specs.Prelude.{if◌then◌else◌};
ghost use Rattle.std.specs.Int.{cast_signed, w32};
ghost use Rattle.lb_lanes.specs.Kernels.{bits_lane, lanes_in};
ghost use Rattle.lb_lanes.specs.Operators.{can_divide};

use crate::division::Division;
use crate::reciprocals::signed;
use crate::width::Width;
use crate::word_chunks::{load16, store16};
use std::simd::prelude::*;

/// The least size of a dividend whose quotient is not guessed.
pub(crate) const LARGE: u32 = 8388608;

// The float from which on each is a whole number, and the floats up to twice that.
const WHOLE: f32 = 12582912.0;

// The sizes of sixteen integers.
fn sizes16(x: u32x16) -> u32x16 {
    x.simd_lt(u32x16::splat(2147483648))
        .select(x, u32x16::splat(0) - x)
}

// Numbers near the sizes of sixteen quotients: mostly these themselves, where all are small.
fn near16(x: u32x16, y: u32x16) -> u32x16 {
    let dividend: f32x16 = (sizes16(x) & u32x16::splat(LARGE - 1)).cast();
    let divisor: f32x16 = (sizes16(y) & u32x16::splat(0xffff)).cast();
    let half = f32x16::splat(0.5);
    // No dividend is 0, so that no lane is 0 / 0.
    let near = (dividend + half) / divisor - half + f32x16::splat(WHOLE);
    near.to_bits()
}

// Puts a guess at the size of each quotient into `guesses`.
fn guess_all(a: &[u32; 64], b: &[u32; 64], width: Width, guesses: &mut [u32; 64]) {
    for c in 0..width.chunks {
        let at = 16 * c;
        let near = near16(load16(a, at), load16(b, at));
        store16(guesses, at, near);
    }
}

// The quotient of two sizes, if the guess is right, and quotient and divisor are small.
fn small_quotient(n: u32, d: u32, guess: u32) -> Option<u32>
    ensures right { IfSome result (λ q. q ≡ n / d) }
    ensures small { IfSome result (λ q. q < 65536) }
    ensures divisor { IfSome result (λ q. 0 < d) }
{
    let quotient = guess & 0xffff;
    if d < 65536 && n.wrapping_sub(quotient * d) < d {
        Some(quotient)
    } else {
        None
    }
}

// The result of the division and 0; or, where the quotient is in doubt, 0 and a word of ones.
fn settled<K: Division>(x: u32, y: u32, guess: u32) -> (u32, u32)
    ensures divisible { (result.1 == 0) ≡ true
        → can_divide (cast_signed w32 x) (cast_signed w32 y) ≡ true }
    ensures value { cast_signed w32 result.0 ≡ (if result.1 == 0
        then K.divided (cast_signed w32 x) (cast_signed w32 y) else pos 0) }
{
    let size = x.cast_signed().unsigned_abs();
    let by = y.cast_signed().unsigned_abs();
    match small_quotient(size, by, guess) {
        Some(quotient) => (K::from_quotient(x, y, signed(x, y, quotient)), 0),
        None => (0, u32::MAX),
    }
}

/// Puts the results of the division into `out`, with 0 for a lane in doubt, and into `doubts` words
/// that are 0 just where a lane is not in doubt. Returns the union of these words.
pub(crate) fn divide_small<K: Division>(
    a: &[u32; 64],
    b: &[u32; 64],
    width: Width,
    out: &mut [u32; 64],
    doubts: &mut [u32; 64],
) -> u32
    ensures sure { result ≡ 0 → (i : ℕ) → i < lanes_in width → slice_index doubts.new i ≡ 0 }
    ensures divisible { (i : ℕ) → i < lanes_in width → (slice_index doubts.new i == 0) ≡ true
        → can_divide (bits_lane a.now i) (bits_lane b.now i) ≡ true }
    ensures values { (i : ℕ) → i < lanes_in width → bits_lane out.new i
        ≡ (if slice_index doubts.new i == 0
        then K.divided (bits_lane a.now i) (bits_lane b.now i) else pos 0) }
{
    guess_all(a, b, width, out);
    let mut union = 0u32;
    for i in 0..16 * width.chunks {
        let (value, doubt) = settled::<K>(a[i], b[i], out[i]);
        union |= doubt;
        doubts[i] = doubt;
        out[i] = value;
    }
    union
}
