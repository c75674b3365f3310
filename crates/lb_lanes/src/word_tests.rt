//! Tests of two integers of 32 bits, sixteen lanes at a time, to a plane.
//!
//! ```text
//! lanes    0..15    16..31    32..47    48..63
//! passes   0xffff   0x0001    0x0000    0x8000     sixteen bits of each chunk
//! plane    0x8000_0000_0001_ffff
//! ```

ghost use Rattle.std.specs.Prelude.{◌≡◌, ℕ, ◌<◌, Bool, ℤ, int_lt, int_le};
ghost use Rattle.std.specs.Ordering.{int_eq};
ghost use Rattle.std.specs.Prelude.{slice_index, if◌then◌else◌};
ghost use Rattle.lb_lanes.specs.Halves.{is_below_unsigned};
ghost use Rattle.lb_lanes.specs.Kernels.{IsBlendBelow, bits_lane, lanes_in};
ghost use Rattle.lb_lanes.specs.Operators.{can_divide};
ghost use Rattle.lb_lanes.specs.Planes.{IsPlaneBelow, on};

use crate::width::Width;
use crate::word_chunks::{load16, store16};
use std::simd::prelude::*;

/// A test of two integers.
pub(crate) trait WordTest {
    /// Whether two integers pass.
    ghost passes: { ℤ → ℤ → Bool };

    // The lanes that pass.
    fn test16(x: u32x16, y: u32x16) -> u64
        ensures lanes { (i : ℕ) → i < 16 → on result i ≡ passes (bits_lane x i) (bits_lane y i) }
        ensures within { result < 65536 };
}

pub(crate) struct Equal;

impl WordTest for Equal {
    ghost passes = { int_eq };

    fn test16(x: u32x16, y: u32x16) -> u64 {
        Equal::chosen16(x, y, x, y).1
    }
}

pub(crate) struct Below;

impl WordTest for Below {
    ghost passes = { int_lt };

    fn test16(x: u32x16, y: u32x16) -> u64 {
        Below::chosen16(x, y, x, y).1
    }
}

pub(crate) struct AtMost;

impl WordTest for AtMost {
    ghost passes = { int_le };

    fn test16(x: u32x16, y: u32x16) -> u64 {
        AtMost::chosen16(x, y, x, y).1
    }
}

/// A test by which one of two integers is chosen.
pub(crate) trait WordChoice: WordTest {
    // The lanes of `a` where those of `x` and `y` pass, else those of `b`; and the lanes that pass.
    fn chosen16(x: u32x16, y: u32x16, a: u32x16, b: u32x16) -> (u32x16, u64)
        ensures value { (i : ℕ) → i < 16 → slice_index result.0 i
            ≡ (if on result.1 i then slice_index a i else slice_index b i) }
        ensures lanes { (i : ℕ) → i < 16
            → on result.1 i ≡ Self.passes (bits_lane x i) (bits_lane y i) }
        ensures within { result.1 < 65536 };
}

impl WordChoice for Equal {
    fn chosen16(x: u32x16, y: u32x16, a: u32x16, b: u32x16) -> (u32x16, u64) {
        let passed = x.simd_eq(y);
        (passed.select(a, b), passed.to_bitmask())
    }
}

// Words with `HALF` added to each are in the order of their integers.
const HALF: u32 = 2147483648;

impl WordChoice for Below {
    fn chosen16(x: u32x16, y: u32x16, a: u32x16, b: u32x16) -> (u32x16, u64) {
        let half = u32x16::splat(HALF);
        let passed = (x + half).simd_lt(y + half);
        (passed.select(a, b), passed.to_bitmask())
    }
}

impl WordChoice for AtMost {
    fn chosen16(x: u32x16, y: u32x16, a: u32x16, b: u32x16) -> (u32x16, u64) {
        let half = u32x16::splat(HALF);
        let passed = (x + half).simd_le(y + half);
        (passed.select(a, b), passed.to_bitmask())
    }
}

// The words of the least `int` and of -1.
const LEAST: u32 = 2147483648;

const MINUS_ONE: u32 = 4294967295;

/// Whether the two integers can be divided.
pub(crate) struct Divisible;

impl WordTest for Divisible {
    ghost passes = { can_divide };

    fn test16(x: u32x16, y: u32x16) -> u64 {
        let not_zero = y.simd_ne(u32x16::splat(0)).to_bitmask();
        let not_least = x.simd_ne(u32x16::splat(LEAST)).to_bitmask();
        let not_minus_one = y.simd_ne(u32x16::splat(MINUS_ONE)).to_bitmask();
        not_zero & (not_least | not_minus_one)
    }
}

/// Whether the bits of the first are the smaller number.
pub(crate) struct BelowUnsigned;

impl WordTest for BelowUnsigned {
    ghost passes = { is_below_unsigned };

    fn test16(x: u32x16, y: u32x16) -> u64 {
        x.simd_lt(y).to_bitmask()
    }
}

// The lanes in which the test of `a` and `b` passes.
pub(crate) fn tested<K: WordTest>(a: &[u32; 64], b: &[u32; 64], width: Width) -> u64
    ensures { IsPlaneBelow (lanes_in width)
        (λ i. K.passes (bits_lane a.now i) (bits_lane b.now i)) result }
{
    let mut plane = 0u64;
    for c in 0..width.chunks {
        let at = 16 * c;
        let passed = K::test16(load16(a, at), load16(b, at));
        plane |= passed << (at as u64);
    }
    plane
}

// Puts into `out` the lanes of `a` where those of `x` and `y` pass, and those of `b` where they do
// not, and returns the lanes that pass.
pub(crate) fn chosen<K: WordChoice>(
    x: &[u32; 64],
    y: &[u32; 64],
    a: &[u32; 64],
    b: &[u32; 64],
    width: Width,
    out: &mut [u32; 64],
) -> u64
    ensures plane { IsPlaneBelow (lanes_in width)
        (λ i. K.passes (bits_lane x.now i) (bits_lane y.now i)) result }
    ensures lanes { IsBlendBelow (lanes_in width) result (bits_lane a.now) (bits_lane b.now)
        (bits_lane out.new) }
{
    let mut plane = 0u64;
    for c in 0..width.chunks {
        let at = 16 * c;
        let left = load16(x, at);
        let right = load16(y, at);
        let first = load16(a, at);
        let second = load16(b, at);
        let (value, passed) = K::chosen16(left, right, first, second);
        store16(out, at, value);
        plane |= passed << (at as u64);
    }
    plane
}
