//! Choices, sums and differences of 64 integers of 32 bits, under a plane of lanes.
//!
//! A sum of 32 bits wraps. It is out of the range of `int` just where its sign is neither
//! operand's, so that one bit of each lane shows it:
//!
//! ```text
//! operands   7fffffff + 00000001    00000003 + 00000004
//! sum        80000000               00000007
//! top bits   0 + 0 = 1: beyond      0 + 0 = 0
//! ```
//!
//! All lanes are computed alike. Those that are not active, or are out of the range, are made 0
//! afterwards, if there are any.

ghost use Rattle.std.specs.Prelude.{◌≡◌, ℕ, ◌<◌, not, IsTrue, ℤ, pos, ◌+ℤ◌, ◌-ℤ◌};
ghost use Rattle.std.specs.Prelude.{slice_index, if◌then◌else◌};
ghost use Rattle.lb_lanes.specs.Kernels.{IsBlendBelow, IsKernelBelow, bits_lane, lanes_in};
ghost use Rattle.lb_lanes.specs.Operators.{is_int, lawful};
ghost use Rattle.lb_lanes.specs.Planes.{IsPlaneBelow, on};

use crate::width::Width;
use crate::word_chunks::{blended16, load16, store16, tops16};
use std::simd::prelude::*;

// Puts into `out` the lanes of `a` where the mask is true, and those of `b` where it is not.
pub(crate) fn blend(mask: u64, a: &[u32; 64], b: &[u32; 64], width: Width, out: &mut [u32; 64])
    ensures { IsBlendBelow (lanes_in width) mask (bits_lane a.now) (bits_lane b.now)
        (bits_lane out.new) }
{
    for c in 0..width.chunks {
        let at = 16 * c;
        let kept = blended16(mask >> (at as u64), load16(a, at), load16(b, at));
        store16(out, at, kept);
    }
}

// Puts the lanes of `new` into `old` where the mask is true.
pub(crate) fn commit(mask: u64, new: &[u32; 64], width: Width, old: &mut [u32; 64])
    ensures { IsBlendBelow (lanes_in width) mask (bits_lane new.now) (bits_lane old.old)
        (bits_lane old.new) }
{
    for c in 0..width.chunks {
        let at = 16 * c;
        let kept = blended16(mask >> (at as u64), load16(new, at), load16(old, at));
        store16(old, at, kept);
    }
}

// `keep` for a mask that is not true in all lanes.
#[inline(never)]
fn keep_some(mask: u64, width: Width, lanes: &mut [u32; 64])
    ensures { (i : ℕ) → i < lanes_in width → bits_lane lanes.new i
        ≡ (if on mask i then bits_lane lanes.old i else pos 0) }
{
    commit(!mask, &[0; 64], width, lanes);
}

// Makes the lanes 0 where the mask is not true.
pub(crate) fn keep(mask: u64, width: Width, lanes: &mut [u32; 64])
    ensures { (i : ℕ) → i < lanes_in width → bits_lane lanes.new i
        ≡ (if on mask i then bits_lane lanes.old i else pos 0) }
{
    if mask == width.plane() {
        return;
    }
    keep_some(mask, width, lanes);
}

/// A sum or a difference.
pub(crate) trait Wrapping {
    /// The exact result.
    ghost exact: { ℤ → ℤ → ℤ };

    // The results of sixteen lanes in 32 bits, and words whose top bit is set where the exact
    // result is out of the range of `int`.
    fn wrapped16(x: u32x16, y: u32x16) -> (u32x16, u32x16)
        ensures value { (i : ℕ) → i < 16
            → IsTrue (is_int (exact (bits_lane x i) (bits_lane y i)))
            → bits_lane result.0 i ≡ exact (bits_lane x i) (bits_lane y i) }
        ensures look { (i : ℕ) → i < 16
            → on (slice_index result.1 i) 31
            ≡ not (is_int (exact (bits_lane x i) (bits_lane y i))) };
}

pub(crate) struct Sum;

impl Wrapping for Sum {
    ghost exact = { λ a b. a +ℤ b };

    fn wrapped16(x: u32x16, y: u32x16) -> (u32x16, u32x16) {
        let sum = x + y;
        (sum, (x ^ sum) & (y ^ sum))
    }
}

pub(crate) struct Difference;

impl Wrapping for Difference {
    ghost exact = { λ a b. a -ℤ b };

    fn wrapped16(x: u32x16, y: u32x16) -> (u32x16, u32x16) {
        let difference = x - y;
        (difference, (x ^ y) & (x ^ difference))
    }
}

// Puts the wrapped results into `out`, and returns the lanes whose exact result is out of the range
// of `int`. In the other lanes the wrapped result is exact.
fn run_wrapped<K: Wrapping>(a: &[u32; 64], b: &[u32; 64], width: Width, out: &mut [u32; 64]) -> u64
    ensures values { (i : ℕ) → i < lanes_in width
        → IsTrue (is_int (K.exact (bits_lane a.now i) (bits_lane b.now i)))
        → bits_lane out.new i ≡ K.exact (bits_lane a.now i) (bits_lane b.now i) }
    ensures beyond { IsPlaneBelow (lanes_in width)
        (λ i. not (is_int (K.exact (bits_lane a.now i) (bits_lane b.now i)))) result }
{
    let mut beyond = 0u64;
    for c in 0..width.chunks {
        let at = 16 * c;
        let (value, look) = K::wrapped16(load16(a, at), load16(b, at));
        store16(out, at, value);
        beyond |= tops16(look) << (at as u64);
    }
    beyond
}

// Puts the results of the operator into `out`, and returns the faults.
pub(crate) fn run<K: Wrapping>(
    a: &[u32; 64],
    b: &[u32; 64],
    active: u64,
    width: Width,
    out: &mut [u32; 64],
) -> u64
    ensures { IsKernelBelow (lanes_in width) (λ x y. lawful (K.exact x y)) (bits_lane a.now)
        (bits_lane b.now) active (bits_lane out.new) result }
{
    let beyond = run_wrapped::<K>(a, b, width, out);
    keep(active & !beyond, width, out);
    active & beyond
}
