//! Kernels on slices of any length: chunks of eight words, and a plain loop for the rest.

ghost use Rattle.std.specs.Prelude.{◌≡◌, ℕ, ◌+◌, ◌<◌, ◌≤◌, not, length, slice_index};
ghost use Rattle.std.specs.Prelude.{bit_and, bit_or, bit_xor};
ghost use Rattle.std.specs.List.{list_any};
ghost use Rattle.lb_lanes.specs.Correct.{CommitsInts, CommitsPlanes, IsSelection, IsWordwise};
ghost use Rattle.lb_lanes.specs.Operators.{is_int};

use crate::chunks::{load8, store8};
use crate::lanes::IntLanes;
use crate::planes::{Plane, selected};
use std::simd::prelude::*;

/// An operation on two words, bit by bit.
pub(crate) trait WordOp {
    /// The word of the result.
    ghost word: { ℕ → ℕ → ℕ };

    fn one(x: u64, y: u64) -> u64
        ensures { result ≡ word x y };

    fn eight(x: u64x8, y: u64x8) -> u64x8
        ensures { (i : ℕ) → i < 8
            → slice_index result i ≡ word (slice_index x i) (slice_index y i) };
}

struct And;

impl WordOp for And {
    ghost word = { bit_and };

    fn one(x: u64, y: u64) -> u64 {
        x & y
    }

    fn eight(x: u64x8, y: u64x8) -> u64x8 {
        x & y
    }
}

struct Or;

impl WordOp for Or {
    ghost word = { bit_or };

    fn one(x: u64, y: u64) -> u64 {
        x | y
    }

    fn eight(x: u64x8, y: u64x8) -> u64x8 {
        x | y
    }
}

struct Xor;

impl WordOp for Xor {
    ghost word = { bit_xor };

    fn one(x: u64, y: u64) -> u64 {
        x ^ y
    }

    fn eight(x: u64x8, y: u64x8) -> u64x8 {
        x ^ y
    }
}

fn combine<K: WordOp>(a: &[u64], b: &[u64], out: &mut [u64])
    requires left { length a.now ≡ length out.old }
    requires right { length b.now ≡ length out.old }
    ensures { IsWordwise K.word a.now b.now out.new }
{
    let whole = out.len() / 8;
    for c in 0..whole {
        let at = 8 * c;
        let eight = K::eight(load8(a, at), load8(b, at));
        store8(out, at, eight);
    }
    for k in 8 * whole..out.len() {
        out[k] = K::one(a[k], b[k]);
    }
}

/// Puts into `out`, word by word, the lanes that are true in both.
pub fn and_slices(a: &[u64], b: &[u64], out: &mut [u64])
    requires left { length a.now ≡ length out.old }
    requires right { length b.now ≡ length out.old }
    ensures { IsWordwise bit_and a.now b.now out.new }
{
    combine::<And>(a, b, out);
}

/// Puts into `out`, word by word, the lanes that are true in one or both.
pub fn or_slices(a: &[u64], b: &[u64], out: &mut [u64])
    requires left { length a.now ≡ length out.old }
    requires right { length b.now ≡ length out.old }
    ensures { IsWordwise bit_or a.now b.now out.new }
{
    combine::<Or>(a, b, out);
}

/// Puts into `out`, word by word, the lanes that are true in just one.
pub fn xor_slices(a: &[u64], b: &[u64], out: &mut [u64])
    requires left { length a.now ≡ length out.old }
    requires right { length b.now ≡ length out.old }
    ensures { IsWordwise bit_xor a.now b.now out.new }
{
    combine::<Xor>(a, b, out);
}

// Each bit of `a` where the mask is set, and of `b` where it is not.
fn selected8(mask: u64, a: u64x8, b: u64x8) -> u64x8
    ensures { (k : ℕ) → k < 8
        → IsSelection mask (slice_index a k) (slice_index b k) (slice_index result k) }
{
    (u64x8::splat(mask) & a) | (u64x8::splat(!mask) & b)
}

/// Puts the lanes of each new plane into the old one where the mask is true, and leaves the rest.
pub fn commit_planes(old: &mut [u64], new: &[u64], mask: Plane)
    requires { length new.now ≡ length old.old }
    ensures { CommitsPlanes mask.0 old.old new.now old.new }
{
    let whole = old.len() / 8;
    for c in 0..whole {
        let at = 8 * c;
        let kept = selected8(mask.0, load8(new, at), load8(old, at));
        store8(old, at, kept);
    }
    for k in 8 * whole..old.len() {
        old[k] = selected(mask.0, new[k], old[k]);
    }
}

/// Puts the lanes of each new element into the old one where the mask is true, and leaves the rest.
pub fn commit_ints(old: &mut [IntLanes], new: &[IntLanes], mask: Plane)
    requires { length new.now ≡ length old.old }
    ensures { CommitsInts mask.0 old.old new.now old.new }
{
    for k in 0..old.len() {
        old[k].commit(&new[k], mask);
    }
}

// Whether the value is out of the range of `int`.
fn is_outside(value: i64) -> bool
    ensures { result ≡ not (is_int value) }
{
    value < -2147483648 || value > 2147483647
}

/// Whether some value is out of the range of `int`.
pub fn any_outside(values: &[i64]) -> bool
    ensures { result ≡ list_any (λ v. not (is_int v)) values.now }
{
    // The loop has no early exit, so that values are tested side by side.
    let mut found = false;
    for value in values {
        found |= is_outside(*value);
    }
    found
}
