//! Lane words: 64 integers of 32 bits side by side.

ghost use Rattle.std.specs.Prelude.{◌≡◌, ℕ, ◌<◌, ◌==◌, List, ℤ, map, int_lt, int_le};
ghost use Rattle.std.specs.Prelude.{if◌then◌else◌};
ghost use Rattle.std.specs.Int.{cast_signed, w32};
ghost use Rattle.std.specs.Ordering.{int_eq};
ghost use Rattle.lb_lanes.specs.Correct.{IsBlend};
ghost use Rattle.lb_lanes.specs.Halves.{is_below_unsigned, sign_of};
ghost use Rattle.lb_lanes.specs.Kernels.{AreInts, IsBlendBelow, IsKernelBelow, bits_lane, lane_of};
ghost use Rattle.lb_lanes.specs.Kernels.{lanes_in};
ghost use Rattle.lb_lanes.specs.Operators.{result_of};
ghost use Rattle.lb_lanes.specs.Planes.{IsPlaneBelow};

use crate::division::{Quotient, Remainder};
use crate::int_operator::IntOperator;
use crate::planes::Plane;
use crate::width::Width;
use crate::word_divisions::run_division;
use crate::word_kernels::{Difference, Sum, blend, commit, run};
use crate::word_products::run_product;
use crate::word_tests::{AtMost, Below, BelowUnsigned, Equal, chosen, tested};
use std::marker::Model;

/// 64 integers in the range of `int`, a lane each.
///
/// The operators compute in the lanes of the active plane alone, and return the lanes with a fault
/// as a plane. No lane can be out of the range of `int`.
///
/// A function that takes a width computes in its lanes, and may leave anything in the others.
#[derive(Drop)]
pub struct LaneWord {
    lanes: [u32; 64],
}

impl Model for LaneWord {
    ghost Value = { List ℤ };

    ghost view = { λ s. map (cast_signed w32) s.lanes };
}

impl LaneWord {
    /// The value in every lane.
    pub fn splat(value: i32) -> LaneWord
        ensures { (i : ℕ) → i < 64 → lane_of result i ≡ value }
    {
        LaneWord {
            lanes: [value.cast_unsigned(); 64],
        }
    }

    /// Tells a proof that every lane is in the range of `int`. It does nothing when it runs.
    pub fn are_ints(&self)
        ensures { AreInts self.now }
    {
        let _ = &self.lanes;
    }

    /// The value of the lane, a number below 64.
    pub fn get(&self, lane: u32) -> i32
        requires { lane < 64 }
        ensures { result ≡ lane_of self.now lane }
    {
        self.lanes[lane as usize].cast_signed()
    }

    /// Puts the value into the lane, a number below 64.
    pub fn set(&mut self, lane: u32, value: i32)
        requires { lane < 64 }
        ensures { (i : ℕ) → i < 64
            → lane_of self.new i ≡ (if i == lane then value else lane_of self.old i) }
    {
        self.lanes[lane as usize] = value.cast_unsigned();
    }

    /// The lanes that are equal in both.
    #[inline(never)]
    pub fn eq(&self, other: &LaneWord, width: Width) -> Plane
        ensures { IsPlaneBelow (lanes_in width)
            (λ i. int_eq (lane_of self.now i) (lane_of other.now i)) result.0 }
    {
        Plane(tested::<Equal>(&self.lanes, &other.lanes, width))
    }

    /// The lanes that are below those of `other`.
    #[inline(never)]
    pub fn lt(&self, other: &LaneWord, width: Width) -> Plane
        ensures { IsPlaneBelow (lanes_in width)
            (λ i. int_lt (lane_of self.now i) (lane_of other.now i)) result.0 }
    {
        Plane(tested::<Below>(&self.lanes, &other.lanes, width))
    }

    /// The lanes that are at most those of `other`.
    #[inline(never)]
    pub fn le(&self, other: &LaneWord, width: Width) -> Plane
        ensures { IsPlaneBelow (lanes_in width)
            (λ i. int_le (lane_of self.now i) (lane_of other.now i)) result.0 }
    {
        Plane(tested::<AtMost>(&self.lanes, &other.lanes, width))
    }

    // The lanes whose bits are a smaller number than those of `other`.
    pub(crate) fn lt_unsigned(&self, other: &LaneWord, width: Width) -> Plane
        ensures { IsPlaneBelow (lanes_in width)
            (λ i. is_below_unsigned (lane_of self.now i) (lane_of other.now i))
            result.0 }
    {
        Plane(tested::<BelowUnsigned>(&self.lanes, &other.lanes, width))
    }

    /// Takes over all lanes of another word.
    pub fn copy_from(&mut self, other: &LaneWord)
        ensures { self.new ≡ other.now }
    {
        self.lanes = other.lanes;
    }

    /// Takes over the lanes of `a` where the mask is true, and those of `b` where it is not.
    pub fn set_blend(&mut self, mask: Plane, a: &LaneWord, b: &LaneWord, width: Width)
        ensures { IsBlendBelow (lanes_in width) mask.0 (lane_of a.now) (lane_of b.now)
            (lane_of self.new) }
    {
        blend(mask.0, &a.lanes, &b.lanes, width, &mut self.lanes);
    }

    // Takes over the lanes of `new` where the mask is true.
    pub(crate) fn commit(&mut self, new: &LaneWord, mask: Plane)
        ensures { IsBlend mask.0 new.now self.old self.new }
    {
        commit(mask.0, &new.lanes, Width::all(), &mut self.lanes);
    }

    // Takes over the signs of the lanes of another word: -1 where one is below 0, else 0.
    pub(crate) fn set_signs(&mut self, of: &LaneWord)
        ensures { (i : ℕ) → i < 64 → lane_of self.new i ≡ sign_of (lane_of of.now i) }
    {
        let (zeros, ones) = (&[0; 64], &[u32::MAX; 64]);
        let _ = chosen::<Below>(&of.lanes, zeros, ones, zeros, Width::all(), &mut self.lanes);
    }

    /// Takes over the lanes of `a` where those of `x` and `y` are equal, and those of `b` where
    /// they are not; returns the lanes that are equal.
    #[inline(never)]
    pub fn set_where_eq(
        &mut self,
        x: &LaneWord,
        y: &LaneWord,
        a: &LaneWord,
        b: &LaneWord,
        width: Width,
    ) -> Plane
        ensures plane { IsPlaneBelow (lanes_in width)
            (λ i. int_eq (lane_of x.now i) (lane_of y.now i)) result.0 }
        ensures lanes { IsBlendBelow (lanes_in width) result.0 (lane_of a.now) (lane_of b.now)
            (lane_of self.new) }
    {
        Plane(chosen::<Equal>(
            &x.lanes,
            &y.lanes,
            &a.lanes,
            &b.lanes,
            width,
            &mut self.lanes,
        ))
    }

    /// Takes over the lanes of `a` where those of `x` are below those of `y`, and those of `b`
    /// where they are not; returns the lanes that are below.
    #[inline(never)]
    pub fn set_where_lt(
        &mut self,
        x: &LaneWord,
        y: &LaneWord,
        a: &LaneWord,
        b: &LaneWord,
        width: Width,
    ) -> Plane
        ensures plane { IsPlaneBelow (lanes_in width)
            (λ i. int_lt (lane_of x.now i) (lane_of y.now i)) result.0 }
        ensures lanes { IsBlendBelow (lanes_in width) result.0 (lane_of a.now) (lane_of b.now)
            (lane_of self.new) }
    {
        Plane(chosen::<Below>(
            &x.lanes,
            &y.lanes,
            &a.lanes,
            &b.lanes,
            width,
            &mut self.lanes,
        ))
    }

    /// Takes over the lanes of `a` where those of `x` are at most those of `y`, and those of `b`
    /// where they are not; returns the lanes that are at most.
    #[inline(never)]
    pub fn set_where_le(
        &mut self,
        x: &LaneWord,
        y: &LaneWord,
        a: &LaneWord,
        b: &LaneWord,
        width: Width,
    ) -> Plane
        ensures plane { IsPlaneBelow (lanes_in width)
            (λ i. int_le (lane_of x.now i) (lane_of y.now i)) result.0 }
        ensures lanes { IsBlendBelow (lanes_in width) result.0 (lane_of a.now) (lane_of b.now)
            (lane_of self.new) }
    {
        Plane(chosen::<AtMost>(
            &x.lanes,
            &y.lanes,
            &a.lanes,
            &b.lanes,
            width,
            &mut self.lanes,
        ))
    }

    /// Puts the results of an operator into `out`, and returns the faults: the active lanes where
    /// the operator has no result, or one out of the range of `int`.
    ///
    /// A lane that is not active, or has a fault, gets 0.
    pub fn operate(
        &self,
        op: IntOperator,
        other: &LaneWord,
        active: Plane,
        width: Width,
        out: &mut LaneWord,
    ) -> Plane
        ensures lanes { IsKernelBelow (lanes_in width) (result_of op) (lane_of self.now)
            (lane_of other.now) active.0 (lane_of out.new) result.0 }
    {
        Plane(operated(
            op,
            &self.lanes,
            &other.lanes,
            active.0,
            width,
            &mut out.lanes,
        ))
    }
}

// Puts the results of an operator in the lanes of `width` into `out`, and returns the faults.
fn run_operator(
    op: IntOperator,
    a: &[u32; 64],
    b: &[u32; 64],
    active: u64,
    width: Width,
    out: &mut [u32; 64],
) -> u64
    ensures { IsKernelBelow (lanes_in width) (result_of op) (bits_lane a.now)
        (bits_lane b.now) active (bits_lane out.new) result }
{
    match op {
        IntOperator::Add => run::<Sum>(a, b, active, width, out),
        IntOperator::Sub => run::<Difference>(a, b, active, width, out),
        IntOperator::Mul => run_product(a, b, active, width, out),
        IntOperator::Div => run_division::<Quotient>(a, b, active, width, out),
        IntOperator::Rem => run_division::<Remainder>(a, b, active, width, out),
    }
}

// `run_operator` without the active lanes above the width.
fn operated(
    op: IntOperator,
    a: &[u32; 64],
    b: &[u32; 64],
    active: u64,
    width: Width,
    out: &mut [u32; 64],
) -> u64
    ensures { IsKernelBelow (lanes_in width) (result_of op) (bits_lane a.now)
        (bits_lane b.now) active (bits_lane out.new) result }
{
    run_operator(op, a, b, active & width.plane(), width, out)
}
