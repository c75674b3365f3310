//! Integer lanes: 64 integers of 64 bits side by side, as two lane words.
//!
//! One word has the upper halves of the integers, and one the bits of the lower halves:
//!
//! ```text
//! integer              upper half   lower half
//!          7                    0            7
//!         -7                   -1           -7
//! 2147483648                    0   -2147483648
//! 4294967303                    1            7
//! ```
//!
//! An integer is in the range of `int` just where the upper half is the sign of the lower one, -1
//! or 0. There the lower half is the integer, so that the operators of lane words serve here too.

ghost use Rattle.std.specs.Prelude.{◌≡◌, ℕ, ◌<◌, ◌==◌, not, List, ℤ, int_lt, int_le};
ghost use Rattle.std.specs.Prelude.{if◌then◌else◌};
ghost use Rattle.std.specs.Ordering.{int_eq};
ghost use Rattle.lb_lanes.specs.Correct.{IsBlend, IsKernel};
ghost use Rattle.lb_lanes.specs.Halves.{whole_lanes, whole_of};
ghost use Rattle.lb_lanes.specs.Kernels.{AreInts, lane_of};
ghost use Rattle.lb_lanes.specs.Operators.{difference_of, is_int, negation_of, product_of};
ghost use Rattle.lb_lanes.specs.Operators.{quotient_of, remainder_of, result_of, sum_of};
ghost use Rattle.lb_lanes.specs.Planes.{IsPlaneOf};

use crate::int_operator::IntOperator;
use crate::lane_words::LaneWord;
use crate::planes::Plane;
use crate::width::Width;
use std::marker::Model;

// The halves of an integer.
fn halves(value: i64) -> (i32, i32)
    ensures { whole_of result.0 result.1 ≡ value }
{
    let bits = value.cast_unsigned();
    let high = (bits >> 32u64) as u32;
    let low = (bits % 4294967296) as u32;
    (high.cast_signed(), low.cast_signed())
}

// The integer of two halves.
fn whole(high: i32, low: i32) -> i64
    ensures { result ≡ whole_of high low }
{
    i64::from(high) * 4294967296 + i64::from(low.cast_unsigned())
}

/// 64 integers of 64 bits, a lane each.
///
/// The operators take and return lanes in the range of `int`, -2147483648 to 2147483647. They
/// compute in the lanes of the active plane alone, and return the lanes with a fault as a plane.
#[derive(Drop)]
pub struct IntLanes {
    high: LaneWord,
    low: LaneWord,
}

impl Model for IntLanes {
    ghost Value = { List ℤ };

    ghost view = { λ s. whole_lanes s.high s.low };
}

impl IntLanes {
    /// The value in every lane.
    pub fn splat(value: i64) -> IntLanes
        ensures { (i : ℕ) → i < 64 → lane_of result i ≡ value }
    {
        let (high, low) = halves(value);
        IntLanes {
            high: LaneWord::splat(high),
            low: LaneWord::splat(low),
        }
    }

    /// The value of the lane, a number below 64.
    pub fn get(&self, lane: u32) -> i64
        requires { lane < 64 }
        ensures { result ≡ lane_of self.now lane }
    {
        whole(self.high.get(lane), self.low.get(lane))
    }

    /// Puts the value into the lane, a number below 64.
    pub fn set(&mut self, lane: u32, value: i64)
        requires { lane < 64 }
        ensures { (i : ℕ) → i < 64
            → lane_of self.new i ≡ (if i == lane then value else lane_of self.old i) }
    {
        let (high, low) = halves(value);
        self.high.set(lane, high);
        self.low.set(lane, low);
    }

    /// The lanes that are equal in both.
    pub fn eq(&self, other: &IntLanes) -> Plane
        ensures { IsPlaneOf (λ i. int_eq (lane_of self.now i) (lane_of other.now i)) result.0 }
    {
        self.low.are_ints();
        other.low.are_ints();
        self.high
            .eq(&other.high, Width::all())
            .and(self.low.eq(&other.low, Width::all()))
    }

    /// The lanes that are below those of `other`.
    pub fn lt(&self, other: &IntLanes) -> Plane
        ensures { IsPlaneOf (λ i. int_lt (lane_of self.now i) (lane_of other.now i)) result.0 }
    {
        self.low.are_ints();
        other.low.are_ints();
        let above_equal = self.high.eq(&other.high, Width::all());
        let low_below = self.low.lt_unsigned(&other.low, Width::all());
        self.high
            .lt(&other.high, Width::all())
            .or(above_equal.and(low_below))
    }

    /// The lanes that are at most those of `other`.
    pub fn le(&self, other: &IntLanes) -> Plane
        ensures { IsPlaneOf (λ i. int_le (lane_of self.now i) (lane_of other.now i)) result.0 }
    {
        other.lt(self).not()
    }

    /// The lanes that are out of the range of `int`.
    pub fn outside(&self) -> Plane
        ensures { IsPlaneOf (λ i. not (is_int (lane_of self.now i))) result.0 }
    {
        self.low.are_ints();
        let mut signs = LaneWord::splat(0);
        signs.set_signs(&self.low);
        self.high.eq(&signs, Width::all()).not()
    }

    /// The lanes of `a` where the mask is true, and those of `b` where it is not.
    pub fn blend(mask: Plane, a: &IntLanes, b: &IntLanes) -> IntLanes
        ensures { IsBlend mask.0 a.now b.now result }
    {
        let mut lanes = IntLanes::splat(0);
        lanes.set_blend(mask, a, b);
        lanes
    }

    /// Takes over all lanes of `other`.
    pub fn copy_from(&mut self, other: &IntLanes)
        ensures { self.new ≡ other.now }
    {
        self.high.copy_from(&other.high);
        self.low.copy_from(&other.low);
    }

    /// Takes over the lanes of `a` where the mask is true, and those of `b` where it is not.
    pub fn set_blend(&mut self, mask: Plane, a: &IntLanes, b: &IntLanes)
        ensures { IsBlend mask.0 a.now b.now self.new }
    {
        self.high.set_blend(mask, &a.high, &b.high, Width::all());
        self.low.set_blend(mask, &a.low, &b.low, Width::all());
    }

    // Takes over the lanes of `new` where the mask is true.
    pub(crate) fn commit(&mut self, new: &IntLanes, mask: Plane)
        ensures { IsBlend mask.0 new.now self.old self.new }
    {
        self.high.commit(&new.high, mask);
        self.low.commit(&new.low, mask);
    }

    /// Puts the results of an operator into `out`, and returns the faults.
    ///
    /// A lane that is not active, or has a fault, gets 0.
    pub fn operate(
        &self,
        op: IntOperator,
        other: &IntLanes,
        active: Plane,
        out: &mut IntLanes,
    ) -> Plane
        requires left { AreInts self.now }
        requires right { AreInts other.now }
        ensures lanes { IsKernel (result_of op) self.now other.now active.0 out.new result.0 }
        ensures in_range { AreInts out.new }
    {
        self.low.are_ints();
        other.low.are_ints();
        let faults = self
            .low
            .operate(op, &other.low, active, Width::all(), &mut out.low);
        out.low.are_ints();
        out.high.set_signs(&out.low);
        faults
    }

    // The results of an operator, and the faults.
    fn operated(&self, op: IntOperator, other: &IntLanes, active: Plane) -> (IntLanes, Plane)
        requires left { AreInts self.now }
        requires right { AreInts other.now }
        ensures lanes { IsKernel (result_of op) self.now other.now active.0 result.0 result.1.0 }
        ensures in_range { AreInts result.0 }
    {
        let mut out = IntLanes::splat(0);
        let faults = self.operate(op, other, active, &mut out);
        (out, faults)
    }

    /// The sums, and the faults: where a sum is out of the range of `int`.
    ///
    /// A lane that is not active, or has a fault, gives 0.
    pub fn add(&self, other: &IntLanes, active: Plane) -> (IntLanes, Plane)
        requires left { AreInts self.now }
        requires right { AreInts other.now }
        ensures lanes { IsKernel sum_of self.now other.now active.0 result.0 result.1.0 }
        ensures in_range { AreInts result.0 }
    {
        self.operated(IntOperator::Add, other, active)
    }

    /// The differences, and the faults: where a difference is out of the range of `int`.
    ///
    /// A lane that is not active, or has a fault, gives 0.
    pub fn sub(&self, other: &IntLanes, active: Plane) -> (IntLanes, Plane)
        requires left { AreInts self.now }
        requires right { AreInts other.now }
        ensures lanes { IsKernel difference_of self.now other.now active.0 result.0 result.1.0 }
        ensures in_range { AreInts result.0 }
    {
        self.operated(IntOperator::Sub, other, active)
    }

    /// The products, and the faults: where a product is out of the range of `int`.
    ///
    /// A lane that is not active, or has a fault, gives 0.
    pub fn mul(&self, other: &IntLanes, active: Plane) -> (IntLanes, Plane)
        requires left { AreInts self.now }
        requires right { AreInts other.now }
        ensures lanes { IsKernel product_of self.now other.now active.0 result.0 result.1.0 }
        ensures in_range { AreInts result.0 }
    {
        self.operated(IntOperator::Mul, other, active)
    }

    /// The negations, and the faults: where the lane is the least integer.
    ///
    /// A lane that is not active, or has a fault, gives 0.
    pub fn neg(&self, active: Plane) -> (IntLanes, Plane)
        requires { AreInts self.now }
        ensures lanes { IsKernel (λ a b. negation_of a) self.now self.now active.0
            result.0 result.1.0 }
        ensures in_range { AreInts result.0 }
    {
        IntLanes::splat(0).operated(IntOperator::Sub, self, active)
    }

    /// The quotients, truncated toward zero, and the faults: where a divisor is 0, or the least
    /// integer is divided by -1.
    ///
    /// A lane that is not active, or has a fault, gives 0.
    pub fn div(&self, other: &IntLanes, active: Plane) -> (IntLanes, Plane)
        requires left { AreInts self.now }
        requires right { AreInts other.now }
        ensures lanes { IsKernel quotient_of self.now other.now active.0 result.0 result.1.0 }
        ensures in_range { AreInts result.0 }
    {
        self.operated(IntOperator::Div, other, active)
    }

    /// The remainders, with the dividend's sign, and the faults: where a divisor is 0, or the least
    /// integer is divided by -1.
    ///
    /// A lane that is not active, or has a fault, gives 0.
    pub fn rem(&self, other: &IntLanes, active: Plane) -> (IntLanes, Plane)
        requires left { AreInts self.now }
        requires right { AreInts other.now }
        ensures lanes { IsKernel remainder_of self.now other.now active.0 result.0 result.1.0 }
        ensures in_range { AreInts result.0 }
    {
        self.operated(IntOperator::Rem, other, active)
    }
}
