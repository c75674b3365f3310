//! Planes: 64 Booleans in one word.

ghost use Rattle.std.specs.Prelude.{◌≡◌, ℕ, ◌<◌, not, ◌&&◌, ◌||◌};
ghost use Rattle.lb_lanes.specs.Correct.{IsSelection};
ghost use Rattle.lb_lanes.specs.Planes.{IsPlaneOf, differ, on};

/// 64 Booleans. Bit i of the word is lane i.
#[derive(Clone, Copy, Debug, PartialEq, Eq)]
pub struct Plane(pub u64);

impl Plane {
    /// The lanes that are true in both.
    pub fn and(self, other: Plane) -> Plane
        ensures { IsPlaneOf (λ i. on self.0 i && on other.0 i) result.0 }
    {
        Plane(self.0 & other.0)
    }

    /// The lanes that are true in one or both.
    pub fn or(self, other: Plane) -> Plane
        ensures { IsPlaneOf (λ i. on self.0 i || on other.0 i) result.0 }
    {
        Plane(self.0 | other.0)
    }

    /// The lanes that are true in just one.
    pub fn xor(self, other: Plane) -> Plane
        ensures { IsPlaneOf (λ i. differ (on self.0 i) (on other.0 i)) result.0 }
    {
        Plane(self.0 ^ other.0)
    }

    /// The lanes that are not true.
    pub fn not(self) -> Plane
        ensures { IsPlaneOf (λ i. not (on self.0 i)) result.0 }
    {
        Plane(flipped(self.0))
    }

    /// The lanes of `a` where the mask is true, and those of `b` where it is not.
    ///
    /// `Plane::select(Plane(3), Plane(5), Plane(12))` is `Plane(13)`.
    pub fn select(mask: Plane, a: Plane, b: Plane) -> Plane
        ensures { IsSelection mask.0 a.0 b.0 result.0 }
    {
        Plane(selected(mask.0, a.0, b.0))
    }

    /// The value of the lane, a number below 64.
    pub fn get(self, lane: u32) -> bool
        requires { lane < 64 }
        ensures { result ≡ on self.0 lane }
    {
        (self.0 >> lane) % 2 == 1
    }
}

// The bits that are not set.
pub(crate) fn flipped(word: u64) -> u64
    ensures { IsPlaneOf (λ i. not (on word i)) result }
{
    !word
}

// The bits of `a` where the mask is set, and those of `b` where it is not.
pub(crate) fn selected(mask: u64, a: u64, b: u64) -> u64
    ensures { IsSelection mask a b result }
{
    (mask & a) | (!mask & b)
}
