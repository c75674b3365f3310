//! Places: the planes and words that hold the cell of an element in each lane.

ghost use Rattle.std.specs.Prelude.{◌≡◌};
ghost use Rattle.lb_sim.specs.Homes.{plane_in};

use lb_machine::{FALSE_PLANE, PlaneId, WordId};

/// A value in each lane.
#[derive(Clone, Copy)]
pub enum Value {
    Truth(PlaneId),
    /// A truth that is true where the plane is false.
    Negated(PlaneId),
    Number(WordId),
}

/// The plane that a value takes, or 0.
pub(crate) fn plane_of(v: Value) -> PlaneId
    ensures { result.0 ≡ plane_in v }
{
    match v {
        Value::Truth(p) | Value::Negated(p) => p,
        Value::Number(_) => FALSE_PLANE,
    }
}

/// A scalar in each lane: a fault in the lanes of one plane, else nil in the lanes of another, and
/// else a value.
#[derive(Clone, Copy)]
pub struct Holding {
    pub value: Value,
    pub nil: PlaneId,
    pub bad: PlaneId,
}

/// A holding, and the lanes in which it is present.
#[derive(Clone, Copy)]
pub struct Place {
    pub holding: Holding,
    pub present: PlaneId,
}

/// The planes that an instant is judged by in each lane: where a fault counts, where a wanted truth
/// is nil, where an assertion is false, and where the property is false.
#[derive(Clone, Copy)]
pub struct Watched {
    pub faults: PlaneId,
    pub undefined: PlaneId,
    pub failed: PlaneId,
    pub violated: PlaneId,
}
