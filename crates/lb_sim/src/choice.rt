//! The choice of the code that an instant runs.

ghost use Rattle.std.specs.Prelude.{◌≡◌, ℕ, ◌<◌, List, ℤ, true, length, slice_index, All};
ghost use Rattle.lb_lanes.specs.Planes.{on};
ghost use Rattle.lb_machine.specs.Meaning.{lane_at};
ghost use Rattle.lb_machine.specs.declared.instruction.PlaneId.{PlaneId};
ghost use Rattle.lb_sim.specs.LaneStates.{IsCodeIn};
ghost use Rattle.lb_sim.specs.Codes.{Suits};

use crate::program::{LaneCode, LaneProgram};
use lb_lanes::Plane;
use lb_machine::PlaneId;

// Whether each of some planes equals the plane `one` in these lanes.
fn are_as(planes: &[u64], each: &[PlaneId], one: Plane, lanes: Plane) -> bool
    requires { All (λ (p : PlaneId). p.0 < length planes.now) each.now }
    ensures { result ≡ true → (i : ℕ) → i < 64 → on lanes.0 i ≡ true
        → All (λ (p : PlaneId). on (slice_index planes.now p.0) i ≡ on one.0 i) each.now }
{
    let mut other = Plane(0);
    for k in 0..each.len() {
        let differing = Plane(planes[each[k].0 as usize]).xor(one);
        other = other.or(differing);
    }
    let there = other.and(lanes);
    there.0 == 0
}

// Whether each of these lanes suits the code.
fn is_usable(planes: &[u64], code: &LaneCode, lanes: Plane) -> bool
    requires clear { All (λ (p : PlaneId). p.0 < length planes.now) code.now.clear.items }
    requires set { All (λ (p : PlaneId). p.0 < length planes.now) code.now.set.items }
    ensures { result ≡ true → (words : List (List ℤ)) → (i : ℕ) → i < 64
        → on lanes.0 i ≡ true → Suits code.now (lane_at planes.now words i) }
{
    if !are_as(planes, code.clear.as_slice(), Plane(0), lanes) {
        return false;
    }
    are_as(planes, code.set.as_slice(), Plane(0).not(), lanes)
}

/// The code for an instant of these lanes: the steady code where each of them suits it.
pub(crate) fn code_for<'a>(
    program: &'a LaneProgram<'_>,
    planes: &[u64],
    lanes: Plane,
) -> &'a LaneCode
    requires { length planes.now ≡ program.now.planes }
    ensures law { IsCodeIn program.now result.now }
    ensures suits { (words : List (List ℤ)) → (i : ℕ) → i < 64 → on lanes.0 i ≡ true
        → Suits result.now (lane_at planes.now words i) }
{
    if is_usable(planes, &program.steady, lanes) {
        &program.steady
    } else {
        &program.general
    }
}
