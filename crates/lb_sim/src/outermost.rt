//! Elements whose faults are not within those of another element, as far as the code shows.
//!
//! ```text
//! element 0 := a + b      faults in plane 9; the faults of a and b, planes 7 and 8, are within it
//! element 1 := a          faults in plane 7: within those of element 0
//! ```

ghost use Rattle.std.specs.Prelude.{◌≡◌, ◌<◌, ◌≤◌, ◌*◌, true, length, All, IfOk, OnOk};
ghost use Rattle.std.specs.List.{range_with_len};
ghost use Rattle.lb_check.specs.Verdicts.{is_bad};
ghost use Rattle.lb_flat.specs.Judging.{some_in};
ghost use Rattle.lb_machine.specs.Correct.{AddsAtMost, HasRoom, IsGrown};
ghost use Rattle.lb_machine.specs.Listed.{listed};
ghost use Rattle.lb_machine.specs.Meaning.{Lane, HasRun};
ghost use Rattle.lb_sim.specs.Holdings.{IsPlaceIn};
ghost use Rattle.lb_sim.specs.Showing.{row_at};
ghost use Rattle.lb_sim.specs.Watching.{AreWithin};

use crate::place::Place;
use crate::watch::{Sought, is_marked, mark, some_sought};
use lb_flat::ElementId;
use lb_machine::{Code, FALSE_PLANE, PlaneId, TRUE_PLANE};
use std::alloc::{AllocError, Global};

// Marks the fault planes of those of the first `count` elements that are always present.
fn mark_faults(marked: &mut [bool], places: &[Place], count: u32)
    requires { count ≤ length places.now }
    ensures { length marked.new ≡ length marked.old }
{
    for i in 0..count {
        let place = places[i as usize];
        if place.present.0 == TRUE_PLANE.0 {
            mark(marked, place.holding.bad);
        }
    }
}

// A mark for each plane that is within the faults of one of the first `count` elements.
fn inner_planes(
    alloc: Global,
    code: &Code,
    places: &[Place],
    count: u32,
) -> Result<Vec<bool>, AllocError>
    requires { count ≤ length places.now }
{
    let mut outer = vec![in alloc; false; code.planes as usize]?;
    mark_faults(outer.as_mut_slice(), places, count);
    let mut inner = vec![in alloc; false; code.planes as usize]?;
    code.mark_within(outer.as_slice(), inner.as_mut_slice());
    Ok(inner)
}

// The elements, of the first `count`, that are always present, and whose faults are not within
// those of another element.
fn outermost(
    alloc: Global,
    code: &Code,
    places: &[Place],
    count: u32,
) -> Result<Vec<ElementId>, AllocError>
    requires { count ≤ length places.now }
    ensures first { IfOk result (λ found. All (λ a. a.0 < count) found.items) }
    ensures few { IfOk result (λ found. length found.items ≤ count) }
{
    let inner = inner_planes(alloc, code, places, count)?;
    let mut found = Vec::new(alloc);
    for i in 0..count {
        let place = places[i as usize];
        if place.present.0 != TRUE_PLANE.0 || is_marked(inner.as_slice(), place.holding.bad) {
            continue;
        }
        found.push(ElementId(i))?;
    }
    Ok(found)
}

/// A plane that is true only where one of the first `count` elements shows a fault. All planes that
/// are marked afterwards are within it.
pub(crate) fn outer_faults(
    alloc: Global,
    code: &mut Code,
    places: &[Place],
    count: u32,
    marked: &mut [bool],
) -> Result<PlaneId, AllocError>
    requires count { count ≤ length places.now }
    requires places { All (IsPlaceIn code.old) places.now }
    requires marked { AreWithin code.old marked.old (record { 0 = 0 }) }
    requires room { HasRoom code.old (12 * length places.now) }
    ensures few { OnOk result (AddsAtMost code.old code.new (12 * length places.now)) }
    ensures grown { OnOk result (IsGrown code.old code.new) }
    ensures within { IfOk result (λ p. p.0 < code.new.planes) }
    ensures faults { IfOk result (λ p. (s : Lane) → HasRun (listed code.new.instructions) s
        → s.bits p.0 ≡ true
        → some_in is_bad (row_at s places.now) (range_with_len 0 count) ≡ true) }
    ensures marked { IfOk result (λ p. AreWithin code.new marked.new p) }
{
    let found = outermost(alloc, code, places, count)?;
    let outer = found.as_slice();
    let plane = some_sought(
        alloc,
        code,
        places,
        outer,
        Sought::Faults,
        FALSE_PLANE,
        marked,
    )?;
    code.mark_within(&[], marked);
    Ok(plane)
}
