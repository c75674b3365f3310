//! Planes of the lanes in which some watched element shows a fault, nil or false.

ghost use Rattle.std.specs.Prelude.{◌≡◌, ◌<◌, ◌≤◌, ◌*◌, ◌||◌, ◌⊎◌, ℕ, true, false, Some, length};
ghost use Rattle.std.specs.Prelude.{All, IfOk, OnOk, slice_index_or};
ghost use Rattle.std.specs.List.{range_with_len};
ghost use Rattle.lb_check.specs.Verdicts.{is_bad, is_nil, is_false};
ghost use Rattle.lb_flat.specs.Judging.{some_in};
ghost use Rattle.lb_flat.specs.Programs.{numbers_of};
ghost use Rattle.lb_machine.specs.Correct.{AddsAtMost, HasRoom, IsGrown, IsPlaneFor};
ghost use Rattle.lb_sim.specs.Holdings.{IsPlaceIn};
ghost use Rattle.lb_sim.specs.Showing.{cell_at, row_at};
ghost use Rattle.lb_sim.specs.Watching.{AreWithin, is_sought};

use crate::marks::marked_elements;
use crate::picks::sign_plane;
use crate::place::Place;
use lb_flat::ElementId;
use lb_machine::{Code, PlaneId, PlaneOperator, TRUE_PLANE};
use std::alloc::{AllocError, Global};

/// The cells that are looked for at elements.
#[derive(Clone, Copy)]
pub(crate) enum Sought {
    Faults,
    Nils,
    Falses,
}

/// The plane where a place shows a fault.
pub(crate) fn bad_plane(code: &mut Code, place: Place) -> Result<PlaneId, AllocError>
    requires place { IsPlaceIn code.old place }
    requires room { HasRoom code.old 2 }
    ensures grown { OnOk result (IsGrown code.old code.new) }
    ensures few { OnOk result (AddsAtMost code.old code.new 2) }
    ensures plane { IfOk result (IsPlaneFor code.new (λ s. is_bad (Some (cell_at s place)))) }
{
    let plane = code.combine(PlaneOperator::And, place.present, place.holding.bad)?;
    Ok(plane)
}

/// The plane where a place shows nil.
#[tactic(auto, using(crate::proofs::Growth::grown_then, crate::proofs::Growth::grown_none))]
pub(crate) fn nil_plane(code: &mut Code, place: Place) -> Result<PlaneId, AllocError>
    requires place { IsPlaceIn code.old place }
    requires room { HasRoom code.old 4 }
    ensures grown { OnOk result (IsGrown code.old code.new) }
    ensures few { OnOk result (AddsAtMost code.old code.new 4) }
    ensures plane { IfOk result (IsPlaneFor code.new (λ s. is_nil (Some (cell_at s place)))) }
{
    let sound = code.combine(PlaneOperator::AndNot, place.holding.nil, place.holding.bad)?;
    let plane = code.combine(PlaneOperator::And, place.present, sound)?;
    Ok(plane)
}

/// The plane where a place shows false.
#[tactic(auto, using(crate::proofs::Growth::grown_then, crate::proofs::Growth::grown_none))]
pub(crate) fn false_plane(code: &mut Code, place: Place) -> Result<PlaneId, AllocError>
    requires place { IsPlaceIn code.old place }
    requires room { HasRoom code.old 10 }
    ensures grown { OnOk result (IsGrown code.old code.new) }
    ensures few { OnOk result (AddsAtMost code.old code.new 10) }
    ensures plane { IfOk result (IsPlaneFor code.new (λ s. is_false (Some (cell_at s place)))) }
{
    let plane = sign_plane(code, TRUE_PLANE, false, place)?;
    Ok(plane)
}

/// Whether a plane is marked.
pub(crate) fn is_marked(marked: &[bool], p: PlaneId) -> bool
    ensures { result ≡ true → slice_index_or marked.now p.0 false ≡ true }
{
    let at = p.0 as usize;
    at < marked.len() && marked[at]
}

/// Marks a plane, where there is room for it.
pub(crate) fn mark(marked: &mut [bool], p: PlaneId)
    ensures { (k : ℕ) → slice_index_or marked.new k false ≡ true
        → (k ≡ p.0) ⊎ (slice_index_or marked.old k false ≡ true) }
{
    let at = p.0 as usize;
    if at < marked.len() {
        marked[at] = true;
    }
}

// The plane where one of two planes is true. Where `here` is marked, it is `plane` and nothing is
// added.
fn joined(
    code: &mut Code,
    plane: PlaneId,
    here: PlaneId,
    marked: &mut [bool],
) -> Result<PlaneId, AllocError>
    requires plane { plane.0 < code.old.planes }
    requires here { here.0 < code.old.planes }
    requires marked { AreWithin code.old marked.old plane }
    requires room { HasRoom code.old 2 }
    ensures grown { OnOk result (IsGrown code.old code.new) }
    ensures few { OnOk result (AddsAtMost code.old code.new 2) }
    ensures plane { IfOk result (IsPlaneFor code.new (λ s. s.bits plane.0 || s.bits here.0)) }
    ensures marked { IfOk result (λ p. AreWithin code.new marked.new p) }
{
    if is_marked(marked, here) {
        return Ok(plane);
    }
    let both = code.combine(PlaneOperator::Or, plane, here)?;
    mark(marked, here);
    Ok(both)
}

/// The plane where `above` is true or one of the first `count` elements shows a fault. Marked
/// planes are within `above` before, and within the result afterwards.
pub(crate) fn first_bad(
    code: &mut Code,
    places: &[Place],
    count: u32,
    above: PlaneId,
    marked: &mut [bool],
) -> Result<PlaneId, AllocError>
    requires count { count ≤ length places.now }
    requires places { All (IsPlaceIn code.old) places.now }
    requires above { above.0 < code.old.planes }
    requires marked { AreWithin code.old marked.old above }
    requires room { HasRoom code.old (4 * count) }
    ensures grown { OnOk result (IsGrown code.old code.new) }
    ensures few { OnOk result (AddsAtMost code.old code.new (4 * count)) }
    ensures plane { IfOk result (IsPlaneFor code.new (λ s. s.bits above.0
        || some_in is_bad (row_at s places.now) (range_with_len 0 count))) }
    ensures marked { IfOk result (λ p. AreWithin code.new marked.new p) }
{
    let mut plane = above;
    for i in 0..count {
        let here = bad_plane(code, places[i as usize])?;
        let next = joined(code, plane, here, marked)?;
        plane = next;
    }
    Ok(plane)
}

// The plane where a place shows the sought cell.
fn sought_plane(code: &mut Code, sought: Sought, place: Place) -> Result<PlaneId, AllocError>
    requires place { IsPlaceIn code.old place }
    requires room { HasRoom code.old 10 }
    ensures grown { OnOk result (IsGrown code.old code.new) }
    ensures few { OnOk result (AddsAtMost code.old code.new 10) }
    ensures plane { IfOk result (IsPlaneFor code.new
        (λ s. is_sought sought (Some (cell_at s place)))) }
{
    match sought {
        Sought::Faults => bad_plane(code, place),
        Sought::Nils => nil_plane(code, place),
        Sought::Falses => false_plane(code, place),
    }
}

/// The plane where `above` is true or one of these elements shows the sought cell. Marked planes
/// are within `above` before, and within the result afterwards.
pub(crate) fn some_sought(
    alloc: Global,
    code: &mut Code,
    places: &[Place],
    elements: &[ElementId],
    sought: Sought,
    above: PlaneId,
    marked: &mut [bool],
) -> Result<PlaneId, AllocError>
    requires elements { All (λ a. a.0 < length places.now) elements.now }
    requires places { All (IsPlaceIn code.old) places.now }
    requires above { above.0 < code.old.planes }
    requires marked { AreWithin code.old marked.old above }
    requires room { HasRoom code.old (12 * length places.now) }
    ensures grown { OnOk result (IsGrown code.old code.new) }
    ensures few { OnOk result (AddsAtMost code.old code.new (12 * length places.now)) }
    ensures plane { IfOk result (IsPlaneFor code.new (λ s. s.bits above.0
        || some_in (is_sought sought) (row_at s places.now) (numbers_of elements.now))) }
    ensures marked { IfOk result (λ p. AreWithin code.new marked.new p) }
{
    let wanted = marked_elements(alloc, elements, places.len())?;
    let mut plane = above;
    for i in 0..places.len() {
        if !wanted[i] {
            continue;
        }
        let here = sought_plane(code, sought, places[i])?;
        let next = joined(code, plane, here, marked)?;
        plane = next;
    }
    Ok(plane)
}
