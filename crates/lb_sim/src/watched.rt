//! The planes that an instant is judged by in each lane.

ghost use Rattle.std.specs.Prelude.{◌≡◌, ◌<◌, ◌+◌, ◌*◌, ◌||◌, length, All, IfOk, OnOk};
ghost use Rattle.lb_check.specs.Verdicts.{is_bad, is_nil};
ghost use Rattle.lb_flat.specs.Judging.{named_elements, some_in, truth_elements};
ghost use Rattle.lb_flat.specs.Programs.{program_of, IsInRange};
ghost use Rattle.lb_machine.specs.Correct.{AddsAtMost, HasRoom, IsGrown, IsPlaneFor};
ghost use Rattle.lb_sim.specs.Holdings.{IsPlaceIn};
ghost use Rattle.lb_sim.specs.Showing.{row_at};
ghost use Rattle.lb_sim.specs.Watching.{AreWatched, AreWithin};

use crate::outermost::outer_faults;
use crate::place::{Place, Watched};
use crate::watch::{Sought, false_plane, first_bad, nil_plane, some_sought};
use lb_flat::FlatProgram;
use lb_machine::{Code, FALSE_PLANE, PlaneId, PlaneOperator};
use std::alloc::{AllocError, Global};

// The plane where `above` is true or an element at which a fault counts holds one. Marked planes
// are within `above`.
#[tactic(auto, using(crate::proofs::Growth::grown_then, crate::proofs::Growth::grown_none))]
fn faults_by(
    alloc: Global,
    code: &mut Code,
    program: &FlatProgram,
    places: &[Place],
    above: PlaneId,
    marked: &mut [bool],
) -> Result<PlaneId, AllocError>
    requires in_range { IsInRange program.now }
    requires elements { length places.now ≡ program.now.size }
    requires places { All (IsPlaceIn code.old) places.now }
    requires above { above.0 < code.old.planes }
    requires marked { AreWithin code.old marked.old above }
    requires room { HasRoom code.old (28 * program.now.size) }
    ensures grown { OnOk result (IsGrown code.old code.new) }
    ensures few { OnOk result (AddsAtMost code.old code.new (28 * program.now.size)) }
    ensures plane { IfOk result (IsPlaneFor code.new (λ s. s.bits above.0
        || some_in is_bad (row_at s places.now) (named_elements (program_of program.now)))) }
{
    let variables = first_bad(code, places, program.variables, above, marked)?;
    let kept = program.memory_operands.as_slice();
    let operands = some_sought(alloc, code, places, kept, Sought::Faults, variables, marked)?;
    let asserted = program.asserted.as_slice();
    some_sought(
        alloc,
        code,
        places,
        asserted,
        Sought::Faults,
        operands,
        marked,
    )
}

// The plane where an element at which a fault counts holds one.
#[tactic(auto, using(crate::proofs::Growth::grown_then, crate::proofs::Growth::grown_none))]
fn faults(
    alloc: Global,
    code: &mut Code,
    program: &FlatProgram,
    places: &[Place],
) -> Result<PlaneId, AllocError>
    requires in_range { IsInRange program.now }
    requires elements { length places.now ≡ program.now.size }
    requires places { All (IsPlaceIn code.old) places.now }
    requires room { HasRoom code.old (40 * program.now.size) }
    ensures grown { OnOk result (IsGrown code.old code.new) }
    ensures few { OnOk result (AddsAtMost code.old code.new (40 * program.now.size)) }
    ensures plane { IfOk result (IsPlaneFor code.new (λ s.
        some_in is_bad (row_at s places.now) (named_elements (program_of program.now)))) }
{
    let mut marked = vec![in alloc; false; code.planes as usize]?;
    let all = marked.as_mut_slice();
    let above = outer_faults(alloc, code, places, program.variables, all)?;
    let plane = faults_by(alloc, code, program, places, above, all)?;
    Ok(plane)
}

// The plane where an element at which a truth is wanted is nil.
#[tactic(auto, using(crate::proofs::Growth::grown_then, crate::proofs::Growth::grown_none))]
fn undefined(
    alloc: Global,
    code: &mut Code,
    program: &FlatProgram,
    places: &[Place],
) -> Result<PlaneId, AllocError>
    requires in_range { IsInRange program.now }
    requires elements { length places.now ≡ program.now.size }
    requires places { All (IsPlaceIn code.old) places.now }
    requires room { HasRoom code.old (24 * program.now.size + 6) }
    ensures grown { OnOk result (IsGrown code.old code.new) }
    ensures few { OnOk result (AddsAtMost code.old code.new (24 * program.now.size + 6)) }
    ensures plane { IfOk result (IsPlaneFor code.new (λ s.
        some_in is_nil (row_at s places.now) (truth_elements (program_of program.now)))) }
{
    let clocks = program.clock_elements.as_slice();
    let of_clocks = some_sought(
        alloc,
        code,
        places,
        clocks,
        Sought::Nils,
        FALSE_PLANE,
        &mut [],
    )?;
    let asserted = program.asserted.as_slice();
    let further = some_sought(
        alloc,
        code,
        places,
        asserted,
        Sought::Nils,
        of_clocks,
        &mut [],
    )?;
    let property = nil_plane(code, places[program.property.0 as usize])?;
    let plane = code.combine(PlaneOperator::Or, further, property)?;
    Ok(plane)
}

/// The planes that an instant is judged by in each lane.
#[tactic(auto, using(crate::proofs::Growth::grown_then, crate::proofs::Growth::grown_none))]
pub(crate) fn watched(
    alloc: Global,
    code: &mut Code,
    program: &FlatProgram,
    places: &[Place],
) -> Result<Watched, AllocError>
    requires in_range { IsInRange program.now }
    requires elements { length places.now ≡ program.now.size }
    requires places { All (IsPlaceIn code.old) places.now }
    requires room { HasRoom code.old (76 * program.now.size + 16) }
    ensures grown { OnOk result (IsGrown code.old code.new) }
    ensures few { OnOk result (AddsAtMost code.old code.new (76 * program.now.size + 16)) }
    ensures planes { IfOk result (AreWatched code.new (program_of program.now) places.now) }
{
    let faults = faults(alloc, code, program, places)?;
    let undefined = undefined(alloc, code, program, places)?;
    let asserted = program.asserted.as_slice();
    let failed = some_sought(
        alloc,
        code,
        places,
        asserted,
        Sought::Falses,
        FALSE_PLANE,
        &mut [],
    )?;
    let violated = false_plane(code, places[program.property.0 as usize])?;
    Ok(Watched {
        faults,
        undefined,
        failed,
        violated,
    })
}
