//! The code of all equations, one after the other.

ghost use Rattle.std.specs.Prelude.{ℕ, ◌≡◌, ◌<◌, ◌+◌, ◌*◌, false, true, None, length, replicate};
ghost use Rattle.std.specs.Prelude.{All, IfOk, OnOk};
ghost use Rattle.lb_syntax.specs.Lists.{Every};
ghost use Rattle.lb_flat.specs.Bounds.{AreWhole};
ghost use Rattle.lb_flat.specs.Fitting.{KindFits};
ghost use Rattle.lb_flat.specs.TemporaryKinds.{kind_among};
ghost use Rattle.lb_flat.specs.InOrder.{is_in_order};
ghost use Rattle.lb_flat.specs.Programs.{flat_equations, program_of, IsInRange};
ghost use Rattle.lb_machine.specs.Correct.{AddsAtMost, HasRoom, IsGrown};
ghost use Rattle.lb_machine.specs.Listed.{listed};
ghost use Rattle.lb_machine.specs.Meaning.{Lane, HasRun};
ghost use Rattle.lb_sim.specs.Allotted.{IsAllotted, HasAllConstants};
ghost use Rattle.lb_sim.specs.Compiled.{given_at};
ghost use Rattle.lb_sim.specs.Holdings.{IsPlaceIn};
ghost use Rattle.lb_sim.specs.Showing.{kind_of};
ghost use Rattle.lb_sim.specs.States.{no_place, holding_of, IsShownBy};

use crate::clock_planes::known_plane;
use crate::emit::emit;
use crate::place::{Holding, Place, Value};
use lb_flat::FlatProgram;
use lb_machine::{Code, FALSE_PLANE, PlaneId};
use std::alloc::{AllocError, Global};

// The code of each equation, in the order of the equations, where no element has its place yet and
// no plane of a clock is known.
fn emit_each(
    alloc: Global,
    code: &mut Code,
    program: &FlatProgram,
    inputs: &[Value],
    constants: &[Holding],
    kept: &[Holding],
    places: &mut [Place],
    known: &mut [Option<PlaneId>],
) -> Result<(), AllocError>
    requires in_range { IsInRange program.now }
    requires whole { AreWhole program.now.clocks.items }
    requires in_order { is_in_order (replicate program.now.size false)
        (flat_equations program.now.clocks.items program.now.equations.items) ≡ true }
    requires allotted { IsAllotted (program_of program.now) code.old inputs.now constants.now
        kept.now }
    requires places { places.old ≡ replicate program.now.size no_place }
    requires known { known.old ≡ replicate (length program.now.clocks.items) None }
    requires room { HasRoom code.old
        (16 * length program.now.equations.items + 10 * length program.now.clocks.items) }
    ensures grown { OnOk result (IsGrown code.old code.new) }
    ensures few { OnOk result (AddsAtMost code.old code.new
        (16 * length program.now.equations.items + 10 * length program.now.clocks.items)) }
    ensures as_long { length places.new ≡ length places.old }
    ensures within { OnOk result (All (IsPlaceIn code.new) places.new) }
    ensures kinds { OnOk result ((e : ℕ) → e < program.now.size →
        kind_of (holding_of places.new e) ≡ kind_among program.now.kinds.items e) }
    ensures shown { OnOk result (
        Every (KindFits program.now.inputs.items (kind_among program.now.kinds.items))
        (program_of program.now).equations →
        (s : Lane) → HasRun (listed code.new.instructions) s →
        HasAllConstants s constants.now (program_of program.now).equations →
        Every (IsShownBy (given_at s inputs.now) s places.new kept.now)
        (program_of program.now).equations) }
{
    for i in 0..program.equations.len() {
        let q = program.equations[i];
        let e = q.element.0 as usize;
        let present = known_plane(alloc, code, program, places, known, q.clock)?;
        let kind = program.kinds[e];
        let constant = constants[e];
        let memory = kept[e];
        let holding = emit(code, places, inputs, constant, memory, q.operation, kind)?;
        places[e] = Place { holding, present };
    }
    Ok(())
}

/// The code of all equations, in their order, and the place of each element.
pub(crate) fn emit_all(
    alloc: Global,
    code: &mut Code,
    program: &FlatProgram,
    inputs: &[Value],
    constants: &[Holding],
    kept: &[Holding],
) -> Result<Vec<Place>, AllocError>
    requires in_range { IsInRange program.now }
    requires whole { AreWhole program.now.clocks.items }
    requires in_order { is_in_order (replicate program.now.size false)
        (flat_equations program.now.clocks.items program.now.equations.items) ≡ true }
    requires allotted { IsAllotted (program_of program.now) code.old inputs.now constants.now
        kept.now }
    requires room { HasRoom code.old
        (16 * length program.now.equations.items + 10 * length program.now.clocks.items) }
    ensures grown { OnOk result (IsGrown code.old code.new) }
    ensures few { OnOk result (AddsAtMost code.old code.new
        (16 * length program.now.equations.items + 10 * length program.now.clocks.items)) }
    ensures as_long { IfOk result (λ places. length places.items ≡ program.now.size) }
    ensures within { IfOk result (λ places. All (IsPlaceIn code.new) places.items) }
    ensures kinds { IfOk result (λ places. (e : ℕ) → e < program.now.size →
        kind_of (holding_of places.items e) ≡ kind_among program.now.kinds.items e) }
    ensures shown { IfOk result (λ places.
        Every (KindFits program.now.inputs.items (kind_among program.now.kinds.items))
        (program_of program.now).equations →
        (s : Lane) → HasRun (listed code.new.instructions) s →
        HasAllConstants s constants.now (program_of program.now).equations →
        Every (IsShownBy (given_at s inputs.now) s places.items kept.now)
        (program_of program.now).equations) }
{
    let nowhere = Place {
        holding: Holding {
            value: Value::Truth(FALSE_PLANE),
            nil: FALSE_PLANE,
            bad: FALSE_PLANE,
        },
        present: FALSE_PLANE,
    };
    let mut places = vec![in alloc; nowhere; program.size as usize]?;
    let count = program.clocks.len();
    let mut known: Vec<Option<PlaneId>> = vec![in alloc; None; count]?;
    emit_each(
        alloc,
        code,
        program,
        inputs,
        constants,
        kept,
        places.as_mut_slice(),
        known.as_mut_slice(),
    )?;
    Ok(places)
}
