//! The planes of clocks.

ghost use Rattle.std.specs.Prelude.{◌≡◌, ◌+◌, ◌*◌, ◌≤◌, length, All, IfOk, OnOk};
ghost use Rattle.lb_flat.specs.Bounds.{AreWhole};
ghost use Rattle.lb_flat.specs.Programs.{IsInRange};
ghost use Rattle.lb_flat.specs.Within.{IsClock};
ghost use Rattle.lb_machine.specs.Correct.{HasRoom, IsGrown};
ghost use Rattle.lb_sim.specs.Climbs.{IsClimbed, unknown_count};
ghost use Rattle.lb_sim.specs.Emitted.{AreKnown, IsKnownAfter};
ghost use Rattle.lb_sim.specs.Holdings.{IsPlaceIn};

use crate::picks::sign_plane;
use crate::place::Place;
use lb_flat::{ClockId, FlatProgram};
use lb_machine::{Code, PlaneId, TRUE_PLANE};
use std::alloc::{AllocError, Global};

/// The way up from a clock to the next clock whose plane is known: the clocks below that clock, the
/// lowest first, and its plane.
#[derive(Drop)]
pub(crate) struct Climb {
    pub(crate) waiting: Vec<ClockId>,
    pub(crate) plane: PlaneId,
}

// The way up from a clock; `None` is the base clock, whose plane is always known.
fn climb_from(
    alloc: Global,
    program: &FlatProgram,
    known: &[Option<PlaneId>],
    clock: Option<ClockId>,
) -> Result<Climb, AllocError>
    requires in_range { IsInRange program.now }
    requires whole { AreWhole program.now.clocks.items }
    requires clock { IsClock program.now.clocks.items clock }
    requires as_many { length known.now ≡ length program.now.clocks.items }
    ensures { IfOk result (λ c.
        IsClimbed program.now.clocks.items known.now clock c.waiting.items c.plane) }
{
    let mut waiting = Vec::new(alloc);
    let mut rest = clock;
    while let Some(id) = rest {
        if let Some(plane) = known[id.0 as usize] {
            return Ok(Climb { waiting, plane });
        }
        waiting.push(id)?;
        rest = program.clocks[id.0 as usize].parent;
    }
    Ok(Climb {
        waiting,
        plane: TRUE_PLANE,
    })
}

/// The plane of the lanes in which a clock of a program ticks now, where the planes of some clocks
/// are known already. The plane of each clock of the table is computed once, from the plane of the
/// clock above it.
pub(crate) fn known_plane(
    alloc: Global,
    code: &mut Code,
    program: &FlatProgram,
    places: &[Place],
    known: &mut [Option<PlaneId>],
    clock: Option<ClockId>,
) -> Result<PlaneId, AllocError>
    requires in_range { IsInRange program.now }
    requires whole { AreWhole program.now.clocks.items }
    requires clock { IsClock program.now.clocks.items clock }
    requires elements { length places.now ≡ program.now.size }
    requires places { All (IsPlaceIn code.old) places.now }
    requires as_many { length known.old ≡ length program.now.clocks.items }
    requires known { AreKnown code.old places.now program.now.clocks.items known.old }
    requires room { HasRoom code.old (10 * unknown_count known.old) }
    ensures grown { OnOk result (IsGrown code.old code.new) }
    ensures few { OnOk result (code.new.planes + code.new.words + 10 * unknown_count known.new
        ≤ code.old.planes + code.old.words + 10 * unknown_count known.old) }
    ensures as_many { length known.new ≡ length known.old }
    ensures known { IfOk result
        (IsKnownAfter code.new places.now program.now.clocks.items clock known.old known.new) }
{
    let Climb {
        mut waiting,
        mut plane,
    } = climb_from(alloc, program, known, clock)?;
    while let Some(id) = waiting.pop() {
        let tick = program.clocks[id.0 as usize];
        let place = places[tick.element.0 as usize];
        let next = sign_plane(code, plane, tick.sign, place)?;
        known[id.0 as usize] = Some(next);
        plane = next;
    }
    Ok(plane)
}
