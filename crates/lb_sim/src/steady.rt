//! Holdings that stand in for memories at instants at which each first tick is over and no memory
//! is nil.

ghost use Rattle.std.specs.Prelude.{◌≡◌, [], length, replicate, IfOk, OnOk};
ghost use Rattle.lb_flat.specs.Programs.{flat_equations, program_of, IsInRange};
ghost use Rattle.lb_flat.specs.Run.{Ready};
ghost use Rattle.lb_flat.specs.Values.{operation_of};
ghost use Rattle.lb_sim.specs.Layouts.{AreAllotted};
ghost use Rattle.lb_sim.specs.States.{no_holding};
ghost use Rattle.lb_sim.specs.Steady.{IsNotNil, IsSteadyFor, IsTableOf};

use crate::allot::NOTHING;
use crate::allotted::Allotted;
use crate::place::{Holding, Value, plane_of};
use lb_flat::{FlatProgram, Operation};
use lb_machine::{FALSE_PLANE, PlaneId, TRUE_PLANE};
use std::alloc::{AllocError, Global};

/// The holding that stands in for the memory of each element, and the planes of memories that are
/// taken to be false and to be true.
#[derive(Drop)]
pub(crate) struct SteadyTable {
    pub(crate) held: Vec<Holding>,
    pub(crate) clear: Vec<PlaneId>,
    pub(crate) set: Vec<PlaneId>,
}

// The holding that stands in for the memory of `pre` or `current`: its value, which is not nil.
fn never_nil(home: Holding, clear: &mut Vec<PlaneId>) -> Result<Holding, AllocError>
    ensures { IfOk result (λ held. IsNotNil home held clear.old.items clear.new.items) }
{
    clear.push(home.nil)?;
    Ok(Holding {
        value: home.value,
        nil: FALSE_PLANE,
        bad: home.bad,
    })
}

// The holding that stands in for a memory: a first tick is over, and a value is not nil.
fn steady_memory(
    operation: &Operation,
    home: Holding,
    clear: &mut Vec<PlaneId>,
    set: &mut Vec<PlaneId>,
) -> Result<Holding, AllocError>
    ensures { IfOk result (λ held. IsSteadyFor (operation_of operation.now) home held
        clear.old.items clear.new.items set.old.items set.new.items) }
{
    match operation {
        Operation::FirstThen(_, _, _) => {
            set.push(plane_of(home.value))?;
            Ok(Holding {
                value: Value::Truth(TRUE_PLANE),
                nil: FALSE_PLANE,
                bad: FALSE_PLANE,
            })
        }
        Operation::Previous(_, _) | Operation::Latest(_, _) => never_nil(home, clear),
        _ => Ok(home),
    }
}

// Fills a table with the holdings that stand in for memories.
fn fill_steady(
    table: &mut [Holding],
    program: &FlatProgram,
    known: &Allotted,
    clear: &mut Vec<PlaneId>,
    set: &mut Vec<PlaneId>,
) -> Result<(), AllocError>
    requires in_range { IsInRange program.now }
    requires in_order { Ready program.now.size []
        (flat_equations program.now.clocks.items program.now.equations.items) }
    requires allotted { AreAllotted (program_of program.now) known.now }
    requires none { table.old ≡ replicate program.now.size no_holding }
    requires no_clear { clear.old.items ≡ [] }
    requires no_set { set.old.items ≡ [] }
    ensures { OnOk result (IsTableOf (program_of program.now) known.now.memory_plane
        (length known.now.preset.planes.items) (length known.now.preset.words.items)
        known.now.kept.items table.new clear.new.items set.new.items) }
{
    for i in 0..program.equations.len() {
        let q = program.equations[i];
        let home = known.kept[q.element.0 as usize];
        let held = steady_memory(&q.operation, home, clear, set)?;
        table[q.element.0 as usize] = held;
    }
    Ok(())
}

/// The holdings that stand in for all memories.
pub(crate) fn steady_table(
    alloc: Global,
    program: &FlatProgram,
    known: &Allotted,
) -> Result<SteadyTable, AllocError>
    requires in_range { IsInRange program.now }
    requires in_order { Ready program.now.size []
        (flat_equations program.now.clocks.items program.now.equations.items) }
    requires allotted { AreAllotted (program_of program.now) known.now }
    ensures { IfOk result (λ t. IsTableOf (program_of program.now) known.now.memory_plane
        (length known.now.preset.planes.items) (length known.now.preset.words.items)
        known.now.kept.items t.held.items t.clear.items t.set.items) }
{
    let mut held = vec![in alloc; NOTHING; program.size as usize]?;
    let mut clear = Vec::new(alloc);
    let mut set = Vec::new(alloc);
    fill_steady(held.as_mut_slice(), program, known, &mut clear, &mut set)?;
    Ok(SteadyTable { held, clear, set })
}
