//! The places before the code: inputs, constants and memories.

ghost use Rattle.std.specs.Prelude.{[], IfOk};
ghost use Rattle.lb_flat.specs.Bounds.{IsBounded};
ghost use Rattle.lb_flat.specs.Programs.{flat_equations, program_of, IsInRange};
ghost use Rattle.lb_flat.specs.Run.{Ready};
ghost use Rattle.lb_sim.specs.Layouts.{AreAllotted};

use crate::allot::input_values;
use crate::memories::{constants, memories};
use crate::place::{Holding, Value};
use crate::preset::Preset;
use lb_flat::FlatProgram;
use std::alloc::{AllocError, Global};

/// The places of inputs, constants and memories, in this order, and what the planes and words
/// before the code hold at the start.
#[derive(Drop)]
pub(crate) struct Allotted {
    pub(crate) preset: Preset,
    pub(crate) inputs: Vec<Value>,
    /// The holding of each element that is a constant.
    pub(crate) constants: Vec<Holding>,
    /// The holding of the memory of each element that has one.
    pub(crate) kept: Vec<Holding>,
    /// The first word of the constants, and the first plane and word of the memories.
    pub(crate) constant_word: u32,
    pub(crate) memory_plane: u32,
    pub(crate) memory_word: u32,
}

/// Gives places to inputs, to constants, and behind them to memories.
pub(crate) fn allot_places(alloc: Global, program: &FlatProgram) -> Result<Allotted, AllocError>
    requires in_range { IsInRange program.now }
    requires bounded { IsBounded program.now }
    requires in_order { Ready program.now.size []
        (flat_equations program.now.clocks.items program.now.equations.items) }
    ensures { IfOk result (AreAllotted (program_of program.now)) }
{
    let mut preset = Preset::new(alloc)?;
    let inputs = input_values(alloc, &mut preset, program.inputs.as_slice())?;
    let constant_word = preset.words.len() as u32;
    let constants = constants(alloc, &mut preset, program)?;
    let memory_plane = preset.planes.len() as u32;
    let memory_word = preset.words.len() as u32;
    let kept = memories(alloc, &mut preset, program)?;
    Ok(Allotted {
        preset,
        inputs,
        constants,
        kept,
        constant_word,
        memory_plane,
        memory_word,
    })
}
