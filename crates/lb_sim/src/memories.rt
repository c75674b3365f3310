//! The tables with the holdings of constants and of memories, for all equations of a program.

ghost use Rattle.std.specs.Prelude.{◌≡◌, ◌≤◌, ◌+◌, ◌*◌, ℕ, true, false, [], length, get_or};
ghost use Rattle.std.specs.Prelude.{replicate, IfOk, OnOk};
ghost use Rattle.lb_syntax.specs.Lists.{In};
ghost use Rattle.lb_flat.specs.Judging.{named_elements};
ghost use Rattle.lb_flat.specs.Programs.{flat_equations, program_of, IsInRange};
ghost use Rattle.lb_flat.specs.Run.{Ready};
ghost use Rattle.lb_sim.specs.Presets.{AreConstants, AreMemories, IsMore};
ghost use Rattle.lb_sim.specs.States.{no_holding};

use crate::allot::{NOTHING, constant, first_memory};
use crate::marks::marked_elements;
use crate::place::Holding;
use crate::preset::Preset;
use lb_flat::FlatProgram;
use std::alloc::{AllocError, Global};

// Fills a table with the holdings of constants.
fn fill_constants(
    table: &mut [Holding],
    preset: &mut Preset,
    program: &FlatProgram,
) -> Result<(), AllocError>
    requires in_range { IsInRange program.now }
    requires in_order { Ready program.now.size []
        (flat_equations program.now.clocks.items program.now.equations.items) }
    requires none { table.old ≡ replicate program.now.size no_holding }
    requires room { length preset.old.words.items + length program.now.equations.items
        ≤ 4294967295 }
    ensures more { OnOk result (IsMore preset.old preset.new) }
    ensures planes { OnOk result (preset.new.planes.items ≡ preset.old.planes.items) }
    ensures few { OnOk result (length preset.new.words.items
        ≤ length preset.old.words.items + length program.now.equations.items) }
    ensures table { OnOk result (AreConstants (program_of program.now)
        (length preset.old.words.items) (length preset.new.words.items) preset.new.words.items
        table.new) }
{
    let first = preset.words.len() as u32;
    for i in 0..program.equations.len() {
        let q = program.equations[i];
        let kind = program.kinds[q.element.0 as usize];
        let held = constant(preset, first, &q.operation, kind)?;
        table[q.element.0 as usize] = held;
    }
    Ok(())
}

/// The holdings of elements that are constants.
pub(crate) fn constants(
    alloc: Global,
    preset: &mut Preset,
    program: &FlatProgram,
) -> Result<Vec<Holding>, AllocError>
    requires in_range { IsInRange program.now }
    requires in_order { Ready program.now.size []
        (flat_equations program.now.clocks.items program.now.equations.items) }
    requires room { length preset.old.words.items + length program.now.equations.items
        ≤ 4294967295 }
    ensures more { OnOk result (IsMore preset.old preset.new) }
    ensures planes { OnOk result (preset.new.planes.items ≡ preset.old.planes.items) }
    ensures few { OnOk result (length preset.new.words.items
        ≤ length preset.old.words.items + length program.now.equations.items) }
    ensures table { IfOk result (λ table. AreConstants (program_of program.now)
        (length preset.old.words.items) (length preset.new.words.items) preset.new.words.items
        table.items) }
{
    let mut table = vec![in alloc; NOTHING; program.size as usize]?;
    fill_constants(table.as_mut_slice(), preset, program)?;
    Ok(table)
}

// Fills a table with the holdings of memories.
fn fill_memories(
    table: &mut [Holding],
    preset: &mut Preset,
    program: &FlatProgram,
    watched: &[bool],
) -> Result<(), AllocError>
    requires in_range { IsInRange program.now }
    requires in_order { Ready program.now.size []
        (flat_equations program.now.clocks.items program.now.equations.items) }
    requires none { table.old ≡ replicate program.now.size no_holding }
    requires planes { length preset.old.planes.items + 3 * length program.now.equations.items
        ≤ 4294967295 }
    requires words { length preset.old.words.items + length program.now.equations.items
        ≤ 4294967295 }
    requires marks { length watched.now ≡ program.now.size }
    requires named { (a : ℕ) → get_or watched.now a false ≡ true
        → In a (named_elements (program_of program.now)) }
    ensures more { OnOk result (IsMore preset.old preset.new) }
    ensures table { OnOk result (AreMemories (program_of program.now)
        (length preset.old.planes.items) (length preset.old.words.items) preset.new table.new) }
{
    for i in 0..program.equations.len() {
        let q = program.equations[i];
        let kind = program.kinds[q.element.0 as usize];
        let home = first_memory(preset, &q.operation, kind, watched)?;
        table[q.element.0 as usize] = home;
    }
    Ok(())
}

/// The holdings of the memories of elements, side by side in the order of the equations.
pub(crate) fn memories(
    alloc: Global,
    preset: &mut Preset,
    program: &FlatProgram,
) -> Result<Vec<Holding>, AllocError>
    requires in_range { IsInRange program.now }
    requires in_order { Ready program.now.size []
        (flat_equations program.now.clocks.items program.now.equations.items) }
    requires planes { length preset.old.planes.items + 3 * length program.now.equations.items
        ≤ 4294967295 }
    requires words { length preset.old.words.items + length program.now.equations.items
        ≤ 4294967295 }
    ensures more { OnOk result (IsMore preset.old preset.new) }
    ensures table { IfOk result (λ table. AreMemories (program_of program.now)
        (length preset.old.planes.items) (length preset.old.words.items) preset.new table.items) }
{
    let operands = program.memory_operands.as_slice();
    let watched = marked_elements(alloc, operands, program.size as usize)?;
    let mut table = vec![in alloc; NOTHING; program.size as usize]?;
    fill_memories(table.as_mut_slice(), preset, program, watched.as_slice())?;
    Ok(table)
}
