//! From a flat program to a lane program.

ghost use Rattle.std.specs.Prelude.{◌≡◌, ◌<◌, [], true, false, length, replicate, All, IfOk};
ghost use Rattle.lb_flat.specs.Bounds.{IsBounded};
ghost use Rattle.lb_flat.specs.Programs.{flat_equations, program_of, IsInRange};
ghost use Rattle.lb_flat.specs.InOrder.{is_in_order};
ghost use Rattle.lb_sim.specs.Codes.{IsCodeOf};
ghost use Rattle.lb_sim.specs.InputRows.{number_columns, places_of};
ghost use Rattle.lb_sim.specs.Layouts.{AreAllotted};
ghost use Rattle.lb_sim.specs.ReadInputs.{LoadsReads};
ghost use Rattle.lb_sim.specs.Steady.{IsTableOf};

use crate::allotted::{Allotted, allot_places};
use crate::emit_all::emit_all;
use crate::place::Holding;
use crate::program::{LaneCode, LaneProgram};
use crate::read_inputs::{ReadInputs, read_inputs};
use crate::sources::all_sources;
use crate::steady::{SteadyTable, steady_table};
use crate::watched::watched;
use lb_flat::{FlatProgram, Ordered};
use lb_machine::{Code, PlaneId};
use std::alloc::{AllocError, Global};

// Code of a program, where `held` shows the memories in the lanes in which some of their planes are
// false and some are true.
fn lane_code(
    alloc: Global,
    program: &FlatProgram,
    known: &Allotted,
    held: &[Holding],
    clear: Vec<PlaneId>,
    set: Vec<PlaneId>,
) -> Result<LaneCode, AllocError>
    requires in_range { IsInRange program.now }
    requires bounded { IsBounded program.now }
    requires in_order { is_in_order (replicate program.now.size false)
        (flat_equations program.now.clocks.items program.now.equations.items) ≡ true }
    requires allotted { AreAllotted (program_of program.now) known.now }
    requires table { IsTableOf (program_of program.now) known.now.memory_plane
        (length known.now.preset.planes.items) (length known.now.preset.words.items)
        known.now.kept.items held.now clear.items set.items }
    ensures code { IfOk result (λ c. IsCodeOf (program_of program.now) known.now.inputs.items
        known.now.kept.items known.now.preset.planes.items known.now.preset.words.items
        known.now.constant_word known.now.memory_plane known.now.memory_word c.code.planes
        c.code.words c) }
    ensures clear { IfOk result (λ c. c.clear.items ≡ clear.items) }
    ensures set { IfOk result (λ c. c.set.items ≡ set.items) }
{
    let first_plane = known.preset.planes.len() as u32;
    let first_word = known.preset.words.len() as u32;
    let mut code = Code::new(alloc, first_plane, first_word);
    let (inputs, constants) = (known.inputs.as_slice(), known.constants.as_slice());
    let places = emit_all(alloc, &mut code, program, inputs, constants, held)?;
    let watched = watched(alloc, &mut code, program, places.as_slice())?;
    let sources = all_sources(alloc, &mut code, program, places.as_slice(), known, held)?;
    Ok(LaneCode {
        code,
        places,
        watched,
        plane_sources: sources.planes,
        word_sources: sources.words,
        clear,
        set,
    })
}

// The codes of a program, and the inputs that it reads.
#[derive(Drop)]
struct Codes {
    general: LaneCode,
    steady: LaneCode,
    read: ReadInputs,
}

// The codes of a program whose inputs, constants and memories have places.
fn all_codes(alloc: Global, program: &FlatProgram, known: &Allotted) -> Result<Codes, AllocError>
    requires in_range { IsInRange program.now }
    requires bounded { IsBounded program.now }
    requires in_order { is_in_order (replicate program.now.size false)
        (flat_equations program.now.clocks.items program.now.equations.items) ≡ true }
    requires allotted { AreAllotted (program_of program.now) known.now }
    ensures general { IfOk result (λ r. IsCodeOf (program_of program.now) known.now.inputs.items
        known.now.kept.items known.now.preset.planes.items known.now.preset.words.items
        known.now.constant_word known.now.memory_plane known.now.memory_word
        r.general.code.planes r.general.code.words r.general) }
    ensures steady { IfOk result (λ r. IsCodeOf (program_of program.now) known.now.inputs.items
        known.now.kept.items known.now.preset.planes.items known.now.preset.words.items
        known.now.constant_word known.now.memory_plane known.now.memory_word
        r.steady.code.planes r.steady.code.words r.steady) }
    ensures clear { IfOk result (λ r. r.general.clear.items ≡ []) }
    ensures set { IfOk result (λ r. r.general.set.items ≡ []) }
    ensures within { IfOk result (λ r. All (λ w.
        w < length (number_columns 0 program.now.inputs.items)) r.read.numbers.items) }
    ensures loads { IfOk result (λ r. LoadsReads (program_of program.now)
        (places_of 2 1 program.now.inputs.items) r.read.numbers.items r.read.truths) }
{
    let read = read_inputs(alloc, program, known.inputs.as_slice())?;
    let (none, no_more) = (Vec::new(alloc), Vec::new(alloc));
    let kept = known.kept.as_slice();
    let general = lane_code(alloc, program, known, kept, none, no_more)?;
    let table = steady_table(alloc, program, known)?;
    let SteadyTable { held, clear, set } = table;
    let shown = held.as_slice();
    let steady = lane_code(alloc, program, known, shown, clear, set)?;
    Ok(Codes {
        general,
        steady,
        read,
    })
}

/// The lane program of a flat one. It fails only where memory was refused (E0).
///
/// ```text
/// let program = compile(alloc, &ordered)?;
/// ```
pub fn compile<'a>(alloc: Global, ordered: &'a Ordered) -> Result<LaneProgram<'a>, AllocError>
    ensures { IfOk result (λ p. p.program.now ≡ ordered.now.program) }
{
    let program = &ordered.program;
    let known = allot_places(alloc, program)?;
    let codes = all_codes(alloc, program, &known)?;
    let planes = codes.general.code.planes.max(codes.steady.code.planes);
    let words = codes.general.code.words.max(codes.steady.code.words);
    Ok(LaneProgram {
        program,
        general: codes.general,
        steady: codes.steady,
        planes,
        words,
        inputs: known.inputs,
        kept: known.kept,
        start_planes: known.preset.planes,
        start_words: known.preset.words,
        constant_word: known.constant_word,
        memory_plane: known.memory_plane,
        memory_word: known.memory_word,
        read: codes.read,
    })
}
