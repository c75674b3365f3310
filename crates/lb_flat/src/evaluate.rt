//! The plain evaluator: one trace of a flat program, instant by instant.
//!
//! An instant has four phases: its inputs are read, the row is computed, the row is judged, and the
//! memories are committed. No phase takes memory.

ghost use Rattle.std.specs.Prelude.{◌≡◌, ◌<◌, length, map, All, get_or, []};
ghost use Rattle.lb_check.specs.Solutions.{Inputs};
ghost use Rattle.lb_flat.specs.Judging.{row_judged, flat_verdict};
ghost use Rattle.lb_flat.specs.Prepared.{inputs_in, steps_in, memory_places, place_equation};
ghost use Rattle.lb_flat.specs.Prepared.{AreFixed};
ghost use Rattle.lb_flat.specs.PreparedParts.{IsRoomFor, program_in};
ghost use Rattle.lb_flat.specs.Run.{advanced, filled};
ghost use Rattle.lb_flat.specs.Values.{cell_of};
ghost use Rattle.lb_flat.specs.Within.{IsWithin};
ghost use Rattle.lb_flat.specs.Programs.{flat_equations, program_of, IsInRange, IsRunnable};

use crate::cell::Cell;
use crate::equation::{Equation, InputPlace};
use crate::instant::{commit, compute};
use crate::instant_verdict::instant_verdict;
use crate::prepared::Prepared;
use crate::program::FlatProgram;
use crate::scratch::Scratch;
use lb_check::Verdict;

/// The instants of one trace.
pub trait Instants {
    /// The scalars of each instant, in the order of the signature.
    ghost rows: { Self → Inputs };

    /// How many instants there are.
    fn count(&self) -> u32
        ensures { result ≡ length (rows self.now) };

    /// Reads the scalars of instant `t` into the elements that hold inputs; an input past the end
    /// of the signature is absent.
    fn read(&self, t: u32, inputs: &[InputPlace], row: &mut [Cell])
        requires instant { t < length (rows self.now) }
        requires elements { All (λ p. p.element.0 < length row.old) inputs.now }
        ensures elements { length row.new ≡ length row.old }
        ensures read { map cell_of row.new
            ≡ filled (get_or (rows self.now) t []) (map cell_of row.old)
            (map place_equation inputs.now) };
}

// Computes, judges and commits an instant whose inputs were read.
fn step(
    program: &FlatProgram,
    memories: &[usize],
    steps: &mut [Equation],
    row: &mut [Cell],
    t: u32,
) -> Verdict
    requires in_range { IsInRange program.now }
    requires within { All (IsWithin program.now.size program.now.clocks.items) steps.old }
    requires places { memories.now
        ≡ memory_places 0 (flat_equations program.now.clocks.items steps.old) }
    requires elements { length row.old ≡ program.now.size }
    ensures within { All (IsWithin program.now.size program.now.clocks.items) steps.new }
    ensures elements { length row.new ≡ program.now.size }
    ensures row { map cell_of row.new
        ≡ filled [] (map cell_of row.old) (flat_equations program.now.clocks.items steps.old) }
    ensures verdict { result ≡ row_judged (program_of program.now) t (map cell_of row.new) }
    ensures memories { flat_equations program.now.clocks.items steps.new
        ≡ map (advanced (map cell_of row.new))
        (flat_equations program.now.clocks.items steps.old) }
{
    compute(row, program.clocks.as_slice(), steps);
    let verdict = instant_verdict(program, row, t);
    commit(steps, memories, row, program.clocks.as_slice());
    verdict
}

// The verdict of a trace, instant by instant, in the room of the slices.
fn run<I: Instants>(
    program: &FlatProgram,
    inputs: &[InputPlace],
    memories: &[usize],
    steps: &mut [Equation],
    row: &mut [Cell],
    trace: &I,
) -> Verdict
    requires runnable { IsRunnable program.now }
    requires inputs { map place_equation inputs.now
        ≡ inputs_in (program_of program.now).equations }
    requires places { All (λ p. p.element.0 < program.now.size) inputs.now }
    requires steps { flat_equations program.now.clocks.items steps.old
        ≡ steps_in (program_of program.now).equations }
    requires within { All (IsWithin program.now.size program.now.clocks.items) steps.old }
    requires memories { memories.now
        ≡ memory_places 0 (flat_equations program.now.clocks.items steps.old) }
    requires elements { length row.old ≡ program.now.size }
    requires fixed { AreFixed (map cell_of row.old) (program_of program.now).equations }
    ensures { result ≡ flat_verdict (program_of program.now) (I.rows trace.now) }
{
    for t in 0..trace.count() {
        trace.read(t, inputs, row);
        let verdict = step(program, memories, steps, row, t);
        let Verdict::Passed = verdict else {
            return verdict;
        };
    }
    Verdict::Passed
}

/// The verdict of a trace, computed in `scratch`, which may hold anything before.
pub fn evaluate<I: Instants>(prepared: &Prepared<'_>, scratch: &mut Scratch, trace: &I) -> Verdict
    requires { IsRoomFor prepared.now scratch.old }
    ensures room { IsRoomFor prepared.now scratch.new }
    ensures verdict { result
        ≡ flat_verdict (program_of (program_in prepared.now)) (I.rows trace.now) }
{
    scratch.restart(prepared);
    run(
        prepared.program,
        prepared.inputs.as_slice(),
        prepared.memories.as_slice(),
        scratch.steps.as_mut_slice(),
        scratch.row.as_mut_slice(),
        trace,
    )
}
