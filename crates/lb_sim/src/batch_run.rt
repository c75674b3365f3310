//! Up to 64 traces of a program, instant by instant.

ghost use Rattle.std.specs.Prelude.{◌≡◌, ℕ, ◌<◌, ◌≤◌, true, ◌&&◌, length, get_or, IfOk};
ghost use Rattle.lb_check.specs.declared.verdict.Verdict.TheVariants.{Passed};
ghost use Rattle.lb_lanes.specs.Planes.{IsPlaneOf, on};
ghost use Rattle.lb_machine.specs.Meaning.{HasConstants, lane_at};
ghost use Rattle.lb_sim.specs.Compiled.{HasConstantWords};
ghost use Rattle.lb_sim.specs.InputRows.{begin_of};
ghost use Rattle.lb_sim.specs.LaneStates.{is_passed};

use crate::inputs::Inputs;
use crate::instant::{advance, begin_again, first_lanes, start_lanes};
use crate::lane_bits::zeros;
use crate::program::LaneProgram;
use lb_check::Verdict;
use lb_lanes::{LaneWord, Plane};
use std::alloc::{AllocError, Global};

/// The lanes of a batch: their planes and words, and their verdicts so far.
///
/// ```text
/// let mut run = BatchRun::new(alloc, &program, 64)?;
/// run.step(&inputs, live);
/// ```
#[derive(Drop)]
pub struct BatchRun<'a> {
    pub program: &'a LaneProgram<'a>,
    pub planes: Vec<u64>,
    pub words: Vec<LaneWord>,
    pub verdicts: Vec<Verdict>,
    /// The lanes that were live in the last step, and the lanes of these that have passed so far.
    pub live: Plane,
    pub active: Plane,
    pub steps: u32,
    /// The number of steps taken when the trace of each lane began.
    pub begins: Vec<u32>,
    pub ghost planes_room: { length planes.items ≡ program.now.planes },
    pub ghost words_room: { length words.items ≡ program.now.words },
    pub ghost verdicts_room: { length verdicts.items ≡ 64 },
    pub ghost begins_room: { length begins.items ≡ 64 },
    pub ghost begun: { (i : ℕ) → i < 64 → begin_of begins.items i ≤ steps },
    pub ghost constants: { (i : ℕ) → i < 64 → HasConstants
        (lane_at planes.items words.items i) },
    pub ghost constant_words: { (i : ℕ) → i < 64 → HasConstantWords
        program.now.constant_word program.now.memory_word program.now.start_words.items
        (lane_at planes.items words.items i) },
    pub ghost going: { IsPlaneOf (λ i. on live.0 i && is_passed (get_or verdicts.items i Passed))
        active.0 },
}

impl<'a> BatchRun<'a> {
    ghost use Rattle.lb_sim.specs.BatchRuns.{flat_of, verdict_at};
    ghost use Rattle.lb_sim.specs.Correct.{IsFresh, IsRestart, IsStep};
    ghost use Rattle.lb_sim.specs.Inputs.{inputs_row};

    /// A run of 1 to 64 lanes, before the first instant.
    pub fn new(
        alloc: Global,
        program: &'a LaneProgram<'a>,
        lanes: u32,
    ) -> Result<BatchRun<'a>, AllocError>
        requires few { lanes ≤ 64 }
        ensures fresh { IfOk result (λ r. IsFresh r lanes) }
        ensures live { IfOk result (λ r. r.live ≡ r.active) }
        ensures program { IfOk result (λ r. r.program.now ≡ program.now) }
    {
        let planes = vec![in alloc; 0u64; program.planes as usize]?;
        let words = zeros(alloc, program.words as usize)?;
        let verdicts = vec![in alloc; Verdict::Passed; 64]?;
        let begins = vec![in alloc; 0u32; 64]?;
        Ok(BatchRun::begun(program, planes, words, verdicts, begins, lanes))
    }

    // A run of `lanes` lanes, before the first instant, in planes and words that may hold anything.
    pub(crate) fn begun(
        program: &'a LaneProgram<'a>,
        mut planes: Vec<u64>,
        mut words: Vec<LaneWord>,
        mut verdicts: Vec<Verdict>,
        mut begins: Vec<u32>,
        lanes: u32,
    ) -> BatchRun<'a>
        requires planes { length planes.items ≡ program.now.planes }
        requires words { length words.items ≡ program.now.words }
        requires verdicts { length verdicts.items ≡ 64 }
        requires begins { length begins.items ≡ 64 }
        requires few { lanes ≤ 64 }
        ensures fresh { IsFresh result lanes }
        ensures live { result.live ≡ result.active }
        ensures program { result.program.now ≡ program.now }
    {
        let every = Plane(0).not();
        start_lanes(program, planes.as_mut_slice(), words.as_mut_slice(), every);
        begin_again(verdicts.as_mut_slice(), begins.as_mut_slice(), every, 0);
        let live = first_lanes(lanes);
        BatchRun {
            program,
            planes,
            words,
            verdicts,
            live,
            active: live,
            steps: 0,
            begins,
        }
    }

    // Makes these lanes stand for the empty trace. It takes no memory.
    pub(crate) fn restart(&mut self, lanes: Plane)
        ensures { IsRestart self.old self.new lanes }
    {
        start_lanes(
            self.program,
            self.planes.as_mut_slice(),
            self.words.as_mut_slice(),
            lanes,
        );
        begin_again(
            self.verdicts.as_mut_slice(),
            self.begins.as_mut_slice(),
            lanes,
            self.steps,
        );
        self.live = self.live.or(lanes);
        self.active = self.active.or(lanes);
    }

    /// Runs one instant of the live lanes. It takes no memory.
    pub fn step(&mut self, inputs: &Inputs, live: Plane)
        requires shrinks { (i : ℕ) → i < 64 → on live.0 i ≡ true
            → on self.old.live.0 i ≡ true }
        requires few { self.old.steps < 4294967295 }
        requires signature { inputs.now.columns.kinds.items ≡ (flat_of self.old).inputs }
        ensures { IsStep self.old self.new (inputs_row inputs.now) live }
    {
        let passed = advance(
            self.program,
            inputs,
            self.planes.as_mut_slice(),
            self.words.as_mut_slice(),
            self.verdicts.as_mut_slice(),
            self.active,
            live,
            self.begins.as_slice(),
            self.steps,
        );
        self.live = live;
        self.active = passed;
        self.steps += 1;
    }

    /// The lanes that were live in the last step and have passed so far; before any step, all
    /// lanes.
    pub fn active(&self) -> Plane
        ensures { result ≡ self.now.active }
    {
        self.active
    }

    /// The verdict of a lane over the instants so far.
    pub fn verdict(&self, lane: u32) -> Verdict
        requires { lane < 64 }
        ensures { result ≡ verdict_at self.now lane }
    {
        self.verdicts[lane as usize]
    }
}
