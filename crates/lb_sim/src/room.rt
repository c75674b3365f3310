//! The room of a worker: planes, words, verdicts and inputs, allocated once for all batches.

ghost use Rattle.std.specs.Prelude.{◌≡◌, ◌≢◌, ◌<◌, ◌≤◌, true, false, length, IfOk};

use crate::batch_run::BatchRun;
use crate::inputs::Inputs;
use crate::lane_bits::zeros;
use crate::program::LaneProgram;
use lb_check::Verdict;
use lb_lanes::LaneWord;
use lb_syntax::Kind;
use std::alloc::{AllocError, Global};

/// Planes, words, verdicts and inputs for a program. Their contents after one batch do not affect
/// the next.
///
/// ```text
/// let room = BatchRoom::new(alloc, &program)?;
/// let room = run_queue_in(room, &program, &set, &[0, 1, 2], 2, &mut verdicts);
/// ```
pub struct BatchRoom {
    pub(crate) planes: Vec<u64>,
    pub(crate) words: Vec<LaneWord>,
    pub(crate) verdicts: Vec<Verdict>,
    pub(crate) begins: Vec<u32>,
    pub(crate) inputs: Inputs,
    pub(crate) ghost verdicts_room: { length verdicts.items ≡ 64 },
    pub(crate) ghost begins_room: { length begins.items ≡ 64 },
}

// Not derived, so that a caller drops it in one step.
impl Drop for BatchRoom {
    fn drop(self) {
        let BatchRoom {
            planes: _,
            words: _,
            verdicts: _,
            begins: _,
            inputs: _,
        } = self;
    }
}

// Whether two kinds are the same.
pub(crate) fn is_kind(a: Kind, b: Kind) -> bool
    ensures same { result ≡ true → a ≡ b }
    ensures other { result ≡ false → a ≢ b }
{
    match a {
        Kind::Int => match b {
            Kind::Int => true,
            Kind::Bool => false,
        },
        Kind::Bool => match b {
            Kind::Int => false,
            Kind::Bool => true,
        },
    }
}

// Whether columns are of these kinds.
fn are_kinds(columns: &[Kind], kinds: &[Kind]) -> bool
    ensures same { result ≡ true → columns.now ≡ kinds.now }
    ensures other { result ≡ false → columns.now ≢ kinds.now }
{
    if columns.len() != kinds.len() {
        return false;
    }
    for j in 0..kinds.len() {
        if !is_kind(columns[j], kinds[j]) {
            return false;
        }
    }
    true
}

impl BatchRoom {
    ghost use Rattle.lb_sim.specs.BatchRooms.{IsRoomFor};
    ghost use Rattle.lb_sim.specs.Correct.{IsFresh};

    /// Room for a program.
    pub fn new(alloc: Global, program: &LaneProgram<'_>) -> Result<BatchRoom, AllocError>
        ensures { IfOk result (IsRoomFor program.now) }
    {
        let planes = vec![in alloc; 0u64; program.planes as usize]?;
        let words = zeros(alloc, program.words as usize)?;
        let verdicts = vec![in alloc; Verdict::Passed; 64]?;
        let begins = vec![in alloc; 0u32; 64]?;
        let inputs = Inputs::new(alloc, program)?;
        Ok(BatchRoom {
            planes,
            words,
            verdicts,
            begins,
            inputs,
        })
    }

    /// Whether there is a place for each plane, each word and each input of a program.
    pub fn fits(&self, program: &LaneProgram<'_>) -> bool
        ensures fits { result ≡ true → IsRoomFor program.now self.now }
        ensures other { result ≡ false → ¬ IsRoomFor program.now self.now }
    {
        self.planes.len() == program.planes as usize
            && self.words.len() == program.words as usize
            && are_kinds(
                self.inputs.columns.kinds.as_slice(),
                program.program.inputs.as_slice(),
            )
    }

    // A run of `lanes` lanes before the first instant, and their inputs, in this room.
    pub(crate) fn begin<'a>(
        self,
        program: &'a LaneProgram<'a>,
        lanes: u32,
    ) -> (BatchRun<'a>, Inputs)
        requires room { IsRoomFor program.now self }
        requires few { lanes ≤ 64 }
        ensures program { result.0.program.now ≡ program.now }
        ensures fresh { IsFresh result.0 lanes }
        ensures kinds { result.1.columns.kinds.items ≡ program.now.program.now.inputs.items }
    {
        let BatchRoom {
            planes,
            words,
            verdicts,
            begins,
            inputs,
        } = self;
        let run = BatchRun::begun(program, planes, words, verdicts, begins, lanes);
        (run, inputs)
    }

    // The room that a run and its inputs leave.
    pub(crate) fn of_run(run: BatchRun<'_>, inputs: Inputs) -> BatchRoom
        requires { inputs.columns.kinds.items ≡ run.program.now.program.now.inputs.items }
        ensures { IsRoomFor run.entry.program.now result }
    {
        let BatchRun {
            program: _,
            planes,
            words,
            verdicts,
            live: _,
            active: _,
            steps: _,
            begins,
        } = run;
        BatchRoom {
            planes,
            words,
            verdicts,
            begins,
            inputs,
        }
    }
}
