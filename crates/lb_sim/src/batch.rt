//! Whole batches, and queues of traces for some lanes: the verdict of each.

ghost use Rattle.std.specs.Prelude.{◌≡◌, ◌≢◌, ℕ, ◌<◌, ◌≤◌, ◌+◌, ◌-◌, ◌&&◌, true, false, length};
ghost use Rattle.std.specs.Prelude.{All, IfOk, get_or};
ghost use Rattle.lb_check.specs.declared.verdict.Verdict.TheVariants.{Passed};
ghost use Rattle.lb_static.specs.Signature.{kinds_of};
ghost use Rattle.lb_flat.specs.Flat.{FlatClock};
ghost use Rattle.lb_flat.specs.Inputs.{inputs_of};
ghost use Rattle.lb_flat.specs.Programs.{program_of};
ghost use Rattle.lb_traces.specs.Traces.{IsRecording};
ghost use Rattle.lb_lanes.specs.Planes.{on};
ghost use Rattle.lb_sim.specs.BatchLanes.{end_in, AreRunning};
ghost use Rattle.lb_sim.specs.BatchRooms.{IsRoomFor};
ghost use Rattle.lb_sim.specs.BatchRuns.{steps_in};
ghost use Rattle.lb_sim.specs.Correct.{HasVerdict, HaveVerdicts, IsFresh, TakesVerdicts};
ghost use Rattle.lb_sim.specs.Progress.{AreRunTo, Fits, GoOn, IsRunTo};

use crate::ahead::{InstantRange, nothing};
use crate::batch_run::BatchRun;
use crate::inputs::Inputs;
use crate::loads::Instant;
use crate::program::LaneProgram;
use crate::queue::{Queue, first_places, first_traces, instants_of, refill, settled_lanes};
use crate::room::{BatchRoom, is_kind};
use crate::running::{Running, running_at};
use crate::verdicts::{InOrder, Verdicts};
use lb_check::Verdict;
use lb_lanes::Plane;
use lb_static::Signature;
use lb_syntax::Kind;
use lb_traces::TraceSet;
use std::alloc::{AllocError, Global};

/// The members of a batch that was run, and the verdict of each.
#[derive(Drop)]
pub struct Done {
    members: Vec<u32>,
    verdicts: Vec<Verdict>,
}

impl Done {
    /// The members, as they were given.
    pub fn members(&self) -> &[u32]
        ensures { result.now ≡ self.now.members.items }
    {
        self.members.as_slice()
    }

    /// The verdict of each member, in the order of the members.
    pub fn verdicts(&self) -> &[Verdict]
        ensures { result.now ≡ self.now.verdicts.items }
    {
        self.verdicts.as_slice()
    }
}

/// Whether a signature has these kinds.
pub fn has_kinds(signature: &Signature, kinds: &[Kind]) -> bool
    ensures same { result ≡ true → kinds_of signature.now ≡ kinds.now }
    ensures other { result ≡ false → kinds_of signature.now ≢ kinds.now }
{
    if signature.len() as usize != kinds.len() {
        return false;
    }
    for j in 0..kinds.len() {
        if !is_kind(signature.kind(j as u32), kinds[j]) {
            return false;
        }
    }
    true
}

// Runs the lanes of `next` up to instant `next.until`, before which their traces go on. It stops
// early where no lane is active. It takes no memory.
fn run_range(
    run: &mut BatchRun<'_>,
    inputs: &mut Inputs,
    set: &TraceSet,
    members: &[u32],
    next: Running,
)
    requires few { length members.now ≤ 64 }
    requires members { All (λ k. k < length set.now.traces) members.now }
    requires running { AreRunning set.now members.now run.old.begins.items run.old.steps next.lanes
        next.until }
    requires kinds { kinds_of set.now.signature ≡ inputs.old.columns.kinds.items }
    requires inputs { inputs.old.columns.kinds.items
        ≡ (program_of run.old.program.now.program.now).inputs }
    ensures program { run.new.program.now ≡ run.old.program.now }
    ensures columns { inputs.new.columns ≡ inputs.old.columns }
    ensures begins { run.new.begins.items ≡ run.old.begins.items }
    ensures begun { run.old.steps ≤ run.new.steps }
    ensures within { (bound : ℕ) → run.old.steps ≤ bound → ((i : ℕ) → i < length members.now
        → on run.old.active.0 i ≡ true
        → end_in set.now members.now run.old.begins.items i ≤ bound) → run.new.steps ≤ bound }
    ensures fewer { (i : ℕ) → i < 64 → on run.new.active.0 i ≡ true
        → on run.old.active.0 i ≡ true }
    ensures come { (K : ℕ → FlatClock) → Fits run.old.program.now K → (i : ℕ)
        → i < length members.now
        → IsRunTo run.old.program.now run.old (inputs_of set.now (get_or members.now i 0)) i
        (steps_in run.old i)
        → IsRunTo run.old.program.now run.new (inputs_of set.now (get_or members.now i 0)) i
        (steps_in run.new i) }
    ensures rest { run.new.steps ≡ run.old.steps → (i : ℕ) → i < 64
        → (on run.new.active.0 i && on next.lanes i) ≡ false }
    ensures still { run.new.steps ≡ run.old.steps → run.new.active ≡ run.old.active }
{
    let mut loaded = nothing();
    for t in run.steps..next.until {
        let live = run.active().and(Plane(next.lanes));
        if live.0 == 0 {
            return;
        }
        let at = InstantRange {
            at: Instant {
                set,
                members,
                begins: run.begins.as_slice(),
                t,
                live,
            },
            until: next.until,
        };
        loaded = inputs.load_read(&run.program.read, &at, loaded);
        run.step(inputs, live);
    }
}

// The lanes whose verdicts are not kept yet, and the place before which members may still wait.
#[derive(Clone, Copy)]
struct Left {
    pending: Plane,
    rest: u32,
}

// Keeps the verdicts of settled lanes, and gives these lanes members that wait. The result has the
// lanes whose traces have the next instant.
fn settle<V: Verdicts>(
    run: &mut BatchRun<'_>,
    queue: &Queue<'_>,
    places: &mut [u32; 64],
    traces: &mut [u32; 64],
    left: &mut Left,
    verdicts: &mut V,
) -> Running
    requires lawful { IsRecording queue.now.set.now }
    requires steps { run.old.steps ≤ 4096000000 }
    requires so_far { AreRunTo run.old.program.now queue.now.set.now queue.now.members.now
        queue.now.lanes run.old traces.old places.old left.old.pending.0 left.old.rest
        (V.has verdicts.old) }
    requires takes { TakesVerdicts (program_of run.old.program.now.program.now)
        queue.now.set.now queue.now.members.now (V.takes verdicts.old) }
    ensures program { run.new.program.now ≡ run.old.program.now }
    ensures steps { run.new.steps ≡ run.old.steps }
    ensures becomes { V.becomes verdicts.old verdicts.new }
    ensures so_far { AreRunTo run.old.program.now queue.now.set.now queue.now.members.now
        queue.now.lanes run.new traces.new places.new left.new.pending.0 left.new.rest
        (V.has verdicts.new) }
    ensures fewer { left.new.rest ≤ left.old.rest }
    ensures go_on { GoOn queue.now.set.now run.new traces.new left.new.pending.0
        queue.now.lanes left.old.rest left.new.rest }
    ensures running { AreRunning queue.now.set.now traces.new run.new.begins.items
        run.new.steps result.lanes result.until }
{
    let next = running_at(queue.set, traces, run.begins.as_slice(), run.steps);
    let settled = settled_lanes(run, left.pending, next.lanes);
    if settled.0 == 0 {
        return next;
    }
    let taken = refill(run, queue, places, traces, settled, left.rest, verdicts);
    left.rest = taken.rest;
    left.pending = left.pending.and(settled.not()).or(taken.lanes);
    running_at(queue.set, traces, run.begins.as_slice(), run.steps)
}

// Runs the traces of a queue to their ends or their verdicts, from lanes before their first
// instant, and keeps the verdict of each. It takes no memory. It stops when no trace waits and no
// lane goes on.
fn run_lanes<V: Verdicts>(
    run: &mut BatchRun<'_>,
    inputs: &mut Inputs,
    queue: &Queue<'_>,
    verdicts: &mut V,
)
    requires lawful { IsRecording queue.now.set.now }
    requires kinds { kinds_of queue.now.set.now.signature ≡ inputs.old.columns.kinds.items }
    requires inputs { inputs.old.columns.kinds.items
        ≡ (program_of run.old.program.now.program.now).inputs }
    requires fresh { IsFresh run.old queue.now.lanes }
    requires takes { TakesVerdicts (program_of run.old.program.now.program.now)
        queue.now.set.now queue.now.members.now (V.takes verdicts.old) }
    ensures program { run.new.program.now ≡ run.old.program.now }
    ensures columns { inputs.new.columns ≡ inputs.old.columns }
    ensures becomes { V.becomes verdicts.old verdicts.new }
    ensures judged { (k : ℕ) → k < length queue.now.members.now
        → HasVerdict (program_of run.old.program.now.program.now) queue.now.set.now
        queue.now.members.now (V.has verdicts.new) k }
{
    let most = instants_of(queue) + 1;
    let mut places = first_places();
    let mut traces = first_traces(queue);
    let mut left = Left {
        pending: run.active(),
        rest: queue.members.len() as u32,
    };
    while run.steps < most {
        let next = settle(run, queue, &mut places, &mut traces, &mut left, verdicts);
        if left.pending.0 == 0 {
            return;
        }
        run_range(run, inputs, queue.set, &traces, next);
    }
}

// Keeps the verdict `Passed` for all members.
fn keep_passed<V: Verdicts>(queue: &Queue<'_>, verdicts: &mut V)
    requires { (k : ℕ) → k < length queue.now.members.now → V.takes verdicts.old k Passed }
    ensures kept { (k : ℕ) → k < length queue.now.members.now → V.has verdicts.new k Passed }
    ensures becomes { V.becomes verdicts.old verdicts.new }
{
    for place in 0..queue.members.len() {
        verdicts.keep(place as u32, Verdict::Passed);
    }
}

// Runs the traces of a queue if their signature has the kinds of the program. If it has not, no
// program has both this signature and this flat program, so any verdict will do.
fn run_queue<V: Verdicts>(
    run: &mut BatchRun<'_>,
    inputs: &mut Inputs,
    queue: &Queue<'_>,
    verdicts: &mut V,
)
    requires inputs { inputs.old.columns.kinds.items
        ≡ run.old.program.now.program.now.inputs.items }
    requires fresh { IsFresh run.old queue.now.lanes }
    requires takes { TakesVerdicts (program_of run.old.program.now.program.now)
        queue.now.set.now queue.now.members.now (V.takes verdicts.old) }
    ensures program { run.new.program.now ≡ run.old.program.now }
    ensures columns { inputs.new.columns ≡ inputs.old.columns }
    ensures becomes { V.becomes verdicts.old verdicts.new }
    ensures judged { (k : ℕ) → k < length queue.now.members.now
        → HasVerdict (program_of run.old.program.now.program.now) queue.now.set.now
        queue.now.members.now (V.has verdicts.new) k }
{
    if !has_kinds(queue.set.signature(), inputs.columns.kinds.as_slice()) {
        keep_passed(queue, verdicts);
        return;
    }
    run_lanes(run, inputs, queue, verdicts);
}

/// Runs up to 4096 traces in 1 to 64 lanes, in the room of a worker. As many traces as lanes run
/// side by side, each until its verdict or its end; then its lane takes the next trace that waits,
/// the last member first. Each verdict is kept once, at the place of its member, as soon as its
/// lane is looked at: when the traces of some lanes have ended, at the latest after 4096 instants.
/// It takes no memory.
///
/// ```text
/// let room = run_queue_to(room, &program, &set, &[0, 1, 2], 2, &mut posts);
/// ```
pub fn run_queue_to<V: Verdicts>(
    room: BatchRoom,
    program: &LaneProgram<'_>,
    set: &TraceSet,
    members: &[u32],
    lanes: u32,
    verdicts: &mut V,
) -> BatchRoom
    requires room { IsRoomFor program.now room }
    requires lanes { (0 < lanes) × (lanes ≤ 64) }
    requires most { length members.now ≤ 4096 }
    requires members { All (λ k. k < length set.now.traces) members.now }
    requires takes { TakesVerdicts (program_of program.now.program.now) set.now members.now
        (V.takes verdicts.old) }
    ensures room { IsRoomFor program.now result }
    ensures becomes { V.becomes verdicts.old verdicts.new }
    ensures judged { (k : ℕ) → k < length members.now
        → HasVerdict (program_of program.now.program.now) set.now members.now
        (V.has verdicts.new) k }
{
    if members.is_empty() {
        return room;
    }
    let lanes = lanes.min(members.len() as u32);
    let (mut run, mut inputs) = room.begin(program, lanes);
    let queue = Queue {
        set,
        members,
        lanes,
    };
    run_queue(&mut run, &mut inputs, &queue, verdicts);
    BatchRoom::of_run(run, inputs)
}

/// Runs up to 4096 traces as `run_queue_to` does, and puts the verdict of each member at its place
/// in a slice. It takes no memory.
pub fn run_queue_in(
    room: BatchRoom,
    program: &LaneProgram<'_>,
    set: &TraceSet,
    members: &[u32],
    lanes: u32,
    verdicts: &mut [Verdict],
) -> BatchRoom
    requires room { IsRoomFor program.now room }
    requires lanes { (0 < lanes) × (lanes ≤ 64) }
    requires most { length members.now ≤ 4096 }
    requires members { All (λ k. k < length set.now.traces) members.now }
    requires verdicts { length verdicts.old ≡ length members.now }
    ensures room { IsRoomFor program.now result }
    ensures verdicts { length verdicts.new ≡ length verdicts.old }
    ensures judged { HaveVerdicts (program_of program.now.program.now) set.now members.now
        verdicts.new }
{
    let mut in_order = InOrder { verdicts };
    run_queue_to(room, program, set, members, lanes, &mut in_order)
}

/// Runs up to 64 traces side by side, each until its verdict or its end. It fails only where memory
/// was refused (E0).
///
/// ```text
/// let program = compile(alloc, &ordered)?;
/// let done = run_batch(alloc, &program, &set, &[0, 1, 2])?;
/// ```
pub fn run_batch(
    alloc: Global,
    program: &LaneProgram<'_>,
    set: &TraceSet,
    members: &[u32],
) -> Result<Done, AllocError>
    requires few { length members.now ≤ 64 }
    requires members { All (λ k. k < length set.now.traces) members.now }
    ensures members { IfOk result (λ d. d.members.items ≡ members.now) }
    ensures count { IfOk result (λ d. length d.verdicts.items ≡ length members.now) }
    ensures verdicts { IfOk result (λ d. HaveVerdicts (program_of program.now.program.now) set.now
        members.now d.verdicts.items) }
{
    let mut all = Vec::new(alloc);
    all.extend_from_slice(members)?;
    let mut verdicts = vec![in alloc; Verdict::Passed; members.len()]?;
    let room = BatchRoom::new(alloc, program)?;
    run_queue_in(room, program, set, members, 64, verdicts.as_mut_slice());
    Ok(Done {
        members: all,
        verdicts,
    })
}
