//! Traces that wait for lanes.
//!
//! The first members begin together, one in each lane. Where the trace of a lane has ended, or has
//! its verdict, the lane takes the last member that waits. If the members are sorted by length,
//! that is the longest, so the last ones to run are short.
//!
//! ```text
//! three lanes, members 0 to 6 by length
//!
//! lane 0      0 | 6 .................
//! lane 1      1 .. | 5 ............
//! lane 2      2 ... | 4 ....... | 3 ..
//! ```

ghost use Rattle.std.specs.Prelude.{◌≡◌, ℕ, ◌<◌, ◌≤◌, ◌*◌, ◌&&◌, true, not, length, All};
ghost use Rattle.std.specs.Prelude.{get_or};
ghost use Rattle.std.specs.List.{sum_by};
ghost use Rattle.lb_flat.specs.Correct.{IsVerdictOf};
ghost use Rattle.lb_flat.specs.Programs.{program_of};
ghost use Rattle.lb_lanes.specs.Planes.{IsPlaneOf, on};
ghost use Rattle.lb_sim.specs.BatchRuns.{verdict_at};
ghost use Rattle.lb_sim.specs.Correct.{HasVerdict, IsRestart, TakesVerdicts};
ghost use Rattle.lb_sim.specs.Queues.{length_of, AreTaken, IsTakenBy};

use crate::batch_run::BatchRun;
use crate::lane_bits::{next_lane, with_lane};
use crate::verdicts::Verdicts;
use lb_lanes::Plane;
use lb_traces::TraceSet;

/// A queue of traces for some lanes, with at least one trace for each lane.
#[derive(Clone, Copy)]
pub(crate) struct Queue<'a> {
    pub(crate) set: &'a TraceSet,
    pub(crate) members: &'a [u32],
    pub(crate) lanes: u32,
    pub(crate) ghost within: { All (λ k. k < length set.now.traces) members.now },
    pub(crate) ghost some: { 0 < lanes },
    pub(crate) ghost few: { lanes ≤ 64 },
    pub(crate) ghost enough: { lanes ≤ length members.now },
    pub(crate) ghost most: { length members.now ≤ 4096 },
}

/// The lanes that begin with another trace, and the place before which members may still wait.
#[derive(Clone, Copy)]
pub(crate) struct Taken {
    pub(crate) lanes: Plane,
    pub(crate) rest: u32,
}

/// The number of instants of all traces together.
pub(crate) fn instants_of(queue: &Queue<'_>) -> u32
    ensures sum { result ≡ sum_by (length_of queue.now.set.now) queue.now.members.now }
    ensures limit { result ≤ 1000000 * length queue.now.members.now }
{
    let mut sum = 0u32;
    for k in 0..queue.members.len() {
        sum += queue.set.length(queue.members[k]);
    }
    sum
}

/// The place, among the members, of the first trace of each lane.
pub(crate) fn first_places() -> [u32; 64]
    ensures room { length result ≡ 64 }
    ensures places { (i : ℕ) → i < 64 → get_or result i 0 ≡ i }
{
    let mut places = [0u32; 64];
    for i in 0..64u32 {
        places[i as usize] = i;
    }
    places
}

/// The first trace of each of 64 lanes; lanes without a member of their own get the last member.
pub(crate) fn first_traces(queue: &Queue<'_>) -> [u32; 64]
    ensures room { length result ≡ 64 }
    ensures within { All (λ k. k < length queue.now.set.now.traces) result }
    ensures first { (i : ℕ) → i < queue.now.lanes
        → get_or result i 0 ≡ get_or queue.now.members.now i 0 }
{
    let last = queue.members.len() - 1;
    let mut traces = [0u32; 64];
    for i in 0..64usize {
        traces[i] = queue.members[i.min(last)];
    }
    traces
}

/// The pending lanes whose verdicts are settled: they are no longer active, or their traces have
/// ended. `running` has the lanes whose traces have another instant.
pub(crate) fn settled_lanes(run: &BatchRun<'_>, pending: Plane, running: u64) -> Plane
    ensures { IsPlaneOf (λ i. on pending.0 i && not (on run.now.active.0 i && on running i))
        result.0 }
{
    let going = run.active().and(Plane(running));
    pending.and(going.not())
}

// Keeps the verdicts of settled lanes, each at the place of its member.
fn keep_settled<V: Verdicts>(
    run: &BatchRun<'_>,
    queue: &Queue<'_>,
    places: &[u32; 64],
    settled: Plane,
    verdicts: &mut V,
)
    requires there { (i : ℕ) → i < queue.now.lanes
        → get_or places.now i 0 < length queue.now.members.now }
    requires right { (i : ℕ) → i < queue.now.lanes → on settled.0 i ≡ true
        → IsVerdictOf (program_of run.now.program.now.program.now) queue.now.set.now
        (get_or queue.now.members.now (get_or places.now i 0) 0) (verdict_at run.now i) }
    requires takes { TakesVerdicts (program_of run.now.program.now.program.now)
        queue.now.set.now queue.now.members.now (V.takes verdicts.old) }
    ensures becomes { V.becomes verdicts.old verdicts.new }
    ensures stays { (k : ℕ) → HasVerdict (program_of run.now.program.now.program.now)
        queue.now.set.now queue.now.members.now (V.has verdicts.old) k
        → HasVerdict (program_of run.now.program.now.program.now)
        queue.now.set.now queue.now.members.now (V.has verdicts.new) k }
    ensures kept { (i : ℕ) → i < queue.now.lanes → on settled.0 i ≡ true
        → HasVerdict (program_of run.now.program.now.program.now)
        queue.now.set.now queue.now.members.now (V.has verdicts.new) (get_or places.now i 0) }
{
    let mut lane = next_lane(settled.0, 0);
    while lane < queue.lanes {
        verdicts.keep(places[lane as usize], run.verdict(lane));
        lane = next_lane(settled.0, lane + 1);
    }
}

// Makes a lane take the member at a place.
fn take_place(
    queue: &Queue<'_>,
    places: &mut [u32; 64],
    traces: &mut [u32; 64],
    lane: u32,
    place: u32,
)
    requires lane { lane < queue.now.lanes }
    requires place { place < length queue.now.members.now }
    ensures { IsTakenBy queue.now.members.now places.old places.new traces.old traces.new lane
        place }
{
    places[lane as usize] = place;
    traces[lane as usize] = queue.members[place as usize];
}

// Makes the settled lanes take members that wait, the last first, while there are any.
fn refill_lanes(
    queue: &Queue<'_>,
    places: &mut [u32; 64],
    traces: &mut [u32; 64],
    settled: Plane,
    rest: u32,
) -> Taken
    requires rest { (queue.now.lanes ≤ rest) × (rest ≤ length queue.now.members.now) }
    ensures { AreTaken queue.now.members.now queue.now.lanes settled.0 places.old places.new
        traces.old traces.new rest result.lanes.0 result.rest }
{
    let mut lanes = 0u64;
    let mut left = rest;
    let mut lane = next_lane(settled.0, 0);
    while left > queue.lanes && lane < queue.lanes {
        left -= 1;
        take_place(queue, places, traces, lane, left);
        lanes = with_lane(lanes, lane);
        lane = next_lane(settled.0, lane + 1);
    }
    Taken {
        lanes: Plane(lanes),
        rest: left,
    }
}

/// Keeps the verdicts of settled lanes, and starts members that wait in these lanes, while there
/// are any. It takes no memory.
pub(crate) fn refill<V: Verdicts>(
    run: &mut BatchRun<'_>,
    queue: &Queue<'_>,
    places: &mut [u32; 64],
    traces: &mut [u32; 64],
    settled: Plane,
    rest: u32,
    verdicts: &mut V,
) -> Taken
    requires rest { (queue.now.lanes ≤ rest) × (rest ≤ length queue.now.members.now) }
    requires there { (i : ℕ) → i < queue.now.lanes
        → get_or places.old i 0 < length queue.now.members.now }
    requires right { (i : ℕ) → i < queue.now.lanes → on settled.0 i ≡ true
        → IsVerdictOf (program_of run.old.program.now.program.now) queue.now.set.now
        (get_or queue.now.members.now (get_or places.old i 0) 0) (verdict_at run.old i) }
    requires takes { TakesVerdicts (program_of run.old.program.now.program.now)
        queue.now.set.now queue.now.members.now (V.takes verdicts.old) }
    ensures taken { AreTaken queue.now.members.now queue.now.lanes settled.0 places.old
        places.new traces.old traces.new rest result.lanes.0 result.rest }
    ensures again { IsRestart run.old run.new result.lanes }
    ensures becomes { V.becomes verdicts.old verdicts.new }
    ensures stays { (k : ℕ) → HasVerdict (program_of run.old.program.now.program.now)
        queue.now.set.now queue.now.members.now (V.has verdicts.old) k
        → HasVerdict (program_of run.old.program.now.program.now)
        queue.now.set.now queue.now.members.now (V.has verdicts.new) k }
    ensures kept { (i : ℕ) → i < queue.now.lanes → on settled.0 i ≡ true
        → HasVerdict (program_of run.old.program.now.program.now)
        queue.now.set.now queue.now.members.now (V.has verdicts.new) (get_or places.old i 0) }
{
    keep_settled(run, queue, places, settled, verdicts);
    if rest == queue.lanes {
        return Taken {
            lanes: Plane(0),
            rest,
        };
    }
    let taken = refill_lanes(queue, places, traces, settled, rest);
    run.restart(taken.lanes);
    taken
}
