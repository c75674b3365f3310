//! The lanes of a batch whose traces have an instant.

ghost use Rattle.std.specs.Prelude.{◌≡◌, ℕ, ◌<◌, ◌≤◌, ◌==◌, ◌&&◌, ◌||◌, length};
ghost use Rattle.std.specs.Prelude.{All, nat_lt};
ghost use Rattle.lb_lanes.specs.Planes.{on};
ghost use Rattle.lb_sim.specs.BatchLanes.{AreRunning};
ghost use Rattle.lb_sim.specs.InputRows.{begin_of};

use crate::lane_bits::with_lane;
use lb_traces::TraceSet;

/// Some lanes, and the instant before which exactly their traces go on.
#[derive(Clone, Copy)]
pub(crate) struct Running {
    pub(crate) lanes: u64,
    pub(crate) until: u32,
}

// The most instants until the lanes are looked at again, since some may have their verdicts by
// then.
const MOST_AT_ONCE: u32 = 4096;

// The lanes, with `lane` added if its trace has instant `t`.
fn with_running(lanes: u64, lane: u32, end: u32, t: u32) -> u64
    requires { lane < 64 }
    ensures { (i : ℕ) → i < 64 → on result i ≡ ((nat_lt t end && (i == lane)) || on lanes i) }
{
    if t < end {
        with_lane(lanes, lane)
    } else {
        lanes
    }
}

// The end of a trace, if it has instant `t` and ends before `until`; else `until`.
fn earlier_end(until: u32, end: u32, t: u32) -> u32
    ensures later { t < until → t < result }
    ensures until { result ≤ until }
    ensures end { t < end → result ≤ end }
{
    if t < end && end < until { end } else { until }
}

/// The lanes whose traces have instant `t`, where the trace of each lane began at its instant of
/// the batch.
pub(crate) fn running_at(set: &TraceSet, members: &[u32], begins: &[u32], t: u32) -> Running
    requires few { length members.now ≤ 64 }
    requires members { All (λ k. k < length set.now.traces) members.now }
    requires begins { length begins.now ≡ 64 }
    requires begun { (i : ℕ) → i < 64 → begin_of begins.now i ≤ t }
    requires instant { t ≤ 4293967295 }
    ensures { AreRunning set.now members.now begins.now t result.lanes result.until }
{
    let mut lanes = 0u64;
    let mut until = t + MOST_AT_ONCE;
    for i in 0..members.len() {
        let end = begins[i] + set.length(members[i]);
        lanes = with_running(lanes, i as u32, end, t);
        until = earlier_end(until, end, t);
    }
    Running { lanes, until }
}
