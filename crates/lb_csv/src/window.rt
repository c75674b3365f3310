//! The trace that is shown, and the instants of it that are.

ghost use Rattle.std.specs.Prelude.{◌≡◌, ◌≢◌, ◌<◌, ◌≤◌, ℕ, length, IfSome, IfNone};
ghost use Rattle.lb_traces.specs.Traces.{trace_at};
ghost use Rattle.lb_csv.specs.Verdicts.{deciding};
ghost use Rattle.lb_csv.specs.Windows.{end_at, first_at};

use lb_check::Verdict;
use lb_traces::TraceSet;

/// The number of the trace with a name.
pub fn trace_named(set: &TraceSet, name: &str) -> Option<u32>
    ensures within { IfSome result (λ k. k < length set.now.traces) }
    ensures named { IfSome result (λ k. (trace_at set.now.traces k).0 ≡ name.now) }
    ensures none { IfNone result ((k : ℕ) → k < length set.now.traces →
        (trace_at set.now.traces k).0 ≢ name.now) }
{
    for k in 0..set.len() {
        if set.name(k) == name {
            return Some(k);
        }
    }
    None
}

/// The instant that decides a verdict, if one does.
pub fn deciding(verdict: Verdict) -> Option<u32>
    ensures { result ≡ deciding verdict }
{
    match verdict {
        Verdict::Passed => None,
        Verdict::Fault(t) | Verdict::Undefined(t) | Verdict::Assertion(t) | Verdict::False(t) =>
            Some(t),
    }
}

/// The instant behind the last one that is shown, of a trace of `count` instants.
pub fn end_at(decides: Option<u32>, count: u32) -> u32
    ensures { result ≡ end_at decides count }
{
    match decides {
        Some(t) if t < count => t + 1,
        _ => count,
    }
}

/// The first instant that is shown, where only the `last` instants before `end` are.
pub fn first_at(last: Option<u32>, end: u32) -> u32
    ensures value { result ≡ first_at last end }
    ensures before { result ≤ end }
{
    match last {
        Some(last) => end.saturating_sub(last),
        None => 0,
    }
}
