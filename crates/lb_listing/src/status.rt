//! The status of a run, by its verdicts.

ghost use Rattle.std.specs.Prelude.{◌≡◌, map};
ghost use Rattle.std.specs.List.{list_any};
ghost use Rattle.lb_listing.specs.Listings as listing;
ghost use Rattle.lb_listing.specs.Verdicts as spec;

use crate::entry::Entry;
use lb_check::Verdict;

/// The measure by which a run fails.
#[derive(Clone, Copy)]
pub enum Measure {
    /// A fault, an undefined value and a false property make a run fail.
    Lenient,
    /// A broken assumption makes it fail too, and so does a report on no trace.
    Strict,
}

impl Measure {
    /// Whether a run fails that has no trace.
    pub(crate) fn fails_without_traces(&self) -> bool
        ensures { result ≡ spec.fails_without_traces self.now }
    {
        matches!(self, Measure::Strict)
    }
}

/// Whether a verdict makes a run fail.
pub(crate) fn fails(measure: Measure, verdict: Verdict) -> bool
    ensures { result ≡ spec.fails measure verdict }
{
    match verdict {
        Verdict::Passed => false,
        Verdict::Assertion(_) => measure.fails_without_traces(),
        Verdict::Fault(_) | Verdict::Undefined(_) | Verdict::False(_) => true,
    }
}

/// Whether some trace makes a run fail.
fn some_fails(measure: Measure, entries: &[Entry<'_>]) -> bool
    ensures { result ≡ list_any (λ l. spec.fails measure l.1)
        (map listing.line_of entries.now) }
{
    for entry in entries {
        if fails(measure, entry.verdict) {
            return true;
        }
    }
    false
}

/// The status of a run with these verdicts: 1 where it fails, else 0.
pub fn status_by(measure: Measure, entries: &[Entry<'_>]) -> u8
    ensures { result
        ≡ spec.status_of measure (map listing.line_of entries.now) }
{
    let without = entries.is_empty() && measure.fails_without_traces();
    if some_fails(measure, entries) || without {
        1
    } else {
        0
    }
}
