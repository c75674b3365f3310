//! A line of a report: a trace and its verdict.

ghost use Rattle.std.specs.Prelude.{◌≡◌};
ghost use Rattle.lb_listing.specs.Verdicts as spec;

use lb_check::Verdict;

/// A line of a report: the name of a trace, and its verdict.
#[derive(Clone, Copy)]
pub struct Entry<'a> {
    pub name: &'a str,
    pub verdict: Verdict,
}

/// Whether two verdicts are the same, and their instants too.
pub(crate) fn is_same(a: Verdict, b: Verdict) -> bool
    ensures { result ≡ spec.is_same a b }
{
    match (a, b) {
        (Verdict::Passed, Verdict::Passed) => true,
        (Verdict::Fault(s), Verdict::Fault(t)) => s == t,
        (Verdict::Undefined(s), Verdict::Undefined(t)) => s == t,
        (Verdict::Assertion(s), Verdict::Assertion(t)) => s == t,
        (Verdict::False(s), Verdict::False(t)) => s == t,
        _ => false,
    }
}
