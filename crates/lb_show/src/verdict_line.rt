//! The line of a verdict.

use crate::page::Page;
use lb_check::Verdict;
use lb_csv::deciding;

/// Adds the name of a trace and its verdict, as its line of a report has them.
pub fn push_verdict(page: &mut Page, name: &str, verdict: Verdict) {
    page.push(name);
    page.push(match verdict {
        Verdict::Passed => " passed",
        Verdict::Fault(_) => " fault ",
        Verdict::Undefined(_) => " undefined ",
        Verdict::Assertion(_) => " assertion ",
        Verdict::False(_) => " false ",
    });
    if let Some(t) = deciding(verdict) {
        page.push_number(u64::from(t));
    }
}
