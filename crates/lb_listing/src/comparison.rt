//! The comparison of a report with an earlier one.

ghost use Rattle.std.specs.Prelude.{◌≡◌, ◌∷◌, ◌++◌, [], IfOk, OnOk, map, count_by};
ghost use Rattle.std.specs.List.{list_any};
ghost use Rattle.lb_listing.specs.Compared as spec;
ghost use Rattle.lb_listing.specs.Indexed as indexed;
ghost use Rattle.lb_listing.specs.Listings as listing;

use crate::entry::{Entry, is_same};
use crate::listing::Listing;
use crate::status::{Measure, fails};
use lb_check::Verdict;
use lb_output::{push_number, push_verdict};
use std::alloc::{AllocError, Global};

/// The differences between a report and an earlier one.
#[derive(Drop)]
pub struct Comparison {
    /// A line for each trace that changed, is new or is gone, and a last line that counts.
    pub text: Vec<u8>,
    /// 1 where a trace that passed before, or is new, fails now, else 0.
    pub status: u8,
}

/// Adds a word, the name of a trace, and its verdict.
fn push_trace(
    text: &mut Vec<u8>,
    word: &str,
    name: &str,
    verdict: Verdict,
) -> Result<(), AllocError>
    ensures { OnOk result (text.new.items
        ≡ text.old.items ++ (word.now ++ name.now ++ listing.spaced verdict)) }
{
    text.extend_from_slice(word.as_bytes())?;
    text.extend_from_slice(name.as_bytes())?;
    push_verdict(text, verdict)
}

/// Adds the line of a trace that has another verdict than before.
fn push_changed(text: &mut Vec<u8>, entry: &Entry<'_>, before: Verdict) -> Result<(), AllocError>
    ensures { OnOk result (text.new.items
        ≡ text.old.items ++ spec.changed_line (listing.line_of entry.now) before) }
{
    push_trace(text, "changed: ", entry.name, before)?;
    text.extend_from_slice(b" ->")?;
    push_verdict(text, entry.verdict)?;
    text.extend_from_slice(b"\n")
}

/// Adds the line of a trace that only one report has.
fn push_single(text: &mut Vec<u8>, word: &str, entry: &Entry<'_>) -> Result<(), AllocError>
    ensures { OnOk result (text.new.items
        ≡ text.old.items ++ (word.now ++ entry.now.name.now ++ listing.spaced entry.now.verdict
        ++ 10 ∷ [])) }
{
    push_trace(text, word, entry.name, entry.verdict)?;
    text.extend_from_slice(b"\n")
}

/// Adds the line of a trace that changed or is new.
fn push_change(
    text: &mut Vec<u8>,
    before: &Listing<'_>,
    entry: &Entry<'_>,
) -> Result<(), AllocError>
    requires { indexed.IsIndexed before.now }
    ensures { OnOk result (text.new.items
        ≡ text.old.items ++ spec.change (indexed.listed before.now) (listing.line_of entry.now)) }
{
    match before.verdict_of(entry.name) {
        None => push_single(text, "new: ", entry),
        Some(verdict) => {
            if is_same(verdict, entry.verdict) {
                Ok(())
            } else {
                push_changed(text, entry, verdict)
            }
        }
    }
}

/// Adds the line of a trace of an earlier report, if it is gone.
fn push_loss(text: &mut Vec<u8>, now: &Listing<'_>, entry: &Entry<'_>) -> Result<(), AllocError>
    requires { indexed.IsIndexed now.now }
    ensures { OnOk result (text.new.items
        ≡ text.old.items ++ spec.loss (indexed.listed now.now) (listing.line_of entry.now)) }
{
    if is_missing(now, entry) {
        push_single(text, "gone: ", entry)
    } else {
        Ok(())
    }
}

/// Adds the lines of the traces that changed or are new.
fn push_changes(
    text: &mut Vec<u8>,
    before: &Listing<'_>,
    entries: &[Entry<'_>],
) -> Result<(), AllocError>
    requires { indexed.IsIndexed before.now }
    ensures { OnOk result (text.new.items ≡ text.old.items
        ++ spec.changes (indexed.listed before.now) (map listing.line_of entries.now)) }
{
    for entry in entries {
        push_change(text, before, entry)?;
    }
    Ok(())
}

/// Adds the lines of the traces that are gone.
fn push_losses(
    text: &mut Vec<u8>,
    entries: &[Entry<'_>],
    now: &Listing<'_>,
) -> Result<(), AllocError>
    requires { indexed.IsIndexed now.now }
    ensures { OnOk result (text.new.items ≡ text.old.items
        ++ spec.losses (map listing.line_of entries.now) (indexed.listed now.now)) }
{
    for entry in entries {
        push_loss(text, now, entry)?;
    }
    Ok(())
}

/// Whether a trace has the same verdict in an earlier report.
fn is_kept(before: &Listing<'_>, entry: &Entry<'_>) -> bool
    requires { indexed.IsIndexed before.now }
    ensures { result ≡ spec.is_kept (indexed.listed before.now) (listing.line_of entry.now) }
{
    match before.verdict_of(entry.name) {
        Some(verdict) => is_same(verdict, entry.verdict),
        None => false,
    }
}

/// Whether a trace has another verdict in an earlier report.
fn is_changed(before: &Listing<'_>, entry: &Entry<'_>) -> bool
    requires { indexed.IsIndexed before.now }
    ensures { result ≡ spec.is_changed (indexed.listed before.now) (listing.line_of entry.now) }
{
    match before.verdict_of(entry.name) {
        Some(verdict) => !is_same(verdict, entry.verdict),
        None => false,
    }
}

/// Whether another report does not have a trace.
fn is_missing(from: &Listing<'_>, entry: &Entry<'_>) -> bool
    requires { indexed.IsIndexed from.now }
    ensures { result ≡ spec.is_missing (indexed.listed from.now) (listing.line_of entry.now) }
{
    from.verdict_of(entry.name).is_none()
}

/// The number of traces that have the same verdict in an earlier report.
fn count_kept(before: &Listing<'_>, entries: &[Entry<'_>]) -> usize
    requires { indexed.IsIndexed before.now }
    ensures { result
        ≡ count_by (spec.is_kept (indexed.listed before.now)) (map listing.line_of entries.now) }
{
    entries.iter().filter(|e| is_kept(before, e)).count()
}

/// The number of traces that have another verdict in an earlier report.
fn count_changed(before: &Listing<'_>, entries: &[Entry<'_>]) -> usize
    requires { indexed.IsIndexed before.now }
    ensures { result
        ≡ count_by (spec.is_changed (indexed.listed before.now)) (map listing.line_of entries.now) }
{
    entries.iter().filter(|e| is_changed(before, e)).count()
}

/// The number of traces that another report does not have.
fn count_missing(from: &Listing<'_>, entries: &[Entry<'_>]) -> usize
    requires { indexed.IsIndexed from.now }
    ensures { result
        ≡ count_by (spec.is_missing (indexed.listed from.now)) (map listing.line_of entries.now) }
{
    entries.iter().filter(|e| is_missing(from, e)).count()
}

/// Adds a word and a number.
fn push_count(text: &mut Vec<u8>, word: &str, count: usize) -> Result<(), AllocError>
    ensures { OnOk result (text.new.items
        ≡ text.old.items ++ spec.counted word.now count) }
{
    text.extend_from_slice(word.as_bytes())?;
    push_number(text, count)
}

/// Adds the counts of a comparison.
fn push_counts(
    text: &mut Vec<u8>,
    before: &Listing<'_>,
    now: &Listing<'_>,
) -> Result<(), AllocError>
    requires before { indexed.IsIndexed before.now }
    requires now { indexed.IsIndexed now.now }
    ensures { OnOk result (text.new.items ≡ text.old.items
        ++ spec.counts (indexed.listed before.now) (indexed.listed now.now)) }
{
    let entries = now.entries.as_slice();
    push_count(text, "baseline: same", count_kept(before, entries))?;
    push_count(text, " changed", count_changed(before, entries))?;
    push_count(text, " new", count_missing(before, entries))?;
    let gone = count_missing(now, before.entries.as_slice());
    push_count(text, " gone", gone)?;
    text.extend_from_slice(b"\n")?;
    Ok(())
}

/// Whether a trace passed before, or is new, and fails now.
fn is_setback(measure: Measure, before: &Listing<'_>, entry: &Entry<'_>) -> bool
    requires { indexed.IsIndexed before.now }
    ensures { result
        ≡ spec.is_setback measure (indexed.listed before.now) (listing.line_of entry.now) }
{
    match before.verdict_of(entry.name) {
        None | Some(Verdict::Passed) => fails(measure, entry.verdict),
        Some(_) => false,
    }
}

/// Whether some trace passed before, or is new, and fails now.
fn has_setback(measure: Measure, before: &Listing<'_>, entries: &[Entry<'_>]) -> bool
    requires { indexed.IsIndexed before.now }
    ensures { result ≡ list_any (spec.is_setback measure (indexed.listed before.now))
        (map listing.line_of entries.now) }
{
    for entry in entries {
        if is_setback(measure, before, entry) {
            return true;
        }
    }
    false
}

/// The status of a run whose report is compared with an earlier one.
fn status_of(measure: Measure, before: &Listing<'_>, now: &Listing<'_>) -> u8
    requires { indexed.IsIndexed before.now }
    ensures { result
        ≡ spec.status_of measure (indexed.listed before.now) (indexed.listed now.now) }
{
    let entries = now.entries.as_slice();
    let without = entries.is_empty() && measure.fails_without_traces();
    if has_setback(measure, before, entries) || without {
        1
    } else {
        0
    }
}

/// Compares a report with an earlier one: the traces that changed or are new, in the order of the
/// report, then those that are gone, in the order of the earlier report.
///
/// ```text
/// changed: rig7/00000 passed -> false 21
/// new: rig9/00000 passed
/// gone: rig3/00002 false 4
/// baseline: same 97 changed 1 new 1 gone 1
/// ```
pub fn compare(
    alloc: Global,
    measure: Measure,
    before: &Listing<'_>,
    now: &Listing<'_>,
) -> Result<Comparison, AllocError>
    requires before { indexed.IsIndexed before.now }
    requires now { indexed.IsIndexed now.now }
    ensures text { IfOk result (λ found. found.text.items
        ≡ spec.text_of (indexed.listed before.now) (indexed.listed now.now)) }
    ensures status { IfOk result (λ found. found.status
        ≡ spec.status_of measure (indexed.listed before.now) (indexed.listed now.now)) }
{
    let mut text = Vec::new(alloc);
    push_changes(&mut text, before, now.entries.as_slice())?;
    push_losses(&mut text, before.entries.as_slice(), now)?;
    push_counts(&mut text, before, now)?;
    Ok(Comparison {
        text,
        status: status_of(measure, before, now),
    })
}
