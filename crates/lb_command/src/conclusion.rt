//! The output of a run for its report, by the terms of the run.

ghost use Rattle.std.specs.Prelude.{◌≡◌, ◌≢◌, ◌⊎◌, List, [], IfErr, IfOk, IfSome, IsSome};
ghost use Rattle.std.specs.Prelude.{MatchOption};
ghost use Rattle.std.specs.Prelude.{None, Some, string_bytes};
ghost use Rattle.lb_command.specs.Conclusions as spec;
ghost use Rattle.lb_command.specs.Outcomes.{IsUnread};
ghost use Rattle.lb_listing.specs.Indexed as indexed;
ghost use Rattle.lb_listing.specs.Listings as listing;

use crate::answer::Warned;
use crate::loading::load_file;
use crate::refusal::Refusal;
use lb_listing::{Listing, ListingError, Measure, compare, junit, read_listing, status_by};
use lb_report::Report;
use lb_words::{Format, Terms};
use std::alloc::{AllocError, Global};
use std::fs::Files;

/// The output for a report, with the status of its run, and the notes beside it.
#[derive(Drop)]
pub struct Conclusion {
    pub shown: Report,
    pub notes: Vec<u8>,
}

impl Conclusion {
    /// The conclusion with its notes as warnings.
    pub fn into_warned(self) -> Warned<Report>
        ensures value { result.value ≡ self.shown }
        ensures warnings { result.warnings ≡ self.notes }
    {
        let Conclusion { shown, notes } = self;
        Warned {
            value: shown,
            warnings: notes,
        }
    }
}

/// The status of a run, and the notes beside its report.
#[derive(Drop)]
struct Measured {
    status: u8,
    notes: Vec<u8>,
}

/// The text of the earlier report that the terms name, if they name one. The errors are E0 and E21.
pub fn load_baseline<R: Files + AllocGlobal>(
    rt: &R,
    terms: &Terms<'_>,
) -> Result<Option<Vec<u8>>, Refusal>
    ensures ok { IfOk result (λ found. MatchOption found (terms.now.baseline ≡ None)
        (λ text. IsSome terms.now.baseline)) }
    ensures err { IfErr result IsUnread }
{
    match terms.baseline {
        None => Ok(None),
        Some(path) => Ok(Some(load_file(rt, path)?)),
    }
}

/// The listing of the earlier report `text`. The errors are E0, and E20 where it is no report.
pub fn read_baseline<'t>(
    alloc: Global,
    terms: &Terms<'_>,
    text: &'t [u8],
) -> Result<Listing<'t>, Refusal>
    requires { IsSome terms.now.baseline }
    ensures lists { IfOk result (λ found. listing.Lists text.now (indexed.listed found)) }
    ensures indexed { IfOk result indexed.IsIndexed }
    ensures err { IfErr result (λ refusal.
        (refusal.number ≡ 0) ⊎ spec.IsNoBaseline terms.now text.now refusal) }
{
    match read_listing(alloc, text) {
        Ok(found) => Ok(found),
        Err(ListingError::Memory(_)) => Err(Refusal::MEMORY),
        Err(ListingError::Fault(line)) => {
            Err(Refusal::no_report(alloc, terms.baseline.unwrap_or("-"), line))
        }
    }
}

/// The measure of a run.
fn measure_of(terms: &Terms<'_>) -> Measure
    ensures { result ≡ spec.measure_of terms.now }
{
    if terms.is_strict {
        Measure::Strict
    } else {
        Measure::Lenient
    }
}

/// The status of a run with the traces `now`, and the notes beside its report.
fn measure(
    alloc: Global,
    terms: &Terms<'_>,
    now: &Listing<'_>,
    baseline: Option<&Listing<'_>>,
) -> Result<Measured, AllocError>
    requires now { indexed.IsIndexed now.now }
    requires baseline { spec.IsBaseline terms.now baseline }
    ensures { IfOk result (λ found.
        spec.HasStatus terms.now (indexed.listed now.now) found.status found.notes.items) }
{
    let by = measure_of(terms);
    match baseline {
        None => Ok(Measured {
            status: status_by(by, now.entries.as_slice()),
            notes: Vec::new(alloc),
        }),
        Some(before) => {
            let found = compare(alloc, by, before, now)?;
            Ok(Measured {
                status: found.status,
                notes: found.text,
            })
        }
    }
}

/// The text of a report in the format that is asked for; a JUnit suite holds the remarks too.
fn write(
    alloc: Global,
    format: Format,
    node: &str,
    remarks: &[u8],
    report: &[u8],
    now: &Listing<'_>,
) -> Result<Vec<u8>, AllocError>
    requires { listing.Lists report.now (indexed.listed now.now) }
    ensures { IfOk result (λ text.
        text.items ≡ spec.written format node.now remarks.now (indexed.listed now.now)) }
{
    match format {
        Format::Lines => report.to_vec(alloc),
        Format::Junit => junit(alloc, node, now.entries.as_slice(), remarks),
    }
}

/// The output for a report that lists the traces `now`.
fn conclude_listing(
    alloc: Global,
    terms: &Terms<'_>,
    node: &str,
    remarks: &[u8],
    report: &[u8],
    now: &Listing<'_>,
    baseline: Option<&Listing<'_>>,
) -> Result<Conclusion, AllocError>
    requires lists { listing.Lists report.now (indexed.listed now.now) }
    requires indexed { indexed.IsIndexed now.now }
    requires baseline { spec.IsBaseline terms.now baseline }
    ensures { IfOk result (λ found. spec.IsTold terms.now node.now remarks.now
        (indexed.listed now.now) found.shown found.notes.items) }
{
    let Measured { status, notes } = measure(alloc, terms, now, baseline)?;
    let text = write(alloc, terms.format, node, remarks, report, now)?;
    Ok(Conclusion {
        shown: Report { text, status },
        notes,
    })
}

/// The output for the text of a report.
pub fn conclude_text(
    alloc: Global,
    terms: &Terms<'_>,
    node: &str,
    remarks: &[u8],
    report: &[u8],
    baseline: Option<&Listing<'_>>,
) -> Result<Conclusion, AllocError>
    requires lists { (traces : List listing.Line) × listing.Lists report.now traces }
    requires baseline { spec.IsBaseline terms.now baseline }
    ensures { IfOk result (λ found. (traces : List listing.Line)
        × listing.Lists report.now traces
        × spec.IsTold terms.now node.now remarks.now traces found.shown found.notes.items) }
{
    match read_listing(alloc, report) {
        Ok(now) => { conclude_listing(alloc, terms, node, remarks, report, &now, baseline) }
        Err(ListingError::Memory(cause)) => Err(cause),
        Err(ListingError::Fault(_)) => unreachable!(),
    }
}

/// The output for a report: the report itself, where the terms are the usual ones.
pub fn conclude(
    alloc: Global,
    terms: &Terms<'_>,
    node: &str,
    remarks: &[u8],
    report: Report,
    baseline: Option<&Listing<'_>>,
) -> Result<Conclusion, AllocError>
    requires lists { (traces : List listing.Line) × listing.Lists report.text.items traces }
    requires baseline { spec.IsBaseline terms.now baseline }
    ensures { IfOk result (λ found.
        spec.IsConcluded terms.now node.now report remarks.now found.shown found.notes.items) }
{
    if terms.are_usual() {
        return Ok(Conclusion {
            shown: report,
            notes: Vec::new(alloc),
        });
    }
    conclude_text(
        alloc,
        terms,
        node,
        remarks,
        report.text.as_slice(),
        baseline,
    )
}
