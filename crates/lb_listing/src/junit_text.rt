//! Reports as JUnit XML.

ghost use Rattle.std.specs.Prelude.{◌≡◌, ◌++◌, IfOk, OnOk, map, count_by, flat_map};
ghost use Rattle.lb_output.specs.Reports.{is_failure};
ghost use Rattle.lb_listing.specs.Junit as spec;
ghost use Rattle.lb_listing.specs.Listings as listing;

use crate::entry::Entry;
use crate::status::{Measure, fails};
use itoa::{Buffer, Integer};
use lb_check::Verdict;
use lb_output::{push_said, word_of};
use std::alloc::{AllocError, Global};

/// Whether a trace was not judged to its end, since it broke an assumption.
fn is_skipped(verdict: Verdict) -> bool
    ensures { result ≡ spec.is_skipped verdict }
{
    matches!(verdict, Verdict::Assertion(_))
}

/// Adds a text between quotes.
fn push_quoted(text: &mut Vec<u8>, bytes: &[u8]) -> Result<(), AllocError>
    ensures { OnOk result (text.new.items ≡ text.old.items ++ spec.quoted bytes.now) }
{
    text.extend_from_slice(b"'")?;
    text.extend_from_slice(bytes)?;
    text.extend_from_slice(b"'")?;
    Ok(())
}

/// Adds an attribute with a number.
fn push_counted(text: &mut Vec<u8>, name: &str, n: usize) -> Result<(), AllocError>
    ensures { OnOk result (text.new.items ≡ text.old.items ++ spec.counted name.now n) }
{
    text.extend_from_slice(name.as_bytes())?;
    push_quoted(text, Buffer::new().format(n).as_bytes())
}

/// Adds the text of a verdict between quotes.
fn push_message(text: &mut Vec<u8>, verdict: Verdict) -> Result<(), AllocError>
    ensures { OnOk result (text.new.items
        ≡ text.old.items ++ spec.quoted (listing.said verdict)) }
{
    text.extend_from_slice(b"'")?;
    push_said(text, verdict)?;
    text.extend_from_slice(b"'")?;
    Ok(())
}

/// Adds the end of the case of a trace that failed.
fn push_failure(text: &mut Vec<u8>, verdict: Verdict) -> Result<(), AllocError>
    ensures { OnOk result (text.new.items ≡ text.old.items ++ spec.failure verdict) }
{
    text.extend_from_slice(b"><failure type=")?;
    push_quoted(text, word_of(verdict).as_bytes())?;
    text.extend_from_slice(b" message=")?;
    push_message(text, verdict)?;
    text.extend_from_slice(b"/></testcase>\n")?;
    Ok(())
}

/// Adds the end of the case of a trace that was not judged to its end.
fn push_skipped(text: &mut Vec<u8>, verdict: Verdict) -> Result<(), AllocError>
    ensures { OnOk result (text.new.items ≡ text.old.items ++ spec.skipped verdict) }
{
    text.extend_from_slice(b"><skipped message=")?;
    push_message(text, verdict)?;
    text.extend_from_slice(b"/></testcase>\n")?;
    Ok(())
}

/// Adds the end of the case of a trace, by its verdict.
fn push_outcome(text: &mut Vec<u8>, verdict: Verdict) -> Result<(), AllocError>
    ensures { OnOk result (text.new.items ≡ text.old.items ++ spec.outcome verdict) }
{
    match verdict {
        Verdict::Passed => text.extend_from_slice(b"/>\n"),
        Verdict::Assertion(_) => push_skipped(text, verdict),
        Verdict::Fault(_) | Verdict::Undefined(_) | Verdict::False(_) => {
            push_failure(text, verdict)
        }
    }
}

/// Adds the case of a trace.
fn push_testcase(text: &mut Vec<u8>, suite: &[u8], entry: &Entry<'_>) -> Result<(), AllocError>
    ensures { OnOk result (text.new.items
        ≡ text.old.items ++ spec.testcase suite.now (listing.line_of entry.now)) }
{
    text.extend_from_slice(b"<testcase classname=")?;
    push_quoted(text, suite)?;
    text.extend_from_slice(b" name=")?;
    push_quoted(text, entry.name.as_bytes())?;
    push_outcome(text, entry.verdict)?;
    Ok(())
}

/// Adds the cases of some traces.
fn push_testcases(text: &mut Vec<u8>, suite: &[u8], entries: &[Entry<'_>]) -> Result<(), AllocError>
    ensures { OnOk result (text.new.items ≡ text.old.items
        ++ flat_map (spec.testcase suite.now) (map listing.line_of entries.now)) }
{
    for entry in entries {
        push_testcase(text, suite, entry)?;
    }
    Ok(())
}

/// The number of traces that have failed.
fn count_failed(entries: &[Entry<'_>]) -> usize
    ensures { result ≡ count_by (λ l. is_failure l.1) (map listing.line_of entries.now) }
{
    entries
        .iter()
        .filter(|e| fails(Measure::Lenient, e.verdict))
        .count()
}

/// The number of traces that were not judged to their end.
fn count_skipped(entries: &[Entry<'_>]) -> usize
    ensures { result ≡ count_by (λ l. spec.is_skipped l.1) (map listing.line_of entries.now) }
{
    entries.iter().filter(|e| is_skipped(e.verdict)).count()
}

/// Adds the text before the counts of the suite.
fn push_head(text: &mut Vec<u8>, suite: &[u8]) -> Result<(), AllocError>
    ensures { OnOk result (text.new.items ≡ text.old.items ++ spec.head suite.now) }
{
    text.extend_from_slice(b"<?xml version='1.0' encoding='UTF-8'?>\n")?;
    text.extend_from_slice(b"<testsuites>\n<testsuite name=")?;
    push_quoted(text, suite)?;
    Ok(())
}

/// Adds the counts of the suite.
fn push_counts(
    text: &mut Vec<u8>,
    all: usize,
    failed: usize,
    skipped: usize,
) -> Result<(), AllocError>
    ensures { OnOk result (text.new.items ≡ text.old.items ++ spec.counts all failed skipped) }
{
    push_counted(text, " tests=", all)?;
    push_counted(text, " failures=", failed)?;
    text.extend_from_slice(b" errors='0'")?;
    push_counted(text, " skipped=", skipped)?;
    text.extend_from_slice(b">\n")?;
    Ok(())
}

/// Adds a byte of a text between tags or quotes. A byte that has a meaning in XML, or no place
/// there, is written as an entity or `?`.
fn push_escaped(text: &mut Vec<u8>, b: u8) -> Result<(), AllocError>
    ensures { OnOk result (text.new.items ≡ text.old.items ++ spec.escaped b) }
{
    match b {
        b'&' => text.extend_from_slice(b"&amp;"),
        b'<' => text.extend_from_slice(b"&lt;"),
        b'>' => text.extend_from_slice(b"&gt;"),
        b'\'' => text.extend_from_slice(b"&apos;"),
        b'\t' | b'\n' | b' '..=b'~' => text.extend_from_slice(&[b]),
        _ => text.extend_from_slice(b"?"),
    }
}

/// Adds the remarks beside a report, if there are any.
fn push_remarks(text: &mut Vec<u8>, remarks: &[u8]) -> Result<(), AllocError>
    ensures { OnOk result (text.new.items ≡ text.old.items ++ spec.said_beside remarks.now) }
{
    if remarks.is_empty() {
        return Ok(());
    }
    text.extend_from_slice(b"<system-err>")?;
    push_all_escaped(text, remarks)?;
    text.extend_from_slice(b"</system-err>\n")?;
    Ok(())
}

/// Adds the bytes of a text between tags or quotes.
fn push_all_escaped(text: &mut Vec<u8>, bytes: &[u8]) -> Result<(), AllocError>
    ensures { OnOk result (text.new.items ≡ text.old.items ++ flat_map spec.escaped bytes.now) }
{
    for b in bytes {
        push_escaped(text, *b)?;
    }
    Ok(())
}

/// A report as JUnit XML, where the name of the suite is escaped already.
fn junit_named(
    alloc: Global,
    suite: &[u8],
    entries: &[Entry<'_>],
    remarks: &[u8],
) -> Result<Vec<u8>, AllocError>
    ensures { IfOk result (λ text.
        text.items ≡ spec.junit_named suite.now (map listing.line_of entries.now) remarks.now) }
{
    let mut text = Vec::new(alloc);
    push_head(&mut text, suite)?;
    let failed = count_failed(entries);
    let skipped = count_skipped(entries);
    push_counts(&mut text, entries.len(), failed, skipped)?;
    push_testcases(&mut text, suite, entries)?;
    push_remarks(&mut text, remarks)?;
    text.extend_from_slice(b"</testsuite>\n</testsuites>\n")?;
    Ok(text)
}

/// A report as JUnit XML: one suite of this name, and a case for each trace. A fault, an undefined
/// value and a false property are failures; a broken assumption is a case that was skipped. The
/// remarks beside the report are the `system-err` of the suite.
///
/// ```text
/// <testcase classname='main' name='stuck'><failure type='false' message='false 7'/></testcase>
/// ```
pub fn junit(
    alloc: Global,
    suite: &str,
    entries: &[Entry<'_>],
    remarks: &[u8],
) -> Result<Vec<u8>, AllocError>
    ensures { IfOk result (λ text.
        text.items ≡ spec.junit_of suite.now (map listing.line_of entries.now) remarks.now) }
{
    let mut name = Vec::new(alloc);
    push_all_escaped(&mut name, suite.as_bytes())?;
    junit_named(alloc, name.as_slice(), entries, remarks)
}
