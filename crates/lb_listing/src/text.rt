//! The text of the report on the traces of a list.

ghost use Rattle.std.specs.Prelude.{◌≡◌, ◌++◌, flat_map, map, OnOk};
ghost use Rattle.lb_output.specs.Reports as report;
ghost use Rattle.lb_listing.specs.Listings as spec;

use crate::entry::Entry;
use lb_output::{WORDS, place_of, push_line, push_number, push_word};
use std::alloc::AllocError;

/// Adds the lines of some traces.
pub(crate) fn push_lines(text: &mut Vec<u8>, entries: &[Entry<'_>]) -> Result<(), AllocError>
    ensures { OnOk result (text.new.items
        ≡ text.old.items ++ flat_map spec.spelled (map spec.line_of entries.now)) }
{
    for entry in entries {
        push_line(text, entry.name, entry.verdict)?;
    }
    Ok(())
}

/// The number of verdicts whose word is at `place`.
fn count_of(entries: &[Entry<'_>], place: usize) -> usize
    ensures { result ≡ report.count_of (spec.verdicts_of (map spec.line_of entries.now)) place }
{
    entries
        .iter()
        .filter(|e| place_of(e.verdict) == place)
        .count()
}

/// Adds the last line.
pub(crate) fn push_total(text: &mut Vec<u8>, entries: &[Entry<'_>]) -> Result<(), AllocError>
    ensures { OnOk result (text.new.items
        ≡ text.old.items ++ report.total (spec.verdicts_of (map spec.line_of entries.now))) }
{
    text.extend_from_slice(b"total")?;
    push_number(text, entries.len())?;
    for place in 0..WORDS {
        push_word(text, place)?;
        push_number(text, count_of(entries, place))?;
    }
    text.extend_from_slice(b"\n")
}
