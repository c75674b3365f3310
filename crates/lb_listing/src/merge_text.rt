//! The merge of several reports into one.

ghost use Rattle.std.specs.Prelude.{◌≡◌, ◌++◌, List, IfErr, IfNone, IfOk, IfSome, OnOk, map};
ghost use Rattle.lb_listing.specs.Listings as listing;
ghost use Rattle.lb_listing.specs.Merged as spec;

use crate::entry::Entry;
use crate::read::{ListingError, read_listing};
use crate::text::{push_lines, push_total};
use std::alloc::{AllocError, Global};
use std::fmt;
use thiserror::Error;

/// The reasons why reports are not merged. Files are counted from 0, lines from 1.
#[derive(Drop, Error)]
pub enum MergeError {
    /// E0: a growth was refused.
    #[error(transparent)]
    Memory(AllocError),
    /// E20: a file is no report; `line` is the first of its lines that shows it.
    #[error("line {line} of file {file} goes on no report")]
    Fault { file: usize, line: usize },
    /// E17: a trace of an earlier file comes back in this line of a file.
    #[error("the trace in line {line} of file {file} is in an earlier file")]
    Twice { file: usize, line: usize },
}

impl From<AllocError> for MergeError {
    ghost use Rattle.lb_listing.specs.declared.merge_text.MergeError.TheVariants.{Memory};

    ghost from_gives = { λ cause e. e ≡ Memory cause };

    fn from(cause: AllocError) -> MergeError {
        MergeError::Memory(cause)
    }
}

impl fmt::Debug for MergeError {
    fn fmt<W: fmt::Write>(&self, f: &mut fmt::Formatter<W>) -> fmt::Result {
        fmt::Display::fmt(self, f)
    }
}

/// The traces of some reports, one report after the other, and the text of their lines.
#[derive(Drop)]
struct Joined<'a> {
    entries: Vec<Entry<'a>>,
    text: Vec<u8>,
    /// The number of traces of each report.
    counts: Vec<usize>,
}

impl Joined<'_> {
    /// The text of the lines, without the entries.
    fn into_text(self) -> Vec<u8>
        ensures { result ≡ self.entry.text }
    {
        let Joined {
            entries: _entries,
            text,
            counts: _counts,
        } = self;
        text
    }
}

/// Adds the traces of a report.
fn add_report<'a>(joined: &mut Joined<'a>, entries: &[Entry<'a>]) -> Result<(), AllocError>
    ensures entries { OnOk result (joined.new.entries.items
        ≡ joined.old.entries.items ++ entries.now) }
    ensures text { OnOk result (joined.new.text.items
        ≡ joined.old.text.items ++ listing.lines_of (map listing.line_of entries.now)) }
{
    joined.counts.push(entries.len())?;
    joined.entries.extend_from_slice(entries)?;
    push_lines(&mut joined.text, entries)
}

/// The file of a trace, counted from 0, and its line there, counted from 1.
fn place_of(counts: &[usize], place: usize) -> (usize, usize) {
    let mut place = place;
    for (file, count) in counts.iter().enumerate() {
        if place < *count {
            return (file, place.saturating_add(1));
        }
        place = place.saturating_sub(*count);
    }
    (counts.len(), place.saturating_add(1))
}

/// The lines of all reports.
fn join<'a>(alloc: Global, texts: &'a [Vec<u8>]) -> Result<Joined<'a>, MergeError>
    ensures ok { IfOk result (λ joined. spec.AreJoined (spec.texts_of texts.entry.now)
        (map listing.line_of joined.entries.items)
        joined.text.items) }
    ensures err { IfErr result (spec.IsUnmerged (spec.texts_of texts.entry.now)) }
{
    let mut joined = Joined {
        entries: Vec::new(alloc),
        text: Vec::new(alloc),
        counts: Vec::new(alloc),
    };
    for (file, text) in texts.iter().enumerate() {
        match read_listing(alloc, text.as_slice()) {
            Ok(found) => add_report(&mut joined, found.entries.as_slice())?,
            Err(ListingError::Memory(cause)) => return Err(MergeError::Memory(cause)),
            Err(ListingError::Fault(line)) => return Err(MergeError::Fault { file, line }),
        }
    }
    Ok(joined)
}

/// Adds the last line.
fn push_last(joined: &mut Joined<'_>) -> Result<(), AllocError>
    ensures entries { joined.new.entries ≡ joined.old.entries }
    ensures text { OnOk result (joined.new.text.items ≡ joined.old.text.items
        ++ listing.total_of (map listing.line_of joined.old.entries.items)) }
{
    push_total(&mut joined.text, joined.entries.as_slice())
}

/// The lines of all reports, and the last line behind them.
fn join_all<'a>(alloc: Global, texts: &'a [Vec<u8>]) -> Result<Joined<'a>, MergeError>
    ensures ok { IfOk result (λ joined. spec.IsWhole (spec.texts_of texts.entry.now)
        joined.text.items) }
    ensures err { IfErr result (spec.IsUnmerged (spec.texts_of texts.entry.now)) }
{
    let mut joined = join(alloc, texts)?;
    push_last(&mut joined)?;
    Ok(joined)
}

/// The first line that shows that a text is no report, if it is none.
fn first_fault(alloc: Global, text: &[u8]) -> Result<Option<usize>, AllocError>
    ensures none { IfOk result (λ fault. IfNone fault ((listed : List listing.Line)
        × listing.Lists text.now listed)) }
    ensures some { IfOk result (λ fault. IfSome fault (listing.IsFault text.now)) }
{
    match read_listing(alloc, text) {
        Ok(_) => Ok(None),
        Err(ListingError::Memory(cause)) => Err(cause),
        Err(ListingError::Fault(line)) => Ok(Some(line)),
    }
}

/// The one report on the traces of several reports, in their order. Each text has to be a report,
/// and no trace may be in two of them.
pub fn merge(alloc: Global, texts: &[Vec<u8>]) -> Result<Vec<u8>, MergeError>
    ensures ok { IfOk result (λ text. spec.IsMerged (spec.texts_of texts.now) text.items) }
    ensures err { IfErr result (spec.IsUnmerged (spec.texts_of texts.now)) }
{
    let joined = join_all(alloc, texts)?;
    match first_fault(alloc, joined.text.as_slice())? {
        None => Ok(joined.into_text()),
        Some(line) => {
            let (file, line) = place_of(joined.counts.as_slice(), line.saturating_sub(1));
            Err(MergeError::Twice { file, line })
        }
    }
}
