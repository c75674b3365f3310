//! The reading of a report.

ghost use Rattle.std.specs.Prelude.{◌≡◌, ◌↔◌, List, IfOk, IfErr, IsTrue};
ghost use Rattle.lb_listing.specs.Indexed as indexed;
ghost use Rattle.lb_listing.specs.Listings as spec;

use crate::line::next_entry;
use crate::listing::Listing;
use crate::text::push_total;
use std::alloc::{AllocError, Global};
use std::fmt;
use thiserror::Error;

/// The reasons why a text is not read as a report.
#[derive(Drop, Error)]
pub enum ListingError {
    /// E0: a growth was refused.
    #[error(transparent)]
    Memory(AllocError),
    /// The text is no report; this is the first line that shows it, counted from 1.
    #[error("line {0} goes on no report")]
    Fault(usize),
}

impl From<AllocError> for ListingError {
    ghost use Rattle.lb_listing.specs.declared.read.ListingError.TheVariants.{Memory};

    ghost from_gives = { λ cause e. e ≡ Memory cause };

    fn from(cause: AllocError) -> ListingError {
        ListingError::Memory(cause)
    }
}

impl fmt::Debug for ListingError {
    fn fmt<W: fmt::Write>(&self, f: &mut fmt::Formatter<W>) -> fmt::Result {
        fmt::Display::fmt(self, f)
    }
}

/// Whether two texts are the same.
fn is_text(a: &[u8], b: &[u8]) -> bool
    ensures { IsTrue result ↔ (b.now ≡ a.now) }
{
    a == b
}

/// Whether a text ends the report on the traces of a list.
fn is_end(alloc: Global, listing: &Listing<'_>, text: &[u8]) -> Result<bool, AllocError>
    ensures { IfOk result (λ ends.
        IsTrue ends ↔ (text.now ≡ spec.total_of (indexed.listed listing.now))) }
{
    let mut total = Vec::new(alloc);
    push_total(&mut total, listing.entries.as_slice())?;
    Ok(is_text(total.as_slice(), text))
}

/// The list of a report. A text that is no report is refused, also one that is cut short, has other
/// counts than its lines, or has a trace twice.
pub fn read_listing(alloc: Global, text: &[u8]) -> Result<Listing<'_>, ListingError>
    ensures lists { IfOk result (λ found. spec.Lists text.now (indexed.listed found)) }
    ensures only { IfOk result (λ found. (other : List spec.Line) → spec.Lists text.now other
        → other ≡ indexed.listed found) }
    ensures indexed { IfOk result indexed.IsIndexed }
    ensures refused { IfErr result (spec.IsRefused text.now) }
{
    let mut listing = Listing::new(alloc);
    let mut rest = text;
    while let Some((entry, more)) = next_entry(rest) {
        if !listing.push(entry)? {
            return Err(ListingError::Fault(listing.entries.len() + 1));
        }
        rest = more;
    }
    if is_end(alloc, &listing, rest)? {
        Ok(listing)
    } else {
        Err(ListingError::Fault(listing.entries.len() + 1))
    }
}
