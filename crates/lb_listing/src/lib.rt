//! Reports as lists of traces and their verdicts: read back from their text, compared with an
//! earlier one, and written as JUnit XML.
#![tactic(auto)]

mod comparison;
mod entry;
mod junit_text;
mod line;
mod listing;
mod merge_text;
mod read;
mod status;
mod text;

pub use comparison::{Comparison, compare};
pub use entry::Entry;
pub use junit_text::junit;
pub use listing::Listing;
pub use merge_text::{MergeError, merge};
pub use read::{ListingError, read_listing};
pub use status::{Measure, status_by};
