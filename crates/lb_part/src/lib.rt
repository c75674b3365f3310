//! A part of a trace text: the traces that begin in a range of its bytes.
//!
//! ```text
//! trace,x | a,1 | a,5 | b,0 | b,2 | c,7
//!           `-- 1 of 2 ------' `- 2 of 2     b begins in the first half of the bytes
//! ```
#![tactic(auto)]

mod head;
mod load;
mod part;
mod range;
mod skips;
mod window;

pub use load::{PartError, load_part};
pub use part::Part;
pub use range::{FileRanges, RangeFailed, Ranges, TextRanges};
pub use skips::{Skipped, count_skipped};
