//! Expansion: nodes, arrays and iterators become equations on scalar elements.
#![tactic(auto)]

mod children;
mod clocks;
mod cycle_places;
mod error;
mod expansion;
mod layout;
mod row_frame;
mod table_size;
mod temporary_kinds;
mod variable_kinds;

pub use cycle_places::with_places;
pub use error::{FlatError, SizeFault};
pub use expansion::expand;
