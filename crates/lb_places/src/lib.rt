//! Places in the texts that an explanation speaks of: the one with which it begins, the record of a
//! trace text that it is about, and the input that a column is of. What is wired where, and colours
//! for a terminal, stand here too.
#![tactic(auto)]

mod blocks;
mod cell_states;
mod colour;
mod first_cells;
mod first_places;
mod inputs;
mod quoted_scan;
mod record_scan;
mod records;
mod texts;
mod wiring;

pub use blocks::{BLOCK, places_of};
pub use cell_states::CellState;
pub use colour::Painted;
pub use first_places::head_of;
pub use inputs::input_named;
pub use records::{Cursor, Goal, find_record, header_and_record};
pub use texts::Text;
pub use wiring::wiring_warnings;
