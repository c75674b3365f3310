//! The values of one recorded trace as comma-separated values, part by part; and what the other
//! forms of these values share with them: the elements and the instants that are shown.
#![tactic(auto)]

mod column;
mod csv;
mod player;
mod window;
mod write;

pub use column::Column;
pub use csv::CsvText;
pub use player::Player;
pub use window::{deciding, end_at, first_at, trace_named};
pub use write::{CHUNK, push, push_cell, push_integer, push_number};
