//! Explanations of refusals for a person to read: place, cause and mend.
//! All of this is done after a refusal, from the error and the texts. The first place is written as
//! `pump.lus:14:13: error: ..`, which editors can jump to, with the line of the text.
#![tactic(auto)]

mod bytes;
mod calls;
mod cells;
mod characters;
mod clock_places;
mod clocks;
mod columns;
mod context;
mod counts;
mod cycles;
mod declared;
mod definitions;
mod excerpt;
mod expansion;
mod explanation;
mod headings;
mod instants;
mod interfaces;
mod landmarks;
mod lexeme;
mod marking;
mod mistakes;
mod names;
mod near;
mod page;
mod paths;
mod program_errors;
mod quoted;
mod roots;
mod sizes;
mod statements;
mod syntax;
mod texts;
mod trace_limits;
mod trace_names;
mod types;
mod values;
mod words;

pub use explanation::explain;
pub use lb_places::{Painted, Text, wiring_warnings};
