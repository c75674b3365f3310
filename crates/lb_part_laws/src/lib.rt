//! Laws of parts: the traces that the parts of a trace text spell, and their merged reports. Each
//! function is a law, and computes nothing.
#![tactic(auto)]

mod parts;
mod reports;
mod stretches;

pub use parts::parts_of_a_text_spell_its_traces;
pub use reports::reports_on_parts_are_merged_to_the_report_on_all;
pub use stretches::stretches_of_a_text_spell_its_traces;
