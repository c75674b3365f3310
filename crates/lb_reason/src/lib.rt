//! The reason why a trace does not pass, as elements of its flat program: one that decides the
//! verdict, and behind each the one that decides it.
#![tactic(auto)]

mod deciding;
mod finding;
mod laws;
mod moment;

pub use deciding::given_by;
pub use finding::{Reason, Step, find_reason};
pub use laws::reasons_lead_to_where_they_arise;
pub use moment::Moment;
