//! The causes of refusals: why and where a program breaks a rule of types, clocks or definitions,
//! with the types or clocks that are found and wanted there.
//!
//! A cause is looked for once it is certain that the program is refused. So it costs nothing where
//! nothing is refused.
#![tactic(auto)]

mod call_reason;
mod cause;
mod checker;
mod clock_cause;
mod clock_fault;
mod clock_reason;
mod compared_types;
mod definition_cause;
mod definition_fault;
mod error;
mod sites;
mod told_types;
mod type_cause;
mod type_fault;
mod type_reason;

pub use checker::check_with_cause;
pub use clock_fault::{ClockFault, ClockRule, ClockSign, SourceClock};
pub use definition_fault::{DefinitionFault, DefinitionRule};
pub use error::CheckError;
pub use type_fault::{SourceType, TypeFault, TypeRule};
