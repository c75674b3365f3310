//! The error of a check.

use crate::clock_fault::ClockFault;
use crate::definition_fault::DefinitionFault;
use crate::type_fault::TypeFault;
use std::alloc::AllocError;
use std::fmt;

/// The rule of types, clocks or definitions that a program breaks first.
///
/// Names, static values and instances were judged before, by `lb_static`. What comes later, the
/// size of the program and its cycles, is judged by `lb_expand` and `lb_flat`.
#[derive(thiserror::Error)]
pub enum CheckError {
    /// Memory ran out (E0).
    #[error("memory ran out")]
    Memory,
    /// A rule of types is broken (E9).
    #[error("{0}")]
    Type(Box<TypeFault>),
    /// A rule of clocks is broken (E10).
    #[error("{0}")]
    Clock(Box<ClockFault>),
    /// A variable has not exactly one definition, or a function has memory (E11).
    #[error("{0}")]
    Definition(Box<DefinitionFault>),
}

// Not derived, so that a caller drops it in one step.
impl Drop for CheckError {
    fn drop(self) {
        match self {
            CheckError::Memory => {}
            CheckError::Type(_) => {}
            CheckError::Clock(_) => {}
            CheckError::Definition(_) => {}
        }
    }
}

impl fmt::Debug for CheckError {
    fn fmt<W: fmt::Write>(&self, f: &mut fmt::Formatter<W>) -> Result<(), fmt::Error> {
        fmt::Display::fmt(self, f)
    }
}

impl From<AllocError> for CheckError {
    ghost use Rattle.std.specs.Prelude.{◌≡◌};
    ghost use Rattle.lb_cause.specs.declared.error.CheckError.TheVariants.{Memory};

    ghost from_gives = { λ _ e. e ≡ Memory };

    fn from(_e: AllocError) -> CheckError {
        CheckError::Memory
    }
}
