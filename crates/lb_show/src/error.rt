//! The reasons why the values of a trace are not shown.

use std::alloc::{AllocError, AllocFailed};

/// The reason why the values of a trace are not shown.
#[derive(Debug, Drop, thiserror::Error)]
pub enum ShowError {
    /// Memory ran out (E0).
    #[error("memory ran out")]
    Memory,
    /// No trace has the name (E20).
    #[error("no trace has the name")]
    UnknownTrace,
    /// No variable has the name at this place of the selection (E20).
    #[error("no variable has the name at place {0}")]
    UnknownVariable(usize),
}

impl From<AllocError> for ShowError {
    ghost use Rattle.std.specs.Prelude.{◌≡◌};
    ghost use Rattle.lb_show.specs.declared.error.ShowError.TheVariants.{Memory};

    ghost from_gives = { λ _ e. e ≡ Memory };

    fn from(_e: AllocError) -> ShowError {
        ShowError::Memory
    }
}

impl<T: Drop> From<AllocFailed<T>> for ShowError {
    ghost use Rattle.std.specs.Prelude.{◌≡◌};
    ghost use Rattle.lb_show.specs.declared.error.ShowError.TheVariants.{Memory};

    ghost from_gives = { λ _ e. e ≡ Memory };

    fn from(_e: AllocFailed<T>) -> ShowError {
        ShowError::Memory
    }
}
