//! Why a program is not expanded.

ghost use Rattle.std.specs.Prelude.{◌≡◌};

use std::alloc::{AllocError, AllocFailed};

/// The size of a program that is too large (E12).
#[derive(Clone, Copy, PartialEq, Eq, Debug)]
pub struct SizeFault {
    /// How many scalar elements its variables and expressions have together, in all instances.
    pub size: u64,
    /// Whether the true size may be greater: expressions whose elements alone are over the limit
    /// are not counted.
    pub is_least: bool,
    /// The greatest size that is accepted.
    pub limit: u32,
}

/// Why a program is not expanded.
#[derive(Debug, Drop, thiserror::Error)]
pub enum FlatError {
    /// Memory ran out (E0).
    #[error("memory ran out")]
    Memory,
    /// The size of the expanded program is over 65,536 (E12).
    #[error("the expanded program is too large")]
    Large(SizeFault),
}

impl From<AllocError> for FlatError {
    ghost use Rattle.lb_expand.specs.declared.error.FlatError.TheVariants.{Memory};

    ghost from_gives = { λ _ e. e ≡ Memory };

    fn from(_e: AllocError) -> FlatError {
        FlatError::Memory
    }
}

impl<T: Drop> From<AllocFailed<T>> for FlatError {
    ghost use Rattle.lb_expand.specs.declared.error.FlatError.TheVariants.{Memory};

    ghost from_gives = { λ _ e. e ≡ Memory };

    fn from(_e: AllocFailed<T>) -> FlatError {
        FlatError::Memory
    }
}
