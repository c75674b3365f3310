//! The reasons why words make no request.

use std::alloc::AllocError;

/// The reason why words make no request.
#[derive(Debug, Drop, thiserror::Error)]
pub enum WordsError {
    /// Memory ran out (E0).
    #[error("memory ran out")]
    Memory,
    /// The command line is not one that the program knows (E20).
    #[error("the command line is not one that the program knows")]
    Unlawful,
}

impl From<AllocError> for WordsError {
    ghost use Rattle.std.specs.Prelude.{◌≡◌};
    ghost use Rattle.lb_words.specs.declared.error.WordsError.TheVariants.{Memory};

    ghost from_gives = { λ _ e. e ≡ Memory };

    fn from(_e: AllocError) -> WordsError {
        WordsError::Memory
    }
}
