//! The reasons why the text of a pattern can't be read.
ghost use Rattle.std.specs.Prelude.{◌≡◌};
ghost use Rattle.user_patterns_text.specs.declared.error.PatternError.TheVariants.{Memory};

use ir_text_tokens::fault::Fault;
use std::alloc::{AllocError, AllocFailed};
use thiserror::Error;

/// The reason why the text of a pattern can't be read.
#[derive(Clone, Copy, Debug, PartialEq, Eq, Error)]
pub enum PatternError {
    /// Memory ran out.
    #[error("memory was refused")]
    Memory,
    /// The text isn't in the language: the refusal, and how many bytes of the text are left at it.
    #[error(transparent)]
    Refused(Fault),
}

impl From<AllocError> for PatternError {
    ghost from_gives = { λ _ e. e ≡ Memory };

    fn from(_e: AllocError) -> PatternError {
        PatternError::Memory
    }
}

impl<T: Drop> From<AllocFailed<T>> for PatternError {
    ghost from_gives = { λ _ e. e ≡ Memory };

    fn from(_e: AllocFailed<T>) -> PatternError {
        PatternError::Memory
    }
}
