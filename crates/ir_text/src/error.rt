//! The errors of reading a text, with their offsets.
ghost use Rattle.std.specs.Prelude.{◌≡◌, length};
ghost use Rattle.ir_text_types.specs.declared.error.ReadError.{ReadError as Inner};
ghost use Rattle.ir_text.specs.Answers.{IsTextRefusal, error_at};

use ir_text_types::error;
use ir_types::refusal::Refusal;
use thiserror::Error;

/// Why a text isn't read.
#[derive(Clone, Copy, Debug, PartialEq, Eq, Error)]
pub enum ReadError {
    /// Memory ran out.
    #[error("memory was refused")]
    Memory,
    /// The context is full.
    #[error("the context is full at byte {offset}")]
    Full { offset: usize },
    /// The text is refused.
    #[error("{refusal} at byte {offset}")]
    Refused { refusal: Refusal, offset: usize },
}

impl ReadError {
    /// Converts an error with the number of bytes left into one with an offset in `bytes`.
    #[tactic(auto, using(crate::proofs::Errors::error_reported))]
    pub(crate) fn at(error: error::ReadError, bytes: &[u8]) -> ReadError
        ensures is { result ≡ error_at (length bytes.now) error }
        ensures reported { IsTextRefusal bytes.now result }
    {
        match error {
            error::ReadError::Memory => ReadError::Memory,
            error::ReadError::Full(left) => ReadError::Full {
                offset: bytes.len().saturating_sub(left),
            },
            error::ReadError::Refused(fault) => ReadError::Refused {
                refusal: fault.refusal.refusal(),
                offset: fault.offset(bytes),
            },
        }
    }
}
