//! The errors of parsing a text.
ghost use Rattle.std.specs.Prelude.{◌≡◌, ℕ, length, None, Err, IfOk};
ghost use Rattle.std.specs.Result.{result_err};
ghost use Rattle.ir_text_tokens.specs.Limits.{text_reason};
ghost use Rattle.ir_text_tokens.specs.declared.fault.Fault.{Fault as TextFault};
ghost use Rattle.ir_text_types.specs.Errors.{error_of, text_error};
ghost use Rattle.ir_text_types.specs.declared.error.ReadError.TheVariants.{Memory};

use ir_text_tokens::fault::Fault;
use ir_text_tokens::lexer::{skip, token};
use ir_text_tokens::limits::check_text;
use ir_text_tokens::refusal::TextRefusal;
use ir_types::refusal::Refusal;
use std::alloc::{AllocError, AllocFailed};
use thiserror::Error;

/// Why a text isn't parsed.
#[derive(Clone, Copy, Debug, PartialEq, Eq, Error)]
pub enum ReadError {
    /// Memory ran out.
    #[error("memory was refused")]
    Memory,
    /// The context is full. The number is how many bytes of the text are left.
    #[error("the context is full, with {0} bytes left")]
    Full(usize),
    /// The text is refused.
    #[error(transparent)]
    Refused(Fault),
}

impl From<AllocError> for ReadError {
    ghost from_gives = { λ _ e. e ≡ Memory };

    fn from(_e: AllocError) -> ReadError {
        ReadError::Memory
    }
}

impl<T: Drop> From<AllocFailed<T>> for ReadError {
    ghost from_gives = { λ _ e. e ≡ Memory };

    fn from(_e: AllocFailed<T>) -> ReadError {
        ReadError::Memory
    }
}

/// Returns the fault `refusal` at the first byte after blanks and comments, if a token begins there. If no token
/// begins there, returns the lexer's fault instead.
pub fn wrong(refusal: TextRefusal, bytes: &[u8]) -> Fault {
    match token(bytes) {
        Ok(_) => Fault::at(refusal, skip(bytes)),
        Err(fault) => fault,
    }
}

/// Returns the error for a context that refused an entry, at the start of `rest`.
pub fn refused_by_context(refusal: Refusal, rest: &[u8]) -> ReadError
    ensures { result ≡ error_of (length rest.now) refusal }
{
    match refusal {
        Refusal::Memory => ReadError::Memory,
        Refusal::TooMany => ReadError::Full(rest.len()),
        _ => ReadError::Refused(Fault::at(TextRefusal::from_refusal(refusal), rest)),
    }
}

/// Refuses a text that is too long or isn't UTF-8, before any token is read.
pub fn within_limits(bytes: &[u8]) -> Result<(), ReadError>
    ensures error { result_err result ≡ text_error bytes.now }
    ensures ok { IfOk result (λ _. text_reason bytes.now ≡ None) }
    ensures refused { (f : TextFault) → result ≡ Err (ReadError.Refused f) → text_reason bytes.now ≡ None → ⊥ }
    ensures headroom { (left : ℕ) → result ≡ Err (ReadError.Full left) → ⊥ }
{
    match check_text(bytes) {
        Ok(()) => Ok(()),
        Err((refusal, offset)) => {
            let left = bytes.len().saturating_sub(offset);
            Err(ReadError::Refused(Fault { refusal, left }))
        }
    }
}
