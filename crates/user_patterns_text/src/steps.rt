//! Reads the next token, or refuses it.
ghost use Rattle.std.specs.Prelude.{◌≡◌};
ghost use Rattle.ir_text_tokens.specs.Tokens.{lexeme_of};
ghost use Rattle.user_patterns_text.specs.Refusing.{Returns, begins, trailing, fault, token_at, wrong};

use crate::error::PatternError;
use crate::errors::bad_left;
use ir_text_tokens::fault::Fault;
use ir_text_tokens::lexer::{self, skip};
use ir_text_tokens::refusal::TextRefusal;
use ir_text_tokens::token::{Mark, Token};
use ir_text_types::steps::after;

/// Returns how many bytes are left at the first byte that isn't blank.
pub(crate) fn begins(bytes: &[u8]) -> usize
    ensures { result ≡ begins bytes.now }
{
    skip(bytes).len()
}

/// Returns the error of a refusal at which `left` bytes are left.
pub fn refused(refusal: TextRefusal, left: usize) -> PatternError
    ensures { result ≡ PatternError.Refused (fault refusal left) }
{
    PatternError::Refused(Fault { refusal, left })
}

/// Returns the next token and the rest of the text after it. Refuses with `BadToken` if no token begins there.
#[tactic(auto, unfolding(crate::specs::Refusing::token_at))]
pub(crate) fn token(bytes: &[u8]) -> Result<(Token<'_>, &[u8]), PatternError>
    ensures { Returns (λ x. (lexeme_of x.0, x.1.now)) result (token_at bytes.now) }
{
    match lexer::token(bytes) {
        Ok(found) => Ok(found),
        Err(_) => Err(refused(TextRefusal::BadToken, bad_left(bytes))),
    }
}

/// Returns the error that refuses the next token, which is `BadToken` if no token begins there.
#[tactic(auto, unfolding(crate::specs::Refusing::wrong))]
pub(crate) fn wrong(refusal: TextRefusal, bytes: &[u8]) -> PatternError
    ensures { result ≡ PatternError.Refused (wrong refusal bytes.now) }
{
    match lexer::token(bytes) {
        Ok(_) => refused(refusal, begins(bytes)),
        Err(_) => refused(TextRefusal::BadToken, bad_left(bytes)),
    }
}

/// Returns the rest of the text after `mark`. Refuses with `Unexpected` if the next token isn't `mark`.
#[tactic(auto, unfolding(crate::specs::Refusing::trailing))]
pub(crate) fn expect(bytes: &[u8], mark: Mark) -> Result<&[u8], PatternError>
    ensures { Returns (λ r. r.now) result (trailing mark bytes.now) }
{
    match after(bytes, mark) {
        Some(rest) => Ok(rest),
        None => Err(wrong(TextRefusal::Unexpected, bytes)),
    }
}
