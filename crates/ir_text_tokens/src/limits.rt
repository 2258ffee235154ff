//! The limits of a text.
ghost use Rattle.std.specs.Prelude.{◌≡◌};
ghost use Rattle.std.specs.Result.{result_err};
ghost use Rattle.ir_text_tokens.specs.Limits.{most_bytes, text_reason};

use crate::refusal::TextRefusal;
use std::str::from_utf8;

/// The maximum length of a text in bytes.
pub const MOST_BYTES: usize = 16_777_216;

/// Refuses a text of more than `MOST_BYTES` bytes at the first byte past the limit, and a text that isn't UTF-8 at
/// its first invalid byte.
pub fn check_text(bytes: &[u8]) -> Result<(), (TextRefusal, usize)>
    ensures { result_err result ≡ text_reason bytes.now }
{
    if bytes.len() > MOST_BYTES {
        return Err((TextRefusal::TooMany, MOST_BYTES));
    }
    match from_utf8(bytes) {
        Ok(_) => Ok(()),
        Err(error) => Err((TextRefusal::NotUtf8, error.valid_up_to())),
    }
}
