//! The place at which a text is refused.
ghost use Rattle.std.specs.Prelude.{◌≡◌, ◌≤◌, ◌-◌, length};

use crate::refusal::TextRefusal;
use thiserror::Error;

/// A refusal, and the number of bytes from the refused place to the end of the text.
#[derive(Clone, Copy, Debug, PartialEq, Eq, Error)]
#[error("{refusal}, with {left} bytes left")]
pub struct Fault {
    pub refusal: TextRefusal,
    pub left: usize,
}

impl Fault {
    /// Returns the fault for `refusal` at the start of `rest`.
    pub fn at(refusal: TextRefusal, rest: &[u8]) -> Fault
        ensures refusal { result.refusal ≡ refusal }
        ensures left { result.left ≡ length rest.now }
    {
        Fault {
            refusal,
            left: rest.len(),
        }
    }

    /// Returns the byte offset of the fault in `text`.
    pub fn offset(&self, text: &[u8]) -> usize
        ensures is { result ≡ length text.now - self.now.left }
        ensures within { result ≤ length text.now }
    {
        text.len().saturating_sub(self.left)
    }
}
