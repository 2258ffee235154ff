//! Comma-separated lists.
ghost use Rattle.ir_text_names.specs.ListSteps.{IsAfter};

use ir_text_tokens::token::Mark;
use ir_text_types::error::ReadError;
use ir_text_types::steps::{after, expect};

/// What follows an item of a list.
#[derive(Clone, Copy)]
pub enum AfterItem<'a> {
    /// The closing mark. The bytes are the rest of the text after it.
    End(&'a [u8]),
    /// A comma. The bytes are the rest of the text, from the next item on.
    More(&'a [u8]),
}

/// Returns what follows an item of a list with the closing mark `close`. Refuses any other token with `Unexpected`.
#[inline(always)]
pub fn after_item(bytes: &[u8], close: Mark) -> Result<AfterItem<'_>, ReadError>
    ensures { IsAfter close bytes.now result }
{
    if let Some(rest) = after(bytes, close) {
        return Ok(AfterItem::End(rest));
    }
    match expect(bytes, Mark::Comma) {
        Ok(rest) => Ok(AfterItem::More(rest)),
        Err(e) => Err(e),
    }
}
