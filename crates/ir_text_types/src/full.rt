//! Whether a context is full.
ghost use Rattle.std.specs.Prelude.{◌≡◌, ◌⊎◌, ℕ, IsTrue};
ghost use Rattle.ir_text_types.specs.Laws.{IsFull};

use crate::error::ReadError;
use ir_types::context::Context;
use ir_types::ids::{AttrId, NameId, TypeId};
use ir_types::limits::MOST_THINGS;

/// The largest id of a name, a type or an attribute.
const LAST: u32 = MOST_THINGS - 1;

/// Returns whether the context has the maximum number of names, types or attributes.
pub fn is_full(ctx: &Context) -> bool
    ensures { IsTrue result → IsFull ctx.now }
{
    ctx.has_name(NameId::new(LAST))
        || ctx.has_type(TypeId::new(LAST))
        || ctx.has_attr(AttrId::new(LAST))
}

/// Returns `error`, or `Memory` if `error` is `Full` and the context isn't full. `ctx` is the context at the error.
pub fn check_full(ctx: &Context, error: ReadError) -> ReadError
    ensures kept { (result ≡ error) ⊎ (result ≡ ReadError.Memory) }
    ensures full { (left : ℕ) → result ≡ ReadError.Full left → IsFull ctx.now }
{
    match error {
        ReadError::Full(left) => {
            if is_full(ctx) {
                ReadError::Full(left)
            } else {
                ReadError::Memory
            }
        }
        ReadError::Memory => ReadError::Memory,
        ReadError::Refused(fault) => ReadError::Refused(fault),
    }
}
