//! One attribute as a whole text. Language Reference, "Attributes".
ghost use Rattle.std.specs.Prelude.{◌≡◌, ℕ, IfOk, Err};
ghost use Rattle.ir_types.specs.Things.{IsExtendedBy};
ghost use Rattle.ir_text_tokens.specs.declared.fault.Fault.{Fault as TextFault};
ghost use Rattle.ir_text_types.specs.Laws.{IsFull};
ghost use Rattle.ir_text_types.specs.Outcomes.{Returns};
ghost use Rattle.ir_text_attributes.specs.SingleReading.{single_attr_at};
ghost use Rattle.ir_text_attributes.specs.Spelling.{SpellsAttr};
ghost use Rattle.ir_text_attributes.specs.Claims.{IsOnlyAttr, IsNoAttr};

use crate::attributes::attr;
use ir_text_tokens::token::Mark;
use ir_text_types::error::{ReadError, within_limits};
use ir_text_types::full::check_full;
use ir_text_types::steps::expect;
use ir_types::context::Context;
use ir_types::ids::AttrId;
use ir_types::limits::MOST_DEPTH;
use std::alloc::Global;

/// Parses an attribute that is followed by the end of the text.
#[tactic(auto, using(ir_types::proofs::Growth::grows_refl, ir_types::proofs::Growth::grows_trans), unfolding(crate::specs::SingleReading::single_attr_at))]
fn single(alloc: Global, ctx: &mut Context, bytes: &[u8], opaque: bool) -> Result<AttrId, ReadError>
    ensures reads { Returns (λ n. (n, ctx.new)) result (single_attr_at opaque bytes.now ctx.old) }
    ensures grows { IsExtendedBy ctx.old ctx.new }
{
    let (id, rest) = match attr(alloc, ctx, bytes, opaque, MOST_DEPTH) {
        Ok(found) => found,
        Err(e) => return Err(e),
    };
    match expect(rest, Mark::End) {
        Ok(_) => Ok(id),
        Err(e) => Err(e),
    }
}

/// Parses the attribute of a text. The error may be `Full` even if the context isn't full.
#[tactic(auto, using(ir_types::proofs::Growth::grows_refl, ir_types::proofs::Growth::grows_trans))]
fn attr_of_text(
    alloc: Global,
    ctx: &mut Context,
    bytes: &[u8],
    opaque: bool,
) -> Result<AttrId, ReadError>
    ensures read { IfOk result (λ n. IsOnlyAttr (SpellsAttr opaque bytes.now) ctx.new n) }
    ensures grows { IsExtendedBy ctx.old ctx.new }
    ensures refused { (f : TextFault) → result ≡ Err (ReadError.Refused f) → IsNoAttr (SpellsAttr opaque bytes.now) }
{
    match within_limits(bytes) {
        Ok(()) => {}
        Err(error) => return Err(error),
    }
    ctx.sound();
    match single(alloc, ctx, bytes, opaque) {
        Ok(id) => Ok(id),
        Err(e) => Err(e),
    }
}

/// Parses the attribute of a text, which has nothing after the attribute. The attribute and its parts are interned.
/// The context only grows, on success and on errors.
///
/// `Refused` has the fault and the number of bytes left at the fault. Such a text is no attribute. Refusals:
/// `TooMany` for a text over its limit, and `NotUtf8`; those of attributes; `Unexpected` for a token after the
/// attribute. `Full` is returned if the context fills up, and `Memory` if memory runs out.
pub fn parse_attr(
    alloc: Global,
    ctx: &mut Context,
    bytes: &[u8],
    opaque: bool,
) -> Result<AttrId, ReadError>
    ensures read { IfOk result (λ n. IsOnlyAttr (SpellsAttr opaque bytes.now) ctx.new n) }
    ensures grows { IsExtendedBy ctx.old ctx.new }
    ensures refused { (f : TextFault) → result ≡ Err (ReadError.Refused f) → IsNoAttr (SpellsAttr opaque bytes.now) }
    ensures full { (left : ℕ) → result ≡ Err (ReadError.Full left) → IsFull ctx.new }
{
    match attr_of_text(alloc, ctx, bytes, opaque) {
        Ok(id) => Ok(id),
        Err(e) => Err(check_full(ctx, e)),
    }
}
