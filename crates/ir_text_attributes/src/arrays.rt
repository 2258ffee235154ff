//! Arrays. Builtin Dialect, "ArrayAttr".
ghost use Rattle.std.specs.Prelude.{◌≡◌};
ghost use Rattle.ir_types.specs.Things.{IsExtendedBy};
ghost use Rattle.ir_text_types.specs.Outcomes.{Returns};
ghost use Rattle.ir_text_attributes.specs.AttrReading.{attrs_by, array_by, attr_at};

use crate::attributes::{attr, intern_node};
use ir_text_tokens::refusal::TextRefusal;
use ir_text_tokens::token::Mark;
use ir_text_types::error::{ReadError, wrong};
use ir_text_types::steps::{after, expect};
use ir_text_types::types::MANY;
use ir_types::context::Context;
use ir_types::ids::AttrId;
use ir_types::node::AttrNode;
use ir_types_interner::lists::Items;
use std::alloc::Global;

/// Parses attributes up to a closing bracket.
#[cycle(attr)]
#[tactic(auto, using(ir_types::proofs::Growth::grows_refl, ir_types::proofs::Growth::grows_trans), unfolding(ir_text_types::specs::Lists::list_at, crate::specs::AttrReading::attrs_by))]
fn attrs<'a>(
    alloc: Global,
    ctx: &mut Context,
    bytes: &'a [u8],
    opaque: bool,
    depth: u32,
) -> Result<(Vec<AttrId>, &'a [u8]), ReadError>
    ensures reads { Returns (λ x. (x.0.items, (x.1.now, ctx.new))) result (attrs_by depth (attr_at opaque depth) (bytes.now, ctx.old)) }
    ensures grows { IsExtendedBy ctx.old ctx.new }
{
    let mut items = Vec::new(alloc);
    if let Some(rest) = after(bytes, Mark::CloseSquare) {
        return Ok((items, rest));
    }
    let mut rest = bytes;
    'items: for _ in 0..MANY {
        let (item, tail) = match attr(alloc, ctx, rest, opaque, depth) {
            Ok(found) => found,
            Err(e) => return Err(e),
        };
        items.push(item)?;
        if let Some(end) = after(tail, Mark::CloseSquare) {
            return Ok((items, end));
        }
        rest = expect(tail, Mark::Comma)?;
    }
    Err(ReadError::Refused(wrong(TextRefusal::TooMany, rest)))
}

/// Parses an array after its opening bracket. Its elements are at most `depth` deep.
#[cycle(attr)]
#[tactic(auto, using(ir_types::proofs::Growth::grows_refl, ir_types::proofs::Growth::grows_trans), unfolding(crate::specs::AttrReading::array_by))]
pub(crate) fn array<'a>(
    alloc: Global,
    ctx: &mut Context,
    bytes: &'a [u8],
    opaque: bool,
    depth: u32,
) -> Result<(AttrId, &'a [u8]), ReadError>
    ensures reads { Returns (λ x. (x.0, (x.1.now, ctx.new))) result (array_by depth (attr_at opaque depth) (bytes.now, ctx.old)) }
    ensures grows { IsExtendedBy ctx.old ctx.new }
{
    ctx.sound();
    let (items, rest) = match attrs(alloc, ctx, bytes, opaque, depth) {
        Ok(found) => found,
        Err(e) => return Err(e),
    };
    intern_node(ctx, AttrNode::Array(Items::new(items)), rest)
}
