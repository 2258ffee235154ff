//! Parses what follows the text of an opaque attribute.
ghost use Rattle.std.specs.Prelude.{◌≡◌, None};
ghost use Rattle.ir_types.specs.Things.{IsExtendedBy};
ghost use Rattle.ir_text_types.specs.Outcomes.{Returns};
ghost use Rattle.ir_text_attributes.specs.AttrReading.{opaque_typed_at, opaque_typed_done, tail_at, typed_at, attr_done};

use crate::attributes::intern_node;
use crate::literals::is_opaque_type;
use crate::tail::Tail;
use ir_text_tokens::refusal::TextRefusal;
use ir_text_tokens::token::Mark;
use ir_text_types::error::{ReadError, wrong};
use ir_text_types::steps::{after, expect};
use ir_text_types::types::ty;
use ir_types::Items;
use ir_types::context::Context;
use ir_types::ids::AttrId;
use ir_types::node::AttrNode;
use std::alloc::Global;

/// Parses the type after a colon, and interns the attribute.
#[tactic(auto, using(ir_types::proofs::Growth::grows_refl, ir_types::proofs::Growth::grows_trans), unfolding(crate::specs::AttrReading::typed_at))]
pub(crate) fn typed<'a>(
    alloc: Global,
    ctx: &mut Context,
    text: Items<u8>,
    bytes: &'a [u8],
    opaque: bool,
    types: u32,
) -> Result<(AttrId, &'a [u8]), ReadError>
    ensures reads { Returns (λ x. (x.0, (x.1.now, ctx.new))) result (typed_at opaque types text (bytes.now, ctx.old)) }
    ensures grows { IsExtendedBy ctx.old ctx.new }
{
    ctx.sound();
    let (id, rest) = match ty(alloc, ctx, bytes, opaque, types) {
        Ok(found) => found,
        Err(e) => return Err(e),
    };
    let ty = Some(id);
    intern_node(ctx, AttrNode::Opaque { text, ty }, rest)
}

/// Parses the type after a colon, which must be opaque, and interns the attribute.
///
/// Refusals: `TypeMismatch` at another type.
#[tactic(auto, using(ir_types::proofs::Growth::grows_refl, ir_types::proofs::Growth::grows_trans), unfolding(crate::specs::AttrReading::opaque_typed_at, crate::specs::AttrReading::opaque_typed_done))]
fn opaque_typed<'a>(
    alloc: Global,
    ctx: &mut Context,
    text: Items<u8>,
    bytes: &'a [u8],
    opaque: bool,
    types: u32,
) -> Result<(AttrId, &'a [u8]), ReadError>
    ensures reads { Returns (λ x. (x.0, (x.1.now, ctx.new))) result (opaque_typed_at opaque types text (bytes.now, ctx.old)) }
    ensures grows { IsExtendedBy ctx.old ctx.new }
{
    ctx.sound();
    let (id, rest) = match ty(alloc, ctx, bytes, opaque, types) {
        Ok(found) => found,
        Err(e) => return Err(e),
    };
    if !is_opaque_type(ctx, id) {
        return Err(ReadError::Refused(wrong(TextRefusal::TypeMismatch, bytes)));
    }
    let ty = Some(id);
    intern_node(ctx, AttrNode::Opaque { text, ty }, rest)
}

/// Interns the attribute without a type. `rest` is the text after the attribute.
#[tactic(auto, using(ir_types::proofs::Growth::grows_refl, ir_types::proofs::Growth::grows_trans))]
fn untyped<'a>(
    ctx: &mut Context,
    text: Items<u8>,
    rest: &'a [u8],
) -> Result<(AttrId, &'a [u8]), ReadError>
    ensures reads { Returns (λ x. (x.0, (x.1.now, ctx.new))) result (attr_done (AttrNode.Opaque text None) (rest.now, ctx.old)) }
    ensures grows { IsExtendedBy ctx.old ctx.new }
{
    intern_node(ctx, AttrNode::Opaque { text, ty: None }, rest)
}

/// Interns the opaque attribute of `text`, with the type that follows it as `tail` requires.
///
/// Refusals: `Unexpected` if a required type is missing; `TypeMismatch` at a float's type that isn't opaque.
#[tactic(auto, using(ir_types::proofs::Growth::grows_refl, ir_types::proofs::Growth::grows_trans))]
pub(crate) fn tail<'a>(
    alloc: Global,
    ctx: &mut Context,
    tail: Tail,
    text: Items<u8>,
    bytes: &'a [u8],
    opaque: bool,
    types: u32,
) -> Result<(AttrId, &'a [u8]), ReadError>
    ensures reads { Returns (λ x. (x.0, (x.1.now, ctx.new))) result (tail_at opaque types tail text (bytes.now, ctx.old)) }
    ensures grows { IsExtendedBy ctx.old ctx.new }
{
    match tail {
        Tail::SomeType => match expect(bytes, Mark::Colon) {
            Ok(rest) => typed(alloc, ctx, text, rest, opaque, types),
            Err(e) => Err(e),
        },
        Tail::TypeOrNone => match after(bytes, Mark::Colon) {
            Some(rest) => typed(alloc, ctx, text, rest, opaque, types),
            None => untyped(ctx, text, bytes),
        },
        Tail::OpaqueOrNone => match after(bytes, Mark::Colon) {
            Some(rest) => opaque_typed(alloc, ctx, text, rest, opaque, types),
            None => untyped(ctx, text, bytes),
        },
        Tail::NoType => untyped(ctx, text, bytes),
    }
}
