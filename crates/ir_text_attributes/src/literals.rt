//! Integer literals. Builtin Dialect, "IntegerAttr".
ghost use Rattle.std.specs.Prelude.{◌≡◌};
ghost use Rattle.ir_types.specs.Things.{IsType, IsExtendedBy};
ghost use Rattle.ir_text_types.specs.Outcomes.{Returns};
ghost use Rattle.ir_types.specs.Terms.{type_term};
ghost use Rattle.ir_text_attributes.specs.OpaqueAttributes.{is_opaque_type};
ghost use Rattle.ir_text_attributes.specs.AttrReading.{suffix_at, literal_done, literal_at, negative_at};

use crate::attribute_text::{is_hexadecimal, signed_text};
use crate::attributes::intern_node;
use crate::tail::Tail;
use crate::tails::tail;
use ir_text_tokens::fault::Fault;
use ir_text_tokens::numbers::integer_value;
use ir_text_tokens::refusal::TextRefusal;
use ir_text_tokens::token::{Mark, Token};
use ir_text_types::error::{ReadError, wrong};
use ir_text_types::steps::{after, token};
use ir_text_types::types::{self, ty};
use ir_types::context::Context;
use ir_types::ids::{AttrId, TypeId};
use ir_types::limits::MOST_DEPTH;
use ir_types::node::{AttrNode, Sign, TypeNode};
use ir_types::things::type_of;
use std::alloc::Global;

/// Parses the type of a literal after a colon, or returns `i64` if there is no colon.
#[tactic(auto, using(ir_types::proofs::Growth::grows_refl, ir_types::proofs::Growth::grows_trans), unfolding(crate::specs::AttrReading::suffix_at))]
fn suffix<'a>(
    alloc: Global,
    ctx: &mut Context,
    bytes: &'a [u8],
    opaque: bool,
) -> Result<(TypeId, &'a [u8]), ReadError>
    ensures reads { Returns (λ x. (x.0, (x.1.now, ctx.new))) result (suffix_at opaque (bytes.now, ctx.old)) }
    ensures grows { IsExtendedBy ctx.old ctx.new }
{
    match after(bytes, Mark::Colon) {
        Some(rest) => ty(alloc, ctx, rest, opaque, MOST_DEPTH),
        None => {
            let word = TypeNode::Int {
                sign: Sign::Signless,
                width: 64,
            };
            types::intern_node(ctx, word, bytes)
        }
    }
}

/// Returns whether a literal may have the type: an integer type or `index`.
fn has_literals(ctx: &Context, ty: TypeId) -> bool
    requires { IsType ctx.now ty }
{
    match ctx.type_node(ty) {
        TypeNode::Int { .. } => true,
        TypeNode::Index => true,
        _ => false,
    }
}

/// Returns why a literal doesn't fit its type: `BadValue` at the literal, or `TypeMismatch` at the type. The type
/// follows the colon after the digits.
fn misfit(ctx: &Context, ty: TypeId, start: &[u8], bytes: &[u8]) -> Fault
    requires { IsType ctx.now ty }
{
    if has_literals(ctx, ty) {
        return wrong(TextRefusal::BadValue, start);
    }
    match after(bytes, Mark::Colon) {
        Some(at) => wrong(TextRefusal::TypeMismatch, at),
        None => wrong(TextRefusal::BadValue, start),
    }
}

/// Returns whether a type is opaque.
pub(crate) fn is_opaque_type(ctx: &Context, ty: TypeId) -> bool
    requires { IsType ctx.now ty }
    ensures { result ≡ is_opaque_type (type_term ctx.now ty) }
{
    matches!(type_of(ctx, ty), TypeNode::Opaque(_))
}

/// Parses the rest of a literal. `bytes` is the text after its digits, and the literal begins at `start`, with its
/// minus sign if it has one. Hexadecimal digits of an opaque type are an opaque attribute.
#[tactic(auto, using(ir_types::proofs::Growth::grows_refl, ir_types::proofs::Growth::grows_trans), unfolding(crate::specs::AttrReading::literal_at, crate::specs::AttrReading::literal_done))]
pub(crate) fn literal<'a>(
    alloc: Global,
    ctx: &mut Context,
    start: &[u8],
    negative: bool,
    digits: &[u8],
    bytes: &'a [u8],
    opaque: bool,
) -> Result<(AttrId, &'a [u8]), ReadError>
    ensures reads { Returns (λ x. (x.0, (x.1.now, ctx.new))) result (literal_at opaque negative digits.now (bytes.now, ctx.old)) }
    ensures grows { IsExtendedBy ctx.old ctx.new }
{
    ctx.sound();
    let Some(magnitude) = integer_value(digits) else {
        return Err(ReadError::Refused(wrong(TextRefusal::BadValue, start)));
    };
    let (ty, rest) = match suffix(alloc, ctx, bytes, opaque) {
        Ok(found) => found,
        Err(e) => return Err(e),
    };
    if is_opaque_type(ctx, ty) && is_hexadecimal(digits) {
        let text = signed_text(alloc, negative, digits)?;
        let ty = Some(ty);
        return intern_node(ctx, AttrNode::Opaque { text, ty }, rest);
    }
    match ctx.literal_bits(ty, negative, magnitude) {
        Some(value) => intern_node(ctx, AttrNode::Int { ty, value }, rest),
        None => Err(ReadError::Refused(misfit(ctx, ty, start, bytes))),
    }
}

/// Parses a literal or a float after its minus sign, which is at `start`.
///
/// Refusals: those of literals; `LeftOut` at a float if opaque attributes aren't allowed; `Unexpected` if no number
/// follows.
#[tactic(auto, using(ir_types::proofs::Growth::grows_refl, ir_types::proofs::Growth::grows_trans), unfolding(crate::specs::AttrReading::negative_at))]
pub(crate) fn negative<'a>(
    alloc: Global,
    ctx: &mut Context,
    start: &[u8],
    bytes: &'a [u8],
    opaque: bool,
    types: u32,
) -> Result<(AttrId, &'a [u8]), ReadError>
    ensures reads { Returns (λ x. (x.0, (x.1.now, ctx.new))) result (negative_at opaque types (bytes.now, ctx.old)) }
    ensures grows { IsExtendedBy ctx.old ctx.new }
{
    let (found, rest) = token(bytes)?;
    match found {
        Token::Integer(digits) => literal(alloc, ctx, start, true, digits, rest, opaque),
        Token::Float(digits) => {
            if opaque {
                let text = signed_text(alloc, true, digits)?;
                tail(alloc, ctx, Tail::OpaqueOrNone, text, rest, opaque, types)
            } else {
                Err(ReadError::Refused(wrong(TextRefusal::LeftOut, bytes)))
            }
        }
        _ => Err(ReadError::Refused(wrong(TextRefusal::Unexpected, bytes))),
    }
}
