//! Symbol references. Language Reference, "Symbols and Symbol Tables"; Builtin Dialect, "SymbolRefAttr".
ghost use Rattle.std.specs.Prelude.{◌≡◌, []};
ghost use Rattle.ir_types.specs.Things.{IsExtendedBy};
ghost use Rattle.ir_text_types.specs.Outcomes.{Returns};
ghost use Rattle.ir_text_types.specs.TypeReading.{many};
ghost use Rattle.ir_text_attributes.specs.AttrReading.{name_done, part_at, parts_at, symbol_attr_at};

use crate::attributes::intern_node;
use ir_text_tokens::refusal::TextRefusal;
use ir_text_tokens::strings::string_value;
use ir_text_tokens::token::{Mark, Token};
use ir_text_types::error::{ReadError, wrong};
use ir_text_types::steps::{self, after, token};
use ir_text_types::types::MANY;
use ir_types::context::Context;
use ir_types::ids::{AttrId, NameId};
use ir_types::node::AttrNode;
use ir_types_interner::lists::Items;
use std::alloc::Global;

/// Interns a name. Returns its id and `rest`, the text after the name.
#[inline(always)]
#[tactic(auto, using(ir_types::proofs::Growth::grows_refl, ir_types::proofs::Growth::grows_trans), unfolding(crate::specs::AttrReading::name_done))]
pub(crate) fn named<'a>(
    ctx: &mut Context,
    name: &[u8],
    rest: &'a [u8],
) -> Result<(NameId, &'a [u8]), ReadError>
    ensures reads { Returns (λ x. (x.0, (x.1.now, ctx.new))) result (name_done name.now (rest.now, ctx.old)) }
    ensures grows { IsExtendedBy ctx.old ctx.new }
{
    let id = steps::name(ctx, name, rest)?;
    Ok((id, rest))
}

/// Parses a part of a symbol reference: `@` and an identifier or a string.
#[tactic(auto, using(ir_types::proofs::Growth::grows_refl, ir_types::proofs::Growth::grows_trans), unfolding(crate::specs::AttrReading::part_at))]
fn part<'a>(
    alloc: Global,
    ctx: &mut Context,
    bytes: &'a [u8],
) -> Result<(NameId, &'a [u8]), ReadError>
    ensures reads { Returns (λ x. (x.0, (x.1.now, ctx.new))) result (part_at (bytes.now, ctx.old)) }
    ensures grows { IsExtendedBy ctx.old ctx.new }
{
    let (found, rest) = token(bytes)?;
    match found {
        Token::Symbol(name) => named(ctx, name, rest),
        Token::Quoted(raw) => {
            let name = string_value(alloc, raw)?;
            named(ctx, name.as_slice(), rest)
        }
        _ => Err(ReadError::Refused(wrong(TextRefusal::Unexpected, bytes))),
    }
}

/// Parses one or more parts, separated by `::`.
#[tactic(auto, using(ir_types::proofs::Growth::grows_refl, ir_types::proofs::Growth::grows_trans))]
fn parts<'a>(
    alloc: Global,
    ctx: &mut Context,
    bytes: &'a [u8],
) -> Result<(Vec<NameId>, &'a [u8]), ReadError>
    ensures reads { Returns (λ x. (x.0.items, (x.1.now, ctx.new))) result (parts_at many [] (bytes.now, ctx.old)) }
    ensures grows { IsExtendedBy ctx.old ctx.new }
{
    let mut items = Vec::new(alloc);
    let mut rest = bytes;
    'items: for _ in 0..MANY {
        let (item, tail) = match part(alloc, ctx, rest) {
            Ok(found) => found,
            Err(e) => return Err(e),
        };
        items.push(item)?;
        let Some(next) = after(tail, Mark::DoubleColon) else {
            return Ok((items, tail));
        };
        rest = next;
    }
    Err(ReadError::Refused(wrong(TextRefusal::TooMany, rest)))
}

/// Parses a symbol reference: `@a`, `@a::@b` and so on.
#[tactic(auto, using(ir_types::proofs::Growth::grows_refl, ir_types::proofs::Growth::grows_trans), unfolding(crate::specs::AttrReading::symbol_attr_at))]
pub(crate) fn symbol<'a>(
    alloc: Global,
    ctx: &mut Context,
    bytes: &'a [u8],
) -> Result<(AttrId, &'a [u8]), ReadError>
    ensures reads { Returns (λ x. (x.0, (x.1.now, ctx.new))) result (symbol_attr_at (bytes.now, ctx.old)) }
    ensures grows { IsExtendedBy ctx.old ctx.new }
{
    ctx.sound();
    let (parts, rest) = match parts(alloc, ctx, bytes) {
        Ok(found) => found,
        Err(e) => return Err(e),
    };
    intern_node(ctx, AttrNode::Sym(Items::new(parts)), rest)
}
