//! Parses the dictionaries of an operation. Language Reference, "Attributes" and "Properties".
ghost use Rattle.std.specs.Prelude.{◌≡◌, is_some};
ghost use Rattle.ir_types.specs.Things.{IsExtendedBy};
ghost use Rattle.ir_text_types.specs.Outcomes.{Returns};
ghost use Rattle.ir_text_operations.specs.EntryReading.{refused_in, entry_at, entries_at, some_properties, properties_at, attributes_at};

use crate::dictionaries::no_headroom;
use crate::limits::MOST_WRITTEN;
use ir_text_attributes::dictionaries::{Entry, has_key, key, value};
use ir_text_names::lists::{AfterItem, after_item};
use ir_text_tokens::refusal::TextRefusal;
use ir_text_tokens::token::Mark;
use ir_text_types::error::{ReadError, wrong};
use ir_text_types::steps::{after, expect};
use ir_types::context::Context;
use ir_types::ids::NameId;
use ir_types::limits::MOST_DEPTH;
use std::alloc::Global;

/// Returns why an entry with this key can't follow the entries of `before`: the key is repeated, or the dictionary is
/// full.
fn refusal(
    ctx: &Context,
    op: &Option<NameId>,
    properties: &[Entry],
    key: NameId,
    before: &[Entry],
) -> Option<TextRefusal>
    ensures { is_some result ≡ refused_in ctx.now op.now properties.now key before.now }
{
    if has_key(key, properties) || has_key(key, before) {
        return Some(TextRefusal::DuplicateKey);
    }
    if no_headroom(ctx, op, properties, key, before) {
        return Some(TextRefusal::TooMany);
    }
    None
}

/// Parses an entry whose key is allowed after the entries of `before`.
#[inline(always)]
#[tactic(auto, using(ir_types::proofs::Growth::grows_refl, ir_types::proofs::Growth::grows_trans), unfolding(crate::specs::EntryReading::entry_at))]
fn entry<'a>(
    alloc: Global,
    ctx: &mut Context,
    op: &Option<NameId>,
    properties: &[Entry],
    before: &[Entry],
    bytes: &'a [u8],
) -> Result<(Entry, &'a [u8]), ReadError>
    ensures reads { Returns (λ x. (x.0, (x.1.now, ctx.new))) result (entry_at op.now properties.now before.now (bytes.now, ctx.old)) }
    ensures grows { IsExtendedBy ctx.old ctx.new }
{
    let (key, rest) = match key(alloc, ctx, bytes) {
        Ok(found) => found,
        Err(e) => return Err(e),
    };
    if let Some(refusal) = refusal(ctx, op, properties, key, before) {
        return Err(ReadError::Refused(wrong(refusal, bytes)));
    }
    let opaque = ctx.is_opaque();
    let (attr, rest) = match value(alloc, ctx, bytes, rest, opaque, MOST_DEPTH) {
        Ok(found) => found,
        Err(e) => return Err(e),
    };
    Ok(((key, attr), rest))
}

/// Parses entries up to the closing brace. A dictionary of one entry, the usual case, allocates memory for one entry.
#[inline(always)]
#[tactic(auto, using(ir_types::proofs::Growth::grows_refl, ir_types::proofs::Growth::grows_trans), unfolding(ir_text_types::specs::Lists::list_at, crate::specs::EntryReading::entries_at))]
fn entries<'a>(
    alloc: Global,
    ctx: &mut Context,
    op: &Option<NameId>,
    properties: &[Entry],
    bytes: &'a [u8],
) -> Result<(Vec<Entry>, &'a [u8]), ReadError>
    ensures reads { Returns (λ x. (x.0.items, (x.1.now, ctx.new))) result (entries_at op.now properties.now (bytes.now, ctx.old)) }
    ensures grows { IsExtendedBy ctx.old ctx.new }
{
    let mut items = Vec::new(alloc);
    if let Some(rest) = after(bytes, Mark::CloseCurly) {
        return Ok((items, rest));
    }
    items.reserve_exact(1)?;
    let mut rest = bytes;
    'items: for _ in 0..MOST_WRITTEN {
        let (item, tail) = match entry(alloc, ctx, op, properties, &items, rest) {
            Ok(found) => found,
            Err(e) => return Err(e),
        };
        items.push(item)?;
        match after_item(tail, Mark::CloseCurly) {
            Ok(AfterItem::More(more)) => rest = more,
            Ok(AfterItem::End(end)) => return Ok((items, end)),
            Err(e) => return Err(e),
        }
    }
    Err(ReadError::Refused(wrong(TextRefusal::TooMany, rest)))
}

/// Parses the properties after their opening `<`.
#[tactic(auto, using(ir_types::proofs::Growth::grows_refl, ir_types::proofs::Growth::grows_trans), unfolding(crate::specs::EntryReading::some_properties))]
fn some_properties<'a>(
    alloc: Global,
    ctx: &mut Context,
    bytes: &'a [u8],
) -> Result<(Vec<Entry>, &'a [u8]), ReadError>
    ensures reads { Returns (λ x. (x.0.items, (x.1.now, ctx.new))) result (some_properties (bytes.now, ctx.old)) }
    ensures grows { IsExtendedBy ctx.old ctx.new }
{
    let rest = match expect(bytes, Mark::OpenCurly) {
        Ok(rest) => rest,
        Err(e) => return Err(e),
    };
    match entries(alloc, ctx, &None, &[], rest) {
        Ok((items, rest)) => match expect(rest, Mark::Greater) {
            Ok(rest) => Ok((items, rest)),
            Err(e) => Err(e),
        },
        Err(e) => Err(e),
    }
}

/// Parses the properties, or returns none if they aren't written.
#[tactic(auto, using(ir_types::proofs::Growth::grows_refl, ir_types::proofs::Growth::grows_trans), unfolding(crate::specs::EntryReading::properties_at))]
pub fn properties<'a>(
    alloc: Global,
    ctx: &mut Context,
    bytes: &'a [u8],
) -> Result<(Vec<Entry>, &'a [u8]), ReadError>
    ensures reads { Returns (λ x. (x.0.items, (x.1.now, ctx.new))) result (properties_at (bytes.now, ctx.old)) }
    ensures grows { IsExtendedBy ctx.old ctx.new }
{
    if let Some(rest) = after(bytes, Mark::Less) {
        return some_properties(alloc, ctx, rest);
    }
    Ok((Vec::new(alloc), bytes))
}

/// Parses the attribute dictionary of an operation with these properties, or returns none if it isn't written.
#[tactic(auto, using(ir_types::proofs::Growth::grows_refl, ir_types::proofs::Growth::grows_trans), unfolding(crate::specs::EntryReading::attributes_at))]
pub fn attributes<'a>(
    alloc: Global,
    ctx: &mut Context,
    op: NameId,
    properties: &[Entry],
    bytes: &'a [u8],
) -> Result<(Vec<Entry>, &'a [u8]), ReadError>
    ensures reads { Returns (λ x. (x.0.items, (x.1.now, ctx.new))) result (attributes_at op properties.now (bytes.now, ctx.old)) }
    ensures grows { IsExtendedBy ctx.old ctx.new }
{
    if let Some(rest) = after(bytes, Mark::OpenCurly) {
        return entries(alloc, ctx, &Some(op), properties, rest);
    }
    Ok((Vec::new(alloc), bytes))
}
