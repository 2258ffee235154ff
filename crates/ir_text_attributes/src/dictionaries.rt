//! Dictionaries. Builtin Dialect, "DictionaryAttr"; Language Reference, "Attributes".
ghost use Rattle.std.specs.Prelude.{◌≡◌, nat_eq};
ghost use Rattle.ir_types.specs.Things.{IsExtendedBy};
ghost use Rattle.ir_text_types.specs.Outcomes.{Returns};
ghost use Rattle.ir_text_attributes.specs.Keyed.{has_key};
ghost use Rattle.ir_text_attributes.specs.AttrReading.{key_at, unit_value_at, value_at, entry_by, entries_by, dictionary_by, attr_at};

use crate::attributes::{attr, intern_node};
use crate::symbols::named;
use ir_text_tokens::fault::Fault;
use ir_text_tokens::lexer;
use ir_text_tokens::refusal::TextRefusal;
use ir_text_tokens::strings::string_value;
use ir_text_tokens::token::{Mark, Token};
use ir_text_types::error::{ReadError, wrong};
use ir_text_types::steps::{after, expect, token};
use ir_types::context::Context;
use ir_types::ids::{AttrId, NameId};
use ir_types::limits::MOST_ENTRIES;
use ir_types::node::AttrNode;
use ir_types_interner::lists::Items;
use std::alloc::Global;

/// A key and an attribute.
pub type Entry = (NameId, AttrId);

/// Parses a key, which is a bare identifier or a string, and returns its id.
///
/// Refusals: those of the lexer; `Unexpected` at another token.
#[inline(always)]
#[tactic(auto, using(ir_types::proofs::Growth::grows_refl, ir_types::proofs::Growth::grows_trans), unfolding(crate::specs::AttrReading::key_at))]
pub fn key<'a>(
    alloc: Global,
    ctx: &mut Context,
    bytes: &'a [u8],
) -> Result<(NameId, &'a [u8]), ReadError>
    ensures reads { Returns (λ x. (x.0, (x.1.now, ctx.new))) result (key_at (bytes.now, ctx.old)) }
    ensures grows { IsExtendedBy ctx.old ctx.new }
{
    if let Some((word, rest)) = lexer::word(bytes) {
        return named(ctx, word, rest);
    }
    let (found, rest) = token(bytes)?;
    match found {
        Token::Bare(word) => named(ctx, word, rest),
        Token::String(raw) => {
            let word = string_value(alloc, raw)?;
            named(ctx, word.as_slice(), rest)
        }
        _ => Err(ReadError::Refused(wrong(TextRefusal::Unexpected, bytes))),
    }
}

/// Returns whether an entry has the key.
pub fn has_key(key: NameId, entries: &[Entry]) -> bool
    ensures { result ≡ has_key nat_eq key entries.now }
{
    entries.iter().any(|entry| entry.0 == key)
}

/// Interns the unit attribute of a key without a value. The key is at `start`.
#[tactic(auto, using(ir_types::proofs::Growth::grows_refl, ir_types::proofs::Growth::grows_trans), unfolding(crate::specs::AttrReading::unit_value_at))]
fn unit_value<'a>(
    ctx: &mut Context,
    start: &[u8],
    bytes: &'a [u8],
    depth: u32,
) -> Result<(AttrId, &'a [u8]), ReadError>
    ensures reads { Returns (λ x. (x.0, (x.1.now, ctx.new))) result (unit_value_at depth (bytes.now, ctx.old)) }
    ensures grows { IsExtendedBy ctx.old ctx.new }
{
    if depth == 0 {
        return Err(ReadError::Refused(wrong(TextRefusal::TooDeep, start)));
    }
    intern_node(ctx, AttrNode::Unit, bytes)
}

/// Parses the attribute of at most `depth` after an equal sign, or returns unit if there is no equal sign. The key is
/// at `start`.
///
/// Refusals: those of attributes; `TooDeep` at the key if no depth is left for unit.
#[cycle(attr)]
#[inline(always)]
#[tactic(auto, using(ir_types::proofs::Growth::grows_refl, ir_types::proofs::Growth::grows_trans), unfolding(crate::specs::AttrReading::value_by))]
pub fn value<'a>(
    alloc: Global,
    ctx: &mut Context,
    start: &[u8],
    bytes: &'a [u8],
    opaque: bool,
    depth: u32,
) -> Result<(AttrId, &'a [u8]), ReadError>
    ensures reads { Returns (λ x. (x.0, (x.1.now, ctx.new))) result (value_at opaque depth (bytes.now, ctx.old)) }
    ensures grows { IsExtendedBy ctx.old ctx.new }
{
    match after(bytes, Mark::Equal) {
        Some(rest) => attr(alloc, ctx, rest, opaque, depth),
        None => unit_value(ctx, start, bytes, depth),
    }
}

/// Parses an entry whose key isn't in `before`.
#[cycle(attr)]
#[tactic(auto, using(ir_types::proofs::Growth::grows_refl, ir_types::proofs::Growth::grows_trans), unfolding(crate::specs::AttrReading::entry_by))]
fn entry<'a>(
    alloc: Global,
    ctx: &mut Context,
    before: &[Entry],
    bytes: &'a [u8],
    opaque: bool,
    depth: u32,
) -> Result<(Entry, &'a [u8]), ReadError>
    ensures reads { Returns (λ x. (x.0, (x.1.now, ctx.new))) result (entry_by depth (attr_at opaque depth) before.now (bytes.now, ctx.old)) }
    ensures grows { IsExtendedBy ctx.old ctx.new }
{
    let (key, rest) = match key(alloc, ctx, bytes) {
        Ok(found) => found,
        Err(e) => return Err(e),
    };
    if has_key(key, before) {
        return Err(ReadError::Refused(wrong(TextRefusal::DuplicateKey, bytes)));
    }
    let (attr, rest) = match value(alloc, ctx, bytes, rest, opaque, depth) {
        Ok(found) => found,
        Err(e) => return Err(e),
    };
    Ok(((key, attr), rest))
}

/// Returns why there is no further entry: its key is repeated, or the dictionary is full, or no entry begins here.
#[tactic(auto, using(ir_types::proofs::Growth::grows_refl, ir_types::proofs::Growth::grows_trans))]
fn past_fault(alloc: Global, ctx: &mut Context, before: &[Entry], bytes: &[u8]) -> Fault
    ensures { IsExtendedBy ctx.old ctx.new }
{
    let (key, _) = match key(alloc, ctx, bytes) {
        Ok(found) => found,
        Err(ReadError::Refused(fault)) => return fault,
        Err(_) => return wrong(TextRefusal::TooMany, bytes),
    };
    let is_known = has_key(key, before);
    if is_known {
        return wrong(TextRefusal::DuplicateKey, bytes);
    }
    wrong(TextRefusal::TooMany, bytes)
}

/// Parses entries up to the closing brace.
#[cycle(attr)]
#[tactic(auto, using(ir_types::proofs::Growth::grows_refl, ir_types::proofs::Growth::grows_trans), unfolding(ir_text_types::specs::Lists::list_at, crate::specs::AttrReading::entries_by))]
fn entries<'a>(
    alloc: Global,
    ctx: &mut Context,
    bytes: &'a [u8],
    opaque: bool,
    depth: u32,
) -> Result<(Vec<Entry>, &'a [u8]), ReadError>
    ensures reads { Returns (λ x. (x.0.items, (x.1.now, ctx.new))) result (entries_by depth (attr_at opaque depth) (bytes.now, ctx.old)) }
    ensures grows { IsExtendedBy ctx.old ctx.new }
{
    let mut items = Vec::new(alloc);
    if let Some(rest) = after(bytes, Mark::CloseCurly) {
        return Ok((items, rest));
    }
    let mut rest = bytes;
    'items: for _ in 0..MOST_ENTRIES {
        let (item, tail) = match entry(alloc, ctx, &items, rest, opaque, depth) {
            Ok(found) => found,
            Err(e) => return Err(e),
        };
        items.push(item)?;
        if let Some(end) = after(tail, Mark::CloseCurly) {
            return Ok((items, end));
        }
        rest = expect(tail, Mark::Comma)?;
    }
    Err(ReadError::Refused(past_fault(alloc, ctx, &items, rest)))
}

/// Parses a dictionary after its opening brace. Its attributes are at most `depth` deep.
#[cycle(attr)]
#[tactic(auto, using(ir_types::proofs::Growth::grows_refl, ir_types::proofs::Growth::grows_trans), unfolding(crate::specs::AttrReading::dictionary_by))]
pub(crate) fn dictionary<'a>(
    alloc: Global,
    ctx: &mut Context,
    bytes: &'a [u8],
    opaque: bool,
    depth: u32,
) -> Result<(AttrId, &'a [u8]), ReadError>
    ensures reads { Returns (λ x. (x.0, (x.1.now, ctx.new))) result (dictionary_by depth (attr_at opaque depth) (bytes.now, ctx.old)) }
    ensures grows { IsExtendedBy ctx.old ctx.new }
{
    ctx.sound();
    let (entries, rest) = match entries(alloc, ctx, bytes, opaque, depth) {
        Ok(found) => found,
        Err(e) => return Err(e),
    };
    intern_node(ctx, AttrNode::Dict(Items::new(entries)), rest)
}
