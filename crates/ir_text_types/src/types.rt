//! Types. Language Reference, "Type System"; Builtin Dialect, "Types".
ghost use Rattle.std.specs.Prelude.{◌≡◌, ◌∷◌, ◌&&◌, [], IfOk, option_map};
ghost use Rattle.std.specs.List.{All};
ghost use Rattle.ir_types.specs.Things.{ContextModel, IsType, TypeIsOf, IsExtendedBy};
ghost use Rattle.ir_text_tokens.specs.declared.token.Mark.TheVariants.{Greater};
ghost use Rattle.ir_text_tokens.specs.Tokens.{lexeme_of};
ghost use Rattle.std.specs.Str.{bytes_eq};
ghost use Rattle.ir_text_types.specs.OpaqueTypes.{dialect_text, is_opaque_word, word_text};
ghost use Rattle.ir_text_types.specs.Scalars.{memref_word};
ghost use Rattle.ir_text_types.specs.Outcomes.{Returns, of_option};
ghost use Rattle.ir_text_types.specs.Marks.{after};
ghost use Rattle.ir_text_types.specs.TypeReading.{type_done, scalar_done, scalar_at, opaque_done, word_from, word_type_at, element_at, memref_at, types_at, outputs_at, signature_at, function_at, type_at, function_type_at, many};

use crate::error::{ReadError, wrong};
use crate::opaque::{dialect_text, is_opaque_word, word_text};
use crate::scalar_types::known;
use crate::scalars::{is_memref, scalar_of, word_refusal};
use crate::shapes::dimensions;
use crate::steps::{self, after, expect, token};
use ir_text_tokens::fault::Fault;
use ir_text_tokens::limits::MOST_BYTES;
use ir_text_tokens::refusal::TextRefusal;
use ir_text_tokens::token::{Mark, Token};
use ir_tree::limits::MOST_ITEMS;
use ir_types::context::Context;
use ir_types::ids::TypeId;
use ir_types::limits::MOST_DEPTH;
use ir_types::node::TypeNode;
use ir_types_interner::lists::Items;
use std::alloc::{AllocError, Global};

/// The item limit of a list that has no smaller limit. A text has no more bytes.
pub const MANY: usize = MOST_BYTES;

/// Interns a type node. Returns its id and `rest`, the text after the type.
#[inline(always)]
#[tactic(auto, using(ir_types::proofs::Growth::grows_refl, ir_types::proofs::Growth::grows_trans), unfolding(crate::specs::TypeReading::type_done))]
pub fn intern_node<'a>(
    ctx: &mut Context,
    node: TypeNode,
    rest: &'a [u8],
) -> Result<(TypeId, &'a [u8]), ReadError>
    requires { TypeIsOf ctx.old node }
    ensures reads { Returns (λ x. (x.0, (x.1.now, ctx.new))) result (type_done node (rest.now, ctx.old)) }
    ensures grows { IsExtendedBy ctx.old ctx.new }
{
    let id = steps::ty(ctx, node, rest)?;
    Ok((id, rest))
}

/// Returns the scalar type that the word names. The word is at `start`.
#[inline(always)]
#[tactic(auto, using(ir_types::proofs::Growth::grows_refl, ir_types::proofs::Growth::grows_trans))]
fn scalar<'a>(
    ctx: &mut Context,
    word: &[u8],
    start: &[u8],
    rest: &'a [u8],
) -> Result<(TypeId, &'a [u8]), ReadError>
    ensures reads { Returns (λ x. (x.0, (x.1.now, ctx.new))) result (scalar_done word.now (rest.now, ctx.old)) }
    ensures grows { IsExtendedBy ctx.old ctx.new }
{
    match scalar_of(word) {
        Some(node) => intern_node(ctx, node, rest),
        None => Err(ReadError::Refused(wrong(word_refusal(word), start))),
    }
}

/// Parses the element type of a memref if opaque types aren't allowed: a scalar type.
///
/// Refusals: `BadWidth`; `LeftOut` if another type or a `*` begins there; otherwise `Unexpected`.
#[tactic(auto, using(ir_types::proofs::Growth::grows_refl, ir_types::proofs::Growth::grows_trans), unfolding(crate::specs::TypeReading::scalar_at))]
fn known_element<'a>(ctx: &mut Context, bytes: &'a [u8]) -> Result<(TypeId, &'a [u8]), ReadError>
    ensures reads { Returns (λ x. (x.0, (x.1.now, ctx.new))) result (scalar_at (bytes.now, ctx.old)) }
    ensures grows { IsExtendedBy ctx.old ctx.new }
{
    let (found, rest) = token(bytes)?;
    match found {
        Token::Bare(word) => scalar(ctx, word, bytes, rest),
        _ => Err(ReadError::Refused(wrong(element_refusal(&found), bytes))),
    }
}

/// Returns the rest of the text after the `>` of a memref. Refuses a layout or memory space with `LeftOut`.
fn closed(bytes: &[u8]) -> Result<&[u8], ReadError>
    ensures { Returns (λ r. r.now) result (of_option (after Greater bytes.now)) }
{
    match after(bytes, Mark::Greater) {
        Some(rest) => Ok(rest),
        None => Err(ReadError::Refused(wrong(closing_refusal(bytes), bytes))),
    }
}

/// Parses an opaque type that begins with a word.
#[tactic(auto, using(ir_types::proofs::Growth::grows_refl, ir_types::proofs::Growth::grows_trans))]
fn opaque_word<'a>(
    alloc: Global,
    ctx: &mut Context,
    word: &[u8],
    rest: &'a [u8],
) -> Result<(TypeId, &'a [u8]), ReadError>
    ensures reads { Returns (λ x. (x.0, (x.1.now, ctx.new))) result (opaque_done (word_text word.now rest.now) ctx.old) }
    ensures grows { IsExtendedBy ctx.old ctx.new }
{
    match word_text(alloc, word, rest) {
        Ok((text, rest)) => intern_node(ctx, TypeNode::Opaque(text), rest),
        Err(e) => Err(e),
    }
}

/// Parses an opaque type that begins with a dialect's name. Its sigil is at `start`.
#[tactic(auto, using(ir_types::proofs::Growth::grows_refl, ir_types::proofs::Growth::grows_trans))]
fn dialect_type<'a>(
    alloc: Global,
    ctx: &mut Context,
    name: &[u8],
    start: &[u8],
    rest: &'a [u8],
) -> Result<(TypeId, &'a [u8]), ReadError>
    ensures reads { Returns (λ x. (x.0, (x.1.now, ctx.new))) result (opaque_done (dialect_text 33 name.now rest.now) ctx.old) }
    ensures grows { IsExtendedBy ctx.old ctx.new }
{
    match dialect_text(alloc, b'!', name, start, rest) {
        Ok((text, rest)) => intern_node(ctx, TypeNode::Opaque(text), rest),
        Err(e) => Err(e),
    }
}

/// Parses a memref after its word: dimensions and an element type in angle brackets (Builtin Dialect, "MemRefType").
/// At most `depth` memrefs may be nested. The word is at `start`.
///
/// Refusals: `Unexpected`; `BadValue` at a dimension that is too large; those of the element type; `LeftOut` at a
/// comma after the element type; `TooDeep`.
#[cycle(words)]
#[tactic(auto, using(ir_types::proofs::Growth::grows_refl, ir_types::proofs::Growth::grows_trans), unfolding(crate::specs::TypeReading::memref_at))]
fn memref<'a>(
    alloc: Global,
    ctx: &mut Context,
    start: &[u8],
    bytes: &'a [u8],
    opaque: bool,
    depth: u32,
) -> Result<(TypeId, &'a [u8]), ReadError>
    ensures reads { Returns (λ x. (x.0, (x.1.now, ctx.new))) result (memref_at opaque depth (bytes.now, ctx.old)) }
    ensures grows { IsExtendedBy ctx.old ctx.new }
{
    ctx.sound();
    if depth == 0 {
        return Err(ReadError::Refused(wrong(TextRefusal::TooDeep, start)));
    }
    let rest = expect(bytes, Mark::Less)?;
    let (dims, rest) = match dimensions(alloc, rest) {
        Ok(found) => found,
        Err(e) => return Err(e),
    };
    let (elem, rest) = match element(alloc, ctx, rest, opaque, depth - 1) {
        Ok(found) => found,
        Err(e) => return Err(e),
    };
    let rest = closed(rest)?;
    let node = TypeNode::Memref {
        dims: Items::new(dims),
        elem,
    };
    intern_node(ctx, node, rest)
}

/// Parses the element type of a memref.
#[cycle(words)]
#[tactic(auto, using(ir_types::proofs::Growth::grows_refl, ir_types::proofs::Growth::grows_trans))]
fn element<'a>(
    alloc: Global,
    ctx: &mut Context,
    bytes: &'a [u8],
    opaque: bool,
    depth: u32,
) -> Result<(TypeId, &'a [u8]), ReadError>
    ensures reads { Returns (λ x. (x.0, (x.1.now, ctx.new))) result (element_at opaque (memref_at opaque depth) (bytes.now, ctx.old)) }
    ensures grows { IsExtendedBy ctx.old ctx.new }
{
    if !opaque {
        return known_element(ctx, bytes);
    }
    match word_type(alloc, ctx, bytes, opaque, depth) {
        Ok(found) => Ok(found),
        Err(ReadError::Refused(fault)) => Err(ReadError::Refused(element_fault(fault, bytes))),
        Err(e) => Err(e),
    }
}

/// Parses a type after its first word, which is at `start`: an opaque type, a memref, an integer type or `index`.
#[cycle(words)]
#[tactic(auto, using(ir_types::proofs::Growth::grows_refl, ir_types::proofs::Growth::grows_trans))]
fn after_word<'a>(
    alloc: Global,
    ctx: &mut Context,
    word: &[u8],
    start: &[u8],
    rest: &'a [u8],
    opaque: bool,
    depth: u32,
) -> Result<(TypeId, &'a [u8]), ReadError>
    ensures reads { Returns (λ x. (x.0, (x.1.now, ctx.new))) result (word_from (memref_at opaque depth) (opaque && is_opaque_word word.now rest.now) (bytes_eq word.now memref_word) word.now rest.now ctx.old) }
    ensures grows { IsExtendedBy ctx.old ctx.new }
{
    if opaque && is_opaque_word(word, rest) {
        return opaque_word(alloc, ctx, word, rest);
    }
    if is_memref(word) {
        memref(alloc, ctx, start, rest, opaque, depth)
    } else {
        scalar(ctx, word, start, rest)
    }
}

/// Parses a type that is no function type: a memref, an integer type, `index`, or an opaque type.
#[cycle(words)]
#[tactic(auto, using(ir_types::proofs::Growth::grows_refl, ir_types::proofs::Growth::grows_trans), unfolding(crate::specs::TypeReading::word_type_at))]
fn word_type<'a>(
    alloc: Global,
    ctx: &mut Context,
    bytes: &'a [u8],
    opaque: bool,
    depth: u32,
) -> Result<(TypeId, &'a [u8]), ReadError>
    ensures reads { Returns (λ x. (x.0, (x.1.now, ctx.new))) result (word_type_at opaque (memref_at opaque depth) (bytes.now, ctx.old)) }
    ensures grows { IsExtendedBy ctx.old ctx.new }
{
    let (found, rest) = token(bytes)?;
    match found {
        Token::Bare(word) => after_word(alloc, ctx, word, bytes, rest, opaque, depth),
        Token::Bang(name) => {
            if opaque {
                dialect_type(alloc, ctx, name, bytes, rest)
            } else {
                Err(ReadError::Refused(wrong(TextRefusal::LeftOut, bytes)))
            }
        }
        _ => Err(ReadError::Refused(wrong(token_refusal(&found), bytes))),
    }
}

/// Returns why a token can't begin a type: `LeftOut` for an unsupported type or attribute, otherwise `Unexpected`.
pub fn token_refusal(found: &Token<'_>) -> TextRefusal {
    match found {
        Token::Bare(_) => TextRefusal::LeftOut,
        Token::Bang(_) => TextRefusal::LeftOut,
        Token::Hash(_) => TextRefusal::LeftOut,
        Token::Float(_) => TextRefusal::LeftOut,
        _ => TextRefusal::Unexpected,
    }
}

/// Returns why a token can't begin the element type of a memref.
fn element_refusal(found: &Token<'_>) -> TextRefusal {
    match found {
        Token::Mark(Mark::OpenRound) => TextRefusal::LeftOut,
        Token::Mark(Mark::Star) => TextRefusal::LeftOut,
        _ => token_refusal(found),
    }
}

/// Returns the fault of an element type. Function types and unranked memrefs are unsupported.
fn element_fault(fault: Fault, bytes: &[u8]) -> Fault {
    if after(bytes, Mark::OpenRound).is_some() || after(bytes, Mark::Star).is_some() {
        wrong(TextRefusal::LeftOut, bytes)
    } else {
        fault
    }
}

/// Returns why no `>` follows the element type of a memref.
fn closing_refusal(bytes: &[u8]) -> TextRefusal {
    match after(bytes, Mark::Comma) {
        Some(_) => TextRefusal::LeftOut,
        None => TextRefusal::Unexpected,
    }
}

/// Parses types up to a closing parenthesis, at most `room`.
#[cycle(types)]
#[tactic(auto, using(ir_types::proofs::Growth::grows_refl, ir_types::proofs::Growth::grows_trans), unfolding(crate::specs::Lists::list_at, crate::specs::TypeReading::types_at))]
fn types<'a>(
    alloc: Global,
    ctx: &mut Context,
    bytes: &'a [u8],
    opaque: bool,
    depth: u32,
    headroom: usize,
) -> Result<(Vec<TypeId>, &'a [u8]), ReadError>
    ensures reads { Returns (λ x. (x.0.items, (x.1.now, ctx.new))) result (types_at (type_at opaque depth) headroom (bytes.now, ctx.old)) }
    ensures grows { IsExtendedBy ctx.old ctx.new }
{
    let mut items = Vec::new(alloc);
    if let Some(rest) = after(bytes, Mark::CloseRound) {
        return Ok((items, rest));
    }
    let mut rest = bytes;
    'items: for _ in 0..headroom {
        let (item, tail) = match ty(alloc, ctx, rest, opaque, depth) {
            Ok(found) => found,
            Err(e) => return Err(e),
        };
        items.push(item)?;
        if let Some(end) = after(tail, Mark::CloseRound) {
            return Ok((items, end));
        }
        rest = expect(tail, Mark::Comma)?;
    }
    Err(ReadError::Refused(wrong(past_refusal(rest, opaque, TextRefusal::TooMany), rest)))
}

fn one(alloc: Global, item: TypeId) -> Result<Vec<TypeId>, AllocError>
    ensures { IfOk result (λ v. v.items ≡ item ∷ []) }
{
    let mut items = Vec::with_capacity(alloc, 1)?;
    items.push(item)?;
    Ok(items)
}

/// Parses one type, or at most `room` types in parentheses.
#[cycle(types)]
#[tactic(auto, using(ir_types::proofs::Growth::grows_refl, ir_types::proofs::Growth::grows_trans), unfolding(crate::specs::TypeReading::outputs_at))]
fn outputs<'a>(
    alloc: Global,
    ctx: &mut Context,
    bytes: &'a [u8],
    opaque: bool,
    depth: u32,
    headroom: usize,
) -> Result<(Vec<TypeId>, &'a [u8]), ReadError>
    ensures reads { Returns (λ x. (x.0.items, (x.1.now, ctx.new))) result (outputs_at (type_at opaque depth) headroom (bytes.now, ctx.old)) }
    ensures grows { IsExtendedBy ctx.old ctx.new }
{
    if let Some(rest) = after(bytes, Mark::OpenRound) {
        return types(alloc, ctx, rest, opaque, depth, headroom);
    }
    let (item, rest) = match ty(alloc, ctx, bytes, opaque, depth) {
        Ok(found) => found,
        Err(e) => return Err(e),
    };
    let items = one(alloc, item)?;
    Ok((items, rest))
}

/// Parses the inputs and outputs of a function type after its opening parenthesis.
#[cycle(types)]
#[tactic(auto, using(ir_types::proofs::Growth::grows_refl, ir_types::proofs::Growth::grows_trans), unfolding(crate::specs::TypeReading::signature_at))]
fn signature<'a>(
    alloc: Global,
    ctx: &mut Context,
    bytes: &'a [u8],
    opaque: bool,
    depth: u32,
    headroom: usize,
) -> Result<((Vec<TypeId>, Vec<TypeId>), &'a [u8]), ReadError>
    ensures reads { Returns (λ x. ((x.0.0.items, x.0.1.items), (x.1.now, ctx.new))) result (signature_at (type_at opaque depth) headroom (bytes.now, ctx.old)) }
    ensures grows { IsExtendedBy ctx.old ctx.new }
{
    let (inputs, rest) = match types(alloc, ctx, bytes, opaque, depth, MANY) {
        Ok(found) => found,
        Err(e) => return Err(e),
    };
    let rest = expect(rest, Mark::Arrow)?;
    let (outputs, rest) = match outputs(alloc, ctx, rest, opaque, depth, headroom) {
        Ok(found) => found,
        Err(e) => return Err(e),
    };
    Ok(((inputs, outputs), rest))
}

/// Parses a function type after its opening parenthesis.
#[cycle(types)]
#[tactic(auto, using(ir_types::proofs::Growth::grows_refl, ir_types::proofs::Growth::grows_trans), unfolding(crate::specs::TypeReading::function_at))]
fn function<'a>(
    alloc: Global,
    ctx: &mut Context,
    bytes: &'a [u8],
    opaque: bool,
    depth: u32,
) -> Result<(TypeId, &'a [u8]), ReadError>
    ensures reads { Returns (λ x. (x.0, (x.1.now, ctx.new))) result (function_at (type_at opaque depth) (bytes.now, ctx.old)) }
    ensures grows { IsExtendedBy ctx.old ctx.new }
{
    ctx.sound();
    let ((inputs, outputs), rest) = match signature(alloc, ctx, bytes, opaque, depth, MANY) {
        Ok(found) => found,
        Err(e) => return Err(e),
    };
    let node = TypeNode::Func {
        inputs: Items::new(inputs),
        outputs: Items::new(outputs),
    };
    intern_node(ctx, node, rest)
}

/// Parses a type of at most this depth, and interns the type and its parts. `ty` calls this function if the type
/// isn't among the first of the context.
///
/// Refusals, each at the first byte of its token: those of the lexer; `Unexpected`; `LeftOut` for an unsupported
/// type; `BadWidth`; `BadValue` at a dimension over 9,223,372,036,854,775,807; `TooDeep` at the part that is too
/// deep.
#[cycle(types)]
#[tactic(auto, using(ir_types::proofs::Growth::grows_refl, ir_types::proofs::Growth::grows_trans), unfolding(crate::specs::TypeReading::type_at))]
fn new_ty<'a>(
    alloc: Global,
    ctx: &mut Context,
    bytes: &'a [u8],
    opaque: bool,
    depth: u32,
) -> Result<(TypeId, &'a [u8]), ReadError>
    ensures reads { Returns (λ x. (x.0, (x.1.now, ctx.new))) result (type_at opaque depth (bytes.now, ctx.old)) }
    ensures grows { IsExtendedBy ctx.old ctx.new }
{
    if depth == 0 {
        return Err(ReadError::Refused(wrong(
            past_refusal(bytes, opaque, TextRefusal::TooDeep),
            bytes,
        )));
    }
    match after(bytes, Mark::OpenRound) {
        Some(rest) => function(alloc, ctx, rest, opaque, depth - 1),
        None => word_type(alloc, ctx, bytes, opaque, depth),
    }
}

/// Parses a type of at most this depth, and interns the type and its parts.
///
/// Refusals, each at the first byte of its token: those of the lexer; `Unexpected`; `LeftOut` for an unsupported
/// type; `BadWidth`; `BadValue` at a dimension over 9,223,372,036,854,775,807; `TooDeep` at the part that is too
/// deep.
#[cycle(types)]
#[inline(always)]
#[tactic(auto, using(ir_types::proofs::Growth::grows_refl, ir_types::proofs::Growth::grows_trans), unfolding(crate::specs::TypeReading::type_at))]
pub fn ty<'a>(
    alloc: Global,
    ctx: &mut Context,
    bytes: &'a [u8],
    opaque: bool,
    depth: u32,
) -> Result<(TypeId, &'a [u8]), ReadError>
    ensures reads { Returns (λ x. (x.0, (x.1.now, ctx.new))) result (type_at opaque depth (bytes.now, ctx.old)) }
    ensures grows { IsExtendedBy ctx.old ctx.new }
{
    if depth != 0 {
        if let Some(found) = known(ctx, bytes) {
            return Ok(found);
        }
    }
    new_ty(alloc, ctx, bytes, opaque, depth)
}

/// Returns the refusal `limit` if a type begins here, and otherwise why none does.
fn past_refusal(bytes: &[u8], opaque: bool, limit: TextRefusal) -> TextRefusal {
    match token(bytes) {
        Ok((Token::Bare(_), _)) => limit,
        Ok((Token::Bang(_), _)) if opaque => limit,
        Ok((Token::Mark(Mark::OpenRound), _)) => limit,
        Ok((found, _)) => token_refusal(&found),
        Err(_) => TextRefusal::Unexpected,
    }
}

/// Parses the function type of an operation. It has at most as many outputs as an operation may have results.
#[tactic(auto, using(ir_types::proofs::Growth::grows_refl, ir_types::proofs::Growth::grows_trans), unfolding(crate::specs::TypeReading::function_type_at))]
pub fn function_type<'a>(
    alloc: Global,
    ctx: &mut Context,
    bytes: &'a [u8],
    opaque: bool,
) -> Result<((Vec<TypeId>, Vec<TypeId>), &'a [u8]), ReadError>
    ensures reads { Returns (λ x. ((x.0.0.items, x.0.1.items), (x.1.now, ctx.new))) result (function_type_at opaque (bytes.now, ctx.old)) }
    ensures grows { IsExtendedBy ctx.old ctx.new }
{
    let rest = expect(bytes, Mark::OpenRound)?;
    signature(alloc, ctx, rest, opaque, MOST_DEPTH, MOST_ITEMS)
}
