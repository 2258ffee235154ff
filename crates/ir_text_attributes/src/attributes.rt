//! Attributes. Language Reference, "Attributes"; Builtin Dialect, "Attributes".
ghost use Rattle.std.specs.Prelude.{◌≡◌, if◌then◌else◌};
ghost use Rattle.ir_types.specs.Things.{AttrIsOf, IsExtendedBy};
ghost use Rattle.ir_text_types.specs.Outcomes.{Returns, Wrong};
ghost use Rattle.ir_text_attributes.specs.Literals.{word_of};
ghost use Rattle.ir_text_attributes.specs.OpaqueAttributes.{tail_in};
ghost use Rattle.ir_text_attributes.specs.declared.tail.Tail.TheVariants.{OpaqueOrNone};
ghost use Rattle.ir_text_attributes.specs.AttrReading.{attr_done, truth_at, string_attr_at, type_attr_at, overflow_at, tail_at, string_at, array_word_at, word_attr, bare_attr, mark_attr, hash_attr, attr_at};

use crate::arrays::array;
use crate::attribute_text::{
    array_text, kept_text, opens_other, quoted_text, signed_text, tail_in,
};
use crate::dense::dense;
use crate::dictionaries::dictionary;
use crate::flags::{flags, has_nsw, has_nuw};
use crate::literals::{literal, negative};
use crate::symbols::symbol;
use crate::tail::Tail;
use crate::tails::{tail, typed};
use ir_text_tokens::lexer;
use ir_text_tokens::refusal::TextRefusal;
use ir_text_tokens::strings::string_value;
use ir_text_tokens::token::{Mark, Token};
use ir_text_types::error::{ReadError, wrong};
use ir_text_types::opaque::dialect_text;
use ir_text_types::steps::{self, after, expect, token};
use ir_text_types::types::{self, token_refusal, ty};
use ir_types::context::Context;
use ir_types::ids::AttrId;
use ir_types::node::{AttrNode, Sign, TypeNode};
use ir_types_interner::lists::Items;
use std::alloc::Global;

/// Interns an attribute node. Returns its id and `rest`, the text after the attribute.
#[tactic(auto, using(ir_types::proofs::Growth::grows_refl, ir_types::proofs::Growth::grows_trans), unfolding(crate::specs::AttrReading::attr_done))]
pub(crate) fn intern_node<'a>(
    ctx: &mut Context,
    node: AttrNode,
    rest: &'a [u8],
) -> Result<(AttrId, &'a [u8]), ReadError>
    requires { AttrIsOf ctx.old node }
    ensures reads { Returns (λ x. (x.0, (x.1.now, ctx.new))) result (attr_done node (rest.now, ctx.old)) }
    ensures grows { IsExtendedBy ctx.old ctx.new }
{
    let id = steps::attr(ctx, node, rest)?;
    Ok((id, rest))
}

/// Interns the unit attribute (Builtin Dialect, "UnitAttr"). Returns its id and `rest`.
#[tactic(auto, using(ir_types::proofs::Growth::grows_refl, ir_types::proofs::Growth::grows_trans))]
pub fn unit<'a>(ctx: &mut Context, rest: &'a [u8]) -> Result<(AttrId, &'a [u8]), ReadError>
    ensures reads { Returns (λ x. (x.0, (x.1.now, ctx.new))) result (attr_done AttrNode.Unit (rest.now, ctx.old)) }
    ensures grows { IsExtendedBy ctx.old ctx.new }
{
    intern_node(ctx, AttrNode::Unit, rest)
}

/// Interns `true` or `false` as 1 or 0 of type `i1` (Builtin Dialect, "IntegerAttr").
#[tactic(auto, using(ir_types::proofs::Growth::grows_refl, ir_types::proofs::Growth::grows_trans), unfolding(crate::specs::AttrReading::truth_at))]
fn truth<'a>(
    ctx: &mut Context,
    is_true: bool,
    bytes: &'a [u8],
) -> Result<(AttrId, &'a [u8]), ReadError>
    ensures reads { Returns (λ x. (x.0, (x.1.now, ctx.new))) result (truth_at is_true (bytes.now, ctx.old)) }
    ensures grows { IsExtendedBy ctx.old ctx.new }
{
    let bit = TypeNode::Int {
        sign: Sign::Signless,
        width: 1,
    };
    let (ty, rest) = match types::intern_node(ctx, bit, bytes) {
        Ok(found) => found,
        Err(e) => return Err(e),
    };
    let value = if is_true { 1 } else { 0 };
    intern_node(ctx, AttrNode::Int { ty, value }, rest)
}

/// Interns a string attribute, given the text between its quotes (Builtin Dialect, "StringAttr").
#[tactic(auto, using(ir_types::proofs::Growth::grows_refl, ir_types::proofs::Growth::grows_trans), unfolding(crate::specs::AttrReading::string_attr_at))]
fn string<'a>(
    alloc: Global,
    ctx: &mut Context,
    raw: &[u8],
    rest: &'a [u8],
) -> Result<(AttrId, &'a [u8]), ReadError>
    ensures reads { Returns (λ x. (x.0, (x.1.now, ctx.new))) result (string_attr_at raw.now (rest.now, ctx.old)) }
    ensures grows { IsExtendedBy ctx.old ctx.new }
{
    let text = string_value(alloc, raw)?;
    let name = steps::name(ctx, text.as_slice(), rest)?;
    intern_node(ctx, AttrNode::Str(name), rest)
}

/// Parses a type of at most `depth` as an attribute (Builtin Dialect, "TypeAttr").
#[tactic(auto, using(ir_types::proofs::Growth::grows_refl, ir_types::proofs::Growth::grows_trans), unfolding(crate::specs::AttrReading::type_attr_at))]
fn type_attr<'a>(
    alloc: Global,
    ctx: &mut Context,
    bytes: &'a [u8],
    opaque: bool,
    depth: u32,
) -> Result<(AttrId, &'a [u8]), ReadError>
    ensures reads { Returns (λ x. (x.0, (x.1.now, ctx.new))) result (type_attr_at opaque depth (bytes.now, ctx.old)) }
    ensures grows { IsExtendedBy ctx.old ctx.new }
{
    ctx.sound();
    let (id, rest) = match ty(alloc, ctx, bytes, opaque, depth) {
        Ok(found) => found,
        Err(e) => return Err(e),
    };
    intern_node(ctx, AttrNode::Ty(id), rest)
}

/// Parses the overflow flags of an integer operation after their name (`arith` Dialect, "IntegerOverflowFlagsAttr").
#[inline(always)]
#[tactic(auto, using(ir_types::proofs::Growth::grows_refl, ir_types::proofs::Growth::grows_trans), unfolding(crate::specs::AttrReading::overflow_at))]
fn overflow<'a>(
    alloc: Global,
    ctx: &mut Context,
    bytes: &'a [u8],
) -> Result<(AttrId, &'a [u8]), ReadError>
    ensures reads { Returns (λ x. (x.0, (x.1.now, ctx.new))) result (overflow_at (bytes.now, ctx.old)) }
    ensures grows { IsExtendedBy ctx.old ctx.new }
{
    let rest = expect(bytes, Mark::Less)?;
    let (found, rest) = flags(alloc, rest)?;
    let nsw = has_nsw(found.as_slice());
    let nuw = has_nuw(found.as_slice());
    intern_node(ctx, AttrNode::Overflow { nsw, nuw }, rest)
}

/// Parses the rest of a string attribute. `bytes` is the text after the string. If opaque attributes are allowed, a
/// string with a type is one.
#[tactic(auto, using(ir_types::proofs::Growth::grows_refl, ir_types::proofs::Growth::grows_trans))]
fn string_attr<'a>(
    alloc: Global,
    ctx: &mut Context,
    raw: &[u8],
    bytes: &'a [u8],
    opaque: bool,
    types: u32,
) -> Result<(AttrId, &'a [u8]), ReadError>
    ensures reads { Returns (λ x. (x.0, (x.1.now, ctx.new))) result (string_at opaque types raw.now (bytes.now, ctx.old)) }
    ensures grows { IsExtendedBy ctx.old ctx.new }
{
    if !opaque {
        return string(alloc, ctx, raw, bytes);
    }
    match after(bytes, Mark::Colon) {
        Some(rest) => {
            let text = quoted_text(alloc, raw)?;
            typed(alloc, ctx, text, rest, opaque, types)
        }
        None => string(alloc, ctx, raw, bytes),
    }
}

/// Parses a dense array of integers after the word `array`, or an opaque array.
#[tactic(auto, using(ir_types::proofs::Growth::grows_refl, ir_types::proofs::Growth::grows_trans))]
fn array_attr<'a>(
    alloc: Global,
    ctx: &mut Context,
    rest: &'a [u8],
    opaque: bool,
    types: u32,
) -> Result<(AttrId, &'a [u8]), ReadError>
    ensures reads { Returns (λ x. (x.0, (x.1.now, ctx.new))) result (array_word_at opaque types ctx.old rest.now) }
    ensures grows { IsExtendedBy ctx.old ctx.new }
{
    if opaque && opens_other(rest) {
        return match array_text(alloc, rest) {
            Ok((text, trailing)) => {
                let text = Items::new(text);
                tail(alloc, ctx, Tail::NoType, text, trailing, opaque, types)
            }
            Err(e) => Err(e),
        };
    }
    dense(alloc, ctx, rest)
}

/// Parses an attribute that begins with a word and isn't opaque. `bytes` is the text from the word on, and `rest` the
/// text after it. A type is at most `types` deep.
#[tactic(auto, using(ir_types::proofs::Growth::grows_refl, ir_types::proofs::Growth::grows_trans))]
fn word_attr<'a>(
    alloc: Global,
    ctx: &mut Context,
    word: &[u8],
    bytes: &'a [u8],
    rest: &'a [u8],
    opaque: bool,
    types: u32,
) -> Result<(AttrId, &'a [u8]), ReadError>
    ensures reads { Returns (λ x. (x.0, (x.1.now, ctx.new))) result (word_attr opaque types (word_of word.now) (bytes.now, ctx.old) rest.now) }
    ensures grows { IsExtendedBy ctx.old ctx.new }
{
    if word == b"true".as_slice() {
        return truth(ctx, true, rest);
    }
    if word == b"false".as_slice() {
        return truth(ctx, false, rest);
    }
    if word == b"unit".as_slice() {
        return intern_node(ctx, AttrNode::Unit, rest);
    }
    if word == b"array".as_slice() {
        return array_attr(alloc, ctx, rest, opaque, types);
    }
    type_attr(alloc, ctx, bytes, opaque, types)
}

/// Parses an attribute that begins with a word. `bytes` is the text from the word on, and `rest` the text after it.
#[tactic(auto, using(ir_types::proofs::Growth::grows_refl, ir_types::proofs::Growth::grows_trans))]
fn bare_attr<'a>(
    alloc: Global,
    ctx: &mut Context,
    word: &[u8],
    bytes: &'a [u8],
    rest: &'a [u8],
    opaque: bool,
    types: u32,
) -> Result<(AttrId, &'a [u8]), ReadError>
    ensures reads { Returns (λ x. (x.0, (x.1.now, ctx.new))) result (bare_attr opaque types (tail_in opaque word.now) word.now (bytes.now, ctx.old) rest.now) }
    ensures grows { IsExtendedBy ctx.old ctx.new }
{
    let Some(following) = tail_in(opaque, word) else {
        return word_attr(alloc, ctx, word, bytes, rest, opaque, types);
    };
    match kept_text(alloc, word, rest) {
        Ok((text, trailing)) => {
            let text = Items::new(text);
            tail(alloc, ctx, following, text, trailing, opaque, types)
        }
        Err(e) => Err(e),
    }
}

/// Parses an attribute that begins with a punctuation mark. `bytes` is the text from the mark on, and `rest` the text
/// after it. A type is at most `types` deep, and the parts of the attribute are at most `depth` deep.
#[cycle(attr)]
#[tactic(auto, using(ir_types::proofs::Growth::grows_refl, ir_types::proofs::Growth::grows_trans))]
fn mark_attr<'a>(
    alloc: Global,
    ctx: &mut Context,
    mark: Mark,
    bytes: &'a [u8],
    rest: &'a [u8],
    opaque: bool,
    types: u32,
    depth: u32,
) -> Result<(AttrId, &'a [u8]), ReadError>
    ensures reads { Returns (λ x. (x.0, (x.1.now, ctx.new))) result (mark_attr opaque types depth (attr_at opaque depth) mark (bytes.now, ctx.old) rest.now) }
    ensures grows { IsExtendedBy ctx.old ctx.new }
{
    match mark {
        Mark::Minus => negative(alloc, ctx, bytes, rest, opaque, types),
        Mark::OpenRound => type_attr(alloc, ctx, bytes, opaque, types),
        Mark::OpenSquare => array(alloc, ctx, rest, opaque, depth),
        Mark::OpenCurly => dictionary(alloc, ctx, rest, opaque, depth),
        _ => Err(ReadError::Refused(wrong(TextRefusal::Unexpected, bytes))),
    }
}

/// Parses an attribute that begins with `#` and a name: overflow flags, or a dialect's attribute.
#[inline(always)]
#[tactic(auto, using(ir_types::proofs::Growth::grows_refl, ir_types::proofs::Growth::grows_trans))]
fn hash_attr<'a>(
    alloc: Global,
    ctx: &mut Context,
    word: &[u8],
    bytes: &'a [u8],
    rest: &'a [u8],
    opaque: bool,
    types: u32,
) -> Result<(AttrId, &'a [u8]), ReadError>
    ensures reads { Returns (λ x. (x.0, (x.1.now, ctx.new))) result (hash_attr opaque types word.now (bytes.now, ctx.old) rest.now) }
    ensures grows { IsExtendedBy ctx.old ctx.new }
{
    if word == b"arith.overflow".as_slice() {
        return overflow(alloc, ctx, rest);
    }
    if !opaque {
        return Err(ReadError::Refused(wrong(TextRefusal::LeftOut, bytes)));
    }
    match dialect_text(alloc, b'#', word, bytes, rest) {
        Ok((text, trailing)) => tail(alloc, ctx, Tail::TypeOrNone, text, trailing, opaque, types),
        Err(e) => Err(e),
    }
}

/// Parses a float attribute after its digits. `rest` is the text after the digits.
#[tactic(auto, using(ir_types::proofs::Growth::grows_refl, ir_types::proofs::Growth::grows_trans))]
fn float_attr<'a>(
    alloc: Global,
    ctx: &mut Context,
    digits: &[u8],
    bytes: &[u8],
    rest: &'a [u8],
    opaque: bool,
    types: u32,
) -> Result<(AttrId, &'a [u8]), ReadError>
    ensures reads { Returns (λ x. (x.0, (x.1.now, ctx.new))) result (if opaque then tail_at opaque types OpaqueOrNone digits.now (rest.now, ctx.old) else Wrong) }
    ensures grows { IsExtendedBy ctx.old ctx.new }
{
    if !opaque {
        return Err(ReadError::Refused(wrong(TextRefusal::LeftOut, bytes)));
    }
    let text = signed_text(alloc, false, digits)?;
    tail(alloc, ctx, Tail::OpaqueOrNone, text, rest, opaque, types)
}

/// Returns whether a punctuation mark begins an attribute.
fn mark_begins(mark: Mark) -> bool {
    match mark {
        Mark::Minus => true,
        Mark::OpenRound => true,
        Mark::OpenSquare => true,
        Mark::OpenCurly => true,
        _ => false,
    }
}

/// Returns `TooDeep` if an attribute begins here, and otherwise why none does.
fn past_refusal(bytes: &[u8], opaque: bool) -> TextRefusal {
    let Ok((found, _)) = token(bytes) else {
        return TextRefusal::Unexpected;
    };
    match found {
        Token::Bare(_) => TextRefusal::TooDeep,
        Token::Integer(_) => TextRefusal::TooDeep,
        Token::String(_) => TextRefusal::TooDeep,
        Token::Symbol(_) => TextRefusal::TooDeep,
        Token::Quoted(_) => TextRefusal::TooDeep,
        Token::Mark(mark) if mark_begins(mark) => TextRefusal::TooDeep,
        Token::Hash(word) if word == b"arith.overflow".as_slice() => TextRefusal::TooDeep,
        Token::Hash(_) if opaque => TextRefusal::TooDeep,
        Token::Bang(_) if opaque => TextRefusal::TooDeep,
        Token::Float(_) if opaque => TextRefusal::TooDeep,
        _ => token_refusal(&found),
    }
}

/// Parses an attribute of at most `depth`, and interns the attribute and its parts. It is a literal, a truth value, a
/// string, `unit`, a type, a symbol reference, an array, a dictionary, a dense array, or overflow flags.
///
/// Refusals, each at the first byte of its token:
///
/// - those of the lexer and those of types; `Unexpected`; `LeftOut` for an unsupported attribute or type;
/// - `TooDeep` at the part that is too deep;
/// - `BadValue` for a literal, at its minus sign if it has one, that doesn't fit its type or is over 2^128 - 1;
/// - `TypeMismatch` at the type of a literal that is neither an integer type nor `index`;
/// - `DuplicateKey` at a repeated key, and `TooMany` at the 257th entry of a dictionary.
#[cycle(attr)]
#[tactic(auto, using(ir_types::proofs::Growth::grows_refl, ir_types::proofs::Growth::grows_trans), unfolding(crate::specs::AttrReading::attr_at))]
pub fn attr<'a>(
    alloc: Global,
    ctx: &mut Context,
    bytes: &'a [u8],
    opaque: bool,
    depth: u32,
) -> Result<(AttrId, &'a [u8]), ReadError>
    ensures reads { Returns (λ x. (x.0, (x.1.now, ctx.new))) result (attr_at opaque depth (bytes.now, ctx.old)) }
    ensures grows { IsExtendedBy ctx.old ctx.new }
{
    if depth == 0 {
        return Err(ReadError::Refused(wrong(past_refusal(bytes, opaque), bytes)));
    }
    if let Some((word, rest)) = lexer::hash(bytes) {
        return hash_attr(alloc, ctx, word, bytes, rest, opaque, depth);
    }
    let (found, rest) = token(bytes)?;
    match found {
        Token::Bare(word) => bare_attr(alloc, ctx, word, bytes, rest, opaque, depth),
        Token::Mark(mark) => mark_attr(alloc, ctx, mark, bytes, rest, opaque, depth, depth - 1),
        Token::Integer(digits) => literal(alloc, ctx, bytes, false, digits, rest, opaque),
        Token::Float(digits) => float_attr(alloc, ctx, digits, bytes, rest, opaque, depth),
        Token::String(raw) => string_attr(alloc, ctx, raw, rest, opaque, depth),
        Token::Symbol(_) => symbol(alloc, ctx, bytes),
        Token::Quoted(_) => symbol(alloc, ctx, bytes),
        Token::Hash(word) => hash_attr(alloc, ctx, word, bytes, rest, opaque, depth),
        Token::Bang(_) => type_attr(alloc, ctx, bytes, opaque, depth),
        _ => Err(ReadError::Refused(wrong(token_refusal(&found), bytes))),
    }
}
