//! Dense arrays of integers. Builtin Dialect, "DenseArrayAttr".
ghost use Rattle.std.specs.Prelude.{◌≡◌, ◌<◌, ◌≤◌, ◌^◌, IfSome, is_some};
ghost use Rattle.ir_types.specs.Things.{ContextModel, IsExtendedBy};
ghost use Rattle.ir_types.specs.Readings as readings;
ghost use Rattle.ir_types.specs.Readings.{reading_of};
ghost use Rattle.ir_text_types.specs.Outcomes.{Returns};
ghost use Rattle.ir_text_attributes.specs.Elements.{bits_of, type_of, element_named, item_bits, item_value};
ghost use Rattle.ir_text_attributes.specs.Literals.{truth_bits, word_of};
ghost use Rattle.ir_text_attributes.specs.declared.element.Element.TheVariants.{I1};
ghost use Rattle.ir_text_attributes.specs.AttrReading.{element_at, truth_item, number_item, minus_item, mark_item, item_at, some_items_at, no_items_at, items_at, dense_done, dense_at};

use crate::attributes::intern_node;
use crate::element::Element;
use ir_text_tokens::numbers::integer_value;
use ir_text_tokens::refusal::TextRefusal;
use ir_text_tokens::token::{Mark, Token};
use ir_text_types::error::{ReadError, wrong};
use ir_text_types::scalars::word_refusal;
use ir_text_types::steps::{after, expect, token};
use ir_text_types::types::{self, MANY, token_refusal};
use ir_types::context::Context;
use ir_types::ids::AttrId;
use ir_types::node::{AttrNode, Sign, TypeNode};
use ir_types::readings::{literal_bits, signed_number};
use ir_types_interner::lists::Items;
use std::alloc::Global;

/// Returns the element type that a word names.
fn element_named(word: &[u8]) -> Option<Element>
    ensures { result ≡ element_named word.now }
{
    if word == b"i1".as_slice() {
        return Some(Element::I1);
    }
    if word == b"i8".as_slice() {
        return Some(Element::I8);
    }
    if word == b"i16".as_slice() {
        return Some(Element::I16);
    }
    if word == b"i32".as_slice() {
        return Some(Element::I32);
    }
    if word == b"i64".as_slice() {
        return Some(Element::I64);
    }
    None
}

/// Returns whether a word names an element type.
pub(crate) fn is_element(word: &[u8]) -> bool
    ensures { result ≡ is_some (element_named word.now) }
{
    element_named(word).is_some()
}

/// Returns the number of bits of an element type.
fn bits_of(element: &Element) -> u32
    ensures bits { result ≡ bits_of element.now }
    ensures low { 1 ≤ result }
    ensures high { result ≤ 64 }
{
    match element {
        Element::I1 => 1,
        Element::I8 => 8,
        Element::I16 => 16,
        Element::I32 => 32,
        Element::I64 => 64,
    }
}

/// Parses an element type.
#[tactic(auto, unfolding(crate::specs::AttrReading::element_at))]
fn element(bytes: &[u8]) -> Result<(Element, &[u8]), ReadError>
    ensures { (c : ContextModel) → Returns (λ x. (x.0, (x.1.now, c))) result (element_at (bytes.now, c)) }
{
    let (found, rest) = token(bytes)?;
    match found {
        Token::Bare(word) => match element_named(word) {
            Some(element) => Ok((element, rest)),
            None => Err(ReadError::Refused(wrong(word_refusal(word), bytes))),
        },
        Token::Mark(Mark::OpenRound) => {
            Err(ReadError::Refused(wrong(TextRefusal::LeftOut, bytes)))
        }
        _ => Err(ReadError::Refused(wrong(token_refusal(&found), bytes))),
    }
}

/// Returns the bits of a literal, or `None` if the literal doesn't fit the element type.
fn literal_in(element: &Element, negative: bool, magnitude: u128) -> Option<u128>
    ensures bits { result ≡ readings.literal_bits (type_of element.now) negative magnitude }
    ensures below { IfSome result (λ bits. bits < 2 ^ bits_of element.now) }
{
    let node = TypeNode::Int {
        sign: Sign::Signless,
        width: bits_of(element),
    };
    literal_bits(&node, negative, magnitude)
}

/// Returns the bits of the element type that the digits denote, after a minus sign if `negative`.
fn item_bits(element: &Element, negative: bool, digits: &[u8]) -> Option<u128>
    ensures bits { result ≡ item_bits (type_of element.now) negative digits.now }
    ensures below { IfSome result (λ bits. bits < 2 ^ bits_of element.now) }
{
    let magnitude = integer_value(digits)?;
    literal_in(element, negative, magnitude)
}

/// Returns the number that the bits of an element type denote.
fn reading(element: &Element, bits: u128) -> i64
    requires { bits < 2 ^ bits_of element.now }
    ensures { result ≡ reading_of (type_of element.now) bits }
{
    signed_number(bits_of(element), bits) as i64
}

/// Returns the value of the element type that the digits denote, after a minus sign if `negative`.
fn item_value(element: &Element, negative: bool, digits: &[u8]) -> Option<i64>
    ensures { result ≡ item_value (type_of element.now) negative digits.now }
{
    let bits = item_bits(element, negative, digits)?;
    Some(reading(element, bits))
}

/// Returns an item, given its digits, and `rest`. The item begins at `start`, with its minus sign if it has one.
fn number_item<'a>(
    element: &Element,
    negative: bool,
    digits: &[u8],
    start: &[u8],
    rest: &'a [u8],
) -> Result<(i64, &'a [u8]), ReadError>
    ensures { (c : ContextModel) → Returns (λ x. (x.0, (x.1.now, c))) result (number_item (type_of element.now) negative digits.now (rest.now, c)) }
{
    match item_value(element, negative, digits) {
        Some(value) => Ok((value, rest)),
        None => Err(ReadError::Refused(wrong(TextRefusal::BadValue, start))),
    }
}

/// Returns the number that the bit of a truth value denotes.
#[tactic(auto, unfolding(ir_types::specs::Readings::signed_of))]
fn truth_value(is_true: bool) -> i64
    ensures { result ≡ reading_of (type_of I1) (truth_bits is_true) }
{
    if is_true { -1 } else { 0 }
}

/// Returns a truth value as an item. `rest` is the text after its word.
fn truth_item<'a>(
    element: &Element,
    word: &[u8],
    bytes: &[u8],
    rest: &'a [u8],
) -> Result<(i64, &'a [u8]), ReadError>
    ensures { (c : ContextModel) → Returns (λ x. (x.0, (x.1.now, c))) result (truth_item (type_of element.now) (word_of word.now) (rest.now, c)) }
{
    let is_bit = matches!(element, Element::I1);
    if is_bit && word == b"true".as_slice() {
        return Ok((truth_value(true), rest));
    }
    if is_bit && word == b"false".as_slice() {
        return Ok((truth_value(false), rest));
    }
    Err(ReadError::Refused(wrong(TextRefusal::Unexpected, bytes)))
}

/// Parses an item after its minus sign, which is at `start`.
#[tactic(auto, unfolding(crate::specs::AttrReading::minus_item))]
fn minus_item<'a>(
    element: &Element,
    start: &[u8],
    bytes: &'a [u8],
) -> Result<(i64, &'a [u8]), ReadError>
    ensures { (c : ContextModel) → Returns (λ x. (x.0, (x.1.now, c))) result (minus_item (type_of element.now) (bytes.now, c)) }
{
    let (found, rest) = token(bytes)?;
    match found {
        Token::Integer(digits) => number_item(element, true, digits, start, rest),
        _ => Err(ReadError::Refused(wrong(TextRefusal::Unexpected, bytes))),
    }
}

/// Parses an item that begins with a punctuation mark.
fn mark_item<'a>(
    element: &Element,
    mark: Mark,
    bytes: &[u8],
    rest: &'a [u8],
) -> Result<(i64, &'a [u8]), ReadError>
    ensures { (c : ContextModel) → Returns (λ x. (x.0, (x.1.now, c))) result (mark_item (type_of element.now) mark (rest.now, c)) }
{
    match mark {
        Mark::Minus => minus_item(element, bytes, rest),
        _ => Err(ReadError::Refused(wrong(TextRefusal::Unexpected, bytes))),
    }
}

/// Parses an item: a literal of the element type, or a truth value if the element type is `i1`.
#[tactic(auto, unfolding(crate::specs::AttrReading::item_at))]
fn item<'a>(element: &Element, bytes: &'a [u8]) -> Result<(i64, &'a [u8]), ReadError>
    ensures { (c : ContextModel) → Returns (λ x. (x.0, (x.1.now, c))) result (item_at (type_of element.now) (bytes.now, c)) }
{
    let (found, rest) = token(bytes)?;
    match found {
        Token::Bare(word) => truth_item(element, word, bytes, rest),
        Token::Integer(digits) => number_item(element, false, digits, bytes, rest),
        Token::Mark(mark) => mark_item(element, mark, bytes, rest),
        _ => Err(ReadError::Refused(wrong(TextRefusal::Unexpected, bytes))),
    }
}

/// Parses comma-separated items up to the closing mark.
#[tactic(auto, unfolding(crate::specs::AttrReading::some_items_at))]
fn some_items<'a>(
    alloc: Global,
    element: &Element,
    bytes: &'a [u8],
) -> Result<(Vec<i64>, &'a [u8]), ReadError>
    ensures { (c : ContextModel) → Returns (λ x. (x.0.items, (x.1.now, c))) result (some_items_at (type_of element.now) (bytes.now, c)) }
{
    let mut items = Vec::new(alloc);
    let mut rest = bytes;
    'items: for _ in 0..MANY {
        let (item, tail) = match item(element, rest) {
            Ok(found) => found,
            Err(e) => return Err(e),
        };
        items.push(item)?;
        if let Some(end) = after(tail, Mark::Greater) {
            return Ok((items, end));
        }
        rest = expect(tail, Mark::Comma)?;
    }
    Err(ReadError::Refused(wrong(TextRefusal::TooMany, rest)))
}

/// Parses an empty list of items: the closing mark directly after the element type.
#[tactic(auto, unfolding(crate::specs::AttrReading::no_items_at))]
fn no_items(alloc: Global, bytes: &[u8]) -> Result<(Vec<i64>, &[u8]), ReadError>
    ensures { (c : ContextModel) → Returns (λ x. (x.0.items, (x.1.now, c))) result (no_items_at (bytes.now, c)) }
{
    let rest = expect(bytes, Mark::Greater)?;
    Ok((Vec::new(alloc), rest))
}

/// Parses the items after a colon, or an empty list, up to the closing mark.
#[tactic(auto, unfolding(crate::specs::AttrReading::items_at))]
fn items<'a>(
    alloc: Global,
    element: &Element,
    bytes: &'a [u8],
) -> Result<(Vec<i64>, &'a [u8]), ReadError>
    ensures { (c : ContextModel) → Returns (λ x. (x.0.items, (x.1.now, c))) result (items_at (type_of element.now) (bytes.now, c)) }
{
    match after(bytes, Mark::Colon) {
        Some(rest) => some_items(alloc, element, rest),
        None => no_items(alloc, bytes),
    }
}

/// Parses a dense array after its element type.
#[tactic(auto, using(ir_types::proofs::Growth::grows_refl, ir_types::proofs::Growth::grows_trans), unfolding(crate::specs::AttrReading::dense_done))]
fn dense_of<'a>(
    alloc: Global,
    ctx: &mut Context,
    element: &Element,
    bytes: &'a [u8],
) -> Result<(AttrId, &'a [u8]), ReadError>
    ensures reads { Returns (λ x. (x.0, (x.1.now, ctx.new))) result (dense_done element.now (bytes.now, ctx.old)) }
    ensures grows { IsExtendedBy ctx.old ctx.new }
{
    let node = TypeNode::Int {
        sign: Sign::Signless,
        width: bits_of(element),
    };
    let (elem, rest) = match types::intern_node(ctx, node, bytes) {
        Ok(found) => found,
        Err(e) => return Err(e),
    };
    let (values, rest) = items(alloc, element, rest)?;
    let values = Items::new(values);
    intern_node(ctx, AttrNode::Dense { elem, values }, rest)
}

/// Parses a dense array after the word `array`.
///
/// Refusals: `Unexpected` if no `<` follows; `LeftOut` or `BadWidth` at another element type; `BadValue` at an item,
/// or at its minus sign, that doesn't fit.
#[tactic(auto, using(ir_types::proofs::Growth::grows_refl, ir_types::proofs::Growth::grows_trans), unfolding(crate::specs::AttrReading::dense_at))]
pub(crate) fn dense<'a>(
    alloc: Global,
    ctx: &mut Context,
    bytes: &'a [u8],
) -> Result<(AttrId, &'a [u8]), ReadError>
    ensures reads { Returns (λ x. (x.0, (x.1.now, ctx.new))) result (dense_at (bytes.now, ctx.old)) }
    ensures grows { IsExtendedBy ctx.old ctx.new }
{
    let rest = expect(bytes, Mark::Less)?;
    let (element, rest) = element(rest)?;
    dense_of(alloc, ctx, &element, rest)
}
