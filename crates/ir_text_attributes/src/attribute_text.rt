//! Opaque attributes, which are stored as their texts: the words that begin them, and their texts.
ghost use Rattle.std.specs.Prelude.{◌≡◌, IfOk};
ghost use Rattle.ir_text_types.specs.OpaqueTypes.{bracketed, is_one_of};
ghost use Rattle.ir_text_types.specs.Outcomes.{Returns, of_option};
ghost use Rattle.ir_text_attributes.specs.OpaqueAttributes.{are_some_digits, after_i, bodied_words, has_bad_width, is_hexadecimal, is_other_element, kept_text, opens_other, quoted_text, signed_text, tail_in, tail_of, typed_words, width_digits, with_angles};
ghost use Rattle.ir_text_attributes.specs.Literals.{array_word};
ghost use Rattle.ir_text_tokens.specs.Tokens.{lexeme_of, skip};

use crate::dense::is_element;
use crate::tail::Tail;
use ir_text_tokens::bodies::body;
use ir_text_tokens::lexer::{skip, token};
use ir_text_tokens::numbers::are_digits;
use ir_text_tokens::refusal::TextRefusal;
use ir_text_tokens::token::{Mark, Token};
use ir_text_types::error::{ReadError, wrong};
use ir_text_types::scalars::scalar_of;
use ir_text_types::steps::after;
use ir_types_interner::lists::Items;
use std::alloc::{AllocError, Global};

/// Returns whether an opaque attribute is this word, a body and a type.
fn is_typed(word: &[u8]) -> bool
    ensures { result ≡ is_one_of typed_words word.now }
{
    if word == b"dense".as_slice() {
        return true;
    }
    if word == b"sparse".as_slice() {
        return true;
    }
    word == b"dense_resource".as_slice()
}

/// Returns whether an opaque attribute is this word, a body and an optional type.
fn is_bodied(word: &[u8]) -> bool
    ensures { result ≡ is_one_of bodied_words word.now }
{
    if word == b"affine_map".as_slice() {
        return true;
    }
    if word == b"affine_set".as_slice() {
        return true;
    }
    word == b"strided".as_slice()
}

/// Returns what follows the text of the opaque attribute that begins with `word`, or `None` if none does.
#[tactic(auto, unfolding(crate::specs::OpaqueAttributes::tail_of))]
fn tail_of(word: &[u8]) -> Option<Tail>
    ensures { result ≡ tail_of word.now }
{
    if is_typed(word) {
        return Some(Tail::SomeType);
    }
    if is_bodied(word) {
        return Some(Tail::TypeOrNone);
    }
    if word == b"distinct".as_slice() || word == b"loc".as_slice() {
        return Some(Tail::NoType);
    }
    None
}

/// Returns what `tail_of` returns if opaque attributes are allowed, otherwise `None`.
pub(crate) fn tail_in(opaque: bool, word: &[u8]) -> Option<Tail>
    ensures { result ≡ tail_in opaque word.now }
{
    if opaque { tail_of(word) } else { None }
}

/// The text of an opaque attribute, and the rest of the text after it.
type TextAndRest<'a> = (Vec<u8>, &'a [u8]);

/// Returns `front` with the body at the start of `bytes` appended, and the rest of the text. The body must begin with
/// `bracket`.
fn with_bracket<'a>(
    preceding: Vec<u8>,
    bracket: u8,
    bytes: &'a [u8],
) -> Result<TextAndRest<'a>, ReadError>
    ensures { Returns (λ x. (x.0.items, x.1.now)) result (of_option (bracketed bracket preceding.items bytes.now)) }
{
    let is_begun = match bytes {
        [first, ..] => *first == bracket,
        [] => false,
    };
    if !is_begun {
        return Err(ReadError::Refused(wrong(TextRefusal::Unexpected, bytes)));
    }
    let mut text = preceding;
    let (inside, rest) = match body(bytes) {
        Ok(found) => found,
        Err(fault) => return Err(ReadError::Refused(fault)),
    };
    text.extend_from_slice(inside)?;
    Ok((text, rest))
}

/// Returns `front` with the body in angle brackets appended, if one follows, and the rest of the text.
fn with_angles<'a>(preceding: Vec<u8>, rest: &'a [u8]) -> Result<TextAndRest<'a>, ReadError>
    ensures { Returns (λ x. (x.0.items, x.1.now)) result (of_option (with_angles (preceding.items, rest.now))) }
{
    let bytes = skip(rest);
    match bytes {
        [b'<', ..] => with_bracket(preceding, b'<', bytes),
        _ => Ok((preceding, rest)),
    }
}

/// Returns the text of the opaque attribute that begins with `word`, and the rest of the text. The result has no
/// blanks between the parts of the attribute.
///
/// Refusals: `Unexpected` if the word's bracket doesn't follow, and those of bodies.
#[tactic(auto, unfolding(crate::specs::OpaqueAttributes::kept_text))]
pub(crate) fn kept_text<'a>(
    alloc: Global,
    word: &[u8],
    rest: &'a [u8],
) -> Result<TextAndRest<'a>, ReadError>
    ensures { Returns (λ x. (x.0.items, x.1.now)) result (of_option (kept_text word.now rest.now)) }
{
    let preceding = Vec::from_slice(alloc, word)?;
    if word == b"distinct".as_slice() {
        let (text, rest) = match with_bracket(preceding, b'[', skip(rest)) {
            Ok(found) => found,
            Err(e) => return Err(e),
        };
        return with_angles(text, rest);
    }
    if word == b"loc".as_slice() {
        return with_bracket(preceding, b'(', skip(rest));
    }
    with_bracket(preceding, b'<', skip(rest))
}

/// Returns the text of an opaque array and the rest of the text, given the text after the word `array`.
pub(crate) fn array_text<'a>(alloc: Global, rest: &'a [u8]) -> Result<TextAndRest<'a>, ReadError>
    ensures { Returns (λ x. (x.0.items, x.1.now)) result (of_option (bracketed 60 array_word (skip rest.now))) }
{
    let preceding = Vec::from_slice(alloc, b"array")?;
    with_bracket(preceding, b'<', skip(rest))
}

/// Returns a string literal with its quotes, as written in the text.
pub(crate) fn quoted_text(alloc: Global, raw: &[u8]) -> Result<Items<u8>, AllocError>
    ensures { IfOk result (λ t. t ≡ quoted_text raw.now) }
{
    let mut text = Vec::new(alloc);
    text.push(b'"')?;
    text.extend_from_slice(raw)?;
    text.push(b'"')?;
    Ok(Items::new(text))
}

/// Returns the digits, after a minus sign if `negative`.
pub(crate) fn signed_text(
    alloc: Global,
    negative: bool,
    digits: &[u8],
) -> Result<Items<u8>, AllocError>
    ensures { IfOk result (λ t. t ≡ signed_text negative digits.now) }
{
    let mut text = Vec::new(alloc);
    if negative {
        text.push(b'-')?;
    }
    text.extend_from_slice(digits)?;
    Ok(Items::new(text))
}

/// Returns whether the digits are hexadecimal.
pub(crate) fn is_hexadecimal(digits: &[u8]) -> bool
    ensures { result ≡ is_hexadecimal digits.now }
{
    matches!(digits, [b'0', b'x', ..])
}

/// Returns the text after the leading `i`, or the empty text if there is no `i`.
fn after_i(word: &[u8]) -> &[u8]
    ensures { result.now ≡ after_i word.now }
{
    match word {
        [b'i', rest @ ..] => rest,
        _ => &[],
    }
}

/// Returns the text after `i`, `si` or `ui`.
fn width_digits(word: &[u8]) -> &[u8]
    ensures { result.now ≡ width_digits word.now }
{
    match word {
        [b'i', rest @ ..] => rest,
        [b's', rest @ ..] => after_i(rest),
        [b'u', rest @ ..] => after_i(rest),
        _ => &[],
    }
}

/// Returns whether the text is one or more decimal digits.
fn are_some_digits(digits: &[u8]) -> bool
    ensures { result ≡ are_some_digits digits.now }
{
    match digits {
        [] => false,
        [_, ..] => are_digits(digits),
    }
}

/// Returns whether the word is an integer type of an invalid width.
fn has_bad_width(word: &[u8]) -> bool
    ensures { result ≡ has_bad_width word.now }
{
    are_some_digits(width_digits(word)) && scalar_of(word).is_none()
}

/// Returns whether the token begins an element type that no dense array of integers has.
fn is_other_element(found: &Token<'_>) -> bool
    ensures { result ≡ is_other_element (lexeme_of found.now) }
{
    match found {
        Token::Bare(word) => !is_element(word) && !has_bad_width(word),
        Token::Bang(_) => true,
        Token::Hash(_) => true,
        Token::Float(_) => true,
        Token::Mark(mark) => matches!(mark, Mark::OpenRound),
        _ => false,
    }
}

/// Returns whether the array is opaque. `bytes` is the text after the word `array`.
#[tactic(auto, unfolding(crate::specs::OpaqueAttributes::opens_other))]
pub(crate) fn opens_other(bytes: &[u8]) -> bool
    ensures { result ≡ opens_other bytes.now }
{
    let Some(rest) = after(bytes, Mark::Less) else {
        return false;
    };
    match token(rest) {
        Ok((found, _)) => is_other_element(&found),
        Err(_) => false,
    }
}
