//! Opaque types, which are stored as their texts: the words that begin them, and their texts.
ghost use Rattle.std.specs.Prelude.{◌≡◌, ◌∷◌, IfOk};
ghost use Rattle.ir_text_types.specs.OpaqueTypes.{dialect_text, is_alone, is_angled, is_one_of, is_opaque_word, narrow_words, wide_words, with_body, word_text};
ghost use Rattle.ir_text_types.specs.Outcomes.{Returns, of_option};

use crate::error::{ReadError, wrong};
use crate::scalars::is_memref;
use ir_text_tokens::bodies::{body, has_dot, is_plain_memref};
use ir_text_tokens::lexer::skip;
use ir_text_tokens::refusal::TextRefusal;
use ir_types_interner::lists::Items;
use std::alloc::{AllocError, Global};

/// Returns whether the word is a float type of 16 bits or more, or `none`.
fn is_wide(word: &[u8]) -> bool
    ensures { result ≡ is_one_of wide_words word.now }
{
    if word == b"f16".as_slice() {
        return true;
    }
    if word == b"bf16".as_slice() {
        return true;
    }
    if word == b"tf32".as_slice() {
        return true;
    }
    if word == b"f32".as_slice() {
        return true;
    }
    if word == b"f64".as_slice() {
        return true;
    }
    if word == b"f80".as_slice() {
        return true;
    }
    if word == b"f128".as_slice() {
        return true;
    }
    word == b"none".as_slice()
}

/// Returns whether the word is a float type of 8, 6 or 4 bits.
fn is_narrow(word: &[u8]) -> bool
    ensures { result ≡ is_one_of narrow_words word.now }
{
    if word == b"f8E5M2".as_slice() {
        return true;
    }
    if word == b"f8E4M3".as_slice() {
        return true;
    }
    if word == b"f8E4M3FN".as_slice() {
        return true;
    }
    if word == b"f8E5M2FNUZ".as_slice() {
        return true;
    }
    if word == b"f8E4M3FNUZ".as_slice() {
        return true;
    }
    if word == b"f8E4M3B11FNUZ".as_slice() {
        return true;
    }
    if word == b"f8E3M4".as_slice() {
        return true;
    }
    if word == b"f8E8M0FNU".as_slice() {
        return true;
    }
    if word == b"f6E2M3FN".as_slice() {
        return true;
    }
    if word == b"f6E3M2FN".as_slice() {
        return true;
    }
    word == b"f4E2M1FN".as_slice()
}

/// Returns whether the word alone is an opaque type.
#[tactic(auto, unfolding(crate::specs::OpaqueTypes::is_alone))]
pub fn is_alone(word: &[u8]) -> bool
    ensures { result ≡ is_alone word.now }
{
    is_wide(word) || is_narrow(word)
}

/// Returns whether an opaque type is this word and a body in angle brackets.
#[tactic(auto, unfolding(crate::specs::OpaqueTypes::is_angled))]
fn is_angled(word: &[u8]) -> bool
    ensures { result ≡ is_angled word.now }
{
    if word == b"tensor".as_slice() {
        return true;
    }
    if word == b"vector".as_slice() {
        return true;
    }
    if word == b"complex".as_slice() {
        return true;
    }
    word == b"tuple".as_slice()
}

/// Returns whether the word begins an opaque type, given the text after the word.
pub fn is_opaque_word(word: &[u8], rest: &[u8]) -> bool
    ensures { result ≡ is_opaque_word word.now rest.now }
{
    is_alone(word) || is_angled(word) || is_memref(word) && !is_plain_memref(rest)
}

/// Returns `front` with the body at the start of `bytes` appended, and the rest of the text.
fn with_body<'a>(preceding: Vec<u8>, bytes: &'a [u8]) -> Result<(Items<u8>, &'a [u8]), ReadError>
    ensures { Returns (λ x. (x.0, x.1.now)) result (of_option (with_body preceding.items bytes.now)) }
{
    let mut text = preceding;
    let (inside, rest) = match body(bytes) {
        Ok(found) => found,
        Err(fault) => return Err(ReadError::Refused(fault)),
    };
    text.extend_from_slice(inside)?;
    Ok((Items::new(text), rest))
}

/// Returns the text of the opaque type that begins with `word`, and the rest of the text. The result omits blanks
/// after the word.
///
/// Refusals: `Unexpected` if no `<` follows, and those of bodies.
pub fn word_text<'a>(
    alloc: Global,
    word: &[u8],
    rest: &'a [u8],
) -> Result<(Items<u8>, &'a [u8]), ReadError>
    ensures { Returns (λ x. (x.0, x.1.now)) result (of_option (word_text word.now rest.now)) }
{
    let preceding = Vec::from_slice(alloc, word)?;
    if is_alone(word) {
        return Ok((Items::new(preceding), rest));
    }
    let bytes = skip(rest);
    match bytes {
        [b'<', ..] => with_body(preceding, bytes),
        _ => Err(ReadError::Refused(wrong(TextRefusal::Unexpected, bytes))),
    }
}

/// Returns a sigil followed by a dialect's name.
fn signed(alloc: Global, sign: u8, name: &[u8]) -> Result<Vec<u8>, AllocError>
    ensures { IfOk result (λ v. v.items ≡ sign ∷ name.now) }
{
    let mut text = Vec::new(alloc);
    text.push(sign)?;
    text.extend_from_slice(name)?;
    Ok(text)
}

/// Returns the text of a type or attribute that begins with a dialect's name, and the rest of the text. The result is
/// the name and the body directly after it, or the name alone if it has a dot. The sigil is at `start`.
///
/// Refusals: `LeftOut` if the name has neither, since it is an alias, and those of bodies.
pub fn dialect_text<'a>(
    alloc: Global,
    sign: u8,
    name: &[u8],
    start: &[u8],
    rest: &'a [u8],
) -> Result<(Items<u8>, &'a [u8]), ReadError>
    ensures { Returns (λ x. (x.0, x.1.now)) result (of_option (dialect_text sign name.now rest.now)) }
{
    let preceding = signed(alloc, sign, name)?;
    if matches!(rest, [b'<', ..]) {
        return with_body(preceding, rest);
    }
    if has_dot(name) {
        Ok((Items::new(preceding), rest))
    } else {
        Err(ReadError::Refused(wrong(TextRefusal::LeftOut, start)))
    }
}
