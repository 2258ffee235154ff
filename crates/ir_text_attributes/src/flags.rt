//! Parses the overflow flags of integer operations. `arith` Dialect, "IntegerOverflowFlagsAttr".
ghost use Rattle.std.specs.Prelude.{◌≡◌, Some};
ghost use Rattle.ir_types.specs.Things.{ContextModel};
ghost use Rattle.ir_text_tokens.specs.Tokens.{next, bare};
ghost use Rattle.ir_text_types.specs.Outcomes.{Returns};
ghost use Rattle.ir_text_attributes.specs.Literals.{flag_of, is_nsw, is_nuw, has_nsw, has_nuw};
ghost use Rattle.ir_text_attributes.specs.AttrReading.{flag_at, some_flags_at, no_flags_at, flags_at};

use crate::flag::Flag;
use ir_text_tokens::lexer;
use ir_text_tokens::refusal::TextRefusal;
use ir_text_tokens::token::{Mark, Token};
use ir_text_types::error::{ReadError, wrong};
use ir_text_types::steps::{after, expect, token};
use ir_text_types::types::MANY;
use std::alloc::Global;

/// Returns the flag that a word names.
fn flag_of(word: &[u8]) -> Option<Flag>
    ensures { result ≡ flag_of word.now }
{
    if word == b"nsw".as_slice() {
        return Some(Flag::NoSignedWrap);
    }
    if word == b"nuw".as_slice() {
        return Some(Flag::NoUnsignedWrap);
    }
    None
}

fn is_nsw(flag: Flag) -> bool
    ensures { result ≡ is_nsw flag }
{
    match flag {
        Flag::NoSignedWrap => true,
        Flag::NoUnsignedWrap => false,
    }
}

fn is_nuw(flag: Flag) -> bool
    ensures { result ≡ is_nuw flag }
{
    match flag {
        Flag::NoSignedWrap => false,
        Flag::NoUnsignedWrap => true,
    }
}

/// Returns whether `nsw` is among the flags.
pub(crate) fn has_nsw(flags: &[Flag]) -> bool
    ensures { result ≡ has_nsw flags.now }
{
    flags.iter().any(|flag| is_nsw(*flag))
}

/// Returns whether `nuw` is among the flags.
pub(crate) fn has_nuw(flags: &[Flag]) -> bool
    ensures { result ≡ has_nuw flags.now }
{
    flags.iter().any(|flag| is_nuw(*flag))
}

/// Parses one flag.
#[tactic(auto, unfolding(crate::specs::AttrReading::flag_at))]
fn flag(bytes: &[u8]) -> Result<(Flag, &[u8]), ReadError>
    ensures { (c : ContextModel) → Returns (λ x. (x.0, (x.1.now, c))) result (flag_at (bytes.now, c)) }
{
    let (found, rest) = token(bytes)?;
    match found {
        Token::Bare(word) => match flag_of(word) {
            Some(flag) => Ok((flag, rest)),
            None => Err(ReadError::Refused(wrong(TextRefusal::Unexpected, bytes))),
        },
        _ => Err(ReadError::Refused(wrong(TextRefusal::Unexpected, bytes))),
    }
}

/// Parses comma-separated flags up to the closing mark.
#[tactic(auto, unfolding(crate::specs::AttrReading::some_flags_at))]
fn some_flags(alloc: Global, bytes: &[u8]) -> Result<(Vec<Flag>, &[u8]), ReadError>
    ensures { (c : ContextModel) → Returns (λ x. (x.0.items, (x.1.now, c))) result (some_flags_at (bytes.now, c)) }
{
    let mut items = Vec::new(alloc);
    let mut rest = bytes;
    'items: for _ in 0..MANY {
        let (item, tail) = match flag(rest) {
            Ok(found) => found,
            Err(e) => return Err(e),
        };
        items.push(item)?;
        if let Some(end) = after(tail, Mark::Greater) {
            return Ok((items, end));
        }
        rest = expect(tail, Mark::Comma)?;
    }
    Err(ReadError::Refused(wrong(TextRefusal::TooMany, rest)))
}

/// Parses the closing mark after `none`, which means no flags.
#[inline(always)]
#[tactic(auto, unfolding(crate::specs::AttrReading::no_flags_at))]
fn no_flags(alloc: Global, bytes: &[u8]) -> Result<(Vec<Flag>, &[u8]), ReadError>
    ensures { (c : ContextModel) → Returns (λ x. (x.0.items, (x.1.now, c))) result (no_flags_at (bytes.now, c)) }
{
    let rest = expect(bytes, Mark::Greater)?;
    Ok((Vec::new(alloc), rest))
}

/// Parses `none` or flags that begin with a word, up to the closing mark. `bytes` is the text from the word on, and
/// `rest` the text after it.
#[inline(always)]
#[tactic(auto, unfolding(crate::specs::AttrReading::flags_at))]
fn word_flags<'a>(
    alloc: Global,
    word: &[u8],
    bytes: &'a [u8],
    rest: &'a [u8],
) -> Result<(Vec<Flag>, &'a [u8]), ReadError>
    requires { next bytes.now ≡ Some (bare word.now, rest.now) }
    ensures { (c : ContextModel) → Returns (λ x. (x.0.items, (x.1.now, c))) result (flags_at (bytes.now, c)) }
{
    if word == b"none".as_slice() {
        no_flags(alloc, rest)
    } else {
        some_flags(alloc, bytes)
    }
}

/// Parses `none`, or comma-separated flags, up to the closing mark. A word is lexed first, since it usually comes.
///
/// Refusals: `Unexpected` if no flag is there, or if neither a comma nor the closing mark follows a flag.
#[tactic(auto, unfolding(crate::specs::AttrReading::flags_at))]
pub(crate) fn flags(alloc: Global, bytes: &[u8]) -> Result<(Vec<Flag>, &[u8]), ReadError>
    ensures { (c : ContextModel) → Returns (λ x. (x.0.items, (x.1.now, c))) result (flags_at (bytes.now, c)) }
{
    if let Some((word, rest)) = lexer::word(bytes) {
        return word_flags(alloc, word, bytes, rest);
    }
    let (found, rest) = token(bytes)?;
    match found {
        Token::Bare(word) => word_flags(alloc, word, bytes, rest),
        _ => Err(ReadError::Refused(wrong(TextRefusal::Unexpected, bytes))),
    }
}
