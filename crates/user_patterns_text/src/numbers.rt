//! Reads words, types and numbers.
ghost use Rattle.std.specs.Prelude.{◌≡◌};
ghost use Rattle.user_patterns_text.specs.Heads.{magnitude_of};
ghost use Rattle.user_patterns_text.specs.Grammar.{most};
ghost use Rattle.user_patterns_text.specs.Parts.{views};
ghost use Rattle.user_patterns_text.specs.Refusing.{Returns};
ghost use Rattle.user_patterns_text.specs.Views.{head_view};
ghost use Rattle.ir_text_tokens.specs.declared.token.Mark.TheVariants.{CloseRound};
ghost use Rattle.user_patterns_text.specs.Reading.{call_at, literal_from, magnitude_at, magnitude_from, more_at, number_at, number_from, type_at, typed_at, word_at, word_from, deep_number, ended};

use crate::error::PatternError;
use crate::heads::{TokenKind, head_of};
use crate::keywords::is_type_word;
use crate::parts::{Part, PartKind, push_part};
use crate::steps::{begins, expect, refused, token};
use ir_text_tokens::numbers::integer_value;
use ir_text_tokens::refusal::TextRefusal;
use ir_text_tokens::token::Mark;
use ir_text_types::steps::after;

/// The greatest number of items in a list.
pub(crate) const MOST: usize = 16;

fn word_of<'a>(
    at: usize,
    head: TokenKind<'a>,
    rest: &'a [u8],
) -> Result<(&'a [u8], &'a [u8]), PatternError>
    ensures { Returns (λ x. (x.0.now, x.1.now)) result (word_from at (head_view head.entry) rest.now) }
{
    match head {
        TokenKind::Word(word) => Ok((word, rest)),
        _ => Err(refused(TextRefusal::Unexpected, at)),
    }
}

/// Returns a word without a dot, and the rest of the text after it.
#[tactic(auto, unfolding(crate::specs::Reading::word_at))]
pub(crate) fn word(bytes: &[u8]) -> Result<(&[u8], &[u8]), PatternError>
    ensures { Returns (λ x. (x.0.now, x.1.now)) result (word_at bytes.now) }
{
    let (found, rest) = token(bytes)?;
    word_of(begins(bytes), head_of(found), rest)
}

/// Reads a type: `iN`, `index` or the name of a type variable. Refuses a width that no type has with `BadWidth`.
#[tactic(auto, unfolding(crate::specs::Reading::type_at))]
pub(crate) fn type_name<'a>(
    parts: &mut Vec<Part<'a>>,
    bytes: &'a [u8],
) -> Result<&'a [u8], PatternError>
    ensures { Returns (λ rest. (views parts.new.items, rest.now)) result (type_at (views parts.old.items, bytes.now)) }
{
    let (word, rest) = word(bytes)?;
    let at = begins(bytes);
    if !is_type_word(word) {
        return Err(refused(TextRefusal::BadWidth, at));
    }
    push_part(parts, at, PartKind::Type(word))?;
    Ok(rest)
}

/// Reads a colon and a type, if the next token is a colon.
#[tactic(auto, unfolding(crate::specs::Reading::typed_at))]
pub(crate) fn typed<'a>(
    parts: &mut Vec<Part<'a>>,
    bytes: &'a [u8],
) -> Result<&'a [u8], PatternError>
    ensures { Returns (λ rest. (views parts.new.items, rest.now)) result (typed_at (views parts.old.items, bytes.now)) }
{
    match after(bytes, Mark::Colon) {
        Some(rest) => type_name(parts, rest),
        None => Ok(bytes),
    }
}

/// Adds the literal of these digits, at which `digits_at` bytes are left. Refuses a number from 2^128 on with
/// `BadValue`.
pub(crate) fn literal<'a>(
    parts: &mut Vec<Part<'a>>,
    at: usize,
    digits_at: usize,
    negative: bool,
    digits: &'a [u8],
    rest: &'a [u8],
) -> Result<&'a [u8], PatternError>
    ensures { Returns (λ rest. (views parts.new.items, rest.now)) result (literal_from at digits_at negative (magnitude_of digits.now) (views parts.old.items, rest.now)) }
{
    let Some(magnitude) = integer_value(digits) else {
        return Err(refused(TextRefusal::BadValue, digits_at));
    };
    push_part(parts, at, PartKind::Literal(negative, magnitude))?;
    Ok(rest)
}

fn magnitude_of<'a>(
    parts: &mut Vec<Part<'a>>,
    at: usize,
    digits_at: usize,
    head: TokenKind<'a>,
    rest: &'a [u8],
) -> Result<&'a [u8], PatternError>
    ensures { Returns (λ rest. (views parts.new.items, rest.now)) result (magnitude_from at digits_at (head_view head.entry) (views parts.old.items, rest.now)) }
{
    match head {
        TokenKind::Digits(digits) => literal(parts, at, digits_at, true, digits, rest),
        _ => Err(refused(TextRefusal::Unexpected, digits_at)),
    }
}

/// Reads the digits after a minus, at which `at` bytes are left.
#[tactic(auto, unfolding(crate::specs::Reading::magnitude_at))]
pub(crate) fn magnitude<'a>(
    parts: &mut Vec<Part<'a>>,
    at: usize,
    bytes: &'a [u8],
) -> Result<&'a [u8], PatternError>
    ensures { Returns (λ rest. (views parts.new.items, rest.now)) result (magnitude_at at (views parts.old.items, bytes.now)) }
{
    let (found, rest) = token(bytes)?;
    magnitude_of(parts, at, begins(bytes), head_of(found), rest)
}

/// Reads numbers up to a closing parenthesis: at least one, and at most `MOST`.
#[cycle(number)]
pub(crate) fn numbers<'a>(
    parts: &mut Vec<Part<'a>>,
    bytes: &'a [u8],
    depth: u32,
) -> Result<&'a [u8], PatternError>
    ensures { Returns (λ rest. (views parts.new.items, rest.now)) result (more_at CloseRound (number_at depth) most (views parts.old.items, bytes.now)) }
{
    let mut rest = bytes;
    'items: for _ in 0..MOST {
        let tail = match parse_number(parts, rest, depth) {
            Ok(tail) => tail,
            Err(e) => return Err(e),
        };
        if let Some(end) = after(tail, Mark::CloseRound) {
            return Ok(end);
        }
        rest = match expect(tail, Mark::Comma) {
            Ok(more) => more,
            Err(e) => return Err(e),
        };
    }
    match parse_number(parts, rest, depth) {
        Ok(_) => Err(refused(TextRefusal::TooMany, begins(rest))),
        Err(e) => Err(e),
    }
}

/// Reads the rest of a number after its word: nothing after a name, or the operands of a function, of at most that
/// depth.
#[cycle(number)]
#[tactic(auto, unfolding(crate::specs::Reading::call_at))]
fn call<'a>(
    parts: &mut Vec<Part<'a>>,
    at: usize,
    word: &'a [u8],
    bytes: &'a [u8],
    depth: u32,
) -> Result<&'a [u8], PatternError>
    ensures { Returns (λ rest. (views parts.new.items, rest.now)) result (call_at (number_at depth) at word.now (views parts.old.items, bytes.now)) }
{
    let Some(rest) = after(bytes, Mark::OpenRound) else {
        push_part(parts, at, PartKind::Name(word))?;
        return Ok(bytes);
    };
    push_part(parts, at, PartKind::Function(word))?;
    let rest = match numbers(parts, rest, depth) {
        Ok(rest) => rest,
        Err(e) => return Err(e),
    };
    push_part(parts, rest.len(), PartKind::End)?;
    Ok(rest)
}

/// Reads the rest of a number after its first token. The operands of a function have at most that depth.
#[cycle(number)]
#[tactic(auto, unfolding(crate::specs::Reading::number_from))]
pub(crate) fn number_after<'a>(
    parts: &mut Vec<Part<'a>>,
    at: usize,
    head: TokenKind<'a>,
    bytes: &'a [u8],
    depth: u32,
) -> Result<&'a [u8], PatternError>
    ensures { Returns (λ rest. (views parts.new.items, rest.now)) result (number_from (number_at depth) at (head_view head.entry) (views parts.old.items, bytes.now)) }
{
    match head {
        TokenKind::Digits(digits) => literal(parts, at, at, false, digits, bytes),
        TokenKind::Minus => magnitude(parts, at, bytes),
        TokenKind::Word(word) => call(parts, at, word, bytes, depth),
        _ => Err(refused(TextRefusal::Unexpected, at)),
    }
}

/// Returns the refusal of a number at a place where no number is allowed.
fn deep_number(head: TokenKind<'_>) -> TextRefusal
    ensures { result ≡ deep_number (head_view head.entry) }
{
    match head {
        TokenKind::Digits(_) | TokenKind::Minus | TokenKind::Word(_) => TextRefusal::TooDeep,
        _ => TextRefusal::Unexpected,
    }
}

/// Reads a number of at most that depth: a literal, a name, or a function of numbers.
#[cycle(number)]
#[tactic(auto, unfolding(crate::specs::Reading::number_at))]
pub(crate) fn parse_number<'a>(
    parts: &mut Vec<Part<'a>>,
    bytes: &'a [u8],
    depth: u32,
) -> Result<&'a [u8], PatternError>
    ensures { Returns (λ rest. (views parts.new.items, rest.now)) result (number_at depth (views parts.old.items, bytes.now)) }
{
    let (found, rest) = match token(bytes) {
        Ok(found) => found,
        Err(e) => return Err(e),
    };
    let at = begins(bytes);
    if depth == 0 {
        return Err(refused(deep_number(head_of(found)), at));
    }
    number_after(parts, at, head_of(found), rest, depth - 1)
}
