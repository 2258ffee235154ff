//! Reads terms: values, constants and operations.
ghost use Rattle.std.specs.Prelude.{◌≡◌, option_map};
ghost use Rattle.ir_text_tokens.specs.declared.token.Mark.TheVariants.{CloseRound};
ghost use Rattle.user_patterns_text.specs.Grammar.{most};
ghost use Rattle.user_patterns_text.specs.Parts.{bytes_of, views};
ghost use Rattle.user_patterns_text.specs.Refusing.{Returns};
ghost use Rattle.user_patterns_text.specs.Views.{head_view};
ghost use Rattle.user_patterns_text.specs.Reading.{requested_at, requested_by, constant_from, constant_number, deep_operation, deep_term, listed_at, old_number_from, opened_at, operands_at, operation_at, term_at, term_from, value_from};

use crate::error::PatternError;
use crate::heads::{TokenKind, head_of};
use crate::keywords::{is_allowed_word, is_folding, may_be_requested, must_be_requested};
use crate::numbers::{MOST, literal, magnitude, number_after, typed, word};
use crate::parts::{Part, PartKind, push_part};
use crate::steps::{begins, expect, refused, token, wrong};
use ir_text_tokens::refusal::TextRefusal;
use ir_text_tokens::token::Mark;
use ir_text_types::steps::after;

/// Returns the constraint of operation `name` and the rest of the text, given the text after the opening angle bracket.
#[tactic(auto, unfolding(crate::specs::Reading::requested_at))]
fn angle_arguments<'a>(
    name: &[u8],
    bytes: &'a [u8],
) -> Result<(Option<&'a [u8]>, &'a [u8]), PatternError>
    ensures { Returns (λ x. (option_map bytes_of x.0, x.1.now)) result (requested_at name.now bytes.now) }
{
    let (found, rest) = word(bytes)?;
    if !is_allowed_word(name, found) {
        return Err(refused(TextRefusal::Unexpected, begins(bytes)));
    }
    let rest = expect(rest, Mark::Greater)?;
    Ok((Some(found), rest))
}

/// Returns the constraint of operation `name`, if it has one, and the rest of the text, given the text after the name.
#[tactic(auto, unfolding(crate::specs::Reading::requested_by))]
fn requested_by<'a>(
    may: bool,
    must: bool,
    name: &[u8],
    bytes: &'a [u8],
) -> Result<(Option<&'a [u8]>, &'a [u8]), PatternError>
    ensures { Returns (λ x. (option_map bytes_of x.0, x.1.now)) result (requested_by may must name.now bytes.now) }
{
    match after(bytes, Mark::Less) {
        Some(rest) => {
            if may {
                angle_arguments(name, rest)
            } else {
                Err(wrong(TextRefusal::Unexpected, bytes))
            }
        }
        None => {
            if must {
                Err(wrong(TextRefusal::Unexpected, bytes))
            } else {
                Ok((None, bytes))
            }
        }
    }
}

/// Reads the rest of a value after its name: its type, if one is written.
fn value<'a>(
    parts: &mut Vec<Part<'a>>,
    at: usize,
    name: &'a [u8],
    bytes: &'a [u8],
) -> Result<&'a [u8], PatternError>
    ensures { Returns (λ rest. (views parts.new.items, rest.now)) result (value_from at name.now (views parts.old.items, bytes.now)) }
{
    push_part(parts, at, PartKind::Value(name))?;
    typed(parts, bytes)
}

/// Reads the rest of a constant on the left after its first token: a literal or a name.
fn old_number<'a>(
    parts: &mut Vec<Part<'a>>,
    at: usize,
    head: TokenKind<'a>,
    bytes: &'a [u8],
) -> Result<&'a [u8], PatternError>
    ensures { Returns (λ rest. (views parts.new.items, rest.now)) result (old_number_from at (head_view head.entry) (views parts.old.items, bytes.now)) }
{
    match head {
        TokenKind::Digits(digits) => literal(parts, at, at, false, digits, bytes),
        TokenKind::Minus => magnitude(parts, at, bytes),
        TokenKind::Word(word) => {
            push_part(parts, at, PartKind::Name(word))?;
            Ok(bytes)
        }
        _ => Err(refused(TextRefusal::Unexpected, at)),
    }
}

/// Reads the number of a constant on that side, after its first token.
fn constant_number<'a>(
    parts: &mut Vec<Part<'a>>,
    at: usize,
    head: TokenKind<'a>,
    bytes: &'a [u8],
    left: bool,
    depth: u32,
) -> Result<&'a [u8], PatternError>
    ensures { Returns (λ rest. (views parts.new.items, rest.now)) result (constant_number left depth at (head_view head.entry) (views parts.old.items, bytes.now)) }
{
    if left {
        old_number(parts, at, head, bytes)
    } else {
        number_after(parts, at, head, bytes, depth)
    }
}

/// Reads a constant after its first token: its number and its type.
#[tactic(auto, unfolding(crate::specs::Reading::constant_from))]
fn constant<'a>(
    parts: &mut Vec<Part<'a>>,
    at: usize,
    head: TokenKind<'a>,
    bytes: &'a [u8],
    left: bool,
    depth: u32,
) -> Result<&'a [u8], PatternError>
    ensures { Returns (λ rest. (views parts.new.items, rest.now)) result (constant_from (constant_number left depth) at (head_view head.entry) (views parts.old.items, bytes.now)) }
{
    let rest = constant_number(parts, at, head, bytes, left, depth)?;
    typed(parts, rest)
}

/// Reads terms up to a closing parenthesis: none, or at most `MOST`.
#[cycle(term)]
#[tactic(auto, unfolding(crate::specs::Reading::listed_at))]
fn terms<'a>(
    parts: &mut Vec<Part<'a>>,
    bytes: &'a [u8],
    left: bool,
    depth: u32,
) -> Result<&'a [u8], PatternError>
    ensures { Returns (λ rest. (views parts.new.items, rest.now)) result (listed_at CloseRound (term_at left depth) most (views parts.old.items, bytes.now)) }
{
    if let Some(end) = after(bytes, Mark::CloseRound) {
        return Ok(end);
    }
    let mut rest = bytes;
    'items: for _ in 0..MOST {
        let tail = match term(parts, rest, left, depth) {
            Ok(tail) => tail,
            Err(e) => return Err(e),
        };
        if let Some(end) = after(tail, Mark::CloseRound) {
            return Ok(end);
        }
        rest = match expect(tail, Mark::Comma) {
            Ok(more) => more,
            Err(e) => return Err(e),
        };
    }
    match term(parts, rest, left, depth) {
        Ok(_) => Err(refused(TextRefusal::TooMany, begins(rest))),
        Err(e) => Err(e),
    }
}

/// Reads the operands of an operation after the opening parenthesis, and the type of its result.
#[cycle(term)]
#[tactic(auto, unfolding(crate::specs::Reading::operands_at))]
fn operands<'a>(
    parts: &mut Vec<Part<'a>>,
    bytes: &'a [u8],
    left: bool,
    depth: u32,
) -> Result<&'a [u8], PatternError>
    ensures { Returns (λ rest. (views parts.new.items, rest.now)) result (operands_at (term_at left depth) (views parts.old.items, bytes.now)) }
{
    let rest = match terms(parts, bytes, left, depth) {
        Ok(rest) => rest,
        Err(e) => return Err(e),
    };
    push_part(parts, rest.len(), PartKind::End)?;
    typed(parts, rest)
}

/// Reads the constraint and the opening parenthesis after the name of an operation.
#[tactic(auto, unfolding(crate::specs::Reading::opened_at))]
fn opened<'a>(
    parts: &mut Vec<Part<'a>>,
    at: usize,
    name: &'a [u8],
    bytes: &'a [u8],
    left: bool,
) -> Result<&'a [u8], PatternError>
    ensures { Returns (λ rest. (views parts.new.items, rest.now)) result (opened_at left at name.now (views parts.old.items, bytes.now)) }
{
    let (asks, rest) = requested_by(
        may_be_requested(left, name),
        must_be_requested(name),
        name,
        bytes,
    )?;
    let rest = expect(rest, Mark::OpenRound)?;
    push_part(parts, at, PartKind::Operation(name, asks))?;
    Ok(rest)
}

/// Reads an operation after its name. Refuses an operation that doesn't fold with `LeftOut`.
#[cycle(term)]
#[tactic(auto, unfolding(crate::specs::Reading::operation_at))]
fn operation<'a>(
    parts: &mut Vec<Part<'a>>,
    at: usize,
    name: &'a [u8],
    bytes: &'a [u8],
    left: bool,
    depth: u32,
) -> Result<&'a [u8], PatternError>
    ensures { Returns (λ rest. (views parts.new.items, rest.now)) result (operation_at left (term_at left depth) at name.now (views parts.old.items, bytes.now)) }
{
    if !is_folding(name) {
        return Err(refused(TextRefusal::LeftOut, at));
    }
    let rest = match opened(parts, at, name, bytes, left) {
        Ok(rest) => rest,
        Err(e) => return Err(e),
    };
    operands(parts, rest, left, depth)
}

/// Reads the rest of a term after its first token. Operands have at most that depth.
#[cycle(term)]
#[tactic(auto, unfolding(crate::specs::Reading::term_from))]
fn term_after<'a>(
    parts: &mut Vec<Part<'a>>,
    at: usize,
    head: TokenKind<'a>,
    bytes: &'a [u8],
    left: bool,
    depth: u32,
) -> Result<&'a [u8], PatternError>
    ensures { Returns (λ rest. (views parts.new.items, rest.now)) result (term_from left (constant_number left depth) (term_at left depth) at (head_view head.entry) (views parts.old.items, bytes.now)) }
{
    match head {
        TokenKind::Value(name) => value(parts, at, name, bytes),
        TokenKind::Operation(name) => operation(parts, at, name, bytes, left, depth),
        TokenKind::Other => Err(refused(TextRefusal::Unexpected, at)),
        _ => constant(parts, at, head, bytes, left, depth),
    }
}

/// Returns the refusal of an operation below the depth limit: `LeftOut` if it doesn't fold, `TooDeep` otherwise.
fn deep_operation(name: &[u8]) -> TextRefusal
    ensures { result ≡ deep_operation name.now }
{
    if is_folding(name) {
        TextRefusal::TooDeep
    } else {
        TextRefusal::LeftOut
    }
}

/// Reads a term below the depth limit of operations and numbers, after its first token. Only a value on the left is
/// allowed.
#[tactic(auto, unfolding(crate::specs::Reading::deep_term))]
fn deep_term<'a>(
    parts: &mut Vec<Part<'a>>,
    at: usize,
    head: TokenKind<'a>,
    bytes: &'a [u8],
    left: bool,
) -> Result<&'a [u8], PatternError>
    ensures { Returns (λ rest. (views parts.new.items, rest.now)) result (deep_term left at (head_view head.entry) (views parts.old.items, bytes.now)) }
{
    match head {
        TokenKind::Value(name) => {
            if left {
                value(parts, at, name, bytes)
            } else {
                Err(refused(TextRefusal::TooDeep, at))
            }
        }
        TokenKind::Operation(name) => Err(refused(deep_operation(name), at)),
        TokenKind::Other => Err(refused(TextRefusal::Unexpected, at)),
        _ => Err(refused(TextRefusal::TooDeep, at)),
    }
}

/// Reads a term on that side, of at most that depth.
///
/// Each refusal is at the first byte of its token: `BadToken`, `Unexpected`, `TooDeep`, `BadWidth`; `LeftOut` at an
/// operation that doesn't fold; `BadValue` at a number from 2^128 on; `TooMany` at the first operand beyond `MOST`.
#[cycle(term)]
#[tactic(auto, unfolding(crate::specs::Reading::term_at))]
pub(crate) fn term<'a>(
    parts: &mut Vec<Part<'a>>,
    bytes: &'a [u8],
    left: bool,
    depth: u32,
) -> Result<&'a [u8], PatternError>
    ensures { Returns (λ rest. (views parts.new.items, rest.now)) result (term_at left depth (views parts.old.items, bytes.now)) }
{
    let (found, rest) = match token(bytes) {
        Ok(found) => found,
        Err(e) => return Err(e),
    };
    let at = begins(bytes);
    if depth == 0 {
        return deep_term(parts, at, head_of(found), rest, left);
    }
    term_after(parts, at, head_of(found), rest, left, depth - 1)
}
