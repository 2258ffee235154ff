//! Reads the conditions after `where`.
ghost use Rattle.std.specs.Prelude.{◌≡◌};
ghost use Rattle.ir_text_tokens.specs.declared.token.Mark.TheVariants.{CloseRound, End};
ghost use Rattle.user_patterns_text.specs.Grammar.{most, new_depth};
ghost use Rattle.user_patterns_text.specs.Parts.{views};
ghost use Rattle.user_patterns_text.specs.Refusing.{Returns};
ghost use Rattle.user_patterns_text.specs.Reading.{condition_at, condition_from, conditions_at, more_at, number_at, parts_of, type_at, where_at};

use crate::error::PatternError;
use crate::keywords::{is_narrower, is_where};
use crate::numbers::{MOST, numbers, type_name, word};
use crate::parts::{Part, PartKind, push_part};
use crate::steps::{begins, expect, refused};
use ir_text_tokens::refusal::TextRefusal;
use ir_text_tokens::token::Mark;
use ir_text_types::steps::after;

/// The greatest depth of terms on the right side, and of numbers in conditions.
pub(crate) const NEW_DEPTH: u32 = 16;

/// Reads types up to a closing parenthesis: at least one, and at most `MOST`.
fn types<'a>(parts: &mut Vec<Part<'a>>, bytes: &'a [u8]) -> Result<&'a [u8], PatternError>
    ensures { Returns (λ rest. (views parts.new.items, rest.now)) result (more_at CloseRound type_at most (views parts.old.items, bytes.now)) }
{
    let mut rest = bytes;
    'items: for _ in 0..MOST {
        let tail = match type_name(parts, rest) {
            Ok(tail) => tail,
            Err(e) => return Err(e),
        };
        if let Some(end) = after(tail, Mark::CloseRound) {
            return Ok(end);
        }
        rest = match expect(tail, Mark::Comma) {
            Ok(more) => more,
            Err(e) => return Err(e),
        };
    }
    match type_name(parts, rest) {
        Ok(_) => Err(refused(TextRefusal::TooMany, begins(rest))),
        Err(e) => Err(e),
    }
}

/// Reads the operands of a condition: types if `of_types`, numbers otherwise.
fn parts_of<'a>(
    parts: &mut Vec<Part<'a>>,
    of_types: bool,
    bytes: &'a [u8],
) -> Result<&'a [u8], PatternError>
    ensures { Returns (λ rest. (views parts.new.items, rest.now)) result (parts_of of_types (views parts.old.items, bytes.now)) }
{
    if of_types {
        types(parts, bytes)
    } else {
        numbers(parts, bytes, NEW_DEPTH)
    }
}

/// Reads the rest of a condition after its word: the operands in parentheses.
#[tactic(auto, unfolding(crate::specs::Reading::condition_from))]
fn condition_after<'a>(
    parts: &mut Vec<Part<'a>>,
    at: usize,
    word: &'a [u8],
    bytes: &'a [u8],
) -> Result<&'a [u8], PatternError>
    ensures { Returns (λ rest. (views parts.new.items, rest.now)) result (condition_from at word.now (views parts.old.items, bytes.now)) }
{
    let rest = expect(bytes, Mark::OpenRound)?;
    push_part(parts, at, PartKind::Constraint(word))?;
    let rest = parts_of(parts, is_narrower(word), rest)?;
    push_part(parts, rest.len(), PartKind::End)?;
    Ok(rest)
}

/// Reads a condition: a word and its operands, which are numbers or types.
#[tactic(auto, unfolding(crate::specs::Reading::condition_at))]
fn condition<'a>(parts: &mut Vec<Part<'a>>, bytes: &'a [u8]) -> Result<&'a [u8], PatternError>
    ensures { Returns (λ rest. (views parts.new.items, rest.now)) result (condition_at (views parts.old.items, bytes.now)) }
{
    let (word, rest) = word(bytes)?;
    condition_after(parts, begins(bytes), word, rest)
}

/// Reads conditions to the end of the text: at least one, and at most `MOST`.
fn all<'a>(parts: &mut Vec<Part<'a>>, bytes: &'a [u8]) -> Result<&'a [u8], PatternError>
    ensures { Returns (λ rest. (views parts.new.items, rest.now)) result (more_at End condition_at most (views parts.old.items, bytes.now)) }
{
    let mut rest = bytes;
    'items: for _ in 0..MOST {
        let tail = match condition(parts, rest) {
            Ok(tail) => tail,
            Err(e) => return Err(e),
        };
        if let Some(end) = after(tail, Mark::End) {
            return Ok(end);
        }
        rest = match expect(tail, Mark::Comma) {
            Ok(more) => more,
            Err(e) => return Err(e),
        };
    }
    match condition(parts, rest) {
        Ok(_) => Err(refused(TextRefusal::TooMany, begins(rest))),
        Err(e) => Err(e),
    }
}

/// Reads the word `where` and the conditions after it.
#[tactic(auto, unfolding(crate::specs::Reading::where_at))]
fn after_where<'a>(parts: &mut Vec<Part<'a>>, bytes: &'a [u8]) -> Result<&'a [u8], PatternError>
    ensures { Returns (λ rest. (views parts.new.items, rest.now)) result (where_at (views parts.old.items, bytes.now)) }
{
    let (word, rest) = word(bytes)?;
    if !is_where(word) {
        return Err(refused(TextRefusal::Unexpected, begins(bytes)));
    }
    all(parts, rest)
}

/// Reads `where` with its conditions, or nothing, up to the end of the text.
#[tactic(auto, unfolding(crate::specs::Reading::conditions_at))]
pub(crate) fn conditions<'a>(
    parts: &mut Vec<Part<'a>>,
    bytes: &'a [u8],
) -> Result<&'a [u8], PatternError>
    ensures { Returns (λ rest. (views parts.new.items, rest.now)) result (conditions_at (views parts.old.items, bytes.now)) }
{
    match after(bytes, Mark::End) {
        Some(rest) => Ok(rest),
        None => after_where(parts, bytes),
    }
}
