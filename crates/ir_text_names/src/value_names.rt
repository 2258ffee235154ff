//! Parses the names of results with their counts. Language Reference, "Operations".
ghost use Rattle.std.specs.Prelude.{◌≡◌, ◌+◌, ◌≤◌, [], map, option_map, SomeIff};
ghost use Rattle.ir_tree.specs.Limits.{most_items};
ghost use Rattle.ir_text_tokens.specs.Numbers.{integer_of};
ghost use Rattle.ir_text_types.specs.Outcomes.{Returns};
ghost use Rattle.ir_text_names.specs.Packs.{named_view};
ghost use Rattle.ir_text_names.specs.NameReading.{value_name_at, written_at, count_at, result_at, names_at, results_at};

use crate::lists::{AfterItem, after_item};
use ir_text_tokens::fault::Fault;
use ir_text_tokens::lexer;
use ir_text_tokens::numbers::integer_value;
use ir_text_tokens::refusal::TextRefusal;
use ir_text_tokens::token::{Mark, Token};
use ir_text_types::error::{ReadError, wrong};
use ir_text_types::steps::{after, token};
use ir_tree::limits::MOST_ITEMS;

/// The maximum number of results of an operation.
const MOST_RESULTS: u32 = MOST_ITEMS as u32;

/// A name of results, and the number of results that it is bound to.
#[derive(Clone, Copy)]
pub struct ResultName<'a> {
    pub name: &'a [u8],
    pub count: u32,
}

/// Parses a name after its sigil.
#[inline(always)]
#[tactic(auto, unfolding(crate::specs::NameReading::value_name_at))]
pub fn name(bytes: &[u8]) -> Result<(&[u8], &[u8]), ReadError>
    ensures { Returns (λ x. (x.0.now, x.1.now)) result (value_name_at bytes.now) }
{
    match lexer::value(bytes) {
        Some(found) => Ok(found),
        None => other_name(bytes),
    }
}

/// Parses a name after its sigil, or returns why there is none.
#[inline(never)]
#[tactic(auto, unfolding(crate::specs::NameReading::value_name_at))]
fn other_name(bytes: &[u8]) -> Result<(&[u8], &[u8]), ReadError>
    ensures { Returns (λ x. (x.0.now, x.1.now)) result (value_name_at bytes.now) }
{
    match token(bytes) {
        Ok((Token::Value(name), rest)) => Ok((name, rest)),
        Ok(_) => Err(ReadError::Refused(wrong(TextRefusal::Unexpected, bytes))),
        Err(e) => Err(e),
    }
}

/// Returns the fault at a name over the limit, or at a token that is no name.
pub fn one_too_many(bytes: &[u8]) -> Fault {
    match lexer::token(bytes) {
        Ok((Token::Value(_), _)) => wrong(TextRefusal::TooMany, bytes),
        _ => wrong(TextRefusal::Unexpected, bytes),
    }
}

/// Returns the count that the digits denote, if it isn't 0 and, with `before` results, isn't over the limit of
/// results.
pub fn counted(digits: &[u8], before: u32) -> Option<u32>
    requires { before ≤ most_items }
    ensures { SomeIff result ((1 ≤ integer_of digits.now) × (before + integer_of digits.now ≤ most_items)) (integer_of digits.now) }
{
    let number = integer_value(digits)?;
    if number >= 1 && number <= (MOST_RESULTS - before) as u128 {
        Some(number as u32)
    } else {
        None
    }
}

/// Returns why the digits are no valid count.
fn count_refusal(digits: &[u8]) -> TextRefusal {
    match integer_value(digits) {
        Some(0) => TextRefusal::BadValue,
        _ => TextRefusal::TooMany,
    }
}

/// Parses the count after a colon.
///
/// Refusals: `BadValue` at 0; `TooMany` if the count and `before` are over the limit of results; `Unexpected`.
#[tactic(auto, unfolding(crate::specs::NameReading::nonzero_at))]
fn written_count(bytes: &[u8], before: u32) -> Result<(u32, &[u8]), ReadError>
    requires { before ≤ most_items }
    ensures { Returns (λ x. (x.0, x.1.now)) result (written_at before bytes.now) }
{
    match token(bytes) {
        Ok((Token::Integer(digits), rest)) => match counted(digits, before) {
            Some(count) => Ok((count, rest)),
            None => Err(ReadError::Refused(wrong(count_refusal(digits), bytes))),
        },
        Ok(_) => Err(ReadError::Refused(wrong(TextRefusal::Unexpected, bytes))),
        Err(e) => Err(e),
    }
}

/// Parses the count of the name that begins at `start`, after names of `before` results. A name without a count has
/// one result.
#[inline(always)]
#[tactic(auto, unfolding(crate::specs::NameReading::count_at))]
fn count<'a>(start: &[u8], bytes: &'a [u8], before: u32) -> Result<(u32, &'a [u8]), ReadError>
    requires { before ≤ most_items }
    ensures { Returns (λ x. (x.0, x.1.now)) result (count_at before bytes.now) }
{
    if let Some(rest) = after(bytes, Mark::Colon) {
        return written_count(rest, before);
    }
    if before == MOST_RESULTS {
        return Err(ReadError::Refused(wrong(TextRefusal::TooMany, start)));
    }
    Ok((1, bytes))
}

/// Parses a name with its count, after names of `before` results.
#[inline(always)]
#[tactic(auto, unfolding(crate::specs::NameReading::result_at))]
fn counted_name(bytes: &[u8], before: u32) -> Result<(ResultName<'_>, &[u8]), ReadError>
    requires { before ≤ most_items }
    ensures { Returns (λ x. (named_view x.0, x.1.now)) result (result_at before bytes.now) }
{
    match name(bytes) {
        Ok((name, rest)) => match count(bytes, rest, before) {
            Ok((count, rest)) => Ok((ResultName { name, count }, rest)),
            Err(e) => Err(e),
        },
        Err(e) => Err(e),
    }
}

/// Returns the fault at a name over the limit, at its count if it has one, or at a token that is no name.
fn past_names(bytes: &[u8]) -> Fault {
    match counted_name(bytes, MOST_RESULTS) {
        Err(ReadError::Refused(fault)) => fault,
        _ => one_too_many(bytes),
    }
}

/// Parses names up to an equal sign, for at most as many results as an operation may have, and appends them to
/// `items`.
#[inline(always)]
#[tactic(auto, unfolding(crate::specs::NameReading::names_at))]
fn push_names<'a>(items: &mut Vec<ResultName<'a>>, bytes: &'a [u8]) -> Result<&'a [u8], ReadError>
    requires { items.old.items ≡ [] }
    ensures { Returns (λ r. (map named_view items.new.items, r.now)) result (names_at bytes.now) }
{
    let mut rest = bytes;
    let mut total = 0u32;
    'items: for _ in 0..MOST_ITEMS {
        let (item, tail) = match counted_name(rest, total) {
            Ok(found) => found,
            Err(e) => return Err(e),
        };
        items.push(item)?;
        total += item.count;
        match after_item(tail, Mark::Equal) {
            Ok(AfterItem::More(more)) => rest = more,
            Ok(AfterItem::End(end)) => return Ok(end),
            Err(e) => return Err(e),
        }
    }
    Err(ReadError::Refused(past_names(rest)))
}

/// Parses names up to an equal sign, for at most as many results as an operation may have, and returns them in the
/// list `spare`.
#[inline(always)]
fn names<'a>(
    spare: Vec<ResultName<'a>>,
    bytes: &'a [u8],
) -> Result<(Vec<ResultName<'a>>, &'a [u8]), ReadError>
    requires { spare.items ≡ [] }
    ensures { Returns (λ x. (map named_view x.0.items, x.1.now)) result (names_at bytes.now) }
{
    let mut items = spare;
    match push_names(&mut items, bytes) {
        Ok(rest) => Ok((items, rest)),
        Err(e) => Err(e),
    }
}

/// Parses the names of the results if a name comes first. The first token is lexed to decide this.
#[tactic(auto, unfolding(crate::specs::NameReading::results_at))]
fn token_results<'a>(
    spare: Vec<ResultName<'a>>,
    bytes: &'a [u8],
) -> Result<(Option<Vec<ResultName<'a>>>, &'a [u8]), ReadError>
    requires { spare.items ≡ [] }
    ensures { Returns (λ x. (option_map (λ v. map named_view v.items) x.0, x.1.now)) result (results_at bytes.now) }
{
    match token(bytes) {
        Ok((Token::Value(_), _)) => match names(spare, bytes) {
            Ok((names, rest)) => Ok((Some(names), rest)),
            Err(e) => Err(e),
        },
        Ok(_) => Ok((None, bytes)),
        Err(e) => Err(e),
    }
}

/// Parses the names of the results if a name comes first, and returns them in the list `spare`. Only the sigil is
/// compared to decide this.
#[inline(always)]
#[tactic(auto, using(crate::proofs::Signs::named_first), unfolding(crate::specs::NameReading::results_at))]
pub fn results<'a>(
    spare: Vec<ResultName<'a>>,
    bytes: &'a [u8],
) -> Result<(Option<Vec<ResultName<'a>>>, &'a [u8]), ReadError>
    requires { spare.items ≡ [] }
    ensures { Returns (λ x. (option_map (λ v. map named_view v.items) x.0, x.1.now)) result (results_at bytes.now) }
{
    match lexer::after_byte(bytes, b'%') {
        Some(_) => match names(spare, bytes) {
            Ok((names, rest)) => Ok((Some(names), rest)),
            Err(e) => Err(e),
        },
        None => token_results(spare, bytes),
    }
}
