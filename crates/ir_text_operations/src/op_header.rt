//! Parses the header of an operation: the names of its results, its name and its operands.
ghost use Rattle.std.specs.Prelude.{◌≡◌, ◌∷◌, [], IsTrue, IfOk, eqb, slice_get, option_map};
ghost use Rattle.std.specs.List.{list_all, list_any};
ghost use Rattle.std.specs.Cow.{cow_slice_items};
ghost use Rattle.std.specs.Char.{is_ascii_digit};
ghost use Rattle.ir_text_tokens.specs.Numbers.{place_value};
ghost use Rattle.ir_text_tokens.specs.Strings.{string_bytes};
ghost use Rattle.ir_text_types.specs.Outcomes.{Returns};
ghost use Rattle.ir_text_operations.specs.Free.{free_bound};
ghost use Rattle.ir_text_operations.specs.Openings.{called_at};
ghost use Rattle.ir_text_operations.specs.PrecedingReading.{op_name_at, first_at, member_at, member_of, use_at, uses_at, start_at, start_view};

use crate::outer_names::free_bound;
use ir_text_names::bound::TypedValue;
use ir_text_names::lists::{AfterItem, after_item};
use ir_text_names::pack::ValueGroup;
use ir_text_names::spares::Spares;
use ir_text_names::value_names::{ResultName, name, one_too_many, results};
use ir_text_tokens::lexer;
use ir_text_tokens::names::ScopedNames;
use ir_text_tokens::numbers::{are_digits, integer_value};
use ir_text_tokens::refusal::TextRefusal;
use ir_text_tokens::strings::string_value;
use ir_text_tokens::token::{Mark, Token};
use ir_text_types::error::{ReadError, wrong};
use ir_text_types::steps::{after, expect, token};
use ir_tree::limits::MOST_ITEMS;
use ir_tree::outer::Outer;
use std::alloc::{AllocError, Global};
use std::borrow::CowSlice;

/// The names of the results, if they are written, the name of the operation, and its operands.
#[derive(Drop)]
pub struct OpHeader<'a> {
    pub results: Option<Vec<ResultName<'a>>>,
    pub name: CowSlice<'a, u8>,
    pub operands: Vec<TypedValue>,
}

/// Returns why a token can't begin the name of an operation. `named` says whether names of results precede the token.
pub(crate) fn begin_refusal(found: &Token<'_>, named: bool) -> TextRefusal {
    match found {
        Token::Bare(_) => TextRefusal::LeftOut,
        Token::Hash(_) if !named => TextRefusal::LeftOut,
        Token::Bang(_) if !named => TextRefusal::LeftOut,
        Token::Label(_) if !named => TextRefusal::MultipleBlocks,
        _ => TextRefusal::Unexpected,
    }
}

/// Returns whether a string has a backslash, which begins an escape.
fn has_escape(raw: &[u8]) -> bool
    ensures { result ≡ list_any (λ byte. eqb byte 92) raw.now }
{
    raw.iter().any(|byte| *byte == b'\\')
}

/// Returns the bytes that the text between two quotes denotes. A text without escapes is borrowed, not copied.
#[tactic(auto, using(crate::proofs::Rendered::plain_is))]
fn unescaped_name<'a>(alloc: Global, raw: &'a [u8]) -> Result<CowSlice<'a, u8>, AllocError>
    ensures { IfOk result (λ s. cow_slice_items s ≡ string_bytes raw.now) }
{
    if has_escape(raw) {
        Ok(CowSlice::Owned(string_value(alloc, raw)?))
    } else {
        Ok(CowSlice::Borrowed(raw))
    }
}

/// Parses the name of an operation, which isn't empty. A name of word bytes is lexed first, since it usually comes.
#[tactic(auto, unfolding(crate::specs::PrecedingReading::op_name_at))]
fn op_name<'a>(
    alloc: Global,
    bytes: &'a [u8],
    named: bool,
) -> Result<(CowSlice<'a, u8>, &'a [u8]), ReadError>
    ensures { Returns (λ x. (cow_slice_items x.0, x.1.now)) result (op_name_at bytes.now) }
{
    if let Some((name, rest)) = lexer::plain_string(bytes) {
        if !name.is_empty() {
            return Ok((CowSlice::Borrowed(name), rest));
        }
    }
    match token(bytes) {
        Ok((Token::String(raw), rest)) => {
            let name = unescaped_name(alloc, raw)?;
            if name.len() == 0 {
                return Err(ReadError::Refused(wrong(TextRefusal::Unexpected, bytes)));
            }
            Ok((name, rest))
        }
        Ok((found, _)) => Err(ReadError::Refused(wrong(begin_refusal(&found, named), bytes))),
        Err(e) => Err(e),
    }
}

/// Parses the name of an operation and the parenthesis after it.
#[tactic(auto, unfolding(crate::specs::Openings::called_at))]
fn called<'a>(
    alloc: Global,
    bytes: &'a [u8],
    named: bool,
) -> Result<(CowSlice<'a, u8>, &'a [u8]), ReadError>
    ensures { Returns (λ x. (cow_slice_items x.0, x.1.now)) result (called_at bytes.now) }
{
    match op_name(alloc, bytes, named) {
        Ok((name, rest)) => match expect(rest, Mark::OpenRound) {
            Ok(rest) => Ok((name, rest)),
            Err(e) => Err(e),
        },
        Err(e) => Err(e),
    }
}

/// Returns the value of a pack at the index that the digits denote.
#[tactic(auto, using(crate::proofs::Members::place_is))]
fn numbered(pack: &ValueGroup, digits: &[u8]) -> Option<TypedValue>
    requires { IsTrue (list_all is_ascii_digit digits.now) }
    ensures { result ≡ slice_get pack.now (place_value 10 digits.now) }
{
    let count = pack.len() as u128;
    let place = integer_value(digits)?;
    if place >= count {
        return None;
    }
    pack.get(place as usize).copied()
}

/// Returns the value of a pack at the index after a hash sign, or the first value if there is no hash sign.
#[tactic(auto, unfolding(crate::specs::PrecedingReading::member_at, crate::specs::PrecedingReading::place_at))]
fn numbered_member<'a>(
    pack: &ValueGroup,
    bytes: &'a [u8],
) -> Result<(TypedValue, &'a [u8]), ReadError>
    ensures { Returns (λ x. (x.0, x.1.now)) result (member_at pack.now bytes.now) }
{
    let (found, rest) = match lexer::token(bytes) {
        Ok((Token::Hash(digits), rest)) => {
            if !are_digits(digits) {
                return Err(ReadError::Refused(wrong(TextRefusal::Unexpected, bytes)));
            }
            (numbered(pack, digits), rest)
        }
        _ => (pack.get(0).copied(), bytes),
    };
    match found {
        Some(value) => Ok((value, rest)),
        None => Err(ReadError::Refused(wrong(TextRefusal::UnknownValue, bytes))),
    }
}

/// Returns the first value of a pack, and `bytes` as the rest of the text.
fn first_member<'a>(pack: &ValueGroup, bytes: &'a [u8]) -> Result<(TypedValue, &'a [u8]), ReadError>
    ensures { Returns (λ x. (x.0, x.1.now)) result (first_at pack.now bytes.now) }
{
    match pack.get(0) {
        Some(value) => Ok((*value, bytes)),
        None => Err(ReadError::Refused(wrong(TextRefusal::UnknownValue, bytes))),
    }
}

/// Returns the value of a pack at the index after a hash sign, or the first value if there is no hash sign. If there
/// is no hash sign, no token is lexed.
#[tactic(auto, using(crate::proofs::Simple::first_member))]
fn member<'a>(pack: &ValueGroup, bytes: &'a [u8]) -> Result<(TypedValue, &'a [u8]), ReadError>
    ensures { Returns (λ x. (x.0, x.1.now)) result (member_at pack.now bytes.now) }
{
    match lexer::after_byte(bytes, b'#') {
        Some(_) => numbered_member(pack, bytes),
        None => first_member(pack, bytes),
    }
}

/// Returns the value that a free name denotes. The name isn't bound and begins at `start`.
fn free_member<'a, O: Outer>(
    outer: &O,
    name: &[u8],
    start: &[u8],
    bytes: &'a [u8],
) -> Result<(TypedValue, &'a [u8]), ReadError>
    ensures { Returns (λ x. (x.0, x.1.now)) result (member_of (option_map (λ b. b ∷ []) (free_bound (O.types outer.now) name.now)) bytes.now) }
{
    match free_bound(outer, name) {
        Some(value) => member(&ValueGroup::one(value), bytes),
        None => Err(ReadError::Refused(wrong(TextRefusal::UnknownValue, start))),
    }
}

/// Parses an operand: a visible or free name, and one of its values.
fn operand<'a, O: Outer>(
    outer: &O,
    names: &ScopedNames<'a, ValueGroup>,
    bytes: &'a [u8],
) -> Result<(TypedValue, &'a [u8]), ReadError>
    ensures { Returns (λ x. (x.0, x.1.now)) result (use_at (free_bound (O.types outer.now)) names.now.here bytes.now) }
{
    let (name, rest) = match name(bytes) {
        Ok(found) => found,
        Err(e) => return Err(e),
    };
    match names.find(name) {
        Some(pack) => member(pack, rest),
        None => free_member(outer, name, bytes, rest),
    }
}

/// Parses operands up to the closing parenthesis, at most as many as an operation may have, and returns them in the
/// list `spare`.
#[tactic(auto, unfolding(ir_text_types::specs::Lists::list_at, crate::specs::PrecedingReading::uses_at))]
fn operands<'a, O: Outer>(
    outer: &O,
    names: &ScopedNames<'a, ValueGroup>,
    spare: Vec<TypedValue>,
    bytes: &'a [u8],
) -> Result<(Vec<TypedValue>, &'a [u8]), ReadError>
    requires { spare.items ≡ [] }
    ensures { Returns (λ x. (x.0.items, x.1.now)) result (uses_at (free_bound (O.types outer.now)) names.now.here bytes.now) }
{
    let mut items = spare;
    if let Some(rest) = after(bytes, Mark::CloseRound) {
        return Ok((items, rest));
    }
    let mut rest = bytes;
    'items: for _ in 0..MOST_ITEMS {
        let (item, tail) = match operand(outer, names, rest) {
            Ok(found) => found,
            Err(e) => return Err(e),
        };
        items.push(item)?;
        match after_item(tail, Mark::CloseRound) {
            Ok(AfterItem::More(more)) => rest = more,
            Ok(AfterItem::End(end)) => return Ok((items, end)),
            Err(e) => return Err(e),
        }
    }
    Err(ReadError::Refused(one_too_many(rest)))
}

/// Parses the header of an operation. Its lists are those of `spares`.
pub fn start<'a, O: Outer>(
    alloc: Global,
    outer: &O,
    names: &ScopedNames<'a, ValueGroup>,
    spares: Spares<'a>,
    bytes: &'a [u8],
) -> Result<(OpHeader<'a>, &'a [u8]), ReadError>
    requires names { spares.names.items ≡ [] }
    requires operands { spares.operands.items ≡ [] }
    ensures { Returns (λ x. (start_view x.0, x.1.now)) result (start_at (free_bound (O.types outer.now)) names.now.here bytes.now) }
{
    let Spares {
        names: name_list,
        operands: operand_list,
    } = spares;
    let (results, rest) = match results(name_list, bytes) {
        Ok(found) => found,
        Err(e) => return Err(e),
    };
    let (name, rest) = match called(alloc, rest, results.is_some()) {
        Ok(found) => found,
        Err(e) => return Err(e),
    };
    let (operands, rest) = match operands(outer, names, operand_list, rest) {
        Ok(found) => found,
        Err(e) => return Err(e),
    };
    Ok((
        OpHeader {
            results,
            name,
            operands,
        },
        rest,
    ))
}
