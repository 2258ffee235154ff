//! The dimensions of memrefs, read byte by byte. Builtin Dialect, "MemRefType".
ghost use Rattle.std.specs.Prelude.{◌≡◌, ◌≤◌, [], length};
ghost use Rattle.ir_text_tokens.specs.Tokens.{digits_len, skip};
ghost use Rattle.ir_text_types.specs.Outcomes.{Returns, of_option};
ghost use Rattle.ir_text_types.specs.ShapeGrammar.{begins_dimension};
ghost use Rattle.ir_text_types.specs.ShapeReading.{cross_at, size_of, sized, dimension_at, dimensions_at};
ghost use Rattle.ir_text_types.specs.TypeReading.{many};

use crate::error::{ReadError, wrong};
use ir_text_tokens::lexer::skip;
use ir_text_tokens::limits::MOST_BYTES;
use ir_text_tokens::numbers::integer_value;
use ir_text_tokens::refusal::TextRefusal;
use ir_types::limits::MOST_DIMENSION;
use std::alloc::Global;

/// Returns the number of decimal digits at the start of the text.
fn digits_len(bytes: &[u8]) -> usize
    ensures len { result ≡ digits_len bytes.now }
    ensures within { result ≤ length bytes.now }
{
    bytes.iter().take_while(|b| b.is_ascii_digit()).count()
}

/// Returns whether the next byte after blanks is `?` or a digit, which begin a dimension.
fn begins_dimension(bytes: &[u8]) -> bool
    ensures { result ≡ begins_dimension (skip bytes.now) }
{
    match skip(bytes) {
        [byte, ..] => *byte == b'?' || byte.is_ascii_digit(),
        [] => false,
    }
}

/// Returns the rest of the text after the `x` that follows a dimension.
///
/// Refusals: if the next byte isn't `x`, `BadToken` if no token begins there, otherwise `Unexpected`.
#[tactic(auto, unfolding(crate::specs::ShapeReading::cross_at))]
fn cross(bytes: &[u8]) -> Result<&[u8], ReadError>
    ensures { Returns (λ r. r.now) result (of_option (cross_at bytes.now)) }
{
    match skip(bytes) {
        [b'x', rest @ ..] => Ok(rest),
        _ => Err(ReadError::Refused(wrong(TextRefusal::Unexpected, bytes))),
    }
}

/// Returns the number that the digits denote, or `None` if no dimension may be that large.
fn size_of(digits: &[u8]) -> Option<u64>
    ensures { result ≡ size_of digits.now }
{
    let size = integer_value(digits)?;
    if size <= u128::from(MOST_DIMENSION) {
        Some(size as u64)
    } else {
        None
    }
}

/// Returns a dimension that begins with digits, and the rest of the text after its `x`.
fn sized(bytes: &[u8]) -> Result<(Option<u64>, &[u8]), ReadError>
    ensures { Returns (λ x. (x.0, x.1.now)) result (of_option (sized (digits_len bytes.now) bytes.now)) }
{
    let (digits, tail) = bytes.split_at(digits_len(bytes));
    match size_of(digits) {
        Some(size) => {
            let rest = cross(tail)?;
            Ok((Some(size), rest))
        }
        None => Err(ReadError::Refused(wrong(TextRefusal::BadValue, bytes))),
    }
}

/// Returns one dimension, where `None` is `?`, and the rest of the text after its `x`.
///
/// Refusals: `BadValue` at the digits of a dimension that is too large, and those of its `x`.
#[tactic(auto, unfolding(crate::specs::ShapeReading::dimension_at))]
fn dimension(bytes: &[u8]) -> Result<(Option<u64>, &[u8]), ReadError>
    ensures { Returns (λ x. (x.0, x.1.now)) result (of_option (dimension_at bytes.now)) }
{
    let all = skip(bytes);
    match all {
        [b'?', tail @ ..] => {
            let rest = cross(tail)?;
            Ok((None, rest))
        }
        [byte, ..] if byte.is_ascii_digit() => sized(all),
        _ => Err(ReadError::Refused(wrong(TextRefusal::Unexpected, bytes))),
    }
}

/// Returns the dimensions at the start of the text, each with its `x`, and the rest of the text.
pub(crate) fn dimensions(
    alloc: Global,
    bytes: &[u8],
) -> Result<(Vec<Option<u64>>, &[u8]), ReadError>
    ensures { Returns (λ x. (x.0.items, x.1.now)) result (of_option (dimensions_at many [] bytes.now)) }
{
    let mut items = Vec::new(alloc);
    let mut rest = bytes;
    'items: for _ in 0..MOST_BYTES {
        if !begins_dimension(rest) {
            return Ok((items, rest));
        }
        let (item, tail) = match dimension(rest) {
            Ok(found) => found,
            Err(e) => return Err(e),
        };
        items.push(item)?;
        rest = tail;
    }
    if begins_dimension(rest) {
        return Err(ReadError::Refused(wrong(TextRefusal::TooMany, rest)));
    }
    Ok((items, rest))
}
