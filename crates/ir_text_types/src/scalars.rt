//! Scalar types, which are one word, and the word `memref`.
ghost use Rattle.std.specs.Prelude.{◌≡◌, ◌∷◌, ℕ, List, ◌+◌, ◌-◌, ◌*◌, true, false, IfSome, option_and_then, option_map};
ghost use Rattle.std.specs.List.{list_all};
ghost use Rattle.std.specs.Char.{is_ascii_digit};
ghost use Rattle.std.specs.Str.{bytes_eq};
ghost use Rattle.ir_types.specs.Things.{ContextModel, TypeIsOf};
ghost use Rattle.ir_text_tokens.specs.Numbers.{below_limit, integer_of};
ghost use Rattle.ir_text_types.specs.Scalars.{width_of, signed_of_word, integer_type_of, scalar_of, within, begins_zero, memref_word};

use ir_text_tokens::numbers::{are_digits, integer_value};
use ir_text_tokens::refusal::TextRefusal;
use ir_types::limits::MOST_WIDTH;
use ir_types::node::{Sign, TypeNode};

fn begins_zero(digits: &[u8]) -> bool
    ensures { result ≡ begins_zero digits.now }
{
    match digits {
        [] => true,
        [digit, ..] => *digit == b'0',
    }
}

/// Returns the number as a width, or `None` if it isn't from 1 to 128.
fn within(number: u128) -> Option<u32>
    ensures { result ≡ within number }
{
    if number >= 1 && number <= MOST_WIDTH as u128 {
        Some(number as u32)
    } else {
        None
    }
}

/// Returns the number that two decimal digits denote.
fn two_digits(tens: u8, ones: u8) -> u128
    requires tens { is_ascii_digit tens ≡ true }
    requires ones { is_ascii_digit ones ≡ true }
    ensures { result ≡ (tens - 48) * 10 + (ones - 48) }
{
    let number = (tens - b'0') * 10 + (ones - b'0');
    number as u128
}

/// Returns the number that decimal digits denote without a leading zero. Most widths have two digits.
fn decimal_value(digits: &[u8]) -> Option<u128>
    requires decimal { list_all is_ascii_digit digits.now ≡ true }
    requires dimension_or_any { begins_zero digits.now ≡ false }
    ensures { result ≡ below_limit (integer_of digits.now) }
{
    match digits {
        [tens, ones] => Some(two_digits(*tens, *ones)),
        _ => integer_value(digits),
    }
}

/// Returns the width that decimal digits denote, from 1 to 128 without a leading zero.
#[tactic(auto, using(crate::proofs::Widths::limit_is, crate::proofs::Widths::limit_passed))]
pub(crate) fn width_of(digits: &[u8]) -> Option<u32>
    ensures { result ≡ width_of digits.now }
{
    if begins_zero(digits) || !are_digits(digits) {
        return None;
    }
    within(decimal_value(digits)?)
}

/// Returns the signedness that a byte before the `i` names: `s` or `u`.
fn named_sign(byte: u8) -> Option<Sign>
    ensures { (ds : List ℕ) → signed_of_word byte (105 ∷ ds) ≡ option_and_then (λ s. option_map (TypeNode.Int s) (width_of ds)) result }
{
    match byte {
        b's' => Some(Sign::Signed),
        b'u' => Some(Sign::Unsigned),
        _ => None,
    }
}

/// Returns the signedness after the first byte, and the digits.
fn signed_parts(first: u8, tail: &[u8]) -> Option<(Sign, &[u8])>
    ensures { signed_of_word first tail.now ≡ option_and_then (λ x. option_map (TypeNode.Int x.0) (width_of x.1.now)) result }
{
    let [second, digits @ ..] = tail else {
        return None;
    };
    if *second != b'i' {
        return None;
    }
    let sign = named_sign(first)?;
    Some((sign, digits))
}

/// Returns the signedness at the start of the word, and the digits after it.
fn integer_parts(word: &[u8]) -> Option<(Sign, &[u8])>
    ensures { integer_type_of word.now ≡ option_and_then (λ x. option_map (TypeNode.Int x.0) (width_of x.1.now)) result }
{
    let [first, tail @ ..] = word else {
        return None;
    };
    if *first == b'i' {
        return Some((Sign::Signless, tail));
    }
    signed_parts(*first, tail)
}

/// Returns the integer type that the word names.
fn integer_type_of(word: &[u8]) -> Option<TypeNode>
    ensures integer { result ≡ integer_type_of word.now }
    ensures parts { IfSome result (λ node. (c : ContextModel) → TypeIsOf c node) }
{
    let (sign, digits) = integer_parts(word)?;
    let width = width_of(digits)?;
    Some(TypeNode::Int { sign, width })
}

/// Returns the scalar type that the word names: `iN`, `siN`, `uiN` or `index`. Builtin Dialect, "Types".
#[tactic(auto, unfolding(crate::specs::Scalars::scalar_of))]
pub fn scalar_of(word: &[u8]) -> Option<TypeNode>
    ensures scalar { result ≡ scalar_of word.now }
    ensures parts { IfSome result (λ node. (c : ContextModel) → TypeIsOf c node) }
{
    if word == b"index".as_slice() {
        return Some(TypeNode::Index);
    }
    integer_type_of(word)
}

/// Returns whether the digits are a decimal number that is no width.
fn writes_bad_width(digits: &[u8]) -> bool {
    !digits.is_empty() && are_digits(digits) && width_of(digits).is_none()
}

/// Returns why a word isn't accepted as a type: `BadWidth` for an integer type of a bad width, otherwise `LeftOut`.
pub fn word_refusal(word: &[u8]) -> TextRefusal {
    match integer_parts(word) {
        Some((_, digits)) => {
            if writes_bad_width(digits) {
                TextRefusal::BadWidth
            } else {
                TextRefusal::LeftOut
            }
        }
        None => TextRefusal::LeftOut,
    }
}

/// Returns whether the word is `memref`.
pub fn is_memref(word: &[u8]) -> bool
    ensures { result ≡ bytes_eq word.now memref_word }
{
    word == b"memref".as_slice()
}
