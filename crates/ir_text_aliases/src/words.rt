//! The words that begin an attribute or a type.
ghost use Rattle.std.specs.Prelude.{◌≡◌};
ghost use Rattle.ir_text_aliases.specs.Words.{is_distinct, is_element, is_integer_word, is_listed, is_lone, is_place_word, is_scalar, is_shaped, is_signed_width, is_width};

use ir_text_tokens::numbers::are_digits;
use ir_text_types::opaque::is_alone;

/// Returns whether the word is an attribute by itself.
#[tactic(auto, unfolding(crate::specs::Words::is_lone))]
pub(crate) fn is_lone(word: &[u8]) -> bool
    ensures { result ≡ is_lone word.now }
{
    if word == b"true".as_slice() {
        return true;
    }
    if word == b"false".as_slice() {
        return true;
    }
    word == b"unit".as_slice()
}

/// Returns whether the word begins elements, which continue with angle brackets and a type.
#[tactic(auto, unfolding(crate::specs::Words::is_element))]
pub(crate) fn is_element(word: &[u8]) -> bool
    ensures { result ≡ is_element word.now }
{
    if word == b"dense".as_slice() {
        return true;
    }
    if word == b"sparse".as_slice() {
        return true;
    }
    word == b"dense_resource".as_slice()
}

/// Returns whether the word begins an attribute that consists of the word and angle brackets.
#[tactic(auto, unfolding(crate::specs::Words::is_listed))]
pub(crate) fn is_listed(word: &[u8]) -> bool
    ensures { result ≡ is_listed word.now }
{
    if word == b"array".as_slice() {
        return true;
    }
    if word == b"affine_map".as_slice() {
        return true;
    }
    if word == b"affine_set".as_slice() {
        return true;
    }
    word == b"strided".as_slice()
}

/// Returns whether the word begins a type that consists of the word and angle brackets.
#[tactic(auto, unfolding(crate::specs::Words::is_shaped))]
pub(crate) fn is_shaped(word: &[u8]) -> bool
    ensures { result ≡ is_shaped word.now }
{
    if word == b"tensor".as_slice() {
        return true;
    }
    if word == b"vector".as_slice() {
        return true;
    }
    if word == b"complex".as_slice() {
        return true;
    }
    if word == b"tuple".as_slice() {
        return true;
    }
    word == b"memref".as_slice()
}

/// Returns whether the word is `loc`.
#[tactic(auto, unfolding(crate::specs::Words::is_place_word))]
pub(crate) fn is_place_word(word: &[u8]) -> bool
    ensures { result ≡ is_place_word word.now }
{
    word == b"loc".as_slice()
}

/// Returns whether the word is `distinct`.
#[tactic(auto, unfolding(crate::specs::Words::is_distinct))]
pub(crate) fn is_distinct(word: &[u8]) -> bool
    ensures { result ≡ is_distinct word.now }
{
    word == b"distinct".as_slice()
}

// ---- types of one word

fn is_width(digits: &[u8]) -> bool
    ensures { result ≡ is_width digits.now }
{
    !digits.is_empty() && are_digits(digits)
}

fn is_signed_width(word: &[u8]) -> bool
    ensures { result ≡ is_signed_width word.now }
{
    match word {
        [b'i', digits @ ..] => is_width(digits),
        _ => false,
    }
}

fn is_integer_word(word: &[u8]) -> bool
    ensures { result ≡ is_integer_word word.now }
{
    match word {
        [b'i', digits @ ..] => is_width(digits),
        [b's' | b'u', rest @ ..] => is_signed_width(rest),
        _ => false,
    }
}

/// Returns whether the word is a type by itself.
#[tactic(auto, unfolding(crate::specs::Words::is_scalar))]
pub fn is_scalar(word: &[u8]) -> bool
    ensures { result ≡ is_scalar word.now }
{
    is_alone(word) || word == b"index".as_slice() || is_integer_word(word)
}
