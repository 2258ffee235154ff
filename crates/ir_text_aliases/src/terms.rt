//! Finds the end of the attribute or type that is the value of an alias.
ghost use Rattle.std.specs.Prelude.{◌≡◌, option_map};
ghost use Rattle.std.specs.Result.{result_map_both};
ghost use Rattle.ir_text_aliases.specs.Terms.{arrow_end, attr_end, begins_digit, after_colons, distinct_end, elements_end, function_end, hash_end, name_end, needed_end, number_end, plain_attr_end, plain_type_end, results_end, symbol_end, symbols_end, type_end, typed_end, value_end, word_end, word_type_end};

use crate::values::{enclosed, group_end};
use crate::words::{
    is_distinct, is_element, is_listed, is_lone, is_place_word, is_scalar, is_shaped,
};
use ir_text_tokens::bodies::has_dot;
use ir_text_tokens::fault::Fault;
use ir_text_tokens::lexer::{after_byte, skip, token};
use ir_text_tokens::refusal::TextRefusal;
use ir_text_tokens::token::Token;

// ---- names of dialects, and aliases

fn begins_digit(name: &[u8]) -> bool
    ensures { result ≡ begins_digit name.now }
{
    match name {
        [byte, ..] => byte.is_ascii_digit(),
        [] => false,
    }
}

/// Returns the rest of the text after a name and its angle brackets. `all` begins with the sigil of the name.
fn name_end<'a>(all: &'a [u8], name: &'a [u8], rest: &'a [u8]) -> Result<&'a [u8], Fault>
    ensures { result_map_both (λ r. r.now) (λ f. f) result ≡ name_end all.now name.now rest.now }
{
    if matches!(rest, [b'<', ..]) {
        return enclosed(b'<', b'>', rest);
    }
    if begins_digit(name) {
        return Err(Fault::at(TextRefusal::LeftOut, all));
    }
    Ok(rest)
}

// ---- types

/// Returns the rest of the text after the type that `word` begins. `all` begins with the word.
fn word_type_end<'a>(all: &'a [u8], word: &'a [u8], rest: &'a [u8]) -> Result<&'a [u8], Fault>
    ensures { result_map_both (λ r. r.now) (λ f. f) result ≡ word_type_end all.now word.now rest.now }
{
    if is_shaped(word) {
        return enclosed(b'<', b'>', skip(rest));
    }
    if is_scalar(word) {
        return Ok(rest);
    }
    Err(Fault::at(TextRefusal::Unexpected, all))
}

/// Returns the rest of the text after a type that is no function type.
#[tactic(auto, unfolding(crate::specs::Terms::plain_type_end))]
fn plain_type_end(bytes: &[u8]) -> Result<&[u8], Fault>
    ensures { result_map_both (λ r. r.now) (λ f. f) result ≡ plain_type_end bytes.now }
{
    let Ok((found, rest)) = token(bytes) else {
        return Err(Fault::at(TextRefusal::BadToken, bytes));
    };
    match found {
        Token::Bare(word) => word_type_end(bytes, word, rest),
        Token::Bang(name) => name_end(bytes, name, rest),
        _ => Err(Fault::at(TextRefusal::Unexpected, bytes)),
    }
}

/// Returns the rest of the text after the results of a function type.
fn results_end(bytes: &[u8]) -> Result<&[u8], Fault>
    ensures { result_map_both (λ r. r.now) (λ f. f) result ≡ results_end bytes.now }
{
    if matches!(bytes, [b'(', ..]) {
        return enclosed(b'(', b')', bytes);
    }
    plain_type_end(bytes)
}

/// Returns the rest of the text after the arrow and the results of a function type.
fn arrow_end(bytes: &[u8]) -> Result<&[u8], Fault>
    ensures { result_map_both (λ r. r.now) (λ f. f) result ≡ arrow_end bytes.now }
{
    match bytes {
        [b'-', b'>', rest @ ..] => results_end(skip(rest)),
        _ => Err(Fault::at(TextRefusal::Unexpected, bytes)),
    }
}

/// Returns the rest of the text after a function type.
#[tactic(auto, unfolding(crate::specs::Terms::function_end))]
fn function_end(bytes: &[u8]) -> Result<&[u8], Fault>
    ensures { result_map_both (λ r. r.now) (λ f. f) result ≡ function_end bytes.now }
{
    match enclosed(b'(', b')', bytes) {
        Ok(rest) => arrow_end(skip(rest)),
        Err(fault) => Err(fault),
    }
}

fn type_end(bytes: &[u8]) -> Result<&[u8], Fault>
    ensures { result_map_both (λ r. r.now) (λ f. f) result ≡ type_end bytes.now }
{
    if matches!(bytes, [b'(', ..]) {
        return function_end(bytes);
    }
    plain_type_end(bytes)
}

/// Returns the rest of the text after an optional colon and type.
#[tactic(auto, unfolding(crate::specs::Terms::typed_end))]
fn typed_end(bytes: &[u8]) -> Result<&[u8], Fault>
    ensures { result_map_both (λ r. r.now) (λ f. f) result ≡ typed_end bytes.now }
{
    match after_byte(bytes, b':') {
        Some(rest) => type_end(skip(rest)),
        None => Ok(bytes),
    }
}

/// Returns the rest of the text after a required colon and type.
#[tactic(auto, unfolding(crate::specs::Terms::needed_end))]
fn needed_end(bytes: &[u8]) -> Result<&[u8], Fault>
    ensures { result_map_both (λ r. r.now) (λ f. f) result ≡ needed_end bytes.now }
{
    match after_byte(bytes, b':') {
        Some(rest) => type_end(skip(rest)),
        None => Err(Fault::at(TextRefusal::Unexpected, skip(bytes))),
    }
}

// ---- attributes

/// Returns the rest of the text after a number and its type, given the text after a minus sign.
#[tactic(auto, unfolding(crate::specs::Terms::number_end))]
fn number_end(bytes: &[u8]) -> Result<&[u8], Fault>
    ensures { result_map_both (λ r. r.now) (λ f. f) result ≡ number_end bytes.now }
{
    let Ok((found, rest)) = token(bytes) else {
        return Err(Fault::at(TextRefusal::BadToken, bytes));
    };
    match found {
        Token::Integer(_) => typed_end(rest),
        Token::Float(_) => typed_end(rest),
        _ => Err(Fault::at(TextRefusal::Unexpected, bytes)),
    }
}

/// Returns the rest of the text after an alias, or after a dialect's attribute and its type. `all` begins with the
/// sigil.
fn hash_end<'a>(all: &'a [u8], name: &'a [u8], rest: &'a [u8]) -> Result<&'a [u8], Fault>
    ensures { result_map_both (λ r. r.now) (λ f. f) result ≡ hash_end all.now name.now rest.now }
{
    if !matches!(rest, [b'<', ..]) && !has_dot(name) {
        return name_end(all, name, rest);
    }
    match name_end(all, name, rest) {
        Ok(trailing) => typed_end(trailing),
        Err(fault) => Err(fault),
    }
}

/// Returns the rest of the text after the angle brackets of elements and their type.
fn elements_end(bytes: &[u8]) -> Result<&[u8], Fault>
    ensures { result_map_both (λ r. r.now) (λ f. f) result ≡ elements_end bytes.now }
{
    match enclosed(b'<', b'>', bytes) {
        Ok(rest) => needed_end(rest),
        Err(fault) => Err(fault),
    }
}

/// Returns the rest of the text after the square and angle brackets of a distinct attribute.
fn distinct_end(bytes: &[u8]) -> Result<&[u8], Fault>
    ensures { result_map_both (λ r. r.now) (λ f. f) result ≡ distinct_end bytes.now }
{
    match enclosed(b'[', b']', bytes) {
        Ok(rest) => enclosed(b'<', b'>', skip(rest)),
        Err(fault) => Err(fault),
    }
}

/// Returns the rest of the text after the attribute that `word` begins. `all` begins with the word.
fn word_end<'a>(all: &'a [u8], word: &'a [u8], rest: &'a [u8]) -> Result<&'a [u8], Fault>
    ensures { result_map_both (λ r. r.now) (λ f. f) result ≡ word_end all.now word.now rest.now }
{
    if is_lone(word) {
        return Ok(rest);
    }
    if is_element(word) {
        return elements_end(skip(rest));
    }
    if is_listed(word) {
        return enclosed(b'<', b'>', skip(rest));
    }
    if is_place_word(word) {
        return enclosed(b'(', b')', skip(rest));
    }
    if is_distinct(word) {
        return distinct_end(skip(rest));
    }
    word_type_end(all, word, rest)
}

/// Returns the rest of the text after a symbol.
#[tactic(auto, unfolding(crate::specs::Terms::symbol_end))]
fn symbol_end(bytes: &[u8]) -> Result<&[u8], Fault>
    ensures { result_map_both (λ r. r.now) (λ f. f) result ≡ symbol_end bytes.now }
{
    let Ok((found, rest)) = token(bytes) else {
        return Err(Fault::at(TextRefusal::BadToken, bytes));
    };
    match found {
        Token::Symbol(_) => Ok(rest),
        Token::Quoted(_) => Ok(rest),
        _ => Err(Fault::at(TextRefusal::Unexpected, bytes)),
    }
}

fn after_colons(bytes: &[u8]) -> Option<&[u8]>
    ensures { option_map (λ r. r.now) result ≡ after_colons bytes.now }
{
    match bytes {
        [b':', b':', rest @ ..] => Some(rest),
        _ => None,
    }
}

/// Returns the rest of the text after the nested symbols of a reference, at most `most` of them. The first symbol was
/// read.
#[tactic(auto, unfolding(crate::specs::Terms::symbols_end))]
fn symbols_end(most: usize, bytes: &[u8]) -> Result<&[u8], Fault>
    ensures { result_map_both (λ r. r.now) (λ f. f) result ≡ symbols_end most bytes.now }
{
    let mut rest = bytes;
    let mut headroom = most;
    'symbols: while headroom > 0 {
        let Some(trailing) = after_colons(skip(rest)) else {
            return Ok(rest);
        };
        match symbol_end(skip(trailing)) {
            Ok(extra) => rest = extra,
            Err(fault) => return Err(fault),
        }
        headroom -= 1;
    }
    Ok(rest)
}

/// Returns the rest of the text after an attribute that begins with neither a bracket nor a minus sign.
#[tactic(auto, unfolding(crate::specs::Terms::plain_attr_end))]
fn plain_attr_end(bytes: &[u8]) -> Result<&[u8], Fault>
    ensures { result_map_both (λ r. r.now) (λ f. f) result ≡ plain_attr_end bytes.now }
{
    let Ok((found, rest)) = token(bytes) else {
        return Err(Fault::at(TextRefusal::BadToken, bytes));
    };
    match found {
        Token::Integer(_) => typed_end(rest),
        Token::Float(_) => typed_end(rest),
        Token::String(_) => typed_end(rest),
        Token::Bare(word) => word_end(bytes, word, rest),
        Token::Hash(name) => hash_end(bytes, name, rest),
        Token::Bang(name) => name_end(bytes, name, rest),
        Token::Symbol(_) => symbols_end(rest.len(), rest),
        Token::Quoted(_) => symbols_end(rest.len(), rest),
        _ => Err(Fault::at(TextRefusal::Unexpected, bytes)),
    }
}

fn attr_end(bytes: &[u8]) -> Result<&[u8], Fault>
    ensures { result_map_both (λ r. r.now) (λ f. f) result ≡ attr_end bytes.now }
{
    match bytes {
        [b'[', tail @ ..] => group_end(b']', tail),
        [b'{', tail @ ..] => group_end(b'}', tail),
        [b'-', tail @ ..] => number_end(skip(tail)),
        [b'(', ..] => function_end(bytes),
        [_, ..] => plain_attr_end(bytes),
        [] => Err(Fault::at(TextRefusal::Unexpected, bytes)),
    }
}

// ---- values

/// Returns the rest of the text after the value of an alias: a type if `of_type`, otherwise an attribute.
///
/// - `Unexpected`: a token doesn't fit, or brackets aren't closed.
/// - `BadToken`: no token begins there.
/// - `LeftOut`: a name consists of digits.
pub fn value_end(of_type: bool, bytes: &[u8]) -> Result<&[u8], Fault>
    ensures { result_map_both (λ r. r.now) (λ f. f) result ≡ value_end of_type bytes.now }
{
    if of_type {
        type_end(bytes)
    } else {
        attr_end(bytes)
    }
}
