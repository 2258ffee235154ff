//! Parses attribute keys: bare identifiers and string literals.
ghost use Rattle.std.specs.Prelude.{◌≡◌, ◌∷◌, IfOk};
ghost use Rattle.std.specs.Option.{option_map};
ghost use Rattle.ir_text_tokens.specs.Tokens.{lexeme_of, string_parts};
ghost use Rattle.mlir_work_script_base.specs.Keys.{key_bytes, raw_in, ends_word, quoted_from, bare_in, key_in};
ghost use Rattle.mlir_work_script_base.specs.Words.{skip_blanks};

use crate::words::{is_blank, skip_blanks, split_word};
use ir_text_tokens::lexer::token;
use ir_text_tokens::print::is_bare_id;
use ir_text_tokens::strings::string_value;
use ir_text_tokens::token::Token;
use std::alloc::{AllocError, Global};

/// A key in its source form.
#[derive(Clone, Copy)]
pub enum Key<'a> {
    /// A bare identifier.
    Bare(&'a [u8]),
    /// The raw text between the quotes of a string literal.
    Quoted(&'a [u8]),
}

/// Returns the bytes that a key denotes.
pub fn bytes_of(alloc: Global, key: &Key<'_>) -> Result<Vec<u8>, AllocError>
    ensures { IfOk result (λ bytes. bytes.items ≡ key_bytes key.now) }
{
    match key {
        Key::Bare(name) => Vec::from_slice(alloc, name),
        Key::Quoted(raw) => string_value(alloc, raw),
    }
}

/// Returns whether a word ends before this text.
fn ends_word(text: &[u8]) -> bool
    ensures { result ≡ ends_word text.now }
{
    match text {
        [] => true,
        [byte, ..] => is_blank(*byte),
    }
}

/// Returns the raw text between the quotes of a token, or `None` if the token isn't a string literal.
fn raw_of<'a>(token: &Token<'a>) -> Option<&'a [u8]>
    ensures { option_map (λ raw. raw.now) result ≡ raw_in (lexeme_of token.now) }
{
    match token {
        Token::String(raw) => Some(raw),
        _ => None,
    }
}

/// Splits a string literal off the start of a text: its raw text, and the rest of the text.
#[tactic(auto, using(crate::proofs::Quotes::no_parts))]
fn string_in<'a>(text: &'a [u8], tail: &[u8]) -> Option<(&'a [u8], &'a [u8])>
    requires { text.now ≡ 34 ∷ tail.now }
    ensures { option_map (λ x. (x.0.now, x.1.now)) result ≡ string_parts tail.now }
{
    let Ok((token, rest)) = token(text) else {
        return None;
    };
    let raw = raw_of(&token)?;
    Some((raw, rest))
}

/// Parses a key that is a string literal, and skips the blanks after it.
fn quoted<'a>(text: &'a [u8], tail: &[u8]) -> Option<(Key<'a>, &'a [u8])>
    requires { text.now ≡ 34 ∷ tail.now }
    ensures { option_map (λ x. (key_bytes x.0, x.1.now)) result ≡ quoted_from (string_parts tail.now) }
{
    let (raw, rest) = string_in(text, tail)?;
    if ends_word(rest) {
        return Some((Key::Quoted(raw), skip_blanks(rest)));
    }
    None
}

/// Parses a key that is a bare identifier, and skips the blanks after it.
fn bare(text: &[u8]) -> Option<(Key<'_>, &[u8])>
    ensures { option_map (λ x. (key_bytes x.0, x.1.now)) result ≡ bare_in text.now }
{
    let (word, rest) = split_word(text);
    if is_bare_id(word) {
        return Some((Key::Bare(word), rest));
    }
    None
}

/// Parses a key at the start of a text, skips the blanks after it, and returns the rest of the text.
pub fn split_key(text: &[u8]) -> Option<(Key<'_>, &[u8])>
    ensures { option_map (λ x. (key_bytes x.0, x.1.now)) result ≡ key_in text.now }
{
    match text {
        [] => None,
        [byte, tail @ ..] => {
            if *byte == b'"' {
                return quoted(text, tail);
            }
            bare(text)
        }
    }
}
