//! Splits a text into lexemes.
ghost use Rattle.std.specs.Prelude.{◌≡◌, ◌==◌, ◌≤◌, not, false, ◌∷◌, length, take, drop};
ghost use Rattle.std.specs.List.{prefix_len};
ghost use Rattle.std.specs.Char.{is_ascii_digit};
ghost use Rattle.ir_text_tokens.specs.Bytes.{is_letter, is_suffix, is_word};
ghost use Rattle.ir_text_tokens.specs.Strings.{closing};
ghost use Rattle.ir_text_tokens.specs.Tokens.{suffix_len};
ghost use Rattle.ir_text_tokens.specs.Bodies.{are_slashes, is_arrow, is_closed};
ghost use Rattle.ir_text_aliases.specs.Lexemes.{from_quote, is_gap, is_loc, is_name_sign, is_open_string, line_len, named_len, own_len, lexeme_len, quoted_len, word_len};

use ir_text_tokens::lexer::token;

fn is_no_line_end(byte: u8) -> bool
    ensures { result ≡ not (byte == 10) }
{
    byte != b'\n'
}

fn line_len(bytes: &[u8]) -> usize
    ensures len { result ≡ line_len bytes.now }
    ensures within { result ≤ length bytes.now }
{
    bytes.iter().take_while(|b| is_no_line_end(**b)).count()
}

pub(crate) fn is_word(byte: u8) -> bool
    ensures { result ≡ is_word byte }
{
    byte.is_ascii_alphanumeric() || byte == b'_' || byte == b'$' || byte == b'.'
}

fn is_suffix(byte: u8) -> bool
    ensures { result ≡ is_suffix byte }
{
    is_word(byte) || byte == b'-'
}

fn is_digit(byte: u8) -> bool
    ensures { result ≡ is_ascii_digit byte }
{
    byte.is_ascii_digit()
}

fn is_letter(byte: u8) -> bool
    ensures { result ≡ is_letter byte }
{
    byte.is_ascii_alphabetic() || byte == b'_'
}

/// Returns the number of word bytes at the start of `bytes`, which continue a word.
pub(crate) fn word_len(bytes: &[u8]) -> usize
    ensures len { result ≡ word_len bytes.now }
    ensures within { result ≤ length bytes.now }
{
    bytes.iter().take_while(|b| is_word(**b)).count()
}

fn digits_len(bytes: &[u8]) -> usize
    ensures len { result ≡ prefix_len is_ascii_digit bytes.now }
    ensures within { result ≤ length bytes.now }
{
    bytes.iter().take_while(|b| is_digit(**b)).count()
}

fn suffixes_len(bytes: &[u8]) -> usize
    ensures len { result ≡ prefix_len is_suffix bytes.now }
    ensures within { result ≤ length bytes.now }
{
    bytes.iter().take_while(|b| is_suffix(**b)).count()
}

/// Returns the length of a name.
pub fn name_len(bytes: &[u8]) -> usize
    ensures len { result ≡ suffix_len bytes.now }
    ensures within { result ≤ length bytes.now }
{
    match bytes {
        [byte, ..] if !is_digit(*byte) => suffixes_len(bytes),
        _ => digits_len(bytes),
    }
}

/// Returns the length of a name without a trailing minus that is part of an arrow.
fn own_len(bytes: &[u8]) -> usize
    ensures len { result ≡ own_len bytes.now }
    ensures within { result ≤ length bytes.now }
{
    let len = name_len(bytes);
    if len != 0 && is_arrow(bytes[len - 1], &bytes[len..]) {
        len - 1
    } else {
        len
    }
}

/// Returns the length of the name after its sigil.
fn named_len(sign: u8, tail: &[u8]) -> usize
    ensures len { result ≡ named_len sign tail.now }
    ensures within { result ≤ length tail.now }
{
    match sign {
        b'#' | b'!' => name_len(tail),
        _ => own_len(tail),
    }
}

pub(crate) fn is_name_sign(byte: u8) -> bool
    ensures { result ≡ is_name_sign byte }
{
    matches!(byte, b'#' | b'!' | b'%' | b'^' | b'@')
}

pub(crate) fn are_slashes(byte: u8, tail: &[u8]) -> bool
    ensures { result ≡ are_slashes byte tail.now }
{
    byte == b'/' && matches!(tail, [b'/', ..])
}

pub(crate) fn is_arrow(byte: u8, tail: &[u8]) -> bool
    ensures { result ≡ is_arrow byte tail.now }
{
    byte == b'-' && matches!(tail, [b'>', ..])
}

/// Returns whether a blank or a comment begins with `byte`.
pub fn is_gap(byte: u8, tail: &[u8]) -> bool
    ensures { result ≡ is_gap byte tail.now }
{
    matches!(byte, b' ' | b'\t' | b'\n' | b'\r') || are_slashes(byte, tail)
}

/// Returns whether the word that begins with `byte` is `loc`.
pub(crate) fn is_loc(byte: u8, tail: &[u8]) -> bool
    ensures { result ≡ is_loc byte tail.now }
{
    byte == b'l' && matches!(&tail[..word_len(tail)], [b'o', b'c'])
}

/// Returns the rest of the text after the string that `all` begins with, or the empty text if the string isn't
/// closed.
fn after_string<'a>(all: &'a [u8], tail: &'a [u8]) -> &'a [u8]
    requires all { all.now ≡ 34 ∷ tail.now }
    ensures { result.now ≡ drop (quoted_len tail.now) tail.now }
{
    match token(all) {
        Ok((_, rest)) => rest,
        Err(_) => &tail[tail.len()..],
    }
}

/// Returns the rest of the text after a symbol, given the text after its sigil.
fn after_symbol(tail: &[u8]) -> &[u8]
    ensures { result.now ≡ drop (lexeme_len 64 tail.now) tail.now }
{
    match tail {
        [b'"', text @ ..] => after_string(tail, text),
        _ => &tail[own_len(tail)..],
    }
}

/// Returns the rest of the text after the lexeme that begins with `byte` and is neither a string nor a symbol.
fn after_plain(byte: u8, tail: &[u8]) -> &[u8]
    requires string { (byte == 34) ≡ false }
    requires symbol { (byte == 64) ≡ false }
    ensures { result.now ≡ drop (lexeme_len byte tail.now) tail.now }
{
    if are_slashes(byte, tail) {
        return &tail[line_len(tail)..];
    }
    if is_name_sign(byte) {
        return &tail[named_len(byte, tail)..];
    }
    if is_letter(byte) {
        return &tail[word_len(tail)..];
    }
    match tail {
        [b'>', rest @ ..] if byte == b'-' => rest,
        _ => tail,
    }
}

/// Returns the rest of the text after the lexeme that begins with `byte`.
pub fn after_lexeme<'a>(byte: u8, all: &'a [u8], tail: &'a [u8]) -> &'a [u8]
    requires all { all.now ≡ byte ∷ tail.now }
    ensures { result.now ≡ drop (lexeme_len byte tail.now) tail.now }
{
    if byte == b'"' {
        return after_string(all, tail);
    }
    if byte == b'@' {
        return after_symbol(tail);
    }
    after_plain(byte, tail)
}

/// Returns whether the string that `all` begins with is closed.
fn is_closed(all: &[u8], tail: &[u8]) -> bool
    requires all { all.now ≡ 34 ∷ tail.now }
    ensures { result ≡ is_closed (closing tail.now) }
{
    match token(all) {
        Ok(_) => true,
        Err(_) => false,
    }
}

/// Returns whether `all` begins with a string or a quoted symbol that isn't closed.
pub(crate) fn is_open_string(byte: u8, all: &[u8], tail: &[u8]) -> bool
    requires all { all.now ≡ byte ∷ tail.now }
    ensures { result ≡ is_open_string byte tail.now }
{
    if byte == b'"' {
        return !is_closed(all, tail);
    }
    match tail {
        [b'"', text @ ..] if byte == b'@' => !is_closed(tail, text),
        _ => false,
    }
}

/// Returns the text from the quote on if `all` begins with a string or a quoted symbol, otherwise `all`.
pub(crate) fn from_quote<'a>(byte: u8, all: &'a [u8], tail: &'a [u8]) -> &'a [u8]
    requires all { all.now ≡ byte ∷ tail.now }
    ensures { result.now ≡ from_quote byte tail.now }
{
    match tail {
        [b'"', ..] if byte == b'@' => tail,
        _ => all,
    }
}
