//! The lexer: takes tokens from the front of a text by longest match.
ghost use Rattle.std.specs.Prelude.{◌≡◌, ◌+◌, ◌≤◌, ◌∷◌, ℕ, length, option_map, IfErr, IfSome, IsTrue, Some};
ghost use Rattle.std.specs.List.{prefix_len};
ghost use Rattle.ir_text_tokens.specs.Reading.{GivesOrNone};
ghost use Rattle.ir_text_tokens.specs.Tokens.{bare, trailing_first, begins_other, exponent_len, fraction_len, hash, hex_len, lexeme_of, longer, mark, mark_at, mark_of, name_parts, next, next_mark, number_at, sign_at, sign_len, skip, skip_line, string, string_parts, suffix_len, symbol_at, token_at, value};
ghost use Rattle.ir_text_tokens.specs.Strings.{string_bytes};
ghost use Rattle.ir_text_tokens.specs.declared.refusal.TextRefusal.{TextRefusal};

use crate::fault::Fault;
use crate::refusal::TextRefusal;
use crate::runs::{Class, is_blank, is_letter, run_len};
use crate::strings::{closing, word_closing};
use crate::token::{Mark, Token};

/// Returns the rest of the text after the line feed that ends a comment.
#[tactic(auto, unfolding(crate::specs::Tokens::skip_line))]
fn skip_line(bytes: &[u8]) -> &[u8]
    ensures line { skip result.now ≡ skip_line bytes.now }
    ensures within { length result.now ≤ length bytes.now }
{
    let mut rest = bytes;
    'line: while let [byte, tail @ ..] = rest {
        rest = tail;
        if *byte == b'\n' {
            return rest;
        }
    }
    rest
}

/// Returns the rest of the text after leading spaces, which it skips four at a time.
#[tactic(auto, using(crate::proofs::Blanks::one_space), unfolding(crate::specs::Tokens::skip))]
fn skip_fours(bytes: &[u8]) -> &[u8]
    ensures spaces { skip result.now ≡ skip bytes.now }
    ensures within { length result.now ≤ length bytes.now }
{
    let mut rest = bytes;
    'spaces: while let [b' ', b' ', b' ', b' ', tail @ ..] = rest {
        rest = tail;
    }
    rest
}

/// Returns whether the first byte is neither a blank nor the start of a comment.
#[inline(always)]
fn is_begun(bytes: &[u8]) -> bool
    ensures { IsTrue result → skip bytes.now ≡ bytes.now }
{
    match bytes {
        [] => false,
        [byte, ..] => *byte > b' ' && *byte != b'/',
    }
}

/// Returns the rest of the text after one leading space, or `None` if there is no leading space.
#[inline(always)]
#[tactic(auto, using(crate::proofs::Blanks::one_space), unfolding(crate::specs::Tokens::skip))]
fn after_space(bytes: &[u8]) -> Option<&[u8]>
    ensures { IfSome result (λ r. skip r.now ≡ skip bytes.now) }
{
    match bytes {
        [b' ', tail @ ..] => Some(tail),
        _ => None,
    }
}

/// Returns the rest of the text after any number of leading blanks and comments.
#[tactic(auto, using(crate::proofs::Blanks::line_feed), unfolding(crate::specs::Tokens::skip))]
fn skip_all(bytes: &[u8]) -> &[u8]
    ensures { result.now ≡ skip bytes.now }
{
    let mut rest = bytes;
    'blanks: loop {
        match rest {
            [b'/', b'/', tail @ ..] => rest = skip_line(tail),
            [b'\n', tail @ ..] => {
                rest = skip_fours(tail);
                if is_begun(rest) {
                    return rest;
                }
            }
            [byte, tail @ ..] if is_blank(*byte) => rest = tail,
            _ => return rest,
        }
    }
}

/// Returns the rest of the text after leading blanks and comments. The usual cases, none and one space, are fast.
#[inline(always)]
pub fn skip(bytes: &[u8]) -> &[u8]
    ensures { result.now ≡ skip bytes.now }
{
    if is_begun(bytes) {
        return bytes;
    }
    match after_space(bytes) {
        Some(tail) if is_begun(tail) => tail,
        _ => skip_all(bytes),
    }
}

fn hex_len(bytes: &[u8]) -> usize
    ensures len { result ≡ hex_len bytes.now }
    ensures within { result ≤ length bytes.now }
{
    if let [b'0', b'x', tail @ ..] = bytes {
        let digits = run_len(tail, Class::Hexadecimal);
        if digits != 0 {
            return digits + 2;
        }
    }
    0
}

fn sign_len(bytes: &[u8]) -> usize
    ensures len { result ≡ sign_len bytes.now }
    ensures within { result ≤ length bytes.now }
{
    match bytes {
        [b'+' | b'-', ..] => 1,
        _ => 0,
    }
}

#[tactic(auto, unfolding(crate::specs::Tokens::exponent_len))]
fn exponent_len(bytes: &[u8]) -> usize
    ensures len { result ≡ exponent_len bytes.now }
    ensures within { result ≤ length bytes.now }
{
    if let [b'e' | b'E', tail @ ..] = bytes {
        let sign = sign_len(tail);
        let (_, tail) = tail.split_at(sign);
        let digits = run_len(tail, Class::Digit);
        if digits != 0 {
            return 1 + sign + digits;
        }
    }
    0
}

#[tactic(auto, unfolding(crate::specs::Tokens::fraction_len))]
fn fraction_len(bytes: &[u8]) -> usize
    ensures len { result ≡ fraction_len bytes.now }
    ensures within { result ≤ length bytes.now }
{
    if let [b'.', tail @ ..] = bytes {
        let digits = run_len(tail, Class::Digit);
        let (_, tail) = tail.split_at(digits);
        return 1 + digits + exponent_len(tail);
    }
    0
}

/// Returns the integer or float at the front, and the rest of the text.
#[tactic(auto, unfolding(crate::specs::Tokens::number_at))]
fn number(bytes: &[u8]) -> (Token<'_>, &[u8])
    ensures { number_at bytes.now ≡ Some (lexeme_of result.0, result.1.now) }
{
    let hex = hex_len(bytes);
    if hex != 0 {
        let (preceding, rest) = bytes.split_at(hex);
        return (Token::Integer(preceding), rest);
    }
    let digits = run_len(bytes, Class::Digit);
    let (preceding, rest) = bytes.split_at(digits);
    let fraction = fraction_len(rest);
    if fraction == 0 {
        return (Token::Integer(preceding), rest);
    }
    let (preceding, rest) = bytes.split_at(digits + fraction);
    (Token::Float(preceding), rest)
}

/// Returns the length of the suffix identifier at the front, or 0.
fn suffix_len(bytes: &[u8]) -> usize
    ensures len { result ≡ suffix_len bytes.now }
    ensures within { result ≤ length bytes.now }
{
    match bytes {
        [] => 0,
        [byte, ..] => {
            if byte.is_ascii_digit() {
                run_len(bytes, Class::Digit)
            } else {
                run_len(bytes, Class::Suffix)
            }
        }
    }
}

/// Returns the name after its sigil, and the rest of the text. `tail` is `all` without the sigil.
fn name<'a>(all: &'a [u8], tail: &'a [u8]) -> Result<(&'a [u8], &'a [u8]), usize>
    ensures { GivesOrNone (λ x. (x.0.now, x.1.now)) result (name_parts tail.now) }
{
    let len = suffix_len(tail);
    if len == 0 {
        return Err(all.len());
    }
    Ok(tail.split_at(len))
}

/// Returns the text between the opening quote and the closing one, and the rest. `tail` is `all` without the quote.
fn string<'a>(all: &'a [u8], tail: &'a [u8]) -> Result<(&'a [u8], &'a [u8]), usize>
    ensures { GivesOrNone (λ x. (x.0.now, x.1.now)) result (string_parts tail.now) }
{
    match closing(tail) {
        Ok(len) => Ok((&tail[..len], &tail[len + 1..])),
        Err(Some(left)) => Err(left),
        Err(None) => Err(all.len()),
    }
}

/// Returns the symbol after its sigil `@`, and the rest of the text. `tail` is `all` without the sigil.
#[tactic(auto, unfolding(crate::specs::Tokens::symbol_at))]
fn symbol<'a>(all: &'a [u8], tail: &'a [u8]) -> Result<(Token<'a>, &'a [u8]), usize>
    ensures { GivesOrNone (λ x. (lexeme_of x.0, x.1.now)) result (symbol_at tail.now) }
{
    if let [b'"', text @ ..] = tail {
        let (raw, rest) = string(tail, text)?;
        return Ok((Token::Quoted(raw), rest));
    }
    let (name, rest) = name(all, tail)?;
    Ok((Token::Symbol(name), rest))
}

/// Returns `long` if `tail` begins with `byte`, otherwise `short`, and the rest of the text.
fn longer(byte: u8, long: Mark, short: Mark, tail: &[u8]) -> (Mark, &[u8])
    ensures { longer byte long short tail.now ≡ Some (mark result.0, result.1.now) }
{
    match tail {
        [next, rest @ ..] if *next == byte => (long, rest),
        _ => (short, tail),
    }
}

fn mark_of(byte: u8) -> Option<Mark>
    ensures { result ≡ mark_of byte }
{
    match byte {
        b'(' => Some(Mark::OpenRound),
        b')' => Some(Mark::CloseRound),
        b'{' => Some(Mark::OpenCurly),
        b'}' => Some(Mark::CloseCurly),
        b'[' => Some(Mark::OpenSquare),
        b']' => Some(Mark::CloseSquare),
        b'<' => Some(Mark::Less),
        b'>' => Some(Mark::Greater),
        b',' => Some(Mark::Comma),
        b'=' => Some(Mark::Equal),
        b'?' => Some(Mark::Question),
        b'*' => Some(Mark::Star),
        _ => None,
    }
}

/// Returns the punctuation mark that begins with `byte`, and the rest of the text.
fn mark_at(byte: u8, tail: &[u8]) -> Option<(Mark, &[u8])>
    ensures { option_map (λ x. (mark x.0, x.1.now)) result ≡ mark_at byte tail.now }
{
    if byte == b':' {
        return Some(longer(b':', Mark::DoubleColon, Mark::Colon, tail));
    }
    if byte == b'-' {
        return Some(longer(b'>', Mark::Arrow, Mark::Minus, tail));
    }
    match mark_of(byte) {
        Some(mark) => Some((mark, tail)),
        None => None,
    }
}

/// Returns the punctuation mark that `all` begins with as a token. `all` is `byte` followed by `tail`.
fn punctuation<'a>(byte: u8, all: &'a [u8], tail: &'a [u8]) -> Result<(Token<'a>, &'a [u8]), usize>
    ensures { GivesOrNone (λ x. (lexeme_of x.0, x.1.now)) result (mark_at byte tail.now) }
{
    match mark_at(byte, tail) {
        Some((mark, rest)) => Ok((Token::Mark(mark), rest)),
        None => Err(all.len()),
    }
}

/// Returns the name or string that a sigil or quote begins, otherwise a punctuation mark.
fn sign<'a>(byte: u8, all: &'a [u8], tail: &'a [u8]) -> Result<(Token<'a>, &'a [u8]), usize>
    ensures { GivesOrNone (λ x. (lexeme_of x.0, x.1.now)) result (sign_at byte tail.now) }
{
    match byte {
        b'"' => {
            let (raw, rest) = string(all, tail)?;
            Ok((Token::String(raw), rest))
        }
        b'%' => {
            let (name, rest) = name(all, tail)?;
            Ok((Token::Value(name), rest))
        }
        b'^' => {
            let (name, rest) = name(all, tail)?;
            Ok((Token::Label(name), rest))
        }
        b'#' => {
            let (name, rest) = name(all, tail)?;
            Ok((Token::Hash(name), rest))
        }
        b'!' => {
            let (name, rest) = name(all, tail)?;
            Ok((Token::Bang(name), rest))
        }
        b'@' => symbol(all, tail),
        _ => punctuation(byte, all, tail),
    }
}

/// Returns the token that `all` begins with. `all` is `byte` followed by `tail`.
fn token_at<'a>(byte: u8, all: &'a [u8], tail: &'a [u8]) -> Result<(Token<'a>, &'a [u8]), usize>
    requires { all.now ≡ byte ∷ tail.now }
    ensures { GivesOrNone (λ x. (lexeme_of x.0, x.1.now)) result (token_at byte tail.now) }
{
    if byte.is_ascii_digit() {
        return Ok(number(all));
    }
    if is_letter(byte) {
        let (preceding, rest) = all.split_at(run_len(all, Class::Word));
        return Ok((Token::Bare(preceding), rest));
    }
    sign(byte, all, tail)
}

/// Returns the next token and the rest of the text. MLIR Language Reference, "Common syntax".
///
/// If no token begins there, the fault is at the first byte after blanks and comments. A bad escape is refused at its
/// backslash, and an unclosed string at its opening quote.
#[tactic(auto, unfolding(crate::specs::Tokens::next))]
pub fn token(bytes: &[u8]) -> Result<(Token<'_>, &[u8]), Fault>
    ensures token { GivesOrNone (λ x. (lexeme_of x.0, x.1.now)) result (next bytes.now) }
    ensures refusal { IfErr result (λ fault. fault.refusal ≡ TextRefusal.BadToken) }
{
    let all = skip(bytes);
    let [byte, tail @ ..] = all else {
        return Ok((Token::Mark(Mark::End), all));
    };
    match token_at(*byte, all, tail) {
        Ok(found) => Ok(found),
        Err(left) => Err(Fault {
            refusal: TextRefusal::BadToken,
            left,
        }),
    }
}

/// Returns the rest of the text after `byte`, or `None` if the first byte is another one.
#[inline(always)]
fn after_first(bytes: &[u8], byte: u8) -> Option<&[u8]>
    ensures { option_map (λ r. r.now) result ≡ trailing_first byte bytes.now }
{
    match bytes {
        [first, rest @ ..] if *first == byte => Some(rest),
        _ => None,
    }
}

/// Returns the rest of the text after `byte`, if it is the first byte after leading blanks and comments.
#[inline(always)]
pub fn after_byte(bytes: &[u8], byte: u8) -> Option<&[u8]>
    ensures { option_map (λ r. r.now) result ≡ trailing_first byte (skip bytes.now) }
{
    after_first(skip(bytes), byte)
}

/// Returns the next token if it is a bare word, and the rest of the text.
#[inline(always)]
#[tactic(auto, unfolding(crate::specs::Tokens::next))]
pub fn word(bytes: &[u8]) -> Option<(&[u8], &[u8])>
    ensures { IfSome result (λ x. next bytes.now ≡ Some (bare x.0.now, x.1.now)) }
{
    let all = skip(bytes);
    match all {
        [byte, ..] if is_letter(*byte) => Some(all.split_at(run_len(all, Class::Word))),
        _ => None,
    }
}

/// Returns the name of the next token without its `%`, if the token is a value, and the rest of the text.
#[inline(always)]
#[tactic(auto, unfolding(crate::specs::Tokens::next))]
pub fn value(bytes: &[u8]) -> Option<(&[u8], &[u8])>
    ensures { IfSome result (λ x. next bytes.now ≡ Some (value x.0.now, x.1.now)) }
{
    let [b'%', tail @ ..] = skip(bytes) else {
        return None;
    };
    let len = suffix_len(tail);
    if len == 0 {
        return None;
    }
    Some(tail.split_at(len))
}

/// Returns the name of the next token without its `#`, if the token is such a name, and the rest of the text.
#[inline(always)]
#[tactic(auto, unfolding(crate::specs::Tokens::next))]
pub fn hash(bytes: &[u8]) -> Option<(&[u8], &[u8])>
    ensures { IfSome result (λ x. next bytes.now ≡ Some (hash x.0.now, x.1.now)) }
{
    let [b'#', tail @ ..] = skip(bytes) else {
        return None;
    };
    let len = suffix_len(tail);
    if len == 0 {
        return None;
    }
    Some(tail.split_at(len))
}

/// Returns the text between the quotes of the next token, if the token is a string of word bytes, and the rest of the
/// text.
#[inline(always)]
#[tactic(auto, using(crate::proofs::Quoted::word_string), unfolding(crate::specs::Tokens::next))]
pub fn plain_string(bytes: &[u8]) -> Option<(&[u8], &[u8])>
    ensures token { IfSome result (λ x. next bytes.now ≡ Some (string x.0.now, x.1.now)) }
    ensures content { IfSome result (λ x. string_bytes x.0.now ≡ x.0.now) }
{
    let [b'"', tail @ ..] = skip(bytes) else {
        return None;
    };
    let len = word_closing(tail)?;
    Some((&tail[..len], &tail[len + 1..]))
}

/// Returns whether a token that begins with `byte` is no punctuation mark.
fn begins_other(byte: u8) -> bool
    ensures { result ≡ begins_other byte }
{
    byte.is_ascii_digit()
        || is_letter(byte)
        || matches!(byte, b'"' | b'%' | b'^' | b'#' | b'!' | b'@')
}

/// Returns the next token if it is a punctuation mark, and the rest of the text. No other token is lexed to decide
/// this.
pub fn mark(bytes: &[u8]) -> Option<(Mark, &[u8])>
    ensures { option_map (λ x. (x.0, x.1.now)) result ≡ next_mark bytes.now }
{
    let all = skip(bytes);
    let [byte, tail @ ..] = all else {
        return Some((Mark::End, all));
    };
    if begins_other(*byte) {
        return None;
    }
    mark_at(*byte, tail)
}
