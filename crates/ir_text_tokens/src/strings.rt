//! String literals.
ghost use Rattle.std.specs.Prelude.{◌≡◌, ◌≢◌, ◌∷◌, ◌<◌, ◌≤◌, ◌+◌, suc, false, Some, None, length, drop, option_map, IfOk, IfSome};
ghost use Rattle.ir_text_tokens.specs.Reading.{GivesOrNone};
ghost use Rattle.ir_text_tokens.specs.Strings.{closing, closing_escape, escape_bytes, hex_value, is_short, option_list, short_value, string_bytes};
ghost use Rattle.ir_text_tokens.specs.Bytes.{is_line_end, is_word};
ghost use Rattle.std.specs.List.{prefix_len};

use crate::runs::{Class, is_hex, is_line_end, run_len};
use std::alloc::{AllocError, Global};

/// Returns whether a backslash and `byte` are a complete escape.
fn is_short(byte: u8) -> bool
    ensures { result ≡ is_short byte }
{
    matches!(byte, b'\\' | b'"' | b'n' | b't')
}

/// Returns the byte that a backslash and `byte` denote.
fn short_value(byte: u8) -> u8
    ensures { result ≡ short_value byte }
{
    match byte {
        b'n' => b'\n',
        b't' => b'\t',
        _ => byte,
    }
}

/// Returns the value of a hexadecimal digit.
pub(crate) fn hex_value(byte: u8) -> u8
    ensures value { result ≡ hex_value byte }
    ensures below { result < 16 }
{
    match byte {
        b'0'..=b'9' => byte - b'0',
        b'a'..=b'f' => byte - b'a' + 10,
        b'A'..=b'F' => byte - b'A' + 10,
        _ => 0,
    }
}

/// Returns the length of the escape after its backslash, or `None` if it isn't an escape.
#[tactic(auto, unfolding(crate::specs::Strings::closing))]
fn escape_len(bytes: &[u8]) -> Option<usize>
    ensures found { IfSome result (λ n. closing_escape bytes.now ≡ option_map (λ k. n + k) (closing (drop n bytes.now))) }
    ensures none { result ≡ None → closing_escape bytes.now ≡ None }
    ensures within { IfSome result (λ n. n ≤ length bytes.now) }
{
    match bytes {
        [byte, ..] if is_short(*byte) => Some(1),
        [high, low, ..] if is_hex(*high) && is_hex(*low) => Some(2),
        _ => None,
    }
}

/// Returns how many more bytes belong to `byte` inside a string: the length of an escape after a backslash, otherwise
/// 0. Returns `None` for a bad escape.
#[tactic(auto, unfolding(crate::specs::Strings::closing))]
fn part_len(byte: u8, bytes: &[u8]) -> Option<usize>
    requires quote { byte ≢ 34 }
    requires line { is_line_end byte ≡ false }
    ensures found { IfSome result (λ n. closing (byte ∷ bytes.now) ≡ option_map (λ k. suc (n + k)) (closing (drop n bytes.now))) }
    ensures none { result ≡ None → closing (byte ∷ bytes.now) ≡ None }
    ensures within { IfSome result (λ n. n ≤ length bytes.now) }
{
    if byte == b'\\' {
        escape_len(bytes)
    } else {
        Some(0)
    }
}

/// Returns the number of bytes before the quote that ends the string, if all of them can be in a word. Most names of
/// operations are such strings.
#[tactic(auto, using(crate::proofs::Quoted::closing_word))]
#[inline(always)]
pub(crate) fn word_closing(bytes: &[u8]) -> Option<usize>
    ensures len { IfSome result (λ n. n ≡ prefix_len is_word bytes.now) }
    ensures found { IfSome result (λ n. closing bytes.now ≡ Some n) }
    ensures within { IfSome result (λ n. n < length bytes.now) }
{
    let len = run_len(bytes, Class::Word);
    match bytes.get(len) {
        Some(b'"') => Some(len),
        _ => None,
    }
}

/// Returns the number of bytes before the quote that ends the string. The error is the number of bytes left at the
/// backslash of a bad escape, or `None` if the string isn't closed.
#[tactic(auto, unfolding(crate::specs::Strings::closing))]
pub(crate) fn closing(bytes: &[u8]) -> Result<usize, Option<usize>>
    ensures found { GivesOrNone (λ n. n) result (closing bytes.now) }
    ensures within { IfOk result (λ n. n < length bytes.now) }
{
    if let Some(len) = word_closing(bytes) {
        return Ok(len);
    }
    let mut rest = bytes;
    let mut len = 0;
    'parts: while let [byte, tail @ ..] = rest {
        if *byte == b'"' {
            return Ok(len);
        }
        if is_line_end(*byte) {
            return Err(None);
        }
        let Some(more) = part_len(*byte, tail) else {
            return Err(Some(rest.len()));
        };
        rest = &tail[more..];
        len += 1 + more;
    }
    Err(None)
}

/// Returns the byte that an escape denotes, given the text after the backslash, and the rest of the text.
#[tactic(auto, unfolding(crate::specs::Strings::string_bytes))]
fn escape(bytes: &[u8]) -> Option<(u8, &[u8])>
    ensures value { escape_bytes bytes.now ≡ option_list (λ x. x.0 ∷ string_bytes x.1.now) result }
    ensures shorter { IfSome result (λ x. length x.1.now < length bytes.now) }
{
    match bytes {
        [] => None,
        [byte, tail @ ..] => {
            if is_short(*byte) {
                return Some((short_value(*byte), tail));
            }
            match tail {
                [] => None,
                [low, rest @ ..] => Some((hex_value(*byte) * 16 + hex_value(*low), rest)),
            }
        }
    }
}

/// Returns the bytes that the text between two quotes denotes. MLIR Language Reference, "Common syntax".
#[tactic(auto, unfolding(crate::specs::Strings::string_bytes))]
pub fn string_value(alloc: Global, raw: &[u8]) -> Result<Vec<u8>, AllocError>
    ensures { IfOk result (λ v. v.items ≡ string_bytes raw.now) }
{
    let mut out = Vec::with_capacity(alloc, raw.len())?;
    let mut rest = raw;
    'parts: while let [byte, tail @ ..] = rest {
        if *byte != b'\\' {
            out.push(*byte)?;
            rest = tail;
        } else if let Some((byte, tail)) = escape(tail) {
            out.push(byte)?;
            rest = tail;
        } else {
            return Ok(out);
        }
    }
    Ok(out)
}
