//! Finds bracketed bodies: one pass from the bracket that opens a body to the bracket that closes it.
ghost use Rattle.std.specs.Prelude.{◌≡◌, ◌==◌, ◌<◌, ◌≤◌, ◌&&◌, if◌then◌else◌, true, false, not, [], ◌∷◌, None, Some, length, take, drop, reverse, option_map, Err, IfOk, IfErr};
ghost use Rattle.std.specs.Result.{result_map_both, result_ok, result_err};
ghost use Rattle.arrayvec.specs.ArrayVec.{array_vec_len};
ghost use Rattle.ir_text_tokens.specs.Tokens.{suffix_len};
ghost use Rattle.ir_text_tokens.specs.Bodies.{begins, body_at, closer_of, comma_ahead, fault_of, has_dot, is_alias, is_none, is_plain_memref, is_sign, is_undivided, part_len, scan, scanned};
ghost use Rattle.ir_text_tokens.specs.Commas.{IsNoComma};

use crate::fault::Fault;
use crate::lexer::{skip, token};
use crate::refusal::TextRefusal;
use arrayvec::ArrayVec;

/// Returns the closing bracket for an opening bracket, or `None` for any other byte.
pub fn closer_of(byte: u8) -> Option<u8>
    ensures { result ≡ closer_of byte }
{
    match byte {
        b'(' => Some(b')'),
        b'[' => Some(b']'),
        b'{' => Some(b'}'),
        b'<' => Some(b'>'),
        _ => None,
    }
}

/// Returns whether `name` contains a dot.
#[tactic(auto, unfolding(crate::specs::Bodies::has_dot))]
pub fn has_dot(name: &[u8]) -> bool
    ensures { result ≡ has_dot name.now }
{
    let mut rest = name;
    'bytes: while let [byte, tail @ ..] = rest {
        if *byte == b'.' {
            return true;
        }
        rest = tail;
    }
    false
}

/// Returns whether `name` contains no dot and doesn't begin with a digit. The empty name isn't undivided.
fn is_undivided(name: &[u8]) -> bool
    ensures { result ≡ is_undivided name.now }
{
    match name {
        [] => false,
        [byte, ..] => !byte.is_ascii_digit() && !has_dot(name),
    }
}

/// Returns the rest of the text after the name that follows the sigil `byte`. `all` is `byte` followed by `tail`.
pub fn after_name<'a>(byte: u8, all: &'a [u8], tail: &'a [u8]) -> &'a [u8]
    requires all { all.now ≡ byte ∷ tail.now }
    requires sign { is_sign byte ≡ true }
    ensures { result.now ≡ drop (suffix_len tail.now) tail.now }
{
    match token(all) {
        Ok((_, rest)) => rest,
        Err(_) => tail,
    }
}

/// Returns the rest of the text after the name that follows the sigil `byte`, or `None` if the name is no alias.
fn alias_name<'a>(byte: u8, all: &'a [u8], tail: &'a [u8]) -> Option<&'a [u8]>
    requires all { all.now ≡ byte ∷ tail.now }
    requires sign { is_sign byte ≡ true }
    ensures { option_map (λ r. r.now) result ≡ (if is_alias byte tail.now then Some (drop (suffix_len tail.now) tail.now) else None) }
{
    let rest = after_name(byte, all, tail);
    if names_alias(&tail[..tail.len() - rest.len()], rest) {
        Some(rest)
    } else {
        None
    }
}

/// Returns the rest of the text after the alias that `all` begins with, or `None` if `all` begins with no alias.
pub fn after_alias<'a>(byte: u8, all: &'a [u8], tail: &'a [u8]) -> Option<&'a [u8]>
    requires all { all.now ≡ byte ∷ tail.now }
    ensures { option_map (λ r. r.now) result ≡ (if is_alias byte tail.now then Some (drop (suffix_len tail.now) tail.now) else None) }
{
    if byte == b'#' || byte == b'!' {
        alias_name(byte, all, tail)
    } else {
        None
    }
}

/// Returns the rest of the text after the name that follows the sigil `byte`, or `None` if the name is an alias.
fn dialect_name<'a>(byte: u8, all: &'a [u8], tail: &'a [u8]) -> Option<&'a [u8]>
    requires all { all.now ≡ byte ∷ tail.now }
    requires sign { is_sign byte ≡ true }
    ensures { option_map (λ r. r.now) result ≡ (if is_alias byte tail.now then None else Some (drop (suffix_len tail.now) tail.now)) }
{
    let rest = after_name(byte, all, tail);
    if names_alias(&tail[..tail.len() - rest.len()], rest) {
        None
    } else {
        Some(rest)
    }
}

/// Returns whether `name` is an alias: undivided, and not followed by `<`.
fn names_alias(name: &[u8], rest: &[u8]) -> bool
    ensures { result ≡ (is_undivided name.now && not (begins 60 rest.now)) }
{
    is_undivided(name) && !matches!(rest, [b'<', ..])
}

/// Returns the rest of the text after the string that `all` begins with.
fn after_string<'a>(all: &'a [u8], tail: &'a [u8]) -> Result<&'a [u8], TextRefusal>
    requires all { all.now ≡ 34 ∷ tail.now }
    ensures ok { IfOk result (λ r. (fault_of 34 tail.now ≡ None) × (r.now ≡ drop (part_len 34 tail.now) tail.now)) }
    ensures err { IfErr result (λ f. fault_of 34 tail.now ≡ Some f) }
{
    match token(all) {
        Ok((_, rest)) => Ok(rest),
        Err(_) => Err(TextRefusal::BadToken),
    }
}

/// Refuses a byte that isn't allowed in a body outside strings, names and opening brackets.
fn check_plain(byte: u8, tail: &[u8]) -> Result<(), TextRefusal>
    requires string { (byte == 34) ≡ false }
    requires sign { is_sign byte ≡ false }
    ensures { result_err result ≡ fault_of byte tail.now }
{
    if matches!(byte, b')' | b']' | b'}') {
        return Err(TextRefusal::Unexpected);
    }
    if matches!(byte, b'@' | b'\t' | b'\n' | b'\r') || byte == b'/' && matches!(tail, [b'/', ..]) {
        return Err(TextRefusal::LeftOut);
    }
    if 32 <= byte && byte <= 126 {
        Ok(())
    } else {
        Err(TextRefusal::BadToken)
    }
}

/// Returns the rest of the text after the part of a body that begins with `byte`: a string, a dialect's name or a
/// plain byte. `byte` opens no bracket and doesn't close the nearest one.
fn part<'a>(byte: u8, all: &'a [u8], tail: &'a [u8]) -> Result<&'a [u8], TextRefusal>
    requires all { all.now ≡ byte ∷ tail.now }
    ensures ok { IfOk result (λ r. (fault_of byte tail.now ≡ None) × (r.now ≡ drop (part_len byte tail.now) tail.now)) }
    ensures err { IfErr result (λ f. fault_of byte tail.now ≡ Some f) }
{
    if byte == b'"' {
        return after_string(all, tail);
    }
    if byte == b'#' || byte == b'!' {
        return match dialect_name(byte, all, tail) {
            Some(rest) => Ok(rest),
            None => Err(TextRefusal::LeftOut),
        };
    }
    match check_plain(byte, tail) {
        Ok(()) => Ok(after_plain(byte, tail)),
        Err(refusal) => Err(refusal),
    }
}

/// Returns the rest of the text after an arrow, or after one plain byte.
fn after_plain<'a>(byte: u8, tail: &'a [u8]) -> &'a [u8]
    requires string { (byte == 34) ≡ false }
    requires sign { is_sign byte ≡ false }
    ensures { result.now ≡ drop (part_len byte tail.now) tail.now }
{
    match tail {
        [b'>', rest @ ..] if byte == b'-' => rest,
        _ => tail,
    }
}

/// Returns the rest of the text after the part that begins with `byte`, if `byte` doesn't close the nearest bracket.
/// `coming` is the stack of expected closing brackets, with the nearest last; `nearest` is pushed again.
fn inner<'a>(
    coming: &mut ArrayVec<u8, 32>,
    nearest: u8,
    byte: u8,
    all: &'a [u8],
    tail: &'a [u8],
) -> Result<&'a [u8], Fault>
    requires all { all.now ≡ byte ∷ tail.now }
    requires other { (byte == nearest) ≡ false }
    requires headroom { array_vec_len coming.old < 32 }
    ensures ok { IfOk result (λ r. scan (nearest ∷ reverse coming.old.items) 0 all.now ≡ scan (reverse coming.new.items) 0 r.now) }
    ensures ahead { IfOk result (λ r. IsNoComma byte (reverse coming.old.items) → comma_ahead (nearest ∷ reverse coming.old.items) 0 all.now ≡ comma_ahead (reverse coming.new.items) 0 r.now) }
    ensures shorter { IfOk result (λ r. length r.now ≤ length tail.now) }
    ensures headroom { array_vec_len coming.new ≤ 32 }
    ensures err { IfErr result (λ f. scan (nearest ∷ reverse coming.old.items) 0 all.now ≡ Err f) }
    ensures stuck { IfErr result (λ f. IsNoComma byte (reverse coming.old.items) → comma_ahead (nearest ∷ reverse coming.old.items) 0 all.now ≡ false) }
{
    coming.push(nearest);
    let Some(closer) = closer_of(byte) else {
        return match part(byte, all, tail) {
            Ok(rest) => Ok(rest),
            Err(refusal) => Err(Fault::at(refusal, all)),
        };
    };
    if coming.is_full() {
        return Err(Fault::at(TextRefusal::TooDeep, all));
    }
    coming.push(closer);
    Ok(tail)
}

/// Returns the rest of the text after one step of the scan. `nearest` is the closing bracket that was popped from
/// `coming`, the stack of the other expected closing brackets.
fn step<'a>(
    coming: &mut ArrayVec<u8, 32>,
    nearest: u8,
    byte: u8,
    all: &'a [u8],
    tail: &'a [u8],
) -> Result<&'a [u8], Fault>
    requires all { all.now ≡ byte ∷ tail.now }
    requires headroom { array_vec_len coming.old < 32 }
    ensures ok { IfOk result (λ r. scan (nearest ∷ reverse coming.old.items) 0 all.now ≡ scan (reverse coming.new.items) 0 r.now) }
    ensures ahead { IfOk result (λ r. IsNoComma byte (reverse coming.old.items) → comma_ahead (nearest ∷ reverse coming.old.items) 0 all.now ≡ comma_ahead (reverse coming.new.items) 0 r.now) }
    ensures shorter { IfOk result (λ r. length r.now ≤ length tail.now) }
    ensures headroom { array_vec_len coming.new ≤ 32 }
    ensures err { IfErr result (λ f. scan (nearest ∷ reverse coming.old.items) 0 all.now ≡ Err f) }
    ensures stuck { IfErr result (λ f. IsNoComma byte (reverse coming.old.items) → comma_ahead (nearest ∷ reverse coming.old.items) 0 all.now ≡ false) }
{
    if byte == nearest {
        return Ok(tail);
    }
    inner(coming, nearest, byte, all, tail)
}

/// Returns the rest of the text after a body whose opening bracket was read. `close` is its closing bracket.
fn inside<'a>(bytes: &'a [u8], close: u8) -> Result<&'a [u8], Fault>
    ensures { result_map_both (λ r. r.now) (λ f. f) result ≡ scan (close ∷ []) 0 bytes.now }
{
    let mut coming: ArrayVec<u8, 32> = ArrayVec::new();
    coming.push(close);
    let mut rest = bytes;
    'bytes: loop {
        let Some(nearest) = coming.pop() else {
            return Ok(rest);
        };
        let [byte, tail @ ..] = rest else {
            return Err(Fault::at(TextRefusal::Unexpected, rest));
        };
        match step(&mut coming, nearest, *byte, rest, tail) {
            Ok(trailing) => rest = trailing,
            Err(fault) => return Err(fault),
        }
    }
}

/// Returns whether `byte` is a comma and no other closing bracket is expected.
#[tactic(auto, using(crate::proofs::Ahead::none_left))]
fn is_comma(byte: u8, coming: &ArrayVec<u8, 32>) -> bool
    ensures { result ≡ (byte == 44 && is_none (reverse coming.now.items)) }
{
    byte == b',' && coming.is_empty()
}

/// Returns whether a body has a comma at nesting depth one. `bytes` is the text after the body's opening bracket.
fn has_comma(bytes: &[u8]) -> bool
    ensures { result ≡ comma_ahead (62 ∷ []) 0 bytes.now }
{
    let mut coming: ArrayVec<u8, 32> = ArrayVec::new();
    coming.push(b'>');
    let mut rest = bytes;
    'bytes: loop {
        let Some(nearest) = coming.pop() else {
            return false;
        };
        let [byte, tail @ ..] = rest else {
            return false;
        };
        if is_comma(*byte, &coming) {
            return true;
        }
        match step(&mut coming, nearest, *byte, rest, tail) {
            Ok(trailing) => rest = trailing,
            Err(_) => return false,
        }
    }
}

/// Returns whether the text after the word `memref` is parsed as dimensions and an element type. It isn't if its body
/// begins with `*` or has a comma at nesting depth one.
pub fn is_plain_memref(bytes: &[u8]) -> bool
    ensures { result ≡ is_plain_memref bytes.now }
{
    match skip(bytes) {
        [b'<', tail @ ..] => !matches!(skip(tail), [b'*', ..]) && !has_comma(tail),
        _ => true,
    }
}

/// Returns the rest of the text after the body whose opening bracket is the first byte.
///
/// - `Unexpected`: a bracket doesn't match the nearest opening bracket, or the text ends.
/// - `TooDeep`: more than 32 brackets are nested.
/// - `BadToken`: a string isn't closed, or a byte outside strings isn't ASCII.
/// - `LeftOut`: the body has an alias, a symbol, a comment, a tab or a line break.
pub fn after_body(bytes: &[u8]) -> Result<&[u8], Fault>
    ensures { result_map_both (λ r. r.now) (λ f. f) result ≡ scanned bytes.now }
{
    let [byte, tail @ ..] = bytes else {
        return Err(Fault::at(TextRefusal::Unexpected, bytes));
    };
    match closer_of(*byte) {
        Some(close) => inside(tail, close),
        None => Err(Fault::at(TextRefusal::Unexpected, bytes)),
    }
}

/// Returns the body whose opening bracket is the first byte, with its brackets, and the rest of the text. Errors are
/// those of `after_body`.
pub fn body(bytes: &[u8]) -> Result<(&[u8], &[u8]), Fault>
    ensures found { option_map (λ x. (x.0.now, x.1.now)) (result_ok result) ≡ body_at bytes.now }
    ensures refused { result_err result ≡ result_err (scanned bytes.now) }
{
    match after_body(bytes) {
        Ok(rest) => Ok((&bytes[..bytes.len() - rest.len()], rest)),
        Err(fault) => Err(fault),
    }
}
