//! Definitions of aliases, and bracketed groups.
ghost use Rattle.std.specs.Prelude.{◌≡◌, ◌<◌, ◌≤◌, [], ◌∷◌, None, Some, true, false, Err, length, drop, reverse, option_map, IfOk, IfErr};
ghost use Rattle.std.specs.Result.{result_map_both};
ghost use Rattle.arrayvec.specs.ArrayVec.{array_vec_len};
ghost use Rattle.ir_text_tokens.specs.Tokens.{skip};
ghost use Rattle.ir_text_tokens.specs.Bodies.{closer_of, opened};
ghost use Rattle.ir_text_aliases.specs.Values.{after_equal, bracket_fault, coming_after, definition_at, enclosed, group_end, is_defined, open_fault, value_fault};
ghost use Rattle.ir_text_aliases.specs.Lexemes.{lexeme_len};

use crate::lexemes::{after_lexeme, from_quote, is_open_string};
use arrayvec::ArrayVec;
use ir_text_tokens::bodies::{after_alias, closer_of};
use ir_text_tokens::fault::Fault;
use ir_text_tokens::lexer::skip;
use ir_text_tokens::refusal::TextRefusal;

/// Returns the rest of the text after an equal sign and blanks.
fn after_equal(bytes: &[u8]) -> Option<&[u8]>
    ensures { option_map (λ r. r.now) result ≡ after_equal (skip bytes.now) }
{
    match skip(bytes) {
        [b'=', value @ ..] => Some(skip(value)),
        _ => None,
    }
}

/// Returns the text from the value on if `all` begins with the definition of an alias.
pub fn definition<'a>(byte: u8, all: &'a [u8], tail: &'a [u8]) -> Option<&'a [u8]>
    requires all { all.now ≡ byte ∷ tail.now }
    ensures { option_map (λ r. r.now) result ≡ definition_at byte tail.now }
{
    match after_alias(byte, all, tail) {
        Some(rest) => after_equal(rest),
        None => None,
    }
}

pub(crate) fn is_defined(byte: u8, all: &[u8], tail: &[u8]) -> bool
    requires all { all.now ≡ byte ∷ tail.now }
    ensures { result ≡ is_defined (definition_at byte tail.now) }
{
    match definition(byte, all, tail) {
        Some(_) => true,
        None => false,
    }
}

/// Pushes the closing bracket for `byte` if it is an opening bracket. `byte` closes none.
fn open_bracket(coming: &mut ArrayVec<u8, 32>, byte: u8) -> Result<(), TextRefusal>
    requires headroom { array_vec_len coming.old ≤ 32 }
    ensures ok { IfOk result (λ _. (open_fault byte (reverse coming.old.items) ≡ None) × (reverse coming.new.items ≡ opened (closer_of byte) (reverse coming.old.items))) }
    ensures err { IfErr result (λ x. open_fault byte (reverse coming.old.items) ≡ Some x) }
    ensures headroom { array_vec_len coming.new ≤ 32 }
{
    if matches!(byte, b')' | b']' | b'}') {
        return Err(TextRefusal::Unexpected);
    }
    let Some(closer) = closer_of(byte) else {
        return Ok(());
    };
    if coming.is_full() {
        return Err(TextRefusal::TooDeep);
    }
    coming.push(closer);
    Ok(())
}

/// Closes the innermost bracket or opens one, if `byte` is a bracket.
fn nest(coming: &mut ArrayVec<u8, 32>, byte: u8) -> Result<(), TextRefusal>
    requires headroom { array_vec_len coming.old ≤ 32 }
    ensures ok { IfOk result (λ _. (bracket_fault byte (reverse coming.old.items) ≡ None) × (reverse coming.new.items ≡ coming_after byte (reverse coming.old.items))) }
    ensures err { IfErr result (λ x. bracket_fault byte (reverse coming.old.items) ≡ Some x) }
    ensures headroom { array_vec_len coming.new ≤ 32 }
{
    let Some(nearest) = coming.pop() else {
        return open_bracket(coming, byte);
    };
    if byte == nearest {
        return Ok(());
    }
    coming.push(nearest);
    open_bracket(coming, byte)
}

/// Returns the rest of the text after the lexeme of a value that begins with `byte`.
pub(crate) fn value_lexeme<'a>(
    coming: &mut ArrayVec<u8, 32>,
    byte: u8,
    all: &'a [u8],
    tail: &'a [u8],
) -> Result<&'a [u8], TextRefusal>
    requires all { all.now ≡ byte ∷ tail.now }
    requires headroom { array_vec_len coming.old ≤ 32 }
    ensures ok { IfOk result (λ r. (value_fault byte tail.now (reverse coming.old.items) ≡ None) × (reverse coming.new.items ≡ coming_after byte (reverse coming.old.items)) × (r.now ≡ drop (lexeme_len byte tail.now) tail.now)) }
    ensures err { IfErr result (λ x. value_fault byte tail.now (reverse coming.old.items) ≡ Some x) }
    ensures headroom { array_vec_len coming.new ≤ 32 }
{
    if is_open_string(byte, all, tail) {
        return Err(TextRefusal::BadToken);
    }
    match nest(coming, byte) {
        Ok(()) => Ok(after_lexeme(byte, all, tail)),
        Err(refusal) => Err(refusal),
    }
}

// ---- groups

/// Returns the rest of the text after the lexeme of a group that begins with `byte`, or the fault at the lexeme.
fn group_step<'a>(
    coming: &mut ArrayVec<u8, 32>,
    byte: u8,
    all: &'a [u8],
    tail: &'a [u8],
) -> Result<&'a [u8], Fault>
    requires all { all.now ≡ byte ∷ tail.now }
    requires headroom { array_vec_len coming.old ≤ 32 }
    requires some { 0 < array_vec_len coming.old }
    ensures ok { IfOk result (λ r. group_end (reverse coming.old.items) 0 all.now ≡ group_end (reverse coming.new.items) 0 r.now) }
    ensures err { IfErr result (λ f. group_end (reverse coming.old.items) 0 all.now ≡ Err f) }
    ensures shorter { IfOk result (λ r. length r.now ≤ length tail.now) }
    ensures headroom { array_vec_len coming.new ≤ 32 }
{
    match value_lexeme(coming, byte, all, tail) {
        Ok(rest) => Ok(rest),
        Err(refusal) => Err(Fault::at(refusal, from_quote(byte, all, tail))),
    }
}

/// Returns the rest of the text after a group, given the text after its opening bracket.
pub(crate) fn group_end(closer: u8, bytes: &[u8]) -> Result<&[u8], Fault>
    ensures { result_map_both (λ r. r.now) (λ f. f) result ≡ group_end (closer ∷ []) 0 bytes.now }
{
    let mut coming: ArrayVec<u8, 32> = ArrayVec::new();
    coming.push(closer);
    let mut rest = bytes;
    'lexemes: loop {
        if coming.is_empty() {
            return Ok(rest);
        }
        let [byte, tail @ ..] = rest else {
            return Err(Fault::at(TextRefusal::Unexpected, rest));
        };
        match group_step(&mut coming, *byte, rest, tail) {
            Ok(trailing) => rest = trailing,
            Err(fault) => return Err(fault),
        }
    }
}

/// Returns the rest of the text after a group in the brackets `first` and `closer`.
///
/// - `Unexpected`: a bracket doesn't match the innermost one, or the text ends inside the group.
/// - `TooDeep`: a bracket has 32 brackets around it.
/// - `BadToken`: a string isn't closed.
pub(crate) fn enclosed(first: u8, closer: u8, bytes: &[u8]) -> Result<&[u8], Fault>
    ensures { result_map_both (λ r. r.now) (λ f. f) result ≡ enclosed first closer bytes.now }
{
    match bytes {
        [byte, tail @ ..] if *byte == first => group_end(closer, tail),
        _ => Err(Fault::at(TextRefusal::Unexpected, bytes)),
    }
}
