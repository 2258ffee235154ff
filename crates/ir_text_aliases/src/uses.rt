//! Writes the value of an alias in place of the alias.
ghost use Rattle.std.specs.Prelude.{◌≡◌, ◌==◌, ◌≤◌, ◌++◌, ◌+◌, ◌-◌, not, None, Some, length, option_map, reverse, take, drop, OnOk, IfOk, IfErr};
ghost use Rattle.std.specs.List.{prefix_len};
ghost use Rattle.ir_text_tokens.specs.Scopes.{find};
ghost use Rattle.ir_text_tokens.specs.Bodies.{begins};
ghost use Rattle.ir_text_aliases.specs.Scanned.{is_minus, is_place};
ghost use Rattle.ir_text_aliases.specs.Uses.{bared, begins_loc, bracket_len, inside, spelling, use_fault, value_at, value_of};

use crate::lexemes::is_loc;
use crate::scan_state::{BracketContents, LastToken, ScanState};
use ir_text_tokens::limits::MOST_BYTES;
use ir_text_tokens::names::ScopedNames;
use ir_text_tokens::refusal::TextRefusal;
use std::alloc::AllocError;

/// Returns the bytes of `values` from `start` to `past`.
fn text_between(values: &[u8], start: usize, past: usize) -> &[u8]
    ensures { result.now ≡ take (past - start) (drop start values.now) }
{
    let past = past.min(values.len());
    let start = start.min(past);
    &values[start..past]
}

// ---- within a location

/// Returns whether the value begins with the word `loc`.
pub fn begins_loc(value: &[u8]) -> bool
    ensures { result ≡ begins_loc value.now }
{
    match value {
        [byte, tail @ ..] => is_loc(*byte, tail),
        [] => false,
    }
}

fn ends_with_bracket(value: &[u8]) -> bool
    ensures { result ≡ begins 41 (reverse value.now) }
{
    match value.last() {
        Some(byte) => *byte == b')',
        None => false,
    }
}

fn is_no_bracket(byte: u8) -> bool
    ensures { result ≡ not (byte == 40) }
{
    byte != b'('
}

fn bracket_len(value: &[u8]) -> usize
    ensures len { result ≡ bracket_len value.now }
    ensures within { result ≤ length value.now }
{
    value.iter().take_while(|b| is_no_bracket(**b)).count()
}

/// Returns the text between the first opening bracket and the last closing bracket of a location.
fn inside(value: &[u8]) -> &[u8]
    ensures { result.now ≡ inside value.now }
{
    let past = value.len().saturating_sub(1);
    text_between(value, bracket_len(value) + 1, past)
}

/// Returns the value, without its `loc( )` if it is a location and `placed` says that the alias is inside another
/// one.
fn bared(placed: bool, value: &[u8]) -> &[u8]
    ensures { result.now ≡ bared placed value.now }
{
    if placed && begins_loc(value) && ends_with_bracket(value) {
        return inside(value);
    }
    value
}

fn is_place(holds: BracketContents) -> bool
    ensures { result ≡ is_place holds }
{
    matches!(holds, BracketContents::Place)
}

// ---- in place of the alias

/// Returns the value of an alias, or `None` if the alias is unknown.
fn value_of<'v, 'a>(
    names: &ScopedNames<'a, (usize, usize)>,
    values: &'v [u8],
    scanned: &ScanState,
    name: &'a [u8],
) -> Option<&'v [u8]>
    ensures { option_map (λ v. v.now) result ≡ value_of values.now names.now.here scanned.now name.now }
{
    match names.find(name) {
        Some((start, past)) => {
            let value = text_between(values, *start, *past);
            Some(bared(is_place(scanned.around.holds), value))
        }
        None => None,
    }
}

fn is_minus(last: LastToken) -> bool
    ensures { result ≡ is_minus last }
{
    matches!(last, LastToken::Minus)
}

/// Returns why the value can't replace the alias. `before + len` bytes count towards the length limit.
fn check_use(scanned: &ScanState, value: &[u8], before: usize, len: usize) -> Option<TextRefusal>
    ensures { result ≡ use_fault scanned.now (Some value.now) (before + len) }
{
    if is_minus(scanned.last) {
        return Some(TextRefusal::Unexpected);
    }
    let headroom = if scanned.apart {
        MOST_BYTES
    } else {
        MOST_BYTES - 1
    };
    let Some(there) = before.checked_add(len) else {
        return Some(TextRefusal::TooMany);
    };
    match there.checked_add(value.len()) {
        Some(total) if total <= headroom => None,
        _ => Some(TextRefusal::TooMany),
    }
}

/// Returns the value of an alias if the alias is known and its value may replace it. `before + len` bytes count
/// towards the length limit.
pub(crate) fn usable<'v, 'a>(
    names: &ScopedNames<'a, (usize, usize)>,
    values: &'v [u8],
    scanned: &ScanState,
    name: &'a [u8],
    before: usize,
    len: usize,
) -> Result<&'v [u8], TextRefusal>
    ensures ok { IfOk result (λ v. (value_of values.now names.now.here scanned.now name.now ≡ Some v.now) × (use_fault scanned.now (Some v.now) (before + len) ≡ None)) }
    ensures err { IfErr result (λ refusal. use_fault scanned.now (value_of values.now names.now.here scanned.now name.now) (before + len) ≡ Some refusal) }
{
    let Some(value) = value_of(names, values, scanned, name) else {
        return Err(TextRefusal::UnknownValue);
    };
    match check_use(scanned, value, before, len) {
        Some(refusal) => Err(refusal),
        None => Ok(value),
    }
}

/// Appends the value, after a blank if the value could be read as a part of the token before it.
pub(crate) fn append_value(
    scanned: &ScanState,
    value: &[u8],
    out: &mut Vec<u8>,
) -> Result<(), AllocError>
    ensures { OnOk result (out.new.items ≡ out.old.items ++ spelling scanned.now (Some value.now)) }
{
    if !scanned.apart {
        out.push(b' ')?;
    }
    out.extend_from_slice(value)
}
