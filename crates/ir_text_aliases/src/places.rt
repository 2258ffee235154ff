//! Finds locations, which the expansion removes.
ghost use Rattle.std.specs.Prelude.{◌≡◌, ◌≤◌, ◌<◌, [], ◌∷◌, None, Some, Err, length, drop, reverse, IfOk, IfErr};
ghost use Rattle.std.specs.Result.{result_err, result_map_both};
ghost use Rattle.arrayvec.specs.ArrayVec.{array_vec_len};
ghost use Rattle.ir_text_aliases.specs.Scanned.{is_arguments, is_ending};
ghost use Rattle.ir_text_aliases.specs.Lexemes.{lexeme_len};
ghost use Rattle.ir_text_aliases.specs.Places.{trailing_loc, byte_fault, goes, located, place_end, place_fault};
ghost use Rattle.ir_text_aliases.specs.Values.{coming_after};

use crate::lexemes::{are_slashes, is_loc, word_len};
use crate::nests::{is_operations, is_typed};
use crate::scan_state::{BracketContents, LastToken, ScanState};
use crate::values::value_lexeme;
use arrayvec::ArrayVec;
use ir_text_tokens::fault::Fault;
use ir_text_tokens::lexer::skip;
use ir_text_tokens::refusal::TextRefusal;

fn check_byte(byte: u8, tail: &[u8]) -> Result<(), TextRefusal>
    ensures { result_err result ≡ byte_fault byte tail.now }
{
    if matches!(byte, b'@' | b'\t' | b'\n' | b'\r') || are_slashes(byte, tail) {
        return Err(TextRefusal::LeftOut);
    }
    if 32 <= byte && byte <= 126 {
        Ok(())
    } else {
        Err(TextRefusal::BadToken)
    }
}

/// Returns the rest of the text after the lexeme of a location that begins with `byte`.
fn place_lexeme<'a>(
    coming: &mut ArrayVec<u8, 32>,
    byte: u8,
    all: &'a [u8],
    tail: &'a [u8],
) -> Result<&'a [u8], TextRefusal>
    requires all { all.now ≡ byte ∷ tail.now }
    requires headroom { array_vec_len coming.old ≤ 32 }
    ensures ok { IfOk result (λ r. (place_fault byte tail.now (reverse coming.old.items) ≡ None) × (reverse coming.new.items ≡ coming_after byte (reverse coming.old.items)) × (r.now ≡ drop (lexeme_len byte tail.now) tail.now)) }
    ensures err { IfErr result (λ x. place_fault byte tail.now (reverse coming.old.items) ≡ Some x) }
    ensures headroom { array_vec_len coming.new ≤ 32 }
{
    match check_byte(byte, tail) {
        Ok(()) => value_lexeme(coming, byte, all, tail),
        Err(refusal) => Err(refusal),
    }
}

/// Returns the rest of the text after the lexeme of a location that begins with `byte`, or the fault at the lexeme.
fn place_step<'a>(
    coming: &mut ArrayVec<u8, 32>,
    byte: u8,
    all: &'a [u8],
    tail: &'a [u8],
) -> Result<&'a [u8], Fault>
    requires all { all.now ≡ byte ∷ tail.now }
    requires headroom { array_vec_len coming.old ≤ 32 }
    requires some { 0 < array_vec_len coming.old }
    ensures ok { IfOk result (λ r. place_end (reverse coming.old.items) 0 all.now ≡ place_end (reverse coming.new.items) 0 r.now) }
    ensures err { IfErr result (λ f. place_end (reverse coming.old.items) 0 all.now ≡ Err f) }
    ensures shorter { IfOk result (λ r. length r.now ≤ length tail.now) }
    ensures headroom { array_vec_len coming.new ≤ 32 }
{
    match place_lexeme(coming, byte, all, tail) {
        Ok(rest) => Ok(rest),
        Err(refusal) => Err(Fault::at(refusal, all)),
    }
}

/// Returns the rest of the text after a location, given the text after its opening bracket.
fn place_end(bytes: &[u8]) -> Result<&[u8], Fault>
    ensures { result_map_both (λ r. r.now) (λ f. f) result ≡ place_end (41 ∷ []) 0 bytes.now }
{
    let mut coming: ArrayVec<u8, 32> = ArrayVec::new();
    coming.push(b')');
    let mut rest = bytes;
    'lexemes: loop {
        if coming.is_empty() {
            return Ok(rest);
        }
        let [byte, tail @ ..] = rest else {
            return Err(Fault::at(TextRefusal::Unexpected, rest));
        };
        match place_step(&mut coming, *byte, rest, tail) {
            Ok(trailing) => rest = trailing,
            Err(fault) => return Err(fault),
        }
    }
}

/// Returns the rest of the text after a location, given the text from its opening bracket on.
pub fn located(bytes: &[u8]) -> Result<&[u8], Fault>
    ensures { result_map_both (λ r. r.now) (λ f. f) result ≡ located bytes.now }
{
    match bytes {
        [b'(', tail @ ..] => place_end(tail),
        _ => Err(Fault::at(TextRefusal::Unexpected, bytes)),
    }
}

/// Returns the rest of the text after the word `loc` and blanks. `tail` is the text after the first byte of the word.
pub fn after_loc(tail: &[u8]) -> &[u8]
    ensures { result.now ≡ trailing_loc tail.now }
{
    skip(&tail[word_len(tail)..])
}

fn is_arguments(holds: BracketContents) -> bool
    ensures { result ≡ is_arguments holds }
{
    matches!(holds, BracketContents::Arguments)
}

fn is_ending(last: LastToken) -> bool
    ensures { result ≡ is_ending last }
{
    matches!(last, LastToken::Loc | LastToken::Label | LastToken::Ending)
}

/// Returns whether `byte` begins a location that the expansion removes.
pub(crate) fn goes(scanned: &ScanState, byte: u8, tail: &[u8]) -> bool
    ensures { result ≡ goes scanned.now byte tail.now }
{
    if !is_loc(byte, tail) || !matches!(after_loc(tail), [b'(', ..]) {
        return false;
    }
    let holds = scanned.around.holds;
    is_ending(scanned.last)
        && (is_arguments(holds) || is_operations(holds) && is_typed(scanned.stage))
}
