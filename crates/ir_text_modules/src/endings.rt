//! The definitions of locations after the last operation, which the expansion removes.
ghost use Rattle.std.specs.Prelude.{◌≡◌, ◌≤◌, ◌∷◌, Err, None, Some, false, length, option_map, OnOk, IfOk, IfErr};
ghost use Rattle.std.specs.Result.{result_map_both};
ghost use Rattle.ir_text_aliases.specs.Lexemes.{is_gap, name_of, lexeme_len};
ghost use Rattle.ir_text_modules.specs.Definitions.{with_alias};
ghost use Rattle.ir_text_modules.specs.Endings.{ending, ending_of, ending_value, endings};

use crate::definitions::{is_known, name_of};
use ir_text_aliases::lexemes::{after_lexeme, is_gap};
use ir_text_aliases::places::{after_loc, located};
use ir_text_aliases::uses::begins_loc;
use ir_text_aliases::values::definition;
use ir_text_tokens::fault::Fault;
use ir_text_tokens::names::ScopedNames;
use ir_text_tokens::refusal::TextRefusal;
use std::alloc::AllocError;

/// Returns the rest of the text after a location that is the value of a new name.
fn ending_value<'a>(
    names: &ScopedNames<'a, (usize, usize)>,
    byte: u8,
    all: &'a [u8],
    tail: &'a [u8],
    value: &'a [u8],
) -> Result<&'a [u8], Fault>
    requires all { all.now ≡ byte ∷ tail.now }
    ensures { result_map_both (λ r. r.now) (λ f. f) result ≡ ending_value names.now.here byte tail.now value.now }
{
    if byte != b'#' || !begins_loc(value) {
        return Err(Fault::at(TextRefusal::LeftOut, all));
    }
    if is_known(names, name_of(byte, all, tail)) {
        return Err(Fault::at(TextRefusal::Redefined, all));
    }
    match value {
        [_, rest @ ..] => located(after_loc(rest)),
        [] => located(after_loc(value)),
    }
}

/// Returns the rest of the text after the definition of a location that begins with `byte`.
fn ending<'a>(
    names: &ScopedNames<'a, (usize, usize)>,
    byte: u8,
    all: &'a [u8],
    tail: &'a [u8],
) -> Result<&'a [u8], Fault>
    requires all { all.now ≡ byte ∷ tail.now }
    ensures { result_map_both (λ r. r.now) (λ f. f) result ≡ ending names.now.here byte tail.now }
{
    match definition(byte, all, tail) {
        Some(value) => ending_value(names, byte, all, tail, value),
        None => Err(Fault::at(TextRefusal::Unexpected, all)),
    }
}

/// Adds a name without a value.
fn add<'a>(names: &mut ScopedNames<'a, (usize, usize)>, name: &'a [u8]) -> Result<(), AllocError>
    ensures { OnOk result (names.new.here ≡ with_alias name.now 0 0 names.old.here) }
{
    names.bind(name, (0, 0))
}

/// Returns the rest of the text after the definition or the blanks that begin with `byte`.
fn next<'a>(
    names: &mut ScopedNames<'a, (usize, usize)>,
    byte: u8,
    all: &'a [u8],
    tail: &'a [u8],
) -> Result<Result<&'a [u8], Fault>, AllocError>
    requires all { all.now ≡ byte ∷ tail.now }
    ensures on { IfOk result (λ s. IfOk s (λ r. endings names.old.here 0 all.now ≡ endings names.new.here 0 r.now)) }
    ensures ends { IfOk result (λ s. IfErr s (λ f. endings names.old.here 0 all.now ≡ Some f)) }
    ensures shorter { IfOk result (λ s. IfOk s (λ r. length r.now ≤ length tail.now)) }
{
    if is_gap(byte, tail) {
        return Ok(Ok(after_lexeme(byte, all, tail)));
    }
    match ending(names, byte, all, tail) {
        Ok(rest) => {
            add(names, name_of(byte, all, tail))?;
            Ok(Ok(rest))
        }
        Err(fault) => Ok(Err(fault)),
    }
}

/// Returns the fault of the text after the last operation, or `None`.
///
/// - `Unexpected`: the text has something other than definitions.
/// - `LeftOut`: a definition is that of a type, or its value is no location.
/// - `Redefined`: a name is defined twice.
/// - A location doesn't end.
pub(crate) fn endings<'a>(
    names: &mut ScopedNames<'a, (usize, usize)>,
    bytes: &'a [u8],
) -> Result<Option<Fault>, AllocError>
    ensures { IfOk result (λ f. f ≡ endings names.old.here 0 bytes.now) }
{
    let mut rest = bytes;
    'lexemes: while let [byte, tail @ ..] = rest {
        match next(names, *byte, rest, tail)? {
            Ok(trailing) => rest = trailing,
            Err(fault) => return Ok(Some(fault)),
        }
    }
    Ok(None)
}
