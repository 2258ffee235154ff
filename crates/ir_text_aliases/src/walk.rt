//! Expands a text: replaces each alias by its value and removes locations.
ghost use Rattle.std.specs.Prelude.{◌≡◌, ◌≤◌, ◌&&◌, if◌then◌else◌, option_map, [], ◌∷◌, ◌++◌, None, Some, true, length, drop, reverse, IfOk, IfErr, IfSome, IfNone, OnOk};
ghost use Rattle.ir_text_tokens.specs.Bodies.{is_alias};
ghost use Rattle.ir_text_tokens.specs.Tokens.{suffix_len};
ghost use Rattle.ir_text_tokens.specs.declared.fault.Fault.{Fault as Reason};
ghost use Rattle.ir_text_aliases.specs.Scanned.{at_first, trailing_alias, after_place, is_after, is_outside};
ghost use Rattle.ir_text_aliases.specs.Lexemes.{name_of};
ghost use Rattle.ir_text_aliases.specs.Places.{goes};
ghost use Rattle.ir_text_aliases.specs.Steps.{Moved, Stuck};
ghost use Rattle.ir_text_aliases.specs.Uses.{value_of};
ghost use Rattle.ir_text_aliases.specs.Walk.{alias_move, ends_operations, move, lexeme_move, place_move, stops, walk, walk_text, walked};

use crate::lexemes::after_lexeme;
use crate::mark::Mark;
use crate::nests::{is_operations, is_typed, pass};
use crate::part::TextPart;
use crate::places::{after_loc, goes, located};
use crate::scan_state::{Bracket, BracketContents, LastToken, OpStage, ScanState};
use crate::uses::{append_value, usable};
use crate::values::is_defined;
use ir_text_tokens::bodies::after_alias;
use ir_text_tokens::fault::Fault;
use ir_text_tokens::names::ScopedNames;
use std::alloc::{AllocError, Global};

/// An expanded text, with a mark for each replacement and for each removed location.
#[derive(Drop)]
pub struct ExpandedText {
    pub text: Vec<u8>,
    pub marks: Vec<Mark>,
}

/// The position of the scan: its state, and the brackets around the innermost one, the innermost of them last.
#[derive(Drop)]
pub(crate) struct ScanPosition {
    pub scanned: ScanState,
    pub outer: Vec<Bracket>,
}

fn write_bytes(out: &mut Vec<u8>, bytes: &[u8]) -> Result<(), AllocError>
    ensures { OnOk result (out.new.items ≡ out.old.items ++ bytes.now) }
{
    out.extend_from_slice(bytes)
}

/// Returns the number of bytes that were written.
fn len_of(out: &Vec<u8>) -> usize
    ensures { result ≡ length out.now.items }
{
    out.len()
}

fn push_mark(marks: &mut Vec<Mark>, mark: Mark) -> Result<(), AllocError>
    ensures { OnOk result (marks.new.items ≡ marks.old.items ++ mark ∷ []) }
{
    marks.push(mark)?;
    Ok(())
}

// ---- one lexeme

/// Removes the location that begins with `byte`.
fn take_place<'a>(
    at: &mut ScanPosition,
    byte: u8,
    all: &'a [u8],
    tail: &'a [u8],
    out: &mut ExpandedText,
) -> Result<Result<&'a [u8], Fault>, AllocError>
    requires all { all.now ≡ byte ∷ tail.now }
    ensures moved { IfOk result (λ s. IfOk s (λ r. Moved (place_move at.old.scanned (reverse at.old.outer.items) (length out.old.text.items) byte tail.now) at.new.scanned (reverse at.new.outer.items) tail.now r.now out.old.text.items out.new.text.items out.old.marks.items out.new.marks.items)) }
    ensures stuck { IfOk result (λ s. IfErr s (λ f. Stuck (place_move at.old.scanned (reverse at.old.outer.items) (length out.old.text.items) byte tail.now) f out.old.text.items out.new.text.items out.old.marks.items out.new.marks.items)) }
{
    let rest = match located(after_loc(tail)) {
        Ok(rest) => rest,
        Err(fault) => return Ok(Err(fault)),
    };
    let len = len_of(&out.text);
    let mark = Mark {
        scanned: len,
        past: len,
        left: all.len(),
    };
    push_mark(&mut out.marks, mark)?;
    at.scanned = after_place(&at.scanned);
    Ok(Ok(rest))
}

fn after_place(scanned: &ScanState) -> ScanState
    ensures { result ≡ after_place scanned.now }
{
    ScanState {
        apart: false,
        counts: false,
        last: LastToken::Ending,
        stage: OpStage::AfterType,
        around: scanned.around,
    }
}

fn after_alias_of(scanned: &ScanState) -> ScanState
    ensures { result ≡ trailing_alias scanned.now }
{
    let stage = if is_typed(scanned.stage) {
        OpStage::InType
    } else {
        OpStage::Before
    };
    ScanState {
        apart: false,
        counts: false,
        last: LastToken::Ending,
        stage,
        around: scanned.around,
    }
}

/// Appends the value of the alias that begins with `byte`. `rest` is the text after the alias.
fn write_alias<'a>(
    part: &TextPart,
    names: &ScopedNames<'a, (usize, usize)>,
    values: &[u8],
    at: &mut ScanPosition,
    byte: u8,
    all: &'a [u8],
    tail: &'a [u8],
    rest: &'a [u8],
    out: &mut ExpandedText,
) -> Result<Option<Fault>, AllocError>
    requires all { all.now ≡ byte ∷ tail.now }
    requires rest { rest.now ≡ drop (suffix_len tail.now) tail.now }
    ensures moved { IfOk result (λ f. f ≡ None → Moved (alias_move part.now (value_of values.now names.now.here at.old.scanned (name_of byte tail.now)) at.old.scanned (reverse at.old.outer.items) (length out.old.text.items) byte tail.now) at.new.scanned (reverse at.new.outer.items) tail.now rest.now out.old.text.items out.new.text.items out.old.marks.items out.new.marks.items) }
    ensures stuck { IfOk result (λ s. (f : Reason) → s ≡ Some f → Stuck (alias_move part.now (value_of values.now names.now.here at.old.scanned (name_of byte tail.now)) at.old.scanned (reverse at.old.outer.items) (length out.old.text.items) byte tail.now) f out.old.text.items out.new.text.items out.old.marks.items out.new.marks.items) }
{
    let before = len_of(&out.text);
    let name = &all[..all.len() - rest.len()];
    let value = match usable(names, values, &at.scanned, name, part.before, before) {
        Ok(value) => value,
        Err(refusal) => return Ok(Some(Fault::at(refusal, all))),
    };
    append_value(&at.scanned, value, &mut out.text)?;
    let mark = Mark {
        scanned: before,
        past: len_of(&out.text),
        left: all.len(),
    };
    push_mark(&mut out.marks, mark)?;
    at.scanned = after_alias_of(&at.scanned);
    Ok(None)
}

/// Appends the lexeme that begins with `byte`, and returns the rest of the text after it.
fn append_lexeme<'a>(
    at: &mut ScanPosition,
    byte: u8,
    all: &'a [u8],
    tail: &'a [u8],
    out: &mut ExpandedText,
) -> Result<&'a [u8], AllocError>
    requires all { all.now ≡ byte ∷ tail.now }
    ensures moved { IfOk result (λ r. Moved (lexeme_move at.old.scanned (reverse at.old.outer.items) byte tail.now) at.new.scanned (reverse at.new.outer.items) tail.now r.now out.old.text.items out.new.text.items out.old.marks.items out.new.marks.items) }
{
    let rest = after_lexeme(byte, all, tail);
    write_bytes(&mut out.text, &all[..all.len() - rest.len()])?;
    at.scanned = pass(&at.scanned, &mut at.outer, byte, tail)?;
    Ok(rest)
}

// ---- all lexemes

/// Returns the rest of the text after the alias that begins with `byte`, if the part may have aliases.
fn alias_in<'a>(part: &TextPart, byte: u8, all: &'a [u8], tail: &'a [u8]) -> Option<&'a [u8]>
    requires all { all.now ≡ byte ∷ tail.now }
    ensures { option_map (λ r. r.now) result ≡ (if part.now.reads && is_alias byte tail.now then Some (drop (suffix_len tail.now) tail.now) else None) }
{
    if part.reads {
        after_alias(byte, all, tail)
    } else {
        None
    }
}

/// Expands the lexeme that begins with `byte`, and returns the rest of the text after it, or the fault at the lexeme.
fn step<'a>(
    part: &TextPart,
    names: &ScopedNames<'a, (usize, usize)>,
    values: &[u8],
    at: &mut ScanPosition,
    byte: u8,
    all: &'a [u8],
    tail: &'a [u8],
    out: &mut ExpandedText,
) -> Result<Result<&'a [u8], Fault>, AllocError>
    requires all { all.now ≡ byte ∷ tail.now }
    ensures moved { IfOk result (λ s. IfOk s (λ r. Moved (move part.now values.now names.now.here at.old.scanned (reverse at.old.outer.items) (length out.old.text.items) byte tail.now) at.new.scanned (reverse at.new.outer.items) tail.now r.now out.old.text.items out.new.text.items out.old.marks.items out.new.marks.items)) }
    ensures stuck { IfOk result (λ s. IfErr s (λ f. Stuck (move part.now values.now names.now.here at.old.scanned (reverse at.old.outer.items) (length out.old.text.items) byte tail.now) f out.old.text.items out.new.text.items out.old.marks.items out.new.marks.items)) }
{
    if goes(&at.scanned, byte, tail) {
        return take_place(at, byte, all, tail, out);
    }
    let Some(rest) = alias_in(part, byte, all, tail) else {
        return Ok(Ok(append_lexeme(at, byte, all, tail, out)?));
    };
    match write_alias(part, names, values, at, byte, all, tail, rest, out)? {
        None => Ok(Ok(rest)),
        Some(fault) => Ok(Err(fault)),
    }
}

fn is_after(stage: OpStage) -> bool
    ensures { result ≡ is_after stage }
{
    matches!(stage, OpStage::InType | OpStage::AfterType)
}

fn is_outside(closer: Option<u8>) -> bool
    ensures { result ≡ is_outside closer }
{
    match closer {
        Some(_) => false,
        None => true,
    }
}

/// Returns whether a definition begins here, after the last operation.
fn ends_operations(scanned: &ScanState, byte: u8, all: &[u8], tail: &[u8]) -> bool
    requires all { all.now ≡ byte ∷ tail.now }
    ensures { result ≡ ends_operations scanned.now byte tail.now }
{
    let around = scanned.around;
    if !is_outside(around.closer) || !is_operations(around.holds) || !is_after(scanned.stage) {
        return false;
    }
    is_defined(byte, all, tail)
}

fn stops(part: &TextPart, scanned: &ScanState, byte: u8, all: &[u8], tail: &[u8]) -> bool
    requires all { all.now ≡ byte ∷ tail.now }
    ensures { result ≡ stops part.now scanned.now byte tail.now }
{
    all.len() <= part.left || ends_operations(scanned, byte, all, tail)
}

/// Expands the lexeme that begins with `byte`, and returns the rest of the text, or stops before the lexeme.
fn turn<'a>(
    part: &TextPart,
    names: &ScopedNames<'a, (usize, usize)>,
    values: &[u8],
    at: &mut ScanPosition,
    byte: u8,
    all: &'a [u8],
    tail: &'a [u8],
    out: &mut ExpandedText,
) -> Result<Result<&'a [u8], Option<Fault>>, AllocError>
    requires all { all.now ≡ byte ∷ tail.now }
    ensures on { IfOk result (λ s. IfOk s (λ r. walk part.now values.now names.now.here at.old.scanned (reverse at.old.outer.items) 0 all.now out.old.text.items out.old.marks.items ≡ walk part.now values.now names.now.here at.new.scanned (reverse at.new.outer.items) 0 r.now out.new.text.items out.new.marks.items)) }
    ensures ends { IfOk result (λ s. IfErr s (λ f. walk part.now values.now names.now.here at.old.scanned (reverse at.old.outer.items) 0 all.now out.old.text.items out.old.marks.items ≡ walked out.new.text.items out.new.marks.items all.now f)) }
    ensures shorter { IfOk result (λ s. IfOk s (λ r. length r.now ≤ length tail.now)) }
{
    if stops(part, &at.scanned, byte, all, tail) {
        return Ok(Err(None));
    }
    match step(part, names, values, at, byte, all, tail, out)? {
        Ok(rest) => Ok(Ok(rest)),
        Err(fault) => Ok(Err(Some(fault))),
    }
}

/// Expands lexeme by lexeme. Returns the text that is left, and the fault there, if there is one.
fn lexemes<'a>(
    part: &TextPart,
    names: &ScopedNames<'a, (usize, usize)>,
    values: &[u8],
    at: &mut ScanPosition,
    bytes: &'a [u8],
    out: &mut ExpandedText,
) -> Result<(&'a [u8], Option<Fault>), AllocError>
    ensures { IfOk result (λ x. walk part.now values.now names.now.here at.old.scanned (reverse at.old.outer.items) 0 bytes.now out.old.text.items out.old.marks.items ≡ walked out.new.text.items out.new.marks.items x.0.now x.1) }
{
    let mut rest = bytes;
    'lexemes: while let [byte, tail @ ..] = rest {
        match turn(part, names, values, at, *byte, rest, tail, out)? {
            Ok(trailing) => rest = trailing,
            Err(end) => return Ok((rest, end)),
        }
    }
    Ok((rest, None))
}

/// Appends the expansion of a text, or of a part of it, to `out`. `names` maps an alias to the start and end of its
/// value in `values`. Locations after the function type of an operation and after the type of a block argument are
/// removed.
///
/// Returns the text that is left: after the part, from the first definition after the last operation, or from a
/// fault. Faults: `UnknownValue` at an unknown alias; `Unexpected` at an alias after a minus sign; `TooMany` at an
/// alias whose value makes the text longer than a text may be; and those of a location that doesn't end.
pub fn walk<'a>(
    alloc: Global,
    part: &TextPart,
    names: &ScopedNames<'a, (usize, usize)>,
    values: &[u8],
    holds: BracketContents,
    bytes: &'a [u8],
    out: &mut ExpandedText,
) -> Result<(&'a [u8], Option<Fault>), AllocError>
    ensures { IfOk result (λ x. walk_text part.now values.now names.now.here holds bytes.now out.old.text.items out.old.marks.items ≡ walked out.new.text.items out.new.marks.items x.0.now x.1) }
{
    let mut at = ScanPosition {
        scanned: first(holds),
        outer: Vec::new(alloc),
    };
    lexemes(part, names, values, &mut at, bytes, out)
}

fn first(holds: BracketContents) -> ScanState
    ensures { result ≡ at_first holds }
{
    ScanState {
        apart: true,
        counts: false,
        last: LastToken::Other,
        stage: OpStage::Before,
        around: Bracket {
            closer: None,
            holds,
        },
    }
}
