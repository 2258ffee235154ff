//! Tracks the brackets around a lexeme, and the scan state after the lexeme.
ghost use Rattle.std.specs.Prelude.{◌≡◌, ◌||◌, ◌∷◌, reverse, OnOk, IfOk};
ghost use Rattle.ir_text_tokens.specs.Bodies.{closer_of, is_arrow};
ghost use Rattle.ir_text_aliases.specs.Scanned.{around_after, closes, ends_type, first_or, goes_on, held, is_apart, is_count, is_operations, is_typed, last_of, next_scanned, next_stage, opened_around, opened_outer, outer_after, parts_dimensions, rest_of, turns};

use crate::lexemes::{is_arrow, is_gap, is_loc, is_name_sign, is_word, name_len, word_len};
use crate::scan_state::{Bracket, BracketContents, LastToken, OpStage, ScanState};
use ir_text_tokens::bodies::closer_of;
use std::alloc::AllocError;

// ---- brackets

fn closes(scanned: &ScanState, byte: u8) -> bool
    ensures { result ≡ closes scanned.now byte }
{
    match scanned.around.closer {
        Some(closer) => byte == closer,
        None => false,
    }
}

/// Returns the contents of the bracket that `byte` opens.
fn held(scanned: &ScanState, byte: u8) -> BracketContents
    ensures { result ≡ held scanned.now byte }
{
    match (scanned.around.holds, scanned.last) {
        (BracketContents::Operations, LastToken::Label) if byte == b'(' =>
            BracketContents::Arguments,
        (BracketContents::Operations, _) if byte == b'(' => BracketContents::List,
        (BracketContents::List, _) if byte == b'{' => BracketContents::Operations,
        (BracketContents::Place, _) | (_, LastToken::Loc) => BracketContents::Place,
        _ => BracketContents::Others,
    }
}

/// Pops the innermost bracket, or returns `other` if there is none.
fn take_nearest(outer: &mut Vec<Bracket>, other: Bracket) -> Bracket
    ensures first { result ≡ first_or other (reverse outer.old.items) }
    ensures rest { reverse outer.new.items ≡ rest_of (reverse outer.old.items) }
{
    match outer.pop() {
        Some(bracket) => bracket,
        None => other,
    }
}

/// Pushes a bracket, which becomes the innermost one.
fn push_nearest(outer: &mut Vec<Bracket>, bracket: Bracket) -> Result<(), AllocError>
    ensures { OnOk result (reverse outer.new.items ≡ bracket ∷ reverse outer.old.items) }
{
    outer.push(bracket)?;
    Ok(())
}

/// Returns the innermost bracket after `byte`, which closes none. Pushes the enclosing bracket if `byte` opens one.
fn open(scanned: &ScanState, outer: &mut Vec<Bracket>, byte: u8) -> Result<Bracket, AllocError>
    ensures around { IfOk result (λ b. b ≡ opened_around (closer_of byte) scanned.now byte) }
    ensures outer { IfOk result (λ _. reverse outer.new.items ≡ opened_outer (closer_of byte) scanned.now (reverse outer.old.items)) }
{
    let Some(closer) = closer_of(byte) else {
        return Ok(scanned.around);
    };
    push_nearest(outer, scanned.around)?;
    Ok(Bracket {
        closer: Some(closer),
        holds: held(scanned, byte),
    })
}

/// Returns the innermost bracket after `byte`, which may open or close one.
fn nest(scanned: &ScanState, outer: &mut Vec<Bracket>, byte: u8) -> Result<Bracket, AllocError>
    ensures around { IfOk result (λ b. b ≡ around_after scanned.now (reverse outer.old.items) byte) }
    ensures outer { IfOk result (λ _. reverse outer.new.items ≡ outer_after scanned.now (reverse outer.old.items) byte) }
{
    if closes(scanned, byte) {
        return Ok(take_nearest(outer, scanned.around));
    }
    open(scanned, outer, byte)
}

// ---- the scan state

fn is_apart(byte: u8) -> bool
    ensures { result ≡ is_apart byte }
{
    matches!(
        byte,
        b' ' | b'\t' | b'\n' | b'\r' | b'(' | b'[' | b'{' | b'<' | b',' | b'=' | b':' | b'>'
    )
}

fn is_count(byte: u8) -> bool
    ensures { result ≡ is_count byte }
{
    byte.is_ascii_digit() || matches!(byte, b'?' | b']' | b'*')
}

fn parts_dimensions(scanned: &ScanState, byte: u8, tail: &[u8]) -> bool
    ensures { result ≡ parts_dimensions scanned.now byte tail.now }
{
    byte == b'x' && word_len(tail) == 0 && scanned.counts
}

fn ends_type(byte: u8, tail: &[u8]) -> bool
    ensures { result ≡ ends_type byte tail.now }
{
    is_word(byte) || matches!(byte, b')' | b'>') || is_name_sign(byte) && name_len(tail) != 0
}

fn last_of(byte: u8, tail: &[u8]) -> LastToken
    ensures { result ≡ last_of byte tail.now }
{
    if is_arrow(byte, tail) {
        return LastToken::Other;
    }
    if byte == b'-' {
        return LastToken::Minus;
    }
    if is_loc(byte, tail) {
        return LastToken::Loc;
    }
    if byte == b'^' {
        return LastToken::Label;
    }
    if ends_type(byte, tail) {
        return LastToken::Ending;
    }
    LastToken::Other
}

pub(crate) fn is_operations(holds: BracketContents) -> bool
    ensures { result ≡ is_operations holds }
{
    matches!(holds, BracketContents::Operations)
}

pub(crate) fn is_typed(stage: OpStage) -> bool
    ensures { result ≡ is_typed stage }
{
    matches!(stage, OpStage::InType)
}

/// Returns whether a region begins or ends at `byte`.
fn turns(scanned: &ScanState, byte: u8) -> bool
    ensures { result ≡ turns scanned.now byte }
{
    match scanned.around.holds {
        BracketContents::Operations => closes(scanned, byte),
        BracketContents::List => byte == b'{',
        _ => false,
    }
}

/// Returns whether the lexeme that begins with `byte` is in a function type, if it neither begins nor ends a region.
fn goes_on(scanned: &ScanState, byte: u8, tail: &[u8]) -> bool
    ensures { result ≡ goes_on scanned.now byte tail.now }
{
    if is_operations(scanned.around.holds) {
        return is_arrow(byte, tail)
            || is_typed(scanned.stage) && !matches!(byte, b'"' | b'%' | b'^');
    }
    is_typed(scanned.stage)
}

fn next_stage(scanned: &ScanState, byte: u8, tail: &[u8]) -> OpStage
    ensures { result ≡ next_stage scanned.now byte tail.now }
{
    if !turns(scanned, byte) && goes_on(scanned, byte, tail) {
        OpStage::InType
    } else {
        OpStage::Before
    }
}

/// Returns the scan state after the lexeme that begins with `byte` and is no blank. `around` is the innermost bracket
/// after the lexeme.
fn scanned_after(scanned: &ScanState, byte: u8, tail: &[u8], around: Bracket) -> ScanState
    ensures { result ≡ record { apart = is_arrow byte tail.now || (is_apart byte || parts_dimensions scanned.now byte tail.now); counts = is_count byte; last = last_of byte tail.now; stage = next_stage scanned.now byte tail.now; around = around } }
{
    ScanState {
        apart: is_arrow(byte, tail) || is_apart(byte) || parts_dimensions(scanned, byte, tail),
        counts: is_count(byte),
        last: last_of(byte, tail),
        stage: next_stage(scanned, byte, tail),
        around,
    }
}

/// Returns the scan state after the lexeme that begins with `byte`.
pub(crate) fn pass(
    scanned: &ScanState,
    outer: &mut Vec<Bracket>,
    byte: u8,
    tail: &[u8],
) -> Result<ScanState, AllocError>
    ensures scanned { IfOk result (λ f. f ≡ next_scanned scanned.now (reverse outer.old.items) byte tail.now) }
    ensures outer { IfOk result (λ _. reverse outer.new.items ≡ outer_after scanned.now (reverse outer.old.items) byte) }
{
    let around = nest(scanned, outer, byte)?;
    if is_gap(byte, tail) {
        return Ok(ScanState {
            apart: true,
            counts: false,
            last: scanned.last,
            stage: scanned.stage,
            around: scanned.around,
        });
    }
    Ok(scanned_after(scanned, byte, tail, around))
}
