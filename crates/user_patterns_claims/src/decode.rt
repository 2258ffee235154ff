//! The widths and outcomes that a word spells.
ghost use Rattle.std.specs.Prelude.{◌≡◌, ◌+◌, ◌*◌, ◌%◌, ◌^◌, ◌<◌, ◌≤◌, ◌++◌, [], IfOk, IfSome, length, map, true};
ghost use Rattle.ir_types.specs.Bits.{width_of};
ghost use Rattle.ir_types.specs.Reasons.{is_width};
ghost use Rattle.dialects_int.specs.Folds.{known_of};
ghost use Rattle.user_patterns_data.specs.Fitting.{kind_with, kinds_with};
ghost use Rattle.user_patterns_data.specs.Shapes.{pattern_model};
ghost use Rattle.user_patterns_instructions.specs.Expressions.{is_same};
ghost use Rattle.user_patterns_claims.specs.Decoding.{IsAssignment, decoded_widths, first_place, is_poison, mask_count, mask_place, masks, ones, outcome_by, outcomes_from, set_after, types_of, widths_from};
ghost use Rattle.user_patterns_claims.specs.Outcomes.{are_kinds};

use crate::assignment::Assignment;
use crate::letters::{number_in_word, ones};
use crate::pattern_word::PatternWord;
use crate::variables::is_constant;
use ir_types::bits::{Bits, BitsKind, width};
use ir_types::limits::MOST_WIDTH;
use std::alloc::{AllocError, Global};
use user_patterns_check::family::Family;
use user_patterns_data::pattern::{Pattern, PatternType};
use user_patterns_instructions::types::{is_same, push_narrower, push_widths};
use width_claims::width::Width;

/// The most types, variables and bits of a letter.
const MOST: usize = 1000;

/// Returns the number of masks of a type.
fn mask_count(width: &Width) -> usize
    ensures is { result ≡ mask_count width.now }
    ensures few { result ≤ 1 }
{
    match width {
        Width::Free => 1,
        Width::Fixed(_) => 0,
    }
}

/// Returns the number of masks of types.
fn masks(types: &[Width]) -> Option<usize>
    ensures { IfSome result (λ n. n ≡ masks types.now) }
{
    let [width, tail @ ..] = types else {
        return Some(0);
    };
    let rest = masks(tail)?;
    rest.checked_add(mask_count(width))
}

/// Returns the place of the mask of a type variable in a letter.
fn mask_place(v: usize, value_types: &[PatternType], types: &[Width]) -> Option<usize>
    ensures { IfSome result (λ n. n ≡ mask_place v value_types.now types.now) }
{
    let [kind, value_kinds @ ..] = value_types else {
        return Some(0);
    };
    let [width, tail @ ..] = types else {
        return Some(0);
    };
    if is_same(kind, &PatternType::Variable(v)) {
        return Some(0);
    }
    let rest = mask_place(v, value_kinds, tail)?;
    rest.checked_add(mask_count(width))
}

/// Returns the width of a type variable.
fn width_at(v: usize, value_types: &[PatternType], types: &[Width], word: &[u32]) -> Option<u32>
    ensures { IfSome result (λ n. n ≡ ones (mask_place v value_types.now types.now) word.now) }
{
    let place = mask_place(v, value_types, types)?;
    ones(place, word)
}

/// Appends the widths of `left` type variables from `v` on. Returns whether all are small enough.
fn push_decoded(
    value_types: &[PatternType],
    types: &[Width],
    word: &[u32],
    v: usize,
    left: usize,
    widths: &mut Vec<u32>,
) -> Result<bool, AllocError>
    requires { v + left ≤ 1000 }
    ensures { IfOk result (λ done. done ≡ true → widths.new.items ≡ widths.old.items ++ widths_from value_types.now types.now word.now v left) }
{
    if left == 0 {
        return Ok(true);
    }
    let Some(width) = width_at(v, value_types, types, word) else {
        return Ok(false);
    };
    widths.push(width)?;
    push_decoded(value_types, types, word, v + 1, left - 1, widths)
}

/// Returns whether a kind has 1 to 128 bits.
fn is_width(kind: BitsKind) -> bool
    ensures { result ≡ is_width (width_of kind) }
{
    let width = width(kind);
    width > 0 && width <= MOST_WIDTH
}

/// Returns whether a type has 1 to 128 bits at these widths of the type variables.
fn has_width(widths: &[u32], kind: &PatternType) -> bool
    ensures { result ≡ is_width (width_of (kind_with widths.now kind.now)) }
{
    match kind {
        PatternType::Concrete(kind) => is_width(*kind),
        PatternType::Variable(v) => match widths.get(*v) {
            Some(width) => is_width(BitsKind::Int(*width)),
            None => false,
        },
    }
}

/// Returns whether all types have 1 to 128 bits at these widths of the type variables.
fn have_widths(widths: &[u32], value_types: &[PatternType]) -> bool
    ensures { result ≡ are_kinds (kinds_with widths.now value_types.now) }
{
    let [kind, tail @ ..] = value_types else {
        return true;
    };
    has_width(widths, kind) && have_widths(widths, tail)
}

/// Returns 2^k.
fn power(k: u32) -> u128
    requires { k < 128 }
    ensures { result ≡ 2 ^ k }
{
    1u128 << k
}

/// Returns a number modulo 2^w as a constant of a kind, if the kind has 1 to 128 bits.
fn cut(kind: BitsKind, number: u128) -> Option<Bits>
    ensures kind { IfSome result (λ bits. bits.kind ≡ kind) }
    ensures value { IfSome result (λ bits. bits.value ≡ number % 2 ^ width_of kind) }
{
    let width = width(kind);
    if width < 1 || width > MOST_WIDTH {
        return None;
    }
    let value = if width == MOST_WIDTH {
        number
    } else {
        number % power(width)
    };
    Some(Bits { kind, value })
}

/// Returns an outcome: poison, or a number modulo 2^w.
fn outcome_of(kind: BitsKind, is_poison: bool, number: u128) -> Option<Option<Bits>>
    ensures { IfSome result (λ o. known_of o ≡ outcome_by is_poison kind number) }
{
    if is_poison {
        return Some(None);
    }
    match cut(kind, number) {
        Some(bits) => Some(Some(bits)),
        None => None,
    }
}

/// Returns whether a variable that is the next of a set is poison.
fn is_poison(constant: bool, set: usize) -> bool
    ensures { result ≡ is_poison constant set }
{
    !constant && set % 2 == 1
}

/// Returns the set without its first variable, unless that is a constant.
fn set_after(constant: bool, set: usize) -> usize
    ensures { result ≡ set_after constant set }
{
    if constant { set } else { set / 2 }
}

/// Appends the outcomes of the variables from place `i` on. Returns whether all numbers are small enough.
fn push_outcomes(
    read: &PatternWord,
    i: usize,
    set: usize,
    value_kinds: &[BitsKind],
    outcomes: &mut Vec<Option<Bits>>,
) -> Result<bool, AllocError>
    requires { i + length value_kinds.now ≤ 1000 }
    ensures { IfOk result (λ done. done ≡ true → map known_of outcomes.new.items ≡ map known_of outcomes.old.items ++ outcomes_from (pattern_model read.now.pattern.now) read.now.word.now read.now.first i set value_kinds.now) }
{
    let [kind, tail @ ..] = value_kinds else {
        return Ok(true);
    };
    let constant = is_constant(read.pattern, i);
    let Some(number) = number_in_word(read.first + i, read.word) else {
        return Ok(false);
    };
    let Some(outcome) = outcome_of(*kind, is_poison(constant, set), number) else {
        return Ok(false);
    };
    outcomes.push(outcome)?;
    push_outcomes(read, i + 1, set_after(constant, set), tail, outcomes)
}

/// Returns the place of the first variable in a letter.
fn first_place(
    alloc: Global,
    pattern: &Pattern,
    types: &[Width],
) -> Result<Option<usize>, AllocError>
    requires { types.now ≡ types_of (pattern_model pattern.now) }
    ensures { IfOk result (λ r. IfSome r (λ n. n ≡ first_place (pattern_model pattern.now))) }
{
    let mut narrower = Vec::new(alloc);
    push_narrower(
        &pattern.value_types,
        &pattern.type_constraints,
        &mut narrower,
    )?;
    let Some(count) = masks(types) else {
        return Ok(None);
    };
    Ok(count.checked_add(narrower.len()))
}

/// Returns the widths of a pattern's type variables, if each type has 1 to 128 bits.
fn widths_of(
    alloc: Global,
    pattern: &Pattern,
    types: &[Width],
    word: &[u32],
) -> Result<Option<Vec<u32>>, AllocError>
    requires { types.now ≡ types_of (pattern_model pattern.now) }
    ensures widths { IfOk result (λ r. IfSome r (λ ws. ws.items ≡ decoded_widths (pattern_model pattern.now) word.now)) }
    ensures value_kinds { IfOk result (λ r. IfSome r (λ ws. are_kinds (kinds_with ws.items pattern.now.value_types.items) ≡ true)) }
{
    if pattern.types > MOST {
        return Ok(None);
    }
    let mut widths = Vec::new(alloc);
    let value_types = pattern.value_types.as_slice();
    if !push_decoded(value_types, types, word, 0, pattern.types, &mut widths)? {
        return Ok(None);
    }
    if !have_widths(widths.as_slice(), value_types) {
        return Ok(None);
    }
    Ok(Some(widths))
}

/// Returns the outcomes of a pattern's variables of these kinds, if all numbers are small enough.
fn outcomes_of(
    alloc: Global,
    read: &PatternWord,
    set: usize,
    value_kinds: &[BitsKind],
) -> Result<Option<Vec<Option<Bits>>>, AllocError>
    ensures { IfOk result (λ r. IfSome r (λ os. map known_of os.items ≡ outcomes_from (pattern_model read.now.pattern.now) read.now.word.now read.now.first 0 set value_kinds.now)) }
{
    if value_kinds.len() > MOST {
        return Ok(None);
    }
    let mut outcomes = Vec::new(alloc);
    if !push_outcomes(read, 0, set, value_kinds, &mut outcomes)? {
        return Ok(None);
    }
    Ok(Some(outcomes))
}

/// Returns the assignment of these widths.
fn assignment(
    alloc: Global,
    read: &PatternWord,
    set: usize,
    widths: Vec<u32>,
) -> Result<Option<Assignment>, AllocError>
    requires first { read.now.first ≡ first_place (pattern_model read.now.pattern.now) }
    requires widths { widths.items ≡ decoded_widths (pattern_model read.now.pattern.now) read.now.word.now }
    requires value_kinds { are_kinds (kinds_with widths.items read.now.pattern.now.value_types.items) ≡ true }
    ensures { IfOk result (λ r. IfSome r (IsAssignment (pattern_model read.now.pattern.now) set read.now.word.now)) }
{
    let sides = read.pattern.sides(alloc, &widths)?;
    let Some(outcomes) = outcomes_of(alloc, read, set, sides.value_types.as_slice())? else {
        return Ok(None);
    };
    let mut value_types = Vec::new(alloc);
    value_types.extend_from_slice(sides.value_types.as_slice())?;
    Ok(Some(Assignment {
        widths,
        value_types,
        outcomes,
    }))
}

/// Returns the widths and outcomes that a word spells for a pattern of these types.
fn decode_typed(
    alloc: Global,
    pattern: &Pattern,
    types: &[Width],
    set: usize,
    word: &[u32],
) -> Result<Option<Assignment>, AllocError>
    requires { types.now ≡ types_of (pattern_model pattern.now) }
    ensures { IfOk result (λ r. IfSome r (IsAssignment (pattern_model pattern.now) set word.now)) }
{
    let Some(first) = first_place(alloc, pattern, types)? else {
        return Ok(None);
    };
    if first > MOST {
        return Ok(None);
    }
    let Some(widths) = widths_of(alloc, pattern, types, word)? else {
        return Ok(None);
    };
    let read = PatternWord {
        pattern,
        word,
        first,
    };
    assignment(alloc, &read, set, widths)
}

/// Returns the widths and outcomes that a word spells for a pattern and a set of poison variables, or `None` if a type
/// hasn't 1 to 128 bits or a number is too large.
pub fn decode(
    alloc: Global,
    pattern: &Pattern,
    set: usize,
    word: &[u32],
) -> Result<Option<Assignment>, AllocError>
    ensures { IfOk result (λ r. IfSome r (IsAssignment (pattern_model pattern.now) set word.now)) }
{
    let value_types = pattern.value_types.as_slice();
    if value_types.len() > MOST {
        return Ok(None);
    }
    let mut types = Vec::new(alloc);
    if !push_widths(value_types, 0, value_types, &mut types)? {
        return Ok(None);
    }
    decode_typed(alloc, pattern, types.as_slice(), set, word)
}
