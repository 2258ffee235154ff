//! Semantic analysis of numbers that are computed from constants.
ghost use Rattle.std.specs.Prelude.{◌≡◌, ◌+◌, map, length, IfOk, OnOk, Ok, []};
ghost use Rattle.user_patterns_text.specs.Parts.{part_view};
ghost use Rattle.user_patterns_text.specs.Refusing.{Returns};
ghost use Rattle.user_patterns_sema_base.specs.Words.{truth_named};
ghost use Rattle.user_patterns_sema.specs.SemaViews.{sema_view, places_view};
ghost use Rattle.user_patterns_sema.specs.Sema.{and_number, applied, function_at, gathered, inverted, literal_number, literal_with, name_from, negated, next_number, number_at, headroom, word_from, written_number};

use crate::state::{Sema, ValueLayout, after_end, and_literal, unite, unite_with};
use dialects_int::operations::Arithmetic;
use ir_text_tokens::refusal::TextRefusal;
use ir_types::bits::BitsKind;
use std::alloc::{AllocError, Global};
use user_patterns_data::pattern::{ConstantExpression, Literal};
use user_patterns_sema_base::names::place_of;
use user_patterns_sema_base::words::{Function, function_named, truth_named};
use user_patterns_text::error::PatternError;
use user_patterns_text::parts::{Part, PartKind};
use user_patterns_text::steps::refused;

/// The number of steps that reach the end of every list.
pub(crate) const HEADROOM: u32 = 17;

fn next_number(places: &ValueLayout<'_>, sema: &Sema<'_>) -> usize
    ensures { result ≡ next_number (places_view places.now) (sema_view sema.now) }
{
    places.given as usize + sema.given.len()
}

/// Adds a number, and returns its place.
pub(crate) fn and_number<'a>(
    places: &ValueLayout<'_>,
    sema: &mut Sema<'a>,
    number: ConstantExpression,
) -> Result<usize, AllocError>
    ensures place { IfOk result (λ place. place ≡ (and_number (places_view places.now) number (sema_view sema.old)).0) }
    ensures given { OnOk result (sema_view sema.new ≡ (and_number (places_view places.now) number (sema_view sema.old)).1) }
{
    let place = next_number(places, sema);
    match sema.given.push(number) {
        Ok(()) => Ok(place),
        Err(_) => Err(AllocError),
    }
}

pub(crate) fn literal_with(negative: bool, magnitude: u128, slot: usize) -> Literal
    ensures { result ≡ literal_with negative magnitude slot }
{
    Literal {
        negative,
        magnitude,
        ty: slot,
    }
}

fn literal_number(negative: bool, magnitude: u128, slot: usize) -> ConstantExpression
    ensures { result ≡ literal_number negative magnitude slot }
{
    ConstantExpression::Literal(literal_with(negative, magnitude, slot))
}

fn negated<'a>(
    places: &ValueLayout<'_>,
    sema: &mut Sema<'a>,
    place: usize,
    slot: usize,
) -> Result<usize, PatternError>
    ensures { Returns (λ place. (place, sema_view sema.new)) result (Ok (negated (places_view places.now) place slot (sema_view sema.old))) }
{
    match made(places, sema, literal_number(false, 0, slot)) {
        Ok(zero) => made(
            places,
            sema,
            ConstantExpression::Binary(Arithmetic::Subtract, zero, place),
        ),
        Err(e) => Err(e),
    }
}

fn inverted<'a>(
    places: &ValueLayout<'_>,
    sema: &mut Sema<'a>,
    place: usize,
    slot: usize,
) -> Result<usize, PatternError>
    ensures { Returns (λ place. (place, sema_view sema.new)) result (Ok (inverted (places_view places.now) place slot (sema_view sema.old))) }
{
    match made(places, sema, literal_number(true, 1, slot)) {
        Ok(ones) => made(
            places,
            sema,
            ConstantExpression::Binary(Arithmetic::ExclusiveOr, place, ones),
        ),
        Err(e) => Err(e),
    }
}

/// Adds a number, and returns its place.
fn made<'a>(
    places: &ValueLayout<'_>,
    sema: &mut Sema<'a>,
    number: ConstantExpression,
) -> Result<usize, PatternError>
    ensures { Returns (λ place. (place, sema_view sema.new)) result (Ok (and_number (places_view places.now) number (sema_view sema.old))) }
{
    match and_number(places, sema, number) {
        Ok(place) => Ok(place),
        Err(_) => Err(PatternError::Memory),
    }
}

/// Adds a literal, and returns its place.
fn written_number<'a>(
    places: &ValueLayout<'_>,
    sema: &mut Sema<'a>,
    negative: bool,
    magnitude: u128,
    slot: usize,
    at: usize,
) -> Result<usize, PatternError>
    ensures { Returns (λ place. (place, sema_view sema.new)) result (Ok (written_number (places_view places.now) negative magnitude slot at (sema_view sema.old))) }
{
    match and_literal(sema, literal_with(negative, magnitude, slot), at) {
        Ok(()) => {}
        Err(_) => return Err(PatternError::Memory),
    }
    made(places, sema, literal_number(negative, magnitude, slot))
}

/// Adds a function of the numbers at these places, and returns its place. Refuses a wrong number of operands with
/// `TypeMismatch`.
fn applied<'a>(
    places: &ValueLayout<'_>,
    sema: &mut Sema<'a>,
    function: Option<Function>,
    found: &[usize],
    slot: usize,
    at: usize,
) -> Result<usize, PatternError>
    ensures { Returns (λ place. (place, sema_view sema.new)) result (applied (places_view places.now) function found.now slot at (sema_view sema.old)) }
{
    match found {
        [i] => match function {
            Some(Function::Negate) => negated(places, sema, *i, slot),
            Some(Function::Complement) => inverted(places, sema, *i, slot),
            Some(Function::Log2) => made(places, sema, ConstantExpression::Log2(*i)),
            Some(Function::Width) => made(places, sema, ConstantExpression::Width(slot)),
            _ => Err(refused(TextRefusal::TypeMismatch, at)),
        },
        [i, j] => match function {
            Some(Function::Binary(pair)) => made(
                places,
                sema,
                ConstantExpression::Binary(pair, *i, *j),
            ),
            _ => Err(refused(TextRefusal::TypeMismatch, at)),
        },
        _ => Err(refused(TextRefusal::TypeMismatch, at)),
    }
}

/// Returns the place of the number with that name, whose type becomes type `slot`.
fn of_name<'a>(
    alloc: Global,
    sema: &mut Sema<'a>,
    slot: usize,
    at: usize,
    place: Option<usize>,
) -> Result<usize, PatternError>
    ensures { Returns (λ place. (place, sema_view sema.new)) result (name_from slot at place (sema_view sema.old)) }
{
    match place {
        Some(place) => match unite(alloc, sema, slot, place, at) {
            Ok(()) => Ok(place),
            Err(e) => Err(e),
        },
        None => Err(refused(TextRefusal::UnknownValue, at)),
    }
}

/// Returns the place of the number of a word: a literal for `true` or `false`, a name otherwise.
#[tactic(auto, unfolding(crate::specs::Sema::word_from))]
fn of_word<'a>(
    alloc: Global,
    places: &ValueLayout<'_>,
    sema: &mut Sema<'a>,
    slot: usize,
    at: usize,
    word: &[u8],
) -> Result<usize, PatternError>
    ensures { Returns (λ place. (place, sema_view sema.new)) result (word_from (places_view places.now) (truth_named word.now) word.now slot at (sema_view sema.old)) }
{
    let Some(value) = truth_named(word) else {
        return of_name(
            alloc,
            sema,
            slot,
            at,
            place_of(false, word, &places.variables),
        );
    };
    match unite_with(alloc, sema, slot, BitsKind::Int(1), at) {
        Ok(()) => made(places, sema, literal_number(false, value, slot)),
        Err(e) => Err(e),
    }
}

/// Appends the places of the numbers up to an end. Refuses `room` numbers or more. Returns the parts after the end.
#[cycle(number)]
#[tactic(auto, unfolding(crate::specs::Sema::gathered))]
pub(crate) fn arguments<'a, 'p>(
    alloc: Global,
    places: &ValueLayout<'_>,
    sema: &mut Sema<'a>,
    found: &mut Vec<usize>,
    parts: &'p [Part<'a>],
    slot: usize,
    depth: u32,
    headroom: u32,
) -> Result<&'p [Part<'a>], PatternError>
    ensures { Returns (λ rest. (found.new.items, (map part_view rest.now, sema_view sema.new))) result (gathered (number_at (places_view places.now) depth slot) headroom found.old.items (map part_view parts.now, sema_view sema.old)) }
{
    if headroom == 0 {
        return Err(refused(TextRefusal::TooMany, 0));
    }
    if let Some(rest) = after_end(parts) {
        return Ok(rest);
    }
    let (place, rest) = match analyze_number(alloc, places, sema, parts, slot, depth) {
        Ok(item) => item,
        Err(e) => return Err(e),
    };
    match found.push(place) {
        Ok(()) => arguments(alloc, places, sema, found, rest, slot, depth, headroom - 1),
        Err(_) => Err(PatternError::Memory),
    }
}

/// Analyzes a function, given the parts after its name. Returns its place and the parts after it.
#[cycle(number)]
#[tactic(auto, unfolding(crate::specs::Sema::function_at))]
fn function<'a, 'p>(
    alloc: Global,
    places: &ValueLayout<'_>,
    sema: &mut Sema<'a>,
    name: &[u8],
    at: usize,
    parts: &'p [Part<'a>],
    slot: usize,
    depth: u32,
) -> Result<(usize, &'p [Part<'a>]), PatternError>
    ensures { Returns (λ x. (x.0, (map part_view x.1.now, sema_view sema.new))) result (function_at (places_view places.now) (number_at (places_view places.now) depth slot) name.now slot at (map part_view parts.now, sema_view sema.old)) }
{
    let mut found = Vec::new(alloc);
    let rest = match arguments(
        alloc, places, sema, &mut found, parts, slot, depth, HEADROOM,
    ) {
        Ok(rest) => rest,
        Err(e) => return Err(e),
    };
    match applied(places, sema, function_named(name), &found, slot, at) {
        Ok(place) => Ok((place, rest)),
        Err(e) => Err(e),
    }
}

/// Analyzes a number of at most that depth and type `slot`. Returns its place and the parts after it.
#[cycle(number)]
#[tactic(auto, unfolding(crate::specs::Sema::number_at))]
pub(crate) fn analyze_number<'a, 'p>(
    alloc: Global,
    places: &ValueLayout<'_>,
    sema: &mut Sema<'a>,
    parts: &'p [Part<'a>],
    slot: usize,
    depth: u32,
) -> Result<(usize, &'p [Part<'a>]), PatternError>
    ensures { Returns (λ x. (x.0, (map part_view x.1.now, sema_view sema.new))) result (number_at (places_view places.now) depth slot (map part_view parts.now, sema_view sema.old)) }
{
    if depth == 0 {
        return Err(refused(TextRefusal::TooDeep, 0));
    }
    let [part, rest @ ..] = parts else {
        return Err(refused(TextRefusal::Unexpected, 0));
    };
    match part.kind {
        PartKind::Literal(negative, magnitude) => {
            match written_number(places, sema, negative, magnitude, slot, part.left) {
                Ok(place) => Ok((place, rest)),
                Err(e) => Err(e),
            }
        }
        PartKind::Name(name) => {
            match of_word(alloc, places, sema, slot, part.left, name) {
                Ok(place) => Ok((place, rest)),
                Err(e) => Err(e),
            }
        }
        PartKind::Function(name) => {
            function(alloc, places, sema, name, part.left, rest, slot, depth - 1)
        }
        _ => Err(refused(TextRefusal::Unexpected, 0)),
    }
}
