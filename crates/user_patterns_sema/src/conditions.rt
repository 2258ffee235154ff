//! Semantic analysis of conditions.
ghost use Rattle.std.specs.Prelude.{◌≡◌, [], map, Ok};
ghost use Rattle.user_patterns_text.specs.Parts.{part_view};
ghost use Rattle.user_patterns_text.specs.Refusing.{Returns};
ghost use Rattle.user_patterns_data.specs.declared.pattern.ConstantExpression.TheVariants as number;
ghost use Rattle.user_patterns_sema.specs.SemaViews.{sema_view, places_view};
ghost use Rattle.user_patterns_sema.specs.Sema.{a_power, and_number, comparing, condition_at, conditions_at, gathered, is_free, visited_by, named_at, narrowed, numbers_requested, type_at, types_requested};

use crate::numbers::{HEADROOM, and_number, arguments};
use crate::state::{Sema, ValueLayout, after_end, begin, with_type, written_at};
use dialects_int::operations::Predicate;
use ir_text_tokens::refusal::TextRefusal;
use std::alloc::Global;
use user_patterns_data::pattern::{ConstantExpression, PatternType as Type, TypeConstraint};
use user_patterns_sema_base::types::{kind_of, same_kind};
use user_patterns_sema_base::words::{is_narrower, is_power, predicate_named};
use user_patterns_text::error::PatternError;
use user_patterns_text::parts::{Part, PartKind};
use user_patterns_text::steps::refused;

/// The depth limit of numbers in conditions.
const NUMBER_DEPTH: u32 = 17;

/// Analyzes a type that is an operand of a condition. Returns its number and the parts after it.
#[tactic(auto, unfolding(crate::specs::Sema::type_at))]
fn type_requested<'a, 'p>(
    sema: &mut Sema<'a>,
    parts: &'p [Part<'a>],
) -> Result<(usize, &'p [Part<'a>]), PatternError>
    ensures { Returns (λ x. (x.0, (map part_view x.1.now, sema_view sema.new))) result (type_at (map part_view parts.now, sema_view sema.old)) }
{
    let [part, rest @ ..] = parts else {
        return Err(refused(TextRefusal::Unexpected, 0));
    };
    match part.kind {
        PartKind::Type(word) => {
            let slot = match written_at(sema, word) {
                Ok(slot) => slot,
                Err(e) => return Err(e),
            };
            match begin(sema, false, slot, part.left) {
                Ok(()) => Ok((slot, rest)),
                Err(_) => Err(PatternError::Memory),
            }
        }
        _ => Err(refused(TextRefusal::Unexpected, 0)),
    }
}

/// Appends the numbers of the types up to an end. Refuses `room` types or more. Returns the parts after the end.
#[tactic(auto, unfolding(crate::specs::Sema::gathered))]
fn types<'a, 'p>(
    sema: &mut Sema<'a>,
    found: &mut Vec<usize>,
    parts: &'p [Part<'a>],
    headroom: u32,
) -> Result<&'p [Part<'a>], PatternError>
    ensures { Returns (λ rest. (found.new.items, (map part_view rest.now, sema_view sema.new))) result (gathered type_at headroom found.old.items (map part_view parts.now, sema_view sema.old)) }
{
    if headroom == 0 {
        return Err(refused(TextRefusal::TooMany, 0));
    }
    if let Some(rest) = after_end(parts) {
        return Ok(rest);
    }
    let (slot, rest) = match type_requested(sema, parts) {
        Ok(item) => item,
        Err(e) => return Err(e),
    };
    match found.push(slot) {
        Ok(()) => types(sema, found, rest, headroom - 1),
        Err(_) => Err(PatternError::Memory),
    }
}

fn narrowed<'a>(sema: &mut Sema<'a>, slots: &[usize], at: usize) -> Result<(), PatternError>
    ensures { Returns (λ _. sema_view sema.new) result (narrowed slots.now at (sema_view sema.old)) }
{
    match slots {
        [narrow, wide] => match sema
            .type_constraints
            .push(TypeConstraint::Narrower(*narrow, *wide))
        {
            Ok(()) => Ok(()),
            Err(_) => Err(PatternError::Memory),
        },
        _ => Err(refused(TextRefusal::TypeMismatch, at)),
    }
}

/// Analyzes a condition on types, given the parts after its word. Returns the parts after the condition.
#[tactic(auto, unfolding(crate::specs::Sema::types_requested))]
fn types_requested<'a, 'p>(
    alloc: Global,
    sema: &mut Sema<'a>,
    at: usize,
    parts: &'p [Part<'a>],
) -> Result<&'p [Part<'a>], PatternError>
    ensures { Returns (λ rest. (map part_view rest.now, sema_view sema.new)) result (types_requested at (map part_view parts.now, sema_view sema.old)) }
{
    let mut slots = Vec::new(alloc);
    let rest = match types(sema, &mut slots, parts, HEADROOM) {
        Ok(rest) => rest,
        Err(e) => return Err(e),
    };
    match narrowed(sema, &slots, at) {
        Ok(()) => Ok(rest),
        Err(e) => Err(e),
    }
}

fn a_power<'a>(
    places: &ValueLayout<'_>,
    sema: &mut Sema<'a>,
    found: &[usize],
    at: usize,
) -> Result<(), PatternError>
    ensures { Returns (λ _. sema_view sema.new) result (a_power (places_view places.now) found.now at (sema_view sema.old)) }
{
    match found {
        [place] => match and_number(places, sema, ConstantExpression::Log2(*place)) {
            Ok(_) => Ok(()),
            Err(_) => Err(PatternError::Memory),
        },
        _ => Err(refused(TextRefusal::TypeMismatch, at)),
    }
}

/// Adds the condition that the number at `place` is 1.
fn required<'a>(
    places: &ValueLayout<'_>,
    sema: &mut Sema<'a>,
    place: usize,
) -> Result<(), PatternError>
    ensures { Returns (λ _. sema_view sema.new) result (Ok (and_number (places_view places.now) (number.Require place) (sema_view sema.old)).1) }
{
    match and_number(places, sema, ConstantExpression::Require(place)) {
        Ok(_) => Ok(()),
        Err(_) => Err(PatternError::Memory),
    }
}

fn comparing<'a>(
    places: &ValueLayout<'_>,
    sema: &mut Sema<'a>,
    predicate: Option<Predicate>,
    found: &[usize],
    at: usize,
) -> Result<(), PatternError>
    ensures { Returns (λ _. sema_view sema.new) result (comparing (places_view places.now) predicate found.now at (sema_view sema.old)) }
{
    let Some(predicate) = predicate else {
        return Err(refused(TextRefusal::TypeMismatch, at));
    };
    match found {
        [i, j] => match and_number(places, sema, ConstantExpression::Compare(predicate, *i, *j)) {
            Ok(place) => required(places, sema, place),
            Err(_) => Err(PatternError::Memory),
        },
        _ => Err(refused(TextRefusal::TypeMismatch, at)),
    }
}

fn visited_by<'a>(
    places: &ValueLayout<'_>,
    sema: &mut Sema<'a>,
    word: &[u8],
    found: &[usize],
    at: usize,
) -> Result<(), PatternError>
    ensures { Returns (λ _. sema_view sema.new) result (visited_by (places_view places.now) word.now found.now at (sema_view sema.old)) }
{
    if is_power(word) {
        a_power(places, sema, found, at)
    } else {
        comparing(places, sema, predicate_named(word), found, at)
    }
}

/// Returns whether no name has the type.
fn is_free(sema: &Sema<'_>, slot: usize) -> bool
    ensures { result ≡ is_free slot (sema_view sema.now) }
{
    same_kind(kind_of(slot, &sema.types.value_types), Type::Variable(slot))
}

/// Analyzes a condition on numbers, given the parts after its word. Returns the parts after the condition.
#[tactic(auto, unfolding(crate::specs::Sema::numbers_requested))]
fn numbers_requested<'a, 'p>(
    alloc: Global,
    places: &ValueLayout<'_>,
    sema: &mut Sema<'a>,
    at: usize,
    word: &[u8],
    parts: &'p [Part<'a>],
) -> Result<&'p [Part<'a>], PatternError>
    ensures { Returns (λ rest. (map part_view rest.now, sema_view sema.new)) result (numbers_requested (places_view places.now) at word.now (map part_view parts.now, sema_view sema.old)) }
{
    let slot = match with_type(sema) {
        Ok(slot) => slot,
        Err(_) => return Err(PatternError::Memory),
    };
    let mut found = Vec::new(alloc);
    let rest = match arguments(
        alloc,
        places,
        sema,
        &mut found,
        parts,
        slot,
        NUMBER_DEPTH,
        HEADROOM,
    ) {
        Ok(rest) => rest,
        Err(e) => return Err(e),
    };
    match visited_by(places, sema, word, &found, at) {
        Ok(()) => {}
        Err(e) => return Err(e),
    }
    if is_free(sema, slot) {
        return Err(refused(TextRefusal::TypeMismatch, at));
    }
    Ok(rest)
}

/// Analyzes a condition, given the parts after its word. Refuses a condition with a wrong number of operands, or
/// without an operand that determines its type, with `TypeMismatch`.
fn condition<'a, 'p>(
    alloc: Global,
    places: &ValueLayout<'_>,
    sema: &mut Sema<'a>,
    at: usize,
    word: &[u8],
    parts: &'p [Part<'a>],
) -> Result<&'p [Part<'a>], PatternError>
    ensures { Returns (λ rest. (map part_view rest.now, sema_view sema.new)) result (condition_at (places_view places.now) at word.now (map part_view parts.now, sema_view sema.old)) }
{
    if is_narrower(word) {
        types_requested(alloc, sema, at, parts)
    } else {
        numbers_requested(alloc, places, sema, at, word, parts)
    }
}

/// Analyzes the conditions of a pattern. Refuses `room` conditions or more.
#[tactic(auto, unfolding(crate::specs::Sema::conditions_at))]
pub(crate) fn conditions<'a>(
    alloc: Global,
    places: &ValueLayout<'_>,
    sema: &mut Sema<'a>,
    parts: &[Part<'a>],
    headroom: u32,
) -> Result<(), PatternError>
    ensures { Returns (λ _. sema_view sema.new) result (conditions_at (places_view places.now) headroom (map part_view parts.now, sema_view sema.old)) }
{
    if headroom == 0 {
        return Err(refused(TextRefusal::TooMany, 0));
    }
    let [part, rest @ ..] = parts else {
        return Ok(());
    };
    match part.kind {
        PartKind::Constraint(word) => {
            match condition(alloc, places, sema, part.left, word, rest) {
                Ok(trailing) => conditions(alloc, places, sema, trailing, headroom - 1),
                Err(e) => Err(e),
            }
        }
        _ => Err(refused(TextRefusal::Unexpected, 0)),
    }
}
