//! Semantic analysis of the terms of both sides.
ghost use Rattle.std.specs.Prelude.{◌≡◌, [], eqb, map, true, false, IfOk, OnOk, Ok, option_map};
ghost use Rattle.std.specs.List.{list_any};
ghost use Rattle.user_patterns_text.specs.Parts.{bytes_of, part_view};
ghost use Rattle.user_patterns_text.specs.Refusing.{Returns};
ghost use Rattle.user_patterns_sema_base.specs.Words.{truth_named};
ghost use Rattle.user_patterns_sema.specs.SemaViews.{sema_view, places_view};
ghost use Rattle.user_patterns_sema.specs.Sema.{requested_predicate, chosen, closed_at, compared, constant_at, gathered, is_bare, literal_of, made_at, visited_from, new_constant, old_constant, old_constant_of, old_literal, old_name_from, old_truth, old_word_from, operation_at, paired, resized, shaped, shaped_by_one, shaped_by_three, shaped_by_two, term_at, typed_constant, typed_entry, typed_operation, value_at, value_from, with_pattern_op};

use crate::numbers::{HEADROOM, analyze_number, literal_with};
use crate::state::{
    CastConstraint, Magnitude, Sema, TermRef, ValueLayout, after_end, and_literal, begin,
    begin_new, typed, unite, unite_with,
};
use dialects_int::operations::{Cast, Predicate};
use ir_text_tokens::refusal::TextRefusal;
use ir_types::bits::BitsKind;
use std::alloc::{AllocError, Global};
use user_patterns_data::pattern::{Expression, ExtraConstant, NewValue, PatternOp, TypeConstraint};
use user_patterns_sema_base::names::place_of;
use user_patterns_sema_base::words::{Operation, operation_named, predicate_named, truth_named};
use user_patterns_text::error::PatternError;
use user_patterns_text::parts::{Part, PartKind};
use user_patterns_text::steps::refused;

/// Applies the type that is written after a term, if there is one. Returns the term and the parts after it.
#[tactic(auto, unfolding(crate::specs::Sema::typed_entry))]
fn typed_entry<'a, 'p>(
    alloc: Global,
    sema: &mut Sema<'a>,
    literal: Option<Magnitude>,
    entry: &TermRef,
    parts: &'p [Part<'a>],
) -> Result<(TermRef, &'p [Part<'a>]), PatternError>
    ensures { Returns (λ x. (x.0, (map part_view x.1.now, sema_view sema.new))) result (typed_entry (option_map (λ s. (s.negative, s.magnitude)) literal) (entry.now, (map part_view parts.now, sema_view sema.old))) }
{
    match typed(alloc, sema, literal, entry.slot, entry.left, parts) {
        Ok(rest) => Ok((*entry, rest)),
        Err(e) => Err(e),
    }
}

/// Records a value, or a use of a named number on the right. Refuses a name without a place with `UnknownValue`.
fn value<'a>(
    sema: &mut Sema<'a>,
    left: bool,
    at: usize,
    place: Option<usize>,
) -> Result<TermRef, PatternError>
    ensures { Returns (λ e. (e, sema_view sema.new)) result (value_from left at place (sema_view sema.old)) }
{
    let Some(place) = place else {
        return Err(refused(TextRefusal::UnknownValue, at));
    };
    match begin(sema, left, place, at) {
        Ok(()) => Ok(TermRef {
            place,
            slot: place,
            left: at,
        }),
        Err(_) => Err(PatternError::Memory),
    }
}

fn is_visited(place: usize, visited: &[usize]) -> bool
    ensures { result ≡ list_any (eqb place) visited.now }
{
    let mut rest = visited;
    'places: while let [one, tail @ ..] = rest {
        if *one == place {
            return true;
        }
        rest = tail;
    }
    false
}

/// Records a second use of a constant on the left, as an extra constant with the same number.
fn again<'a>(
    places: &ValueLayout<'_>,
    sema: &mut Sema<'a>,
    place: usize,
    at: usize,
) -> Result<TermRef, AllocError>
    ensures entry { IfOk result (λ e. e ≡ (visited_from (places_view places.now) true place at (sema_view sema.old)).0) }
    ensures sema { OnOk result (sema_view sema.new ≡ (visited_from (places_view places.now) true place at (sema_view sema.old)).1) }
{
    let extra = places.extra as usize + sema.extra.len();
    match begin(sema, true, place, at) {
        Ok(()) => {}
        Err(e) => return Err(e),
    }
    match sema.extra.push(ExtraConstant::SameAs(place)) {
        Ok(()) => Ok(TermRef {
            place: extra,
            slot: place,
            left: at,
        }),
        Err(_) => Err(AllocError),
    }
}

/// Records the first use of a constant on the left.
fn add_constant<'a>(
    places: &ValueLayout<'_>,
    sema: &mut Sema<'a>,
    place: usize,
    at: usize,
) -> Result<TermRef, AllocError>
    ensures entry { IfOk result (λ e. e ≡ (visited_from (places_view places.now) false place at (sema_view sema.old)).0) }
    ensures sema { OnOk result (sema_view sema.new ≡ (visited_from (places_view places.now) false place at (sema_view sema.old)).1) }
{
    match begin(sema, true, place, at) {
        Ok(()) => {}
        Err(e) => return Err(e),
    }
    match sema.visited.push(place) {
        Ok(()) => Ok(TermRef {
            place,
            slot: place,
            left: at,
        }),
        Err(_) => Err(AllocError),
    }
}

/// Records a named constant on the left.
fn old_name<'a>(
    places: &ValueLayout<'_>,
    sema: &mut Sema<'a>,
    at: usize,
    place: Option<usize>,
) -> Result<TermRef, PatternError>
    ensures { Returns (λ e. (e, sema_view sema.new)) result (old_name_from (places_view places.now) at place (sema_view sema.old)) }
{
    let Some(place) = place else {
        return Err(refused(TextRefusal::UnknownValue, at));
    };
    if is_visited(place, &sema.visited) {
        match again(places, sema, place, at) {
            Ok(entry) => Ok(entry),
            Err(_) => Err(PatternError::Memory),
        }
    } else {
        match add_constant(places, sema, place, at) {
            Ok(entry) => Ok(entry),
            Err(_) => Err(PatternError::Memory),
        }
    }
}

/// Records a literal on the left.
fn old_constant_of<'a>(
    places: &ValueLayout<'_>,
    sema: &mut Sema<'a>,
    at: usize,
    size: &Magnitude,
) -> Result<TermRef, AllocError>
    ensures entry { IfOk result (λ e. e ≡ (old_constant_of (places_view places.now) at size.now.negative size.now.magnitude (sema_view sema.old)).0) }
    ensures sema { OnOk result (sema_view sema.new ≡ (old_constant_of (places_view places.now) at size.now.negative size.now.magnitude (sema_view sema.old)).1) }
{
    let place = places.extra as usize + sema.extra.len();
    let slot = match begin_new(sema, true, at) {
        Ok(slot) => slot,
        Err(e) => return Err(e),
    };
    let literal = literal_with(size.negative, size.magnitude, slot);
    match sema.extra.push(ExtraConstant::Literal(literal)) {
        Ok(()) => Ok(TermRef {
            place,
            slot,
            left: at,
        }),
        Err(_) => Err(AllocError),
    }
}

/// Records a literal on the left that is written in digits.
fn old_literal<'a>(
    places: &ValueLayout<'_>,
    sema: &mut Sema<'a>,
    at: usize,
    size: &Magnitude,
) -> Result<TermRef, PatternError>
    ensures { Returns (λ e. (e, sema_view sema.new)) result (Ok (old_literal (places_view places.now) at size.now.negative size.now.magnitude (sema_view sema.old))) }
{
    let slot = sema.types.value_types.len();
    let literal = literal_with(size.negative, size.magnitude, slot);
    match and_literal(sema, literal, at) {
        Ok(()) => {}
        Err(_) => return Err(PatternError::Memory),
    }
    match old_constant_of(places, sema, at, size) {
        Ok(entry) => Ok(entry),
        Err(_) => Err(PatternError::Memory),
    }
}

/// Records `true` or `false` on the left.
fn old_truth<'a>(
    alloc: Global,
    places: &ValueLayout<'_>,
    sema: &mut Sema<'a>,
    at: usize,
    value: u128,
) -> Result<TermRef, PatternError>
    ensures { Returns (λ e. (e, sema_view sema.new)) result (old_truth (places_view places.now) at value (sema_view sema.old)) }
{
    let size = Magnitude {
        negative: false,
        magnitude: value,
    };
    let entry = match old_constant_of(places, sema, at, &size) {
        Ok(entry) => entry,
        Err(_) => return Err(PatternError::Memory),
    };
    match unite_with(alloc, sema, entry.slot, BitsKind::Int(1), at) {
        Ok(()) => Ok(entry),
        Err(e) => Err(e),
    }
}

/// Records a word on the left: a literal of `i1`, or a named constant.
fn old_word<'a>(
    alloc: Global,
    places: &ValueLayout<'_>,
    sema: &mut Sema<'a>,
    at: usize,
    word: &[u8],
) -> Result<TermRef, PatternError>
    ensures { Returns (λ e. (e, sema_view sema.new)) result (old_word_from (places_view places.now) (truth_named word.now) word.now at (sema_view sema.old)) }
{
    let Some(value) = truth_named(word) else {
        return old_name(places, sema, at, place_of(false, word, &places.variables));
    };
    old_truth(alloc, places, sema, at, value)
}

/// Adds a new constant, whose number is at the start of the parts.
#[tactic(auto, unfolding(crate::specs::Sema::made_at))]
fn made<'a, 'p>(
    alloc: Global,
    places: &ValueLayout<'_>,
    sema: &mut Sema<'a>,
    depth: u32,
    at: usize,
    parts: &'p [Part<'a>],
) -> Result<(TermRef, &'p [Part<'a>]), PatternError>
    ensures { Returns (λ x. (x.0, (map part_view x.1.now, sema_view sema.new))) result (made_at (places_view places.now) depth at (map part_view parts.now, sema_view sema.old)) }
{
    let slot = match begin_new(sema, false, at) {
        Ok(slot) => slot,
        Err(_) => return Err(PatternError::Memory),
    };
    let (number, rest) = match analyze_number(alloc, places, sema, parts, slot, depth) {
        Ok(found) => found,
        Err(e) => return Err(e),
    };
    let place = places.new_begin as usize + sema.builds.len();
    let entry = TermRef {
        place,
        slot,
        left: at,
    };
    match sema.builds.push(NewValue::Constant(number, slot)) {
        Ok(()) => Ok((entry, rest)),
        Err(_) => Err(PatternError::Memory),
    }
}

fn requested_predicate(asks: Option<&[u8]>) -> Option<Predicate>
    ensures { result ≡ requested_predicate (option_map bytes_of asks.entry) }
{
    match asks {
        Some(word) => predicate_named(word),
        None => None,
    }
}

fn compared<'a>(
    alloc: Global,
    sema: &mut Sema<'a>,
    predicate: Option<Predicate>,
    i: &TermRef,
    j: &TermRef,
    slot: usize,
    at: usize,
) -> Result<Expression, PatternError>
    ensures { Returns (λ form. (form, sema_view sema.new)) result (compared predicate i.now j.now slot at (sema_view sema.old)) }
{
    let Some(predicate) = predicate else {
        return Err(refused(TextRefusal::Unexpected, at));
    };
    match unite(alloc, sema, i.slot, j.slot, j.left) {
        Ok(()) => {}
        Err(e) => return Err(e),
    }
    match unite_with(alloc, sema, slot, BitsKind::Int(1), at) {
        Ok(()) => Ok(Expression::Compare(predicate, i.place, j.place)),
        Err(e) => Err(e),
    }
}

fn paired<'a>(
    alloc: Global,
    sema: &mut Sema<'a>,
    i: &TermRef,
    j: &TermRef,
    slot: usize,
    at: usize,
) -> Result<(), PatternError>
    ensures { Returns (λ _. sema_view sema.new) result (paired i.now j.now slot at (sema_view sema.old)) }
{
    match unite(alloc, sema, i.slot, j.slot, j.left) {
        Ok(()) => unite(alloc, sema, i.slot, slot, at),
        Err(e) => Err(e),
    }
}

fn chosen<'a>(
    alloc: Global,
    sema: &mut Sema<'a>,
    c: &TermRef,
    i: &TermRef,
    j: &TermRef,
    slot: usize,
    at: usize,
) -> Result<(), PatternError>
    ensures { Returns (λ _. sema_view sema.new) result (chosen c.now i.now j.now slot at (sema_view sema.old)) }
{
    match unite_with(alloc, sema, c.slot, BitsKind::Int(1), c.left) {
        Ok(()) => paired(alloc, sema, i, j, slot, at),
        Err(e) => Err(e),
    }
}

fn resized(cast: Cast, from: usize, to: usize) -> TypeConstraint
    ensures { result ≡ resized cast from to }
{
    match cast {
        Cast::Truncate => TypeConstraint::Narrower(to, from),
        Cast::ExtendSigned => TypeConstraint::Narrower(from, to),
        Cast::ExtendUnsigned => TypeConstraint::Narrower(from, to),
    }
}

/// Returns the operation with one operand.
fn shaped_by_one<'a>(
    sema: &mut Sema<'a>,
    operation: Option<Operation>,
    i: &TermRef,
    slot: usize,
    at: usize,
) -> Result<Expression, PatternError>
    ensures { Returns (λ form. (form, sema_view sema.new)) result (shaped_by_one operation i.now slot at (sema_view sema.old)) }
{
    match operation {
        Some(Operation::IntegerCast(cast)) => {
            match sema.type_constraints.push(resized(cast, i.slot, slot)) {
                Ok(()) => Ok(Expression::IntegerCast(cast, i.place)),
                Err(_) => Err(PatternError::Memory),
            }
        }
        Some(Operation::IndexCast(cast)) => {
            let intermediate = CastConstraint {
                from: i.slot,
                to: slot,
                left: at,
            };
            match sema.casts.push(intermediate) {
                Ok(()) => Ok(Expression::IndexCast(cast, i.place)),
                Err(_) => Err(PatternError::Memory),
            }
        }
        _ => Err(refused(TextRefusal::TypeMismatch, at)),
    }
}

/// Returns the operation with two operands.
fn shaped_by_two<'a>(
    alloc: Global,
    sema: &mut Sema<'a>,
    operation: Option<Operation>,
    predicate: Option<Predicate>,
    i: &TermRef,
    j: &TermRef,
    slot: usize,
    at: usize,
) -> Result<Expression, PatternError>
    ensures { Returns (λ form. (form, sema_view sema.new)) result (shaped_by_two operation predicate i.now j.now slot at (sema_view sema.old)) }
{
    match operation {
        Some(Operation::Binary(pair)) => match paired(alloc, sema, i, j, slot, at) {
            Ok(()) => Ok(Expression::Binary(pair, i.place, j.place)),
            Err(e) => Err(e),
        },
        Some(Operation::Compare) => compared(alloc, sema, predicate, i, j, slot, at),
        _ => Err(refused(TextRefusal::TypeMismatch, at)),
    }
}

/// Returns the operation with three operands.
fn shaped_by_three<'a>(
    alloc: Global,
    sema: &mut Sema<'a>,
    operation: Option<Operation>,
    c: &TermRef,
    i: &TermRef,
    j: &TermRef,
    slot: usize,
    at: usize,
) -> Result<Expression, PatternError>
    ensures { Returns (λ form. (form, sema_view sema.new)) result (shaped_by_three operation c.now i.now j.now slot at (sema_view sema.old)) }
{
    match operation {
        Some(Operation::Select) => match chosen(alloc, sema, c, i, j, slot, at) {
            Ok(()) => Ok(Expression::Select(c.place, i.place, j.place)),
            Err(e) => Err(e),
        },
        _ => Err(refused(TextRefusal::TypeMismatch, at)),
    }
}

/// Returns the operation with its operands, and unifies their types. Refuses a wrong number of operands or types that
/// can't be equal with `TypeMismatch`.
#[tactic(auto, unfolding(crate::specs::Sema::shaped))]
fn shaped<'a>(
    alloc: Global,
    sema: &mut Sema<'a>,
    operation: Option<Operation>,
    predicate: Option<Predicate>,
    entries: &[TermRef],
    slot: usize,
    at: usize,
) -> Result<Expression, PatternError>
    ensures { Returns (λ form. (form, sema_view sema.new)) result (shaped operation predicate entries.now slot at (sema_view sema.old)) }
{
    match entries {
        [i] => shaped_by_one(sema, operation, i, slot, at),
        [i, j] => shaped_by_two(alloc, sema, operation, predicate, i, j, slot, at),
        [c, i, j] => shaped_by_three(alloc, sema, operation, c, i, j, slot, at),
        _ => Err(refused(TextRefusal::TypeMismatch, at)),
    }
}

fn is_bare(operation: Option<Operation>, asks: Option<&[u8]>) -> bool
    ensures { result ≡ is_bare operation (option_map bytes_of asks.entry) }
{
    match operation {
        Some(Operation::Compare) => false,
        _ => asks.is_some(),
    }
}

/// Adds an operation on that side.
fn with_pattern_op<'a>(
    places: &ValueLayout<'_>,
    sema: &mut Sema<'a>,
    left: bool,
    pattern_op: PatternOp,
    slot: usize,
    at: usize,
) -> Result<TermRef, PatternError>
    ensures { Returns (λ e. (e, sema_view sema.new)) result (Ok (with_pattern_op (places_view places.now) left pattern_op slot at (sema_view sema.old))) }
{
    if left {
        let place = places.old_begin as usize + sema.pattern_ops.len();
        match sema.pattern_ops.push(pattern_op) {
            Ok(()) => Ok(TermRef {
                place,
                slot,
                left: at,
            }),
            Err(_) => Err(PatternError::Memory),
        }
    } else {
        let place = places.new_begin as usize + sema.builds.len();
        match sema.builds.push(NewValue::Operation(pattern_op)) {
            Ok(()) => Ok(TermRef {
                place,
                slot,
                left: at,
            }),
            Err(_) => Err(PatternError::Memory),
        }
    }
}

/// Adds an operation with its operands.
fn closed<'a>(
    alloc: Global,
    places: &ValueLayout<'_>,
    sema: &mut Sema<'a>,
    left: bool,
    name: &[u8],
    asks: Option<&[u8]>,
    entries: &[TermRef],
    slot: usize,
    at: usize,
) -> Result<TermRef, PatternError>
    ensures { Returns (λ e. (e, sema_view sema.new)) result (closed_at (places_view places.now) left name.now (option_map bytes_of asks.entry) entries.now slot at (sema_view sema.old)) }
{
    let operation = operation_named(name);
    let form = match shaped(
        alloc,
        sema,
        operation,
        requested_predicate(asks),
        entries,
        slot,
        at,
    ) {
        Ok(form) => form,
        Err(e) => return Err(e),
    };
    let pattern_op = PatternOp {
        form,
        bare: is_bare(operation, asks),
        ty: slot,
    };
    with_pattern_op(places, sema, left, pattern_op, slot, at)
}

/// Appends the terms up to an end. Refuses `room` terms or more. Returns the parts after the end.
#[cycle(term)]
#[tactic(auto, unfolding(crate::specs::Sema::gathered))]
fn operands<'a, 'p>(
    alloc: Global,
    places: &ValueLayout<'_>,
    sema: &mut Sema<'a>,
    found: &mut Vec<TermRef>,
    parts: &'p [Part<'a>],
    left: bool,
    depth: u32,
    headroom: u32,
) -> Result<&'p [Part<'a>], PatternError>
    ensures { Returns (λ rest. (found.new.items, (map part_view rest.now, sema_view sema.new))) result (gathered (term_at (places_view places.now) left depth) headroom found.old.items (map part_view parts.now, sema_view sema.old)) }
{
    if headroom == 0 {
        return Err(refused(TextRefusal::TooMany, 0));
    }
    if let Some(rest) = after_end(parts) {
        return Ok(rest);
    }
    let (entry, rest) = match term(alloc, places, sema, parts, left, depth) {
        Ok(item) => item,
        Err(e) => return Err(e),
    };
    match found.push(entry) {
        Ok(()) => operands(alloc, places, sema, found, rest, left, depth, headroom - 1),
        Err(_) => Err(PatternError::Memory),
    }
}

/// Analyzes an operation, given the parts after its name.
#[cycle(term)]
#[tactic(auto, unfolding(crate::specs::Sema::operation_at))]
fn operation<'a, 'p>(
    alloc: Global,
    places: &ValueLayout<'_>,
    sema: &mut Sema<'a>,
    name: &[u8],
    asks: Option<&[u8]>,
    at: usize,
    parts: &'p [Part<'a>],
    left: bool,
    depth: u32,
) -> Result<(TermRef, &'p [Part<'a>]), PatternError>
    ensures { Returns (λ x. (x.0, (map part_view x.1.now, sema_view sema.new))) result (operation_at (places_view places.now) (term_at (places_view places.now) left depth) left at name.now (option_map bytes_of asks.entry) (map part_view parts.now, sema_view sema.old)) }
{
    let slot = match begin_new(sema, left, at) {
        Ok(slot) => slot,
        Err(_) => return Err(PatternError::Memory),
    };
    let mut entries = Vec::new(alloc);
    let rest = match operands(
        alloc,
        places,
        sema,
        &mut entries,
        parts,
        left,
        depth,
        HEADROOM,
    ) {
        Ok(rest) => rest,
        Err(e) => return Err(e),
    };
    match closed(alloc, places, sema, left, name, asks, &entries, slot, at) {
        Ok(entry) => Ok((entry, rest)),
        Err(e) => Err(e),
    }
}

/// Analyzes a constant on the left, at the start of the parts: a literal or a name.
#[tactic(auto, unfolding(crate::specs::Sema::old_constant))]
fn old_constant<'a, 'p>(
    alloc: Global,
    places: &ValueLayout<'_>,
    sema: &mut Sema<'a>,
    parts: &'p [Part<'a>],
) -> Result<(TermRef, &'p [Part<'a>]), PatternError>
    ensures { Returns (λ x. (x.0, (map part_view x.1.now, sema_view sema.new))) result (old_constant (places_view places.now) (map part_view parts.now, sema_view sema.old)) }
{
    let [part, rest @ ..] = parts else {
        return Err(refused(TextRefusal::Unexpected, 0));
    };
    let at = part.left;
    match part.kind {
        PartKind::Literal(negative, magnitude) => {
            match old_literal(
                places,
                sema,
                at,
                &Magnitude {
                    negative,
                    magnitude,
                },
            ) {
                Ok(entry) => Ok((entry, rest)),
                Err(e) => Err(e),
            }
        }
        PartKind::Name(name) => {
            match old_word(alloc, places, sema, at, name) {
                Ok(entry) => Ok((entry, rest)),
                Err(e) => Err(e),
            }
        }
        _ => Err(refused(TextRefusal::Unexpected, 0)),
    }
}

/// Analyzes a constant on the right, at the start of the parts: any number. A name alone is the matched constant.
#[tactic(auto, unfolding(crate::specs::Sema::new_constant))]
fn new_constant<'a, 'p>(
    alloc: Global,
    places: &ValueLayout<'_>,
    sema: &mut Sema<'a>,
    parts: &'p [Part<'a>],
    depth: u32,
) -> Result<(TermRef, &'p [Part<'a>]), PatternError>
    ensures { Returns (λ x. (x.0, (map part_view x.1.now, sema_view sema.new))) result (new_constant (places_view places.now) depth (map part_view parts.now, sema_view sema.old)) }
{
    let [part, rest @ ..] = parts else {
        return Err(refused(TextRefusal::Unexpected, 0));
    };
    let at = part.left;
    match part.kind {
        PartKind::Name(name) => {
            if truth_named(name).is_some() {
                return made(alloc, places, sema, depth, at, parts);
            }
            let place = place_of(false, name, &places.variables);
            match value(sema, false, at, place) {
                Ok(entry) => Ok((entry, rest)),
                Err(e) => Err(e),
            }
        }
        _ => made(alloc, places, sema, depth, at, parts),
    }
}

fn constant<'a, 'p>(
    alloc: Global,
    places: &ValueLayout<'_>,
    sema: &mut Sema<'a>,
    parts: &'p [Part<'a>],
    left: bool,
    depth: u32,
) -> Result<(TermRef, &'p [Part<'a>]), PatternError>
    ensures { Returns (λ x. (x.0, (map part_view x.1.now, sema_view sema.new))) result (constant_at (places_view places.now) left depth (map part_view parts.now, sema_view sema.old)) }
{
    if left {
        old_constant(alloc, places, sema, parts)
    } else {
        new_constant(alloc, places, sema, parts, depth)
    }
}

fn literal_of(parts: &[Part<'_>]) -> Option<Magnitude>
    ensures { option_map (λ s. (s.negative, s.magnitude)) result ≡ literal_of (map part_view parts.now) }
{
    let [part, ..] = parts else {
        return None;
    };
    match part.kind {
        PartKind::Literal(negative, magnitude) => Some(Magnitude {
            negative,
            magnitude,
        }),
        _ => None,
    }
}

/// Analyzes a value, given the parts after its name.
#[tactic(auto, unfolding(crate::specs::Sema::value_at))]
fn value_at<'a, 'p>(
    alloc: Global,
    places: &ValueLayout<'_>,
    sema: &mut Sema<'a>,
    name: &[u8],
    at: usize,
    parts: &'p [Part<'a>],
    left: bool,
) -> Result<(TermRef, &'p [Part<'a>]), PatternError>
    ensures { Returns (λ x. (x.0, (map part_view x.1.now, sema_view sema.new))) result (value_at (places_view places.now) left at name.now (map part_view parts.now, sema_view sema.old)) }
{
    let place = place_of(true, name, &places.variables);
    match value(sema, left, at, place) {
        Ok(entry) => typed_entry(alloc, sema, None, &entry, parts),
        Err(e) => Err(e),
    }
}

/// Analyzes a constant and its type.
#[tactic(auto, unfolding(crate::specs::Sema::typed_constant))]
fn typed_constant<'a, 'p>(
    alloc: Global,
    places: &ValueLayout<'_>,
    sema: &mut Sema<'a>,
    parts: &'p [Part<'a>],
    left: bool,
    depth: u32,
) -> Result<(TermRef, &'p [Part<'a>]), PatternError>
    ensures { Returns (λ x. (x.0, (map part_view x.1.now, sema_view sema.new))) result (typed_constant (places_view places.now) left depth (map part_view parts.now, sema_view sema.old)) }
{
    let literal = literal_of(parts);
    match constant(alloc, places, sema, parts, left, depth) {
        Ok((entry, rest)) => typed_entry(alloc, sema, literal, &entry, rest),
        Err(e) => Err(e),
    }
}

/// Analyzes an operation and its type, given the parts after its name.
#[cycle(term)]
#[tactic(auto, unfolding(crate::specs::Sema::typed_operation))]
fn typed_operation<'a, 'p>(
    alloc: Global,
    places: &ValueLayout<'_>,
    sema: &mut Sema<'a>,
    name: &[u8],
    asks: Option<&[u8]>,
    at: usize,
    parts: &'p [Part<'a>],
    left: bool,
    depth: u32,
) -> Result<(TermRef, &'p [Part<'a>]), PatternError>
    ensures { Returns (λ x. (x.0, (map part_view x.1.now, sema_view sema.new))) result (typed_operation (places_view places.now) (term_at (places_view places.now) left depth) left at name.now (option_map bytes_of asks.entry) (map part_view parts.now, sema_view sema.old)) }
{
    match operation(alloc, places, sema, name, asks, at, parts, left, depth) {
        Ok((entry, rest)) => typed_entry(alloc, sema, None, &entry, rest),
        Err(e) => Err(e),
    }
}

/// Analyzes a term of at most that depth on that side.
///
/// Refuses with `TypeMismatch` an operation with a wrong number of operands, an operand or an operation whose types
/// can't be equal, and a term whose written type differs; with `BadValue` a literal that is out of range of its written
/// type.
#[cycle(term)]
#[tactic(auto, unfolding(crate::specs::Sema::term_at))]
pub(crate) fn term<'a, 'p>(
    alloc: Global,
    places: &ValueLayout<'_>,
    sema: &mut Sema<'a>,
    parts: &'p [Part<'a>],
    left: bool,
    depth: u32,
) -> Result<(TermRef, &'p [Part<'a>]), PatternError>
    ensures { Returns (λ x. (x.0, (map part_view x.1.now, sema_view sema.new))) result (term_at (places_view places.now) left depth (map part_view parts.now, sema_view sema.old)) }
{
    if depth == 0 {
        return Err(refused(TextRefusal::TooDeep, 0));
    }
    let [part, rest @ ..] = parts else {
        return Err(refused(TextRefusal::Unexpected, 0));
    };
    let at = part.left;
    match part.kind {
        PartKind::Value(name) => value_at(alloc, places, sema, name, at, rest, left),
        PartKind::Operation(name, asks) => typed_operation(
            alloc,
            places,
            sema,
            name,
            asks,
            at,
            rest,
            left,
            depth - 1,
        ),
        _ => typed_constant(alloc, places, sema, parts, left, depth),
    }
}
