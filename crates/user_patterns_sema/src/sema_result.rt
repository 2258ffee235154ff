//! Tests the inferred types, and builds the pattern.
ghost use Rattle.std.specs.Prelude.{◌≡◌, ◌≤◌, ◌+◌, [], length, eqb, map, true, IfOk};
ghost use Rattle.std.specs.List.{list_any, range_with_len};
ghost use Rattle.user_patterns_text.specs.Refusing.{Returns};
ghost use Rattle.user_patterns_data.specs.Shapes.{pattern_model};
ghost use Rattle.user_patterns_data.specs.WellFormed.{is_well_formed};
ghost use Rattle.user_patterns_sema_base.specs.Views.{variable_views};
ghost use Rattle.user_patterns_sema.specs.SemaViews.{sema_view, places_view};
ghost use Rattle.user_patterns_sema_base.specs.Types.{kind_of};
ghost use Rattle.user_patterns_sema.specs.Ending.{ended, pattern_of};
ghost use Rattle.user_patterns_sema.specs.EndViews.{ends_view};
ghost use Rattle.user_patterns_sema.specs.Sema.{all_cast, all_fit, all_numbered, all_determined, cast_requested, checked, constants_of, fits, found_in, is_index, is_determined, kinds_found, numbered, place_in, settled, determined_slots, variables_found, with_casts, with_kind};

use crate::state::{CastConstraint, LiteralAt, RequiredType, Sema, ValueLayout};
use ir_text_tokens::refusal::TextRefusal;
use ir_types::bits::BitsKind;
use std::alloc::{AllocError, Global};
use user_patterns_data::literals::bits_with;
use user_patterns_data::pattern::{Literal, Pattern, PatternType, TypeConstraint};
use user_patterns_data::well_formed::is_well_formed;
use user_patterns_sema_base::names::Variable;
use user_patterns_sema_base::types::{kind_of, same_kind};
use user_patterns_text::error::PatternError;
use user_patterns_text::steps::refused;

/// The fields of a pattern that are known only after the analysis: its types, the variables and the places of both
/// results.
#[derive(Drop)]
pub struct SemaResult {
    pub types: usize,
    pub value_types: Vec<PatternType>,
    pub values: Vec<usize>,
    pub constants: Vec<usize>,
    pub root: usize,
    pub made: usize,
}

/// Returns whether a type is concrete or is the type of a term on the left.
fn is_determined(value_types: &[PatternType], olds: &[usize], kind: PatternType) -> bool
    ensures { result ≡ is_determined value_types.now olds.now kind }
{
    let PatternType::Variable(variable) = kind else {
        return true;
    };
    let mut rest = olds;
    'types: while let [slot, tail @ ..] = rest {
        if same_kind(kind_of(*slot, value_types), PatternType::Variable(variable)) {
            return true;
        }
        rest = tail;
    }
    false
}

/// Refuses the first required type that isn't known with `TypeMismatch`.
#[tactic(auto, unfolding(crate::specs::Sema::all_determined))]
fn all_determined(
    value_types: &[PatternType],
    olds: &[usize],
    reported: &[RequiredType],
) -> Result<(), PatternError>
    ensures { Returns (λ _. tt) result (all_determined value_types.now olds.now reported.now) }
{
    let mut rest = reported;
    'types: while let [one, tail @ ..] = rest {
        if !is_determined(value_types, olds, kind_of(one.slot, value_types)) {
            return Err(refused(TextRefusal::TypeMismatch, one.left));
        }
        rest = tail;
    }
    Ok(())
}

/// Returns whether the literal is in range of a concrete type. Every literal fits a type variable.
fn fits(kind: PatternType, literal: &Literal) -> bool
    ensures { result ≡ fits kind literal.now }
{
    match kind {
        PatternType::Concrete(kind) => {
            let literal = Literal {
                negative: literal.negative,
                magnitude: literal.magnitude,
                ty: 0,
            };
            bits_with(&[kind], &literal).is_some()
        }
        PatternType::Variable(_) => true,
    }
}

/// Refuses the first literal that is out of range of its type with `BadValue`.
#[tactic(auto, unfolding(crate::specs::Sema::all_fit))]
fn all_fit(value_types: &[PatternType], literals: &[LiteralAt]) -> Result<(), PatternError>
    ensures { Returns (λ _. tt) result (all_fit value_types.now literals.now) }
{
    let mut rest = literals;
    'literals: while let [one, tail @ ..] = rest {
        if !fits(kind_of(one.literal.ty, value_types), &one.literal) {
            return Err(refused(TextRefusal::BadValue, one.left));
        }
        rest = tail;
    }
    Ok(())
}

fn is_index(kind: PatternType) -> bool
    ensures { result ≡ is_index kind }
{
    same_kind(kind, PatternType::Concrete(BitsKind::Index))
}

/// Returns the width constraint of an index cast. Refuses a cast without exactly one `index` with `TypeMismatch`.
fn cast_requested(
    value_types: &[PatternType],
    cast: &CastConstraint,
) -> Result<TypeConstraint, PatternError>
    ensures { Returns (λ a. a) result (cast_requested value_types.now cast.now) }
{
    let from_index = is_index(kind_of(cast.from, value_types));
    let to_index = is_index(kind_of(cast.to, value_types));
    if from_index {
        if to_index {
            Err(refused(TextRefusal::TypeMismatch, cast.left))
        } else {
            Ok(TypeConstraint::Integer(cast.to))
        }
    } else {
        if to_index {
            Ok(TypeConstraint::Integer(cast.from))
        } else {
            Err(refused(TextRefusal::TypeMismatch, cast.left))
        }
    }
}

/// Appends the width constraints of the index casts.
#[tactic(auto, unfolding(crate::specs::Sema::all_cast))]
fn all_cast(
    value_types: &[PatternType],
    type_constraints: &mut Vec<TypeConstraint>,
    casts: &[CastConstraint],
) -> Result<(), PatternError>
    ensures { Returns (λ _. type_constraints.new.items) result (all_cast value_types.now type_constraints.old.items casts.now) }
{
    let mut rest = casts;
    'casts: while let [cast, tail @ ..] = rest {
        let one = match cast_requested(value_types, cast) {
            Ok(one) => one,
            Err(e) => return Err(e),
        };
        match type_constraints.push(one) {
            Ok(()) => rest = tail,
            Err(_) => return Err(PatternError::Memory),
        }
    }
    Ok(())
}

fn is_among(number: usize, numbers: &[usize]) -> bool
    ensures { result ≡ list_any (eqb number) numbers.now }
{
    let mut rest = numbers;
    'numbers: while let [one, tail @ ..] = rest {
        if number == *one {
            return true;
        }
        rest = tail;
    }
    false
}

/// Appends the type variable of `kind` if `kind` is a variable that isn't in the list.
fn with_kind(found: &mut Vec<usize>, kind: PatternType) -> Result<(), PatternError>
    ensures { Returns (λ _. found.new.items) result (Ok (with_kind found.old.items kind)) }
{
    let PatternType::Variable(variable) = kind else {
        return Ok(());
    };
    if is_among(variable, found) {
        return Ok(());
    }
    match found.push(variable) {
        Ok(()) => Ok(()),
        Err(_) => Err(PatternError::Memory),
    }
}

/// Appends the type variables of terms on the left.
#[tactic(auto, unfolding(crate::specs::Sema::found_in))]
fn found_in(
    value_types: &[PatternType],
    found: &mut Vec<usize>,
    slots: &[usize],
) -> Result<(), PatternError>
    ensures { Returns (λ _. found.new.items) result (Ok (found_in value_types.now found.old.items slots.now)) }
{
    let mut rest = slots;
    'types: while let [slot, tail @ ..] = rest {
        match with_kind(found, kind_of(*slot, value_types)) {
            Ok(()) => rest = tail,
            Err(e) => return Err(e),
        }
    }
    Ok(())
}

/// Appends the type variables of required types.
#[tactic(auto, unfolding(crate::specs::Sema::found_in))]
fn found_in_determined(
    value_types: &[PatternType],
    found: &mut Vec<usize>,
    reported: &[RequiredType],
) -> Result<(), PatternError>
    ensures { Returns (λ _. found.new.items) result (Ok (found_in value_types.now found.old.items (determined_slots reported.now))) }
{
    let mut rest = reported;
    'types: while let [one, tail @ ..] = rest {
        match with_kind(found, kind_of(one.slot, value_types)) {
            Ok(()) => rest = tail,
            Err(e) => return Err(e),
        }
    }
    Ok(())
}

/// Returns the index of `number` in `numbers`, if it is there.
#[tactic(auto, unfolding(crate::specs::Sema::place_in))]
fn place_in(number: usize, numbers: &[usize]) -> Option<usize>
    ensures { result ≡ place_in 0 number numbers.now }
{
    let mut rest = numbers;
    let mut place = 0;
    'numbers: while let [one, tail @ ..] = rest {
        if number == *one {
            return Some(place);
        }
        rest = tail;
        place += 1;
    }
    None
}

/// Returns the type with its variable renumbered: by its index in `found`.
fn numbered(found: &[usize], kind: PatternType) -> PatternType
    ensures { result ≡ numbered found.now kind }
{
    let PatternType::Variable(variable) = kind else {
        return kind;
    };
    match place_in(variable, found) {
        Some(place) => PatternType::Variable(place),
        None => PatternType::Concrete(BitsKind::Int(0)),
    }
}

#[tactic(auto, unfolding(crate::specs::Sema::all_numbered))]
fn all_numbered(
    alloc: Global,
    found: &[usize],
    value_types: &[PatternType],
) -> Result<Vec<PatternType>, AllocError>
    ensures { IfOk result (λ v. v.items ≡ all_numbered found.now value_types.now) }
{
    let mut made = match Vec::with_capacity(alloc, value_types.len()) {
        Ok(made) => made,
        Err(e) => return Err(e),
    };
    let mut rest = value_types;
    'value_types: while let [kind, tail @ ..] = rest {
        match made.push(numbered(found, *kind)) {
            Ok(()) => rest = tail,
            Err(_) => return Err(AllocError),
        }
    }
    Ok(made)
}

/// Returns the numbers of the variables' types, from 0 on.
#[tactic(auto, using(user_patterns_sema_base::proofs::Lists::range_again))]
pub(crate) fn variable_types(alloc: Global, count: usize) -> Result<Vec<usize>, AllocError>
    ensures { IfOk result (λ v. v.items ≡ range_with_len 0 count) }
{
    let mut found = Vec::new(alloc);
    let mut place = 0;
    'places: while place < count {
        match found.push(place) {
            Ok(()) => place += 1,
            Err(_) => return Err(AllocError),
        }
    }
    Ok(found)
}

/// Returns the number of each variable's type.
#[tactic(auto, using(user_patterns_sema_base::proofs::Lists::variables_length))]
fn types_of_variables(alloc: Global, variables: &[Variable<'_>]) -> Result<Vec<usize>, AllocError>
    ensures { IfOk result (λ v. v.items ≡ range_with_len 0 (length (variable_views variables.now))) }
{
    variable_types(alloc, variables.len())
}

/// Returns the places of the variables that are constants.
fn constants_of(alloc: Global, variables: &[Variable<'_>]) -> Result<Vec<usize>, AllocError>
    ensures { IfOk result (λ v. v.items ≡ constants_of 0 (variable_views variables.now)) }
{
    let mut found = Vec::new(alloc);
    let mut rest = variables;
    let mut place = 0;
    'variables: while let [variable, tail @ ..] = rest {
        if !variable.is_value {
            match found.push(place) {
                Ok(()) => {}
                Err(_) => return Err(AllocError),
            }
        }
        rest = tail;
        place += 1;
    }
    Ok(found)
}

/// Returns the type variables of all terms, in the order of the text.
fn variables_found(alloc: Global, sema: &Sema<'_>) -> Result<Vec<usize>, PatternError>
    ensures { Returns (λ v. v.items) result (Ok (found_in sema.now.types.value_types.items (found_in sema.now.types.value_types.items [] sema.now.old_types.items) (determined_slots sema.now.new_types.items))) }
{
    let mut found = Vec::new(alloc);
    match found_in(&sema.types.value_types, &mut found, &sema.old_types) {
        Ok(()) => {}
        Err(e) => return Err(e),
    }
    match found_in_determined(&sema.types.value_types, &mut found, &sema.new_types) {
        Ok(()) => Ok(found),
        Err(e) => Err(e),
    }
}

/// Adds the width constraints of the index casts.
fn with_casts<'a>(sema: &mut Sema<'a>) -> Result<(), PatternError>
    ensures { Returns (λ _. sema_view sema.new) result (with_casts (sema_view sema.old)) }
{
    all_cast(
        &sema.types.value_types,
        &mut sema.type_constraints,
        &sema.casts,
    )
}

/// Returns the pattern if it is well-formed.
fn checked(pattern: Pattern) -> Result<Pattern, PatternError>
    ensures gives { Returns pattern_model result (checked (pattern_model pattern)) }
    ensures stands { IfOk result (λ p. is_well_formed (pattern_model p) ≡ true) }
{
    if is_well_formed(&pattern) {
        Ok(pattern)
    } else {
        Err(refused(TextRefusal::Unexpected, 0))
    }
}

/// Tests that all types are known, that literals are in range, and that each index cast has one `index`.
pub(crate) fn settled<'a>(sema: &mut Sema<'a>) -> Result<(), PatternError>
    ensures { Returns (λ _. sema_view sema.new) result (settled (sema_view sema.old)) }
{
    match all_determined(&sema.types.value_types, &sema.old_types, &sema.new_types) {
        Ok(()) => {}
        Err(e) => return Err(e),
    }
    match all_fit(&sema.types.value_types, &sema.literals) {
        Ok(()) => with_casts(sema),
        Err(e) => Err(e),
    }
}

/// Returns the number of type variables, and the renumbered types.
fn kinds_found(alloc: Global, sema: &Sema<'_>) -> Result<(usize, Vec<PatternType>), PatternError>
    ensures { Returns (λ x. (x.0, x.1.items)) result (Ok (kinds_found (variables_found (sema_view sema.now)) sema.now.types.value_types.items)) }
{
    let found = match variables_found(alloc, sema) {
        Ok(found) => found,
        Err(e) => return Err(e),
    };
    match all_numbered(alloc, &found, &sema.types.value_types) {
        Ok(value_types) => Ok((found.len(), value_types)),
        Err(_) => Err(PatternError::Memory),
    }
}

/// Returns the fields that are known only after the analysis, once all types are known.
pub(crate) fn ended(
    alloc: Global,
    places: &ValueLayout<'_>,
    sema: &Sema<'_>,
    root: usize,
    made: usize,
) -> Result<SemaResult, PatternError>
    ensures { Returns ends_view result (Ok (ended (places_view places.now) (root, made) (sema_view sema.now))) }
{
    let (types, value_types) = match kinds_found(alloc, sema) {
        Ok(found) => found,
        Err(e) => return Err(e),
    };
    let values = match types_of_variables(alloc, &places.variables) {
        Ok(values) => values,
        Err(_) => return Err(PatternError::Memory),
    };
    match constants_of(alloc, &places.variables) {
        Ok(constants) => Ok(SemaResult {
            types,
            value_types,
            values,
            constants,
            root,
            made,
        }),
        Err(_) => Err(PatternError::Memory),
    }
}

/// Returns the pattern of the analysis.
fn pattern_of(sema: Sema<'_>, ends: SemaResult) -> Pattern
    ensures { pattern_model result ≡ pattern_of (ends_view ends) (sema_view sema.entry) }
{
    Pattern {
        types: ends.types,
        value_types: ends.value_types,
        values: ends.values,
        constants: ends.constants,
        extra: sema.extra,
        type_constraints: sema.type_constraints,
        given: sema.given,
        old: sema.pattern_ops,
        root: ends.root,
        new: sema.builds,
        result: ends.made,
    }
}

/// Returns the pattern of the analysis, which is well-formed.
pub(crate) fn finished(sema: Sema<'_>, ends: SemaResult) -> Result<Pattern, PatternError>
    ensures gives { Returns pattern_model result (checked (pattern_of (ends_view ends) (sema_view sema.entry))) }
    ensures stands { IfOk result (λ p. is_well_formed (pattern_model p) ≡ true) }
{
    checked(pattern_of(sema, ends))
}
