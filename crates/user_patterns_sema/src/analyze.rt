//! Semantic analysis of a whole pattern.
ghost use Rattle.std.specs.Prelude.{◌≡◌, ◌≤◌, map, length, true, IfOk};
ghost use Rattle.std.specs.List.{range_with_len};
ghost use Rattle.user_patterns_data.specs.declared.pattern.PatternType.TheVariants as ty;
ghost use Rattle.user_patterns_data.specs.Shapes.{pattern_model};
ghost use Rattle.user_patterns_data.specs.WellFormed.{is_well_formed};
ghost use Rattle.user_patterns_text.specs.Parts.{pattern_view};
ghost use Rattle.user_patterns_text.specs.Refusing.{Returns};
ghost use Rattle.user_patterns_sema_base.specs.Views.{variable_views};
ghost use Rattle.user_patterns_sema_base.specs.NameViews.{names_view};
ghost use Rattle.user_patterns_sema.specs.SemaViews.{sema_view, places_view};
ghost use Rattle.user_patterns_sema.specs.Ending.{ends_wellformed, roots_wellformed};
ghost use Rattle.user_patterns_sema.specs.EndViews.{ends_view};
ghost use Rattle.user_patterns_sema.specs.Sema.{begins_with, count_constants, wellformed, places_of, sides_wellformed};

use crate::conditions::conditions;
use crate::numbers::HEADROOM;
use crate::sema_result::{SemaResult, ended, finished, settled, variable_types};
use crate::state::{Sema, ValueLayout, unite};
use crate::terms::term;
use std::alloc::{AllocError, Global};
use user_patterns_data::pattern::{Pattern, PatternType};
use user_patterns_sema_base::names::{Names, Variable, names_of};
use user_patterns_sema_base::types::TypeTable;
use user_patterns_text::error::PatternError;
use user_patterns_text::parts;

/// The depth limits of terms on the left and on the right.
const OLD_DEPTH: u32 = 5;

const NEW_DEPTH: u32 = 17;

fn count_constants(variables: &[Variable<'_>]) -> usize
    ensures count { result ≡ count_constants (variable_views variables.now) }
    ensures within { result ≤ length variables.now }
{
    let mut rest = variables;
    let mut count = 0;
    'variables: while let [variable, tail @ ..] = rest {
        if !variable.is_value {
            count += 1;
        }
        rest = tail;
    }
    count
}

/// Returns the layout of places for these names.
fn places_of(names: Names<'_>) -> ValueLayout<'_>
    requires variables { length names.variables.items ≤ 16 }
    requires constants { names.constants ≤ 256 }
    requires old { names.old ≤ 256 }
    requires numbers { names.numbers ≤ 256 }
    ensures { places_view result ≡ places_of (names_view names.entry) }
{
    let variables = names.variables.len() as u32;
    let visited = count_constants(&names.variables) as u32;
    let given = variables + names.constants.saturating_sub(visited);
    let old = given + names.numbers;
    ValueLayout {
        extra: variables,
        given,
        old_begin: old,
        new_begin: old + names.old,
        variables: names.variables,
    }
}

/// Returns the types of the variables, each a separate type variable.
fn variable_kinds(alloc: Global, places: &[usize]) -> Result<Vec<PatternType>, AllocError>
    ensures { IfOk result (λ v. v.items ≡ map ty.Variable places.now) }
{
    let mut found = match Vec::with_capacity(alloc, places.len()) {
        Ok(found) => found,
        Err(e) => return Err(e),
    };
    let mut rest = places;
    'places: while let [place, tail @ ..] = rest {
        match found.push(PatternType::Variable(*place)) {
            Ok(()) => rest = tail,
            Err(_) => return Err(AllocError),
        }
    }
    Ok(found)
}

/// Returns the state of the analysis before the first part, for a pattern with `count` variables.
fn begins_with<'a>(alloc: Global, count: usize) -> Result<Sema<'a>, AllocError>
    ensures { IfOk result (λ f. sema_view f ≡ begins_with count) }
{
    let places = match variable_types(alloc, count) {
        Ok(places) => places,
        Err(e) => return Err(e),
    };
    let value_types = match variable_kinds(alloc, &places) {
        Ok(value_types) => value_types,
        Err(e) => return Err(e),
    };
    Ok(Sema {
        types: TypeTable {
            value_types,
            named: Vec::new(alloc),
        },
        old_types: Vec::new(alloc),
        new_types: Vec::new(alloc),
        casts: Vec::new(alloc),
        literals: Vec::new(alloc),
        type_constraints: Vec::new(alloc),
        visited: Vec::new(alloc),
        extra: Vec::new(alloc),
        given: Vec::new(alloc),
        pattern_ops: Vec::new(alloc),
        builds: Vec::new(alloc),
    })
}

/// Analyzes both sides and the conditions. Returns the places of the two results.
#[tactic(auto, unfolding(crate::specs::Ending::roots_wellformed))]
fn roots<'a>(
    alloc: Global,
    places: &ValueLayout<'_>,
    sema: &mut Sema<'a>,
    pattern: &parts::Pattern<'a>,
) -> Result<(usize, usize), PatternError>
    ensures { Returns (λ x. (x, sema_view sema.new)) result (roots_wellformed (places_view places.now) (pattern_view pattern.now) (sema_view sema.old)) }
{
    let (old, _) = match term(alloc, places, sema, &pattern.old, true, OLD_DEPTH) {
        Ok(found) => found,
        Err(e) => return Err(e),
    };
    let (new, _) = match term(alloc, places, sema, &pattern.new, false, NEW_DEPTH) {
        Ok(found) => found,
        Err(e) => return Err(e),
    };
    match unite(alloc, sema, old.slot, new.slot, new.left) {
        Ok(()) => {}
        Err(e) => return Err(e),
    }
    match conditions(alloc, places, sema, &pattern.conditions, HEADROOM) {
        Ok(()) => Ok((old.place, new.place)),
        Err(e) => Err(e),
    }
}

/// Analyzes the pattern, and returns its types and the places of its results once all types are known.
#[tactic(auto, unfolding(crate::specs::Ending::ends_wellformed))]
fn ends<'a>(
    alloc: Global,
    places: &ValueLayout<'_>,
    sema: &mut Sema<'a>,
    pattern: &parts::Pattern<'a>,
) -> Result<SemaResult, PatternError>
    ensures { Returns (λ e. (ends_view e, sema_view sema.new)) result (ends_wellformed (places_view places.now) (pattern_view pattern.now) (sema_view sema.old)) }
{
    let (root, made) = match roots(alloc, places, sema, pattern) {
        Ok(found) => found,
        Err(e) => return Err(e),
    };
    match settled(sema) {
        Ok(()) => ended(alloc, places, sema, root, made),
        Err(e) => Err(e),
    }
}

fn sides<'a>(
    alloc: Global,
    places: &ValueLayout<'_>,
    pattern: &parts::Pattern<'a>,
) -> Result<Pattern, PatternError>
    ensures gives { Returns pattern_model result (sides_wellformed (places_view places.now) (pattern_view pattern.now)) }
    ensures stands { IfOk result (λ p. is_well_formed (pattern_model p) ≡ true) }
{
    let mut sema = match begins_with(alloc, places.variables.len()) {
        Ok(sema) => sema,
        Err(_) => return Err(PatternError::Memory),
    };
    match ends(alloc, places, &mut sema, pattern) {
        Ok(ends) => finished(sema, ends),
        Err(e) => Err(e),
    }
}

/// Returns the pattern of the parts of a text. The pattern is well-formed.
///
/// Refusals, each with its position. First `TooMany` or `UnknownValue` if the names are refused. Then the first of
/// these errors, operands before operations:
/// - `TypeMismatch`: an operation, a function or a condition has a wrong number of operands.
/// - `TypeMismatch`: the types of an operand, an operation, a term or a name can't be equal.
/// - `TypeMismatch`: no operand of a condition determines its type.
/// - `BadValue`: a literal is out of range of the type that is written after it.
///
/// Then the first of these errors, in this order:
/// - `TypeMismatch`: a type on the right isn't known in the end.
/// - `BadValue`: a literal is out of range of its inferred type.
/// - `TypeMismatch`: not exactly one end of an index cast is `index`.
#[tactic(auto, unfolding(crate::specs::Sema::wellformed))]
pub fn analyze(alloc: Global, pattern: &parts::Pattern<'_>) -> Result<Pattern, PatternError>
    ensures gives { Returns pattern_model result (wellformed (pattern_view pattern.now)) }
    ensures stands { IfOk result (λ p. is_well_formed (pattern_model p) ≡ true) }
{
    let names = match names_of(alloc, pattern) {
        Ok(names) => names,
        Err(e) => return Err(e),
    };
    let places = places_of(names);
    sides(alloc, &places, pattern)
}
