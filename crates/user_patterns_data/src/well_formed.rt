//! The well-formedness of a pattern.
ghost use Rattle.std.specs.Prelude.{◌≡◌, eqb};
ghost use Rattle.std.specs.List.{list_all, list_any};
ghost use Rattle.user_patterns_data.specs.Shapes.{pattern_model};
ghost use Rattle.user_patterns_data.specs.WellFormed as well;

use crate::pattern::{
    ConstantExpression, Expression, ExtraConstant, NewValue, Pattern, PatternOp, PatternType,
    TypeConstraint,
};

/// Returns whether `place` is at least `low` and below `end`.
fn is_within(low: u128, end: u128, place: usize) -> bool
    ensures { result ≡ well.is_within low end place }
{
    low <= place as u128 && (place as u128) < end
}

/// Returns the place of the first matched operation.
fn old_begins(pattern: &Pattern) -> u128
    ensures { result ≡ well.old_begins (pattern_model pattern.now) }
{
    pattern.values.len() as u128 + (pattern.extra.len() as u128 + pattern.given.len() as u128)
}

/// Returns the place of the first new value.
fn new_begins(pattern: &Pattern) -> u128
    ensures { result ≡ well.new_begins (pattern_model pattern.now) }
{
    let values = pattern.values.len() as u128;
    let given = pattern.extra.len() as u128 + pattern.given.len() as u128;
    values + given + pattern.old.len() as u128
}

/// Returns the place after the last new value.
fn new_ends(pattern: &Pattern) -> u128
    ensures { result ≡ well.new_ends (pattern_model pattern.now) }
{
    let values = pattern.values.len() as u128;
    let given = pattern.extra.len() as u128 + pattern.given.len() as u128;
    values + given + pattern.old.len() as u128 + pattern.new.len() as u128
}

fn is_type(pattern: &Pattern, ty: usize) -> bool
    ensures { result ≡ well.is_type (pattern_model pattern.now) ty }
{
    ty < pattern.value_types.len()
}

fn type_is_valid(pattern: &Pattern, kind: PatternType) -> bool
    ensures { result ≡ well.type_is_valid (pattern_model pattern.now) kind }
{
    match kind {
        PatternType::Concrete(_) => true,
        PatternType::Variable(number) => number < pattern.types,
    }
}

fn is_variable(pattern: &Pattern, place: usize) -> bool
    ensures { result ≡ well.is_variable (pattern_model pattern.now) place }
{
    place < pattern.values.len()
}

/// Returns whether `place` is one of `places`.
pub fn is_among(places: &[usize], place: usize) -> bool
    ensures { result ≡ list_any (eqb place) places.now }
{
    let mut rest = places;
    'places: while let [first, tail @ ..] = rest {
        if *first == place {
            return true;
        }
        rest = tail;
    }
    false
}

fn is_constant(pattern: &Pattern, place: usize) -> bool
    ensures { result ≡ well.is_constant (pattern_model pattern.now) place }
{
    is_among(&pattern.constants, place)
}

fn extra_is_valid(pattern: &Pattern, extra: ExtraConstant) -> bool
    ensures { result ≡ well.extra_is_valid (pattern_model pattern.now) extra }
{
    match extra {
        ExtraConstant::Literal(literal) => is_type(pattern, literal.ty),
        ExtraConstant::SameAs(place) => is_constant(pattern, place),
    }
}

fn constraint_is_valid(pattern: &Pattern, type_constraints: TypeConstraint) -> bool
    ensures { result ≡ well.constraint_is_valid (pattern_model pattern.now) type_constraints }
{
    match type_constraints {
        TypeConstraint::Narrower(narrow, wide) => is_type(pattern, narrow)
            && is_type(pattern, wide),
        TypeConstraint::Integer(ty) => is_type(pattern, ty),
    }
}

/// Returns whether `place` is a constant, or a number whose place is below `end`.
fn is_number(pattern: &Pattern, end: u128, place: usize) -> bool
    ensures { result ≡ well.is_number (pattern_model pattern.now) end place }
{
    is_constant(pattern, place) || is_within(pattern.values.len() as u128, end, place)
}

fn number_is_valid(pattern: &Pattern, at: u128, number: ConstantExpression) -> bool
    ensures { result ≡ well.number_is_valid (pattern_model pattern.now) at number }
{
    match number {
        ConstantExpression::Literal(literal) => is_type(pattern, literal.ty),
        ConstantExpression::Width(ty) => is_type(pattern, ty),
        ConstantExpression::Binary(_, i, j) => is_number(pattern, at, i)
            && is_number(pattern, at, j),
        ConstantExpression::Compare(_, i, j) => is_number(pattern, at, i)
            && is_number(pattern, at, j),
        ConstantExpression::Log2(i) => is_number(pattern, at, i),
        ConstantExpression::Require(i) => is_number(pattern, at, i),
    }
}

/// Returns whether `place` may be an operand of the matched operation at place `end`.
fn is_old(pattern: &Pattern, end: u128, place: usize) -> bool
    ensures { result ≡ well.is_old (pattern_model pattern.now) end place }
{
    let preceding = pattern.values.len() as u128 + pattern.extra.len() as u128;
    (place as u128) < preceding || is_within(old_begins(pattern), end, place)
}

/// Returns whether `place` may be an operand of the new value at place `end`.
fn is_new(pattern: &Pattern, end: u128, place: usize) -> bool
    ensures { result ≡ well.is_new (pattern_model pattern.now) end place }
{
    is_variable(pattern, place) || is_within(new_begins(pattern), end, place)
}

fn old_is_valid(pattern: &Pattern, at: u128, pattern_op: PatternOp) -> bool
    ensures { result ≡ well.old_is_valid (pattern_model pattern.now) at pattern_op }
{
    if !is_type(pattern, pattern_op.ty) {
        return false;
    }
    match pattern_op.form {
        Expression::Binary(_, i, j) => is_old(pattern, at, i) && is_old(pattern, at, j),
        Expression::Compare(_, i, j) => is_old(pattern, at, i) && is_old(pattern, at, j),
        Expression::Select(c, i, j) => is_old(pattern, at, c)
            && (is_old(pattern, at, i) && is_old(pattern, at, j)),
        Expression::IntegerCast(_, i) => is_old(pattern, at, i),
        Expression::IndexCast(_, i) => is_old(pattern, at, i),
    }
}

fn form_is_valid(pattern: &Pattern, at: u128, form: Expression) -> bool
    ensures { result ≡ well.form_is_valid (pattern_model pattern.now) (well.is_new (pattern_model pattern.now) at) form }
{
    match form {
        Expression::Binary(_, i, j) => is_new(pattern, at, i) && is_new(pattern, at, j),
        Expression::Compare(_, i, j) => is_new(pattern, at, i) && is_new(pattern, at, j),
        Expression::Select(c, i, j) => is_new(pattern, at, c)
            && (is_new(pattern, at, i) && is_new(pattern, at, j)),
        Expression::IntegerCast(_, i) => is_new(pattern, at, i),
        Expression::IndexCast(_, i) => is_new(pattern, at, i),
    }
}

fn new_is_valid(pattern: &Pattern, at: u128, new: NewValue) -> bool
    ensures { result ≡ well.new_is_valid (pattern_model pattern.now) at new }
{
    match new {
        NewValue::Operation(pattern_op) => is_type(pattern, pattern_op.ty)
            && form_is_valid(pattern, at, pattern_op.form),
        NewValue::Constant(place, ty) => is_type(pattern, ty)
            && is_number(pattern, old_begins(pattern), place),
    }
}

/// Returns whether the type variables of `kinds` exist.
fn types_are_valid(pattern: &Pattern, value_types: &[PatternType]) -> bool
    ensures { result ≡ list_all (well.type_is_valid (pattern_model pattern.now)) value_types.now }
{
    let mut rest = value_types;
    'value_types: while let [first, tail @ ..] = rest {
        if !type_is_valid(pattern, *first) {
            return false;
        }
        rest = tail;
    }
    true
}

/// Returns whether the numbers are those of types of the pattern.
fn are_types(pattern: &Pattern, types: &[usize]) -> bool
    ensures { result ≡ list_all (well.is_type (pattern_model pattern.now)) types.now }
{
    let mut rest = types;
    'types: while let [first, tail @ ..] = rest {
        if !is_type(pattern, *first) {
            return false;
        }
        rest = tail;
    }
    true
}

/// Returns whether the places are those of variables.
fn are_variables(pattern: &Pattern, places: &[usize]) -> bool
    ensures { result ≡ list_all (well.is_variable (pattern_model pattern.now)) places.now }
{
    let mut rest = places;
    'places: while let [first, tail @ ..] = rest {
        if !is_variable(pattern, *first) {
            return false;
        }
        rest = tail;
    }
    true
}

/// Returns whether the extra constants are well-formed.
fn extras_are_valid(pattern: &Pattern, extra: &[ExtraConstant]) -> bool
    ensures { result ≡ list_all (well.extra_is_valid (pattern_model pattern.now)) extra.now }
{
    let mut rest = extra;
    'extra: while let [first, tail @ ..] = rest {
        if !extra_is_valid(pattern, *first) {
            return false;
        }
        rest = tail;
    }
    true
}

/// Returns whether the constraints are on types of the pattern.
fn constraints_are_valid(pattern: &Pattern, type_constraints: &[TypeConstraint]) -> bool
    ensures { result ≡ list_all (well.constraint_is_valid (pattern_model pattern.now)) type_constraints.now }
{
    let mut rest = type_constraints;
    'type_constraints: while let [first, tail @ ..] = rest {
        if !constraint_is_valid(pattern, *first) {
            return false;
        }
        rest = tail;
    }
    true
}

/// Returns whether the computed numbers are well-formed. The place after the last of them is `end`.
fn numbers_are_valid(pattern: &Pattern, numbers: &[ConstantExpression], end: u128) -> bool
    ensures { result ≡ well.numbers_are_valid (pattern_model pattern.now) end numbers.now }
{
    let mut rest = numbers;
    'numbers: while let [first, tail @ ..] = rest {
        let at = end.saturating_sub(rest.len() as u128);
        if !number_is_valid(pattern, at, *first) {
            return false;
        }
        rest = tail;
    }
    true
}

/// Returns whether the matched operations are well-formed. The place after the last of them is `end`.
fn olds_are_valid(pattern: &Pattern, old: &[PatternOp], end: u128) -> bool
    ensures { result ≡ well.olds_are_valid (pattern_model pattern.now) end old.now }
{
    let mut rest = old;
    'old: while let [first, tail @ ..] = rest {
        let at = end.saturating_sub(rest.len() as u128);
        if !old_is_valid(pattern, at, *first) {
            return false;
        }
        rest = tail;
    }
    true
}

/// Returns whether the new values are well-formed. The place after the last of them is `end`.
fn news_are_valid(pattern: &Pattern, new: &[NewValue], end: u128) -> bool
    ensures { result ≡ well.news_are_valid (pattern_model pattern.now) end new.now }
{
    let mut rest = new;
    'new: while let [first, tail @ ..] = rest {
        let at = end.saturating_sub(rest.len() as u128);
        if !new_is_valid(pattern, at, *first) {
            return false;
        }
        rest = tail;
    }
    true
}

/// Returns whether the types, variables, constants and constraints are well-formed.
fn preceding_is_valid(pattern: &Pattern) -> bool
    ensures { result ≡ well.preceding_is_valid (pattern_model pattern.now) }
{
    types_are_valid(pattern, &pattern.value_types)
        && are_types(pattern, &pattern.values)
        && are_variables(pattern, &pattern.constants)
        && extras_are_valid(pattern, &pattern.extra)
        && constraints_are_valid(pattern, &pattern.type_constraints)
        && numbers_are_valid(pattern, &pattern.given, old_begins(pattern))
}

/// Returns whether the operations of both sides are well-formed.
fn sides_are_valid(pattern: &Pattern) -> bool
    ensures { result ≡ well.sides_are_valid (pattern_model pattern.now) }
{
    let begins = new_begins(pattern);
    let ends = new_ends(pattern);
    pattern.root as u128 + 1 == begins
        && olds_are_valid(pattern, &pattern.old, begins)
        && news_are_valid(pattern, &pattern.new, ends)
        && is_new(pattern, ends, pattern.result)
}

/// Returns whether each place refers to an earlier value and each type number is one of the pattern's types.
pub fn is_well_formed(pattern: &Pattern) -> bool
    ensures { result ≡ well.is_well_formed (pattern_model pattern.now) }
{
    preceding_is_valid(pattern) && sides_are_valid(pattern)
}
