//! Decides whether the new operations of a pattern can be built before its root and replace the root.
ghost use Rattle.std.specs.Prelude.{◌≡◌, slice_get};
ghost use Rattle.std.specs.List.{list_all};
ghost use Rattle.user_patterns_data.specs.Planning.{old_place};
ghost use Rattle.user_patterns_data.specs.Shapes.{pattern_model};
ghost use Rattle.user_patterns_build.specs.CanBuild as buildable;

use dialects_int::operations::Cast;
use user_patterns_data::pattern::{Expression, NewValue, Pattern};

/// Returns the place of the first matched operation.
fn old_begins(pattern: &Pattern) -> u128
    ensures { result ≡ old_place (pattern_model pattern.now) }
{
    pattern.values.len() as u128 + pattern.extra.len() as u128 + pattern.given.len() as u128
}

fn has_name(form: &Expression) -> bool
    ensures { result ≡ buildable.has_name form.now }
{
    match form {
        Expression::IndexCast(cast, _) => !matches!(cast, Cast::Truncate),
        _ => true,
    }
}

fn is_named(new: &NewValue) -> bool
    ensures { result ≡ buildable.is_named new.now }
{
    match new {
        NewValue::Operation(pattern_op) => has_name(&pattern_op.form),
        NewValue::Constant(_, _) => true,
    }
}

/// Returns whether `place` isn't an operand of the new value.
fn spares(place: usize, new: &NewValue) -> bool
    ensures { result ≡ buildable.spares place new.now }
{
    let NewValue::Operation(pattern_op) = new else {
        return true;
    };
    match pattern_op.form {
        Expression::Binary(_, i, j) => i != place && j != place,
        Expression::Compare(_, i, j) => i != place && j != place,
        Expression::Select(c, i, j) => c != place && (i != place && j != place),
        Expression::IntegerCast(_, i) => i != place,
        Expression::IndexCast(_, i) => i != place,
    }
}

fn new_type(new: &NewValue) -> usize
    ensures { result ≡ buildable.new_type new.now }
{
    match new {
        NewValue::Operation(pattern_op) => pattern_op.ty,
        NewValue::Constant(_, ty) => *ty,
    }
}

/// Returns whether all new operations have names.
fn all_named(new: &[NewValue]) -> bool
    ensures { result ≡ list_all buildable.is_named new.now }
{
    let mut rest = new;
    'new: while let [first, tail @ ..] = rest {
        if !is_named(first) {
            return false;
        }
        rest = tail;
    }
    true
}

/// Returns whether `place` isn't an operand of any new value.
fn all_spare(place: usize, new: &[NewValue]) -> bool
    ensures { result ≡ list_all (buildable.spares place) new.now }
{
    let mut rest = new;
    'new: while let [first, tail @ ..] = rest {
        if !spares(place, first) {
            return false;
        }
        rest = tail;
    }
    true
}

/// Returns the type number of the last new value.
fn last_type(new: &[NewValue]) -> Option<usize>
    ensures { result ≡ buildable.last_type new.now }
{
    let mut last = None;
    let mut rest = new;
    'new: while let [first, tail @ ..] = rest {
        last = Some(new_type(first));
        rest = tail;
    }
    last
}

/// Returns the type number of the pattern's result: the last new value, or a variable if there are no new values.
fn result_type(pattern: &Pattern) -> Option<usize>
    ensures { result ≡ buildable.result_type (pattern_model pattern.now) }
{
    if pattern.new.is_empty() {
        return value_type(&pattern.values, pattern.result);
    }
    let ends = old_begins(pattern) + pattern.old.len() as u128 + pattern.new.len() as u128;
    if pattern.result as u128 + 1 == ends {
        last_type(&pattern.new)
    } else {
        None
    }
}

fn value_type(values: &[usize], place: usize) -> Option<usize>
    ensures { result ≡ slice_get values.now place }
{
    if place < values.len() {
        Some(values[place])
    } else {
        None
    }
}

/// Returns the type number of the pattern's root.
fn root_type(pattern: &Pattern) -> Option<usize>
    ensures { result ≡ buildable.root_type (pattern_model pattern.now) }
{
    let begins = old_begins(pattern);
    let place = pattern.root as u128;
    if place < begins || place - begins >= pattern.old.len() as u128 {
        return None;
    }
    Some(pattern.old[(place - begins) as usize].ty)
}

/// Returns whether both numbers exist and are equal.
fn same_number(a: Option<usize>, b: Option<usize>) -> bool
    ensures { result ≡ buildable.same_number a b }
{
    let Some(a) = a else {
        return false;
    };
    let Some(b) = b else {
        return false;
    };
    a == b
}

/// Returns whether the pattern can be built: all its new operations have names, none of them uses the root's result,
/// and the pattern's result has the root's type.
pub fn can_build(pattern: &Pattern) -> bool
    ensures { result ≡ buildable.can_build (pattern_model pattern.now) }
{
    all_named(&pattern.new)
        && all_spare(pattern.root, &pattern.new)
        && same_number(result_type(pattern), root_type(pattern))
}
