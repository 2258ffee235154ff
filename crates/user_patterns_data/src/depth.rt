//! Whether a pattern matches at most two levels of defining operations above its root.
ghost use Rattle.std.specs.Prelude.{◌≡◌, ◌<◌, ◌+◌, ◌^◌, length};
ghost use Rattle.std.specs.List.{list_all};
ghost use Rattle.user_patterns_data.specs.Planning.{new_place, old_place};
ghost use Rattle.user_patterns_data.specs.Shapes.{pattern_model};
ghost use Rattle.user_patterns_data.specs.Depth.{all_near_from, are_near, is_inner, is_near, is_shallow, is_shallow_by, is_shallow_from, takes, takes_below};

use crate::pattern::{Expression, Pattern, PatternOp};

/// Returns whether `place` is an operand of the pattern op.
fn takes(place: u128, pattern_op: &PatternOp) -> bool
    ensures { result ≡ takes place pattern_op.now }
{
    match pattern_op.form {
        Expression::Binary(_, i, j) => i as u128 == place || j as u128 == place,
        Expression::Compare(_, i, j) => i as u128 == place || j as u128 == place,
        Expression::Select(c, i, j) => {
            c as u128 == place || (i as u128 == place || j as u128 == place)
        }
        Expression::IntegerCast(_, i) => i as u128 == place,
        Expression::IndexCast(_, i) => i as u128 == place,
    }
}

/// Returns whether all operands of the pattern op have places below `place`.
fn takes_below(place: u128, pattern_op: &PatternOp) -> bool
    ensures { result ≡ takes_below place pattern_op.now }
{
    match pattern_op.form {
        Expression::Binary(_, i, j) => (i as u128) < place && (j as u128) < place,
        Expression::Compare(_, i, j) => (i as u128) < place && (j as u128) < place,
        Expression::Select(c, i, j) => {
            (c as u128) < place && ((i as u128) < place && (j as u128) < place)
        }
        Expression::IntegerCast(_, i) => (i as u128) < place,
        Expression::IndexCast(_, i) => (i as u128) < place,
    }
}

/// Returns whether `place` is an operand of a pattern op that is an operand of the root. `pieces` have the places from
/// `from` on.
fn is_inner(root: &PatternOp, place: u128, from: u128, pattern_ops: &[PatternOp]) -> bool
    requires { from + length pattern_ops.now < 2 ^ 127 }
    ensures { result ≡ is_inner root.now place from pattern_ops.now }
{
    let mut at = from;
    let mut rest = pattern_ops;
    'pattern_ops: while let [pattern_op, tail @ ..] = rest {
        if takes(at, root) && takes(place, pattern_op) {
            return true;
        }
        at += 1;
        rest = tail;
    }
    false
}

/// Returns whether `place` is the root, an operand of the root, or an operand of the pattern op of such an operand.
/// `pieces` have the places from `from` on.
fn is_near(
    root_place: u128,
    root: &PatternOp,
    place: u128,
    from: u128,
    pattern_ops: &[PatternOp],
) -> bool
    requires { from + length pattern_ops.now < 2 ^ 127 }
    ensures { result ≡ is_near root_place root.now place from pattern_ops.now }
{
    root_place == place || (takes(place, root) || is_inner(root, place, from, pattern_ops))
}

/// Returns whether the last pattern op is the root and each other one is near the pattern ops after it.
fn are_near(root_place: u128, root: &PatternOp, from: u128, pattern_ops: &[PatternOp]) -> bool
    requires { from + length pattern_ops.now < 2 ^ 127 }
    ensures { result ≡ are_near root_place root.now from pattern_ops.now }
{
    let mut at = from;
    let mut rest = pattern_ops;
    'pattern_ops: while let [_, tail @ ..] = rest {
        if tail.is_empty() {
            return root_place == at;
        }
        if !is_near(root_place, root, at, at + 1, tail) {
            return false;
        }
        at += 1;
        rest = tail;
    }
    false
}

/// Returns whether each of these places is near the root.
fn all_near(root: &PatternOp, from: u128, pattern: &Pattern, places: &[usize]) -> bool
    requires { from + length (pattern_model pattern.now).old < 2 ^ 127 }
    ensures { result ≡ list_all
        (λ k. is_near pattern.now.root root.now k from (pattern_model pattern.now).old) places.now }
{
    let mut rest = places;
    'places: while let [place, tail @ ..] = rest {
        if !is_near(
            pattern.root as u128,
            root,
            *place as u128,
            from,
            &pattern.old,
        ) {
            return false;
        }
        rest = tail;
    }
    true
}

/// Returns whether the places of the extra constants are near the root.
fn extra_near(root: &PatternOp, from: u128, pattern: &Pattern) -> bool
    requires { from + length (pattern_model pattern.now).old < 2 ^ 127 }
    ensures { result ≡ all_near_from
        (λ k. is_near pattern.now.root root.now k from (pattern_model pattern.now).old)
        (length (pattern_model pattern.now).values) (pattern_model pattern.now).extra }
{
    let mut place = pattern.values.len() as u128;
    let mut rest = pattern.extra.as_slice();
    'extra: while let [_, tail @ ..] = rest {
        if !is_near(pattern.root as u128, root, place, from, &pattern.old) {
            return false;
        }
        place += 1;
        rest = tail;
    }
    true
}

/// Returns whether the operands of all pattern ops have places below `place`.
fn all_below(place: u128, pattern_ops: &[PatternOp]) -> bool
    ensures { result ≡ list_all (takes_below place) pattern_ops.now }
{
    let mut rest = pattern_ops;
    'pattern_ops: while let [pattern_op, tail @ ..] = rest {
        if !takes_below(place, pattern_op) {
            return false;
        }
        rest = tail;
    }
    true
}

/// Returns the place of the first pattern op on the left.
fn old_begins(pattern: &Pattern) -> u128
    ensures place { result ≡ old_place (pattern_model pattern.now) }
    ensures bound { result < 2 ^ 100 }
{
    pattern.values.len() as u128 + pattern.extra.len() as u128 + pattern.given.len() as u128
}

/// Returns whether a pattern with this root is shallow.
fn is_shallow_from(root: &PatternOp, pattern: &Pattern) -> bool
    ensures { result ≡ is_shallow_from root.now (pattern_model pattern.now) }
{
    let from = old_begins(pattern);
    are_near(pattern.root as u128, root, from, &pattern.old)
        && (all_near(root, from, pattern, &pattern.constants)
            && (extra_near(root, from, pattern)
                && all_below(from + pattern.old.len() as u128, &pattern.old)))
}

/// Returns whether a pattern is shallow, given the last of its pattern ops on the left.
fn is_shallow_by(pattern_ops: &[PatternOp], pattern: &Pattern) -> bool
    ensures { result ≡ is_shallow_by pattern_ops.now (pattern_model pattern.now) }
{
    let mut rest = pattern_ops;
    'pattern_ops: while let [pattern_op, tail @ ..] = rest {
        if tail.is_empty() {
            return is_shallow_from(pattern_op, pattern);
        }
        rest = tail;
    }
    false
}

/// Returns whether the pattern matches only its root, the defining operations of the root's operands, and the defining
/// operations of their operands. Constants count as operations.
pub fn is_shallow(pattern: &Pattern) -> bool
    ensures { result ≡ is_shallow (pattern_model pattern.now) }
{
    is_shallow_by(&pattern.old, pattern)
}
