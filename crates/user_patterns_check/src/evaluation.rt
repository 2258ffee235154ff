//! Evaluates one step.
ghost use Rattle.std.specs.Prelude.{◌≡◌, ◌^◌, ◌<◌, IfSome, Some, map, slice_get};
ghost use Rattle.std.specs.Option.{option_map};
ghost use Rattle.ir_types.specs.Bits.{width_of};
ghost use Rattle.ir_types.specs.Reasons.{is_width};
ghost use Rattle.dialects_int.specs.Folds.{known_of};
ghost use Rattle.dialects_int.specs.Folds as folds;
ghost use Rattle.user_patterns_check.specs.Outcomes.{constant_outcome, divides, is_signed_remainder, no_value, without_value, known_pair, pair_outcome, compare_outcome, select_outcome, resize_outcome, log_outcome, log_of, required, step_of};

use crate::step::Step;
use dialects_int::arithmetic::{compare, compute, resize};
use dialects_int::operations::{Arithmetic, Cast, Predicate};
use ir_types::bits::{Bits, BitsKind, width};

/// Returns whether an operation without a value is undefined rather than poison.
fn divides(operation: Arithmetic) -> bool
    ensures { result ≡ divides operation }
{
    match operation {
        Arithmetic::DivideSigned
        | Arithmetic::DivideUnsigned
        | Arithmetic::RemainderSigned
        | Arithmetic::RemainderUnsigned => true,
        Arithmetic::Add
        | Arithmetic::Subtract
        | Arithmetic::Multiply
        | Arithmetic::ShiftLeft
        | Arithmetic::And
        | Arithmetic::Or
        | Arithmetic::ExclusiveOr
        | Arithmetic::ShiftRightSigned
        | Arithmetic::ShiftRightUnsigned
        | Arithmetic::MaximumSigned
        | Arithmetic::MaximumUnsigned
        | Arithmetic::MinimumSigned
        | Arithmetic::MinimumUnsigned => false,
    }
}

/// Returns whether two kinds are equal.
pub(crate) fn same_kind(a: BitsKind, b: BitsKind) -> bool
    ensures { result ≡ folds.same_kind a b }
{
    match (a, b) {
        (BitsKind::Int(v), BitsKind::Int(w)) => v == w,
        (BitsKind::Index, BitsKind::Index) => true,
        (BitsKind::Int(_), BitsKind::Index) => false,
        (BitsKind::Index, BitsKind::Int(_)) => false,
    }
}

/// Returns the outcome of an operation without a value: undefined for a division or remainder, poison otherwise.
fn no_value(operation: Arithmetic) -> Option<Option<Bits>>
    ensures { option_map known_of result ≡ no_value operation }
{
    if divides(operation) { None } else { Some(None) }
}

/// Returns whether the operation is the signed remainder.
fn is_signed_remainder(operation: Arithmetic) -> bool
    ensures { result ≡ is_signed_remainder operation }
{
    matches!(operation, Arithmetic::RemainderSigned)
}

/// Returns the outcome of an operation on `x` and `divisor` that has no value.
fn without_value(operation: Arithmetic, x: &Bits, divisor: u128) -> Option<Option<Bits>>
    ensures { option_map known_of result ≡ without_value operation x.now.kind divisor }
{
    if is_signed_remainder(operation) && divisor != 0 {
        return Some(Some(Bits {
            kind: x.kind,
            value: 0,
        }));
    }
    no_value(operation)
}

/// Returns the outcome of a binary operation.
fn pair(operation: Arithmetic, x: &Option<Bits>, y: &Option<Bits>) -> Option<Option<Bits>>
    ensures { option_map known_of result ≡ pair_outcome operation (known_of x.now) (known_of y.now) }
{
    match (x, y) {
        (Some(x), Some(y)) => both(operation, x, y),
        (Some(_), None) => no_value(operation),
        (None, Some(y)) => {
            if divides(operation) && y.value == 0 {
                return None;
            }
            Some(None)
        }
        (None, None) => no_value(operation),
    }
}

/// Returns the outcome of a binary operation on two numbers.
fn both(operation: Arithmetic, x: &Bits, y: &Bits) -> Option<Option<Bits>>
    ensures { option_map known_of result ≡ known_pair operation (x.now.kind, x.now.value) (y.now.kind, y.now.value) }
{
    if !same_kind(x.kind, y.kind) {
        return None;
    }
    match compute(operation, width(x.kind), x.value, y.value) {
        Some(value) => Some(Some(Bits {
            kind: x.kind,
            value,
        })),
        None => without_value(operation, x, y.value),
    }
}

/// Returns the outcome of a comparison.
fn comparison(predicate: Predicate, x: &Option<Bits>, y: &Option<Bits>) -> Option<Option<Bits>>
    ensures { option_map known_of result ≡ compare_outcome predicate (known_of x.now) (known_of y.now) }
{
    let Some(x) = x else {
        return Some(None);
    };
    let Some(y) = y else {
        return Some(None);
    };
    if !same_kind(x.kind, y.kind) {
        return None;
    }
    let value = compare(predicate, width(x.kind), x.value, y.value) as u128;
    Some(Some(Bits {
        kind: BitsKind::Int(1),
        value,
    }))
}

/// Returns the outcome of `select`.
fn selection(condition: &Option<Bits>, x: &Option<Bits>, y: &Option<Bits>) -> Option<Option<Bits>>
    ensures { option_map known_of result ≡ select_outcome (known_of condition.now) (known_of x.now) (known_of y.now) }
{
    let Some(condition) = condition else {
        return Some(None);
    };
    if !same_kind(condition.kind, BitsKind::Int(1)) {
        return None;
    }
    if condition.value == 0 {
        Some(*y)
    } else {
        Some(*x)
    }
}

/// Returns whether the kind has values.
fn is_width(kind: BitsKind) -> bool
    ensures { result ≡ is_width (width_of kind) }
{
    let width = width(kind);
    1 <= width && width <= 128
}

/// Returns the outcome of a cast to `kind`.
fn resized(cast: Cast, kind: BitsKind, x: &Option<Bits>) -> Option<Option<Bits>>
    ensures { option_map known_of result ≡ resize_outcome cast kind (known_of x.now) }
{
    if !is_width(kind) {
        return None;
    }
    let Some(x) = x else {
        return Some(None);
    };
    match resize(cast, width(x.kind), width(kind), x.value) {
        Some(value) => Some(Some(Bits { kind, value })),
        None => None,
    }
}

/// 2^k.
pub(crate) fn power(k: u32) -> u128
    requires { k < 128 }
    ensures { result ≡ 2 ^ k }
{
    1u128 << k
}

/// Returns the k for which 2^k is the value, or `None` if the value isn't a power of two.
#[tactic(auto, unfolding(crate::specs::Outcomes::log_of))]
fn log(bits: &Bits) -> Option<u128>
    ensures value { result ≡ log_of (width_of bits.now.kind) bits.now.value }
    ensures below { IfSome result (λ k. k < 2 ^ width_of bits.now.kind) }
{
    let width = width(bits.kind);
    let mut k: u32 = 0;
    'powers: while k < width {
        if bits.value == power(k) {
            return Some(k as u128);
        }
        k += 1;
    }
    None
}

/// Returns the logarithm of a power of two. The outcome is undefined if the value isn't a power of two.
fn logarithm(x: &Option<Bits>) -> Option<Option<Bits>>
    ensures { option_map known_of result ≡ log_outcome (known_of x.now) }
{
    let Some(x) = x else {
        return None;
    };
    match log(x) {
        Some(value) => Some(Some(Bits {
            kind: x.kind,
            value,
        })),
        None => None,
    }
}

/// Returns the outcome of a condition, which is undefined if the condition is false or poison.
fn requirement(x: &Option<Bits>) -> Option<Option<Bits>>
    ensures { option_map known_of result ≡ required (known_of x.now) }
{
    let Some(x) = x else {
        return None;
    };
    if x.value == 0 {
        return None;
    }
    Some(Some(*x))
}

/// Returns a number of that kind. The outcome is undefined if the number is out of range.
fn constant(kind: BitsKind, value: u128) -> Option<Option<Bits>>
    ensures { option_map known_of result ≡ constant_outcome kind value }
{
    match Bits::new(kind, value) {
        Some(bits) => Some(Some(bits)),
        None => None,
    }
}

/// Returns the entry of `env` at `place`, or `None` if `place` is out of bounds.
pub(crate) fn value_at(env: &[Option<Bits>], place: usize) -> Option<Option<Bits>>
    ensures { option_map known_of result ≡ slice_get (map known_of env.now) place }
{
    if place < env.len() {
        Some(env[place])
    } else {
        None
    }
}

/// Returns the outcome of a step, or `None` if the step is undefined.
pub fn step(step: &Step, env: &[Option<Bits>]) -> Option<Option<Bits>>
    ensures { option_map known_of result ≡ step_of step.now (map known_of env.now) }
{
    match step {
        Step::Constant(kind, value) => constant(*kind, *value),
        Step::Binary(operation, i, j) => {
            let x = value_at(env, *i)?;
            let y = value_at(env, *j)?;
            pair(*operation, &x, &y)
        }
        Step::Compare(predicate, i, j) => {
            let x = value_at(env, *i)?;
            let y = value_at(env, *j)?;
            comparison(*predicate, &x, &y)
        }
        Step::Select(c, i, j) => {
            let condition = value_at(env, *c)?;
            let x = value_at(env, *i)?;
            let y = value_at(env, *j)?;
            selection(&condition, &x, &y)
        }
        Step::IntegerCast(cast, kind, i) => {
            let x = value_at(env, *i)?;
            resized(*cast, *kind, &x)
        }
        Step::Log2(i) => {
            let x = value_at(env, *i)?;
            logarithm(&x)
        }
        Step::Require(i) => {
            let x = value_at(env, *i)?;
            requirement(&x)
        }
    }
}
