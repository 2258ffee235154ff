//! Whether a pattern may be applied at given widths, and the steps that compute its values.
ghost use Rattle.std.specs.Prelude.{◌≡◌, ◌^◌, ◌%◌, map};
ghost use Rattle.std.specs.List.{list_all};
ghost use Rattle.ir_types.specs.Bits.{width_of};
ghost use Rattle.user_patterns_data.specs.Fitting as fitting;
ghost use Rattle.user_patterns_data.specs.Shapes.{pattern_model};

use crate::literals::{bits_with, kind_at};
use crate::pattern::{
    ConstantExpression, Expression, ExtraConstant, Literal, NewValue, Pattern, PatternOp,
    TypeConstraint,
};
use dialects_int::operations::Arithmetic;
use ir_types::bits::{BitsKind, width};
use user_patterns_check::step::Step;

fn is_integer(kind: BitsKind) -> bool
    ensures { result ≡ fitting.is_integer kind }
{
    match kind {
        BitsKind::Int(_) => true,
        BitsKind::Index => false,
    }
}

/// Returns whether the widths satisfy the constraint.
fn is_requested(value_types: &[BitsKind], type_constraints: &TypeConstraint) -> bool
    ensures { result ≡ fitting.is_requested value_types.now type_constraints.now }
{
    match type_constraints {
        TypeConstraint::Narrower(narrow, wide) => {
            let narrow = kind_at(value_types, *narrow);
            let wide = kind_at(value_types, *wide);
            is_integer(narrow) && is_integer(wide) && width(narrow) < width(wide)
        }
        TypeConstraint::Integer(ty) => is_integer(kind_at(value_types, *ty)),
    }
}

fn all_requested(value_types: &[BitsKind], type_constraints: &[TypeConstraint]) -> bool
    ensures { result ≡ list_all (fitting.is_requested value_types.now) type_constraints.now }
{
    let mut rest = type_constraints;
    'type_constraints: while let [first, tail @ ..] = rest {
        if !is_requested(value_types, first) {
            return false;
        }
        rest = tail;
    }
    true
}

fn extra_fits(value_types: &[BitsKind], extra: &ExtraConstant) -> bool
    ensures { result ≡ fitting.extra_fits value_types.now extra.now }
{
    match extra {
        ExtraConstant::Literal(literal) => bits_with(value_types, literal).is_some(),
        ExtraConstant::SameAs(_) => true,
    }
}

fn all_extra(value_types: &[BitsKind], extra: &[ExtraConstant]) -> bool
    ensures { result ≡ list_all (fitting.extra_fits value_types.now) extra.now }
{
    let mut rest = extra;
    'extra: while let [first, tail @ ..] = rest {
        if !extra_fits(value_types, first) {
            return false;
        }
        rest = tail;
    }
    true
}

fn number_fits(value_types: &[BitsKind], number: &ConstantExpression) -> bool
    ensures { result ≡ fitting.number_fits value_types.now number.now }
{
    match number {
        ConstantExpression::Literal(literal) => bits_with(value_types, literal).is_some(),
        ConstantExpression::Width(_) => true,
        ConstantExpression::Binary(_, _, _) => true,
        ConstantExpression::Compare(_, _, _) => true,
        ConstantExpression::Log2(_) => true,
        ConstantExpression::Require(_) => true,
    }
}

fn all_numbers(value_types: &[BitsKind], numbers: &[ConstantExpression]) -> bool
    ensures { result ≡ list_all (fitting.number_fits value_types.now) numbers.now }
{
    let mut rest = numbers;
    'numbers: while let [first, tail @ ..] = rest {
        if !number_fits(value_types, first) {
            return false;
        }
        rest = tail;
    }
    true
}

/// Returns whether the pattern may be applied at types of these kinds.
pub fn is_applicable(value_types: &[BitsKind], pattern: &Pattern) -> bool
    ensures { result ≡ fitting.fits value_types.now (pattern_model pattern.now) }
{
    all_requested(value_types, &pattern.type_constraints)
        && all_extra(value_types, &pattern.extra)
        && all_numbers(value_types, &pattern.given)
}

fn written_step(value_types: &[BitsKind], literal: &Literal) -> Step
    ensures { result ≡ fitting.written_step value_types.now literal.now }
{
    let kind = kind_at(value_types, literal.ty);
    match bits_with(value_types, literal) {
        Some(bits) => Step::Constant(kind, bits),
        None => Step::Constant(kind, 0),
    }
}

fn again_step(place: usize) -> Step
    ensures { result ≡ fitting.again_step place }
{
    Step::Binary(Arithmetic::And, place, place)
}

pub(crate) fn extra_step(value_types: &[BitsKind], extra: &ExtraConstant) -> Step
    ensures { result ≡ fitting.extra_step value_types.now extra.now }
{
    match extra {
        ExtraConstant::Literal(literal) => written_step(value_types, literal),
        ExtraConstant::SameAs(place) => again_step(*place),
    }
}

/// Returns the step that computes the width of a kind, as a number of that kind.
#[tactic(auto, using(crate::proofs::Widths::width_as_value))]
fn width_step(kind: BitsKind) -> Step
    ensures { result ≡ fitting.width_step kind }
{
    Step::Constant(kind, width(kind) as u128)
}

pub(crate) fn number_step(value_types: &[BitsKind], number: &ConstantExpression) -> Step
    ensures { result ≡ fitting.number_step value_types.now number.now }
{
    match number {
        ConstantExpression::Literal(literal) => written_step(value_types, literal),
        ConstantExpression::Width(ty) => width_step(kind_at(value_types, *ty)),
        ConstantExpression::Binary(operation, i, j) => Step::Binary(*operation, *i, *j),
        ConstantExpression::Compare(predicate, i, j) => Step::Compare(*predicate, *i, *j),
        ConstantExpression::Log2(i) => Step::Log2(*i),
        ConstantExpression::Require(i) => Step::Require(*i),
    }
}

pub(crate) fn pattern_op_step(value_types: &[BitsKind], pattern_op: &PatternOp) -> Step
    ensures { result ≡ fitting.pattern_op_step value_types.now pattern_op.now }
{
    match pattern_op.form {
        Expression::Binary(operation, i, j) => Step::Binary(operation, i, j),
        Expression::Compare(predicate, i, j) => Step::Compare(predicate, i, j),
        Expression::Select(condition, i, j) => Step::Select(condition, i, j),
        Expression::IntegerCast(cast, i) => Step::IntegerCast(
            cast,
            kind_at(value_types, pattern_op.ty),
            i,
        ),
        Expression::IndexCast(cast, i) => Step::IntegerCast(
            cast,
            kind_at(value_types, pattern_op.ty),
            i,
        ),
    }
}

pub(crate) fn new_step(value_types: &[BitsKind], new: &NewValue) -> Step
    ensures { result ≡ fitting.new_step value_types.now new.now }
{
    match new {
        NewValue::Operation(pattern_op) => pattern_op_step(value_types, pattern_op),
        NewValue::Constant(place, _) => again_step(*place),
    }
}
