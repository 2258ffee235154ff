//! Patterns that compute bit by bit.
ghost use Rattle.std.specs.Prelude.{◌≡◌};
ghost use Rattle.std.specs.List.{list_all};
ghost use Rattle.user_patterns_data.specs.Shapes.{pattern_model};
ghost use Rattle.user_patterns_widths.specs.AllWidths as for_all_widths;

use crate::types::has_one_type;
use dialects_int::operations::Arithmetic;
use user_patterns_data::pattern::{
    ConstantExpression, Expression, ExtraConstant, Literal, NewValue, Pattern, PatternOp,
};

/// Returns whether each bit of the result depends only on the same bit of the operands.
pub(crate) fn is_bitwise(operation: Arithmetic) -> bool
    ensures { result ≡ for_all_widths.is_bitwise operation }
{
    matches!(
        operation,
        Arithmetic::And | Arithmetic::Or | Arithmetic::ExclusiveOr
    )
}

/// Returns whether all bits of the literal are equal.
fn is_uniform(literal: &Literal) -> bool
    ensures { result ≡ for_all_widths.is_uniform literal.now }
{
    if literal.negative {
        literal.magnitude == 1
    } else {
        literal.magnitude == 0
    }
}

/// Returns whether the extra constant is a literal with equal bits, or a second use of another constant.
fn extra_is_bitwise(extra: &ExtraConstant) -> bool
    ensures { result ≡ for_all_widths.extra_is_bitwise extra.now }
{
    match extra {
        ExtraConstant::Literal(literal) => is_uniform(literal),
        ExtraConstant::SameAs(_) => true,
    }
}

/// Returns whether each bit of the number depends only on the same bit of the numbers from which it is computed.
fn number_is_bitwise(number: &ConstantExpression) -> bool
    ensures { result ≡ for_all_widths.number_is_bitwise number.now }
{
    match number {
        ConstantExpression::Literal(literal) => is_uniform(literal),
        ConstantExpression::Binary(operation, _, _) => is_bitwise(*operation),
        ConstantExpression::Width(_) => false,
        ConstantExpression::Compare(_, _, _) => false,
        ConstantExpression::Log2(_) => false,
        ConstantExpression::Require(_) => false,
    }
}

/// Returns whether the matched operation computes bit by bit.
fn pattern_op_is_bitwise(pattern_op: &PatternOp) -> bool
    ensures { result ≡ for_all_widths.pattern_op_is_bitwise pattern_op.now }
{
    match pattern_op.form {
        Expression::Binary(operation, _, _) => is_bitwise(operation),
        Expression::Compare(_, _, _) => false,
        Expression::Select(_, _, _) => false,
        Expression::IntegerCast(_, _) => false,
        Expression::IndexCast(_, _) => false,
    }
}

/// Returns whether the new value is computed bit by bit.
fn new_is_bitwise(new: &NewValue) -> bool
    ensures { result ≡ for_all_widths.new_is_bitwise new.now }
{
    match new {
        NewValue::Operation(pattern_op) => pattern_op_is_bitwise(pattern_op),
        NewValue::Constant(_, _) => true,
    }
}

/// Returns whether all extra constants have equal bits.
fn all_extra(extra: &[ExtraConstant]) -> bool
    ensures { result ≡ list_all for_all_widths.extra_is_bitwise extra.now }
{
    extra.iter().all(extra_is_bitwise)
}

/// Returns whether all numbers are computed bit by bit.
fn all_numbers(numbers: &[ConstantExpression]) -> bool
    ensures { result ≡ list_all for_all_widths.number_is_bitwise numbers.now }
{
    numbers.iter().all(number_is_bitwise)
}

/// Returns whether all matched operations compute bit by bit.
fn all_old(old: &[PatternOp]) -> bool
    ensures { result ≡ list_all for_all_widths.pattern_op_is_bitwise old.now }
{
    old.iter().all(pattern_op_is_bitwise)
}

/// Returns whether all new values are computed bit by bit.
fn all_new(new: &[NewValue]) -> bool
    ensures { result ≡ list_all for_all_widths.new_is_bitwise new.now }
{
    new.iter().all(new_is_bitwise)
}

/// Returns whether each bit of both results depends only on the same bit of the variables.
pub(crate) fn is_bit_by_bit(pattern: &Pattern) -> bool
    ensures { result ≡ for_all_widths.is_bit_by_bit (pattern_model pattern.now) }
{
    has_one_type(pattern)
        && pattern.type_constraints.is_empty()
        && all_extra(&pattern.extra)
        && all_numbers(&pattern.given)
        && all_old(&pattern.old)
        && all_new(&pattern.new)
}
