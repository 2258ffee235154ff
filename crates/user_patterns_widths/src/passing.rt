//! Patterns without `select` on the left and without division or remainder on the right.
ghost use Rattle.std.specs.Prelude.{◌≡◌};
ghost use Rattle.std.specs.List.{list_all};
ghost use Rattle.user_patterns_check.specs.Outcomes.{divides};
ghost use Rattle.user_patterns_data.specs.Shapes.{pattern_model};
ghost use Rattle.user_patterns_widths.specs.Passing as passing;

use dialects_int::operations::Arithmetic;
use user_patterns_data::pattern::{Expression, NewValue, Pattern, PatternOp};

/// Returns whether the operation is a division or a remainder.
fn divides(operation: Arithmetic) -> bool
    ensures { result ≡ divides operation }
{
    matches!(
        operation,
        Arithmetic::DivideSigned
            | Arithmetic::DivideUnsigned
            | Arithmetic::RemainderSigned
            | Arithmetic::RemainderUnsigned
    )
}

/// Returns whether a poison operand makes the result of the matched operation poison.
fn pattern_op_passes(pattern_op: &PatternOp) -> bool
    ensures { result ≡ passing.pattern_op_passes pattern_op.now }
{
    match pattern_op.form {
        Expression::Binary(_, _, _) => true,
        Expression::Compare(_, _, _) => true,
        Expression::Select(_, _, _) => false,
        Expression::IntegerCast(_, _) => true,
        Expression::IndexCast(_, _) => true,
    }
}

/// Returns whether the new value is defined for all operands.
fn new_is_defined(new: &NewValue) -> bool
    ensures { result ≡ passing.new_is_defined new.now }
{
    match new {
        NewValue::Operation(pattern_op) => match pattern_op.form {
            Expression::Binary(operation, _, _) => !divides(operation),
            Expression::Compare(_, _, _) => true,
            Expression::Select(_, _, _) => true,
            Expression::IntegerCast(_, _) => true,
            Expression::IndexCast(_, _) => true,
        },
        NewValue::Constant(_, _) => true,
    }
}

/// Returns whether a poison operand makes the result of each matched operation poison.
fn all_pass(old: &[PatternOp]) -> bool
    ensures { result ≡ list_all passing.pattern_op_passes old.now }
{
    old.iter().all(|pattern_op| pattern_op_passes(pattern_op))
}

/// Returns whether all new values are defined for all operands.
fn all_defined(new: &[NewValue]) -> bool
    ensures { result ≡ list_all passing.new_is_defined new.now }
{
    new.iter().all(|new| new_is_defined(new))
}

/// Returns whether the pattern matches no `select` and creates no division or remainder.
pub fn is_passing(pattern: &Pattern) -> bool
    ensures { result ≡ passing.is_passing (pattern_model pattern.now) }
{
    all_pass(&pattern.old) && all_defined(&pattern.new)
}
