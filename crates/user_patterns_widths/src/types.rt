//! Patterns with a single type.
ghost use Rattle.std.specs.Prelude.{◌≡◌, ◌==◌, slice_get};
ghost use Rattle.std.specs.List.{list_all};
ghost use Rattle.user_patterns_data.specs.Shapes.{pattern_model};
ghost use Rattle.user_patterns_widths.specs.AllWidths as for_all_widths;

use user_patterns_data::pattern::{
    ConstantExpression, ExtraConstant, NewValue, Pattern, PatternOp, PatternType,
};

/// Returns whether the extra constant has the type. A second use of a constant has the type of its first.
fn extra_has(ty: usize, extra: &ExtraConstant) -> bool
    ensures { result ≡ for_all_widths.extra_has ty extra.now }
{
    match extra {
        ExtraConstant::Literal(literal) => literal.ty == ty,
        ExtraConstant::SameAs(_) => true,
    }
}

/// Returns whether the number has the type. A number without a type counts as having it.
fn number_has(ty: usize, number: &ConstantExpression) -> bool
    ensures { result ≡ for_all_widths.number_has ty number.now }
{
    match number {
        ConstantExpression::Literal(literal) => literal.ty == ty,
        ConstantExpression::Width(of) => *of == ty,
        ConstantExpression::Binary(_, _, _) => true,
        ConstantExpression::Compare(_, _, _) => true,
        ConstantExpression::Log2(_) => true,
        ConstantExpression::Require(_) => true,
    }
}

/// Returns whether the new value has the type.
fn new_has(ty: usize, new: &NewValue) -> bool
    ensures { result ≡ for_all_widths.new_has ty new.now }
{
    match new {
        NewValue::Operation(pattern_op) => pattern_op.ty == ty,
        NewValue::Constant(_, of) => *of == ty,
    }
}

/// Returns whether all variables have the type.
fn all_values(ty: usize, values: &[usize]) -> bool
    ensures { result ≡ list_all (λ v. v == ty) values.now }
{
    values.iter().all(|value| *value == ty)
}

/// Returns whether all extra constants have the type.
fn all_extra(ty: usize, extra: &[ExtraConstant]) -> bool
    ensures { result ≡ list_all (for_all_widths.extra_has ty) extra.now }
{
    extra.iter().all(|extra| extra_has(ty, extra))
}

/// Returns whether all computed numbers have the type.
fn all_numbers(ty: usize, numbers: &[ConstantExpression]) -> bool
    ensures { result ≡ list_all (for_all_widths.number_has ty) numbers.now }
{
    numbers.iter().all(|number| number_has(ty, number))
}

/// Returns whether all matched operations have the type.
fn all_old(ty: usize, old: &[PatternOp]) -> bool
    ensures { result ≡ list_all (for_all_widths.pattern_op_has ty) old.now }
{
    old.iter().all(|pattern_op| pattern_op.ty == ty)
}

/// Returns whether all new values have the type.
fn all_new(ty: usize, new: &[NewValue]) -> bool
    ensures { result ≡ list_all (for_all_widths.new_has ty) new.now }
{
    new.iter().all(|new| new_has(ty, new))
}

/// Returns whether all values of the pattern have the type.
fn has_type(ty: usize, pattern: &Pattern) -> bool
    ensures { result ≡ for_all_widths.has_type ty (pattern_model pattern.now) }
{
    all_values(ty, &pattern.values)
        && all_extra(ty, &pattern.extra)
        && all_numbers(ty, &pattern.given)
        && all_old(ty, &pattern.old)
        && all_new(ty, &pattern.new)
}

/// Returns whether the type number is that of a type variable.
fn is_variable(pattern: &Pattern, ty: usize) -> bool
    ensures { result ≡ for_all_widths.is_variable (pattern_model pattern.now) (slice_get pattern.now.value_types.items ty) }
{
    if ty >= pattern.value_types.len() {
        return false;
    }
    match pattern.value_types[ty] {
        PatternType::Variable(variable) => variable < pattern.types,
        PatternType::Concrete(_) => false,
    }
}

/// Returns whether all values of the pattern have one type, which is a type variable.
pub(crate) fn has_one_type(pattern: &Pattern) -> bool
    ensures { result ≡ for_all_widths.has_one_type (pattern_model pattern.now) }
{
    let [first, ..] = pattern.old.as_slice() else {
        return false;
    };
    is_variable(pattern, first.ty) && has_type(first.ty, pattern)
}
