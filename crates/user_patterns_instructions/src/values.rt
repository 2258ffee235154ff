//! The expressions of values.
ghost use Rattle.std.specs.Prelude.{◌≡◌, IfOk};
ghost use Rattle.user_patterns_instructions.specs.Code.{IsMade, IsMadeIf};
ghost use Rattle.user_patterns_instructions.specs.Expressions.{cast_value, chosen, compare_value, is_narrower, literal_form, negated, pair_value, push_expr};

use dialects_int::operations::{Arithmetic, Cast, Predicate};
use std::alloc::AllocError;
use user_patterns_data::pattern::Literal;
use width_claims::form::{Expr, Form};
use width_claims::width::Narrower;

/// Appends an expression, and returns its place.
pub fn push_expr(exprs: &mut Vec<Expr>, ty: usize, form: Form) -> Result<usize, AllocError>
    ensures { IfOk result (IsMade (push_expr exprs.old.items ty form) exprs.new.items) }
{
    let place = exprs.len();
    exprs.push(Expr { form, ty })?;
    Ok(place)
}

/// Appends a truth and its negation.
fn push_negated(exprs: &mut Vec<Expr>, form: Form) -> Result<usize, AllocError>
    ensures { IfOk result (IsMade (negated (push_expr exprs.old.items 0 form)) exprs.new.items) }
{
    let place = push_expr(exprs, 0, form)?;
    push_expr(exprs, 0, Form::ExclusiveOr(place, 1))
}

/// Appends a truth, and the one of two values that it selects.
fn push_chosen(
    exprs: &mut Vec<Expr>,
    form: Form,
    ty: usize,
    i: usize,
    j: usize,
) -> Result<usize, AllocError>
    ensures { IfOk result (IsMade (chosen (push_expr exprs.old.items 0 form) ty i j) exprs.new.items) }
{
    let place = push_expr(exprs, 0, form)?;
    push_expr(exprs, ty, Form::Select(place, i, j))
}

/// Appends a comparison of two values of a type.
pub fn compare_value(
    predicate: &Predicate,
    ty: usize,
    i: usize,
    j: usize,
    exprs: &mut Vec<Expr>,
) -> Result<usize, AllocError>
    ensures { IfOk result (IsMade (compare_value predicate.now ty i j exprs.old.items) exprs.new.items) }
{
    match predicate {
        Predicate::Equal => push_expr(exprs, 0, Form::Same(i, j)),
        Predicate::NotEqual => push_negated(exprs, Form::Same(i, j)),
        Predicate::SignedLess => push_expr(exprs, 0, Form::LessSigned(ty, i, j)),
        Predicate::SignedLessOrEqual => push_negated(exprs, Form::LessSigned(ty, j, i)),
        Predicate::SignedGreater => push_expr(exprs, 0, Form::LessSigned(ty, j, i)),
        Predicate::SignedGreaterOrEqual => push_negated(exprs, Form::LessSigned(ty, i, j)),
        Predicate::UnsignedLess => push_expr(exprs, 0, Form::Less(i, j)),
        Predicate::UnsignedLessOrEqual => push_negated(exprs, Form::Less(j, i)),
        Predicate::UnsignedGreater => push_expr(exprs, 0, Form::Less(j, i)),
        Predicate::UnsignedGreaterOrEqual => push_negated(exprs, Form::Less(i, j)),
    }
}

/// Appends an operation on two values of a type, if claims can express it.
pub fn pair_value(
    operation: &Arithmetic,
    ty: usize,
    i: usize,
    j: usize,
    exprs: &mut Vec<Expr>,
) -> Result<Option<usize>, AllocError>
    ensures { IfOk result (IsMadeIf (pair_value operation.now ty i j exprs.old.items) exprs.new.items) }
{
    let place = match operation {
        Arithmetic::Add => push_expr(exprs, ty, Form::Add(i, j))?,
        Arithmetic::Subtract => push_expr(exprs, ty, Form::Subtract(i, j))?,
        Arithmetic::And => push_expr(exprs, ty, Form::And(i, j))?,
        Arithmetic::Or => push_expr(exprs, ty, Form::Or(i, j))?,
        Arithmetic::ExclusiveOr => push_expr(exprs, ty, Form::ExclusiveOr(i, j))?,
        Arithmetic::MaximumSigned => push_chosen(exprs, Form::LessSigned(ty, i, j), ty, j, i)?,
        Arithmetic::MaximumUnsigned => push_chosen(exprs, Form::Less(i, j), ty, j, i)?,
        Arithmetic::MinimumSigned => push_chosen(exprs, Form::LessSigned(ty, j, i), ty, j, i)?,
        Arithmetic::MinimumUnsigned => push_chosen(exprs, Form::Less(j, i), ty, j, i)?,
        Arithmetic::Multiply
        | Arithmetic::ShiftLeft
        | Arithmetic::DivideSigned
        | Arithmetic::DivideUnsigned
        | Arithmetic::RemainderSigned
        | Arithmetic::RemainderUnsigned
        | Arithmetic::ShiftRightSigned
        | Arithmetic::ShiftRightUnsigned => return Ok(None),
    };
    Ok(Some(place))
}

/// Returns whether a constraint says that type `narrow` is narrower than type `wide`.
fn is_narrower(narrower: &[Narrower], narrow: usize, wide: usize) -> bool
    ensures { result ≡ is_narrower narrower.now narrow wide }
{
    narrower
        .iter()
        .any(|pair| pair.narrow == narrow && pair.wide == wide)
}

/// Appends a cast of a value to a type, if claims can express the cast.
pub fn cast_value(
    narrower: &[Narrower],
    cast: &Cast,
    to: usize,
    from: usize,
    i: usize,
    exprs: &mut Vec<Expr>,
) -> Result<Option<usize>, AllocError>
    ensures { IfOk result (IsMadeIf (cast_value narrower.now cast.now to from i exprs.old.items) exprs.new.items) }
{
    let place = match cast {
        Cast::ExtendSigned => push_expr(exprs, to, Form::Resize(from, i))?,
        Cast::ExtendUnsigned => push_expr(exprs, to, Form::Cut(i))?,
        Cast::Truncate => {
            if !is_narrower(narrower, to, from) {
                return Ok(None);
            }
            push_expr(exprs, to, Form::Cut(i))?
        }
    };
    Ok(Some(place))
}

/// Returns the form of a literal.
pub fn literal_form(literal: &Literal) -> Form
    ensures { result ≡ literal_form literal.now }
{
    if literal.negative {
        Form::Negative(literal.magnitude)
    } else {
        Form::Literal(literal.magnitude)
    }
}
