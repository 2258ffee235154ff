//! Evaluates a pattern over polynomials in its values.
ghost use Rattle.std.specs.Prelude.{◌≡◌, ◌∷◌, ◌++◌, [], Some, IfOk, OnOk, option_map};
ghost use Rattle.user_patterns_check.specs.Outcomes.{given};
ghost use Rattle.user_patterns_data.specs.Shapes.{pattern_model};
ghost use Rattle.user_patterns_widths.specs.AllWidths as for_all_widths;
ghost use Rattle.user_patterns_widths.specs.Views.{Stands, formal_view, some_view, view};

use crate::bits::is_bitwise;
use crate::polynomials::{
    Term, constant_polynomial, copy_of, difference, if_small, literal_coefficient, small_product,
    sum, value_at,
};
use dialects_int::operations::Arithmetic;
use std::alloc::{AllocError, Global};
use user_patterns_data::pattern::{
    ConstantExpression, Expression, ExtraConstant, Literal, NewValue, Pattern, PatternOp,
};

/// Returns the polynomial at `place`, if there is one.
pub(crate) fn formal_at(env: &[Option<Vec<Term>>], place: usize) -> Option<&[Term]>
    ensures { option_map (λ p. view p.now) result ≡ for_all_widths.formal_at place (formal_view env.now) }
{
    if place >= env.len() {
        return None;
    }
    match &env[place] {
        Some(terms) => Some(terms.as_slice()),
        None => None,
    }
}

/// Returns a copy of the polynomial at a place, if there is one.
fn copy_at(
    alloc: Global,
    env: &[Option<Vec<Term>>],
    place: usize,
) -> Result<Option<Vec<Term>>, AllocError>
    ensures { IfOk result (λ p. some_view p ≡ for_all_widths.formal_at place (formal_view env.now)) }
{
    let Some(terms) = formal_at(env, place) else {
        return Ok(None);
    };
    Ok(Some(copy_of(alloc, terms)?))
}

/// Returns the result of an operation on two polynomials, if it is a polynomial within the limits.
fn formal_pair(
    alloc: Global,
    operation: Arithmetic,
    first: &[Term],
    second: &[Term],
) -> Result<Option<Vec<Term>>, AllocError>
    ensures { IfOk result (λ p. some_view p ≡ for_all_widths.formal_pair operation (view first.now) (view second.now)) }
{
    match operation {
        Arithmetic::Add => Ok(if_small(sum(alloc, first, second)?)),
        Arithmetic::Subtract => Ok(if_small(difference(alloc, first, second)?)),
        Arithmetic::Multiply => small_product(alloc, first, second),
        _ => Ok(None),
    }
}

/// Returns the result of an operation on the polynomials at two places.
fn formal_of(
    alloc: Global,
    operation: Arithmetic,
    i: usize,
    j: usize,
    env: &[Option<Vec<Term>>],
) -> Result<Option<Vec<Term>>, AllocError>
    ensures { IfOk result (λ p. some_view p ≡ for_all_widths.formal_of operation i j (formal_view env.now)) }
{
    let Some(first) = formal_at(env, i) else {
        return Ok(None);
    };
    let Some(second) = formal_at(env, j) else {
        return Ok(None);
    };
    formal_pair(alloc, operation, first, second)
}

/// Returns the number of a literal.
fn formal_literal(alloc: Global, literal: &Literal) -> Result<Vec<Term>, AllocError>
    ensures { IfOk result (λ p. view p.items ≡ for_all_widths.formal_literal literal.now) }
{
    constant_polynomial(
        alloc,
        literal_coefficient(literal.negative, literal.magnitude),
    )
}

/// Returns a fresh variable for the next place if both places have polynomials.
fn formal_next(
    alloc: Global,
    i: usize,
    j: usize,
    env: &[Option<Vec<Term>>],
) -> Result<Option<Vec<Term>>, AllocError>
    ensures { IfOk result (λ p. some_view p ≡ for_all_widths.formal_next (for_all_widths.formal_at i (formal_view env.now)) (for_all_widths.formal_at j (formal_view env.now)) (formal_view env.now)) }
{
    let Some(_) = formal_at(env, i) else {
        return Ok(None);
    };
    let Some(_) = formal_at(env, j) else {
        return Ok(None);
    };
    Ok(Some(value_at(alloc, env.len())?))
}

/// Returns the polynomial of an extra constant.
fn formal_extra(
    alloc: Global,
    extra: &ExtraConstant,
    env: &[Option<Vec<Term>>],
) -> Result<Option<Vec<Term>>, AllocError>
    ensures { IfOk result (λ p. some_view p ≡ for_all_widths.formal_extra extra.now (formal_view env.now)) }
{
    match extra {
        ExtraConstant::Literal(literal) => Ok(Some(formal_literal(alloc, literal)?)),
        ExtraConstant::SameAs(place) => copy_at(alloc, env, *place),
    }
}

/// Returns the polynomial of a computed number.
fn formal_number(
    alloc: Global,
    number: &ConstantExpression,
    env: &[Option<Vec<Term>>],
) -> Result<Option<Vec<Term>>, AllocError>
    ensures { IfOk result (λ p. some_view p ≡ for_all_widths.formal_number number.now (formal_view env.now)) }
{
    match number {
        ConstantExpression::Literal(literal) => Ok(Some(formal_literal(alloc, literal)?)),
        ConstantExpression::Width(_) => Ok(Some(value_at(alloc, env.len())?)),
        ConstantExpression::Binary(operation, i, j) => {
            if is_bitwise(*operation) {
                formal_next(alloc, *i, *j, env)
            } else {
                formal_of(alloc, *operation, *i, *j, env)
            }
        }
        ConstantExpression::Compare(_, _, _) => Ok(None),
        ConstantExpression::Log2(i) => formal_next(alloc, *i, *i, env),
        ConstantExpression::Require(_) => Ok(None),
    }
}

/// Returns the polynomial of an operation's result.
fn formal_form(
    alloc: Global,
    form: &Expression,
    env: &[Option<Vec<Term>>],
) -> Result<Option<Vec<Term>>, AllocError>
    ensures { IfOk result (λ p. some_view p ≡ for_all_widths.formal_form form.now (formal_view env.now)) }
{
    match form {
        Expression::Binary(operation, i, j) => formal_of(alloc, *operation, *i, *j, env),
        Expression::Compare(_, _, _) => Ok(None),
        Expression::Select(_, _, _) => Ok(None),
        Expression::IntegerCast(_, _) => Ok(None),
        Expression::IndexCast(_, _) => Ok(None),
    }
}

/// Returns the polynomial of a new value.
fn formal_new(
    alloc: Global,
    new: &NewValue,
    env: &[Option<Vec<Term>>],
) -> Result<Option<Vec<Term>>, AllocError>
    ensures { IfOk result (λ p. some_view p ≡ for_all_widths.formal_new new.now (formal_view env.now)) }
{
    match new {
        NewValue::Operation(pattern_op) => formal_form(alloc, &pattern_op.form, env),
        NewValue::Constant(place, _) => copy_at(alloc, env, *place),
    }
}

/// Appends the entry of the next place.
fn push_terms(terms: Option<Vec<Term>>, env: &mut Vec<Option<Vec<Term>>>) -> Result<(), AllocError>
    ensures { OnOk result (formal_view env.new.items ≡ formal_view env.old.items ++ some_view terms ∷ []) }
{
    env.push(terms)?;
    Ok(())
}

/// Appends a polynomial. Returns whether there is one.
fn push_some(terms: Option<Vec<Term>>, env: &mut Vec<Option<Vec<Term>>>) -> Result<bool, AllocError>
    ensures { IfOk result (Stands (given (some_view terms) (λ p. Some (formal_view env.old.items ++ Some p ∷ []))) env.new.items) }
{
    if terms.is_none() {
        return Ok(false);
    }
    push_terms(terms, env)?;
    Ok(true)
}

/// Appends the variables of the pattern.
fn push_values(
    alloc: Global,
    values: &[usize],
    env: &mut Vec<Option<Vec<Term>>>,
) -> Result<(), AllocError>
    ensures { OnOk result (formal_view env.new.items ≡ for_all_widths.formal_values values.now (formal_view env.old.items)) }
{
    let mut rest = values;
    'values: while let [_, tail @ ..] = rest {
        let terms = value_at(alloc, env.len())?;
        push_terms(Some(terms), env)?;
        rest = tail;
    }
    Ok(())
}

/// Appends the extra constants.
fn push_extras(
    alloc: Global,
    extra: &[ExtraConstant],
    env: &mut Vec<Option<Vec<Term>>>,
) -> Result<(), AllocError>
    ensures { OnOk result (formal_view env.new.items ≡ for_all_widths.formal_extras extra.now (formal_view env.old.items)) }
{
    let mut rest = extra;
    'extra: while let [first, tail @ ..] = rest {
        let terms = formal_extra(alloc, first, env)?;
        push_terms(terms, env)?;
        rest = tail;
    }
    Ok(())
}

/// Appends the computed numbers.
fn push_numbers(
    alloc: Global,
    numbers: &[ConstantExpression],
    env: &mut Vec<Option<Vec<Term>>>,
) -> Result<(), AllocError>
    ensures { OnOk result (formal_view env.new.items ≡ for_all_widths.formal_numbers numbers.now (formal_view env.old.items)) }
{
    let mut rest = numbers;
    'numbers: while let [first, tail @ ..] = rest {
        let terms = formal_number(alloc, first, env)?;
        push_terms(terms, env)?;
        rest = tail;
    }
    Ok(())
}

/// Appends the results of the matched operations. Returns whether each is a polynomial.
fn push_olds(
    alloc: Global,
    old: &[PatternOp],
    env: &mut Vec<Option<Vec<Term>>>,
) -> Result<bool, AllocError>
    ensures { IfOk result (Stands (for_all_widths.formal_olds old.now (formal_view env.old.items)) env.new.items) }
{
    let mut rest = old;
    'old: while let [first, tail @ ..] = rest {
        let terms = formal_form(alloc, &first.form, env)?;
        if !push_some(terms, env)? {
            return Ok(false);
        }
        rest = tail;
    }
    Ok(true)
}

/// Appends the new values. Returns whether each is a polynomial.
fn push_news(
    alloc: Global,
    new: &[NewValue],
    env: &mut Vec<Option<Vec<Term>>>,
) -> Result<bool, AllocError>
    ensures { IfOk result (Stands (for_all_widths.formal_news new.now (formal_view env.old.items)) env.new.items) }
{
    let mut rest = new;
    'new: while let [first, tail @ ..] = rest {
        let terms = formal_new(alloc, first, env)?;
        if !push_some(terms, env)? {
            return Ok(false);
        }
        rest = tail;
    }
    Ok(true)
}

/// Appends the entries of all places before the operations.
fn push_front(
    alloc: Global,
    pattern: &Pattern,
    env: &mut Vec<Option<Vec<Term>>>,
) -> Result<(), AllocError>
    ensures { OnOk result (formal_view env.new.items ≡ for_all_widths.formal_numbers pattern.now.given.items (for_all_widths.formal_extras pattern.now.extra.items (for_all_widths.formal_values pattern.now.values.items (formal_view env.old.items)))) }
{
    push_values(alloc, &pattern.values, env)?;
    push_extras(alloc, &pattern.extra, env)?;
    push_numbers(alloc, &pattern.given, env)
}

/// Returns the entries of all places, or `None` if an operation of either side isn't a polynomial.
pub(crate) fn formal(
    alloc: Global,
    pattern: &Pattern,
) -> Result<Option<Vec<Option<Vec<Term>>>>, AllocError>
    ensures { IfOk result (λ found. option_map (λ env. formal_view env.items) found ≡ for_all_widths.formal (pattern_model pattern.now)) }
{
    let mut env = Vec::new(alloc);
    push_front(alloc, pattern, &mut env)?;
    let matched = push_olds(alloc, &pattern.old, &mut env)?;
    if !matched {
        return Ok(None);
    }
    let made = push_news(alloc, &pattern.new, &mut env)?;
    if !made {
        return Ok(None);
    }
    Ok(Some(env))
}
