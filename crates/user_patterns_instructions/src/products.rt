//! The expressions of products by literals, and of operations by a literal that are the identity.
ghost use Rattle.std.specs.Prelude.{◌≡◌, IfOk};
ghost use Rattle.user_patterns_instructions.specs.Code.{IsMade, IsMadeOr};
ghost use Rattle.user_patterns_instructions.specs.Expressions.{is_number, literal_times, multiple, one_more, opposite, times, with_literal};

use crate::quotients::{quotient_by, remainder_by};
use crate::values::push_expr;
use dialects_int::operations::Arithmetic;
use std::alloc::AllocError;
use user_patterns_data::pattern::Literal;
use width_claims::form::{Expr, Form};

/// Appends the sum of two values if `more`.
fn one_more(
    more: bool,
    ty: usize,
    i: usize,
    place: usize,
    exprs: &mut Vec<Expr>,
) -> Result<usize, AllocError>
    ensures { IfOk result (IsMade (one_more more ty i (exprs.old.items, place)) exprs.new.items) }
{
    if more {
        push_expr(exprs, ty, Form::Add(place, i))
    } else {
        Ok(place)
    }
}

/// Appends the product of a value and a number by doubling and adding. The number is at most `most`.
pub fn times(
    most: u128,
    n: u128,
    ty: usize,
    i: usize,
    exprs: &mut Vec<Expr>,
) -> Result<usize, AllocError>
    ensures { IfOk result (IsMade (times most n ty i exprs.old.items) exprs.new.items) }
{
    if most == 0 {
        return push_expr(exprs, ty, Form::Literal(0));
    }
    if n == 0 {
        return push_expr(exprs, ty, Form::Literal(0));
    }
    if n == 1 {
        return push_expr(exprs, ty, Form::Cut(i));
    }
    let half = times(most - 1, n / 2, ty, i, exprs)?;
    let double = push_expr(exprs, ty, Form::Add(half, half))?;
    one_more(n % 2 == 1, ty, i, double, exprs)
}

/// Appends the negation of a value.
fn opposite(ty: usize, place: usize, exprs: &mut Vec<Expr>) -> Result<usize, AllocError>
    ensures { IfOk result (IsMade (opposite ty (exprs.old.items, place)) exprs.new.items) }
{
    let zero = push_expr(exprs, ty, Form::Literal(0))?;
    push_expr(exprs, ty, Form::Subtract(zero, place))
}

/// Appends the product of a value and a literal.
fn multiple(
    literal: &Literal,
    ty: usize,
    i: usize,
    exprs: &mut Vec<Expr>,
) -> Result<usize, AllocError>
    ensures { IfOk result (IsMade (multiple literal.now ty i exprs.old.items) exprs.new.items) }
{
    let place = times(literal.magnitude, literal.magnitude, ty, i, exprs)?;
    if literal.negative {
        opposite(ty, place, exprs)
    } else {
        Ok(place)
    }
}

/// Returns whether the literal is the number `n`.
pub fn is_number(n: u128, literal: &Literal) -> bool
    ensures { result ≡ is_number n literal.now }
{
    !literal.negative && literal.magnitude == n
}

/// Appends an operation on a value and a literal, if it is a product or the identity.
pub fn with_literal(
    operation: &Arithmetic,
    ty: usize,
    i: usize,
    literal: &Literal,
    exprs: &mut Vec<Expr>,
) -> Result<Option<usize>, AllocError>
    ensures { IfOk result (IsMadeOr (with_literal operation.now ty i literal.now exprs.old.items) exprs.old.items exprs.new.items) }
{
    let place = match operation {
        Arithmetic::Multiply => multiple(literal, ty, i, exprs)?,
        Arithmetic::ShiftLeft => {
            if !is_number(0, literal) {
                return Ok(None);
            }
            push_expr(exprs, ty, Form::Cut(i))?
        }
        Arithmetic::ShiftRightUnsigned => {
            return Ok(if is_number(0, literal) { Some(i) } else { None });
        }
        Arithmetic::ShiftRightSigned => {
            if !is_number(0, literal) {
                return Ok(None);
            }
            push_expr(exprs, ty, Form::Resize(ty, i))?
        }
        Arithmetic::DivideUnsigned => return quotient_by(literal, ty, i, exprs),
        Arithmetic::RemainderUnsigned => return remainder_by(literal, ty, i, exprs),
        Arithmetic::RemainderSigned => {
            if !is_number(1, literal) {
                return Ok(None);
            }
            push_expr(exprs, ty, Form::Literal(0))?
        }
        _ => return Ok(None),
    };
    Ok(Some(place))
}

/// Appends a product of a literal and a value.
pub fn literal_times(
    operation: &Arithmetic,
    ty: usize,
    i: usize,
    literal: &Literal,
    exprs: &mut Vec<Expr>,
) -> Result<Option<usize>, AllocError>
    ensures { IfOk result (IsMadeOr (literal_times operation.now ty i literal.now exprs.old.items) exprs.old.items exprs.new.items) }
{
    if let Arithmetic::Multiply = operation {
        let place = multiple(literal, ty, i, exprs)?;
        return Ok(Some(place));
    }
    Ok(None)
}
