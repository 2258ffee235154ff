//! The expressions of unsigned quotients and remainders by literals.
ghost use Rattle.std.specs.Prelude.{IfOk};
ghost use Rattle.user_patterns_instructions.specs.Code.{IsMade, IsMadeOr};
ghost use Rattle.user_patterns_instructions.specs.Expressions.{quotient, quotient_by, remainder, remainder_by};

use crate::products::{is_number, times};
use crate::values::push_expr;
use std::alloc::AllocError;
use user_patterns_data::pattern::Literal;
use width_claims::form::{Expr, Form};

/// The greatest divisor of a quotient.
const MOST_DIVISOR: u128 = 4_294_967_296;

/// Appends the quotient of a value by `n`, if `n` is from 1 to 2^32.
fn quotient(
    n: u128,
    ty: usize,
    i: usize,
    exprs: &mut Vec<Expr>,
) -> Result<Option<usize>, AllocError>
    ensures { IfOk result (IsMadeOr (quotient n ty i exprs.old.items) exprs.old.items exprs.new.items) }
{
    if n == 1 {
        return Ok(Some(i));
    }
    if n == 0 {
        return Ok(None);
    }
    if n > MOST_DIVISOR {
        return Ok(None);
    }
    let place = push_expr(exprs, ty, Form::Quotient(i, (n - 1) as u32))?;
    Ok(Some(place))
}

/// Appends the quotient of a value by a literal, if claims can express it.
pub fn quotient_by(
    literal: &Literal,
    ty: usize,
    i: usize,
    exprs: &mut Vec<Expr>,
) -> Result<Option<usize>, AllocError>
    ensures { IfOk result (IsMadeOr (quotient_by literal.now ty i exprs.old.items) exprs.old.items exprs.new.items) }
{
    if literal.negative {
        return Ok(None);
    }
    quotient(literal.magnitude, ty, i, exprs)
}

/// Appends the remainder of a value by `n`, given its quotient.
fn remainder(
    n: u128,
    ty: usize,
    i: usize,
    place: usize,
    exprs: &mut Vec<Expr>,
) -> Result<usize, AllocError>
    ensures { IfOk result (IsMade (remainder n ty i (exprs.old.items, place)) exprs.new.items) }
{
    let product = times(n, n, ty, place, exprs)?;
    push_expr(exprs, ty, Form::Subtract(i, product))
}

/// Appends the remainder of a value by a literal, if claims can express it.
pub fn remainder_by(
    literal: &Literal,
    ty: usize,
    i: usize,
    exprs: &mut Vec<Expr>,
) -> Result<Option<usize>, AllocError>
    ensures { IfOk result (IsMadeOr (remainder_by literal.now ty i exprs.old.items) exprs.old.items exprs.new.items) }
{
    if is_number(1, literal) {
        let place = push_expr(exprs, ty, Form::Literal(0))?;
        return Ok(Some(place));
    }
    let Some(place) = quotient_by(literal, ty, i, exprs)? else {
        return Ok(None);
    };
    let rest = remainder(literal.magnitude, ty, i, place, exprs)?;
    Ok(Some(rest))
}
