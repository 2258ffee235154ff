//! The expressions of shifts by literals.
ghost use Rattle.std.specs.Prelude.{◌≡◌, ◌-◌, ◌<◌, ◌≤◌, ◌^◌, IfOk};
ghost use Rattle.user_patterns_instructions.specs.Code.{IsMade, IsMadeOr, IsResult, IsResultOr};
ghost use Rattle.user_patterns_instructions.specs.Expressions.{by_sign, exchanged, is_shift, right_of, right_signed, shift, shift_by, shift_result, shifted, too_far};

use crate::operand::{Operand, Poison};
use crate::poison::either;
use crate::products::times;
use crate::values::push_expr;
use dialects_int::operations::Arithmetic;
use std::alloc::AllocError;
use user_patterns_data::pattern::Literal;
use width_claims::form::{Expr, Form};

/// Returns 2^n.
fn power(n: u32) -> u128
    requires { n < 32 }
    ensures is { result ≡ 2 ^ n }
    ensures small { result ≤ 4294967296 }
{
    1u128 << n
}

/// Returns 2^n - 1.
fn power_less_one(n: u32) -> u32
    requires { n < 32 }
    ensures { result ≡ 2 ^ n - 1 }
{
    power(n).saturating_sub(1) as u32
}

/// Appends a value shifted to the right by `n` bits.
fn right_of(n: u32, ty: usize, i: usize, exprs: &mut Vec<Expr>) -> Result<usize, AllocError>
    requires { n < 32 }
    ensures { IfOk result (IsMade (right_of n ty (exprs.old.items, i)) exprs.new.items) }
{
    push_expr(exprs, ty, Form::Quotient(i, power_less_one(n)))
}

/// Appends a value whose bits are exchanged if the truth at `c` is 1. The value at `m` is -1.
fn exchanged(
    c: usize,
    m: usize,
    ty: usize,
    i: usize,
    exprs: &mut Vec<Expr>,
) -> Result<usize, AllocError>
    ensures { IfOk result (IsMade (exchanged c m ty (exprs.old.items, i)) exprs.new.items) }
{
    let place = push_expr(exprs, ty, Form::ExclusiveOr(i, m))?;
    push_expr(exprs, ty, Form::Select(c, place, i))
}

/// Appends a signed value shifted to the right by `n` bits, given its sign.
fn by_sign(
    m: usize,
    n: u32,
    ty: usize,
    i: usize,
    c: usize,
    exprs: &mut Vec<Expr>,
) -> Result<usize, AllocError>
    requires { n < 32 }
    ensures { IfOk result (IsMade (by_sign m n ty i (exprs.old.items, c)) exprs.new.items) }
{
    let first = exchanged(c, m, ty, i, exprs)?;
    let right = right_of(n, ty, first, exprs)?;
    exchanged(c, m, ty, right, exprs)
}

/// Appends a signed value shifted to the right by `n` bits.
fn right_signed(n: u32, ty: usize, i: usize, exprs: &mut Vec<Expr>) -> Result<usize, AllocError>
    requires { n < 32 }
    ensures { IfOk result (IsMade (right_signed n ty i exprs.old.items) exprs.new.items) }
{
    let zero = push_expr(exprs, ty, Form::Literal(0))?;
    let ones = push_expr(exprs, ty, Form::Negative(1))?;
    let sign = push_expr(exprs, 0, Form::LessSigned(ty, i, zero))?;
    by_sign(ones, n, ty, i, sign, exprs)
}

/// Appends a value shifted by `n` bits, if the operation is a shift.
fn shifted(
    operation: &Arithmetic,
    n: u32,
    ty: usize,
    i: usize,
    exprs: &mut Vec<Expr>,
) -> Result<Option<usize>, AllocError>
    requires { n < 32 }
    ensures { IfOk result (IsMadeOr (shifted operation.now n ty i exprs.old.items) exprs.old.items exprs.new.items) }
{
    let place = match operation {
        Arithmetic::ShiftLeft => times(power(n), power(n), ty, i, exprs)?,
        Arithmetic::ShiftRightUnsigned => right_of(n, ty, i, exprs)?,
        Arithmetic::ShiftRightSigned => right_signed(n, ty, i, exprs)?,
        _ => return Ok(None),
    };
    Ok(Some(place))
}

/// Appends the truth that a shift by `n` bits is poison.
fn too_far(n: u32, ty: usize, exprs: &mut Vec<Expr>) -> Result<usize, AllocError>
    requires { n < 32 }
    ensures { IfOk result (IsMade (too_far n ty exprs.old.items) exprs.new.items) }
{
    let power = push_expr(exprs, ty, Form::Literal(power(n)))?;
    push_expr(exprs, 0, Form::Same(0, power))
}

/// Returns the operand of a shift by `n` bits, given its value.
fn shift_result(
    n: u32,
    ty: usize,
    poison: &Poison,
    value: usize,
    exprs: &mut Vec<Expr>,
) -> Result<Operand, AllocError>
    requires { n < 32 }
    ensures { IfOk result (IsResult (shift_result ty poison.now (exprs.old.items, value) (too_far n ty exprs.old.items)) exprs.new.items) }
{
    let far = too_far(n, ty, exprs)?;
    let poison = either(poison, &Poison::When(far), exprs)?;
    Ok(Operand {
        value,
        poison,
        ty,
        written: None,
        known: true,
    })
}

/// Returns whether a literal is from 1 to 31.
fn is_shift(literal: &Literal) -> bool
    ensures { result ≡ is_shift literal.now }
{
    !literal.negative && 0 < literal.magnitude && literal.magnitude < 32
}

/// Appends a shift by a literal, if claims can express it.
fn shift_by(
    operation: &Arithmetic,
    x: &Operand,
    literal: &Literal,
    exprs: &mut Vec<Expr>,
) -> Result<Option<Operand>, AllocError>
    ensures { IfOk result (IsResultOr (shift_by operation.now x.now literal.now exprs.old.items) exprs.old.items exprs.new.items) }
{
    if !is_shift(literal) {
        return Ok(None);
    }
    let n = literal.magnitude as u32;
    let Some(value) = shifted(operation, n, x.ty, x.value, exprs)? else {
        return Ok(None);
    };
    let operand = shift_result(n, x.ty, &x.poison, value, exprs)?;
    Ok(Some(operand))
}

/// Appends a shift of an operand by a literal, if claims can express it.
pub fn shift(
    operation: &Arithmetic,
    x: &Operand,
    y: &Operand,
    exprs: &mut Vec<Expr>,
) -> Result<Option<Operand>, AllocError>
    ensures { IfOk result (IsResultOr (shift operation.now x.now y.now exprs.old.items) exprs.old.items exprs.new.items) }
{
    match &y.written {
        Some(literal) => shift_by(operation, x, literal, exprs),
        None => Ok(None),
    }
}
