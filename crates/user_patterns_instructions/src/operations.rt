//! Translates operations on operands.
ghost use Rattle.std.specs.Prelude.{◌≡◌, IfOk};
ghost use Rattle.user_patterns_instructions.specs.Code.{IsFlagged, IsMadeIf, IsMadeOr, IsResult, IsResultIf};
ghost use Rattle.user_patterns_instructions.specs.Expressions.{compare_result, divide_by, divide_result, left_literal, operands_value, other_result, pair_result, resize_result, right_literal, select_made, select_poison, select_result, strict};

use crate::operand::{Operand, Poison};
use crate::poison::{chosen_poison, either};
use crate::products::{is_number, literal_times, with_literal};
use crate::shifts::shift;
use crate::values::{cast_value, compare_value, pair_value, push_expr};
use dialects_int::operations::{Arithmetic, Cast, Predicate};
use std::alloc::AllocError;
use user_patterns_data::pattern::Literal;
use width_claims::form::{Expr, Form};
use width_claims::width::Narrower;

/// Returns the operand of a value that is poison if one of two operands is.
fn strict(
    value: usize,
    ty: usize,
    f: &Poison,
    g: &Poison,
    exprs: &mut Vec<Expr>,
) -> Result<Operand, AllocError>
    ensures { IfOk result (IsResult (strict (exprs.old.items, value) ty f.now g.now) exprs.new.items) }
{
    let poison = either(f, g, exprs)?;
    Ok(Operand {
        value,
        poison,
        ty,
        written: None,
        known: true,
    })
}

/// Appends an operation whose second operand is a literal, if claims can express it.
fn right_literal(
    operation: &Arithmetic,
    x: &Operand,
    y: &Operand,
    exprs: &mut Vec<Expr>,
) -> Result<Option<usize>, AllocError>
    ensures { IfOk result (IsMadeOr (right_literal operation.now x.now y.now exprs.old.items) exprs.old.items exprs.new.items) }
{
    match &y.written {
        Some(literal) => with_literal(operation, x.ty, x.value, literal, exprs),
        None => Ok(None),
    }
}

/// Appends an operation whose first operand is a literal, if claims can express it.
fn left_literal(
    operation: &Arithmetic,
    x: &Operand,
    y: &Operand,
    exprs: &mut Vec<Expr>,
) -> Result<Option<usize>, AllocError>
    ensures { IfOk result (IsMadeOr (left_literal operation.now x.now y.now exprs.old.items) exprs.old.items exprs.new.items) }
{
    match &x.written {
        Some(literal) => literal_times(operation, x.ty, y.value, literal, exprs),
        None => Ok(None),
    }
}

/// Appends an operation on two operands, if claims can express it.
#[tactic(auto, unfolding(crate::specs::Expressions::operands_value))]
fn operands_value(
    operation: &Arithmetic,
    x: &Operand,
    y: &Operand,
    exprs: &mut Vec<Expr>,
) -> Result<Option<usize>, AllocError>
    ensures { IfOk result (IsMadeIf (operands_value operation.now x.now y.now exprs.old.items) exprs.new.items) }
{
    if let Some(value) = right_literal(operation, x, y, exprs)? {
        return Ok(Some(value));
    }
    if let Some(value) = left_literal(operation, x, y, exprs)? {
        return Ok(Some(value));
    }
    pair_value(operation, x.ty, x.value, y.value, exprs)
}

/// Appends an operation on two operands that isn't a shift by a literal, if claims can express it.
fn other_result(
    operation: &Arithmetic,
    x: &Operand,
    y: &Operand,
    exprs: &mut Vec<Expr>,
) -> Result<Option<Operand>, AllocError>
    ensures { IfOk result (IsResultIf (other_result operation.now x.now y.now exprs.old.items) exprs.new.items) }
{
    let Some(value) = operands_value(operation, x, y, exprs)? else {
        return Ok(None);
    };
    let operand = strict(value, x.ty, &x.poison, &y.poison, exprs)?;
    Ok(Some(operand))
}

/// Appends `arith.addi` or another binary operation on two operands of a type.
pub fn pair_result(
    operation: &Arithmetic,
    x: &Operand,
    y: &Operand,
    exprs: &mut Vec<Expr>,
) -> Result<Option<Operand>, AllocError>
    ensures { IfOk result (IsResultIf (pair_result operation.now x.now y.now exprs.old.items) exprs.new.items) }
{
    if x.ty != y.ty {
        return Ok(None);
    }
    if let Some(operand) = shift(operation, x, y, exprs)? {
        return Ok(Some(operand));
    }
    other_result(operation, x, y, exprs)
}

/// Returns the quotient of a signed division by a literal, where it is defined, if the literal is 1.
fn divide_by(x: &Operand, literal: &Literal) -> Option<Operand>
    ensures { result ≡ divide_by x.now literal.now }
{
    if !is_number(1, literal) {
        return None;
    }
    Some(Operand {
        value: x.value,
        poison: x.poison,
        ty: x.ty,
        written: None,
        known: true,
    })
}

/// Returns the quotient of `arith.divsi` on two operands of a type, where it is defined, if claims can express it.
pub fn divide_result(x: &Operand, y: &Operand) -> Option<Operand>
    ensures { result ≡ divide_result x.now y.now }
{
    if x.ty != y.ty {
        return None;
    }
    match &y.written {
        Some(literal) => divide_by(x, literal),
        None => None,
    }
}

/// Appends `arith.cmpi` on two operands of a type.
pub fn compare_result(
    predicate: &Predicate,
    x: &Operand,
    y: &Operand,
    exprs: &mut Vec<Expr>,
) -> Result<Option<Operand>, AllocError>
    ensures { IfOk result (IsResultIf (compare_result predicate.now x.now y.now exprs.old.items) exprs.new.items) }
{
    if x.ty != y.ty {
        return Ok(None);
    }
    let value = compare_value(predicate, x.ty, x.value, y.value, exprs)?;
    let operand = strict(value, 0, &x.poison, &y.poison, exprs)?;
    Ok(Some(operand))
}

/// Appends the poison flag of a `select`: the condition is poison, or the selected operand is.
fn select_poison(
    c: &Operand,
    x: &Operand,
    y: &Operand,
    exprs: &mut Vec<Expr>,
) -> Result<Poison, AllocError>
    ensures { IfOk result (IsFlagged (select_poison c.now x.now y.now exprs.old.items) exprs.new.items) }
{
    let chosen = chosen_poison(c.value, &x.poison, &y.poison, exprs)?;
    either(&c.poison, &chosen, exprs)
}

/// Returns the operand of a `select`, given its value.
fn select_made(
    value: usize,
    c: &Operand,
    x: &Operand,
    y: &Operand,
    exprs: &mut Vec<Expr>,
) -> Result<Operand, AllocError>
    ensures { IfOk result (IsResult (select_made c.now x.now y.now (exprs.old.items, value)) exprs.new.items) }
{
    let poison = select_poison(c, x, y, exprs)?;
    Ok(Operand {
        value,
        poison,
        ty: x.ty,
        written: None,
        known: true,
    })
}

/// Appends `arith.select` with a condition of type i1 and two operands of a type.
pub fn select_result(
    c: &Operand,
    x: &Operand,
    y: &Operand,
    exprs: &mut Vec<Expr>,
) -> Result<Option<Operand>, AllocError>
    ensures { IfOk result (IsResultIf (select_result c.now x.now y.now exprs.old.items) exprs.new.items) }
{
    if c.ty != 0 || x.ty != y.ty {
        return Ok(None);
    }
    let value = push_expr(exprs, x.ty, Form::Select(c.value, x.value, y.value))?;
    let operand = select_made(value, c, x, y, exprs)?;
    Ok(Some(operand))
}

/// Appends a cast to a type.
pub fn resize_result(
    narrower: &[Narrower],
    cast: &Cast,
    ty: usize,
    x: &Operand,
    exprs: &mut Vec<Expr>,
) -> Result<Option<Operand>, AllocError>
    ensures { IfOk result (IsResultIf (resize_result narrower.now cast.now ty x.now exprs.old.items) exprs.new.items) }
{
    let Some(value) = cast_value(narrower, cast, ty, x.ty, x.value, exprs)? else {
        return Ok(None);
    };
    Ok(Some(Operand {
        value,
        poison: x.poison,
        ty,
        written: None,
        known: true,
    }))
}
