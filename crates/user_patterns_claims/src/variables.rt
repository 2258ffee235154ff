//! The variables of a pattern.
ghost use Rattle.std.specs.Prelude.{◌≡◌, ◌+◌, ◌<◌, ◌≤◌, ◌^◌, [], IfOk, IfSome, eqb, length};
ghost use Rattle.std.specs.List.{list_any};
ghost use Rattle.user_patterns_data.specs.Shapes.{pattern_model};
ghost use Rattle.user_patterns_claims.specs.Code.{IsReachedState, IsVariable, state};
ghost use Rattle.user_patterns_claims.specs.Translation.{bit_flag, is_constant, set_count, variables, with_variable};

use std::alloc::AllocError;
use user_patterns_data::pattern::Pattern;
use user_patterns_instructions::operand::{Operand, Poison};
use user_patterns_instructions::types::type_at;
use user_patterns_instructions::values::push_expr;
use width_claims::form::{Expr, Form};

/// Returns the flag of a variable, given its bit in a set.
fn bit_flag(bit: usize) -> Poison
    ensures { result ≡ bit_flag bit }
{
    if bit == 1 {
        Poison::Always
    } else {
        Poison::Never
    }
}

/// Returns whether a variable is a constant.
pub(crate) fn is_constant(pattern: &Pattern, i: usize) -> bool
    ensures { result ≡ is_constant (pattern_model pattern.now) i }
{
    pattern.constants.iter().any(|constant| i == *constant)
}

/// Appends a variable.
fn with_variable(
    i: usize,
    poison: Poison,
    ty: usize,
    exprs: &mut Vec<Expr>,
    operands: &mut Vec<Operand>,
) -> Result<(), AllocError>
    ensures { IfOk result (IsVariable (with_variable (state exprs.old.items operands.old.items []) i poison ty) exprs.new.items operands.new.items) }
{
    let value = push_expr(exprs, ty, Form::Value(i))?;
    operands.push(Operand {
        value,
        poison,
        ty,
        written: None,
        known: true,
    })?;
    Ok(())
}

/// Appends the variables from place `i` on. Returns whether all have types.
pub fn variables(
    pattern: &Pattern,
    i: usize,
    tys: &[usize],
    set: usize,
    exprs: &mut Vec<Expr>,
    operands: &mut Vec<Operand>,
) -> Result<bool, AllocError>
    requires { i + length tys.now ≤ 1000 }
    ensures { IfOk result (IsReachedState (variables (pattern_model pattern.now) i tys.now set (state exprs.old.items operands.old.items [])) exprs.new.items operands.new.items []) }
{
    let [ty, tail @ ..] = tys else {
        return Ok(true);
    };
    let Some(ty) = type_at(&pattern.value_types, *ty) else {
        return Ok(false);
    };
    if is_constant(pattern, i) {
        with_variable(i, Poison::Never, ty, exprs, operands)?;
        return variables(pattern, i + 1, tail, set, exprs, operands);
    }
    with_variable(i, bit_flag(set % 2), ty, exprs, operands)?;
    variables(pattern, i + 1, tail, set / 2, exprs, operands)
}

/// Returns the number of sets of the variables from place `i` on, if it is small enough.
pub fn set_count(pattern: &Pattern, i: usize, tys: &[usize]) -> Option<usize>
    requires { i + length tys.now ≤ 1000 }
    ensures { IfSome result (λ n. n ≡ set_count (pattern_model pattern.now) i tys.now) }
{
    let [_, tail @ ..] = tys else {
        return Some(1);
    };
    let rest = set_count(pattern, i + 1, tail)?;
    if is_constant(pattern, i) {
        Some(rest)
    } else {
        rest.checked_mul(2)
    }
}
