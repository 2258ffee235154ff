//! The goal for a set of poison variables.
ghost use Rattle.std.specs.Prelude.{◌≡◌, ◌≤◌, [], IfOk, IfSome, length};
ghost use Rattle.user_patterns_data.specs.Shapes.{pattern_model};
ghost use Rattle.user_patterns_claims.specs.Code.{IsReachedState, state};
ghost use Rattle.user_patterns_instructions.specs.Expressions.{narrower_types};
ghost use Rattle.user_patterns_claims.specs.Translation.{all_translated, empty_goal_from, empty_goal_of, first_state, given_instructions, goal_from, goal_of, variables};

use crate::translate::operand_at;
use crate::variables::variables;
use crate::walk::{all_extra, all_new, all_numbers, all_old};
use std::alloc::AllocError;
use user_patterns_data::pattern::Pattern;
use user_patterns_instructions::operand::Operand;
use width_claims::form::{Expr, Form};
use width_claims::width::Narrower;

/// The results of both sides.
#[derive(Clone, Copy)]
pub struct Results {
    pub old: Operand,
    pub new: Operand,
}

/// Appends the variables to empty lists.
fn first_variables(
    pattern: &Pattern,
    set: usize,
    exprs: &mut Vec<Expr>,
    operands: &mut Vec<Operand>,
) -> Result<bool, AllocError>
    requires few { length pattern.now.values.items ≤ 1000 }
    requires none { exprs.old.items ≡ [] }
    requires empty { operands.old.items ≡ [] }
    ensures { IfOk result (IsReachedState (variables (pattern_model pattern.now) 0 pattern.now.values.items set first_state) exprs.new.items operands.new.items []) }
{
    let zero = Expr {
        form: Form::Literal(0),
        ty: 0,
    };
    let one = Expr {
        form: Form::Literal(1),
        ty: 0,
    };
    exprs.push(zero)?;
    exprs.push(one)?;
    variables(pattern, 0, &pattern.values, set, exprs, operands)
}

/// Translates the extra constants and the computed numbers of a pattern.
fn all_given(
    pattern: &Pattern,
    narrower: &[Narrower],
    exprs: &mut Vec<Expr>,
    operands: &mut Vec<Operand>,
    conditions: &mut Vec<usize>,
) -> Result<bool, AllocError>
    ensures { IfOk result (IsReachedState (all_translated pattern.now.value_types.items narrower.now (given_instructions (pattern_model pattern.now)) (state exprs.old.items operands.old.items conditions.old.items)) exprs.new.items operands.new.items conditions.new.items) }
{
    let value_types = pattern.value_types.as_slice();
    let extra = pattern.extra.as_slice();
    let done = all_extra(extra, value_types, narrower, exprs, operands, conditions)?;
    if !done {
        return Ok(false);
    }
    let numbers = pattern.given.as_slice();
    all_numbers(numbers, value_types, narrower, exprs, operands, conditions)
}

/// Translates a pattern for a set of poison variables. Returns the results of both sides, or `None` if claims can't
/// express the pattern.
pub fn translate_pattern(
    pattern: &Pattern,
    narrower: &[Narrower],
    set: usize,
    exprs: &mut Vec<Expr>,
    operands: &mut Vec<Operand>,
    conditions: &mut Vec<usize>,
) -> Result<Option<Results>, AllocError>
    requires few { length pattern.now.values.items ≤ 1000 }
    requires types { narrower.now ≡ narrower_types pattern.now.value_types.items pattern.now.type_constraints.items }
    requires none { exprs.old.items ≡ [] }
    requires empty { operands.old.items ≡ [] }
    requires free { conditions.old.items ≡ [] }
    ensures { IfOk result (λ r. IfSome r (λ e. goal_of (pattern_model pattern.now) set ≡ goal_from (pattern_model pattern.now) (state exprs.new.items operands.new.items conditions.new.items) e.old e.new)) }
{
    let value_types = pattern.value_types.as_slice();
    if !first_variables(pattern, set, exprs, operands)? {
        return Ok(None);
    }
    if !all_given(pattern, narrower, exprs, operands, conditions)? {
        return Ok(None);
    }
    let matched = pattern.old.as_slice();
    if !all_old(matched, value_types, narrower, exprs, operands, conditions)? {
        return Ok(None);
    }
    let Some(old) = operand_at(operands.as_slice(), pattern.root) else {
        return Ok(None);
    };
    let made = pattern.new.as_slice();
    if !all_new(made, value_types, narrower, exprs, operands, conditions)? {
        return Ok(None);
    }
    let Some(new) = operand_at(operands.as_slice(), pattern.result) else {
        return Ok(None);
    };
    Ok(Some(Results { old, new }))
}

/// Translates the old side of a pattern for a set of poison variables. Returns its result, or `None` if claims can't
/// express it.
pub fn translate_old(
    pattern: &Pattern,
    narrower: &[Narrower],
    set: usize,
    exprs: &mut Vec<Expr>,
    operands: &mut Vec<Operand>,
    conditions: &mut Vec<usize>,
) -> Result<Option<Operand>, AllocError>
    requires few { length pattern.now.values.items ≤ 1000 }
    requires types { narrower.now ≡ narrower_types pattern.now.value_types.items pattern.now.type_constraints.items }
    requires none { exprs.old.items ≡ [] }
    requires empty { operands.old.items ≡ [] }
    requires free { conditions.old.items ≡ [] }
    ensures { IfOk result (λ r. IfSome r (λ x. empty_goal_of (pattern_model pattern.now) set ≡ empty_goal_from (pattern_model pattern.now) (state exprs.new.items operands.new.items conditions.new.items) x)) }
{
    let value_types = pattern.value_types.as_slice();
    if !first_variables(pattern, set, exprs, operands)? {
        return Ok(None);
    }
    if !all_given(pattern, narrower, exprs, operands, conditions)? {
        return Ok(None);
    }
    let matched = pattern.old.as_slice();
    if !all_old(matched, value_types, narrower, exprs, operands, conditions)? {
        return Ok(None);
    }
    Ok(operand_at(operands.as_slice(), pattern.root))
}
