//! Translates instructions to expressions.
ghost use Rattle.std.specs.Prelude.{◌≡◌, ◌≤◌, IfOk, Some};
ghost use Rattle.user_patterns_check.specs.Outcomes.{given};
ghost use Rattle.user_patterns_instructions.specs.Code.{IsResult, IsResultIf};
ghost use Rattle.user_patterns_claims.specs.Code.{IsCondition, IsPlain, IsStateIf, state};
ghost use Rattle.width_claims.specs.declared.form.Form.TheVariants as form;
ghost use Rattle.user_patterns_instructions.specs.Expressions.{compare_result, divide_result, if_known, operand_at, pair_result, push_expr, resize_result, select_result, type_at};
ghost use Rattle.user_patterns_claims.specs.Translation.{literal_result, log_state, number_state, power_made, power_there, required, result_of, top_power, translated};

use dialects_int::operations::{Arithmetic, Cast, Predicate};
use std::alloc::AllocError;
use user_patterns_data::pattern::{Literal, PatternType};
use user_patterns_instructions::instruction::Instruction;
use user_patterns_instructions::operand::{Operand, Poison};
use user_patterns_instructions::operations::{
    compare_result, divide_result, pair_result, resize_result, select_result,
};
use user_patterns_instructions::types::type_at;
use user_patterns_instructions::values::{literal_form, push_expr};
use width_claims::form::{Expr, Form};
use width_claims::width::Narrower;

fn if_known(operand: &Operand) -> Option<Operand>
    ensures { result ≡ if_known operand.now }
{
    if operand.known { Some(*operand) } else { None }
}

/// Returns the operand at `place`, if an expression computes it.
pub fn operand_at(operands: &[Operand], place: usize) -> Option<Operand>
    ensures { result ≡ operand_at operands.now place }
{
    match operands.get(place) {
        Some(operand) => if_known(operand),
        None => None,
    }
}

/// Appends a literal, and returns its operand.
fn literal_result(
    literal: &Literal,
    ty: usize,
    exprs: &mut Vec<Expr>,
) -> Result<Operand, AllocError>
    ensures { IfOk result (IsResult (literal_result literal.now exprs.old.items ty) exprs.new.items) }
{
    let value = push_expr(exprs, ty, literal_form(literal))?;
    Ok(Operand {
        value,
        poison: Poison::Never,
        ty,
        written: Some(*literal),
        known: true,
    })
}

/// Returns the greatest power of two that is at most `n`, if `n` is at most `most`.
fn top_power(most: u128, n: u128) -> u128
    requires { 1 ≤ n }
    ensures is { result ≡ top_power most n }
    ensures low { result ≤ n }
{
    if most == 0 {
        return 1;
    }
    if n < 2 {
        return 1;
    }
    let half = top_power(most - 1, n / 2);
    2 * half
}

/// Appends the condition that a type contains the greatest power of two that is at most `n`.
fn power_there(
    n: u128,
    ty: usize,
    exprs: &mut Vec<Expr>,
    conditions: &mut Vec<usize>,
) -> Result<(), AllocError>
    requires { 1 ≤ n }
    ensures { IfOk result (IsCondition (power_there (push_expr exprs.old.items ty (form.Literal (top_power n n)))) conditions.old.items exprs.new.items conditions.new.items) }
{
    let power = push_expr(exprs, ty, Form::Literal(top_power(n, n)))?;
    let place = push_expr(exprs, 0, Form::Less(0, power))?;
    conditions.push(place)?;
    Ok(())
}

/// Appends a literal, and the condition that it is in range of its type.
fn number_state(
    literal: &Literal,
    ty: usize,
    exprs: &mut Vec<Expr>,
    operands: &mut Vec<Operand>,
    conditions: &mut Vec<usize>,
) -> Result<bool, AllocError>
    ensures { IfOk result (IsStateIf (Some (number_state (state exprs.old.items operands.old.items conditions.old.items) literal.now ty)) exprs.new.items operands.new.items conditions.new.items) }
{
    let operand = literal_result(literal, ty, exprs)?;
    operands.push(operand)?;
    if literal.magnitude < 2 {
        return Ok(true);
    }
    power_there(literal.magnitude, ty, exprs, conditions)?;
    Ok(true)
}

fn number_at(
    literal: &Literal,
    value_types: &[PatternType],
    exprs: &mut Vec<Expr>,
    operands: &mut Vec<Operand>,
    conditions: &mut Vec<usize>,
) -> Result<bool, AllocError>
    ensures { IfOk result (IsStateIf (given (type_at value_types.now literal.now.ty) (λ t. Some (number_state (state exprs.old.items operands.old.items conditions.old.items) literal.now t))) exprs.new.items operands.new.items conditions.new.items) }
{
    let Some(ty) = type_at(value_types, literal.ty) else {
        return Ok(false);
    };
    number_state(literal, ty, exprs, operands, conditions)
}

fn pair_at(
    operation: &Arithmetic,
    i: usize,
    j: usize,
    operands: &[Operand],
    exprs: &mut Vec<Expr>,
) -> Result<Option<Operand>, AllocError>
    ensures { IfOk result (IsResultIf (given (operand_at operands.now i) (λ x. given (operand_at operands.now j) (λ y. pair_result operation.now x y exprs.old.items))) exprs.new.items) }
{
    let Some(x) = operand_at(operands, i) else {
        return Ok(None);
    };
    let Some(y) = operand_at(operands, j) else {
        return Ok(None);
    };
    pair_result(operation, &x, &y, exprs)
}

fn divide_at(i: usize, j: usize, operands: &[Operand]) -> Option<Operand>
    ensures { result ≡ given (operand_at operands.now i) (λ x. given (operand_at operands.now j) (divide_result x)) }
{
    let x = operand_at(operands, i)?;
    let y = operand_at(operands, j)?;
    divide_result(&x, &y)
}

fn compare_at(
    predicate: &Predicate,
    i: usize,
    j: usize,
    operands: &[Operand],
    exprs: &mut Vec<Expr>,
) -> Result<Option<Operand>, AllocError>
    ensures { IfOk result (IsResultIf (given (operand_at operands.now i) (λ x. given (operand_at operands.now j) (λ y. compare_result predicate.now x y exprs.old.items))) exprs.new.items) }
{
    let Some(x) = operand_at(operands, i) else {
        return Ok(None);
    };
    let Some(y) = operand_at(operands, j) else {
        return Ok(None);
    };
    compare_result(predicate, &x, &y, exprs)
}

fn select_at(
    c: usize,
    i: usize,
    j: usize,
    operands: &[Operand],
    exprs: &mut Vec<Expr>,
) -> Result<Option<Operand>, AllocError>
    ensures { IfOk result (IsResultIf (given (operand_at operands.now c) (λ b. given (operand_at operands.now i) (λ x. given (operand_at operands.now j) (λ y. select_result b x y exprs.old.items)))) exprs.new.items) }
{
    let Some(condition) = operand_at(operands, c) else {
        return Ok(None);
    };
    let Some(x) = operand_at(operands, i) else {
        return Ok(None);
    };
    let Some(y) = operand_at(operands, j) else {
        return Ok(None);
    };
    select_result(&condition, &x, &y, exprs)
}

fn resize_at(
    value_types: &[PatternType],
    narrower: &[Narrower],
    cast: &Cast,
    ty: usize,
    x: Option<Operand>,
    exprs: &mut Vec<Expr>,
) -> Result<Option<Operand>, AllocError>
    ensures { IfOk result (IsResultIf (given x (λ x. given (type_at value_types.now ty) (λ t. resize_result narrower.now cast.now t x exprs.old.items))) exprs.new.items) }
{
    let Some(x) = x else {
        return Ok(None);
    };
    let Some(ty) = type_at(value_types, ty) else {
        return Ok(None);
    };
    resize_result(narrower, cast, ty, &x, exprs)
}

/// Returns the operand of an instruction, or `None` if claims can't express it.
fn result_of(
    value_types: &[PatternType],
    narrower: &[Narrower],
    instruction: &Instruction,
    operands: &[Operand],
    exprs: &mut Vec<Expr>,
) -> Result<Option<Operand>, AllocError>
    ensures { IfOk result (IsResultIf (result_of value_types.now narrower.now instruction.now operands.now exprs.old.items) exprs.new.items) }
{
    match instruction {
        Instruction::Number(_) => Ok(None),
        Instruction::Copy(i) => Ok(operand_at(operands, *i)),
        Instruction::Pair(operation, i, j) => pair_at(operation, *i, *j, operands, exprs),
        Instruction::Divide(i, j) => Ok(divide_at(*i, *j, operands)),
        Instruction::Compare(predicate, i, j) => compare_at(predicate, *i, *j, operands, exprs),
        Instruction::Select(c, i, j) => select_at(*c, *i, *j, operands, exprs),
        Instruction::Resize(cast, ty, i) => {
            let x = operand_at(operands, *i);
            resize_at(value_types, narrower, cast, *ty, x, exprs)
        }
        Instruction::Require(_) => Ok(None),
        Instruction::Width(_) => Ok(None),
        Instruction::Log(_) => Ok(None),
    }
}

/// Appends the condition that an operand isn't 0.
fn required(
    x: &Operand,
    exprs: &mut Vec<Expr>,
    operands: &mut Vec<Operand>,
    conditions: &mut Vec<usize>,
) -> Result<bool, AllocError>
    ensures { IfOk result (IsStateIf (required (state exprs.old.items operands.old.items conditions.old.items) x.now x.now.poison) exprs.new.items operands.new.items conditions.new.items) }
{
    match x.poison {
        Poison::Never => {
            let place = push_expr(exprs, 0, Form::Less(0, x.value))?;
            operands.push(*x)?;
            conditions.push(place)?;
            Ok(true)
        }
        Poison::Always | Poison::When(_) => Ok(false),
    }
}

fn require_at(
    i: usize,
    exprs: &mut Vec<Expr>,
    operands: &mut Vec<Operand>,
    conditions: &mut Vec<usize>,
) -> Result<bool, AllocError>
    ensures { IfOk result (IsStateIf (given (operand_at operands.old.items i) (λ x. required (state exprs.old.items operands.old.items conditions.old.items) x x.poison)) exprs.new.items operands.new.items conditions.new.items) }
{
    let Some(x) = operand_at(operands.as_slice(), i) else {
        return Ok(false);
    };
    required(&x, exprs, operands, conditions)
}

/// Appends the condition that a number is a power of two.
fn power_made(
    i: usize,
    ty: usize,
    exprs: &mut Vec<Expr>,
    conditions: &mut Vec<usize>,
) -> Result<(), AllocError>
    ensures { IfOk result (IsCondition (power_made i ty exprs.old.items) conditions.old.items exprs.new.items conditions.new.items) }
{
    let one = push_expr(exprs, ty, Form::Literal(1))?;
    let less = push_expr(exprs, ty, Form::Subtract(i, one))?;
    let bits = push_expr(exprs, ty, Form::ExclusiveOr(i, less))?;
    let place = push_expr(exprs, 0, Form::Less(less, bits))?;
    conditions.push(place)?;
    Ok(())
}

/// Appends a logarithm, which isn't known, and the condition that it is one.
fn log_state(
    x: &Operand,
    exprs: &mut Vec<Expr>,
    operands: &mut Vec<Operand>,
    conditions: &mut Vec<usize>,
) -> Result<bool, AllocError>
    ensures { IfOk result (IsStateIf (log_state (state exprs.old.items operands.old.items conditions.old.items) x.now x.now.poison) exprs.new.items operands.new.items conditions.new.items) }
{
    match x.poison {
        Poison::Never => {
            power_made(x.value, x.ty, exprs, conditions)?;
            operands.push(Operand {
                value: 0,
                poison: Poison::Never,
                ty: 0,
                written: None,
                known: false,
            })?;
            Ok(true)
        }
        Poison::Always | Poison::When(_) => Ok(false),
    }
}

fn log_at(
    i: usize,
    exprs: &mut Vec<Expr>,
    operands: &mut Vec<Operand>,
    conditions: &mut Vec<usize>,
) -> Result<bool, AllocError>
    ensures { IfOk result (IsStateIf (given (operand_at operands.old.items i) (λ x. log_state (state exprs.old.items operands.old.items conditions.old.items) x x.poison)) exprs.new.items operands.new.items conditions.new.items) }
{
    let Some(x) = operand_at(operands.as_slice(), i) else {
        return Ok(false);
    };
    log_state(&x, exprs, operands, conditions)
}

/// Appends the operand of an instruction that has no condition. Returns whether claims can express it.
fn plain_at(
    instruction: &Instruction,
    value_types: &[PatternType],
    narrower: &[Narrower],
    exprs: &mut Vec<Expr>,
    operands: &mut Vec<Operand>,
) -> Result<bool, AllocError>
    ensures { IfOk result (λ done. IsPlain (result_of value_types.now narrower.now instruction.now operands.old.items exprs.old.items) operands.old.items exprs.new.items operands.new.items done) }
{
    let made = result_of(
        value_types,
        narrower,
        instruction,
        operands.as_slice(),
        exprs,
    )?;
    let Some(operand) = made else {
        return Ok(false);
    };
    operands.push(operand)?;
    Ok(true)
}

/// Appends the operand of an instruction. Returns whether claims can express it.
#[tactic(auto, unfolding(crate::specs::Translation::translated))]
pub fn translate(
    instruction: &Instruction,
    value_types: &[PatternType],
    narrower: &[Narrower],
    exprs: &mut Vec<Expr>,
    operands: &mut Vec<Operand>,
    conditions: &mut Vec<usize>,
) -> Result<bool, AllocError>
    ensures { IfOk result (IsStateIf (translated value_types.now narrower.now instruction.now (state exprs.old.items operands.old.items conditions.old.items)) exprs.new.items operands.new.items conditions.new.items) }
{
    match instruction {
        Instruction::Number(literal) => {
            number_at(literal, value_types, exprs, operands, conditions)
        }
        Instruction::Require(i) => require_at(*i, exprs, operands, conditions),
        Instruction::Log(i) => log_at(*i, exprs, operands, conditions),
        Instruction::Copy(_)
        | Instruction::Pair(_, _, _)
        | Instruction::Divide(_, _)
        | Instruction::Compare(_, _, _)
        | Instruction::Select(_, _, _)
        | Instruction::Resize(_, _, _)
        | Instruction::Width(_) => plain_at(instruction, value_types, narrower, exprs, operands),
    }
}
