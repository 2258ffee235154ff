//! Translates the instructions of a pattern in order.
ghost use Rattle.std.specs.Prelude.{◌≡◌, IfOk, map};
ghost use Rattle.user_patterns_claims.specs.Code.{IsReachedState, state};
ghost use Rattle.user_patterns_claims.specs.Translation.{all_translated, form_instruction, extra_instruction, new_instruction, number_instruction, old_instruction};

use crate::translate::translate;
use dialects_int::operations::Arithmetic;
use std::alloc::AllocError;
use user_patterns_data::pattern::{
    ConstantExpression, Expression, ExtraConstant, NewValue, PatternOp, PatternType,
};
use user_patterns_instructions::instruction::Instruction;
use user_patterns_instructions::operand::Operand;
use width_claims::form::Expr as Emitted;
use width_claims::width::Narrower;

fn extra_instruction(extra: &ExtraConstant) -> Instruction
    ensures { result ≡ extra_instruction extra.now }
{
    match extra {
        ExtraConstant::Literal(literal) => Instruction::Number(*literal),
        ExtraConstant::SameAs(i) => Instruction::Copy(*i),
    }
}

fn number_instruction(number: &ConstantExpression) -> Instruction
    ensures { result ≡ number_instruction number.now }
{
    match number {
        ConstantExpression::Literal(literal) => Instruction::Number(*literal),
        ConstantExpression::Width(ty) => Instruction::Width(*ty),
        ConstantExpression::Binary(operation, i, j) => Instruction::Pair(*operation, *i, *j),
        ConstantExpression::Compare(predicate, i, j) => Instruction::Compare(*predicate, *i, *j),
        ConstantExpression::Log2(i) => Instruction::Log(*i),
        ConstantExpression::Require(i) => Instruction::Require(*i),
    }
}

fn form_instruction(ty: usize, form: &Expression) -> Instruction
    ensures { result ≡ form_instruction ty form.now }
{
    match form {
        Expression::Binary(operation, i, j) => Instruction::Pair(*operation, *i, *j),
        Expression::Compare(predicate, i, j) => Instruction::Compare(*predicate, *i, *j),
        Expression::Select(c, i, j) => Instruction::Select(*c, *i, *j),
        Expression::IntegerCast(cast, i) => Instruction::Resize(*cast, ty, *i),
        Expression::IndexCast(cast, i) => Instruction::Resize(*cast, ty, *i),
    }
}

fn old_instruction(expr: &PatternOp) -> Instruction
    ensures { result ≡ old_instruction expr.now }
{
    match &expr.form {
        Expression::Binary(Arithmetic::DivideSigned, i, j) => Instruction::Divide(*i, *j),
        form => form_instruction(expr.ty, form),
    }
}

fn new_instruction(new: &NewValue) -> Instruction
    ensures { result ≡ new_instruction new.now }
{
    match new {
        NewValue::Operation(expr) => form_instruction(expr.ty, &expr.form),
        NewValue::Constant(i, _) => Instruction::Copy(*i),
    }
}

/// Translates the extra constants. Returns whether claims can express them.
pub fn all_extra(
    extra: &[ExtraConstant],
    value_types: &[PatternType],
    narrower: &[Narrower],
    exprs: &mut Vec<Emitted>,
    operands: &mut Vec<Operand>,
    conditions: &mut Vec<usize>,
) -> Result<bool, AllocError>
    ensures { IfOk result (IsReachedState (all_translated value_types.now narrower.now (map extra_instruction extra.now) (state exprs.old.items operands.old.items conditions.old.items)) exprs.new.items operands.new.items conditions.new.items) }
{
    let [first, tail @ ..] = extra else {
        return Ok(true);
    };
    let instruction = extra_instruction(first);
    let done = translate(
        &instruction,
        value_types,
        narrower,
        exprs,
        operands,
        conditions,
    )?;
    if !done {
        return Ok(false);
    }
    all_extra(tail, value_types, narrower, exprs, operands, conditions)
}

/// Translates the computed numbers. Returns whether claims can express them.
pub fn all_numbers(
    numbers: &[ConstantExpression],
    value_types: &[PatternType],
    narrower: &[Narrower],
    exprs: &mut Vec<Emitted>,
    operands: &mut Vec<Operand>,
    conditions: &mut Vec<usize>,
) -> Result<bool, AllocError>
    ensures { IfOk result (IsReachedState (all_translated value_types.now narrower.now (map number_instruction numbers.now) (state exprs.old.items operands.old.items conditions.old.items)) exprs.new.items operands.new.items conditions.new.items) }
{
    let [first, tail @ ..] = numbers else {
        return Ok(true);
    };
    let instruction = number_instruction(first);
    let done = translate(
        &instruction,
        value_types,
        narrower,
        exprs,
        operands,
        conditions,
    )?;
    if !done {
        return Ok(false);
    }
    all_numbers(tail, value_types, narrower, exprs, operands, conditions)
}

/// Translates the matched operations. Returns whether claims can express them.
pub fn all_old(
    old: &[PatternOp],
    value_types: &[PatternType],
    narrower: &[Narrower],
    exprs: &mut Vec<Emitted>,
    operands: &mut Vec<Operand>,
    conditions: &mut Vec<usize>,
) -> Result<bool, AllocError>
    ensures { IfOk result (IsReachedState (all_translated value_types.now narrower.now (map old_instruction old.now) (state exprs.old.items operands.old.items conditions.old.items)) exprs.new.items operands.new.items conditions.new.items) }
{
    let [first, tail @ ..] = old else {
        return Ok(true);
    };
    let instruction = old_instruction(first);
    let done = translate(
        &instruction,
        value_types,
        narrower,
        exprs,
        operands,
        conditions,
    )?;
    if !done {
        return Ok(false);
    }
    all_old(tail, value_types, narrower, exprs, operands, conditions)
}

/// Translates the new operations and constants. Returns whether claims can express them.
pub fn all_new(
    made: &[NewValue],
    value_types: &[PatternType],
    narrower: &[Narrower],
    exprs: &mut Vec<Emitted>,
    operands: &mut Vec<Operand>,
    conditions: &mut Vec<usize>,
) -> Result<bool, AllocError>
    ensures { IfOk result (IsReachedState (all_translated value_types.now narrower.now (map new_instruction made.now) (state exprs.old.items operands.old.items conditions.old.items)) exprs.new.items operands.new.items conditions.new.items) }
{
    let [first, tail @ ..] = made else {
        return Ok(true);
    };
    let instruction = new_instruction(first);
    let done = translate(
        &instruction,
        value_types,
        narrower,
        exprs,
        operands,
        conditions,
    )?;
    if !done {
        return Ok(false);
    }
    all_new(tail, value_types, narrower, exprs, operands, conditions)
}
