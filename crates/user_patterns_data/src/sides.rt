//! Instantiates a pattern at given widths.
ghost use Rattle.std.specs.Prelude.{◌≡◌, ◌++◌, IfOk, map};
ghost use Rattle.user_patterns_check.specs.Contents.{Content, content};
ghost use Rattle.user_patterns_data.specs.Fitting as fitting;
ghost use Rattle.user_patterns_data.specs.Shapes.{pattern_model};

use crate::applicability::{extra_step, is_applicable, new_step, number_step, pattern_op_step};
use crate::literals::{kind_at, kind_with};
use crate::pattern::{
    ConstantExpression, ExtraConstant, NewValue, Pattern, PatternOp, PatternType,
};
use ir_types::bits::BitsKind;
use std::alloc::{AllocError, Global};
use user_patterns_check::family::Family;
use user_patterns_check::sides::Instance;
use user_patterns_check::step::Step;

/// Returns the kinds of the types, whose variables have these widths.
fn kinds_with(
    alloc: Global,
    widths: &[u32],
    value_types: &[PatternType],
) -> Result<Vec<BitsKind>, AllocError>
    ensures { IfOk result (λ found. found.items ≡ fitting.kinds_with widths.now value_types.now) }
{
    let mut found = Vec::new(alloc);
    let mut rest = value_types;
    'value_types: while let [first, tail @ ..] = rest {
        found.push(kind_with(widths, *first))?;
        rest = tail;
    }
    Ok(found)
}

/// Returns the kinds of values, given the numbers of their types.
fn kinds_of(
    alloc: Global,
    value_types: &[BitsKind],
    values: &[usize],
) -> Result<Vec<BitsKind>, AllocError>
    ensures { IfOk result (λ found. found.items ≡ map (fitting.kind_at value_types.now) values.now) }
{
    let mut found = Vec::new(alloc);
    let mut rest = values;
    'values: while let [first, tail @ ..] = rest {
        found.push(kind_at(value_types, *first))?;
        rest = tail;
    }
    Ok(found)
}

/// Returns the steps of the extra constants.
fn extra_steps(
    alloc: Global,
    value_types: &[BitsKind],
    extra: &[ExtraConstant],
) -> Result<Vec<Step>, AllocError>
    ensures { IfOk result (λ steps. steps.items ≡ map (fitting.extra_step value_types.now) extra.now) }
{
    let mut steps = Vec::new(alloc);
    let mut rest = extra;
    'extra: while let [first, tail @ ..] = rest {
        steps.push(extra_step(value_types, first))?;
        rest = tail;
    }
    Ok(steps)
}

/// Appends the steps of the computed numbers.
fn number_steps(
    value_types: &[BitsKind],
    numbers: &[ConstantExpression],
    steps: &mut Vec<Step>,
) -> Result<(), AllocError>
    ensures { IfOk result (λ _. steps.new.items ≡ steps.old.items ++ map (fitting.number_step value_types.now) numbers.now) }
{
    let mut rest = numbers;
    'numbers: while let [first, tail @ ..] = rest {
        steps.push(number_step(value_types, first))?;
        rest = tail;
    }
    Ok(())
}

/// Returns the steps of the matched operations.
fn old_steps(
    alloc: Global,
    value_types: &[BitsKind],
    old: &[PatternOp],
) -> Result<Vec<Step>, AllocError>
    ensures { IfOk result (λ steps. steps.items ≡ map (fitting.pattern_op_step value_types.now) old.now) }
{
    let mut steps = Vec::new(alloc);
    let mut rest = old;
    'old: while let [first, tail @ ..] = rest {
        steps.push(pattern_op_step(value_types, first))?;
        rest = tail;
    }
    Ok(steps)
}

/// Returns the steps of the new values.
fn new_steps(
    alloc: Global,
    value_types: &[BitsKind],
    new: &[NewValue],
) -> Result<Vec<Step>, AllocError>
    ensures { IfOk result (λ steps. steps.items ≡ map (fitting.new_step value_types.now) new.now) }
{
    let mut steps = Vec::new(alloc);
    let mut rest = new;
    'new: while let [first, tail @ ..] = rest {
        steps.push(new_step(value_types, first))?;
        rest = tail;
    }
    Ok(steps)
}

/// Returns the steps that compute numbers from the constants and test the conditions, at types of these kinds.
pub fn constant_steps(
    alloc: Global,
    value_types: &[BitsKind],
    pattern: &Pattern,
) -> Result<Vec<Step>, AllocError>
    ensures { IfOk result (λ steps. steps.items ≡ Content.given (fitting.content_with value_types.now (pattern_model pattern.now))) }
{
    let mut given = extra_steps(alloc, value_types, &pattern.extra)?;
    number_steps(value_types, &pattern.given, &mut given)?;
    Ok(given)
}

/// Returns the instance of a pattern at types of these kinds.
fn with_kinds(
    alloc: Global,
    value_types: &[BitsKind],
    pattern: &Pattern,
) -> Result<Instance, AllocError>
    ensures { IfOk result (λ s. content s ≡ fitting.content_with value_types.now (pattern_model pattern.now)) }
{
    let given = constant_steps(alloc, value_types, pattern)?;
    let values = kinds_of(alloc, value_types, &pattern.values)?;
    let old = old_steps(alloc, value_types, &pattern.old)?;
    let new = new_steps(alloc, value_types, &pattern.new)?;
    Ok(Instance {
        applies: is_applicable(value_types, pattern),
        value_types: values,
        given,
        old,
        old_result: pattern.root,
        new,
        new_result: pattern.result,
    })
}

impl Family for Pattern {
    ghost use Rattle.user_patterns_data.specs.Fitting.{content_at};
    ghost use Rattle.user_patterns_data.specs.Shapes.{pattern_model};

    ghost family = { λ p widths. content_at (pattern_model p) widths };

    fn sides(&self, alloc: Global, widths: &[u32]) -> Result<Instance, AllocError> {
        let value_types = kinds_with(alloc, widths, &self.value_types)?;
        with_kinds(alloc, &value_types, self)
    }
}
