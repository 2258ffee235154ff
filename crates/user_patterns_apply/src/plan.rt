//! The rewrite plan of a pattern at an operation.
ghost use Rattle.std.specs.Prelude.{◌≡◌, IfOk, Some, is_none, map, option_map, true};
ghost use Rattle.std.specs.List.{list_all};
ghost use Rattle.std.specs.Result.{result_err, result_ok};
ghost use Rattle.ir_event.specs.Modules.{module_in};
ghost use Rattle.dialects_int.specs.Folds.{known_of};
ghost use Rattle.patterns_base.specs.Looks.{is_verified};
ghost use Rattle.user_patterns_check.specs.Checks.{Stands};
ghost use Rattle.user_patterns_check.specs.Contents.{Content};
ghost use Rattle.user_patterns_check.specs.Outcomes.{run};
ghost use Rattle.user_patterns_data.specs.Fitting.{content_with};
ghost use Rattle.user_patterns_data.specs.Planning.{bound_type, planned_by, planned_from};
ghost use Rattle.user_patterns_data.specs.Shapes.{pattern_model};
ghost use Rattle.user_patterns_apply.specs.Matched.{any, matched};
ghost use Rattle.user_patterns_apply.specs.Mismatches.{fitting_tests, plan_tests, planned_tests, steps_tests, values_tests};
ghost use Rattle.user_patterns_apply.specs.Built.{BuiltIsOf, plan_in, plan_of};
ghost use Rattle.user_patterns_build.specs.CanBuild.{is_named};
ghost use Rattle.user_patterns_apply.specs.Types.{AreTypesOf, types_in};

use crate::building::{as_operands, make_all, operand_at};
use crate::constants::{outcomes, test_extra, test_known};
use crate::match_ops::{match_pattern, old_begins};
use crate::mismatch::Mismatch;
use crate::rewrite_plan::BuildPlan;
use crate::types::BoundType;
use crate::typing::{all_numeric, bound_types, kinds_of};
use crate::verified_operands::{test_constants, test_verified};
use ir_event::trees::value::Value;
use ir_event::types::bits::{Bits, BitsKind};
use ir_event::types::ids::OpId;
use ir_event::world::World;
use std::alloc::{AllocError, Global};
use user_patterns_build::can_build::can_build;
use user_patterns_check::step::Step;
use user_patterns_check::steps::run;
use user_patterns_data::applicability::is_applicable;
use user_patterns_data::pattern::Pattern;
use user_patterns_data::sides::constant_steps;

/// Returns the rewrite plan, given the bound values, the bound types and the computed numbers, or the first test that
/// fails.
fn build(
    alloc: Global,
    world: &World,
    pattern: &Pattern,
    values: &[Option<Value>],
    types: &[Option<BoundType>],
    env: &[Option<Bits>],
) -> Result<Result<BuildPlan, Mismatch>, AllocError>
    requires names { list_all is_named (pattern_model pattern.now).new ≡ true }
    requires of { AreTypesOf world.now.ctx types.now }
    ensures plan { IfOk result (λ p. option_map (plan_in world.now.ctx (module_in world.now).next) (result_ok p)
        ≡ planned_from (module_in world.now).tree (is_verified (module_in world.now).tree) (module_in world.now).next
        (pattern_model pattern.now) values.now (types_in world.now.ctx types.now) (map known_of env.now)) }
    ensures tests { IfOk result (λ p. result_err p ≡ planned_tests (module_in world.now).tree (is_verified (module_in world.now).tree)
        (module_in world.now).next (pattern_model pattern.now) values.now (types_in world.now.ctx types.now) (map known_of env.now)) }
    ensures of { IfOk result (λ p. IfOk p (BuiltIsOf world.now.ctx)) }
{
    if let Some(mismatch) = test_extra(alloc, world, pattern, values, env)? {
        return Ok(Err(mismatch));
    }
    let mut operands = as_operands(alloc, values)?;
    let next = world.store.next_id();
    let begins = old_begins(pattern) + pattern.old.len() as u128;
    let new = &pattern.new;
    let Some(made) = make_all(
        alloc,
        &world.ctx,
        next,
        begins,
        new,
        types,
        env,
        &mut operands,
    )?
    else {
        return Ok(Err(Mismatch::Unbuildable));
    };
    match operand_at(&operands, pattern.result) {
        Some(result) => Ok(Ok(BuildPlan { made, result })),
        None => Ok(Err(Mismatch::Unbuildable)),
    }
}

/// Appends the results of the steps to `env`. Returns the first test that fails: a step isn't defined.
fn run_steps(steps: &[Step], env: &mut Vec<Option<Bits>>) -> Result<Option<Mismatch>, AllocError>
    ensures stands { IfOk result (λ m. Stands (run steps.now (map known_of env.old.items)) (map known_of env.new.items) (is_none m)) }
    ensures tests { IfOk result (λ m. m ≡ steps_tests 0 steps.now (map known_of env.old.items)) }
{
    let mut index: usize = 0;
    let mut rest = steps;
    'steps: while let [first, tail @ ..] = rest {
        if !run(&[*first], env)? {
            return Ok(Some(Mismatch::Constraint(index)));
        }
        index += 1;
        rest = tail;
    }
    Ok(None)
}

/// Appends the numbers that the pattern computes to those of its variables. Returns the first test that fails.
fn run_given(
    alloc: Global,
    value_types: &[BitsKind],
    pattern: &Pattern,
    env: &mut Vec<Option<Bits>>,
) -> Result<Option<Mismatch>, AllocError>
    ensures stands { IfOk result (λ m. Stands (run (Content.given (content_with value_types.now (pattern_model pattern.now)))
        (map known_of env.old.items)) (map known_of env.new.items) (is_none m)) }
    ensures tests { IfOk result (λ m. m ≡ steps_tests 0 (Content.given (content_with value_types.now (pattern_model pattern.now)))
        (map known_of env.old.items)) }
{
    let steps = constant_steps(alloc, value_types, pattern)?;
    run_steps(&steps, env)
}

/// Returns the rewrite plan, given the bound values, the bound types and the kinds of the types, or the first test that
/// fails.
fn plan_with(
    alloc: Global,
    world: &World,
    pattern: &Pattern,
    values: &[Option<Value>],
    types: &[Option<BoundType>],
    value_types: &[BitsKind],
) -> Result<Result<BuildPlan, Mismatch>, AllocError>
    requires names { list_all is_named (pattern_model pattern.now).new ≡ true }
    requires of { AreTypesOf world.now.ctx types.now }
    requires value_types { value_types.now ≡ map bound_type (types_in world.now.ctx types.now) }
    ensures plan { IfOk result (λ p. option_map (plan_in world.now.ctx (module_in world.now).next) (result_ok p)
        ≡ planned_by (module_in world.now).tree (is_verified (module_in world.now).tree) (module_in world.now).next
        (pattern_model pattern.now) values.now (types_in world.now.ctx types.now)) }
    ensures tests { IfOk result (λ p. result_err p ≡ fitting_tests (module_in world.now).tree (is_verified (module_in world.now).tree)
        (module_in world.now).next (pattern_model pattern.now) values.now (types_in world.now.ctx types.now)) }
    ensures of { IfOk result (λ p. IfOk p (BuiltIsOf world.now.ctx)) }
{
    if !all_numeric(&world.ctx, types) {
        return Ok(Err(Mismatch::NotNumeric));
    }
    if !is_applicable(value_types, pattern) {
        return Ok(Err(Mismatch::Types));
    }
    if let Some(mismatch) = test_known(alloc, world, pattern, values)? {
        return Ok(Err(mismatch));
    }
    let mut env = outcomes(alloc, world, pattern, values)?;
    if let Some(mismatch) = run_given(alloc, value_types, pattern, &mut env)? {
        return Ok(Err(mismatch));
    }
    build(alloc, world, pattern, values, types, &env)
}

/// Returns the rewrite plan, given the bound values and the bound types, or the first test that fails.
fn plan_by(
    alloc: Global,
    world: &World,
    pattern: &Pattern,
    values: &[Option<Value>],
    types: &[Option<BoundType>],
) -> Result<Result<BuildPlan, Mismatch>, AllocError>
    requires names { list_all is_named (pattern_model pattern.now).new ≡ true }
    requires of { AreTypesOf world.now.ctx types.now }
    ensures plan { IfOk result (λ p. option_map (plan_in world.now.ctx (module_in world.now).next) (result_ok p)
        ≡ planned_by (module_in world.now).tree (is_verified (module_in world.now).tree) (module_in world.now).next
        (pattern_model pattern.now) values.now (types_in world.now.ctx types.now)) }
    ensures tests { IfOk result (λ p. result_err p ≡ fitting_tests (module_in world.now).tree (is_verified (module_in world.now).tree)
        (module_in world.now).next (pattern_model pattern.now) values.now (types_in world.now.ctx types.now)) }
    ensures of { IfOk result (λ p. IfOk p (BuiltIsOf world.now.ctx)) }
{
    let value_types = kinds_of(alloc, &world.ctx, types)?;
    plan_with(alloc, world, pattern, values, types, &value_types)
}

/// Returns the rewrite plan, given the values that a match at `op` bound, or the first test that fails.
///
/// The test that constants define the pattern's constants comes first because it is cheap. The test that the matched
/// operations are verified comes after it because it allocates memory.
fn plan_at(
    alloc: Global,
    world: &World,
    pattern: &Pattern,
    op: OpId,
    values: &[Option<Value>],
) -> Result<Result<BuildPlan, Mismatch>, AllocError>
    requires matched { Some values.now ≡ matched (module_in world.now).tree any (pattern_model pattern.now) op }
    ensures plan { IfOk result (λ p. option_map (plan_in world.now.ctx (module_in world.now).next) (result_ok p)
        ≡ plan_of (module_in world.now).tree (is_verified (module_in world.now).tree) (module_in world.now).next
        (pattern_model pattern.now) op) }
    ensures tests { IfOk result (λ p. result_err p ≡ values_tests (module_in world.now).tree (is_verified (module_in world.now).tree)
        (module_in world.now).next (pattern_model pattern.now) values.now) }
    ensures of { IfOk result (λ p. IfOk p (BuiltIsOf world.now.ctx)) }
{
    if let Some(mismatch) = test_constants(world, &pattern.constants, values) {
        return Ok(Err(mismatch));
    }
    if !can_build(pattern) {
        return Ok(Err(Mismatch::Unbuildable));
    }
    if let Some(mismatch) = test_verified(
        alloc,
        world,
        old_begins(pattern),
        &pattern.old,
        values,
    )? {
        return Ok(Err(mismatch));
    }
    match bound_types(alloc, world, pattern, values)? {
        Ok(types) => plan_by(alloc, world, pattern, values, &types),
        Err(mismatch) => Ok(Err(mismatch)),
    }
}

/// Returns the rewrite plan of `pattern` at operation `op`, or the first test of the pattern that fails. The names of the matched operations are compared first, which is cheap. Nothing is interned.
pub fn plan(
    alloc: Global,
    world: &World,
    pattern: &Pattern,
    op: OpId,
) -> Result<Result<BuildPlan, Mismatch>, AllocError>
    ensures plan { IfOk result (λ p. option_map (plan_in world.now.ctx (module_in world.now).next) (result_ok p)
        ≡ plan_of (module_in world.now).tree (is_verified (module_in world.now).tree) (module_in world.now).next
        (pattern_model pattern.now) op) }
    ensures tests { IfOk result (λ p. result_err p ≡ plan_tests (module_in world.now).tree (is_verified (module_in world.now).tree)
        (module_in world.now).next (pattern_model pattern.now) op) }
    ensures of { IfOk result (λ p. IfOk p (BuiltIsOf world.now.ctx)) }
{
    match match_pattern(alloc, world, pattern, op)? {
        Ok(values) => plan_at(alloc, world, pattern, op, &values),
        Err(mismatch) => Ok(Err(mismatch)),
    }
}
