//! The numbers of a pattern at an operation.
ghost use Rattle.std.specs.Prelude.{◌≡◌, IfOk, Some, map, take};
ghost use Rattle.ir_event.specs.Modules.{module_in};
ghost use Rattle.dialects_int.specs.Folds.{known_of};
ghost use Rattle.patterns_base.specs.Looks.{is_verified};
ghost use Rattle.user_patterns_data.specs.Shapes.{pattern_model};
ghost use Rattle.user_patterns_apply.specs.Matched.{any, matched};
ghost use Rattle.user_patterns_apply.specs.Numbers.{numbers_at, numbers_given};
ghost use Rattle.user_patterns_apply.specs.Types.{AreTypesOf, types_in};

use crate::constants::outcomes;
use crate::match_ops::match_pattern;
use crate::types::BoundType;
use crate::typing::{bound_types, kinds_of};
use ir_event::trees::value::Value;
use ir_event::types::bits::Bits;
use ir_event::types::ids::OpId;
use ir_event::world::World;
use std::alloc::{AllocError, Global};
use user_patterns_check::step::Step;
use user_patterns_check::steps::run;
use user_patterns_data::pattern::Pattern;
use user_patterns_data::sides::constant_steps;

/// Returns the first `most` steps.
fn first_steps<'a>(steps: &'a [Step], most: usize) -> &'a [Step]
    ensures { result.now ≡ take most steps.now }
{
    if most < steps.len() {
        &steps[..most]
    } else {
        steps
    }
}

/// Returns the numbers of the pattern's variables and then the first `most` computed ones, given the bound values and the
/// bound types.
fn numbers_given(
    alloc: Global,
    world: &World,
    pattern: &Pattern,
    values: &[Option<Value>],
    types: &[Option<BoundType>],
    most: usize,
) -> Result<Vec<Option<Bits>>, AllocError>
    requires { AreTypesOf world.now.ctx types.now }
    ensures { IfOk result (λ env. map known_of env.items ≡ numbers_given (module_in world.now).tree (is_verified (module_in world.now).tree)
        (module_in world.now).next (pattern_model pattern.now) most values.now (types_in world.now.ctx types.now)) }
{
    let value_types = kinds_of(alloc, &world.ctx, types)?;
    let mut env = outcomes(alloc, world, pattern, values)?;
    let steps = constant_steps(alloc, &value_types, pattern)?;
    if run(first_steps(&steps, most), &mut env)? {
        Ok(env)
    } else {
        Ok(Vec::new(alloc))
    }
}

/// Returns the numbers of the pattern's variables and then the first `most` computed ones, given the values that a match
/// at `op` bound.
fn numbers_of(
    alloc: Global,
    world: &World,
    pattern: &Pattern,
    op: OpId,
    values: &[Option<Value>],
    most: usize,
) -> Result<Vec<Option<Bits>>, AllocError>
    requires { Some values.now ≡ matched (module_in world.now).tree any (pattern_model pattern.now) op }
    ensures { IfOk result (λ env. map known_of env.items ≡ numbers_at (module_in world.now).tree (is_verified (module_in world.now).tree)
        (module_in world.now).next (pattern_model pattern.now) op most) }
{
    match bound_types(alloc, world, pattern, values)? {
        Ok(types) => numbers_given(alloc, world, pattern, values, &types, most),
        Err(_) => Ok(Vec::new(alloc)),
    }
}

/// Returns the numbers of the pattern's variables at operation `op`, and then the first `most` computed ones. There are
/// none if the pattern ops don't match, their types don't agree, or one of these numbers isn't defined.
///
/// Errors: memory runs out.
pub fn numbers_at(
    alloc: Global,
    world: &World,
    pattern: &Pattern,
    op: OpId,
    most: usize,
) -> Result<Vec<Option<Bits>>, AllocError>
    ensures { IfOk result (λ env. map known_of env.items ≡ numbers_at (module_in world.now).tree (is_verified (module_in world.now).tree)
        (module_in world.now).next (pattern_model pattern.now) op most) }
{
    match match_pattern(alloc, world, pattern, op)? {
        Ok(values) => numbers_of(alloc, world, pattern, op, &values, most),
        Err(_) => Ok(Vec::new(alloc)),
    }
}
