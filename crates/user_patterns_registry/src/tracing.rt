//! The values that a pattern computes.
ghost use Rattle.std.specs.Prelude.{◌≡◌, [], IfOk, OnOk, map, option_map, slice_get};
ghost use Rattle.dialects_int.specs.Folds.{known_of};
ghost use Rattle.user_patterns_check.specs.Contents.{content};
ghost use Rattle.user_patterns_check.specs.Checks.{bound, old_steps};
ghost use Rattle.user_patterns_check.specs.Outcomes.{given, run};
ghost use Rattle.user_patterns_registry.specs.Shown.{new_shown, old_shown, outcomes, values_shown};

use ir_types::bits::{Bits, BitsKind};
use std::alloc::{AllocError, Global};
use user_patterns_check::sides::Instance;
use user_patterns_check::step::Step;
use user_patterns_check::steps::{bind, run};

/// Returns the entry of `env` at `place`, or `None` if `place` is out of bounds.
fn binding_at(env: &[Option<Bits>], place: usize) -> Option<Option<Bits>>
    ensures { option_map known_of result ≡ slice_get (map known_of env.now) place }
{
    if place < env.len() {
        Some(env[place])
    } else {
        None
    }
}

/// Returns the values with their kinds.
fn bound(
    alloc: Global,
    value_types: &[BitsKind],
    values: &[u128],
) -> Result<Option<Vec<Option<Bits>>>, AllocError>
    ensures { IfOk result (λ o. option_map (λ env. map known_of env.items) o ≡ bound value_types.now values.now []) }
{
    let mut env = Vec::new(alloc);
    if bind(value_types, values, &mut env)? {
        Ok(Some(env))
    } else {
        Ok(None)
    }
}

/// Returns the environment after the steps, or `None` if a step is undefined.
fn ran(steps: &[Step], env: Vec<Option<Bits>>) -> Result<Option<Vec<Option<Bits>>>, AllocError>
    ensures { IfOk result (λ o. option_map (λ env. map known_of env.items) o ≡ run steps.now (map known_of env.items)) }
{
    let mut env = env;
    if run(steps, &mut env)? {
        Ok(Some(env))
    } else {
        Ok(None)
    }
}

/// Returns the environment after the conditions and the steps of the old side, or `None` if a step is undefined.
fn old_env(
    alloc: Global,
    sides: &Instance,
    values: &[u128],
) -> Result<Option<Vec<Option<Bits>>>, AllocError>
    ensures { IfOk result (λ o. option_map (λ env. map known_of env.items) o ≡ old_steps (content sides.now) values.now []) }
{
    if !sides.applies {
        return Ok(None);
    }
    let Some(env) = bound(alloc, &sides.value_types, values)? else {
        return Ok(None);
    };
    let Some(env) = ran(&sides.given, env)? else {
        return Ok(None);
    };
    ran(&sides.old, env)
}

/// Returns the values of the variables, each with its kind.
pub(crate) fn values_shown(
    alloc: Global,
    sides: &Instance,
    values: &[u128],
) -> Result<Vec<Option<Bits>>, AllocError>
    ensures { IfOk result (λ env. outcomes env.items ≡ values_shown (content sides.now) values.now) }
{
    match bound(alloc, &sides.value_types, values)? {
        Some(env) => Ok(env),
        None => Ok(Vec::new(alloc)),
    }
}

/// Returns the result of the old side, or `None` if a step is undefined.
pub(crate) fn old_shown(
    alloc: Global,
    sides: &Instance,
    values: &[u128],
) -> Result<Option<Option<Bits>>, AllocError>
    ensures { IfOk result (λ o. option_map known_of o ≡ old_shown (content sides.now) values.now) }
{
    let Some(env) = old_env(alloc, sides, values)? else {
        return Ok(None);
    };
    Ok(binding_at(&env, sides.old_result))
}

/// Returns the result of the new side, or `None` if a step is undefined.
pub(crate) fn new_shown(
    alloc: Global,
    sides: &Instance,
    values: &[u128],
) -> Result<Option<Option<Bits>>, AllocError>
    ensures { IfOk result (λ o. option_map known_of o ≡ new_shown (content sides.now) values.now) }
{
    let Some(env) = old_env(alloc, sides, values)? else {
        return Ok(None);
    };
    let Some(env) = ran(&sides.new, env)? else {
        return Ok(None);
    };
    Ok(binding_at(&env, sides.new_result))
}
