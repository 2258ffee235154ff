//! The numbers of the constants that a pattern matches.
ghost use Rattle.std.specs.Prelude.{◌≡◌, ◌<◌, ◌^◌, IfOk, Option, map, option_map, slice_get};
ghost use Rattle.ir_event.specs.Modules.{module_in};
ghost use Rattle.dialects_int.specs.Folds.{known_of};
ghost use Rattle.patterns_base.specs.Looks.{is_verified};
ghost use Rattle.user_patterns_data.specs.Planning.{are_same, extra_place};
ghost use Rattle.user_patterns_data.specs.Planning.{known_at, outcomes};
ghost use Rattle.user_patterns_data.specs.Shapes.{pattern_model};
ghost use Rattle.user_patterns_apply.specs.Matched.{outcome_at};
ghost use Rattle.user_patterns_apply.specs.Mismatches.{extra_tests, known_tests};

use crate::mismatch::Mismatch;
use crate::places::binding_at;
use crate::types::same_kind;
use crate::verified_operands::is_first;
use ir_event::trees::value::Value;
use ir_event::types::bits::Bits;
use ir_event::world::World;
use patterns_matchers::constants::constant_value;
use std::alloc::{AllocError, Global};
use user_patterns_data::pattern::{ExtraConstant, Pattern};
use user_patterns_data::well_formed::is_among;

/// Returns the number of the value bound at `place`, or `None` if the value isn't a known constant.
fn known_at(
    alloc: Global,
    world: &World,
    pattern: &Pattern,
    place: u128,
    values: &[Option<Value>],
) -> Result<Option<Bits>, AllocError>
    ensures { IfOk result (λ k. known_of k ≡ known_at (module_in world.now).tree (is_verified (module_in world.now).tree)
        (module_in world.now).next (pattern_model pattern.now) values.now place) }
{
    let Some(value) = binding_at(values, place) else {
        return Ok(None);
    };
    if !is_first(&value) {
        return Ok(None);
    }
    let known = constant_value(alloc, world, &value)?;
    Ok(known)
}

/// Tests that the numbers of all constants of the pattern are known. Returns the first test that fails.
pub(crate) fn test_known(
    alloc: Global,
    world: &World,
    pattern: &Pattern,
    values: &[Option<Value>],
) -> Result<Option<Mismatch>, AllocError>
    ensures { IfOk result (λ m. m ≡ known_tests (module_in world.now).tree (is_verified (module_in world.now).tree)
        (module_in world.now).next (pattern_model pattern.now) values.now) }
{
    let mut rest: &[usize] = &pattern.constants;
    'constants: while let [first, tail @ ..] = rest {
        if known_at(alloc, world, pattern, *first as u128, values)?.is_none() {
            return Ok(Some(Mismatch::Unknown(*first)));
        }
        rest = tail;
    }
    Ok(None)
}

/// Returns the number of the value at `place` if the pattern has a constant there, and `None` otherwise.
fn outcome(
    alloc: Global,
    world: &World,
    pattern: &Pattern,
    place: usize,
    values: &[Option<Value>],
) -> Result<Option<Bits>, AllocError>
    ensures { IfOk result (λ k. known_of k ≡ outcome_at (module_in world.now).tree (is_verified (module_in world.now).tree)
        (module_in world.now).next (pattern_model pattern.now) values.now place) }
{
    if is_among(&pattern.constants, place) {
        known_at(alloc, world, pattern, place as u128, values)
    } else {
        Ok(None)
    }
}

/// Returns the number of each variable of the pattern. A variable that isn't a constant has `None`.
pub(crate) fn outcomes(
    alloc: Global,
    world: &World,
    pattern: &Pattern,
    values: &[Option<Value>],
) -> Result<Vec<Option<Bits>>, AllocError>
    ensures { IfOk result (λ env. map known_of env.items ≡ outcomes (module_in world.now).tree
        (is_verified (module_in world.now).tree) (module_in world.now).next (pattern_model pattern.now) 0
        (pattern_model pattern.now).values values.now) }
{
    let mut env = Vec::with_capacity(alloc, pattern.values.len())?;
    let mut place: usize = 0;
    let mut rest: &[usize] = &pattern.values;
    'values: while let [_, tail @ ..] = rest {
        env.push(outcome(alloc, world, pattern, place, values)?)?;
        place += 1;
        rest = tail;
    }
    Ok(env)
}

/// Returns whether both numbers are known and equal, with the same kind.
fn are_same(known: &Option<Bits>, wanted: &Option<Option<Bits>>) -> bool
    ensures { result ≡ are_same (known_of known.now) (option_map known_of wanted.now) }
{
    let Some(known) = known else {
        return false;
    };
    let Some(Some(wanted)) = wanted else {
        return false;
    };
    same_kind(known.kind, wanted.kind) && known.value == wanted.value
}

/// Returns the entry of `env` at `place`, or `None` if `place` is out of bounds.
pub(crate) fn value_at(env: &[Option<Bits>], place: u128) -> Option<Option<Bits>>
    ensures { option_map known_of result ≡ slice_get (map known_of env.now) place }
{
    if place < env.len() as u128 {
        Some(env[place as usize])
    } else {
        None
    }
}

/// Tests that each extra constant of the pattern has the number that the pattern computes for it. Returns the first test
/// that fails.
pub(crate) fn test_extra(
    alloc: Global,
    world: &World,
    pattern: &Pattern,
    values: &[Option<Value>],
    env: &[Option<Bits>],
) -> Result<Option<Mismatch>, AllocError>
    ensures { IfOk result (λ m. m ≡ extra_tests (module_in world.now).tree (is_verified (module_in world.now).tree)
        (module_in world.now).next (pattern_model pattern.now) (extra_place (pattern_model pattern.now)) (pattern_model pattern.now).extra
        values.now (map known_of env.now)) }
{
    let mut place = pattern.values.len() as u128;
    let mut rest: &[ExtraConstant] = &pattern.extra;
    'extra: while let [_, tail @ ..] = rest {
        let known = known_at(alloc, world, pattern, place, values)?;
        if !are_same(&known, &value_at(env, place)) {
            return Ok(Some(Mismatch::Number(place)));
        }
        place += 1;
        rest = tail;
    }
    Ok(None)
}
