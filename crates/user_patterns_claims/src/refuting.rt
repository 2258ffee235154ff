//! Runs a pattern at the widths and outcomes that a word spells.
ghost use Rattle.std.specs.Prelude.{◌≡◌, [], IfOk, IfSome, map, option_map, slice_get, true};
ghost use Rattle.dialects_int.specs.Folds.{known_of};
ghost use Rattle.user_patterns_check.specs.Checks.{refines};
ghost use Rattle.user_patterns_check.specs.Contents.{content};
ghost use Rattle.user_patterns_check.specs.Outcomes.{run};
ghost use Rattle.user_patterns_data.specs.Shapes.{pattern_model};
ghost use Rattle.user_patterns_claims.specs.Decoding.{IsRefutation, IsWitness, is_kept};
ghost use Rattle.user_patterns_claims.specs.Outcomes.{is_number_at, new_result, old_outcomes, old_result};

use crate::assignment::Refutation;
use crate::decode::decode;
use ir_types::bits::Bits;
use std::alloc::{AllocError, Global};
use user_patterns_check::family::Family;
use user_patterns_check::sides::Instance;
use user_patterns_check::step::Step;
use user_patterns_check::steps::run;
use user_patterns_data::pattern::Pattern;
use user_patterns_instructions::types::same_kind;

/// Returns the entry of `env` at `place`, or `None` if `place` is out of bounds.
fn outcome_at(env: &[Option<Bits>], place: usize) -> Option<Option<Bits>>
    ensures { option_map known_of result ≡ slice_get (map known_of env.now) place }
{
    if place < env.len() {
        Some(env[place])
    } else {
        None
    }
}

/// Returns the environment after the steps, or `None` if a step is undefined.
fn ran(steps: &[Step], env: Vec<Option<Bits>>) -> Result<Option<Vec<Option<Bits>>>, AllocError>
    ensures { IfOk result (λ o. option_map (λ env. map known_of env.items) o ≡ run steps.now (map known_of env.items)) }
{
    let mut env = env;
    if run(steps, &mut env)? {
        Ok(Some(env))
    } else {
        Ok(None)
    }
}

/// Returns the environment after the conditions and the steps of the old side, or `None` if a step is undefined.
fn old_env(
    alloc: Global,
    sides: &Instance,
    outcomes: &[Option<Bits>],
) -> Result<Option<Vec<Option<Bits>>>, AllocError>
    ensures { IfOk result (λ o. option_map (λ env. map known_of env.items) o ≡ old_outcomes (content sides.now) (map known_of outcomes.now)) }
{
    if !sides.applies {
        return Ok(None);
    }
    let mut env = Vec::new(alloc);
    env.extend_from_slice(outcomes)?;
    let Some(env) = ran(&sides.given, env)? else {
        return Ok(None);
    };
    ran(&sides.old, env)
}

/// Returns the result of the old side, or `None` if it is undefined.
fn old_result(
    alloc: Global,
    sides: &Instance,
    outcomes: &[Option<Bits>],
) -> Result<Option<Option<Bits>>, AllocError>
    ensures { IfOk result (λ o. option_map known_of o ≡ old_result (content sides.now) (map known_of outcomes.now)) }
{
    let Some(env) = old_env(alloc, sides, outcomes)? else {
        return Ok(None);
    };
    Ok(outcome_at(&env, sides.old_result))
}

/// Returns the result of the new side, or `None` if it is undefined.
fn new_result(
    alloc: Global,
    sides: &Instance,
    outcomes: &[Option<Bits>],
) -> Result<Option<Option<Bits>>, AllocError>
    ensures { IfOk result (λ o. option_map known_of o ≡ new_result (content sides.now) (map known_of outcomes.now)) }
{
    let Some(env) = old_env(alloc, sides, outcomes)? else {
        return Ok(None);
    };
    let Some(env) = ran(&sides.new, env)? else {
        return Ok(None);
    };
    Ok(outcome_at(&env, sides.new_result))
}

/// Returns whether an outcome may replace another: anything may replace poison, and a number only the same number.
fn refines(old: &Option<Bits>, new: &Option<Bits>) -> bool
    ensures { result ≡ refines (known_of old.now) (known_of new.now) }
{
    let Some(old) = old else {
        return true;
    };
    let Some(new) = new else {
        return false;
    };
    same_kind(&old.kind, &new.kind) && old.value == new.value
}

/// Returns whether the new result refines the old result, if that is defined.
fn is_kept(old: &Option<Option<Bits>>, new: &Option<Option<Bits>>) -> bool
    ensures { result ≡ is_kept (option_map known_of old.now) (option_map known_of new.now) }
{
    let Some(old) = old else {
        return true;
    };
    let Some(new) = new else {
        return false;
    };
    refines(old, new)
}

/// Returns whether a result is a number.
fn is_number_at(found: &Option<Option<Bits>>) -> bool
    ensures { result ≡ is_number_at (option_map known_of found.now) }
{
    matches!(found, Some(Some(_)))
}

/// Returns the counterexample that a word spells for a pattern and a set of poison variables, or `None` if it spells
/// none. Both sides are run.
pub fn refutation(
    alloc: Global,
    pattern: &Pattern,
    set: usize,
    word: &[u32],
) -> Result<Option<Refutation>, AllocError>
    ensures { IfOk result (λ r. IfSome r (IsRefutation (pattern_model pattern.now) set word.now)) }
{
    let Some(assignment) = decode(alloc, pattern, set, word)? else {
        return Ok(None);
    };
    let sides = pattern.sides(alloc, &assignment.widths)?;
    let old = old_result(alloc, &sides, &assignment.outcomes)?;
    let new = new_result(alloc, &sides, &assignment.outcomes)?;
    if is_kept(&old, &new) {
        return Ok(None);
    }
    Ok(Some(Refutation {
        assignment,
        old,
        new,
    }))
}

/// Returns whether the old side of a pattern is a number at the widths and outcomes that a word spells.
pub fn is_witness(
    alloc: Global,
    pattern: &Pattern,
    set: usize,
    word: &[u32],
) -> Result<bool, AllocError>
    ensures { IfOk result (λ b. b ≡ true → IsWitness (pattern_model pattern.now) set word.now) }
{
    let Some(assignment) = decode(alloc, pattern, set, word)? else {
        return Ok(false);
    };
    let sides = pattern.sides(alloc, &assignment.widths)?;
    let old = old_result(alloc, &sides, &assignment.outcomes)?;
    Ok(is_number_at(&old))
}
