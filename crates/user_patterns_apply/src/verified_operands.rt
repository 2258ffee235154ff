//! Tests that the matched operations are verified, and that constants define the pattern's constants.
ghost use Rattle.std.specs.Prelude.{◌≡◌, ◌<◌, ◌^◌, IfOk};
ghost use Rattle.ir_event.specs.Modules.{module_in};
ghost use Rattle.patterns_base.specs.Looks.{is_verified};
ghost use Rattle.user_patterns_data.specs.Matching.{placed, binding_at};
ghost use Rattle.user_patterns_apply.specs.Matched.{is_verified_value, is_constant_value, is_first};
ghost use Rattle.user_patterns_apply.specs.Mismatches.{constants_tests, verified_tests};

use crate::mismatch::Mismatch;
use crate::places::binding_at;
use ir_event::trees::value::Value;
use ir_event::world::World;
use patterns_matchers::constants::verified_defining_op;
use patterns_matchers::nodes::is_constant;
use std::alloc::{AllocError, Global};
use user_patterns_data::pattern::PatternOp;

/// Returns whether `value` is the first result of a verified operation.
fn is_verified_value(
    alloc: Global,
    world: &World,
    value: &Option<Value>,
) -> Result<bool, AllocError>
    ensures { IfOk result (λ b. b ≡ is_verified_value (module_in world.now).tree (is_verified (module_in world.now).tree)
        value.now) }
{
    let Some(value) = value else {
        return Ok(false);
    };
    if !is_first(value) {
        return Ok(false);
    }
    let defining = verified_defining_op(alloc, world, value)?;
    Ok(defining.is_some())
}

/// Returns whether `value` is the first result of an operation.
pub(crate) fn is_first(value: &Value) -> bool
    ensures { result ≡ is_first value.now }
{
    match value {
        Value::Result(_, number) => *number == 0,
        Value::Arg(..) => false,
    }
}

/// Tests that the matched operations are verified. The first pattern op has the given place. Returns the first test that
/// fails.
pub(crate) fn test_verified(
    alloc: Global,
    world: &World,
    begins: u128,
    old: &[PatternOp],
    values: &[Option<Value>],
) -> Result<Option<Mismatch>, AllocError>
    requires { begins < 2 ^ 100 }
    ensures { IfOk result (λ m. m ≡ verified_tests (module_in world.now).tree (is_verified (module_in world.now).tree)
        (placed begins old.now) values.now) }
{
    let mut left = old.len();
    'old: while left > 0 {
        left -= 1;
        let place = begins + left as u128;
        let value = binding_at(values, place);
        if !is_verified_value(alloc, world, &value)? {
            return Ok(Some(Mismatch::NotVerified(place)));
        }
    }
    Ok(None)
}

/// Returns whether the value at `place` is defined by a constant operation, verified or not.
fn is_constant_at(world: &World, place: usize, values: &[Option<Value>]) -> bool
    ensures { result ≡ is_constant_value (module_in world.now).tree (binding_at place values.now) }
{
    match binding_at(values, place as u128) {
        Some(value) => is_constant(world, &value),
        None => false,
    }
}

/// Tests that constants, verified or not, define the values at the places `constants`. Returns the first test that
/// fails.
pub(crate) fn test_constants(
    world: &World,
    constants: &[usize],
    values: &[Option<Value>],
) -> Option<Mismatch>
    ensures { result ≡ constants_tests (module_in world.now).tree constants.now values.now }
{
    let mut rest = constants;
    'constants: while let [first, tail @ ..] = rest {
        if !is_constant_at(world, *first, values) {
            return Some(Mismatch::Constant(*first));
        }
        rest = tail;
    }
    None
}
