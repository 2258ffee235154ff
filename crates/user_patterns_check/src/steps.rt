//! Runs a list of steps.
ghost use Rattle.std.specs.Prelude.{◌≡◌, IfOk, [], map};
ghost use Rattle.dialects_int.specs.Folds.{known_of};
ghost use Rattle.user_patterns_check.specs.Outcomes.{run};
ghost use Rattle.user_patterns_check.specs.Checks.{Stands, bound};

use crate::evaluation::step;
use crate::step::Step;
use ir_types::bits::{Bits, BitsKind};
use std::alloc::{AllocError, Global};

/// Appends the results of the steps to `env`. Returns whether all steps are defined.
pub fn run(steps: &[Step], env: &mut Vec<Option<Bits>>) -> Result<bool, AllocError>
    ensures { IfOk result (Stands (run steps.now (map known_of env.old.items)) (map known_of env.new.items)) }
{
    let mut rest = steps;
    'steps: while let [first, tail @ ..] = rest {
        let Some(value) = step(first, env.as_slice()) else {
            return Ok(false);
        };
        env.push(value)?;
        rest = tail;
    }
    Ok(true)
}

/// Appends the values to `env`, each with its kind. Returns whether each value is in range of its kind and the lists
/// have the same length.
pub fn bind(
    value_types: &[BitsKind],
    values: &[u128],
    env: &mut Vec<Option<Bits>>,
) -> Result<bool, AllocError>
    ensures { IfOk result (Stands (bound value_types.now values.now (map known_of env.old.items)) (map known_of env.new.items)) }
{
    let mut value_types = value_types;
    let mut values = values;
    'value_types: while let [kind, kinds_tail @ ..] = value_types {
        let [value, values_tail @ ..] = values else {
            return Ok(false);
        };
        let Some(bits) = Bits::new(*kind, *value) else {
            return Ok(false);
        };
        env.push(Some(bits))?;
        value_types = kinds_tail;
        values = values_tail;
    }
    Ok(values.is_empty())
}
