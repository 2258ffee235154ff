//! The claims about a pattern at given widths, and about all widths.
ghost use Rattle.std.specs.Prelude.{◌≡◌, IfOk, IfSome, map};
ghost use Rattle.std.specs.Option.{option_map};
ghost use Rattle.dialects_int.specs.Folds.{known_of};
ghost use Rattle.user_patterns_check.specs.Contents.{content};
ghost use Rattle.user_patterns_check.specs.Checks.{AreFew, Stands, first_broken, first_defined_input, old_steps, refines};
ghost use Rattle.user_patterns_check.specs.Families.{width_at, widths_at};

use crate::claim::Claim;
use crate::evaluation::{power, same_kind, value_at};
use crate::family::Family;
use crate::search::counterexample;
use crate::sides::Instance;
use crate::steps::{bind, run};
use ir_types::bits::{Bits, BitsKind, width};
use ir_types::limits::MOST_WIDTH;
use std::alloc::{AllocError, Global};

/// Returns whether a pattern may replace the old value by the new one: poison by anything, a number only by itself.
fn refines(old: &Option<Bits>, new: &Option<Bits>) -> bool
    ensures { result ≡ refines (known_of old.now) (known_of new.now) }
{
    let Some(old) = old else {
        return true;
    };
    let Some(new) = new else {
        return false;
    };
    same_kind(old.kind, new.kind) && old.value == new.value
}

/// Appends the values and the results of the conditions and of the old steps to `env`. Returns whether the pattern may
/// be applied to the values and all steps are defined.
fn old_steps(
    sides: &Instance,
    values: &[u128],
    env: &mut Vec<Option<Bits>>,
) -> Result<bool, AllocError>
    ensures { IfOk result (Stands (old_steps (content sides.now) values.now (map known_of env.old.items)) (map known_of env.new.items)) }
{
    if !sides.applies {
        return Ok(false);
    }
    let bound = bind(&sides.value_types, values, env)?;
    if !bound {
        return Ok(false);
    }
    let given = run(&sides.given, env)?;
    if !given {
        return Ok(false);
    }
    run(&sides.old, env)
}

/// The claim that the new side refines the old side.
impl Claim for Instance {
    ghost use Rattle.user_patterns_check.specs.Contents.{content};
    ghost use Rattle.user_patterns_check.specs.Checks.{keeps};

    ghost holds = { λ s values. keeps (content s) values };

    fn holds(&self, alloc: Global, values: &[u128]) -> Result<bool, AllocError> {
        let mut env = Vec::new(alloc);
        let defined = old_steps(self, values, &mut env)?;
        if !defined {
            return Ok(true);
        }
        let Some(old) = value_at(&env, self.old_result) else {
            return Ok(true);
        };
        let kept = run(&self.new, &mut env)?;
        if !kept {
            return Ok(false);
        }
        let Some(new) = value_at(&env, self.new_result) else {
            return Ok(false);
        };
        Ok(refines(&old, &new))
    }
}

/// The claim that the pattern may not be applied, or that its old side is undefined.
#[derive(Clone, Copy)]
struct NeverDefined<'a> {
    sides: &'a Instance,
}

impl<'a> Claim for NeverDefined<'a> {
    ghost use Rattle.user_patterns_check.specs.Contents.{content};
    ghost use Rattle.user_patterns_check.specs.Checks.{is_undefined};

    ghost holds = { λ s values. is_undefined (content s.sides.now) values };

    fn holds(&self, alloc: Global, values: &[u128]) -> Result<bool, AllocError> {
        let sides = self.sides;
        let mut env = Vec::new(alloc);
        let defined = old_steps(sides, values, &mut env)?;
        if !defined {
            return Ok(true);
        }
        Ok(value_at(&env, sides.old_result).is_none())
    }
}

/// Returns the number of values of each kind, or `None` if all together have more than 24 bits.
fn counts(alloc: Global, value_types: &[BitsKind]) -> Result<Option<Vec<u128>>, AllocError>
    ensures { IfOk result (λ found. AreFew value_types.now (option_map (λ v. v.items) found)) }
{
    let mut counts = Vec::new(alloc);
    let mut left: u32 = 24;
    let mut rest = value_types;
    'value_types: while let [kind, tail @ ..] = rest {
        let bits = width(*kind);
        if bits > left {
            return Ok(None);
        }
        counts.push(power(bits))?;
        left -= bits;
        rest = tail;
    }
    Ok(Some(counts))
}

/// Returns the first values at which the new side doesn't refine the old side.
pub(crate) fn first_broken(alloc: Global, sides: &Instance) -> Result<Option<Vec<u128>>, AllocError>
    ensures { IfOk result (λ found. option_map (λ v. v.items) found ≡ first_broken (content sides.now)) }
{
    let Some(counts) = counts(alloc, &sides.value_types)? else {
        return Ok(None);
    };
    counterexample(alloc, sides, &counts)
}

/// Returns the first values at which the pattern may be applied and the old side is defined.
fn first_notified(alloc: Global, sides: &Instance) -> Result<Option<Vec<u128>>, AllocError>
    ensures { IfOk result (λ found. option_map (λ v. v.items) found ≡ first_defined_input (content sides.now)) }
{
    let Some(counts) = counts(alloc, &sides.value_types)? else {
        return Ok(None);
    };
    counterexample(alloc, &NeverDefined { sides }, &counts)
}

/// Returns the width with that number: one more than the number, and at most the greatest width.
fn width_at(number: u128) -> u32
    ensures { result ≡ width_at number }
{
    if number < MOST_WIDTH as u128 {
        number as u32 + 1
    } else {
        MOST_WIDTH
    }
}

/// Returns the widths with these numbers.
pub(crate) fn widths_at(alloc: Global, numbers: &[u128]) -> Result<Vec<u32>, AllocError>
    ensures { IfOk result (λ widths. widths.items ≡ widths_at numbers.now) }
{
    let mut widths = Vec::new(alloc);
    let mut rest = numbers;
    'numbers: while let [number, tail @ ..] = rest {
        widths.push(width_at(*number))?;
        rest = tail;
    }
    Ok(widths)
}

/// The claim that the values of a pattern at some widths have at most 24 bits together.
#[derive(Clone, Copy)]
pub(crate) struct HasFewValues<'a, F: Family> {
    pub(crate) pattern: &'a F,
}

impl<'a, F: Family> Claim for HasFewValues<'a, F> {
    ghost use Rattle.user_patterns_check.specs.Families.{few_at};

    ghost holds = { λ c values. few_at (F.family c.pattern.now) values };

    fn holds(&self, alloc: Global, values: &[u128]) -> Result<bool, AllocError> {
        let widths = widths_at(alloc, values)?;
        let sides = self.pattern.sides(alloc, &widths)?;
        let counts = counts(alloc, &sides.value_types)?;
        Ok(counts.is_some())
    }
}

/// The claim that a pattern refines at some widths, for all values.
#[derive(Clone, Copy)]
pub(crate) struct RefinesAt<'a, F: Family> {
    pub(crate) pattern: &'a F,
}

impl<'a, F: Family> Claim for RefinesAt<'a, F> {
    ghost use Rattle.user_patterns_check.specs.Families.{kept_at};

    ghost holds = { λ c values. kept_at (F.family c.pattern.now) values };

    fn holds(&self, alloc: Global, values: &[u128]) -> Result<bool, AllocError> {
        let widths = widths_at(alloc, values)?;
        let sides = self.pattern.sides(alloc, &widths)?;
        let broken = first_broken(alloc, &sides)?;
        Ok(broken.is_none())
    }
}

/// The claim that the old side of a pattern is undefined at some widths, for all values.
#[derive(Clone, Copy)]
pub(crate) struct UndefinedAt<'a, F: Family> {
    pub(crate) pattern: &'a F,
}

impl<'a, F: Family> Claim for UndefinedAt<'a, F> {
    ghost use Rattle.user_patterns_check.specs.Families.{is_vacuous_at};

    ghost holds = { λ c values. is_vacuous_at (F.family c.pattern.now) values };

    fn holds(&self, alloc: Global, values: &[u128]) -> Result<bool, AllocError> {
        let widths = widths_at(alloc, values)?;
        let sides = self.pattern.sides(alloc, &widths)?;
        let notified = first_notified(alloc, &sides)?;
        Ok(notified.is_none())
    }
}
