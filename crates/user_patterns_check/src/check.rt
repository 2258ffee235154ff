//! Checks a pattern for all values at all widths up to a limit.
ghost use Rattle.std.specs.Prelude.{◌≡◌, ◌≤◌, IfOk, Some, false, is_none};
ghost use Rattle.std.specs.Option.{option_map};
ghost use Rattle.ir_types.specs.Limits.{most_width};
ghost use Rattle.user_patterns_check.specs.Cases.{first_failing};
ghost use Rattle.user_patterns_check.specs.Checks.{counts, first_broken, keeps};
ghost use Rattle.user_patterns_check.specs.Families.{AreBounds, IsFirst, IsVerdict};

use crate::claims::{HasFewValues, RefinesAt, UndefinedAt, first_broken, widths_at};
use crate::family::Family;
use crate::search::counterexample;
use crate::verdict::Verdict;
use std::alloc::{AllocError, Global};

/// Returns the bound of each type variable's width, or `None` if there are too many lists of widths.
fn bounds(alloc: Global, types: usize, most: u32) -> Result<Option<Vec<u128>>, AllocError>
    ensures { IfOk result (λ found. AreBounds types most (option_map (λ v. v.items) found)) }
{
    let mut bounds = Vec::new(alloc);
    let mut product = 1u128;
    let mut left = types;
    'types: while left > 0 {
        product *= most as u128;
        if product > 16_777_216 {
            return Ok(None);
        }
        bounds.push(most as u128)?;
        left -= 1;
    }
    Ok(Some(bounds))
}

/// Returns the first values at which the pattern isn't a refinement, at widths at which there are some.
fn broken_at<F: Family>(alloc: Global, pattern: &F, widths: &[u32]) -> Result<Vec<u128>, AllocError>
    requires { is_none (first_broken (F.family pattern.now widths.now)) ≡ false }
    ensures { IfOk result (λ values. first_failing (keeps (F.family pattern.now widths.now)) (counts (F.family pattern.now widths.now)) ≡ Some values.items) }
{
    let sides = pattern.sides(alloc, widths)?;
    let Some(values) = first_broken(alloc, &sides)? else {
        return Ok(Vec::new(alloc));
    };
    Ok(values)
}

/// Checks a pattern with `types` type variables at all widths from 1 to `most`, for all values of its variables.
///
/// Returns `TooMany` if the values at some widths have more than 24 bits together, or if there are more than 2^24 lists
/// of widths.
pub fn check<F: Family>(
    alloc: Global,
    pattern: &F,
    types: usize,
    most: u32,
) -> Result<Verdict, AllocError>
    requires { most ≤ most_width }
    ensures verdict { IfOk result (IsVerdict (F.family pattern.now) types most) }
    ensures first { IfOk result (IsFirst (F.family pattern.now) types most) }
{
    let Some(bounds) = bounds(alloc, types, most)? else {
        return Ok(Verdict::TooMany);
    };
    if let Some(_) = counterexample(alloc, &HasFewValues { pattern }, &bounds)? {
        return Ok(Verdict::TooMany);
    }
    if let Some(numbers) = counterexample(alloc, &RefinesAt { pattern }, &bounds)? {
        let widths = widths_at(alloc, &numbers)?;
        let values = broken_at(alloc, pattern, &widths)?;
        return Ok(Verdict::Fails(widths, values));
    }
    match counterexample(alloc, &UndefinedAt { pattern }, &bounds)? {
        None => Ok(Verdict::Vacuous),
        Some(_) => Ok(Verdict::Holds),
    }
}
