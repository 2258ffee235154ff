//! The widths of type variables in a test case of a sampled check.
ghost use Rattle.std.specs.Prelude.{◌≡◌, ◌∷◌, ◌++◌, [], IfOk, replicate, take};
ghost use Rattle.user_patterns_data.specs.Shapes.{pattern_model};
ghost use Rattle.user_patterns_widths.specs.SampledWidths.{level_width, levels, widths_of_case};

use std::alloc::{AllocError, Global};
use user_patterns_data::pattern::Pattern;

/// The number of widths of each type variable.
const LEVELS: u128 = 3;

/// Returns the width of a type variable at a level: the width divided by 2^level, and at least 1.
fn level_width(width: u32, level: u128) -> u32
    ensures { result ≡ level_width width level }
{
    if level >= 32 {
        return 1;
    }
    let part = width >> level as u32;
    if part < 1 { 1 } else { part }
}

/// Returns the first numbers, at most `count` of them.
pub(crate) fn first_numbers<'a>(count: usize, numbers: &'a [u128]) -> &'a [u128]
    ensures { result.now ≡ take count numbers.now }
{
    if count < numbers.len() {
        &numbers[..count]
    } else {
        numbers
    }
}

/// Returns the widths of the type variables of a pattern in a test case: the numbers begin with a level for each.
pub fn widths_of_case(
    alloc: Global,
    pattern: &Pattern,
    width: u32,
    numbers: &[u128],
) -> Result<Vec<u32>, AllocError>
    ensures { IfOk result (λ v. v.items ≡ widths_of_case (pattern_model pattern.now) width numbers.now) }
{
    let mut widths = Vec::new(alloc);
    let mut rest = first_numbers(pattern.types, numbers);
    'levels: while let [level, tail @ ..] = rest {
        widths.push(level_width(width, *level))?;
        rest = tail;
    }
    Ok(widths)
}

/// Returns the number of levels for each type variable, and the number of cases.
pub fn bounds(alloc: Global, types: usize, cases: u128) -> Result<Vec<u128>, AllocError>
    ensures { IfOk result (λ v. v.items ≡ replicate types levels ++ (cases ∷ [])) }
{
    let mut bounds = Vec::new(alloc);
    let mut left = types;
    'types: while left > 0 {
        bounds.push(LEVELS)?;
        left -= 1;
    }
    bounds.push(cases)?;
    Ok(bounds)
}
