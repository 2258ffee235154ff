//! Searches all lists of values for a counterexample.
ghost use Rattle.std.specs.Prelude.{◌≡◌, ◌++◌, IfOk, List, ℕ, option_map};
ghost use Rattle.user_patterns_check.specs.Cases.{WentOn, first_failing};

use crate::claim::Claim;
use std::alloc::{AllocError, Global};

/// Returns whether the claim is false of a list that begins with `values`, followed by values below `bounds`. If so,
/// the rest of the first such list is appended to `values`.
fn goes_on<C: Claim>(
    alloc: Global,
    claim: &C,
    bounds: &[u128],
    values: &mut Vec<u128>,
) -> Result<bool, AllocError>
    ensures { IfOk result (WentOn (first_failing (λ vs. C.holds claim.now (values.old.items ++ vs)) bounds.now) values.old.items values.new.items) }
{
    let [bound, tail @ ..] = bounds else {
        let holds = claim.holds(alloc, values.as_slice())?;
        return Ok(!holds);
    };
    let end = *bound;
    let mut value = 0u128;
    'values: while value < end {
        values.push(value)?;
        let found = goes_on(alloc, claim, tail, values)?;
        if found {
            return Ok(true);
        }
        let _ = values.pop();
        value += 1;
    }
    Ok(false)
}

/// Returns the first list of values below `bounds` at which the claim is false, or `None` if there is none.
pub fn counterexample<C: Claim>(
    alloc: Global,
    claim: &C,
    bounds: &[u128],
) -> Result<Option<Vec<u128>>, AllocError>
    ensures { IfOk result (λ found. option_map (λ v. v.items) found ≡ first_failing (C.holds claim.now) bounds.now) }
{
    let mut values = Vec::new(alloc);
    let found = goes_on(alloc, claim, bounds, &mut values)?;
    if found { Ok(Some(values)) } else { Ok(None) }
}
