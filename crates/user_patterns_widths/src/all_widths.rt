//! Decides which patterns hold at all widths.
ghost use Rattle.std.specs.Prelude.{◌≡◌, IfOk};
ghost use Rattle.user_patterns_data.specs.Shapes.{pattern_model};
ghost use Rattle.user_patterns_widths.specs.AllWidths as for_all_widths;

use crate::bits::is_bit_by_bit;
use crate::polynomials::are_one;
use crate::symbolic::{formal, formal_at};
use crate::types::has_one_type;
use std::alloc::{AllocError, Global};
use user_patterns_data::pattern::Pattern;

/// Returns whether both sides of the pattern are the same polynomial.
fn sides_are_one(alloc: Global, pattern: &Pattern) -> Result<bool, AllocError>
    ensures { IfOk result (λ one. one ≡ for_all_widths.sides_are_one (pattern_model pattern.now) (for_all_widths.formal (pattern_model pattern.now))) }
{
    let Some(env) = formal(alloc, pattern)? else {
        return Ok(false);
    };
    let Some(old) = formal_at(&env, pattern.root) else {
        return Ok(false);
    };
    let Some(new) = formal_at(&env, pattern.result) else {
        return Ok(false);
    };
    are_one(alloc, old, new)
}

/// Returns whether both sides are sums, differences and products of values and numbers, and are the same polynomial.
pub fn is_one_polynomial(alloc: Global, pattern: &Pattern) -> Result<bool, AllocError>
    ensures { IfOk result (λ one. one ≡ for_all_widths.is_one_polynomial (pattern_model pattern.now)) }
{
    if !has_one_type(pattern) {
        return Ok(false);
    }
    sides_are_one(alloc, pattern)
}

/// Returns whether the pattern holds at all widths if a check found no counterexample. The answer `false` says nothing.
pub fn holds_at_all_widths(alloc: Global, pattern: &Pattern) -> Result<bool, AllocError>
    ensures { IfOk result (λ b. b ≡ for_all_widths.holds_at_all_widths (pattern_model pattern.now)) }
{
    let one = is_one_polynomial(alloc, pattern)?;
    Ok(one || is_bit_by_bit(pattern))
}
