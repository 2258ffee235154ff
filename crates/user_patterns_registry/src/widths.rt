//! The greatest width of a check.
ghost use Rattle.std.specs.Prelude.{◌≡◌, IfOk, map, nat_le, replicate, sum};
ghost use Rattle.ir_types.specs.Bits.{width_of};
ghost use Rattle.user_patterns_data.specs.Shapes.{pattern_model};
ghost use Rattle.user_patterns_registry.specs.CheckResult.{requested_width, default_width, is_small};
ghost use Rattle.user_patterns_registry.specs.Shown.{greatest, report_width, type_width, widest_type, counterexample_width};

use ir_types::bits::{BitsKind, width};
use std::alloc::{AllocError, Global};
use user_patterns_check::family::Family;
use user_patterns_data::pattern::{Pattern, PatternType};

/// The greatest default width, and the limit of bits of all values at the default width.
const DEFAULT_WIDTH: u32 = 8;

const DEFAULT_BITS: u32 = 16;

/// Returns whether values of these kinds have at most `most` bits together.
fn are_few(value_types: &[BitsKind], most: u32) -> bool
    ensures { result ≡ nat_le (sum (map width_of value_types.now)) most }
{
    let mut left = most;
    let mut rest = value_types;
    'value_types: while let [kind, tail @ ..] = rest {
        let bits = width(*kind);
        if bits > left {
            return false;
        }
        left -= bits;
        rest = tail;
    }
    true
}

/// Returns a list with `width` for each of `types` type variables.
fn alike(alloc: Global, types: usize, width: u32) -> Result<Vec<u32>, AllocError>
    ensures { IfOk result (λ v. v.items ≡ replicate types width) }
{
    let mut widths = Vec::new(alloc);
    let mut left = types;
    'types: while left > 0 {
        widths.push(width)?;
        left -= 1;
    }
    Ok(widths)
}

/// Returns whether the values of a pattern have few bits if all its type variables have that width.
fn is_small(alloc: Global, pattern: &Pattern, width: u32) -> Result<bool, AllocError>
    ensures { IfOk result (λ b. b ≡ is_small (pattern_model pattern.now) width) }
{
    let widths = alike(alloc, pattern.types, width)?;
    let sides = pattern.sides(alloc, &widths)?;
    Ok(are_few(&sides.value_types, DEFAULT_BITS))
}

/// Returns the greatest width up to 8 at which the values of the pattern have at most 16 bits together, or 1 if there
/// is none.
#[tactic(auto, unfolding(crate::specs::CheckResult::widest))]
pub(crate) fn default_width(alloc: Global, pattern: &Pattern) -> Result<u32, AllocError>
    ensures { IfOk result (λ w. w ≡ default_width (pattern_model pattern.now)) }
{
    let mut width = DEFAULT_WIDTH;
    'widths: while width > 0 {
        if is_small(alloc, pattern, width)? {
            return Ok(width);
        }
        width -= 1;
    }
    Ok(1)
}

/// Returns the width `asked`, or the default width.
pub(crate) fn requested_width(
    alloc: Global,
    pattern: &Pattern,
    requested: Option<u64>,
) -> Result<u64, AllocError>
    ensures { IfOk result (λ w. w ≡ requested_width (pattern_model pattern.now) requested) }
{
    match requested {
        Some(width) => Ok(width),
        None => {
            let width = default_width(alloc, pattern)?;
            Ok(width as u64)
        }
    }
}

fn greatest(widths: &[u32]) -> u32
    ensures { result ≡ greatest widths.now }
{
    let mut most = 0;
    let mut rest = widths;
    'widths: while let [width, tail @ ..] = rest {
        if *width > most {
            most = *width;
        }
        rest = tail;
    }
    most
}

fn type_width(kind: PatternType) -> u32
    ensures { result ≡ type_width kind }
{
    match kind {
        PatternType::Concrete(kind) => width(kind),
        PatternType::Variable(_) => 0,
    }
}

/// Returns the width of the widest concrete type.
#[tactic(auto, unfolding(crate::specs::Shown::widest_type))]
fn widest_type(value_types: &[PatternType]) -> u32
    ensures { result ≡ widest_type value_types.now }
{
    let mut most = 0;
    let mut rest = value_types;
    'value_types: while let [kind, tail @ ..] = rest {
        let width = type_width(*kind);
        if width > most {
            most = width;
        }
        rest = tail;
    }
    most
}

/// Returns the width that a check without counterexample reports: `most`, or the width of the widest type if the
/// pattern has no type variable.
pub(crate) fn report_width(pattern: &Pattern, most: u32) -> u32
    ensures { result ≡ report_width (pattern_model pattern.now) most }
{
    if pattern.types == 0 {
        widest_type(&pattern.value_types)
    } else {
        most
    }
}

/// Returns the width of a counterexample: the greatest of `widths`, or the width of the widest type if the pattern has
/// no type variable.
pub(crate) fn reported_width(pattern: &Pattern, widths: &[u32]) -> u32
    ensures { result ≡ counterexample_width (pattern_model pattern.now) widths.now }
{
    if widths.is_empty() {
        widest_type(&pattern.value_types)
    } else {
        greatest(widths)
    }
}
