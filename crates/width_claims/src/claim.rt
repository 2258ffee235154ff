//! Whether two values are equal at all widths.
ghost use Rattle.std.specs.Prelude.{◌≡◌, [], IfOk, IfSome};
ghost use Rattle.width_claims.specs.Emission.{claim_of};
ghost use Rattle.width_claims.specs.Claimed.{IsClaim, IsEqualDecided};

use crate::all_widths::decide_all_widths;
use crate::block::at;
use crate::emit::{emit_conditions, emit_narrower, emit_pattern_ops, emit_types};
use crate::form::Expr;
use crate::step::Step;
use crate::verdict::Verdict;
use crate::width::{Narrower, Width};
use std::alloc::{AllocError, Global};

/// Writes the steps of a claim to an empty list. Returns the place of its truth, unless there are too many steps.
fn emit_claim(
    alloc: Global,
    first_mask: usize,
    types: &[Width],
    narrower: &[Narrower],
    exprs: &[Expr],
    conditions: &[usize],
    left: usize,
    right: usize,
    steps: &mut Vec<Step>,
) -> Result<Option<usize>, AllocError>
    requires { steps.old.items ≡ [] }
    ensures { IfOk result (λ p. IfSome p (IsClaim (claim_of first_mask types.now narrower.now exprs.now conditions.now left right) steps.new.items)) }
{
    steps.extend_from_slice(&[Step::Literal(0), Step::Literal(1)])?;
    let mut masks = Vec::new(alloc);
    let typed = emit_types(first_mask, types, steps, &mut masks, 2, 0)?;
    let Some(typed) = typed else {
        return Ok(None);
    };
    let ordered = emit_narrower(
        masks.as_slice(),
        narrower,
        steps,
        typed.numbers,
        typed.truths,
    )?;
    let Some(ordered) = ordered else {
        return Ok(None);
    };
    let mut places = Vec::new(alloc);
    let pattern_op_values = emit_pattern_ops(
        masks.as_slice(),
        exprs,
        &mut places,
        steps,
        ordered.numbers,
        ordered.truths,
    )?;
    let Some(pattern_op_values) = pattern_op_values else {
        return Ok(None);
    };
    emit_conditions(places.as_slice(), conditions, steps)?;
    let last = Step::Equal(at(places.as_slice(), left), at(places.as_slice(), right));
    steps.push(last)?;
    Ok(pattern_op_values.truths.checked_add(conditions.len()))
}

/// Decides whether two values are equal at all widths that the types may have, for all variables for which the
/// conditions hold. Looks at no more than `most` transitions, as `decide_all_widths`.
pub fn decide_equal(
    alloc: Global,
    first_mask: usize,
    types: &[Width],
    narrower: &[Narrower],
    exprs: &[Expr],
    conditions: &[usize],
    left: usize,
    right: usize,
    most: usize,
) -> Result<Verdict, AllocError>
    ensures { IfOk result (IsEqualDecided (claim_of first_mask types.now narrower.now exprs.now conditions.now left right)) }
{
    let mut steps = Vec::new(alloc);
    let place = emit_claim(
        alloc, first_mask, types, narrower, exprs, conditions, left, right, &mut steps,
    )?;
    let Some(place) = place else {
        return Ok(Verdict::TooMany);
    };
    let verdict = decide_all_widths(alloc, steps.as_slice(), place, most)?;
    Ok(verdict)
}
