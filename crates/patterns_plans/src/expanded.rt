//! Plans of the expanding rules, which conversion uses.
ghost use Rattle.std.specs.Prelude.{◌≡◌, IfOk, ℕ};
ghost use Rattle.ir_event.specs.Modules.{NodeIsOf};
ghost use Rattle.patterns_matchers.specs.Folding.{expand_min_max, expand_difference, expand_remainder};
ghost use Rattle.patterns_matchers.specs.Plans.{PlanIsOf};
ghost use Rattle.patterns_plans.specs.Planned.{HasPlan, HasReason};
ghost use Rattle.patterns_plans.specs.RuleTests as tests;

use crate::reason::Reason;
use ir_event::store::node::Node;
use ir_event::types::word::Word;
use ir_event::world::World;
use patterns_matchers::op_names::{division_of_remainder, predicate_of_min_max};
use patterns_matchers::plan::{LargePlan, RewritePlan};
use patterns_matchers::shapes::binary_op;
use patterns_matchers::types::all_ones;
use std::alloc::{AllocError, Global};

/// Plans `expand-min-max`: a minimum or maximum becomes a comparison and a select.
#[inline(never)]
pub(crate) fn plan_expand_min_max(
    alloc: Global,
    world: &World,
    node: &Node<'_>,
) -> Result<Result<RewritePlan, Reason>, AllocError>
    requires of { NodeIsOf world.now.ctx node.now }
    ensures edits { (x : ℕ) → IfOk result (HasPlan expand_min_max world.now x node.now) }
    ensures reason { IfOk result (HasReason tests.expand_min_max world.now node.now) }
    ensures fits_in { IfOk result (λ a. IfOk a (PlanIsOf world.now.ctx)) }
{
    let Some(p) = binary_op(node) else {
        return Ok(Err(Reason::WrongOperation));
    };
    let Some(predicate) = predicate_of_min_max(&world.ctx, p.name) else {
        return Ok(Err(Reason::WrongOperation));
    };
    let plan = LargePlan::CompareAndSelect {
        predicate,
        ty: p.ty,
        first: p.first,
        second: p.second,
    };
    Ok(Ok(RewritePlan::Large(Box::new(alloc, plan)?)))
}

/// Plans `expand-difference`: a difference becomes a sum with the complement, plus 1.
#[inline(never)]
pub(crate) fn plan_expand_difference(
    alloc: Global,
    world: &World,
    node: &Node<'_>,
) -> Result<Result<RewritePlan, Reason>, AllocError>
    requires of { NodeIsOf world.now.ctx node.now }
    ensures edits { (x : ℕ) → IfOk result (HasPlan expand_difference world.now x node.now) }
    ensures reason { IfOk result (HasReason tests.expand_difference world.now node.now) }
    ensures fits_in { IfOk result (λ a. IfOk a (PlanIsOf world.now.ctx)) }
{
    let Some(p) = binary_op(node) else {
        return Ok(Err(Reason::WrongOperation));
    };
    if !world.ctx.is_word(p.name, Word::ArithSubi) {
        return Ok(Err(Reason::WrongOperation));
    }
    let plan = LargePlan::Difference {
        ty: p.ty,
        first: p.first,
        second: p.second,
        ones: all_ones(&world.ctx, p.ty),
    };
    Ok(Ok(RewritePlan::Large(Box::new(alloc, plan)?)))
}

/// Plans `expand-remainder`: a remainder becomes a difference with the product of the quotient.
#[inline(never)]
pub(crate) fn plan_expand_remainder(
    alloc: Global,
    world: &World,
    node: &Node<'_>,
) -> Result<Result<RewritePlan, Reason>, AllocError>
    requires of { NodeIsOf world.now.ctx node.now }
    ensures edits { (x : ℕ) → IfOk result (HasPlan expand_remainder world.now x node.now) }
    ensures reason { IfOk result (HasReason tests.expand_remainder world.now node.now) }
    ensures fits_in { IfOk result (λ a. IfOk a (PlanIsOf world.now.ctx)) }
{
    let Some(p) = binary_op(node) else {
        return Ok(Err(Reason::WrongOperation));
    };
    let Some(division) = division_of_remainder(&world.ctx, p.name) else {
        return Ok(Err(Reason::WrongOperation));
    };
    let plan = LargePlan::Remainder {
        division,
        ty: p.ty,
        first: p.first,
        second: p.second,
    };
    Ok(Ok(RewritePlan::Large(Box::new(alloc, plan)?)))
}
