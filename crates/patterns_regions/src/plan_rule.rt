//! Plans each rule that doesn't lower.
ghost use Rattle.std.specs.Prelude.{◌≡◌, IfOk, IfSome, Some, false};
ghost use Rattle.ir_event.specs.Modules.{NodeIsOf, module_in};
ghost use Rattle.patterns_plans.specs.reads.Plans.{PlanIsOf};
ghost use Rattle.patterns_plans.specs.reads.Reads.{head_at, header_of_node};
ghost use Rattle.patterns_plans.specs.reads.RuleNames.{is_lowering};
ghost use Rattle.patterns_regions.specs.Answers.{HasPlanAfter, HasReasonAt, IsPlanAfter};

use crate::dead::plan_erase_dead;
use crate::plans::{plan_open_branch, plan_open_loop, plan_stop_loop};
use ir_event::store::node::Node;
use ir_event::trees::place::Place;
use ir_event::types::ids::OpId;
use ir_event::world::World;
use patterns_plans::plan_rule;
use patterns_plans::reads::plan::RewritePlan;
use patterns_plans::reads::rule::Rule;
use patterns_plans::reason::Reason;
use std::alloc::{AllocError, Global};

/// Plans a rule that doesn't lower, or returns the first of the rule's conditions that doesn't hold. `node` is what the
/// store shows of the operation. The caller has checked that the operation is eligible for the rule and comes after
/// `point`.
///
/// Errors: `AllocError` if memory runs out.
#[inline(always)]
pub fn plan_or_reason(
    alloc: Global,
    world: &World,
    rule: Rule,
    point: &Place,
    op: OpId,
    node: &Node<'_>,
) -> Result<Result<RewritePlan, Reason>, AllocError>
    requires rule { is_lowering rule ≡ false }
    requires shown { Some (header_of_node world.now.ctx node.now) ≡ head_at op (module_in world.now).tree }
    requires of { NodeIsOf world.now.ctx node.now }
    ensures edits { IfOk result (HasPlanAfter rule world.now op point.now) }
    ensures reason { IfOk result (HasReasonAt rule world.now op) }
    ensures of { IfOk result (λ a. IfOk a (PlanIsOf world.now.ctx)) }
{
    match rule {
        Rule::EraseDead => Ok(plan_erase_dead(world, op)),
        Rule::OpenBranch => plan_open_branch(alloc, world, point, op),
        Rule::OpenLoop => plan_open_loop(alloc, world, point, op),
        Rule::StopLoop => plan_stop_loop(alloc, world, point, op),
        _ => plan_rule::plan_or_reason(alloc, world, rule, op, node),
    }
}

/// Plans a rule that doesn't lower, or returns `None` if it doesn't apply, as `plan_or_reason` does.
///
/// Errors: `AllocError` if memory runs out.
#[inline(always)]
pub fn plan(
    alloc: Global,
    world: &World,
    rule: Rule,
    point: &Place,
    op: OpId,
    node: &Node<'_>,
) -> Result<Option<RewritePlan>, AllocError>
    requires rule { is_lowering rule ≡ false }
    requires shown { Some (header_of_node world.now.ctx node.now) ≡ head_at op (module_in world.now).tree }
    requires of { NodeIsOf world.now.ctx node.now }
    ensures edits { IfOk result (IsPlanAfter rule world.now op point.now) }
    ensures of { IfOk result (λ p. IfSome p (PlanIsOf world.now.ctx)) }
{
    let answer = plan_or_reason(alloc, world, rule, point, op, node)?;
    Ok(answer.ok())
}
