//! Plans a rule at an operation.
ghost use Rattle.std.specs.Prelude.{◌≡◌, false, true, IfOk, IfSome, Some, option_map};
ghost use Rattle.ir_event.specs.Modules.{NodeIsOf, module_in};
ghost use Rattle.ir_event.specs.trees.declared.place.Place.{Place as At};
ghost use Rattle.patterns_soundness.specs.base.Looks.{insertion_of};
ghost use Rattle.patterns_soundness.specs.base.Rewrites.{edits_of, eligible};
ghost use Rattle.patterns_soundness.specs.base.RuleNames.{is_lowering};
ghost use Rattle.patterns_soundness.specs.base.declared.rule.Rule.TheVariants.{EraseDead};
ghost use Rattle.patterns_plans.specs.Planned.{IsDead};
ghost use Rattle.patterns_lowering.specs.Planned.{IsVerifiedAt, IsLoweredAt};
ghost use Rattle.patterns_plans.specs.reads.Reads.{head_at, header_of_node};
ghost use Rattle.patterns.specs.Planned.{IsMadeFor, MadeIsOf, made_edits, planned_edits};

use ir_event::store::node::Node;
use ir_event::trees::place::Place;
use ir_event::types::ids::OpId;
use ir_event::world::World;
use patterns_lowering::plan::Lowering;
use patterns_lowering::plans::plan_lowered;
use patterns_lowering::region_rules::plan_rule::plan;
use patterns_plans::reads::eligibility::eligibility_of;
use patterns_plans::reads::nodes::{insertion_point_before, op_node};
use patterns_plans::reads::plan::RewritePlan;
use patterns_soundness::base::rule::Rule;
use std::alloc::{AllocError, Global};

/// The plan of a rule at an operation. Nothing is interned for it yet.
#[derive(Drop)]
pub enum RulePlan {
    /// The plan of a rule that doesn't lower.
    Rewrite(RewritePlan),
    /// The plan of a lowering rule. It is boxed because it is large and few rules make it.
    Lowering(Box<Lowering>),
}

/// The plan of a rule, with the place before its operation.
#[derive(Drop)]
pub struct PlacedPlan {
    pub point: Place,
    pub made: RulePlan,
}

/// Plans a lowering rule at a verified operation, or returns `None` if it doesn't apply. The function isn't inlined,
/// since its result is large.
#[inline(never)]
fn made_lowered(
    alloc: Global,
    world: &World,
    rule: Rule,
    op: OpId,
) -> Result<Option<RulePlan>, AllocError>
    requires rule { is_lowering rule ≡ true }
    requires verified { IsVerifiedAt world.now op }
    ensures edits { IfOk result (λ p. (point : At) → IsMadeFor rule world.now op point p) }
    ensures of { IfOk result (λ p. IfSome p (MadeIsOf world.now.ctx)) }
{
    match plan_lowered(alloc, world, rule, op)? {
        Ok(lowering) => Ok(Some(RulePlan::Lowering(Box::new(alloc, lowering)?))),
        Err(_) => Ok(None),
    }
}

/// Plans a rule, or returns `None` if it doesn't apply. `node` is what the store shows of the operation. The caller
/// has checked that the operation is eligible for the rule and comes after `point`. An operation that is eligible for
/// a lowering rule is verified.
#[inline(always)]
fn made_of(
    alloc: Global,
    world: &World,
    rule: Rule,
    point: &Place,
    op: OpId,
    node: &Node<'_>,
) -> Result<Option<RulePlan>, AllocError>
    requires shown { Some (header_of_node world.now.ctx node.now) ≡ head_at op (module_in world.now).tree }
    requires of { NodeIsOf world.now.ctx node.now }
    requires verified { is_lowering rule ≡ true → IsVerifiedAt world.now op }
    ensures edits { IfOk result (IsMadeFor rule world.now op point.now) }
    ensures of { IfOk result (λ p. IfSome p (MadeIsOf world.now.ctx)) }
{
    if rule.is_lowering() {
        return made_lowered(alloc, world, rule, op);
    }
    match plan(alloc, world, rule, point, op, node)? {
        Some(plan) => Ok(Some(RulePlan::Rewrite(plan))),
        None => Ok(None),
    }
}

/// Plans a rule at an operation that is eligible for it, or returns `None` if the rule doesn't apply. `node` is what
/// the store shows of the operation, and `point` is the place before it.
#[inline(always)]
pub(crate) fn made_at(
    alloc: Global,
    world: &World,
    rule: Rule,
    point: &Place,
    op: OpId,
    node: &Node<'_>,
) -> Result<Option<RulePlan>, AllocError>
    requires shown { Some (header_of_node world.now.ctx node.now) ≡ head_at op (module_in world.now).tree }
    requires of { NodeIsOf world.now.ctx node.now }
    requires point { Some point.now ≡ insertion_of op (module_in world.now).tree }
    requires eligible { eligible rule (module_in world.now).tree (record (header_of_node world.now.ctx node.now) { id = op })
        ≡ true }
    ensures edits { IfOk result (λ p. option_map (made_edits world.now.ctx (module_in world.now).next op point.now) p
        ≡ edits_of rule (module_in world.now) op) }
    ensures of { IfOk result (λ p. IfSome p (MadeIsOf world.now.ctx)) }
{
    made_of(alloc, world, rule, point, op, node)
}

/// Plans the erasure of a dead operation that is in order. `point` is the place before it.
pub(crate) fn made_dead(world: &World, point: &Place, op: OpId, node: &Node<'_>) -> Option<RulePlan>
    requires dead { IsDead world.now op }
    requires shown { Some (header_of_node world.now.ctx node.now) ≡ head_at op (module_in world.now).tree }
    requires point { Some point.now ≡ insertion_of op (module_in world.now).tree }
    requires eligible { eligible EraseDead (module_in world.now).tree (record (header_of_node world.now.ctx node.now) { id = op })
        ≡ true }
    ensures edits { option_map (made_edits world.now.ctx (module_in world.now).next op point.now) result
        ≡ edits_of EraseDead (module_in world.now) op }
    ensures of { IfSome result (MadeIsOf world.now.ctx) }
{
    Some(RulePlan::Rewrite(RewritePlan::Erase))
}

/// Plans a rule at `op`, or returns `None` if the rule doesn't apply.
pub(crate) fn find_plan(
    alloc: Global,
    world: &World,
    rule: Rule,
    op: OpId,
) -> Result<Option<PlacedPlan>, AllocError>
    ensures edits { IfOk result (λ p. option_map (planned_edits world.now.ctx (module_in world.now).next op) p
        ≡ edits_of rule (module_in world.now) op) }
    ensures of { IfOk result (λ p. IfSome p (λ p. MadeIsOf world.now.ctx p.made)) }
{
    let Some(node) = op_node(world, op) else {
        return Ok(None);
    };
    let Some(point) = insertion_point_before(world, op) else {
        return Ok(None);
    };
    let eligibility = eligibility_of(alloc, world, op, &node)?;
    if !eligibility.allows(rule) {
        return Ok(None);
    }
    match made_at(alloc, world, rule, &point, op, &node)? {
        Some(made) => Ok(Some(PlacedPlan { point, made })),
        None => Ok(None),
    }
}
