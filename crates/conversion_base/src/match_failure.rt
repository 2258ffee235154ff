//! Finds the reason why a rule doesn't apply at an operation.
ghost use Rattle.std.specs.Prelude.{◌≡◌, IfOk, Some, true};
ghost use Rattle.std.specs.List.{list_any};
ghost use Rattle.ir_event.specs.types.Terms.{name_term};
ghost use Rattle.ir_event.specs.Modules.{NodeIsOf, module_in};
ghost use Rattle.patterns_base.specs.RuleNames.{same_rule};
ghost use Rattle.patterns_base.specs.Rewrites.{eligible};
ghost use Rattle.patterns_base.specs.Rules.{has_rule};
ghost use Rattle.patterns_lowering.specs.region_rules.reads.Reads.{head_at, header_of_node};
ghost use Rattle.conversion_base.specs.Reasons.{IsReasonAt, reason_of};

use ir_event::store::node::Node;
use ir_event::trees::place::Place;
use ir_event::types::context::Context;
use ir_event::types::ids::{NameId, OpId};
use ir_event::world::World;
use patterns_base::rule::Rule;
use patterns_base::table::rules_of;
use patterns_lowering::plans::plan_lowered;
use patterns_lowering::reads::eligibility::eligibility_of;
use patterns_lowering::reads::nodes::{insertion_point_before, op_node};
use patterns_lowering::region_rules::plan_rule::plan_or_reason;
use patterns_lowering::region_rules::reason::Reason;
use std::alloc::{AllocError, Global};

/// Returns whether a rule is in a list.
fn is_among(rule: Rule, rules: &[Rule]) -> bool
    ensures { result ≡ list_any (same_rule rule) rules.now }
{
    let mut rest = rules;
    'rules: while let [other, tail @ ..] = rest {
        if rule.number() == other.number() {
            return true;
        }
        rest = tail;
    }
    false
}

/// Returns whether the table lists a rule for an operation name.
fn has_rule(ctx: &Context, rule: Rule, name: NameId) -> bool
    ensures { result ≡ has_rule rule (name_term ctx.now name) }
{
    ctx.sound();
    is_among(rule, rules_of(name))
}

/// Returns the first failed condition of a rule at an eligible operation of the module, or `None` if all hold. `node`
/// is what the store shows of the operation, and `point` is the place before it.
fn reason_at(
    alloc: Global,
    world: &World,
    rule: Rule,
    point: &Place,
    op: OpId,
    node: &Node<'_>,
) -> Result<Option<Reason>, AllocError>
    requires shown { Some (header_of_node world.now.ctx node.now) ≡ head_at op (module_in world.now).tree }
    requires of { NodeIsOf world.now.ctx node.now }
    requires eligible { eligible rule (module_in world.now).tree (record (header_of_node world.now.ctx node.now) { id = op })
        ≡ true }
    ensures { IfOk result (IsReasonAt rule (module_in world.now) op point.now) }
{
    if rule.is_lowering() {
        let answer = plan_lowered(alloc, world, rule, op)?;
        return Ok(answer.err());
    }
    let answer = plan_or_reason(alloc, world, rule, point, op, node)?;
    Ok(answer.err())
}

/// Returns the first condition of a rule, in their order, that doesn't hold at an operation of the module. Returns
/// `None` if the rule applies, or if the operation isn't in the module.
///
/// Errors: `AllocError` if memory runs out.
pub fn failing_reason(
    alloc: Global,
    world: &World,
    rule: Rule,
    op: OpId,
) -> Result<Option<Reason>, AllocError>
    ensures { IfOk result (λ c. c ≡ reason_of rule (module_in world.now) op) }
{
    let Some(node) = op_node(world, op) else {
        return Ok(None);
    };
    let Some(point) = insertion_point_before(world, op) else {
        return Ok(Some(Reason::IsRoot));
    };
    let eligibility = eligibility_of(alloc, world, op, &node)?;
    if !eligibility.allows(rule) {
        return Ok(Some(Reason::NotVerified));
    }
    if !has_rule(&world.ctx, rule, node.name()) {
        return Ok(Some(Reason::WrongOperation));
    }
    reason_at(alloc, world, rule, &point, op, &node)
}
