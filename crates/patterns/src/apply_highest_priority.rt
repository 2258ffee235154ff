//! Applies the highest-priority rule that applies at an operation.
ghost use Rattle.std.specs.Prelude.{◌≡◌, false, true, is_some, Err, IfOk, IfErr, IfSome, OnErr, Some};
ghost use Rattle.ir_event.specs.types.declared.refusal.Refusal.TheVariants.{NoSuchOp};
ghost use Rattle.ir_event.specs.trees.Ids.{has_id};
ghost use Rattle.ir_event.specs.Modules.{NodeIsOf, module_in};
ghost use Rattle.patterns_soundness.specs.base.Canonicalization.{greedy_rules, highest_priority as highest_priority_of};
ghost use Rattle.patterns_soundness.specs.base.Looks.{insertion_of};
ghost use Rattle.patterns_soundness.specs.base.Rewrites.{rewrite_of};
ghost use Rattle.patterns_plans.specs.reads.Reads.{head_at, header_of_node};
ghost use Rattle.patterns_plans.specs.reads.Suited.{IsEligibilityOf};
ghost use Rattle.patterns_lowering.specs.RewriterCalls.{JournalAfter};
ghost use Rattle.patterns_lowering.specs.Held.{module_held};
ghost use Rattle.patterns.specs.Applied.{Applied, RewriteOutcome, IsReason};
ghost use Rattle.patterns.specs.FirstMatching.{first_matching_rule};
ghost use Rattle.patterns.specs.HighestPriority.{BeginsLikely, IsFirst, IsLikely, IsHighestPriority, FirstMatch};

use crate::apply_plan::apply_plan;
use crate::plan::{PlacedPlan, RulePlan, made_at, made_dead};
use crate::prefilter::{is_likely, likely};
use ir_event::analysis::Analysis;
use ir_event::store::node::Node;
use ir_event::trees::place::Place;
use ir_event::types::ids::OpId;
use ir_event::types::refusal::Refusal;
use ir_event::world::World;
use patterns_lowering::Bench;
use patterns_plans::reads::eligibility::{Eligibility, eligibility_of};
use patterns_plans::reads::nodes::{insertion_point_before, op_node};
use patterns_soundness::base::laws::only_listed_rules_apply;
use patterns_soundness::base::rule::Rule;
use patterns_soundness::base::table::rules_of;
use patterns_soundness::laws::no_edit_is_refused;
use std::alloc::{AllocError, Global};

/// A rule that applies at an operation, with its plan.
#[derive(Drop)]
pub struct MatchedRule {
    pub rule: Rule,
    pub planned: PlacedPlan,
}

/// Plans a canonicalization rule that may apply at an operation. `node` is what the store shows of that operation, and
/// `point` is the place before it.
#[inline(always)]
fn try_likely(
    alloc: Global,
    world: &World,
    rule: Rule,
    point: &Place,
    op: OpId,
    node: &Node<'_>,
    eligibility: Eligibility,
) -> Result<Option<RulePlan>, AllocError>
    requires likely { IsLikely rule world.now op }
    requires shown { Some (header_of_node world.now.ctx node.now) ≡ head_at op (module_in world.now).tree }
    requires of { NodeIsOf world.now.ctx node.now }
    requires point { Some point.now ≡ insertion_of op (module_in world.now).tree }
    requires eligibility { IsEligibilityOf (module_in world.now).tree (record (header_of_node world.now.ctx node.now) { id = op })
        eligibility }
    ensures { IfOk result (FirstMatch rule world.now op point.now) }
{
    if !eligibility.allows(rule) {
        return Ok(None);
    }
    match rule {
        Rule::EraseDead => Ok(made_dead(world, point, op, node)),
        _ => made_at(alloc, world, rule, point, op, node),
    }
}

/// Plans a canonicalization rule at an operation. `node` is what the store shows of that operation, and `point` is the
/// place before it.
fn try_rule(
    alloc: Global,
    world: &World,
    rule: Rule,
    point: &Place,
    op: OpId,
    node: &Node<'_>,
    eligibility: Eligibility,
) -> Result<Option<RulePlan>, AllocError>
    requires shown { Some (header_of_node world.now.ctx node.now) ≡ head_at op (module_in world.now).tree }
    requires of { NodeIsOf world.now.ctx node.now }
    requires point { Some point.now ≡ insertion_of op (module_in world.now).tree }
    requires eligibility { IsEligibilityOf (module_in world.now).tree (record (header_of_node world.now.ctx node.now) { id = op })
        eligibility }
    ensures { IfOk result (FirstMatch rule world.now op point.now) }
{
    if !is_likely(world, rule, op, node) {
        return Ok(None);
    }
    try_likely(alloc, world, rule, point, op, node, eligibility)
}

/// Returns the first of some rules that applies at an operation, with its plan. `node` is what the store shows of that
/// operation, and `point` is the place before it.
#[inline(never)]
fn first_applying(
    alloc: Global,
    world: &World,
    rules: &[Rule],
    point: &Place,
    op: OpId,
    node: &Node<'_>,
    eligibility: Eligibility,
) -> Result<Option<(Rule, RulePlan)>, AllocError>
    requires shown { Some (header_of_node world.now.ctx node.now) ≡ head_at op (module_in world.now).tree }
    requires of { NodeIsOf world.now.ctx node.now }
    requires point { Some point.now ≡ insertion_of op (module_in world.now).tree }
    requires eligibility { IsEligibilityOf (module_in world.now).tree (record (header_of_node world.now.ctx node.now) { id = op })
        eligibility }
    ensures { IfOk result (IsFirst rules.now world.now op point.now) }
{
    let mut rest = rules;
    'rules: while let [rule, tail @ ..] = rest {
        if let Some(made) = try_rule(alloc, world, *rule, point, op, node, eligibility)? {
            return Ok(Some((*rule, made)));
        }
        rest = tail;
    }
    Ok(None)
}

/// Returns the first of some rules that applies, with its plan. The first rule of the list is already known to pass
/// the cheap test.
#[inline(always)]
pub(crate) fn first_made(
    alloc: Global,
    world: &World,
    rules: &[Rule],
    point: &Place,
    op: OpId,
    node: &Node<'_>,
    eligibility: Eligibility,
) -> Result<Option<(Rule, RulePlan)>, AllocError>
    requires begins { BeginsLikely rules.now world.now op }
    requires shown { Some (header_of_node world.now.ctx node.now) ≡ head_at op (module_in world.now).tree }
    requires of { NodeIsOf world.now.ctx node.now }
    requires point { Some point.now ≡ insertion_of op (module_in world.now).tree }
    requires eligibility { IsEligibilityOf (module_in world.now).tree (record (header_of_node world.now.ctx node.now) { id = op })
        eligibility }
    ensures { IfOk result (IsFirst rules.now world.now op point.now) }
{
    let [rule, others @ ..] = rules else {
        return Ok(None);
    };
    match try_likely(alloc, world, *rule, point, op, node, eligibility)? {
        Some(made) => Ok(Some((*rule, made))),
        None => first_applying(alloc, world, others, point, op, node, eligibility),
    }
}

/// Returns the highest-priority rule that applies at `op`, with its plan. Computes the eligibility of `op` only if a
/// cheap test says that a rule may apply.
fn find_highest_priority(
    alloc: Global,
    world: &World,
    op: OpId,
) -> Result<Option<MatchedRule>, AllocError>
    ensures { IfOk result (IsHighestPriority world.now op) }
{
    only_listed_rules_apply();
    world.ctx.sound();
    let Some(node) = op_node(world, op) else {
        return Ok(None);
    };
    let listed = rules_of(node.name());
    let Some(rules) = likely(world, listed, op, &node) else {
        return Ok(None);
    };
    let Some(point) = insertion_point_before(world, op) else {
        return Ok(None);
    };
    let eligibility = eligibility_of(alloc, world, op, &node)?;
    if let Eligibility::Ineligible = eligibility {
        return Ok(None);
    }
    match first_made(alloc, world, rules, &point, op, &node, eligibility)? {
        Some((rule, made)) => Ok(Some(MatchedRule {
            rule,
            planned: PlacedPlan { point, made },
        })),
        None => Ok(None),
    }
}

/// Applies the highest-priority rule of canonicalization that applies at `op`, and returns that rule. If none applies,
/// the module, its marks and the journal stay the same, and the result is `None`.
///
/// Errors, in order: `NoSuchOp` if the operation isn't in the module; `Full` if the rewrite would exceed the limit of
/// operations; `IdsExhausted` if it would exceed the limit of ids; `Full` if the context is full; `Memory` if memory
/// runs out.
pub fn apply_highest_priority<L: Analysis>(
    alloc: Global,
    bench: &mut Bench<L>,
    op: OpId,
) -> Result<Option<Rule>, Refusal>
    ensures there { has_id op (module_held bench.old.transaction).tree ≡ false → result ≡ Err NoSuchOp }
    ensures ok { IfOk result (λ r. RewriteOutcome (highest_priority_of (module_held bench.old.transaction) op) (is_some r)
        (module_held bench.old.transaction) (module_held bench.new.transaction)) }
    ensures rule { IfOk result (λ r. IfSome r (λ r. highest_priority_of (module_held bench.old.transaction) op
        ≡ rewrite_of r (module_held bench.old.transaction) op)) }
    ensures applied { IfOk result (λ r. r ≡ first_matching_rule greedy_rules (module_held bench.old.transaction) op) }
    ensures err { OnErr result (module_held bench.new.transaction ≡ module_held bench.old.transaction) }
    ensures refused { IfErr result (λ e. IsReason (highest_priority_of (module_held bench.old.transaction) op) op
        (module_held bench.old.transaction) bench.new.transaction.ctx e) }
    ensures stays { Applied L.meaning bench.old bench.new }
    ensures journal { JournalAfter L.meaning result bench.old bench.new }
{
    no_edit_is_refused();
    bench.is_wellformed();
    let world = bench.world();
    if !world.store.in_tree(op) {
        return Err(Refusal::NoSuchOp);
    }
    let Ok(highest_rule) = find_highest_priority(alloc, world, op) else {
        return Err(Refusal::Memory);
    };
    let Some(found) = highest_rule else {
        return Ok(None);
    };
    let rule = found.rule;
    match apply_plan(alloc, bench, op, found.planned) {
        Ok(()) => Ok(Some(rule)),
        Err(refusal) => Err(refusal),
    }
}
