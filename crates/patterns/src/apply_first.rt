//! Applies the first rule of a list that applies at an operation.
ghost use Rattle.std.specs.Prelude.{◌≡◌, false, is_some, Err, IfOk, IfErr, IfSome, OnErr};
ghost use Rattle.ir_event.specs.types.declared.refusal.Refusal.TheVariants.{NoSuchOp};
ghost use Rattle.ir_event.specs.trees.Ids.{has_id};
ghost use Rattle.patterns_soundness.specs.base.Canonicalization.{first_rule};
ghost use Rattle.patterns_soundness.specs.base.Rewrites.{rewrite_of};
ghost use Rattle.patterns_lowering.specs.RewriterCalls.{JournalAfter};
ghost use Rattle.patterns_lowering.specs.Held.{module_held};
ghost use Rattle.patterns.specs.Applied.{Applied, RewriteOutcome, IsReason};
ghost use Rattle.patterns.specs.FirstMatching.{first_matching_rule};
ghost use Rattle.patterns.specs.Rows.{IsFirstOf, IsRuleTable};

use crate::apply_highest_priority::{MatchedRule, first_made};
use crate::apply_plan::apply_plan;
use crate::plan::PlacedPlan;
use crate::prefilter::likely;
use crate::rules_by_name::RulesByName;
use ir_event::analysis::Analysis;
use ir_event::types::ids::OpId;
use ir_event::types::refusal::Refusal;
use ir_event::world::World;
use patterns_lowering::Bench;
use patterns_plans::reads::eligibility::{Eligibility, eligibility_of};
use patterns_plans::reads::nodes::{insertion_point_before, op_node};
use patterns_soundness::base::laws::only_listed_rules_apply;
use patterns_soundness::base::rule::Rule;
use patterns_soundness::laws::no_edit_is_refused;
use std::alloc::{AllocError, Global};

/// Returns the first rule of a list that applies at `op`, with its plan. Computes the eligibility of `op` only if a
/// cheap test says that a rule may apply.
fn find_first(
    alloc: Global,
    world: &World,
    rows: &RulesByName<'_>,
    op: OpId,
) -> Result<Option<MatchedRule>, AllocError>
    requires { IsRuleTable rows.now }
    ensures { IfOk result (IsFirstOf rows.now.rules.now world.now op) }
{
    only_listed_rules_apply();
    world.ctx.sound();
    let Some(node) = op_node(world, op) else {
        return Ok(None);
    };
    let listed = rows.rules_for(node.name());
    let Some(rules) = likely(world, listed, op, &node) else {
        return Ok(None);
    };
    let Some(point) = insertion_point_before(world, op) else {
        return Ok(None);
    };
    let eligibility = eligibility_of(alloc, world, op, &node)?;
    if let Eligibility::Ineligible = eligibility {
        return Ok(None);
    }
    match first_made(alloc, world, rules, &point, op, &node, eligibility)? {
        Some((rule, made)) => Ok(Some(MatchedRule {
            rule,
            planned: PlacedPlan { point, made },
        })),
        None => Ok(None),
    }
}

/// Applies the first rule of a list that applies at `op`, and returns that rule. If none applies, the module, its
/// marks and the journal stay the same, and the result is `None`. Every rule of the list must be one of
/// canonicalization.
///
/// Errors, in order: `NoSuchOp` if the operation isn't in the module; `Full` if the rewrite would exceed the limit of
/// operations; `IdsExhausted` if it would exceed the limit of ids; `Full` if the context is full; `Memory` if memory
/// runs out.
pub fn apply_first<L: Analysis>(
    alloc: Global,
    bench: &mut Bench<L>,
    rows: &RulesByName<'_>,
    op: OpId,
) -> Result<Option<Rule>, Refusal>
    requires { IsRuleTable rows.now }
    ensures there { has_id op (module_held bench.old.transaction).tree ≡ false → result ≡ Err NoSuchOp }
    ensures ok { IfOk result (λ r. RewriteOutcome (first_rule rows.now.rules.now (module_held bench.old.transaction) op) (is_some r)
        (module_held bench.old.transaction) (module_held bench.new.transaction)) }
    ensures rule { IfOk result (λ r. IfSome r (λ r. first_rule rows.now.rules.now (module_held bench.old.transaction) op
        ≡ rewrite_of r (module_held bench.old.transaction) op)) }
    ensures applied { IfOk result (λ r. r ≡ first_matching_rule rows.now.rules.now (module_held bench.old.transaction) op) }
    ensures err { OnErr result (module_held bench.new.transaction ≡ module_held bench.old.transaction) }
    ensures refused { IfErr result (λ e. IsReason (first_rule rows.now.rules.now (module_held bench.old.transaction) op) op
        (module_held bench.old.transaction) bench.new.transaction.ctx e) }
    ensures stays { Applied L.meaning bench.old bench.new }
    ensures journal { JournalAfter L.meaning result bench.old bench.new }
{
    no_edit_is_refused();
    bench.is_wellformed();
    let world = bench.world();
    if !world.store.in_tree(op) {
        return Err(Refusal::NoSuchOp);
    }
    let Ok(first) = find_first(alloc, world, rows, op) else {
        return Err(Refusal::Memory);
    };
    let Some(found) = first else {
        return Ok(None);
    };
    let rule = found.rule;
    match apply_plan(alloc, bench, op, found.planned) {
        Ok(()) => Ok(Some(rule)),
        Err(refusal) => Err(refusal),
    }
}
