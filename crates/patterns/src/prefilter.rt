//! Cheap tests whether a rule may apply at an operation. They compute no diagnostics and take no memory.
ghost use Rattle.std.specs.Prelude.{◌≡◌, false, true, IfSome, Some, option_map};
ghost use Rattle.ir_event.specs.Modules.{module_in};
ghost use Rattle.patterns_plans.specs.reads.Reads.{head_at, header_of_node};
ghost use Rattle.patterns.specs.HighestPriority.{AreLikely, BeginsLikely, IsLeftOut, IsLikely};

use ir_event::store::node::Node;
use ir_event::types::ids::OpId;
use ir_event::world::World;
use patterns_lowering::region_rules::dead::is_dead;
use patterns_lowering::region_rules::tests::{may_choose, may_go_once, may_stop};
use patterns_plans::quick_checks::may_match;
use patterns_soundness::base::rule::Rule;

/// Returns whether a rule of canonicalization may apply at an operation. `node` is what the store shows of it.
pub(crate) fn is_likely(world: &World, rule: Rule, op: OpId, node: &Node<'_>) -> bool
    requires { Some (header_of_node world.now.ctx node.now) ≡ head_at op (module_in world.now).tree }
    ensures likely { result ≡ true → IsLikely rule world.now op }
    ensures left_out { result ≡ false → IsLeftOut rule world.now op }
{
    match rule {
        Rule::EraseDead => is_dead(world, op),
        Rule::OpenBranch => may_choose(world, node),
        Rule::OpenLoop => may_go_once(world, node),
        Rule::StopLoop => may_stop(world, op),
        _ => rule.is_canonical() && may_match(world, rule, op, node),
    }
}

/// Returns the rules from the first one that may apply at an operation, or `None` if none may. `node` is what the
/// store shows of the operation.
pub(crate) fn likely<'a>(
    world: &World,
    rules: &'a [Rule],
    op: OpId,
    node: &Node<'_>,
) -> Option<&'a [Rule]>
    requires { Some (header_of_node world.now.ctx node.now) ≡ head_at op (module_in world.now).tree }
    ensures likely { AreLikely rules.now world.now op (option_map (λ rest. rest.now) result) }
    ensures begins { IfSome result (λ rest. BeginsLikely rest.now world.now op) }
{
    let mut rest = rules;
    'rules: while let [rule, tail @ ..] = rest {
        if is_likely(world, *rule, op, node) {
            return Some(rest);
        }
        rest = tail;
    }
    None
}
