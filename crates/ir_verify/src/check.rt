//! Checks one operation.
ghost use Rattle.std.specs.Prelude.{◌≡◌, ◌≤◌, ◌+◌, Some, MatchResult};
ghost use Rattle.ir_tree.specs.Ids.{find};
ghost use Rattle.ir_verify_base.specs.events.Modules.{module_in};
ghost use Rattle.ir_verify_base.specs.Gathered.{gather_looks, tree_in};
ghost use Rattle.ir_verify.specs.Diagnostics.{broken_at, Unchecked};

use crate::rules::RuleSet;
use ir_types::ids::OpId;
use ir_types::refusal::Refusal;
use ir_verify_base::events::view::View;
use ir_verify_base::events::world::World;
use ir_verify_base::fact::fact_at;
use std::alloc::Global;

/// Returns the numbers of the rules that an operation of the module breaks, in ascending order.
///
/// Refusals: `NoSuchOp` if the operation isn't in the module; `Memory`.
pub fn check_op(alloc: Global, world: &World, op: OpId) -> Result<Vec<u8>, Refusal>
    ensures { MatchResult result (λ rules. broken_at op (module_in world.now).tree ≡ Some rules.items)
        (Unchecked op (module_in world.now).tree) }
{
    let mut view = View::new(world);
    check_in(alloc, &mut view, op)
}

/// Returns the numbers of the rules that an operation of the view's module breaks, in ascending order. The number of
/// looks is at most that of gathering the operation's context.
pub fn check_in(alloc: Global, view: &mut View<'_>, op: OpId) -> Result<Vec<u8>, Refusal>
    ensures rules { MatchResult result (λ rules. broken_at op (module_in view.old.world.now).tree ≡ Some rules.items)
        (Unchecked op (module_in view.old.world.now).tree) }
    ensures looks { view.new.looks ≤ view.old.looks + gather_looks (find op (tree_in view.old.world.now)) }
    ensures world { view.new.world.now ≡ view.old.world.now }
{
    let found = match fact_at::<RuleSet>(alloc, view, op) {
        Ok(found) => found,
        Err(_) => return Err(Refusal::Memory),
    };
    let Some(rules) = found else {
        return Err(Refusal::NoSuchOp);
    };
    match rules.numbers(alloc) {
        Ok(numbers) => Ok(numbers),
        Err(_) => Err(Refusal::Memory),
    }
}
