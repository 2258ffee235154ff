//! Plans the rule on dead operations.
ghost use Rattle.std.specs.Prelude.{◌≡◌, ◌<◌, ℕ, IfOk, None, false, is_ok, true};
ghost use Rattle.std.specs.Result.{result_err, result_ok};
ghost use Rattle.ir_event.specs.trees.declared.value.Value.TheVariants.{Result as result_of};
ghost use Rattle.ir_event.specs.tree_laws.Values.{has_value};
ghost use Rattle.ir_event.specs.Modules.{module_in};
ghost use Rattle.effects.specs.Dead.{is_unused};
ghost use Rattle.patterns_plans.specs.Conditions.{first_failed_test};
ghost use Rattle.patterns_plans.specs.Planned.{IsDead, IsPlanAt};
ghost use Rattle.patterns_plans.specs.RuleTests.{dead_tests};
ghost use Rattle.patterns_plans.specs.reads.Plans.{PlanIsOf};
ghost use Rattle.patterns_plans.specs.reads.Rule.TheVariants.{EraseDead};

use effects::dead_op::dead_op;
use ir_event::trees::value::Value;
use ir_event::types::ids::OpId;
use ir_event::world::World;
use patterns_plans::reads::plan::RewritePlan;
use patterns_plans::reason::Reason;

/// Returns whether an operation is dead. The rule applies only at dead operations.
pub fn is_dead(world: &World, op: OpId) -> bool
    ensures dead { result ≡ true → IsDead world.now op }
    ensures left_out { result ≡ false → IsPlanAt EraseDead world.now op None }
{
    dead_op(world, op)
}

/// Returns the number of results of an operation of the module.
fn result_count(world: &World, op: OpId) -> u32
    ensures { (k : ℕ) → has_value (result_of op k) world.now.store.module_of.tree ≡ true → k < result }
{
    match world.shown(op) {
        Some(node) => node.results().len() as u32,
        None => 0,
    }
}

/// Returns whether no result of `op` has a use.
pub fn is_unused(world: &World, op: OpId) -> bool
    ensures { result ≡ is_unused op (module_in world.now).tree }
{
    let count = result_count(world, op);
    let mut number = 0;
    'results: while number < count {
        if world.store.first_use(Value::Result(op, number)).is_some() {
            return false;
        }
        number += 1;
    }
    true
}

/// Plans `erase-dead`: a dead operation is erased. Otherwise a result of the operation is used, or it has effects.
#[inline(never)]
pub(crate) fn plan_erase_dead(world: &World, op: OpId) -> Result<RewritePlan, Reason>
    ensures edits { IsPlanAt EraseDead world.now op (result_ok result) }
    ensures reason { result_err result ≡ first_failed_test (dead_tests op (module_in world.now).tree (is_ok result)) }
    ensures fits_in { IfOk result (PlanIsOf world.now.ctx) }
{
    if dead_op(world, op) {
        return Ok(RewritePlan::Erase);
    }
    if is_unused(world, op) {
        return Err(Reason::HasEffects);
    }
    Err(Reason::Used)
}
