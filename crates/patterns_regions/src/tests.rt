//! Cheap necessary tests for the rules on branches and loops. They read names and take no memory.
ghost use Rattle.std.specs.Prelude.{◌≡◌, false, None};
ghost use Rattle.ir_event.specs.trees.declared.place.Place.{Place as At};
ghost use Rattle.ir_event.specs.trees.Tree.{head};
ghost use Rattle.ir_event.specs.trees.Meaning.{Operation};
ghost use Rattle.ir_event.specs.Modules.{module_in};
ghost use Rattle.patterns_plans.specs.reads.rules.Opening.{open_branch, open_loop};
ghost use Rattle.patterns_plans.specs.reads.Reads.{header_of_node};
ghost use Rattle.patterns_regions.specs.RegionRules.{stop_loop_at};

use ir_event::store::node::Node;
use ir_event::types::ids::OpId;
use ir_event::world::World;
use patterns_plans::reads::nodes::{is_constant, op_node};

/// Returns whether the one operand of an operation is the result of a constant.
pub fn may_choose(world: &World, node: &Node<'_>) -> bool
    ensures { (point : At) (o : Operation) → head o ≡ header_of_node world.now.ctx node.now → result ≡ false
        → open_branch (module_in world.now).tree point o ≡ None }
{
    let [condition] = node.operands() else {
        return false;
    };
    is_constant(world, condition)
}

/// Returns whether the first two operands of an operation are results of constants.
pub fn may_go_once(world: &World, node: &Node<'_>) -> bool
    ensures { (point : At) (o : Operation) → head o ≡ header_of_node world.now.ctx node.now → result ≡ false
        → open_loop (module_in world.now).tree point o ≡ None }
{
    let [lower, upper, ..] = node.operands() else {
        return false;
    };
    if !is_constant(world, lower) {
        return false;
    }
    is_constant(world, upper)
}

/// Returns whether the first operand of the last operation of block 0 is the result of a constant.
pub fn may_stop(world: &World, op: OpId) -> bool
    ensures { (point : At) → result ≡ false → stop_loop_at op (module_in world.now).tree point ≡ None }
{
    let Some(last) = world.store.last(op, 0) else {
        return false;
    };
    let Some(node) = op_node(world, last) else {
        return false;
    };
    let [condition, ..] = node.operands() else {
        return false;
    };
    is_constant(world, condition)
}
